//! The scanner for programs in C.

ghost use Rattle.std.specs.Prelude.{◌≡◌, ◌≢◌, ◌∷◌, ℕ, List, ◌++◌, drop, length, take};
ghost use Rattle.lis_c.specs.declared.handle_state.ScannerHandleState.{ScannerHandleState};
ghost use Rattle.lis_c.specs.Limits.{LimitStatus, NewScanner, ScansFor, scanner_limit, scanner_text};
ghost use Rattle.lis_c.specs.Signals.{FedAndAnswered, ReportsSignal};
ghost use Rattle.lis_c.specs.Status.{OK, copy_status};
ghost use Rattle.lis_frame.specs.Stream.{signal_after, stream_with};
ghost use Rattle.lis_c.specs.New.{IsNewScanner, type_align};
ghost use Rattle.lis_c.specs.contracts.handle_state.ScannerHandleState.{the_row as handle_state_row};
ghost use Rattle.std.specs.Borrow.{sem};
ghost use Rattle.std.specs.Mem.{type_size};
ghost use Rattle.std.specs.Ptr.{room_at};

use crate::handle_state::{ScannerHandleState, release_scanner};
use crate::out::{LisSignal, copy_text};
use crate::scanning::AnyScanner;
use crate::status;
use std::alloc::Global;
use std::marker::Model;
use std::mem::{align_of, size_of};

/// A scanner, held by a pointer that C hands back as it got it.
#[repr(C)]
pub struct LisScanner {
    at: *mut u8,
    ghost state: { ScannerHandleState },
}

impl Model for LisScanner {
    ghost use Rattle.std.specs.Borrow.{full_share};
    ghost use Rattle.std.specs.Ptr.{lies_at};
    ghost use Rattle.lis_c.specs.contracts.handle_state.ScannerHandleState.{the_row};

    ghost also_owns = { λ h. lies_at the_row full_share h.at h.state };
}

impl LisScanner {
    ghost use Rattle.lis_c.specs.contracts.handle_state.ScannerHandleState.{the_row as handle_state_row};
    ghost use Rattle.lis_c.specs.contracts.scanner.LisScanner.{the_row};
    ghost use Rattle.std.specs.Borrow.{Lends, sem};

    /// What the pointer points to.
    fn borrow(&mut self) -> &mut ScannerHandleState
        ensures* writes_back { sem 𝓛 (Lends the_row handle_state_row self.entry result
            (λ w. record self.old { state = w })) }
        ensures value { result.now ≡ self.old.state }
    {
        unsafe { &mut *(self.at as *mut ScannerHandleState) }
    }
}

/// The number of bytes of a scanner's block.
#[unsafe(no_mangle)]
pub extern "C" fn lis_scanner_size() -> usize
    ensures { result ≡ type_size handle_state_row }
{
    size_of::<ScannerHandleState>()
}

/// What the address of a scanner's block is a multiple of.
#[unsafe(no_mangle)]
pub extern "C" fn lis_scanner_align() -> usize
    ensures { result ≡ type_align handle_state_row }
{
    align_of::<ScannerHandleState>()
}

/// Makes a scanner that has read no byte in a block of the caller's.
#[unsafe(no_mangle)]
pub unsafe extern "C" fn lis_scanner_init(alloc: Global, at: *mut u8)
    requires* { sem 𝓛 (room_at handle_state_row at) }
    ensures* { sem 𝓛 (IsNewScanner at) }
{
    (at as *mut ScannerHandleState).write(ScannerHandleState::new(alloc));
}

/// Sets how long the text of a frame may be, 240 bytes or 63,993, and begins anew: `OK`; `BAD_NUMBER` if it is another
/// limit; `OUT_OF_MEMORY`. Nothing has changed unless it is `OK`. Only the long limit takes memory.
#[unsafe(no_mangle)]
pub extern "C" fn lis_scanner_set_limit(alloc: Global, s: &mut LisScanner, limit: usize) -> u8
    ensures status { LimitStatus result limit }
    ensures set { result ≡ OK → NewScanner limit s.new.state.scanner }
    ensures refused { result ≢ OK → s.new.state ≡ s.old.state }
{
    let scanner = match limit {
        240 => AnyScanner::usual(),
        63_993 => match AnyScanner::long(alloc) {
            Ok(scanner) => scanner,
            Err(_) => return status::OUT_OF_MEMORY,
        },
        _ => return status::BAD_NUMBER,
    };
    s.borrow().scanner = scanner;
    status::OK
}

/// Reads one byte, and reports the signal that it gives.
#[unsafe(no_mangle)]
pub extern "C" fn lis_scanner_push(s: &mut LisScanner, byte: u8, out: &mut LisSignal)
    ensures signal { (past : List ℕ) → ScansFor s.old.state.scanner past →
        ReportsSignal (signal_after (scanner_limit s.old.state.scanner) past byte) out.new
        (scanner_text s.new.state.scanner) }
    ensures after { (past : List ℕ) → ScansFor s.old.state.scanner past →
        ScansFor s.new.state.scanner (byte ∷ past) }
    ensures limit { scanner_limit s.new.state.scanner ≡ scanner_limit s.old.state.scanner }
{
    s.borrow().scanner.push(byte, out);
}

/// Reads bytes up to the first that gives a signal, or all of them where none does, reports the signal, and answers how
/// many it read.
#[unsafe(no_mangle)]
pub extern "C" fn lis_scanner_feed(s: &mut LisScanner, bytes: &[u8], out: &mut LisSignal) -> usize
    ensures signal { (past : List ℕ) → ScansFor s.old.state.scanner past →
        FedAndAnswered (scanner_limit s.old.state.scanner) past bytes.now result out.new
        (scanner_text s.new.state.scanner) }
    ensures after { (past : List ℕ) → ScansFor s.old.state.scanner past →
        ScansFor s.new.state.scanner (stream_with past (take result bytes.now)) }
    ensures limit { scanner_limit s.new.state.scanner ≡ scanner_limit s.old.state.scanner }
{
    s.borrow().scanner.feed(bytes, out)
}

/// The length of the text of the frame that was read last, if a signal has no room for it; else 0.
#[unsafe(no_mangle)]
pub extern "C" fn lis_scanner_text_len(s: &mut LisScanner) -> usize
    ensures value { result ≡ length (scanner_text s.old.state.scanner) }
    ensures same { s.new.state ≡ s.old.state }
{
    s.borrow().scanner.text().len()
}

/// Copies that text to the front of a buffer. `TOO_SHORT`, and nothing is copied, if it is longer than the buffer.
#[unsafe(no_mangle)]
pub extern "C" fn lis_scanner_text(s: &mut LisScanner, out: &mut [u8]) -> u8
    ensures status { result ≡ copy_status (length out.old) (length (scanner_text s.old.state.scanner)) }
    ensures copied { result ≡ OK → out.new
        ≡ scanner_text s.old.state.scanner ++ drop (length (scanner_text s.old.state.scanner)) out.old }
    ensures refused { result ≢ OK → out.new ≡ out.old }
    ensures same { s.new.state ≡ s.old.state }
{
    let mut size = 0;
    copy_text(s.borrow().scanner.text(), out, &mut size)
}

/// Ends a scanner; its block is the caller's again.
#[unsafe(no_mangle)]
pub extern "C" fn lis_scanner_end(s: LisScanner)
    ensures* { sem 𝓛 (room_at handle_state_row s.at) }
{
    let LisScanner { at } = s;
    release_scanner(unsafe { (at as *mut ScannerHandleState).read() });
}
