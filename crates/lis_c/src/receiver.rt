//! The receiver for programs in C.

ghost use Rattle.std.specs.Prelude.{◌≡◌, ◌≢◌, ◌≤◌, ◌<◌, ◌⊎◌, ◌∷◌, ◌++◌, [], None, Some, drop, false, length};
ghost use Rattle.std.specs.Prelude.{if◌then◌else◌, max, nat_lt, take};
ghost use Rattle.lis_c.specs.declared.handle_state.ReceiverHandleState.{ReceiverHandleState};
ghost use Rattle.lis_c.specs.Careful.{counted, heard_set, noise_set, noises_set, on_byte_set, on_bytes_set};
ghost use Rattle.lis_c.specs.Codes.{readiness_code};
ghost use Rattle.lis_c.specs.Limits.{LimitStatus, Receives, kept_by, receiver_limit, spare_of};
ghost use Rattle.lis_c.specs.New.{IsNewReceiver, type_align};
ghost use Rattle.lis_c.specs.Status.{BAD_NUMBER, OK, OUT_OF_MEMORY, ReserveStatus, TOO_LONG, copy_status};
ghost use Rattle.lis_c.specs.Steps.{IsNotOutOfMemory, IsOutOfMemory, ReportsRefusedFrame, MakesStep};
ghost use Rattle.lis_c.specs.Within.{HasReserved, KeepsLimits, NewReceiverState};
ghost use Rattle.lis_c.specs.contracts.handle_state.ReceiverHandleState.{the_row as handle_state_row};
ghost use Rattle.lis_text.specs.LinkText.{longest_text};
ghost use Rattle.lis_text.specs.declared.readiness.Readiness.{Readiness};
ghost use Rattle.lis_link.specs.Receiver.{ReceiverState, on_receiver_timer, receiver_restarted};
ghost use Rattle.lis_link.specs.Receiver.{held_length, with_readiness, with_room};
ghost use Rattle.lis_link.specs.Representation.{SpareAfter};
ghost use Rattle.std.specs.Borrow.{sem};
ghost use Rattle.std.specs.Mem.{type_size};
ghost use Rattle.std.specs.Ptr.{room_at};

use crate::handle_state::{ReceiverHandleState, release_receiver};
use crate::out::{LisStep, copy_text};
use crate::receiving::AnyReceiver;
use crate::status;
use lis_link::Readiness;
use lis_text::LONGEST_TEXT;
use std::alloc::Global;
use std::marker::Model;
use std::mem::{align_of, size_of};

/// A receiver, held by a pointer that C hands back as it got it.
#[repr(C)]
pub struct LisReceiver {
    at: *mut u8,
    ghost state: { ReceiverHandleState },
}

impl Model for LisReceiver {
    ghost use Rattle.std.specs.Borrow.{full_share};
    ghost use Rattle.std.specs.Ptr.{lies_at};
    ghost use Rattle.lis_c.specs.contracts.handle_state.ReceiverHandleState.{the_row};

    ghost also_owns = { λ h. lies_at the_row full_share h.at h.state };
}

impl LisReceiver {
    ghost use Rattle.lis_c.specs.contracts.handle_state.ReceiverHandleState.{the_row as handle_state_row};
    ghost use Rattle.lis_c.specs.contracts.receiver.LisReceiver.{the_row};
    ghost use Rattle.std.specs.Borrow.{Lends, sem};

    /// What the pointer points to.
    fn borrow(&mut self) -> &mut ReceiverHandleState
        ensures* writes_back { sem 𝓛 (Lends the_row handle_state_row self.entry result
            (λ w. record self.old { state = w })) }
        ensures value { result.now ≡ self.old.state }
    {
        unsafe { &mut *(self.at as *mut ReceiverHandleState) }
    }
}

/// The number of bytes of a receiver's block.
#[unsafe(no_mangle)]
pub extern "C" fn lis_receiver_size() -> usize
    ensures { result ≡ type_size handle_state_row }
{
    size_of::<ReceiverHandleState>()
}

/// What the address of a receiver's block is a multiple of.
#[unsafe(no_mangle)]
pub extern "C" fn lis_receiver_align() -> usize
    ensures { result ≡ type_align handle_state_row }
{
    align_of::<ReceiverHandleState>()
}

/// Makes a receiver, neutral and ready, in a block of the caller's.
#[unsafe(no_mangle)]
pub unsafe extern "C" fn lis_receiver_init(alloc: Global, at: *mut u8)
    requires* { sem 𝓛 (room_at handle_state_row at) }
    ensures* { sem 𝓛 (IsNewReceiver at) }
{
    (at as *mut ReceiverHandleState).write(ReceiverHandleState::new(alloc));
}

/// Sets how long the text of a frame may be, 240 bytes or 63,993, and makes the receiver new: neutral and ready,
/// without a text; it hears carefully if it did. `OK`; `BAD_NUMBER` if it is another limit; `OUT_OF_MEMORY`. Nothing
/// has changed unless it is `OK`. Only the long limit takes memory.
#[unsafe(no_mangle)]
pub extern "C" fn lis_receiver_set_limit(alloc: Global, s: &mut LisReceiver, limit: usize) -> u8
    ensures status { LimitStatus result limit }
    ensures set { result ≡ OK → NewReceiverState limit s.new.state }
    ensures careful { s.new.state.careful ≡ s.old.state.careful }
    ensures refused { result ≢ OK → s.new.state ≡ s.old.state }
{
    let receiver = match limit {
        240 => AnyReceiver::usual(alloc),
        63_993 => match AnyReceiver::long(alloc) {
            Ok(receiver) => receiver,
            Err(_) => return status::OUT_OF_MEMORY,
        },
        _ => return status::BAD_NUMBER,
    };
    let handle_state = s.borrow();
    let careful = handle_state.careful;
    *handle_state = ReceiverHandleState::over(alloc, receiver);
    handle_state.careful = careful;
    status::OK
}

/// Hears one byte. Only where a frame would be accepted whose text is longer than the spare room may memory
/// run out, note 11; the frame is then answered NAK and not taken.
#[unsafe(no_mangle)]
pub extern "C" fn lis_receiver_byte(s: &mut LisReceiver, byte: u8, out: &mut LisStep)
    ensures step { (r : ReceiverState) → Receives s.old.state.receiver r → IsNotOutOfMemory out.new
        → MakesStep (on_byte_set s.old.state.careful (receiver_limit s.old.state.receiver) s.old.state.most byte r)
        s.old.state out.new s.new.state }
    ensures refused { (r : ReceiverState) → Receives s.old.state.receiver r → IsOutOfMemory out.new
        → ReportsRefusedFrame (on_byte_set s.old.state.careful (receiver_limit s.old.state.receiver) s.old.state.most
        byte r)
        (heard_set s.old.state.careful (on_byte_set s.old.state.careful (receiver_limit s.old.state.receiver)
        s.old.state.most byte r) (byte ∷ []) r) s.old.state out.new s.new.state }
    ensures spare { (r : ReceiverState) → Receives s.old.state.receiver r
        → SpareAfter (spare_of s.old.state.receiver) (spare_of s.new.state.receiver)
        (on_byte_set s.old.state.careful (receiver_limit s.old.state.receiver) s.old.state.most byte r).taken }
    ensures limit { receiver_limit s.new.state.receiver ≡ receiver_limit s.old.state.receiver }
    ensures lasts { HasReserved out.new.has_text s.new.state }
    ensures rest { KeepsLimits s.old.state s.new.state }
    ensures noise { (r : ReceiverState) → Receives s.old.state.receiver r →
        s.new.state.noise ≡ counted s.old.state.noise (noise_set s.old.state.careful r byte) }
{
    s.borrow().byte(byte, out);
}

/// Hears bytes up to the first that means something, or all of them where none does, and answers how many it heard;
/// `lis_receiver_byte` is the case of one byte.
#[unsafe(no_mangle)]
pub extern "C" fn lis_receiver_hear(s: &mut LisReceiver, bytes: &[u8], out: &mut LisStep) -> usize
    ensures count { (r : ReceiverState) → Receives s.old.state.receiver r →
        result ≡ (on_bytes_set s.old.state.careful (receiver_limit s.old.state.receiver) s.old.state.most bytes.now
        r).count }
    ensures step { (r : ReceiverState) → Receives s.old.state.receiver r → IsNotOutOfMemory out.new
        → MakesStep (on_bytes_set s.old.state.careful (receiver_limit s.old.state.receiver) s.old.state.most bytes.now
        r).step s.old.state out.new s.new.state }
    ensures refused { (r : ReceiverState) → Receives s.old.state.receiver r → IsOutOfMemory out.new
        → ReportsRefusedFrame (on_bytes_set s.old.state.careful (receiver_limit s.old.state.receiver) s.old.state.most
        bytes.now r).step
        (heard_set s.old.state.careful (on_bytes_set s.old.state.careful (receiver_limit s.old.state.receiver)
        s.old.state.most bytes.now r).step (take result bytes.now) r) s.old.state out.new s.new.state }
    ensures spare { (r : ReceiverState) → Receives s.old.state.receiver r
        → SpareAfter (spare_of s.old.state.receiver) (spare_of s.new.state.receiver)
        (on_bytes_set s.old.state.careful (receiver_limit s.old.state.receiver) s.old.state.most bytes.now
        r).step.taken }
    ensures limit { receiver_limit s.new.state.receiver ≡ receiver_limit s.old.state.receiver }
    ensures lasts { HasReserved out.new.has_text s.new.state }
    ensures rest { KeepsLimits s.old.state s.new.state }
    ensures noise { (r : ReceiverState) → Receives s.old.state.receiver r → s.new.state.noise
        ≡ counted s.old.state.noise (noises_set s.old.state.careful (receiver_limit s.old.state.receiver)
        s.old.state.most bytes.now r) }
{
    s.borrow().hear(bytes, out)
}

/// The receiver's timer runs out.
#[unsafe(no_mangle)]
pub extern "C" fn lis_receiver_timer(s: &mut LisReceiver, out: &mut LisStep)
    ensures step { (r : ReceiverState) → Receives s.old.state.receiver r →
        MakesStep (on_receiver_timer r) s.old.state out.new s.new.state }
    ensures spare { spare_of s.old.state.receiver ≤ spare_of s.new.state.receiver }
    ensures limit { receiver_limit s.new.state.receiver ≡ receiver_limit s.old.state.receiver }
    ensures rest { KeepsLimits s.old.state s.new.state }
    ensures noise { s.new.state.noise ≡ s.old.state.noise }
{
    s.borrow().timer(out);
}

/// The receiver is neutral, ready and has room again; the text that it delivered last stays.
#[unsafe(no_mangle)]
pub extern "C" fn lis_receiver_restart(s: &mut LisReceiver)
    ensures state { (r : ReceiverState) → Receives s.old.state.receiver r →
        Receives s.new.state.receiver (receiver_restarted r) }
    ensures text { s.new.state.text ≡ s.old.state.text }
    ensures spare { spare_of s.old.state.receiver ≤ spare_of s.new.state.receiver }
    ensures limit { receiver_limit s.new.state.receiver ≡ receiver_limit s.old.state.receiver }
    ensures rest { KeepsLimits s.old.state s.new.state }
    ensures noise { s.new.state.noise ≡ s.old.state.noise }
{
    s.borrow().receiver.restart();
}

/// Whether there is room for another frame from now on.
#[unsafe(no_mangle)]
pub extern "C" fn lis_receiver_set_room(s: &mut LisReceiver, room: bool)
    ensures state { (r : ReceiverState) → Receives s.old.state.receiver r →
        Receives s.new.state.receiver (with_room room r) }
    ensures text { s.new.state.text ≡ s.old.state.text }
    ensures spare { spare_of s.new.state.receiver ≡ spare_of s.old.state.receiver }
    ensures limit { receiver_limit s.new.state.receiver ≡ receiver_limit s.old.state.receiver }
    ensures rest { KeepsLimits s.old.state s.new.state }
    ensures noise { s.new.state.noise ≡ s.old.state.noise }
{
    s.borrow().receiver.set_room(room);
}

/// How ENQ is answered from now on: 0 ready, 1 busy, 2 contending. `BAD_NUMBER`, and nothing has changed, for any
/// other number.
#[unsafe(no_mangle)]
pub extern "C" fn lis_receiver_set_ready(s: &mut LisReceiver, readiness: u8) -> u8
    ensures state { (r : ReceiverState) (known : Readiness) → Receives s.old.state.receiver r →
        readiness ≡ readiness_code known →
        (result ≡ OK) × Receives s.new.state.receiver (with_readiness known r) }
    ensures refused { 3 ≤ readiness → (result ≡ BAD_NUMBER) × (s.new.state ≡ s.old.state) }
    ensures text { s.new.state.text ≡ s.old.state.text }
    ensures spare { spare_of s.new.state.receiver ≡ spare_of s.old.state.receiver }
    ensures limit { receiver_limit s.new.state.receiver ≡ receiver_limit s.old.state.receiver }
    ensures rest { KeepsLimits s.old.state s.new.state }
    ensures noise { s.new.state.noise ≡ s.old.state.noise }
{
    let readiness = match readiness {
        0 => Readiness::Ready,
        1 => Readiness::Busy,
        2 => Readiness::Contending,
        _ => return status::BAD_NUMBER,
    };
    s.borrow().receiver.set_ready(readiness);
    status::OK
}

/// Makes room for `bytes` more bytes of held text, so that taking them takes no memory, and for as many next to the
/// text that was delivered last, so that there is room for so many again after each text: `OK`, `TOO_LONG` where no
/// text has as many, or `OUT_OF_MEMORY`. The state stays.
#[unsafe(no_mangle)]
pub extern "C" fn lis_receiver_reserve(s: &mut LisReceiver, bytes: u64) -> u8
    ensures status { ReserveStatus result bytes }
    ensures spare { result ≡ OK → bytes ≤ spare_of s.new.state.receiver }
    ensures exact { result ≡ OK → spare_of s.new.state.receiver ≡ max (spare_of s.old.state.receiver) bytes }
    ensures kept { spare_of s.old.state.receiver ≤ spare_of s.new.state.receiver }
    ensures same { result ≢ OK → kept_by s.new.state.receiver ≡ kept_by s.old.state.receiver }
    ensures state { (r : ReceiverState) → Receives s.old.state.receiver r → Receives s.new.state.receiver r }
    ensures text { s.new.state.text ≡ s.old.state.text }
    ensures limit { receiver_limit s.new.state.receiver ≡ receiver_limit s.old.state.receiver }
    ensures lasts { result ≡ OK → (s.new.state.reserved ≡ bytes) × (s.new.state.lacks_room ≡ false) }
    ensures refused { result ≡ OUT_OF_MEMORY →
        (spare_of s.old.state.receiver < bytes) ⊎ (s.old.state.beside < bytes) }
    ensures unlasting { result ≢ OK → s.new.state.reserved ≡ s.old.state.reserved }
    ensures most { s.new.state.most ≡ s.old.state.most }
    ensures hearing { (s.new.state.careful ≡ s.old.state.careful) × (s.new.state.noise ≡ s.old.state.noise) }
{
    if bytes > LONGEST_TEXT as u64 {
        return status::TOO_LONG;
    }
    match s.borrow().reserve(bytes) {
        Ok(()) => status::OK,
        Err(_) => status::OUT_OF_MEMORY,
    }
}

/// Sets how many bytes a text may have: `OK`, or `TOO_LONG` where it is more than 1,048,576, and then nothing has
/// changed. A frame with which its text would have more is answered NAK and not taken.
#[unsafe(no_mangle)]
pub extern "C" fn lis_receiver_set_text_limit(s: &mut LisReceiver, bytes: usize) -> u8
    ensures status { result ≡ (if nat_lt longest_text bytes then TOO_LONG else OK) }
    ensures set { bytes < longest_text → s.new.state ≡ record s.old.state { most = Some bytes } }
    ensures longest { bytes ≡ longest_text → s.new.state ≡ record s.old.state { most = None } }
    ensures refused { result ≢ OK → s.new.state ≡ s.old.state }
{
    if bytes > LONGEST_TEXT {
        return status::TOO_LONG;
    }
    s.borrow().most = if bytes < LONGEST_TEXT {
        Some(bytes)
    } else {
        None
    };
    status::OK
}

/// Whether the receiver hears carefully from now on: an ENQ on an open line ends the session with no reply, and an STX
/// inside an unfinished frame begins none, so that the frame is answered NAK. Then one damaged byte of a frame
/// acknowledges nothing.
#[unsafe(no_mangle)]
pub extern "C" fn lis_receiver_set_careful(s: &mut LisReceiver, careful: bool)
    ensures { s.new.state ≡ record s.old.state { careful = careful } }
{
    s.borrow().careful = careful;
}

/// How much noise was heard carefully since the receiver was new: ENQ on an open line, and STX inside an unfinished
/// frame of one.
#[unsafe(no_mangle)]
pub extern "C" fn lis_receiver_noise(s: &mut LisReceiver) -> u64
    ensures value { result ≡ s.old.state.noise }
    ensures same { s.new.state ≡ s.old.state }
{
    s.borrow().noise
}

/// Whether the line is open: while it is, the caller runs the receiver's timer.
#[unsafe(no_mangle)]
pub extern "C" fn lis_receiver_is_open(s: &mut LisReceiver) -> bool
    ensures value { (r : ReceiverState) → Receives s.old.state.receiver r → result ≡ r.is_open }
    ensures same { s.new.state ≡ s.old.state }
{
    s.borrow().receiver.is_open()
}

/// How many frames were accepted since the line was last opened.
#[unsafe(no_mangle)]
pub extern "C" fn lis_receiver_accepted(s: &mut LisReceiver) -> u64
    ensures value { (r : ReceiverState) → Receives s.old.state.receiver r → result ≡ length r.accepted }
    ensures same { s.new.state ≡ s.old.state }
{
    s.borrow().receiver.accepted()
}

/// How many bytes are held of the text that isn't complete.
#[unsafe(no_mangle)]
pub extern "C" fn lis_receiver_held(s: &mut LisReceiver) -> u64
    ensures value { (r : ReceiverState) → Receives s.old.state.receiver r → result ≡ held_length r }
    ensures same { s.new.state ≡ s.old.state }
{
    s.borrow().receiver.held()
}

/// The length of the text that was delivered last; 0 before the first.
#[unsafe(no_mangle)]
pub extern "C" fn lis_receiver_text_len(s: &mut LisReceiver) -> usize
    ensures value { result ≡ length s.old.state.text }
    ensures same { s.new.state ≡ s.old.state }
{
    s.borrow().text.len()
}

/// Copies the text that was delivered last to the front of a buffer. `TOO_SHORT`, and nothing is copied, where it is
/// longer than the buffer.
#[unsafe(no_mangle)]
pub extern "C" fn lis_receiver_text(s: &mut LisReceiver, out: &mut [u8]) -> u8
    ensures status { result ≡ copy_status (length out.old) (length s.old.state.text) }
    ensures copied { result ≡ OK → out.new ≡ s.old.state.text ++ drop (length s.old.state.text) out.old }
    ensures refused { result ≢ OK → out.new ≡ out.old }
    ensures same { s.new.state ≡ s.old.state }
{
    let mut size = 0;
    copy_text(s.borrow().text.as_slice(), out, &mut size)
}

/// Ends a receiver; its block is the caller's again.
#[unsafe(no_mangle)]
pub extern "C" fn lis_receiver_end(s: LisReceiver)
    ensures* { sem 𝓛 (room_at handle_state_row s.at) }
{
    let LisReceiver { at } = s;
    release_receiver(unsafe { (at as *mut ReceiverHandleState).read() });
}
