//! The reader of records for programs in C: a stream in pieces, each record in its place (LIS02-A2).

ghost use Rattle.std.specs.Prelude.{◌≡◌, ◌≢◌, ◌==◌, ◌≤◌, ◌<◌, None, Option, IfSome, false, length, position};
ghost use Rattle.lis_c.specs.Status.{TOO_SHORT, UNFINISHED};
ghost use Rattle.lis_c.specs.declared.handle_state.ReaderHandleState.{ReaderHandleState};
ghost use Rattle.lis_c.specs.New.{IsNewReader, type_align};
ghost use Rattle.lis_c.specs.Reading.{AtEnd, IsSplitPart, IsSplitText, ReadsAndReports, ReadsPiece, is_second_header};
ghost use Rattle.lis_c.specs.Reading.{new_reader};
ghost use Rattle.lis_c.specs.Reading.{detail_of, nothing, piece_length, place_of, reason_code, reported_fault};
ghost use Rattle.lis_c.specs.Reading.{reported_record};
ghost use Rattle.lis_c.specs.contracts.handle_state.ReaderHandleState.{the_row as handle_state_row};
ghost use Rattle.lis_message.specs.Feeding.{answer_at_end};
ghost use Rattle.lis_message.specs.Records.{HasLeft};
ghost use Rattle.lis_record_values.specs.Text.{record_limit};
ghost use Rattle.lis_tree.specs.Begun.{Begun};
ghost use Rattle.lis_text.specs.Control.{CR};
ghost use Rattle.std.specs.Borrow.{sem};
ghost use Rattle.std.specs.Mem.{type_size};
ghost use Rattle.std.specs.Ptr.{room_at};

use crate::handle_state::{ReaderHandleState, release_reader};
use crate::out::copy_text;
use crate::records::{copy_part, record_place, record_status};
use crate::status;
use lis_message::{BorrowedRecord, MessageFault, Reason, RecordFound};
use lis_text::CR;
use std::alloc::Global;
use std::marker::Model;
use std::mem::{align_of, size_of};

/// What reading on found: 0 nothing, 1 a record, 2 a record that can't be read. A record has its letter in upper case
/// and the number of its fields; `lis_reader_parts` has its parts until the next read. One that can't be read has its
/// number in its message, from 1 for a header, the reason, and its detail: the status of a text that is no record
/// with the place of a byte, or the letter of a record without a parent. All else is 0.
#[repr(C)]
#[derive(Drop)]
pub struct LisFound {
    pub kind: u8,
    pub letter: u8,
    pub reason: u8,
    pub detail: u8,
    pub fields: usize,
    pub place: usize,
    pub number: u64,
}

/// A reader, held by a pointer that C hands back as it got it.
#[repr(C)]
pub struct LisReader {
    at: *mut u8,
    ghost state: { ReaderHandleState },
}

impl Model for LisReader {
    ghost use Rattle.std.specs.Borrow.{full_share};
    ghost use Rattle.std.specs.Ptr.{lies_at};
    ghost use Rattle.lis_c.specs.contracts.handle_state.ReaderHandleState.{the_row};

    ghost also_owns = { λ h. lies_at the_row full_share h.at h.state };
}

impl LisReader {
    ghost use Rattle.lis_c.specs.Reading.{detail_of, nothing, piece_length, place_of, reason_code, reported_fault};
    ghost use Rattle.lis_c.specs.Reading.{reported_record};
    ghost use Rattle.lis_c.specs.contracts.handle_state.ReaderHandleState.{the_row as handle_state_row};
    ghost use Rattle.lis_c.specs.contracts.reader.LisReader.{the_row};
    ghost use Rattle.std.specs.Borrow.{Lends, sem};

    /// What the pointer points to.
    pub(crate) fn borrow(&mut self) -> &mut ReaderHandleState
        ensures* writes_back { sem 𝓛 (Lends the_row handle_state_row self.entry result
            (λ w. record self.old { state = w })) }
        ensures value { result.now ≡ self.old.state }
    {
        unsafe { &mut *(self.at as *mut ReaderHandleState) }
    }
}

/// The number of bytes of a reader's block.
#[unsafe(no_mangle)]
pub extern "C" fn lis_reader_size() -> usize
    ensures { result ≡ type_size handle_state_row }
{
    size_of::<ReaderHandleState>()
}

/// What the address of a reader's block is a multiple of.
#[unsafe(no_mangle)]
pub extern "C" fn lis_reader_align() -> usize
    ensures { result ≡ type_align handle_state_row }
{
    align_of::<ReaderHandleState>()
}

/// Makes a reader at the start of a stream in a block of the caller's.
#[unsafe(no_mangle)]
pub unsafe extern "C" fn lis_reader_init(alloc: Global, at: *mut u8)
    requires* { sem 𝓛 (room_at handle_state_row at) }
    ensures* { sem 𝓛 (IsNewReader at) }
{
    (at as *mut ReaderHandleState).write(ReaderHandleState::new(alloc));
}

/// Reads on: the bytes before the first CR, or a CR that is first, which ends a record; answers how many it read. Of
/// bytes in which a record is rejected none count as read, and the reader then gives that fault for good. Memory may
/// run out for bytes that are held, which is reported as a fault too.
#[unsafe(no_mangle)]
pub extern "C" fn lis_reader_read(s: &mut LisReader, bytes: &[u8], out: &mut LisFound) -> usize
    ensures read { (left : Option Begun) → HasLeft s.old.state.reader left →
        ReadsPiece s.old.state.reader s.new.state.reader left bytes.now result out.new }
    ensures failed { IfSome s.old.state.reader.fault (λ fault. (result ≡ 0) × (out.new ≡ reported_fault fault)
        × (s.new.state ≡ s.old.state)) }
{
    let piece = &bytes[..piece_length(bytes)];
    s.borrow().read(piece, out)
}

/// Copies the bytes of a component of the record that was read last, as `lis_record_part` does; `NO_RECORD` if none was
/// found last. Each call reads the record from its beginning: `lis_reader_parts` gives all components in one pass.
#[unsafe(no_mangle)]
pub extern "C" fn lis_reader_part(
    s: &mut LisReader,
    field: usize,
    repeat: usize,
    component: usize,
    out: &mut [u8],
    size: &mut usize,
) -> u8
    ensures part { IsSplitPart s.old.state.reader.split field repeat component result out.old out.new size.new }
    ensures same { s.new.state ≡ s.old.state }
{
    *size = 0;
    let Some(entry) = s.borrow().reader.split() else {
        return status::NO_RECORD;
    };
    copy_part(&entry, field, repeat, component, out, size)
}

/// Copies the text of the record that was read last, without its CR, to the front of a buffer, and says how many bytes
/// it has: `OK`; `NO_RECORD` if none was found last; or `TOO_SHORT`, which a buffer of 65,536 bytes never is, and then
/// nothing is copied.
#[unsafe(no_mangle)]
pub extern "C" fn lis_reader_text(s: &mut LisReader, out: &mut [u8], size: &mut usize) -> u8
    ensures text { IsSplitText s.old.state.reader.split s.old.state.reader.split_text result out.old out.new size.new }
    ensures fits { record_limit ≤ length out.old → result ≢ TOO_SHORT }
    ensures same { s.new.state ≡ s.old.state }
{
    s.borrow().last_text(out, size)
}

/// The reader is as at the start of a stream, so that it reads on at a header: the message that was open, what was held
/// and the fault are dropped. True where the fault is a header inside a message: it is given again then.
#[unsafe(no_mangle)]
pub extern "C" fn lis_reader_resume(alloc: Global, s: &mut LisReader) -> bool
    ensures again { IfSome s.old.state.reader.fault (λ fault. result ≡ is_second_header fault.reason) }
    ensures unread { (left : Option Begun) → HasLeft s.old.state.reader left → result ≡ false }
    ensures after { s.new.state.reader ≡ new_reader }
    ensures left { HasLeft s.new.state.reader None }
{
    let handle_state = s.borrow();
    let again = match handle_state.reader.finish() {
        Ok(()) => false,
        Err(fault) => is_second_header(fault.reason),
    };
    *handle_state = ReaderHandleState::new(alloc);
    again
}

/// Whether a record can't be read because the message has its header.
fn is_second_header(reason: Reason) -> bool
    ensures { result ≡ is_second_header reason }
{
    match reason {
        Reason::SecondHeader => true,
        _ => false,
    }
}

/// The end of the stream: `OK`, or `UNFINISHED` where a message isn't closed or a record isn't ended, or the fault that
/// was met; `out` has it as `lis_reader_read` says it.
#[unsafe(no_mangle)]
pub extern "C" fn lis_reader_finish(s: &mut LisReader, out: &mut LisFound) -> u8
    ensures read { (left : Option Begun) → HasLeft s.old.state.reader left →
        AtEnd (answer_at_end left s.old.state.reader.held) result out.new }
    ensures failed { IfSome s.old.state.reader.fault (λ fault. (result ≡ UNFINISHED)
        × (out.new ≡ reported_fault fault)) }
    ensures same { s.new.state ≡ s.old.state }
{
    clear(out);
    match s.borrow().reader.finish() {
        Ok(()) => status::OK,
        Err(fault) => {
            refuse(fault, out);
            status::UNFINISHED
        }
    }
}

/// Ends a reader; its block is the caller's again.
#[unsafe(no_mangle)]
pub extern "C" fn lis_reader_end(s: LisReader)
    ensures* { sem 𝓛 (room_at handle_state_row s.at) }
{
    let LisReader { at } = s;
    release_reader(unsafe { (at as *mut ReaderHandleState).read() });
}

impl ReaderHandleState {
    fn read(&mut self, piece: &[u8], out: &mut LisFound) -> usize
        ensures read { (left : Option Begun) → HasLeft self.old.reader left →
            ReadsAndReports self.old.reader self.new.reader left piece.now result out.new }
        ensures failed { IfSome self.old.reader.fault (λ fault. (result ≡ 0) × (out.new ≡ reported_fault fault)
            × (self.new ≡ self.old)) }
    {
        clear(out);
        let (following, found) = self.reader.read(piece);
        match found {
            RecordFound::Nothing => {}
            RecordFound::Record(entry) => report(&entry, out),
            RecordFound::Held => {
                if let Some(entry) = self.reader.split() {
                    report(&entry, out);
                }
            }
            RecordFound::Refused(fault) => refuse(fault, out),
        }
        piece.len().saturating_sub(following.len())
    }

    fn last_text(&self, out: &mut [u8], size: &mut usize) -> u8
        ensures text { IsSplitText self.now.reader.split self.now.reader.split_text result out.old out.new size.new }
        ensures fits { record_limit ≤ length out.old → result ≢ TOO_SHORT }
    {
        *size = 0;
        match self.reader.split() {
            None => status::NO_RECORD,
            Some(_) => copy_text(self.reader.split_text(), out, size),
        }
    }
}

/// How many bytes are before the first CR; 1 where it is first.
fn piece_length(bytes: &[u8]) -> usize
    ensures count { result ≡ piece_length bytes.now }
    ensures bound { result ≤ length bytes.now }
{
    match first_return(bytes) {
        None => bytes.len(),
        Some(place) => { if place == 0 { 1 } else { place } }
    }
}

/// The place of the first CR.
fn first_return(bytes: &[u8]) -> Option<usize>
    ensures place { result ≡ position (λ b. b == CR) bytes.now }
    ensures bound { IfSome result (λ place. place < length bytes.now) }
{
    bytes.iter().position(|byte| *byte == CR)
}

/// Reports nothing.
pub(crate) fn clear(out: &mut LisFound)
    ensures { out.new ≡ nothing }
{
    out.kind = 0;
    out.letter = 0;
    out.reason = 0;
    out.detail = 0;
    out.fields = 0;
    out.place = 0;
    out.number = 0;
}

/// Reports a record.
pub(crate) fn report(entry: &BorrowedRecord<'_>, out: &mut LisFound)
    requires { out.old ≡ nothing }
    ensures { out.new ≡ reported_record entry.now.content }
{
    out.kind = 1;
    out.letter = entry.kind().letter();
    out.fields = entry.len();
}

/// Reports why a record can't be read.
pub(crate) fn refuse(fault: MessageFault, out: &mut LisFound)
    requires { out.old ≡ nothing }
    ensures { out.new ≡ reported_fault fault }
{
    out.kind = 2;
    out.number = fault.place;
    out.reason = reason_code(fault.reason);
    out.detail = detail_of(fault.reason);
    out.place = place_of(fault.reason);
}

/// The code of a reason.
fn reason_code(reason: Reason) -> u8
    ensures { result ≡ reason_code reason }
{
    match reason {
        Reason::BadRecord(_) => 1,
        Reason::NotHeader => 2,
        Reason::NoParent(_) => 3,
        Reason::SecondHeader => 4,
        Reason::Unfinished => 5,
        Reason::RecordTooLong => 6,
        Reason::OutOfMemory => 7,
    }
}

/// The place of the byte that no text may hold; 0 where none is at fault.
fn place_of(reason: Reason) -> usize
    ensures { result ≡ place_of reason }
{
    match reason {
        Reason::BadRecord(fault) => record_place(fault),
        _ => 0,
    }
}

/// The status of a text that is no record, or the letter of a record without a parent; 0 for any other reason.
fn detail_of(reason: Reason) -> u8
    ensures { result ≡ detail_of reason }
{
    match reason {
        Reason::BadRecord(fault) => record_status(fault),
        Reason::NoParent(kind) => kind.letter(),
        _ => 0,
    }
}
