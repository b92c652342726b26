//! What a call that may fail answers.

ghost use Rattle.std.specs.Prelude.{◌≡◌, Some};
ghost use Rattle.lis_c.specs.Status.{start_index, start_place, start_status, text_place, text_status};

use lis_link::StartFault;
use lis_text::TextFault;

/// The call did what it is for.
pub(crate) const OK: u8 = 0;
/// A session is going on.
pub(crate) const IN_SESSION: u8 = 1;
/// There is no text to send.
pub(crate) const NO_TEXT: u8 = 2;
/// There are more bytes than the limit allows.
pub(crate) const TOO_LONG: u8 = 3;
/// A byte is in a text that none may hold.
pub(crate) const FORBIDDEN: u8 = 4;
/// There are as many texts as a session has.
pub(crate) const FULL: u8 = 5;
/// Memory ran out.
pub(crate) const OUT_OF_MEMORY: u8 = 6;
/// The number is unknown here.
pub(crate) const BAD_NUMBER: u8 = 7;
/// The buffer is too short.
pub(crate) const TOO_SHORT: u8 = 8;
/// The text has no byte, or no record is begun or was found last.
pub(crate) const NO_RECORD: u8 = 9;
/// The byte is no letter of such a record, or what follows it isn't the field delimiter.
pub(crate) const BAD_LETTER: u8 = 10;
/// The bytes are no four delimiters.
pub(crate) const BAD_DELIMITERS: u8 = 11;
/// There is no such part.
pub(crate) const ABSENT: u8 = 12;
/// A message isn't closed, or a record or a field isn't ended, or none can be read any more.
pub(crate) const UNFINISHED: u8 = 13;
/// Outside a message a header comes first.
pub(crate) const PUT_NOT_HEADER: u8 = 14;
/// The record has no parent: an order is under a patient, a result under an order.
pub(crate) const PUT_NO_PARENT: u8 = 15;
/// The message has its header.
pub(crate) const PUT_SECOND_HEADER: u8 = 16;

/// The other side has the line. (17 is that of a connection on which no session starts, which plain C answers.)
pub(crate) const LINE_OPEN: u8 = 18;

/// The status of bytes that are no text.
pub(crate) fn text_status(fault: TextFault) -> u8
    ensures { result ≡ text_status (Some fault) }
{
    match fault {
        TextFault::TooLong => TOO_LONG,
        TextFault::Forbidden(_) => FORBIDDEN,
    }
}

/// The place of the byte that makes them none; 0 where none does.
pub(crate) fn text_place(fault: TextFault) -> usize
    ensures { result ≡ text_place (Some fault) }
{
    match fault {
        TextFault::TooLong => 0,
        TextFault::Forbidden(place) => place,
    }
}

/// The status of a start that was rejected.
pub(crate) fn start_status(fault: StartFault) -> u8
    ensures { result ≡ start_status (Some fault) }
{
    match fault {
        StartFault::InSession => IN_SESSION,
        StartFault::NoText => NO_TEXT,
        StartFault::BadText { fault, .. } => text_status(fault),
    }
}

/// Which text is at fault; 0 where none is.
pub(crate) fn start_index(fault: StartFault) -> usize
    ensures { result ≡ start_index (Some fault) }
{
    match fault {
        StartFault::BadText { index, .. } => index,
        _ => 0,
    }
}

/// The place of the byte of it that no text may hold; 0 where none is at fault.
pub(crate) fn start_place(fault: StartFault) -> usize
    ensures { result ≡ start_place (Some fault) }
{
    match fault {
        StartFault::BadText { fault, .. } => text_place(fault),
        _ => 0,
    }
}
