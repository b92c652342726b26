//! Why a text is no record, and why a record can't be taken into a message.

use crate::delimiting::DelimiterFault;
use crate::kinds::Kind;
use thiserror::Error;

/// Why the bytes after a header's letter declare no delimiters.
#[derive(Clone, Copy, Debug, PartialEq, Eq, Error)]
pub enum DelimiterPartFault {
    /// Fewer than four bytes follow the letter.
    #[error("fewer than four delimiters follow the letter")]
    Short,
    /// The four bytes are no delimiters.
    #[error("{0}")]
    Fault(DelimiterFault),
    /// This byte follows the four, and isn't the field delimiter.
    #[error("byte {0} follows the delimiters in place of the field delimiter")]
    Trailing(u8),
}

/// Why a text is no record. Places count from 0.
#[derive(Clone, Copy, Debug, PartialEq, Eq, Error)]
pub enum RecordFault {
    /// The text is empty.
    #[error("the record is empty [G1 C1]")]
    Empty,
    /// This byte is where a letter of a record that is read here should, or follows the letter and
    /// isn't the field delimiter.
    #[error("byte {0} is where the record's letter or its field delimiter is due [G1 C2]")]
    UnknownKind(u8),
    /// A header's delimiters are wrong.
    #[error("the header's delimiters are wrong: {0} [G1 C3]")]
    DelimiterPart(DelimiterPartFault),
    /// The byte at this place is no text byte.
    #[error("the byte at place {0} may not be in a record [G1 C4]")]
    Byte(usize),
    /// The text has over 65,536 bytes.
    #[error("the record has more than 65536 bytes")]
    TooLong,
    /// A growth fails.
    #[error("memory ran out")]
    OutOfMemory,
}

/// Why a record can't be taken.
#[derive(Clone, Copy, Debug, PartialEq, Eq, Error)]
pub enum Reason {
    /// The text is no record; `OutOfMemory` isn't among these.
    #[error(transparent)]
    BadRecord(RecordFault),
    /// A record is outside a message, and is no header.
    #[error("it is outside a message and is no header [G2]")]
    NotHeader,
    /// An order with no patient, or a result with no order, above it.
    #[error("no record that it belongs to is above this {0:?} record [G3]")]
    NoParent(Kind),
    /// A header is inside a message, or after the end of the only one.
    #[error("a header is inside a message or after its end [G4]")]
    SecondHeader,
    /// The end came before the closing record.
    #[error("the end came before the message's closing record [G5]")]
    Unfinished,
    /// A record is longer than 65,536 bytes without its CR.
    #[error("the record has more than 65536 bytes without CR [G6]")]
    RecordTooLong,
    /// Memory ran out.
    #[error("memory ran out")]
    OutOfMemory,
}

/// A record that can't be taken, by its number in its message, and why.
#[derive(Clone, Copy, Debug, PartialEq, Eq, Error)]
#[error("record {place}: {reason}")]
pub struct MessageFault {
    /// The number of the record in its message, from 1 for the header's. It stays at the greatest number.
    pub place: u64,
    pub reason: Reason,
}
