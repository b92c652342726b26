//! Why a record is not written.

use thiserror::Error;

/// Why a record or a field was not written.
#[derive(Clone, Copy, Debug, PartialEq, Eq, Error)]
pub enum WriteFault {
    /// The field of this number is the first with a `Char` that is no text byte; nothing was written.
    #[error("field {0} holds a character that is no text byte")]
    CharNotText(usize),
    /// The encoding has over 65,536 bytes; nothing was written.
    #[error("the record would have more than 65536 bytes")]
    TooLong,
    /// The sink failed after so many bytes.
    #[error("the sink failed after {0} bytes")]
    Io(u64),
}

/// What a call that writes answers.
pub type WriteResult = Result<(), WriteFault>;
