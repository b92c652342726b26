//! Why a run stopped before its end.

use thiserror::Error;

/// Why a run stopped before its end. The text is the line that the program prints.
#[derive(Debug, Clone, Copy, PartialEq, Eq, Error)]
pub enum ToolFault {
    /// A line of a capture, counted from 1, is malformed.
    #[error("lislink: K1 line {line}")]
    CaptureLine { line: u64 },
    /// The source failed.
    #[error("lislink: K2")]
    Read,
    /// The sink failed, after so many bytes of this run (at the greatest number: at least as many).
    #[error("lislink: K3")]
    Write { written: u64 },
    /// Memory ran out.
    #[error("lislink: K4")]
    OutOfMemory,
    /// As many reads as were allowed were made, and none reported the end.
    #[error("lislink: K5")]
    TooManyReads,
}
