//! How the end that is asked for the line answers (LIS01-A2, 6.2).

/// How the receiver answers an ENQ.
#[derive(Debug, Clone, Copy, PartialEq, Eq)]
pub enum Readiness {
    /// ACK: the line is opened.
    Ready,
    /// NAK: not now.
    Busy,
    /// ENQ: the receiver's side asks for the line too, once.
    Contending,
}
