//! The two ends of the data link of LIS01-A2: the sender and the receiver, as machines without a clock.
#![tactic(auto)]

pub mod laws;
mod queue;
mod receiver;
mod sender;
mod session_texts;

pub use lis_frame::{FrameFault, FrameOf, ScannerOf};
pub use lis_text::{LinkText, Readiness, TextFault, Texts};
pub use receiver::{Hearing, MOST_FRAMES, Note, RECEIVER_SECONDS, Receiver, ReceiverOf, Step};
pub use sender::{
    BUSY_SECONDS, BorrowingSender, BorrowingSenderOf, CONTENTION_SECONDS, Emit, EmitOf, Outcome,
    Phase, REPLY_SECONDS, Sender, SenderOf, SenderOver, StartFault, StartRefused, StartRefusedOf,
};
pub use session_texts::{BorrowedTexts, SessionTexts};
