//! Frames of the data link of LIS01-A2: what one is, how it is read from a stream and written.
#![tactic(auto)]

mod borrowed;
mod frame;
mod frame_body;
pub mod laws;
mod read;
mod scanner;
mod split;
mod text;
mod write;

pub use arrayvec::ArrayVec;
pub use borrowed::BorrowedFrame;
pub use frame::{Frame, FrameFault, FrameOf};
pub use lis_text::{
    LONGEST_TEXT, LinkText, List, MOST_TEXTS, TextFault, TextRefused, Texts, check_text,
};
pub use read::{read_frame, read_frame_of};
pub use scanner::{Heard, Scanner, ScannerOf, Signal, SignalOf};
pub use split::{Frames, FramesOf, next_number, split_all, split_all_of, split_at, split_at_of};
pub use text::{Text, TextOf};
pub use write::{frame_bytes, frame_bytes_of, frame_tail, put_frame};
