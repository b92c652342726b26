//! What a sender's program does on its line: the bytes that it writes, and how long it waits (LIS01-A2, 6.2 to 6.5).

ghost use Rattle.std.specs.Prelude.{◌≡◌, ◌+◌, ◌≤◌};
ghost use Rattle.lis_link.specs.Duties.{emitted_bytes, timer_seconds};

use crate::sender::{EmitOf, Phase};
use arrayvec::ArrayVec;
use lis_frame::frame_bytes_of;
use lis_text::{ENQ, EOT, NAK};

/// Seconds to wait for the reply to ENQ or to a frame.
pub const REPLY_SECONDS: u32 = 15;
/// Seconds to wait after NAK to ENQ, before the line is asked for again.
pub const BUSY_SECONDS: u32 = 10;
/// Seconds to wait after ENQ to ENQ; the computer waits longer, so the analyzer goes first.
pub const CONTENTION_SECONDS: u32 = 1;

impl<const N: usize> EmitOf<N> {
    /// The bytes to write to the line: none, one control byte, or a frame's. `B` has room for the longest frame.
    pub fn bytes_of<const B: usize>(&self) -> ArrayVec<u8, B>
        requires room { N + 7 ≤ B }
        requires bound { B ≤ 64000 }
        ensures { result.items ≡ emitted_bytes self.now }
    {
        let mut bytes = ArrayVec::new();
        match self {
            EmitOf::Nothing => {}
            EmitOf::Enq => bytes.push(ENQ),
            EmitOf::Eot => bytes.push(EOT),
            EmitOf::Nak => bytes.push(NAK),
            EmitOf::Frame(frame) => return frame_bytes_of(frame),
        }
        bytes
    }
}

impl EmitOf<240> {
    /// The bytes to write to the line: none, one control byte, or a frame's.
    pub fn bytes(&self) -> ArrayVec<u8, 247>
        ensures { result.items ≡ emitted_bytes self.now }
    {
        self.bytes_of()
    }
}

impl Phase {
    /// The seconds of the timer that runs in this phase; none if none runs.
    pub fn timer_seconds(self) -> Option<u32>
        ensures { result ≡ timer_seconds self }
    {
        match self {
            Phase::Neutral => None,
            Phase::AwaitLine | Phase::AwaitReply => Some(REPLY_SECONDS),
            Phase::Busy => Some(BUSY_SECONDS),
            Phase::Contention => Some(CONTENTION_SECONDS),
        }
    }
}
