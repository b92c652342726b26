//! A record that a command rejected, and how it is reported.

ghost use Rattle.std.specs.Prelude.{◌≡◌};
ghost use Rattle.lis_report.specs.Codes.{printed_reason, refused_line};

use lis_engine::{Output, Part, Print, ToolFault};
use lis_port::Sink;
use lis_record_values::{MessageFault, Reason, RecordFault};
use std::fmt;

/// A record that was rejected, or an end of the input that came before the end of a message.
#[derive(Debug, Clone, Copy, PartialEq, Eq)]
pub struct Refused {
    /// The number of its message, counted from 1: one more than the whole messages before it.
    pub message: u64,
    /// The place of the record in that message, and why.
    pub fault: MessageFault,
}

/// How a command's run ended that read its input to the end, or to a record that is rejected.
pub type Report = lis_engine::Report<Refused>;

/// How a command's run ended: with its report, or by a fault.
pub type Ended = lis_engine::Ended<Refused>;

/// Why a command takes no more of its input.
pub type Stop = lis_engine::Stop<Refused>;

impl fmt::Display for Refused {
    fn fmt<W: fmt::Write>(&self, f: &mut fmt::Formatter<W>) -> fmt::Result {
        let code = printed_reason(self.fault.reason);
        write!(f, "refused {} {} {}", self.message, self.fault.place, code)
    }
}

/// The line of a rejection.
impl Print for Refused {
    ghost text = { λ it. refused_line it.message it.fault };

    fn print<W: Sink>(&self, out: &mut Output<'_, W>) -> Result<(), ToolFault> {
        let parts = [
            Part::Text(b"refused "),
            Part::Number(self.message),
            Part::Text(b" "),
            Part::Number(self.fault.place),
            Part::Text(b" "),
            Part::Text(printed_reason(self.fault.reason).as_bytes()),
            Part::Text(b"\n"),
        ];
        parts.as_slice().print(out)
    }
}

/// The code of a reason, as it is printed: `G1 C1`, `G2` and so on.
pub fn printed_reason(reason: Reason) -> &'static str
    ensures { result.now ≡ printed_reason reason }
{
    match reason {
        Reason::BadRecord(fault) => printed_record_fault(fault),
        Reason::NotHeader => "G2",
        Reason::NoParent(_) => "G3",
        Reason::SecondHeader => "G4",
        Reason::Unfinished => "G5",
        Reason::RecordTooLong => "G6",
        Reason::OutOfMemory => "G7",
    }
}

/// The code of a text that is no record.
fn printed_record_fault(fault: RecordFault) -> &'static str
    ensures { result.now ≡ printed_reason (Reason.BadRecord fault) }
{
    match fault {
        RecordFault::Empty => "G1 C1",
        RecordFault::UnknownKind(_) => "G1 C2",
        RecordFault::DelimiterPart(_) => "G1 C3",
        RecordFault::Byte(_) => "G1 C4",
        RecordFault::TooLong => "G1 C5",
        RecordFault::OutOfMemory => "G1 C6",
    }
}
