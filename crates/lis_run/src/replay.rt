//! The command `replay`: what a receiver answers to the analyzer's bytes of a capture, next to the computer's.

ghost use Rattle.std.specs.Prelude.{◌≡◌, ◌≤◌, true, false, IfOk};
ghost use Rattle.lis_frame.specs.Limit.{IsLimit};
ghost use Rattle.lis_run.specs.CaptureRuns.{CaptureRan};
ghost use Rattle.lis_engine.specs.Parts.{part_text};
ghost use Rattle.lis_engine.specs.Output.{IsPut, IsWorking};
ghost use Rattle.lis_run.specs.Replay.{difference_line, digits_or_dash, replay_writes, text_line};
ghost use Rattle.lis_engine.specs.Runs.{AreFresh, Stops, ports};

use crate::lines::run_lines;
use crate::playing::Playing;
use lis_engine::{Output, Part, Print, SourceFor, ToolFault};
use lis_port::Sink;
use lis_report::Ended;
use std::alloc::Global;

/// The room for the line of a text: its words and two numbers.
const TEXT_LINE_ROOM: usize = 100;

/// Plays a capture to a new receiver whose frames have at most `N` bytes of text (LIS01-A2, 6.3): it hears what the
/// analyzer sent, and what it replies is compared with what the computer sent. A line reports each text that it
/// delivers and each difference, and a last one their counts; the status is 1 where there is a difference.
///
/// The source was never read, and neither it nor the sink has failed.
pub fn run_replay_of<const N: usize, R: SourceFor<W>, W: Sink>(
    alloc: Global,
    source: &mut R,
    sink: &mut W,
    reads: u32,
) -> Ended
    requires limit { IsLimit N }
    requires fresh { AreFresh (ports R.left R.made R.ended R.failed W.taken W.sent W.failed source.old sink.old) }
    ensures ran { CaptureRan true (replay_writes N)
        (ports R.left R.made R.ended R.failed W.taken W.sent W.failed source.old sink.old)
        (ports R.left R.made R.ended R.failed W.taken W.sent W.failed source.new sink.new) result }
    ensures stops { Stops false true
        (ports R.left R.made R.ended R.failed W.taken W.sent W.failed source.old sink.old)
        (ports R.left R.made R.ended R.failed W.taken W.sent W.failed source.new sink.new) reads result }
    ensures status { IfOk result (λ report. report.status ≤ 1) }
{
    run_lines(Playing::<N, true>::new(alloc), source, sink, reads)
}

/// The same with the usual limit of 240 bytes.
///
/// The source was never read, and neither it nor the sink has failed.
pub fn run_replay<R: SourceFor<W>, W: Sink>(
    alloc: Global,
    source: &mut R,
    sink: &mut W,
    reads: u32,
) -> Ended
    requires { AreFresh (ports R.left R.made R.ended R.failed W.taken W.sent W.failed source.old sink.old) }
    ensures ran { CaptureRan true (replay_writes 240)
        (ports R.left R.made R.ended R.failed W.taken W.sent W.failed source.old sink.old)
        (ports R.left R.made R.ended R.failed W.taken W.sent W.failed source.new sink.new) result }
    ensures stops { Stops false true
        (ports R.left R.made R.ended R.failed W.taken W.sent W.failed source.old sink.old)
        (ports R.left R.made R.ended R.failed W.taken W.sent W.failed source.new sink.new) reads result }
    ensures status { IfOk result (λ report. report.status ≤ 1) }
{
    run_replay_of::<240, R, W>(alloc, source, sink, reads)
}

/// Puts the line of a text.
pub(crate) fn put_text_line<W: Sink>(
    number: u64,
    text: &[u8],
    out: &mut Output<'_, W>,
) -> Result<(), ToolFault>
    requires { IsWorking out.old }
    ensures { IsPut out.old out.new result (text_line number text.now) }
{
    out.make_room(TEXT_LINE_ROOM)?;
    out.append(b"text ");
    out.append_number(number);
    out.append(b" ");
    out.append_number(text.len() as u64);
    out.append(b"\n");
    Ok(())
}

/// Puts the line of a difference between what the computer sent and the replies.
pub(crate) fn put_difference<'x, W: Sink>(
    place: Part<'x>,
    want: &'x [u8],
    got: &'x [u8],
    out: &mut Output<'_, W>,
) -> Result<(), ToolFault>
    requires { IsWorking out.old }
    ensures { IsPut out.old out.new result (difference_line (part_text place.entry) want.now got.now) }
{
    let parts = [
        Part::Text(b"difference "),
        place,
        Part::Text(b" "),
        or_dash(want),
        Part::Text(b" "),
        or_dash(got),
        Part::Text(b"\n"),
    ];
    parts.as_slice().print(out)
}

/// The digits of bytes, or a dash for no byte.
fn or_dash(bytes: &[u8]) -> Part<'_>
    ensures { part_text result ≡ digits_or_dash bytes.now }
{
    if bytes.is_empty() {
        return Part::Text(b"-");
    }
    Part::Digits(bytes)
}
