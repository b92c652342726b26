//! The command `texts`: the texts that a receiver delivers of the analyzer's bytes of a capture.

ghost use Rattle.std.specs.Prelude.{◌≡◌, false, true, IfOk};
ghost use Rattle.lis_frame.specs.Limit.{IsLimit};
ghost use Rattle.lis_run.specs.CaptureRuns.{CaptureRan};
ghost use Rattle.lis_run.specs.Replay.{texts_writes};
ghost use Rattle.lis_engine.specs.Runs.{AreFresh, Stops, ports};

use crate::lines::run_lines;
use crate::playing::Playing;
use lis_engine::SourceFor;
use lis_port::Sink;
use lis_report::Ended;
use std::alloc::Global;

/// Plays a capture to a new receiver whose frames have at most `N` bytes of text (LIS01-A2, 6.3): it hears what the
/// analyzer sent, and each text that it delivers is written as it is, with nothing between them.
///
/// The source was never read, and neither it nor the sink has failed.
pub fn run_texts_of<const N: usize, R: SourceFor<W>, W: Sink>(
    alloc: Global,
    source: &mut R,
    sink: &mut W,
    reads: u32,
) -> Ended
    requires limit { IsLimit N }
    requires fresh { AreFresh (ports R.left R.made R.ended R.failed W.taken W.sent W.failed source.old sink.old) }
    ensures ran { CaptureRan true (texts_writes N)
        (ports R.left R.made R.ended R.failed W.taken W.sent W.failed source.old sink.old)
        (ports R.left R.made R.ended R.failed W.taken W.sent W.failed source.new sink.new) result }
    ensures stops { Stops false true
        (ports R.left R.made R.ended R.failed W.taken W.sent W.failed source.old sink.old)
        (ports R.left R.made R.ended R.failed W.taken W.sent W.failed source.new sink.new) reads result }
    ensures status { IfOk result (λ report. report.status ≡ 0) }
{
    run_lines(Playing::<N, false>::new(alloc), source, sink, reads)
}

/// The same with the usual limit of 240 bytes.
///
/// The source was never read, and neither it nor the sink has failed.
pub fn run_texts<R: SourceFor<W>, W: Sink>(
    alloc: Global,
    source: &mut R,
    sink: &mut W,
    reads: u32,
) -> Ended
    requires { AreFresh (ports R.left R.made R.ended R.failed W.taken W.sent W.failed source.old sink.old) }
    ensures ran { CaptureRan true (texts_writes 240)
        (ports R.left R.made R.ended R.failed W.taken W.sent W.failed source.old sink.old)
        (ports R.left R.made R.ended R.failed W.taken W.sent W.failed source.new sink.new) result }
    ensures stops { Stops false true
        (ports R.left R.made R.ended R.failed W.taken W.sent W.failed source.old sink.old)
        (ports R.left R.made R.ended R.failed W.taken W.sent W.failed source.new sink.new) reads result }
    ensures status { IfOk result (λ report. report.status ≡ 0) }
{
    run_texts_of::<240, R, W>(alloc, source, sink, reads)
}
