//! What a run reads from and writes to.

ghost use Rattle.std.specs.Prelude.{◌≡◌, []};
ghost use Rattle.lis_engine.specs.Runs.{AreFresh, HasRun, Stops, ports};

use crate::machine::{Machine, run};
use crate::report::Ended;
use lis_port::{Sink, Source};

/// A source for runs that write to a sink: each source is one, for every sink. A run's contract says what was known of
/// both before it and what is known after it.
pub trait SourceFor<W: Sink>: Source {
    /// Feeds a machine with what the source gives, to its end, by at most `reads` calls of read. All text goes out
    /// before each that may wait for bytes, so that no line waits with it, and where the run ends.
    fn run<F: Copy, M: Machine<F>>(&mut self, sink: &mut W, machine: M, reads: u32) -> Ended<F>
        requires new { M.represents machine [] [] }
        requires fresh { AreFresh
            (ports Self.left Self.made Self.ended Self.failed W.taken W.sent W.failed self.old sink.old) }
        ensures ran { HasRun M.takes_memory M.means
            (ports Self.left Self.made Self.ended Self.failed W.taken W.sent W.failed self.old sink.old)
            (ports Self.left Self.made Self.ended Self.failed W.taken W.sent W.failed self.new sink.new) result }
        ensures stops { Stops M.refuses M.closes
            (ports Self.left Self.made Self.ended Self.failed W.taken W.sent W.failed self.old sink.old)
            (ports Self.left Self.made Self.ended Self.failed W.taken W.sent W.failed self.new sink.new) reads result };
}

impl<R: Source, W: Sink> SourceFor<W> for R {
    fn run<F: Copy, M: Machine<F>>(&mut self, sink: &mut W, machine: M, reads: u32) -> Ended<F> {
        run(machine, self, sink, reads)
    }
}
