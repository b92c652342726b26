//! The command `upgrade`: a capture as one of version 2.

ghost use Rattle.std.specs.Prelude.{◌≡◌, List, true, false, IfOk};
ghost use Rattle.lis_capture.specs.declared.line.Line.{Line as LineContent};
ghost use Rattle.lis_capture.specs.Encoding.{added_encoding};
ghost use Rattle.lis_engine.specs.Output.{IsLeft, IsPut, IsWorking};
ghost use Rattle.lis_engine.specs.Runs.{AreFresh, Stops, ports};
ghost use Rattle.lis_run.specs.CaptureRuns.{CaptureRan};
ghost use Rattle.lis_run.specs.Upgrade.{opening, upgrade_writes};
ghost use Rattle.lis_run.specs.inside.Upgrade.{is_begun};

use crate::lines::{LineMachine, run_lines};
use lis_capture::{LONGEST_ENCODING, Line, LineReader, MOST_BYTES};
use lis_engine::{Output, SourceFor, ToolFault};
use lis_port::Sink;
use lis_report::{Ended, Report};

/// Writes a capture as one of version 2: the line `capture 2`, and then each of its lines, with digits in
/// lower case and without CR. Where a line is malformed, the lines before it are written. It takes no memory.
///
/// The source was never read, and neither it nor the sink has failed.
pub fn run_upgrade<R: SourceFor<W>, W: Sink>(source: &mut R, sink: &mut W, reads: u32) -> Ended
    requires { AreFresh (ports R.left R.made R.ended R.failed W.taken W.sent W.failed source.old sink.old) }
    ensures ran { CaptureRan false upgrade_writes
        (ports R.left R.made R.ended R.failed W.taken W.sent W.failed source.old sink.old)
        (ports R.left R.made R.ended R.failed W.taken W.sent W.failed source.new sink.new) result }
    ensures stops { Stops false true
        (ports R.left R.made R.ended R.failed W.taken W.sent W.failed source.old sink.old)
        (ports R.left R.made R.ended R.failed W.taken W.sent W.failed source.new sink.new) reads result }
    ensures status { IfOk result (λ report. report.status ≡ 0) }
{
    run_lines(Upgrade { begun: false }, source, sink, reads)
}

/// Whether a line was read.
#[derive(Drop)]
struct Upgrade {
    begun: bool,
}

impl Upgrade {
    /// Puts the line of the version, where no line was read before.
    #[inline(always)]
    #[tactic(auto, using(crate::proofs::StepLaws::put_left, crate::proofs::StepLaws::put_same))]
    fn open<W: Sink>(&mut self, out: &mut Output<'_, W>) -> Result<(), ToolFault>
        requires { IsWorking out.old }
        ensures put { (lines : List LineContent) → self.old.begun ≡ is_begun lines →
            IsPut out.old out.new result (opening lines) }
        ensures begun { self.new.begun ≡ true }
        ensures left { IsLeft result out.new }
        ensures same { out.new.sink ≡ out.old.sink }
    {
        if self.begun {
            return Ok(());
        }
        self.begun = true;
        out.put(b"capture 2\n")
    }
}

impl LineMachine for Upgrade {
    ghost writes = { upgrade_writes };

    ghost represents = { λ m lines. m.begun ≡ is_begun lines };

    ghost takes_memory = { false };

    fn reader() -> LineReader {
        LineReader::keeping_digits()
    }

    #[inline(always)]
    fn copy_line<W: Sink>(
        &mut self,
        reader: &mut LineReader,
        out: &mut Output<'_, W>,
        bytes: &[u8],
    ) -> Option<usize> {
        if !self.begun || out.room() < LONGEST_ENCODING {
            return None;
        }
        reader.copy(bytes, out)
    }

    #[inline(always)]
    #[tactic(auto, using(crate::proofs::StepLaws::put_left, crate::proofs::StepLaws::put_same))]
    fn line<'a, W: Sink>(
        &mut self,
        _number: u64,
        line: &Line<'a>,
        _room: &'a mut [u8; MOST_BYTES],
        out: &mut Output<'_, W>,
    ) -> Result<(), ToolFault> {
        self.open(out)?;
        put_added(line, out)
    }

    fn end<W: Sink>(self, out: &mut Output<'_, W>) -> Ended {
        let mut upgrade = self;
        upgrade.open(out)?;
        Ok(Report::of(false))
    }
}

/// Puts a line, but not that of the version, which is in front alone.
#[inline(always)]
fn put_added<W: Sink>(line: &Line<'_>, out: &mut Output<'_, W>) -> Result<(), ToolFault>
    requires { IsWorking out.old }
    ensures { IsPut out.old out.new result (added_encoding line.now) }
{
    if let Line::Version = line {
        return Ok(());
    }
    out.make_room(LONGEST_ENCODING)?;
    line.append_to(out);
    Ok(())
}
