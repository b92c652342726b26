//! Commands that take a capture line by line.

ghost use Rattle.std.specs.Prelude.{◌≡◌, ◌+◌, ◌∷◌, ◌++◌, [], ◌^◌, ◌<◌, Bool, true, false, List, length};
ghost use Rattle.std.specs.Prelude.{IfNone, IfSome};
ghost use Rattle.lis_frame.specs.Stream.{stream_with};
ghost use Rattle.lis_capture.specs.declared.line.Line.{Line as LineContent};
ghost use Rattle.lis_capture.specs.Capture.{capture};
ghost use Rattle.lis_capture.specs.Reader.{CopiesLine, HasRead};
ghost use Rattle.lis_run.specs.CaptureRuns.{CaptureRan};
ghost use Rattle.lis_run.specs.LineOutcome.{IsLined, Writes, capture_outcome, lines_outcome};
ghost use Rattle.lis_engine.specs.Steps.{LineEnds, LineSteps};
ghost use Rattle.lis_engine.specs.Outcome.{going};
ghost use Rattle.lis_engine.specs.Output.{IsLeft, IsWorking};
ghost use Rattle.lis_engine.specs.Runs.{AreFresh, Stops, ports};
ghost use Rattle.std.proofs.Common.{ap, sym, ◌∙◌};

use lis_capture::{Line, LineFound, LineReader, MOST_BYTES};
use lis_engine::{Machine, Output, SourceFor, ToolFault};
use lis_port::Sink;
use lis_report::{Ended, Refused, Stop};

/// A command that takes a capture line by line. Contracts see the lines newest first.
pub trait LineMachine: Drop {
    // What it writes for a line after others, and at the end.
    ghost writes: { Writes };

    // It represents these lines, for which all was written.
    ghost represents: { Self → List LineContent → Type 0 };

    // Whether it may want memory.
    ghost takes_memory: { Bool };

    /// A new reader, which keeps of a line what the command takes: its bytes, or their digits.
    fn reader() -> LineReader
        ensures { HasRead result [] };

    /// Takes the next line of these bytes and puts what it gives, where there is room and the command can do both at
    /// once; answers how many bytes the line has. Else nothing is taken.
    #[inline(always)]
    fn copy_line<W: Sink>(
        &mut self,
        reader: &mut LineReader,
        out: &mut Output<'_, W>,
        bytes: &[u8],
    ) -> Option<usize>
        ensures read { IfSome result (λ count. CopiesLine reader.old reader.new bytes.now count) }
        ensures represented { IfSome result (λ count. (lines : List LineContent) → represents self.old lines →
            represents self.new (reader.new.known.line ∷ lines)) }
        ensures kept { out.new ≡ record out.old { waits = out.new.waits } }
        ensures written { IfSome result (λ count. (lines : List LineContent) → represents self.old lines →
            out.new.waits ≡ out.old.waits ++ writes.line lines reader.new.known.line) }
        ensures none { IfNone result ((self.new ≡ self.old) × (reader.new ≡ reader.old) × (out.new ≡ out.old)) }
    {
        None
    }

    /// Takes the line of this number; there is room for its bytes where their digits are kept. Apart from the sink's
    /// faults, it stops the run only if memory runs out.
    fn line<'a, W: Sink>(
        &mut self,
        number: u64,
        line: &Line<'a>,
        room: &'a mut [u8; MOST_BYTES],
        out: &mut Output<'_, W>,
    ) -> Result<(), ToolFault>
        requires { IsWorking out.old }
        ensures steps { (lines : List LineContent) → represents self.old lines → number ≡ length lines + 1
            → number < 2 ^ 44 →
            LineSteps takes_memory (represents self.new (line.now ∷ lines)) out.old out.new
            (writes.line lines line.now) result }
        ensures left { IsLeft result out.new }
        ensures same { out.new.sink ≡ out.old.sink };

    /// Takes the end of the input.
    fn end<W: Sink>(self, out: &mut Output<'_, W>) -> Ended
        requires { IsWorking out.old }
        ensures ends { (lines : List LineContent) → represents self lines → length lines < 2 ^ 44 →
            LineEnds (writes.report lines) out.old out.new (writes.last lines) result }
        ensures left { IsLeft result out.new }
        ensures same { out.new.sink ≡ out.old.sink };
}

/// Runs a command over a capture: it takes the lines of what the source gives, by at most `reads` calls of read.
pub(crate) fn run_lines<C: LineMachine, R: SourceFor<W>, W: Sink>(
    command: C,
    source: &mut R,
    sink: &mut W,
    reads: u32,
) -> Ended
    requires new { C.represents command [] }
    requires fresh { AreFresh (ports R.left R.made R.ended R.failed W.taken W.sent W.failed source.old sink.old) }
    ensures ran { CaptureRan C.takes_memory C.writes
        (ports R.left R.made R.ended R.failed W.taken W.sent W.failed source.old sink.old)
        (ports R.left R.made R.ended R.failed W.taken W.sent W.failed source.new sink.new) result }
    ensures stops { Stops false true
        (ports R.left R.made R.ended R.failed W.taken W.sent W.failed source.old sink.old)
        (ports R.left R.made R.ended R.failed W.taken W.sent W.failed source.new sink.new) reads result }
{
    source.run(sink, Lines::new(command), reads)
}

/// A command over the lines of a capture, as one over its bytes.
#[derive(Drop)]
pub struct Lines<C> {
    command: C,
    reader: LineReader,
    room: [u8; MOST_BYTES],
}

impl<C: LineMachine> Lines<C> {
    /// A reader at the start of a capture, with a command that was given no line.
    pub fn new(command: C) -> Self
        requires { C.represents command [] }
        ensures { IsLined C.writes (C.represents result.command) result.reader [] [] }
    {
        Lines {
            command,
            reader: C::reader(),
            room: [0; MOST_BYTES],
        }
    }

    /// The command takes the line that was read last.
    #[inline(always)]
    fn take<W: Sink>(&mut self, out: &mut Output<'_, W>) -> Result<(), ToolFault>
        requires { IsWorking out.old }
        ensures steps { (lines : List LineContent) → C.represents self.old.command lines
            → self.old.reader.known.number ≡ length lines + 1 →
            self.old.reader.known.number < 2 ^ 44 →
            LineSteps C.takes_memory (C.represents self.new.command (self.old.reader.known.line ∷ lines))
            out.old out.new
            (C.writes.line lines self.old.reader.known.line) result }
        ensures reader { self.new.reader ≡ self.old.reader }
        ensures left { IsLeft result out.new }
        ensures same { out.new.sink ≡ out.old.sink }
    {
        let number = self.reader.number();
        let line = self.reader.line();
        self.command.line(number, &line, &mut self.room, out)
    }

    /// The fault of the last line, which is rejected.
    fn rejected(&self) -> ToolFault
        ensures { result ≡ ToolFault.CaptureLine self.now.reader.known.number }
    {
        ToolFault::CaptureLine {
            line: self.reader.number(),
        }
    }
}

impl<C: LineMachine> Machine<Refused> for Lines<C> {
    ghost means = { λ bytes ended o. o ≡ capture_outcome C.writes (stream_with [] bytes) ended };

    ghost represents = { λ m bytes text. IsLined C.writes (C.represents m.command) m.reader bytes text };

    ghost takes_memory = { C.takes_memory };

    ghost closes = { true };

    ghost refuses = { false };

    ghost goes_on = { λ m bytes text lined.
        ap going lined.text_is
        ∙ sym (ap (λ (refused : Bool). lines_outcome C.writes refused false
        (capture (stream_with [] bytes) false).lines) lined.fine) };

    fn feed<W: Sink>(&mut self, bytes: &[u8], out: &mut Output<'_, W>) -> Result<(), Stop> {
        let mut rest = bytes;
        while !rest.is_empty() {
            if let Some(count) = self.command.copy_line(&mut self.reader, out, rest) {
                let (_, following) = rest.split_at(count);
                rest = following;
                continue;
            }
            let (count, found) = self.reader.read(rest);
            match found {
                LineFound::Nothing => return Ok(()),
                LineFound::Refused => return Err(Stop::Fault(self.rejected())),
                LineFound::Line => {
                    if let Err(fault) = self.take(out) {
                        return Err(Stop::Fault(fault));
                    }
                }
            }
            let (_, left) = rest.split_at(count);
            rest = left;
        }
        Ok(())
    }

    fn end<W: Sink>(self, out: &mut Output<'_, W>) -> Ended {
        let mut lines = self;
        match lines.reader.finish() {
            LineFound::Nothing => lines.command.end(out),
            LineFound::Refused => Err(lines.rejected()),
            LineFound::Line => {
                lines.take(out)?;
                lines.command.end(out)
            }
        }
    }

    fn closes(&self) -> bool {
        true
    }
}
