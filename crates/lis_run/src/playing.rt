//! A receiver that plays a capture, for the commands `replay` and `texts`.

ghost use Rattle.std.specs.Prelude.{◌≡◌, ◌+◌, ◌^◌, ◌≤◌, ◌<◌, ◌++◌, ◌∷◌, [], List, true, false, length};
ghost use Rattle.std.specs.Prelude.{vec_capacity, vec_len};
ghost use Rattle.std.specs.Option.{option_to_list};
ghost use Rattle.lis_frame.specs.Limit.{IsLimit};
ghost use Rattle.lis_capture.specs.declared.line.Line.{Line as LineContent};
ghost use Rattle.lis_capture.specs.declared.line.Line.TheVariants as line_kinds;
ghost use Rattle.lis_link.specs.Receiver.{ReceiverState};
ghost use Rattle.lis_link.specs.Representation.{IsIn};
ghost use Rattle.lis_engine.specs.Steps.{LineEnds, LineSteps};
ghost use Rattle.lis_engine.specs.Output.{IsLeft, IsPut, IsWorking};
ghost use Rattle.lis_engine.specs.Parts.{part_text};
ghost use Rattle.lis_run.specs.inside.Playing.{Compares, IsPlaying, TakesStep, playing_writes, text_parts};
ghost use Rattle.lis_run.specs.Replay.{replay_writes};

use crate::lines::LineMachine;
use crate::replay::{put_difference, put_text_line};
use lis_capture::{Line, LineReader, MOST_BYTES};
use lis_engine::{CountsLine, Output, Part, Print, ToolFault};
use lis_link::{Hearing, Note, ReceiverOf, Step};
use lis_port::Sink;
use lis_report::{Ended, Report};
use lis_text::LinkText;
use std::alloc::Global;

/// A receiver that plays a capture, with the counts of its texts and differences. For `replay` `IN_LINES` is true:
/// there is a line for each text and for each difference, and its replies are kept since the last line from the
/// computer, to be compared. For `texts` the texts alone are written.
#[derive(Drop)]
pub(crate) struct Playing<const N: usize, const IN_LINES: bool> {
    receiver: ReceiverOf<N>,
    replies: Vec<u8>,
    texts: u64,
    differences: u64,
}

impl<const N: usize, const IN_LINES: bool> Playing<N, IN_LINES> {
    /// A receiver that has heard nothing.
    pub(crate) fn new(alloc: Global) -> Self
        requires { IsLimit N }
        ensures { IsPlaying IN_LINES N result [] }
    {
        Playing {
            receiver: ReceiverOf::new(alloc),
            replies: Vec::new(alloc),
            texts: 0,
            differences: 0,
        }
    }

    /// The receiver hears the bytes of the line of this number.
    #[inline(always)]
    fn hear<W: Sink>(
        &mut self,
        number: u64,
        bytes: &[u8],
        out: &mut Output<'_, W>,
    ) -> Result<(), ToolFault>
        requires working { IsWorking out.old }
        requires short { length bytes.now ≤ MOST_BYTES }
        ensures steps { (lines : List LineContent) → IsPlaying IN_LINES N self.old lines → number ≡ length lines + 1
            → number < 2 ^ 44 →
            LineSteps true (IsPlaying IN_LINES N self.new (line_kinds.FromAnalyzer bytes.now ∷ lines)) out.old out.new
            ((playing_writes IN_LINES N).line lines (line_kinds.FromAnalyzer bytes.now)) result }
        ensures left { IsLeft result out.new }
        ensures same { out.new.sink ≡ out.old.sink }
    {
        let mut rest = bytes;
        while !rest.is_empty() {
            let Hearing { count, step } = self.receiver.bytes(rest);
            self.take(number, step, out)?;
            let (_, left) = rest.split_at(count);
            rest = left;
        }
        Ok(())
    }

    /// Takes a step of the receiver: its reply is kept, what is said about its text goes out, and the text's room is
    /// used again.
    #[inline(always)]
    fn take<W: Sink>(
        &mut self,
        number: u64,
        step: Step,
        out: &mut Output<'_, W>,
    ) -> Result<(), ToolFault>
        requires { IsWorking out.old }
        ensures step_taken { TakesStep IN_LINES number step self.old self.new out.old out.new result }
        ensures receiver { (r : ReceiverState) → IsIn N self.old.receiver r → IsIn N self.new.receiver r }
        ensures differences { self.new.differences ≡ self.old.differences }
    {
        let Step {
            reply,
            message,
            note,
        } = step;
        if let Note::OutOfMemory = note {
            return Err(ToolFault::OutOfMemory);
        }
        if !self.collect(reply) {
            return Err(ToolFault::OutOfMemory);
        }
        self.texts = self.texts.saturating_add(count_of(&message));
        let put = put_text(IN_LINES, number, &message, out);
        self.reuse(message);
        put
    }

    /// Keeps a reply where they are compared, and answers whether memory was there for it.
    fn collect(&mut self, reply: Option<u8>) -> bool
        ensures kept { result ≡ true → IN_LINES ≡ true
            → self.new.replies.items ≡ self.old.replies.items ++ option_to_list reply }
        ensures full { result ≡ false → vec_capacity self.old.replies ≤ vec_len self.old.replies }
        ensures receiver { self.new.receiver ≡ self.old.receiver }
        ensures texts { self.new.texts ≡ self.old.texts }
        ensures differences { self.new.differences ≡ self.old.differences }
    {
        match reply {
            Some(reply) if IN_LINES => self.replies.push(reply).is_ok(),
            _ => true,
        }
    }

    /// The room of a text that was reported is used again.
    fn reuse(&mut self, message: Option<LinkText>)
        ensures receiver { (r : ReceiverState) → IsIn N self.old.receiver r → IsIn N self.new.receiver r }
        ensures replies { self.new.replies ≡ self.old.replies }
        ensures texts { self.new.texts ≡ self.old.texts }
        ensures differences { self.new.differences ≡ self.old.differences }
    {
        if let Some(text) = message {
            self.receiver.reuse(text);
        }
    }

    /// Compares the bytes of the computer with the replies, which are released.
    #[inline(always)]
    fn compare<W: Sink>(
        &mut self,
        number: u64,
        bytes: &[u8],
        out: &mut Output<'_, W>,
    ) -> Result<(), ToolFault>
        requires { IsWorking out.old }
        ensures steps { (lines : List LineContent) → IsPlaying IN_LINES N self.old lines → number ≡ length lines + 1
            → number < 2 ^ 44 →
            LineSteps true (IsPlaying IN_LINES N self.new (line_kinds.FromComputer bytes.now ∷ lines)) out.old out.new
            ((playing_writes IN_LINES N).line lines (line_kinds.FromComputer bytes.now)) result }
        ensures left { IsLeft result out.new }
        ensures same { out.new.sink ≡ out.old.sink }
    {
        if !IN_LINES {
            return Ok(());
        }
        self.differences = self.put_any_difference(Part::Number(number), bytes, out)?;
        self.replies.clear();
        Ok(())
    }

    /// Puts the line of a difference between the bytes of the computer and the replies, if they differ; answers the
    /// count of differences with it.
    #[inline(always)]
    #[tactic(auto, using(lis_engine::proofs::OutputLaws::nothing_put))]
    fn put_any_difference<'x, W: Sink>(
        &'x self,
        place: Part<'x>,
        want: &'x [u8],
        out: &mut Output<'_, W>,
    ) -> Result<u64, ToolFault>
        requires { IsWorking out.old }
        ensures { Compares (part_text place.entry) want.now self.now.replies.items self.now.differences
            out.old out.new result }
    {
        let (differences, got) = (self.differences, self.replies.as_slice());
        if want == got {
            return Ok(differences);
        }
        put_difference(place, want, got, out)?;
        Ok(differences.saturating_add(1))
    }

    /// Puts the closing lines of `replay`.
    fn close<W: Sink>(&self, out: &mut Output<'_, W>) -> Ended
        requires working { IsWorking out.old }
        requires lines { IN_LINES ≡ true }
        ensures ends { (lines : List LineContent) → IsPlaying IN_LINES N self.now lines → length lines < 2 ^ 44 →
            LineEnds ((replay_writes N).report lines) out.old out.new ((replay_writes N).last lines) result }
        ensures left { IsLeft result out.new }
        ensures same { out.new.sink ≡ out.old.sink }
    {
        let differences = self.put_any_difference(Part::Text(b"end"), &[], out)?;
        CountsLine {
            word: b"texts ",
            count: self.texts,
            other_word: b" differences ",
            other_count: differences,
        }
        .print(out)?;
        Ok(Report::of(differences > 0))
    }
}

impl<const N: usize, const IN_LINES: bool> LineMachine for Playing<N, IN_LINES> {
    ghost writes = { playing_writes IN_LINES N };

    ghost represents = { λ m lines. IsPlaying IN_LINES N m lines };

    ghost takes_memory = { true };

    fn reader() -> LineReader {
        LineReader::new()
    }

    #[inline(always)]
    fn line<'a, W: Sink>(
        &mut self,
        number: u64,
        line: &Line<'a>,
        room: &'a mut [u8; MOST_BYTES],
        out: &mut Output<'_, W>,
    ) -> Result<(), ToolFault> {
        match line {
            Line::Empty => {}
            Line::Version => {}
            Line::FromAnalyzer(bytes) => return self.hear(number, bytes.read(room), out),
            Line::FromComputer(bytes) => return self.compare(number, bytes.read(room), out),
            Line::Timer => {
                // It gives no reply and no text, and no line is written of its note.
                let _ = self.receiver.timer();
            }
            Line::Restart => self.receiver.restart(),
            Line::SetReady(readiness) => self.receiver.set_ready(*readiness),
        }
        Ok(())
    }

    fn end<W: Sink>(self, out: &mut Output<'_, W>) -> Ended {
        if IN_LINES {
            return self.close(out);
        }
        Ok(Report::of(false))
    }
}

/// One text or none.
fn count_of(message: &Option<LinkText>) -> u64
    ensures { result ≡ length (option_to_list message.now) }
{
    match message {
        None => 0,
        Some(_) => 1,
    }
}

/// Puts what is said of a text that the receiver delivers at the line of this number, if it delivers one.
#[inline(always)]
fn put_text<W: Sink>(
    in_lines: bool,
    number: u64,
    message: &Option<LinkText>,
    out: &mut Output<'_, W>,
) -> Result<(), ToolFault>
    requires { IsWorking out.old }
    ensures { IsPut out.old out.new result (text_parts in_lines number (option_to_list message.now)) }
{
    let Some(text) = message else {
        return Ok(());
    };
    if in_lines {
        return put_text_line(number, text.as_slice(), out);
    }
    out.put(text.as_slice())
}
