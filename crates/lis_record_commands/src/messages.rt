//! Commands that take record text message by message, each record where it is.

ghost use Rattle.std.specs.Prelude.{◌≡◌, ◌+◌, ◌^◌, ◌<◌, ◌++◌, ◌∷◌, [], ℕ, List, None, Some, Option, IfErr, IfOk, OnOk};
ghost use Rattle.std.specs.Prelude.{false, true, if◌then◌else◌, length};
ghost use Rattle.std.specs.Option.{option_to_list};
ghost use Rattle.lis_message.specs.Feeding.{StopsReading};
ghost use Rattle.lis_message.specs.Taking.{ComesNext, Completes, left_after, records_of};
ghost use Rattle.lis_engine.specs.Output.{IsLeft, IsWorking};
ghost use Rattle.lis_engine.specs.Runs.{AreFresh, Stops, ports};
ghost use Rattle.lis_engine.specs.Steps.{LineEnds, LineSteps, ended_by};
ghost use Rattle.lis_record_commands.specs.MessageRuns.{MessagesRan};
ghost use Rattle.lis_record_commands.specs.Messages.{IsReadingMessages, MessageWrites, messages_text, record_count};
ghost use Rattle.lis_record_commands.specs.Messages.{RunGives, report_after, whole_begun, with_record};
ghost use Rattle.lis_record_commands.specs.inside.Messages.{Advances, StopsAt, StopsIn, reads_on};
ghost use Rattle.lis_tree.specs.Begun.{Begun};
ghost use Rattle.lis_tree.specs.Tree.{MessageTree};

use lis_engine::{Machine, Output, ToolFault, run};
use lis_message::{BorrowedRecord, MessageFault, Reason, RecordFound, RecordReader};
use lis_port::{Sink, Source};
use lis_record_values::Kind;
use lis_report::{Ended, Refused, Report, Stop};
use std::alloc::{AllocError, Global};

/// A command that takes record text message by message. Contracts see the messages in their order, and the records of
/// one that isn't closed yet.
pub trait MessageMachine: Drop {
    // What it writes for a message after others, and after them all.
    ghost writes: { MessageWrites };

    // It represents these messages, for which all was written, and for the records of one more, for which nothing was.
    ghost represents: { Self → List MessageTree → Option Begun → Type 0 };

    /// Takes the next record of a message. What it gives waits until the message is whole.
    fn record(&mut self, entry: &BorrowedRecord<'_>) -> Result<(), AllocError>
        ensures { OnOk result ((messages : List MessageTree) (left : Option Begun) (text : List ℕ)
            → represents self.old messages left →
            ComesNext left text entry.now → record_count messages + length (records_of left) < 2 ^ 44 →
            represents self.new messages (with_record left entry.now)) };

    /// Writes what waits for a message that is whole, after so many others.
    fn message<W: Sink>(&mut self, before: u64, out: &mut Output<'_, W>) -> Result<(), ToolFault>
        requires { IsWorking out.old }
        ensures steps { (messages : List MessageTree) (message : MessageTree)
            → represents self.old messages (whole_begun message) →
            before ≡ length messages → record_count (messages ++ message ∷ []) < 2 ^ 44 →
            LineSteps false (represents self.new (messages ++ message ∷ []) None) out.old out.new
            (writes.message (length messages) message) result }
        ensures left { IsLeft result out.new }
        ensures same { out.new.sink ≡ out.old.sink };

    /// Writes what closes the run after so many messages, at a record that is rejected or at the end of the input.
    fn end<W: Sink>(
        &self,
        before: u64,
        fault: Option<MessageFault>,
        out: &mut Output<'_, W>,
    ) -> Ended
        requires { IsWorking out.old }
        ensures ends { (messages : List MessageTree) (left : Option Begun) → represents self.now messages left
            → before ≡ length messages → length messages < 2 ^ 44 →
            LineEnds (report_after writes messages fault) out.old out.new (writes.last messages fault) result }
        ensures left { IsLeft result out.new }
        ensures same { out.new.sink ≡ out.old.sink };
}

/// The report of a run over so many messages, where none or this is rejected after them, by whether it found something
/// to look at.
pub(crate) fn report_following(before: u64, found: bool, fault: Option<MessageFault>) -> Report
    ensures { (w : MessageWrites) (messages : List MessageTree) → before ≡ length messages
        → length messages < 2 ^ 44 → (if found then 1 else 0) ≡ w.status messages
        → result ≡ report_after w messages fault }
{
    let Some(fault) = fault else {
        return Report::of(found);
    };
    let message = before.saturating_add(1);
    Report {
        status: 1,
        refused: Some(Refused { message, fault }),
    }
}

/// Runs a command over record text: it takes the messages of what the source gives, by at most `reads` calls of read.
pub(crate) fn run_messages<C: MessageMachine, R: Source, W: Sink>(
    alloc: Global,
    command: C,
    source: &mut R,
    sink: &mut W,
    reads: u32,
) -> Ended
    requires new { C.represents command [] None }
    requires fresh { AreFresh (ports R.left R.made R.ended R.failed W.taken W.sent W.failed source.old sink.old) }
    ensures ran { MessagesRan C.writes
        (ports R.left R.made R.ended R.failed W.taken W.sent W.failed source.old sink.old)
        (ports R.left R.made R.ended R.failed W.taken W.sent W.failed source.new sink.new) result }
    ensures stops { Stops true true
        (ports R.left R.made R.ended R.failed W.taken W.sent W.failed source.old sink.old)
        (ports R.left R.made R.ended R.failed W.taken W.sent W.failed source.new sink.new) reads result }
{
    run(Messages::new(alloc, command), source, sink, reads)
}

/// A command, and how many messages it wrote.
#[derive(Drop)]
struct Counted<C> {
    command: C,
    count: u64,
}

impl<C: MessageMachine> Counted<C> {
    /// The command takes the next record, and writes the message that it completes.
    #[inline(always)]
    fn take<W: Sink>(
        &mut self,
        entry: &BorrowedRecord<'_>,
        out: &mut Output<'_, W>,
    ) -> Result<(), ToolFault>
        requires { IsWorking out.old }
        ensures steps { (messages : List MessageTree) (left : Option Begun) (message : Option MessageTree)
            (text : List ℕ) →
            C.represents self.old.command messages left → self.old.count ≡ length messages →
            ComesNext left text entry.now →
            Completes left entry.now message → record_count messages + length (records_of left) < 2 ^ 44 →
            record_count (messages ++ option_to_list message) < 2 ^ 44 →
            LineSteps true (C.represents self.new.command (messages ++ option_to_list message)
            (left_after left entry.now entry.now.content.kind)
            × (self.new.count ≡ length (messages ++ option_to_list message)))
            out.old out.new (messages_text C.writes (length messages) (option_to_list message)) result }
        ensures left { IsLeft result out.new }
        ensures same { out.new.sink ≡ out.old.sink }
    {
        if let Err(AllocError) = self.command.record(entry) {
            return Err(ToolFault::OutOfMemory);
        }
        let Kind::L = entry.kind() else {
            return Ok(());
        };
        self.command.message(self.count, out)?;
        self.count = self.count.saturating_add(1);
        Ok(())
    }

    /// Why the run ends at a record that is rejected, or where memory runs out.
    #[inline(never)]
    fn refuse<W: Sink>(&self, fault: MessageFault, out: &mut Output<'_, W>) -> Stop
        requires { IsWorking out.old }
        ensures stops { (messages : List MessageTree) (left : Option Begun) (bytes text : List ℕ)
            → C.represents self.now.command messages left →
            self.now.count ≡ length messages → length messages < 2 ^ 44 → text ≡ messages_text C.writes 0 messages
            → StopsReading bytes messages fault →
            StopsAt C.writes bytes out.old out.new text result }
        ensures left { IsLeft (ended_by result) out.new }
        ensures same { out.new.sink ≡ out.old.sink }
    {
        if let Reason::OutOfMemory = fault.reason {
            return Stop::Fault(ToolFault::OutOfMemory);
        }
        match self.command.end(self.count, Some(fault), out) {
            Ok(report) => Stop::Refused(report),
            Err(fault) => Stop::Fault(fault),
        }
    }
}

/// A command over messages, as one over bytes. It keeps what waits for one message.
#[derive(Drop)]
pub struct Messages<C> {
    counted: Counted<C>,
    reader: RecordReader,
}

impl<C: MessageMachine> Messages<C> {
    /// A reader at the start of a stream, with a command that was given no message.
    pub fn new(alloc: Global, command: C) -> Self
        requires { C.represents command [] None }
        ensures { IsReadingMessages C.writes (C.represents result.counted.command) result.reader result.counted.count []
            [] }
    {
        Messages {
            counted: Counted { command, count: 0 },
            reader: RecordReader::new(alloc),
        }
    }

    /// The command takes the next record of these bytes, whole in them or not, or what rejects one; and the bytes after
    /// it.
    // Its result is large: within the loop of its caller each record would pay for it.
    #[inline(never)]
    fn read_next<'a, W: Sink>(
        &mut self,
        bytes: &'a [u8],
        out: &mut Output<'_, W>,
    ) -> Result<&'a [u8], Stop>
        requires working { IsWorking out.old }
        requires some { 0 < length bytes.now }
        ensures ok { IfOk result (λ following. Advances
            (IsReadingMessages C.writes (C.represents self.old.counted.command) self.old.reader self.old.counted.count)
            (IsReadingMessages C.writes (C.represents self.new.counted.command) self.new.reader self.new.counted.count)
            bytes.now following.now out.old out.new) }
        ensures err { IfErr result (λ stop. StopsIn C.writes
            (IsReadingMessages C.writes (C.represents self.old.counted.command) self.old.reader self.old.counted.count)
            bytes.now out.old out.new stop) }
        ensures shorter { IfOk result (λ following. length following.now < length bytes.now) }
        ensures works { OnOk result (IsWorking out.new) }
        ensures left { IfErr result (λ stop. IsLeft (ended_by stop) out.new) }
        ensures same { out.new.sink ≡ out.old.sink }
    {
        let (following, found) = self.reader.read(bytes);
        match found {
            RecordFound::Nothing => Ok(following),
            RecordFound::Refused(fault) => Err(self.counted.refuse(fault, out)),
            RecordFound::Record(entry) => match self.counted.take(&entry, out) {
                Ok(()) => Ok(following),
                Err(fault) => Err(Stop::Fault(fault)),
            },
            RecordFound::Held => {
                let Some(entry) = self.reader.split() else {
                    unreachable!()
                };
                match self.counted.take(&entry, out) {
                    Ok(()) => Ok(following),
                    Err(fault) => Err(Stop::Fault(fault)),
                }
            }
        }
    }
}

impl<C: MessageMachine> Machine<Refused> for Messages<C> {
    ghost means = { RunGives C.writes };

    ghost represents = { λ m bytes text.
        IsReadingMessages C.writes (C.represents m.counted.command) m.reader m.counted.count bytes text };

    ghost takes_memory = { true };

    ghost closes = { true };

    ghost refuses = { true };

    ghost goes_on = { λ m bytes text reading. reads_on reading };

    fn feed<W: Sink>(&mut self, bytes: &[u8], out: &mut Output<'_, W>) -> Result<(), Stop> {
        let mut rest = bytes;
        while !rest.is_empty() {
            // Most records are whole in the bytes.
            let Some((entry, following)) = self.reader.read_whole(rest) else {
                rest = self.read_next(rest, out)?;
                continue;
            };
            if let Err(fault) = self.counted.take(&entry, out) {
                return Err(Stop::Fault(fault));
            }
            rest = following;
        }
        Ok(())
    }

    fn end<W: Sink>(self, out: &mut Output<'_, W>) -> Ended {
        let Messages { counted, reader } = self;
        let fault = reader.finish().err();
        counted.command.end(counted.count, fault, out)
    }

    fn closes(&self) -> bool {
        true
    }
}
