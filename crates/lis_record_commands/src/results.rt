//! The command `results`: the result records of messages, with the samples that their orders name (LIS02-A2).

ghost use Rattle.std.specs.Prelude.{◌≡◌, ◌≤◌, ◌++◌, Option, None, OnOk, true, IfOk};
ghost use Rattle.lis_record_values.specs.declared.kinds.Kind.TheVariants as kinds;
ghost use Rattle.lis_record_values.specs.Shape.{Repeats};
ghost use Rattle.lis_engine.specs.Runs.{AreFresh, Stops, ports};
ghost use Rattle.lis_record_commands.specs.MessageRuns.{MessagesRan};
ghost use Rattle.lis_record_commands.specs.Results.{field_text, fields_following, result_line, results_writes};
ghost use Rattle.lis_record_commands.specs.Results.{printed_fields};
ghost use Rattle.lis_record_commands.specs.inside.Results.{HoldsResults};

use crate::held_text::HeldText;
use crate::messages::{MessageMachine, report_following, run_messages};
use lis_engine::{Output, ToolFault};
use lis_message::{BorrowedRecord, MessageFault};
use lis_port::{Sink, Source};
use lis_record_values::Kind;
use lis_report::Ended;
use std::alloc::{AllocError, Global};

/// Reads record text and writes a line for each result record: field 3 of its order, and its own fields 3 to 7 and 9,
/// each by its encoding. The status is 1 where a record is rejected, or the end of the input comes before that of a
/// message; the lines of the whole messages before it are written.
///
/// The source was never read, and neither it nor the sink has failed.
pub fn run_results<R: Source, W: Sink>(
    alloc: Global,
    source: &mut R,
    sink: &mut W,
    reads: u32,
) -> Ended
    requires { AreFresh (ports R.left R.made R.ended R.failed W.taken W.sent W.failed source.old sink.old) }
    ensures ran { MessagesRan results_writes
        (ports R.left R.made R.ended R.failed W.taken W.sent W.failed source.old sink.old)
        (ports R.left R.made R.ended R.failed W.taken W.sent W.failed source.new sink.new) result }
    ensures stops { Stops true true
        (ports R.left R.made R.ended R.failed W.taken W.sent W.failed source.old sink.old)
        (ports R.left R.made R.ended R.failed W.taken W.sent W.failed source.new sink.new) reads result }
    ensures status { IfOk result (λ report. report.status ≤ 1) }
{
    run_messages(alloc, Results::new(alloc), source, sink, reads)
}

/// What waits of a message that isn't whole: the lines of its results, and the sample that its last order names.
#[derive(Drop)]
struct Results {
    lines: HeldText,
    sample: HeldText,
}

impl Results {
    /// No message was read.
    fn new(alloc: Global) -> Self
        ensures { HoldsResults result.lines.bytes.items result.sample.bytes.items None }
    {
        Results {
            lines: HeldText::new(alloc),
            sample: HeldText::new(alloc),
        }
    }
}

impl MessageMachine for Results {
    ghost writes = { results_writes };

    ghost represents = { λ m messages left. HoldsResults m.lines.bytes.items m.sample.bytes.items left };

    #[inline(always)]
    fn record(&mut self, entry: &BorrowedRecord<'_>) -> Result<(), AllocError> {
        match entry.kind() {
            Kind::O => {
                self.sample.clear();
                self.sample.add_field(&entry.again(), 3)
            }
            Kind::R => add_result(&mut self.lines, self.sample.as_slice(), entry),
            _ => Ok(()),
        }
    }

    #[inline(never)]
    fn message<W: Sink>(&mut self, _before: u64, out: &mut Output<'_, W>) -> Result<(), ToolFault> {
        out.put(self.lines.as_slice())?;
        self.lines.clear();
        self.sample.clear();
        Ok(())
    }

    fn end<W: Sink>(
        &self,
        before: u64,
        fault: Option<MessageFault>,
        _out: &mut Output<'_, W>,
    ) -> Ended {
        Ok(report_following(before, false, fault))
    }
}

/// Adds the line of a result under this sample.
#[inline(always)]
fn add_result(
    lines: &mut HeldText,
    sample: &[u8],
    entry: &BorrowedRecord<'_>,
) -> Result<(), AllocError>
    requires { entry.now.content.kind ≡ kinds.R }
    ensures { OnOk result ((named : Option Repeats) → sample.now ≡ field_text entry.now.delimiters named →
        lines.new.bytes.items ≡ lines.old.bytes.items ++ result_line entry.now.delimiters named entry.now.content) }
{
    lines.add(sample)?;
    add_printed(lines, entry)?;
    lines.add_byte(b'\n')
}

/// Adds the fields of a result that are reported, each after a field delimiter.
#[inline(always)]
fn add_printed(lines: &mut HeldText, entry: &BorrowedRecord<'_>) -> Result<(), AllocError>
    requires { entry.now.content.kind ≡ kinds.R }
    ensures { OnOk result (lines.new.bytes.items ≡ lines.old.bytes.items
        ++ fields_following entry.now.delimiters entry.now.content printed_fields) }
{
    let mut fields = entry.fields();
    // The record's number is not printed.
    let _number = fields.next();
    if !lines.add_fields(&mut fields, 5)? {
        return add_each(lines, &entry.again());
    }
    // Nor is field 8, the nature of abnormality testing.
    let _nature = fields.next();
    lines.add_next(entry.delimiters().field(), &mut fields)
}

/// The same, of fields of which some may be absent: one by one.
#[inline(never)]
fn add_each(lines: &mut HeldText, entry: &BorrowedRecord<'_>) -> Result<(), AllocError>
    requires { entry.now.content.kind ≡ kinds.R }
    ensures { OnOk result (lines.new.bytes.items ≡ lines.old.bytes.items
        ++ fields_following entry.now.delimiters entry.now.content printed_fields) }
{
    let mark = entry.delimiters().field();
    let mut fields = entry.fields();
    // The record's number is not printed.
    let _number = fields.next();
    for _field in 0..5usize {
        lines.add_next(mark, &mut fields)?;
    }
    // Nor is field 8, the nature of abnormality testing.
    let _nature = fields.next();
    lines.add_next(mark, &mut fields)
}
