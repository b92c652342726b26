//! The command `check`: messages, their records and what is to be looked at in them (LIS02-A2).

ghost use Rattle.std.specs.Prelude.{◌≡◌, ◌<◌, ◌≤◌, ◌++◌, [], None, OnOk, true, IfOk};
ghost use Rattle.lis_engine.specs.Runs.{AreFresh, Stops, ports};
ghost use Rattle.lis_record_commands.specs.Check.{check_writes, finding_line, record_line};
ghost use Rattle.lis_record_commands.specs.inside.Check.{IsChecking};
ghost use Rattle.lis_record_commands.specs.MessageRuns.{MessagesRan};

use crate::held_text::HeldText;
use crate::messages::{MessageMachine, report_following, run_messages};
use lis_engine::{CountsLine, Output, Part, Print, ToolFault};
use lis_message::{BorrowedRecord, MessageFault};
use lis_port::{Sink, Source};
use lis_record_values::Kind;
use lis_report::Ended;
use lis_tree::{Finding, Numbering};
use std::alloc::{AllocError, Global};

/// Reads record text and writes for each message its number, a line for each of its records and one for each finding on
/// their sequence numbers; where a record is rejected, or the end of the input comes before that of a message, its
/// place and the reason; and a last line with the sums. The status is 1 where there is a finding or a rejection.
///
/// The source was never read, and neither it nor the sink has failed.
pub fn run_check<R: Source, W: Sink>(
    alloc: Global,
    source: &mut R,
    sink: &mut W,
    reads: u32,
) -> Ended
    requires { AreFresh (ports R.left R.made R.ended R.failed W.taken W.sent W.failed source.old sink.old) }
    ensures ran { MessagesRan check_writes
        (ports R.left R.made R.ended R.failed W.taken W.sent W.failed source.old sink.old)
        (ports R.left R.made R.ended R.failed W.taken W.sent W.failed source.new sink.new) result }
    ensures stops { Stops true true
        (ports R.left R.made R.ended R.failed W.taken W.sent W.failed source.old sink.old)
        (ports R.left R.made R.ended R.failed W.taken W.sent W.failed source.new sink.new) reads result }
    ensures status { IfOk result (λ report. report.status ≤ 1) }
{
    run_messages(alloc, Check::new(alloc), source, sink, reads)
}

/// What waits of a message that isn't whole: the lines of its records, and those of its findings.
#[derive(Drop)]
struct Check {
    records: HeldText,
    findings: HeldText,
    numbering: Numbering,
    /// How many findings wait.
    found: u64,
    /// How many were written.
    findings_reported: u64,
}

impl Check {
    /// No message was read.
    fn new(alloc: Global) -> Self
        ensures { IsChecking result.records.bytes.items result.findings.bytes.items result.numbering result.found
            result.findings_reported [] None }
    {
        Check {
            records: HeldText::new(alloc),
            findings: HeldText::new(alloc),
            numbering: Numbering::new(),
            found: 0,
            findings_reported: 0,
        }
    }
}

impl MessageMachine for Check {
    ghost writes = { check_writes };

    ghost represents = { λ m messages left.
        IsChecking m.records.bytes.items m.findings.bytes.items m.numbering m.found m.findings_reported messages left };

    #[inline(always)]
    fn record(&mut self, entry: &BorrowedRecord<'_>) -> Result<(), AllocError> {
        let place = self.numbering.next_place();
        add_record(&mut self.records, place, entry.kind(), entry.len() as u64)?;
        let Some(finding) = self.numbering.take(entry) else {
            return Ok(());
        };
        add_finding(&mut self.findings, finding)?;
        self.found = self.found.saturating_add(1);
        Ok(())
    }

    #[inline(never)]
    fn message<W: Sink>(&mut self, before: u64, out: &mut Output<'_, W>) -> Result<(), ToolFault> {
        let number = before.saturating_add(1);
        let line = (
            (Part::Text(b"message "), Part::Number(number)),
            Part::Text(b"\n"),
        );
        let records = Part::Text(self.records.as_slice());
        let findings = Part::Text(self.findings.as_slice());
        ((line, records), findings).print(out)?;
        self.findings_reported = self.findings_reported.saturating_add(self.found);
        self.found = 0;
        self.records.clear();
        self.findings.clear();
        self.numbering = Numbering::new();
        Ok(())
    }

    fn end<W: Sink>(
        &self,
        before: u64,
        fault: Option<MessageFault>,
        out: &mut Output<'_, W>,
    ) -> Ended {
        let report = report_following(before, self.findings_reported > 0, fault);
        let sums = CountsLine {
            word: b"messages ",
            count: before,
            other_word: b" findings ",
            other_count: self.findings_reported,
        };
        (report.refused, sums).print(out)?;
        Ok(report)
    }
}

/// Adds the line of a record.
#[inline(always)]
fn add_record(lines: &mut HeldText, place: u64, kind: Kind, fields: u64) -> Result<(), AllocError>
    ensures { OnOk result (lines.new.bytes.items ≡ lines.old.bytes.items ++ record_line place kind fields) }
{
    if place < 100 && fields < 100 {
        return add_short(lines, place as u8, kind, fields as u8);
    }
    add_long(lines, place, kind, fields)
}

/// The same, where both numbers have one or two digits, as most have: all is added at once.
#[inline(always)]
#[tactic(auto, using(crate::proofs::Digits::one_digit, crate::proofs::Digits::two_digits))]
fn add_short(lines: &mut HeldText, place: u8, kind: Kind, fields: u8) -> Result<(), AllocError>
    requires place { place < 100 }
    requires fields { fields < 100 }
    ensures { OnOk result (lines.new.bytes.items ≡ lines.old.bytes.items ++ record_line place kind fields) }
{
    let letter = kind.letter();
    let [first, second] = [b'0' + place / 10, b'0' + place % 10];
    let [third, fourth] = [b'0' + fields / 10, b'0' + fields % 10];
    match (place < 10, fields < 10) {
        (true, true) => lines.add(&[second, b' ', letter, b' ', fourth, b'\n']),
        (true, false) => lines.add(&[second, b' ', letter, b' ', third, fourth, b'\n']),
        (false, true) => lines.add(&[first, second, b' ', letter, b' ', fourth, b'\n']),
        (false, false) => lines.add(&[first, second, b' ', letter, b' ', third, fourth, b'\n']),
    }
}

/// The same, of numbers of any length.
#[inline(never)]
fn add_long(lines: &mut HeldText, place: u64, kind: Kind, fields: u64) -> Result<(), AllocError>
    ensures { OnOk result (lines.new.bytes.items ≡ lines.old.bytes.items ++ record_line place kind fields) }
{
    lines.add_number(place)?;
    lines.add(&[b' ', kind.letter(), b' '])?;
    lines.add_number(fields)?;
    lines.add_byte(b'\n')
}

/// Adds the line of a finding.
#[inline(never)]
fn add_finding(lines: &mut HeldText, finding: Finding) -> Result<(), AllocError>
    ensures { OnOk result (lines.new.bytes.items ≡ lines.old.bytes.items ++ finding_line finding) }
{
    lines.add(b"finding ")?;
    add_record(lines, finding.place, finding.kind, finding.expected)
}
