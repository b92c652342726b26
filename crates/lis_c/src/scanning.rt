//! A scanner of the usual limit on a frame's text, or of the long one.

ghost use Rattle.std.specs.Prelude.{◌≡◌, ◌≤◌, ◌∷◌, ℕ, [], List, length, take, IfOk};
ghost use Rattle.lis_c.specs.Limits.{NewScanner, ScansFor, scanner_limit, scanner_text};
ghost use Rattle.lis_c.specs.Signals.{FedAndAnswered, ReportsSignal};
ghost use Rattle.lis_c.specs.inside.Signals.{Puts, PutsLong};
ghost use Rattle.lis_frame.specs.Scanner.{StandsFor};
ghost use Rattle.lis_frame.specs.Stream.{signal_after, stream_with};

use crate::feed::{Report, feed, push};
use crate::out::LisSignal;
use lis_frame::{Scanner, ScannerOf};
use std::alloc::{AllocError, Global};
use std::marker::Model;

/// A scanner of either limit.
#[derive(Drop)]
pub enum AnyScanner {
    Usual(Scanner),
    Long(Box<LongScanner>),
}

/// A scanner of the long limit, and room for the text of a frame. The first `len` bytes of it are the text of the frame
/// that was read last, if a `LisSignal` has no room for it; else `len` is 0.
#[derive(Drop)]
pub struct LongScanner {
    scanner: ScannerOf<63_993>,
    text: [u8; 63_993],
    len: usize,
}

impl Model for LongScanner {
    ghost use Rattle.std.specs.Prelude.{◌≤◌, take};
    ghost use Rattle.lis_c.specs.Long.{LongHeld};

    ghost Value = { LongHeld };

    ghost view = { λ s. record { scanner = s.scanner; text = take s.len s.text } };

    ghost invariant = { λ s. s.len ≤ 63993 };
}

impl LongScanner {
    /// One that has read no byte.
    fn new() -> Self
        ensures scanner { StandsFor 63993 result.scanner [] }
        ensures text { result.text ≡ [] }
    {
        LongScanner {
            scanner: ScannerOf::new(),
            text: [0; 63_993],
            len: 0,
        }
    }

    #[tactic(auto, using(crate::proofs::SignalLaws::long))]
    /// Reads one byte, and reports the signal that it gives.
    #[inline(never)]
    fn push(&mut self, byte: u8, out: &mut LisSignal)
        ensures signal { (past : List ℕ) → StandsFor 63993 self.old.scanner past →
            ReportsSignal (signal_after 63993 past byte) out.new self.new.text }
        ensures after { (past : List ℕ) → StandsFor 63993 self.old.scanner past →
            StandsFor 63993 self.new.scanner (byte ∷ past) }
    {
        let report = push(&mut self.scanner, byte, &mut self.text);
        self.len = put_long(report, &self.text, out);
    }

    #[tactic(auto, using(crate::proofs::SignalLaws::long_fed))]
    /// Reads bytes up to the first that gives a signal, or all of them if none does, reports the signal, and answers
    /// how many it read.
    #[inline(never)]
    fn feed(&mut self, bytes: &[u8], out: &mut LisSignal) -> usize
        ensures signal { (past : List ℕ) → StandsFor 63993 self.old.scanner past →
            FedAndAnswered 63993 past bytes.now result out.new self.new.text }
        ensures after { (past : List ℕ) → StandsFor 63993 self.old.scanner past →
            StandsFor 63993 self.new.scanner (stream_with past (take result bytes.now)) }
    {
        let (count, report) = feed(&mut self.scanner, bytes, &mut self.text);
        self.len = put_long(report, &self.text, out);
        count
    }

    /// The text that a `LisSignal` has no room for.
    fn text(&self) -> &[u8]
        ensures { result.now ≡ self.now.text }
    {
        &self.text[..self.len]
    }
}

/// Puts a report into a signal, next to the text that is there.
fn put(report: Report, out: &mut LisSignal)
    ensures put { Puts report out.new }
    ensures text { out.new.text ≡ out.old.text }
{
    out.kind = report.kind;
    out.number = report.number;
    out.last = report.last;
    out.fault = report.fault;
    out.place = report.place;
    out.len = report.len;
}

/// Puts a report and its text into a signal, the text only if there is room for it: else the kind is 5, and the answer
/// is how many bytes the text has.
fn put_long(report: Report, text: &[u8], out: &mut LisSignal) -> usize
    requires { report.len ≤ length text.now }
    ensures { PutsLong report text.now out.new result }
{
    put(report, out);
    if report.len > out.text.len() {
        out.kind = 5;
        out.len = 0;
        return report.len;
    }
    out.text[..report.len].copy_from_slice(&text[..report.len]);
    0
}

impl AnyScanner {
    /// A scanner of the usual limit that has read no byte.
    pub(crate) fn usual() -> Self
        ensures { NewScanner 240 result }
    {
        AnyScanner::Usual(Scanner::new())
    }

    /// A scanner of the long limit that has read no byte.
    #[inline(never)]
    pub(crate) fn long(alloc: Global) -> Result<Self, AllocError>
        ensures { IfOk result (NewScanner 63993) }
    {
        Ok(AnyScanner::Long(Box::new(alloc, LongScanner::new())?))
    }

    #[tactic(auto, using(crate::proofs::SignalLaws::usual))]
    /// Reads one byte, and reports the signal that it gives.
    pub(crate) fn push(&mut self, byte: u8, out: &mut LisSignal)
        ensures signal { (past : List ℕ) → ScansFor self.old past →
            ReportsSignal (signal_after (scanner_limit self.old) past byte) out.new (scanner_text self.new) }
        ensures after { (past : List ℕ) → ScansFor self.old past → ScansFor self.new (byte ∷ past) }
        ensures limit { scanner_limit self.new ≡ scanner_limit self.old }
    {
        match self {
            AnyScanner::Usual(scanner) => {
                let report = push(scanner, byte, &mut out.text);
                put(report, out);
            }
            AnyScanner::Long(long) => long.push(byte, out),
        }
    }

    #[tactic(auto, using(crate::proofs::SignalLaws::usual_fed))]
    /// Reads bytes up to the first that gives a signal, or all of them if none does, reports the signal, and answers
    /// how many it read.
    pub(crate) fn feed(&mut self, bytes: &[u8], out: &mut LisSignal) -> usize
        ensures signal { (past : List ℕ) → ScansFor self.old past →
            FedAndAnswered (scanner_limit self.old) past bytes.now result out.new (scanner_text self.new) }
        ensures after { (past : List ℕ) → ScansFor self.old past →
            ScansFor self.new (stream_with past (take result bytes.now)) }
        ensures limit { scanner_limit self.new ≡ scanner_limit self.old }
    {
        match self {
            AnyScanner::Usual(scanner) => {
                let (count, report) = feed(scanner, bytes, &mut out.text);
                put(report, out);
                count
            }
            AnyScanner::Long(long) => long.feed(bytes, out),
        }
    }

    /// The text of the frame that the last call read, if a `LisSignal` has no room for it; else no byte.
    pub(crate) fn text(&self) -> &[u8]
        ensures { result.now ≡ scanner_text self.now }
    {
        match self {
            AnyScanner::Usual(_) => &[],
            AnyScanner::Long(long) => long.text(),
        }
    }
}
