//! Reading bytes up to the first that gives a signal.

ghost use Rattle.std.specs.Prelude.{◌≡◌, ◌≤◌, ◌<◌, ◌∷◌, ℕ, List, length, take, IfSome};
ghost use Rattle.lis_c.specs.inside.Feeding.{FedAndReported, ReportsLast};
ghost use Rattle.lis_c.specs.inside.Reports.{Reports};
ghost use Rattle.lis_frame.specs.Scanner.{IsHeardWithin, StandsFor, heard_signal};
ghost use Rattle.lis_frame.specs.Stream.{signal_after, stream_with};

use crate::out::{fault_code, fault_place};
use lis_frame::{Heard, ScannerOf};

/// What a signal says but for the bytes of a frame's text, by the numbers of `LisSignal`; `len` is that of the text.
#[derive(Clone, Copy)]
pub(crate) struct Report {
    pub kind: u8,
    pub number: u8,
    pub last: bool,
    pub fault: u8,
    pub place: usize,
    pub len: usize,
}

/// Reads bytes up to the first that gives a signal, or all of them if none does. Answers how many they are, and
/// reports the signal; a frame's text is copied to the front of `text`.
pub(crate) fn feed<const N: usize>(
    scanner: &mut ScannerOf<N>,
    bytes: &[u8],
    text: &mut [u8],
) -> (usize, Report)
    requires { N ≤ length text.old }
    ensures fed { (past : List ℕ) → StandsFor N scanner.old past →
        FedAndReported N past bytes.now result.0 result.1 text.new }
    ensures after { (past : List ℕ) → StandsFor N scanner.old past →
        StandsFor N scanner.new (stream_with past (take result.0 bytes.now)) }
    ensures within { result.1.len ≤ length text.new }
    ensures room { length text.new ≡ length text.old }
{
    let mut count = 0;
    while count < bytes.len() {
        let (more, report) = front(scanner, &bytes[count..], text);
        count += more;
        if report.kind != 0 {
            return (count, report);
        }
    }
    (count, report_heard::<N>(None, text))
}

/// Reads the front of bytes: a whole frame, a run of bytes that give no signal, or the first byte.
fn front<const N: usize>(
    scanner: &mut ScannerOf<N>,
    bytes: &[u8],
    text: &mut [u8],
) -> (usize, Report)
    requires some { 0 < length bytes.now }
    requires room { N ≤ length text.old }
    ensures some { 0 < result.0 }
    ensures bound { result.0 ≤ length bytes.now }
    ensures last { (past : List ℕ) → StandsFor N scanner.old past →
        ReportsLast N past bytes.now result.0 result.1 text.new }
    ensures after { (past : List ℕ) → StandsFor N scanner.old past →
        StandsFor N scanner.new (stream_with past (take result.0 bytes.now)) }
    ensures within { result.1.len ≤ length text.new }
    ensures room { length text.new ≡ length text.old }
{
    let (count, frame) = scanner.scan(bytes);
    if let Some(frame) = frame {
        return (count, report_heard::<N>(Some(Heard::Good(frame)), text));
    }
    if count == 0 {
        return (1, push(scanner, bytes[0], text));
    }
    (count, report_heard::<N>(None, text))
}

/// Reads one byte and reports its signal; a frame's text is copied to the front of `text`.
pub(crate) fn push<const N: usize>(scanner: &mut ScannerOf<N>, byte: u8, text: &mut [u8]) -> Report
    requires { N ≤ length text.old }
    ensures signal { (past : List ℕ) → StandsFor N scanner.old past →
        Reports (signal_after N past byte) result text.new }
    ensures after { (past : List ℕ) → StandsFor N scanner.old past → StandsFor N scanner.new (byte ∷ past) }
    ensures within { result.len ≤ length text.new }
    ensures room { length text.new ≡ length text.old }
{
    let report = report_heard::<N>(scanner.peek(byte), text);
    scanner.take(byte);
    report
}

/// Reports what was heard; a frame's text is copied to the front of `text`.
fn report_heard<const N: usize>(heard: Option<Heard<'_>>, text: &mut [u8]) -> Report
    requires content { IfSome heard (IsHeardWithin N) }
    requires room { N ≤ length text.old }
    ensures signal { Reports (heard_signal {limit = N} heard.entry) result text.new }
    ensures within { result.len ≤ length text.new }
    ensures room { length text.new ≡ length text.old }
{
    let mut report = Report {
        kind: 0,
        number: 0,
        last: false,
        fault: 0,
        place: 0,
        len: 0,
    };
    match heard {
        None => {}
        Some(Heard::Enq) => report.kind = 1,
        Some(Heard::Eot) => report.kind = 2,
        Some(Heard::Good(frame)) => {
            report.kind = 3;
            report.number = frame.number();
            report.last = frame.is_last();
            let bytes = frame.text();
            report.len = bytes.len();
            text[..bytes.len()].copy_from_slice(bytes);
        }
        Some(Heard::Bad(fault)) => {
            report.kind = 4;
            report.fault = fault_code(fault);
            report.place = fault_place(fault);
        }
    }
    report
}
