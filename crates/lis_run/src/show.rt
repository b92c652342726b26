//! The command `show`: a line for each signal of a stream of link bytes.

ghost use Rattle.std.specs.Prelude.{◌≡◌, ◌+◌, ◌≤◌, ◌++◌, ◌∷◌, [], ℕ, List, decimal, false, length, IfOk, OnOk};
ghost use Rattle.lis_frame.specs.Limit.{IsLimit};
ghost use Rattle.lis_frame.specs.Scanner.{StandsFor};
ghost use Rattle.lis_frame.specs.Stream.{signal_after, signals_after, stream_with, with_signal};
ghost use Rattle.lis_engine.specs.declared.output_buffer.TheConstants.{OUTPUT_ROOM};
ghost use Rattle.lis_engine.specs.Output.{IsLeft, IsPut, IsWorking};
ghost use Rattle.lis_engine.specs.Runs.{AreFresh, HasRun, Shown, Stops, ports};
ghost use Rattle.lis_run.specs.Show.{bad_line, digits_part, frame_line, frame_start, Shows, printed_fault, show};
ghost use Rattle.lis_run.specs.Show.{signal_lines};
ghost use Rattle.lis_run.specs.inside.Show.{heard_line};
ghost use Rattle.lis_engine.specs.Outcome.{going};
ghost use Rattle.lis_engine.specs.Parts.{text_if_any};
ghost use Rattle.std.proofs.Common.{ap};

use lis_engine::{Machine, Output, SourceFor, ToolFault};
use lis_frame::{BorrowedFrame, FrameFault, Heard, ScannerOf};
use lis_port::Sink;
use lis_report::{Ended, Refused, Report, Stop};

/// The room that the beginning of a frame's line has: as far as the length of its text, and a space.
const FRAME_ROOM: usize = 100;

/// Reads link bytes to their end and writes a line for each signal; frames have at most `N` bytes
/// of text. At most `reads` calls of read are made. The sink is flushed before each that may wait for bytes, so
/// that no line waits with it, and where the run ends. The faults are those of the source and the sink and
/// too many reads; what went out by then is the text of the bytes read, and where the sink failed as
/// much of it as is reported.
///
/// The source was never read, and neither it nor the sink has failed.
pub fn run_show_of<const N: usize, R: SourceFor<W>, W: Sink>(
    source: &mut R,
    sink: &mut W,
    reads: u32,
) -> Ended
    requires limit { IsLimit N }
    requires fresh { AreFresh (ports R.left R.made R.ended R.failed W.taken W.sent W.failed source.old sink.old) }
    ensures ran { HasRun false (Shows N)
        (ports R.left R.made R.ended R.failed W.taken W.sent W.failed source.old sink.old)
        (ports R.left R.made R.ended R.failed W.taken W.sent W.failed source.new sink.new) result }
    ensures stops { Stops false false
        (ports R.left R.made R.ended R.failed W.taken W.sent W.failed source.old sink.old)
        (ports R.left R.made R.ended R.failed W.taken W.sent W.failed source.new sink.new) reads result }
    ensures shown { Shown (show N)
        (ports R.left R.made R.ended R.failed W.taken W.sent W.failed source.old sink.old)
        (ports R.left R.made R.ended R.failed W.taken W.sent W.failed source.new sink.new) result }
    ensures status { IfOk result (λ report. report.status ≡ 0) }
{
    source.run(sink, Show::<N>::new(), reads)
}

/// The same with the usual limit.
///
/// The source was never read, and neither it nor the sink has failed.
pub fn run_show<R: SourceFor<W>, W: Sink>(source: &mut R, sink: &mut W, reads: u32) -> Ended
    requires { AreFresh (ports R.left R.made R.ended R.failed W.taken W.sent W.failed source.old sink.old) }
    ensures ran { HasRun false (Shows 240)
        (ports R.left R.made R.ended R.failed W.taken W.sent W.failed source.old sink.old)
        (ports R.left R.made R.ended R.failed W.taken W.sent W.failed source.new sink.new) result }
    ensures stops { Stops false false
        (ports R.left R.made R.ended R.failed W.taken W.sent W.failed source.old sink.old)
        (ports R.left R.made R.ended R.failed W.taken W.sent W.failed source.new sink.new) reads result }
    ensures shown { Shown (show 240)
        (ports R.left R.made R.ended R.failed W.taken W.sent W.failed source.old sink.old)
        (ports R.left R.made R.ended R.failed W.taken W.sent W.failed source.new sink.new) result }
    ensures status { IfOk result (λ report. report.status ≡ 0) }
{
    run_show_of::<240, R, W>(source, sink, reads)
}

/// The scanner of the bytes.
#[derive(Drop)]
struct Show<const N: usize> {
    scanner: ScannerOf<N>,
}

impl<const N: usize> Show<N> {
    /// A machine that has read nothing.
    fn new() -> Self
        requires { IsLimit N }
        ensures { StandsFor N result.scanner [] }
    {
        Show {
            scanner: ScannerOf::new(),
        }
    }
}

impl<const N: usize> Machine<Refused> for Show<N> {
    ghost means = { Shows N };

    ghost represents = { λ m bytes text. (text ≡ show N bytes) × StandsFor N m.scanner (stream_with [] bytes) };

    ghost takes_memory = { false };

    ghost closes = { false };

    ghost refuses = { false };

    ghost goes_on = { λ m bytes text represented. ap going represented.0 };

    fn feed<W: Sink>(&mut self, bytes: &[u8], out: &mut Output<'_, W>) -> Result<(), Stop> {
        match show_bytes(&mut self.scanner, bytes, out) {
            Ok(()) => Ok(()),
            Err(fault) => Err(Stop::Fault(fault)),
        }
    }

    fn end<W: Sink>(self, _out: &mut Output<'_, W>) -> Ended {
        Ok(Report::of(false))
    }

    fn closes(&self) -> bool {
        false
    }
}

/// Puts the lines of the signals that further bytes give.
fn show_bytes<const N: usize, W: Sink>(
    scanner: &mut ScannerOf<N>,
    bytes: &[u8],
    out: &mut Output<'_, W>,
) -> Result<(), ToolFault>
    requires { IsWorking out.old }
    ensures put { (past : List ℕ) → StandsFor N scanner.old past →
        IsPut out.old out.new result (signal_lines (signals_after N past bytes.now)) }
    ensures represents { OnOk result ((past : List ℕ) → StandsFor N scanner.old past →
        StandsFor N scanner.new (stream_with past bytes.now)) }
    ensures left { IsLeft result out.new }
    ensures same { out.new.sink ≡ out.old.sink }
{
    let mut rest = bytes;
    while let Some((byte, left)) = rest.split_first() {
        let (taken, frame) = scanner.scan(rest);
        if taken == 0 {
            show_byte(scanner, *byte, out)?;
            rest = left;
        } else {
            put_frame_if_any(frame, out)?;
            let (_, following) = rest.split_at(taken);
            rest = following;
        }
    }
    Ok(())
}

/// Puts the line of a frame, where there is one.
// By value: reported as an option that is borrowed, each would be put into memory to be looked at, also where there
// is none.
#[inline(always)]
fn put_frame_if_any<W: Sink>(
    frame: Option<BorrowedFrame<'_>>,
    out: &mut Output<'_, W>,
) -> Result<(), ToolFault>
    requires { IsWorking out.old }
    ensures { IsPut out.old out.new result (text_if_any frame_line frame.entry) }
{
    match frame {
        None => Ok(()),
        Some(frame) => put_frame(&frame, out),
    }
}

/// Puts the line of the signal that one more byte gives, if it gives one.
fn show_byte<const N: usize, W: Sink>(
    scanner: &mut ScannerOf<N>,
    byte: u8,
    out: &mut Output<'_, W>,
) -> Result<(), ToolFault>
    requires { IsWorking out.old }
    ensures put { (past : List ℕ) → StandsFor N scanner.old past →
        IsPut out.old out.new result (signal_lines (with_signal (signal_after N past byte) [])) }
    ensures represents { (past : List ℕ) → StandsFor N scanner.old past → StandsFor N scanner.new (byte ∷ past) }
    ensures left { IsLeft result out.new }
    ensures same { out.new.sink ≡ out.old.sink }
{
    let result = match scanner.peek(byte) {
        None => Ok(()),
        Some(heard) => put_heard(&heard, out),
    };
    scanner.take(byte);
    result
}

/// Puts the line of a signal.
fn put_heard<W: Sink>(heard: &Heard<'_>, out: &mut Output<'_, W>) -> Result<(), ToolFault>
    requires { IsWorking out.old }
    ensures { IsPut out.old out.new result (heard_line heard.now) }
{
    match heard {
        Heard::Enq => out.put(b"ENQ\n"),
        Heard::Eot => out.put(b"EOT\n"),
        Heard::Good(frame) => put_frame(frame, out),
        Heard::Bad(fault) => put_bad(*fault, out),
    }
}

/// Puts the line of a frame.
fn put_frame<W: Sink>(frame: &BorrowedFrame<'_>, out: &mut Output<'_, W>) -> Result<(), ToolFault>
    requires { IsWorking out.old }
    ensures { IsPut out.old out.new result (frame_line frame.now) }
{
    put_frame_start(frame, out)?;
    put_digits_part(frame.text(), out)?;
    out.put(b"\n")
}

/// Puts the line of a frame as far as the length of its text.
#[inline(always)]
fn put_frame_start<W: Sink>(
    frame: &BorrowedFrame<'_>,
    out: &mut Output<'_, W>,
) -> Result<(), ToolFault>
    requires { IsWorking out.old }
    ensures { IsPut out.old out.new result
        (frame_start frame.now.number frame.now.last ++ decimal (length frame.now.text)) }
{
    out.make_room(FRAME_ROOM)?;
    out.append(b"frame ");
    out.append_number(frame.number() as u64);
    if frame.is_last() {
        out.append(b" end ");
    } else {
        out.append(b" more ");
    }
    out.append_number(frame.text().len() as u64);
    Ok(())
}

/// Puts a space and the digits of bytes, where there are any.
#[inline(always)]
fn put_digits_part<W: Sink>(bytes: &[u8], out: &mut Output<'_, W>) -> Result<(), ToolFault>
    requires { IsWorking out.old }
    ensures { IsPut out.old out.new result (digits_part bytes.now) }
{
    if bytes.is_empty() {
        return Ok(());
    }
    out.put(b" ")?;
    out.put_digits(bytes)
}

/// Puts the line of a bad frame.
fn put_bad<W: Sink>(fault: FrameFault, out: &mut Output<'_, W>) -> Result<(), ToolFault>
    requires { IsWorking out.old }
    ensures { IsPut out.old out.new result (bad_line fault) }
{
    out.make_room(FRAME_ROOM)?;
    out.append(b"bad ");
    append_fault(fault, out);
    out.append(b"\n");
    Ok(())
}

/// Puts the code of a fault, with the place of a byte that a text may not hold.
fn append_fault<W: Sink>(fault: FrameFault, out: &mut Output<'_, W>)
    requires { length out.old.waits + 50 ≤ OUTPUT_ROOM }
    ensures value { out.new ≡ record out.old { waits = out.old.waits ++ printed_fault fault } }
    ensures short { length out.new.waits ≤ length out.old.waits + 50 }
{
    match fault {
        FrameFault::TooLong => out.append(b"F1"),
        FrameFault::Shape => out.append(b"F2"),
        FrameFault::Number => out.append(b"F3"),
        FrameFault::Text(place) => {
            out.append(b"F4 ");
            out.append_number(place as u64);
        }
        FrameFault::Sum => out.append(b"F5"),
    }
}
