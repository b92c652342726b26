//! The form of all commands: a machine is fed with what a source gives, and writes to an output.

ghost use Rattle.std.specs.Prelude.{◌≡◌, ◌+◌, ◌^◌, ◌<◌, ◌≤◌, ◌++◌, ◌↔◌, ℕ, Bool, true, false, List, [], length, is_err};
ghost use Rattle.std.specs.Prelude.{IfErr, IfOk, IsTrue, MatchResult, Ok, OnOk};
ghost use Rattle.std.specs.Io.KnownBytes.{ReadConsumes};
ghost use Rattle.lis_engine.specs.Outcome.{Outcome, going};
ghost use Rattle.lis_engine.specs.Output.{IsLeft, IsWorking, WentOn};
ghost use Rattle.lis_engine.specs.Runs.{EachGave, IsFresh, Ran, StopsBy};
ghost use Rattle.lis_engine.specs.Steps.{Ends, IsLeftAt, Steps, ended_by};
ghost use Rattle.lis_engine.specs.inside.Output.{IsUnused, Unsent};
ghost use Rattle.lis_engine.specs.inside.Reads.{read_room};
ghost use Rattle.lis_engine.specs.inside.Steps.{IsEnded, IsHalted};

use crate::fault::ToolFault;
use crate::output::Output;
use crate::report::{Ended, Report};
use lis_port::{Failed, Sink, Source, read_sent};

/// The most bytes that are read at a time.
const ROOM: usize = 4096;

/// Why a command takes no more of its input.
#[derive(Clone, Copy)]
pub enum Stop<F> {
    /// It came to a fault.
    Fault(ToolFault),
    /// It rejected input, and reports that.
    Refused(Report<F>),
}

/// A command. It is fed with the bytes that are read, and writes what they give. `F` says why it rejects
/// input.
pub trait Machine<F>: Drop {
    // What bytes give, from the first on, where the end of the input was reported or wasn't.
    ghost means: { List ℕ → Bool → Outcome F → Type 0 };

    // It represents these bytes, for which this text was put.
    ghost represents: { Self → List ℕ → List ℕ → Type 0 };

    // Whether it may want memory.
    ghost takes_memory: { Bool };

    // Whether it may write at the end of the input.
    ghost closes: { Bool };

    // Whether it may reject input, and end the run there.
    ghost refuses: { Bool };

    /// Takes bytes that were read, and puts what they give. Where the sink fails, or memory runs out, that is a part of
    /// the text of all these bytes.
    fn feed<W: Sink>(&mut self, bytes: &[u8], out: &mut Output<'_, W>) -> Result<(), Stop<F>>
        requires { IsWorking out.old }
        ensures steps { (past text : List ℕ) → represents self.old past text → length past + length bytes.now < 2 ^ 44 →
            Steps refuses takes_memory (represents self.new (past ++ bytes.now)) (means (past ++ bytes.now) false)
            out.old out.new text result }
        ensures left { IsLeftAt result out.new }
        ensures same { out.new.sink ≡ out.old.sink };

    /// Takes the end of the input.
    fn end<W: Sink>(self, out: &mut Output<'_, W>) -> Ended<F>
        requires { IsWorking out.old }
        ensures ends { (past text : List ℕ) → represents self past text → length past < 2 ^ 44 →
            Ends takes_memory (means past true) out.old out.new text result }
        ensures left { IsLeft result out.new }
        ensures same { out.new.sink ≡ out.old.sink }
        ensures silent { closes ≡ false → (is_err result ≡ false) × (out.new ≡ out.old) };

    /// Whether it may write at the end of the input.
    fn closes(&self) -> bool
        ensures { result ≡ closes };

    // What it represents goes on.
    ghost goes_on: { (machine : Self) (past text : List ℕ) → represents machine past text →
        means past false (going text) };
}

// Each command has a frame of its own on the stack: that of the longest link frames has 200 KB, which others need not
// touch.
/// Feeds a machine with what a source gives, to its end, by at most `reads` calls of read, each with room for 4,096
/// bytes. All text goes out before each that may wait for bytes, so that no line waits with it, and where the run ends.
#[inline(never)]
pub fn run<F: Copy, M: Machine<F>, R: Source, W: Sink>(
    machine: M,
    source: &mut R,
    sink: &mut W,
    reads: u32,
) -> Ended<F>
    requires new { M.represents machine [] [] }
    requires fresh { IsFresh (R.made source.old) (R.ended source.old) (R.failed source.old) (W.failed sink.old) }
    ensures ran { Ran M.takes_memory M.means (R.left source.old) (R.left source.new) (W.taken sink.old)
        (W.taken sink.new) (R.ended source.new) result }
    ensures stops { StopsBy M.refuses M.closes result (R.left source.new) (R.ended source.new) (R.failed source.new)
        (R.made source.new) (W.taken sink.new) (W.sent sink.new) (W.failed sink.new) reads }
    ensures each_gave { EachGave (R.left source.old) (R.left source.new) (R.made source.new) }
{
    let mut out = Output::new(sink);
    let ended = run_to(machine, source, &mut out, reads);
    // proof: the caller learns what became of the sink when it is handed back.
    let _sink = out.into_sink();
    ended
}

/// The same, over an output for which nothing was put.
#[inline(always)]
#[tactic(auto, using(crate::proofs::RunLaws::gave))]
fn run_to<F: Copy, M: Machine<F>, R: Source, W: Sink>(
    machine: M,
    source: &mut R,
    out: &mut Output<'_, W>,
    reads: u32,
) -> Ended<F>
    requires new { M.represents machine [] [] }
    requires fresh { IsFresh (R.made source.old) (R.ended source.old) (R.failed source.old) out.old.failed }
    requires unused { IsUnused out.old }
    ensures same { out.new.sink ≡ out.old.sink }
    ensures ran { Ran M.takes_memory M.means (R.left source.old) (R.left source.new) out.old.taken out.new.taken
        (R.ended source.new) result }
    ensures stops { StopsBy M.refuses M.closes result (R.left source.new) (R.ended source.new) (R.failed source.new)
        (R.made source.new) out.new.taken out.new.sent out.new.failed reads }
    ensures each_gave { EachGave (R.left source.old) (R.left source.new) (R.made source.new) }
{
    let mut machine = machine;
    let mut buffer = [0; ROOM];
    for _turn in 0..reads {
        send_before_a_wait(source, out)?;
        let count = read_settled(source, out, &mut buffer)?;
        if count == 0 {
            return close(machine, out);
        }
        let (given, _) = buffer.split_at(count);
        match machine.feed(given, out) {
            Ok(()) => {}
            Err(stop) => return halted(out, end_of(stop)),
        }
    }
    out.send()?;
    Err(ToolFault::TooManyReads)
}

/// Sends on all that was put, where the next read of a source may wait for bytes.
#[inline(always)]
fn send_before_a_wait<R: Source, W: Sink>(
    source: &R,
    out: &mut Output<'_, W>,
) -> Result<(), ToolFault>
    requires { IsWorking out.old }
    ensures put { OnOk result (WentOn out.old out.new []) }
    ensures sent { OnOk result (R.may_wait source.now ≡ true → out.new.sent ≡ out.new.taken) }
    ensures empty { OnOk result (R.may_wait source.now ≡ true → out.new.waits ≡ []) }
    ensures err { IfErr result (λ fault. Unsent out.old out.new fault) }
{
    if source.may_wait() {
        return out.send();
    }
    Ok(())
}

/// Reads from a source that has not failed, with room for 4,096 bytes: where the read may wait, all that was put is
/// sent on.
#[inline(always)]
fn read_settled<R: Source, W: Sink>(
    source: &mut R,
    out: &Output<'_, W>,
    buffer: &mut [u8],
) -> Result<usize, ToolFault>
    requires unfailed { R.failed source.old ≡ false }
    requires room { length buffer.old ≡ read_room }
    requires countable { R.made source.old < 4294967295 }
    requires sent { R.may_wait source.old ≡ true → out.now.sent ≡ out.now.taken }
    requires empty { R.may_wait source.old ≡ true → out.now.waits ≡ [] }
    ensures bound { IfOk result (λ n. n ≤ length buffer.new) }
    ensures bytes { ReadConsumes (R.left source.old) (R.left source.new) result buffer.new }
    ensures made { R.made source.new ≡ R.made source.old + 1 }
    ensures failed { R.failed source.new ≡ is_err result }
    ensures ended { IsTrue (R.ended source.new) ↔ (result ≡ Ok 0) }
    ensures ready { R.may_wait source.old ≡ false → MatchResult result (λ n. 0 < n) (λ _. ⊥) }
    ensures fault { IfErr result (λ fault. fault ≡ ToolFault.Read) }
{
    match read_sent(source, out.sink(), buffer) {
        Ok(count) => Ok(count),
        Err(Failed) => Err(ToolFault::Read),
    }
}

/// Gives a machine the end of the input, at which all that was put is sent on.
fn close<F: Copy, M: Machine<F>, W: Sink>(machine: M, out: &mut Output<'_, W>) -> Ended<F>
    requires working { IsWorking out.old }
    requires empty { out.old.waits ≡ [] }
    requires sent { out.old.sent ≡ out.old.taken }
    ensures ended { (past text : List ℕ) → M.represents machine past text → length past < 2 ^ 44 →
        IsEnded M.takes_memory (M.means past true) out.old out.new text result }
    ensures same { out.new.sink ≡ out.old.sink }
    ensures silent { M.closes ≡ false → out.new.failed ≡ false }
{
    let closes = machine.closes();
    let ended = machine.end(out);
    if closes {
        return halted(out, ended);
    }
    ended
}

/// How a run ends whose command takes no more input.
fn end_of<F: Copy>(stop: Stop<F>) -> Ended<F>
    ensures { result ≡ ended_by stop }
{
    match stop {
        Stop::Fault(fault) => Err(fault),
        Stop::Refused(report) => Ok(report),
    }
}

/// What waits goes out where a run ends, unless its sink failed; and how it ended.
fn halted<F: Copy, W: Sink>(out: &mut Output<'_, W>, ended: Ended<F>) -> Ended<F>
    requires { IsLeft ended out.old }
    ensures halted { IsHalted ended out.old out.new result }
    ensures same { out.new.sink ≡ out.old.sink }
{
    if let Err(ToolFault::Write { written: _ }) = ended {
        return ended;
    }
    out.send()?;
    ended
}
