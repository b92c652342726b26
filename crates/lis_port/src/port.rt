//! The two ports: a source of bytes and a sink for bytes.

ghost use Rattle.std.specs.Prelude.{◌≡◌, ℕ, ◌+◌, ◌<◌, ◌≤◌, ◌↔◌, Bool, List, Option, IfOk, MatchResult, OnOk, true};
ghost use Rattle.std.specs.Prelude.{false, is_err, length, take, IfErr, IsTrue};
ghost use Rattle.std.specs.Io.KnownBytes.{Appends, Keeps, ReadConsumes, WriteAppends};

/// A read or a write that failed. Nothing is tried again: a port that failed may not be called.
#[derive(Debug, Clone, Copy, PartialEq, Eq)]
pub struct Failed;

/// Gives bytes in order.
pub trait Source {
    // The bytes that reads will give from here on, where they are known.
    ghost left: { Self → Option (List ℕ) };

    // The calls of `read` so far.
    ghost made: { Self → ℕ };

    // Whether the last call of `read` failed, and whether it reported the end; both false before the first.
    ghost failed: { Self → Bool };

    ghost ended: { Self → Bool };

    // Whether the next call of `read` may wait for bytes that aren't there yet.
    ghost may_wait: { Self → Bool };

    /// Fills the front of `buffer` and answers how many bytes it gave; 0 is the end.
    /// Where it failed no byte is lost, and it is read no more.
    fn read(&mut self, buffer: &mut [u8]) -> Result<usize, Failed>
        requires unfailed { failed self.old ≡ false }
        requires room { 0 < length buffer.old }
        requires countable { made self.old < 4294967295 }
        ensures bound { IfOk result (λ n. n ≤ length buffer.new) }
        ensures bytes { ReadConsumes (left self.old) (left self.new) result buffer.new }
        ensures made { made self.new ≡ made self.old + 1 }
        ensures failed { failed self.new ≡ is_err result }
        ensures ended { IsTrue (ended self.new) ↔ (result ≡ Ok 0) }

        // A read that doesn't wait gives bytes.
        ensures ready { may_wait self.old ≡ false → MatchResult result (λ n. 0 < n) (λ _. ⊥) };

    /// The calls of `read` so far.
    fn made(&self) -> u32
        ensures { result ≡ made self.now };

    /// Whether the last call of `read` failed.
    fn failed(&self) -> bool
        ensures { result ≡ failed self.now };

    /// Whether the last call of `read` reported the end.
    fn ended(&self) -> bool
        ensures { result ≡ ended self.now };

    /// Whether the next call of `read` may wait for bytes that aren't there yet. Where it may not, that call
    /// gives at least one byte.
    fn may_wait(&self) -> bool
        ensures { result ≡ may_wait self.now };
}

/// Takes bytes in order.
pub trait Sink {
    // The bytes that it has taken, where they are known.
    ghost taken: { Self → Option (List ℕ) };

    // Those of them that it has sent on, and does not hold back.
    ghost sent: { Self → Option (List ℕ) };

    // Whether the last call of `write` or `flush` failed; false before the first.
    ghost failed: { Self → Bool };

    /// Takes bytes from the front of `bytes` and answers how many, at least one.
    /// Where it failed it took none, and it is asked no more.
    fn write(&mut self, bytes: &[u8]) -> Result<usize, Failed>
        requires unfailed { failed self.old ≡ false }
        requires some { 0 < length bytes.now }
        ensures some { IfOk result (λ n. 0 < n) }
        ensures bound { IfOk result (λ n. n ≤ length bytes.now) }
        ensures bytes { WriteAppends (taken self.old) (taken self.new) result bytes.now }
        ensures failed { failed self.new ≡ is_err result };

    /// Sends on what it holds back, if it holds any. What it took stays taken, also where it failed.
    fn flush(&mut self) -> Result<(), Failed>
        requires unfailed { failed self.old ≡ false }
        ensures taken { Keeps (taken self.old) (taken self.new) }
        ensures sent { OnOk result (sent self.new ≡ taken self.new) }
        ensures failed { failed self.new ≡ is_err result };

    /// Whether the last call of `write` or `flush` failed.
    fn failed(&self) -> bool
        ensures { result ≡ failed self.now };
}

/// Reads from a source that has not failed, in a run that writes to a sink: where the read may wait, the sink holds
/// nothing back.
pub fn read_sent<R: Source, W: Sink>(
    source: &mut R,
    _sink: &W,
    buffer: &mut [u8],
) -> Result<usize, Failed>
    requires unfailed { R.failed source.old ≡ false }
    requires room { 0 < length buffer.old }
    requires countable { R.made source.old < 4294967295 }
    requires sent { R.may_wait source.old ≡ true → W.sent _sink.now ≡ W.taken _sink.now }
    ensures bound { IfOk result (λ n. n ≤ length buffer.new) }
    ensures bytes { ReadConsumes (R.left source.old) (R.left source.new) result buffer.new }
    ensures made { R.made source.new ≡ R.made source.old + 1 }
    ensures failed { R.failed source.new ≡ is_err result }
    ensures ended { IsTrue (R.ended source.new) ↔ (result ≡ Ok 0) }
    ensures ready { R.may_wait source.old ≡ false → MatchResult result (λ n. 0 < n) (λ _. ⊥) }
{
    source.read(buffer)
}

/// Writes all of the bytes to a sink that has not failed; where it fails, how many it took before. Nothing is tried
/// again.
pub fn write_all<W: Sink>(sink: &mut W, bytes: &[u8]) -> Result<(), usize>
    requires { W.failed sink.old ≡ false }
    ensures ok { OnOk result (Appends (W.taken sink.old) (W.taken sink.new) bytes.now) }
    ensures err { IfErr result (λ count. (count < length bytes.now)
        × Appends (W.taken sink.old) (W.taken sink.new) (take count bytes.now)) }
    ensures failed { W.failed sink.new ≡ is_err result }
{
    let mut rest = bytes;
    while !rest.is_empty() {
        match sink.write(rest) {
            Ok(count) => {
                let (_, others) = rest.split_at(count);
                rest = others;
            }
            Err(_failed) => return Err(bytes.len() - rest.len()),
        }
    }
    Ok(())
}
