//! The reader and writer that fails once. With it a test can see that nothing is tried again.

ghost use Rattle.std.specs.Prelude.{◌≡◌, ◌+◌, ◌==◌, IfErr, MatchResult, is_err, min};
ghost use Rattle.std.specs.Io.{ReadsAtMost, WritesAtMost};
ghost use Rattle.std.specs.Io.KnownBytes.{Keeps, ReadConsumes, WriteAppends};
ghost use Rattle.std.specs.IoError.{error_kind};

use std::io::{self, ErrorKind, Read, Write};

/// A reader and writer over another one that fails at one call, before that reaches the other, and
/// otherwise hands each call on. It counts its calls, so that a call that was made again is seen.
#[derive(Drop)]
pub struct Faltering<T> {
    inner: T,
    /// How many calls are answered before the one that fails.
    before: u32,
    kind: ErrorKind,
    calls: u32,
}

impl<T> Faltering<T> {
    /// A reader or writer over `inner` that wasn't called yet. It answers `before` calls, fails at the next one with an
    /// error of this kind, and answers all that follow.
    pub fn new(inner: T, before: u32, kind: ErrorKind) -> Self
        ensures { result ≡ record { inner = inner; before = before; kind = kind; calls = 0 } }
    {
        Faltering {
            inner,
            before,
            kind,
            calls: 0,
        }
    }

    /// The calls so far, those that failed too. The count stays at 4,294,967,295.
    pub fn calls(&self) -> u32
        ensures { result ≡ self.now.calls }
    {
        self.calls
    }

    /// Counts a call, and fails where it is the one that is to fail.
    fn turn(&mut self) -> io::Result<()>
        ensures counted { self.new ≡ record self.old { calls = min (self.old.calls + 1) 4294967295 } }
        ensures fails { IfErr result (λ e. error_kind e ≡ self.old.kind) }
        ensures once { is_err result ≡ (self.old.calls == self.old.before) }
    {
        let fails = self.calls == self.before;
        self.calls = self.calls.saturating_add(1);
        if fails {
            return Err(self.kind.into());
        }
        Ok(())
    }
}

impl<T: Read> Read for Faltering<T> {
    ghost remaining = { λ f. T.remaining f.inner };

    fn read(&mut self, buffer: &mut [u8]) -> io::Result<usize>
        ensures bound { ReadsAtMost result buffer.new }
        ensures bytes { ReadConsumes (T.remaining self.old.inner) (T.remaining self.new.inner) result buffer.new }
        ensures counted { self.new.calls ≡ min (self.old.calls + 1) 4294967295 }
        ensures fails { self.old.calls ≡ self.old.before
            → MatchResult result (λ _. ⊥) (λ e. error_kind e ≡ self.old.kind) }
    {
        self.turn()?;
        self.inner.read(buffer)
    }
}

impl<T: Write> Write for Faltering<T> {
    ghost contents = { λ f. T.contents f.inner };

    fn write(&mut self, bytes: &[u8]) -> io::Result<usize>
        ensures bound { WritesAtMost result bytes.now }
        ensures bytes { WriteAppends (T.contents self.old.inner) (T.contents self.new.inner) result bytes.now }
        ensures counted { self.new.calls ≡ min (self.old.calls + 1) 4294967295 }
        ensures fails { self.old.calls ≡ self.old.before
            → MatchResult result (λ _. ⊥) (λ e. error_kind e ≡ self.old.kind) }
    {
        self.turn()?;
        self.inner.write(bytes)
    }

    fn flush(&mut self) -> io::Result<()>
        ensures bytes { Keeps (T.contents self.old.inner) (T.contents self.new.inner) }
        ensures counted { self.new.calls ≡ min (self.old.calls + 1) 4294967295 }
        ensures fails { self.old.calls ≡ self.old.before
            → MatchResult result (λ _. ⊥) (λ e. error_kind e ≡ self.old.kind) }
    {
        self.turn()?;
        self.inner.flush()
    }
}
