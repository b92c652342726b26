//! The source of bytes that are in memory.

ghost use Rattle.std.specs.Prelude.{◌≡◌, ◌+◌, ◌<◌, ◌≤◌, ◌↔◌, IfOk, IsTrue, MatchResult, Ok, Some, false, is_err};
ghost use Rattle.std.specs.Prelude.{length, min, true};
ghost use Rattle.std.specs.Io.KnownBytes.{ReadConsumes};

use crate::port::{Failed, Source};

/// A source over a slice, which gives as many bytes at each read as there is room for. It never fails.
#[derive(Drop)]
pub struct InMemory<'a> {
    rest: &'a [u8],
    made: u32,
    ended: bool,
}

impl<'a> InMemory<'a> {
    /// A source that was never read, over `bytes`.
    pub fn new(bytes: &'a [u8]) -> Self
        ensures left { ⟦<InMemory<'a> as Source>⟧.left result ≡ Some bytes.now }
        ensures made { ⟦<InMemory<'a> as Source>⟧.made result ≡ 0 }
        ensures failed { ⟦<InMemory<'a> as Source>⟧.failed result ≡ false }
        ensures ended { ⟦<InMemory<'a> as Source>⟧.ended result ≡ false }
        ensures waits { ⟦<InMemory<'a> as Source>⟧.may_wait result ≡ true }
    {
        InMemory {
            rest: bytes,
            made: 0,
            ended: false,
        }
    }
}

impl Source for InMemory<'_> {
    ghost left = { λ s. Some s.rest.now };

    ghost made = { λ s. s.made };

    ghost failed = { λ s. false };

    ghost ended = { λ s. s.ended };

    ghost may_wait = { λ s. true };

    fn read(&mut self, buffer: &mut [u8]) -> Result<usize, Failed>
        requires room { 0 < length buffer.old }
        requires countable { self.old.made < 4294967295 }
        ensures bound { IfOk result (λ n. n ≤ length buffer.new) }
        ensures bytes { ReadConsumes (Some self.old.rest.now) (Some self.new.rest.now) result buffer.new }
        ensures made { self.new.made ≡ self.old.made + 1 }
        ensures failed { false ≡ is_err result }
        ensures ended { IsTrue self.new.ended ↔ (result ≡ Ok 0) }
        ensures ready { true ≡ false → MatchResult result (λ n. 0 < n) (λ _. ⊥) }

        // It gives all that there is room for.
        ensures answer { result ≡ Ok (min (length self.old.rest.now) (length buffer.old)) }
    {
        self.made += 1;
        let count = self.rest.len().min(buffer.len());
        let (given, rest) = self.rest.split_at(count);
        buffer[..count].copy_from_slice(given);
        self.rest = rest;
        self.ended = count == 0;
        Ok(count)
    }

    fn made(&self) -> u32 {
        self.made
    }

    fn failed(&self) -> bool {
        false
    }

    fn ended(&self) -> bool {
        self.ended
    }

    // It never does; but a run over it is to be as one over a line.
    fn may_wait(&self) -> bool {
        true
    }
}
