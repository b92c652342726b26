//! The source over memory, which gives its bytes in pieces. With it a contract's promise can be seen to
//! hold.

ghost use Rattle.std.specs.Prelude.{◌≡◌, ◌+◌, ◌≤◌, ◌<◌, ◌↔◌, true, false, IfOk, IsTrue, MatchResult, drop, is_err};
ghost use Rattle.std.specs.Prelude.{length, min, take};
ghost use Rattle.std.specs.Io.KnownBytes.{ReadConsumes};
ghost use Rattle.lis_port.specs.Testing.{cut_answer, cut_given, known_left, new_cut};

use crate::port::{Failed, Source};
use std::marker::Model;

/// What a cut source does after its bytes.
#[derive(Debug, Clone, Copy, PartialEq, Eq)]
pub enum Then {
    /// It reports the end.
    End,
    /// It fails.
    Fail,
    /// It gives this one byte at each read, without end.
    Again(u8),
}

/// A source over a slice, which gives at most `step` bytes at each read.
#[derive(Drop)]
pub struct Cut<'a> {
    rest: &'a [u8],
    step: usize,
    then: Then,
    made: u32,
    failed: bool,
    ended: bool,
}

impl<'a> Model for Cut<'a> {
    ghost use Rattle.std.specs.Prelude.{◌≤◌};
    ghost use Rattle.lis_port.specs.Testing.{CutState};

    ghost Value = { CutState };

    ghost view = { λ c. record {
      rest = c.rest.now;
      step = c.step;
      following = c.then;
      made = c.made;
      failed = c.failed;
      ended = c.ended;
    } };

    ghost invariant = { λ c. 1 ≤ c.step };
}

impl<'a> Cut<'a> {
    /// A source that was never read, over `bytes`, and after them what `then` says. `step`, the most bytes that a read
    /// gives, is at least 1.
    pub fn new(bytes: &'a [u8], step: usize, then: Then) -> Self
        requires { 1 ≤ step }
        ensures value { result ≡ new_cut bytes.now step then }
        ensures left { ⟦<Cut<'a> as Source>⟧.left result ≡ known_left then bytes.now }
        ensures made { ⟦<Cut<'a> as Source>⟧.made result ≡ 0 }
        ensures failed { ⟦<Cut<'a> as Source>⟧.failed result ≡ false }
        ensures ended { ⟦<Cut<'a> as Source>⟧.ended result ≡ false }
        ensures waits { ⟦<Cut<'a> as Source>⟧.may_wait result ≡ true }
    {
        Cut {
            rest: bytes,
            step,
            then,
            made: 0,
            failed: false,
            ended: false,
        }
    }
}

impl Source for Cut<'_> {
    ghost left = { λ s. known_left s.following s.rest };

    ghost made = { λ s. s.made };

    ghost failed = { λ s. s.failed };

    ghost ended = { λ s. s.ended };

    ghost may_wait = { λ s. true };

    #[tactic(auto, using(crate::proofs::CutLaws::first_is_set))]
    fn read(&mut self, buffer: &mut [u8]) -> Result<usize, Failed>
        requires unfailed { self.old.failed ≡ false }
        requires room { 0 < length buffer.old }
        requires countable { self.old.made < 4294967295 }
        ensures bound { IfOk result (λ n. n ≤ length buffer.new) }
        ensures bytes { ReadConsumes (known_left self.old.following self.old.rest)
            (known_left self.new.following self.new.rest) result buffer.new }
        ensures made { self.new.made ≡ self.old.made + 1 }
        ensures failed { self.new.failed ≡ is_err result }
        ensures ended { IsTrue self.new.ended ↔ (result ≡ Ok 0) }
        ensures ready { true ≡ false → MatchResult result (λ n. 0 < n) (λ _. ⊥) }

        // Which bytes a read gives is known, and what stays.
        ensures answer { result ≡ cut_answer self.old.following self.old.rest self.old.step (length buffer.old) }
        ensures given { IfOk result (λ n. take n buffer.new
            ≡ cut_given self.old.following self.old.rest self.old.step (length buffer.old)) }
        ensures rest { self.new.rest ≡ drop (min self.old.step (length buffer.old)) self.old.rest }
        ensures step { self.new.step ≡ self.old.step }
        ensures following { self.new.following ≡ self.old.following }
    {
        self.made += 1;
        self.ended = false;
        if self.rest.is_empty() {
            return match self.then {
                Then::End => {
                    self.ended = true;
                    Ok(0)
                }
                Then::Fail => {
                    self.failed = true;
                    Err(Failed)
                }
                Then::Again(byte) => {
                    buffer[0] = byte;
                    Ok(1)
                }
            };
        }
        let count = self.step.min(self.rest.len()).min(buffer.len());
        let (given, rest) = self.rest.split_at(count);
        buffer[..count].copy_from_slice(given);
        self.rest = rest;
        Ok(count)
    }

    fn made(&self) -> u32 {
        self.made
    }

    fn failed(&self) -> bool {
        self.failed
    }

    fn ended(&self) -> bool {
        self.ended
    }

    // It never does; but a run over it is to be as one over a line.
    fn may_wait(&self) -> bool {
        true
    }
}
