//! The sink in memory, which takes few bytes at a time and fails once it is full. With it a
//! contract's promise can be seen to hold.

ghost use Rattle.std.specs.Prelude.{◌≡◌, ◌≤◌, ◌<◌, [], false, Some, IfOk, MatchResult, is_err, length};
ghost use Rattle.std.specs.Io.KnownBytes.{WriteAppends};
ghost use Rattle.lis_port.specs.Testing.{slow_count};

use crate::port::{Failed, Sink};
use arrayvec::ArrayVec;
use std::marker::Model;

/// The most bytes that a slow sink takes in all.
pub const SLOW_ROOM: usize = 131_072;

/// A sink in memory, which takes at most `step` bytes at each write and `room` in all, and then fails.
#[derive(Drop)]
pub struct Slow {
    taken: ArrayVec<u8, SLOW_ROOM>,
    room: usize,
    step: usize,
    failed: bool,
}

impl Model for Slow {
    ghost use Rattle.std.specs.Prelude.{◌≤◌};
    ghost use Rattle.lis_port.specs.Testing.{SlowState};

    ghost Value = { SlowState };

    ghost view = { λ s. record { taken = s.taken.items; room = s.room; step = s.step; failed = s.failed } };

    ghost invariant = { λ s. (s.room ≤ 131072) × (1 ≤ s.step) };
}

impl Slow {
    /// A sink that has taken nothing and has not failed. `room`, the bytes that it takes in all, is at most 131,072,
    /// and `step`, the most that a write takes, at least 1.
    pub fn new(room: usize, step: usize) -> Self
        requires fits { room ≤ 131072 }
        requires moves { 1 ≤ step }
        ensures value { result ≡ record { taken = []; room = room; step = step; failed = false } }
        ensures taken { ⟦<Slow as Sink>⟧.taken result ≡ Some [] }
        ensures sent { ⟦<Slow as Sink>⟧.sent result ≡ Some [] }
        ensures failed { ⟦<Slow as Sink>⟧.failed result ≡ false }
    {
        Slow {
            taken: ArrayVec::new(),
            room,
            step,
            failed: false,
        }
    }

    /// The bytes that it took.
    pub fn took(&self) -> &[u8]
        ensures { ⟦<Slow as Sink>⟧.taken self.now ≡ Some result.now }
    {
        self.taken.as_slice()
    }
}

impl Sink for Slow {
    ghost taken = { λ s. Some s.taken };

    ghost sent = { λ s. Some s.taken };

    ghost failed = { λ s. s.failed };

    fn write(&mut self, bytes: &[u8]) -> Result<usize, Failed>
        requires unfailed { self.old.failed ≡ false }
        requires some { 0 < length bytes.now }
        ensures some { IfOk result (λ n. 0 < n) }
        ensures bound { IfOk result (λ n. n ≤ length bytes.now) }
        ensures bytes { WriteAppends (Some self.old.taken) (Some self.new.taken) result bytes.now }
        ensures failed { self.new.failed ≡ is_err result }

        // How many bytes a write takes is known, and what stays.
        ensures answer { MatchResult result (λ n. n ≡ slow_count self.old (length bytes.now))
            (λ _. slow_count self.old (length bytes.now) ≡ 0) }
        ensures room { self.new.room ≡ self.old.room }
        ensures step { self.new.step ≡ self.old.step }
    {
        let room = self.room.saturating_sub(self.taken.len());
        let count = self.step.min(room).min(bytes.len());
        let (front, _) = bytes.split_at(count);
        if front.is_empty() || self.taken.try_extend_from_slice(front).is_err() {
            self.failed = true;
            return Err(Failed);
        }
        Ok(count)
    }

    fn flush(&mut self) -> Result<(), Failed>
        requires unfailed { self.old.failed ≡ false }
        ensures value { self.new ≡ self.old }
        ensures result { result ≡ Ok (record {}) }
    {
        Ok(())
    }

    fn failed(&self) -> bool {
        self.failed
    }
}
