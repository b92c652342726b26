//! The source over any reader.

ghost use Rattle.std.specs.Prelude.{◌≡◌, true, false};

use crate::port::{Failed, Source};
use std::io::Read;

/// A source over a reader. An error of the reader, of whatever kind, is `Failed` at once.
#[derive(Drop)]
pub struct Reading<R> {
    pub(crate) reader: R,
    pub(crate) made: u32,
    pub(crate) failed: bool,
    pub(crate) ended: bool,
}

impl<R: Read> Reading<R> {
    /// A source that was never read, over what `reader` has left.
    pub fn new(reader: R) -> Self
        ensures left { ⟦<Reading<R> as Source>⟧.left result ≡ R.remaining reader }
        ensures made { ⟦<Reading<R> as Source>⟧.made result ≡ 0 }
        ensures failed { ⟦<Reading<R> as Source>⟧.failed result ≡ false }
        ensures ended { ⟦<Reading<R> as Source>⟧.ended result ≡ false }
        ensures waits { ⟦<Reading<R> as Source>⟧.may_wait result ≡ true }
    {
        Reading {
            reader,
            made: 0,
            failed: false,
            ended: false,
        }
    }

    /// The reader, with what the source has left.
    pub fn into_inner(self) -> R
        ensures { R.remaining result ≡ ⟦<Reading<R> as Source>⟧.left self }
    {
        self.reader
    }
}

impl<R: Read> Source for Reading<R> {
    ghost left = { λ s. R.remaining s.reader };

    ghost made = { λ s. s.made };

    ghost failed = { λ s. s.failed };

    ghost ended = { λ s. s.ended };

    ghost may_wait = { λ s. true };

    fn read(&mut self, buffer: &mut [u8]) -> Result<usize, Failed> {
        self.made += 1;
        let Ok(count) = self.reader.read(buffer) else {
            self.failed = true;
            self.ended = false;
            return Err(Failed);
        };
        self.ended = count == 0;
        Ok(count)
    }

    fn made(&self) -> u32 {
        self.made
    }

    fn failed(&self) -> bool {
        self.failed
    }

    fn ended(&self) -> bool {
        self.ended
    }

    // A reader can't know, so that it may always wait.
    fn may_wait(&self) -> bool {
        true
    }
}
