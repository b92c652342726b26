//! The sink over any writer.

ghost use Rattle.std.specs.Prelude.{◌≡◌, true, false};

use crate::port::{Failed, Sink};
use std::io::Write;

/// A sink over a writer, which hands each write on at once. An error of the writer, of whatever
/// kind, and a write that takes nothing are `Failed` at once.
#[derive(Drop)]
pub struct Writing<W> {
    pub(crate) writer: W,
    pub(crate) failed: bool,
}

impl<W: Write> Writing<W> {
    /// A sink that has not failed, after what `writer` holds.
    pub fn new(writer: W) -> Self
        ensures taken { ⟦<Writing<W> as Sink>⟧.taken result ≡ W.contents writer }
        ensures sent { ⟦<Writing<W> as Sink>⟧.sent result ≡ W.contents writer }
        ensures failed { ⟦<Writing<W> as Sink>⟧.failed result ≡ false }
    {
        Writing {
            writer,
            failed: false,
        }
    }

    /// The writer, with what the sink has taken.
    pub fn into_inner(self) -> W
        ensures { W.contents result ≡ ⟦<Writing<W> as Sink>⟧.taken self }
    {
        self.writer
    }
}

impl<W: Write> Sink for Writing<W> {
    ghost taken = { λ s. W.contents s.writer };

    ghost sent = { λ s. W.contents s.writer };

    ghost failed = { λ s. s.failed };

    fn write(&mut self, bytes: &[u8]) -> Result<usize, Failed> {
        match self.writer.write(bytes) {
            Ok(count) if count > 0 => Ok(count),
            _ => {
                self.failed = true;
                Err(Failed)
            }
        }
    }

    fn flush(&mut self) -> Result<(), Failed> {
        let result = self.writer.flush().map_err(|_| Failed);
        self.failed = result.is_err();
        result
    }

    fn failed(&self) -> bool {
        self.failed
    }
}
