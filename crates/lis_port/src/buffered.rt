//! The sink over a buffered writer.

ghost use Rattle.std.specs.Prelude.{◌≡◌, false};
ghost use Rattle.std.specs.Io.Buffered.{writer_contents, writer_inner};

use crate::port::{Failed, Sink};
use crate::writing::Writing;
use std::io::{BufWriter, Write};

/// A sink over a buffered writer, which it can flush. An error of the writer and a write that takes
/// nothing are `Failed` at once; an interrupted write the buffer makes again, but over a `Once`.
#[derive(Drop)]
pub struct Buffered<W: Write + Drop> {
    writing: Writing<BufWriter<W>>,
}

impl<W: Write + Drop> Buffered<W> {
    /// A sink that has not failed, after what `writer` holds; what is in its buffer is not sent on.
    pub fn new(writer: BufWriter<W>) -> Self
        ensures taken { ⟦<Buffered<W> as Sink>⟧.taken result ≡ writer_contents W.contents writer }
        ensures sent { ⟦<Buffered<W> as Sink>⟧.sent result ≡ W.contents (writer_inner writer) }
        ensures failed { ⟦<Buffered<W> as Sink>⟧.failed result ≡ false }
    {
        Buffered {
            writing: Writing {
                writer,
                failed: false,
            },
        }
    }

    /// The writer, with what the sink has taken.
    pub fn into_inner(self) -> BufWriter<W>
        ensures taken { writer_contents W.contents result ≡ ⟦<Buffered<W> as Sink>⟧.taken self }
        ensures sent { W.contents (writer_inner result) ≡ ⟦<Buffered<W> as Sink>⟧.sent self }
    {
        self.writing.writer
    }
}

impl<W: Write + Drop> Sink for Buffered<W> {
    ghost taken = { λ s. writer_contents W.contents s.writing.writer };

    ghost sent = { λ s. W.contents (writer_inner s.writing.writer) };

    ghost failed = { λ s. s.writing.failed };

    fn write(&mut self, bytes: &[u8]) -> Result<usize, Failed> {
        self.writing.write(bytes)
    }

    // What `Writing` promises of a flush is less: it doesn't know what its writer holds back.
    fn flush(&mut self) -> Result<(), Failed> {
        let result = self.writing.writer.flush().map_err(|_| Failed);
        self.writing.failed = result.is_err();
        result
    }

    fn failed(&self) -> bool {
        self.writing.failed()
    }
}
