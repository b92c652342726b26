//! The writer that no buffer asks twice.

ghost use Rattle.std.specs.Prelude.{◌≡◌, ◌≢◌, ◌<◌, IfErr, IfOk, length};
ghost use Rattle.std.specs.Io.{WritesAtMost};
ghost use Rattle.std.specs.Io.KnownBytes.{Keeps, WriteAppends};
ghost use Rattle.std.specs.IoError.{error_kind};

use std::io::{self, ErrorKind, Write};

/// A writer over another one. An interrupted write or flush is reported as any other error, so that a
/// buffer over this writer doesn't make it again; a write that takes nothing is reported as an error.
#[derive(Drop)]
pub struct Once<W: Write + Drop> {
    writer: W,
}

impl<W: Write + Drop> Once<W> {
    /// A writer over `writer`, with what that holds.
    pub fn new(writer: W) -> Self
        ensures { ⟦<Once<W> as Write>⟧.contents result ≡ W.contents writer }
    {
        Once { writer }
    }
}

impl<W: Write + Drop> Write for Once<W> {
    ghost contents = { λ w. W.contents w.writer };

    fn write(&mut self, bytes: &[u8]) -> io::Result<usize>
        ensures bound { WritesAtMost result bytes.now }
        ensures bytes { WriteAppends (W.contents self.old.writer) (W.contents self.new.writer) result bytes.now }
        ensures some { 0 < length bytes.now → IfOk result (λ count. 0 < count) }
        ensures once { IfErr result (λ e. error_kind e ≢ ErrorKind.Interrupted) }
    {
        match self.writer.write(bytes) {
            Ok(0) if !bytes.is_empty() => Err(ErrorKind::WriteZero.into()),
            Err(error) if error.kind() == ErrorKind::Interrupted => Err(ErrorKind::Other.into()),
            written => written,
        }
    }

    fn flush(&mut self) -> io::Result<()>
        ensures bytes { Keeps (W.contents self.old.writer) (W.contents self.new.writer) }
        ensures once { IfErr result (λ e. error_kind e ≢ ErrorKind.Interrupted) }
    {
        match self.writer.flush() {
            Err(error) if error.kind() == ErrorKind::Interrupted => Err(ErrorKind::Other.into()),
            flushed => flushed,
        }
    }
}
