//! The source over a buffered reader.

ghost use Rattle.std.specs.Prelude.{◌≡◌, ◌≢◌, ◌<◌, ◌≤◌, ◌==◌, [], Ok, false, length, min};
ghost use Rattle.std.specs.Io.Buffered.{reader_buffer, reader_remaining};
ghost use Rattle.std.specs.Io.KnownBytes.{ReadConsumes};
ghost use Rattle.lis_port.specs.declared.port.Failed.{Failed};

use crate::port::{Failed, Source};
use crate::reading::Reading;
use std::io::{BufRead, BufReader, Read};

/// A source over a buffered reader: it knows whether bytes are there, and a read that finds some asks for no
/// more. An error of the reader, of whatever kind, is `Failed` at once.
#[derive(Drop)]
pub struct ReadAhead<R> {
    reading: Reading<BufReader<R>>,
}

impl<R: Read> ReadAhead<R> {
    /// A source that was never read, over what `reader` has left.
    pub fn new(reader: BufReader<R>) -> Self
        ensures left { ⟦<ReadAhead<R> as Source>⟧.left result ≡ reader_remaining R.remaining reader }
        ensures made { ⟦<ReadAhead<R> as Source>⟧.made result ≡ 0 }
        ensures failed { ⟦<ReadAhead<R> as Source>⟧.failed result ≡ false }
        ensures ended { ⟦<ReadAhead<R> as Source>⟧.ended result ≡ false }
        ensures may_wait { ⟦<ReadAhead<R> as Source>⟧.may_wait result ≡ (length (reader_buffer reader) == 0) }
    {
        ReadAhead {
            reading: Reading {
                reader,
                made: 0,
                failed: false,
                ended: false,
            },
        }
    }

    /// The reader, with what the source has left.
    pub fn into_inner(self) -> BufReader<R>
        ensures { reader_remaining R.remaining result ≡ ⟦<ReadAhead<R> as Source>⟧.left self }
    {
        self.reading.into_inner()
    }
}

/// Gives bytes that are there, as many as there is room for.
fn give<R: Read>(reader: &mut BufReader<R>, buffer: &mut [u8]) -> usize
    requires there { reader_buffer reader.old ≢ [] }
    requires room { 0 < length buffer.old }
    ensures some { 0 < result }
    ensures all { result ≡ min (length (reader_buffer reader.old)) (length buffer.new) }
    ensures bound { result ≤ length buffer.new }
    ensures bytes { ReadConsumes {E = Failed} (reader_remaining R.remaining reader.old)
        (reader_remaining R.remaining reader.new) (Ok result) buffer.new }
{
    let held = reader.buffer();
    let count = held.len().min(buffer.len());
    buffer[..count].copy_from_slice(&held[..count]);
    reader.consume(count);
    count
}

impl<R: Read> Source for ReadAhead<R> {
    ghost left = { λ s. reader_remaining R.remaining s.reading.reader };

    ghost made = { λ s. s.reading.made };

    ghost failed = { λ s. s.reading.failed };

    ghost ended = { λ s. s.reading.ended };

    ghost may_wait = { λ s. length (reader_buffer s.reading.reader) == 0 };

    fn read(&mut self, buffer: &mut [u8]) -> Result<usize, Failed> {
        if self.reading.reader.buffer().is_empty() {
            return self.reading.read(buffer);
        }
        self.reading.made += 1;
        self.reading.ended = false;
        Ok(give(&mut self.reading.reader, buffer))
    }

    fn made(&self) -> u32 {
        self.reading.made()
    }

    fn failed(&self) -> bool {
        self.reading.failed()
    }

    fn ended(&self) -> bool {
        self.reading.ended()
    }

    fn may_wait(&self) -> bool {
        self.reading.reader.buffer().is_empty()
    }
}
