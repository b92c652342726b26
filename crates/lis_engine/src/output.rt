//! What a run writes: text is buffered, and goes out in large pieces, with a count of the bytes that went out.

ghost use Rattle.std.specs.Prelude.{◌≡◌, ◌+◌, ◌*◌, ◌≤◌, ◌++◌, [], Ok, decimal, false, is_err, length};
ghost use Rattle.std.specs.Prelude.{OnOk};
ghost use Rattle.hex.specs.Hex.{encode_lower};
ghost use Rattle.lis_engine.specs.declared.output_buffer.TheConstants.{NUMBER_ROOM, OUTPUT_ROOM};
ghost use Rattle.lis_engine.specs.Output.{IsPut, IsWorking, most_counted};
ghost use Rattle.lis_engine.specs.inside.Output.{IsSent, Put};

use crate::fault::ToolFault;
use crate::output_buffer::{NUMBER_ROOM, OutputBuffer};
use lis_port::{Failed, Sink};
use std::marker::Model;

/// The bytes that are turned into digits at a time.
const CHUNK: usize = 1024;

/// What a run writes: its sink, the text that waits to go out, and how many bytes of this run went out.
#[derive(Drop)]
pub struct Output<'a, W: Sink> {
    sink: &'a mut W,
    buffer: OutputBuffer,
    written: u64,
}

impl<'a, W: Sink> Model for Output<'a, W> {
    ghost use Rattle.lis_engine.specs.Output.{Out};

    ghost Value = { Out };

    ghost view = { λ o. record {
      taken = W.taken o.sink.now;
      sent = W.sent o.sink.now;
      failed = W.failed o.sink.now;
      written = o.written;
      waits = o.buffer;
      sink = o.sink.ghost_name;
    } };
}

impl<'a, W: Sink> Output<'a, W> {
    /// An output over a sink. Nothing waits, and nothing went out.
    pub fn new(sink: &'a mut W) -> Self
        ensures { result ≡ record {
          taken = W.taken sink.old;
          sent = W.sent sink.old;
          failed = W.failed sink.old;
          written = 0;
          waits = [];
          sink = sink.entry.ghost_name;
        } }
    {
        Output {
            sink,
            buffer: OutputBuffer::new(),
            written: 0,
        }
    }

    /// The sink as it is.
    #[inline(always)]
    pub(crate) fn sink(&self) -> &W
        ensures taken { W.taken result.now ≡ self.now.taken }
        ensures sent { W.sent result.now ≡ self.now.sent }
    {
        self.sink
    }

    /// Its sink. What waits is dropped.
    pub fn into_sink(self) -> &'a mut W
        ensures same { result.ghost_name ≡ self.entry.sink }
        ensures taken { W.taken result.now ≡ self.entry.taken }
        ensures sent { W.sent result.now ≡ self.entry.sent }
        ensures failed { W.failed result.now ≡ self.entry.failed }
    {
        let Output {
            sink,
            buffer: _,
            written: _,
        } = self;
        sink
    }

    /// Puts a text after all that was put before.
    #[inline(always)]
    pub fn put(&mut self, text: &[u8]) -> Result<(), ToolFault>
        requires { IsWorking self.old }
        ensures { IsPut self.old self.new result text.now }
    {
        if text.len() <= self.buffer.room() {
            self.buffer.append(text);
            return Ok(());
        }
        self.put_long(text)
    }

    /// Puts a number in decimal digits.
    #[inline(always)]
    pub fn put_number(&mut self, number: u64) -> Result<(), ToolFault>
        requires { IsWorking self.old }
        ensures { IsPut self.old self.new result (decimal number) }
    {
        self.make_room(NUMBER_ROOM)?;
        self.buffer.append_number(number);
        Ok(())
    }

    /// Puts bytes in pairs of hexadecimal digits, in lower case.
    #[inline(always)]
    pub fn put_digits(&mut self, bytes: &[u8]) -> Result<(), ToolFault>
        requires { IsWorking self.old }
        ensures { IsPut self.old self.new result (encode_lower bytes.now) }
    {
        let mut rest = bytes;
        while rest.len() > CHUNK {
            let (front, left) = rest.split_at(CHUNK);
            self.put_chunk(front)?;
            rest = left;
        }
        self.put_chunk(rest)
    }

    /// Puts the pairs of hexadecimal digits of a chunk of bytes.
    #[inline(always)]
    fn put_chunk(&mut self, bytes: &[u8]) -> Result<(), ToolFault>
        requires working { IsWorking self.old }
        requires short { length bytes.now ≤ CHUNK }
        ensures { IsPut self.old self.new result (encode_lower bytes.now) }
    {
        self.make_room(2 * bytes.len())?;
        self.buffer.append_digits(bytes);
        Ok(())
    }

    /// A text that there is no room for goes out by itself.
    #[inline(never)]
    #[tactic(auto, using(crate::proofs::OutputLaws::put_alone))]
    fn put_long(&mut self, text: &[u8]) -> Result<(), ToolFault>
        requires { IsWorking self.old }
        ensures { IsPut self.old self.new result text.now }
    {
        self.put_buffer()?;
        put(self.sink, &mut self.written, text)
    }

    /// Sees to it that there is room for so many bytes: where there is less, what waits goes out.
    #[inline(always)]
    pub fn make_room(&mut self, count: usize) -> Result<(), ToolFault>
        requires working { IsWorking self.old }
        requires fits { count ≤ OUTPUT_ROOM }
        ensures put { IsPut self.old self.new result [] }
        ensures room { OnOk result (length self.new.waits + count ≤ OUTPUT_ROOM) }
    {
        if count <= self.buffer.room() {
            return Ok(());
        }
        self.put_buffer()
    }

    /// Puts a text that there is room for, as [`Output::room`] reports.
    #[inline(always)]
    pub fn append(&mut self, text: &[u8])
        requires { length self.old.waits + length text.now ≤ OUTPUT_ROOM }
        ensures { self.new ≡ record self.old { waits = self.old.waits ++ text.now } }
    {
        self.buffer.append(text);
    }

    /// Puts pairs of hexadecimal digits, in lower case. There must be room for two for each byte.
    #[inline(always)]
    pub fn append_digits(&mut self, bytes: &[u8])
        requires { length self.old.waits + 2 * length bytes.now ≤ OUTPUT_ROOM }
        ensures { self.new ≡ record self.old { waits = self.old.waits ++ encode_lower bytes.now } }
    {
        self.buffer.append_digits(bytes);
    }

    /// Puts a number in decimal digits. There must be room for [`NUMBER_ROOM`] bytes.
    #[inline(always)]
    pub fn append_number(&mut self, number: u64)
        requires { length self.old.waits + NUMBER_ROOM ≤ OUTPUT_ROOM }
        ensures value { self.new ≡ record self.old { waits = self.old.waits ++ decimal number } }
        ensures short { length self.new.waits ≤ length self.old.waits + NUMBER_ROOM }
    {
        self.buffer.append_number(number);
    }

    /// How many further bytes can wait.
    #[inline(always)]
    pub fn room(&self) -> usize
        ensures { length self.now.waits + result ≡ OUTPUT_ROOM }
    {
        self.buffer.room()
    }

    /// What waits goes out.
    // It is seldom called, and within the loops of its callers it would take their registers.
    #[inline(never)]
    fn put_buffer(&mut self) -> Result<(), ToolFault>
        requires { IsWorking self.old }
        ensures put { IsPut self.old self.new result [] }
        ensures empty { OnOk result (self.new.waits ≡ []) }
    {
        put(self.sink, &mut self.written, self.buffer.as_slice())?;
        self.buffer.clear();
        Ok(())
    }

    /// What waits goes out, and the sink sends on all that it took.
    pub(crate) fn send(&mut self) -> Result<(), ToolFault>
        requires { IsWorking self.old }
        ensures { IsSent self.old self.new result }
    {
        self.put_buffer()?;
        match self.sink.flush() {
            Ok(()) => Ok(()),
            Err(Failed) => Err(ToolFault::Write {
                written: self.written,
            }),
        }
    }
}

/// Puts bytes out to a sink, and counts those that went out.
#[inline(always)]
fn put<W: Sink>(sink: &mut W, written: &mut u64, bytes: &[u8]) -> Result<(), ToolFault>
    requires working { W.failed sink.old ≡ false }
    requires counted { written.old ≤ most_counted }
    ensures put { Put (W.taken sink.old) (W.taken sink.new) written.old written.new result bytes.now }
    ensures failed { W.failed sink.new ≡ is_err result }
{
    let mut rest = bytes;
    while !rest.is_empty() {
        match sink.write(rest) {
            Ok(count) => {
                *written = written.saturating_add(count as u64);
                let (_, left) = rest.split_at(count);
                rest = left;
            }
            Err(Failed) => return Err(ToolFault::Write { written: *written }),
        }
    }
    Ok(())
}
