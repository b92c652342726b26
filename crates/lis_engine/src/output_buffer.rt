//! Text that is buffered in a fixed buffer, so that many lines go out in one piece.

ghost use Rattle.std.specs.Prelude.{◌≡◌, ◌+◌, ◌*◌, ◌≤◌, ◌++◌, [], decimal, length};
ghost use Rattle.hex.specs.Hex.{encode_lower};

use crate::digits::encode;
use itoa::Buffer;
use std::marker::Model;

/// The most bytes that an output buffer has.
pub const OUTPUT_ROOM: usize = 16384;

/// The room for a number in decimal digits.
pub const NUMBER_ROOM: usize = 40;

/// The bytes that are buffered. It takes no memory.
#[derive(Drop)]
pub struct OutputBuffer {
    bytes: [u8; OUTPUT_ROOM],
    len: usize,
}

impl Model for OutputBuffer {
    ghost use Rattle.std.specs.Prelude.{◌≡◌, ◌≤◌, ℕ, List, length, take};

    ghost Value = { List ℕ };

    ghost view = { λ p. take p.len p.bytes };

    ghost invariant = { λ p. (p.len ≤ 16384) × (length p.bytes ≡ 16384) };
}

impl OutputBuffer {
    /// An output buffer with no byte.
    pub fn new() -> Self
        ensures { result ≡ [] }
    {
        OutputBuffer {
            bytes: [0; OUTPUT_ROOM],
            len: 0,
        }
    }

    /// The bytes.
    #[inline(always)]
    pub fn as_slice(&self) -> &[u8]
        ensures { result.now ≡ self.now }
    {
        let (front, _) = self.bytes.split_at(self.len);
        front
    }

    /// How many further bytes there is room for.
    #[inline(always)]
    pub fn room(&self) -> usize
        ensures { length self.now + result ≡ OUTPUT_ROOM }
    {
        OUTPUT_ROOM - self.len
    }

    /// Releases the bytes.
    #[inline(always)]
    pub fn clear(&mut self)
        ensures { self.new ≡ [] }
    {
        self.len = 0;
    }

    /// Puts a text after the bytes. There must be room for it, as [`OutputBuffer::room`] reports.
    #[inline(always)]
    pub fn append(&mut self, text: &[u8])
        requires { length self.old + length text.now ≤ OUTPUT_ROOM }
        ensures { self.new ≡ self.old ++ text.now }
    {
        let end = self.len + text.len();
        self.bytes[self.len..end].copy_from_slice(text);
        self.len = end;
    }

    /// Puts pairs of hexadecimal digits in lower case after the bytes. There must be room for two for each byte.
    #[inline(always)]
    pub fn append_digits(&mut self, bytes: &[u8])
        requires { length self.old + 2 * length bytes.now ≤ OUTPUT_ROOM }
        ensures { self.new ≡ self.old ++ encode_lower bytes.now }
    {
        let end = self.len + 2 * bytes.len();
        encode(bytes, &mut self.bytes[self.len..end]);
        self.len = end;
    }

    /// Puts a number in decimal digits after the bytes. There must be room for [`NUMBER_ROOM`] bytes.
    #[inline(always)]
    pub fn append_number(&mut self, number: u64)
        requires { length self.old + NUMBER_ROOM ≤ OUTPUT_ROOM }
        ensures value { self.new ≡ self.old ++ decimal number }
        ensures short { length self.new ≤ length self.old + NUMBER_ROOM }
    {
        // Many numbers have one digit: no call is made for them.
        if number < 10 {
            self.append(&[b'0' + number as u8]);
            return;
        }
        let mut buffer = Buffer::new();
        self.append(buffer.format(number).as_bytes());
    }
}
