//! A fixed buffer that a record goes through on its way to a sink.

ghost use Rattle.std.specs.Prelude.{◌≡◌, ◌+◌, ◌<◌, ◌≤◌, ◌++◌, ◌∷◌, [], ◌==◌, OnErr, OnOk, length};
ghost use Rattle.lis_record_write.specs.Encoding.{delimiter_letter, letter_encoding, encoded_component, encoded_symbol};
ghost use Rattle.lis_record_values.specs.declared.symbols.Sym.TheVariants.{Char, Raw};

use lis_record_values::{Delimiters, Sym};
use std::alloc::AllocError;
use std::marker::Model;

// The letter of the escape that a delimiter is written as.
fn delimiter_letter(delimiters: Delimiters, byte: u8) -> Option<u8>
    ensures { result ≡ delimiter_letter delimiters byte }
{
    if byte == delimiters.field() {
        Some(b'F')
    } else if byte == delimiters.component() {
        Some(b'S')
    } else if byte == delimiters.repeat() {
        Some(b'R')
    } else if byte == delimiters.escape() {
        Some(b'E')
    } else {
        None
    }
}

// The most bytes of a chunk.
pub(crate) const CHUNK: usize = 256;

// The most bytes that a symbol is written as.
pub(crate) const LONGEST_SYMBOL: usize = 5;

/// The first bytes of a fixed buffer.
pub struct ChunkOf<const N: usize> {
    bytes: [u8; N],
    len: usize,
}

/// What goes out to a sink at a time.
pub type Chunk = ChunkOf<256>;

// Room for one symbol.
type SymbolChunk = ChunkOf<5>;

impl<const N: usize> Model for ChunkOf<N> {
    ghost use Rattle.std.specs.Prelude.{ℕ, ◌≤◌, List, take};

    ghost Value = { List ℕ };

    ghost view = { λ c. take c.len c.bytes };

    ghost invariant = { λ c. c.len ≤ N };
}

impl<const N: usize> Drop for ChunkOf<N> {
    fn drop(self) {
        let ChunkOf { bytes: _, len: _ } = self;
    }
}

impl<const N: usize> ChunkOf<N> {
    // An empty chunk.
    pub(crate) fn new() -> Self
        ensures { result ≡ [] }
    {
        ChunkOf {
            bytes: [0; N],
            len: 0,
        }
    }

    // The number of bytes.
    pub(crate) fn len(&self) -> usize
        ensures len { result ≡ length self.now }
        ensures bound { result ≤ N }
    {
        self.len
    }

    // Whether it has no byte.
    pub(crate) fn is_empty(&self) -> bool
        ensures { result ≡ (length self.now == 0) }
    {
        self.len() == 0
    }

    // The bytes.
    pub(crate) fn as_slice(&self) -> &[u8]
        ensures value { result.now ≡ self.now }
        ensures bound { length result.now ≤ N }
    {
        &self.bytes[..self.len]
    }

    /// Puts a byte at the end.
    #[inline(always)]
    pub fn push(&mut self, byte: u8)
        requires { length self.old < N }
        ensures { self.new ≡ self.old ++ byte ∷ [] }
    {
        self.bytes[self.len] = byte;
        self.len += 1;
    }

    // Drops all bytes.
    pub(crate) fn clear(&mut self)
        ensures { self.new ≡ [] }
    {
        self.len = 0;
    }

    // Puts an escape of one letter at the end.
    fn push_letter(&mut self, delimiters: Delimiters, letter: u8)
        requires { length self.old + 3 ≤ N }
        ensures { self.new ≡ self.old ++ letter_encoding delimiters letter }
    {
        self.push(delimiters.escape());
        self.push(letter);
        self.push(delimiters.escape());
    }

    // Puts a raw byte at the end, as an escape with two digits.
    fn push_raw(&mut self, delimiters: Delimiters, byte: u8)
        requires { length self.old + 5 ≤ N }
        ensures { self.new ≡ self.old ++ encoded_symbol delimiters (Raw byte) }
    {
        let mut digits = [0; 2];
        hex::encode_to_slice([byte].as_slice(), &mut digits).unwrap();
        self.push(delimiters.escape());
        self.push(b'X');
        self.push(digits[0]);
        self.push(digits[1]);
        self.push(delimiters.escape());
    }

    // Puts a character at the end, a delimiter as an escape.
    #[tactic(auto, unfolding(crate::specs::Encoding::encoded_symbol))]
    fn push_char(&mut self, delimiters: Delimiters, byte: u8)
        requires { length self.old + 5 ≤ N }
        ensures { self.new ≡ self.old ++ encoded_symbol delimiters (Char byte) }
    {
        match delimiter_letter(delimiters, byte) {
            Some(letter) => self.push_letter(delimiters, letter),
            None => self.push(byte),
        }
    }

    /// Puts the encoding of a symbol at the end.
    #[tactic(auto, unfolding(crate::specs::Encoding::encoded_symbol))]
    pub fn push_symbol(&mut self, delimiters: Delimiters, symbol: Sym)
        requires { length self.old + 5 ≤ N }
        ensures after { self.new ≡ self.old ++ encoded_symbol delimiters symbol }
        ensures more { length self.old < length self.new }
    {
        match symbol {
            Sym::Char(byte) => self.push_char(delimiters, byte),
            Sym::Raw(byte) => self.push_raw(delimiters, byte),
            Sym::On => self.push_letter(delimiters, b'H'),
            Sym::Off => self.push_letter(delimiters, b'N'),
        }
    }

    // Puts the encodings of symbols at the end, as many as find room, and answers the rest.
    pub(crate) fn push_symbols<'a>(
        &mut self,
        delimiters: Delimiters,
        symbols: &'a [Sym],
    ) -> &'a [Sym]
        requires { length self.old + 5 ≤ N }
        ensures same { self.new ++ encoded_component delimiters result.now
            ≡ self.old ++ encoded_component delimiters symbols.now }
        ensures more { 0 < length symbols.now → length self.old < length self.new }
    {
        let mut rest = symbols;
        while let Some((symbol, others)) = rest.split_first() {
            if self.len() > N - LONGEST_SYMBOL {
                return rest;
            }
            self.push_symbol(delimiters, *symbol);
            rest = others;
        }
        rest
    }
}

/// Adds a symbol's encoding to a text. If memory runs out the text is as before.
#[inline(always)]
pub fn add_symbol(out: &mut Vec<u8>, delimiters: Delimiters, symbol: Sym) -> Result<(), AllocError>
    ensures ok { OnOk result (out.new.items ≡ out.old.items ++ encoded_symbol delimiters symbol) }
    ensures err { OnErr result (out.new.items ≡ out.old.items) }
{
    let mut chunk = SymbolChunk::new();
    chunk.push_symbol(delimiters, symbol);
    out.extend_from_slice(chunk.as_slice())
}
