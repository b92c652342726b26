//! A few symbols that are in place.

ghost use Rattle.std.specs.Prelude.{◌≡◌, ◌<◌, ◌≤◌, ◌↔◌, ◌++◌, ◌∷◌, [], IsTrue, length, map, take};
ghost use Rattle.lis_record_values.specs.declared.symbols.Sym.TheVariants.{Char};

use crate::symbols::Sym;
use std::marker::Model;
use std::simd::prelude::*;

// How many symbols are in place: as many as take no more room than what keeps more.
pub(crate) const FEW: usize = 15;

// The first symbols of a fixed array.
#[derive(Drop)]
pub(crate) struct Few {
    count: u8,
    symbols: [Sym; FEW],
}

impl Model for Few {
    ghost use Rattle.std.specs.Prelude.{◌≤◌, List, take};
    ghost use Rattle.lis_record_values.specs.declared.symbols.Sym.{Sym as Symbol};

    ghost Value = { List Symbol };

    ghost view = { λ f. take f.count f.symbols };

    ghost invariant = { λ f. f.count ≤ 15 };
}

impl Few {
    // No symbol.
    #[inline(always)]
    pub(crate) fn new() -> Self
        ensures { result ≡ [] }
    {
        Few {
            count: 0,
            symbols: [Sym::Off; FEW],
        }
    }

    // These bytes, each a character.
    #[inline(always)]
    pub(crate) fn from_text(text: &[u8]) -> Self
        requires { length text.now ≤ 15 }
        ensures { result ≡ map Char text.now }
    {
        let mut symbols = [Sym::Off; FEW];
        for place in 0..text.len() {
            symbols[place] = Sym::Char(text[place]);
        }
        Few {
            count: text.len() as u8,
            symbols,
        }
    }

    // So many bytes of a text's front, each a character. Sixteen bytes are read and fifteen symbols made of them at
    // once, so that no loop turns on the count.
    #[inline(always)]
    pub(crate) fn from_front(text: &[u8], count: usize) -> Self
        requires few { count ≤ 15 }
        requires room { 16 ≤ length text.now }
        ensures { result ≡ map Char (take count text.now) }
    {
        let lanes = u8x16::from_slice(text).to_array();
        let mut symbols = [Sym::Off; FEW];
        for place in 0..FEW {
            symbols[place] = Sym::Char(lanes[place]);
        }
        Few {
            count: count as u8,
            symbols,
        }
    }

    // The same symbols once more.
    pub(crate) fn copy(&self) -> Self
        ensures { result ≡ self.now }
    {
        Few {
            count: self.count,
            symbols: self.symbols,
        }
    }

    // Whether there is room for one more.
    #[inline(always)]
    pub(crate) fn has_room(&self) -> bool
        ensures { IsTrue result ↔ (length self.now < 15) }
    {
        self.as_slice().len() < FEW
    }

    // Puts a symbol at the end.
    #[inline(always)]
    pub(crate) fn push(&mut self, symbol: Sym)
        requires { length self.old < 15 }
        ensures { self.new ≡ self.old ++ symbol ∷ [] }
    {
        self.symbols[self.count as usize] = symbol;
        self.count += 1;
    }

    // The symbols, in order.
    #[inline(always)]
    pub(crate) fn as_slice(&self) -> &[Sym]
        ensures { result.now ≡ self.now }
    {
        &self.symbols[..self.count as usize]
    }
}
