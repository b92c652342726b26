//! What is left of a borrowed field while it is written.

ghost use Rattle.std.specs.Prelude.{◌≡◌};
ghost use Rattle.lis_record_read.specs.FrontReading.{repeats_of};
ghost use Rattle.lis_record_write.specs.Encoding.{encoded_field};

use lis_record_read::{BorrowedSymbols, first_part};
use lis_record_values::Delimiters;
use lis_record_write::{Chunk, Encoding};
use std::marker::Model;

// The rest of a component, and the texts of the components after it in its repeat and of the repeats after
// that in its field, each with the delimiter before it.
#[derive(Drop)]
pub(crate) struct BorrowedCursor<'a> {
    delimiters: Delimiters,
    symbols: BorrowedSymbols<'a>,
    components: &'a [u8],
    repeats: &'a [u8],
}

impl<'a> Model for BorrowedCursor<'a> {
    ghost use Rattle.std.specs.Prelude.{ℕ, List};
    ghost use Rattle.lis_record.specs.inside.BorrowedRemaining.{remaining_text};

    ghost Value = { List ℕ };

    ghost view = { λ c. remaining_text c.delimiters c.symbols c.components.now c.repeats.now };
}

impl<'a> BorrowedCursor<'a> {
    // A field's text.
    pub(crate) fn of_field(delimiters: Delimiters, text: &'a [u8]) -> Self
        ensures { result ≡ encoded_field delimiters (repeats_of delimiters text.now) }
    {
        let outer = delimiters.repeat();
        let inner = delimiters.component();
        let (repeat, repeats) = first_part(text, outer);
        let (component, components) = first_part(repeat, inner);
        BorrowedCursor {
            delimiters,
            symbols: BorrowedSymbols::of_text(delimiters, component),
            components,
            repeats,
        }
    }
}

impl Encoding for BorrowedCursor<'_> {
    ghost left = { λ c. c };

    #[inline(always)]
    fn step(&mut self, chunk: &mut Chunk) -> bool {
        if let Some(symbol) = self.symbols.next() {
            chunk.push_symbol(self.delimiters, symbol);
            return true;
        }
        if let Some((_delimiter, text)) = self.components.split_first() {
            let mark = self.delimiters.component();
            chunk.push(mark);
            let (component, components) = first_part(text, mark);
            self.symbols = BorrowedSymbols::of_text(self.delimiters, component);
            self.components = components;
            return true;
        }
        if let Some((_delimiter, text)) = self.repeats.split_first() {
            let outer = self.delimiters.repeat();
            let inner = self.delimiters.component();
            chunk.push(outer);
            let (repeat, repeats) = first_part(text, outer);
            let (component, components) = first_part(repeat, inner);
            self.symbols = BorrowedSymbols::of_text(self.delimiters, component);
            self.components = components;
            self.repeats = repeats;
            return true;
        }
        false
    }
}
