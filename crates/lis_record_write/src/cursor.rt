//! What is left of a record or a field while it is written.

ghost use Rattle.std.specs.Prelude.{◌≡◌, ◌+◌, ◌<◌, ◌≤◌, ◌++◌, [], ℕ, List, length, IsTrue, IsFalse};
ghost use Rattle.lis_record_values.specs.Delimiters.{DelimiterBytes};
ghost use Rattle.lis_record_write.specs.Encoding.{more_fields, encoded_component, encoded_field, encoded_repeat};
ghost use Rattle.lis_record_write.specs.inside.Remaining.{more_components, more_repeats, remaining};

use crate::chunk::{CHUNK, Chunk, LONGEST_SYMBOL};
use lis_record_values::{Component, Delimiters, Field, Repeat, Sym};
use std::marker::Model;

/// What is left of an encoding, which goes out in chunks.
pub trait Encoding {
    // The bytes that are left.
    ghost left: { Self → List ℕ };

    /// Moves what comes next into the chunk, at least one byte; false where nothing is left.
    fn step(&mut self, chunk: &mut Chunk) -> bool
        requires { length chunk.old + 5 ≤ 256 }
        ensures same { chunk.new ++ left self.new ≡ chunk.old ++ left self.old }
        ensures more { IsTrue result → length chunk.old < length chunk.new }
        ensures done { IsFalse result → (left self.new ≡ []) × (chunk.new ≡ chunk.old) };

    /// Fills the chunk with what comes next, until a symbol may find no room in it.
    fn fill(&mut self, chunk: &mut Chunk)
        ensures same { chunk.new ++ left self.new ≡ chunk.old ++ left self.old }
        ensures done { length chunk.new ≡ 0 → left self.new ≡ [] }
    {
        while chunk.len() <= CHUNK - LONGEST_SYMBOL {
            if !self.step(chunk) {
                return;
            }
        }
    }
}

// The rest of a component, the components after it in its repeat, the repeats after that in its field,
// the fields after that, and the bytes that end it all.
#[derive(Drop)]
pub(crate) struct Cursor<'a> {
    delimiters: Delimiters,
    symbols: &'a [Sym],
    components: &'a [Component],
    repeats: &'a [Repeat],
    fields: &'a [Field],
    end: &'a [u8],
}

impl<'a> Model for Cursor<'a> {
    ghost use Rattle.std.specs.Prelude.{ℕ, List};
    ghost use Rattle.lis_record_write.specs.inside.Remaining.{remaining};

    ghost Value = { List ℕ };

    ghost view = { λ c. remaining c.delimiters c.symbols.now c.components.now c.repeats.now c.fields.now c.end.now };
}

// The symbols of a repeat's first component, and the components after it.
fn open_repeat(repeat: &Repeat) -> (&[Sym], &[Component])
    ensures { (d : DelimiterBytes) → encoded_repeat d repeat.now
        ≡ encoded_component d result.0.now ++ more_components d result.1.now }
{
    match repeat.components().split_first() {
        Some((component, components)) => (component.symbols(), components),
        None => (&[], &[]),
    }
}

// The symbols of a field's first component, and the components and repeats after it.
fn open_field(field: &Field) -> (&[Sym], &[Component], &[Repeat])
    ensures { (d : DelimiterBytes) → encoded_field d field.now
        ≡ encoded_component d result.0.now ++ (more_components d result.1.now ++ more_repeats d result.2.now) }
{
    match field.repeats().split_first() {
        Some((repeat, repeats)) => {
            let (symbols, components) = open_repeat(repeat);
            (symbols, components, repeats)
        }
        None => (&[], &[], &[]),
    }
}

impl<'a> Cursor<'a> {
    // A field alone.
    pub(crate) fn of_field(delimiters: Delimiters, field: &'a Field) -> Self
        ensures { result ≡ encoded_field delimiters field.now }
    {
        let (symbols, components, repeats) = open_field(field);
        Cursor {
            delimiters,
            symbols,
            components,
            repeats,
            fields: &[],
            end: &[],
        }
    }

    #[tactic(auto, unfolding(crate::specs::inside::Remaining::remaining))]
    // These fields, each after a field delimiter, and then these bytes.
    pub(crate) fn of_fields(delimiters: Delimiters, fields: &'a [Field], end: &'a [u8]) -> Self
        ensures { result ≡ more_fields delimiters fields.now ++ end.now }
    {
        Cursor {
            delimiters,
            symbols: &[],
            components: &[],
            repeats: &[],
            fields,
            end,
        }
    }
}

impl Encoding for Cursor<'_> {
    ghost left = { λ c. c };

    fn step(&mut self, chunk: &mut Chunk) -> bool {
        if !self.symbols.is_empty() {
            self.symbols = chunk.push_symbols(self.delimiters, self.symbols);
            return true;
        }
        if let Some((component, components)) = self.components.split_first() {
            chunk.push(self.delimiters.component());
            self.symbols = component.symbols();
            self.components = components;
            return true;
        }
        if let Some((repeat, repeats)) = self.repeats.split_first() {
            chunk.push(self.delimiters.repeat());
            let (symbols, components) = open_repeat(repeat);
            self.symbols = symbols;
            self.components = components;
            self.repeats = repeats;
            return true;
        }
        if let Some((field, fields)) = self.fields.split_first() {
            chunk.push(self.delimiters.field());
            let (symbols, components, repeats) = open_field(field);
            self.symbols = symbols;
            self.components = components;
            self.repeats = repeats;
            self.fields = fields;
            return true;
        }
        if let Some((byte, end)) = self.end.split_first() {
            chunk.push(*byte);
            self.end = end;
            return true;
        }
        false
    }
}
