//! Records and their parts where they are in a text, without memory (LIS02-A2, Delimiters).

ghost use Rattle.std.specs.Prelude.{◌≡◌, ◌≢◌, ◌<◌, ◌≤◌, ◌++◌, ◌∷◌, ◌↔◌, [], IfNone, IfOk, IfSome, IsFalse, IsTrue};
ghost use Rattle.std.specs.Prelude.{List, MatchOption, OnErr, OnOk, Some, ℕ, ⊤, drop, false, length, map, option_map};
ghost use Rattle.std.specs.Prelude.{slice_get, take};
ghost use Rattle.std.specs.Io.{StartsWith};
ghost use Rattle.std.specs.Option.{option_copied};
ghost use Rattle.lis_record_values.specs.Delimiters.{DelimiterBytes};
ghost use Rattle.lis_record_values.specs.Shape.{field_at, plain_field};
ghost use Rattle.lis_record_read.specs.FrontReading.{components_of, fields_of, parts_of, symbols_of};
ghost use Rattle.lis_record_write.specs.Encoding.{more_fields, encoded_field};
ghost use Rattle.lis_record.specs.Borrowed.{front_length, borrowed, record_in};
ghost use Rattle.lis_record_values.specs.Relation.{Lacks, LacksDelimiters};
ghost use Rattle.lis_record_write.specs.Writing.{WroteAny, is_io};

use crate::borrowed_cursor::BorrowedCursor;
use crate::known_parts::{first_marked, part_at, part_following, split_parts};
use crate::reencoding::{add_following, add_reencoded};
use lis_bytes::{front_marks, place_of};
use lis_port::{Sink, write_all};
use lis_record_read::{BorrowedSymbols, count_parts, is_plain, read_field, read_fields};
use lis_record_values::{Component, Delimiters, Field, Kind, Record, Repeat};
use lis_record_write::{WriteFault, WriteResult, put_encoding};
use std::alloc::{AllocError, Global};
use std::marker::{Model, PhantomData};

/// A component that is in a text.
#[derive(Drop)]
pub struct BorrowedComponent<'a> {
    delimiters: Delimiters,
    text: &'a [u8],
}

impl<'a> Model for BorrowedComponent<'a> {
    ghost use Rattle.lis_record_values.specs.Shape.{Symbols};
    ghost use Rattle.lis_record_read.specs.FrontReading.{symbols_of};
    ghost use Rattle.lis_record.specs.Borrowed.{Borrowed, borrowed};

    ghost Value = { Borrowed Symbols };

    ghost view = { λ c. borrowed c.delimiters (symbols_of c.delimiters c.text.now) };
}

impl<'a> BorrowedComponent<'a> {
    // The component that this text is.
    #[inline(always)]
    fn of_text(delimiters: Delimiters, text: &'a [u8]) -> Self
        ensures { result ≡ borrowed delimiters (symbols_of delimiters text.now) }
    {
        BorrowedComponent { delimiters, text }
    }

    /// The symbols, to be taken one after another.
    pub fn symbols(&self) -> BorrowedSymbols<'a>
        ensures { result ≡ self.now.content }
    {
        BorrowedSymbols::of_text(self.delimiters, self.text)
    }
}

/// What is in a list of parts that is in a text: a component in a repeat, and a repeat in a field.
pub trait BorrowedPart: Drop {
    // The part that a text reports.
    ghost value_of: { DelimiterBytes → List ℕ → Self };

    // What is between two such parts.
    ghost mark: { DelimiterBytes → ℕ };

    // What is known of the text of a list of them.
    ghost known: { DelimiterBytes → List ℕ → Type 0 };

    /// The delimiter between two such parts.
    fn delimiter(delimiters: Delimiters) -> u8
        ensures { result ≡ mark delimiters };
}

impl BorrowedPart for Component {
    ghost value_of = { symbols_of };

    ghost mark = { λ d. d.component };

    ghost known = { λ d text. ⊤ };

    #[inline(always)]
    fn delimiter(delimiters: Delimiters) -> u8 {
        delimiters.component()
    }
}

impl BorrowedPart for Repeat {
    ghost value_of = { components_of };

    ghost mark = { λ d. d.repeat };

    ghost known = { λ d text. Lacks d.field text };

    #[inline(always)]
    fn delimiter(delimiters: Delimiters) -> u8 {
        delimiters.repeat()
    }
}

/// A list of parts that is in a text.
#[derive(Drop)]
pub struct BorrowedParts<'a, P: BorrowedPart> {
    delimiters: Delimiters,
    text: &'a [u8],
    parts: PhantomData<P>,
}

/// A repeat that is in a text.
pub type BorrowedRepeat<'a> = BorrowedParts<'a, Component>;

/// A field that is in a text.
pub type BorrowedField<'a> = BorrowedParts<'a, Repeat>;

impl<'a, P: BorrowedPart> Model for BorrowedParts<'a, P> {
    ghost use Rattle.std.specs.Prelude.{List, map};
    ghost use Rattle.lis_record_read.specs.FrontReading.{parts_of};
    ghost use Rattle.lis_record.specs.Borrowed.{Borrowed, borrowed};

    ghost Value = { Borrowed (List P) };

    ghost view = { λ l. borrowed l.delimiters (map (P.value_of l.delimiters) (parts_of (P.mark l.delimiters)
        l.text.now)) };

    ghost invariant = { λ l. P.known l.delimiters l.text.now };
}

impl<'a, P: BorrowedPart> BorrowedParts<'a, P> {
    // The list that this text is.
    #[inline(always)]
    fn of_text(delimiters: Delimiters, text: &'a [u8]) -> Self
        requires { P.known delimiters text.now }
        ensures { result ≡ borrowed delimiters (map (P.value_of delimiters) (parts_of (P.mark delimiters) text.now)) }
    {
        BorrowedParts {
            delimiters,
            text,
            parts: PhantomData,
        }
    }

    /// The number of components of a repeat, or of repeats of a field.
    pub fn len(&self) -> usize
        ensures { result ≡ length self.now.content }
    {
        count_parts(self.text, P::delimiter(self.delimiters))
    }

    // The text of the part at a place, from 0.
    fn part(&self, place: usize) -> Option<&'a [u8]>
        ensures { option_map (P.value_of self.now.delimiters) (option_copied result) ≡ slice_get self.now.content
            place }
    {
        part_at(self.text, P::delimiter(self.delimiters), place)
    }
}

impl<'a> BorrowedParts<'a, Component> {
    /// The component at a place, from 0.
    pub fn component(&self, place: usize) -> Option<BorrowedComponent<'a>>
        ensures { result ≡ option_map (borrowed self.now.delimiters) (slice_get self.now.content place) }
    {
        let text = self.part(place)?;
        Some(BorrowedComponent::of_text(self.delimiters, text))
    }
}

impl<'a> BorrowedParts<'a, Repeat> {
    /// The repeat at a place, from 0.
    pub fn repeat(&self, place: usize) -> Option<BorrowedRepeat<'a>>
        ensures { result ≡ option_map (borrowed self.now.delimiters) (slice_get self.now.content place) }
    {
        let text = self.part(place)?;
        Some(BorrowedRepeat::of_text(self.delimiters, text))
    }

    /// The characters of a field that is one component of them, none of them a delimiter; none of any other field.
    #[inline(always)]
    pub fn only_component(&self) -> Option<&'a [u8]>
        ensures is { IfSome result (λ bytes. self.now.content ≡ plain_field bytes.now) }
        ensures free { IfSome result (λ bytes. LacksDelimiters self.now.delimiters bytes.now) }
        ensures other { IfNone result ((bytes : List ℕ) → LacksDelimiters self.now.delimiters bytes
            → self.now.content ≢ plain_field bytes) }
    {
        // proof: what an escape means is a delimiter or no character, since delimiters are apart.
        let _ = self.delimiters.field();
        if is_plain(self.delimiters, self.text) {
            Some(self.text)
        } else {
            None
        }
    }

    /// The field with memory of its own.
    pub fn to_field(&self, alloc: Global) -> Result<Field, AllocError>
        ensures { IfOk result (λ field. field ≡ self.now.content) }
    {
        read_field(alloc, self.delimiters, self.text)
    }

    /// Adds the field's encoding to a text. If memory runs out the text still begins with what it was.
    pub fn add_to(&self, text: &mut Vec<u8>) -> Result<(), AllocError>
        ensures ok { OnOk result (text.new.items ≡ text.old.items
            ++ encoded_field self.now.delimiters self.now.content) }
        ensures err { OnErr result (StartsWith text.new.items text.old.items) }
    {
        // proof: what is added is the field's encoding, since delimiters are apart.
        let _ = self.delimiters.field();
        add_reencoded(text, self.delimiters, self.text)?;
        Ok(())
    }

    /// Writes the field's encoding, of any length and without memory, to a sink that has not failed.
    ///
    /// On `Io(count)` the sink failed, and the first `count` bytes are out; the count stops at
    /// 18,446,744,073,709,551,615. There is no other fault.
    pub fn put<W: Sink>(&self, sink: &mut W) -> WriteResult
        requires { W.failed sink.old ≡ false }
        ensures wrote { WroteAny None (encoded_field self.now.delimiters self.now.content)
            (W.taken sink.old) (W.taken sink.new) result }
        ensures failed { W.failed sink.new ≡ is_io result }
    {
        if place_of(self.text, self.delimiters.escape()).is_some() {
            return put_encoding(sink, BorrowedCursor::of_field(self.delimiters, self.text));
        }
        // proof: without an escape byte the field is encoded as it is, since delimiters are apart.
        let _ = self.delimiters.field();
        match write_all(sink, self.text) {
            Ok(()) => Ok(()),
            Err(count) => Err(WriteFault::Io(count as u64)),
        }
    }
}

/// The fields of a record that are in a text and weren't taken yet.
#[derive(Drop)]
pub struct BorrowedFields<'a> {
    delimiters: Delimiters,
    text: &'a [u8],
    // The first places of the field delimiter, or none of them, as bits.
    marks: u64,
}

impl<'a> Model for BorrowedFields<'a> {
    ghost use Rattle.lis_record_values.specs.Shape.{Fields};
    ghost use Rattle.lis_record_read.specs.FrontReading.{fields_of};
    ghost use Rattle.lis_bytes.specs.Marks.{AreMarks};
    ghost use Rattle.lis_record.specs.Borrowed.{Borrowed, borrowed};

    ghost Value = { Borrowed Fields };

    ghost view = { λ f. borrowed f.delimiters (fields_of f.delimiters f.text.now) };

    ghost invariant = { λ f. AreMarks f.delimiters.field f.text.now f.marks };
}

impl<'a> BorrowedFields<'a> {
    /// Takes the first field; none where no field is left.
    #[inline(always)]
    pub fn next(&mut self) -> Option<BorrowedField<'a>>
        ensures { MatchOption result ((self.old.content ≡ []) × (self.new ≡ self.old))
            (λ field. (field.delimiters ≡ self.old.delimiters)
            × (self.old.content ≡ field.content ∷ self.new.content) × (self.new.delimiters ≡ self.old.delimiters)) }
    {
        let Some((_delimiter, following)) = self.text.split_first() else {
            return None;
        };
        let (text, rest, marks) = first_marked(following, self.delimiters.field(), self.marks >> 1);
        self.text = rest;
        self.marks = marks;
        Some(BorrowedField::of_text(self.delimiters, text))
    }

    /// Takes so many fields and adds them to a text by their encoding, each after a field delimiter; false where there
    /// are fewer, and then all are left and nothing is added. At least one is asked for. If memory runs out no
    /// field is taken, and the text still begins with what it was.
    #[inline(always)]
    pub fn add_next(&mut self, count: usize, text: &mut Vec<u8>) -> Result<bool, AllocError>
        requires { 0 < count }
        ensures enough { IfOk result (λ added. IsTrue added ↔ (count ≤ length self.old.content)) }
        ensures added { IfOk result (λ added. IsTrue added
            → (text.new.items ≡ text.old.items ++ more_fields self.old.delimiters (take count self.old.content))
            × (self.new ≡ borrowed self.old.delimiters (drop count self.old.content))) }
        ensures left { IfOk result (λ added. IsFalse added → (text.new ≡ text.old) × (self.new ≡ self.old)) }
        ensures refused { OnErr result (StartsWith text.new.items text.old.items × (self.new ≡ self.old)) }
    {
        let mark = self.delimiters.field();
        // Known marks last for the fields after these too; where none is known, they are looked for at once.
        let known = if self.marks == 0 {
            front_marks(self.text, mark)
        } else {
            self.marks
        };
        let Some((fields, rest, marks)) = split_parts(self.text, mark, count, known) else {
            return Ok(false);
        };
        add_following(text, self.delimiters, fields)?;
        self.text = rest;
        self.marks = marks;
        Ok(true)
    }
}

/// How many bytes are before a record's fields: a header's letter and its four delimiters, else the letter (LIS02-A2,
/// Delimiters).
#[inline(always)]
pub fn front_length(kind: Kind) -> usize
    ensures { result ≡ front_length kind }
{
    match kind {
        Kind::H => 5,
        _ => 1,
    }
}

// Whether a field of this byte is one decimal digit, and ends at the next byte.
#[inline(always)]
fn is_lone_digit(byte: u8, next: u8, mark: u8) -> bool
    ensures { IsTrue result ↔ ((next ≡ mark) × ((48 ≤ byte) × (byte ≤ 57))) }
{
    next == mark && byte >= b'0' && byte <= b'9'
}

/// A record that is in a text, under the delimiters of its message.
#[derive(Drop)]
pub struct BorrowedRecord<'a> {
    delimiters: Delimiters,
    kind: Kind,
    fields: &'a [u8],
}

impl<'a> Model for BorrowedRecord<'a> {
    ghost use Rattle.lis_record_values.specs.Shape.{RecordContent};
    ghost use Rattle.lis_record_read.specs.FrontReading.{fields_of};
    ghost use Rattle.lis_record.specs.Borrowed.{Borrowed, borrowed};

    ghost Value = { Borrowed RecordContent };

    ghost view = { λ r. borrowed r.delimiters
        (record { kind = r.kind; fields = fields_of r.delimiters r.fields.now }) };
}

impl<'a> BorrowedRecord<'a> {
    // A record of this kind, whose fields are those of this text.
    #[inline(always)]
    pub(crate) fn of_parts(delimiters: Delimiters, kind: Kind, fields: &'a [u8]) -> Self
        ensures { result ≡ borrowed delimiters (record { kind = kind; fields = fields_of delimiters fields.now }) }
    {
        BorrowedRecord {
            delimiters,
            kind,
            fields,
        }
    }

    /// The record of this kind that is known to be this text, as `borrow_header` and `borrow_record` found it under
    /// these delimiters. Nothing of the text is tested again, and it takes no memory.
    pub fn in_text(delimiters: Delimiters, kind: Kind, text: &'a [u8]) -> Self
        ensures { result ≡ record_in delimiters kind text.now }
    {
        let before = front_length(kind);
        if text.len() < before {
            return BorrowedRecord::of_parts(delimiters, kind, &[]);
        }
        let (_front, fields) = text.split_at(before);
        BorrowedRecord::of_parts(delimiters, kind, fields)
    }

    /// The same record. Borrowed to a call that is seldom made, it lets this one stay in registers.
    #[inline(always)]
    pub fn again(&self) -> BorrowedRecord<'a>
        ensures { result ≡ self.now }
    {
        BorrowedRecord::of_parts(self.delimiters, self.kind, self.fields)
    }

    /// The delimiters that the record is read under; a header's own.
    #[inline(always)]
    pub fn delimiters(&self) -> Delimiters
        ensures { result ≡ self.now.delimiters }
    {
        self.delimiters
    }

    /// What the record reports.
    #[inline(always)]
    pub fn kind(&self) -> Kind
        ensures { result ≡ self.now.content.kind }
    {
        self.kind
    }

    /// The number of fields after the letter, or after a header's delimiters.
    #[inline(always)]
    pub fn len(&self) -> usize
        ensures { result ≡ length self.now.content.fields }
    {
        match self.fields.split_first() {
            Some((_delimiter, text)) => count_parts(text, self.delimiters.field()),
            None => 0,
        }
    }

    /// The field of this number. The letter is field 1; in a header the delimiters are field 2. Both are
    /// none of these fields, and nor is one past the last.
    pub fn field(&self, number: usize) -> Option<BorrowedField<'a>>
        ensures { result ≡ option_map (borrowed self.now.delimiters) (field_at self.now.content number) }
    {
        let Some(place) = number.checked_sub(self.kind.first_number()) else {
            return None;
        };
        let Some(text) = part_following(self.fields, self.delimiters.field(), place) else {
            return None;
        };
        Some(BorrowedField::of_text(self.delimiters, text))
    }

    /// The fields, to be taken one after another: each is found where the one before it ends.
    #[inline(always)]
    pub fn fields(&self) -> BorrowedFields<'a>
        ensures { result ≡ borrowed self.now.delimiters self.now.content.fields }
    {
        BorrowedFields {
            delimiters: self.delimiters,
            text: self.fields,
            marks: 0,
        }
    }

    /// The first field, where that is one decimal digit and another field is after it, as of most sequence
    /// numbers; none of any other record.
    #[inline(always)]
    pub fn first_digit(&self) -> Option<u8>
        ensures is { IfSome result (λ digit. slice_get self.now.content.fields 0 ≡ Some (plain_field (digit ∷ []))) }
        ensures digit { IfSome result (λ digit. (48 ≤ digit) × ((digit ≤ 57) × (1 < length self.now.content.fields))) }
        ensures other { IfNone result ((digit : ℕ) → 48 ≤ digit → digit ≤ 57 → 1 < length self.now.content.fields
            → slice_get self.now.content.fields 0 ≢ Some (plain_field (digit ∷ []))) }
    {
        let mark = self.delimiters.field();
        let [_delimiter, digit, end, ..] = self.fields else {
            return None;
        };
        if !is_lone_digit(*digit, *end, mark) {
            return None;
        }
        Some(*digit)
    }

    /// The record with memory of its own.
    pub fn to_record(&self, alloc: Global) -> Result<Record, AllocError>
        ensures { IfOk result (λ entry. entry ≡ self.now.content) }
    {
        read_fields(alloc, self.delimiters, self.kind, self.fields)
    }
}
