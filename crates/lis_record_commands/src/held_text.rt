//! Text that is held in memory until a message is whole.

ghost use Rattle.std.specs.Prelude.{◌≡◌, ◌<◌, ◌≤◌, ◌++◌, ◌∷◌, ◌↔◌, [], IfOk, IsFalse, IsTrue, OnOk, decimal, drop};
ghost use Rattle.std.specs.Prelude.{length, slice_get, take};
ghost use Rattle.lis_record_values.specs.Shape.{field_at};
ghost use Rattle.lis_record.specs.Borrowed.{borrowed};
ghost use Rattle.lis_record_write.specs.Encoding.{more_fields};
ghost use Rattle.lis_record_commands.specs.Results.{field_text};

use itoa::Buffer;
use lis_message::BorrowedRecord;
use lis_record::BorrowedFields;
use std::alloc::{AllocError, Global};

/// Text in memory.
#[derive(Drop)]
pub(crate) struct HeldText {
    bytes: Vec<u8>,
}

impl HeldText {
    /// No text. It takes no memory yet.
    pub(crate) fn new(alloc: Global) -> Self
        ensures { result.bytes.items ≡ [] }
    {
        HeldText {
            bytes: Vec::new(alloc),
        }
    }

    /// The text.
    pub(crate) fn as_slice(&self) -> &[u8]
        ensures { result.now ≡ self.now.bytes.items }
    {
        self.bytes.as_slice()
    }

    /// Releases the text.
    pub(crate) fn clear(&mut self)
        ensures { self.new.bytes.items ≡ [] }
    {
        self.bytes.clear();
    }

    /// Adds a text.
    #[inline(always)]
    pub(crate) fn add(&mut self, text: &[u8]) -> Result<(), AllocError>
        ensures { OnOk result (self.new.bytes.items ≡ self.old.bytes.items ++ text.now) }
    {
        self.bytes.extend_from_slice(text)
    }

    /// Adds a byte.
    #[inline(always)]
    pub(crate) fn add_byte(&mut self, byte: u8) -> Result<(), AllocError>
        ensures { OnOk result (self.new.bytes.items ≡ self.old.bytes.items ++ byte ∷ []) }
    {
        match self.bytes.push(byte) {
            Ok(()) => Ok(()),
            Err(_) => Err(AllocError),
        }
    }

    /// Adds a number in decimal digits.
    #[inline(always)]
    pub(crate) fn add_number(&mut self, number: u64) -> Result<(), AllocError>
        ensures { OnOk result (self.new.bytes.items ≡ self.old.bytes.items ++ decimal number) }
    {
        let mut buffer = Buffer::new();
        self.add(buffer.format(number).as_bytes())
    }

    /// Adds a record's field of this number by its encoding; nothing where it is absent.
    #[inline(never)]
    pub(crate) fn add_field(
        &mut self,
        entry: &BorrowedRecord<'_>,
        number: usize,
    ) -> Result<(), AllocError>
        ensures { OnOk result (self.new.bytes.items ≡ self.old.bytes.items
            ++ field_text entry.now.delimiters (field_at entry.now.content number)) }
    {
        match entry.field(number) {
            Some(field) => field.add_to(&mut self.bytes),
            None => Ok(()),
        }
    }

    /// Adds so many of the next fields by their encoding, each after a field delimiter; false where there are fewer,
    /// and then nothing is added or taken. At least one is asked for.
    #[inline(always)]
    pub(crate) fn add_fields(
        &mut self,
        fields: &mut BorrowedFields<'_>,
        count: usize,
    ) -> Result<bool, AllocError>
        requires { 0 < count }
        ensures enough { IfOk result (λ added. IsTrue added ↔ (count ≤ length fields.old.content)) }
        ensures added { IfOk result (λ added. IsTrue added → (self.new.bytes.items ≡ self.old.bytes.items
            ++ more_fields fields.old.delimiters (take count fields.old.content))
            × (fields.new ≡ borrowed fields.old.delimiters (drop count fields.old.content))) }
        ensures left { IfOk result (λ added. IsFalse added → (self.new.bytes.items ≡ self.old.bytes.items)
            × (fields.new ≡ fields.old)) }
    {
        fields.add_next(count, &mut self.bytes)
    }

    /// Adds a mark and the next of these fields by its encoding; the mark alone where none is left.
    #[inline(always)]
    pub(crate) fn add_next(
        &mut self,
        mark: u8,
        fields: &mut BorrowedFields<'_>,
    ) -> Result<(), AllocError>
        requires { mark ≡ fields.old.delimiters.field }
        ensures added { OnOk result (self.new.bytes.items ≡ self.old.bytes.items
            ++ mark ∷ field_text fields.old.delimiters (slice_get fields.old.content 0)) }
        ensures left { OnOk result (fields.new ≡ borrowed fields.old.delimiters (drop 1 fields.old.content)) }
    {
        if self.add_fields(fields, 1)? {
            return Ok(());
        }
        self.add_byte(mark)
    }
}
