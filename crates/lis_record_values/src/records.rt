//! A record: its kind and its fields (LIS02-A2, Data Record Usage Overview).

ghost use Rattle.std.specs.Prelude.{◌≡◌, ◌++◌, ◌∷◌, [], length, map, IfErr, IfOk, OnOk};
ghost use Rattle.std.specs.Option.{option_copied};
ghost use Rattle.std.specs.Cmp.Lexicographic.{pointwise, lists_equiv, lists_per};
ghost use Rattle.std.specs.Cmp.{and_equiv, and_per, on_equiv, on_per};
ghost use Rattle.std.specs.Ordering.{eq_of_both, on};
ghost use Rattle.lis_record_values.specs.contracts.kinds.KindPartialEq.TheImpl as kind;
ghost use Rattle.lis_record_values.specs.contracts.kinds.KindPartialEq.TheImpl.Laws as kind_laws;
ghost use Rattle.lis_record_values.specs.contracts.kinds.KindEq.TheImpl.Laws as kind_eq_laws;
ghost use Rattle.lis_record_values.specs.contracts.symbols.SymPartialEq.TheImpl as symbol;
ghost use Rattle.lis_record_values.specs.contracts.symbols.SymPartialEq.TheImpl.Laws as symbol_laws;
ghost use Rattle.lis_record_values.specs.contracts.symbols.SymEq.TheImpl.Laws as symbol_eq_laws;
ghost use Rattle.lis_record_values.specs.Shape.{AreFields, IsRecordShape, field_at, first_number, plain_field};

use crate::field::Field;
use crate::kinds::Kind;
use std::alloc::{AllocError, AllocFailed, Global};
use std::marker::Model;

/// A record: its kind and the fields after its letter, or after a header's delimiters.
#[derive(Debug, Drop)]
pub struct Record {
    kind: Kind,
    fields: Vec<Field>,
}

impl Model for Record {
    ghost use Rattle.lis_record_values.specs.Shape.{RecordContent, AreFields};

    ghost Value = { RecordContent };

    ghost view = { λ r. record { kind = r.kind; fields = r.fields.items } };

    ghost invariant = { λ r. AreFields r.fields.items };
}

impl Record {
    /// A record of this kind without a field.
    pub fn new(alloc: Global, kind: Kind) -> Self
        ensures { result ≡ record { kind = kind; fields = [] } }
    {
        Record {
            kind,
            fields: Vec::new(alloc),
        }
    }

    /// A record of this kind without a field, with memory for so many.
    pub fn with_capacity(alloc: Global, kind: Kind, fields: usize) -> Result<Self, AllocError>
        ensures { IfOk result (λ entry. entry ≡ record { kind = kind; fields = [] }) }
    {
        let fields = Vec::with_capacity(alloc, fields)?;
        Ok(Record { kind, fields })
    }

    /// The record of this kind with these fields, each of one component that holds the bytes as characters.
    pub fn from_texts(alloc: Global, kind: Kind, texts: &[&[u8]]) -> Result<Self, AllocError>
        ensures { IfOk result (λ entry. entry ≡ record {
          kind = kind;
          fields = map (λ text. plain_field text.now) texts.now;
        }) }
    {
        let mut entry = Record::with_capacity(alloc, kind, texts.len())?;
        for text in texts {
            entry.push(Field::from_text(alloc, text)?)?;
        }
        Ok(entry)
    }

    /// The same record once more.
    pub fn copy(&self, alloc: Global) -> Result<Self, AllocError>
        ensures { IfOk result (λ entry. entry ≡ self.now) }
    {
        let mut entry = Record::with_capacity(alloc, self.kind, self.fields.len())?;
        for field in self.fields() {
            entry.push(field.copy(alloc)?)?;
        }
        Ok(entry)
    }

    /// Puts a field at the end. If memory runs out it comes back, and the record is as before.
    #[inline(always)]
    pub fn push(&mut self, field: Field) -> Result<(), AllocFailed<Field>>
        ensures ok { OnOk result (self.new ≡ record self.old { fields = self.old.fields ++ field ∷ [] }) }
        ensures err { IfErr result (λ refused. (refused.value ≡ field) × (self.new ≡ self.old)) }
    {
        self.fields.push(field)
    }

    /// What the record reports.
    pub fn kind(&self) -> Kind
        ensures kind { result ≡ self.now.kind }
        ensures shape { IsRecordShape self.now }
    {
        self.kind
    }

    /// The number of the first field: 2, and 3 in a header, whose delimiters are field 2.
    pub fn first_number(&self) -> usize
        ensures { result ≡ first_number self.now.kind }
    {
        self.kind.first_number()
    }

    /// The number of fields after the letter, or after a header's delimiters.
    pub fn len(&self) -> usize
        ensures { result ≡ length self.now.fields }
    {
        self.fields.len()
    }

    /// The field of this number. The letter is field 1; in a header the delimiters are field 2. Both are
    /// none of these fields, and nor is one past the last.
    pub fn field(&self, number: usize) -> Option<&Field>
        ensures { option_copied result ≡ field_at self.now number }
    {
        self.fields
            .get(number.checked_sub(self.kind.first_number())?)
    }

    /// The fields after the letter, or after a header's delimiters, in order.
    pub fn fields(&self) -> &[Field]
        ensures value { result.now ≡ self.now.fields }
        ensures shape { IsRecordShape self.now }
    {
        self.fields.as_slice()
    }
}

/// Records are equal whose kinds and fields are.
impl PartialEq for Record {
    ghost eq = { eq_of_both (on (λ r. r.kind) (kind.ghosts).eq)
        (on (λ r. r.fields) (pointwise (pointwise (pointwise (pointwise (symbol.ghosts).eq))))) };

    ghost laws = { and_per (on_per (λ r. r.kind) kind_laws.laws-law)
        (on_per (λ r. r.fields) (lists_per (lists_per (lists_per (lists_per symbol_laws.laws-law))))) };

    fn eq(&self, other: &Self) -> bool
        ensures { result ≡ eq_of_both (on (λ r. r.kind) (kind.ghosts).eq)
            (on (λ r. r.fields) (pointwise (pointwise (pointwise (pointwise (symbol.ghosts).eq))))) self.now other.now }
    {
        self.kind == other.kind && self.fields() == other.fields()
    }
}

impl Eq for Record {
    ghost laws = { and_equiv (on_equiv (λ r. r.kind) kind_eq_laws.laws-law)
        (on_equiv (λ r. r.fields) (lists_equiv (lists_equiv (lists_equiv (lists_equiv symbol_eq_laws.laws-law))))) };
}
