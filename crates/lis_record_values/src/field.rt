//! What a record is made of: fields, one or more repeats each (LIS02-A2, Delimiters).

ghost use Rattle.std.specs.Prelude.{◌≡◌, ◌≢◌, ◌∷◌, [], ℕ, List, IfOk, MatchOption, take};
ghost use Rattle.std.specs.Cmp.Lexicographic.{pointwise, lists_equiv, lists_per};
ghost use Rattle.lis_record_values.specs.contracts.symbols.SymPartialEq.TheImpl as symbol;
ghost use Rattle.lis_record_values.specs.contracts.symbols.SymPartialEq.TheImpl.Laws as symbol_laws;
ghost use Rattle.lis_record_values.specs.contracts.symbols.SymEq.TheImpl.Laws as symbol_eq_laws;
ghost use Rattle.lis_record_values.specs.Shape.{IsFieldShape, plain_field};

use crate::component::Component;
use crate::parts::Parts;
use crate::repeat::Repeat;
use std::alloc::{AllocError, Global};

/// One or more repeats.
pub type Field = Parts<Repeat>;

impl Parts<Repeat> {
    /// The field of one component that holds these bytes, each a character: a delimiter among them is written as an
    /// escape.
    #[inline(always)]
    pub fn from_text(alloc: Global, text: &[u8]) -> Result<Self, AllocError>
        ensures { IfOk result (λ field. field ≡ plain_field text.now) }
    {
        let component = Component::from_text(alloc, text)?;
        Field::of_component(alloc, component)
    }

    /// The field of one component that holds so many bytes of a text's front, each a character; of the whole text where
    /// it has fewer. What follows in the text may be read, and isn't reported.
    #[inline(always)]
    pub fn from_front(alloc: Global, text: &[u8], count: usize) -> Result<Self, AllocError>
        ensures { IfOk result (λ field. field ≡ plain_field (take count text.now)) }
    {
        let component = Component::from_front(alloc, text, count)?;
        Field::of_component(alloc, component)
    }

    // The field of one component.
    #[inline(always)]
    fn of_component(alloc: Global, component: Component) -> Result<Self, AllocError>
        ensures { IfOk result (λ field. field ≡ (component ∷ []) ∷ []) }
    {
        Ok(Field::new(alloc, Repeat::new(alloc, component)?)?)
    }

    /// The bytes of a field of one component that holds characters alone; none for any other field.
    pub fn to_text(&self, alloc: Global) -> Result<Option<Vec<u8>>, AllocError>
        ensures { IfOk result (λ text. MatchOption text
            ((bytes : List ℕ) → self.now ≢ plain_field bytes)
            (λ bytes. self.now ≡ plain_field bytes.items)) }
    {
        match self.repeats() {
            [repeat] => match repeat.components() {
                [component] => component.to_text(alloc),
                _ => Ok(None),
            },
            _ => Ok(None),
        }
    }

    /// The repeats, in order.
    #[inline(always)]
    pub fn repeats(&self) -> &[Repeat]
        ensures value { result.now ≡ self.now }
        ensures shape { IsFieldShape self.now }
    {
        self.as_slice()
    }
}

/// Fields are equal whose repeats are.
impl PartialEq for Parts<Repeat> {
    ghost eq = { λ a b. pointwise (pointwise (pointwise (symbol.ghosts).eq)) a b };

    ghost laws = { lists_per (lists_per (lists_per symbol_laws.laws-law)) };

    fn eq(&self, other: &Self) -> bool
        ensures { result ≡ pointwise (pointwise (pointwise (symbol.ghosts).eq)) self.now other.now }
    {
        self.repeats() == other.repeats()
    }
}

impl Eq for Parts<Repeat> {
    ghost laws = { lists_equiv (lists_equiv (lists_equiv symbol_eq_laws.laws-law)) };
}
