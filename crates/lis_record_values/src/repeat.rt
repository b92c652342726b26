//! What a field is made of: repeats, one or more components each (LIS02-A2, Delimiters).

ghost use Rattle.std.specs.Prelude.{◌≡◌};
ghost use Rattle.std.specs.Cmp.Lexicographic.{pointwise, lists_equiv, lists_per};
ghost use Rattle.lis_record_values.specs.contracts.symbols.SymPartialEq.TheImpl as symbol;
ghost use Rattle.lis_record_values.specs.contracts.symbols.SymPartialEq.TheImpl.Laws as symbol_laws;
ghost use Rattle.lis_record_values.specs.contracts.symbols.SymEq.TheImpl.Laws as symbol_eq_laws;
ghost use Rattle.lis_record_values.specs.Shape.{IsRepeatShape};

use crate::component::Component;
use crate::parts::{Part, Parts};
use std::alloc::{AllocError, Global};

/// One or more components.
pub type Repeat = Parts<Component>;

impl Parts<Component> {
    /// The components, in order.
    #[inline(always)]
    pub fn components(&self) -> &[Component]
        ensures value { result.now ≡ self.now }
        ensures shape { IsRepeatShape self.now }
    {
        self.as_slice()
    }
}

impl Part for Parts<Component> {
    ghost shape = { λ r. IsRepeatShape r };

    #[inline(always)]
    fn known(&self) {
        // proof: what the type keeps is known of a value that was read.
        let _ = self.components();
    }

    fn copied(&self, alloc: Global) -> Result<Self, AllocError> {
        self.copy(alloc)
    }
}

/// Repeats are equal whose components are.
impl PartialEq for Parts<Component> {
    ghost eq = { λ a b. pointwise (pointwise (symbol.ghosts).eq) a b };

    ghost laws = { lists_per (lists_per symbol_laws.laws-law) };

    fn eq(&self, other: &Self) -> bool
        ensures { result ≡ pointwise (pointwise (symbol.ghosts).eq) self.now other.now }
    {
        self.components() == other.components()
    }
}

impl Eq for Parts<Component> {
    ghost laws = { lists_equiv (lists_equiv symbol_eq_laws.laws-law) };
}
