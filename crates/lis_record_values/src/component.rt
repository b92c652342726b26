//! What a repeat is made of: components, the lists of symbols (LIS02-A2, Delimiters).

ghost use Rattle.std.specs.Prelude.{◌≡◌, ◌++◌, ◌∷◌, [], length, slice_get, ◌≢◌, ℕ, List, IfErr, IfOk, MatchOption};
ghost use Rattle.std.specs.Prelude.{OnOk, take};
ghost use Rattle.std.specs.Option.{option_copied};
ghost use Rattle.std.specs.Cmp.Lexicographic.{pointwise, lists_equiv, lists_per};
ghost use Rattle.lis_record_values.specs.contracts.symbols.SymPartialEq.TheImpl as symbol;
ghost use Rattle.lis_record_values.specs.contracts.symbols.SymPartialEq.TheImpl.Laws as symbol_laws;
ghost use Rattle.lis_record_values.specs.contracts.symbols.SymEq.TheImpl.Laws as symbol_eq_laws;
ghost use Rattle.lis_record_values.specs.Shape.{AreSymbols, plain_component};

use crate::parts::Part;
use crate::symbol_list::SymbolList;
use crate::symbols::Sym;
use std::alloc::{AllocError, AllocFailed, Global};
use std::marker::Model;

/// A list of symbols.
#[derive(Debug, Drop)]
pub struct Component {
    symbols: SymbolList,
}

impl Model for Component {
    ghost use Rattle.lis_record_values.specs.Shape.{Symbols, AreSymbols};

    ghost Value = { Symbols };

    ghost view = { λ c. c.symbols };

    ghost invariant = { λ c. AreSymbols c.symbols };
}

impl Component {
    /// A component without a symbol.
    pub fn new(alloc: Global) -> Self
        ensures { result ≡ [] }
    {
        Component {
            symbols: SymbolList::new(alloc),
        }
    }

    /// A component without a symbol, with memory for so many.
    pub fn with_capacity(alloc: Global, symbols: usize) -> Result<Self, AllocError>
        ensures { IfOk result (λ component. component ≡ []) }
    {
        Ok(Component {
            symbols: SymbolList::with_capacity(alloc, symbols)?,
        })
    }

    /// The component of these bytes, each a character: a delimiter among them is written as an escape.
    #[inline(always)]
    pub fn from_text(alloc: Global, text: &[u8]) -> Result<Self, AllocError>
        ensures { IfOk result (λ component. component ≡ plain_component text.now) }
    {
        Ok(Component {
            symbols: SymbolList::from_text(alloc, text)?,
        })
    }

    /// The component of so many bytes of a text's front, each a character; of the whole text where it has fewer. What
    /// follows in the text may be read, and isn't reported.
    #[inline(always)]
    pub fn from_front(alloc: Global, text: &[u8], count: usize) -> Result<Self, AllocError>
        ensures { IfOk result (λ component. component ≡ plain_component (take count text.now)) }
    {
        Ok(Component {
            symbols: SymbolList::from_front(alloc, text, count)?,
        })
    }

    /// The bytes of a component that holds characters alone; none where it holds a byte in hexadecimal digits, or
    /// highlighting.
    pub fn to_text(&self, alloc: Global) -> Result<Option<Vec<u8>>, AllocError>
        ensures { IfOk result (λ text. MatchOption text
            ((bytes : List ℕ) → self.now ≢ plain_component bytes)
            (λ bytes. self.now ≡ plain_component bytes.items)) }
    {
        let mut text = Vec::with_capacity(alloc, self.symbols.len())?;
        for symbol in self.symbols.as_slice() {
            let Sym::Char(byte) = symbol else {
                return Ok(None);
            };
            text.push(*byte)?;
        }
        Ok(Some(text))
    }

    /// The same component once more.
    pub fn copy(&self, alloc: Global) -> Result<Self, AllocError>
        ensures { IfOk result (λ component. component ≡ self.now) }
    {
        Ok(Component {
            symbols: self.symbols.copy(alloc)?,
        })
    }

    /// Puts a symbol at the end. If memory runs out it comes back, and the component is as before.
    pub fn push(&mut self, symbol: Sym) -> Result<(), AllocFailed<Sym>>
        ensures ok { OnOk result (self.new ≡ self.old ++ symbol ∷ []) }
        ensures err { IfErr result (λ refused. (refused.value ≡ symbol) × (self.new ≡ self.old)) }
    {
        self.symbols.push(symbol)
    }

    /// The number of symbols.
    pub fn len(&self) -> usize
        ensures { result ≡ length self.now }
    {
        self.symbols.len()
    }

    /// The symbol at a place, from 0.
    pub fn get(&self, place: usize) -> Option<&Sym>
        ensures { option_copied result ≡ slice_get self.now place }
    {
        self.symbols().get(place)
    }

    /// The symbols, in order.
    #[inline(always)]
    pub fn symbols(&self) -> &[Sym]
        ensures value { result.now ≡ self.now }
        ensures shape { AreSymbols self.now }
    {
        self.symbols.as_slice()
    }
}

/// Components are equal whose symbols are.
impl PartialEq for Component {
    ghost eq = { λ a b. pointwise (symbol.ghosts).eq a b };

    ghost laws = { lists_per symbol_laws.laws-law };

    fn eq(&self, other: &Self) -> bool
        ensures { result ≡ pointwise (symbol.ghosts).eq self.now other.now }
    {
        self.symbols() == other.symbols()
    }
}

impl Eq for Component {
    ghost laws = { lists_equiv symbol_eq_laws.laws-law };
}

impl Part for Component {
    ghost shape = { λ c. AreSymbols c };

    #[inline(always)]
    fn known(&self) {
        // proof: what the type keeps is known of a value that was read.
        let _ = self.symbols();
    }

    fn copied(&self, alloc: Global) -> Result<Self, AllocError> {
        self.copy(alloc)
    }
}
