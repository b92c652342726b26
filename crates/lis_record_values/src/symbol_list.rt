//! Lists of symbols that keep few of them in place.

ghost use Rattle.std.specs.Prelude.{◌≡◌, ◌++◌, ◌∷◌, [], length, take, IfErr, IfOk, OnOk};
ghost use Rattle.lis_record_values.specs.Shape.{plain_component};

use crate::few::{FEW, Few};
use crate::symbols::Sym;
use std::alloc::{AllocError, AllocFailed, Global};
use std::fmt;
use std::marker::Model;

#[derive(Drop)]
enum Kept {
    Few(Few),
    Many(Vec<Sym>),
}

// Symbols in order. Few of them take no memory next to the list's own.
#[derive(Drop)]
pub(crate) struct SymbolList {
    alloc: Global,
    kept: Kept,
}

impl Model for SymbolList {
    ghost use Rattle.lis_record_values.specs.Shape.{Symbols};
    ghost use Rattle.lis_record_values.specs.inside.Shape.{symbols_kept};

    ghost Value = { Symbols };

    ghost view = { λ s. symbols_kept s.kept };
}

impl fmt::Debug for SymbolList {
    fn fmt<W: fmt::Write>(&self, f: &mut fmt::Formatter<W>) -> fmt::Result {
        f.debug_list().entries(self.as_slice()).finish()
    }
}

impl SymbolList {
    // A list of no symbol.
    #[inline(always)]
    pub(crate) fn new(alloc: Global) -> Self
        ensures { result ≡ [] }
    {
        SymbolList {
            alloc,
            kept: Kept::Few(Few::new()),
        }
    }

    // A list of no symbol, with memory for so many.
    pub(crate) fn with_capacity(alloc: Global, symbols: usize) -> Result<Self, AllocError>
        ensures { IfOk result (λ list. list ≡ []) }
    {
        if symbols <= FEW {
            return Ok(SymbolList::new(alloc));
        }
        Ok(SymbolList {
            alloc,
            kept: Kept::Many(Vec::with_capacity(alloc, symbols)?),
        })
    }

    // A list of these bytes, each a character.
    #[inline(always)]
    pub(crate) fn from_text(alloc: Global, text: &[u8]) -> Result<Self, AllocError>
        ensures { IfOk result (λ list. list ≡ plain_component text.now) }
    {
        let kept = if text.len() <= FEW {
            Kept::Few(Few::from_text(text))
        } else {
            Kept::Many(many_from_text(alloc, text)?)
        };
        Ok(SymbolList { alloc, kept })
    }

    // A list of so many bytes of a text's front, each a character; of the whole text where it has fewer.
    #[inline(always)]
    pub(crate) fn from_front(alloc: Global, text: &[u8], count: usize) -> Result<Self, AllocError>
        ensures { IfOk result (λ list. list ≡ plain_component (take count text.now)) }
    {
        if count <= FEW && text.len() > FEW {
            let kept = Kept::Few(Few::from_front(text, count));
            return Ok(SymbolList { alloc, kept });
        }
        let (front, _following) = text.split_at(count.min(text.len()));
        SymbolList::from_text(alloc, front)
    }

    // The same list once more.
    pub(crate) fn copy(&self, alloc: Global) -> Result<Self, AllocError>
        ensures { IfOk result (λ list. list ≡ self.now) }
    {
        let kept = match &self.kept {
            Kept::Few(few) => Kept::Few(few.copy()),
            Kept::Many(many) => Kept::Many(Vec::from_slice(alloc, many.as_slice())?),
        };
        Ok(SymbolList { alloc, kept })
    }

    // Puts a symbol at the end. If memory runs out it comes back, and the list is as before.
    pub(crate) fn push(&mut self, symbol: Sym) -> Result<(), AllocFailed<Sym>>
        ensures ok { OnOk result (self.new ≡ self.old ++ symbol ∷ []) }
        ensures err { IfErr result (λ refused. (refused.value ≡ symbol) × (self.new ≡ self.old)) }
    {
        let few = match &mut self.kept {
            Kept::Many(many) => return many.push(symbol),
            Kept::Few(few) => few,
        };
        if few.has_room() {
            few.push(symbol);
            return Ok(());
        }
        self.push_beyond(symbol)
    }

    // The same where memory of its own is to be taken: its locals are large, and each symbol would pay for them.
    #[inline(never)]
    fn push_beyond(&mut self, symbol: Sym) -> Result<(), AllocFailed<Sym>>
        ensures ok { OnOk result (self.new ≡ self.old ++ symbol ∷ []) }
        ensures err { IfErr result (λ refused. (refused.value ≡ symbol) × (self.new ≡ self.old)) }
    {
        match longer(self.alloc, self.as_slice(), symbol) {
            Ok(many) => {
                self.kept = Kept::Many(many);
                Ok(())
            }
            Err(AllocError) => Err(AllocFailed { value: symbol }),
        }
    }

    // The number of symbols.
    pub(crate) fn len(&self) -> usize
        ensures { result ≡ length self.now }
    {
        self.as_slice().len()
    }

    // The symbols, in order.
    #[inline(always)]
    pub(crate) fn as_slice(&self) -> &[Sym]
        ensures { result.now ≡ self.now }
    {
        match &self.kept {
            Kept::Few(few) => few.as_slice(),
            Kept::Many(many) => many.as_slice(),
        }
    }
}

// These bytes, each a character, in memory of their own.
fn many_from_text(alloc: Global, text: &[u8]) -> Result<Vec<Sym>, AllocError>
    ensures { IfOk result (λ many. many.items ≡ plain_component text.now) }
{
    let mut many = Vec::with_capacity(alloc, text.len())?;
    for byte in text {
        many.push(Sym::Char(*byte))?;
    }
    Ok(many)
}

// These symbols and one more, in memory of their own, with room for as many again.
fn longer(alloc: Global, symbols: &[Sym], last: Sym) -> Result<Vec<Sym>, AllocError>
    ensures { IfOk result (λ many. many.items ≡ symbols.now ++ last ∷ []) }
{
    let mut many = Vec::with_capacity(alloc, 2 * FEW)?;
    many.extend_from_slice(symbols)?;
    many.push(last)?;
    Ok(many)
}
