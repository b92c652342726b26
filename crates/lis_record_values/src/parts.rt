//! Lists of one or more parts: a repeat's components, a field's repeats (LIS02-A2, Delimiters).

ghost use Rattle.std.specs.Prelude.{◌≡◌, ◌++◌, ◌∷◌, [], length, slice_get, IfErr, IfOk, OnOk};
ghost use Rattle.std.specs.Mem.{FitsInMemory};
ghost use Rattle.std.specs.Option.{option_copied};
ghost use Rattle.lis_record_values.specs.Shape.{AreSome};

use crate::one_or_more::OneOrMore;
use std::alloc::{AllocError, AllocFailed, Global};
use std::marker::Model;

/// What is in a list of one or more: a component in a repeat, and a repeat in a field.
pub trait Part: Drop {
    // What its type keeps.
    ghost shape: { Self → Type 0 };

    /// A part is as its type keeps it.
    fn known(&self)
        ensures { shape self.now };

    /// The same part once more.
    fn copied(&self, alloc: Global) -> Result<Self, AllocError>
        ensures { IfOk result (λ part. part ≡ self.now) };
}

/// One or more parts in order.
#[derive(Debug, Drop)]
pub struct Parts<T: Part> {
    parts: OneOrMore<T>,
}

impl<T: Part> Model for Parts<T> {
    ghost use Rattle.std.specs.Prelude.{List};
    ghost use Rattle.lis_record_values.specs.Shape.{AreSome};

    ghost Value = { List T };

    ghost view = { λ p. p.parts };

    ghost invariant = { λ p. AreSome T.shape p.parts };
}

impl<T: Part> Parts<T> {
    /// A list of one part. If memory runs out it comes back.
    #[inline(always)]
    pub fn new(alloc: Global, part: T) -> Result<Self, AllocFailed<T>>
        ensures ok { IfOk result (λ parts. parts ≡ part ∷ []) }
        ensures err { IfErr result (λ refused. refused.value ≡ part) }
    {
        // proof: the list keeps what each part keeps.
        part.known();
        Ok(Parts {
            parts: OneOrMore::new(alloc, part),
        })
    }

    /// A list of one part, with memory for so many.
    #[inline(always)]
    pub fn with_capacity(alloc: Global, part: T, parts: usize) -> Result<Self, AllocError>
        ensures { IfOk result (λ list. list ≡ part ∷ []) }
    {
        // proof: the list keeps what each part keeps.
        part.known();
        let list = OneOrMore::with_capacity(alloc, part, parts)?;
        Ok(Parts { parts: list })
    }

    /// The same list once more.
    pub fn copy(&self, alloc: Global) -> Result<Self, AllocError>
        requires { FitsInMemory T.row }
        ensures { IfOk result (λ parts. parts ≡ self.now) }
    {
        let (first, others) = self.parts.parts();
        let mut parts = Parts::new(alloc, first.copied(alloc)?)?;
        for part in others {
            parts.push(part.copied(alloc)?)?;
        }
        Ok(parts)
    }

    /// Puts a part at the end. If memory runs out it comes back, and the list is as before.
    #[inline(always)]
    pub fn push(&mut self, part: T) -> Result<(), AllocFailed<T>>
        ensures ok { OnOk result (self.new ≡ self.old ++ part ∷ []) }
        ensures err { IfErr result (λ refused. (refused.value ≡ part) × (self.new ≡ self.old)) }
    {
        // proof: the list keeps what each part keeps.
        part.known();
        self.parts.push(part)
    }

    /// The number of parts.
    pub fn len(&self) -> usize
        requires { FitsInMemory T.row }
        ensures { result ≡ length self.now }
    {
        self.as_slice().len()
    }

    /// The part at a place, from 0.
    pub fn get(&self, place: usize) -> Option<&T>
        requires { FitsInMemory T.row }
        ensures { option_copied result ≡ slice_get self.now place }
    {
        self.as_slice().get(place)
    }

    // The parts, in order.
    #[inline(always)]
    pub(crate) fn as_slice(&self) -> &[T]
        requires { FitsInMemory T.row }
        ensures value { result.now ≡ self.now }
        ensures shape { AreSome T.shape self.now }
    {
        self.parts.as_slice()
    }
}
