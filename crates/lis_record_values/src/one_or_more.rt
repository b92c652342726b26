//! Lists that are never empty and keep an only item in place.

ghost use Rattle.std.specs.Prelude.{◌≡◌, ◌<◌, ◌++◌, ◌∷◌, [], length, IfErr, IfOk, OnOk};
ghost use Rattle.std.specs.Mem.{FitsInMemory};

use std::alloc::{AllocError, AllocFailed, Global};
use std::marker::Model;
use std::{mem, slice};

#[derive(Debug, Drop)]
enum Items<T> {
    One(T),
    Many(Vec<T>),
}

// One or more items in order. An only item takes no memory next to its own.
#[derive(Debug, Drop)]
pub(crate) struct OneOrMore<T> {
    alloc: Global,
    items: Items<T>,
}

impl<T> Model for OneOrMore<T> {
    ghost use Rattle.std.specs.Prelude.{List, ◌<◌, length};
    ghost use Rattle.lis_record_values.specs.inside.Shape.{items_of};

    ghost Value = { List T };

    ghost view = { λ o. items_of o.items };

    ghost invariant = { λ o. 0 < length (items_of o.items) };
}

impl<T: Drop> OneOrMore<T> {
    // A list of one item.
    #[inline(always)]
    pub(crate) fn new(alloc: Global, first: T) -> Self
        ensures { result ≡ first ∷ [] }
    {
        OneOrMore {
            alloc,
            items: Items::One(first),
        }
    }

    // A list of one item, with memory for so many.
    #[inline(always)]
    pub(crate) fn with_capacity(alloc: Global, first: T, count: usize) -> Result<Self, AllocError>
        ensures { IfOk result (λ list. list ≡ first ∷ []) }
    {
        if count <= 1 {
            return Ok(OneOrMore::new(alloc, first));
        }
        let mut items = Vec::with_capacity(alloc, count)?;
        items.push_reserved(first);
        Ok(OneOrMore {
            alloc,
            items: Items::Many(items),
        })
    }

    // Puts an item at the end. If memory runs out it comes back, and the list is as before.
    #[inline(always)]
    pub(crate) fn push(&mut self, item: T) -> Result<(), AllocFailed<T>>
        ensures ok { OnOk result (self.new ≡ self.old ++ item ∷ []) }
        ensures err { IfErr result (λ refused. (refused.value ≡ item) × (self.new ≡ self.old)) }
    {
        if let Items::Many(items) = &mut self.items {
            return items.push(item);
        }
        let Ok(mut items) = Vec::with_capacity(self.alloc, 2) else {
            return Err(AllocFailed { value: item });
        };
        match mem::replace(&mut self.items, Items::Many(Vec::new(self.alloc))) {
            Items::One(first) => {
                items.push_reserved(first);
                items.push_reserved(item);
                self.items = Items::Many(items);
                Ok(())
            }
            Items::Many(_) => unreachable!(),
        }
    }

    // The first item, and the others in order.
    pub(crate) fn parts(&self) -> (&T, &[T])
        requires { FitsInMemory T.row }
        ensures { self.now ≡ result.0.now ∷ result.1.now }
    {
        match self.as_slice() {
            [first, others @ ..] => (first, others),
            [] => unreachable!(),
        }
    }

    // The items, in order.
    pub(crate) fn as_slice(&self) -> &[T]
        requires { FitsInMemory T.row }
        ensures value { result.now ≡ self.now }
        ensures some { 0 < length self.now }
    {
        match &self.items {
            Items::One(first) => slice::from_ref(first),
            Items::Many(items) => items.as_slice(),
        }
    }
}
