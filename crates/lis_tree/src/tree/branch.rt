ghost use Rattle.std.specs.Prelude.{◌≡◌, ◌++◌, ◌∷◌, [], IfNone, IfOk, IfSome, OnErr, OnOk};
ghost use Rattle.std.specs.Borrow.{LendsIf, sem};
ghost use Rattle.lis_tree.specs.contracts.tree.branch.Branch.{the_row};
ghost use Rattle.lis_tree.specs.inside.Last.{IsLast, with_last};

use super::annotated::Annotated;
use crate::lists::{Copied, Records, copy_list};
use lis_bytes::List;
use lis_record_values::Record;
use std::alloc::{AllocError, Global};
use std::marker::Model;

/// A record with its notes, and what is below it.
#[derive(Debug, PartialEq, Eq, Drop)]
pub struct Branch<T> {
    top: Annotated,
    below: List<T>,
}

impl<T> Model for Branch<T> {
    ghost use Rattle.lis_tree.specs.Nodes.{Branch as BranchTree};

    ghost Value = { BranchTree T };

    ghost view = { λ b. record { top = b.top; below = b.below } };

    ghost inverse = { λ b. record { top = b.top; below = b.below } };
}

impl<T> Branch<T> {
    /// The record with its notes, and nothing below it.
    pub(crate) fn new(alloc: Global, top: Annotated) -> Self
        ensures { result ≡ record { top = top; below = [] } }
    {
        Branch {
            top,
            below: List::new(alloc),
        }
    }

    /// Adds a note at the end.
    pub(crate) fn push_note(&mut self, note: Record) -> Result<(), AllocError>
        ensures ok { OnOk result (self.new ≡ record {
          top = record { head = self.old.top.head; notes = self.old.top.notes ++ note ∷ [] };
          below = self.old.below;
        }) }
        ensures err { OnErr result (self.new ≡ self.old) }
    {
        self.top.push(note)
    }

    /// The last that is below it, to change it there.
    pub(crate) fn last_mut(&mut self) -> Option<&mut T>
        ensures* writes_back { sem 𝓛 (LendsIf (the_row T.row) T.row self.entry result (with_last self.old) self.old) }
        ensures some { IfSome result (λ item. IsLast self.old.below item.now) }
        ensures none { IfNone result (self.old.below ≡ []) }
    {
        self.below.last_mut()
    }

    /// The O record of an order, the P record of a patient.
    pub fn head(&self) -> &Record
        ensures { result.now ≡ self.now.top.head }
    {
        self.top.head()
    }

    /// The notes on it.
    pub fn notes(&self) -> &Records
        ensures { result.now ≡ self.now.top.notes }
    {
        self.top.notes()
    }

    /// What is below it, in order.
    pub fn below(&self) -> &[T]
        ensures { result.now ≡ self.now.below }
    {
        self.below.as_slice()
    }
}

impl<T: Drop> Branch<T> {
    /// Adds one more below it, at the end.
    pub(crate) fn push(&mut self, item: T) -> Result<(), AllocError>
        ensures ok { OnOk result (self.new ≡ record { top = self.old.top; below = self.old.below ++ item ∷ [] }) }
        ensures err { OnErr result (self.new ≡ self.old) }
    {
        Ok(self.below.push(item)?)
    }
}

impl<T: Copied> Branch<T> {
    /// The same order or patient once more, with memory of its own.
    pub fn copy(&self, alloc: Global) -> Result<Self, AllocError>
        ensures { IfOk result (λ branch. branch ≡ self.now) }
    {
        Ok(Branch {
            top: self.top.copy(alloc)?,
            below: copy_list(alloc, &self.below)?,
        })
    }
}

impl<T: Copied> Copied for Branch<T> {
    fn copied(&self, alloc: Global) -> Result<Self, AllocError> {
        self.copy(alloc)
    }
}
