ghost use Rattle.std.specs.Prelude.{◌≡◌, ◌++◌, ◌∷◌, [], IfOk, OnErr, OnOk};

use crate::lists::{Copied, Records, copy_list};
use lis_record_values::Record;
use std::alloc::{AllocError, Global};
use std::marker::Model;

/// A record with the notes on it.
#[derive(Debug, PartialEq, Eq, Drop)]
pub struct Annotated {
    head: Record,
    notes: Records,
}

/// An R record with its notes.
pub type ResultEntry = Annotated;

/// A Q record with its notes.
pub type Query = Annotated;

impl Model for Annotated {
    ghost use Rattle.lis_tree.specs.Nodes.{Annotated as AnnotatedRecord};

    ghost Value = { AnnotatedRecord };

    ghost view = { λ n. record { head = n.head; notes = n.notes } };

    ghost inverse = { λ n. record { head = n.head; notes = n.notes } };
}

impl Annotated {
    /// The record without a note.
    pub(crate) fn new(alloc: Global, head: Record) -> Self
        ensures { result ≡ record { head = head; notes = [] } }
    {
        Annotated {
            head,
            notes: Records::new(alloc),
        }
    }

    /// Adds a note at the end.
    pub(crate) fn push(&mut self, note: Record) -> Result<(), AllocError>
        ensures ok { OnOk result (self.new ≡ record { head = self.old.head; notes = self.old.notes ++ note ∷ [] }) }
        ensures err { OnErr result (self.new ≡ self.old) }
    {
        Ok(self.notes.push(note)?)
    }

    /// The record.
    pub fn head(&self) -> &Record
        ensures { result.now ≡ self.now.head }
    {
        &self.head
    }

    /// The notes on it.
    pub fn notes(&self) -> &Records
        ensures { result.now ≡ self.now.notes }
    {
        &self.notes
    }

    /// The same once more, with memory of its own.
    pub fn copy(&self, alloc: Global) -> Result<Self, AllocError>
        ensures { IfOk result (λ n. n ≡ self.now) }
    {
        Ok(Annotated {
            head: self.head.copy(alloc)?,
            notes: copy_list(alloc, &self.notes)?,
        })
    }
}

impl Copied for Annotated {
    fn copied(&self, alloc: Global) -> Result<Self, AllocError> {
        self.copy(alloc)
    }
}
