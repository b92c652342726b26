//! A message whose closing record hasn't come yet.
ghost use Rattle.std.specs.Prelude.{◌≡◌, ◌≢◌, ◌+◌, ◌∷◌, [], ◌++◌, None, OnErr, OnOk, Some, length};
ghost use Rattle.lis_record_values.specs.declared.kinds.Kind.TheVariants as kinds;
ghost use Rattle.lis_record_values.specs.Delimiters.{IsDelimiters};
ghost use Rattle.lis_tree.specs.Level.{misplaced};
ghost use Rattle.lis_tree.specs.Begun.{level_of};
ghost use Rattle.lis_bytes.specs.Capped.{capped};
ghost use Rattle.lis_tree.specs.Tree.{flatten, IsTree};

use crate::front::{Front, position, push_record};
use crate::message::Message;
use crate::tree::Annotated;
use lis_record_values::{Delimiters, Kind, Reason, Record};
use std::alloc::{AllocError, Global};
use std::marker::Model;

/// A message that isn't closed yet.
#[derive(Drop)]
pub struct OpenMessage {
    delimiters: Delimiters,
    front: Front,
    /// How many records there are; it stays at the greatest number.
    count: u64,
}

impl Model for OpenMessage {
    ghost use Rattle.std.specs.Prelude.{◌≡◌, length};
    ghost use Rattle.lis_tree.specs.Begun.{Begun};

    ghost Value = { Begun };

    ghost use Rattle.lis_tree.specs.Open.{IsOpen};
    ghost use Rattle.lis_tree.specs.Front.{front_records};

    ghost view = { λ m. record { delimiters = m.delimiters; records = front_records m.front } };

    ghost invariant = { λ m. IsOpen m.delimiters m.front m.count };
}

impl OpenMessage {
    /// The message that begins with this header, an H record.
    pub fn new(alloc: Global, delimiters: Delimiters, header: Record) -> Self
        requires { header.kind ≡ kinds.H }
        ensures { result ≡ record { delimiters = delimiters; records = header ∷ [] } }
    {
        // proof: what delimiters and a record are made of is known once they are asked.
        let _ = (delimiters.field(), header.kind());
        OpenMessage {
            delimiters,
            front: Front::new(alloc, Annotated::new(alloc, header)),
            count: 1,
        }
    }

    /// The delimiters that its header names.
    pub fn delimiters(&self) -> Delimiters
        ensures value { result ≡ self.now.delimiters }
        ensures shape { IsDelimiters result }
    {
        self.delimiters
    }

    /// The place of the next record, from 1 for the header.
    pub fn next_place(&self) -> u64
        ensures { result ≡ capped (length self.now.records + 1) }
    {
        self.count.saturating_add(1)
    }

    /// Why a record of this kind can't come next.
    pub fn place_fault(&self, kind: Kind) -> Option<Reason>
        ensures { result ≡ misplaced (level_of (Some self.now)) kind }
    {
        position(&self.front).place_fault(kind)
    }

    /// Adds one more record, which may be there and doesn't close the message. If memory runs out the message
    /// is as before.
    pub fn push(&mut self, alloc: Global, entry: Record) -> Result<(), AllocError>
        requires placed { misplaced (level_of (Some self.old)) entry.kind ≡ None }
        requires open { entry.kind ≢ kinds.L }
        ensures ok { OnOk result (self.new
            ≡ record { delimiters = self.old.delimiters; records = self.old.records ++ entry ∷ [] }) }
        ensures err { OnErr result (self.new ≡ self.old) }
    {
        // proof: what a record is made of is known once it is asked.
        let _ = entry.kind();
        push_record(alloc, &mut self.front, entry)?;
        self.count = self.count.saturating_add(1);
        Ok(())
    }

    /// The message that this record, an L record, closes.
    pub fn closed(self, closing: Record) -> Message
        requires { closing.kind ≡ kinds.L }
        ensures delimiters { result.delimiters ≡ self.delimiters }
        ensures records { flatten result ≡ self.records ++ closing ∷ [] }
        ensures shape { IsTree result }
    {
        // proof: what a record is made of is known once it is asked.
        let _ = closing.kind();
        Message::new(self.delimiters, self.front, closing)
    }
}
