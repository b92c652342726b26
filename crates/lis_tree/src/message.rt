ghost use Rattle.std.specs.Prelude.{◌≡◌, ◌+◌, ◌∷◌, [], ◌++◌, ◌⊎◌, IfOk, IfErr, MatchResult, MatchOption, None, Some};
ghost use Rattle.std.specs.Prelude.{length};
ghost use Rattle.lis_record_values.specs.declared.kinds.Kind.TheVariants as kinds;
ghost use Rattle.lis_record_values.specs.declared.faults.Reason.TheVariants as reasons;
ghost use Rattle.lis_tree.specs.Level.{misplaced, closed, kinds_of};
ghost use Rattle.lis_tree.specs.ListFaults.{IsListFault};
ghost use Rattle.lis_tree.specs.Front.{message_tree};
ghost use Rattle.lis_bytes.specs.Capped.{capped};
ghost use Rattle.lis_tree.specs.Results.{results_left, results_of};
ghost use Rattle.lis_tree.specs.Tree.{MessageTree, IsTree, flatten};

use crate::lists::Records;
use crate::open::OpenMessage;
use crate::results::Results;
use crate::tree::{Branch, Group};
use crate::walk::{Walk, count};
use lis_record_values::{Delimiters, Kind, MessageFault, Reason, Record};
use std::alloc::{AllocError, Global};
use std::marker::Model;
use std::mem::drop;

/// A whole message: its header with notes, its patients and queries, and the record that closes it.
#[derive(Debug, PartialEq, Eq, Drop)]
pub struct Message {
    delimiters: Delimiters,
    front: Branch<Group>,
    closing: Record,
}

impl Model for Message {
    ghost use Rattle.lis_tree.specs.Tree.{MessageTree, IsTree};
    ghost use Rattle.lis_tree.specs.Front.{message_tree};

    ghost Value = { MessageTree };

    ghost view = { λ m. message_tree m.delimiters m.front m.closing };

    ghost invariant = { λ m. IsTree (message_tree m.delimiters m.front m.closing) };

    ghost inverse = { λ m. record {
      delimiters = m.delimiters;
      front = record { top = record { head = m.header; notes = m.notes }; below = m.groups };
      closing = m.closing;
    } };
}

impl Message {
    /// The message whose header, notes and groups these are.
    pub(crate) fn new(delimiters: Delimiters, front: Branch<Group>, closing: Record) -> Self
        requires { IsTree (message_tree delimiters front closing) }
        ensures { result ≡ message_tree delimiters front closing }
    {
        Message {
            delimiters,
            front,
            closing,
        }
    }

    /// The message that these records are under these delimiters. The records are used up, also on a fault: the first
    /// that can't be where it is, or `Unfinished` at the place after the last, or a lack of memory.
    pub fn from_records(
        alloc: Global,
        delimiters: Delimiters,
        records: Records,
    ) -> Result<Message, MessageFault>
        ensures delimiters { IfOk result (λ m. m.delimiters ≡ delimiters) }
        ensures records { IfOk result (λ m. flatten m ≡ records) }
        ensures shape { IfOk result IsTree }
        ensures only { (m : MessageTree) → IsTree m → m.delimiters ≡ delimiters → flatten m ≡ records
            → MatchResult result (λ found. found ≡ m) (λ fault. fault.reason ≡ reasons.OutOfMemory) }
        ensures err { IfErr result (λ fault. (fault.reason ≡ reasons.OutOfMemory) ⊎ IsListFault (kinds_of records)
            fault) }
    {
        let mut rest = records.into_vec().into_iter();
        let Some(header) = rest.next() else {
            return Err(MessageFault {
                place: 1,
                reason: Reason::Unfinished,
            });
        };
        let Kind::H = header.kind() else {
            return Err(MessageFault {
                place: 1,
                reason: Reason::NotHeader,
            });
        };
        let mut begun = OpenMessage::new(alloc, delimiters, header);
        while let Some(entry) = rest.next() {
            let place = begun.next_place();
            let kind = entry.kind();
            if let Some(reason) = begun.place_fault(kind) {
                drop(begun);
                return Err(MessageFault { place, reason });
            }
            if let Kind::L = kind {
                return close(begun, entry, rest.next());
            }
            let Ok(()) = begun.push(alloc, entry) else {
                return Err(MessageFault {
                    place,
                    reason: Reason::OutOfMemory,
                });
            };
        }
        let place = begun.next_place();
        drop(begun);
        Err(MessageFault {
            place,
            reason: Reason::Unfinished,
        })
    }

    /// The same message once more, with memory of its own.
    pub fn copy(&self, alloc: Global) -> Result<Self, AllocError>
        ensures { IfOk result (λ message. message ≡ self.now) }
    {
        let delimiters = self.delimiters();
        Ok(Message::new(
            delimiters,
            self.front.copy(alloc)?,
            self.closing.copy(alloc)?,
        ))
    }

    /// The results of its orders, in order, each with the order and the patient that it belongs to.
    pub fn results(&self) -> Results<'_>
        ensures { results_left result ≡ results_of self.now }
    {
        Results::new(self.groups())
    }

    /// The delimiters that its header names.
    pub fn delimiters(&self) -> Delimiters
        ensures value { result ≡ self.now.delimiters }
        ensures shape { IsTree self.now }
    {
        self.delimiters
    }

    /// The H record.
    pub fn header(&self) -> &Record
        ensures { result.now ≡ self.now.header }
    {
        self.front.head()
    }

    /// The notes on the header.
    pub fn notes(&self) -> &Records
        ensures { result.now ≡ self.now.notes }
    {
        self.front.notes()
    }

    /// The patients and queries, in order.
    pub fn groups(&self) -> &[Group]
        ensures { result.now ≡ self.now.groups }
    {
        self.front.below()
    }

    /// How many records there are; it stays at the greatest number.
    pub fn len(&self) -> u64
        ensures { result ≡ capped (length (flatten self.now)) }
    {
        count(Walk::new(self))
    }

    /// The L record.
    pub fn closing(&self) -> &Record
        ensures { result.now ≡ self.now.closing }
    {
        &self.closing
    }
}

/// The message that a record closes, where none follows.
fn close(begun: OpenMessage, closing: Record, next: Option<Record>) -> Result<Message, MessageFault>
    requires { closing.kind ≡ kinds.L }
    ensures alone { IfOk result (λ m. next ≡ None) }
    ensures delimiters { IfOk result (λ m. m.delimiters ≡ begun.delimiters) }
    ensures records { IfOk result (λ m. flatten m ≡ begun.records ++ closing ∷ []) }
    ensures shape { IfOk result IsTree }
    ensures err { IfErr result (λ fault. MatchOption next ⊥ (λ r. (misplaced closed r.kind ≡ Some fault.reason)
        × (fault.place ≡ capped (length begun.records + 2)))) }
{
    let Some(extra) = next else {
        return Ok(begun.closed(closing));
    };
    let place = begun.next_place().saturating_add(1);
    drop(begun);
    let reason = match extra.kind() {
        Kind::H => Reason::SecondHeader,
        _ => Reason::NotHeader,
    };
    Err(MessageFault { place, reason })
}
