//! A walk over the records of a message, in the order in which they are written.
ghost use Rattle.std.specs.Prelude.{◌≡◌, [], ◌++◌, IfNone, length};
ghost use Rattle.std.specs.Option.{option_copied, option_to_list};
ghost use Rattle.lis_bytes.specs.Capped.{capped};
ghost use Rattle.lis_tree.specs.Tree.{flatten};

use crate::message::Message;
use crate::tree::{Group, Order, ResultEntry};
use lis_record_values::Record;
use std::marker::Model;

/// The records of a message that are left.
#[derive(Drop)]
pub struct Walk<'a> {
    head: Option<&'a Record>,
    notes: &'a [Record],
    results: &'a [ResultEntry],
    orders: &'a [Order],
    groups: &'a [Group],
    closing: Option<&'a Record>,
}

impl<'a> Model for Walk<'a> {
    ghost use Rattle.std.specs.Prelude.{List};
    ghost use Rattle.std.specs.Option.{option_copied};
    ghost use Rattle.lis_record_values.specs.Shape.{RecordContent};

    ghost Value = { List RecordContent };

    ghost use Rattle.lis_tree.specs.Walk.{walk_records};

    ghost view = { λ w. walk_records (option_copied w.head) w.notes.now w.results.now w.orders.now w.groups.now
        (option_copied w.closing) };
}

impl<'a> Walk<'a> {
    /// All records of the message, from the header on.
    pub fn new(message: &'a Message) -> Self
        ensures { result ≡ flatten message.now }
    {
        Walk {
            head: Some(message.header()),
            notes: message.notes().as_slice(),
            results: &[],
            orders: &[],
            groups: message.groups(),
            closing: Some(message.closing()),
        }
    }

    /// The next record.
    pub fn next(&mut self) -> Option<&'a Record>
        ensures next { self.old ≡ option_to_list (option_copied result) ++ self.new }
        ensures none { IfNone result (self.old ≡ []) }
    {
        if let Some(head) = self.head {
            self.head = None;
            return Some(head);
        }
        if let Some((note, rest)) = self.notes.split_first() {
            self.notes = rest;
            return Some(note);
        }
        if let Some((entry, rest)) = self.results.split_first() {
            self.results = rest;
            self.notes = entry.notes().as_slice();
            return Some(entry.head());
        }
        if let Some((order, rest)) = self.orders.split_first() {
            self.orders = rest;
            self.results = order.results();
            self.notes = order.notes().as_slice();
            return Some(order.head());
        }
        if let Some((group, rest)) = self.groups.split_first() {
            self.groups = rest;
            match group {
                Group::Patient(patient) => {
                    self.orders = patient.orders();
                    self.notes = patient.notes().as_slice();
                    return Some(patient.head());
                }
                Group::Query(query) => {
                    self.notes = query.notes().as_slice();
                    return Some(query.head());
                }
            }
        }
        let closing = self.closing;
        self.closing = None;
        closing
    }
}

/// How many records are left; it stays at the greatest number.
pub(crate) fn count(walk: Walk<'_>) -> u64
    ensures { result ≡ capped (length walk.entry) }
{
    let mut walk = walk;
    let mut number: u64 = 0;
    while let Some(_entry) = walk.next() {
        number = number.saturating_add(1);
    }
    number
}
