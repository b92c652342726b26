//! The table of a message's records (LIS02-A2).

ghost use Rattle.std.specs.Prelude.{◌≡◌, ◌≤◌, ◌++◌, [], IfErr, IfNone, IfOk, IfSome, OnOk, OnErr, Some, None};
ghost use Rattle.std.specs.Prelude.{drop, length, option_map, slice_get, take};
ghost use Rattle.std.specs.Option.{option_copied, option_to_list};
ghost use Rattle.lis_tree.specs.Findings.{findings_of};
ghost use Rattle.lis_tree.specs.Tree.{MessageTree};
ghost use Rattle.lis_message.specs.Feeding.{ReadsWhole};
ghost use Rattle.lis_message_table.specs.Results.{parent_at, result_indexes};
ghost use Rattle.lis_message_table.specs.Table.{BeginsWith, IsClear, IsTableOf, IsTextFault, IsWithin, parts_at};
ghost use Rattle.lis_message_table.specs.Table.{record_at, text_at};

use crate::places::{RecordPlace, ResultIndexes};
use crate::reading::read_records;
use lis_message::{Fed, Message, read_messages};
use lis_record::BorrowedRecord;
use lis_record_values::{Delimiters, Kind, MessageFault};
use lis_table::{LisPart, put_places};
use lis_tree::{Finding, Findings, Numbering};
use std::alloc::{AllocError, Global};
use std::marker::Model;
use std::mem::drop;

/// A message as places in its text. One table is read again and again, and keeps its memory for the next message.
#[derive(Drop)]
pub struct MessageTable<'a> {
    alloc: Global,
    delimiters: Delimiters,
    text: &'a [u8],
    places: Vec<RecordPlace>,
}

impl<'a> Model for MessageTable<'a> {
    ghost use Rattle.std.specs.Prelude.{length, vec_capacity};
    ghost use Rattle.std.specs.List.{AllByRecursion};
    ghost use Rattle.lis_message_table.specs.Table.{IsWithin, Table};

    ghost Value = { Table };

    ghost view = { λ t. record {
      delimiters = t.delimiters;
      text = t.text.now;
      places = t.places.items;
      room = vec_capacity t.places;
    } };

    ghost invariant = { λ t. AllByRecursion (IsWithin (length t.text.now)) t.places.items };
}

/// Adds the finding, if there is one.
fn add(found: &mut Findings, finding: Option<Finding>) -> Result<(), AllocError>
    ensures { OnOk result (found.new ≡ found.old ++ option_to_list finding) }
{
    if let Some(finding) = finding {
        found.push(finding)?;
    }
    Ok(())
}

impl<'a> MessageTable<'a> {
    /// A table of no message. It takes no memory yet.
    pub fn new(alloc: Global) -> Self
        ensures { IsClear result }
    {
        MessageTable {
            alloc,
            delimiters: Delimiters::usual(),
            text: &[],
            places: Vec::new(alloc),
        }
    }

    /// Takes memory for a message of so many records. If memory runs out, the table is as before.
    pub fn reserve(&mut self, count: usize) -> Result<(), AllocError>
        ensures ok { OnOk result (count ≤ self.new.room) }
        ensures same { self.new ≡ record self.old { room = self.new.room } }
        ensures err { OnErr result (self.new ≡ self.old) }
    {
        self.places.reserve(count)
    }

    /// Reads the message that a text begins with, and answers the bytes after it; none where the text is empty. The
    /// table is then that of the message.
    ///
    /// A fault is what reading the text as messages ends with, before any message: that of the first record that can't
    /// come next, or `Unfinished`. Memory runs out only where the message has more records than the table has memory
    /// for. After a fault, or where there is no text, it is a table of no message.
    pub fn read(&mut self, text: &'a [u8]) -> Result<Option<&'a [u8]>, MessageFault>
        ensures some { IfOk result (λ next. IfSome next (λ following. BeginsWith text.now self.new following.now)) }
        ensures none { IfOk result (λ next. IfNone next ((text.now ≡ []) × IsClear self.new)) }
        ensures err { IfErr result (λ fault. ReadsWhole text.now [] (Some fault) × IsClear self.new) }
        // Memory doesn't lack for a record that there was room for.
        ensures memory { IfErr result (λ fault. fault.place ≤ self.old.room → IsTextFault text.now fault) }
        ensures room { self.old.room ≤ self.new.room }
    {
        self.clear();
        if text.is_empty() {
            return Ok(None);
        }
        match read_records(self.alloc, &mut self.places, text) {
            Ok(found) => {
                let (message, _) = text.split_at(text.len() - found.1.len());
                self.delimiters = found.0;
                self.text = message;
                Ok(Some(found.1))
            }
            Err(fault) => {
                self.places.clear();
                Err(fault)
            }
        }
    }

    /// Makes it a table of no message.
    fn clear(&mut self)
        ensures clear { IsClear self.new }
        ensures room { self.old.room ≤ self.new.room }
    {
        self.places.clear();
        self.text = &[];
    }

    /// A table of no message with the memory of this one, which may be read from other texts.
    pub fn cleared<'b>(self) -> MessageTable<'b>
        ensures clear { IsClear result }
        ensures room { self.entry.room ≤ result.room }
    {
        let MessageTable {
            alloc,
            mut places,
            ..
        } = self;
        places.clear();
        MessageTable {
            alloc,
            delimiters: Delimiters::usual(),
            text: &[],
            places,
        }
    }

    /// The delimiters that the message is read under.
    pub fn delimiters(&self) -> Delimiters
        ensures { result ≡ self.now.delimiters }
    {
        self.delimiters
    }

    /// The message's text, with the CR of each record.
    pub fn bytes(&self) -> &'a [u8]
        ensures { result.now ≡ self.now.text }
    {
        self.text
    }

    /// The places of all records, from the header's on.
    pub fn places(&self) -> &[RecordPlace]
        ensures { result.now ≡ self.now.places }
    {
        self.places.as_slice()
    }

    /// The text of the record of an index, without its CR.
    #[inline]
    pub fn text(&self, index: usize) -> Option<&'a [u8]>
        ensures { option_copied result ≡ option_map (text_at self.now.text) (slice_get self.now.places index) }
    {
        let Some(place) = self.places.get(index) else {
            return None;
        };
        Some(self.text_of(place))
    }

    /// The bytes at a place.
    #[inline(always)]
    fn text_of(&self, place: &RecordPlace) -> &'a [u8]
        requires { IsWithin (length self.now.text) place.now }
        ensures { result.now ≡ text_at self.now.text place.now }
    {
        let (_, from) = self.text.split_at(place.start);
        let (text, _) = from.split_at(place.len as usize);
        text
    }

    /// The record of an index. Nothing of its text is tested again.
    #[inline]
    pub fn record(&self, index: usize) -> Option<BorrowedRecord<'a>>
        ensures { result ≡ option_map (record_at self.now) (slice_get self.now.places index) }
    {
        let Some(place) = self.places.get(index) else {
            return None;
        };
        let text = self.text_of(place);
        Some(BorrowedRecord::in_text(self.delimiters, place.kind, text))
    }

    /// Puts the places of all components of the record of an index to the front of a list, in the text's order and as
    /// far as it has room, and answers how many there are; none where there is no such record. Offsets are those in the
    /// record's text.
    #[inline]
    pub fn put_parts(&self, index: usize, out: &mut [LisPart]) -> Option<usize>
        ensures count { result ≡ option_map (λ p. length (parts_at self.now p)) (slice_get self.now.places index) }
        ensures put { IfSome (slice_get self.now.places index) (λ p. out.new
            ≡ take (length out.old) (parts_at self.now p) ++ drop (length (parts_at self.now p)) out.old) }
        ensures none { IfNone result (out.new ≡ out.old) }
    {
        let Some(place) = self.places.get(index) else {
            return None;
        };
        let text = self.text_of(place);
        Some(put_places(self.delimiters, place.kind, text, out))
    }

    /// The result whose record has this index, with the order and the patient that it belongs to; none where the record
    /// of the index is no result.
    pub fn result(&self, index: usize) -> Option<ResultIndexes>
        ensures { result ≡ result_indexes self.now.places index }
    {
        let Some(place) = self.places.get(index) else {
            return None;
        };
        if place.kind != Kind::R {
            return None;
        }
        Some(ResultIndexes {
            patient: self.parent(place.parent),
            order: place.parent,
            entry: index,
        })
    }

    /// The index of the record that the record of an index is under; 0 where there is no such record.
    fn parent(&self, index: usize) -> usize
        ensures { result ≡ parent_at self.now.places index }
    {
        match self.places.get(index) {
            Some(place) => place.parent,
            None => 0,
        }
    }

    /// The message as a tree; none where the table is that of no message.
    pub fn to_message(&self, alloc: Global) -> Result<Option<Message>, AllocError>
        ensures tree { (m : MessageTree) → IsTableOf self.now m → IfOk result (λ made. made ≡ Some m) }
        ensures clear { IsClear self.now → IfOk result (λ made. made ≡ None) }
    {
        let Fed { messages, fault } = read_messages(alloc, self.text);
        if fault.is_some() {
            drop(messages);
            return Err(AllocError);
        }
        let mut messages = messages.into_vec();
        let message = messages.pop();
        drop(messages);
        Ok(message)
    }

    /// The records whose second field isn't the expected number, as `findings` of the tree has them.
    pub fn findings(&self, alloc: Global) -> Result<Findings, AllocError>
        ensures { (m : MessageTree) → IsTableOf self.now m → IfOk result (λ found. found ≡ findings_of m) }
    {
        let mut found = Findings::new(alloc);
        let mut numbering = Numbering::new();
        for index in 0..self.places.len() {
            let Some(entry) = self.record(index) else {
                unreachable!()
            };
            add(&mut found, numbering.take(&entry))?;
        }
        Ok(found)
    }
}
