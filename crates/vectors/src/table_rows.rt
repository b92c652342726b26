//! Messages as tables, next to the trees of the rows. Both say the same.

use crate::answer::Answer;
use crate::encoding::{put_delimiters, put_record};
use crate::message_parts::{put_fault, put_findings, put_read};
use lis_message::{Fed, Kind, Message, MessageFault};
use lis_message_table::{MessageTable, RecordPlace};
use std::mem::drop;

/// Puts what the tables of a record text say, where its trees say something else.
pub(crate) fn put_others(bytes: &[u8], fed: &Fed, answer: &mut Answer) {
    let mut trees = Answer::new(answer.alloc);
    for message in fed.messages.as_slice() {
        put_read(message, &mut trees);
        put_results(message, &mut trees);
    }
    put_end(fed.fault, &mut trees);
    let mut tables = Answer::new(answer.alloc);
    put_tables(bytes, &mut tables);
    if trees.line() != tables.line() {
        answer.text(" tables: ");
        answer.answer(&tables);
    }
    drop(trees);
    drop(tables);
}

/// Puts how the reading ended.
fn put_end(fault: Option<MessageFault>, answer: &mut Answer) {
    answer.word("fault=");
    put_fault(fault, answer);
}

/// Puts what the tables of a record text say.
fn put_tables(bytes: &[u8], answer: &mut Answer) {
    let mut table = MessageTable::new(answer.alloc);
    let mut rest = bytes;
    for _ in 0..=bytes.len() {
        match table.read(rest) {
            Ok(Some(following)) => rest = following,
            Ok(None) => {
                put_end(None, answer);
                break;
            }
            Err(fault) => {
                put_end(Some(fault), answer);
                break;
            }
        }
        put_table(&table, answer);
    }
    drop(table);
}

/// Puts what a table says of its message.
fn put_table(table: &MessageTable<'_>, answer: &mut Answer) {
    let places = table.places();
    answer.word("message delimiters=");
    put_delimiters(table.delimiters(), answer);
    answer.number(" records=", places.len() as u64);
    answer.text(" tree=");
    let mut head = 0;
    for (index, place) in places.iter().enumerate() {
        head = put_place(places, *place, index, head, answer);
        put_indexed(table, index, answer);
    }
    answer.text(" findings=");
    put_findings(table.findings(answer.alloc), answer);
    put_table_results(table, answer);
}

/// Puts the record of an index.
fn put_indexed(table: &MessageTable<'_>, index: usize, answer: &mut Answer) {
    if let Some(entry) = table.record(index) {
        let made = entry.to_record(answer.alloc);
        if let Some(record) = answer.made(made) {
            put_record(&record, answer);
            drop(record);
        }
    }
}

/// Puts the results of a message, each after its patient and its order.
fn put_results(message: &Message, answer: &mut Answer) {
    for found in message.results() {
        answer.word("patient=");
        put_record(found.patient.head(), answer);
        answer.word("order=");
        put_record(found.order.head(), answer);
        answer.word("result=");
        put_record(found.entry.head(), answer);
    }
}

/// Puts those of a table.
fn put_table_results(table: &MessageTable<'_>, answer: &mut Answer) {
    for index in 0..table.places().len() {
        if let Some(found) = table.result(index) {
            answer.word("patient=");
            put_indexed(table, found.patient, answer);
            answer.word("order=");
            put_indexed(table, found.order, answer);
            answer.word("result=");
            put_indexed(table, found.entry, answer);
        }
    }
}

/// Puts what comes before a record, and answers the index of the last record that is no note: `*` before a note, and
/// brackets round each record that is under another.
fn put_place(
    places: &[RecordPlace],
    place: RecordPlace,
    index: usize,
    head: usize,
    answer: &mut Answer,
) -> usize {
    match place.kind {
        Kind::H => index,
        Kind::C | Kind::M | Kind::S => {
            answer.text("*");
            head
        }
        Kind::P | Kind::O | Kind::R | Kind::Q | Kind::L => {
            put_ends(places, place.parent, head, answer);
            if place.kind != Kind::L {
                answer.text("[");
            }
            index
        }
    }
}

/// Puts the ends of the records from the last one up to the one below a parent.
fn put_ends(places: &[RecordPlace], parent: usize, head: usize, answer: &mut Answer) {
    let mut last = head;
    for _ in 0..places.len() {
        if last == parent {
            return;
        }
        answer.text("]");
        let Some(place) = places.get(last) else {
            return;
        };
        last = place.parent;
    }
}
