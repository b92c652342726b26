//! Messages and their faults in the rows.

use crate::answer::Answer;
use crate::encoding::{put_delimiters, put_kind, put_record};
use crate::narrow::WIDE;
use crate::record_rows::put_record_fault;
use crate::writing_rows::{put_write_fault, put_wrote};
use lis_message::{
    Group, Message, MessageFault, MessageWriteFault, Order, Patient, Reason, Record, Records,
    write_message,
};
use lis_message_texts::{TextsFault, message_texts};
use lis_port::Slow;
use lis_tree::{Finding, Findings, findings};
use std::alloc::AllocError;
use std::mem::drop;

/// Puts a message: its delimiters, the number of its records, its tree, its findings, its texts, and what is written.
pub(crate) fn put_message(message: &Message, answer: &mut Answer) {
    put_read(message, answer);
    answer.text(" texts=");
    put_texts(message, answer);
    answer.text(" written=");
    put_written(message, answer);
}

/// Puts what is read of a message: its delimiters, the number of its records, its tree and its findings.
pub(crate) fn put_read(message: &Message, answer: &mut Answer) {
    answer.word("message delimiters=");
    put_delimiters(message.delimiters(), answer);
    answer.number(" records=", message.len());
    answer.text(" tree=");
    put_tree(message, answer);
    answer.text(" findings=");
    put_findings(findings(answer.alloc, message), answer);
}

/// Puts the texts of a message's records, or why it has none.
fn put_texts(message: &Message, answer: &mut Answer) {
    match message_texts(answer.alloc, message) {
        Ok(texts) => {
            answer.texts("", texts.as_slice());
            drop(texts);
        }
        Err(fault) => {
            answer.text("refused:");
            put_texts_fault(fault, answer);
        }
    }
}

/// Puts what a wide sink takes of a message.
fn put_written(message: &Message, answer: &mut Answer) {
    let mut sink = Slow::new(WIDE, WIDE);
    let wrote = write_message(&mut sink, message);
    put_message_wrote(wrote, sink.took(), answer);
    drop(sink);
}

/// Puts the findings of a message.
pub(crate) fn put_findings(found: Result<Findings, AllocError>, answer: &mut Answer) {
    if let Some(found) = answer.made(found) {
        put_each_finding(found.as_slice(), answer);
        drop(found);
    }
}

/// Puts findings, `none` where there are none.
fn put_each_finding(found: &[Finding], answer: &mut Answer) {
    if found.is_empty() {
        answer.text("none");
    }
    let mut between = "";
    for finding in found {
        answer.number(between, finding.place);
        answer.text(".");
        put_kind(finding.kind, answer);
        answer.number(".", finding.expected);
        between = ",";
    }
}

/// Puts a tree: `*` before each note, brackets round each patient, query, order and result.
fn put_tree(message: &Message, answer: &mut Answer) {
    put_with_notes(message.header(), message.notes(), answer);
    for group in message.groups() {
        answer.text("[");
        match group {
            Group::Patient(patient) => put_patient(patient, answer),
            Group::Query(query) => put_with_notes(query.head(), query.notes(), answer),
        }
        answer.text("]");
    }
    put_record(message.closing(), answer)
}

/// Puts a patient with its notes and orders.
fn put_patient(patient: &Patient, answer: &mut Answer) {
    put_with_notes(patient.head(), patient.notes(), answer);
    for order in patient.orders() {
        answer.text("[");
        put_order(order, answer);
        answer.text("]");
    }
}

/// Puts an order with its notes and results.
fn put_order(order: &Order, answer: &mut Answer) {
    put_with_notes(order.head(), order.notes(), answer);
    for entry in order.results() {
        answer.text("[");
        put_with_notes(entry.head(), entry.notes(), answer);
        answer.text("]");
    }
}

/// Puts a record and its notes.
fn put_with_notes(head: &Record, notes: &Records, answer: &mut Answer) {
    put_record(head, answer);
    for note in notes.as_slice() {
        answer.text("*");
        put_record(note, answer);
    }
}

/// Puts a fault, or that there is none.
pub(crate) fn put_fault(fault: Option<MessageFault>, answer: &mut Answer) {
    match fault {
        None => answer.text("none"),
        Some(fault) => put_place_fault(fault, answer),
    }
}

/// Puts a fault: the place of its record, and the reason.
pub(crate) fn put_place_fault(fault: MessageFault, answer: &mut Answer) {
    answer.number("", fault.place);
    match fault.reason {
        Reason::BadRecord(fault) => {
            answer.text(".BadRecord.");
            put_record_fault(fault, answer)
        }
        Reason::NotHeader => answer.text(".NotHeader"),
        Reason::NoParent(kind) => {
            answer.text(".NoParent.");
            put_kind(kind, answer)
        }
        Reason::SecondHeader => answer.text(".SecondHeader"),
        Reason::Unfinished => answer.text(".Unfinished"),
        Reason::RecordTooLong => answer.text(".RecordTooLong"),
        Reason::OutOfMemory => answer.text(".OutOfMemory"),
    }
}

/// Puts why a message has no texts.
fn put_texts_fault(fault: TextsFault, answer: &mut Answer) {
    match fault {
        TextsFault::BadRecord { place, fault } => {
            answer.number("", place);
            answer.text(".");
            put_write_fault(fault, answer)
        }
        TextsFault::TooMany => answer.text("TooMany"),
        TextsFault::OutOfMemory => answer.text("OutOfMemory"),
    }
}

/// Puts how the writing of a message ended, and what the sink took.
pub(crate) fn put_message_wrote(
    wrote: Result<(), MessageWriteFault>,
    took: &[u8],
    answer: &mut Answer,
) {
    match wrote {
        Ok(()) => put_wrote(Ok(()), took, answer),
        Err(MessageWriteFault { place, fault }) => {
            answer.number("", place);
            answer.text(".");
            put_wrote(Err(fault), took, answer)
        }
    }
}
