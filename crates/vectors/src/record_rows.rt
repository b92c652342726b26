//! Calls on delimiters, headers and records.

use crate::answer::Answer;
use crate::encoding::{delimiters_of, put_delimiters, put_record, read_delimiters, record_of};
use crate::narrow::narrow_of;
use crate::words::Call;
use crate::writing_rows::Writing;
use lis_record::{DelimiterFault, DelimiterPartFault, RecordFault, read_header, read_record};
use std::mem::drop;

/// Answers a call on records.
pub(crate) fn record_call(call: Call<'_>, answer: &mut Answer) {
    match call.name {
        "delimiters" => delimiters(call, answer),
        "header" => header(call, answer),
        "read" => read(call, answer),
        _ => write(call, answer),
    }
}

/// Answers whether bytes are delimiters.
fn delimiters(call: Call<'_>, answer: &mut Answer) {
    match read_delimiters(call.word(0, answer), answer) {
        Some(Ok(delimiters)) => put_delimiters(delimiters, answer),
        Some(Err(fault)) => {
            answer.word("fault ");
            put_delimiter_fault(fault, answer);
        }
        None => answer.no_call(),
    }
}

/// Answers what a header's text is.
fn header(call: Call<'_>, answer: &mut Answer) {
    let text = call.bytes(0, answer);
    match read_header(answer.alloc, text.as_slice()) {
        Ok((delimiters, entry)) => {
            put_delimiters(delimiters, answer);
            answer.part();
            put_record(&entry, answer);
            drop(entry);
        }
        Err(fault) => put_refusal(fault, answer),
    }
    drop(text);
}

/// Answers what a record's text is.
fn read(call: Call<'_>, answer: &mut Answer) {
    let Some(delimiters) = delimiters_of(call.word(0, answer), answer) else {
        return;
    };
    let text = call.bytes(1, answer);
    match read_record(answer.alloc, &delimiters, text.as_slice()) {
        Ok(entry) => {
            put_record(&entry, answer);
            drop(entry);
        }
        Err(fault) => put_refusal(fault, answer),
    }
    drop(text);
}

/// Answers a call that writes a record, whole and in part, or each of its fields.
fn write(call: Call<'_>, answer: &mut Answer) {
    let Some(writing) = writing_of(call, answer) else {
        return;
    };
    match call.name {
        "write" => writing.whole_and_part(call.number(4, answer), answer),
        "write_field" => writing.fields(true, answer),
        "put_field" => writing.fields(false, answer),
        _ => answer.no_call(),
    }
    drop(writing);
}

/// The record that is to be written, its delimiters and the sink.
fn writing_of(call: Call<'_>, answer: &mut Answer) -> Option<Writing> {
    Some(Writing {
        delimiters: delimiters_of(call.word(0, answer), answer)?,
        narrow: narrow_of(call, 2, answer)?,
        entry: record_of(call.word(1, answer), answer)?,
    })
}

/// Puts that a text is no record, and why.
fn put_refusal(fault: RecordFault, answer: &mut Answer) {
    answer.word("fault ");
    put_record_fault(fault, answer)
}

/// Puts why bytes are no delimiters.
fn put_delimiter_fault(fault: DelimiterFault, answer: &mut Answer) {
    match fault {
        DelimiterFault::NotPunctuation(place) => answer.number("NotPunctuation.", place as u64),
        DelimiterFault::Repeated(place) => answer.number("Repeated.", place as u64),
    }
}

/// Puts why a text is no record.
pub(crate) fn put_record_fault(fault: RecordFault, answer: &mut Answer) {
    match fault {
        RecordFault::Empty => answer.text("Empty"),
        RecordFault::UnknownKind(byte) => answer.byte("UnknownKind.", byte),
        RecordFault::DelimiterPart(DelimiterPartFault::Short) => answer.text("Delimiters.Short"),
        RecordFault::DelimiterPart(DelimiterPartFault::Fault(fault)) => {
            answer.text("Delimiters.");
            put_delimiter_fault(fault, answer)
        }
        RecordFault::DelimiterPart(DelimiterPartFault::Trailing(byte)) => {
            answer.byte("Delimiters.Trailing.", byte)
        }
        RecordFault::Byte(place) => answer.number("Byte.", place as u64),
        RecordFault::TooLong => answer.text("TooLong"),
        RecordFault::OutOfMemory => answer.text("OutOfMemory"),
    }
}
