//! Calls that take no memory, on values that have an allocator, and values that are made with memory for so many
//! parts. The tests are a pair: one makes the values, the other makes the calls on them too, or puts the parts into
//! them. `tests/faults` counts the growths of memory of both, those of memory that is released at once among them:
//! they must be as many.

use lis_message::{
    Fed, Message, MessageReader, RecordFound, RecordReader, read_messages, write_message,
};
use lis_message_table::MessageTable;
use lis_port::Discard;
use lis_record_values::*;
use std::alloc::Global;
use std::mem::drop;
use std::process::Abort;

const MESSAGE: &[u8] = b"H|\\^&\rP|1\rO|1|S7\rR|1|^^^GLU|5.4\rC|1|I|fasting\rL|1|N\r";

/// A reader of messages that holds a record, one that met a fault, and a new one.
fn a_reader(rt: &impl Abort, alloc: Global, asked: bool) {
    let mut reader = MessageReader::new(alloc);
    assert!(rt; reader.feed(b"H|\\^&\rP|1\rC|1|un").fault.is_none());
    let mut failed = MessageReader::new(alloc);
    assert!(rt; failed.feed(b"H|\\^&\rx\r").fault.is_some());
    if asked {
        assert!(rt; reader.held() == 6 && failed.held() == 0);
        assert!(rt; failed.feed(b"L|1\r").fault.is_some());
        assert!(rt; reader.finish().is_err());
        assert!(rt; failed.finish().is_err());
        drop(MessageReader::new(alloc));
    } else {
        drop(reader);
        drop(failed);
    }
}

/// Reads a piece to its end, and counts its records.
fn records_in(reader: &mut RecordReader, piece: &[u8]) -> u64 {
    let mut rest = piece;
    let mut count: u64 = 0;
    for _turn in 0..=piece.len() {
        let (following, found) = reader.read(rest);
        match found {
            RecordFound::Nothing | RecordFound::Refused(_) => return count,
            RecordFound::Record(_) | RecordFound::Held => count = count.saturating_add(1),
        }
        rest = following;
    }
    count
}

/// A reader of records that holds the bytes of one, and a new one, which reads records that are whole in a piece.
fn some_records(rt: &impl Abort, alloc: Global, asked: bool) {
    let mut reader = RecordReader::new(alloc);
    assert!(rt; records_in(&mut reader, b"H|\\^&\rP|1\rO|1|") == 2);
    if asked {
        assert!(rt; reader.read_whole(b"S7\r").is_none());
        assert!(rt; reader.held() == 4 && reader.next_place() == 3 && reader.finish().is_err());
        assert!(rt; reader.split().is_none());
        let mut whole = RecordReader::new(alloc);
        assert!(rt; whole.read_whole(MESSAGE).is_some());
        drop(whole);
        let mut other = RecordReader::new(alloc);
        assert!(rt; records_in(&mut other, MESSAGE) == 6 && other.finish().is_ok());
        drop(other);
    }
    drop(reader);
}

/// A message is written, and its results are gone over.
fn ask_message(rt: &impl Abort, message: &Message) {
    let mut sink = Discard;
    assert!(rt; write_message(&mut sink, message).is_ok());
    assert!(rt; message.len() == 6 && message.groups().len() == 1 && message.notes().is_empty());
    let mut count: u64 = 0;
    for _result in message.results() {
        count = count.saturating_add(1);
    }
    assert!(rt; count == 1);
}

fn a_message(rt: &impl Abort, alloc: Global, asked: bool) {
    let Fed { messages, fault } = read_messages(alloc, MESSAGE);
    assert!(rt; fault.is_none() && messages.len() == 1);
    if asked && let Some(message) = messages.get(0) {
        ask_message(rt, message);
    }
    drop(messages);
}

/// A table with memory for the records of a message.
fn a_table(rt: &impl Abort, alloc: Global, asked: bool) {
    let mut table = MessageTable::new(alloc);
    assert!(rt; table.reserve(6).is_ok());
    if asked {
        assert!(rt; table.read(MESSAGE) == Ok(Some(b"")) && table.read(b"H|\\^&\rP|1|un").is_err());
        assert!(rt; table.read(MESSAGE).is_ok() && table.record(5).is_some());
        assert!(rt; table.put_parts(3, &mut []) == Some(6));
        drop(table.cleared());
    } else {
        drop(table);
    }
}

/// A component with memory for so many symbols.
fn a_component(rt: &impl Abort, alloc: Global, filled: bool) {
    let mut component = Component::with_capacity(alloc, 40).expect(rt, "memory");
    if filled {
        for byte in 0..40u8 {
            assert!(rt; component.push(Sym::Raw(byte)).is_ok());
        }
    }
    drop(component);
}

/// A repeat of one letter. It takes no memory.
fn repeat_of(rt: &impl Abort, alloc: Global, letter: u8) -> Repeat {
    let component = Component::from_text(alloc, &[letter]).expect(rt, "memory");
    Repeat::new(alloc, component).expect(rt, "memory")
}

/// A field with memory for so many repeats.
fn a_field(rt: &impl Abort, alloc: Global, filled: bool) {
    let first = repeat_of(rt, alloc, b'A');
    let mut field = Field::with_capacity(alloc, first, 9).expect(rt, "memory");
    if filled {
        for letter in b'B'..=b'I' {
            assert!(rt; field.push(repeat_of(rt, alloc, letter)).is_ok());
        }
    }
    drop(field);
}

/// A record with memory for so many fields.
fn a_record(rt: &impl Abort, alloc: Global, filled: bool) {
    let mut record = Record::with_capacity(alloc, Kind::C, 9).expect(rt, "memory");
    if filled {
        for letter in b'A'..=b'I' {
            let field = Field::new(alloc, repeat_of(rt, alloc, letter)).expect(rt, "memory");
            assert!(rt; record.push(field).is_ok());
        }
    }
    drop(record);
}

/// Makes all of these values, and the calls on them where they are asked.
fn all_values(rt: &impl Abort, alloc: Global, asked: bool) {
    a_reader(rt, alloc, asked);
    some_records(rt, alloc, asked);
    a_message(rt, alloc, asked);
    a_table(rt, alloc, asked);
    a_component(rt, alloc, asked);
    a_field(rt, alloc, asked);
    a_record(rt, alloc, asked);
}

#[test]
fn all_values_given(rt: HostRuntime) {
    all_values(&rt, rt.alloc(), false);
}

#[test]
fn all_values_asked(rt: HostRuntime) {
    all_values(&rt, rt.alloc(), true);
}
