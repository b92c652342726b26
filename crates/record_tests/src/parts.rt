//! What no contract and no conformance row says: which fields have a text, what number a field has, copies, the fronts
//! of texts.

use lis_record::{Delimiters, Kind, Record, read_record};
use lis_record_values::{Component, Repeat};
use std::alloc::Global;
use std::mem::drop;
use std::process::Abort;

/// A record whose field 2 is one component of characters alone, as none of its other fields is.
const FIELDS: &[u8] = b"C|Smith &E& Sons|a\\b|a^b|a&X41&|&H&a";

/// Whether the field of a number has this text, or none.
fn has_text(
    rt: &impl Abort,
    alloc: Global,
    record: &Record,
    number: usize,
    want: Option<&[u8]>,
) -> bool {
    let field = record.field(number).expect(rt, "a field");
    let text = field.to_text(alloc).expect(rt, "memory");
    let is_wanted = match (&text, want) {
        (Some(text), Some(want)) => text.as_slice() == want,
        (None, None) => true,
        _ => false,
    };
    drop(text);
    is_wanted
}

#[test]
fn a_field_of_characters_alone_has_a_text(rt: HostRuntime) {
    let record = read_record(rt.alloc(), &Delimiters::usual(), FIELDS).expect(&rt, "a record");
    assert!(rt; has_text(&rt, rt.alloc(), &record, 2, Some(b"Smith & Sons")));
    for number in 3..=6 {
        assert!(rt; has_text(&rt, rt.alloc(), &record, number, None));
    }
    drop(record);
}

/// Fails where a record of one field has it under another number.
fn assert_number(rt: &impl Abort, alloc: Global, kind: Kind, want: usize) {
    let record = Record::from_texts(alloc, kind, &[b"1".as_slice()]).expect(rt, "a record");
    for number in 0..=4 {
        assert!(rt; record.field(number).is_some() == (number == want));
    }
    drop(record);
}

#[test]
fn the_letter_is_field_one(rt: HostRuntime) {
    assert_number(&rt, rt.alloc(), Kind::P, 2);
    // Field 2 of a header are its delimiters.
    assert_number(&rt, rt.alloc(), Kind::H, 3);
}

#[test]
fn a_copied_record_is_the_same(rt: HostRuntime) {
    let record = read_record(rt.alloc(), &Delimiters::usual(), FIELDS).expect(&rt, "a record");
    let copy = record.copy(rt.alloc()).expect(&rt, "a copy");
    let is_same = copy == record;
    drop(copy);
    drop(record);
    assert!(rt; is_same);
}

#[test]
fn a_front_is_no_longer_than_its_text(rt: HostRuntime) {
    let text = b"ABCDEFGHIJKLMNOPQ";
    for (length, count, want) in [
        (3, 20, 3),
        (15, 15, 15),
        (15, 16, 15),
        (16, 15, 15),
        (17, 16, 16),
    ] {
        let (front, _) = text.as_slice().split_at(length);
        let component = Component::from_front(rt.alloc(), front, count).expect(&rt, "memory");
        assert!(rt; component.len() == want);
        drop(component);
    }
}

#[test]
fn a_repeat_has_its_first_component(rt: HostRuntime) {
    for count in 0..=2 {
        let component = Component::new(rt.alloc());
        let repeat = Repeat::with_capacity(rt.alloc(), component, count).expect(&rt, "memory");
        assert!(rt; repeat.len() == 1);
        drop(repeat);
    }
}
