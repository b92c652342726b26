//! What no contract and no conformance row says: the parts of a record that is in a text, by their places and one
//! after another.

use lis_record::{
    BorrowedComponent, BorrowedFields, BorrowedRecord, Delimiters, Sym, borrow_header,
    borrow_record,
};
use std::alloc::Global;
use std::mem::drop;
use std::process::Abort;

/// The record that a text is.
fn borrowed<'a>(rt: &impl Abort, text: &'a [u8]) -> BorrowedRecord<'a> {
    borrow_record(&Delimiters::usual(), text).expect(rt, "a record")
}

/// Fails where a component isn't one of this character.
fn assert_letter(rt: &impl Abort, component: Option<BorrowedComponent<'_>>, letter: u8) {
    let mut symbols = component.expect(rt, "a component").symbols();
    assert!(rt; symbols.next() == Some(Sym::Char(letter)));
    assert!(rt; symbols.next().is_none());
}

#[test]
fn parts_are_borrowed_by_their_places(rt: HostRuntime) {
    let field = borrowed(&rt, b"C|a\\b^c|d").field(2).expect(&rt, "a field");
    assert!(rt; field.len() == 2 && field.repeat(2).is_none());
    let first = field.repeat(0).expect(&rt, "a repeat");
    assert!(rt; first.len() == 1);
    assert_letter(&rt, first.component(0), b'a');
    let second = field.repeat(1).expect(&rt, "a repeat");
    assert!(rt; second.len() == 2 && second.component(2).is_none());
    assert_letter(&rt, second.component(0), b'b');
    assert_letter(&rt, second.component(1), b'c');
}

#[test]
fn the_fields_of_a_borrowed_record_are_counted(rt: HostRuntime) {
    assert!(rt; borrowed(&rt, b"L").len() == 0);
    assert!(rt; borrowed(&rt, b"L|").len() == 1);
    assert!(rt; borrowed(&rt, b"L|1|N").len() == 2);
    let header = borrow_header(b"H!;:%!a!b").expect(&rt, "a header");
    assert!(rt; header.len() == 2 && header.field(2).is_none() && header.field(3).is_some());
}

#[test]
fn a_first_field_of_one_digit_is_reported(rt: HostRuntime) {
    for (text, want) in [
        (b"P|0|".as_slice(), Some(b'0')),
        (b"P|9|x", Some(b'9')),
        (b"P|1", None),
        (b"P|12|", None),
        (b"P|:|", None),
    ] {
        assert!(rt; borrowed(&rt, text).first_digit() == want);
    }
}

/// Fails where the next field is encoded otherwise.
fn assert_next(rt: &impl Abort, alloc: Global, fields: &mut BorrowedFields<'_>, want: &[u8]) {
    let mut text = Vec::new(alloc);
    let field = fields.next().expect(rt, "a field");
    assert!(rt; field.add_to(&mut text).is_ok());
    assert!(rt; text.as_slice() == want);
    drop(text);
}

#[test]
fn fields_are_taken_one_after_another(rt: HostRuntime) {
    let mut fields = borrowed(&rt, b"R|1|^^^GLU|5.4||mmol/L").fields();
    let mut added = Vec::new(rt.alloc());
    assert_next(&rt, rt.alloc(), &mut fields, b"1");
    assert!(rt; fields.add_next(5, &mut added) == Ok(false));
    assert!(rt; fields.add_next(2, &mut added) == Ok(true));
    assert!(rt; added.as_slice() == b"|^^^GLU|5.4".as_slice());
    drop(added);
    assert_next(&rt, rt.alloc(), &mut fields, b"");
    assert_next(&rt, rt.alloc(), &mut fields, b"mmol/L");
    assert!(rt; fields.next().is_none());
}
