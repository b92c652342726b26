//! What no contract and no conformance row says: a field that is put from where it is, a field's encoding in pieces,
//! and how long a record is.

use lis_port::{Discard, Slow};
use lis_record::{
    Delimiters, FieldEncoding, Kind, RECORD_LIMIT, Record, borrow_record, encoded_length, put_field,
};
use lis_record_values::Field;
use std::mem::drop;
use std::process::Abort;

/// Fails where a field of a record's text is put otherwise.
fn assert_put(rt: &impl Abort, text: &[u8], number: usize, want: &[u8]) {
    let record = borrow_record(&Delimiters::usual(), text).expect(rt, "a record");
    let field = record.field(number).expect(rt, "a field");
    let mut sink = Slow::new(100, 1);
    assert!(rt; field.put(&mut sink).is_ok());
    assert!(rt; sink.took() == want);
    drop(sink);
}

#[test]
fn a_borrowed_field_is_put_as_it_is_encoded(rt: HostRuntime) {
    assert_put(&rt, b"C|a\\b^c||", 2, b"a\\b^c");
    assert_put(&rt, b"C|a||", 3, b"");
    assert_put(&rt, b"C|Smith & Sons", 2, b"Smith &E& Sons");
    assert_put(&rt, b"C|&X0D0a&", 2, b"&X0d&&X0a&");
    assert_put(&rt, b"C|&H&N&", 2, b"&H&N&E&");
    assert_put(&rt, b"C|a\\&b^c&\\", 2, b"a\\&E&b^c&E&\\");
    let marks = b"C|x|&N&a&F&b&S&c&R&d&E&|y";
    assert_put(&rt, marks, 3, b"&N&a&F&b&S&c&R&d&E&");
}

#[test]
fn the_length_of_an_encoding_is_reported(rt: HostRuntime) {
    let texts = [b"1".as_slice(), b"", b"Smith & Sons", b"a|b\\c^d"];
    // P|1||Smith &E& Sons|a&F&b&R&c&S&d
    let record = Record::from_texts(rt.alloc(), Kind::P, &texts).expect(&rt, "a record");
    let length = encoded_length(&Delimiters::usual(), &record);
    drop(record);
    assert!(rt; length == 33);
}

#[test]
fn a_field_longer_than_a_record_is_put_and_counted(rt: HostRuntime) {
    let text = [b'a'; 2 * RECORD_LIMIT];
    let field = Field::from_text(rt.alloc(), &text).expect(&rt, "a field");
    assert!(rt; put_field(&mut Discard, &Delimiters::usual(), &field).is_ok());
    drop(field);
    let record = Record::from_texts(rt.alloc(), Kind::C, &[&text]).expect(&rt, "a record");
    let length = encoded_length(&Delimiters::usual(), &record);
    drop(record);
    // The letter, a delimiter and the text.
    assert!(rt; length == 131_074);
}

#[test]
fn the_pieces_of_a_field_are_its_encoding(rt: HostRuntime) {
    let field = Field::from_text(rt.alloc(), &[b'a'; 600]).expect(&rt, "a field");
    let mut encoded = Vec::new(rt.alloc());
    let mut rest = FieldEncoding::new(&Delimiters::usual(), &field);
    for _ in 0..9 {
        if let Some(piece) = rest.piece() {
            assert!(rt; encoded.extend_from_slice(piece).is_ok());
            rest.advance();
        }
    }
    assert!(rt; rest.piece().is_none());
    drop(rest);
    drop(field);
    assert!(rt; encoded.as_slice() == [b'a'; 600].as_slice());
    drop(encoded);
}
