//! Lists for which memory runs out. Each test passes with memory, and where any one growth fails: what is
//! rejected comes back, the list is as before, and the same call again is answered in full. All this is seen of the
//! whole list, since what came back is pushed. `tests/faults` rejects each growth.

ghost use Rattle.std.specs.Mem.{FitsInMemory};

use lis_port::Slow;
use lis_record::{BorrowedField, borrow_record, put_field, write_record};
use lis_record_values::*;
use lis_text::*;
use std::alloc::{AllocError, AllocFailed, Global};
use std::mem::drop;
use std::process::Abort;

/// Grows a text by these bytes; an allocation that fails is tried once more.
fn grow(rt: &impl Abort, text: &mut LinkText, more: &[u8]) {
    if text.extend(more).is_err() {
        assert!(rt; text.extend(more).is_ok());
    }
}

#[test]
fn a_text_that_cannot_grow_is_as_before(rt: HostRuntime) {
    let mut text = LinkText::new(rt.alloc());
    grow(&rt, &mut text, b"AB");
    grow(&rt, &mut text, &[0x43; 100]);
    assert!(rt; text.len() == 102);
    let (front, following) = text.as_slice().split_at(2);
    assert!(rt; front == b"AB".as_slice() && following == [0x43; 100].as_slice());
    drop(text);
}

/// What came back from a push, if memory runs out to it.
fn refused<T>(pushed: Result<(), AllocFailed<T>>) -> Option<T> {
    match pushed {
        Ok(()) => None,
        Err(AllocFailed { value }) => Some(value),
    }
}

/// Fails where what came back is rejected again.
fn assert_pushed<T: Drop>(rt: &impl Abort, pushed: Result<(), AllocFailed<T>>) {
    assert!(rt; pushed.is_ok());
    drop(pushed);
}

/// Pushes a byte, and once more where it comes back.
fn push_byte(rt: &impl Abort, text: &mut LinkText, byte: u8) {
    if let Some(back) = refused(text.push(byte)) {
        assert_pushed(rt, text.push(back));
    }
}

#[test]
fn an_item_that_is_refused_comes_back(rt: HostRuntime) {
    let mut text = LinkText::new(rt.alloc());
    for byte in 0x41..=0x5a {
        push_byte(&rt, &mut text, byte);
    }
    assert!(rt; text.as_slice() == b"ABCDEFGHIJKLMNOPQRSTUVWXYZ".as_slice());
    drop(text);
}

/// A text of these bytes; an allocation that fails is tried once more.
fn text_of(alloc: Global, bytes: &[u8]) -> Result<LinkText, AllocError> {
    match LinkText::from_slice(alloc, bytes) {
        Ok(text) => Ok(text),
        Err(AllocError) => LinkText::from_slice(alloc, bytes),
    }
}

/// Pushes a text, and once more where it comes back.
fn push_text(rt: &impl Abort, texts: &mut Texts, text: LinkText) {
    if let Err(refused) = texts.push(text) {
        let TextRefused::OutOfMemory(back) = refused else {
            panic!(rt; "nine texts are not too many");
        };
        assert!(rt; texts.push(back).is_ok());
    }
}

#[test]
fn a_text_that_is_refused_comes_back(rt: HostRuntime) {
    let mut texts = Texts::new(rt.alloc());
    for place in 1..=9usize {
        let (front, _) = b"ABCDEFGHI".split_at(place);
        let text = text_of(rt.alloc(), front).expect(&rt, "memory");
        push_text(&rt, &mut texts, text);
    }
    assert_lengths(&rt, texts.as_slice());
    drop(texts);
}

/// Fails where texts aren't nine, of 1 to 9 bytes.
fn assert_lengths(rt: &impl Abort, texts: &[LinkText]) {
    assert!(rt; texts.len() == 9);
    let mut length = 0usize;
    for text in texts {
        length = length.saturating_add(1);
        assert!(rt; text.len() == length);
    }
}

/// Pushes a symbol, and once more where it comes back.
fn push_symbol(rt: &impl Abort, component: &mut Component, byte: u8) {
    if let Some(back) = refused(component.push(Sym::Char(byte))) {
        assert_pushed(rt, component.push(back));
    }
}

#[test]
fn a_symbol_that_is_refused_comes_back(rt: HostRuntime) {
    let mut component = Component::new(rt.alloc());
    for byte in 0x41..=0x5a {
        push_symbol(&rt, &mut component, byte);
    }
    assert_letters(&rt, component.symbols());
    drop(component);
}

/// Fails where symbols aren't the letters A to Z.
fn assert_letters(rt: &impl Abort, symbols: &[Sym]) {
    assert!(rt; symbols.len() == 26);
    let mut letter = b'A';
    for symbol in symbols {
        assert!(rt; *symbol == Sym::Char(letter));
        letter = letter.saturating_add(1);
    }
}

/// Pushes a part, and once more where it comes back.
fn push_part<P: Part>(rt: &impl Abort, parts: &mut Parts<P>, part: P)
    requires { FitsInMemory P.row }
{
    if let Some(back) = refused(parts.push(part)) {
        assert_pushed(rt, parts.push(back));
    }
}

/// Fails where a field is encoded otherwise.
fn assert_encoded(rt: &impl Abort, field: &Field, want: &[u8]) {
    let mut sink = Slow::new(100, 100);
    assert!(rt; put_field(&mut sink, &Delimiters::usual(), field).is_ok());
    assert!(rt; sink.took() == want);
    drop(sink);
}

/// A component of one letter. It takes no memory.
fn component_of(rt: &impl Abort, alloc: Global, letter: u8) -> Component {
    Component::from_text(alloc, &[letter]).expect(rt, "a component without memory")
}

/// A repeat of one letter. It takes no memory.
fn repeat_of(rt: &impl Abort, alloc: Global, letter: u8) -> Repeat {
    Repeat::new(alloc, component_of(rt, alloc, letter)).expect(rt, "a repeat without memory")
}

/// A field of one letter. It takes no memory.
fn field_of(rt: &impl Abort, alloc: Global, letter: u8) -> Field {
    Field::new(alloc, repeat_of(rt, alloc, letter)).expect(rt, "a field without memory")
}

#[test]
fn a_component_that_is_refused_comes_back(rt: HostRuntime) {
    let mut repeat = repeat_of(&rt, rt.alloc(), b'A');
    for letter in b'B'..=b'I' {
        push_part(&rt, &mut repeat, component_of(&rt, rt.alloc(), letter));
    }
    let field = Field::new(rt.alloc(), repeat).expect(&rt, "a field without memory");
    assert_encoded(&rt, &field, b"A^B^C^D^E^F^G^H^I");
    drop(field);
}

#[test]
fn a_repeat_that_is_refused_comes_back(rt: HostRuntime) {
    let mut field = field_of(&rt, rt.alloc(), b'A');
    for letter in b'B'..=b'I' {
        push_part(&rt, &mut field, repeat_of(&rt, rt.alloc(), letter));
    }
    assert_encoded(&rt, &field, b"A\\B\\C\\D\\E\\F\\G\\H\\I");
    drop(field);
}

/// Pushes a field, and once more where it comes back.
fn push_field(rt: &impl Abort, record: &mut Record, field: Field) {
    if let Some(back) = refused(record.push(field)) {
        assert_pushed(rt, record.push(back));
    }
}

#[test]
fn a_field_that_is_refused_comes_back(rt: HostRuntime) {
    let mut record = Record::new(rt.alloc(), Kind::C);
    for letter in b'A'..=b'I' {
        push_field(&rt, &mut record, field_of(&rt, rt.alloc(), letter));
    }
    assert_written(&rt, &record, b"C|A|B|C|D|E|F|G|H|I\r");
    drop(record);
}

/// Fails where a record is written otherwise.
fn assert_written(rt: &impl Abort, record: &Record, want: &[u8]) {
    let mut sink = Slow::new(100, 100);
    assert!(rt; write_record(&mut sink, &Delimiters::usual(), record).is_ok());
    assert!(rt; sink.took() == want);
    drop(sink);
}

/// Pushes a record without a field, and once more where it comes back.
fn push_record(rt: &impl Abort, alloc: Global, records: &mut List<Record>, kind: Kind) {
    if let Some(back) = refused(records.push(Record::new(alloc, kind))) {
        assert_pushed(rt, records.push(back));
    }
}

/// The kinds of nine records.
const KINDS: [Kind; 9] = [
    Kind::H,
    Kind::P,
    Kind::O,
    Kind::R,
    Kind::C,
    Kind::Q,
    Kind::M,
    Kind::S,
    Kind::L,
];

#[test]
fn a_record_that_is_refused_comes_back(rt: HostRuntime) {
    let mut records: List<Record> = List::new(rt.alloc());
    for kind in &KINDS {
        push_record(&rt, rt.alloc(), &mut records, *kind);
    }
    assert_kinds(&rt, records.as_slice());
    drop(records);
}

/// Fails where records aren't nine of these kinds.
fn assert_kinds(rt: &impl Abort, records: &[Record]) {
    assert!(rt; records.len() == 9);
    let mut rest = KINDS.as_slice();
    for record in records {
        let (kind, following) = rest.split_first().expect(rt, "a tenth record");
        assert!(rt; record.kind() == *kind);
        rest = following;
    }
}

/// Adds a field's encoding to a text; if memory runs out the text begins with what it was, and it is asked once
/// more.
fn add_field(rt: &impl Abort, field: &BorrowedField<'_>, text: &mut Vec<u8>) {
    let length = text.len();
    if field.add_to(text).is_err() {
        assert!(rt; text.len() >= length);
        text.truncate(length);
        assert!(rt; field.add_to(text).is_ok());
    }
}

#[test]
fn a_text_that_takes_no_field_begins_as_before(rt: HostRuntime) {
    let record = borrow_record(&Delimiters::usual(), b"C|a\\b|&X0d&").expect(&rt, "a record");
    let plain = record.field(2).expect(&rt, "a field");
    let raw = record.field(3).expect(&rt, "a field");
    let mut text = Vec::new(rt.alloc());
    for _ in 0..4 {
        add_field(&rt, &plain, &mut text);
        add_field(&rt, &raw, &mut text);
    }
    assert!(rt; text.as_slice() == b"a\\b&X0d&a\\b&X0d&a\\b&X0d&a\\b&X0d&".as_slice());
    drop(text);
}
