//! Delimiters and records in the rows: `P/31/41;42,~0d+!`.

use crate::answer::Answer;
use crate::words::{byte_of_digits, bytes_of};
use lis_record_values::{
    Component, DelimiterFault, Delimiters, Kind, Part, Parts, Record, Repeat, Sym,
};
use std::mem::drop;

/// The delimiters that a word of four bytes reports.
pub(crate) fn delimiters_of(word: &str, answer: &mut Answer) -> Option<Delimiters> {
    match read_delimiters(word, answer) {
        Some(Ok(delimiters)) => Some(delimiters),
        _ => {
            answer.no_call();
            None
        }
    }
}

/// The delimiters that a word of four bytes reports, or why they are invalid.
pub(crate) fn read_delimiters(
    word: &str,
    answer: &mut Answer,
) -> Option<Result<Delimiters, DelimiterFault>> {
    let bytes = bytes_of(word, answer);
    let read = match bytes.as_slice() {
        [field, repeat, component, escape] => {
            Some(Delimiters::new(*field, *repeat, *component, *escape))
        }
        _ => None,
    };
    drop(bytes);
    read
}

/// The record that a word reports: its letter, and `/` before each field.
pub(crate) fn record_of(word: &str, answer: &mut Answer) -> Option<Record> {
    let (letter, fields) = parted(word, '/');
    let Some(kind) = kind_of(letter.as_bytes()) else {
        answer.no_call();
        return None;
    };
    let mut entry = Record::new(answer.alloc, kind);
    if let Some(fields) = fields {
        push_fields(fields, &mut entry, answer);
    }
    Some(entry)
}

/// The kind of a record that a letter reports.
fn kind_of(letter: &[u8]) -> Option<Kind> {
    match letter {
        [letter] => Kind::of_letter(*letter),
        _ => None,
    }
}

/// Pushes the fields that a text reports.
fn push_fields(text: &str, entry: &mut Record, answer: &mut Answer) {
    for field in text.split('/') {
        if let Some(field) = parts_of(field, ';', answer) {
            answer.needs(entry.push(field));
        }
    }
}

/// What a row encodes with a mark between two: a repeat of a field, a component of a repeat.
trait Encoded: Part {
    /// The part that a text reports; none is a trouble of the answer.
    fn of_text(text: &str, answer: &mut Answer) -> Option<Self>;
}

impl Encoded for Repeat {
    fn of_text(text: &str, answer: &mut Answer) -> Option<Self> {
        parts_of(text, ',', answer)
    }
}

impl Encoded for Component {
    fn of_text(text: &str, answer: &mut Answer) -> Option<Self> {
        let mut component = Component::new(answer.alloc);
        push_symbols(text.as_bytes(), &mut component, answer);
        Some(component)
    }
}

/// The field or repeat that a text reports, with a mark between two parts.
fn parts_of<P: Encoded>(text: &str, mark: char, answer: &mut Answer) -> Option<Parts<P>> {
    let (first, others) = parted(text, mark);
    let mut parts = first_part(P::of_text(first, answer), answer)?;
    if let Some(others) = others {
        push_others(others, mark, &mut parts, answer);
    }
    Some(parts)
}

/// A list of one part.
fn first_part<P: Encoded>(part: Option<P>, answer: &mut Answer) -> Option<Parts<P>> {
    let parts = Parts::new(answer.alloc, part?);
    answer.made(parts)
}

/// Pushes the parts that a text reports after the first.
fn push_others<P: Encoded>(text: &str, mark: char, parts: &mut Parts<P>, answer: &mut Answer) {
    for part in text.split(mark) {
        if let Some(part) = P::of_text(part, answer) {
            answer.needs(parts.push(part));
        }
    }
}

/// What is before a mark, or all of the text, and what is after it.
fn parted(text: &str, mark: char) -> (&str, Option<&str>) {
    match text.split_once(mark) {
        Some((front, following)) => (front, Some(following)),
        None => (text, None),
    }
}

/// Pushes the symbols that a text reports: two digits a character, `~` and two digits a raw byte, `+` and `!` the start
/// and the end of highlighting.
fn push_symbols(text: &[u8], component: &mut Component, answer: &mut Answer) {
    let mut rest = text;
    for _ in 0..text.len() {
        let (symbol, following) = match rest {
            [] => return,
            [b'+', following @ ..] => (Sym::On, following),
            [b'!', following @ ..] => (Sym::Off, following),
            [b'~', following @ ..] => {
                let (digits, following) = following.split_at(following.len().min(2));
                (Sym::Raw(byte_of_digits(digits, answer)), following)
            }
            _ => {
                let (digits, following) = rest.split_at(rest.len().min(2));
                (Sym::Char(byte_of_digits(digits, answer)), following)
            }
        };
        answer.needs(component.push(symbol));
        rest = following;
    }
}

/// Puts delimiters.
pub(crate) fn put_delimiters(delimiters: Delimiters, answer: &mut Answer) {
    let bytes = [
        delimiters.field(),
        delimiters.repeat(),
        delimiters.component(),
        delimiters.escape(),
    ];
    answer.bytes("", &bytes);
}

/// Puts a record.
pub(crate) fn put_record(entry: &Record, answer: &mut Answer) {
    put_kind(entry.kind(), answer);
    for field in entry.fields() {
        let mut before = "/";
        for repeat in field.repeats() {
            for component in repeat.components() {
                answer.text(before);
                put_component(component, answer);
                before = ",";
            }
            before = ";";
        }
    }
}

/// Puts the letter of a kind.
pub(crate) fn put_kind(kind: Kind, answer: &mut Answer) {
    answer.letter(kind.letter());
}

/// Puts the symbols of a component.
fn put_component(component: &Component, answer: &mut Answer) {
    for symbol in component.symbols() {
        match symbol {
            Sym::Char(byte) => answer.byte("", *byte),
            Sym::Raw(byte) => answer.byte("~", *byte),
            Sym::On => answer.text("+"),
            Sym::Off => answer.text("!"),
        }
    }
}
