//! Records made from their texts, part by part (LIS02-A2, Delimiters).

ghost use Rattle.std.specs.Prelude.{◌≡◌, ◌<◌, ◌≤◌, ◌-◌, ◌++◌, ◌∷◌, ◌↔◌, [], ℕ, List, IfOk, IfSome, IsTrue, OnOk};
ghost use Rattle.std.specs.Prelude.{drop, length, replicate, take};
ghost use Rattle.lis_record_read.specs.FrontReading.{components_of, fields_of, parts_following, parts_of, repeats_of};
ghost use Rattle.lis_record_read.specs.FrontReading.{IsPlainText, symbols_of};
ghost use Rattle.lis_record_read.specs.inside.FrontReading.{BeginsWith, ComponentFront, EndsWith, TakesField};
ghost use Rattle.lis_record_read.specs.inside.FrontReading.{IsPaddedBy};
ghost use Rattle.lis_record_values.specs.Relation.{Lacks};

use crate::escapes::{read_component, read_short_component};
use crate::search::{field_end, first_stop, near_end};
use crate::text_parts::{PaddedText, count_parts, first_part};
use lis_bytes::{bits_of, place_of};
use lis_record_values::{Component, Delimiters, Field, Kind, Record, Repeat};
use std::alloc::{AllocError, Global};
use std::simd::prelude::*;

/// Whether a field is one component without an escape byte, so that its bytes are its symbols.
#[inline(always)]
pub fn is_plain(delimiters: Delimiters, text: &[u8]) -> bool
    ensures { IsTrue result ↔ IsPlainText delimiters text.now }
{
    let [repeat, component, escape] = [
        delimiters.repeat(),
        delimiters.component(),
        delimiters.escape(),
    ];
    for byte in text {
        if *byte == repeat || *byte == component || *byte == escape {
            return false;
        }
    }
    true
}

// Adds a component to a repeat. Each way adds it itself, so that none is moved to where they meet.
#[inline(always)]
fn push_component(
    alloc: Global,
    delimiters: Delimiters,
    repeat: &mut Repeat,
    text: &[u8],
) -> Result<(), AllocError>
    ensures { OnOk result (repeat.new ≡ repeat.old ++ symbols_of delimiters text.now ∷ []) }
{
    if place_of(text, delimiters.escape()).is_some() {
        repeat.push(read_component(alloc, delimiters, text)?)?;
    } else if text.is_empty() {
        repeat.push(Component::new(alloc))?;
    } else {
        repeat.push(Component::from_text(alloc, text)?)?;
    }
    Ok(())
}

// A repeat of the component that this text is, with memory for so many.
#[inline(always)]
fn first_component(
    alloc: Global,
    delimiters: Delimiters,
    text: &[u8],
    components: usize,
) -> Result<Repeat, AllocError>
    ensures { IfOk result (λ repeat. repeat ≡ symbols_of delimiters text.now ∷ []) }
{
    if place_of(text, delimiters.escape()).is_some() {
        return Repeat::with_capacity(alloc, read_component(alloc, delimiters, text)?, components);
    }
    if text.is_empty() {
        return Repeat::with_capacity(alloc, Component::new(alloc), components);
    }
    Repeat::with_capacity(alloc, Component::from_text(alloc, text)?, components)
}

// Reads a repeat, component by component. All components get their memory at once.
#[inline(always)]
fn read_repeat(alloc: Global, delimiters: Delimiters, text: &[u8]) -> Result<Repeat, AllocError>
    ensures { IfOk result (λ repeat. repeat ≡ components_of delimiters text.now) }
{
    let (part, mut rest) = first_part(text, delimiters.component());
    let count = count_parts(text, delimiters.component());
    let mut repeat = first_component(alloc, delimiters, part, count)?;
    while let Some((_delimiter, more)) = rest.split_first() {
        let (part, others) = first_part(more, delimiters.component());
        push_component(alloc, delimiters, &mut repeat, part)?;
        rest = others;
    }
    Ok(repeat)
}

// Whether this byte is known to be nowhere among so many of the first sixteen.
#[inline(always)]
fn is_free(bytes: &[u8], count: usize, mark: u8) -> bool
    requires room { 16 ≤ length bytes.now }
    requires few { count ≤ 16 }
    ensures { IsTrue result → Lacks mark (take count bytes.now) }
{
    let bits = bits_of(bytes, mark);
    if bits == 0 {
        return true;
    }
    count <= bits.trailing_zeros() as usize
}

// Where the component ends that a field's text begins with, and whether its bytes are known to be its symbols; none
// where no component delimiter or the end is found within sixteen bytes.
#[inline(always)]
fn component_front(delimiters: Delimiters, given: PaddedText<'_, '_>) -> Option<(usize, bool)>
    requires { BeginsWith given.padded.now given.text.now }
    ensures front { IfSome result (λ found. ComponentFront delimiters given.entry.text.now found.0 found.1) }
    ensures room { IfSome result (λ found. 16 ≤ length given.entry.padded.now) }
{
    let PaddedText { text, padded } = given;
    // Next to the delimiters no other byte ends it.
    let Some(stop) = first_stop(delimiters, delimiters.component(), padded) else {
        return None;
    };
    if stop >= text.len() {
        return Some((text.len(), is_free(padded, text.len(), delimiters.escape())));
    }
    if text[stop] != delimiters.component() {
        return None;
    }
    Some((stop, is_free(padded, stop, delimiters.escape())))
}

// A repeat of the component that a field's text begins with, with memory for as many as the delimiters among the first
// sixteen bytes say about. Each way makes it itself, so that none is moved to where they meet.
#[inline(always)]
fn first_front(
    alloc: Global,
    delimiters: Delimiters,
    given: PaddedText<'_, '_>,
    front: (usize, bool),
) -> Result<Repeat, AllocError>
    requires room { 16 ≤ length given.padded.now }
    requires begins { BeginsWith given.padded.now given.text.now }
    requires front { ComponentFront delimiters given.text.now front.0 front.1 }
    ensures { IfOk result (λ repeat. repeat ≡ symbols_of delimiters (take front.0 given.entry.text.now) ∷ []) }
{
    let PaddedText { text, padded } = given;
    let (end, is_plain) = front;
    let near = text.len().min(16).max(1);
    let marks = bits_of(padded, delimiters.component()) << (64 - near);
    let components = marks.count_ones() as usize + 1;
    if is_plain {
        return Repeat::with_capacity(
            alloc,
            Component::from_front(alloc, padded, end)?,
            components,
        );
    }
    let (part, _following) = text.split_at(end);
    Repeat::with_capacity(alloc, read_component(alloc, delimiters, part)?, components)
}

// Adds the component that a field's text begins with to a repeat, as above.
#[inline(always)]
fn push_front(
    alloc: Global,
    delimiters: Delimiters,
    repeat: &mut Repeat,
    given: PaddedText<'_, '_>,
    front: (usize, bool),
) -> Result<(), AllocError>
    requires begins { BeginsWith given.padded.now given.text.now }
    requires front { ComponentFront delimiters given.text.now front.0 front.1 }
    ensures { OnOk result (repeat.new ≡ repeat.old ++ symbols_of delimiters (take front.0 given.entry.text.now) ∷ []) }
{
    let PaddedText { text, padded } = given;
    let (end, is_plain) = front;
    if is_plain {
        repeat.push(Component::from_front(alloc, padded, end)?)?;
    } else {
        let (part, _following) = text.split_at(end);
        repeat.push(read_component(alloc, delimiters, part)?)?;
    }
    Ok(())
}

// Reads a field of one repeat and short components component by component, each looked at once; any other field by its
// delimiters.
#[inline(always)]
fn read_parted(
    alloc: Global,
    delimiters: Delimiters,
    given: PaddedText<'_, '_>,
) -> Result<Field, AllocError>
    requires { BeginsWith given.padded.now given.text.now }
    ensures { IfOk result (λ field. field ≡ repeats_of delimiters given.entry.text.now) }
{
    let PaddedText { text, padded } = given;
    let Some(front) = component_front(delimiters, given) else {
        return read_field(alloc, delimiters, text);
    };
    // proof: a component delimiter is no repeat delimiter, since delimiters are apart.
    let _ = delimiters.field();
    let mut repeat = first_front(alloc, delimiters, given, front)?;
    let (_, mut rest) = text.split_at(front.0);
    let (_, mut window) = padded.split_at(front.0);
    while let Some((_delimiter, more)) = rest.split_first() {
        let (_, following) = window.split_at(1);
        let next = PaddedText {
            text: more,
            padded: following,
        };
        let Some(front) = component_front(delimiters, next) else {
            return read_field(alloc, delimiters, text);
        };
        push_front(alloc, delimiters, &mut repeat, next, front)?;
        let (_, others) = more.split_at(front.0);
        let (_, further) = following.split_at(front.0);
        rest = others;
        window = further;
    }
    Ok(Field::new(alloc, repeat)?)
}

/// Reads a field; one component without an escape byte as it is.
#[inline(always)]
pub fn read_field(alloc: Global, delimiters: Delimiters, text: &[u8]) -> Result<Field, AllocError>
    ensures { IfOk result (λ field. field ≡ repeats_of delimiters text.now) }
{
    if is_plain(delimiters, text) {
        return Field::from_text(alloc, text);
    }
    read_repeats(alloc, delimiters, text)
}

// Reads a field, repeat by repeat.
#[inline(never)]
fn read_repeats(alloc: Global, delimiters: Delimiters, text: &[u8]) -> Result<Field, AllocError>
    ensures { IfOk result (λ field. field ≡ repeats_of delimiters text.now) }
{
    let (part, mut rest) = first_part(text, delimiters.repeat());
    let mut field = Field::new(alloc, read_repeat(alloc, delimiters, part)?)?;
    while let Some((_delimiter, more)) = rest.split_first() {
        let (part, others) = first_part(more, delimiters.repeat());
        field.push(read_repeat(alloc, delimiters, part)?)?;
        rest = others;
    }
    Ok(field)
}

// Copies bytes to a place of their length. Sixteen, as of most records, go by themselves: no call is made for them.
#[inline(always)]
fn copy_few(place: &mut [u8], bytes: &[u8])
    requires { length place.old ≡ length bytes.now }
    ensures { place.new ≡ bytes.now }
{
    if bytes.len() == 16 {
        place.copy_from_slice(bytes);
    } else {
        place.copy_from_slice(bytes);
    }
}

// The last sixteen bytes of a text, or all where it has fewer, with sixteen delimiters after them, and so many before
// them that they end at place 16.
#[inline(always)]
fn padded_end(text: &[u8], mark: u8) -> [u8; 32]
    ensures { (last : List ℕ) → EndsWith text.now last → length last ≤ 16
        → drop (16 - length last) result ≡ last ++ replicate 16 mark }
{
    let mut padded = [mark; 32];
    let count = text.len().min(16);
    let (_, last) = text.split_at(text.len() - count);
    let (_, room) = padded.split_at_mut(16 - count);
    let (place, _) = room.split_at_mut(count);
    copy_few(place, last);
    padded
}

// What is before the first delimiter of a text that is padded by that, and the rest from that delimiter on.
#[inline(always)]
fn first_padded<'a>(given: PaddedText<'a, '_>, delimiter: u8) -> (&'a [u8], &'a [u8])
    requires { IsPaddedBy delimiter given.text.now given.padded.now }
    ensures parts { parts_of delimiter given.entry.text.now ≡ result.0.now ∷ parts_following delimiter result.1.now }
    ensures shorter { length result.1.now ≤ length given.entry.text.now }
    ensures joined { given.entry.text.now ≡ result.0.now ++ result.1.now }
{
    let PaddedText { text, padded } = given;
    let Some(end) = near_end(padded, delimiter) else {
        return first_part(text, delimiter);
    };
    text.split_at(end)
}

// Adds the field that a text begins with, where it is longer than sixteen bytes, has several components or repeats, or
// has an escape, as `push_next` does.
#[inline(never)]
fn push_other<'a>(
    alloc: Global,
    delimiters: Delimiters,
    entry: &mut Record,
    given: PaddedText<'a, '_>,
) -> Result<&'a [u8], AllocError>
    requires { IsPaddedBy delimiters.field given.text.now given.padded.now }
    ensures { IfOk result (λ rest. TakesField delimiters entry.old entry.new given.entry.text.now rest.now) }
{
    let PaddedText { text, padded } = given;
    if let Some(end) = field_end(delimiters, delimiters.component(), padded) {
        let (part, rest) = text.split_at(end);
        let front = PaddedText { text: part, padded };
        let component = read_short_component(alloc, delimiters, front)?;
        entry.push(Field::new(alloc, Repeat::new(alloc, component)?)?)?;
        return Ok(rest);
    }
    let (part, rest) = first_padded(given, delimiters.field());
    let front = PaddedText { text: part, padded };
    entry.push(read_parted(alloc, delimiters, front)?)?;
    Ok(rest)
}

// Adds the field that a text begins with to a record, and answers what follows from the next field delimiter on.
#[inline(always)]
fn push_next<'a>(
    alloc: Global,
    delimiters: Delimiters,
    entry: &mut Record,
    given: PaddedText<'a, '_>,
) -> Result<&'a [u8], AllocError>
    requires { IsPaddedBy delimiters.field given.text.now given.padded.now }
    ensures { IfOk result (λ rest. TakesField delimiters entry.old entry.new given.entry.text.now rest.now) }
{
    let PaddedText { text, padded } = given;
    let Some(end) = field_end(delimiters, delimiters.escape(), padded) else {
        return push_other(alloc, delimiters, entry, given);
    };
    // Many fields are empty, at the same places of most records of a kind.
    if end == 0 {
        let empty = Repeat::new(alloc, Component::new(alloc))?;
        entry.push(Field::new(alloc, empty)?)?;
        return Ok(text);
    }
    entry.push(Field::from_front(alloc, padded, end)?)?;
    let (_field, rest) = text.split_at(end);
    Ok(rest)
}

/// Reads the fields that follow a record's letter, or a header's delimiters.
#[inline(never)]
pub fn read_fields(
    alloc: Global,
    delimiters: Delimiters,
    kind: Kind,
    text: &[u8],
) -> Result<Record, AllocError>
    ensures { IfOk result (λ content. content ≡ record { kind = kind; fields = fields_of delimiters text.now }) }
{
    let count = count_parts(text, delimiters.field()).saturating_sub(1);
    let mut record = Record::with_capacity(alloc, kind, count)?;
    let end = padded_end(text, delimiters.field());
    let mut rest = text;
    while let Some((_delimiter, more)) = rest.split_first() {
        if more.len() < 16 {
            break;
        }
        let next = PaddedText {
            text: more,
            padded: more,
        };
        rest = push_next(alloc, delimiters, &mut record, next)?;
    }
    while let Some((_last_delimiter, last)) = rest.split_first() {
        let (_, padded) = end.split_at(16 - last.len());
        let next = PaddedText { text: last, padded };
        rest = push_next(alloc, delimiters, &mut record, next)?;
    }
    Ok(record)
}
