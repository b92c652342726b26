//! The components of a record as a table, made in one pass over its text (LIS02-A2, Delimiters).

ghost use Rattle.std.specs.Prelude.{◌≡◌, ◌≤◌, ◌<◌, ◌+◌, ◌-◌, ◌^◌, ◌++◌, IfNone, IfSome, drop, length, slice_set};
ghost use Rattle.std.specs.Prelude.{take};
ghost use Rattle.lis_record_values.specs.Text.{record_limit};
ghost use Rattle.lis_record.specs.Borrowed.{front_length};
ghost use Rattle.lis_table.specs.Table.{table_of};
ghost use Rattle.lis_table.specs.inside.Table.{first_place};
ghost use Rattle.lis_table.specs.inside.Scan.{IsRoomy, longer, next_place, scanned, up_to};

use crate::stops::stops_ahead;
use lis_record::front_length;
use lis_record_values::{Delimiters, Kind};

/// Where a component is in its record's text, and which it is: the number of its field, as the standard counts, and
/// its repeat and component from 0. `flags` is 1 if the escape byte is among its bytes, else 0.
#[repr(C)]
#[derive(Clone, Copy)]
pub struct LisPart {
    pub offset: u32,
    pub len: u32,
    pub field: u32,
    pub repeat: u32,
    pub component: u32,
    pub flags: u32,
}

/// Where the first component begins.
#[inline(always)]
fn first_place(kind: Kind) -> LisPart
    ensures { result ≡ first_place kind }
{
    LisPart {
        offset: front_length(kind) as u32 + 1,
        len: 0,
        field: kind.first_number() as u32,
        repeat: 0,
        component: 0,
        flags: 0,
    }
}

/// The component that was begun, with the bytes of its text before a place.
#[inline(always)]
fn up_to(begun: LisPart, end: usize) -> LisPart
    requires begun { begun.offset ≤ end }
    requires end { end < 2 ^ 31 }
    ensures { result ≡ up_to begun end }
{
    LisPart {
        len: end as u32 - begun.offset,
        ..begun
    }
}

/// Puts one of them into the table; past its end nothing is put.
#[inline(always)]
fn put(out: &mut [LisPart], at: usize, place: LisPart)
    ensures { out.new ≡ slice_set out.old at place }
{
    if at < out.len() {
        out[at] = place;
    }
}

/// Begins the next component after the byte at a place, in the same field and repeat.
#[inline(always)]
fn begin_after(begun: &mut LisPart, at: usize)
    requires { at < 2 ^ 31 }
    ensures { begun.new ≡ record begun.old { offset = at + 1; flags = 0 } }
{
    begun.offset = at as u32 + 1;
    begun.flags = 0;
}

/// Takes the byte at a place: it ends the component that was begun, which is put, or it is one of its bytes; answers
/// how many were put.
#[inline(always)]
fn take_byte(
    delimiters: Delimiters,
    byte: u8,
    at: usize,
    begun: &mut LisPart,
    out: &mut [LisPart],
    count: usize,
) -> usize
    requires at { (begun.old.offset ≤ at) × (at < 2 ^ 31) × (count ≤ at) }
    requires room { IsRoomy (up_to begun.old at) 1 }
    ensures ends { IfSome (next_place delimiters (up_to begun.old at) byte) (λ next.
        (up_to begun.new (at + 1) ≡ next) × (begun.new.offset ≡ at + 1) × (result ≡ count + 1)
        × (out.new ≡ slice_set out.old count (up_to begun.old at))) }
    ensures goes_on { IfNone (next_place delimiters (up_to begun.old at) byte)
        ((up_to begun.new (at + 1) ≡ longer delimiters (up_to begun.old at) byte)
        × (begun.new.offset ≡ begun.old.offset) × (result ≡ count) × (out.new ≡ out.old)) }
{
    if byte == delimiters.field() {
        put(out, count, up_to(*begun, at));
        begin_after(begun, at);
        begun.field += 1;
        begun.repeat = 0;
        begun.component = 0;
        return count + 1;
    }
    if byte == delimiters.repeat() {
        put(out, count, up_to(*begun, at));
        begin_after(begun, at);
        begun.repeat += 1;
        begun.component = 0;
        return count + 1;
    }
    if byte == delimiters.component() {
        put(out, count, up_to(*begun, at));
        begin_after(begun, at);
        begun.component += 1;
        return count + 1;
    }
    if byte == delimiters.escape() {
        begun.flags = 1;
    }
    count
}

/// Puts the components of a text from a place on to the table, the first of which begins there; answers how many they
/// are.
#[inline(always)]
fn put_from(delimiters: Delimiters, first: LisPart, text: &[u8], out: &mut [LisPart]) -> usize
    requires begins { (first.offset ≤ length text.now) × (first.len ≡ 0) }
    requires room { IsRoomy first (length text.now - first.offset) }
    requires short { length text.now < 2 ^ 31 }
    ensures count { result ≡ length (scanned delimiters first (drop first.offset text.now)) }
    ensures put { out.new ≡ take (length out.old) (scanned delimiters first (drop first.offset text.now))
        ++ drop result out.old }
{
    let mut begun = first;
    let mut count: usize = 0;
    let mut from = first.offset as usize;
    while from < text.len() {
        let (mut stops, size) = stops_ahead(delimiters, text, from);
        // The lowest bit is the next place; then it is cleared.
        while stops != 0 {
            let at = from + stops.trailing_zeros() as usize;
            stops -= 1 << stops.trailing_zeros();
            count = take_byte(delimiters, text[at], at, &mut begun, out, count);
        }
        from += size;
    }
    put(out, count, up_to(begun, text.len()));
    count + 1
}

/// Puts the places of all components of a record, whose text without its CR this is, to the front of a table, in the
/// text's order and as far as it has room; answers how many there are. What follows them in the table stays. It goes
/// over the text once and takes no memory.
pub fn put_places(delimiters: Delimiters, kind: Kind, text: &[u8], out: &mut [LisPart]) -> usize
    requires { length text.now ≤ record_limit }
    ensures count { result ≡ length (table_of delimiters kind text.now) }
    ensures put { out.new ≡ take (length out.old) (table_of delimiters kind text.now) ++ drop result out.old }
{
    let before = front_length(kind);
    if text.len() <= before {
        return 0;
    }
    put_from(delimiters, first_place(kind), text, out)
}
