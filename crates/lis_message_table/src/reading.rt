//! Reading the records of a message one after another, and where they are (LIS02-A2).

ghost use Rattle.std.specs.Prelude.{◌≡◌, ◌≢◌, ◌<◌, ◌≤◌, ◌∷◌, ◌++◌, [], ℕ, List, IfErr, IfOk, IsFalse, IsTrue};
ghost use Rattle.std.specs.Prelude.{◌+◌, None, Option, Some, length, vec_capacity};
ghost use Rattle.lis_bytes.specs.Capped.{capped};
ghost use Rattle.lis_record_values.specs.declared.kinds.Kind.TheVariants as kinds;
ghost use Rattle.lis_tree.specs.Begun.{Begun};
ghost use Rattle.lis_message.specs.Feeding.{ReadsWhole};
ghost use Rattle.lis_message.specs.Records.{HasLeft, IsRecordRefused};
ghost use Rattle.lis_message.specs.Stream.{LacksReturn};
ghost use Rattle.lis_message_table.specs.Table.{IsTextFault};
ghost use Rattle.lis_message_table.specs.declared.above.Above.{Above};
ghost use Rattle.lis_message_table.specs.declared.places.RecordPlace.{RecordPlace};
ghost use Rattle.lis_message_table.specs.inside.Reading.{HasRead, IsReading, StopsAt};

use crate::above::Above;
use crate::places::RecordPlace;
use lis_message::{RecordFound, RecordReader};
use lis_record::RECORD_LIMIT;
use lis_record_values::{Delimiters, Kind, MessageFault, Reason};
use memchr::memchr;
use std::alloc::Global;
use std::mem::drop;

const CR: u8 = 0x0d;

/// Whether a CR is among bytes.
fn has_return(bytes: &[u8]) -> bool
    ensures has { IsTrue result → LacksReturn bytes.now → ⊥ }
    ensures lacks { IsFalse result → LacksReturn bytes.now }
{
    memchr(CR, bytes).is_some()
}

/// Why no record that comes next is whole at the front of bytes, where `read_whole` found none. No bytes are held: it
/// takes no memory.
#[inline(never)]
fn fault_at(records: &mut RecordReader, bytes: &[u8]) -> MessageFault
    requires reads { (text : List ℕ) × (places : List RecordPlace) × (above : Above)
        × IsReading records.old text places above bytes.now }
    requires none { (left : Option Begun) → HasLeft records.old left → (text following : List ℕ) → LacksReturn text
        → bytes.now ≡ text ++ 13 ∷ following → IsRecordRefused left text }
    ensures { (left : Option Begun) → HasLeft records.old left → StopsAt left bytes.now result }
{
    let place = records.next_place();
    if !has_return(bytes) {
        let reason = if bytes.len() > RECORD_LIMIT {
            Reason::RecordTooLong
        } else {
            Reason::Unfinished
        };
        return MessageFault { place, reason };
    }
    let (_, found) = records.read(bytes);
    match found {
        RecordFound::Refused(fault) => fault,
        RecordFound::Nothing => unreachable!(),
        RecordFound::Record(_) => unreachable!(),
        RecordFound::Held => unreachable!(),
    }
}

/// Reads the next record of the message that a text begins with, at the front of the bytes that are left of it, after
/// so many records; answers where it is, its delimiters and the bytes after it.
#[inline(always)]
pub(crate) fn take_next<'a>(
    records: &mut RecordReader,
    above: &mut Above,
    index: usize,
    text: &[u8],
    rest: &'a [u8],
) -> Result<(RecordPlace, Delimiters, &'a [u8]), MessageFault>
    requires reads { (places : List RecordPlace) × IsReading records.old text.now places above.old rest.now }
    requires some { 0 < length text.now }
    ensures on { (places : List RecordPlace) → IsReading records.old text.now places above.old rest.now
        → index ≡ length places → IfOk result (λ found. found.0.kind ≢ kinds.L
        → IsReading records.new text.now (places ++ found.0 ∷ []) above.new found.2.now) }
    ensures last { (places : List RecordPlace) → IsReading records.old text.now places above.old rest.now
        → IfOk result (λ found. found.0.kind ≡ kinds.L
        → HasRead found.1 text.now (places ++ found.0 ∷ []) found.2.now) }
    ensures shorter { IfOk result (λ found. length found.2.now < length rest.now) }
    ensures err { (places : List RecordPlace) → IsReading records.old text.now places above.old rest.now
        → IfErr result (λ fault. IsTextFault text.now fault × (fault.place ≡ capped (length places + 1))) }
{
    let Some((entry, following)) = records.read_whole(rest) else {
        return Err(fault_at(records, rest));
    };
    let kind = entry.kind();
    let place = RecordPlace {
        kind,
        start: text.len() - rest.len(),
        len: (rest.len() - following.len() - 1) as u32,
        parent: above.take(kind, index),
    };
    Ok((place, entry.delimiters(), following))
}

/// Reads the message that a text begins with, by a reader that has read nothing, and puts the places of its records
/// into an empty list; answers its delimiters and the bytes after it.
fn take_all<'a>(
    records: &mut RecordReader,
    places: &mut Vec<RecordPlace>,
    text: &'a [u8],
) -> Result<(Delimiters, &'a [u8]), MessageFault>
    requires some { 0 < length text.now }
    requires start { HasLeft records.old None × (records.old.held ≡ []) × (records.old.split ≡ None) }
    requires empty { places.old.items ≡ [] }
    ensures ok { IfOk result (λ found. HasRead found.0 text.now places.new.items found.1.now) }
    ensures err { IfErr result (λ fault. ReadsWhole text.now [] (Some fault)) }
    ensures memory { IfErr result (λ fault. fault.place ≤ vec_capacity places.old → IsTextFault text.now fault) }
    ensures room { vec_capacity places.old ≤ vec_capacity places.new }
{
    let mut above = Above::nothing();
    let mut rest = text;
    loop {
        let index = places.len();
        let (place, delimiters, following) = match take_next(
            records, &mut above, index, text, rest,
        ) {
            Ok(found) => found,
            Err(fault) => return Err(fault),
        };
        let kind = place.kind;
        match places.push(place) {
            Ok(()) => {}
            Err(_) => {
                return Err(MessageFault {
                    place: (index as u64).saturating_add(1),
                    reason: Reason::OutOfMemory,
                });
            }
        }
        if kind == Kind::L {
            return Ok((delimiters, following));
        }
        rest = following;
    }
}

/// Reads the message that a text begins with, and puts the places of its records into an empty list; answers its
/// delimiters and the bytes after it.
pub(crate) fn read_records<'a>(
    alloc: Global,
    places: &mut Vec<RecordPlace>,
    text: &'a [u8],
) -> Result<(Delimiters, &'a [u8]), MessageFault>
    requires some { 0 < length text.now }
    requires empty { places.old.items ≡ [] }
    ensures ok { IfOk result (λ found. HasRead found.0 text.now places.new.items found.1.now) }
    ensures err { IfErr result (λ fault. ReadsWhole text.now [] (Some fault)) }
    ensures memory { IfErr result (λ fault. fault.place ≤ vec_capacity places.old → IsTextFault text.now fault) }
    ensures room { vec_capacity places.old ≤ vec_capacity places.new }
{
    let mut records = RecordReader::new(alloc);
    let found = take_all(&mut records, places, text);
    drop(records);
    found
}
