//! The places of a message's records, put into an array of the caller's (LIS02-A2). No call takes memory.

ghost use Rattle.std.specs.Prelude.{◌≡◌, ◌<◌, [], IfErr, IfNone, IfOk, IfSome, None, length, slice_set};
ghost use Rattle.lis_message.specs.Records.{HasLeft};
ghost use Rattle.lis_message_table.specs.Put.{PutsFront, PutsMessage};

use crate::above::Above;
use crate::places::{LisRecordPlace, Placed};
use crate::reading::take_next;
use lis_message::RecordReader;
use lis_record_values::{Kind, MessageFault};
use std::alloc::Global;
use std::mem::drop;

/// Puts a place into an array; past its end nothing is put.
#[inline(always)]
fn put(out: &mut [LisRecordPlace], at: usize, place: LisRecordPlace)
    ensures { out.new ≡ slice_set out.old at place }
{
    if at < out.len() {
        out[at] = place;
    }
}

/// Puts the places of the records of the message that a text begins with, by a reader that has read nothing.
fn put_all<'a>(
    records: &mut RecordReader,
    text: &'a [u8],
    out: &mut [LisRecordPlace],
) -> Result<Placed<'a>, MessageFault>
    requires some { 0 < length text.now }
    requires start { HasLeft records.old None × (records.old.held ≡ []) × (records.old.split ≡ None) }
    ensures ok { IfOk result (λ found. PutsMessage text.now found.count found.delimiters found.following.now
        out.old out.new) }
    ensures err { IfErr result (λ fault. PutsFront text.now fault out.old out.new) }
{
    let mut above = Above::nothing();
    let mut rest = text;
    let mut count: usize = 0;
    loop {
        let (place, delimiters, following) = match take_next(
            records, &mut above, count, text, rest,
        ) {
            Ok(found) => found,
            Err(fault) => return Err(fault),
        };
        put(out, count, LisRecordPlace::of(&place));
        count += 1;
        if place.kind == Kind::L {
            return Ok(Placed {
                count,
                delimiters,
                following,
            });
        }
        rest = following;
    }
}

/// Puts the places of the records of the message that a text begins with to the front of an array, in their order and
/// as far as it has room, and answers how many there are; none where the text is empty. What follows them in the array
/// stays. It takes no memory.
///
/// A fault is that of [`MessageTable::read`](crate::MessageTable::read), where memory doesn't run out; the places of
/// the records before it are put.
pub fn put_message<'a>(
    alloc: Global,
    text: &'a [u8],
    out: &mut [LisRecordPlace],
) -> Result<Option<Placed<'a>>, MessageFault>
    ensures some { IfOk result (λ next. IfSome next (λ found. PutsMessage text.now found.count found.delimiters
        found.following.now out.old out.new)) }
    ensures none { IfOk result (λ next. IfNone next ((text.now ≡ []) × (out.new ≡ out.old))) }
    ensures err { IfErr result (λ fault. PutsFront text.now fault out.old out.new) }
{
    if text.is_empty() {
        return Ok(None);
    }
    let mut records = RecordReader::new(alloc);
    let found = put_all(&mut records, text, out);
    drop(records);
    match found {
        Ok(placed) => Ok(Some(placed)),
        Err(fault) => Err(fault),
    }
}
