//! Reading results out of a stream of records.

ghost use Rattle.std.specs.Prelude.{◌≡◌, [], IfErr, IfOk, List, None, length};
ghost use Rattle.std.specs.List.{AllZip, flat_map};
ghost use Rattle.lis_record_values.specs.Shape.{field_at};
ghost use Rattle.lis_message.specs.Stream.{IsSplit};
ghost use Rattle.lis_tree.specs.Results.{results_of};
ghost use Rattle.lis_tree.specs.Tree.{MessageTree};
ghost use Rattle.lis_bytes.specs.Capped.{capped};
ghost use Rattle.uses.specs.Readings.{IsReading, IsPlainOrEmpty, IsUnread, result_count};

use lis_message::{Message, MessageFault, MessageReader};
use lis_record_values::Record;
use std::alloc::{AllocError, Global};
use std::mem::drop;

/// One result: the sample of its order, and the value and units of its record.
#[derive(Debug, Drop)]
pub struct Reading {
    pub sample: Vec<u8>,
    pub value: Vec<u8>,
    pub units: Vec<u8>,
}

/// The results of a message, in order.
pub fn readings(alloc: Global, message: &Message) -> Result<Vec<Reading>, AllocError>
    ensures { IfOk result (λ found. AllZip IsReading (results_of message.now) found.items) }
{
    let mut found = Vec::new(alloc);
    for placed in message.results() {
        found.push(Reading {
            sample: text_of(alloc, placed.order.head(), 3)?,
            value: text_of(alloc, placed.entry.head(), 4)?,
            units: text_of(alloc, placed.entry.head(), 5)?,
        })?;
    }
    Ok(found)
}

/// The text of the field of this number; empty where it is absent, or is no plain text.
fn text_of(alloc: Global, entry: &Record, number: usize) -> Result<Vec<u8>, AllocError>
    ensures { IfOk result (λ text. IsPlainOrEmpty (field_at entry.now number) text.items) }
{
    let text = match entry.field(number) {
        Some(field) => field.to_text(alloc)?,
        None => None,
    };
    Ok(text.unwrap_or(Vec::new(alloc)))
}

/// How many results a stream has that comes in pieces; where they are more than a number can hold, the greatest number.
pub fn count_results(alloc: Global, pieces: &[&[u8]]) -> Result<usize, MessageFault>
    ensures ok { IfOk result (λ count. (messages : List MessageTree)
        × IsSplit (flat_map (λ piece. piece.now) pieces.now) messages None []
        × (count ≡ capped (result_count messages))) }
    ensures err { IfErr result (IsUnread (flat_map (λ piece. piece.now) pieces.now)) }
{
    let mut reader = MessageReader::new(alloc);
    let mut count = 0usize;
    for piece in pieces {
        let fed = reader.feed(piece);
        for message in fed.messages.as_slice() {
            count = count.saturating_add(results_in(message));
        }
        let fault = fed.fault;
        // By a call here and below: what ends in place is released part by part, and the proof goes over each of them.
        drop(fed);
        if let Some(fault) = fault {
            drop(reader);
            return Err(fault);
        }
    }
    match reader.finish() {
        Ok(()) => Ok(count),
        Err(fault) => Err(fault),
    }
}

/// How many results a message has.
fn results_in(message: &Message) -> usize
    ensures { result ≡ capped (length (results_of message.now)) }
{
    let mut count = 0usize;
    for _placed in message.results() {
        count = count.saturating_add(1);
    }
    count
}
