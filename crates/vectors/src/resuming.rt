//! Writing a message on after sinks that failed.

ghost use Rattle.std.specs.Prelude.{◌≤◌, ◌-◌, length, drop, IfErr};
ghost use Rattle.lis_message.specs.Writing.{CanResume, first_length};
ghost use Rattle.lis_tree.specs.Tree.{flatten};

use crate::answer::{Answer, Trouble};
use crate::message_parts::put_message_wrote;
use crate::narrow::{Narrow, WIDE};
use lis_message::{Message, MessageWriteFault, WriteFault, write_message, write_message_from};
use lis_message_texts::{Texts, TextsFault, message_texts};
use lis_port::Slow;
use std::mem::drop;

/// How many sinks a message is written to at most.
const MOST_SINKS: u32 = 100_000;

/// What is left to write of a message: from the record at a place on, without the first `skip` bytes of that one.
#[derive(Clone, Copy)]
struct Rest<'a> {
    message: &'a Message,
    place: u64,
    skip: u64,
    ghost in_message: { (1 ≤ place) × (place ≤ length (flatten message.now))
        × (skip ≤ first_length message.now.delimiters (drop (place - 1) (flatten message.now))) },
}

/// Writes a message from a place on, without the first bytes of that record, to as many narrow sinks as it takes; it
/// stops where a sink took nothing. What is before goes to a sink that is full there.
pub(crate) fn write_on(
    message: &Message,
    narrow: Narrow,
    place: u64,
    skip: u64,
    answer: &mut Answer,
) {
    let before = front_of(message, place, skip, answer);
    if before > WIDE {
        return answer.no_call();
    }
    let mut front = Slow::new(before, WIDE);
    let wrote = write_message(&mut front, message);
    drop(front);
    match rest_of(message, wrote) {
        Some(rest) => write_rest(rest, narrow, answer),
        None => {
            answer.part();
            put_message_wrote(wrote, &[], answer);
        }
    }
}

/// How many bytes of a message are before a place, with so many of that record; none where it can't be written.
fn front_of(message: &Message, place: u64, skip: u64, answer: &mut Answer) -> usize {
    match message_texts(answer.alloc, message) {
        Ok(texts) => {
            let before = bytes_before(&texts, place, skip, answer);
            drop(texts);
            before
        }
        Err(TextsFault::BadRecord { .. }) => 0,
        Err(_) => {
            answer.trouble(Trouble::OutOfMemory);
            0
        }
    }
}

/// How many bytes are before a place of texts, with so many of the one there.
fn bytes_before(texts: &Texts, place: u64, skip: u64, answer: &mut Answer) -> usize {
    let mut before = 0usize;
    let mut at = 1u64;
    for text in texts.as_slice() {
        if at == place && skip <= text.len() as u64 {
            return before.saturating_add(skip as usize);
        }
        before = before.saturating_add(text.len());
        at = at.saturating_add(1);
    }
    answer.no_call();
    0
}

/// What is left of a message where its writing ended; nothing where no sink failed.
fn rest_of(message: &Message, wrote: Result<(), MessageWriteFault>) -> Option<Rest<'_>>
    requires { IfErr wrote (λ fault. CanResume message.now fault.place fault.fault) }
{
    let Err(MessageWriteFault { place, fault }) = wrote else {
        return None;
    };
    match fault {
        WriteFault::Io(skip) if place < u64::MAX => Some(Rest {
            message,
            place,
            skip,
        }),
        _ => None,
    }
}

/// Writes what is left to one narrow sink after the other.
fn write_rest(rest: Rest<'_>, narrow: Narrow, answer: &mut Answer) {
    let mut left = rest;
    for _ in 0..MOST_SINKS {
        match write_part(left, narrow, answer) {
            Some(rest) => left = rest,
            None => return,
        }
    }
    answer.no_call();
}

/// Writes on to one narrow sink; what is left where that took something and failed.
fn write_part<'a>(rest: Rest<'a>, narrow: Narrow, answer: &mut Answer) -> Option<Rest<'a>> {
    let mut sink = narrow.sink();
    let wrote = write_message_from(&mut sink, rest.message, rest.place, rest.skip);
    answer.part();
    put_message_wrote(wrote, sink.took(), answer);
    let is_finished = sink.took().is_empty();
    drop(sink);
    if is_finished {
        return None;
    }
    rest_of(rest.message, wrote)
}
