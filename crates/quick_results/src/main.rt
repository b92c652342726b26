//! Counts the results in the messages on standard input; docs/rattle.md names it.
#![tactic(auto)]

use lis_message::{Message, MessageFault, MessageReader};
use std::io::{self, Read};
use std::mem::drop;

fn main(rt: HostRuntime) -> io::Result<()> {
    let mut reader = MessageReader::new(rt.alloc());
    let mut input = rt.reader();
    let mut buffer = [0u8; 4096];
    let mut count = 0u64;
    for _ in 0..u64::MAX {
        let taken = input.read(&mut buffer)?;
        if taken == 0 {
            break;
        }
        let (more, fault) = results_in_piece(&mut reader, &buffer[..taken]);
        count = count.saturating_add(more);
        if let Some(fault) = fault {
            return eprintln!(rt; "{fault}");
        }
    }
    match reader.finish() {
        Ok(()) => println!(rt; "{count} results"),
        Err(fault) => eprintln!(rt; "{fault}"),
    }
}

/// How many results the messages have that a piece completes, and why the next record can't be read, if it can't.
fn results_in_piece(reader: &mut MessageReader, piece: &[u8]) -> (u64, Option<MessageFault>) {
    let fed = reader.feed(piece);
    let mut count = 0u64;
    for message in fed.messages.as_slice() {
        count = count.saturating_add(results_in(message));
    }
    let fault = fed.fault;
    drop(fed);
    (count, fault)
}

/// How many results a message has.
fn results_in(message: &Message) -> u64 {
    let mut count = 0u64;
    for _placed in message.results() {
        count = count.saturating_add(1);
    }
    count
}
