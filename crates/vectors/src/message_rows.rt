//! Calls on messages: reading them from pieces, building them from records, writing them on.

use crate::answer::Answer;
use crate::encoding::{delimiters_of, record_of};
use crate::message_parts::{put_fault, put_message, put_place_fault};
use crate::narrow::narrow_of;
use crate::resuming::write_on;
use crate::table_rows::put_others;
use crate::words::Call;
use lis_message::{Fed, Message, MessageFault, MessageReader, Messages, Records, read_messages};
use std::mem::{drop, replace};

/// The reader of a case, and the last message that was read or built.
#[derive(Drop)]
pub(crate) struct Reading {
    reader: Option<MessageReader>,
    message: Option<Message>,
}

impl Reading {
    /// No reader and no message.
    pub(crate) fn new() -> Self {
        Reading {
            reader: None,
            message: None,
        }
    }

    /// Answers a call on messages.
    pub(crate) fn call(&mut self, call: Call<'_>, answer: &mut Answer) {
        match call.name {
            "new" => self.renew(answer),
            "feed" => self.feed(call, answer),
            "finish" => self.finish(answer),
            "read" => self.read(call, answer),
            "build" => self.build(call, answer),
            "write" => self.write(call, answer),
            _ => answer.no_call(),
        }
    }

    /// A new reader.
    fn renew(&mut self, answer: &mut Answer) {
        drop(replace(&mut self.reader, Some(MessageReader::new(answer.alloc))));
        answer.word("ok");
    }

    /// Answers what the next piece of the stream gives.
    fn feed(&mut self, call: Call<'_>, answer: &mut Answer) {
        let Some(reader) = &mut self.reader else {
            return answer.no_call();
        };
        let piece = call.bytes(0, answer);
        let fed = reader.feed(piece.as_slice());
        drop(piece);
        let held = reader.held();
        self.put_fed(fed, answer);
        answer.number(" held=", held);
    }

    /// Answers what a whole stream gives, and what its tables say, if that is something else.
    fn read(&mut self, call: Call<'_>, answer: &mut Answer) {
        let bytes = call.bytes(0, answer);
        let fed = read_messages(answer.alloc, bytes.as_slice());
        let mut others = Answer::new(answer.alloc);
        put_others(bytes.as_slice(), &fed, &mut others);
        drop(bytes);
        self.put_fed(fed, answer);
        answer.answer(&others);
        drop(others);
    }

    /// Answers how the stream ends.
    fn finish(&mut self, answer: &mut Answer) {
        let Some(reader) = self.reader.take() else {
            return answer.no_call();
        };
        match reader.finish() {
            Ok(()) => answer.word("ok"),
            Err(fault) => put_refusal(fault, answer),
        }
    }

    /// Answers the message of records.
    fn build(&mut self, call: Call<'_>, answer: &mut Answer) {
        let [delimiters, words @ ..] = call.words else {
            return answer.no_call();
        };
        let Some(delimiters) = delimiters_of(*delimiters, answer) else {
            return;
        };
        let records = records_of(words, answer);
        match Message::from_records(answer.alloc, delimiters, records) {
            Ok(message) => self.put_message(message, answer),
            Err(fault) => put_refusal(fault, answer),
        }
    }

    /// Answers how the last message is written to narrow sinks.
    fn write(&self, call: Call<'_>, answer: &mut Answer) {
        let (place, skip) = (call.number(2, answer), call.number(3, answer));
        let (Some(message), Some(narrow)) = (&self.message, narrow_of(call, 0, answer)) else {
            return answer.no_call();
        };
        write_on(message, narrow, place, skip, answer);
    }

    /// Puts what was read, and keeps the last message.
    fn put_fed(&mut self, fed: Fed, answer: &mut Answer) {
        let fault = fed.fault;
        self.put_all(fed.messages, answer);
        answer.word("fault=");
        put_fault(fault, answer);
    }

    /// Puts messages, and keeps the last.
    fn put_all(&mut self, messages: Messages, answer: &mut Answer) {
        answer.number("messages=", messages.len() as u64);
        for message in messages.into_vec() {
            self.put_message(message, answer);
        }
    }

    /// Puts a message and keeps it, where the answer still has memory: a message that isn't reported is not kept.
    fn put_message(&mut self, message: Message, answer: &mut Answer) {
        put_message(&message, answer);
        if answer.is_in_trouble() {
            drop(message);
        } else {
            drop(replace(&mut self.message, Some(message)));
        }
    }
}

/// Puts that there is no message, and why.
fn put_refusal(fault: MessageFault, answer: &mut Answer) {
    answer.word("fault ");
    put_place_fault(fault, answer);
}

/// The records that words report.
fn records_of(words: &[&str], answer: &mut Answer) -> Records {
    let mut records = Records::new(answer.alloc);
    for word in words {
        if let Some(entry) = record_of(*word, answer) {
            answer.needs(records.push(entry));
        }
    }
    records
}
