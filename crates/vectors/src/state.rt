//! What calls leave after for the next: a sender and receivers of either limit, a reader and a message.

ghost use Rattle.lis_frame.specs.Limit.{IsLimit};

use crate::answer::Answer;
use crate::both_rows::both_call;
use crate::frame_rows::{frame_call, text_call};
use crate::link_rows::{late_call, link_call};
use crate::message_rows::Reading;
use crate::record_rows::record_call;
use crate::words::Call;
use lis_link::{ReceiverOf, SenderOf};
use std::alloc::{AllocError, Global};
use std::mem::drop;

/// The usual limit on a frame's text, and the longest.
const USUAL: usize = 240;

const LONGEST: usize = 63_993;

/// The two ends of a link of one limit. Two receivers hear the same, and each counts the noise that it hears carefully.
#[derive(Drop)]
pub(crate) struct Ends<const N: usize> {
    pub(crate) sender: SenderOf<N>,
    pub(crate) receiver: ReceiverOf<N>,
    pub(crate) other_receiver: ReceiverOf<N>,
    pub(crate) is_careful: bool,
    pub(crate) noise: u64,
    pub(crate) other_noise: u64,
}

impl<const N: usize> Ends<N> {
    /// Two new ends.
    fn new(alloc: Global) -> Self
        requires { IsLimit N }
    {
        Ends {
            sender: SenderOf::new(),
            receiver: ReceiverOf::new(alloc),
            other_receiver: ReceiverOf::new(alloc),
            is_careful: false,
            noise: 0,
            other_noise: 0,
        }
    }

    /// Answers a call that has a limit.
    fn call(&mut self, subject: &str, call: Call<'_>, answer: &mut Answer)
        requires { IsLimit N }
    {
        match subject {
            "frame" => frame_call::<N>(call, answer),
            "text" => text_call::<N>(call, answer),
            "sender" => self.sender_call(call, answer),
            "receiver" => self.receiver_call(call, answer),
            "link" => link_call::<N>(call, answer),
            "late" => late_call::<N>(call, answer),
            "both" => both_call::<N>(call, answer),
            _ => answer.no_call(),
        }
    }
}

/// All that calls leave after.
#[derive(Drop)]
pub(crate) struct State {
    is_long: bool,
    usual: Ends<USUAL>,
    long: Ends<LONGEST>,
    reading: Reading,
}

impl State {
    /// The state before the first call.
    pub(crate) fn new(alloc: Global) -> Self {
        State {
            is_long: false,
            usual: Ends::new(alloc),
            long: Ends::new(alloc),
            reading: Reading::new(),
        }
    }

    /// Answers a line; an empty one by nothing.
    pub(crate) fn call(&mut self, line: &str, answer: &mut Answer) {
        if line.is_empty() {
            return;
        }
        let words: Result<Vec<&str>, AllocError> = line.split(' ').collect(answer.alloc);
        if let Some(words) = answer.made(words) {
            self.call_words(words.as_slice(), answer);
            drop(words);
        }
    }

    /// Answers the words of a line, of which the first is the call.
    fn call_words(&mut self, words: &[&str], answer: &mut Answer) {
        let [name, words @ ..] = words else {
            return answer.no_call();
        };
        match name.split_once('.') {
            Some((subject, name)) => self.call_subject(subject, Call { name, words }, answer),
            None => self.limit(Call { name: *name, words }, answer),
        }
    }

    /// Answers a call on a subject.
    fn call_subject(&mut self, subject: &str, call: Call<'_>, answer: &mut Answer) {
        match subject {
            "record" => record_call(call, answer),
            "message" => self.reading.call(call, answer),
            _ if self.is_long => self.long.call(subject, call, answer),
            _ => self.usual.call(subject, call, answer),
        }
    }

    /// The limit of frames from here on.
    fn limit(&mut self, call: Call<'_>, answer: &mut Answer) {
        let limit = call.number(0, answer) as usize;
        if call.name != "limit" || (limit != USUAL && limit != LONGEST) {
            return answer.no_call();
        }
        self.is_long = limit == LONGEST;
        answer.word("ok");
    }
}
