//! Calls on a receiver.

ghost use Rattle.std.specs.Prelude.{◌≤◌, length};
ghost use Rattle.lis_frame.specs.Limit.{IsLimit};

use crate::answer::Answer;
use crate::frame_rows::put_frame_fault;
use crate::state::Ends;
use crate::words::Call;
use lis_careful::{CarefulHearing, hear_byte, hear_bytes, noise_of};
use lis_link::{Hearing, Note, Readiness, ReceiverOf, Step};
use lis_text::LONGEST_TEXT;
use std::alloc::Global;
use std::mem::{drop, replace};

impl<const N: usize> Ends<N> {
    /// Answers a call on the receiver: its steps that aren't quiet, and then its state. One receiver hears bytes one by
    /// one, the other at once; they must answer the same.
    pub(crate) fn receiver_call(&mut self, call: Call<'_>, answer: &mut Answer)
        requires { IsLimit N }
    {
        let mut again = Answer::new(answer.alloc);
        if call.name == "noise" {
            answer.number("noise=", self.noise);
            again.number("noise=", self.other_noise);
        } else {
            self.receiver_event(call, answer, &mut again);
            put_state(&self.receiver, answer);
            put_state(&self.other_receiver, &mut again);
        }
        if answer.line() != again.line() {
            answer.word("at once: ");
            answer.answer(&again);
        }
        drop(again);
    }

    /// What happens to both receivers.
    fn receiver_event(&mut self, call: Call<'_>, answer: &mut Answer, again: &mut Answer)
        requires { IsLimit N }
    {
        match call.name {
            "new" => self.renew(false, answer.alloc),
            "careful" => self.renew(true, answer.alloc),
            "bytes" => self.hear(call.bytes(0, answer), answer, again),
            _ => {
                event(&mut self.receiver, call, answer);
                event(&mut self.other_receiver, call, again);
            }
        }
    }

    /// New receivers, which hear carefully or as the profile has it.
    fn renew(&mut self, is_careful: bool, alloc: Global)
        requires { IsLimit N }
    {
        drop(replace(&mut self.receiver, ReceiverOf::new(alloc)));
        drop(replace(&mut self.other_receiver, ReceiverOf::new(alloc)));
        self.is_careful = is_careful;
        self.noise = 0;
        self.other_noise = 0;
    }

    /// Both receivers hear bytes.
    fn hear(&mut self, bytes: Vec<u8>, answer: &mut Answer, again: &mut Answer)
        requires { IsLimit N }
    {
        self.hear_each(bytes.as_slice(), answer);
        self.hear_all(bytes.as_slice(), again);
        drop(bytes);
    }

    /// The receiver hears bytes one by one.
    fn hear_each(&mut self, bytes: &[u8], answer: &mut Answer)
        requires { IsLimit N }
    {
        for (place, byte) in bytes.iter().enumerate() {
            let step = self.hear_one(*byte);
            put_step(place, step, answer);
        }
    }

    /// The receiver hears a byte.
    fn hear_one(&mut self, byte: u8) -> Step
        requires { IsLimit N }
    {
        if !self.is_careful {
            return self.receiver.byte(byte);
        }
        let noise = noise_of(&self.receiver, byte) as u64;
        self.noise = self.noise.saturating_add(noise);
        hear_byte(&mut self.receiver, byte)
    }

    /// The other receiver hears them at once.
    fn hear_all(&mut self, bytes: &[u8], answer: &mut Answer)
        requires { IsLimit N }
    {
        let mut rest = bytes;
        let mut heard = 0usize;
        for _ in 0..bytes.len() {
            if rest.is_empty() {
                return;
            }
            let Hearing { count, step } = self.hear_some(rest);
            let (_, following) = rest.split_at(count);
            heard = heard.saturating_add(count);
            put_step(heard.saturating_sub(1), step, answer);
            rest = following;
        }
    }

    /// The other receiver hears those bytes up to the first that is not quiet.
    fn hear_some(&mut self, bytes: &[u8]) -> Hearing
        requires { IsLimit N }
        ensures bound { result.count ≤ length bytes.now }
    {
        if !self.is_careful {
            return self.other_receiver.bytes(bytes);
        }
        let CarefulHearing { count, noise, step } = hear_bytes(&mut self.other_receiver, bytes);
        self.other_noise = self.other_noise.saturating_add(noise as u64);
        Hearing { count, step }
    }
}

/// What happens to a receiver next to bytes.
fn event<const N: usize>(receiver: &mut ReceiverOf<N>, call: Call<'_>, answer: &mut Answer)
    requires { IsLimit N }
{
    match call.name {
        "timer" => put_step(0, receiver.timer(), answer),
        "restart" => receiver.restart(),
        "ready" => set_ready(receiver, call.word(0, answer), answer),
        "room" => receiver.set_room(call.word(0, answer) == "on"),
        "reserve" => reserve(receiver, call.number(0, answer), answer),
        _ => answer.no_call(),
    }
}

/// Sets how a receiver answers ENQ, by a word.
fn set_ready<const N: usize>(receiver: &mut ReceiverOf<N>, word: &str, answer: &mut Answer) {
    match word {
        "ready" => receiver.set_ready(Readiness::Ready),
        "busy" => receiver.set_ready(Readiness::Busy),
        "contending" => receiver.set_ready(Readiness::Contending),
        _ => answer.no_call(),
    }
}

/// Makes room for so many bytes.
fn reserve<const N: usize>(receiver: &mut ReceiverOf<N>, count: u64, answer: &mut Answer)
    requires { IsLimit N }
{
    if count > LONGEST_TEXT as u64 {
        return answer.no_call();
    }
    answer.needs(receiver.reserve(count));
    answer.word("ok");
}

/// Puts a step that isn't quiet: its place, its note, its reply, and the text that is delivered.
fn put_step(place: usize, step: Step, answer: &mut Answer) {
    if step.note != Note::Quiet || step.reply.is_some() {
        answer.part();
        answer.number("", place as u64);
        put_note(step.note, answer);
        put_reply(step.reply, answer);
        if let Some(text) = &step.message {
            answer.bytes(":", text.as_slice());
        }
    }
    drop(step);
}

/// Puts a reply, or that there is none.
fn put_reply(reply: Option<u8>, answer: &mut Answer) {
    match reply {
        Some(reply) => answer.byte(":", reply),
        None => answer.text(":none"),
    }
}

/// Puts what a receiver notes.
fn put_note(note: Note, answer: &mut Answer) {
    match note {
        Note::Quiet => answer.text("=Quiet"),
        Note::Opened => answer.text("=Opened"),
        Note::NotReady => answer.text("=NotReady"),
        Note::Ended => answer.text("=Ended"),
        Note::NoRoom => answer.text("=NoRoom"),
        Note::TooLong => answer.text("=TooLong"),
        Note::TooMany => answer.text("=TooMany"),
        Note::OutOfMemory => answer.text("=OutOfMemory"),
        Note::TimedOut => answer.text("=TimedOut"),
        Note::Accepted(number) => answer.number("=Accepted.", number as u64),
        Note::Duplicate(number) => answer.number("=Duplicate.", number as u64),
        Note::OutOfTurn(number) => answer.number("=OutOfTurn.", number as u64),
        Note::Refused(fault) => {
            answer.text("=Refused.");
            put_frame_fault(fault, answer)
        }
    }
}

/// Puts where a receiver is.
fn put_state<const N: usize>(receiver: &ReceiverOf<N>, answer: &mut Answer)
    requires { IsLimit N }
{
    answer.word(if receiver.is_open() { "open" } else { "shut" });
    answer.number(" accepted=", receiver.accepted());
    answer.number(" held=", receiver.held());
}
