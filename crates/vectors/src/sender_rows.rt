//! Calls on a sender.

ghost use Rattle.lis_frame.specs.Limit.{IsLimit};

use crate::answer::Answer;
use crate::frame_rows::{put_frame, put_text_fault};
use crate::state::Ends;
use crate::words::{Call, byte_of, texts_of};
use lis_link::{EmitOf, Outcome, Phase, SenderOf, StartFault, StartRefused};
use lis_text::Texts;
use std::mem::{drop, replace};

impl<const N: usize> Ends<N> {
    /// Answers a call on the sender: what it emits, and then where it is.
    pub(crate) fn sender_call(&mut self, call: Call<'_>, answer: &mut Answer)
        requires { IsLimit N }
    {
        match call.name {
            "new" => drop(replace(&mut self.sender, SenderOf::new())),
            "start" => self.start(texts_of(call.word(0, answer), answer), answer),
            "reply" => self.reply(byte_of(call.word(0, answer), answer), answer),
            "timer" => put_emit(self.sender.timer(), answer),
            "restart" => self.sender.restart(),
            _ => answer.no_call(),
        }
        put_state(&self.sender, answer);
    }

    /// Puts what a reply makes the sender emit.
    fn reply(&mut self, byte: u8, answer: &mut Answer)
        requires { IsLimit N }
    {
        if !answer.is_in_trouble() {
            put_emit(self.sender.reply(byte), answer);
        }
    }

    /// Puts what the start of a session emits, or why it is rejected. No session is started without some of its texts.
    fn start(&mut self, texts: Texts, answer: &mut Answer)
        requires { IsLimit N }
    {
        if answer.is_in_trouble() {
            drop(texts);
            return;
        }
        match self.sender.start(texts) {
            Ok(emit) => put_emit(emit, answer),
            Err(refused) => put_start_refused(refused, answer),
        }
    }
}

/// Puts why a start is rejected, and its texts.
fn put_start_refused(refused: StartRefused, answer: &mut Answer) {
    answer.word("refused:");
    put_start_fault(refused.fault, answer);
    answer.texts(":", refused.texts.as_slice());
    drop(refused);
}

/// Puts what a sender emits.
fn put_emit<const N: usize>(emit: EmitOf<N>, answer: &mut Answer)
    requires { IsLimit N }
{
    match &emit {
        EmitOf::Nothing => answer.word("Nothing"),
        EmitOf::Enq => answer.word("Enq"),
        EmitOf::Eot => answer.word("Eot"),
        EmitOf::Nak => answer.word("Nak"),
        EmitOf::Frame(frame) => {
            answer.word("frame:");
            put_frame(frame, answer);
        }
    }
    drop(emit);
}

/// Puts why a start is rejected.
fn put_start_fault(fault: StartFault, answer: &mut Answer) {
    match fault {
        StartFault::InSession => answer.text("InSession"),
        StartFault::NoText => answer.text("NoText"),
        StartFault::BadText { index, fault } => {
            answer.number("BadText.", index as u64);
            answer.text(".");
            put_text_fault(fault, answer)
        }
    }
}

/// Puts where a sender is.
fn put_state<const N: usize>(sender: &SenderOf<N>, answer: &mut Answer)
    requires { IsLimit N }
{
    answer.word(match sender.phase() {
        Phase::Neutral => "Neutral",
        Phase::AwaitLine => "AwaitLine",
        Phase::Busy => "Busy",
        Phase::Contention => "Contention",
        Phase::AwaitReply => "AwaitReply",
    });
    answer.number(" acknowledged=", sender.acknowledged());
    put_outcome(sender.outcome(), answer)
}

/// Puts how a session ended.
pub(crate) fn put_outcome(outcome: Option<Outcome>, answer: &mut Answer) {
    answer.word(match outcome {
        None => "outcome=none",
        Some(Outcome::Done) => "outcome=Done",
        Some(Outcome::TimedOut) => "outcome=TimedOut",
        Some(Outcome::SixTries) => "outcome=SixTries",
        Some(Outcome::Restarted) => "outcome=Restarted",
    })
}
