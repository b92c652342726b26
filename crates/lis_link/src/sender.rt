//! The sending end (LIS01-A2, 6.3 to 6.6).

ghost use Rattle.std.specs.Prelude.{◌≡◌, ◌<◌, ◌+◌, length, drop, None, Some, MatchResult};
ghost use Rattle.lis_frame.specs.Limit.{IsLimit};
ghost use Rattle.lis_link.specs.declared.sender.EmitOf.TheVariants as Emits;
ghost use Rattle.lis_link.specs.declared.sender.Phase.TheVariants as Phases;
ghost use Rattle.lis_link.specs.Sender.{SenderState, reply_in, new_sender, finished_with, bad_text, start_fault};
ghost use Rattle.lis_link.specs.Sender.{started};
ghost use Rattle.lis_link.specs.Sender.{awaited, first_frame, sends_first};
ghost use Rattle.lis_link.specs.Sender.{on_accepted, sends_again, on_reply, on_sender_timer, sender_restarted};

use crate::queue::QueueOf;
use crate::session_texts::{BorrowedTexts, SessionTexts};
use lis_frame::FrameOf;
use lis_text::{ACK, ENQ, EOT, TextFault, Texts, check_text};
use std::marker::Model;
use thiserror::Error;

mod duties;
mod state;

pub use duties::{BUSY_SECONDS, CONTENTION_SECONDS, REPLY_SECONDS};

/// Where the sender is between two events.
#[derive(Debug, Clone, Copy, PartialEq, Eq)]
pub enum Phase {
    /// No session is going on.
    Neutral,
    /// ENQ was sent, and its reply is awaited.
    AwaitLine,
    /// The receiver was busy: the sender waits before it asks again.
    Busy,
    /// The receiver asked for the line too: the sender waits before it asks again.
    Contention,
    /// A frame was sent, and its reply is awaited.
    AwaitReply,
}

/// How a session ended.
#[derive(Debug, Clone, Copy, PartialEq, Eq)]
pub enum Outcome {
    /// Each frame was acknowledged.
    Done,
    /// No reply came in time.
    TimedOut,
    /// A frame was sent six times and not accepted.
    SixTries,
    /// The sender was restarted.
    Restarted,
}

/// Why no session was started; the first that is, in this order, is reported.
#[derive(Debug, Clone, Copy, PartialEq, Eq, Error)]
pub enum StartFault {
    /// A session is going on.
    #[error("a session is going on")]
    InSession,
    /// There is no text to send.
    #[error("there is no text to send")]
    NoText,
    /// The text at this place, from 0, is the first that is no link text, for this reason.
    #[error("the text at place {index} can't be sent: {fault}")]
    BadText { index: usize, fault: TextFault },
}

/// What the sender puts on the link at an event.
#[derive(Debug, PartialEq, Eq, Drop)]
pub enum EmitOf<const N: usize> {
    /// Nothing.
    Nothing,
    /// ENQ, which asks for the line.
    Enq,
    /// EOT, which ends the session.
    Eot,
    /// NAK, which rejects a line request of the receiver's side.
    Nak,
    /// A frame.
    Frame(FrameOf<N>),
}

/// What the sender emits, with the usual limit on a frame's text.
pub type Emit = EmitOf<240>;

/// A start that was rejected: why, and the texts.
#[derive(Debug, PartialEq, Eq, Drop, Error)]
#[error("{fault}")]
pub struct StartRefusedOf<T: SessionTexts> {
    pub texts: T,
    pub fault: StartFault,
}

/// A rejected start of a sender that owns its texts.
pub type StartRefused = StartRefusedOf<Texts>;

/// How often a frame is sent before its session is given up.
const MOST_TRIES: u8 = 6;

/// The sending end over what holds the texts of its session. It keeps that until the session is finished and makes each
/// frame when it is due; it takes no memory.
#[derive(Drop)]
pub struct SenderOver<const N: usize, T: SessionTexts> {
    queue: Option<QueueOf<N, T>>,
    acknowledged: u64,
    phase: Phase,
    tries: u8,
    outcome: Option<Outcome>,
}

impl<const N: usize, T: SessionTexts> Model for SenderOver<N, T> {
    ghost use Rattle.lis_link.specs.Sender.{SenderState};
    ghost use Rattle.lis_link.specs.Queue.{frames_of, IsSender};

    ghost Value = { SenderState };

    ghost view = { λ s. record {
      frames = frames_of N s.queue;
      acknowledged = s.acknowledged;
      phase = s.phase;
      tries = s.tries;
      outcome = s.outcome;
    } };

    ghost invariant = { λ s. IsSender N s.queue s.acknowledged s.phase s.tries };
}

/// A sender that owns the texts of its session.
pub type SenderOf<const N: usize> = SenderOver<N, Texts>;

/// A sender with the usual limit on a frame's text.
pub type Sender = SenderOf<240>;

/// A sender whose texts stay where its caller has them: with it a session takes no heap at all.
pub type BorrowingSenderOf<'a, const N: usize> = SenderOver<N, BorrowedTexts<'a>>;

/// A borrowing sender with the usual limit on a frame's text.
pub type BorrowingSender<'a> = BorrowingSenderOf<'a, 240>;

impl<const N: usize, T: SessionTexts> SenderOver<N, T> {
    /// A sender that was never started. `N` is a limit on a frame's text, from 240 to 63,993 bytes.
    pub fn new() -> Self
        requires { IsLimit N }
        ensures { result ≡ new_sender }
    {
        SenderOver {
            queue: None,
            acknowledged: 0,
            phase: Phase::Neutral,
            tries: 0,
            outcome: None,
        }
    }

    /// Starts a session with these texts: ENQ is emitted. A rejected start gives the texts back, and the
    /// sender is as before.
    pub fn start(&mut self, texts: T) -> Result<EmitOf<N>, StartRefusedOf<T>>
        ensures { MatchResult result
            (λ emit. (start_fault self.old (T.texts texts) ≡ None) × (emit ≡ Emits.Enq)
            × (self.new ≡ started N (T.texts texts)))
            (λ refused. (start_fault self.old (T.texts texts) ≡ Some refused.fault) × (refused.texts ≡ texts)
            × (self.new ≡ self.old)) }
    {
        if let Some(fault) = self.start_fault(&texts) {
            return Err(StartRefusedOf { texts, fault });
        }
        self.queue = Some(QueueOf::new(texts));
        self.acknowledged = 0;
        self.phase = Phase::AwaitLine;
        self.tries = 0;
        self.outcome = None;
        Ok(EmitOf::Enq)
    }

    /// Why a start with these texts would be rejected, if it would: a session goes on, there is no text, or one of them
    /// is no link text (LIS01-A2, 6.3).
    pub fn start_fault(&self, texts: &T) -> Option<StartFault>
        ensures { result ≡ start_fault self.now (T.texts texts.now) }
    {
        match self.phase {
            Phase::Neutral => {}
            _ => return Some(StartFault::InSession),
        }
        if texts.count() == 0 {
            return Some(StartFault::NoText);
        }
        bad_text(texts)
    }

    /// A reply byte comes.
    pub fn reply(&mut self, byte: u8) -> EmitOf<N>
        ensures emit { result ≡ (on_reply {limit = N} byte self.old).emit }
        ensures after { self.new ≡ (on_reply {limit = N} byte self.old).after }
    {
        match self.phase {
            Phase::Neutral => {
                if byte == ENQ {
                    EmitOf::Nak
                } else {
                    EmitOf::Nothing
                }
            }
            Phase::AwaitLine => self.line_reply(byte),
            Phase::Busy => EmitOf::Nothing,
            Phase::Contention => EmitOf::Nothing,
            Phase::AwaitReply => {
                if byte == ACK || byte == EOT {
                    self.accepted()
                } else {
                    self.send_again()
                }
            }
        }
    }

    /// The timer runs out.
    pub fn timer(&mut self) -> EmitOf<N>
        ensures emit { result ≡ (on_sender_timer {limit = N} self.old).emit }
        ensures after { self.new ≡ (on_sender_timer {limit = N} self.old).after }
    {
        match self.phase {
            Phase::Neutral => EmitOf::Nothing,
            Phase::AwaitLine => self.end(Outcome::TimedOut),
            Phase::Busy => self.ask_again(),
            Phase::Contention => self.ask_again(),
            Phase::AwaitReply => self.end(Outcome::TimedOut),
        }
    }

    /// The session, if one goes on, is given up; nothing is emitted.
    pub fn restart(&mut self)
        ensures { self.new ≡ sender_restarted self.old }
    {
        match self.phase {
            Phase::Neutral => {}
            _ => self.close(Outcome::Restarted),
        }
    }

    /// The frame that was sent and awaits its reply, if one does.
    pub fn awaited(&self) -> Option<FrameOf<N>>
        ensures { result ≡ awaited self.now }
    {
        match self.phase {
            Phase::AwaitReply => self.present(),
            Phase::Neutral | Phase::AwaitLine | Phase::Busy | Phase::Contention => None,
        }
    }

    /// The session is finished: its texts are released.
    fn close(&mut self, outcome: Outcome)
        ensures { self.new ≡ finished_with outcome self.old }
    {
        self.queue = None;
        self.phase = Phase::Neutral;
        self.outcome = Some(outcome);
    }

    /// The session ends with EOT.
    fn end(&mut self, outcome: Outcome) -> EmitOf<N>
        ensures emit { result ≡ Emits.Eot }
        ensures after { self.new ≡ finished_with outcome self.old }
    {
        self.close(outcome);
        EmitOf::Eot
    }

    /// ENQ is sent once more.
    fn ask_again(&mut self) -> EmitOf<N>
        requires { self.old.acknowledged ≡ 0 }
        ensures emit { result ≡ Emits.Enq }
        ensures after { self.new ≡ record self.old { phase = Phases.AwaitLine } }
    {
        self.phase = Phase::AwaitLine;
        EmitOf::Enq
    }

    /// The reply to ENQ.
    fn line_reply(&mut self, byte: u8) -> EmitOf<N>
        requires { self.old.acknowledged ≡ 0 }
        ensures emit { result ≡ (reply_in {limit = N} Phases.AwaitLine byte self.old).emit }
        ensures after { self.new ≡ (reply_in {limit = N} Phases.AwaitLine byte self.old).after }
    {
        if byte == ACK {
            return self.send();
        }
        self.phase = if byte == ENQ {
            Phase::Contention
        } else {
            Phase::Busy
        };
        EmitOf::Nothing
    }

    /// The frame after the acknowledged ones.
    fn present(&self) -> Option<FrameOf<N>>
        ensures { result ≡ first_frame (drop self.now.acknowledged self.now.frames) }
    {
        match &self.queue {
            None => None,
            Some(queue) => {
                if queue.is_empty() {
                    return None;
                }
                Some(queue.frame())
            }
        }
    }

    /// The frame after the acknowledged ones is sent for the first time; where none is left, the
    /// session is done.
    fn send(&mut self) -> EmitOf<N>
        ensures emit { result ≡ (sends_first {limit = N} (drop self.old.acknowledged self.old.frames) self.old).emit }
        ensures after { self.new ≡
            (sends_first {limit = N} (drop self.old.acknowledged self.old.frames) self.old).after }
    {
        match self.present() {
            None => self.end(Outcome::Done),
            Some(frame) => {
                self.phase = Phase::AwaitReply;
                self.tries = 1;
                EmitOf::Frame(frame)
            }
        }
    }

    /// The present frame is accepted.
    fn accepted(&mut self) -> EmitOf<N>
        requires { self.old.acknowledged < length self.old.frames }
        ensures emit { result ≡ (on_accepted {limit = N} self.old).emit }
        ensures after { self.new ≡ (on_accepted {limit = N} self.old).after }
    {
        self.count_off();
        self.send()
    }

    /// The present frame counts as acknowledged, and the sender is between two frames.
    fn count_off(&mut self)
        requires { self.old.acknowledged < length self.old.frames }
        ensures { self.new ≡ record self.old { acknowledged = self.old.acknowledged + 1; phase = Phases.Neutral } }
    {
        let Some(queue) = &mut self.queue else {
            unreachable!();
        };
        queue.advance();
        self.acknowledged += 1;
        self.phase = Phase::Neutral;
    }

    /// The present frame is sent again, or given up.
    fn send_again(&mut self) -> EmitOf<N>
        requires { self.old.phase ≡ Phases.AwaitReply }
        ensures emit { result ≡ (sends_again {limit = N} (drop self.old.acknowledged self.old.frames) self.old).emit }
        ensures after { self.new ≡ (sends_again {limit = N} (drop self.old.acknowledged self.old.frames)
            self.old).after }
    {
        let Some(frame) = self.present() else {
            return EmitOf::Nothing;
        };
        if self.tries < MOST_TRIES {
            self.tries += 1;
            return EmitOf::Frame(frame);
        }
        self.end(Outcome::SixTries)
    }
}

/// The first text that is no link text.
#[tactic(auto, using(crate::proofs::StartLaws::bad_text_here, crate::proofs::StartLaws::bad_text_after))]
fn bad_text<T: SessionTexts>(texts: &T) -> Option<StartFault>
    ensures { result ≡ bad_text 0 (T.texts texts.now) }
{
    for index in 0..texts.count() {
        let Some(text) = texts.text(index) else {
            unreachable!();
        };
        if let Err(fault) = check_text(text) {
            return Some(StartFault::BadText { index, fault });
        }
    }
    None
}
