//! A station: a sender and a receiver on one line.

ghost use Rattle.std.specs.Prelude.{true, false, ◌≡◌, ◌≤◌, ◌<◌, ◌∷◌, max, take, length, None, Some};
ghost use Rattle.std.specs.Prelude.{MatchResult, OnOk, OnErr};
ghost use Rattle.lis_frame.specs.Limit.{IsLimit};
ghost use Rattle.lis_text.specs.LinkText.{longest_text};
ghost use Rattle.lis_link.specs.declared.sender.EmitOf.TheVariants as Emits;
ghost use Rattle.lis_link.specs.Receiver.{ReceiverState, on_byte, on_bytes, with_heard};
ghost use Rattle.lis_link.specs.Sender.{started, sender_restarted};
ghost use Rattle.lis_link.specs.Front.{IsFront};
ghost use Rattle.lis_link.specs.Representation.{IsIn, SpareAfter, room_of};
ghost use Rattle.lis_station.specs.declared.station.Turn.TheVariants.{Free};
ghost use Rattle.lis_station.specs.Station.{awaits_reply, given_reply, turn_after_reply, reply_step, turn_reply};
ghost use Rattle.lis_station.specs.Station.{asks_after, turn_after_note, taken_by, new_station, on_station_byte};
ghost use Rattle.lis_station.specs.Station.{on_station_bytes, on_station_timer, station_seconds, turn_seconds};
ghost use Rattle.lis_station.specs.Station.{is_requested, turn_asked_for, station_fault, line_closed};
ghost use Rattle.lis_station.specs.Station.{station_restarted, readied, readiness_of, computer_contention_seconds};
ghost use Rattle.lis_station.specs.Representation.{station_at, IsStation, IsAnswer, IsRefused, IsOutOfMemory};
ghost use Rattle.lis_station.specs.Representation.{KeepsStationRoom};

use lis_link::{
    EmitOf, Hearing, Note, Phase, RECEIVER_SECONDS, Readiness, ReceiverOf, SenderOver,
    SessionTexts, StartFault, StartRefusedOf, Step,
};
use lis_text::{ENQ, EOT, LinkText, NAK, Texts};
use std::alloc::{AllocError, Global};
use std::marker::Model;
use thiserror::Error;

/// Which side of the line a station is. The analyzer goes first if both ask for the line at once (LIS01-A2, 6.2.7).
#[derive(Debug, Clone, Copy, PartialEq, Eq)]
pub enum Role {
    /// The analyzer.
    Analyzer,
    /// The computer.
    Computer,
}

/// Whether the other side waits for its turn.
#[derive(Debug, Clone, Copy, PartialEq, Eq)]
pub enum Turn {
    /// It doesn't.
    Free,
    /// It asked for the line when this side did.
    Contended,
    /// It answered a frame EOT in place of ACK.
    Requested,
}

/// What a byte or the timer meant to a station.
#[derive(Debug, PartialEq, Eq, Drop)]
pub enum AnswerOf<const N: usize> {
    /// It was for the sender, which emits this.
    Emits(EmitOf<N>),
    /// It was for the receiver.
    Hears(Step),
}

/// What was heard of bytes: how many of them, and what the last one meant.
#[derive(Debug, PartialEq, Eq, Drop)]
pub struct HearingOf<const N: usize> {
    pub count: usize,
    pub answer: AnswerOf<N>,
}

/// Why a station started no session.
#[derive(Debug, Clone, Copy, PartialEq, Eq, Error)]
pub enum StationFault {
    /// The other side has the line.
    #[error("the other side has the line")]
    LineOpen,
    /// The sender doesn't start one.
    #[error("{0}")]
    Start(StartFault),
}

/// A start that was rejected: why, and the texts.
#[derive(Debug, PartialEq, Eq, Drop, Error)]
#[error("{fault}")]
pub struct StationRefusedOf<T: SessionTexts> {
    pub texts: T,
    pub fault: StationFault,
}

/// Seconds that a computer waits for the analyzer's session when it got ENQ in reply to its ENQ (LIS01-A2, 6.5.2).
pub const COMPUTER_SECONDS: u32 = 20;

/// Seconds for which a station leaves the line to the other side that waits for its turn (LIS01-A2, 6.5).
pub const TURN_SECONDS: u32 = 15;

/// A side of a line that works both ways, over what holds the texts of its session. It has no clock: the caller lets
/// its one timer run out after `timer_seconds`, and starts it anew at each answer that is not quiet.
#[derive(Drop)]
pub struct StationOver<const N: usize, T: SessionTexts> {
    role: Role,
    sender: SenderOver<N, T>,
    receiver: ReceiverOf<N>,
    turn: Turn,
    asks_turn: bool,
}

impl<const N: usize, T: SessionTexts> Model for StationOver<N, T> {
    ghost use Rattle.lis_frame.specs.Limit.{IsLimit};
    ghost use Rattle.lis_station.specs.Representation.{KeptStation};

    ghost Value = { KeptStation };

    ghost view = { λ s. record {
      role = s.role;
      sender = s.sender;
      receiver = s.receiver;
      turn = s.turn;
      asks_turn = s.asks_turn;
    } };

    ghost invariant = { λ s. IsLimit N };
}

/// A station that owns the texts of its session.
pub type StationOf<const N: usize> = StationOver<N, Texts>;

/// A station with the usual limit on a frame's text.
pub type Station = StationOf<240>;

impl<const N: usize, T: SessionTexts> StationOver<N, T> {
    /// A station that was never started, whose receiver is neutral and ready. `N` is a limit on a frame's text, from
    /// 240 to 63,993 bytes.
    pub fn new(alloc: Global, role: Role) -> Self
        requires { IsLimit N }
        ensures state { IsStation N result (new_station role) }
        ensures spare { result.receiver.spare ≡ 0 }
    {
        StationOver {
            role,
            sender: SenderOver::new(),
            receiver: ReceiverOf::new(alloc),
            turn: Turn::Free,
            asks_turn: false,
        }
    }

    /// The sender.
    pub fn sender(&self) -> &SenderOver<N, T>
        ensures { result.now ≡ self.now.sender }
    {
        &self.sender
    }

    /// The receiver.
    pub fn receiver(&self) -> &ReceiverOf<N>
        ensures { result.now ≡ self.now.receiver }
    {
        &self.receiver
    }

    /// Whether a byte that comes is a reply: the sender awaits one. Else the receiver hears it, also while the sender
    /// waits before it asks for the line again.
    pub fn awaits_reply(&self) -> bool
        ensures { result ≡ awaits_reply self.now.sender.phase }
    {
        match self.sender.phase() {
            Phase::AwaitLine | Phase::AwaitReply => true,
            Phase::Neutral | Phase::Busy | Phase::Contention => false,
        }
    }

    /// Asks for the line, to send these texts: ENQ is emitted. While the other side has the line, and whenever the
    /// sender doesn't start a session, the texts come back and the station is as before.
    pub fn start(&mut self, texts: T) -> Result<EmitOf<N>, StationRefusedOf<T>>
        ensures { (r : ReceiverState) → IsIn N self.old.receiver r → MatchResult result
            (λ emit. (station_fault (station_at self.old r) (T.texts texts) ≡ None) × (emit ≡ Emits.Enq)
            × (self.new ≡ record self.old { sender = started N (T.texts texts); turn = Free }))
            (λ refused. (station_fault (station_at self.old r) (T.texts texts) ≡ Some refused.fault)
            × (refused.texts ≡ texts) × (self.new ≡ self.old)) }
    {
        let is_theirs = self.receiver.is_open();
        if is_theirs {
            return Err(StationRefusedOf {
                texts,
                fault: StationFault::LineOpen,
            });
        }
        match self.sender.start(texts) {
            Ok(emit) => {
                self.turn = Turn::Free;
                Ok(emit)
            }
            Err(StartRefusedOf { texts, fault }) => Err(StationRefusedOf {
                texts,
                fault: StationFault::Start(fault),
            }),
        }
    }

    /// A byte comes. While a reply is awaited it is one, else the receiver hears it.
    ///
    /// EOT in reply to a frame is given to the sender as NAK: it may be the end of a session that the other side asked
    /// for, which acknowledges nothing. `turn_asked` reports it. Only where a frame would be accepted whose text is
    /// longer than the receiver's spare room may memory run out; that is answered NAK, and but for the byte heard the
    /// state is as before.
    pub fn byte(&mut self, byte: u8) -> AnswerOf<N>
        ensures step { (r : ReceiverState) → IsIn N self.old.receiver r → (IsOutOfMemory result → ⊥) →
            IsAnswer N self.old (on_station_byte N byte (station_at self.old r)) result self.new }
        ensures refused { (r : ReceiverState) → IsIn N self.old.receiver r → IsOutOfMemory result →
            IsRefused N self.old (on_byte N byte r) (record r { past = byte ∷ r.past }) result self.new }
        ensures spare { (r : ReceiverState) → IsIn N self.old.receiver r →
            SpareAfter self.old.receiver.spare self.new.receiver.spare
            (taken_by (on_station_byte N byte (station_at self.old r)).answer) }
        ensures room { KeepsStationRoom result self.old.receiver self.new.receiver }
        ensures memory { IsOutOfMemory result → awaits_reply self.old.sender.phase ≡ false }
    {
        if self.awaits_reply() {
            return AnswerOf::Emits(self.reply(byte));
        }
        let step = self.receiver.byte(byte);
        AnswerOf::Hears(self.heard(step))
    }

    /// Bytes come: one of them while a reply is awaited, else those up to the first that is not quiet to the receiver,
    /// or all of them. Answers how many they are and what the last one meant. `byte` is the case of one byte.
    pub fn bytes(&mut self, bytes: &[u8]) -> HearingOf<N>
        ensures count { (r : ReceiverState) → IsIn N self.old.receiver r →
            result.count ≡ (on_station_bytes N bytes.now (station_at self.old r)).count }
        ensures step { (r : ReceiverState) → IsIn N self.old.receiver r → (IsOutOfMemory result.answer → ⊥) →
            IsAnswer N self.old (on_station_bytes N bytes.now (station_at self.old r)).step result.answer self.new }
        ensures refused { (r : ReceiverState) → IsIn N self.old.receiver r → IsOutOfMemory result.answer →
            IsRefused N self.old (on_bytes N bytes.now r).step (with_heard (take result.count bytes.now) r)
            result.answer self.new }
        ensures spare { (r : ReceiverState) → IsIn N self.old.receiver r →
            SpareAfter self.old.receiver.spare self.new.receiver.spare
            (taken_by (on_station_bytes N bytes.now (station_at self.old r)).step.answer) }
        ensures room { KeepsStationRoom result.answer self.old.receiver self.new.receiver }

        // What is reported without a state: some bytes are heard.
        ensures bound { result.count ≤ length bytes.now }
        ensures some { 0 < length bytes.now → 0 < result.count }
        ensures memory { IsOutOfMemory result.answer → awaits_reply self.old.sender.phase ≡ false }
    {
        if self.awaits_reply() {
            return self.first_reply(bytes);
        }
        let Hearing { count, step } = self.receiver.bytes(bytes);
        HearingOf {
            count,
            answer: AnswerOf::Hears(self.heard(step)),
        }
    }

    /// The front of bytes comes, of which there is one at least: one byte while a reply is awaited, else what the
    /// receiver hears at once, as `ReceiverOf::front` has it. Answers how many bytes they are and what the last one
    /// meant.
    ///
    /// It is heard as `bytes` hears these bytes alone.
    pub fn front(&mut self, bytes: &[u8]) -> HearingOf<N>
        requires { 0 < length bytes.now }
        ensures front { awaits_reply self.old.sender.phase ≡ false → IsFront N bytes.now result.count }
        ensures count { (r : ReceiverState) → IsIn N self.old.receiver r → result.count
            ≡ (on_station_bytes N (take result.count bytes.now) (station_at self.old r)).count }
        ensures step { (r : ReceiverState) → IsIn N self.old.receiver r → (IsOutOfMemory result.answer → ⊥) →
            IsAnswer N self.old (on_station_bytes N (take result.count bytes.now) (station_at self.old r)).step
            result.answer self.new }
        ensures refused { (r : ReceiverState) → IsIn N self.old.receiver r → IsOutOfMemory result.answer →
            IsRefused N self.old (on_bytes N (take result.count bytes.now) r).step
            (with_heard (take result.count bytes.now) r) result.answer self.new }
        ensures spare { (r : ReceiverState) → IsIn N self.old.receiver r →
            SpareAfter self.old.receiver.spare self.new.receiver.spare
            (taken_by (on_station_bytes N (take result.count bytes.now) (station_at self.old r)).step.answer) }
        ensures room { KeepsStationRoom result.answer self.old.receiver self.new.receiver }
        ensures bound { result.count ≤ length bytes.now }
        ensures some { 0 < result.count }
        ensures memory { IsOutOfMemory result.answer → awaits_reply self.old.sender.phase ≡ false }
    {
        if self.awaits_reply() {
            let answer = AnswerOf::Emits(self.reply(bytes[0]));
            return HearingOf { count: 1, answer };
        }
        let Hearing { count, step } = self.receiver.front(bytes);
        HearingOf {
            count,
            answer: AnswerOf::Hears(self.heard(step)),
        }
    }

    /// The sender hears the first of these bytes, if there is one.
    fn first_reply(&mut self, bytes: &[u8]) -> HearingOf<N>
        requires { awaits_reply self.old.sender.phase ≡ true }
        ensures count { (r : ReceiverState) → IsIn N self.old.receiver r →
            result.count ≡ (on_station_bytes N bytes.now (station_at self.old r)).count }
        ensures step { (r : ReceiverState) → IsIn N self.old.receiver r →
            IsAnswer N self.old (on_station_bytes N bytes.now (station_at self.old r)).step result.answer self.new }
        ensures memory { IsOutOfMemory result.answer → ⊥ }
        ensures receiver { self.new.receiver ≡ self.old.receiver }
        ensures room { KeepsStationRoom result.answer self.old.receiver self.new.receiver }
        ensures bound { result.count ≤ length bytes.now }
        ensures some { 0 < length bytes.now → 0 < result.count }
    {
        if bytes.is_empty() {
            return HearingOf {
                count: 0,
                answer: AnswerOf::Hears(Step {
                    reply: None,
                    message: None,
                    note: Note::Quiet,
                }),
            };
        }
        HearingOf {
            count: 1,
            answer: AnswerOf::Emits(self.reply(bytes[0])),
        }
    }

    /// The sender hears a reply.
    fn reply(&mut self, byte: u8) -> EmitOf<N>
        ensures emit { result ≡ (reply_step {limit = N} byte self.old.sender).emit }
        ensures after { self.new ≡ record self.old {
          sender = (reply_step {limit = N} byte self.old.sender).after;
          turn = turn_after_reply self.old.sender.phase byte self.old.turn;
        } }
    {
        let phase = self.sender.phase();
        self.turn = turn_after_reply(phase, byte, self.turn);
        self.sender.reply(given_reply(phase, byte))
    }

    /// The receiver has made a step: its reply with regard to this side's turn.
    fn heard(&mut self, mut step: Step) -> Step
        ensures step { result ≡ record step { reply = turn_reply step.note self.old.asks_turn step.reply } }
        ensures after { self.new ≡ record self.old {
          turn = turn_after_note step.note self.old.turn;
          asks_turn = asks_after step.note self.old.asks_turn;
        } }
    {
        match step.note {
            Note::Accepted(_) => {
                if self.asks_turn {
                    step.reply = Some(EOT);
                    self.asks_turn = false;
                }
            }
            Note::Ended | Note::TimedOut => {
                self.turn = Turn::Free;
                self.asks_turn = false;
            }
            Note::Opened | Note::NotReady => self.asks_turn = false,
            _ => {}
        }
        step
    }

    /// The station's timer runs out: the receiver's while its line is open, else the sender's.
    pub fn timer(&mut self) -> AnswerOf<N>
        ensures step { (r : ReceiverState) → IsIn N self.old.receiver r →
            IsAnswer N self.old (on_station_timer {limit = N} (station_at self.old r)) result self.new }
        ensures spare { self.old.receiver.spare ≤ self.new.receiver.spare }
        ensures room { room_of self.new.receiver ≡ room_of self.old.receiver }
    {
        if self.receiver.is_open() {
            let step = self.receiver.timer();
            return AnswerOf::Hears(self.heard(step));
        }
        AnswerOf::Emits(self.sender.timer())
    }

    /// The seconds of the timer that runs now; none if none runs (LIS01-A2, 6.2.7 and 6.5.2). 0 if a computer may ask
    /// for the line again at once, since the analyzer has had its turn after both asked.
    pub fn timer_seconds(&self) -> Option<u32>
        ensures { (r : ReceiverState) → IsIn N self.now.receiver r → result ≡ station_seconds (station_at self.now r) }
    {
        match (self.sender.phase(), self.role) {
            _ if self.receiver.is_open() => Some(RECEIVER_SECONDS),
            (Phase::Contention, Role::Computer) => Some(contention_seconds(self.turn)),
            (phase, _) => phase.timer_seconds(),
        }
    }

    /// Whether the other side has asked for its turn by EOT in place of ACK (LIS01-A2, 6.5), in this side's last
    /// session, and has not had it since.
    pub fn turn_asked(&self) -> bool
        ensures { result ≡ is_requested self.now.turn }
    {
        match self.turn {
            Turn::Requested => true,
            Turn::Free | Turn::Contended => false,
        }
    }

    /// The seconds for which this side leaves the line to the other one before it starts its next session, if that
    /// asked for its turn or for the line when this side did, and has not had its turn since.
    pub fn turn_seconds(&self) -> Option<u32>
        ensures { result ≡ turn_seconds self.now.turn }
    {
        match self.turn {
            Turn::Free => None,
            Turn::Contended | Turn::Requested => Some(TURN_SECONDS),
        }
    }

    /// Asks for this side's turn, while the other side has the line: the next frame that is accepted in its session is
    /// answered EOT in place of ACK (LIS01-A2, 6.5). A frame that comes again never is.
    pub fn ask_turn(&mut self)
        ensures state { (r : ReceiverState) → IsIn N self.old.receiver r →
            IsStation N self.new (turn_asked_for (station_at self.old r)) }
        ensures same { self.new.receiver ≡ self.old.receiver }
    {
        self.asks_turn = self.receiver.is_open();
    }

    /// The own session, if one goes on, is given up; nothing is emitted.
    pub fn give_up(&mut self)
        ensures { self.new ≡ record self.old { sender = sender_restarted self.old.sender } }
    {
        self.sender.restart();
    }

    /// The receiver is restarted, and is as ready as it was: what the other side sends is not taken until it asks for
    /// the line again.
    pub fn close_line(&mut self)
        ensures state { (r : ReceiverState) → IsIn N self.old.receiver r →
            IsStation N self.new (line_closed (station_at self.old r)) }
        ensures spare { self.old.receiver.spare ≤ self.new.receiver.spare }
        ensures room { room_of self.new.receiver ≡ room_of self.old.receiver }
    {
        let readiness = self.receiver.readiness();
        self.receiver.restart();
        self.receiver.set_ready(readiness);
        self.asks_turn = false;
    }

    /// Both ends are restarted, the receiver is ready, and nobody waits for a turn.
    pub fn restart(&mut self)
        ensures state { (r : ReceiverState) → IsIn N self.old.receiver r →
            IsStation N self.new (station_restarted (station_at self.old r)) }
        ensures spare { self.old.receiver.spare ≤ self.new.receiver.spare }
        ensures room { room_of self.new.receiver ≡ room_of self.old.receiver }
    {
        self.give_up();
        self.receiver.restart();
        self.turn = Turn::Free;
        self.asks_turn = false;
    }

    /// Whether the other side gets the line from now on, by ACK to its ENQ, or NAK.
    pub fn set_ready(&mut self, ready: bool)
        ensures state { (r : ReceiverState) → IsIn N self.old.receiver r →
            IsStation N self.new (readied ready (station_at self.old r)) }
        ensures spare { self.new.receiver.spare ≡ self.old.receiver.spare }
    {
        self.receiver.set_ready(readiness_of(ready));
    }

    /// Makes room for `bytes` more bytes of held text, at most 1,048,576, so that taking them takes no memory. If
    /// memory runs out the station is as before.
    pub fn reserve(&mut self, bytes: u64) -> Result<(), AllocError>
        requires { bytes ≤ longest_text }
        ensures ok { OnOk result (bytes ≤ self.new.receiver.spare) }
        ensures exact { OnOk result (self.new.receiver.spare ≡ max self.old.receiver.spare bytes) }
        ensures refused { OnErr result (self.old.receiver.spare < bytes) }
        ensures same { OnErr result (self.new ≡ self.old) }
        ensures state { (r : ReceiverState) → IsIn N self.old.receiver r →
            IsStation N self.new (station_at self.old r) }
        ensures spare { self.old.receiver.spare ≤ self.new.receiver.spare }
    {
        self.receiver.reserve(bytes)
    }

    /// Takes back a text that was delivered and is needed no more: its room is kept for the texts that follow, if it is
    /// more than the receiver has. Nothing else changes.
    pub fn reuse(&mut self, text: LinkText)
        ensures state { (r : ReceiverState) → IsIn N self.old.receiver r →
            IsStation N self.new (station_at self.old r) }
        ensures spare { self.old.receiver.spare ≤ self.new.receiver.spare }
    {
        self.receiver.reuse(text);
    }
}

/// How a receiver answers ENQ that is ready, or isn't.
fn readiness_of(ready: bool) -> Readiness
    ensures { result ≡ readiness_of ready }
{
    if ready {
        Readiness::Ready
    } else {
        Readiness::Busy
    }
}

/// The seconds that a computer waits after ENQ in reply to its ENQ: none if the analyzer has had its turn.
fn contention_seconds(turn: Turn) -> u32
    ensures { result ≡ computer_contention_seconds turn }
{
    match turn {
        Turn::Free => 0,
        Turn::Contended | Turn::Requested => COMPUTER_SECONDS,
    }
}

/// The byte that the sender is given in this phase: EOT in reply to a frame counts as NAK.
fn given_reply(phase: Phase, byte: u8) -> u8
    ensures { result ≡ given_reply phase byte }
{
    match phase {
        Phase::AwaitReply => { if byte == EOT { NAK } else { byte } }
        Phase::Neutral | Phase::AwaitLine | Phase::Busy | Phase::Contention => byte,
    }
}

/// Whether the other side waits for its turn, after this reply.
fn turn_after_reply(phase: Phase, byte: u8, turn: Turn) -> Turn
    ensures { result ≡ turn_after_reply phase byte turn }
{
    match phase {
        Phase::AwaitLine => { if byte == ENQ { Turn::Contended } else { turn } }
        Phase::AwaitReply => { if byte == EOT { Turn::Requested } else { turn } }
        Phase::Neutral | Phase::Busy | Phase::Contention => turn,
    }
}
