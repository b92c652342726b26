//! The line as a receiver has it: all of its state but the scanner. It answers what the scanner reports.

ghost use Rattle.std.specs.Prelude.{◌≡◌, ◌≢◌, ◌≤◌, ◌<◌, ◌+◌, ◌^◌, ℕ, length, [], IsTrue, OnOk, OnErr, None, Some};
ghost use Rattle.std.specs.Prelude.{◌&&◌, ◌==◌, ◌%◌, false, max, nat_lt};
ghost use Rattle.lis_text.specs.LinkText.{longest_text};
ghost use Rattle.lis_frame.specs.Scanner.{Held, heard_signal};
ghost use Rattle.lis_frame.specs.declared.scanner.SignalOf.TheVariants as Signals;
ghost use Rattle.lis_text.specs.Control.{NAK};
ghost use Rattle.lis_link.specs.declared.receiver.Note.TheVariants as Notes;
ghost use Rattle.lis_link.specs.Kept.{kept_of};
ghost use Rattle.lis_link.specs.inside.Kept.{idle_line};
ghost use Rattle.lis_link.specs.Receiver.{ReceiverState, answered_request, classified_by, heard_by, heard};
ghost use Rattle.lis_link.specs.Receiver.{on_receiver_timer};
ghost use Rattle.lis_link.specs.inside.Receiver.{found_reply};
ghost use Rattle.lis_link.specs.Representation.{IsIn, IsStepMade, RefusesFrame, SpareAfter, KeepsRoom};
ghost use Rattle.lis_link.specs.inside.Representation.{IsTaken, room_in};

use crate::receiver::{MOST_FRAMES, Note, Step};
use lis_frame::{BorrowedFrame, FrameFault, Heard};
use lis_text::{ACK, ENQ, LONGEST_TEXT, LinkText, List, NAK, Readiness};
use std::alloc::{AllocError, Global};
use std::marker::Model;
use std::mem;

/// Whether the line is open, the count of the accepted frames, how ENQ is answered, whether there is room, and the
/// text that is held.
#[derive(Drop)]
pub(crate) struct LineState {
    alloc: Global,
    is_open: bool,
    accepted: u64,
    readiness: Readiness,
    room: bool,
    held: Vec<u8>,
}

impl Model for LineState {
    ghost use Rattle.std.specs.Prelude.{◌-◌, ◌≤◌, length, vec_len, vec_capacity};
    ghost use Rattle.lis_text.specs.LinkText.{longest_text};
    ghost use Rattle.lis_link.specs.Kept.{KeptLine};

    ghost Value = { KeptLine };

    ghost view = { λ l. record {
      is_open = l.is_open;
      accepted = l.accepted;
      readiness = l.readiness;
      room = l.room;
      held = l.held.items;
      spare = vec_capacity l.held - vec_len l.held;
    } };

    ghost invariant = { λ l. (length l.held.items ≤ longest_text) × (l.accepted ≤ 4294967295) };
}

impl LineState {
    /// A line that isn't open, but will be where it is asked for, and has room. It reserves nothing.
    pub(crate) fn new(alloc: Global) -> Self
        ensures { result ≡ idle_line }
    {
        LineState {
            alloc,
            is_open: false,
            accepted: 0,
            readiness: Readiness::Ready,
            room: true,
            held: Vec::new(alloc),
        }
    }

    /// Whether the line is open.
    pub(crate) fn is_open(&self) -> bool
        ensures { result ≡ self.now.is_open }
    {
        self.is_open
    }

    /// How many frames were accepted since the line was last opened.
    pub(crate) fn accepted(&self) -> u64
        ensures { result ≡ self.now.accepted }
    {
        self.accepted
    }

    /// How many bytes of text are kept.
    pub(crate) fn held(&self) -> u64
        ensures value { result ≡ length self.now.held }
        ensures bound { result ≤ longest_text }
    {
        self.held.len() as u64
    }

    /// How ENQ is answered now.
    pub(crate) fn readiness(&self) -> Readiness
        ensures { result ≡ self.now.readiness }
    {
        self.readiness
    }

    /// How ENQ is answered from now on.
    pub(crate) fn set_ready(&mut self, readiness: Readiness)
        ensures { self.new ≡ record self.old { readiness = readiness } }
    {
        self.readiness = readiness;
    }

    /// Whether there is room for another frame from now on.
    pub(crate) fn set_room(&mut self, room: bool)
        ensures { self.new ≡ record self.old { room = room } }
    {
        self.room = room;
    }

    /// The line isn't open, and it is as when it was new but for the count of accepted frames.
    pub(crate) fn restart(&mut self)
        ensures line { self.new ≡ record idle_line { accepted = self.old.accepted; spare = self.new.spare } }
        ensures spare { self.old.spare ≤ self.new.spare }
        ensures room { room_in self.new ≡ room_in self.old }
    {
        self.close();
        self.readiness = Readiness::Ready;
        self.room = true;
    }

    /// Makes room for `bytes` more bytes of held text, and for no more. If memory runs out the line is as before.
    pub(crate) fn reserve(&mut self, bytes: u64) -> Result<(), AllocError>
        requires { bytes ≤ longest_text }
        ensures ok { OnOk result (bytes ≤ self.new.spare) }
        ensures exact { OnOk result (self.new.spare ≡ max self.old.spare bytes) }
        ensures refused { OnErr result (self.old.spare < bytes) }
        ensures same { OnErr result (self.new ≡ self.old) }
        ensures line { self.new ≡ record self.old { spare = self.new.spare } }
        ensures spare { self.old.spare ≤ self.new.spare }
    {
        self.held.reserve_exact(bytes as usize)
    }

    /// Takes the room of a text for the held text, where there is none yet that is held and more room in the other.
    pub(crate) fn reuse(&mut self, text: LinkText)
        ensures line { self.new ≡ record self.old { spare = self.new.spare } }
        ensures spare { self.old.spare ≤ self.new.spare }
    {
        let mut room = text.into_vec();
        if self.held.is_empty() && self.held.capacity() < room.capacity() {
            room.clear();
            self.held = room;
        }
    }

    /// The receiver's timer runs out.
    pub(crate) fn timer(&mut self) -> Step
        ensures step { (limit : ℕ) (scanner : Held) (r : ReceiverState) → IsIn limit (kept_of self.old scanner) r →
            IsStepMade limit (on_receiver_timer r) result (kept_of self.new scanner) }
        ensures spare { self.old.spare ≤ self.new.spare }
        ensures room { room_in self.new ≡ room_in self.old }
    {
        if !self.is_open {
            return Step::of(None, Note::Quiet);
        }
        self.close();
        Step::of(None, Note::TimedOut)
    }

    /// The line isn't open any more, and nothing is held.
    fn close(&mut self)
        ensures line { self.new ≡ record self.old { is_open = false; held = []; spare = self.new.spare } }
        ensures spare { self.old.spare ≤ self.new.spare }
        ensures room { self.new.spare ≡ room_in self.old }
    {
        self.is_open = false;
        self.held.clear();
    }

    /// Answers what the scanner reports, by the table of the receiver's steps. The text of a frame is copied once,
    /// after the held text.
    ///
    /// Memory may run out where a frame would be accepted whose text is longer than the spare room; that is
    /// answered NAK, and the line is as before.
    pub(crate) fn hear(&mut self, reported: Option<Heard<'_>>) -> Step
        ensures step { (limit : ℕ) (scanner : Held) (r : ReceiverState) → IsIn limit (kept_of self.old scanner) r →
            result.note ≢ Notes.OutOfMemory →
            IsStepMade limit (heard {limit = limit} (heard_signal reported.entry) r) result (kept_of self.new scanner) }
        ensures refused { (limit : ℕ) (scanner : Held) (r : ReceiverState) → IsIn limit (kept_of self.old scanner) r →
            result.note ≡ Notes.OutOfMemory →
            RefusesFrame limit self.old.spare (heard {limit = limit} (heard_signal reported.entry) r) r result
            (kept_of self.new scanner) }
        ensures spare { (limit : ℕ) (scanner : Held) (r : ReceiverState) → IsIn limit (kept_of self.old scanner) r →
            SpareAfter self.old.spare self.new.spare (heard {limit = limit} (heard_signal reported.entry) r).taken }
        ensures room { KeepsRoom result.note result.message (room_in self.old) (room_in self.new) }
    {
        match reported {
            None => Step::of(None, Note::Quiet),
            Some(Heard::Enq) => self.answer_request(),
            Some(Heard::Eot) => self.end(),
            Some(Heard::Good(frame)) => self.good(&frame),
            Some(Heard::Bad(fault)) => self.bad(fault),
        }
    }

    /// Answers ENQ, by the readiness.
    fn answer_request(&mut self) -> Step
        ensures step { (limit : ℕ) (scanner : Held) (r : ReceiverState) → IsIn limit (kept_of self.old scanner) r →
            IsStepMade limit (answered_request r.readiness r) result (kept_of self.new scanner) }
        ensures note { result.note ≢ Notes.OutOfMemory }
        ensures spare { self.old.spare ≤ self.new.spare }
        ensures room { KeepsRoom result.note result.message (room_in self.old) (room_in self.new) }
    {
        self.close();
        match self.readiness {
            Readiness::Ready => {
                self.is_open = true;
                self.accepted = 0;
                Step::of(Some(ACK), Note::Opened)
            }
            Readiness::Busy => Step::of(Some(NAK), Note::NotReady),
            Readiness::Contending => {
                self.readiness = Readiness::Ready;
                Step::of(Some(ENQ), Note::NotReady)
            }
        }
    }

    /// Hears EOT.
    fn end(&mut self) -> Step
        ensures step { (limit : ℕ) (scanner : Held) (r : ReceiverState) → IsIn limit (kept_of self.old scanner) r →
            IsStepMade limit (heard_by {limit = limit} r.is_open Signals.Eot r) result (kept_of self.new scanner) }
        ensures note { result.note ≢ Notes.OutOfMemory }
        ensures spare { self.old.spare ≤ self.new.spare }
        ensures room { KeepsRoom result.note result.message (room_in self.old) (room_in self.new) }
    {
        if !self.is_open {
            return Step::of(None, Note::Quiet);
        }
        self.close();
        Step::of(None, Note::Ended)
    }

    /// Answers bytes that are no frame.
    fn bad(&mut self, fault: FrameFault) -> Step
        ensures step { (limit : ℕ) (scanner : Held) (r : ReceiverState) → IsIn limit (kept_of self.old scanner) r →
            IsStepMade limit (heard_by {limit = limit} r.is_open (Signals.Bad fault) r) result
            (kept_of self.new scanner) }
        ensures note { result.note ≢ Notes.OutOfMemory }
        ensures spare { self.old.spare ≤ self.new.spare }
        ensures room { KeepsRoom result.note result.message (room_in self.old) (room_in self.new) }
    {
        if !self.is_open {
            return Step::of(None, Note::Quiet);
        }
        Step::of(Some(NAK), Note::Refused(fault))
    }

    /// Answers a good frame.
    #[inline(always)]
    pub(crate) fn good(&mut self, frame: &BorrowedFrame<'_>) -> Step
        ensures step { (limit : ℕ) (scanner : Held) (r : ReceiverState) → IsIn limit (kept_of self.old scanner) r →
            result.note ≢ Notes.OutOfMemory →
            IsStepMade limit (heard_by {limit = limit} r.is_open (Signals.Good frame.now) r) result
            (kept_of self.new scanner) }
        ensures refused { (limit : ℕ) (scanner : Held) (r : ReceiverState) → IsIn limit (kept_of self.old scanner) r →
            result.note ≡ Notes.OutOfMemory →
            RefusesFrame limit self.old.spare (heard_by {limit = limit} r.is_open (Signals.Good frame.now) r) r result
            (kept_of self.new scanner) }
        ensures spare { (limit : ℕ) (scanner : Held) (r : ReceiverState) → IsIn limit (kept_of self.old scanner) r →
            SpareAfter self.old.spare self.new.spare (heard_by {limit = limit} r.is_open (Signals.Good frame.now)
            r).taken }
        ensures room { KeepsRoom result.note result.message (room_in self.old) (room_in self.new) }
    {
        if !self.is_open {
            return Step::of(None, Note::Quiet);
        }
        let note = self.classify(frame.number(), frame.text().len());
        if let Note::Accepted(number) = note {
            return self.accept(frame, number);
        }
        Step::of(Some(found_reply(note)), note)
    }

    /// Takes a frame: its text is held or, after the held text, delivered.
    fn accept(&mut self, frame: &BorrowedFrame<'_>, number: u8) -> Step
        requires open { IsTrue self.old.is_open }
        requires countable { self.old.accepted < 4294967295 }
        requires short { length self.old.held + length frame.now.text ≤ longest_text }
        ensures taken { result.note ≢ Notes.OutOfMemory → IsTaken self.old frame.now number result self.new }
        ensures refused { result.note ≡ Notes.OutOfMemory → (self.old.spare < length frame.now.text)
            × (result.reply ≡ Some NAK) × (result.message ≡ None)
            × (self.old.spare ≤ self.new.spare) × (self.new ≡ record self.old { spare = self.new.spare }) }
        ensures spare { frame.now.last ≡ false → self.old.spare ≤ self.new.spare + length frame.now.text }
        ensures room { KeepsRoom result.note result.message (room_in self.old) (room_in self.new) }
    {
        if let Err(_) = self.held.extend_from_slice(frame.text()) {
            return Step::of(Some(NAK), Note::OutOfMemory);
        }
        self.accepted += 1;
        let message = if frame.is_last() {
            Some(self.deliver_held())
        } else {
            None
        };
        Step {
            reply: Some(ACK),
            message,
            note: Note::Accepted(number),
        }
    }

    /// Delivers the held text.
    fn deliver_held(&mut self) -> LinkText
        ensures text { result ≡ self.old.held }
        ensures state { self.new ≡ record self.old { held = []; spare = 0 } }
    {
        let held = mem::replace(&mut self.held, Vec::new(self.alloc));
        List::from_vec(held)
    }

    /// What is found of a frame with this number and so many bytes of text while the line is open: the
    /// first that fits of the table.
    fn classify(&self, number: u8, bytes: usize) -> Note
        requires { bytes < 2 ^ 63 }
        ensures value { result ≡ classified_by self.now.accepted (length self.now.held) self.now.room number bytes }
    {
        let number_due = (self.accepted + 1) % 8;
        if self.is_repeated(number) {
            Note::Duplicate(number)
        } else if u64::from(number) != number_due {
            Note::OutOfTurn(number)
        } else if !self.room {
            Note::NoRoom
        } else if self.accepted == MOST_FRAMES {
            Note::TooMany
        } else if self.held.len() + bytes > LONGEST_TEXT {
            Note::TooLong
        } else {
            Note::Accepted(number)
        }
    }

    /// Whether the frame that was accepted last has this number.
    #[inline(always)]
    fn is_repeated(&self, number: u8) -> bool
        ensures { result ≡ (nat_lt 0 self.now.accepted && number == self.now.accepted % 8) }
    {
        self.accepted > 0 && u64::from(number) == self.accepted % 8
    }
}

/// The reply to what was found of a frame.
fn found_reply(note: Note) -> u8
    ensures { result ≡ found_reply note }
{
    match note {
        Note::Accepted(_) | Note::Duplicate(_) => ACK,
        _ => NAK,
    }
}
