//! The receiving end (LIS01-A2, 6.3 to 6.6).

ghost use Rattle.std.specs.Prelude.{◌≡◌, ◌≢◌, ◌≤◌, ◌<◌, ◌∷◌, ℕ, List, length, max, take, OnOk, OnErr, None};
ghost use Rattle.lis_frame.specs.Limit.{IsLimit};
ghost use Rattle.lis_text.specs.LinkText.{longest_text};
ghost use Rattle.lis_frame.specs.Scanner.{StandsFor};
ghost use Rattle.lis_link.specs.Receiver.{ReceiverState, new_receiver, on_byte, on_bytes, on_receiver_timer};
ghost use Rattle.lis_link.specs.Receiver.{receiver_restarted, with_heard, with_readiness, with_room};
ghost use Rattle.lis_link.specs.declared.receiver.Note.TheVariants as Notes;
ghost use Rattle.lis_link.specs.Front.{IsFront};
ghost use Rattle.lis_link.specs.Representation.{IsIn, IsStepMade, RefusesFrame, SpareAfter, KeepsRoom, room_of};
ghost use Rattle.lis_link.specs.inside.Representation.{HearsFront};

use crate::receiver::line::LineState;
use lis_frame::{FrameFault, ScannerOf};
use lis_text::{LinkText, Readiness};
use std::alloc::{AllocError, Global};
use std::marker::Model;

mod line;
mod state;

/// What a byte or an event meant to the receiver.
#[derive(Debug, Clone, Copy, PartialEq, Eq)]
pub enum Note {
    /// Nothing.
    Quiet,
    /// ENQ opened the line.
    Opened,
    /// ENQ was rejected.
    NotReady,
    /// EOT ended the session.
    Ended,
    /// The frame with this number was taken.
    Accepted(u8),
    /// The frame with this number was taken before.
    Duplicate(u8),
    /// The frame with this number isn't the next one.
    OutOfTurn(u8),
    /// The bytes between STX and LF are no frame, for this reason.
    Refused(FrameFault),
    /// There is no room for another frame.
    NoRoom,
    /// The text would be longer than a link text may be.
    TooLong,
    /// The session has as many frames as the receiver can count.
    TooMany,
    /// The held text couldn't grow.
    OutOfMemory,
    /// The receiver's timer ran out while the line was open.
    TimedOut,
}

/// The answer to a byte or an event: the reply to send, the text that is delivered, and what it
/// meant.
#[derive(Debug, PartialEq, Eq, Drop)]
pub struct Step {
    pub reply: Option<u8>,
    pub message: Option<LinkText>,
    pub note: Note,
}

/// What was heard of bytes: how many of them, and the step of the last one.
#[derive(Debug, PartialEq, Eq, Drop)]
pub struct Hearing {
    pub count: usize,
    pub step: Step,
}

/// The most frames that a receiver counts in a session.
pub const MOST_FRAMES: u64 = 4_294_967_295;

/// Seconds to wait for a frame or EOT while the line is open (LIS01-A2, 6.5).
pub const RECEIVER_SECONDS: u32 = 30;

/// The receiving end. It keeps a count of the accepted frames and the text that is held, never a
/// frame.
#[derive(Drop)]
pub struct ReceiverOf<const N: usize> {
    line: LineState,
    scanner: ScannerOf<N>,
}

impl<const N: usize> Model for ReceiverOf<N> {
    ghost use Rattle.lis_frame.specs.Limit.{IsLimit};
    ghost use Rattle.lis_link.specs.Kept.{Kept, kept_of};

    ghost Value = { Kept };

    ghost view = { λ r. kept_of r.line r.scanner };

    ghost invariant = { λ r. IsLimit N };
}

/// A receiver with the usual limit on a frame's text.
pub type Receiver = ReceiverOf<240>;

impl Step {
    /// A step that delivers nothing.
    fn of(reply: Option<u8>, note: Note) -> Self
        ensures { result ≡ record { reply = reply; message = None; note = note } }
    {
        Step {
            reply,
            message: None,
            note,
        }
    }
}

impl<const N: usize> ReceiverOf<N> {
    /// A receiver that is neutral and ready, and has room. It reserves nothing. `N` is a limit on a frame's text,
    /// from 240 to 63,993 bytes.
    pub fn new(alloc: Global) -> Self
        requires { IsLimit N }
        ensures state { IsIn N result new_receiver }
        ensures spare { result.spare ≡ 0 }
    {
        ReceiverOf {
            line: LineState::new(alloc),
            scanner: ScannerOf::new(),
        }
    }

    /// The scanner, which represents the bytes since the receiver was made or restarted.
    pub fn scanner(&self) -> &ScannerOf<N>
        ensures { (r : ReceiverState) → IsIn N self.now r → StandsFor N result.now r.past }
    {
        &self.scanner
    }

    /// How ENQ is answered now.
    pub fn readiness(&self) -> Readiness
        ensures { (r : ReceiverState) → IsIn N self.now r → result ≡ r.readiness }
    {
        self.line.readiness()
    }

    /// How ENQ is answered from now on.
    pub fn set_ready(&mut self, readiness: Readiness)
        ensures state { (r : ReceiverState) → IsIn N self.old r → IsIn N self.new (with_readiness readiness r) }
        ensures spare { self.new.spare ≡ self.old.spare }
        ensures room { room_of self.new ≡ room_of self.old }
    {
        self.line.set_ready(readiness);
    }

    /// Whether there is room for another frame from now on.
    pub fn set_room(&mut self, room: bool)
        ensures state { (r : ReceiverState) → IsIn N self.old r → IsIn N self.new (with_room room r) }
        ensures spare { self.new.spare ≡ self.old.spare }
    {
        self.line.set_room(room);
    }

    /// The receiver is neutral, ready and has room again, and has heard no byte; the count of
    /// accepted frames stays.
    pub fn restart(&mut self)
        ensures state { (r : ReceiverState) → IsIn N self.old r → IsIn N self.new (receiver_restarted r) }
        ensures spare { self.old.spare ≤ self.new.spare }
        ensures room { room_of self.new ≡ room_of self.old }
    {
        self.line.restart();
        self.scanner = ScannerOf::new();
    }

    /// The receiver's timer runs out.
    pub fn timer(&mut self) -> Step
        ensures step { (r : ReceiverState) → IsIn N self.old r → IsStepMade N (on_receiver_timer r) result self.new }
        ensures spare { self.old.spare ≤ self.new.spare }
        ensures room { room_of self.new ≡ room_of self.old }
    {
        self.line.timer()
    }

    /// Makes room for `bytes` more bytes of held text, at most 1,048,576, so that taking them takes no memory. It takes
    /// memory only if there is less room, and then just what is asked. If memory runs out the receiver is as before.
    pub fn reserve(&mut self, bytes: u64) -> Result<(), AllocError>
        requires { bytes ≤ longest_text }
        ensures ok { OnOk result (bytes ≤ self.new.spare) }
        ensures exact { OnOk result (self.new.spare ≡ max self.old.spare bytes) }
        ensures refused { OnErr result (self.old.spare < bytes) }
        ensures same { OnErr result (self.new ≡ self.old) }
        ensures state { (r : ReceiverState) → IsIn N self.old r → IsIn N self.new r }
        ensures spare { self.old.spare ≤ self.new.spare }
    {
        self.line.reserve(bytes)
    }

    /// Takes back a text that was delivered and is needed no more: its room is kept for the texts that follow, where
    /// it is more than the receiver has, so that those take no memory. Nothing else changes.
    pub fn reuse(&mut self, text: LinkText)
        ensures state { (r : ReceiverState) → IsIn N self.old r → IsIn N self.new r }
        ensures spare { self.old.spare ≤ self.new.spare }
    {
        self.line.reuse(text);
    }

    /// Hears one byte and answers it. A byte that gives no signal is quiet; ENQ, EOT and frames are
    /// answered by the table of the receiver's steps.
    ///
    /// Whatever state the receiver represents, the answer is that of the definition, and afterwards the
    /// receiver represents the state after the step. Only where a frame would be accepted whose text is
    /// longer than the spare room may memory run out instead; that is answered NAK, and but for the
    /// byte heard the state is as before.
    pub fn byte(&mut self, byte: u8) -> Step
        ensures step { (r : ReceiverState) → IsIn N self.old r → result.note ≢ Notes.OutOfMemory →
            IsStepMade N (on_byte N byte r) result self.new }
        ensures refused { (r : ReceiverState) → IsIn N self.old r → result.note ≡ Notes.OutOfMemory →
            RefusesFrame N self.old.spare (on_byte N byte r) (record r { past = byte ∷ r.past }) result self.new }
        ensures spare { (r : ReceiverState) → IsIn N self.old r
            → SpareAfter self.old.spare self.new.spare (on_byte N byte r).taken }
        ensures room { KeepsRoom result.note result.message (room_of self.old) (room_of self.new) }
    {
        let step = self.line.hear(self.scanner.peek(byte));
        self.scanner.take(byte);
        step
    }

    /// Hears bytes up to the first that is not quiet, or all of them where each is quiet, and answers how many they
    /// are and the step of the last one. `byte` is the case of one byte. A frame's text is copied once, after the
    /// held text.
    ///
    /// Whatever state the receiver represents, this is what the definition says, and memory may run out as for
    /// `byte`; but for the bytes heard the state is then as before.
    #[inline(always)]
    pub fn bytes(&mut self, bytes: &[u8]) -> Hearing
        ensures count { (r : ReceiverState) → IsIn N self.old r → result.count ≡ (on_bytes N bytes.now r).count }
        ensures step { (r : ReceiverState) → IsIn N self.old r → result.step.note ≢ Notes.OutOfMemory →
            IsStepMade N (on_bytes N bytes.now r).step result.step self.new }
        ensures refused { (r : ReceiverState) → IsIn N self.old r → result.step.note ≡ Notes.OutOfMemory →
            RefusesFrame N self.old.spare (on_bytes N bytes.now r).step (with_heard (take result.count bytes.now) r)
            result.step self.new }
        ensures spare { (r : ReceiverState) → IsIn N self.old r →
            SpareAfter self.old.spare self.new.spare (on_bytes N bytes.now r).step.taken }
        ensures room { KeepsRoom result.step.note result.step.message (room_of self.old) (room_of self.new) }

        // What is reported without a state: some bytes are heard, and all of them where the step is quiet.
        ensures bound { result.count ≤ length bytes.now }
        ensures some { 0 < length bytes.now → 0 < result.count }
        ensures all { result.step.note ≡ Notes.Quiet → result.count ≡ length bytes.now }
    {
        let mut count = 0;
        while count < bytes.len() {
            let Hearing { count: more, step } = self.hear_front(&bytes[count..]);
            count += more;
            match step.note {
                Note::Quiet => {}
                _ => return Hearing { count, step },
            }
        }
        Hearing {
            count,
            step: Step::of(None, Note::Quiet),
        }
    }

    /// Hears the front of bytes, of which there is one at least, and answers how many it has and the step of the last
    /// one. The front is a whole frame; or else all bytes up to the next STX, EOT, ENQ or LF, with an STX that is
    /// first; or the first byte, if that is EOT, ENQ or LF. So none but its first byte is STX, EOT or ENQ.
    ///
    /// It is heard as `bytes` hears these bytes alone. Memory may run out as for `byte`; but for the bytes heard the state
    /// is then as before.
    #[inline(always)]
    pub fn front(&mut self, bytes: &[u8]) -> Hearing
        requires { 0 < length bytes.now }
        ensures front { IsFront N bytes.now result.count }
        ensures count { (r : ReceiverState) → IsIn N self.old r →
            result.count ≡ (on_bytes N (take result.count bytes.now) r).count }
        ensures step { (r : ReceiverState) → IsIn N self.old r → result.step.note ≢ Notes.OutOfMemory →
            IsStepMade N (on_bytes N (take result.count bytes.now) r).step result.step self.new }
        ensures refused { (r : ReceiverState) → IsIn N self.old r → result.step.note ≡ Notes.OutOfMemory →
            RefusesFrame N self.old.spare (on_bytes N (take result.count bytes.now) r).step
            (with_heard (take result.count bytes.now) r) result.step self.new }
        ensures spare { (r : ReceiverState) → IsIn N self.old r → SpareAfter self.old.spare self.new.spare
            (on_bytes N (take result.count bytes.now) r).step.taken }
        ensures room { KeepsRoom result.step.note result.step.message (room_of self.old) (room_of self.new) }
        ensures bound { result.count ≤ length bytes.now }
        ensures some { 0 < result.count }
    {
        self.hear_front(bytes)
    }

    /// Hears the front of bytes: a whole frame, a run of bytes that a text may hold, or the first byte.
    #[inline(always)]
    fn hear_front(&mut self, bytes: &[u8]) -> Hearing
        requires { 0 < length bytes.now }
        ensures some { 0 < result.count }
        ensures bound { result.count ≤ length bytes.now }
        ensures is { IsFront N bytes.now result.count }
        ensures front { (whole : List ℕ) → take result.count whole ≡ take result.count bytes.now →
            result.count ≤ length whole → (r : ReceiverState) → IsIn N self.old r →
            HearsFront N whole r self.old.spare result self.new }
        ensures room { KeepsRoom result.step.note result.step.message (room_of self.old) (room_of self.new) }
    {
        let (count, frame) = self.scanner.scan(bytes);
        if count == 0 {
            return Hearing {
                count: 1,
                step: self.byte(bytes[0]),
            };
        }
        match frame {
            None => Hearing {
                count,
                step: Step::of(None, Note::Quiet),
            },
            Some(frame) => Hearing {
                count,
                step: self.line.good(&frame),
            },
        }
    }
}
