//! What is in the caller's blocks, at the pointers.

ghost use Rattle.std.specs.Prelude.{◌≡◌, ◌≢◌, ◌≤◌, ◌<◌, ◌⊎◌, ◌++◌, ◌∷◌, [], false, length, max, None, Some};
ghost use Rattle.std.specs.Prelude.{MatchResult, OnErr, OnOk, take};
ghost use Rattle.lis_c.specs.Careful.{counted, heard_set, noise_set, noises_set, on_byte_set, on_bytes_set};
ghost use Rattle.lis_c.specs.Codes.{note_code, note_detail, note_place};
ghost use Rattle.lis_c.specs.Status.{AddTextStatus, OK};
ghost use Rattle.lis_c.specs.Steps.{IsNotOutOfMemory, IsOutOfMemory, MakesStep, ReportsRefusedFrame};
ghost use Rattle.lis_c.specs.inside.Steps.{ReportsStep};
ghost use Rattle.lis_c.specs.Limits.{NewScanner, Receives, kept_by, receiver_limit, sender_limit, sender_state};
ghost use Rattle.lis_c.specs.Limits.{spare_of, with_state};
ghost use Rattle.lis_c.specs.Within.{HasNoLimit, HasReserved, KeepsLimits, NewReceiverState};
ghost use Rattle.lis_link.specs.Receiver.{ReceiverState, on_receiver_timer};
ghost use Rattle.lis_link.specs.Sender.{new_sender, start_fault, started};
ghost use Rattle.lis_link.specs.Representation.{SpareAfter};
ghost use Rattle.lis_c.specs.Reading.{new_reader};
ghost use Rattle.lis_text.specs.LinkText.{longest_text};
ghost use Rattle.lis_text.specs.Text.{text_fault};

use crate::borrowed::{CallerTexts, OwnOrCallerTexts};
use crate::out::{LisStep, fault_code, fault_place};
use crate::receiving::AnyReceiver;
use crate::scanning::AnyScanner;
use crate::sending::AnySender;
use crate::status::{self, text_status};
use lis_careful::CarefulHearing;
use lis_link::{Note, StartFault, StartRefusedOf, Step};
use lis_message::RecordReader;
use lis_text::{LONGEST_TEXT, LinkText, List, MOST_TEXTS, Texts, check_bytes};
use std::alloc::{AllocError, Global};
use std::mem;

/// A scanner.
#[derive(Drop)]
pub struct ScannerHandleState {
    pub scanner: AnyScanner,
}

/// A sender, and the texts of its next session.
#[derive(Drop)]
pub struct SenderHandleState {
    pub alloc: Global,
    pub sender: AnySender,
    pub texts: Texts,
}

/// A receiver, the text that it delivered last, and the most bytes of a text, if its caller has a limit. After a text
/// it has again the room that was reserved, of which there are so many bytes next to that text; or it lacks room
/// because memory ran out. Whether it hears carefully, and how much noise it has heard since it was made.
#[derive(Drop)]
pub struct ReceiverHandleState {
    pub alloc: Global,
    pub receiver: AnyReceiver,
    pub text: LinkText,
    pub most: Option<usize>,
    pub reserved: u64,
    pub beside: u64,
    pub lacks_room: bool,
    pub careful: bool,
    pub noise: u64,
}

/// A reader of records.
#[derive(Drop)]
pub struct ReaderHandleState {
    pub reader: RecordReader,
}

/// Releases all that a handle's state keeps.
pub(crate) fn release_scanner(_handle_state: ScannerHandleState) {}

/// Releases all that a handle's state keeps.
pub(crate) fn release_sender(_handle_state: SenderHandleState) {}

/// Releases all that a handle's state keeps.
pub(crate) fn release_receiver(_handle_state: ReceiverHandleState) {}

/// Releases all that a handle's state keeps.
pub(crate) fn release_reader(_handle_state: ReaderHandleState) {}

impl ReaderHandleState {
    pub(crate) fn new(alloc: Global) -> Self
        ensures { result.reader ≡ new_reader }
    {
        ReaderHandleState {
            reader: RecordReader::new(alloc),
        }
    }
}

impl ScannerHandleState {
    pub(crate) fn new(_alloc: Global) -> Self
        ensures { NewScanner 240 result.scanner }
    {
        ScannerHandleState {
            scanner: AnyScanner::usual(),
        }
    }
}

impl SenderHandleState {
    pub(crate) fn new(alloc: Global) -> Self
        ensures { (sender_limit result.sender ≡ 240) × (sender_state result.sender ≡ new_sender) × (result.texts ≡ []) }
    {
        SenderHandleState {
            alloc,
            sender: AnySender::usual(),
            texts: Texts::new(alloc),
        }
    }

    /// Puts a copy of a text to the next session; where it is rejected the handle's state is as before.
    pub(crate) fn add(&mut self, bytes: &[u8]) -> u8
        ensures added { result ≡ OK →
            self.new ≡ record self.old { texts = self.old.texts ++ bytes.now ∷ [] } }
        ensures refused { result ≢ OK → self.new ≡ self.old }
        ensures status { AddTextStatus result (length self.old.texts) (text_fault longest_text bytes.now) }
    {
        add_text(&mut self.texts, self.alloc, bytes)
    }

    /// Releases the texts of the next session.
    pub(crate) fn clear(&mut self)
        ensures { self.new ≡ record self.old { texts = [] } }
    {
        self.texts = Texts::new(self.alloc);
    }

    /// Starts a session with the texts. Where it is rejected the handle's state is as before.
    pub(crate) fn start(&mut self) -> Result<(), StartFault>
        ensures { MatchResult result
            (λ unit. (start_fault (sender_state self.old.sender) self.old.texts ≡ None)
            × (self.new ≡ record self.old {
              sender = with_state self.old.sender (started (sender_limit self.old.sender) self.old.texts);
              texts = [];
            }))
            (λ fault. (start_fault (sender_state self.old.sender) self.old.texts ≡ Some fault)
            × (self.new ≡ self.old)) }
    {
        let texts = mem::replace(&mut self.texts, Texts::new(self.alloc));
        match self.sender.start(OwnOrCallerTexts::Copied(texts)) {
            Ok(()) => Ok(()),
            Err(refused) => {
                let StartRefusedOf { texts, fault } = refused;
                if let OwnOrCallerTexts::Copied(texts) = texts {
                    self.texts = texts;
                }
                Err(fault)
            }
        }
    }

    /// Starts a session with texts that stay with the caller. Where it is rejected the handle's state is as before.
    pub(crate) fn start_borrowed(&mut self, texts: CallerTexts) -> Result<(), StartFault>
        ensures { MatchResult result
            (λ unit. (start_fault (sender_state self.old.sender) texts ≡ None)
            × (self.new ≡ record self.old {
              sender = with_state self.old.sender (started (sender_limit self.old.sender) texts);
            }))
            (λ fault. (start_fault (sender_state self.old.sender) texts ≡ Some fault) × (self.new ≡ self.old)) }
    {
        match self.sender.start(OwnOrCallerTexts::Borrowed(texts)) {
            Ok(()) => Ok(()),
            Err(refused) => Err(refused.fault),
        }
    }
}

impl ReceiverHandleState {
    pub(crate) fn new(alloc: Global) -> Self
        ensures { NewReceiverState 240 result × (result.careful ≡ false) }
    {
        ReceiverHandleState::over(alloc, AnyReceiver::usual(alloc))
    }

    /// A receiver with no text, no limit on one, and nothing reserved.
    pub(crate) fn over(alloc: Global, receiver: AnyReceiver) -> Self
        ensures { (result.receiver ≡ receiver) × (result.text ≡ []) × HasNoLimit result × (result.noise ≡ 0)
            × (result.careful ≡ false) }
    {
        ReceiverHandleState {
            alloc,
            receiver,
            text: List::new(alloc),
            most: None,
            reserved: 0,
            beside: 0,
            lacks_room: false,
            careful: false,
            noise: 0,
        }
    }

    /// Makes room for `bytes` more bytes of held text, and as much next to the text that was delivered last, whose
    /// memory is the receiver's once the next one is delivered.
    pub(crate) fn reserve(&mut self, bytes: u64) -> Result<(), AllocError>
        requires { bytes ≤ longest_text }
        ensures ok { OnOk result (bytes ≤ spare_of self.new.receiver) }
        ensures exact { OnOk result (spare_of self.new.receiver ≡ max (spare_of self.old.receiver) bytes) }
        ensures same { OnErr result (kept_by self.new.receiver ≡ kept_by self.old.receiver) }
        ensures state { (r : ReceiverState) → Receives self.old.receiver r → Receives self.new.receiver r }
        ensures spare { spare_of self.old.receiver ≤ spare_of self.new.receiver }
        ensures limit { receiver_limit self.new.receiver ≡ receiver_limit self.old.receiver }
        ensures lasts { OnOk result ((self.new.reserved ≡ bytes) × (self.new.lacks_room ≡ false)) }
        ensures refused { OnErr result ((spare_of self.old.receiver < bytes) ⊎ (self.old.beside < bytes)) }
        ensures kept { OnErr result (self.new.reserved ≡ self.old.reserved) }
        ensures rest { (self.new.text ≡ self.old.text) × (self.new.most ≡ self.old.most)
            × (self.new.careful ≡ self.old.careful) × (self.new.noise ≡ self.old.noise) }
    {
        if self.beside < bytes {
            make_room(&mut self.text, self.alloc, bytes)?;
            self.beside = bytes;
        }
        self.receiver.reserve(bytes)?;
        self.reserved = bytes;
        self.lacks_room = false;
        Ok(())
    }

    /// Reports a step. A text that it delivers is kept; the receiver has the room of the one before, and at least what
    /// was reserved, unless memory runs out for it.
    // Within its callers the step is not copied.
    #[inline(always)]
    pub(crate) fn report(&mut self, step: Step, out: &mut LisStep)
        ensures reported { ReportsStep step self.old.text out.new self.new.text }
        ensures receiver { (r : ReceiverState) → Receives self.old.receiver r → Receives self.new.receiver r }
        ensures spare { spare_of self.old.receiver ≤ spare_of self.new.receiver }
        ensures limit { receiver_limit self.new.receiver ≡ receiver_limit self.old.receiver }
        ensures lasts { HasReserved out.new.has_text self.new }
        ensures rest { KeepsLimits self.old self.new }
        ensures noise { self.new.noise ≡ self.old.noise }
    {
        let Step {
            reply,
            message,
            note,
        } = step;
        out.reply = reply.unwrap_or(0);
        out.note = note_code(note);
        out.detail = note_detail(note);
        out.place = note_place(note);
        match message {
            None => out.has_text = false,
            Some(text) => {
                out.has_text = true;
                let before = mem::replace(&mut self.text, text);
                self.receiver.reuse(before);
                self.beside = 0;
                self.lacks_room = self.receiver.reserve(bounded(self.reserved)).is_err();
            }
        }
    }

    #[tactic(auto, using(crate::proofs::StepLaws::refused))]
    /// Hears one byte, and reports the step.
    pub(crate) fn byte(&mut self, byte: u8, out: &mut LisStep)
        ensures step { (r : ReceiverState) → Receives self.old.receiver r → IsNotOutOfMemory out.new
            → MakesStep (on_byte_set self.old.careful (receiver_limit self.old.receiver) self.old.most byte r)
            self.old out.new self.new }
        ensures refused { (r : ReceiverState) → Receives self.old.receiver r → IsOutOfMemory out.new
            → ReportsRefusedFrame (on_byte_set self.old.careful (receiver_limit self.old.receiver) self.old.most byte r)
            (heard_set self.old.careful (on_byte_set self.old.careful (receiver_limit self.old.receiver) self.old.most
            byte r) (byte ∷ []) r) self.old out.new self.new }
        ensures spare { (r : ReceiverState) → Receives self.old.receiver r
            → SpareAfter (spare_of self.old.receiver) (spare_of self.new.receiver)
            (on_byte_set self.old.careful (receiver_limit self.old.receiver) self.old.most byte r).taken }
        ensures limit { receiver_limit self.new.receiver ≡ receiver_limit self.old.receiver }
        ensures lasts { HasReserved out.new.has_text self.new }
        ensures rest { KeepsLimits self.old self.new }
        ensures noise { (r : ReceiverState) → Receives self.old.receiver r →
            self.new.noise ≡ counted self.old.noise (noise_set self.old.careful r byte) }
    {
        let noise = self.receiver.noise_set(self.careful, byte);
        let step = self.receiver.byte_set(self.careful, self.most, byte);
        self.report(step, out);
        self.noise = self.noise.saturating_add(noise as u64);
    }

    #[tactic(auto, using(crate::proofs::StepLaws::refused, crate::proofs::StepLaws::with_more))]
    /// Hears bytes up to the first that means something, reports the step, and answers how many it heard.
    pub(crate) fn hear(&mut self, bytes: &[u8], out: &mut LisStep) -> usize
        ensures count { (r : ReceiverState) → Receives self.old.receiver r →
            result ≡ (on_bytes_set self.old.careful (receiver_limit self.old.receiver) self.old.most bytes.now
            r).count }
        ensures step { (r : ReceiverState) → Receives self.old.receiver r → IsNotOutOfMemory out.new
            → MakesStep (on_bytes_set self.old.careful (receiver_limit self.old.receiver) self.old.most bytes.now
            r).step self.old out.new self.new }
        ensures refused { (r : ReceiverState) → Receives self.old.receiver r → IsOutOfMemory out.new
            → ReportsRefusedFrame (on_bytes_set self.old.careful (receiver_limit self.old.receiver) self.old.most
            bytes.now r).step
            (heard_set self.old.careful (on_bytes_set self.old.careful (receiver_limit self.old.receiver) self.old.most
            bytes.now r).step (take result bytes.now) r) self.old out.new self.new }
        ensures spare { (r : ReceiverState) → Receives self.old.receiver r
            → SpareAfter (spare_of self.old.receiver) (spare_of self.new.receiver)
            (on_bytes_set self.old.careful (receiver_limit self.old.receiver) self.old.most bytes.now r).step.taken }
        ensures limit { receiver_limit self.new.receiver ≡ receiver_limit self.old.receiver }
        ensures lasts { HasReserved out.new.has_text self.new }
        ensures rest { KeepsLimits self.old self.new }
        ensures noise { (r : ReceiverState) → Receives self.old.receiver r → self.new.noise ≡ counted self.old.noise
            (noises_set self.old.careful (receiver_limit self.old.receiver) self.old.most bytes.now r) }
    {
        let CarefulHearing { count, noise, step } = self
            .receiver
            .bytes_set(self.careful, self.most, bytes);
        self.report(step, out);
        self.noise = self.noise.saturating_add(noise as u64);
        count
    }

    /// The receiver's timer runs out.
    pub(crate) fn timer(&mut self, out: &mut LisStep)
        ensures step { (r : ReceiverState) → Receives self.old.receiver r →
            MakesStep (on_receiver_timer r) self.old out.new self.new }
        ensures spare { spare_of self.old.receiver ≤ spare_of self.new.receiver }
        ensures limit { receiver_limit self.new.receiver ≡ receiver_limit self.old.receiver }
        ensures rest { KeepsLimits self.old self.new }
        ensures noise { self.new.noise ≡ self.old.noise }
    {
        let step = self.receiver.timer();
        self.report(step, out);
    }
}

/// Makes room next to a text for so many bytes.
pub(crate) fn make_room(text: &mut LinkText, alloc: Global, bytes: u64) -> Result<(), AllocError>
    requires { bytes ≤ longest_text }
    ensures { text.new ≡ text.old }
{
    let mut room = mem::replace(text, List::new(alloc)).into_vec();
    let made = room.reserve_exact(bytes as usize);
    *text = List::from_vec(room);
    made
}

/// As many bytes, at most those of a text.
pub(crate) fn bounded(bytes: u64) -> u64
    ensures bound { result ≤ longest_text }
    ensures same { bytes ≤ longest_text → result ≡ bytes }
{
    bytes.min(LONGEST_TEXT as u64)
}

/// Puts a copy of a text after others; where it is rejected they are as before.
pub(crate) fn add_text(texts: &mut Texts, alloc: Global, bytes: &[u8]) -> u8
    ensures added { result ≡ OK → texts.new ≡ texts.old ++ bytes.now ∷ [] }
    ensures refused { result ≢ OK → texts.new ≡ texts.old }
    ensures status { AddTextStatus result (length texts.old) (text_fault longest_text bytes.now) }
{
    if let Err(fault) = check_bytes(bytes, LONGEST_TEXT) {
        return text_status(fault);
    }
    if texts.len() >= MOST_TEXTS {
        return status::FULL;
    }
    let mut text = List::new(alloc);
    if let Err(_) = text.extend(bytes) {
        return status::OUT_OF_MEMORY;
    }
    match texts.push(text) {
        Ok(()) => status::OK,
        Err(_) => status::OUT_OF_MEMORY,
    }
}

/// The code of what a step meant.
pub(crate) fn note_code(note: Note) -> u8
    ensures { result ≡ note_code note }
{
    match note {
        Note::Quiet => 0,
        Note::Opened => 1,
        Note::NotReady => 2,
        Note::Ended => 3,
        Note::Accepted(_) => 4,
        Note::Duplicate(_) => 5,
        Note::OutOfTurn(_) => 6,
        Note::Refused(_) => 7,
        Note::NoRoom => 8,
        Note::TooLong => 9,
        Note::TooMany => 10,
        Note::OutOfMemory => 11,
        Note::TimedOut => 12,
    }
}

/// The number or the code of the fault that goes with it; 0 where none does.
pub(crate) fn note_detail(note: Note) -> u8
    ensures { result ≡ note_detail note }
{
    match note {
        Note::Accepted(number) | Note::Duplicate(number) | Note::OutOfTurn(number) => number,
        Note::Refused(fault) => fault_code(fault),
        _ => 0,
    }
}

/// The place of the byte that no text may hold; 0 where none is at fault.
pub(crate) fn note_place(note: Note) -> usize
    ensures { result ≡ note_place note }
{
    match note {
        Note::Refused(fault) => fault_place(fault),
        _ => 0,
    }
}
