//! A receiver of the usual limit on a frame's text, or of the long one.

ghost use Rattle.std.specs.Prelude.{◌≡◌, ◌≢◌, ◌≤◌, ◌<◌, ◌∷◌, [], length, max, take, true, IfOk, IsTrue, OnErr};
ghost use Rattle.std.specs.Prelude.{OnOk, Some};
ghost use Rattle.lis_c.specs.Careful.{heard_set, noise_set, on_byte_set};
ghost use Rattle.lis_c.specs.Limits.{NewReceiver, Receives, kept_by, receiver_limit, spare_of};
ghost use Rattle.lis_c.specs.Within.{is_over, on_byte_within, on_bytes_within};
ghost use Rattle.lis_c.specs.inside.Careful.{IsHeardSet};
ghost use Rattle.lis_c.specs.inside.Within.{IsHeardWithin};
ghost use Rattle.lis_careful.specs.Careful.{ends_session, heard_as, heard_only, is_noise, noise_in, noise_of};
ghost use Rattle.lis_careful.specs.Careful.{on_bytes_carefully};
ghost use Rattle.lis_frame.specs.Stream.{open_body};
ghost use Rattle.lis_frame.specs.Stream.{signal_after};
ghost use Rattle.lis_link.specs.declared.receiver.Note.TheVariants as Notes;
ghost use Rattle.lis_link.specs.Receiver.{ReceiverState, answers, held_length, on_byte, on_bytes, on_receiver_timer};
ghost use Rattle.lis_link.specs.Receiver.{receiver_restarted, with_heard, with_readiness, with_room};
ghost use Rattle.lis_link.specs.Representation.{IsIn, IsStepMade, RefusesFrame, SpareAfter};
ghost use Rattle.lis_text.specs.Control.{LF, NAK};
ghost use Rattle.lis_text.specs.LinkText.{longest_text};

use lis_careful::{CarefulHearing, closes, hear_bytes, heard_as, noise_of};
use lis_frame::Heard;
use lis_link::{Hearing, Note, Readiness, Receiver, ReceiverOf, Step};
use lis_text::{EOT, LF, LinkText, NAK, STX};
use std::alloc::{AllocError, Global};

/// A receiver of either limit.
#[derive(Drop)]
pub enum AnyReceiver {
    Usual(Receiver),
    Long(Box<ReceiverOf<63_993>>),
}

impl AnyReceiver {
    /// A new receiver of the usual limit.
    pub(crate) fn usual(alloc: Global) -> Self
        ensures { NewReceiver 240 result }
    {
        AnyReceiver::Usual(Receiver::new(alloc))
    }

    /// A new receiver of the long limit.
    #[inline(never)]
    pub(crate) fn long(alloc: Global) -> Result<Self, AllocError>
        ensures { IfOk result (NewReceiver 63993) }
    {
        Ok(AnyReceiver::Long(Box::new(alloc, ReceiverOf::new(alloc))?))
    }

    /// How ENQ is answered from now on.
    pub(crate) fn set_ready(&mut self, readiness: Readiness)
        ensures state { (r : ReceiverState) → Receives self.old r → Receives self.new (with_readiness readiness r) }
        ensures spare { spare_of self.new ≡ spare_of self.old }
        ensures limit { receiver_limit self.new ≡ receiver_limit self.old }
    {
        match self {
            AnyReceiver::Usual(receiver) => receiver.set_ready(readiness),
            AnyReceiver::Long(receiver) => receiver.set_ready(readiness),
        }
    }

    /// Whether there is room for another frame from now on.
    pub(crate) fn set_room(&mut self, room: bool)
        ensures state { (r : ReceiverState) → Receives self.old r → Receives self.new (with_room room r) }
        ensures spare { spare_of self.new ≡ spare_of self.old }
        ensures limit { receiver_limit self.new ≡ receiver_limit self.old }
    {
        match self {
            AnyReceiver::Usual(receiver) => receiver.set_room(room),
            AnyReceiver::Long(receiver) => receiver.set_room(room),
        }
    }

    /// The receiver is neutral, ready and has room again.
    pub(crate) fn restart(&mut self)
        ensures state { (r : ReceiverState) → Receives self.old r → Receives self.new (receiver_restarted r) }
        ensures spare { spare_of self.old ≤ spare_of self.new }
        ensures limit { receiver_limit self.new ≡ receiver_limit self.old }
    {
        match self {
            AnyReceiver::Usual(receiver) => receiver.restart(),
            AnyReceiver::Long(receiver) => restart_long(receiver),
        }
    }

    /// The receiver's timer runs out.
    pub(crate) fn timer(&mut self) -> Step
        ensures step { (r : ReceiverState) → Receives self.old r →
            IsStepMade (receiver_limit self.new) (on_receiver_timer r) result (kept_by self.new) }
        ensures spare { spare_of self.old ≤ spare_of self.new }
        ensures limit { receiver_limit self.new ≡ receiver_limit self.old }
    {
        match self {
            AnyReceiver::Usual(receiver) => receiver.timer(),
            AnyReceiver::Long(receiver) => receiver.timer(),
        }
    }

    /// Makes room for `bytes` more bytes of held text, at most 1,048,576.
    pub(crate) fn reserve(&mut self, bytes: u64) -> Result<(), AllocError>
        requires { bytes ≤ longest_text }
        ensures ok { OnOk result (bytes ≤ spare_of self.new) }
        ensures exact { OnOk result (spare_of self.new ≡ max (spare_of self.old) bytes) }
        ensures refused { OnErr result (spare_of self.old < bytes) }
        ensures same { OnErr result (kept_by self.new ≡ kept_by self.old) }
        ensures state { (r : ReceiverState) → Receives self.old r → Receives self.new r }
        ensures spare { spare_of self.old ≤ spare_of self.new }
        ensures limit { receiver_limit self.new ≡ receiver_limit self.old }
    {
        match self {
            AnyReceiver::Usual(receiver) => receiver.reserve(bytes),
            AnyReceiver::Long(receiver) => receiver.reserve(bytes),
        }
    }

    /// Takes back a text that was delivered and is needed no more.
    pub(crate) fn reuse(&mut self, text: LinkText)
        ensures state { (r : ReceiverState) → Receives self.old r → Receives self.new r }
        ensures spare { spare_of self.old ≤ spare_of self.new }
        ensures limit { receiver_limit self.new ≡ receiver_limit self.old }
    {
        match self {
            AnyReceiver::Usual(receiver) => receiver.reuse(text),
            AnyReceiver::Long(receiver) => receiver.reuse(text),
        }
    }

    /// Hears one byte and answers it.
    pub(crate) fn byte(&mut self, byte: u8) -> Step
        ensures step { (r : ReceiverState) → Receives self.old r → result.note ≢ Notes.OutOfMemory →
            IsStepMade (receiver_limit self.new) (on_byte (receiver_limit self.old) byte r) result (kept_by self.new) }
        ensures refused { (r : ReceiverState) → Receives self.old r → result.note ≡ Notes.OutOfMemory →
            RefusesFrame (receiver_limit self.new) (spare_of self.old) (on_byte (receiver_limit self.old) byte r)
            (record r { past = byte ∷ r.past }) result (kept_by self.new) }
        ensures spare { (r : ReceiverState) → Receives self.old r →
            SpareAfter (spare_of self.old) (spare_of self.new) (on_byte (receiver_limit self.old) byte r).taken }
        ensures limit { receiver_limit self.new ≡ receiver_limit self.old }
    {
        match self {
            AnyReceiver::Usual(receiver) => receiver.byte(byte),
            AnyReceiver::Long(receiver) => receiver.byte(byte),
        }
    }

    /// Hears bytes up to the first that is not quiet, or all of them if each is quiet.
    pub(crate) fn bytes(&mut self, bytes: &[u8]) -> Hearing
        ensures count { (r : ReceiverState) → Receives self.old r →
            result.count ≡ (on_bytes (receiver_limit self.old) bytes.now r).count }
        ensures step { (r : ReceiverState) → Receives self.old r → result.step.note ≢ Notes.OutOfMemory →
            IsStepMade (receiver_limit self.new) (on_bytes (receiver_limit self.old) bytes.now r).step result.step
            (kept_by self.new) }
        ensures refused { (r : ReceiverState) → Receives self.old r → result.step.note ≡ Notes.OutOfMemory →
            RefusesFrame (receiver_limit self.new) (spare_of self.old)
            (on_bytes (receiver_limit self.old) bytes.now r).step (with_heard (take result.count bytes.now) r)
            result.step (kept_by self.new) }
        ensures spare { (r : ReceiverState) → Receives self.old r → SpareAfter (spare_of self.old)
            (spare_of self.new) (on_bytes (receiver_limit self.old) bytes.now r).step.taken }
        ensures limit { receiver_limit self.new ≡ receiver_limit self.old }
    {
        match self {
            AnyReceiver::Usual(receiver) => receiver.bytes(bytes),
            AnyReceiver::Long(receiver) => receiver.bytes(bytes),
        }
    }

    #[tactic(auto, using(crate::proofs::WithinLaws::over_open, crate::proofs::WithinLaws::over_feed))]
    /// Hears one byte as `byte` does; but the next frame of an open line with which its text would have more than
    /// `most` bytes is answered NAK and not taken.
    pub(crate) fn byte_within(&mut self, most: Option<usize>, byte: u8) -> Step
        ensures step { (r : ReceiverState) → Receives self.old r → result.note ≢ Notes.OutOfMemory →
            IsStepMade (receiver_limit self.new) (on_byte_within (receiver_limit self.old) most byte r) result
            (kept_by self.new) }
        ensures refused { (r : ReceiverState) → Receives self.old r → result.note ≡ Notes.OutOfMemory →
            RefusesFrame (receiver_limit self.new) (spare_of self.old)
            (on_byte_within (receiver_limit self.old) most byte r) (record r { past = byte ∷ r.past }) result
            (kept_by self.new) }
        ensures spare { (r : ReceiverState) → Receives self.old r → SpareAfter (spare_of self.old) (spare_of self.new)
            (on_byte_within (receiver_limit self.old) most byte r).taken }
        ensures limit { receiver_limit self.new ≡ receiver_limit self.old }
    {
        if self.is_over(most, byte) {
            self.reject()
        } else {
            self.byte(byte)
        }
    }

    /// Hears bytes as `bytes` does; but the next frame of an open line with which its text would have more than `most`
    /// bytes is answered NAK and not taken.
    pub(crate) fn bytes_within(&mut self, most: Option<usize>, bytes: &[u8]) -> Hearing
        ensures count { (r : ReceiverState) → Receives self.old r →
            result.count ≡ (on_bytes_within (receiver_limit self.old) most bytes.now r).count }
        ensures step { (r : ReceiverState) → Receives self.old r → result.step.note ≢ Notes.OutOfMemory →
            IsStepMade (receiver_limit self.new) (on_bytes_within (receiver_limit self.old) most bytes.now r).step
            result.step (kept_by self.new) }
        ensures refused { (r : ReceiverState) → Receives self.old r → result.step.note ≡ Notes.OutOfMemory →
            RefusesFrame (receiver_limit self.new) (spare_of self.old)
            (on_bytes_within (receiver_limit self.old) most bytes.now r).step
            (with_heard (take result.count bytes.now) r) result.step (kept_by self.new) }
        ensures spare { (r : ReceiverState) → Receives self.old r → SpareAfter (spare_of self.old)
            (spare_of self.new) (on_bytes_within (receiver_limit self.old) most bytes.now r).step.taken }
        ensures limit { receiver_limit self.new ≡ receiver_limit self.old }
    {
        match most {
            None => self.bytes(bytes),
            Some(most) => self.bytes_up_to(most, bytes),
        }
    }

    /// Hears bytes with a limit on a text.
    fn bytes_up_to(&mut self, most: usize, bytes: &[u8]) -> Hearing
        ensures heard { (r : ReceiverState) → Receives self.old r → IsHeardWithin (receiver_limit self.new) most
            bytes.now r (spare_of self.old) result (kept_by self.new) }
        ensures limit { receiver_limit self.new ≡ receiver_limit self.old }
    {
        let mut count = 0;
        while count < bytes.len() {
            let step = self.byte_within(Some(most), bytes[count]);
            count += 1;
            match step.note {
                Note::Quiet => {}
                _ => return Hearing { count, step },
            }
        }
        Hearing {
            count,
            step: Step {
                reply: None,
                message: None,
                note: Note::Quiet,
            },
        }
    }

    /// Hears one byte carefully, or as `byte_within`.
    pub(crate) fn byte_set(&mut self, careful: bool, most: Option<usize>, byte: u8) -> Step
        ensures step { (r : ReceiverState) → Receives self.old r → result.note ≢ Notes.OutOfMemory →
            IsStepMade (receiver_limit self.new) (on_byte_set careful (receiver_limit self.old) most byte r) result
            (kept_by self.new) }
        ensures refused { (r : ReceiverState) → Receives self.old r → result.note ≡ Notes.OutOfMemory →
            RefusesFrame (receiver_limit self.new) (spare_of self.old)
            (on_byte_set careful (receiver_limit self.old) most byte r)
            (heard_set careful (on_byte_set careful (receiver_limit self.old) most byte r) (byte ∷ []) r) result
            (kept_by self.new) }
        ensures spare { (r : ReceiverState) → Receives self.old r → SpareAfter (spare_of self.old) (spare_of self.new)
            (on_byte_set careful (receiver_limit self.old) most byte r).taken }
        ensures limit { receiver_limit self.new ≡ receiver_limit self.old }
    {
        if careful {
            self.byte_carefully(most, byte)
        } else {
            self.byte_within(most, byte)
        }
    }

    /// Hears one byte carefully, with a limit on a text or without one.
    fn byte_carefully(&mut self, most: Option<usize>, byte: u8) -> Step
        ensures step { (r : ReceiverState) → Receives self.old r → result.note ≢ Notes.OutOfMemory →
            IsStepMade (receiver_limit self.new) (on_byte_set true (receiver_limit self.old) most byte r) result
            (kept_by self.new) }
        ensures refused { (r : ReceiverState) → Receives self.old r → result.note ≡ Notes.OutOfMemory →
            RefusesFrame (receiver_limit self.new) (spare_of self.old)
            (on_byte_set true (receiver_limit self.old) most byte r)
            (heard_set true (on_byte_set true (receiver_limit self.old) most byte r) (byte ∷ []) r) result
            (kept_by self.new) }
        ensures spare { (r : ReceiverState) → Receives self.old r → SpareAfter (spare_of self.old) (spare_of self.new)
            (on_byte_set true (receiver_limit self.old) most byte r).taken }
        ensures limit { receiver_limit self.new ≡ receiver_limit self.old }
    {
        if self.closes(byte) {
            return self.byte(EOT);
        }
        let heard = self.heard_as(byte);
        self.byte_within(most, heard)
    }

    /// Whether this byte ends the session, where it is heard carefully.
    fn closes(&self, byte: u8) -> bool
        ensures { (r : ReceiverState) → Receives self.now r → result ≡ ends_session r byte }
    {
        match self {
            AnyReceiver::Usual(receiver) => closes(receiver, byte),
            AnyReceiver::Long(receiver) => closes(receiver, byte),
        }
    }

    /// What this byte is heard as, where it is heard carefully.
    fn heard_as(&self, byte: u8) -> u8
        ensures { (r : ReceiverState) → Receives self.now r → result ≡ heard_as (open_body r.past) byte }
    {
        match self {
            AnyReceiver::Usual(receiver) => heard_as(receiver, byte),
            AnyReceiver::Long(receiver) => heard_as(receiver, byte),
        }
    }

    /// How much noise this byte is, 1 or 0: none unless it is heard carefully.
    pub(crate) fn noise_set(&self, careful: bool, byte: u8) -> usize
        ensures count { (r : ReceiverState) → Receives self.now r → result ≡ noise_set careful r byte }
        ensures few { result ≤ 1 }
    {
        if careful { self.noise_of(byte) } else { 0 }
    }

    /// How much noise this byte is.
    fn noise_of(&self, byte: u8) -> usize
        ensures count { (r : ReceiverState) → Receives self.now r → result ≡ noise_of (is_noise r byte) }
        ensures few { result ≤ 1 }
    {
        match self {
            AnyReceiver::Usual(receiver) => noise_of(receiver, byte),
            AnyReceiver::Long(receiver) => noise_of(receiver, byte),
        }
    }

    /// Hears bytes carefully, or as `bytes_within`, and counts the noise among them.
    #[inline(always)]
    pub(crate) fn bytes_set(
        &mut self,
        careful: bool,
        most: Option<usize>,
        bytes: &[u8],
    ) -> CarefulHearing
        ensures heard { (r : ReceiverState) → Receives self.old r → IsHeardSet careful (receiver_limit self.new) most
            bytes.now r (spare_of self.old) result (kept_by self.new) }
        ensures limit { receiver_limit self.new ≡ receiver_limit self.old }
    {
        if careful {
            return self.bytes_carefully(most, bytes);
        }
        let Hearing { count, step } = self.bytes_within(most, bytes);
        CarefulHearing {
            count,
            noise: 0,
            step,
        }
    }

    /// Hears bytes carefully.
    fn bytes_carefully(&mut self, most: Option<usize>, bytes: &[u8]) -> CarefulHearing
        ensures heard { (r : ReceiverState) → Receives self.old r → IsHeardSet true (receiver_limit self.new) most
            bytes.now r (spare_of self.old) result (kept_by self.new) }
        ensures limit { receiver_limit self.new ≡ receiver_limit self.old }
    {
        match most {
            None => self.all_carefully(bytes),
            Some(most) => self.carefully_up_to(most, bytes),
        }
    }

    /// Hears bytes carefully, with no limit on a text.
    fn all_carefully(&mut self, bytes: &[u8]) -> CarefulHearing
        ensures count { (r : ReceiverState) → Receives self.old r →
            result.count ≡ (on_bytes_carefully (receiver_limit self.old) bytes.now r).count }
        ensures noise { (r : ReceiverState) → Receives self.old r →
            result.noise ≡ noise_in (receiver_limit self.old) bytes.now r }
        ensures step { (r : ReceiverState) → Receives self.old r → result.step.note ≢ Notes.OutOfMemory →
            IsStepMade (receiver_limit self.new) (on_bytes_carefully (receiver_limit self.old) bytes.now r).step
            result.step (kept_by self.new) }
        ensures refused { (r : ReceiverState) → Receives self.old r → result.step.note ≡ Notes.OutOfMemory →
            RefusesFrame (receiver_limit self.new) (spare_of self.old)
            (on_bytes_carefully (receiver_limit self.old) bytes.now r).step
            (heard_only (on_bytes_carefully (receiver_limit self.old) bytes.now r).step r) result.step
            (kept_by self.new) }
        ensures spare { (r : ReceiverState) → Receives self.old r → SpareAfter (spare_of self.old)
            (spare_of self.new) (on_bytes_carefully (receiver_limit self.old) bytes.now r).step.taken }
        ensures limit { receiver_limit self.new ≡ receiver_limit self.old }
    {
        match self {
            AnyReceiver::Usual(receiver) => hear_bytes(receiver, bytes),
            AnyReceiver::Long(receiver) => hear_bytes(receiver, bytes),
        }
    }

    /// Hears bytes carefully, with a limit on a text.
    fn carefully_up_to(&mut self, most: usize, bytes: &[u8]) -> CarefulHearing
        ensures heard { (r : ReceiverState) → Receives self.old r → IsHeardSet true (receiver_limit self.new)
            (Some most) bytes.now r (spare_of self.old) result (kept_by self.new) }
        ensures limit { receiver_limit self.new ≡ receiver_limit self.old }
    {
        let mut count = 0;
        let mut noise = 0;
        while count < bytes.len() {
            let louder = self.noise_of(bytes[count]);
            let step = self.byte_carefully(Some(most), bytes[count]);
            count += 1;
            noise += louder;
            match step.note {
                Note::Quiet => {}
                _ => return CarefulHearing { count, noise, step },
            }
        }
        CarefulHearing {
            count,
            noise,
            step: Step {
                reply: None,
                message: None,
                note: Note::Quiet,
            },
        }
    }

    /// Whether this byte ends the next frame of an open line, with which its text would have more than `most` bytes.
    fn is_over(&self, most: Option<usize>, byte: u8) -> bool
        ensures { (r : ReceiverState) → Receives self.now r →
            result ≡ is_over most (signal_after (receiver_limit self.now) r.past byte) r }
    {
        let Some(most) = most else {
            return false;
        };
        match self {
            AnyReceiver::Usual(receiver) => exceeds(receiver, most, byte),
            AnyReceiver::Long(receiver) => exceeds(receiver, most, byte),
        }
    }

    /// Answers the frame that LF ends NAK, and takes nothing of it.
    fn reject(&mut self) -> Step
        ensures step { (r : ReceiverState) → Receives self.old r → IsTrue r.is_open →
            IsStepMade (receiver_limit self.new)
            (answers (Some NAK) Notes.TooLong (record r { past = LF ∷ r.past })) result (kept_by self.new) }
        ensures note { result.note ≡ Notes.TooLong }
        ensures spare { (r : ReceiverState) → Receives self.old r → spare_of self.old ≤ spare_of self.new }
        ensures limit { receiver_limit self.new ≡ receiver_limit self.old }
    {
        match self {
            AnyReceiver::Usual(receiver) => reject_frame(receiver),
            AnyReceiver::Long(receiver) => reject_frame(receiver),
        }
    }

    /// Whether the line is open.
    pub(crate) fn is_open(&self) -> bool
        ensures { (r : ReceiverState) → Receives self.now r → result ≡ r.is_open }
    {
        match self {
            AnyReceiver::Usual(receiver) => receiver.is_open(),
            AnyReceiver::Long(receiver) => receiver.is_open(),
        }
    }

    /// How many frames were accepted since the line was last opened.
    pub(crate) fn accepted(&self) -> u64
        ensures { (r : ReceiverState) → Receives self.now r → result ≡ length r.accepted }
    {
        match self {
            AnyReceiver::Usual(receiver) => receiver.accepted(),
            AnyReceiver::Long(receiver) => receiver.accepted(),
        }
    }

    /// How many bytes are held of the text that isn't complete.
    pub(crate) fn held(&self) -> u64
        ensures { (r : ReceiverState) → Receives self.now r → result ≡ held_length r }
    {
        match self {
            AnyReceiver::Usual(receiver) => receiver.held(),
            AnyReceiver::Long(receiver) => receiver.held(),
        }
    }
}

/// The same for the long limit, whose new scanner takes 64 kB of the stack for a moment.
#[inline(never)]
fn restart_long(receiver: &mut ReceiverOf<63_993>)
    ensures state { (r : ReceiverState) → IsIn 63993 receiver.old r → IsIn 63993 receiver.new (receiver_restarted r) }
    ensures spare { receiver.old.spare ≤ receiver.new.spare }
{
    receiver.restart();
}

/// Whether this byte ends the next frame of an open line, with which its text would have more than so many bytes.
fn exceeds<const N: usize>(receiver: &ReceiverOf<N>, most: usize, byte: u8) -> bool
    ensures { (r : ReceiverState) → IsIn N receiver.now r →
        result ≡ is_over (Some most) (signal_after N r.past byte) r }
{
    match receiver.scanner().peek(byte) {
        Some(Heard::Good(frame)) => {
            let is_next = u64::from(frame.number()) == (receiver.accepted() % 8 + 1) % 8;
            receiver.is_open()
                && (is_next && receiver.held() + frame.text().len() as u64 > most as u64)
        }
        _ => false,
    }
}

/// The frame that is open is dropped, as if it were none: STX begins another one, which LF ends at once.
fn reject_frame<const N: usize>(receiver: &mut ReceiverOf<N>) -> Step
    ensures step { (r : ReceiverState) → IsIn N receiver.old r → IsTrue r.is_open →
        IsStepMade N (answers (Some NAK) Notes.TooLong (record r { past = LF ∷ r.past })) result receiver.new }
    ensures note { result.note ≡ Notes.TooLong }
    ensures spare { (r : ReceiverState) → IsIn N receiver.old r → receiver.old.spare ≤ receiver.new.spare }
{
    let _begun = receiver.byte(STX); // it answers nothing
    let _ended = receiver.byte(LF); // it answers NAK, with the note of a bad frame
    Step {
        reply: Some(NAK),
        message: None,
        note: Note::TooLong,
    }
}
