//! A sender of the usual limit on a frame's text, or of the long one.

ghost use Rattle.std.specs.Prelude.{◌≡◌, ◌≤◌, ◌+◌, None, Some, MatchResult};
ghost use Rattle.lis_c.specs.Emitted.{FrameCopied, HoldsEmitted};
ghost use Rattle.lis_c.specs.Limits.{sender_limit, sender_state, with_state};
ghost use Rattle.lis_c.specs.Borrowed.{session_texts};
ghost use Rattle.lis_link.specs.Duties.{emitted_bytes};
ghost use Rattle.lis_link.specs.Sender.{awaited, new_sender, on_reply, on_sender_timer, sender_restarted};
ghost use Rattle.lis_link.specs.Sender.{start_fault, started};

use crate::borrowed::OwnOrCallerTexts;
use crate::out::{LisBytes, copy_text, put_emit};
use crate::status;
use lis_frame::frame_bytes_of;
use lis_link::{Outcome, Phase, SenderOver, SessionTexts, StartRefusedOf};

/// A sender of either limit.
#[derive(Drop)]
pub enum AnySender {
    Usual(SenderOver<240, OwnOrCallerTexts>),
    Long(SenderOver<63_993, OwnOrCallerTexts>),
}

impl AnySender {
    /// A sender of the usual limit that was never started.
    pub(crate) fn usual() -> Self
        ensures { (sender_limit result ≡ 240) × (sender_state result ≡ new_sender) }
    {
        AnySender::Usual(SenderOver::new())
    }

    /// A sender of the long limit that was never started.
    pub(crate) fn long() -> Self
        ensures { (sender_limit result ≡ 63993) × (sender_state result ≡ new_sender) }
    {
        AnySender::Long(SenderOver::new())
    }

    /// Starts a session with these texts: ENQ goes on the link. A rejected start gives the texts back, and the sender
    /// is as before.
    pub(crate) fn start(
        &mut self,
        texts: OwnOrCallerTexts,
    ) -> Result<(), StartRefusedOf<OwnOrCallerTexts>>
        ensures { MatchResult result
            (λ unit. (start_fault (sender_state self.old) (session_texts texts) ≡ None)
            × (self.new ≡ with_state self.old (started (sender_limit self.old) (session_texts texts))))
            (λ refused. (start_fault (sender_state self.old) (session_texts texts) ≡ Some refused.fault)
            × (refused.texts ≡ texts) × (self.new ≡ self.old)) }
    {
        match self {
            AnySender::Usual(sender) => match sender.start(texts) {
                Ok(_) => Ok(()),
                Err(refused) => Err(refused),
            },
            AnySender::Long(sender) => start_long(sender, texts),
        }
    }

    /// A reply byte comes: what goes on the link.
    pub(crate) fn reply(&mut self, byte: u8, out: &mut LisBytes)
        ensures emit { HoldsEmitted (sender_limit self.old) out.new
            (emitted_bytes (on_reply {limit = sender_limit self.old} byte (sender_state self.old)).emit) }
        ensures after { self.new ≡ with_state self.old
            (on_reply {limit = sender_limit self.old} byte (sender_state self.old)).after }
    {
        match self {
            AnySender::Usual(sender) => put_emit::<240, 247>(out, &sender.reply(byte)),
            AnySender::Long(sender) => reply_long(sender, byte, out),
        }
    }

    /// The timer runs out: what goes on the link.
    pub(crate) fn timer(&mut self, out: &mut LisBytes)
        ensures emit { HoldsEmitted (sender_limit self.old) out.new
            (emitted_bytes (on_sender_timer {limit = sender_limit self.old} (sender_state self.old)).emit) }
        ensures after { self.new ≡ with_state self.old
            (on_sender_timer {limit = sender_limit self.old} (sender_state self.old)).after }
    {
        match self {
            AnySender::Usual(sender) => put_emit::<240, 247>(out, &sender.timer()),
            AnySender::Long(sender) => timer_long(sender, out),
        }
    }

    /// The session, if one goes on, is given up.
    pub(crate) fn restart(&mut self)
        ensures { self.new ≡ with_state self.old (sender_restarted (sender_state self.old)) }
    {
        match self {
            AnySender::Usual(sender) => sender.restart(),
            AnySender::Long(sender) => sender.restart(),
        }
    }

    /// Copies the frame that awaits its reply to the front of a buffer: `OK`; `ABSENT` if none does; `TOO_SHORT`.
    pub(crate) fn copy_frame(&self, out: &mut [u8], size: &mut usize) -> u8
        ensures { FrameCopied (awaited (sender_state self.now)) result out.old out.new size.new }
    {
        match self {
            AnySender::Usual(sender) => copy_awaited::<240, 247, OwnOrCallerTexts>(
                sender, out, size,
            ),
            AnySender::Long(sender) => {
                copy_awaited::<63_993, 64_000, OwnOrCallerTexts>(sender, out, size)
            }
        }
    }

    /// What the sender waits for.
    pub(crate) fn phase(&self) -> Phase
        ensures { result ≡ (sender_state self.now).phase }
    {
        match self {
            AnySender::Usual(sender) => sender.phase(),
            AnySender::Long(sender) => sender.phase(),
        }
    }

    /// How the last session ended.
    pub(crate) fn outcome(&self) -> Option<Outcome>
        ensures { result ≡ (sender_state self.now).outcome }
    {
        match self {
            AnySender::Usual(sender) => sender.outcome(),
            AnySender::Long(sender) => sender.outcome(),
        }
    }

    /// How many frames of the session are acknowledged.
    pub(crate) fn acknowledged(&self) -> u64
        ensures { result ≡ (sender_state self.now).acknowledged }
    {
        match self {
            AnySender::Usual(sender) => sender.acknowledged(),
            AnySender::Long(sender) => sender.acknowledged(),
        }
    }
}

/// The start for the long limit. It is apart, since what is emitted takes 64 kB of the stack.
#[inline(never)]
fn start_long(
    sender: &mut SenderOver<63_993, OwnOrCallerTexts>,
    texts: OwnOrCallerTexts,
) -> Result<(), StartRefusedOf<OwnOrCallerTexts>>
    ensures { MatchResult result
        (λ unit. (start_fault sender.old (session_texts texts) ≡ None)
        × (sender.new ≡ started 63993 (session_texts texts)))
        (λ refused. (start_fault sender.old (session_texts texts) ≡ Some refused.fault)
        × (refused.texts ≡ texts) × (sender.new ≡ sender.old)) }
{
    match sender.start(texts) {
        Ok(_) => Ok(()),
        Err(refused) => Err(refused),
    }
}

/// The reply for the long limit. It is apart, since a frame takes 64 kB of the stack.
#[inline(never)]
fn reply_long(sender: &mut SenderOver<63_993, OwnOrCallerTexts>, byte: u8, out: &mut LisBytes)
    ensures emit { HoldsEmitted 63993 out.new (emitted_bytes (on_reply {limit = 63993} byte sender.old).emit) }
    ensures after { sender.new ≡ (on_reply {limit = 63993} byte sender.old).after }
{
    put_emit::<63_993, 64_000>(out, &sender.reply(byte));
}

/// The timer for the long limit.
#[inline(never)]
fn timer_long(sender: &mut SenderOver<63_993, OwnOrCallerTexts>, out: &mut LisBytes)
    ensures emit { HoldsEmitted 63993 out.new (emitted_bytes (on_sender_timer {limit = 63993} sender.old).emit) }
    ensures after { sender.new ≡ (on_sender_timer {limit = 63993} sender.old).after }
{
    put_emit::<63_993, 64_000>(out, &sender.timer());
}

/// Copies the frame that awaits its reply to the front of a buffer.
#[inline(never)]
pub(crate) fn copy_awaited<const N: usize, const B: usize, T: SessionTexts>(
    sender: &SenderOver<N, T>,
    out: &mut [u8],
    size: &mut usize,
) -> u8
    requires room { N + 7 ≤ B }
    requires bound { B ≤ 64000 }
    ensures { FrameCopied (awaited sender.now) result out.old out.new size.new }
{
    *size = 0;
    match sender.awaited() {
        None => status::ABSENT,
        Some(frame) => copy_text(frame_bytes_of::<N, B>(&frame).as_slice(), out, size),
    }
}
