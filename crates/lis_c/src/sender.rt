//! The sender for programs in C.

ghost use Rattle.std.specs.Prelude.{◌≡◌, ◌≢◌, ◌++◌, ◌∷◌, [], MatchResult, Some, length};
ghost use Rattle.lis_c.specs.declared.handle_state.SenderHandleState.{SenderHandleState};
ghost use Rattle.lis_c.specs.Codes.{outcome_code, phase_code};
ghost use Rattle.lis_c.specs.Emitted.{FrameCopied, HoldsBytes, HoldsEmitted};
ghost use Rattle.lis_link.specs.Duties.{emitted_bytes};
ghost use Rattle.lis_c.specs.Limits.{sender_limit, sender_limit_status, sender_state, with_state};
ghost use Rattle.lis_c.specs.Borrowed.{borrowed_bytes, borrowed_status};
ghost use Rattle.lis_c.specs.New.{IsNewSender, type_align};
ghost use Rattle.lis_c.specs.Status.{AddTextStatus, FULL, OK, start_index, start_place, start_status};
ghost use Rattle.lis_c.specs.contracts.handle_state.SenderHandleState.{the_row as handle_state_row};
ghost use Rattle.lis_link.specs.Sender.{awaited, new_sender, on_reply, on_sender_timer, sender_restarted, start_fault};
ghost use Rattle.lis_link.specs.Sender.{started};
ghost use Rattle.lis_text.specs.Control.{ENQ};
ghost use Rattle.lis_text.specs.LinkText.{longest_text};
ghost use Rattle.lis_text.specs.Text.{text_fault};
ghost use Rattle.std.specs.Borrow.{sem};
ghost use Rattle.std.specs.Mem.{type_size};
ghost use Rattle.std.specs.Ptr.{room_at};

use crate::borrowed::{CallerTexts, LisText};
use crate::handle_state::{SenderHandleState, release_sender};
use crate::out::{LisBytes, LisPlace, put};
use crate::sending::AnySender;
use crate::status::{self, start_index, start_place, start_status};
use lis_link::{Outcome, Phase, StartFault};
use lis_text::MOST_TEXTS;
use std::alloc::Global;
use std::marker::Model;
use std::mem::{align_of, size_of};

/// A sender, held by a pointer that C hands back as it got it.
#[repr(C)]
pub struct LisSender {
    at: *mut u8,
    ghost state: { SenderHandleState },
}

impl Model for LisSender {
    ghost use Rattle.std.specs.Borrow.{full_share};
    ghost use Rattle.std.specs.Ptr.{lies_at};
    ghost use Rattle.lis_c.specs.contracts.handle_state.SenderHandleState.{the_row};

    ghost also_owns = { λ h. lies_at the_row full_share h.at h.state };
}

impl LisSender {
    ghost use Rattle.lis_c.specs.contracts.handle_state.SenderHandleState.{the_row as handle_state_row};
    ghost use Rattle.lis_c.specs.contracts.sender.LisSender.{the_row};
    ghost use Rattle.std.specs.Borrow.{Lends, sem};

    /// What the pointer points to.
    fn borrow(&mut self) -> &mut SenderHandleState
        ensures* writes_back { sem 𝓛 (Lends the_row handle_state_row self.entry result
            (λ w. record self.old { state = w })) }
        ensures value { result.now ≡ self.old.state }
    {
        unsafe { &mut *(self.at as *mut SenderHandleState) }
    }
}

/// The number of bytes of a sender's block.
#[unsafe(no_mangle)]
pub extern "C" fn lis_sender_size() -> usize
    ensures { result ≡ type_size handle_state_row }
{
    size_of::<SenderHandleState>()
}

/// What the address of a sender's block is a multiple of.
#[unsafe(no_mangle)]
pub extern "C" fn lis_sender_align() -> usize
    ensures { result ≡ type_align handle_state_row }
{
    align_of::<SenderHandleState>()
}

/// Makes a sender that was never started in a block of the caller's.
#[unsafe(no_mangle)]
pub unsafe extern "C" fn lis_sender_init(alloc: Global, at: *mut u8)
    requires* { sem 𝓛 (room_at handle_state_row at) }
    ensures* { sem 𝓛 (IsNewSender at) }
{
    (at as *mut SenderHandleState).write(SenderHandleState::new(alloc));
}

/// Puts a copy of a text to the next session: `OK`; `TOO_LONG` or `FORBIDDEN` where no session takes these bytes, which
/// `lis_text_check` finds; else `FULL` where there are as many as a session has, or `OUT_OF_MEMORY`. Where it isn't `OK`
/// nothing has changed.
#[unsafe(no_mangle)]
pub extern "C" fn lis_sender_add_text(s: &mut LisSender, text: &[u8]) -> u8
    ensures added { result ≡ OK →
        s.new.state ≡ record s.old.state { texts = s.old.state.texts ++ text.now ∷ [] } }
    ensures refused { result ≢ OK → s.new.state ≡ s.old.state }
    ensures status { AddTextStatus result (length s.old.state.texts) (text_fault longest_text text.now) }
{
    s.borrow().add(text)
}

/// Releases the texts that were put to the next session; one that goes on is not touched.
#[unsafe(no_mangle)]
pub extern "C" fn lis_sender_clear(s: &mut LisSender)
    ensures { s.new.state ≡ record s.old.state { texts = [] } }
{
    s.borrow().clear();
}

/// Starts a session with the texts that were put (LIS01-A2, 6.3): `OK`, and ENQ goes on the link; else `IN_SESSION`,
/// `NO_TEXT`, or `TOO_LONG` or `FORBIDDEN` with the text and the place in it. Where it isn't `OK` nothing has
/// changed, the texts stay, and nothing is put to `out`.
#[unsafe(no_mangle)]
pub extern "C" fn lis_sender_start(
    s: &mut LisSender,
    out: &mut LisBytes,
    fault: &mut LisPlace,
) -> u8
    ensures status { result ≡ start_status (start_fault (sender_state s.old.state.sender) s.old.state.texts) }
    ensures index { fault.new.index ≡ start_index (start_fault (sender_state s.old.state.sender) s.old.state.texts) }
    ensures place { fault.new.place ≡ start_place (start_fault (sender_state s.old.state.sender) s.old.state.texts) }
    ensures emit { result ≡ OK → HoldsBytes out.new (ENQ ∷ []) }
    ensures started { result ≡ OK →
        s.new.state ≡ record s.old.state {
          sender = with_state s.old.state.sender (started (sender_limit s.old.state.sender) s.old.state.texts);
          texts = [];
        } }
    ensures refused { result ≢ OK → (out.new ≡ out.old) × (s.new.state ≡ s.old.state) }
{
    report_start(s.borrow().start(), out, fault)
}

/// Starts a session with texts that stay with the caller (LIS01-A2, 6.3), and takes no memory: `OK`, and ENQ goes on
/// the link; else `FULL` where there are more than 65,536, or as `lis_sender_start`. Where it isn't `OK` nothing has
/// changed, and nothing is put to `out`. The texts that were put to the next session stay.
///
/// The array and the texts stay as they are: the contract asks for good, and no call reads them once the session is
/// finished.
#[unsafe(no_mangle)]
pub extern "C" fn lis_sender_start_lent(
    s: &mut LisSender,
    texts: &'static [LisText],
    out: &mut LisBytes,
    fault: &mut LisPlace,
) -> u8
    ensures status { result ≡ borrowed_status texts.now
        (start_fault (sender_state s.old.state.sender) (borrowed_bytes texts.now)) }
    ensures index { result ≢ FULL →
        fault.new.index ≡ start_index (start_fault (sender_state s.old.state.sender) (borrowed_bytes texts.now)) }
    ensures place { result ≢ FULL →
        fault.new.place ≡ start_place (start_fault (sender_state s.old.state.sender) (borrowed_bytes texts.now)) }
    ensures full { result ≡ FULL → (fault.new.index ≡ 0) × (fault.new.place ≡ 0) }
    ensures emit { result ≡ OK → HoldsBytes out.new (ENQ ∷ []) }
    ensures started { result ≡ OK →
        s.new.state ≡ record s.old.state {
          sender = with_state s.old.state.sender (started (sender_limit s.old.state.sender) (borrowed_bytes texts.now));
        } }
    ensures refused { result ≢ OK → (out.new ≡ out.old) × (s.new.state ≡ s.old.state) }
{
    if texts.len() > MOST_TEXTS {
        fault.index = 0;
        fault.place = 0;
        return status::FULL;
    }
    report_start(
        s.borrow().start_borrowed(CallerTexts::new(texts)),
        out,
        fault,
    )
}

/// Says how a start went, and puts what goes on the link.
fn report_start(start: Result<(), StartFault>, out: &mut LisBytes, place: &mut LisPlace) -> u8
    ensures { MatchResult start
        (λ unit. (result ≡ OK) × HoldsBytes out.new (ENQ ∷ []) × (place.new.index ≡ 0) × (place.new.place ≡ 0))
        (λ fault. (result ≡ start_status (Some fault)) × (out.new ≡ out.old)
        × (place.new.index ≡ start_index (Some fault)) × (place.new.place ≡ start_place (Some fault))) }
{
    place.index = 0;
    place.place = 0;
    match start {
        Ok(()) => {
            put(out, &[lis_text::ENQ]);
            status::OK
        }
        Err(fault) => {
            place.index = start_index(fault);
            place.place = start_place(fault);
            start_status(fault)
        }
    }
}

/// A reply byte comes: what goes on the link. It is nothing for a frame of over 247 bytes, which `lis_sender_frame`
/// copies.
#[unsafe(no_mangle)]
pub extern "C" fn lis_sender_reply(s: &mut LisSender, byte: u8, out: &mut LisBytes)
    ensures emit { HoldsEmitted (sender_limit s.old.state.sender) out.new
        (emitted_bytes (on_reply {limit = sender_limit s.old.state.sender} byte
        (sender_state s.old.state.sender)).emit) }
    ensures after { s.new.state ≡ record s.old.state {
      sender = with_state s.old.state.sender
          (on_reply {limit = sender_limit s.old.state.sender} byte (sender_state s.old.state.sender)).after;
    } }
{
    s.borrow().sender.reply(byte, out);
}

/// The timer runs out: what goes on the link.
#[unsafe(no_mangle)]
pub extern "C" fn lis_sender_timer(s: &mut LisSender, out: &mut LisBytes)
    ensures emit { HoldsEmitted (sender_limit s.old.state.sender) out.new
        (emitted_bytes (on_sender_timer {limit = sender_limit s.old.state.sender}
        (sender_state s.old.state.sender)).emit) }
    ensures after { s.new.state ≡ record s.old.state {
      sender = with_state s.old.state.sender
          (on_sender_timer {limit = sender_limit s.old.state.sender} (sender_state s.old.state.sender)).after;
    } }
{
    s.borrow().sender.timer(out);
}

/// Copies the frame that was sent and awaits its reply to the front of a buffer: `OK`; `ABSENT` if none does;
/// `TOO_SHORT`, and nothing is copied, if it is longer than the buffer. It can be copied until its reply comes.
#[unsafe(no_mangle)]
pub extern "C" fn lis_sender_frame(s: &mut LisSender, out: &mut [u8], size: &mut usize) -> u8
    ensures copied { FrameCopied (awaited (sender_state s.old.state.sender)) result out.old out.new size.new }
    ensures same { s.new.state ≡ s.old.state }
{
    s.borrow().sender.copy_frame(out, size)
}

/// Sets how long the text of a frame may be, 240 bytes or 63,993, and makes the sender new; the texts of its next
/// session stay. `OK`; `IN_SESSION`, or `BAD_NUMBER` if it is another limit, and nothing has changed.
#[unsafe(no_mangle)]
pub extern "C" fn lis_sender_set_limit(s: &mut LisSender, limit: usize) -> u8
    ensures status { result ≡ sender_limit_status (sender_state s.old.state.sender).phase limit }
    ensures set { result ≡ OK → (sender_limit s.new.state.sender ≡ limit)
        × (sender_state s.new.state.sender ≡ new_sender) × (s.new.state.texts ≡ s.old.state.texts) }
    ensures refused { result ≢ OK → s.new.state ≡ s.old.state }
{
    let handle_state = s.borrow();
    match handle_state.sender.phase() {
        Phase::Neutral => {}
        _ => return status::IN_SESSION,
    }
    handle_state.sender = match limit {
        240 => AnySender::usual(),
        63_993 => AnySender::long(),
        _ => return status::BAD_NUMBER,
    };
    status::OK
}

/// The session, if one goes on, is given up; nothing goes on the link.
#[unsafe(no_mangle)]
pub extern "C" fn lis_sender_restart(s: &mut LisSender)
    ensures { s.new.state ≡ record s.old.state {
      sender = with_state s.old.state.sender (sender_restarted (sender_state s.old.state.sender));
    } }
{
    s.borrow().sender.restart();
}

/// Where the sender is: 0 neutral, 1 awaits the reply to ENQ, 2 busy, 3 contention, 4 awaits the
/// reply to a frame.
#[unsafe(no_mangle)]
pub extern "C" fn lis_sender_phase(s: &mut LisSender) -> u8
    ensures value { result ≡ phase_code (sender_state s.old.state.sender).phase }
    ensures same { s.new.state ≡ s.old.state }
{
    phase_code(s.borrow().sender.phase())
}

/// The number of a phase.
pub(crate) fn phase_code(phase: Phase) -> u8
    ensures { result ≡ phase_code phase }
{
    match phase {
        Phase::Neutral => 0,
        Phase::AwaitLine => 1,
        Phase::Busy => 2,
        Phase::Contention => 3,
        Phase::AwaitReply => 4,
    }
}

/// How the last session ended: 0 not yet, 1 done, 2 timed out, 3 six tries, 4 restarted.
#[unsafe(no_mangle)]
pub extern "C" fn lis_sender_outcome(s: &mut LisSender) -> u8
    ensures value { result ≡ outcome_code (sender_state s.old.state.sender).outcome }
    ensures same { s.new.state ≡ s.old.state }
{
    outcome_code(s.borrow().sender.outcome())
}

/// The number of how a session ended; 0 if it has not.
pub(crate) fn outcome_code(outcome: Option<Outcome>) -> u8
    ensures { result ≡ outcome_code outcome }
{
    match outcome {
        None => 0,
        Some(Outcome::Done) => 1,
        Some(Outcome::TimedOut) => 2,
        Some(Outcome::SixTries) => 3,
        Some(Outcome::Restarted) => 4,
    }
}

/// How many frames of the session are acknowledged.
#[unsafe(no_mangle)]
pub extern "C" fn lis_sender_acknowledged(s: &mut LisSender) -> u64
    ensures value { result ≡ (sender_state s.old.state.sender).acknowledged }
    ensures same { s.new.state ≡ s.old.state }
{
    s.borrow().sender.acknowledged()
}

/// Ends a sender; its block is the caller's again.
#[unsafe(no_mangle)]
pub extern "C" fn lis_sender_end(s: LisSender)
    ensures* { sem 𝓛 (room_at handle_state_row s.at) }
{
    let LisSender { at } = s;
    release_sender(unsafe { (at as *mut SenderHandleState).read() });
}
