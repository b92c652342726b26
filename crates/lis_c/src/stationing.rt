//! A station of the usual limit on a frame's text, or of the long one.

ghost use Rattle.std.specs.Prelude.{◌≡◌, ◌≤◌, ◌<◌, ◌+◌, ◌∷◌, [], max, take, length, true, None, Some, IfOk};
ghost use Rattle.std.specs.Prelude.{MatchResult};
ghost use Rattle.std.specs.Prelude.{OnErr, OnOk};
ghost use Rattle.std.specs.Option.{option_to_list};
ghost use Rattle.lis_c.specs.Borrowed.{session_texts};
ghost use Rattle.lis_c.specs.Careful.{heard_set, on_own_byte, on_own_bytes, on_station_byte_set, on_station_bytes_set};
ghost use Rattle.lis_c.specs.Careful.{station_noise_set, station_noises_set};
ghost use Rattle.lis_c.specs.Emitted.{FrameCopied, HoldsBytes};
ghost use Rattle.lis_c.specs.Stations.{Hears, IsNow, NewStation, StartsSession, state_of, station_kept, station_limit};
ghost use Rattle.lis_c.specs.Stations.{station_spare};
ghost use Rattle.lis_c.specs.inside.Stations.{Answers, IsMemoryOut, PutsAnswer, RejectsFrame};
ghost use Rattle.lis_careful.specs.Careful.{heard_only, is_noise, noise_of, on_byte_carefully, on_bytes_carefully};
ghost use Rattle.lis_careful_station.specs.Station.{noise_at, on_station_byte_carefully, on_station_bytes_carefully};
ghost use Rattle.lis_link.specs.Receiver.{ReceiverState, held_length, on_byte, on_bytes, with_heard};
ghost use Rattle.lis_link.specs.Representation.{IsIn, SpareAfter};
ghost use Rattle.lis_link.specs.Sender.{awaited, sender_restarted, started};
ghost use Rattle.lis_station.specs.declared.station.Turn.TheVariants.{Free};
ghost use Rattle.lis_station.specs.Representation.{IsStation, station_at};
ghost use Rattle.lis_station.specs.Station.{awaits_reply, is_requested, line_closed, on_station_byte};
ghost use Rattle.lis_station.specs.Station.{on_station_bytes, on_station_timer, readied, station_fault};
ghost use Rattle.lis_station.specs.Station.{station_restarted};
ghost use Rattle.lis_station.specs.Station.{station_seconds, taken_by, turn_asked_for, turn_seconds};
ghost use Rattle.lis_text.specs.LinkText.{longest_text};

use crate::borrowed::OwnOrCallerTexts;
use crate::out::{LisBytes, put, put_emit};
use crate::sending::copy_awaited;
use lis_careful::{CarefulHearing, noise_of};
use lis_careful_station::{CarefulHearingOf, hear_byte, hear_bytes, hear_receiving};
use lis_link::{Outcome, Phase, Step};
use lis_station::{AnswerOf, HearingOf, Role, StationOver, StationRefusedOf};
use lis_text::LinkText;
use std::alloc::{AllocError, Global};

/// A station of either limit.
#[derive(Drop)]
pub enum AnyStation {
    Usual(StationOver<240, OwnOrCallerTexts>),
    Long(Box<StationOver<63_993, OwnOrCallerTexts>>),
}

impl AnyStation {
    /// A new station of the usual limit.
    pub(crate) fn usual(alloc: Global, role: Role) -> Self
        ensures { NewStation role 240 result }
    {
        AnyStation::Usual(StationOver::new(alloc, role))
    }

    /// A new station of the long limit.
    #[inline(never)]
    pub(crate) fn long(alloc: Global, role: Role) -> Result<Self, AllocError>
        ensures { IfOk result (NewStation role 63993) }
    {
        Ok(AnyStation::Long(Box::new(alloc, StationOver::new(alloc, role))?))
    }

    /// Starts a session with these texts: ENQ goes on the link. A rejected start gives the texts back, and the station
    /// is as before.
    pub(crate) fn start(
        &mut self,
        texts: OwnOrCallerTexts,
    ) -> Result<(), StationRefusedOf<OwnOrCallerTexts>>
        ensures { (r : ReceiverState) → Hears self.old r → MatchResult result
            (λ unit. (station_fault (state_of self.old r) (session_texts texts) ≡ None)
            × StartsSession (session_texts texts) self.old self.new)
            (λ refused. (station_fault (state_of self.old r) (session_texts texts) ≡ Some refused.fault)
            × (refused.texts ≡ texts) × (self.new ≡ self.old)) }
    {
        match self {
            AnyStation::Usual(station) => match station.start(texts) {
                Ok(_) => Ok(()),
                Err(refused) => Err(refused),
            },
            AnyStation::Long(station) => match start_long(station, texts) {
                Ok(()) => Ok(()),
                Err(refused) => Err(refused),
            },
        }
    }

    /// A byte comes: what goes on the link, and the receiver's step, if it was for the receiver.
    pub(crate) fn byte(&mut self, byte: u8, out: &mut LisBytes) -> Option<Step>
        ensures step { (r : ReceiverState) → Hears self.old r → (IsMemoryOut result → ⊥) →
            Answers (on_station_byte (station_limit self.old) byte (state_of self.old r)) result out.new
            (station_kept self.old) (station_kept self.new) }
        ensures refused { (r : ReceiverState) → Hears self.old r → IsMemoryOut result →
            RejectsFrame (station_limit self.old) (on_byte (station_limit self.old) byte r)
            (record r { past = byte ∷ r.past }) result out.new (station_kept self.old) (station_kept self.new) }
        ensures spare { (r : ReceiverState) → Hears self.old r →
            SpareAfter (station_spare self.old) (station_spare self.new)
            (taken_by (on_station_byte (station_limit self.old) byte (state_of self.old r)).answer) }
        ensures limit { station_limit self.new ≡ station_limit self.old }
    {
        match self {
            AnyStation::Usual(station) => byte_of::<240, 247>(station, byte, out),
            AnyStation::Long(station) => byte_of::<63_993, 64_000>(station, byte, out),
        }
    }

    /// Bytes come: as many are heard as the station hears at once. Answers how many, and the receiver's step, if it was
    /// for the receiver; what goes on the link is put.
    pub(crate) fn bytes(&mut self, bytes: &[u8], out: &mut LisBytes) -> (usize, Option<Step>)
        ensures count { (r : ReceiverState) → Hears self.old r →
            result.0 ≡ (on_station_bytes (station_limit self.old) bytes.now (state_of self.old r)).count }
        ensures step { (r : ReceiverState) → Hears self.old r → (IsMemoryOut result.1 → ⊥) →
            Answers (on_station_bytes (station_limit self.old) bytes.now (state_of self.old r)).step result.1 out.new
            (station_kept self.old) (station_kept self.new) }
        ensures refused { (r : ReceiverState) → Hears self.old r → IsMemoryOut result.1 →
            RejectsFrame (station_limit self.old) (on_bytes (station_limit self.old) bytes.now r).step
            (with_heard (take result.0 bytes.now) r) result.1 out.new (station_kept self.old) (station_kept self.new) }
        ensures spare { (r : ReceiverState) → Hears self.old r →
            SpareAfter (station_spare self.old) (station_spare self.new)
            (taken_by (on_station_bytes (station_limit self.old) bytes.now (state_of self.old r)).step.answer) }
        ensures limit { station_limit self.new ≡ station_limit self.old }
    {
        match self {
            AnyStation::Usual(station) => bytes_of::<240, 247>(station, bytes, out),
            AnyStation::Long(station) => bytes_of::<63_993, 64_000>(station, bytes, out),
        }
    }

    /// A byte comes and is heard carefully, or as ever.
    pub(crate) fn byte_set(&mut self, careful: bool, byte: u8, out: &mut LisBytes) -> Option<Step>
        ensures step { (r : ReceiverState) → Hears self.old r → (IsMemoryOut result → ⊥) →
            Answers (on_station_byte_set (station_limit self.old) careful byte (state_of self.old r)) result out.new
            (station_kept self.old) (station_kept self.new) }
        ensures refused { (r : ReceiverState) → Hears self.old r → IsMemoryOut result →
            RejectsFrame (station_limit self.old) (on_own_byte careful (station_limit self.old) byte r)
            (heard_set careful (on_own_byte careful (station_limit self.old) byte r) (byte ∷ []) r) result out.new
            (station_kept self.old) (station_kept self.new) }
        ensures spare { (r : ReceiverState) → Hears self.old r →
            SpareAfter (station_spare self.old) (station_spare self.new) (taken_by
            (on_station_byte_set (station_limit self.old) careful byte (state_of self.old r)).answer) }
        ensures limit { station_limit self.new ≡ station_limit self.old }
    {
        if careful {
            self.byte_carefully(byte, out)
        } else {
            self.byte(byte, out)
        }
    }

    /// A byte comes and is heard carefully.
    fn byte_carefully(&mut self, byte: u8, out: &mut LisBytes) -> Option<Step>
        ensures step { (r : ReceiverState) → Hears self.old r → (IsMemoryOut result → ⊥) →
            Answers (on_station_byte_set (station_limit self.old) true byte (state_of self.old r)) result out.new
            (station_kept self.old) (station_kept self.new) }
        ensures refused { (r : ReceiverState) → Hears self.old r → IsMemoryOut result →
            RejectsFrame (station_limit self.old) (on_own_byte true (station_limit self.old) byte r)
            (heard_set true (on_own_byte true (station_limit self.old) byte r) (byte ∷ []) r) result out.new
            (station_kept self.old) (station_kept self.new) }
        ensures spare { (r : ReceiverState) → Hears self.old r →
            SpareAfter (station_spare self.old) (station_spare self.new)
            (taken_by (on_station_byte_set (station_limit self.old) true byte (state_of self.old r)).answer) }
        ensures limit { station_limit self.new ≡ station_limit self.old }
    {
        match self {
            AnyStation::Usual(station) => careful_byte_of::<240, 247>(station, byte, out),
            AnyStation::Long(station) => careful_byte_of::<63_993, 64_000>(station, byte, out),
        }
    }

    /// How much noise this byte is, 1 or 0: none unless it is heard carefully, and none while a reply is awaited.
    pub(crate) fn noise_set(&self, careful: bool, byte: u8) -> usize
        ensures count { (r : ReceiverState) → Hears self.now r →
            result ≡ station_noise_set careful byte (state_of self.now r) }
        ensures few { result ≤ 1 }
    {
        if self.awaits_reply() {
            return 0;
        }
        if careful { self.noise_of(byte) } else { 0 }
    }

    /// How much noise this byte is to the receiver.
    fn noise_of(&self, byte: u8) -> usize
        ensures count { (r : ReceiverState) → Hears self.now r → result ≡ noise_of (is_noise r byte) }
        ensures few { result ≤ 1 }
    {
        match self {
            AnyStation::Usual(station) => noise_of(station.receiver(), byte),
            AnyStation::Long(station) => noise_of(station.receiver(), byte),
        }
    }

    /// Bytes come and are heard carefully, or as ever. Answers how many, the noise among them, and the receiver's step,
    /// if it was for the receiver.
    pub(crate) fn bytes_set(
        &mut self,
        careful: bool,
        bytes: &[u8],
        out: &mut LisBytes,
    ) -> (usize, usize, Option<Step>)
        ensures count { (r : ReceiverState) → Hears self.old r → result.0
            ≡ (on_station_bytes_set (station_limit self.old) careful bytes.now (state_of self.old r)).count }
        ensures noise { (r : ReceiverState) → Hears self.old r →
            result.1 ≡ station_noises_set (station_limit self.old) careful bytes.now (state_of self.old r) }
        ensures step { (r : ReceiverState) → Hears self.old r → (IsMemoryOut result.2 → ⊥) →
            Answers (on_station_bytes_set (station_limit self.old) careful bytes.now (state_of self.old r)).step
            result.2 out.new (station_kept self.old) (station_kept self.new) }
        ensures refused { (r : ReceiverState) → Hears self.old r → IsMemoryOut result.2 →
            RejectsFrame (station_limit self.old) (on_own_bytes careful (station_limit self.old) bytes.now r).step
            (heard_set careful (on_own_bytes careful (station_limit self.old) bytes.now r).step
            (take result.0 bytes.now) r) result.2 out.new (station_kept self.old) (station_kept self.new) }
        ensures spare { (r : ReceiverState) → Hears self.old r →
            SpareAfter (station_spare self.old) (station_spare self.new) (taken_by
            (on_station_bytes_set (station_limit self.old) careful bytes.now (state_of self.old r)).step.answer) }
        ensures limit { station_limit self.new ≡ station_limit self.old }
    {
        if careful {
            return self.bytes_carefully(bytes, out);
        }
        let (count, step) = self.bytes(bytes, out);
        (count, 0, step)
    }

    /// Bytes come and are heard carefully.
    fn bytes_carefully(&mut self, bytes: &[u8], out: &mut LisBytes) -> (usize, usize, Option<Step>)
        ensures count { (r : ReceiverState) → Hears self.old r → result.0
            ≡ (on_station_bytes_set (station_limit self.old) true bytes.now (state_of self.old r)).count }
        ensures noise { (r : ReceiverState) → Hears self.old r →
            result.1 ≡ station_noises_set (station_limit self.old) true bytes.now (state_of self.old r) }
        ensures step { (r : ReceiverState) → Hears self.old r → (IsMemoryOut result.2 → ⊥) →
            Answers (on_station_bytes_set (station_limit self.old) true bytes.now (state_of self.old r)).step
            result.2 out.new (station_kept self.old) (station_kept self.new) }
        ensures refused { (r : ReceiverState) → Hears self.old r → IsMemoryOut result.2 →
            RejectsFrame (station_limit self.old) (on_own_bytes true (station_limit self.old) bytes.now r).step
            (heard_set true (on_own_bytes true (station_limit self.old) bytes.now r).step
            (take result.0 bytes.now) r) result.2 out.new (station_kept self.old) (station_kept self.new) }
        ensures spare { (r : ReceiverState) → Hears self.old r →
            SpareAfter (station_spare self.old) (station_spare self.new) (taken_by
            (on_station_bytes_set (station_limit self.old) true bytes.now (state_of self.old r)).step.answer) }
        ensures limit { station_limit self.new ≡ station_limit self.old }
    {
        match self {
            AnyStation::Usual(station) => careful_bytes_of::<240, 247>(station, bytes, out),
            AnyStation::Long(station) => careful_bytes_of::<63_993, 64_000>(station, bytes, out),
        }
    }

    /// The station's timer runs out: what goes on the link, and the receiver's step, if it was the receiver's.
    pub(crate) fn timer(&mut self, out: &mut LisBytes) -> Option<Step>
        ensures step { (r : ReceiverState) → Hears self.old r →
            Answers (on_station_timer {limit = station_limit self.old} (state_of self.old r)) result out.new
            (station_kept self.old) (station_kept self.new) }
        ensures spare { station_spare self.old ≤ station_spare self.new }
        ensures limit { station_limit self.new ≡ station_limit self.old }
    {
        match self {
            AnyStation::Usual(station) => timer_of::<240, 247>(station, out),
            AnyStation::Long(station) => timer_of::<63_993, 64_000>(station, out),
        }
    }

    /// The seconds of the timer that runs now.
    pub(crate) fn timer_seconds(&self) -> Option<u32>
        ensures { (r : ReceiverState) → Hears self.now r → result ≡ station_seconds (state_of self.now r) }
    {
        match self {
            AnyStation::Usual(station) => station.timer_seconds(),
            AnyStation::Long(station) => station.timer_seconds(),
        }
    }

    /// The own session, if one goes on, is given up.
    pub(crate) fn give_up(&mut self)
        ensures station { station_kept self.new ≡ record (station_kept self.old) {
          sender = sender_restarted (station_kept self.old).sender;
        } }
        ensures limit { station_limit self.new ≡ station_limit self.old }
    {
        match self {
            AnyStation::Usual(station) => station.give_up(),
            AnyStation::Long(station) => station.give_up(),
        }
    }

    /// The receiver is restarted.
    pub(crate) fn close_line(&mut self)
        ensures state { (r : ReceiverState) → Hears self.old r → IsNow self.new (line_closed (state_of self.old r)) }
        ensures spare { station_spare self.old ≤ station_spare self.new }
        ensures limit { station_limit self.new ≡ station_limit self.old }
    {
        match self {
            AnyStation::Usual(station) => station.close_line(),
            AnyStation::Long(station) => close_long(station),
        }
    }

    /// Both ends are restarted.
    pub(crate) fn restart(&mut self)
        ensures state { (r : ReceiverState) → Hears self.old r →
            IsNow self.new (station_restarted (state_of self.old r)) }
        ensures spare { station_spare self.old ≤ station_spare self.new }
        ensures limit { station_limit self.new ≡ station_limit self.old }
    {
        match self {
            AnyStation::Usual(station) => station.restart(),
            AnyStation::Long(station) => restart_long(station),
        }
    }

    /// Whether the other side gets the line from now on.
    pub(crate) fn set_ready(&mut self, ready: bool)
        ensures state { (r : ReceiverState) → Hears self.old r → IsNow self.new (readied ready (state_of self.old r)) }
        ensures spare { station_spare self.new ≡ station_spare self.old }
        ensures limit { station_limit self.new ≡ station_limit self.old }
    {
        match self {
            AnyStation::Usual(station) => station.set_ready(ready),
            AnyStation::Long(station) => station.set_ready(ready),
        }
    }

    /// Asks for this side's turn, while the other side has the line.
    pub(crate) fn ask_turn(&mut self)
        ensures state { (r : ReceiverState) → Hears self.old r → IsNow self.new (turn_asked_for (state_of self.old r)) }
        ensures spare { station_spare self.new ≡ station_spare self.old }
        ensures limit { station_limit self.new ≡ station_limit self.old }
    {
        match self {
            AnyStation::Usual(station) => station.ask_turn(),
            AnyStation::Long(station) => station.ask_turn(),
        }
    }

    /// Whether a byte that comes is a reply.
    pub(crate) fn awaits_reply(&self) -> bool
        ensures { result ≡ awaits_reply (station_kept self.now).sender.phase }
    {
        match self {
            AnyStation::Usual(station) => station.awaits_reply(),
            AnyStation::Long(station) => station.awaits_reply(),
        }
    }

    /// Whether the other side has asked for its turn, and has not had it since.
    pub(crate) fn turn_asked(&self) -> bool
        ensures { result ≡ is_requested (station_kept self.now).turn }
    {
        match self {
            AnyStation::Usual(station) => station.turn_asked(),
            AnyStation::Long(station) => station.turn_asked(),
        }
    }

    /// The seconds for which the line is left to the other side before the next start.
    pub(crate) fn turn_seconds(&self) -> Option<u32>
        ensures { result ≡ turn_seconds (station_kept self.now).turn }
    {
        match self {
            AnyStation::Usual(station) => station.turn_seconds(),
            AnyStation::Long(station) => station.turn_seconds(),
        }
    }

    /// Makes room for `bytes` more bytes of held text, at most 1,048,576.
    pub(crate) fn reserve(&mut self, bytes: u64) -> Result<(), AllocError>
        requires { bytes ≤ longest_text }
        ensures ok { OnOk result (bytes ≤ station_spare self.new) }
        ensures exact { OnOk result (station_spare self.new ≡ max (station_spare self.old) bytes) }
        ensures refused { OnErr result (station_spare self.old < bytes) }
        ensures same { OnErr result (station_kept self.new ≡ station_kept self.old) }
        ensures state { (r : ReceiverState) → Hears self.old r → IsNow self.new (state_of self.old r) }
        ensures spare { station_spare self.old ≤ station_spare self.new }
        ensures limit { station_limit self.new ≡ station_limit self.old }
    {
        match self {
            AnyStation::Usual(station) => station.reserve(bytes),
            AnyStation::Long(station) => station.reserve(bytes),
        }
    }

    /// Takes back a text that was delivered and is needed no more.
    pub(crate) fn reuse(&mut self, text: LinkText)
        ensures state { (r : ReceiverState) → Hears self.old r → IsNow self.new (state_of self.old r) }
        ensures spare { station_spare self.old ≤ station_spare self.new }
        ensures limit { station_limit self.new ≡ station_limit self.old }
    {
        match self {
            AnyStation::Usual(station) => station.reuse(text),
            AnyStation::Long(station) => station.reuse(text),
        }
    }

    /// Copies the frame that awaits its reply to the front of a buffer: `OK`; `ABSENT` if none does; `TOO_SHORT`.
    pub(crate) fn copy_frame(&self, out: &mut [u8], size: &mut usize) -> u8
        ensures { FrameCopied (awaited (station_kept self.now).sender) result out.old out.new size.new }
    {
        match self {
            AnyStation::Usual(station) => {
                copy_awaited::<240, 247, OwnOrCallerTexts>(station.sender(), out, size)
            }
            AnyStation::Long(station) => {
                copy_awaited::<63_993, 64_000, OwnOrCallerTexts>(station.sender(), out, size)
            }
        }
    }

    /// What the sender waits for.
    pub(crate) fn phase(&self) -> Phase
        ensures { result ≡ (station_kept self.now).sender.phase }
    {
        match self {
            AnyStation::Usual(station) => station.sender().phase(),
            AnyStation::Long(station) => station.sender().phase(),
        }
    }

    /// How the last session of its own ended.
    pub(crate) fn outcome(&self) -> Option<Outcome>
        ensures { result ≡ (station_kept self.now).sender.outcome }
    {
        match self {
            AnyStation::Usual(station) => station.sender().outcome(),
            AnyStation::Long(station) => station.sender().outcome(),
        }
    }

    /// How many frames of the session are acknowledged.
    pub(crate) fn acknowledged(&self) -> u64
        ensures { result ≡ (station_kept self.now).sender.acknowledged }
    {
        match self {
            AnyStation::Usual(station) => station.sender().acknowledged(),
            AnyStation::Long(station) => station.sender().acknowledged(),
        }
    }

    /// Whether the other side has the line.
    pub(crate) fn is_open(&self) -> bool
        ensures { (r : ReceiverState) → Hears self.now r → result ≡ r.is_open }
    {
        match self {
            AnyStation::Usual(station) => station.receiver().is_open(),
            AnyStation::Long(station) => station.receiver().is_open(),
        }
    }

    /// How many frames were accepted since the line was last opened.
    pub(crate) fn accepted(&self) -> u64
        ensures { (r : ReceiverState) → Hears self.now r → result ≡ length r.accepted }
    {
        match self {
            AnyStation::Usual(station) => station.receiver().accepted(),
            AnyStation::Long(station) => station.receiver().accepted(),
        }
    }

    /// How many bytes are held of the text that isn't complete.
    pub(crate) fn held(&self) -> u64
        ensures { (r : ReceiverState) → Hears self.now r → result ≡ held_length r }
    {
        match self {
            AnyStation::Usual(station) => station.receiver().held(),
            AnyStation::Long(station) => station.receiver().held(),
        }
    }
}

/// Puts what goes on the link: what the sender emits, or the reply of the receiver's step, which is given on.
fn put_answer<const N: usize, const B: usize>(
    answer: AnswerOf<N>,
    out: &mut LisBytes,
) -> Option<Step>
    requires room { B ≡ N + 7 }
    requires bound { B ≤ 64000 }
    ensures { PutsAnswer answer.entry result out.new }
{
    match answer {
        AnswerOf::Emits(emit) => {
            put_emit::<N, B>(out, &emit);
            None
        }
        AnswerOf::Hears(step) => {
            put_reply(step.reply, out);
            Some(step)
        }
    }
}

/// Puts the receiver's reply, if there is one.
fn put_reply(reply: Option<u8>, out: &mut LisBytes)
    ensures { HoldsBytes out.new (option_to_list reply) }
{
    match reply {
        None => put(out, &[]),
        Some(byte) => put(out, &[byte]),
    }
}

#[tactic(auto, using(crate::proofs::StationLaws::answers, crate::proofs::StationLaws::rejects))]
/// The byte for one limit. It is apart, since a long frame takes 64 kB of the stack.
#[inline(never)]
fn byte_of<const N: usize, const B: usize>(
    station: &mut StationOver<N, OwnOrCallerTexts>,
    byte: u8,
    out: &mut LisBytes,
) -> Option<Step>
    requires room { B ≡ N + 7 }
    requires bound { B ≤ 64000 }
    ensures step { (r : ReceiverState) → IsIn N station.old.receiver r → (IsMemoryOut result → ⊥) →
        Answers (on_station_byte N byte (station_at station.old r)) result out.new station.old station.new }
    ensures refused { (r : ReceiverState) → IsIn N station.old.receiver r → IsMemoryOut result →
        RejectsFrame N (on_byte N byte r) (record r { past = byte ∷ r.past }) result out.new
        station.old station.new }
    ensures spare { (r : ReceiverState) → IsIn N station.old.receiver r →
        SpareAfter station.old.receiver.spare station.new.receiver.spare
        (taken_by (on_station_byte N byte (station_at station.old r)).answer) }
{
    put_answer::<N, B>(station.byte(byte), out)
}

#[tactic(auto, using(crate::proofs::StationLaws::answers, crate::proofs::StationLaws::rejects))]
/// The bytes for one limit.
#[inline(never)]
fn bytes_of<const N: usize, const B: usize>(
    station: &mut StationOver<N, OwnOrCallerTexts>,
    bytes: &[u8],
    out: &mut LisBytes,
) -> (usize, Option<Step>)
    requires room { B ≡ N + 7 }
    requires bound { B ≤ 64000 }
    ensures count { (r : ReceiverState) → IsIn N station.old.receiver r →
        result.0 ≡ (on_station_bytes N bytes.now (station_at station.old r)).count }
    ensures step { (r : ReceiverState) → IsIn N station.old.receiver r → (IsMemoryOut result.1 → ⊥) →
        Answers (on_station_bytes N bytes.now (station_at station.old r)).step result.1 out.new
        station.old station.new }
    ensures refused { (r : ReceiverState) → IsIn N station.old.receiver r → IsMemoryOut result.1 →
        RejectsFrame N (on_bytes N bytes.now r).step (with_heard (take result.0 bytes.now) r) result.1 out.new
        station.old station.new }
    ensures spare { (r : ReceiverState) → IsIn N station.old.receiver r →
        SpareAfter station.old.receiver.spare station.new.receiver.spare
        (taken_by (on_station_bytes N bytes.now (station_at station.old r)).step.answer) }
{
    let HearingOf { count, answer } = station.bytes(bytes);
    (count, put_answer::<N, B>(answer, out))
}

#[tactic(auto, using(crate::proofs::StationLaws::answers, crate::proofs::StationLaws::rejects))]
/// The byte for one limit, heard carefully.
#[inline(never)]
fn careful_byte_of<const N: usize, const B: usize>(
    station: &mut StationOver<N, OwnOrCallerTexts>,
    byte: u8,
    out: &mut LisBytes,
) -> Option<Step>
    requires room { B ≡ N + 7 }
    requires bound { B ≤ 64000 }
    ensures step { (r : ReceiverState) → IsIn N station.old.receiver r → (IsMemoryOut result → ⊥) →
        Answers (on_station_byte_carefully N byte (station_at station.old r)) result out.new station.old station.new }
    ensures refused { (r : ReceiverState) → IsIn N station.old.receiver r → IsMemoryOut result →
        RejectsFrame N (on_byte_carefully N byte r) (heard_only (on_byte_carefully N byte r) r) result out.new
        station.old station.new }
    ensures spare { (r : ReceiverState) → IsIn N station.old.receiver r →
        SpareAfter station.old.receiver.spare station.new.receiver.spare
        (taken_by (on_station_byte_carefully N byte (station_at station.old r)).answer) }
{
    put_answer::<N, B>(hear_byte(station, byte), out)
}

#[tactic(auto, using(crate::proofs::StationLaws::answers, crate::proofs::StationLaws::rejects))]
/// The bytes for one limit, heard carefully. The receiver's step is the answer, but for a reply.
#[inline(never)]
fn careful_bytes_of<const N: usize, const B: usize>(
    station: &mut StationOver<N, OwnOrCallerTexts>,
    bytes: &[u8],
    out: &mut LisBytes,
) -> (usize, usize, Option<Step>)
    requires room { B ≡ N + 7 }
    requires bound { B ≤ 64000 }
    ensures count { (r : ReceiverState) → IsIn N station.old.receiver r →
        result.0 ≡ (on_station_bytes_carefully N bytes.now (station_at station.old r)).count }
    ensures noise { (r : ReceiverState) → IsIn N station.old.receiver r →
        result.1 ≡ noise_at N bytes.now (station_at station.old r) }
    ensures step { (r : ReceiverState) → IsIn N station.old.receiver r → (IsMemoryOut result.2 → ⊥) →
        Answers (on_station_bytes_carefully N bytes.now (station_at station.old r)).step result.2 out.new
        station.old station.new }
    ensures refused { (r : ReceiverState) → IsIn N station.old.receiver r → IsMemoryOut result.2 →
        RejectsFrame N (on_bytes_carefully N bytes.now r).step (heard_only (on_bytes_carefully N bytes.now r).step r)
        result.2 out.new station.old station.new }
    ensures spare { (r : ReceiverState) → IsIn N station.old.receiver r →
        SpareAfter station.old.receiver.spare station.new.receiver.spare
        (taken_by (on_station_bytes_carefully N bytes.now (station_at station.old r)).step.answer) }
{
    if station.awaits_reply() {
        return careful_reply_of::<N, B>(station, bytes, out);
    }
    let CarefulHearing { count, noise, step } = hear_receiving(station, bytes);
    put_reply(step.reply, out);
    (count, noise, Some(step))
}

#[tactic(auto, using(crate::proofs::StationLaws::answers, crate::proofs::StationLaws::rejects))]
/// The same, also while a reply is awaited. It is apart, since the answer to one is a frame, which takes the stack.
#[inline(never)]
fn careful_reply_of<const N: usize, const B: usize>(
    station: &mut StationOver<N, OwnOrCallerTexts>,
    bytes: &[u8],
    out: &mut LisBytes,
) -> (usize, usize, Option<Step>)
    requires room { B ≡ N + 7 }
    requires bound { B ≤ 64000 }
    ensures count { (r : ReceiverState) → IsIn N station.old.receiver r →
        result.0 ≡ (on_station_bytes_carefully N bytes.now (station_at station.old r)).count }
    ensures noise { (r : ReceiverState) → IsIn N station.old.receiver r →
        result.1 ≡ noise_at N bytes.now (station_at station.old r) }
    ensures step { (r : ReceiverState) → IsIn N station.old.receiver r → (IsMemoryOut result.2 → ⊥) →
        Answers (on_station_bytes_carefully N bytes.now (station_at station.old r)).step result.2 out.new
        station.old station.new }
    ensures refused { (r : ReceiverState) → IsIn N station.old.receiver r → IsMemoryOut result.2 →
        RejectsFrame N (on_bytes_carefully N bytes.now r).step (heard_only (on_bytes_carefully N bytes.now r).step r)
        result.2 out.new station.old station.new }
    ensures spare { (r : ReceiverState) → IsIn N station.old.receiver r →
        SpareAfter station.old.receiver.spare station.new.receiver.spare
        (taken_by (on_station_bytes_carefully N bytes.now (station_at station.old r)).step.answer) }
{
    let CarefulHearingOf {
        count,
        noise,
        answer,
    } = hear_bytes(station, bytes);
    (count, noise, put_answer::<N, B>(answer, out))
}

#[tactic(auto, using(crate::proofs::StationLaws::made))]
/// The timer for one limit.
#[inline(never)]
fn timer_of<const N: usize, const B: usize>(
    station: &mut StationOver<N, OwnOrCallerTexts>,
    out: &mut LisBytes,
) -> Option<Step>
    requires room { B ≡ N + 7 }
    requires bound { B ≤ 64000 }
    ensures step { (r : ReceiverState) → IsIn N station.old.receiver r →
        Answers (on_station_timer {limit = N} (station_at station.old r)) result out.new station.old station.new }
    ensures spare { station.old.receiver.spare ≤ station.new.receiver.spare }
{
    put_answer::<N, B>(station.timer(), out)
}

/// The start for the long limit, whose answer takes 64 kB of the stack.
#[inline(never)]
fn start_long(
    station: &mut StationOver<63_993, OwnOrCallerTexts>,
    texts: OwnOrCallerTexts,
) -> Result<(), StationRefusedOf<OwnOrCallerTexts>>
    ensures { (r : ReceiverState) → IsIn 63993 station.old.receiver r → MatchResult result
        (λ unit. (station_fault (station_at station.old r) (session_texts texts) ≡ None)
        × (station.new ≡ record station.old { sender = started 63993 (session_texts texts); turn = Free }))
        (λ refused. (station_fault (station_at station.old r) (session_texts texts) ≡ Some refused.fault)
        × (refused.texts ≡ texts) × (station.new ≡ station.old)) }
{
    match station.start(texts) {
        Ok(_) => Ok(()),
        Err(refused) => Err(refused),
    }
}

/// Closing the line for the long limit, whose new scanner takes 64 kB of the stack for a moment.
#[inline(never)]
fn close_long(station: &mut StationOver<63_993, OwnOrCallerTexts>)
    ensures state { (r : ReceiverState) → IsIn 63993 station.old.receiver r →
        IsStation 63993 station.new (line_closed (station_at station.old r)) }
    ensures spare { station.old.receiver.spare ≤ station.new.receiver.spare }
{
    station.close_line();
}

/// The restart for the long limit.
#[inline(never)]
fn restart_long(station: &mut StationOver<63_993, OwnOrCallerTexts>)
    ensures state { (r : ReceiverState) → IsIn 63993 station.old.receiver r →
        IsStation 63993 station.new (station_restarted (station_at station.old r)) }
    ensures spare { station.old.receiver.spare ≤ station.new.receiver.spare }
{
    station.restart();
}
