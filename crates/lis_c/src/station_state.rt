//! What is in a station's block.

ghost use Rattle.std.specs.Prelude.{◌≡◌, ◌≤◌, ◌<◌, ◌⊎◌, ◌∷◌, [], false, max, take, None, Some, MatchResult};
ghost use Rattle.std.specs.Prelude.{OnErr, OnOk};
ghost use Rattle.lis_c.specs.Careful.{counted, heard_set, on_own_byte, on_own_bytes, on_station_byte_set};
ghost use Rattle.lis_c.specs.Careful.{on_station_bytes_set, station_noise_set, station_noises_set};
ghost use Rattle.lis_c.specs.Stations.{Hears, IsNow, MakesAnswer, NewStation, RejectsForMemory};
ghost use Rattle.lis_c.specs.Stations.{HasReserved, StartsSession, state_of};
ghost use Rattle.lis_c.specs.Stations.{station_kept, station_limit, station_spare};
ghost use Rattle.lis_c.specs.Steps.{IsNotOutOfMemory, IsOutOfMemory};
ghost use Rattle.lis_c.specs.inside.Stations.{ReportsAnswer};
ghost use Rattle.lis_link.specs.Receiver.{ReceiverState};
ghost use Rattle.lis_link.specs.Representation.{SpareAfter};
ghost use Rattle.lis_station.specs.declared.station.Role.TheVariants.{Computer};
ghost use Rattle.lis_station.specs.Station.{on_station_timer, station_fault, taken_by};
ghost use Rattle.lis_text.specs.LinkText.{longest_text};

use crate::borrowed::{CallerTexts, OwnOrCallerTexts};
use crate::handle_state::{bounded, make_room, note_code, note_detail, note_place};
use crate::out::{LisAnswer, LisStep};
use crate::stationing::AnyStation;
use lis_link::Step;
use lis_station::{Role, StationFault, StationRefusedOf};
use lis_text::{LinkText, List, Texts};
use std::alloc::{AllocError, Global};
use std::mem;

/// A station, the texts of its next session, and the text that it delivered last; of its room, and of careful hearing,
/// the same as of a receiver's.
#[derive(Drop)]
pub struct StationHandleState {
    pub alloc: Global,
    pub station: AnyStation,
    pub texts: Texts,
    pub text: LinkText,
    pub reserved: u64,
    pub beside: u64,
    pub lacks_room: bool,
    pub careful: bool,
    pub noise: u64,
}

/// Releases all that a handle's state keeps.
pub(crate) fn release_station(_handle_state: StationHandleState) {}

impl StationHandleState {
    pub(crate) fn new(alloc: Global) -> Self
        ensures { NewStation Computer 240 result.station × (result.texts ≡ []) × (result.text ≡ [])
            × (result.reserved ≡ 0) × (result.noise ≡ 0) × (result.careful ≡ false) }
    {
        StationHandleState::over(alloc, AnyStation::usual(alloc, Role::Computer))
    }

    /// A station with no text, and nothing reserved.
    pub(crate) fn over(alloc: Global, station: AnyStation) -> Self
        ensures { (result.station ≡ station) × (result.texts ≡ []) × (result.text ≡ []) × (result.reserved ≡ 0)
            × (result.noise ≡ 0) × (result.careful ≡ false) }
    {
        StationHandleState {
            alloc,
            station,
            texts: Texts::new(alloc),
            text: List::new(alloc),
            reserved: 0,
            beside: 0,
            lacks_room: false,
            careful: false,
            noise: 0,
        }
    }

    /// Makes room for `bytes` more bytes of held text, and as much next to the text that was delivered last, as
    /// `ReceiverHandleState::reserve`.
    pub(crate) fn reserve(&mut self, bytes: u64) -> Result<(), AllocError>
        requires { bytes ≤ longest_text }
        ensures ok { OnOk result (bytes ≤ station_spare self.new.station) }
        ensures exact { OnOk result (station_spare self.new.station ≡ max (station_spare self.old.station) bytes) }
        ensures same { OnErr result (station_kept self.new.station ≡ station_kept self.old.station) }
        ensures state { (r : ReceiverState) → Hears self.old.station r →
            IsNow self.new.station (state_of self.old.station r) }
        ensures spare { station_spare self.old.station ≤ station_spare self.new.station }
        ensures limit { station_limit self.new.station ≡ station_limit self.old.station }
        ensures lasts { OnOk result ((self.new.reserved ≡ bytes) × (self.new.lacks_room ≡ false)) }
        ensures refused { OnErr result ((station_spare self.old.station < bytes) ⊎ (self.old.beside < bytes)) }
        ensures kept { OnErr result (self.new.reserved ≡ self.old.reserved) }
        ensures rest { (self.new.text ≡ self.old.text) × (self.new.texts ≡ self.old.texts) }
        ensures hearing { (self.new.careful ≡ self.old.careful) × (self.new.noise ≡ self.old.noise) }
    {
        if self.beside < bytes {
            make_room(&mut self.text, self.alloc, bytes)?;
            self.beside = bytes;
        }
        self.station.reserve(bytes)?;
        self.reserved = bytes;
        self.lacks_room = false;
        Ok(())
    }

    /// Releases the texts of the next session.
    pub(crate) fn clear(&mut self)
        ensures { self.new ≡ record self.old { texts = [] } }
    {
        self.texts = Texts::new(self.alloc);
    }

    /// Starts a session with the texts. Where it is rejected the handle's state is as before.
    pub(crate) fn start(&mut self) -> Result<(), StationFault>
        ensures { (r : ReceiverState) → Hears self.old.station r → MatchResult result
            (λ unit. (station_fault (state_of self.old.station r) self.old.texts ≡ None)
            × StartsSession self.old.texts self.old.station self.new.station
            × (self.new ≡ record self.old { station = self.new.station; texts = [] }))
            (λ fault. (station_fault (state_of self.old.station r) self.old.texts ≡ Some fault)
            × (self.new ≡ self.old)) }
    {
        let texts = mem::replace(&mut self.texts, Texts::new(self.alloc));
        match self.station.start(OwnOrCallerTexts::Copied(texts)) {
            Ok(()) => Ok(()),
            Err(refused) => {
                let StationRefusedOf { texts, fault } = refused;
                if let OwnOrCallerTexts::Copied(texts) = texts {
                    self.texts = texts;
                }
                Err(fault)
            }
        }
    }

    /// Starts a session with texts that stay with the caller. Where it is rejected the handle's state is as before.
    pub(crate) fn start_borrowed(&mut self, texts: CallerTexts) -> Result<(), StationFault>
        ensures { (r : ReceiverState) → Hears self.old.station r → MatchResult result
            (λ unit. (station_fault (state_of self.old.station r) texts ≡ None)
            × StartsSession texts self.old.station self.new.station
            × (self.new ≡ record self.old { station = self.new.station }))
            (λ fault. (station_fault (state_of self.old.station r) texts ≡ Some fault)
            × (self.new ≡ self.old)) }
    {
        match self.station.start(OwnOrCallerTexts::Borrowed(texts)) {
            Ok(()) => Ok(()),
            Err(refused) => Err(refused.fault),
        }
    }

    /// Reports an answer, whose bytes were put. A text that it delivers is kept; the station has the room of the one
    /// before.
    fn report(&mut self, step: Option<Step>, out: &mut LisAnswer)
        ensures reported { ReportsAnswer step self.old.text out.new self.new.text }
        ensures sends { out.new.send ≡ out.old.send }
        ensures same { step ≡ None → self.new.station ≡ self.old.station }
        ensures state { (r : ReceiverState) → Hears self.old.station r →
            IsNow self.new.station (state_of self.old.station r) }
        ensures spare { station_spare self.old.station ≤ station_spare self.new.station }
        ensures limit { station_limit self.new.station ≡ station_limit self.old.station }
        ensures texts { self.new.texts ≡ self.old.texts }
        ensures lasts { HasReserved out.new.step.has_text self.new }
        ensures reserved { self.new.reserved ≡ self.old.reserved }
        ensures hearing { (self.new.careful ≡ self.old.careful) × (self.new.noise ≡ self.old.noise) }
    {
        let Some(
            Step {
                reply,
                message,
                note,
            },
        ) = step
        else {
            out.is_step = false;
            out.step = LisStep {
                reply: 0,
                has_text: false,
                note: 0,
                detail: 0,
                place: 0,
            };
            return;
        };
        out.is_step = true;
        out.step.reply = reply.unwrap_or(0);
        out.step.note = note_code(note);
        out.step.detail = note_detail(note);
        out.step.place = note_place(note);
        match message {
            None => out.step.has_text = false,
            Some(text) => {
                out.step.has_text = true;
                let before = mem::replace(&mut self.text, text);
                self.station.reuse(before);
                self.beside = 0;
                self.lacks_room = self.station.reserve(bounded(self.reserved)).is_err();
            }
        }
    }

    /// A byte comes: reports the answer.
    pub(crate) fn byte(&mut self, byte: u8, out: &mut LisAnswer)
        ensures step { (r : ReceiverState) → Hears self.old.station r → IsNotOutOfMemory out.new.step →
            MakesAnswer (on_station_byte_set (station_limit self.old.station) self.old.careful byte
            (state_of self.old.station r))
            self.old out.new self.new }
        ensures refused { (r : ReceiverState) → Hears self.old.station r → IsOutOfMemory out.new.step →
            RejectsForMemory (on_own_byte self.old.careful (station_limit self.old.station) byte r)
            (heard_set self.old.careful (on_own_byte self.old.careful (station_limit self.old.station) byte r)
            (byte ∷ []) r) self.old out.new self.new }
        ensures spare { (r : ReceiverState) → Hears self.old.station r →
            SpareAfter (station_spare self.old.station) (station_spare self.new.station)
            (taken_by (on_station_byte_set (station_limit self.old.station) self.old.careful byte
            (state_of self.old.station r)).answer) }
        ensures limit { station_limit self.new.station ≡ station_limit self.old.station }
        ensures texts { self.new.texts ≡ self.old.texts }
        ensures lasts { HasReserved out.new.step.has_text self.new }
        ensures reserved { self.new.reserved ≡ self.old.reserved }
        ensures careful { self.new.careful ≡ self.old.careful }
        ensures noise { (r : ReceiverState) → Hears self.old.station r → self.new.noise
            ≡ counted self.old.noise (station_noise_set self.old.careful byte (state_of self.old.station r)) }
    {
        let noise = self.station.noise_set(self.careful, byte);
        let step = self.station.byte_set(self.careful, byte, &mut out.send);
        self.report(step, out);
        self.noise = self.noise.saturating_add(noise as u64);
    }

    /// Bytes come: reports the answer to the last one that was heard, and answers how many were.
    pub(crate) fn hear(&mut self, bytes: &[u8], out: &mut LisAnswer) -> usize
        ensures count { (r : ReceiverState) → Hears self.old.station r → result
            ≡ (on_station_bytes_set (station_limit self.old.station) self.old.careful bytes.now
            (state_of self.old.station r)).count }
        ensures step { (r : ReceiverState) → Hears self.old.station r → IsNotOutOfMemory out.new.step → MakesAnswer
            (on_station_bytes_set (station_limit self.old.station) self.old.careful bytes.now
            (state_of self.old.station r)).step self.old out.new self.new }
        ensures refused { (r : ReceiverState) → Hears self.old.station r → IsOutOfMemory out.new.step →
            RejectsForMemory (on_own_bytes self.old.careful (station_limit self.old.station) bytes.now r).step
            (heard_set self.old.careful (on_own_bytes self.old.careful (station_limit self.old.station) bytes.now
            r).step (take result bytes.now) r) self.old out.new self.new }
        ensures spare { (r : ReceiverState) → Hears self.old.station r →
            SpareAfter (station_spare self.old.station) (station_spare self.new.station) (taken_by
            (on_station_bytes_set (station_limit self.old.station) self.old.careful bytes.now
            (state_of self.old.station r)).step.answer) }
        ensures limit { station_limit self.new.station ≡ station_limit self.old.station }
        ensures texts { self.new.texts ≡ self.old.texts }
        ensures lasts { HasReserved out.new.step.has_text self.new }
        ensures reserved { self.new.reserved ≡ self.old.reserved }
        ensures careful { self.new.careful ≡ self.old.careful }
        ensures noise { (r : ReceiverState) → Hears self.old.station r → self.new.noise ≡ counted self.old.noise
            (station_noises_set (station_limit self.old.station) self.old.careful bytes.now
            (state_of self.old.station r)) }
    {
        let (count, noise, step) = self.station.bytes_set(self.careful, bytes, &mut out.send);
        self.noise = self.noise.saturating_add(noise as u64);
        self.report(step, out);
        count
    }

    /// The timer runs out: reports the answer.
    pub(crate) fn timer(&mut self, out: &mut LisAnswer)
        ensures step { (r : ReceiverState) → Hears self.old.station r → MakesAnswer
            (on_station_timer {limit = station_limit self.old.station} (state_of self.old.station r))
            self.old out.new self.new }
        ensures spare { station_spare self.old.station ≤ station_spare self.new.station }
        ensures limit { station_limit self.new.station ≡ station_limit self.old.station }
        ensures texts { self.new.texts ≡ self.old.texts }
        ensures reserved { self.new.reserved ≡ self.old.reserved }
        ensures hearing { (self.new.careful ≡ self.old.careful) × (self.new.noise ≡ self.old.noise) }
    {
        let step = self.station.timer(&mut out.send);
        self.report(step, out);
    }
}
