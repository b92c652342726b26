//! A station of the line, and its sessions.

ghost use Rattle.std.specs.Prelude.{◌≡◌, ◌∷◌, ◌++◌, [], length, OnOk, IfOk};
ghost use Rattle.lis_frame.specs.Limit.{IsLimit};
ghost use Rattle.lis_frame.specs.Stream.{signal_after};
ghost use Rattle.lis_link.specs.Receiver.{ReceiverState, new_receiver};
ghost use Rattle.lis_link.specs.Representation.{IsIn};
ghost use Rattle.lis_world.specs.Session.{changed, new_session, sends, session_at};
ghost use Rattle.lis_world.specs.inside.Playing.{takes_frame};
ghost use Rattle.lis_station.specs.Station.{new_station, on_station_byte, on_station_timer, station_restarted};
ghost use Rattle.lis_station.specs.Representation.{station_at, IsStation, IsAnswer, IsOutOfMemory};
ghost use Rattle.lis_station.specs.Line.{new_end};
ghost use Rattle.lis_line.specs.inside.Kept.{end_at, good_frame, kept_following};

use lis_frame::{FrameOf, Heard};
use lis_link::Phase;
use lis_station::{AnswerOf, Role, StationOf};
use lis_text::{LinkText, List};
use lis_world::SessionOf;
use std::alloc::{AllocError, Global};
use std::marker::Model;

/// A station; how many of its units on their way, from the front on, will be answered too late; the number of its
/// sender's session, or of the last one; the number of the other side's session whose ENQ last opened the line here;
/// and its own sessions, one for each ENQ that it sent.
#[derive(Drop)]
pub(crate) struct EndOf<const N: usize> {
    pub(crate) station: Box<StationOf<N>>,
    pub(crate) to_drop: usize,
    pub(crate) current: usize,
    pub(crate) opened: usize,
    pub(crate) sessions: Vec<SessionOf<N>>,
}

impl<const N: usize> Model for EndOf<N> {
    ghost use Rattle.lis_frame.specs.Limit.{IsLimit};
    ghost use Rattle.lis_line.specs.inside.Kept.{KeptEnd};

    ghost Value = { KeptEnd };

    ghost view = { λ e. record {
      station = e.station.value;
      to_drop = e.to_drop;
      current = e.current;
      opened = e.opened;
      sessions = e.sessions.items;
    } };

    ghost invariant = { λ e. IsLimit N };
}

impl<const N: usize> EndOf<N> {
    /// A new station of this side, and no session.
    pub(crate) fn new(alloc: Global, role: Role) -> Result<Self, AllocError>
        requires { IsLimit N }
        ensures end { IfOk result (λ end. end_at end new_receiver ≡ new_end (new_station role)) }
        ensures receiver { IfOk result (λ end. IsIn N end.station.receiver new_receiver) }
    {
        let station = Box::new(alloc, StationOf::new(alloc, role))?;
        Ok(EndOf {
            station,
            to_drop: 0,
            current: 0,
            opened: 0,
            sessions: Vec::new(alloc),
        })
    }

    /// The good frame that this byte ends, if it ends one where the receiver hears it next.
    pub(crate) fn ended_frame(&self, byte: u8) -> Option<FrameOf<N>>
        ensures { (r : ReceiverState) → IsIn N self.now.station.receiver r →
            result ≡ good_frame (signal_after N r.past byte) }
    {
        match self.station.receiver().scanner().peek(byte) {
            Some(Heard::Good(frame)) => Some(FrameOf::from_borrowed(&frame)),
            _ => None,
        }
    }

    /// Whether the other side has the line here.
    pub(crate) fn is_open(&self) -> bool
        ensures { (r : ReceiverState) → IsIn N self.now.station.receiver r → result ≡ r.is_open }
    {
        self.station.receiver().is_open()
    }

    /// The sender's phase.
    pub(crate) fn phase(&self) -> Phase
        ensures { result ≡ self.now.station.sender.phase }
    {
        self.station.sender().phase()
    }

    /// The station hears a byte.
    pub(crate) fn byte(&mut self, byte: u8) -> AnswerOf<N>
        ensures step { (r : ReceiverState) → IsIn N self.old.station.receiver r → (IsOutOfMemory result → ⊥) →
            IsAnswer N self.old.station (on_station_byte N byte (station_at self.old.station r)) result
            self.new.station }
        ensures same { self.new ≡ record self.old { station = self.new.station } }
    {
        self.station.byte(byte)
    }

    /// The station's timer runs out.
    pub(crate) fn timer(&mut self) -> AnswerOf<N>
        ensures step { (r : ReceiverState) → IsIn N self.old.station.receiver r →
            IsAnswer N self.old.station (on_station_timer {limit = N} (station_at self.old.station r)) result
            self.new.station }
        ensures same { self.new ≡ record self.old { station = self.new.station } }
    {
        self.station.timer()
    }

    /// Both ends of the station are restarted.
    pub(crate) fn restart(&mut self)
        ensures state { (r : ReceiverState) → IsIn N self.old.station.receiver r →
            IsStation N self.new.station (station_restarted (station_at self.old.station r)) }
        ensures same { self.new ≡ record self.old { station = self.new.station } }
    {
        self.station.restart();
    }

    /// The sender's count and outcome are booked to its session.
    pub(crate) fn follow(&mut self)
        ensures { self.new ≡ kept_following self.old }
    {
        let sender = self.station.sender();
        let (acknowledged, outcome) = (sender.acknowledged(), sender.outcome());
        if let Some(session) = self.sessions.get_mut(self.current) {
            session.follow(acknowledged, outcome);
        }
    }

    /// A session of these texts begins.
    pub(crate) fn begin(&mut self, alloc: Global, texts: List<LinkText>) -> Result<(), AllocError>
        ensures { OnOk result (self.new ≡ record self.old {
          current = length self.old.sessions;
          sessions = self.old.sessions ++ new_session texts ∷ [];
        }) }
    {
        self.current = self.sessions.len();
        self.sessions.push(SessionOf::new(alloc, texts))?;
        Ok(())
    }

    /// A frame of its session was put on the line.
    pub(crate) fn send(&mut self, frame: &FrameOf<N>) -> Result<(), AllocError>
        ensures { OnOk result (self.new ≡ record self.old {
          sessions = changed self.old.current (sends frame.now) self.old.sessions;
        }) }
    {
        match self.sessions.get_mut(self.current) {
            None => Ok(()),
            Some(session) => session.send(frame),
        }
    }

    /// The other side has accepted a frame, and the text that it completes, in the session at this place.
    pub(crate) fn take(
        &mut self,
        place: usize,
        frame: FrameOf<N>,
        message: Option<LinkText>,
    ) -> Result<(), AllocError>
        ensures { OnOk result (self.new ≡ record self.old {
          sessions = changed place (takes_frame frame.entry message) self.old.sessions;
        }) }
    {
        match self.sessions.get_mut(place) {
            None => Ok(()),
            Some(session) => session.take(frame, message),
        }
    }

    /// The texts of its session, once more.
    pub(crate) fn texts(&self, alloc: Global) -> Result<List<LinkText>, AllocError>
        ensures { IfOk result (λ texts. texts ≡ (session_at self.now.current self.now.sessions).texts) }
    {
        match self.sessions.get(self.current) {
            None => Ok(List::new(alloc)),
            Some(session) => copy_of(alloc, session.texts()),
        }
    }
}

/// The same texts once more.
pub(crate) fn copy_of(alloc: Global, texts: &[LinkText]) -> Result<List<LinkText>, AllocError>
    ensures { IfOk result (λ copies. copies ≡ texts.now) }
{
    let mut copies = List::new(alloc);
    for text in texts {
        let mut copy = List::new(alloc);
        copy.extend(text.as_slice())?;
        copies.push(copy)?;
    }
    Ok(copies)
}
