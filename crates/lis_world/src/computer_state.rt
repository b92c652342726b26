//! The computer's side of the link: the receiver, and the sessions that it takes frames for.

ghost use Rattle.std.specs.Prelude.{◌≡◌, ◌≢◌, ◌≤◌, ◌+◌, length, ◌∷◌, ◌++◌, [], OnOk, IfOk, true, false};
ghost use Rattle.lis_frame.specs.Limit.{IsLimit};
ghost use Rattle.lis_frame.specs.Frame.{frame_bytes};
ghost use Rattle.lis_link.specs.declared.receiver.Note.TheVariants as Notes;
ghost use Rattle.lis_link.specs.Receiver.{ReceiverState, ReceiverStep, new_receiver, on_receiver_timer};
ghost use Rattle.lis_link.specs.Receiver.{receiver_restarted, with_readiness, with_room};
ghost use Rattle.lis_link.specs.Representation.{IsIn, IsStep};
ghost use Rattle.lis_frame.specs.Stream.{signals_after};
ghost use Rattle.lis_world.specs.Session.{changed, sends};
ghost use Rattle.lis_world.specs.Unit.{load_bytes, one_frame};
ghost use Rattle.lis_world.specs.Steps.{is_noticed};
ghost use Rattle.lis_world.specs.World.{booked, hears};
ghost use Rattle.lis_world.specs.inside.Playing.{IsComputerState, computer_state_at, OnlyLoad, TakesLoad, takes_frame};
ghost use Rattle.lis_world.specs.inside.Playing.{follows_with};

use crate::session::SessionOf;
use crate::unit::{LoadOf, TravellingOf};
use arrayvec::ArrayVec;
use lis_frame::{FrameOf, Heard, frame_bytes_of};
use lis_link::{Hearing, Note, Outcome, Readiness, ReceiverOf, Step};
use lis_text::{ENQ, EOT, LinkText};
use std::alloc::{AllocError, Global};
use std::collections::VecDeque;
use std::marker::Model;

/// The receiver, the session whose ENQ last opened the line, the sessions, and the replies that the
/// present unit has caused.
#[derive(Drop)]
pub(crate) struct ComputerStateOf<const N: usize> {
    receiver: Box<ReceiverOf<N>>,
    opened: usize,
    sessions: Vec<SessionOf<N>>,
    caused: VecDeque<u8>,
}

impl<const N: usize> Model for ComputerStateOf<N> {
    ghost use Rattle.lis_frame.specs.Limit.{IsLimit};
    ghost use Rattle.lis_world.specs.inside.Playing.{KeptComputerState};

    ghost Value = { KeptComputerState };

    ghost view = { λ d. record {
      receiver = d.receiver.value;
      opened = d.opened;
      sessions = d.sessions.items;
      replies = d.caused.items;
    } };

    ghost invariant = { λ d. IsLimit N };
}

impl<const N: usize> ComputerStateOf<N> {
    /// A new receiver, and no session.
    pub(crate) fn new(alloc: Global) -> Result<Self, AllocError>
        requires { IsLimit N }
        ensures { IfOk result (λ computer_state. IsComputerState N computer_state
            (record { receiver = new_receiver; opened = 0; sessions = []; replies = [] })) }
    {
        let receiver = Box::new(alloc, ReceiverOf::new(alloc))?;
        Ok(ComputerStateOf {
            receiver,
            opened: 0,
            sessions: Vec::new(alloc),
            caused: VecDeque::new(alloc),
        })
    }

    /// The receiver's timer runs out.
    pub(crate) fn timer(&mut self)
        ensures { (r : ReceiverState) → IsIn N self.old.receiver r →
            IsComputerState N self.new (record (computer_state_at self.old r) {
              receiver = (on_receiver_timer r).after;
            }) }
    {
        self.receiver.timer();
    }

    /// The receiver is restarted.
    pub(crate) fn restart(&mut self)
        ensures { (r : ReceiverState) → IsIn N self.old.receiver r →
            IsComputerState N self.new (record (computer_state_at self.old r) { receiver = receiver_restarted r }) }
    {
        self.receiver.restart();
    }

    /// How the receiver answers ENQ from now on.
    pub(crate) fn set_ready(&mut self, readiness: Readiness)
        ensures { (r : ReceiverState) → IsIn N self.old.receiver r →
            IsComputerState N self.new (record (computer_state_at self.old r) {
              receiver = with_readiness readiness r;
            }) }
    {
        self.receiver.set_ready(readiness);
    }

    /// Whether the receiver has room from now on.
    pub(crate) fn set_room(&mut self, room: bool)
        ensures { (r : ReceiverState) → IsIn N self.old.receiver r →
            IsComputerState N self.new (record (computer_state_at self.old r) { receiver = with_room room r }) }
    {
        self.receiver.set_room(room);
    }

    /// A unit comes; the replies that it causes are collected from none.
    pub(crate) fn deliver(&mut self, unit: &TravellingOf<N>) -> Result<(), AllocError>
        ensures { (r : ReceiverState) → IsIn N self.old.receiver r →
            OnOk result (IsComputerState N self.new
            (hears N unit.now.session (load_bytes unit.now.load)
            (record (computer_state_at self.old r) { replies = [] }))) }
    {
        self.caused.clear();
        // The buffer is chosen by the limit: the usual one needs none for the longest frame of all.
        match &unit.load {
            LoadOf::Enquiry => self.hear(unit, &[ENQ]),
            LoadOf::Ending => self.hear(unit, &[EOT]),
            LoadOf::Frame(frame) if N == 240 => self.hear_frame::<247>(unit, frame),
            LoadOf::Frame(frame) => self.hear_frame::<64_000>(unit, frame),
        }
    }

    /// These bytes come in the place of a unit, if that is noticed.
    pub(crate) fn damage(&mut self, unit: &TravellingOf<N>, bytes: &[u8]) -> Result<(), AllocError>
        ensures { (r : ReceiverState) → IsIn N self.old.receiver r →
            is_noticed unit.now.load (signals_after N r.past bytes.now) ≡ true →
            OnOk result (IsComputerState N self.new
            (hears N unit.now.session bytes.now (record (computer_state_at self.old r) { replies = [] }))) }
    {
        self.caused.clear();
        self.hear(unit, bytes)
    }

    /// Whether damage is noticed: what is heard of these bytes in this unit's place is nothing or, of a
    /// frame, one bad frame.
    pub(crate) fn notices(&self, unit: &TravellingOf<N>, bytes: &[u8]) -> bool
        ensures { (r : ReceiverState) → IsIn N self.now.receiver r →
            result ≡ is_noticed unit.now.load (signals_after N r.past bytes.now) }
    {
        let mut scanner = self.receiver.scanner().copy();
        let mut is_bad = false;
        for byte in bytes {
            match scanner.peek(*byte) {
                None => {}
                Some(Heard::Bad(_)) => {
                    if is_bad || !unit.is_frame() {
                        return false;
                    }
                    is_bad = true;
                }
                Some(_) => return false,
            }
            scanner.take(*byte);
        }
        true
    }

    /// The replies that the unit has caused go after those on the link.
    pub(crate) fn answer(&mut self, replies: &mut VecDeque<u8>) -> Result<(), AllocError>
        ensures { OnOk result ((replies.new.items ≡ replies.old.items ++ self.old.replies)
            × (self.new ≡ record self.old { replies = [] })) }
    {
        replies.append(&mut self.caused)
    }

    /// They are dropped.
    pub(crate) fn keep_silent(&mut self)
        ensures { self.new ≡ record self.old { replies = [] } }
    {
        self.caused.clear();
    }

    /// How many sessions there are.
    pub(crate) fn sessions(&self) -> usize
        ensures { result ≡ length self.now.sessions }
    {
        self.sessions.len()
    }

    /// A session begins.
    pub(crate) fn begin(&mut self, session: SessionOf<N>) -> Result<(), AllocError>
        ensures { OnOk result (self.new ≡ record self.old { sessions = self.old.sessions ++ session.entry ∷ [] }) }
    {
        self.sessions.push(session)?;
        Ok(())
    }

    /// The sender of the session at this place has so many acknowledged frames, and this outcome.
    pub(crate) fn follow(&mut self, place: usize, acknowledged: u64, outcome: Option<Outcome>)
        ensures { self.new ≡ record self.old {
          sessions = changed place (follows_with acknowledged outcome) self.old.sessions;
        } }
    {
        if let Some(session) = self.sessions.get_mut(place) {
            session.follow(acknowledged, outcome);
        }
    }

    /// A frame of the session at this place was put on the link.
    pub(crate) fn send(&mut self, place: usize, frame: &FrameOf<N>) -> Result<(), AllocError>
        ensures { OnOk result (self.new ≡ record self.old
            { sessions = changed place (sends frame.now) self.old.sessions }) }
    {
        match self.sessions.get_mut(place) {
            None => Ok(()),
            Some(session) => session.send(frame),
        }
    }

    /// The sessions.
    pub(crate) fn into_sessions(self) -> Vec<SessionOf<N>>
        ensures { result.items ≡ self.entry.sessions }
    {
        let ComputerStateOf { sessions, .. } = self;
        sessions
    }

    /// A frame comes, written into a buffer of `B` bytes.
    fn hear_frame<const B: usize>(
        &mut self,
        unit: &TravellingOf<N>,
        frame: &FrameOf<N>,
    ) -> Result<(), AllocError>
        requires room { N + 7 ≤ B }
        requires bound { B ≤ 64000 }
        requires unit { unit.now.load ≡ one_frame frame.now }
        ensures { (r : ReceiverState) → IsIn N self.old.receiver r →
            OnOk result (IsComputerState N self.new (hears N unit.now.session (frame_bytes frame.now)
            (computer_state_at self.old r))) }
    {
        // proof: what `number` promises is that the frame can be written, and is heard as itself.
        let _ = frame.number();
        let bytes: ArrayVec<u8, B> = frame_bytes_of(frame);
        self.hear(unit, bytes.as_slice())
    }

    /// Bytes come in the place of a unit; no frame but the unit is among them.
    fn hear(&mut self, unit: &TravellingOf<N>, bytes: &[u8]) -> Result<(), AllocError>
        ensures { (r : ReceiverState) → IsIn N self.old.receiver r →
            OnlyLoad unit.now.load (signals_after N r.past bytes.now) →
            OnOk result (IsComputerState N self.new
            (hears N unit.now.session bytes.now (computer_state_at self.old r))) }
    {
        let mut taken = 0;
        while taken < bytes.len() {
            let Hearing { count, step } = self.receiver.bytes(&bytes[taken..]);
            taken += count;
            self.book(unit, step)?;
        }
        Ok(())
    }

    /// What the receiver answered while a unit came is booked; what it accepts is the unit.
    fn book(&mut self, unit: &TravellingOf<N>, step: Step) -> Result<(), AllocError>
        ensures receiver { self.new.receiver ≡ self.old.receiver }
        ensures memory { OnOk result (step.note ≢ Notes.OutOfMemory) }
        ensures computer_state { (meant : ReceiverStep) (r : ReceiverState) → IsStep meant step →
            TakesLoad unit.now.load meant →
            OnOk result (computer_state_at self.new r
            ≡ record (booked unit.now.session meant (computer_state_at self.old r)) { receiver = r }) }
    {
        let Step {
            reply,
            message,
            note,
        } = step;
        if let Some(byte) = reply {
            self.caused.push_back(byte)?;
        }
        match note {
            Note::OutOfMemory => return Err(AllocError),
            Note::Opened => self.opened = unit.session,
            Note::Accepted(_) => {
                if let LoadOf::Frame(frame) = &unit.load {
                    self.take(frame.copy(), message)?;
                }
            }
            _ => {}
        }
        Ok(())
    }

    /// The frame that was accepted, and the text that it completes, are booked to the session that
    /// opened the line.
    fn take(&mut self, frame: FrameOf<N>, message: Option<LinkText>) -> Result<(), AllocError>
        ensures receiver { self.new.receiver ≡ self.old.receiver }
        ensures computer_state { OnOk result (self.new ≡ record self.old {
          sessions = changed self.old.opened (takes_frame frame.entry message) self.old.sessions;
        }) }
    {
        match self.sessions.get_mut(self.opened) {
            None => Ok(()),
            Some(owner) => owner.take(frame, message),
        }
    }
}
