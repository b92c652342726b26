//! Events, one by one, on a line between two real stations.

ghost use Rattle.std.specs.Prelude.{◌≡◌, ◌≢◌, ◌≤◌, ◌+◌, false, OnOk, IfOk};
ghost use Rattle.lis_frame.specs.Frame.{frame_bytes};
ghost use Rattle.lis_frame.specs.Limit.{IsLimit};
ghost use Rattle.lis_link.specs.declared.receiver.Note.TheVariants as Notes;
ghost use Rattle.lis_link.specs.Receiver.{ReceiverState};
ghost use Rattle.lis_link.specs.Representation.{IsIn};
ghost use Rattle.lis_station.specs.Representation.{station_at};
ghost use Rattle.lis_station.specs.Station.{awaits_reply, on_station_byte, station_fault};
ghost use Rattle.lis_station.specs.Line.{new_two_way, happens, after_line_event, begins_out, arrives, damaged_in};
ghost use Rattle.lis_station.specs.Line.{lost_in, timed, waits_no_more, asks_anew, forgotten_out, comes, item_bytes};
ghost use Rattle.lis_station.specs.Line.{steps, emitted_out, followed_by};
ghost use Rattle.lis_station.specs.Line.{turned, give_up, restart};
ghost use Rattle.lis_line.specs.Events.{station_event, line_event};
ghost use Rattle.lis_line.specs.inside.Kept.{line_at, IsLine, front_noise};
ghost use Rattle.lis_line.specs.inside.Kept.{kept_turned, kept_forgotten, kept_out, kept_begun, kept_opened};
ghost use Rattle.lis_line.specs.inside.Kept.{kept_answered, kept_noted, kept_left, item_of, end_at};

use crate::end::{EndOf, copy_of};
use crate::event::{LineEvent, StationEvent};
use crate::item::{CarriedOf, ItemOf, ItemsOf, count_units, without_replies};
use crate::noise::is_noise_to_sender;
use lis_frame::{ArrayVec, FrameOf, frame_bytes_of};
use lis_link::{EmitOf, Note, Phase, Step};
use lis_station::{AnswerOf, Role};
use lis_text::{ENQ, EOT, LinkText, List, Texts};
use lis_world::SessionOf;
use std::alloc::{AllocError, Global};
use std::collections::VecDeque;
use std::marker::Model;
use std::mem;

/// The line, seen from one station: that one, the other one, and what is on its way from here and to here.
#[derive(Drop)]
pub(crate) struct LineOf<const N: usize> {
    alloc: Global,
    pub(crate) near: EndOf<N>,
    pub(crate) far: EndOf<N>,
    outward: ItemsOf<N>,
    inward: ItemsOf<N>,
}

impl<const N: usize> Model for LineOf<N> {
    ghost use Rattle.lis_frame.specs.Limit.{IsLimit};
    ghost use Rattle.lis_line.specs.inside.Kept.{KeptLine};

    ghost Value = { KeptLine };

    ghost view = { λ l. record {
      near = l.near;
      far = l.far;
      outward = l.outward.items;
      inward = l.inward.items;
    } };

    ghost invariant = { λ l. IsLimit N };
}

impl<const N: usize> LineOf<N> {
    /// Two new stations, and an empty line, seen from the analyzer.
    pub(crate) fn new(alloc: Global) -> Result<Self, AllocError>
        requires { IsLimit N }
        ensures { IfOk result (λ line. IsLine N line new_two_way) }
    {
        let near = EndOf::new(alloc, Role::Analyzer)?;
        let far = EndOf::new(alloc, Role::Computer)?;
        Ok(LineOf {
            alloc,
            near,
            far,
            outward: VecDeque::new(alloc),
            inward: VecDeque::new(alloc),
        })
    }

    /// One event on the line.
    pub(crate) fn happen_on_line(&mut self, event: LineEvent) -> Result<(), AllocError>
        ensures { (r q : ReceiverState) → IsIn N self.old.near.station.receiver r →
            IsIn N self.old.far.station.receiver q →
            OnOk result (IsLine N self.new (after_line_event N (line_event event) (line_at self.old r q))) }
    {
        match event {
            LineEvent::AtAnalyzer(event) => self.happen(event),
            LineEvent::AtComputer(event) => self.happen_there(event),
        }
    }

    /// One event at the other station.
    fn happen_there(&mut self, event: StationEvent) -> Result<(), AllocError>
        ensures { (r q : ReceiverState) → IsIn N self.old.near.station.receiver r →
            IsIn N self.old.far.station.receiver q →
            OnOk result (IsLine N self.new (turned (happens N (station_event event)
            (turned (line_at self.old r q))))) }
    {
        self.turn();
        self.happen(event)?;
        self.turn();
        Ok(())
    }

    /// The same line, seen from the other station.
    fn turn(&mut self)
        ensures { self.new ≡ kept_turned self.old }
    {
        mem::swap(&mut self.near, &mut self.far);
        mem::swap(&mut self.outward, &mut self.inward);
    }

    /// The analyzer's sessions and the computer's.
    pub(crate) fn into_sessions(self) -> (Vec<SessionOf<N>>, Vec<SessionOf<N>>)
        ensures { (result.0.items ≡ self.entry.near.sessions) × (result.1.items ≡ self.entry.far.sessions) }
    {
        let LineOf { near, far, .. } = self;
        let (
            EndOf { sessions: own, .. },
            EndOf {
                sessions: other,
                ..
            },
        ) = (near, far);
        (own, other)
    }

    /// One event at this station.
    fn happen(&mut self, event: StationEvent) -> Result<(), AllocError>
        ensures { (r q : ReceiverState) → IsIn N self.old.near.station.receiver r →
            IsIn N self.old.far.station.receiver q →
            OnOk result (IsLine N self.new (happens N (station_event event) (line_at self.old r q))) }
    {
        match event {
            StationEvent::Start(texts) => return self.start(texts),
            StationEvent::Arrive => return self.arrive(),
            StationEvent::Damage(bytes) => return self.damage(bytes.as_slice()),
            StationEvent::Lose => self.lose(),
            StationEvent::Timer => return self.timer(),
            StationEvent::GiveUp => return self.give_up(),
            StationEvent::CloseLine => self.near.station.close_line(),
            StationEvent::Restart => return self.restart(),
            StationEvent::SetReady(ready) => self.near.station.set_ready(ready),
            StationEvent::AskTurn => self.near.station.ask_turn(),
        }
        Ok(())
    }

    /// The station asks for the line, if the start isn't rejected. One that is rejected takes no memory.
    fn start(&mut self, texts: Texts) -> Result<(), AllocError>
        ensures { (r q : ReceiverState) → IsIn N self.old.near.station.receiver r →
            IsIn N self.old.far.station.receiver q →
            OnOk result (IsLine N self.new (begins_out N (station_fault (station_at self.old.near.station r) texts)
            texts (line_at self.old r q))) }
    {
        if self.near.station.receiver().is_open()
            || self.near.station.sender().start_fault(&texts).is_some()
        {
            return Ok(());
        }
        let kept = copy_of(self.alloc, texts.as_slice())?;
        if self.near.station.start(texts).is_err() {
            return Ok(());
        }
        self.begin(kept)
    }

    /// A session of these texts begins: ENQ goes on the line.
    fn begin(&mut self, texts: List<LinkText>) -> Result<(), AllocError>
        ensures { OnOk result (self.new ≡ kept_begun texts self.old) }
    {
        self.near.begin(self.alloc, texts)?;
        self.put(CarriedOf::Enquiry(self.near.current))
    }

    /// What is at the front comes.
    fn arrive(&mut self) -> Result<(), AllocError>
        ensures { (r q : ReceiverState) → IsIn N self.old.near.station.receiver r →
            IsIn N self.old.far.station.receiver q →
            OnOk result (IsLine N self.new (arrives N self.old.inward (line_at self.old r q))) }
    {
        let Some(item) = self.inward.pop_front() else {
            return Ok(());
        };
        self.come_whole(&item)?;
        self.leave(&item);
        Ok(())
    }

    /// All bytes of this come.
    fn come_whole(&mut self, item: &ItemOf<N>) -> Result<(), AllocError>
        ensures { (r q : ReceiverState) → IsIn N self.old.near.station.receiver r →
            IsIn N self.old.far.station.receiver q →
            OnOk result (IsLine N self.new (comes N item.now (item_bytes item.now) (line_at self.old r q))) }
    {
        // proof: the line's invariant says how long `N` may be.
        let _ = &self.alloc;
        // The buffer is chosen by the limit: the usual one needs none for the longest frame of all.
        match &item.carried {
            CarriedOf::Enquiry(_) => self.come(item, &[ENQ]),
            CarriedOf::Ending(_) => self.come(item, &[EOT]),
            CarriedOf::Frame(_, frame) if N == 240 => self.come_frame::<247>(item, frame),
            CarriedOf::Frame(_, frame) => self.come_frame::<64_000>(item, frame),
            CarriedOf::Reply(byte) => self.come(item, &[*byte]),
        }
    }

    /// The bytes of a frame come, written into a buffer of `B` bytes.
    fn come_frame<const B: usize>(
        &mut self,
        item: &ItemOf<N>,
        frame: &FrameOf<N>,
    ) -> Result<(), AllocError>
        requires room { N + 7 ≤ B }
        requires bound { B ≤ 64000 }
        ensures { (r q : ReceiverState) → IsIn N self.old.near.station.receiver r →
            IsIn N self.old.far.station.receiver q →
            OnOk result (IsLine N self.new (comes N item.now (frame_bytes frame.now) (line_at self.old r q))) }
    {
        // proof: what `number` promises is that the frame can be written.
        let _ = frame.number();
        let bytes: ArrayVec<u8, B> = frame_bytes_of(frame);
        self.come(item, bytes.as_slice())
    }

    /// These bytes come in the place of what was at the front, if that is noticed.
    fn damage(&mut self, bytes: &[u8]) -> Result<(), AllocError>
        ensures { (r q : ReceiverState) → IsIn N self.old.near.station.receiver r →
            IsIn N self.old.far.station.receiver q →
            OnOk result (IsLine N self.new (damaged_in N bytes.now self.old.inward (line_at self.old r q))) }
    {
        if !self.notices(bytes) {
            return Ok(());
        }
        let Some(item) = self.inward.pop_front() else {
            return Ok(());
        };
        self.come(&item, bytes)?;
        self.leave(&item);
        Ok(())
    }

    /// Whether something is on its way here, and these bytes in its place are noticed.
    fn notices(&self, bytes: &[u8]) -> bool
        ensures { (r : ReceiverState) → IsIn N self.now.near.station.receiver r →
            result ≡ front_noise N (awaits_reply self.now.near.station.sender.phase) self.now.inward bytes.now r }
    {
        let Some(item) = self.inward.front() else {
            return false;
        };
        if !item.is_unit() && bytes.len() != 1 {
            return false;
        }
        if self.near.station.awaits_reply() {
            return is_noise_to_sender(bytes);
        }
        self.near.hears_noise(item, bytes)
    }

    /// What is at the front is lost.
    fn lose(&mut self)
        ensures { (r q : ReceiverState) → IsIn N self.old.near.station.receiver r →
            IsIn N self.old.far.station.receiver q →
            IsLine N self.new (lost_in self.old.inward (line_at self.old r q)) }
    {
        if let Some(item) = self.inward.pop_front() {
            self.leave(&item);
        }
    }

    /// The station's timer runs out.
    fn timer(&mut self) -> Result<(), AllocError>
        ensures { (r q : ReceiverState) → IsIn N self.old.near.station.receiver r →
            IsIn N self.old.far.station.receiver q →
            OnOk result (IsLine N self.new (timed N r.is_open (line_at self.old r q))) }
    {
        if self.near.is_open() {
            self.near.timer();
            return Ok(());
        }
        match self.near.phase() {
            Phase::Neutral => Ok(()),
            Phase::AwaitLine | Phase::AwaitReply => self.wait_no_more(),
            Phase::Busy | Phase::Contention => self.ask_anew(),
        }
    }

    /// A reply does not come in time.
    fn wait_no_more(&mut self) -> Result<(), AllocError>
        ensures { (r q : ReceiverState) → IsIn N self.old.near.station.receiver r →
            IsIn N self.old.far.station.receiver q → r.is_open ≡ false →
            OnOk result (IsLine N self.new (waits_no_more N (line_at self.old r q))) }
    {
        self.forget()?;
        match self.near.timer() {
            AnswerOf::Emits(emit) => self.emit(emit),
            AnswerOf::Hears(_step) => Ok(()),
        }
    }

    /// A sender that waits asks for the line again, in a session anew with the same texts.
    fn ask_anew(&mut self) -> Result<(), AllocError>
        ensures { (r q : ReceiverState) → IsIn N self.old.near.station.receiver r →
            IsIn N self.old.far.station.receiver q → r.is_open ≡ false →
            OnOk result (IsLine N self.new (asks_anew N (forgotten_out (line_at self.old r q)))) }
    {
        self.forget()?;
        self.near.timer();
        let texts = self.near.texts(self.alloc)?;
        self.begin(texts)
    }

    /// The station's session is given up.
    fn give_up(&mut self) -> Result<(), AllocError>
        ensures { (r q : ReceiverState) → IsIn N self.old.near.station.receiver r →
            IsIn N self.old.far.station.receiver q →
            OnOk result (IsLine N self.new (happens N give_up (line_at self.old r q))) }
    {
        self.forget()?;
        self.near.station.give_up();
        self.near.follow();
        Ok(())
    }

    /// Both ends of the station are restarted.
    fn restart(&mut self) -> Result<(), AllocError>
        ensures { (r q : ReceiverState) → IsIn N self.old.near.station.receiver r →
            IsIn N self.old.far.station.receiver q →
            OnOk result (IsLine N self.new (happens N restart (line_at self.old r q))) }
    {
        self.forget()?;
        self.near.restart();
        self.near.follow();
        Ok(())
    }

    /// No reply to what this station has sent comes any more.
    fn forget(&mut self) -> Result<(), AllocError>
        ensures { OnOk result (self.new ≡ kept_forgotten self.old) }
    {
        self.near.to_drop = count_units(&self.outward);
        let items = mem::replace(&mut self.inward, VecDeque::new(self.alloc));
        self.inward = without_replies(self.alloc, items)?;
        Ok(())
    }

    /// Bytes come in the place of this, one by one.
    fn come(&mut self, item: &ItemOf<N>, bytes: &[u8]) -> Result<(), AllocError>
        ensures { (r q : ReceiverState) → IsIn N self.old.near.station.receiver r →
            IsIn N self.old.far.station.receiver q →
            OnOk result (IsLine N self.new (comes N item.now bytes.now (line_at self.old r q))) }
    {
        for byte in bytes {
            self.hear(item, *byte)?;
        }
        Ok(())
    }

    /// A byte comes in the place of this.
    fn hear(&mut self, item: &ItemOf<N>, byte: u8) -> Result<(), AllocError>
        ensures { (r q : ReceiverState) → IsIn N self.old.near.station.receiver r →
            IsIn N self.old.far.station.receiver q →
            OnOk result (IsLine N self.new (steps item.now (on_station_byte N byte
            (station_at self.old.near.station r)) (line_at self.old r q))) }
    {
        let frame = self.near.ended_frame(byte);
        match self.near.byte(byte) {
            AnswerOf::Emits(emit) => self.emit(emit),
            AnswerOf::Hears(step) => self.book(item, frame, step),
        }
    }

    /// What the receiver answered is booked; a frame that it accepted is this one.
    fn book(
        &mut self,
        item: &ItemOf<N>,
        frame: Option<FrameOf<N>>,
        step: Step,
    ) -> Result<(), AllocError>
        ensures memory { OnOk result (step.note ≢ Notes.OutOfMemory) }
        ensures line { OnOk result (self.new ≡ kept_answered self.old.far.to_drop step.reply
            (kept_noted item.now step.note frame.entry step.message self.old)) }
    {
        let Step {
            reply,
            message,
            note,
        } = step;
        self.note(item, note, frame, message)?;
        self.answer(reply)
    }

    /// The session that owns the line, and what was accepted, are booked.
    fn note(
        &mut self,
        item: &ItemOf<N>,
        note: Note,
        frame: Option<FrameOf<N>>,
        message: Option<LinkText>,
    ) -> Result<(), AllocError>
        ensures memory { OnOk result (note ≢ Notes.OutOfMemory) }
        ensures line { OnOk result (self.new ≡ kept_noted item.now note frame.entry message self.old) }
    {
        match note {
            Note::OutOfMemory => Err(AllocError),
            Note::Opened => {
                self.open(item);
                Ok(())
            }
            Note::Accepted(_) => match frame {
                None => Ok(()),
                Some(frame) => self.far.take(self.near.opened, frame, message),
            },
            _ => Ok(()),
        }
    }

    /// The line was opened while this came: the session of an ENQ owns what comes next.
    fn open(&mut self, item: &ItemOf<N>)
        ensures { self.new ≡ kept_opened item.now self.old }
    {
        match item.carried {
            CarriedOf::Enquiry(session)
            | CarriedOf::Ending(session)
            | CarriedOf::Frame(session, _) => self.near.opened = session,
            CarriedOf::Reply(_) => {}
        }
    }

    /// The receiver's reply goes on the line, if it isn't too late for it.
    fn answer(&mut self, reply: Option<u8>) -> Result<(), AllocError>
        ensures { OnOk result (self.new ≡ kept_answered self.old.far.to_drop reply self.old) }
    {
        match reply {
            Some(byte) if self.far.to_drop == 0 => self.put(CarriedOf::Reply(byte)),
            _ => Ok(()),
        }
    }

    /// The sender has made a step: it is booked to its session, and what it emits goes on the line.
    #[tactic(auto, unfolding(lis_world::specs::Session::sends))]
    fn emit(&mut self, emit: EmitOf<N>) -> Result<(), AllocError>
        ensures near { OnOk result (self.new.near.station ≡ self.old.near.station) }
        ensures far { OnOk result (self.new.far ≡ self.old.far) }
        ensures line { (r q : ReceiverState) → OnOk result (line_at self.new r q ≡ emitted_out emit.entry
            (record (line_at self.old r q) {
              near = followed_by (station_at self.old.near.station r)
                  (end_at self.old.near r);
            })) }
    {
        self.near.follow();
        match emit {
            EmitOf::Nothing | EmitOf::Nak => Ok(()),
            EmitOf::Enq => self.put(CarriedOf::Enquiry(self.near.current)),
            EmitOf::Eot => self.put(CarriedOf::Ending(self.near.current)),
            EmitOf::Frame(frame) => {
                self.near.send(&frame)?;
                self.put(CarriedOf::Frame(self.near.current, frame))
            }
        }
    }

    /// This goes on the line, after what is there.
    fn put(&mut self, carried: CarriedOf<N>) -> Result<(), AllocError>
        ensures { OnOk result (self.new ≡ kept_out (item_of carried.entry) self.old) }
    {
        self.outward.push_back(ItemOf { carried })?;
        Ok(())
    }

    /// What was at the front has left the line.
    fn leave(&mut self, item: &ItemOf<N>)
        ensures { self.new ≡ kept_left item.now self.old }
    {
        if item.is_unit() && self.far.to_drop > 0 {
            self.far.to_drop -= 1;
        }
    }
}
