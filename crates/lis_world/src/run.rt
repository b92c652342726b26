//! Events, one by one, on a link between a real sender and a real receiver.

ghost use Rattle.std.specs.Prelude.{◌≡◌, ◌∷◌, ◌++◌, [], None, length, OnOk, OnErr, IfOk};
ghost use Rattle.lis_frame.specs.Limit.{IsLimit};
ghost use Rattle.lis_frame.specs.Stream.{signals_after};
ghost use Rattle.lis_link.specs.Receiver.{ReceiverState};
ghost use Rattle.lis_link.specs.Sender.{start_fault, on_sender_timer, sender_restarted};
ghost use Rattle.lis_link.specs.Representation.{IsIn};
ghost use Rattle.lis_world.specs.inside.Loads.{load_of};
ghost use Rattle.lis_world.specs.inside.Playing.{IsWorld, world_at, front_noticed, kept_given_up, kept_forgotten};
ghost use Rattle.lis_world.specs.inside.Playing.{kept_following, kept_sending, kept_with};
ghost use Rattle.lis_world.specs.Session.{new_session};
ghost use Rattle.lis_world.specs.Unit.{enquiry};
ghost use Rattle.lis_world.specs.World.{new_world, replies_with, lowered};
ghost use Rattle.lis_world.specs.Steps.{emitted, with_sender, sender_steps, begins, is_noticed, delivered};
ghost use Rattle.lis_world.specs.Steps.{damaged, replied, reply_damaged, after_event};
ghost use Rattle.lis_world.specs.declared.event.Event.TheVariants.{DeliverNoRoom, LoseReply, SenderTimer};
ghost use Rattle.lis_world.specs.declared.event.Event.TheVariants.{RestartSender};

use crate::computer_state::ComputerStateOf;
use crate::event::Event;
use crate::session::SessionOf;
use crate::unit::{LoadOf, TravellingOf};
use lis_frame::FrameOf;
use lis_link::{EmitOf, Phase, Readiness, SenderOf};
use lis_text::{ACK, EOT, LinkText, List, Texts};
use std::alloc::{AllocError, Global};
use std::collections::VecDeque;
use std::marker::Model;

/// The sender, the computer's side, the units and the reply bytes on their way, how many units at
/// the front will be answered too late, and the session that the sender is in, or was in last.
#[derive(Drop)]
pub(crate) struct RunOf<const N: usize> {
    alloc: Global,
    pub(crate) sender: SenderOf<N>,
    pub(crate) computer_state: ComputerStateOf<N>,
    pub(crate) units: VecDeque<TravellingOf<N>>,
    pub(crate) replies: VecDeque<u8>,
    to_drop: usize,
    current: usize,
}

impl<const N: usize> Model for RunOf<N> {
    ghost use Rattle.lis_frame.specs.Limit.{IsLimit};
    ghost use Rattle.lis_world.specs.inside.Playing.{KeptWorld};

    ghost Value = { KeptWorld };

    ghost view = { λ w. record {
      sender = w.sender;
      computer_state = w.computer_state;
      units = w.units.items;
      replies = w.replies.items;
      to_drop = w.to_drop;
      current = w.current;
    } };

    ghost invariant = { λ w. IsLimit N };
}

impl<const N: usize> RunOf<N> {
    /// A sender that was never started, a new receiver, and an empty link.
    pub(crate) fn new(alloc: Global) -> Result<Self, AllocError>
        requires { IsLimit N }
        ensures { IfOk result (λ run. IsWorld N run new_world) }
    {
        let computer_state = ComputerStateOf::new(alloc)?;
        Ok(RunOf {
            alloc,
            sender: SenderOf::new(),
            computer_state,
            units: VecDeque::new(alloc),
            replies: VecDeque::new(alloc),
            to_drop: 0,
            current: 0,
        })
    }

    /// One event.
    pub(crate) fn happen(&mut self, event: Event) -> Result<(), AllocError>
        ensures { (r : ReceiverState) → IsIn N self.old.computer_state.receiver r →
            OnOk result (IsWorld N self.new (after_event N event (world_at self.old r))) }
    {
        match event {
            Event::Start(texts) => return self.start(texts),
            Event::Deliver => return self.deliver(),
            Event::DeliverNoRoom => return self.deliver_no_room(),
            Event::Damage(bytes) => return self.damage(bytes.as_slice()),
            Event::Lose => return self.lose(),
            Event::Reply => return self.reply(),
            Event::DamageReply(byte) => return self.damage_reply(byte),
            Event::LoseReply => self.lose_reply(),
            Event::SenderTimer => return self.sender_timer(),
            Event::ReceiverTimer => self.computer_state.timer(),
            Event::RestartSender => self.restart_sender(),
            Event::RestartReceiver => self.computer_state.restart(),
            Event::Ready => self.computer_state.set_ready(Readiness::Ready),
            Event::Busy => self.computer_state.set_ready(Readiness::Busy),
            Event::Contending => self.computer_state.set_ready(Readiness::Contending),
        }
        Ok(())
    }

    /// The sessions.
    pub(crate) fn into_sessions(self) -> Vec<SessionOf<N>>
        ensures { result.items ≡ self.entry.computer_state.sessions }
    {
        let RunOf { computer_state, .. } = self;
        computer_state.into_sessions()
    }

    /// The sender is started, if the start isn't rejected. One that is rejected takes no memory, so it can't end the
    /// play.
    pub(crate) fn start(&mut self, texts: Texts) -> Result<(), AllocError>
        ensures world { (r : ReceiverState) → IsIn N self.old.computer_state.receiver r →
            OnOk result (IsWorld N self.new (begins N (start_fault self.old.sender texts) texts
            (world_at self.old r))) }
        ensures refused { OnErr result (start_fault self.old.sender texts ≡ None) }
    {
        if self.sender.start_fault(&texts).is_some() {
            return Ok(());
        }
        let kept = copy_of(self.alloc, &texts)?;
        if self.sender.start(texts).is_err() {
            return Ok(());
        }
        self.begin(kept)
    }

    /// A session of these texts begins.
    fn begin(&mut self, texts: List<LinkText>) -> Result<(), AllocError>
        ensures { OnOk result (self.new ≡ record self.old {
          current = length self.old.computer_state.sessions;
          computer_state = record self.old.computer_state {
            sessions = self.old.computer_state.sessions ++ new_session
                texts ∷ [];
          };
          units = self.old.units ++ record { session = length self.old.computer_state.sessions; load = enquiry } ∷ [];
        }) }
    {
        self.current = self.computer_state.sessions();
        self.computer_state
            .begin(SessionOf::new(self.alloc, texts))?;
        self.place(LoadOf::Enquiry)
    }

    /// The front unit reaches the receiver.
    fn deliver(&mut self) -> Result<(), AllocError>
        ensures { (r : ReceiverState) → IsIn N self.old.computer_state.receiver r →
            OnOk result (IsWorld N self.new (delivered N self.old.units (world_at self.old r))) }
    {
        let Some(unit) = self.units.pop_front() else {
            return Ok(());
        };
        self.computer_state.deliver(&unit)?;
        self.settle()
    }

    /// The same while the receiver has no room.
    fn deliver_no_room(&mut self) -> Result<(), AllocError>
        ensures { (r : ReceiverState) → IsIn N self.old.computer_state.receiver r →
            OnOk result (IsWorld N self.new (after_event N DeliverNoRoom (world_at self.old r))) }
    {
        self.computer_state.set_room(false);
        self.deliver()?;
        self.computer_state.set_room(true);
        Ok(())
    }

    /// These bytes come in the front unit's place, if that is noticed.
    fn damage(&mut self, bytes: &[u8]) -> Result<(), AllocError>
        ensures { (r : ReceiverState) → IsIn N self.old.computer_state.receiver r →
            OnOk result (IsWorld N self.new (damaged N bytes.now self.old.units (world_at self.old r))) }
    {
        if !self.notices(bytes) {
            return Ok(());
        }
        let Some(unit) = self.units.pop_front() else {
            return Ok(());
        };
        self.computer_state.damage(&unit, bytes)?;
        self.settle()
    }

    /// Whether there is a unit, and the receiver notices these bytes in its place.
    fn notices(&self, bytes: &[u8]) -> bool
        ensures { (r : ReceiverState) → IsIn N self.now.computer_state.receiver r →
            result ≡ front_noticed self.now.units (λ load. is_noticed load (signals_after N r.past bytes.now)) }
    {
        match self.units.front() {
            None => false,
            Some(unit) => self.computer_state.notices(unit, bytes),
        }
    }

    /// The front unit is lost.
    fn lose(&mut self) -> Result<(), AllocError>
        ensures { (r : ReceiverState) → IsIn N self.old.computer_state.receiver r →
            OnOk result (IsWorld N self.new (damaged N [] self.old.units (world_at self.old r))) }
    {
        let Some(_) = self.units.pop_front() else {
            return Ok(());
        };
        self.computer_state.keep_silent();
        self.settle()
    }

    /// The front reply reaches the sender.
    fn reply(&mut self) -> Result<(), AllocError>
        ensures { (r : ReceiverState) → IsIn N self.old.computer_state.receiver r →
            OnOk result (IsWorld N self.new (replied N self.old.replies (world_at self.old r))) }
    {
        let Some(byte) = self.replies.pop_front() else {
            return Ok(());
        };
        let emit = self.sender.reply(byte);
        self.step(emit)
    }

    /// This byte comes in the front reply's place, if it is neither ACK nor EOT.
    fn damage_reply(&mut self, byte: u8) -> Result<(), AllocError>
        ensures { (r : ReceiverState) → IsIn N self.old.computer_state.receiver r →
            OnOk result (IsWorld N self.new (reply_damaged N byte self.old.replies (world_at self.old r))) }
    {
        if byte == ACK || byte == EOT {
            return Ok(());
        }
        let Some(_) = self.replies.pop_front() else {
            return Ok(());
        };
        let emit = self.sender.reply(byte);
        self.step(emit)
    }

    /// The front reply is lost.
    fn lose_reply(&mut self)
        ensures { (r : ReceiverState) → IsIn N self.old.computer_state.receiver r →
            IsWorld N self.new (after_event N LoseReply (world_at self.old r)) }
    {
        self.replies.pop_front();
    }

    /// The sender's timer runs out.
    fn sender_timer(&mut self) -> Result<(), AllocError>
        ensures { (r : ReceiverState) → IsIn N self.old.computer_state.receiver r →
            OnOk result (IsWorld N self.new (after_event N SenderTimer (world_at self.old r))) }
    {
        self.give_up();
        self.time_out()
    }

    /// The sender's timer runs out, and what is on its way stays there.
    pub(crate) fn time_out(&mut self) -> Result<(), AllocError>
        ensures { (r : ReceiverState) → IsIn N self.old.computer_state.receiver r →
            OnOk result (IsWorld N self.new (sender_steps {limit = N} (on_sender_timer self.old.sender)
            (world_at self.old r))) }
    {
        let emit = self.sender.timer();
        self.step(emit)
    }

    /// A sender that awaits a reply does so no more.
    fn give_up(&mut self)
        ensures { self.new ≡ kept_given_up self.old.sender.phase self.old }
    {
        match self.sender.phase() {
            Phase::AwaitLine | Phase::AwaitReply => self.forget(),
            Phase::Neutral | Phase::Busy | Phase::Contention => {}
        }
    }

    /// The sender is restarted.
    fn restart_sender(&mut self)
        ensures { (r : ReceiverState) → IsIn N self.old.computer_state.receiver r →
            IsWorld N self.new (after_event N RestartSender (world_at self.old r)) }
    {
        self.forget();
        self.end_session();
    }

    /// The sender is restarted, and what is on its way stays there.
    pub(crate) fn end_session(&mut self)
        ensures { (r : ReceiverState) → IsIn N self.old.computer_state.receiver r →
            IsWorld N self.new (with_sender (sender_restarted self.old.sender) (world_at self.old r)) }
    {
        self.sender.restart();
        self.follow();
    }

    /// No reply to a unit that is on its way reaches the sender in time.
    fn forget(&mut self)
        ensures { self.new ≡ kept_forgotten self.old }
    {
        self.replies.clear();
        self.to_drop = self.units.len();
    }

    /// The front unit has left the link, and the computer's side has heard it.
    fn settle(&mut self) -> Result<(), AllocError>
        ensures { OnOk result (self.new ≡ record self.old {
          replies = replies_with self.old.to_drop self.old.computer_state.replies self.old.replies;
          to_drop = lowered self.old.to_drop;
          computer_state = record self.old.computer_state { replies = [] };
        }) }
    {
        if self.to_drop > 0 {
            self.to_drop -= 1;
            self.computer_state.keep_silent();
            return Ok(());
        }
        self.computer_state.answer(&mut self.replies)
    }

    /// The sender has made a step: it is booked to its session, and what it emits goes on the link.
    #[tactic(auto, unfolding(crate::specs::Session::sends))]
    fn step(&mut self, emit: EmitOf<N>) -> Result<(), AllocError>
        requires { IsLimit N }
        ensures { (r : ReceiverState) → IsIn N self.old.computer_state.receiver r →
            OnOk result (IsWorld N self.new (emitted emit.entry (with_sender self.old.sender (world_at self.old r)))) }
    {
        self.follow();
        match emit {
            EmitOf::Nothing | EmitOf::Nak => Ok(()),
            EmitOf::Enq => self.place(LoadOf::Enquiry),
            EmitOf::Eot => self.place(LoadOf::Ending),
            EmitOf::Frame(frame) => self.send(frame),
        }
    }

    /// The sender's count and outcome are booked to its session.
    fn follow(&mut self)
        ensures { self.new ≡ kept_following self.old }
    {
        self.computer_state.follow(
            self.current,
            self.sender.acknowledged(),
            self.sender.outcome(),
        );
    }

    /// A frame goes on the link.
    fn send(&mut self, frame: FrameOf<N>) -> Result<(), AllocError>
        ensures { OnOk result (self.new ≡ kept_sending frame.entry self.old) }
    {
        self.computer_state.send(self.current, &frame)?;
        self.units.push_back(TravellingOf {
            session: self.current,
            load: LoadOf::Frame(frame),
        })?;
        Ok(())
    }

    /// A unit of the present session goes on the link, after what is there.
    fn place(&mut self, load: LoadOf<N>) -> Result<(), AllocError>
        ensures { OnOk result (self.new ≡ kept_with (load_of load.entry) self.old) }
    {
        self.units.push_back(TravellingOf {
            session: self.current,
            load,
        })?;
        Ok(())
    }
}

/// The same texts once more.
fn copy_of(alloc: Global, texts: &Texts) -> Result<List<LinkText>, AllocError>
    ensures { IfOk result (λ copies. copies ≡ texts.now) }
{
    let mut copies = List::new(alloc);
    for text in texts.as_slice() {
        let mut copy = List::new(alloc);
        copy.extend(text.as_slice())?;
        copies.push(copy)?;
    }
    Ok(copies)
}
