//! Events on a line that answers late, one by one, on a link between a real sender and a real receiver.

ghost use Rattle.std.specs.Prelude.{◌≡◌, OnOk};
ghost use Rattle.lis_link.specs.Receiver.{ReceiverState};
ghost use Rattle.lis_link.specs.Representation.{IsIn};
ghost use Rattle.lis_world.specs.Late.{after_late_event, happens_late, is_empty, reconnected};
ghost use Rattle.lis_world.specs.declared.event.Event.TheVariants.{Start};
ghost use Rattle.lis_world.specs.inside.Playing.{IsWorld, world_at};

use crate::event::{Event, LateEvent};
use crate::run::RunOf;
use lis_text::Texts;
use std::alloc::AllocError;

impl<const N: usize> RunOf<N> {
    /// One event. A session starts only on an empty link.
    pub(crate) fn happen_late(&mut self, event: LateEvent) -> Result<(), AllocError>
        ensures { (r : ReceiverState) → IsIn N self.old.computer_state.receiver r →
            OnOk result (IsWorld N self.new (after_late_event is_empty N event (world_at self.old r))) }
    {
        match event {
            LateEvent::Happens(event) => self.happen_answered_late(event),
            LateEvent::Reconnect => {
                self.reconnect();
                Ok(())
            }
        }
    }

    /// An event of the link.
    fn happen_answered_late(&mut self, event: Event) -> Result<(), AllocError>
        ensures { (r : ReceiverState) → IsIn N self.old.computer_state.receiver r →
            OnOk result (IsWorld N self.new (happens_late is_empty N event (world_at self.old r))) }
    {
        match event {
            Event::Start(texts) => self.start_on_empty(texts),
            Event::SenderTimer => self.time_out(),
            Event::RestartSender => {
                self.end_session();
                Ok(())
            }
            other => self.happen(other),
        }
    }

    /// The sender is started, if the link is empty.
    fn start_on_empty(&mut self, texts: Texts) -> Result<(), AllocError>
        ensures { (r : ReceiverState) → IsIn N self.old.computer_state.receiver r →
            OnOk result (IsWorld N self.new (happens_late is_empty N (Start texts) (world_at self.old r))) }
    {
        if !self.is_empty() {
            return Ok(());
        }
        self.start(texts)
    }

    /// Whether no unit and no reply is on the link.
    fn is_empty(&self) -> bool
        ensures { (r : ReceiverState) → result ≡ is_empty (world_at self.now r) }
    {
        self.units.is_empty() && self.replies.is_empty()
    }

    /// The line is connected anew.
    fn reconnect(&mut self)
        ensures { (r : ReceiverState) → IsIn N self.old.computer_state.receiver r →
            IsWorld N self.new (reconnected (world_at self.old r)) }
    {
        self.units.clear();
        self.replies.clear();
        self.computer_state.restart();
    }
}
