//! What became of a session.

ghost use Rattle.std.specs.Prelude.{◌≡◌, ◌∷◌, ◌++◌, [], OnOk, Some, None};
ghost use Rattle.lis_world.specs.Session.{new_session, sends, with_more};

use lis_frame::{FrameOf, FramesOf};
use lis_link::Outcome;
use lis_text::{LinkText, List};
use std::alloc::{AllocError, Global};
use std::marker::Model;

/// A session: what the sender had to send in it, and what came of that.
#[derive(Drop)]
pub struct SessionOf<const N: usize> {
    texts: List<LinkText>,
    sent: FramesOf<N>,
    accepted: FramesOf<N>,
    acknowledged: u64,
    handed: List<LinkText>,
    outcome: Option<Outcome>,
}

impl<const N: usize> Model for SessionOf<N> {
    ghost use Rattle.lis_world.specs.Session.{Session};

    ghost Value = { Session };

    ghost view = { λ s. record {
      texts = s.texts;
      sent = s.sent;
      accepted = s.accepted;
      acknowledged = s.acknowledged;
      handed = s.handed;
      outcome = s.outcome;
    } };
}

/// A session with the usual limit on a frame's text.
pub type Session = SessionOf<240>;

impl<const N: usize> SessionOf<N> {
    /// The texts that the session was started with.
    pub fn texts(&self) -> &[LinkText]
        ensures { result.now ≡ self.now.texts }
    {
        self.texts.as_slice()
    }

    /// The frames that were put on the link, each once, in order.
    pub fn sent(&self) -> &FramesOf<N>
        ensures { result.now ≡ self.now.sent }
    {
        &self.sent
    }

    /// The frames that the receiver accepted.
    pub fn accepted(&self) -> &FramesOf<N>
        ensures { result.now ≡ self.now.accepted }
    {
        &self.accepted
    }

    /// How many frames were acknowledged.
    pub fn acknowledged(&self) -> u64
        ensures { result ≡ self.now.acknowledged }
    {
        self.acknowledged
    }

    /// The texts that the receiver delivered.
    pub fn handed(&self) -> &[LinkText]
        ensures { result.now ≡ self.now.handed }
    {
        self.handed.as_slice()
    }

    /// How the session ended; none while it goes on.
    pub fn outcome(&self) -> Option<Outcome>
        ensures { result ≡ self.now.outcome }
    {
        self.outcome
    }

    /// A session that begins. Who plays a line books in it what happens.
    pub fn new(alloc: Global, texts: List<LinkText>) -> Self
        ensures { result ≡ new_session texts }
    {
        SessionOf {
            texts,
            sent: List::new(alloc),
            accepted: List::new(alloc),
            acknowledged: 0,
            handed: List::new(alloc),
            outcome: None,
        }
    }

    /// Books a frame that was put on the link; one that is sent again is there already. If memory runs out it isn't
    /// booked.
    #[tactic(auto, unfolding(crate::specs::Session::sends))]
    pub fn send(&mut self, frame: &FrameOf<N>) -> Result<(), AllocError>
        ensures { OnOk result (self.new ≡ sends frame.now self.old) }
    {
        if self.acknowledged < self.sent.len() as u64 {
            return Ok(());
        }
        self.sent.push(frame.copy())?;
        Ok(())
    }

    /// Books a frame that was accepted, and the text that it completed, if it did. Memory may run out.
    pub fn take(&mut self, frame: FrameOf<N>, message: Option<LinkText>) -> Result<(), AllocError>
        ensures { OnOk result (self.new ≡ record self.old {
          accepted = self.old.accepted ++ frame.entry ∷ [];
          handed = with_more self.old.handed message;
        }) }
    {
        self.accepted.push(frame)?;
        if let Some(text) = message {
            self.handed.push(text)?;
        }
        Ok(())
    }

    /// Books the sender's count of acknowledged frames, and how the session ended.
    pub fn follow(&mut self, acknowledged: u64, outcome: Option<Outcome>)
        ensures { self.new ≡ record self.old { acknowledged = acknowledged; outcome = outcome } }
    {
        (self.acknowledged, self.outcome) = (acknowledged, outcome);
    }
}
