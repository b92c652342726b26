//! What a sender says about its state.

ghost use Rattle.std.specs.Prelude.{◌≡◌};

use crate::sender::{Outcome, Phase, SenderOver};
use crate::session_texts::SessionTexts;

impl<const N: usize, T: SessionTexts> SenderOver<N, T> {
    /// Where the sender is.
    pub fn phase(&self) -> Phase
        ensures { result ≡ self.now.phase }
    {
        self.phase
    }

    /// How many frames of the session, or of the last one, are acknowledged.
    pub fn acknowledged(&self) -> u64
        ensures { result ≡ self.now.acknowledged }
    {
        self.acknowledged
    }

    /// How the last session ended; none before its end.
    pub fn outcome(&self) -> Option<Outcome>
        ensures { result ≡ self.now.outcome }
    {
        self.outcome
    }
}
