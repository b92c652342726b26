//! What a receiver says about its state.

ghost use Rattle.std.specs.Prelude.{◌≡◌, ◌≤◌, length};
ghost use Rattle.lis_text.specs.LinkText.{longest_text};
ghost use Rattle.lis_link.specs.Receiver.{ReceiverState, held_length};
ghost use Rattle.lis_link.specs.Representation.{IsIn};

use crate::receiver::ReceiverOf;

impl<const N: usize> ReceiverOf<N> {
    /// Whether the line is open.
    pub fn is_open(&self) -> bool
        ensures { (r : ReceiverState) → IsIn N self.now r → result ≡ r.is_open }
    {
        self.line.is_open()
    }

    /// How many frames were accepted since the line was last opened.
    pub fn accepted(&self) -> u64
        ensures { (r : ReceiverState) → IsIn N self.now r → result ≡ length r.accepted }
    {
        self.line.accepted()
    }

    /// How many bytes are held for the text that isn't complete; none while the line isn't open.
    pub fn held(&self) -> u64
        ensures value { (r : ReceiverState) → IsIn N self.now r → result ≡ held_length r }
        ensures bound { result ≤ longest_text }
    {
        self.line.held()
    }
}
