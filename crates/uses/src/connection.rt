//! What the loops ask of a serial line or a socket.

ghost use Rattle.std.specs.Prelude.{List, [], ◌∷◌, Option};
ghost use Rattle.uses.specs.Connection.{LogEvent, GoesOn, keeping, reconnected, sent, timed, waited};

use lis_text::LinkText;

/// What happens on a line.
#[derive(Debug, Clone, Copy, PartialEq, Eq)]
pub enum Event {
    /// A byte came.
    Byte(u8),
    /// The timer ran out.
    Timer,
    /// The line was closed.
    Closed,
}

/// A serial line or a socket, with one timer next to it.
pub trait Connection {
    // What happened on it and was done with it, oldest first, as long as that is known.
    ghost event_log: { Self → Option (List LogEvent) };

    /// Sends bytes.
    fn send(&mut self, bytes: &[u8])
        ensures { GoesOn (event_log self.old) (event_log self.new) (sent bytes.now ∷ []) };

    /// Starts the timer anew, to run out after so many seconds.
    fn start_timer(&mut self, seconds: u32)
        ensures { GoesOn (event_log self.old) (event_log self.new) (timed seconds ∷ []) };

    /// Makes the line new: nothing that was sent on it is on its way any more, and no reply to it. Over TCP it connects
    /// anew. On a serial line it waits longer than the computer takes to answer, and drops what came. If this fails,
    /// the next wait finds the line closed.
    fn reconnect(&mut self)
        ensures { GoesOn (event_log self.old) (event_log self.new) (reconnected ∷ []) };

    /// Waits for what happens next.
    fn wait(&mut self) -> Event
        ensures { GoesOn (event_log self.old) (event_log self.new) (waited result ∷ []) };
}

/// A computer's line, and the place where it keeps the texts that it receives.
pub trait Host: Connection {
    /// Keeps a text for good, as in a file that is flushed to the disk, and returns whether it did. Returns false also
    /// if it took so long that the analyzer's timer of 15 seconds may have run out: a reply would come too late.
    fn keep(&mut self, text: &LinkText) -> bool
        ensures { GoesOn (Self.event_log self.old) (Self.event_log self.new) (keeping text.now result ∷ []) };
}
