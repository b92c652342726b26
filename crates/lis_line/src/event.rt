//! What can happen on the line.

use lis_text::{LinkText, List, Texts};

/// One event at a station. Where it isn't allowed, it does nothing.
#[derive(Drop)]
pub enum StationEvent {
    /// It asks for the line, to send these texts; not allowed where the start is rejected.
    Start(Texts),
    /// What is at the front of its line reaches it.
    Arrive,
    /// These bytes come in the place of what is at the front; allowed where that is noticed.
    Damage(LinkText),
    /// What is at the front is lost.
    Lose,
    /// Its timer runs out: no reply to what it sent comes any more.
    Timer,
    /// Its session is given up.
    GiveUp,
    /// Its receiver is restarted.
    CloseLine,
    /// Both its ends are restarted.
    Restart,
    /// It is ready for the other side's sessions from now on, or busy.
    SetReady(bool),
    /// It asks for its turn.
    AskTurn,
}

/// One event on the line.
#[derive(Drop)]
pub enum LineEvent {
    /// It happens at the analyzer.
    AtAnalyzer(StationEvent),
    /// It happens at the computer.
    AtComputer(StationEvent),
}

/// Events on the line, in their order.
pub type LineEvents = List<LineEvent>;
