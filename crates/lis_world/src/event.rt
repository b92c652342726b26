//! What can happen on the link.

use lis_text::{LinkText, List, Texts};

/// One event. Where it isn't allowed, it does nothing.
#[derive(Drop)]
pub enum Event {
    /// The sender starts a session with these texts; not allowed where the start is rejected.
    Start(Texts),
    /// The front unit reaches the receiver.
    Deliver,
    /// The front unit reaches the receiver while it has no room.
    DeliverNoRoom,
    /// These bytes come in the front unit's place; allowed where the receiver notices.
    Damage(LinkText),
    /// The front unit is lost.
    Lose,
    /// The front reply reaches the sender.
    Reply,
    /// This byte, which is neither ACK nor EOT, comes in the front reply's place.
    DamageReply(u8),
    /// The front reply is lost.
    LoseReply,
    /// The sender's timer runs out: no reply to a unit on its way comes any more.
    SenderTimer,
    /// The receiver's timer runs out.
    ReceiverTimer,
    /// The sender is restarted.
    RestartSender,
    /// The receiver is restarted.
    RestartReceiver,
    /// The receiver answers ENQ with ACK from now on.
    Ready,
    /// The receiver answers ENQ with NAK from now on.
    Busy,
    /// The receiver answers the next ENQ with ENQ.
    Contending,
}

/// Events, in their order.
pub type Events = List<Event>;

/// One event on a line that answers late: there a reply that comes after the sender's timer or restart is delivered
/// like any other.
#[derive(Drop)]
pub enum LateEvent {
    /// An event of the link. A start is possible only on an empty link; the sender's timer and its restart leave on the
    /// link what is there.
    Happens(Event),
    /// The line is connected anew: nothing is on it any more, and the receiver is restarted.
    Reconnect,
}

/// Events on a line that answers late, in their order.
pub type LateEvents = List<LateEvent>;
