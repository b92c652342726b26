//! Laws of a station, and of two on one line, each the contract of a function that does nothing.

ghost use Rattle.lis_frame.specs.Limit.{IsLimit};
ghost use Rattle.lis_station.specs.Laws.{StaysExclusive};
ghost use Rattle.lis_station.specs.LeftOut.{UnsafeWithout, starts_on_free_line, asks_again_on_free_line};
ghost use Rattle.lis_station.specs.LeftOut.{ending_is_no_acknowledgement, no_reply_after_timer, no_reply_after_wait};
ghost use Rattle.lis_station.specs.LeftOut.{no_reply_after_restart};
ghost use Rattle.lis_station.specs.Line.{SafeBothWays};

/// A station never awaits a reply while its receiver is open: so each byte is for one of the two, and one timer serves
/// both.
pub fn stays_exclusive()
    ensures { StaysExclusive }
{}

/// Two stations on one line, which keeps the order in each direction and delivers no reply after its sender's timer,
/// also that of a wait, or after the sender was restarted or gave its session up: in each direction each session is
/// safe, over every list of starts, deliveries, losses, noticed damage, timers, restarts and requests for a turn of
/// both. The bytes of a unit come as one event. What was accepted was sent, what was acknowledged was accepted, and
/// what was delivered are the session's texts, whole and in order; all of them, if the session is done. At every limit
/// on a frame's text.
pub fn safe_both_ways_of<const N: usize>()
    requires { IsLimit N }
    ensures { SafeBothWays N }
{}

/// The same with the usual limit on a frame's text.
pub fn safe_both_ways()
    ensures { SafeBothWays 240 }
{}

/// Each rule of that law is needed: without it some session is not safe after some list of events. `starts`: a session
/// starts only while the other side doesn't have the line. `again`: a sender that waits asks for the line again only
/// then. `ending`: EOT acknowledges no frame. `timer`, `wait`, `restart`: no reply comes after the timer of an ENQ or a
/// frame, after the wait that follows NAK or ENQ in reply to ENQ, or after a restart.
pub fn unsafe_without()
    ensures starts { UnsafeWithout starts_on_free_line 240 }
    ensures again { UnsafeWithout asks_again_on_free_line 240 }
    ensures ending { UnsafeWithout ending_is_no_acknowledgement 240 }
    ensures timer { UnsafeWithout no_reply_after_timer 240 }
    ensures wait { UnsafeWithout no_reply_after_wait 240 }
    ensures restart { UnsafeWithout no_reply_after_restart 240 }
{}
