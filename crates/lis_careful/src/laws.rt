//! The laws of careful hearing, each the contract of a function that does nothing.

ghost use Rattle.lis_frame.specs.Limit.{IsLimit};
ghost use Rattle.lis_careful.specs.Carried.{CarriesAfterOneMore, CarriesThroughCarefully};
ghost use Rattle.lis_careful.specs.Cost.{CostsOneEnquiry, NakStaysNak};
ghost use Rattle.lis_careful.specs.Follows.{FollowsOneByte};
ghost use Rattle.lis_careful.specs.Laws.{AlwaysSafeCarefully, AreHistories};
ghost use Rattle.lis_careful.specs.OneByte.{OneByteIsNoticed, OneByteMayMatter};

/// Whatever happens on a link whose receiver hears carefully could have happened on a link whose receiver is the
/// profile's: where ENQ or EOT ends a session in silence, the unit was lost and the receiver restarted; where a frame
/// begins inside an unfinished one, it came damaged. So each session is safe, over every list of events. At every limit
/// on a frame's text.
pub fn safe_carefully_of<const N: usize>()
    requires { IsLimit N }
    ensures history { AreHistories N }
    ensures safe { AlwaysSafeCarefully N }
{}

/// A frame comes on an open line, between frames, with one byte changed, whichever and to whatever byte. Of that a
/// careful receiver hears nothing, the end of the session, one bad frame, or that very frame, with a digit of its
/// checksum in the other case: so it acknowledges nothing, or that frame. At every limit on a frame's text.
pub fn one_byte_is_noticed_of<const N: usize>()
    requires { IsLimit N }
    ensures { OneByteIsNoticed N }
{}

/// What follows, where the frame is due. It was taken, and is acknowledged; or it was rejected, and is taken when it is
/// sent again as it is; or nothing is replied, and the sender's timer ends its session as timed out, never as done. At
/// every limit on a frame's text.
pub fn follows_one_byte_of<const N: usize>()
    ensures { FollowsOneByte N }
{}

/// Each of its two rules is needed. As the profile has it, a receiver acknowledges a frame that it doesn't take, where
/// one byte became ENQ, and takes another one, where one became STX and the rest fits the sum. With either rule alone
/// it still does one of the two.
pub fn one_byte_may_matter()
    ensures { OneByteMayMatter }
{}

/// What it costs: who begins a session on an open line, as an analyzer does that gives one up without EOT, gets no
/// reply to his ENQ. The next ENQ is answered ACK, and a session begins as on a line that isn't open. At every limit.
pub fn costs_one_enquiry_of<const N: usize>()
    requires { IsLimit N }
    ensures { CostsOneEnquiry N }
{}

/// On a link whose receiver hears carefully, after whatever events, a session with enough undisturbed rounds is carried
/// through, if the line isn't open (`at_once`). If it is, as after a session that was given up without EOT, that costs
/// one more ENQ (`one_more`): the first gets no reply, so that the sender's timer ends its session as timed out, and
/// the same session, started once more, is carried through. At every limit on a frame's text.
pub fn carries_through_carefully_of<const N: usize>()
    requires { IsLimit N }
    ensures at_once { CarriesThroughCarefully N }
    ensures one_more { CarriesAfterOneMore N }
{}

/// The same for what a sender hears: one changed bit makes neither ACK nor EOT out of NAK, and no other reply
/// acknowledges a frame.
pub fn nak_stays_nak()
    ensures { NakStaysNak }
{}
