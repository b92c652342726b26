//! Laws of the commands and of the whole way of a message, each the contract of a function that does nothing.

ghost use Rattle.lis_frame.specs.Limit.{IsLimit};
ghost use Rattle.lis_tool.specs.Laws.{CarriesMessages, CarriesMessagesLate, ReadsCarried, ReadsCarriedLate};
ghost use Rattle.lis_tool.specs.Laws.{UpgradedSaysTheSame};

use lis_message::laws::{one_split, read_back};
use lis_world::laws::{safe_of, safe_on_quiet_starts_of};

/// What `upgrade` writes of a capture of which no line is rejected is read in version 2, and says the same: upgraded
/// again it is the same bytes, and it has the same texts and the same replay, with the numbers of lines one higher
/// where `capture 2` came in front.
pub fn upgraded()
    ensures { UpgradedSaysTheSame }
{}

/// Over every list of events on the link: where a session is done that was started with the texts of messages, as
/// `message_texts` gives them, what it delivered is the messages' bytes, and these are split into them with nothing
/// left. So `read_messages` reads the same messages of it, unless memory runs out. It is the same on a line that
/// answers late, if that is connected anew after a session that timed out or was restarted, before the next one starts.
/// At every limit on a frame's text.
pub fn carried_of<const N: usize>()
    requires { IsLimit N }
    ensures bytes { CarriesMessages N }
    ensures read { ReadsCarried N }
    ensures late_bytes { CarriesMessagesLate N }
    ensures late_read { ReadsCarriedLate N }
{
    // It follows from these laws alone.
    safe_of::<N>();
    safe_on_quiet_starts_of::<N>();
    read_back();
    one_split();
}

/// The same with the usual limit on a frame's text.
pub fn carried()
    ensures bytes { CarriesMessages 240 }
    ensures read { ReadsCarried 240 }
    ensures late_bytes { CarriesMessagesLate 240 }
    ensures late_read { ReadsCarriedLate 240 }
{
    carried_of::<240>();
}
