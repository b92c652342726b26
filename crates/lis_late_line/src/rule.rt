//! When a station needs a new line.

ghost use Rattle.std.specs.Prelude.{◌≡◌};
ghost use Rattle.lis_late_line.specs.Discipline.{needs_new_line};

use lis_link::{Outcome, SessionTexts};
use lis_station::StationOver;

/// Whether the line has to be connected anew before this station's next ENQ, that of a start or the one after NAK or
/// ENQ: a reply to what it sent before may still come, and the line isn't new. It is new if it was connected anew since
/// the station's last ENQ. A station that never had a session needs a new line too.
pub fn needs_new_line<const N: usize, T: SessionTexts>(
    station: &StationOver<N, T>,
    is_new: bool,
) -> bool
    ensures { result ≡ needs_new_line station.now.sender.outcome is_new }
{
    match station.sender().outcome() {
        None | Some(Outcome::TimedOut | Outcome::Restarted) => !is_new,
        Some(Outcome::Done | Outcome::SixTries) => false,
    }
}
