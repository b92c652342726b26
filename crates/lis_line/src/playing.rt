//! Playing events on a line between two stations.

ghost use Rattle.std.specs.Prelude.{◌≡◌, IfOk, All};
ghost use Rattle.lis_frame.specs.Limit.{IsLimit};
ghost use Rattle.lis_world.specs.Safe.{IsSafe, DeliversAll};
ghost use Rattle.lis_station.specs.Line.{two_way};
ghost use Rattle.lis_line.specs.Events.{line_events};

use crate::event::LineEvents;
use crate::line::LineOf;
use lis_text::List;
use lis_world::{PlayFault, SessionOf};
use std::alloc::Global;
use std::collections::VecDeque;

/// The sessions of a station, one for each ENQ that it sent, in their order.
pub type HistoryOf<const N: usize> = List<SessionOf<N>>;

/// What became of the sessions of either station.
#[derive(Drop)]
pub struct BothHistoriesOf<const N: usize> {
    /// The analyzer's sessions.
    pub analyzer: HistoryOf<N>,
    /// The computer's sessions.
    pub computer: HistoryOf<N>,
}

/// The same with the usual limit on a frame's text.
pub type BothHistories = BothHistoriesOf<240>;

/// Plays events on a line between two new stations, an analyzer and a computer, and answers what became of each
/// session of either: exactly what the definition of the line says, and each is safe. The one fault is a lack of
/// memory.
pub fn play_both_of<const N: usize>(
    alloc: Global,
    events: LineEvents,
) -> Result<BothHistoriesOf<N>, PlayFault>
    requires { IsLimit N }
    ensures analyzer { IfOk result (λ both. both.analyzer ≡ (two_way N (line_events events)).near.sessions) }
    ensures computer { IfOk result (λ both. both.computer ≡ (two_way N (line_events events)).far.sessions) }
    ensures safe { IfOk result (λ both. All (IsSafe N) both.analyzer × All (IsSafe N) both.computer) }
    ensures done { IfOk result (λ both. All DeliversAll both.analyzer × All DeliversAll both.computer) }
{
    play_all(alloc, events)
}

/// The same with the usual limit on a frame's text.
pub fn play_both(alloc: Global, events: LineEvents) -> Result<BothHistories, PlayFault>
    ensures analyzer { IfOk result (λ both. both.analyzer ≡ (two_way 240 (line_events events)).near.sessions) }
    ensures computer { IfOk result (λ both. both.computer ≡ (two_way 240 (line_events events)).far.sessions) }
    ensures safe { IfOk result (λ both. All (IsSafe 240) both.analyzer × All (IsSafe 240) both.computer) }
    ensures done { IfOk result (λ both. All DeliversAll both.analyzer × All DeliversAll both.computer) }
{
    play_both_of(alloc, events)
}

/// Plays them all, and answers the sessions of either station.
#[tactic(auto, using(crate::proofs::LineLaws::playing_next, crate::proofs::LineLaws::played))]
fn play_all<const N: usize>(
    alloc: Global,
    events: LineEvents,
) -> Result<BothHistoriesOf<N>, PlayFault>
    requires { IsLimit N }
    ensures { IfOk result (λ both. (both.analyzer ≡ (two_way N (line_events events)).near.sessions)
        × (both.computer ≡ (two_way N (line_events events)).far.sessions)) }
{
    let Ok(mut line) = LineOf::<N>::new(alloc) else {
        return Err(PlayFault::OutOfMemory);
    };
    let mut left = VecDeque::from_vec(events.into_vec());
    while let Some(event) = left.pop_front() {
        if line.happen_on_line(event).is_err() {
            return Err(PlayFault::OutOfMemory);
        }
    }
    let (own, other) = line.into_sessions();
    Ok(BothHistoriesOf {
        analyzer: List::from_vec(own),
        computer: List::from_vec(other),
    })
}
