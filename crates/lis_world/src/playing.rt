//! Playing events.

ghost use Rattle.std.specs.Prelude.{◌≡◌, ℕ, List, [], ◌∷◌, OnOk, IfOk, All, map};
ghost use Rattle.lis_frame.specs.Limit.{IsLimit};
ghost use Rattle.lis_link.specs.Receiver.{ReceiverState};
ghost use Rattle.lis_link.specs.Representation.{IsIn};
ghost use Rattle.lis_world.specs.declared.event.LateEvent.TheVariants.{Happens};
ghost use Rattle.lis_world.specs.inside.Playing.{IsWorld, world_at, run_by};
ghost use Rattle.lis_world.specs.Late.{after_late_event, late_world, is_empty};
ghost use Rattle.lis_world.specs.Progress.{AreSendable, done_session, quiet_events};
ghost use Rattle.lis_world.specs.Safe.{IsSafe, DeliversAll};
ghost use Rattle.lis_world.specs.Steps.{world, after_event};
ghost use Rattle.lis_world.specs.World.{World, new_world};

use crate::event::{Event, Events, LateEvent, LateEvents};
use crate::run::RunOf;
use crate::session::SessionOf;
use lis_text::List;
use std::alloc::{AllocError, Global};
use std::collections::VecDeque;
use thiserror::Error;

/// Why events weren't played.
#[derive(Debug, Clone, Copy, PartialEq, Eq, Error)]
pub enum PlayFault {
    /// Memory ran out.
    #[error("memory ran out")]
    OutOfMemory,
}

/// The sessions, one for each start that wasn't rejected, in their order.
pub type HistoryOf<const N: usize> = List<SessionOf<N>>;

/// The sessions, with the usual limit on a frame's text.
pub type History = HistoryOf<240>;

/// Plays events on a link between a new sender and a new receiver, and answers what became of each
/// session: exactly what the definition of the link says. An undisturbed session, alone, is done. The one
/// fault is a lack of memory.
pub fn play_of<const N: usize>(alloc: Global, events: Events) -> Result<HistoryOf<N>, PlayFault>
    requires { IsLimit N }
    ensures world { IfOk result (λ history. history ≡ (world N events).sessions) }
    ensures safe { IfOk result (λ history. All (IsSafe N) history) }
    ensures done { IfOk result (λ history. All DeliversAll history) }
    ensures quiet { IfOk result (λ history. (texts : List (List ℕ)) → AreSendable new_world texts →
        events ≡ quiet_events N texts → history ≡ done_session N texts ∷ []) }
{
    play_all(alloc, events)
}

/// The same with the usual limit on a frame's text.
pub fn play(alloc: Global, events: Events) -> Result<History, PlayFault>
    ensures world { IfOk result (λ history. history ≡ (world 240 events).sessions) }
    ensures safe { IfOk result (λ history. All (IsSafe 240) history) }
    ensures done { IfOk result (λ history. All DeliversAll history) }
    ensures quiet { IfOk result (λ history. (texts : List (List ℕ)) → AreSendable new_world texts →
        events ≡ quiet_events 240 texts → history ≡ done_session 240 texts ∷ []) }
{
    play_of(alloc, events)
}

/// Plays events on a line that answers late, between a new sender and a new receiver, and answers what became of each
/// session: exactly what the definition says. A session starts only on an empty link. An undisturbed session, alone, is
/// done. The one fault is a lack of memory.
pub fn play_late_of<const N: usize>(
    alloc: Global,
    events: LateEvents,
) -> Result<HistoryOf<N>, PlayFault>
    requires { IsLimit N }
    ensures world { IfOk result (λ history. history ≡ (late_world is_empty N events).sessions) }
    ensures safe { IfOk result (λ history. All (IsSafe N) history) }
    ensures done { IfOk result (λ history. All DeliversAll history) }
    ensures quiet { IfOk result (λ history. (texts : List (List ℕ)) → AreSendable new_world texts →
        events ≡ map Happens (quiet_events N texts) → history ≡ done_session N texts ∷ []) }
{
    play_all(alloc, events)
}

/// The same with the usual limit on a frame's text.
pub fn play_late(alloc: Global, events: LateEvents) -> Result<History, PlayFault>
    ensures world { IfOk result (λ history. history ≡ (late_world is_empty 240 events).sessions) }
    ensures safe { IfOk result (λ history. All (IsSafe 240) history) }
    ensures done { IfOk result (λ history. All DeliversAll history) }
    ensures quiet { IfOk result (λ history. (texts : List (List ℕ)) → AreSendable new_world texts →
        events ≡ map Happens (quiet_events 240 texts) → history ≡ done_session 240 texts ∷ []) }
{
    play_late_of(alloc, events)
}

/// What happens in a world, one by one.
trait Happening<const N: usize>: Drop {
    // The world after it.
    ghost after: { Self → World → World };

    /// It happens.
    fn happen(self, run: &mut RunOf<N>) -> Result<(), AllocError>
        ensures { (r : ReceiverState) → IsIn N run.old.computer_state.receiver r →
            OnOk result (IsWorld N run.new (after self (world_at run.old r))) };
}

impl<const N: usize> Happening<N> for Event {
    ghost after = { after_event N };

    fn happen(self, run: &mut RunOf<N>) -> Result<(), AllocError> {
        run.happen(self)
    }
}

impl<const N: usize> Happening<N> for LateEvent {
    ghost after = { after_late_event is_empty N };

    fn happen(self, run: &mut RunOf<N>) -> Result<(), AllocError> {
        run.happen_late(self)
    }
}

/// Plays them all in a new world, and answers its sessions.
#[tactic(auto, using(crate::proofs::PlayingLaws::playing_next, crate::proofs::PlayingLaws::played))]
fn play_all<const N: usize, E: Happening<N>>(
    alloc: Global,
    events: List<E>,
) -> Result<HistoryOf<N>, PlayFault>
    requires { IsLimit N }
    ensures { IfOk result (λ history. history ≡ (run_by E.after events new_world).sessions) }
{
    let Ok(mut run) = RunOf::<N>::new(alloc) else {
        return Err(PlayFault::OutOfMemory);
    };
    let mut left = VecDeque::from_vec(events.into_vec());
    while let Some(event) = left.pop_front() {
        if event.happen(&mut run).is_err() {
            return Err(PlayFault::OutOfMemory);
        }
    }
    Ok(List::from_vec(run.into_sessions()))
}
