//! Laws of the two ends, each the contract of a function that does nothing.

ghost use Rattle.std.specs.Prelude.{◌≡◌};
ghost use Rattle.lis_link.specs.Duties.{receiver_seconds};
ghost use Rattle.lis_link.specs.Laws.{ComesToRest, OpensWhenReady};

use crate::receiver::RECEIVER_SECONDS;

/// There is no failed state: a restart, and two timers, make a sender neutral from any state.
pub fn comes_to_rest()
    ensures { ComesToRest }
{}

/// A receiver that is ready answers ENQ with ACK, whatever came before, and is open.
pub fn opens_when_ready()
    ensures { OpensWhenReady }
{}

/// The receiver's timer runs as long as the standard says (LIS01-A2, 6.5).
pub fn receiver_timer()
    ensures { RECEIVER_SECONDS ≡ receiver_seconds }
{}
