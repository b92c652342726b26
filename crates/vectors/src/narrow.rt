//! Sinks that fail.

ghost use Rattle.std.specs.Prelude.{◌≡◌, ◌≤◌, ◌<◌, [], false};

use crate::answer::Answer;
use crate::words::Call;
use lis_port::Slow;

/// The most that a sink takes.
pub(crate) const WIDE: usize = 131_072;

/// How many bytes a sink takes before it fails, and how many at a time.
#[derive(Clone, Copy)]
pub(crate) struct Narrow {
    room: usize,
    step: usize,
    ghost in_range: { (room ≤ 131072) × (1 ≤ step) },
}

impl Narrow {
    /// A sink of this kind.
    pub(crate) fn sink(self) -> Slow
        ensures { result ≡ record { taken = []; room = self.room; step = self.step; failed = false } }
    {
        Slow::new(self.room, self.step)
    }
}

/// The sink that two words report, from a place on.
pub(crate) fn narrow_of(call: Call<'_>, place: usize, answer: &mut Answer) -> Option<Narrow>
    requires { place < 8 }
{
    let room = call.number(place, answer) as usize;
    let step = call.number(place + 1, answer) as usize;
    if room > WIDE || step == 0 {
        answer.no_call();
        return None;
    }
    Some(Narrow { room, step })
}
