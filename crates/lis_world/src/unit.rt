//! What travels to the receiver.

ghost use Rattle.std.specs.Prelude.{◌≡◌};
ghost use Rattle.lis_world.specs.inside.Loads.{is_frame};

use lis_frame::FrameOf;
use std::marker::Model;

/// ENQ, EOT or a frame.
#[derive(Drop)]
pub(crate) enum LoadOf<const N: usize> {
    Enquiry,
    Ending,
    Frame(FrameOf<N>),
}

/// One of these, of the session at this place.
#[derive(Drop)]
pub(crate) struct TravellingOf<const N: usize> {
    pub(crate) session: usize,
    pub(crate) load: LoadOf<N>,
}

impl<const N: usize> Model for TravellingOf<N> {
    ghost use Rattle.lis_world.specs.Unit.{Travelling};
    ghost use Rattle.lis_world.specs.inside.Loads.{load_of};

    ghost Value = { Travelling };

    ghost view = { λ t. record { session = t.session; load = load_of t.load } };
}

impl<const N: usize> TravellingOf<N> {
    /// Whether it is a frame.
    pub(crate) fn is_frame(&self) -> bool
        ensures { result ≡ is_frame self.now.load }
    {
        matches!(self.load, LoadOf::Frame(_))
    }
}
