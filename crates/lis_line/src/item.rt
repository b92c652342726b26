//! What is on its way to a station.

ghost use Rattle.std.specs.Prelude.{◌≡◌, length, map, IfOk};
ghost use Rattle.lis_station.specs.Line.{units_of, sent};
ghost use Rattle.lis_line.specs.inside.Kept.{is_unit, load_in};
ghost use Rattle.lis_world.specs.inside.Loads.{is_frame};

use lis_frame::FrameOf;
use std::alloc::{AllocError, Global};
use std::collections::VecDeque;
use std::marker::Model;

/// ENQ, EOT or a frame, of the session at this place; or a reply.
#[derive(Drop)]
pub(crate) enum CarriedOf<const N: usize> {
    Enquiry(usize),
    Ending(usize),
    Frame(usize, FrameOf<N>),
    Reply(u8),
}

/// One of these, on a line.
#[derive(Drop)]
pub(crate) struct ItemOf<const N: usize> {
    pub(crate) carried: CarriedOf<N>,
}

impl<const N: usize> Model for ItemOf<N> {
    ghost use Rattle.lis_line.specs.inside.Kept.{item_of};
    ghost use Rattle.lis_station.specs.Line.{Item};

    ghost Value = { Item };

    ghost view = { λ i. item_of i.carried };
}

/// What is on its way to a station, in order.
pub(crate) type ItemsOf<const N: usize> = VecDeque<ItemOf<N>>;

impl<const N: usize> ItemOf<N> {
    /// Whether it is a unit, not a reply.
    pub(crate) fn is_unit(&self) -> bool
        ensures { result ≡ is_unit self.now }
    {
        !matches!(self.carried, CarriedOf::Reply(_))
    }

    /// Whether it is a frame.
    pub(crate) fn is_frame(&self) -> bool
        ensures { result ≡ is_frame (load_in self.now) }
    {
        matches!(self.carried, CarriedOf::Frame(_, _))
    }
}

/// How many units are on their way.
pub(crate) fn count_units<const N: usize>(items: &ItemsOf<N>) -> usize
    ensures { result ≡ length (units_of items.now.items) }
{
    let mut count = 0;
    let mut place = 0;
    while let Some(item) = items.get(place) {
        if item.is_unit() {
            count += 1;
        }
        place += 1;
    }
    count
}

/// What is on its way but for the replies.
pub(crate) fn without_replies<const N: usize>(
    alloc: Global,
    mut items: ItemsOf<N>,
) -> Result<ItemsOf<N>, AllocError>
    ensures { IfOk result (λ units. units.items ≡ map sent (units_of items.entry.items)) }
{
    let mut units = VecDeque::new(alloc);
    while let Some(item) = items.pop_front() {
        if item.is_unit() {
            units.push_back(item)?;
        }
    }
    Ok(units)
}
