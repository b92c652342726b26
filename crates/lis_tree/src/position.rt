//! Where the next record of an open message will be (LIS02-A2, the hierarchy of records).
ghost use Rattle.std.specs.Prelude.{◌≡◌};
ghost use Rattle.lis_tree.specs.Level.{misplaced, next_level};
ghost use Rattle.lis_tree.specs.Position.{position_level, position_or_closed};

use lis_record_values::{Kind, Reason};

/// Where the next record of a message that isn't closed yet will be.
#[derive(Clone, Copy, Debug, PartialEq, Eq)]
pub enum Position {
    /// Right under the header.
    InHeader,
    /// Under a patient, before its first order.
    InPatient,
    /// Under an order or its results.
    InOrder,
    /// Under a query.
    InQuery,
}

impl Position {
    /// Why a record of this kind can't be here: a second header can't, an order is under a patient
    /// alone, and a result under an order (LIS02-A2, the hierarchy of records).
    #[inline(always)]
    pub fn place_fault(self, kind: Kind) -> Option<Reason>
        ensures { result ≡ misplaced (position_level self) kind }
    {
        let has_parent = match kind {
            Kind::H => return Some(Reason::SecondHeader),
            Kind::O => matches!(self, Position::InPatient | Position::InOrder),
            Kind::R => matches!(self, Position::InOrder),
            Kind::P | Kind::C | Kind::Q | Kind::M | Kind::S | Kind::L => true,
        };
        if has_parent {
            None
        } else {
            Some(Reason::NoParent(kind))
        }
    }

    /// Where the next record will be after one of this kind, which is here; none where that closes
    /// the message.
    #[inline(always)]
    pub fn after(self, kind: Kind) -> Option<Position>
        ensures { position_or_closed result ≡ next_level (position_level self) kind }
    {
        match kind {
            Kind::H => Some(Position::InHeader),
            Kind::P => Some(Position::InPatient),
            Kind::O => Some(Position::InOrder),
            Kind::Q => Some(Position::InQuery),
            Kind::R | Kind::C | Kind::M | Kind::S => Some(self),
            Kind::L => None,
        }
    }
}
