ghost use Rattle.std.specs.Prelude.{◌≡◌};

use super::branch::Branch;
use super::order::Order;

/// A patient with the notes and the orders.
pub type Patient = Branch<Order>;

impl Branch<Order> {
    /// The orders of a patient, in order.
    pub fn orders(&self) -> &[Order]
        ensures { result.now ≡ self.now.below }
    {
        self.below()
    }
}
