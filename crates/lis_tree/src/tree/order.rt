ghost use Rattle.std.specs.Prelude.{◌≡◌};

use super::annotated::ResultEntry;
use super::branch::Branch;

/// An order with its notes and its results.
pub type Order = Branch<ResultEntry>;

impl Branch<ResultEntry> {
    /// The results of an order, in order.
    pub fn results(&self) -> &[ResultEntry]
        ensures { result.now ≡ self.now.below }
    {
        self.below()
    }
}
