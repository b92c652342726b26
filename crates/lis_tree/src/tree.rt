//! What is below a message's header: patients with their orders and results, and queries.

ghost use Rattle.std.specs.Prelude.{◌≡◌, IfOk};

mod annotated;
mod branch;
mod order;
mod patient;

use crate::lists::Copied;
pub use annotated::{Annotated, Query, ResultEntry};
pub use branch::Branch;
pub use order::Order;
pub use patient::Patient;
use std::alloc::{AllocError, Global};

/// What is right under a header.
#[derive(Debug, PartialEq, Eq, Drop)]
pub enum Group {
    Patient(Patient),
    Query(Query),
}

impl Group {
    /// The same patient or query once more, with memory of its own.
    pub fn copy(&self, alloc: Global) -> Result<Self, AllocError>
        ensures { IfOk result (λ group. group ≡ self.now) }
    {
        Ok(match self {
            Group::Patient(patient) => Group::Patient(patient.copy(alloc)?),
            Group::Query(query) => Group::Query(query.copy(alloc)?),
        })
    }
}

impl Copied for Group {
    fn copied(&self, alloc: Global) -> Result<Self, AllocError> {
        self.copy(alloc)
    }
}
