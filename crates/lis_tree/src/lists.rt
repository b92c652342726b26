//! The lists that a message is made of.

ghost use Rattle.std.specs.Prelude.{◌≡◌, IfOk};

use lis_bytes::List;
use lis_record_values::Record;
use std::alloc::{AllocError, Global};

/// A list of records.
pub type Records = List<Record>;

/// What can be copied, if there is memory for it.
pub trait Copied: Drop {
    /// A copy.
    fn copied(&self, alloc: Global) -> Result<Self, AllocError>
        ensures { IfOk result (λ item. item ≡ self.now) };
}

impl Copied for Record {
    fn copied(&self, alloc: Global) -> Result<Self, AllocError> {
        self.copy(alloc)
    }
}

/// A list of copies.
pub(crate) fn copy_list<T: Copied>(alloc: Global, items: &List<T>) -> Result<List<T>, AllocError>
    ensures { IfOk result (λ list. list ≡ items.now) }
{
    let mut list = List::new(alloc);
    for item in items.as_slice() {
        list.push(item.copied(alloc)?)?;
    }
    Ok(list)
}

/// The same records once more, each with memory of its own.
pub fn copy_records(alloc: Global, records: &Records) -> Result<Records, AllocError>
    ensures { IfOk result (λ list. list ≡ records.now) }
{
    copy_list(alloc, records)
}
