//! The tree of a message's records (LIS02-A2): the hierarchy, a message that is still open, a walk over the records,
//! and the findings on sequence numbers.
#![tactic(auto)]

mod front;
pub mod laws;
mod lists;
mod message;
mod numbering;
mod open;
mod position;
mod results;
mod tree;
mod walk;

pub use lis_bytes::List;
pub use lis_record::BorrowedRecord;
pub use lis_record_values::{Delimiters, Kind, MessageFault, Reason, Record, RecordFault};
pub use lists::{Records, copy_records};
pub use message::Message;
pub use numbering::{Finding, Findings, Numbering, findings};
pub use open::OpenMessage;
pub use position::Position;
pub use results::{PlacedResult, Results};
pub use tree::{Annotated, Branch, Group, Order, Patient, Query, ResultEntry};
pub use walk::Walk;
