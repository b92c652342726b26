//! A message as a table of places in its text: where each record is, what it reports, and the record that it is under
//! (LIS02-A2). It takes no memory but the table's.
#![tactic(auto)]

mod above;
pub mod laws;
mod places;
mod putting;
mod reading;
mod table;

pub use lis_message::{
    BorrowedRecord, Delimiters, Kind, Message, MessageFault, Reason, RecordFault,
};
pub use lis_table::LisPart;
pub use lis_tree::{Finding, Findings};
pub use places::{LisRecordPlace, Placed, RecordPlace, ResultIndexes};
pub use putting::put_message;
pub use table::MessageTable;
