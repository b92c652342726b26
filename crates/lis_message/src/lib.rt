//! Messages of LIS02-A2 as bytes: a reader over a stream that comes in pieces, and a writer.
#![tactic(auto)]

mod fault;
pub mod laws;
mod reader;
mod records;
mod writer;

pub use fault::MessageWriteFault;
pub use lis_bytes::List;
pub use lis_record::{BorrowedRecord, Delimiters, Kind, Record, RecordFault, WriteFault};
pub use lis_tree::{
    Annotated, Branch, Group, Message, MessageFault, Order, Patient, PlacedResult, Query, Reason,
    Records, ResultEntry, Results,
};
pub use reader::{Fed, MessageReader, Messages, read_messages};
pub use records::{RecordFound, RecordReader};
pub use writer::{check_message, write_message, write_message_from};
