//! Records of a laboratory message as texts (LIS02-A2): read where they are or as values, and written.
#![tactic(auto)]

mod borrowed;
mod borrowed_cursor;
mod known_parts;
pub mod laws;
mod reading;
mod reencoding;

pub use borrowed::{
    BorrowedComponent, BorrowedField, BorrowedFields, BorrowedPart, BorrowedParts, BorrowedRecord,
    BorrowedRepeat, front_length,
};
pub use lis_record_read::{BorrowedSymbols, first_bad_byte};
pub use lis_record_values::{
    Component, DelimiterFault, DelimiterPartFault, Delimiters, Field, Kind, Record, RecordFault,
    Repeat, Sym,
};
pub use lis_record_write::{
    FieldEncoding, RECORD_LIMIT, WriteFault, WriteResult, check_record, encoded_length, put_field,
    write_field, write_record, write_record_from,
};
pub use reading::{
    borrow_header, borrow_record, borrow_searched_header, borrow_searched_record, read_header,
    read_record,
};
