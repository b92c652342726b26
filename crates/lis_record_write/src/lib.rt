//! How records and fields are encoded (LIS02-A2): chunk by chunk, without memory, into a sink or piece by piece.
#![tactic(auto)]

mod chunk;
mod cursor;
mod faults;
mod pieces;
mod writing;

pub use chunk::{Chunk, ChunkOf, add_symbol};
pub use cursor::Encoding;
pub use faults::{WriteFault, WriteResult};
pub use pieces::FieldEncoding;
pub use writing::{
    RECORD_LIMIT, check_record, encoded_length, put_encoding, put_field, write_field, write_record,
    write_record_from,
};
