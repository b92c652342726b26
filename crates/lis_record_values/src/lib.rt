//! What a record of a laboratory message is made of (LIS02-A2): delimiters, kinds, symbols, components, repeats,
//! fields.
#![tactic(auto)]

mod component;
mod delimiting;
mod faults;
mod few;
mod field;
mod kinds;
mod one_or_more;
mod parts;
mod records;
mod repeat;
mod symbol_list;
mod symbols;
mod text_bytes;

pub use component::Component;
pub use delimiting::{DelimiterFault, Delimiters};
pub use faults::{DelimiterPartFault, MessageFault, Reason, RecordFault};
pub use field::Field;
pub use kinds::Kind;
pub use parts::{Part, Parts};
pub use records::Record;
pub use repeat::Repeat;
pub use symbols::Sym;
pub use text_bytes::is_text_byte;
