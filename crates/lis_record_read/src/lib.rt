//! The parts of a record's text (LIS02-A2): where they end, the symbols and escapes of a component, and the values that
//! are made of them.
#![tactic(auto)]

mod building;
mod escapes;
mod search;
mod text_parts;

pub use building::{is_plain, read_field, read_fields};
pub use escapes::{BorrowedSymbols, escape_meaning, first_pair, letter_symbol};
pub use lis_bytes::{bits_of, place_of};
pub use search::{first_bad_byte, stop_bits};
pub use text_parts::{count_parts, first_part};
