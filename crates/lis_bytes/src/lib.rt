//! Bytes: the list that they are kept in, searches for one of them or for one of a set, and sums, sixteen to sixty-four
//! at a time. Nothing here knows the link or the records.
#![tactic(auto)]

mod list;
mod marks;
mod search;

pub use list::List;
pub use marks::{bits_of, count_of, front_marks, place_of};
pub use search::{ByteSet, are_over, first_and_sum, first_in, sum_of};
