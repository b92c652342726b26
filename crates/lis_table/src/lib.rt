//! All components of a record at once: where each is in the record's text (LIS02-A2, Delimiters).
#![tactic(auto)]

pub mod laws;
mod stops;
mod table;

pub use table::{LisPart, put_places};
