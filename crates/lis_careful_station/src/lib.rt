//! A station that hears carefully: while no reply is awaited, one damaged byte of a frame acknowledges nothing.
#![tactic(auto)]

pub mod laws;
mod station;

pub use lis_careful::CarefulHearing;
pub use lis_station::{AnswerOf, Role, Station, StationOver};
pub use station::{CarefulHearingOf, hear_byte, hear_bytes, hear_receiving};
