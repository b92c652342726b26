//! A side of a line that works both ways: a sender and a receiver, and which of them a byte is for (LIS01-A2, 6.2 to
//! 6.5).
#![tactic(auto)]

pub mod laws;
mod station;

pub use lis_link::{EmitOf, Outcome, Phase, StartFault, Step};
pub use lis_text::{LinkText, Texts};
pub use station::{
    AnswerOf, COMPUTER_SECONDS, HearingOf, Role, Station, StationFault, StationOf, StationOver,
    StationRefusedOf, TURN_SECONDS,
};
