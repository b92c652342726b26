//! Small callers of the crates, which `docs/rattle.md` names: the loops of both ends of a line, reading results,
//! building and sending a message, writing it on after a sink that failed, and checking a capture.
#![tactic(auto)]

pub mod analyzer;
pub mod building;
pub mod capture;
pub mod computer;
pub mod connection;
pub mod frames;
pub mod results;
pub mod resuming;
pub mod station;
pub mod testing;
