//! Two stations on one line, either of which may hear carefully: laws alone.
#![tactic(auto)]

pub mod laws;
