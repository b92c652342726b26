//! Two stations on one line that answers late, as TCP can: when a station may ask for it, so that each session of
//! either side is safe.
#![tactic(auto)]

pub mod laws;
mod rule;

pub use rule::needs_new_line;
