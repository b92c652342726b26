//! Careful hearing, such that one damaged byte of a frame acknowledges nothing; and its laws: what a receiver hears
//! carefully is what it hears, as the profile has it, on a link that loses more.
#![tactic(auto)]

pub mod laws;
mod receiver;

pub use lis_link::{Hearing, ReceiverOf, Step};
pub use receiver::{CarefulHearing, closes, hear_byte, hear_bytes, heard_as, is_altered, noise_of};
