//! Devices for tests, apart from the ports that programs use: they split, stop and fail as a test asks.

mod cut;
mod faltering;
mod slow;

pub use cut::{Cut, Then};
pub use faltering::Faltering;
pub use slow::Slow;
