//! How a command of the program ends: its report, and the record that it rejected.
#![tactic(auto)]

mod refused;

pub use lis_engine::{ToolFault, status_of};
pub use refused::{Ended, Refused, Report, Stop, printed_reason};
