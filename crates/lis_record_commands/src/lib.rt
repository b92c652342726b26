//! The commands over record text.
#![tactic(auto)]

pub mod check;
mod held_text;
pub mod messages;
pub mod results;

pub use check::run_check;
pub use lis_engine::{Machine, SourceFor, ToolFault, status_of};
pub use lis_report::{Ended, Refused, Report, Stop};
pub use results::run_results;
