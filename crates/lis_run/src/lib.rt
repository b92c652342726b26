//! The commands over what is on a link: its bytes and captures.
#![tactic(auto)]

mod lines;
mod playing;
mod replay;
mod show;
mod texts;
mod upgrade;

pub use lines::{LineMachine, Lines};
pub use lis_engine::{Machine, SourceFor, ToolFault, status_of};
pub use lis_report::{Ended, Refused, Report, Stop};
pub use replay::{run_replay, run_replay_of};
pub use show::{run_show, run_show_of};
pub use texts::{run_texts, run_texts_of};
pub use upgrade::run_upgrade;
