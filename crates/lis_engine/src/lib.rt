//! What runs a command over any source and sink: a machine is fed with what is read, and what it writes goes out by way
//! of an output.
#![tactic(auto)]

mod digits;
mod fault;
mod machine;
mod output;
mod output_buffer;
mod ports;
mod print;
mod report;

pub use fault::ToolFault;
pub use machine::{Machine, Stop, run};
pub use output::Output;
pub use output_buffer::{NUMBER_ROOM, OUTPUT_ROOM};
pub use ports::SourceFor;
pub use print::{CountsLine, Part, Print};
pub use report::{Ended, Report, status_of};
