//! The commands of the program `lislink` by their words, over sources and sinks that contracts can speak of.
#![tactic(auto)]

pub mod commands;
pub mod run;
pub mod words;

pub use commands::Command;
pub use lis_record_commands::{check, messages, results, run_check, run_results};
pub use lis_run::{
    Ended, LineMachine, Lines, Machine, Refused, Report, SourceFor, Stop, ToolFault, run_replay,
    run_replay_of, run_show, run_show_of, run_texts, run_texts_of, run_upgrade, status_of,
};
pub use run::run_command;
pub use words::command;
