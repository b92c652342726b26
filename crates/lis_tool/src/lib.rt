//! What the program `lislink` does with its input: its commands, which `lis_commands` has, and laws above them.
#![tactic(auto)]

pub mod laws;

pub use lis_commands::{
    Command, Ended, LineMachine, Lines, Machine, Refused, Report, SourceFor, Stop, ToolFault,
    check, command, commands, messages, results, run, run_check, run_command, run_replay,
    run_replay_of, run_results, run_show, run_show_of, run_texts, run_texts_of, run_upgrade,
    status_of, words,
};
