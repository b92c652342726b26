//! A command, run by its name.

ghost use Rattle.std.specs.Prelude.{◌≡◌, ◌≤◌, false, IfOk};
ghost use Rattle.lis_engine.specs.Runs.{AreFresh, Stops, ports};
ghost use Rattle.lis_commands.specs.Commands.{CommandRan, closes, refuses};

use crate::commands::Command;
use lis_port::Sink;
use lis_record_commands::{run_check, run_results};
use lis_run::{
    Ended, SourceFor, run_replay, run_replay_of, run_show, run_show_of, run_texts, run_texts_of,
    run_upgrade,
};
use std::alloc::Global;

/// Runs a command from the source to the sink, by at most `reads` calls of read; with `long` for
/// frames of up to 63,993 bytes of text. What it writes and its faults are those of the command's own
/// function.
///
/// The source was never read, and neither it nor the sink has failed.
pub fn run_command<R: SourceFor<W>, W: Sink>(
    alloc: Global,
    command: Command,
    source: &mut R,
    sink: &mut W,
    reads: u32,
) -> Ended
    requires { AreFresh (ports R.left R.made R.ended R.failed W.taken W.sent W.failed source.old sink.old) }
    ensures ran { CommandRan command
        (ports R.left R.made R.ended R.failed W.taken W.sent W.failed source.old sink.old)
        (ports R.left R.made R.ended R.failed W.taken W.sent W.failed source.new sink.new) result }
    ensures stops { Stops (refuses command) (closes command)
        (ports R.left R.made R.ended R.failed W.taken W.sent W.failed source.old sink.old)
        (ports R.left R.made R.ended R.failed W.taken W.sent W.failed source.new sink.new) reads result }
    ensures status { IfOk result (λ report. report.status ≤ 1) }
{
    match command {
        Command::Show { long: false } => run_show(source, sink, reads),
        Command::Show { long: true } => run_show_of::<63_993, R, W>(source, sink, reads),
        Command::Check => run_check(alloc, source, sink, reads),
        Command::Results => run_results(alloc, source, sink, reads),
        Command::Replay { long: false } => run_replay(alloc, source, sink, reads),
        Command::Replay { long: true } => run_replay_of::<63_993, R, W>(alloc, source, sink, reads),
        Command::Texts { long: false } => run_texts(alloc, source, sink, reads),
        Command::Texts { long: true } => run_texts_of::<63_993, R, W>(alloc, source, sink, reads),
        Command::Upgrade => run_upgrade(source, sink, reads),
    }
}
