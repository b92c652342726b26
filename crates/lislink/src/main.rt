//! The program: finds out what is asked, runs it over standard input and output, and says how it ended.
#![tactic(auto)]

ghost use Rattle.std.specs.Prelude.{◌≡◌, IfOk, OnErr};
ghost use Rattle.std.specs.Process.{exit_status};

use lis_commands::{Command, Ended, Report, ToolFault, command, run_command, status_of};
use lis_port::{Buffered, Once, ReadAhead};
use std::io::{self, BufReader, BufWriter};
use std::process::ExitCode;
use std::{env, mem};

/// The room of the buffer on standard input.
const READ_ROOM: usize = 32_768;

/// The room of the buffer on standard output. An output buffer of a command is longer and passes it by.
const WRITE_ROOM: usize = 4096;

fn main(rt: HostRuntime) -> ExitCode {
    let Ok(Ok(words)) = env::args(&rt).map(|args| args.collect::<Vec<String>>(rt.alloc())) else {
        return exit_code(&rt, Err(ToolFault::OutOfMemory));
    };
    let Some(command) = command(words.as_slice()) else {
        // Where standard error is closed there is nowhere to say it.
        let _ = eprintln!(rt; "usage: lislink COMMAND");
        return ExitCode::from(2);
    };
    let Ok(reader) = BufReader::with_capacity(rt.alloc(), READ_ROOM, rt.reader()) else {
        return exit_code(&rt, Err(ToolFault::OutOfMemory));
    };
    let Ok(writer) = BufWriter::with_capacity(rt.alloc(), WRITE_ROOM, Once::new(io::writer(&rt)))
    else {
        return exit_code(&rt, Err(ToolFault::OutOfMemory));
    };
    let mut source = ReadAhead::new(reader);
    let mut sink = Buffered::new(writer);
    let ended = run_command(rt.alloc(), command, &mut source, &mut sink, u32::MAX);
    // Only a sink that failed still holds bytes. Dropped, its buffer would try to write them again.
    mem::forget(sink);
    if let (Command::Results, Ok(report)) = (command, ended) {
        print_refused(&rt, report);
    }
    exit_code(&rt, ended)
}

/// Reports a rejected record on standard error.
fn print_refused(rt: &HostRuntime, report: Report) {
    if let Some(refused) = report.refused {
        // Where standard error is closed there is nowhere to say it.
        let _ = eprintln!(rt; "lislink: {refused}");
    }
}

/// The exit status for a run that ended so; why it stopped is reported on standard error.
fn exit_code(rt: &HostRuntime, ended: Ended) -> ExitCode
    ensures report { IfOk ended (λ report. exit_status result ≡ report.status) }
    ensures fault { OnErr ended (exit_status result ≡ 3) }
{
    if let Err(fault) = ended {
        // Where standard error is closed the exit status says it alone.
        let _ = eprintln!(rt; "{fault}");
    }
    ExitCode::from(status_of(&ended))
}
