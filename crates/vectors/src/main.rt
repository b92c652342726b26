//! Answers the calls of conformance rows by the real calls of the crates.
//!
//! Reads a call a line from standard input and prints the answer of each a line to standard output; an empty line,
//! which parts two cases, is answered by an empty line. `conformance/README.md` reports the calls.
//!
//! With words after its name it makes calls for the benchmark to time:
//!
//! - `vectors bytes` hears the link bytes of standard input, and says how many texts were delivered;
//! - `vectors station` does the same by a station;
//! - `vectors messages` reads the record text of standard input, and says how many messages it holds;
//! - `vectors again 40` does so 40 times, each time with the memory of the time before;
//! - `vectors tables 40` does so 40 times where the messages are, by one table, and `vectors parts 40` with all
//!   components of each record;
//! - `vectors play 40` plays a session of 1,000 full frames 40 times, and says how many were accepted.
#![tactic(auto)]

mod answer;
mod both_rows;
mod encoding;
mod frame_rows;
mod link_rows;
mod message_parts;
mod message_rows;
mod narrow;
mod receiver_rows;
mod record_rows;
mod resuming;
mod sender_rows;
mod state;
mod table_rows;
mod timed;
mod words;
mod writing_rows;

use crate::answer::Answer;
use crate::state::State;
use crate::timed::{Asked, asked_by, make_calls};
use std::alloc::Global;
use std::env;
use std::io::{self, BufRead, BufReader, BufWriter, Write};
use std::mem::drop;
use std::process::ExitCode;

fn main(rt: HostRuntime) -> io::Result<ExitCode> {
    let words: Vec<String> = env::args(&rt)?.collect(rt.alloc())?;
    let asked = asked_by(words.as_slice());
    drop(words);
    if let Some(Asked::Rows) = asked {
        answer_rows(&rt)?;
        return Ok(ExitCode::from(0));
    }
    Ok(make_calls(&rt, asked))
}

/// Answers the rows of standard input. The state holds frames of the long limit, which are to take no stack from the
/// calls that are timed.
#[inline(never)]
fn answer_rows(rt: &HostRuntime) -> io::Result<()> {
    let mut state = State::new(rt.alloc());
    let ended = run(rt, &mut state);
    drop(state);
    ended
}

/// Answers all lines of standard input.
fn run(rt: &HostRuntime, state: &mut State) -> io::Result<()> {
    let input = BufReader::new(rt.alloc(), rt.reader())?;
    let mut output = BufWriter::new(rt.alloc(), io::writer(rt))?;
    answer_lines(rt.alloc(), input, state, &mut output)
}

/// Answers each line that is read.
fn answer_lines<R: BufRead + Drop, W: Write>(
    alloc: Global,
    input: R,
    state: &mut State,
    output: &mut W,
) -> io::Result<()> {
    for line in input.lines(alloc) {
        let line = line?;
        let answered = answer_line(alloc, state, line.as_str(), output);
        drop(line);
        answered?;
    }
    output.flush()
}

/// Answers a line.
fn answer_line<W: Write>(
    alloc: Global,
    state: &mut State,
    line: &str,
    output: &mut W,
) -> io::Result<()> {
    let mut answer = Answer::new(alloc);
    state.call(line, &mut answer);
    let written = writeln!(output, "{}", answer.line());
    drop(answer);
    written
}
