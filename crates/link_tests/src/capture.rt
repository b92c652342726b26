//! Captures whose lines are known from outside: how far each is read, however it is split. The room of an
//! output buffer.

ghost use Rattle.std.specs.Prelude.{◌≤◌};

use lis_capture::*;
use lis_engine::{OUTPUT_ROOM, Output};
use lis_port::Discard;
use std::process::Abort;

/// The number of the last line of a capture that is read in pieces of at most `step` bytes, and whether it is rejected.
fn last_line(capture: &[u8], step: usize) -> (u64, bool)
    requires { 1 ≤ step }
{
    let mut reader = LineReader::new();
    for piece in capture.chunks(step) {
        let mut rest = piece;
        for _ in 0..=piece.len() {
            let (taken, found) = reader.read(rest);
            match found {
                LineFound::Nothing => break,
                LineFound::Line => {}
                LineFound::Refused => return (reader.number(), true),
            }
            let (_, following) = rest.split_at(taken);
            rest = following;
        }
    }
    let is_refused = reader.finish() == LineFound::Refused;
    (reader.number(), is_refused)
}

/// Captures, each with the number of the line that is rejected, or of its last one.
const CAPTURES: [(&[u8], (u64, bool)); 25] = [
    (b"", (0, false)),
    (b"T", (1, false)),
    (b"T\r", (1, false)),
    (b"T\n\r", (2, false)),
    (b"> 05\n< 06\n\nT\n> aBcDeF09\r\n\r\nT\r\n", (7, false)),
    (
        b"capture 2\nS busy\n> 05\n< 15\nS ready\r\nR\nS contending\n",
        (7, false),
    ),
    (b"capture 2\r\nR\r\n", (2, false)),
    (b"R\n", (1, true)),
    (b"capture 3\n", (1, true)),
    (b"> 05\ncapture 2\n", (2, true)),
    (b"\ncapture 2\n", (2, true)),
    (b"capture 2\ncapture 2\n", (2, true)),
    (b"capture 2\nS off\n", (2, true)),
    (b"> 05\n< 06\nS ready\nT\n", (3, true)),
    (b"> 05\n\n\n> 5\n> 05\n", (4, true)),
    (b"> 05\n< 0", (2, true)),
    (b"> \n", (1, true)),
    (b">\n", (1, true)),
    (b">05\n", (1, true)),
    (b">  05\n", (1, true)),
    (b"> 05 \n", (1, true)),
    (b"> 0g\n", (1, true)),
    (b"t\n", (1, true)),
    (b"T \n", (1, true)),
    (b"T\r\r\n", (1, true)),
];

/// Fails where a capture's last line has another number, or is rejected and should not be, or the other way round.
fn assert_read(rt: &impl Abort, capture: &[u8], want: (u64, bool)) {
    for step in [1, 2, 3, 7, 4096] {
        assert!(rt; last_line(capture, step) == want);
    }
}

#[test]
fn the_last_line_is_reported_once(rt: HostRuntime) {
    let mut reader = LineReader::new();
    assert!(rt; reader.read(b"> 05") == (4, LineFound::Nothing));
    assert!(rt; reader.finish() == LineFound::Line);
    assert!(rt; reader.finish() == LineFound::Nothing);
    assert!(rt; reader.number() == 1);
}

#[test]
fn lines_of_both_versions(rt: HostRuntime) {
    for (capture, want) in &CAPTURES {
        assert_read(&rt, *capture, *want);
    }
}

#[test]
fn after_a_refused_line_nothing_is_read(rt: HostRuntime) {
    let mut reader = LineReader::new();
    assert!(rt; reader.read(b"> 4z\nT\n") == (5, LineFound::Refused));
    assert!(rt; reader.read(b"T\n") == (0, LineFound::Refused));
    assert!(rt; reader.finish() == LineFound::Refused);
    assert!(rt; (reader.number(), reader.version()) == (1, CaptureVersion::Unsaid));
}

#[test]
fn the_room_of_an_output_is_what_is_left(rt: HostRuntime) {
    let mut sink = Discard;
    let mut out = Output::new(&mut sink);
    out.append(b"abc");
    assert!(rt; out.room() == OUTPUT_ROOM - 3);
    assert!(rt; out.put(&[b'a'; OUTPUT_ROOM]).is_ok());
    assert!(rt; out.room() == OUTPUT_ROOM);
}

#[test]
fn a_text_that_there_is_room_for_waits(rt: HostRuntime) {
    let mut sink = Discard;
    let mut out = Output::new(&mut sink);
    assert!(rt; out.put(&[b'a'; OUTPUT_ROOM]).is_ok());
    assert!(rt; out.room() == 0);
}
