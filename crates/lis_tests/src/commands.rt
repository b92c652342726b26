//! What no conformance row and no test of the program says: how many reads a run makes, and how it ends if one fails or
//! a write does.

use lis_message::{MessageFault, Reason};
use lis_port::{Cut, Faltering, Slow, Source, Then, Writing};
use lis_tool::{Refused, Report, ToolFault, run_check, run_show};
use std::io::ErrorKind;

#[test]
fn reads_are_counted(rt: HostRuntime) {
    let over = Err(ToolFault::TooManyReads);
    let whole = Ok(Report {
        status: 0,
        refused: None,
    });
    for (then, reads, ended, took) in [
        (Then::End, 1, over, b"ENQ\n".as_slice()),
        (Then::End, 2, whole, b"ENQ\n"),
        (Then::Again(5), 3, over, b"ENQ\nENQ\nENQ\n"),
        (Then::Fail, 3, Err(ToolFault::Read), b"ENQ\n"),
    ] {
        let mut source = Cut::new(b"\x05", 1, then);
        let mut sink = Slow::new(100, 100);
        assert!(rt; run_show(&mut source, &mut sink, reads) == ended);
        assert!(rt; sink.took() == took);
    }
}

#[test]
fn a_read_has_room_for_4096_bytes(rt: HostRuntime) {
    let mut source = Cut::new(&[b'x'; 8193], 10_000, Then::End);
    let mut sink = Slow::new(100, 100);
    let ended = run_show(&mut source, &mut sink, 10);
    assert!(rt; ended.is_ok() && sink.took().is_empty());
    // 4,096 bytes twice, the last one, and the end.
    assert!(rt; source.made() == 4);
}

/// A message, and a patient outside a message.
const REFUSED: &[u8] = b"H|\\^&\rL|1|N\rP|1\r";

/// What `check` writes for these.
const CHECKED: &[u8] = b"message 1\n1 H 0\n2 L 2\nrefused 2 1 G2\nmessages 1 findings 0\n";

#[test]
fn a_refusal_ends_the_run_before_the_next_read(rt: HostRuntime) {
    let mut source = Cut::new(REFUSED, 4096, Then::Fail);
    let mut sink = Slow::new(1000, 7);
    let ended = run_check(rt.alloc(), &mut source, &mut sink, 1000);
    let fault = MessageFault {
        place: 1,
        reason: Reason::NotHeader,
    };
    let refused = Some(Refused { message: 2, fault });
    assert!(rt; (ended, source.made()) == (Ok(Report { status: 1, refused }), 1));
    assert!(rt; sink.took() == CHECKED);
}

#[test]
fn a_failed_write_ends_the_run(rt: HostRuntime) {
    let mut source = Cut::new(b"\x05", 1, Then::End);
    let mut sink = Slow::new(2, 1);
    assert!(rt; run_show(&mut source, &mut sink, 5) == Err(ToolFault::Write { written: 2 }));
    assert!(rt; sink.took() == b"EN".as_slice());
}

#[test]
fn a_failed_flush_ends_the_run(rt: HostRuntime) {
    // Calls 0 and 2 are the flushes before the reads, call 1 is the write.
    for (before, written) in [(0, 0), (1, 0), (2, 4)] {
        let mut room = [0; 8];
        let writer = Faltering::new(room.as_mut_slice(), before, ErrorKind::BrokenPipe);
        let mut source = Cut::new(b"\x05", 1, Then::End);
        let ended = run_show(&mut source, &mut Writing::new(writer), 5);
        assert!(rt; ended == Err(ToolFault::Write { written }));
    }
}
