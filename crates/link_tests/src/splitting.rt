ghost use Rattle.std.specs.Prelude.{◌≡◌, false};

use lis_frame::{Frame, FrameOf, FramesOf, frame_bytes_of, put_frame, split_all_of, split_at};
use lis_link::{Note, ReceiverOf};
use lis_port::Slow;
use lis_text::{ENQ, check_text};
use std::alloc::Global;
use std::mem::drop;
use std::process::Abort;

/// The second frame of 241 letters A.
const SECOND: &[u8] = b"\x022A\x0376\r\n";

/// Fails where a sink isn't reported to have taken so much of the frame, or has taken another part.
fn assert_put(rt: &impl Abort, frame: &Frame, sink: Slow, put: Result<(), usize>)
    requires { sink.failed ≡ false }
{
    let mut sink = sink;
    assert!(rt; put_frame(&mut sink, frame) == put);
    let count = put.err().unwrap_or(SECOND.len());
    assert!(rt; Some(sink.took()) == SECOND.get(..count));
    drop(sink);
}

#[test]
fn a_frame_is_put_as_far_as_a_sink_takes_it(rt: HostRuntime) {
    let text = [0x41; 241];
    assert!(rt; check_text(&text).is_ok());
    let second = split_at(&text, 240, 2);
    for (room, put) in [
        (0, Err(0)),
        (1, Err(1)),
        (2, Err(2)),
        (5, Err(5)),
        (7, Err(7)),
        (8, Ok(())),
    ] {
        assert_put(&rt, &second, Slow::new(room, 1), put);
        assert_put(&rt, &second, Slow::new(room, 3), put);
        assert_put(&rt, &second, Slow::new(room, 131_072), put);
    }
}

/// Fails where a longer frame isn't so long or ends otherwise, or isn't taken as the one of this number.
fn assert_taken(
    rt: &impl Abort,
    receiver: &mut ReceiverOf<63_993>,
    frame: &FrameOf<63_993>,
    (length, end, number): (usize, &[u8], u8),
) {
    let bytes = frame_bytes_of::<63_993, 64_000>(frame);
    assert!(rt; (bytes.len(), bytes.as_slice().ends_with(end)) == (length, true));
    let heard = receiver.bytes(bytes.as_slice());
    assert!(rt; (heard.count, heard.step.note) == (length, Note::Accepted(number)));
}

/// The longer frames of so many letters A, from number 1.
fn frames_of_letters(rt: &impl Abort, alloc: Global, count: usize) -> FramesOf<63_993> {
    let text = vec![in alloc; 0x41; count].expect(rt, "memory");
    assert!(rt; check_text(text.as_slice()).is_ok());
    let frames = split_all_of(alloc, text.as_slice(), 1);
    drop(text);
    frames.expect(rt, "memory")
}

#[test]
fn the_longest_frame_is_made_and_taken_at_once(rt: HostRuntime) {
    let frames = frames_of_letters(&rt, rt.alloc(), 63_994);
    let [first, second] = frames.as_slice() else {
        panic!(rt; "not two frames");
    };
    let mut receiver = ReceiverOf::<63_993>::new(rt.alloc());
    // Its answer is what the receiver's own tests are about; here it opens the session.
    let _ = receiver.byte(ENQ);
    assert_taken(&rt, &mut receiver, first, (64_000, b"\x1781\r\n", 1));
    assert_taken(&rt, &mut receiver, second, (8, SECOND, 2));
    drop(frames);
    let reported = (receiver.accepted(), receiver.held());
    drop(receiver);
    assert!(rt; reported == (2, 0));
}
