//! What a receiver keeps for the texts that follow, and copies of a scanner.

use lis_frame::{Frame, Scanner, Signal, Text, frame_bytes};
use lis_link::{Note, Receiver};
use lis_text::LinkText;
use std::mem::drop;
use std::process::Abort;

/// An ENQ and an intermediate frame with the text `A`.
const BEGUN: [u8; 9] = *b"\x05\x021A\x1789\r\n";

/// Fails where a receiver isn't open with one byte held after these.
fn begin(rt: &impl Abort, receiver: &mut Receiver) {
    for byte in &BEGUN {
        drop(receiver.byte(*byte));
    }
    assert!(rt; receiver.is_open() && receiver.held() == 1);
}

#[test]
fn a_text_that_comes_back_leaves_what_is_held(rt: HostRuntime) {
    let mut receiver = Receiver::new(rt.alloc());
    begin(&rt, &mut receiver);
    let text = LinkText::from_slice(rt.alloc(), &[0x42; 100]);
    receiver.reuse(text.expect(&rt, "memory"));
    assert!(rt; receiver.held() == 1);
    drop(receiver);
}

#[test]
fn a_timer_is_reported_and_closes_the_line(rt: HostRuntime) {
    let mut receiver = Receiver::new(rt.alloc());
    begin(&rt, &mut receiver);
    assert!(rt; matches!(receiver.timer().note, Note::TimedOut));
    assert!(rt; !receiver.is_open() && receiver.held() == 0 && receiver.accepted() == 1);
    drop(receiver);
}

#[test]
fn a_copied_scanner_goes_on_with_its_frame(rt: HostRuntime) {
    let mut scanner = Scanner::new();
    for byte in b"\x021A\x03" {
        assert!(rt; scanner.push(*byte).is_none());
    }
    let mut copy = scanner.copy();
    for byte in b"75\r" {
        assert!(rt; copy.push(*byte).is_none());
    }
    assert!(rt; matches!(copy.push(b'\n'), Some(Signal::Good(_))));
}

#[test]
fn texts_of_frames_are_equal_by_their_bytes(rt: HostRuntime) {
    assert!(rt; Text::from_slice(b"AB") == Text::from_slice(b"AB"));
    assert!(rt; Text::from_slice(b"AB") != Text::from_slice(b"AC"));
}

#[test]
fn a_whole_frame_is_borrowed_at_once(rt: HostRuntime) {
    let text = Text::from_slice(&[0x41; 240]).ok().expect(&rt, "a text");
    let frame = Frame::new(1, true, text).expect(&rt, "a frame");
    let bytes = frame_bytes(&frame);
    let (count, borrowed) = Scanner::new().scan(bytes.as_slice());
    let frame = borrowed.expect(&rt, "a frame");
    assert!(rt; count == 247 && frame.is_last() && frame.text().len() == 240);
}
