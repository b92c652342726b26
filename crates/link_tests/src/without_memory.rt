//! Calls that take no memory, on values that have an allocator. The tests are a pair: one makes the values, the
//! other makes the calls on them too. `tests/faults` counts the growths of memory of both, those of memory that is
//! released at once among them: they must be as many.

use lis_link::{Outcome, Readiness, Receiver, Sender, Step};
use lis_text::{ACK, ENQ, EOT, LinkText, NAK, Texts};
use std::alloc::Global;
use std::mem::drop;
use std::process::Abort;

/// An intermediate frame of the text A, and a last one of the text B.
const FIRST: &[u8] = b"\x021A\x1789\r\n";

const SECOND: &[u8] = b"\x022B\x0377\r\n";

/// A receiver hears bytes, and the last text that it delivers of them.
fn heard(receiver: &mut Receiver, bytes: &[u8]) -> Option<LinkText> {
    let mut delivered = None;
    for byte in bytes {
        let Step {
            reply: _,
            message,
            note: _,
        } = receiver.byte(*byte);
        if message.is_some() {
            delivered = message;
        }
    }
    delivered
}

/// All calls of a receiver that holds the text of one frame, but those that accept another.
fn ask_receiver(rt: &impl Abort, receiver: &mut Receiver) {
    receiver.set_room(false);
    for bytes in [FIRST, SECOND, b"noise \x021\x03\n".as_slice()] {
        assert!(rt; heard(receiver, bytes).is_none());
    }
    assert!(rt; receiver.is_open() && receiver.accepted() == 1 && receiver.held() == 1);
    assert!(rt; receiver.reserve(0).is_ok());
    receiver.timer();
    receiver.set_ready(Readiness::Contending);
    assert!(rt; heard(receiver, &[ENQ, ENQ, EOT]).is_none());
    receiver.restart();
}

fn a_receiver(rt: &impl Abort, alloc: Global, asked: bool) {
    let mut receiver = Receiver::new(alloc);
    assert!(rt; heard(&mut receiver, &[ENQ]).is_none());
    assert!(rt; heard(&mut receiver, FIRST).is_none());
    let text = heard(&mut receiver, SECOND).expect(rt, "a text");
    assert!(rt; heard(&mut receiver, &[ENQ]).is_none());
    assert!(rt; heard(&mut receiver, FIRST).is_none());
    if asked {
        ask_receiver(rt, &mut receiver);
        receiver.reuse(text);
    } else {
        drop(text);
    }
    drop(receiver);
}

/// A session of two texts, from its start to its end.
fn ask_sender(rt: &impl Abort, texts: Texts) {
    let mut sender = Sender::new();
    assert!(rt; sender.start_fault(&texts).is_none());
    assert!(rt; sender.start(texts).is_ok());
    sender.reply(NAK);
    sender.timer();
    for byte in [ACK, NAK, ACK, ACK] {
        sender.reply(byte);
    }
    assert!(rt; sender.outcome() == Some(Outcome::Done) && sender.acknowledged() == 2);
    sender.restart();
    drop(sender);
}

fn a_sender(rt: &impl Abort, alloc: Global, asked: bool) {
    let texts = [b"A".as_slice(), b"B".as_slice()];
    let texts = Texts::from_slices(alloc, &texts).expect(rt, "memory");
    if asked {
        ask_sender(rt, texts);
    } else {
        drop(texts);
    }
}

/// Makes all of these values, and the calls on them and new values where they are asked.
fn all_values(rt: &impl Abort, alloc: Global, asked: bool) {
    a_receiver(rt, alloc, asked);
    a_sender(rt, alloc, asked);
    if asked {
        drop(LinkText::new(alloc));
        drop(Texts::new(alloc));
        drop(Receiver::new(alloc));
    }
}

#[test]
fn all_values_given(rt: HostRuntime) {
    all_values(&rt, rt.alloc(), false);
}

#[test]
fn all_values_asked(rt: HostRuntime) {
    all_values(&rt, rt.alloc(), true);
}
