//! Sessions over texts that stay where they are: no allocator is there. The frames are those that the worked rows of
//! senders have for these texts.

use lis_frame::frame_bytes;
use lis_link::{
    BorrowedTexts, BorrowingSender, EmitOf, Outcome, SessionTexts, StartFault, TextFault,
};
use lis_text::ACK;
use std::process::Abort;

/// Fails where the sender doesn't send a frame that begins and ends so.
fn assert_next(rt: &impl Abort, sender: &mut BorrowingSender<'_>, front: &[u8], end: &[u8]) {
    let EmitOf::Frame(frame) = sender.reply(ACK) else {
        panic!(rt; "no frame");
    };
    let bytes = frame_bytes(&frame);
    assert!(rt; bytes.as_slice().starts_with(front));
    assert!(rt; bytes.as_slice().ends_with(end));
}

#[test]
fn texts_are_sent_from_where_they_are(rt: HostRuntime) {
    let letters = [0x41; 241];
    let texts = [b"".as_slice(), letters.as_slice()];
    let borrowed = BorrowedTexts::new(&texts);
    let mut sender = BorrowingSender::new();
    assert!(rt; sender.start_fault(&borrowed).is_none());
    assert!(rt; sender.start(borrowed).is_ok());
    assert!(rt; sender.awaited().is_none());
    assert_sent(&rt, &mut sender);
}

/// Fails where the sender doesn't send an empty text and one of 241 letters A, and then the end.
fn assert_sent(rt: &impl Abort, sender: &mut BorrowingSender<'_>) {
    assert_next(rt, sender, b"\x021\x0334\r\n", b"\x021\x0334\r\n");
    assert_next(rt, sender, b"\x022AAAA", b"AAAA\x1739\r\n");
    assert_next(rt, sender, b"\x023A\x0377\r\n", b"\x023A\x0377\r\n");
    assert!(rt; matches!(sender.reply(ACK), EmitOf::Eot));
    assert!(rt; sender.acknowledged() == 3);
    assert!(rt; matches!(sender.outcome(), Some(Outcome::Done)));
}

#[test]
fn borrowed_texts_are_refused_as_others_are(rt: HostRuntime) {
    let texts = [b"A".as_slice(), b"B\x02".as_slice()];
    let fault = TextFault::Forbidden(1);
    let want = StartFault::BadText { index: 1, fault };
    let mut sender = BorrowingSender::new();
    let refused = sender
        .start(BorrowedTexts::new(&texts))
        .err()
        .expect(&rt, "no session");
    assert!(rt; refused.fault == want && refused.texts.count() == 2);
}
