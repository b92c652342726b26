//! What each fault of texts, frames and sessions says of itself.

use lis_frame::{FrameFault, LinkText, TextFault, TextRefused, Texts};
use lis_link::{Sender, StartFault};
use std::alloc::Global;
use std::fmt::Display;
use std::mem::drop;
use std::process::Abort;

/// Fails where a fault says something else of itself.
fn assert_says<T: Display>(rt: &impl Abort, alloc: Global, fault: &T, want: &str) {
    let reported = format!(in alloc; "{fault}").expect(rt, "memory");
    assert!(rt; reported.as_str() == want);
    drop(reported);
}

#[test]
fn faults_of_texts_say_what_is_wrong(rt: HostRuntime) {
    let alloc = rt.alloc();
    assert_says(&rt, alloc, &TextFault::TooLong, "the text is too long");
    let forbidden = "the byte at place 3 may not be in a text";
    assert_says(&rt, alloc, &TextFault::Forbidden(3), forbidden);
}

#[test]
fn faults_of_starts_say_what_is_wrong(rt: HostRuntime) {
    let alloc = rt.alloc();
    assert_says(&rt, alloc, &StartFault::InSession, "a session is going on");
    assert_says(&rt, alloc, &StartFault::NoText, "there is no text to send");
    let fault = TextFault::TooLong;
    let want = "the text at place 2 can't be sent: the text is too long";
    assert_says(&rt, alloc, &StartFault::BadText { index: 2, fault }, want);
}

#[test]
fn faults_of_frames_say_what_is_wrong(rt: HostRuntime) {
    let alloc = rt.alloc();
    let long = "the frame is longer than its limit [F1]";
    assert_says(&rt, alloc, &FrameFault::TooLong, long);
    let shape = "the frame has not the shape of one [F2]";
    assert_says(&rt, alloc, &FrameFault::Shape, shape);
    let number = "the frame's number is no digit from 0 to 7 [F3]";
    assert_says(&rt, alloc, &FrameFault::Number, number);
    let text = "the byte at place 5 of the frame's text may not be in a text [F4]";
    assert_says(&rt, alloc, &FrameFault::Text(5), text);
    let sum = "the checksum is not that of the frame [F5]";
    assert_says(&rt, alloc, &FrameFault::Sum, sum);
}

#[test]
fn texts_that_come_back_say_why(rt: HostRuntime) {
    let alloc = rt.alloc();
    let full = TextRefused::Full(LinkText::new(alloc));
    assert_says(&rt, alloc, &full, "a session has 65536 texts at most");
    drop(full);
    let starved = TextRefused::OutOfMemory(LinkText::new(alloc));
    assert_says(&rt, alloc, &starved, "memory ran out");
    drop(starved);
}

#[test]
fn texts_that_are_not_sent_say_why(rt: HostRuntime) {
    let alloc = rt.alloc();
    let started = Sender::new().start(Texts::new(alloc));
    let refused = started.err().expect(&rt, "no session without a text");
    assert_says(&rt, alloc, &refused, "there is no text to send");
    drop(refused);
}
