//! What each fault of records and messages says of itself.

use lis_message::{MessageFault, MessageWriteFault, Reason};
use lis_message_texts::TextsFault;
use lis_record::{DelimiterPartFault, RecordFault, WriteFault};
use lis_record_values::{DelimiterFault, Kind};
use std::alloc::Global;
use std::fmt::Display;
use std::mem::drop;
use std::process::Abort;

#[test]
fn faults_of_delimiters_say_what_is_wrong(rt: HostRuntime) {
    let alloc = rt.alloc();
    let plain = DelimiterPartFault::Fault(DelimiterFault::NotPunctuation(1));
    assert_says(
        &rt,
        alloc,
        &plain,
        "the delimiter at place 1 is no punctuation",
    );
    let short = "fewer than four delimiters follow the letter";
    assert_says(&rt, alloc, &DelimiterPartFault::Short, short);
    let trailing = "byte 65 follows the delimiters in place of the field delimiter";
    assert_says(&rt, alloc, &DelimiterPartFault::Trailing(65), trailing);
    let repeated = DelimiterPartFault::Fault(DelimiterFault::Repeated(2));
    let want =
        "the header's delimiters are wrong: the delimiter at place 2 is at an earlier one too [G1 C3]";
    assert_says(&rt, alloc, &RecordFault::DelimiterPart(repeated), want);
}

#[test]
fn faults_of_records_say_what_is_wrong(rt: HostRuntime) {
    let alloc = rt.alloc();
    assert_says(
        &rt,
        alloc,
        &RecordFault::Empty,
        "the record is empty [G1 C1]",
    );
    let kind = "byte 88 is where the record's letter or its field delimiter is due [G1 C2]";
    assert_says(&rt, alloc, &RecordFault::UnknownKind(88), kind);
    let byte = "the byte at place 7 may not be in a record [G1 C4]";
    assert_says(&rt, alloc, &RecordFault::Byte(7), byte);
    let long = "the record has more than 65536 bytes";
    assert_says(&rt, alloc, &RecordFault::TooLong, long);
    assert_says(&rt, alloc, &RecordFault::OutOfMemory, "memory ran out");
}

#[test]
fn reasons_say_what_is_wrong(rt: HostRuntime) {
    let alloc = rt.alloc();
    let record = Reason::BadRecord(RecordFault::Empty);
    assert_says(&rt, alloc, &record, "the record is empty [G1 C1]");
    let header = "it is outside a message and is no header [G2]";
    assert_says(&rt, alloc, &Reason::NotHeader, header);
    let parent = "no record that it belongs to is above this R record [G3]";
    assert_says(&rt, alloc, &Reason::NoParent(Kind::R), parent);
    let second = "a header is inside a message or after its end [G4]";
    assert_says(&rt, alloc, &Reason::SecondHeader, second);
    let long = "the record has more than 65536 bytes without CR [G6]";
    assert_says(&rt, alloc, &Reason::RecordTooLong, long);
    assert_says(&rt, alloc, &Reason::OutOfMemory, "memory ran out");
}

#[test]
fn faults_of_messages_say_what_is_wrong(rt: HostRuntime) {
    let alloc = rt.alloc();
    let unfinished = MessageFault {
        place: 3,
        reason: Reason::Unfinished,
    };
    let want = "record 3: the end came before the message's closing record [G5]";
    assert_says(&rt, alloc, &unfinished, want);
    let fault = WriteFault::CharNotText(4);
    let want = "record 2: field 4 holds a character that is no text byte";
    assert_says(&rt, alloc, &MessageWriteFault { place: 2, fault }, want);
    assert_says(&rt, alloc, &TextsFault::BadRecord { place: 2, fault }, want);
}

#[test]
fn faults_of_writing_say_what_is_wrong(rt: HostRuntime) {
    let alloc = rt.alloc();
    let long = "the record would have more than 65536 bytes";
    assert_says(&rt, alloc, &WriteFault::TooLong, long);
    assert_says(
        &rt,
        alloc,
        &WriteFault::Io(12),
        "the sink failed after 12 bytes",
    );
    let many = "the message has more than 65536 records";
    assert_says(&rt, alloc, &TextsFault::TooMany, many);
    assert_says(&rt, alloc, &TextsFault::OutOfMemory, "memory ran out");
}

/// Fails where a fault says something else of itself.
fn assert_says<T: Display>(rt: &impl Abort, alloc: Global, fault: &T, want: &str) {
    let reported = format!(in alloc; "{fault}").expect(rt, "memory");
    assert!(rt; reported.as_str() == want);
    drop(reported);
}

#[test]
fn a_message_goes_on_where_its_sink_failed(rt: HostRuntime) {
    let goes_on = |place, fault| MessageWriteFault { place, fault }.resume();
    assert!(rt; goes_on(3, WriteFault::Io(7)) == Some((3, 7)));
    // Also if nothing of the record is out.
    assert!(rt; goes_on(1, WriteFault::Io(0)) == Some((1, 0)));
    assert!(rt; goes_on(u64::MAX, WriteFault::Io(7)).is_none());
    assert!(rt; goes_on(3, WriteFault::CharNotText(4)).is_none());
}
