//! What no contract and no conformance row says: messages of very many records, a message's results, its copy, and what
//! follows a query.

use lis_message::{Message, MessageReader, PlacedResult, read_messages};
use lis_message_texts::{TextsFault, message_texts};
use lis_record::Kind;
use lis_tree::Position;
use std::alloc::Global;
use std::mem::drop;
use std::process::Abort;

/// How many texts a message of a header, so many comments and a terminator has.
fn text_count(rt: &impl Abort, alloc: Global, comments: u32) -> Result<usize, TextsFault> {
    let mut reader = MessageReader::new(alloc);
    drop(reader.feed(b"H|\\^&\r"));
    for _ in 0..comments {
        drop(reader.feed(b"C"));
        drop(reader.feed(b"\r"));
    }
    let fed = reader.feed(b"L\r");
    let count = text_count_of(rt, alloc, fed.messages.get(0), comments as u64 + 2);
    drop(fed);
    assert!(rt; reader.finish().is_ok());
    count
}

/// How many texts a message has. Fails where there is none of so many records.
fn text_count_of(
    rt: &impl Abort,
    alloc: Global,
    message: Option<&Message>,
    records: u64,
) -> Result<usize, TextsFault> {
    let message = message.expect(rt, "a message");
    assert!(rt; message.len() == records);
    let texts = message_texts(alloc, message)?;
    let count = texts.len();
    drop(texts);
    Ok(count)
}

#[test]
fn too_many_records_have_no_texts(rt: HostRuntime) {
    assert!(rt; text_count(&rt, rt.alloc(), 65_535) == Err(TextsFault::TooMany));
}

#[test]
fn as_many_records_as_there_may_be_texts_have_texts(rt: HostRuntime) {
    assert!(rt; text_count(&rt, rt.alloc(), 65_534) == Ok(65_536));
}

/// Two patients, the first with two orders, and notes and a query between. Each patient, each order and each result
/// has a number of fields of its own.
const PANEL: &[u8] =
    b"H|\\^&\rP|1\rO|1|S7\rR|1|GLU|5.4\rC|1|I|high\rR|2|NA|139|mmol/L\rO|2|S8|s\rR|1|GLU|4.8|u|r\r\
    P|2|p\rC|1\rO|1|S9|s|t\rR|1|K|5.6|u|r|N\rQ|1|S7\rL|1\r";

/// Fails where a result has another number of fields, or its patient or its order has.
fn assert_result(rt: &impl Abort, found: Option<PlacedResult<'_>>, want: (usize, usize, usize)) {
    let found = found.expect(rt, "a result");
    let (patient, order) = (found.patient.head().len(), found.order.head().len());
    assert!(rt; (patient, order, found.entry.head().len()) == want);
}

/// Fails where a message hasn't the results of the panel.
fn assert_results(rt: &impl Abort, message: Option<&Message>) {
    let mut results = message.expect(rt, "a message").results();
    for want in &[(1, 2, 3), (1, 2, 4), (1, 3, 5), (2, 4, 6)] {
        assert_result(rt, results.next(), *want);
    }
    assert!(rt; results.next().is_none());
}

#[test]
fn results_come_with_their_orders_and_patients(rt: HostRuntime) {
    let fed = read_messages(rt.alloc(), PANEL);
    assert_results(&rt, fed.messages.get(0));
    drop(fed);
}

/// Fails where a message has no copy, or another one.
fn assert_copied(rt: &impl Abort, alloc: Global, message: Option<&Message>) {
    let message = message.expect(rt, "a message");
    let copy = message.copy(alloc).expect(rt, "a copy");
    let reported = (copy.len(), copy == *message);
    drop(copy);
    assert!(rt; reported == (14, true));
}

#[test]
fn a_copied_message_is_the_same(rt: HostRuntime) {
    let fed = read_messages(rt.alloc(), PANEL);
    assert_copied(&rt, rt.alloc(), fed.messages.get(0));
    drop(fed);
}

#[test]
fn what_follows_a_query_is_under_it(rt: HostRuntime) {
    assert!(rt; Position::InHeader.after(Kind::Q) == Some(Position::InQuery));
}
