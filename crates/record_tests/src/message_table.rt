//! What no contract says: the table of a message that was worked by hand, and one table that is read again and again,
//! from other texts too.

use lis_message_table::{LisPart, Message, MessageFault, MessageTable, Reason, ResultIndexes};
use std::alloc::Global;
use std::mem::drop;
use std::process::Abort;

/// Two patients, notes on most records, and a query.
const PANEL: &[u8] =
    b"H|\\^&\rC|1\rP|1\rO|1|S7\rR|1|^^^GLU|5.4\rC|1|I|high\rM|1\rR|2|NA|139\rP|2|p\rC|1\rO|1|S9\rR|1|K\rQ|1|S7\rL|1\r";

/// The index of the record above each.
const PARENTS: [usize; 14] = [0, 0, 0, 2, 3, 4, 4, 3, 0, 8, 8, 10, 0, 0];

const SHORT: &[u8] = b"H|\\^&\rL|2\r";

const NO_PART: LisPart = LisPart {
    offset: 0,
    len: 0,
    field: 0,
    repeat: 0,
    component: 0,
    flags: 0,
};

#[test]
fn records_are_under_those_they_belong_to(rt: HostRuntime) {
    let mut table = MessageTable::new(rt.alloc());
    assert!(rt; table.read(PANEL) == Ok(Some(b"")));
    assert!(rt; table.places().len() == 14 && table.bytes() == PANEL);
    for (place, parent) in table.places().iter().zip(PARENTS) {
        assert!(rt; place.parent == parent);
    }
    assert!(rt; table.text(4) == Some(b"R|1|^^^GLU|5.4") && table.text(14).is_none());
    drop(table);
}

#[test]
fn a_result_has_its_order_and_its_patient(rt: HostRuntime) {
    let mut table = MessageTable::new(rt.alloc());
    assert!(rt; table.read(PANEL).is_ok());
    assert!(rt;
        table.result(11)
            == Some(ResultIndexes {
                patient: 8,
                order: 10,
                entry: 11
            })
    );
    assert!(rt; table.result(3).is_none() && table.result(14).is_none());
    drop(table);
}

#[test]
fn the_components_of_a_record_are_found(rt: HostRuntime) {
    let mut table = MessageTable::new(rt.alloc());
    let mut parts = [NO_PART; 6];
    assert!(rt; table.read(PANEL).is_ok());
    assert!(rt;
        table.put_parts(4, &mut parts) == Some(6) && table.put_parts(14, &mut parts).is_none()
    );
    assert!(rt;
        (
            parts[4].offset,
            parts[4].len,
            parts[4].field,
            parts[4].component
        ) == (7, 3, 3, 3)
    );
    let entry = table.record(4).expect(&rt, "a record");
    assert!(rt; entry.len() == 3 && table.record(14).is_none());
    drop(table);
}

/// Fails where the table has no tree of so many records.
fn assert_tree(rt: &impl Abort, alloc: Global, table: &MessageTable<'_>, count: u64) {
    let made: Option<Message> = table.to_message(alloc).expect(rt, "memory");
    let made = made.expect(rt, "a message");
    assert!(rt; made.len() == count);
    drop(made);
}

#[test]
fn a_table_is_that_of_the_message_that_was_read_last(rt: HostRuntime) {
    let mut table = MessageTable::new(rt.alloc());
    assert!(rt; table.read(PANEL).is_ok());
    assert_tree(&rt, rt.alloc(), &table, 14);
    assert!(rt; table.read(SHORT) == Ok(Some(b"")));
    assert_tree(&rt, rt.alloc(), &table, 2);
    let found = table.findings(rt.alloc()).expect(&rt, "memory");
    assert!(rt; found.len() == 1);
    drop(found);
    assert!(rt; table.read(b"") == Ok(None) && table.places().is_empty());
    assert!(rt; table.to_message(rt.alloc()) == Ok(None));
    drop(table);
}

/// Whether reading a text ends with this fault, and leaves no message.
fn is_refused<'a>(
    table: &mut MessageTable<'a>,
    text: &'a [u8],
    place: u64,
    reason: Reason,
) -> bool {
    let result = table.read(text);
    result == Err(MessageFault { place, reason }) && table.places().is_empty()
}

#[test]
fn a_text_without_a_message_is_refused(rt: HostRuntime) {
    let mut table = MessageTable::new(rt.alloc());
    assert!(rt; table.read(PANEL).is_ok());
    assert!(rt; is_refused(&mut table, b"H|\\^&\rP|1\r", 3, Reason::Unfinished));
    assert!(rt; is_refused(&mut table, b"H|\\^&\rP|1", 2, Reason::Unfinished));
    assert!(rt; is_refused(&mut table, b"P|1\r", 1, Reason::NotHeader));
    assert!(rt;
        is_refused(
            &mut table,
            b"H|\\^&\rP|1\rH|\\^&\r",
            3,
            Reason::SecondHeader
        )
    );
    drop(table);
}

#[test]
fn a_table_is_read_from_other_texts(rt: HostRuntime) {
    let mut text = Vec::from_slice(rt.alloc(), SHORT).expect(&rt, "memory");
    let mut table = MessageTable::new(rt.alloc());
    assert!(rt; table.reserve(2).is_ok() && table.read(text.as_slice()).is_ok());
    let mut table = table.cleared();
    text.clear();
    assert!(rt; table.places().is_empty() && table.read(PANEL).is_ok());
    drop(table);
    drop(text);
}
