//! What no contract and no conformance row says: that records of a stream which is split anywhere are all delivered,
//! and nothing of one that is rejected.

use lis_message::{BorrowedRecord, RecordFound, RecordReader};
use std::alloc::Global;
use std::mem::drop;
use std::process::Abort;

const STREAM: &[u8] =
    b"H|\\^&|||Analyzer\rP|1\rO|1|S7\rR|1|^^^GLU|5.4\rL|1|N\rH;!:%;a\rp;1;x!y\rL;1;N\r";

const HEADER: &[u8] = b"H|\\^&";

/// What is written down of its records: the letter of each, the number of its fields and its field 3.
const WRITTEN: &[u8] = b"H3P1O2S7R3^^^GLUL2NH1aP2x!yL2N";

fn write_down(rt: &impl Abort, written: &mut Vec<u8>, entry: &BorrowedRecord<'_>) {
    let front = [entry.kind().letter(), b'0' + entry.len().min(9) as u8];
    assert!(rt; written.extend_from_slice(&front).is_ok());
    if let Some(field) = entry.field(3) {
        assert!(rt; field.add_to(written).is_ok());
    }
}

/// Reads a piece to its end.
fn read_piece(rt: &impl Abort, reader: &mut RecordReader, piece: &[u8], written: &mut Vec<u8>) {
    let mut rest = piece;
    for _turn in 0..=piece.len() {
        let (following, found) = reader.read(rest);
        match found {
            RecordFound::Nothing => return,
            RecordFound::Record(entry) => write_down(rt, written, &entry),
            RecordFound::Held => write_split(rt, written, reader.split()),
            RecordFound::Refused(_) => panic!(rt; "a record is rejected"),
        }
        rest = following;
    }
}

/// Writes down a record that was split.
fn write_split(rt: &impl Abort, written: &mut Vec<u8>, entry: Option<BorrowedRecord<'_>>) {
    write_down(rt, written, &entry.expect(rt, "a record that was split"));
}

/// Fails where the stream gives other records when it is split at a place.
fn assert_split(rt: &impl Abort, alloc: Global, place: usize) {
    let (front, following) = STREAM.split_at(place.min(STREAM.len()));
    let mut reader = RecordReader::new(alloc);
    let mut written = Vec::new(alloc);
    read_piece(rt, &mut reader, front, &mut written);
    read_piece(rt, &mut reader, following, &mut written);
    assert!(rt; reader.finish().is_ok());
    drop(reader);
    assert!(rt; written.as_slice() == WRITTEN);
    drop(written);
}

#[test]
fn a_stream_split_anywhere_gives_its_records(rt: HostRuntime) {
    for place in 0..=STREAM.len() {
        assert_split(&rt, rt.alloc(), place);
    }
}

#[test]
fn a_record_that_is_refused_is_not_borrowed(rt: HostRuntime) {
    let mut reader = RecordReader::new(rt.alloc());
    assert!(rt; matches!(reader.read(b"P|"), (_, RecordFound::Nothing)));
    assert!(rt; matches!(reader.read(b"1\r"), (_, RecordFound::Refused(_))));
    assert!(rt; reader.split().is_none() && reader.held() == 0);
    // Nothing is read on.
    assert!(rt; reader.read_whole(b"H|\\^&\r").is_none());
    assert!(rt; matches!(reader.read(b"H|\\^&\r"), (_, RecordFound::Refused(_))));
    drop(reader);
}

#[test]
fn bytes_of_a_record_that_is_borrowed_are_not_held(rt: HostRuntime) {
    let mut reader = RecordReader::new(rt.alloc());
    assert!(rt; matches!(reader.read(HEADER), (_, RecordFound::Nothing)));
    assert!(rt; reader.held() == 5 && reader.split_text().is_empty());
    assert!(rt; matches!(reader.read(b"\r"), (_, RecordFound::Held)));
    assert!(rt; reader.held() == 0 && reader.split_text() == HEADER);
    drop(reader);
}
