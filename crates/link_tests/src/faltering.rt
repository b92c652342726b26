//! What no contract of a port over a reader or a writer says: it fails where that one does, and no call is made again.
//! Most are over one that fails at one call and works again after it, where a call that was made again would be seen
//! to succeed.

use lis_port::{Buffered, Faltering, Once, ReadAhead, Reading, Sink, Source, Writing, read_sent};
use std::io::{BufReader, BufWriter, ErrorKind, Read, Result, Write};

/// Whether a call failed so.
fn has_failed<T>(answer: &Result<T>, kind: ErrorKind) -> bool {
    match answer {
        Ok(_) => false,
        Err(error) => error.kind() == kind,
    }
}

#[test]
fn a_faltering_reader_fails_at_one_read(rt: HostRuntime) {
    let mut buffer = [0; 2];
    let mut reader = Faltering::new(b"abc".as_slice(), 1, ErrorKind::TimedOut);
    assert!(rt; matches!(reader.read(&mut buffer), Ok(2)));
    assert!(rt; buffer.as_slice() == b"ab".as_slice());
    assert!(rt; has_failed(&reader.read(&mut buffer), ErrorKind::TimedOut));
    assert!(rt; matches!(reader.read(&mut buffer), Ok(1)));
    assert!(rt; buffer.as_slice() == b"cb".as_slice());
    assert!(rt; matches!(reader.read(&mut buffer), Ok(0)));
    assert!(rt; reader.calls() == 4);
}

#[test]
fn a_faltering_writer_fails_at_one_call(rt: HostRuntime) {
    let mut room = [0; 4];
    let mut writer = Faltering::new(room.as_mut_slice(), 0, ErrorKind::BrokenPipe);
    assert!(rt; has_failed(&writer.write(b"ab"), ErrorKind::BrokenPipe));
    assert!(rt; matches!(writer.write(b"cd"), Ok(2)));
    assert!(rt; writer.flush().is_ok());
    assert!(rt; writer.calls() == 3);
    assert!(rt; room.as_slice() == b"cd\0\0".as_slice());
}

#[test]
fn a_faltering_writer_fails_at_a_flush(rt: HostRuntime) {
    let mut room = [0; 4];
    let mut writer = Faltering::new(room.as_mut_slice(), 1, ErrorKind::BrokenPipe);
    assert!(rt; matches!(writer.write(b"ab"), Ok(2)));
    assert!(rt; writer.flush().is_err());
    assert!(rt; matches!(writer.write(b"cd"), Ok(2)));
    assert!(rt; writer.calls() == 3);
    assert!(rt; room.as_slice() == b"abcd".as_slice());
}

/// How a writer fails, each with the kind that `Once` reports.
const REPORTED: [(ErrorKind, ErrorKind); 2] = [
    (ErrorKind::Interrupted, ErrorKind::Other),
    (ErrorKind::BrokenPipe, ErrorKind::BrokenPipe),
];

#[test]
fn a_write_that_fails_is_reported_once(rt: HostRuntime) {
    for (kind, reported) in &REPORTED {
        let mut room = [0; 4];
        let mut writer = Once::new(Faltering::new(room.as_mut_slice(), 0, *kind));
        assert!(rt; has_failed(&writer.write(b"ab"), *reported));
        assert!(rt; matches!(writer.write(b"cd"), Ok(2)));
        assert!(rt; matches!(writer.write(b"efg"), Ok(2)));
        assert!(rt; room.as_slice() == b"cdef".as_slice());
    }
}

#[test]
fn a_write_that_takes_nothing_is_reported_as_an_error(rt: HostRuntime) {
    let mut room = [0; 1];
    let mut writer = Once::new(room.as_mut_slice());
    assert!(rt; matches!(writer.write(b"ab"), Ok(1)));
    assert!(rt; matches!(writer.write(b""), Ok(0)));
    assert!(rt; has_failed(&writer.write(b"b"), ErrorKind::WriteZero));
}

#[test]
fn a_flush_that_fails_is_reported_once(rt: HostRuntime) {
    for (kind, reported) in &REPORTED {
        let mut room = [0; 4];
        let mut writer = Once::new(Faltering::new(room.as_mut_slice(), 1, *kind));
        assert!(rt; matches!(writer.write(b"ab"), Ok(2)));
        assert!(rt; has_failed(&writer.flush(), *reported));
        assert!(rt; writer.flush().is_ok());
    }
}

#[test]
fn a_buffered_sink_fails_with_its_flush(rt: HostRuntime) {
    // The first call of the writer is the write that a flush begins with, the second its flush.
    for before in 0..2u32 {
        let mut room = [0; 4];
        let faltering = Faltering::new(room.as_mut_slice(), before, ErrorKind::Interrupted);
        let writer = BufWriter::with_capacity(rt.alloc(), 8, Once::new(faltering));
        let mut sink = Buffered::new(writer.expect(&rt, "memory"));
        assert!(rt; !sink.failed());
        assert!(rt; sink.write(b"abc") == Ok(3));
        assert!(rt; !sink.failed());
        assert!(rt; sink.flush().is_err());
        assert!(rt; sink.failed());
    }
}

#[test]
fn a_sink_fails_where_its_writer_takes_nothing(rt: HostRuntime) {
    let mut none = [0; 0];
    let writer = BufWriter::with_capacity(rt.alloc(), 2, none.as_mut_slice());
    let mut buffered = Buffered::new(writer.expect(&rt, "memory"));
    assert!(rt; buffered.write(b"abc").is_err());
    assert!(rt; buffered.failed());
    let mut empty = [0; 0];
    let mut sink = Writing::new(empty.as_mut_slice());
    assert!(rt; sink.write(b"abc").is_err());
    assert!(rt; sink.failed());
}

#[test]
fn a_sink_reports_whether_its_flush_failed(rt: HostRuntime) {
    let mut room = [0; 4];
    let writer = Faltering::new(room.as_mut_slice(), 1, ErrorKind::BrokenPipe);
    let mut sink = Writing::new(writer);
    assert!(rt; sink.flush().is_ok() && !sink.failed());
    assert!(rt; sink.flush().is_err() && sink.failed());
    assert!(rt; sink.into_inner().calls() == 2);
}

#[test]
fn an_interrupted_write_is_not_made_again(rt: HostRuntime) {
    let mut sink = Writing::new(Faltering::new(Vec::new(rt.alloc()), 1, ErrorKind::Interrupted));
    assert!(rt; sink.write(b"abc") == Ok(3));
    assert!(rt; sink.write(b"def").is_err());
    assert!(rt; sink.into_inner().calls() == 2);
}

#[test]
fn a_buffered_sink_sends_at_a_flush(rt: HostRuntime) {
    let writer = BufWriter::with_capacity(rt.alloc(), 8, Vec::new(rt.alloc()));
    let mut sink = Buffered::new(writer.expect(&rt, "memory"));
    assert!(rt; sink.write(b"abc") == Ok(3));
    assert!(rt; sink.flush().is_ok());
    assert!(rt; sink.into_inner().get_ref().as_slice() == b"abc".as_slice());
}

#[test]
fn a_source_that_reads_ahead_reads_once(rt: HostRuntime) {
    let mut buffer = [0; 8];
    let faltering = Faltering::new(b"abc".as_slice(), 1, ErrorKind::Interrupted);
    let reader = BufReader::with_capacity(rt.alloc(), 4, faltering);
    let mut source = ReadAhead::new(reader.expect(&rt, "memory"));
    assert!(rt; source.may_wait() && !source.failed() && !source.ended());
    assert!(rt; source.read(&mut buffer) == Ok(3));
    assert!(rt; source.may_wait() && !source.ended());
    assert!(rt; source.read(&mut buffer).is_err());
    assert!(rt; source.failed() && !source.ended());
    assert!(rt; source.made() == 2);
    assert!(rt; source.into_inner().get_ref().calls() == 2);
}

#[test]
fn a_source_that_reads_ahead_reports_its_end(rt: HostRuntime) {
    let mut buffer = [0; 2];
    let reader = BufReader::with_capacity(rt.alloc(), 4, b"abc".as_slice());
    let mut source = ReadAhead::new(reader.expect(&rt, "memory"));
    assert!(rt; source.read(&mut buffer) == Ok(2));
    assert!(rt; buffer.as_slice() == b"ab".as_slice());
    assert!(rt; source.read(&mut buffer) == Ok(1));
    assert!(rt; buffer.as_slice() == b"cb".as_slice());
    assert!(rt; source.read(&mut buffer) == Ok(0));
    assert!(rt; source.ended() && !source.failed());
    assert!(rt; source.made() == 3);
}

#[test]
fn all_that_was_read_ahead_is_given(rt: HostRuntime) {
    let mut buffer = [0; 2];
    let reader = BufReader::with_capacity(rt.alloc(), 4, b"abcd".as_slice());
    let mut source = ReadAhead::new(reader.expect(&rt, "memory"));
    assert!(rt; source.read(&mut buffer[..1]) == Ok(1));
    assert!(rt; !source.may_wait());
    assert!(rt; source.read(&mut buffer) == Ok(2));
    assert!(rt; buffer.as_slice() == b"bc".as_slice());
    assert!(rt; source.into_inner().buffer() == b"d".as_slice());
}

#[test]
fn a_read_after_what_was_sent_is_made_once(rt: HostRuntime) {
    let mut buffer = [0; 4];
    let mut room = [0; 4];
    let sink = Writing::new(room.as_mut_slice());
    let faltering = Faltering::new(b"abc".as_slice(), 0, ErrorKind::Interrupted);
    let mut source = Reading::new(faltering);
    assert!(rt; read_sent(&mut source, &sink, &mut buffer).is_err());
    assert!(rt; source.failed() && source.made() == 1);
    assert!(rt; source.into_inner().calls() == 1);
}
