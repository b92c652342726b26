//! The ports over memory at known values.

use lis_port::{Cut, Discard, InMemory, Sink, Slow, Source, Then, write_all};

#[test]
fn memory_is_read_to_its_end(rt: HostRuntime) {
    let mut buffer = [0; 2];
    let mut source = InMemory::new(b"abcd");
    assert!(rt; !source.ended());
    assert!(rt; source.read(&mut buffer) == Ok(2));
    assert!(rt; buffer.as_slice() == b"ab".as_slice());
    assert!(rt; source.read(&mut buffer) == Ok(2));
    assert!(rt; buffer.as_slice() == b"cd".as_slice());
    assert!(rt; !source.ended());
    assert!(rt; source.read(&mut buffer) == Ok(0));
    assert!(rt; source.ended() && source.made() == 3);
    assert!(rt; !InMemory::new(b"").ended());
}

#[test]
fn a_cut_source_gives_its_steps(rt: HostRuntime) {
    let mut buffer = [0; 4];
    let mut source = Cut::new(b"abc", 2, Then::End);
    assert!(rt; source.read(&mut buffer) == Ok(2));
    assert!(rt; source.read(&mut buffer) == Ok(1));
    assert!(rt; buffer.as_slice() == b"cb\0\0".as_slice());
    assert!(rt; !source.ended());
    assert!(rt; source.read(&mut buffer) == Ok(0));
    assert!(rt; source.ended() && source.made() == 3);
    assert!(rt; !Cut::new(b"", 1, Then::End).ended());
}

#[test]
fn a_cut_source_fails_or_repeats_a_byte_after_its_bytes(rt: HostRuntime) {
    let mut buffer = [0; 4];
    let mut source = Cut::new(b"a", 1, Then::Again(b'z'));
    assert!(rt; source.read(&mut buffer) == Ok(1));
    assert!(rt; source.read(&mut buffer) == Ok(1));
    assert!(rt; buffer.as_slice() == b"z\0\0\0".as_slice());
    let mut failing = Cut::new(b"", 1, Then::Fail);
    assert!(rt; failing.read(&mut buffer).is_err());
    assert!(rt; failing.failed());
}

#[test]
fn a_slow_sink_takes_its_room(rt: HostRuntime) {
    let mut sink = Slow::new(3, 2);
    assert!(rt; write_all(&mut sink, b"abcde") == Err(3));
    assert!(rt; sink.failed());
    assert!(rt; sink.took() == b"abc".as_slice());
}

#[test]
fn a_sink_that_discards_takes_all(rt: HostRuntime) {
    assert!(rt; Discard.write(b"abc") == Ok(3));
    assert!(rt; write_all(&mut Discard, b"abc").is_ok());
}
