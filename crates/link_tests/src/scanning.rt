ghost use Rattle.std.specs.Prelude.{◌≤◌, length};
ghost use Rattle.lis_frame.specs.Limit.{IsLimit};

use lis_frame::{FrameFault, Heard, ScannerOf};
use std::process::Abort;

/// What an observer counts: the signals and the bytes of good frames' texts, next to the last fault.
type Count = (usize, usize, Option<FrameFault>);

/// The count after one signal more.
fn counted(count: Count, heard: &Heard<'_>) -> Count {
    let (signals, bytes, fault) = count;
    let signals = signals.saturating_add(1);
    match heard {
        Heard::Enq | Heard::Eot => (signals, bytes, fault),
        Heard::Good(frame) => (signals, bytes.saturating_add(frame.text().len()), fault),
        Heard::Bad(fault) => (signals, bytes, Some(*fault)),
    }
}

/// The count after bytes that are scanned in one piece.
fn scanned<const N: usize>(scanner: &mut ScannerOf<N>, bytes: &[u8], before: Count) -> Count {
    let mut count = before;
    let mut rest = bytes;
    // Each turn reads a byte at least.
    for _turn in 0..bytes.len() {
        let Some((byte, following)) = rest.split_first() else {
            break;
        };
        let (read, frame) = scanner.scan(rest);
        if let Some(frame) = frame {
            count = counted(count, &Heard::Good(frame));
        }
        if read > 0 {
            let (_, left) = rest.split_at(read);
            rest = left;
            continue;
        }
        if let Some(heard) = scanner.peek(*byte) {
            count = counted(count, &heard);
        }
        scanner.take(*byte);
        rest = following;
    }
    count
}

/// Fails where a new scanner reports otherwise of a stream, somewhere that it is split in two.
fn assert_cut<const N: usize>(rt: &impl Abort, stream: &[u8], want: Count)
    requires { IsLimit N }
{
    for place in 0..stream.len() {
        let (front, following) = stream.split_at(place);
        let mut scanner = ScannerOf::<N>::new();
        let count = scanned(&mut scanner, front, (0, 0, None));
        assert!(rt; scanned(&mut scanner, following, count) == want);
    }
}

/// A frame of 241 letters A, the last of its message, with number 1.
fn frame_of_241() -> [u8; 248] {
    let mut bytes = [0x41; 248];
    bytes[0] = 2;
    bytes[1] = b'1';
    bytes[243] = 3;
    bytes[244] = b'6';
    bytes[245] = b'5';
    bytes[246] = 13;
    bytes[247] = 10;
    bytes
}

#[test]
fn scanning_pieces_reports_what_the_stream_reports(rt: HostRuntime) {
    let session = b"\x05noise\x02torn\x02\n\x021H|\\^&\r\x03e5\r\n";
    let reported = (3, 6, Some(FrameFault::Shape));
    assert_cut::<240>(&rt, session, reported);
    assert_cut::<63_993>(&rt, session, reported);
    let long = frame_of_241();
    assert_cut::<240>(&rt, &long, (1, 0, Some(FrameFault::TooLong)));
    assert_cut::<63_993>(&rt, &long, (1, 241, None));
}

#[test]
fn a_mark_is_found_at_each_place_of_a_long_run(rt: HostRuntime) {
    // A frame is open, and letters follow with a mark: LF reports a bad frame, STX begins anew.
    for place in 1..200 {
        for (mark, want) in &[
            (10, (1, 0, Some(FrameFault::Shape))),
            (2, (0, 0, None)),
            (4, (1, 0, None)),
            (5, (1, 0, None)),
        ] {
            let mut bytes = [b'A'; 200];
            bytes[0] = 2;
            bytes[place] = *mark;
            let mut scanner = ScannerOf::<240>::new();
            assert!(rt; scanned(&mut scanner, &bytes, (0, 0, None)) == *want);
        }
    }
}
