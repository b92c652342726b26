//! The loops that the guide quotes, over a line in memory that follows a script and keeps a log.

use lis_frame::Scanner;
use lis_link::{Outcome, Receiver, Sender};
use lis_message::Message;
use lis_port::Slow;
use lis_station::{Role, Station, StationFault};
use lis_text::{ACK, CR, ENQ, EOT, ETX, LF, LinkText, NAK, STX, Texts};
use lis_tool::ToolFault;
use std::alloc::Global;
use std::mem::drop;
use std::process::Abort;
use uses::analyzer::send_texts;
use uses::building::{result_message, result_texts};
use uses::capture::is_as_played;
use uses::computer::next_text;
use uses::connection::Event;
use uses::frames::ends_message;
use uses::results::{Reading, count_results, readings};
use uses::resuming::write_to_both;
use uses::station::{Ran, run_station, start_session};
use uses::testing::{Entry, ScriptedConnection};

/// ENQ, the text A in one frame, and EOT.
const SESSION: &[u8] = b"\x05\x021A\x0375\r\n\x04";

/// Fails where the text A, sent on a line with these events, ends otherwise, or other bytes are sent or other timers
/// started.
fn assert_sent(
    rt: &impl Abort,
    alloc: Global,
    events: &[Event],
    ended: Outcome,
    reported: (&[u8], &[u32]),
) {
    let texts = Texts::from_slices(alloc, &[b"A".as_slice()]).expect(rt, "memory");
    let mut line = ScriptedConnection::new(alloc, events);
    let mut sender = Sender::new();
    assert!(rt; send_texts(&mut line, &mut sender, texts) == Ok(Some(ended)));
    drop(sender);
    assert_reported(rt, alloc, &line, reported);
    drop(line);
}

/// Fails where other bytes were sent on a line, or other timers started.
fn assert_reported(
    rt: &impl Abort,
    alloc: Global,
    line: &ScriptedConnection<'_>,
    reported: (&[u8], &[u32]),
) {
    let log = line.log().expect(rt, "memory");
    let mut bytes = Vec::new(alloc);
    let mut timers = Vec::new(alloc);
    for entry in log {
        match entry {
            Entry::Waited(_) | Entry::Reconnected | Entry::Kept(_) | Entry::NotKept(_) => {}
            Entry::Sent(sent) => bytes
                .extend_from_slice(sent.as_slice())
                .expect(rt, "memory"),
            Entry::Timed(seconds) => timers.push(*seconds).expect(rt, "memory"),
        }
    }
    assert!(rt; (bytes.as_slice(), timers.as_slice()) == reported);
    drop(bytes);
    drop(timers);
}

#[test]
fn a_text_is_sent(rt: HostRuntime) {
    let events = [Event::Byte(ACK), Event::Byte(ACK)];
    assert_sent(
        &rt,
        rt.alloc(),
        &events,
        Outcome::Done,
        (SESSION, &[15, 15]),
    );
}

/// NAK, noise and the end of the wait after NAK; ENQ and the end of the wait after that; and no reply.
const WAITS: [Event; 6] = [
    Event::Byte(NAK),
    Event::Byte(b'x'),
    Event::Timer,
    Event::Byte(ENQ),
    Event::Timer,
    Event::Timer,
];

#[test]
fn each_wait_has_its_timer(rt: HostRuntime) {
    let reported: (&[u8], &[u32]) = (&[ENQ, ENQ, ENQ, EOT], &[15, 10, 15, 1, 15]);
    assert_sent(&rt, rt.alloc(), &WAITS, Outcome::TimedOut, reported);
}

/// Sends the text A in so many sessions of one sender on a line with these events; fails unless this was done.
fn assert_sessions(rt: &impl Abort, alloc: Global, events: &[Event], sessions: usize, done: &[u8]) {
    let mut line = ScriptedConnection::new(alloc, events);
    let mut sender = Sender::new();
    for _session in 0..sessions {
        let texts = Texts::from_slices(alloc, &[b"A".as_slice()]).expect(rt, "memory");
        assert!(rt; send_texts(&mut line, &mut sender, texts).is_ok());
    }
    drop(sender);
    assert_done(rt, alloc, &line, done);
    drop(line);
}

#[test]
fn a_session_after_a_timeout_starts_on_a_new_line(rt: HostRuntime) {
    // The first session times out; the second and the third are done.
    let events = [
        Event::Timer,
        Event::Byte(ACK),
        Event::Byte(ACK),
        Event::Byte(ACK),
        Event::Byte(ACK),
    ];
    assert_sessions(&rt, rt.alloc(), &events, 3, b"RSTWSRSTWSTWSSTWSTWS");
}

#[test]
fn a_session_after_a_closed_line_starts_on_a_new_line(rt: HostRuntime) {
    assert_sessions(&rt, rt.alloc(), &[Event::Byte(ACK)], 2, b"RSTWSTWRSTW");
}

/// A line on which the bytes of the session come.
const RECEIVED: [Event; 10] = [
    Event::Byte(ENQ),
    Event::Byte(STX),
    Event::Byte(b'1'),
    Event::Byte(b'A'),
    Event::Byte(ETX),
    Event::Byte(b'7'),
    Event::Byte(b'5'),
    Event::Byte(CR),
    Event::Byte(LF),
    Event::Byte(EOT),
];

#[test]
fn a_text_is_received(rt: HostRuntime) {
    let mut line = ScriptedConnection::new(rt.alloc(), &RECEIVED);
    let mut receiver = Receiver::new(rt.alloc());
    let text = next_text(&mut line, &mut receiver).expect(&rt, "a text");
    assert!(rt; text.as_slice() == b"A".as_slice());
    drop(text);
    assert!(rt; next_text(&mut line, &mut receiver).is_none());
    drop(receiver);
    assert_reported(&rt, rt.alloc(), &line, (&[ACK, ACK], &[30, 30]));
    drop(line);
}

/// Fails unless this was done on a line, a letter for each entry: W waited, S sent, T timer, R reconnected, K kept,
/// N not kept.
fn assert_done(rt: &impl Abort, alloc: Global, line: &ScriptedConnection<'_>, done: &[u8]) {
    let mut letters = Vec::new(alloc);
    for entry in line.log().expect(rt, "memory") {
        let letter = match entry {
            Entry::Waited(_) => b'W',
            Entry::Sent(_) => b'S',
            Entry::Timed(_) => b'T',
            Entry::Reconnected => b'R',
            Entry::Kept(_) => b'K',
            Entry::NotKept(_) => b'N',
        };
        letters.push(letter).expect(rt, "memory");
    }
    assert!(rt; letters.as_slice() == done);
    drop(letters);
}

#[test]
fn a_text_is_kept_before_it_is_acknowledged(rt: HostRuntime) {
    let mut line = ScriptedConnection::new(rt.alloc(), &RECEIVED);
    let mut receiver = Receiver::new(rt.alloc());
    let text = next_text(&mut line, &mut receiver).expect(&rt, "a text");
    drop(text);
    drop(receiver);
    assert_done(&rt, rt.alloc(), &line, b"WSTWWWWWWWWKST");
    drop(line);
}

#[test]
fn a_text_that_is_not_kept_gets_no_reply(rt: HostRuntime) {
    let mut line = ScriptedConnection::new(rt.alloc(), &RECEIVED).with_answers(&[false]);
    let mut receiver = Receiver::new(rt.alloc());
    assert!(rt; next_text(&mut line, &mut receiver).is_none());
    drop(receiver);
    assert_done(&rt, rt.alloc(), &line, b"WSTWWWWWWWWNWW");
    drop(line);
}

#[test]
fn a_frame_that_comes_again_gets_no_reply_if_its_text_is_not_kept(rt: HostRuntime) {
    let mut events = Vec::new(rt.alloc());
    for event in RECEIVED.as_slice().split_at(9).0 {
        events.push(*event).expect(&rt, "memory");
    }
    for event in RECEIVED.as_slice().split_at(9).0.split_at(1).1 {
        events.push(*event).expect(&rt, "memory");
    }
    let mut line = ScriptedConnection::new(rt.alloc(), events.as_slice()).with_answers(&[false]);
    let mut receiver = Receiver::new(rt.alloc());
    assert!(rt; next_text(&mut line, &mut receiver).is_none());
    drop(receiver);
    assert_done(&rt, rt.alloc(), &line, b"WSTWWWWWWWWNWWWWWWWWW");
    drop(line);
    drop(events);
}

#[test]
fn the_last_frame_ends_a_message(rt: HostRuntime) {
    let mut scanner = Scanner::new();
    for byte in b"\x021A\x1789\r\n\x022A\x0376\r".as_slice() {
        assert!(rt; !ends_message(&mut scanner, *byte));
    }
    assert!(rt; ends_message(&mut scanner, LF));
}

/// The bytes that were sent on a line, as events on the other end's.
fn sent_on(rt: &impl Abort, alloc: Global, line: &ScriptedConnection<'_>) -> Vec<Event> {
    let mut events = Vec::new(alloc);
    for entry in line.log().expect(rt, "memory") {
        if let Entry::Sent(bytes) = entry {
            for byte in bytes.as_slice() {
                events.push(Event::Byte(*byte)).expect(rt, "memory");
            }
        }
    }
    events
}

/// What the analyzer sends if these replies come, in so many sessions of the texts A and BC, and how the last one ends.
fn sent_by_analyzer(
    rt: &impl Abort,
    alloc: Global,
    replies: &[Event],
    sessions: usize,
) -> (Vec<Event>, Option<Outcome>) {
    let mut line = ScriptedConnection::new(alloc, replies);
    let mut sender = Sender::new();
    let mut ended = None;
    for _session in 0..sessions {
        let texts = Texts::from_slices(alloc, &TEXTS).expect(rt, "memory");
        ended = send_texts(&mut line, &mut sender, texts).ok().flatten();
    }
    drop(sender);
    let sent = sent_on(rt, alloc, &line);
    drop(line);
    (sent, ended)
}

/// What the computer replies if these bytes come and its store answers so, and how many texts it keeps; fails if it
/// keeps another text than the next of these.
fn sent_by_computer(
    rt: &impl Abort,
    alloc: Global,
    bytes: &[Event],
    answers: &[bool],
) -> (Vec<Event>, usize) {
    let mut line = ScriptedConnection::new(alloc, bytes).with_answers(answers);
    let mut receiver = Receiver::new(alloc);
    let mut count = 0usize;
    for expected in TEXTS {
        if let Some(text) = next_text(&mut line, &mut receiver) {
            assert!(rt; text.as_slice() == expected);
            count = count.saturating_add(1);
            drop(text);
        }
    }
    // The line ends: there is no text more.
    let _ = next_text(&mut line, &mut receiver);
    drop(receiver);
    let sent = sent_on(rt, alloc, &line);
    drop(line);
    (sent, count)
}

/// The texts that are carried from one loop to the other.
const TEXTS: [&[u8]; 2] = [b"A", b"BC"];

// Neither loop runs next to the other: each round is played again from the start, with one more reply.
#[test]
fn one_loop_carries_texts_to_the_other(rt: HostRuntime) {
    let mut replies = Vec::new(rt.alloc());
    for _round in 0..3 {
        let (sent, ended) = sent_by_analyzer(&rt, rt.alloc(), replies.as_slice(), 1);
        assert!(rt; ended.is_none());
        let (answers, _) = sent_by_computer(&rt, rt.alloc(), sent.as_slice(), &[]);
        assert!(rt; answers.len() == replies.len() + 1);
        drop(sent);
        replies = answers;
    }
    let (sent, ended) = sent_by_analyzer(&rt, rt.alloc(), replies.as_slice(), 1);
    assert!(rt; ended == Some(Outcome::Done));
    let (answers, count) = sent_by_computer(&rt, rt.alloc(), sent.as_slice(), &[]);
    assert!(rt; (answers.as_slice(), count) == (replies.as_slice(), 2));
    drop(sent);
    drop(answers);
    drop(replies);
}

/// What a station does on a line with these events, of which its store keeps texts as it answers: the bytes that it
/// sends, as events on the other side's line, and how its runs end: T with a text, D done, O over otherwise, C closed.
fn run_on(
    rt: &impl Abort,
    alloc: Global,
    side: (Role, &[&[u8]]),
    events: &[Event],
    answers: &[bool],
) -> (Vec<Event>, Vec<u8>) {
    let mut line = ScriptedConnection::new(alloc, events).with_answers(answers);
    let (role, texts) = side;
    let mut station = Station::new(alloc, role);
    if !texts.is_empty() {
        assert!(rt; texts.len() < 10);
        let texts = Texts::from_slices(alloc, texts).expect(rt, "memory");
        assert!(rt; start_session(&mut line, &mut station, texts) == Ok(()));
    }
    let mut ends = Vec::new(alloc);
    for _run in 0..20 {
        let end = match run_station(&mut line, &mut station) {
            Ran::Text(text) => {
                drop(text);
                b'T'
            }
            Ran::Over(Some(Outcome::Done)) => b'D',
            Ran::Over(_) => b'O',
            Ran::Closed => b'C',
        };
        ends.push(end).expect(rt, "memory");
        if end == b'C' {
            break;
        }
    }
    drop(station);
    let sent = sent_on(rt, alloc, &line);
    drop(line);
    (sent, ends)
}

/// Fails where two stations, each on a line with what the other one sends, don't end so.
fn assert_meet(
    rt: &impl Abort,
    alloc: Global,
    analyzer: (&[&[u8]], &[Event], &[u8]),
    computer: (&[&[u8]], &[Event], &[u8]),
) {
    let (sent, ends) = run_on(rt, alloc, (Role::Analyzer, analyzer.0), analyzer.1, &[]);
    assert!(rt; ends.as_slice() == analyzer.2);
    assert_bytes(rt, sent.as_slice(), computer.1);
    drop(sent);
    drop(ends);
    let (sent, ends) = run_on(rt, alloc, (Role::Computer, computer.0), computer.1, &[]);
    assert!(rt; ends.as_slice() == computer.2);
    assert_bytes(rt, sent.as_slice(), analyzer.1);
    drop(sent);
    drop(ends);
}

/// Fails where the bytes among these events aren't those that were sent.
fn assert_bytes(rt: &impl Abort, sent: &[Event], events: &[Event]) {
    let mut left = sent;
    for event in events {
        if let Event::Byte(_) = event {
            let Some((first, rest)) = left.split_first() else {
                panic!(rt; "too few bytes");
            };
            assert!(rt; first == event);
            left = rest;
        }
    }
    assert!(rt; left.is_empty());
}

/// A session of the text A, as events at the station that receives it.
const SESSION_OF_A: [Event; 11] = [
    Event::Byte(ENQ),
    Event::Byte(STX),
    Event::Byte(b'1'),
    Event::Byte(b'A'),
    Event::Byte(ETX),
    Event::Byte(b'7'),
    Event::Byte(b'5'),
    Event::Byte(CR),
    Event::Byte(LF),
    Event::Byte(EOT),
    Event::Closed,
];

/// The replies to it.
const REPLIES: [Event; 2] = [Event::Byte(ACK), Event::Byte(ACK)];

/// Both asked for the line: the computer hears the analyzer's ENQ twice, its session, and the replies to its own one.
const BOTH_ASK: [Event; 14] = [
    Event::Byte(ENQ),
    Event::Byte(ENQ),
    Event::Byte(STX),
    Event::Byte(b'1'),
    Event::Byte(b'A'),
    Event::Byte(ETX),
    Event::Byte(b'7'),
    Event::Byte(b'5'),
    Event::Byte(CR),
    Event::Byte(LF),
    Event::Byte(EOT),
    Event::Timer,
    Event::Byte(ACK),
    Event::Byte(ACK),
];

/// The analyzer hears the computer's ENQ, its own replies, and the computer's session of the text A.
const BOTH_ASKED: [Event; 14] = [
    Event::Byte(ENQ),
    Event::Timer,
    Event::Byte(ACK),
    Event::Byte(ACK),
    Event::Byte(ENQ),
    Event::Byte(STX),
    Event::Byte(b'1'),
    Event::Byte(b'A'),
    Event::Byte(ETX),
    Event::Byte(b'7'),
    Event::Byte(b'5'),
    Event::Byte(CR),
    Event::Byte(LF),
    Event::Byte(EOT),
];

#[test]
fn a_station_carries_a_text_to_the_other(rt: HostRuntime) {
    let one: [&[u8]; 1] = [b"A"];
    let theirs = SESSION_OF_A.as_slice();
    assert_meet(
        &rt,
        rt.alloc(),
        (&one, &REPLIES, b"DC"),
        (&[], theirs, b"TC"),
    );
    assert_meet(
        &rt,
        rt.alloc(),
        (&[], theirs, b"TC"),
        (&one, &REPLIES, b"DC"),
    );
}

#[test]
fn both_stations_ask_at_once(rt: HostRuntime) {
    let one: [&[u8]; 1] = [b"A"];
    assert_meet(
        &rt,
        rt.alloc(),
        (&one, &BOTH_ASKED, b"DTC"),
        (&one, &BOTH_ASK, b"TDC"),
    );
}

#[test]
fn a_station_keeps_a_text_before_it_replies(rt: HostRuntime) {
    let mut line = ScriptedConnection::new(rt.alloc(), &SESSION_OF_A);
    let mut station = Station::new(rt.alloc(), Role::Computer);
    assert!(rt; matches!(run_station(&mut line, &mut station), Ran::Text(_text)));
    drop(station);
    assert_done(&rt, rt.alloc(), &line, b"WSTWWWWWWWWKST");
    drop(line);
}

#[test]
fn a_station_gives_no_reply_to_a_text_that_it_cannot_keep(rt: HostRuntime) {
    let mut line = ScriptedConnection::new(rt.alloc(), &SESSION_OF_A).with_answers(&[false]);
    let mut station = Station::new(rt.alloc(), Role::Computer);
    assert!(rt; run_station(&mut line, &mut station) == Ran::Closed);
    assert!(rt; !station.receiver().is_open());
    drop(station);
    assert_done(&rt, rt.alloc(), &line, b"WSTWWWWWWWWNWW");
    drop(line);
}

#[test]
fn a_station_starts_no_session_while_the_line_is_open(rt: HostRuntime) {
    let mut line = ScriptedConnection::new(rt.alloc(), SESSION_OF_A.as_slice().split_at(1).0);
    let mut station = Station::new(rt.alloc(), Role::Computer);
    assert!(rt; run_station(&mut line, &mut station) == Ran::Closed);
    let texts = Texts::from_slices(rt.alloc(), &[b"B".as_slice()]).expect(&rt, "memory");
    let refused = start_session(&mut line, &mut station, texts)
        .err()
        .expect(&rt, "the line is open");
    assert!(rt; refused.fault == StationFault::LineOpen && refused.texts.len() == 1);
    drop(refused);
    drop(station);
    assert_done(&rt, rt.alloc(), &line, b"WSTW");
    drop(line);
}

/// The first text isn't acknowledged, and the timer runs out; in the second session all is.
const SECOND_TRY: [Event; 5] = [
    Event::Byte(ACK),
    Event::Timer,
    Event::Byte(ACK),
    Event::Byte(ACK),
    Event::Byte(ACK),
];

#[test]
fn a_text_that_is_not_kept_is_sent_again(rt: HostRuntime) {
    let (sent, ended) = sent_by_analyzer(&rt, rt.alloc(), SECOND_TRY.split_at(2).0, 1);
    assert!(rt; ended == Some(Outcome::TimedOut));
    let (replies, count) = sent_by_computer(&rt, rt.alloc(), sent.as_slice(), &[false]);
    assert!(rt; (replies.as_slice(), count) == (SECOND_TRY.split_at(1).0, 0));
    drop(sent);
    drop(replies);
    let (sent, ended) = sent_by_analyzer(&rt, rt.alloc(), &SECOND_TRY, 2);
    assert!(rt; ended == Some(Outcome::Done));
    let (replies, count) = sent_by_computer(&rt, rt.alloc(), sent.as_slice(), &[false]);
    assert!(rt; (replies.as_slice(), count) == ([Event::Byte(ACK); 4].as_slice(), 2));
    drop(sent);
    drop(replies);
}

/// The records of one result, of the sample S7.
const RESULT: &[u8] = b"H|\\^&\rP|1\rO|1|S7\rR|1|^^^GLU|5.4|mmol/L\rL|1|N\r";

/// Fails where a message isn't written to two sinks, the front to the one and the rest to the other.
fn assert_written(rt: &impl Abort, message: &Message) {
    let mut first = Slow::new(20, 7);
    let mut second = Slow::new(100, 100);
    assert!(rt; write_to_both(&mut first, &mut second, message) == Ok(()));
    assert!(rt; (first.took(), second.took()) == RESULT.split_at(20));
    drop(first);
    drop(second);
}

/// Fails where the only reading of a message is another.
fn assert_reading(rt: &impl Abort, found: &[Reading]) {
    let [reading] = found else {
        panic!(rt; "not one reading");
    };
    assert!(rt; reading.sample.as_slice() == b"S7".as_slice());
    assert!(rt; reading.value.as_slice() == b"5.4".as_slice());
    assert!(rt; reading.units.as_slice() == b"mmol/L".as_slice());
}

#[test]
fn a_message_has_a_text_for_each_record(rt: HostRuntime) {
    let texts = result_texts(rt.alloc(), b"S7", b"5.4").expect(&rt, "texts");
    assert!(rt; texts.len() == 5);
    assert_texts(&rt, texts.as_slice());
    drop(texts);
}

/// Fails where texts aren't the records of one result.
fn assert_texts(rt: &impl Abort, texts: &[LinkText]) {
    let mut rest = RESULT;
    for text in texts {
        let (front, following) = rest.split_at(text.len().min(rest.len()));
        assert!(rt; text.as_slice() == front);
        rest = following;
    }
    assert!(rt; rest.is_empty());
}

#[test]
fn a_message_is_built_written_and_read(rt: HostRuntime) {
    let message = result_message(rt.alloc(), b"S7", b"5.4").expect(&rt, "a message");
    assert_written(&rt, &message);
    let found = readings(rt.alloc(), &message).expect(&rt, "readings");
    drop(message);
    assert_reading(&rt, found.as_slice());
    drop(found);
}

#[test]
fn results_in_pieces_are_counted(rt: HostRuntime) {
    let (front, rest) = RESULT.split_at(20);
    assert!(rt; count_results(rt.alloc(), &[front, rest]) == Ok(1));
    assert!(rt; count_results(rt.alloc(), &[RESULT, front, rest]) == Ok(2));
}

#[test]
fn a_capture_is_checked(rt: HostRuntime) {
    let session = b"> 05\n< 06\n> 0231410337350d0a\n< 06\n> 04\n";
    assert!(rt; is_as_played(rt.alloc(), session) == Ok(true));
    let refused = b"> 05\n< 06\n> 0231410337350d0a\n< 15\n> 04\n";
    assert!(rt; is_as_played(rt.alloc(), refused) == Ok(false));
    let unread = b"> 05\n< 06\n> 0\n< 06\n";
    assert!(rt; is_as_played(rt.alloc(), unread) == Err(ToolFault::CaptureLine { line: 3 }));
}
