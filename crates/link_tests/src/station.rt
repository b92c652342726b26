//! Two stations on a line: who may ask for it, contention, and a turn that is asked for. Replies and seconds are those
//! of LIS01-A2, 6.2.7, 6.5 and 6.5.2.

use lis_frame::frame_bytes;
use lis_link::{EmitOf, Outcome};
use lis_station::{AnswerOf, HearingOf, Role, Station, StationFault};
use lis_text::{ACK, ENQ, EOT, NAK, Texts};
use std::alloc::Global;
use std::process::Abort;

/// The frame of the text A, as the first one of a session.
const FRAME: &[u8] = b"\x021A\x0375\r\n";

/// Asks for the line, to send the text A. Fails where no ENQ is emitted.
fn start(rt: &impl Abort, alloc: Global, station: &mut Station) {
    let texts = Texts::from_slices(alloc, &[b"A".as_slice()]).expect(rt, "memory");
    let Ok(emit) = station.start(texts) else {
        panic!(rt; "no session");
    };
    assert!(rt; emit == EmitOf::Enq);
}

/// Fails where the receiver hears no byte, or replies otherwise.
fn assert_replies(rt: &impl Abort, station: &mut Station, byte: u8, want: Option<u8>) {
    let AnswerOf::Hears(step) = station.byte(byte) else {
        panic!(rt; "a reply is awaited");
    };
    assert!(rt; step.reply == want);
}

/// Fails where the receiver doesn't hear all of these bytes, or replies otherwise.
fn assert_hears(rt: &impl Abort, station: &mut Station, bytes: &[u8], want: Option<u8>) {
    let HearingOf { count, answer } = station.bytes(bytes);
    let AnswerOf::Hears(step) = answer else {
        panic!(rt; "a reply is awaited");
    };
    assert!(rt; count == bytes.len() && step.reply == want);
}

/// Fails where the sender doesn't send the frame of the text A at this reply.
fn assert_sends_frame(rt: &impl Abort, station: &mut Station, reply: u8) {
    let AnswerOf::Emits(EmitOf::Frame(frame)) = station.byte(reply) else {
        panic!(rt; "no frame");
    };
    assert!(rt; frame_bytes(&frame).as_slice() == FRAME);
}

/// Fails where the sender emits anything else at this reply.
fn assert_emits(rt: &impl Abort, station: &mut Station, reply: u8, want: EmitOf<240>) {
    assert!(rt; station.byte(reply) == AnswerOf::Emits(want));
}

#[test]
fn each_side_sends_in_its_turn(rt: HostRuntime) {
    let alloc = rt.alloc();
    let mut analyzer = Station::new(alloc, Role::Analyzer);
    let mut computer = Station::new(alloc, Role::Computer);
    start(&rt, alloc, &mut analyzer);
    assert!(rt; analyzer.awaits_reply() && analyzer.timer_seconds() == Some(15));
    assert_replies(&rt, &mut computer, ENQ, Some(ACK));
    assert!(rt; computer.timer_seconds() == Some(30));
    let texts = Texts::from_slices(alloc, &[b"B".as_slice()]).expect(&rt, "memory");
    let refused = computer.start(texts).err().expect(&rt, "the line is open");
    assert!(rt; refused.fault == StationFault::LineOpen && refused.texts.len() == 1);
    assert_sends_frame(&rt, &mut analyzer, ACK);
    assert_hears(&rt, &mut computer, FRAME, Some(ACK));
    assert_emits(&rt, &mut analyzer, ACK, EmitOf::Eot);
    assert!(rt; matches!(analyzer.sender().outcome(), Some(Outcome::Done)));
    assert!(rt; analyzer.timer_seconds().is_none() && analyzer.turn_seconds().is_none());
    assert_replies(&rt, &mut computer, EOT, None);
    start(&rt, alloc, &mut computer);
    assert_replies(&rt, &mut analyzer, ENQ, Some(ACK));
    assert_sends_frame(&rt, &mut computer, ACK);
}

#[test]
fn the_analyzer_goes_first_in_contention(rt: HostRuntime) {
    let alloc = rt.alloc();
    let mut analyzer = Station::new(alloc, Role::Analyzer);
    let mut computer = Station::new(alloc, Role::Computer);
    start(&rt, alloc, &mut analyzer);
    start(&rt, alloc, &mut computer);
    assert_emits(&rt, &mut analyzer, ENQ, EmitOf::Nothing);
    assert_emits(&rt, &mut computer, ENQ, EmitOf::Nothing);
    assert!(rt; analyzer.timer_seconds() == Some(1) && computer.timer_seconds() == Some(20));
    assert!(rt; analyzer.timer() == AnswerOf::Emits(EmitOf::Enq));
    assert_replies(&rt, &mut computer, ENQ, Some(ACK));
    assert_sends_frame(&rt, &mut analyzer, ACK);
    assert_hears(&rt, &mut computer, FRAME, Some(ACK));
    assert_emits(&rt, &mut analyzer, ACK, EmitOf::Eot);
    assert_replies(&rt, &mut computer, EOT, None);
    assert!(rt; computer.timer_seconds() == Some(0) && analyzer.turn_seconds() == Some(15));
    assert!(rt; computer.timer() == AnswerOf::Emits(EmitOf::Enq));
    assert_replies(&rt, &mut analyzer, ENQ, Some(ACK));
    assert_replies(&rt, &mut analyzer, EOT, None);
    assert!(rt; analyzer.turn_seconds().is_none());
}

#[test]
fn a_turn_is_asked_for_by_the_end_of_transmission(rt: HostRuntime) {
    let alloc = rt.alloc();
    let mut analyzer = Station::new(alloc, Role::Analyzer);
    let mut computer = Station::new(alloc, Role::Computer);
    start(&rt, alloc, &mut analyzer);
    assert_replies(&rt, &mut computer, ENQ, Some(ACK));
    computer.ask_turn();
    assert_sends_frame(&rt, &mut analyzer, ACK);
    assert_hears(&rt, &mut computer, FRAME, Some(EOT));
    assert!(rt; !analyzer.turn_asked());
    assert_sends_frame(&rt, &mut analyzer, EOT);
    assert!(rt; analyzer.turn_asked() && analyzer.turn_seconds() == Some(15));
    assert_hears(&rt, &mut computer, FRAME, Some(ACK));
    assert_emits(&rt, &mut analyzer, ACK, EmitOf::Eot);
    assert!(rt; matches!(analyzer.sender().outcome(), Some(Outcome::Done)));
}

#[test]
fn a_frame_that_is_refused_leaves_the_request(rt: HostRuntime) {
    let alloc = rt.alloc();
    let mut computer = Station::new(alloc, Role::Computer);
    computer.ask_turn();
    assert_replies(&rt, &mut computer, ENQ, Some(ACK));
    computer.ask_turn();
    assert_hears(&rt, &mut computer, b"\x021A\x0376\r\n", Some(NAK));
    assert_hears(&rt, &mut computer, FRAME, Some(EOT));
    computer.restart();
    assert_hears(&rt, &mut computer, FRAME, None);
}

#[test]
fn a_line_that_is_closed_may_be_asked_for_again(rt: HostRuntime) {
    let mut station = Station::new(rt.alloc(), Role::Computer);
    assert_replies(&rt, &mut station, ENQ, Some(ACK));
    station.close_line();
    assert_hears(&rt, &mut station, FRAME, None);
    assert_replies(&rt, &mut station, ENQ, Some(ACK));
    station.set_ready(false);
    station.close_line();
    assert_replies(&rt, &mut station, ENQ, Some(NAK));
    station.restart();
    assert_replies(&rt, &mut station, ENQ, Some(ACK));
}
