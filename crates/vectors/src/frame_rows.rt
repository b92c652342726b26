//! Calls on frames, on the scanner, and on the texts that frames carry.

ghost use Rattle.std.specs.Prelude.{◌≡◌, ◌≤◌, None};
ghost use Rattle.lis_frame.specs.Limit.{IsLimit};
ghost use Rattle.lis_text.specs.LinkText.{longest_text};
ghost use Rattle.lis_text.specs.Text.{text_fault};

use crate::answer::Answer;
use crate::words::Call;
use lis_frame::{
    BorrowedFrame, FrameFault, FrameOf, Heard, ScannerOf, Signal, SignalOf, TextOf, frame_bytes_of,
    read_frame_of, split_all_of,
};
use lis_text::{TextFault, check_text};
use std::alloc::Global;
use std::mem::drop;

/// Room for a frame of any limit.
const FRAME_ROOM: usize = 64_000;

/// Answers a call on frames.
pub(crate) fn frame_call<const N: usize>(call: Call<'_>, answer: &mut Answer)
    requires { IsLimit N }
{
    match call.name {
        "read" => read::<N>(call, answer),
        "make" => make::<N>(call, answer),
        "scan" => scan::<N>(call, answer),
        _ => answer.no_call(),
    }
}

/// Answers a call on the texts that frames carry.
pub(crate) fn text_call<const N: usize>(call: Call<'_>, answer: &mut Answer)
    requires { IsLimit N }
{
    match call.name {
        "check" => check(call, answer),
        "split" => split::<N>(call, answer),
        _ => answer.no_call(),
    }
}

/// Puts whether a text may be sent.
fn check(call: Call<'_>, answer: &mut Answer) {
    let text = call.bytes(0, answer);
    match check_text(text.as_slice()) {
        Ok(()) => answer.word("ok"),
        Err(fault) => put_text_refusal(fault, answer),
    }
    drop(text);
}

/// Puts the frames of a text, the first of this number.
fn split<const N: usize>(call: Call<'_>, answer: &mut Answer)
    requires { IsLimit N }
{
    let first = call.number(0, answer);
    let text = call.bytes(1, answer);
    match check_text(text.as_slice()) {
        _ if first > 7 => answer.no_call(),
        Ok(()) => put_split::<N>(first as u8, text.as_slice(), answer),
        Err(fault) => put_text_refusal(fault, answer),
    }
    drop(text);
}

/// Puts the frames of a text that may be sent.
fn put_split<const N: usize>(first: u8, text: &[u8], answer: &mut Answer)
    requires limit { IsLimit N }
    requires text { text_fault longest_text text.now ≡ None }
    requires number { first ≤ 7 }
{
    let frames = split_all_of::<N>(answer.alloc, text, first);
    let Some(frames) = answer.made(frames) else {
        return;
    };
    for frame in frames.as_slice() {
        answer.part();
        put_frame(frame, answer);
    }
    drop(frames);
}

/// Puts the frame that bytes are, or why they are invalid.
fn read<const N: usize>(call: Call<'_>, answer: &mut Answer)
    requires { IsLimit N }
{
    let body = call.bytes(0, answer);
    match read_frame_of::<N>(body.as_slice()) {
        Ok(frame) => put_frame(&frame, answer),
        Err(fault) => {
            answer.word("fault ");
            put_frame_fault(fault, answer);
        }
    }
    drop(body);
}

/// Puts the frame of a number, an end and a text, or why the text is rejected.
fn make<const N: usize>(call: Call<'_>, answer: &mut Answer)
    requires { IsLimit N }
{
    let number = call.number(0, answer).min(255) as u8;
    let is_last = call.word(1, answer) == "end";
    let text = call.bytes(2, answer);
    match TextOf::<N>::from_slice(text.as_slice()) {
        Ok(text) => put_made(FrameOf::new(number, is_last, text), answer),
        Err(fault) => put_text_refusal(fault, answer),
    }
    drop(text);
}

/// Puts a frame and its bytes, or that there is none.
fn put_made<const N: usize>(made: Option<FrameOf<N>>, answer: &mut Answer)
    requires { IsLimit N }
{
    match &made {
        None => answer.word("none"),
        Some(frame) => {
            put_frame(frame, answer);
            answer.bytes(" ", frame_bytes_of::<N, FRAME_ROOM>(frame).as_slice());
        }
    }
    drop(made);
}

/// The signals of bytes that are pushed one by one; from a place on, a copy of the scanner reads them in runs too.
fn scan<const N: usize>(call: Call<'_>, answer: &mut Answer)
    requires { IsLimit N }
{
    let fork = call.number(0, answer) as usize;
    let bytes = call.bytes(1, answer);
    let (front, rest) = bytes.split_at(fork.min(bytes.len()));
    let mut course = Course::<N>::new();
    course.push_all(front, answer);
    let copy = course.copy();
    let pushed = course.signals(answer.alloc, false, rest);
    let scanned = copy.signals(answer.alloc, true, rest);
    put_signals(pushed, scanned, answer);
    drop(bytes);
}

/// Puts the signals after a fork, and those of the copy where it reports others.
fn put_signals(pushed: Answer, scanned: Answer, answer: &mut Answer) {
    if pushed.line() != scanned.line() {
        answer.word("the copy differs: ");
        answer.answer(&scanned);
    }
    drop(scanned);
    if !pushed.is_empty() {
        answer.part();
    }
    answer.answer(&pushed);
    drop(pushed);
    if answer.is_empty() {
        answer.word("none");
    }
}

/// A scanner, and how many bytes it has read.
#[derive(Drop)]
struct Course<const N: usize> {
    scanner: ScannerOf<N>,
    read: usize,
}

impl<const N: usize> Course<N> {
    /// A scanner that has read no byte.
    fn new() -> Self
        requires { IsLimit N }
    {
        Course {
            scanner: ScannerOf::new(),
            read: 0,
        }
    }

    /// A scanner that has read the same.
    fn copy(&self) -> Self
        requires { IsLimit N }
    {
        Course {
            scanner: self.scanner.copy(),
            read: self.read,
        }
    }

    /// The signals of bytes that are read in runs, or one by one.
    fn signals(self, alloc: Global, in_runs: bool, bytes: &[u8]) -> Answer
        requires { IsLimit N }
    {
        let mut course = self;
        let mut answer = Answer::new(alloc);
        if in_runs {
            course.scan_all(bytes, &mut answer);
        } else {
            course.push_all(bytes, &mut answer);
        }
        drop(course);
        answer
    }

    /// Reads bytes one by one, and puts their signals.
    fn push_all(&mut self, bytes: &[u8], answer: &mut Answer)
        requires { IsLimit N }
    {
        for byte in bytes {
            if let Some(signal) = self.scanner.push(*byte) {
                put_signal(signal, self.read, answer);
            }
            self.read = self.read.saturating_add(1);
        }
    }

    /// Reads bytes in runs, as far as they give no signal but a frame's, and puts their signals.
    fn scan_all(&mut self, bytes: &[u8], answer: &mut Answer)
        requires { IsLimit N }
    {
        let mut rest = bytes;
        for _ in 0..bytes.len() {
            let (count, frame) = self.scanner.scan(rest);
            let (_, following) = rest.split_at(count);
            self.read = self.read.saturating_add(count);
            rest = following;
            if let Some(frame) = frame {
                put_place(self.read.saturating_sub(1), "=frame:", answer);
                put_borrowed(&frame, answer);
            }
            if count > 0 {
                continue;
            }
            let Some((byte, following)) = rest.split_first() else {
                return;
            };
            if let Some(heard) = self.scanner.peek(*byte) {
                put_heard(&heard, self.read, answer);
            }
            self.scanner.take(*byte);
            self.read = self.read.saturating_add(1);
            rest = following;
        }
    }
}

/// Puts a signal and the place of its last byte.
fn put_signal<const N: usize>(signal: SignalOf<N>, place: usize, answer: &mut Answer)
    requires { IsLimit N }
{
    match &signal {
        SignalOf::Enq => put_place(place, "=ENQ", answer),
        SignalOf::Eot => put_place(place, "=EOT", answer),
        SignalOf::Good(frame) => {
            put_place(place, "=frame:", answer);
            put_frame(frame, answer);
        }
        SignalOf::Bad(fault) => {
            put_place(place, "=bad:", answer);
            put_frame_fault(*fault, answer);
        }
    }
    drop(signal);
}

/// Puts a signal that was reported before its last byte was taken.
fn put_heard(heard: &Heard<'_>, place: usize, answer: &mut Answer) {
    match heard {
        Heard::Enq => put_place(place, "=ENQ", answer),
        Heard::Eot => put_place(place, "=EOT", answer),
        Heard::Good(frame) => {
            put_place(place, "=frame:", answer);
            put_borrowed(frame, answer)
        }
        Heard::Bad(fault) => {
            put_place(place, "=bad:", answer);
            put_frame_fault(*fault, answer)
        }
    }
}

/// Puts a place and the mark of what is there.
fn put_place(place: usize, mark: &str, answer: &mut Answer) {
    answer.part();
    answer.number("", place as u64);
    answer.text(mark)
}

/// Puts a frame: its number, `end` or `more`, its text.
pub(crate) fn put_frame<const N: usize>(frame: &FrameOf<N>, answer: &mut Answer)
    requires { IsLimit N }
{
    put_parts(
        frame.number(),
        frame.is_last(),
        frame.text().as_slice(),
        answer,
    )
}

/// Puts a frame that is borrowed by the bytes that were read.
fn put_borrowed(frame: &BorrowedFrame<'_>, answer: &mut Answer) {
    put_parts(frame.number(), frame.is_last(), frame.text(), answer)
}

/// Puts the parts of a frame.
fn put_parts(number: u8, last: bool, text: &[u8], answer: &mut Answer) {
    answer.number("", number as u64);
    answer.bytes(if last { ":end:" } else { ":more:" }, text)
}

/// Puts why bytes are no frame.
pub(crate) fn put_frame_fault(fault: FrameFault, answer: &mut Answer) {
    match fault {
        FrameFault::TooLong => answer.text("TooLong"),
        FrameFault::Shape => answer.text("Shape"),
        FrameFault::Number => answer.text("Number"),
        FrameFault::Text(place) => answer.number("Text.", place as u64),
        FrameFault::Sum => answer.text("Checksum"),
    }
}

/// Puts that bytes are no text, and why.
fn put_text_refusal(fault: TextFault, answer: &mut Answer) {
    answer.word("fault ");
    put_text_fault(fault, answer);
}

/// Puts why bytes are no text.
pub(crate) fn put_text_fault(fault: TextFault, answer: &mut Answer) {
    match fault {
        TextFault::TooLong => answer.text("TooLong"),
        TextFault::Forbidden(place) => answer.number("Forbidden.", place as u64),
    }
}
