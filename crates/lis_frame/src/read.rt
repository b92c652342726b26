//! Reading a frame from the bytes between its STX and its LF.

ghost use Rattle.std.specs.Prelude.{◌≡◌, ◌+◌, ◌-◌, ◌%◌, ◌≤◌, ◌<◌, ◌==◌, ◌&&◌, ◌||◌, false, true, [], ◌∷◌, ◌++◌, None};
ghost use Rattle.std.specs.Prelude.{Some, Ok, IfOk, IfErr, IfNone, IfSome, MatchOption, MatchResult, length, take};
ghost use Rattle.std.specs.Prelude.{drop};
ghost use Rattle.std.specs.Prelude.{slice_index};
ghost use Rattle.std.specs.List.{sum};
ghost use Rattle.lis_frame.specs.Limit.{IsLimit};
ghost use Rattle.lis_frame.specs.Frame.{BeginsWith, FrameContent, IsContent, IsFrame, digit_value};
ghost use Rattle.lis_text.specs.Text.{first_forbidden};
ghost use Rattle.lis_frame.specs.FrameBody.{body_fault, content_of, first_fault, is_number_byte, is_value, pair_value};
ghost use Rattle.lis_frame.specs.inside.FrameBody.{body_of};

use crate::borrowed::BorrowedFrame;
use crate::frame::{Frame, FrameFault, FrameOf};
use crate::write::{lower_digit, upper_digit};
use lis_text::{CR, ETB, ETX, LF, STX, text_and_sum};

/// The bytes of a frame body that aren't its text: number, end byte, two digits, CR (LIS01-A2, 6.3.1).
pub(crate) const FRAMING: usize = 5;

/// The frame that is between STX and LF, where there is no fault; else the first fault: length, shape,
/// number, text, sum (LIS01-A2, 6.3 and 6.5). `N` is a limit, from 240 to 63,993.
pub fn read_frame_of<const N: usize>(body: &[u8]) -> Result<FrameOf<N>, FrameFault>
    requires { IsLimit N }
    ensures found { IfOk result (λ frame. IsFrame N (STX ∷ (body.now ++ LF ∷ [])) frame) }
    ensures only { (frame : FrameContent) → IsFrame N (STX ∷ (body.now ++ LF ∷ [])) frame → result ≡ Ok frame }
    ensures fault { IfErr result (λ fault. body_fault N body.now ≡ Some fault) }
    ensures places { IfOk result (λ frame. frame ≡ content_of body.now) }
    ensures sound { IfOk result (λ _. body_fault N body.now ≡ None) }
{
    match borrow_frame::<N>(body) {
        Ok(frame) => Ok(FrameOf::from_borrowed(&frame)),
        Err(fault) => Err(fault),
    }
}

/// The same, with the frame's text borrowed.
fn borrow_frame<const N: usize>(body: &[u8]) -> Result<BorrowedFrame<'_>, FrameFault>
    requires { IsLimit N }
    ensures places { MatchResult result
        (λ frame. (frame ≡ content_of body.now) × (body_fault N body.now ≡ None))
        (λ fault. body_fault N body.now ≡ Some fault) }
    ensures content { IfOk result (IsContent N) }
{
    if body.len() > N + FRAMING {
        return Err(FrameFault::TooLong);
    }
    let Some(parts) = Parts::of(body) else {
        return Err(FrameFault::Shape);
    };
    parts.borrowed::<N>()
}

/// The frame that is between STX and LF, with the usual limit.
pub fn read_frame(body: &[u8]) -> Result<Frame, FrameFault>
    ensures found { IfOk result (λ frame. IsFrame 240 (STX ∷ (body.now ++ LF ∷ [])) frame) }
    ensures only { (frame : FrameContent) → IsFrame 240 (STX ∷ (body.now ++ LF ∷ [])) frame → result ≡ Ok frame }
    ensures fault { IfErr result (λ fault. body_fault 240 body.now ≡ Some fault) }
    ensures places { IfOk result (λ frame. frame ≡ content_of body.now) }
    ensures sound { IfOk result (λ _. body_fault 240 body.now ≡ None) }
{
    read_frame_of(body)
}

/// The parts of a frame body of at least five bytes.
#[derive(Drop)]
pub(crate) struct Parts<'a> {
    /// The byte of the number.
    pub(crate) number: u8,
    /// The bytes of the text.
    pub(crate) text: &'a [u8],
    /// The byte after the text.
    pub(crate) end: u8,
    /// The high and the low digit of the checksum.
    pub(crate) high: u8,
    pub(crate) low: u8,
    /// The byte before LF.
    pub(crate) close: u8,
}

impl<'a> Parts<'a> {
    /// The parts of a frame body; none where it has fewer than five bytes.
    fn of(body: &'a [u8]) -> Option<Self>
        ensures few { IfNone result (length body.now < 5) }
        ensures parts { IfSome result (λ parts.
            body.now ≡ body_of parts.number parts.text.now parts.end parts.high parts.low parts.close) }
    {
        let [number, text @ .., end, high, low, close] = body else {
            return None;
        };
        Some(Parts {
            number: *number,
            text,
            end: *end,
            high: *high,
            low: *low,
            close: *close,
        })
    }

    /// The frame of the parts, its text borrowed, or the first fault after the length.
    pub(crate) fn borrowed<const N: usize>(&self) -> Result<BorrowedFrame<'a>, FrameFault>
        requires { length self.now.text.now ≤ N }
        ensures places { let body = body_of self.now.number self.now.text.now self.now.end self.now.high
            self.now.low self.now.close in
            MatchResult result (λ frame. (frame ≡ content_of body) × (body_fault N body ≡ None))
            (λ fault. body_fault N body ≡ Some fault) }
        ensures content { IfOk result (IsContent N) }
    {
        match self.fault() {
            Some(fault) => Err(fault),
            None => Ok(BorrowedFrame::of_parts(self.number - b'0', self.end == ETX, self.text)),
        }
    }

    /// The first fault of the parts: shape, number, text, sum.
    fn fault(&self) -> Option<FrameFault>
        ensures { result ≡ first_fault false (self.now.close == CR && (self.now.end == ETX || self.now.end == ETB))
            (is_number_byte self.now.number) (first_forbidden self.now.text.now)
            (is_value (pair_value (digit_value self.now.high) (digit_value self.now.low))
            (((self.now.number + sum self.now.text.now) % 256 + self.now.end) % 256)) }
    {
        if !self.is_shaped() {
            return Some(FrameFault::Shape);
        }
        if !is_number(self.number) {
            return Some(FrameFault::Number);
        }
        let (forbidden, sum) = text_and_sum(self.text);
        if let Some(place) = forbidden {
            return Some(FrameFault::Text(place));
        }
        if self.is_summed(sum) {
            None
        } else {
            Some(FrameFault::Sum)
        }
    }

    /// Whether the text is followed by an end byte, and the digits by CR.
    fn is_shaped(&self) -> bool
        ensures { result ≡ (self.now.close == CR && (self.now.end == ETX || self.now.end == ETB)) }
    {
        self.close == CR && (self.end == ETX || self.end == ETB)
    }

    /// Whether the digits are those of the checksum, where the text has this sum.
    #[inline(always)]
    fn is_summed(&self, text_sum: u8) -> bool
        ensures { result ≡ is_value (pair_value (digit_value self.now.high) (digit_value self.now.low))
            ((self.now.number + text_sum + self.now.end) % 256) }
    {
        let sum = self.number.wrapping_add(text_sum).wrapping_add(self.end);
        is_digit_of(self.high, sum / 16) && is_digit_of(self.low, sum % 16)
    }
}

/// The frame whose STX is before these bytes, and how many of them it has, where a good one is there whole.
#[inline(always)]
pub(crate) fn front_frame<const N: usize>(bytes: &[u8]) -> Option<(BorrowedFrame<'_>, usize)>
    ensures bound { IfSome result (λ found. found.1 ≤ length bytes.now) }
    ensures frame { IfSome result (λ found. IsFrame N (STX ∷ take found.1 bytes.now) found.0) }
    ensures whole { (frame : FrameContent) → BeginsWith N (STX ∷ bytes.now) frame →
        MatchOption result ⊥ (λ found. found.0 ≡ frame) }
{
    let Some((number, following)) = bytes.split_first() else {
        return None;
    };
    if !is_number(*number) {
        return None;
    }
    let Some(place) = front_text::<N>(*number, following) else {
        return None;
    };
    let (text, rest) = following.split_at(place);
    let [end, _rest @ ..] = rest else {
        return None;
    };
    let frame = BorrowedFrame::of_parts(*number - b'0', *end == ETX, text);
    Some((frame, place + FRAMING + 1))
}

/// How long the text is of the good frame that is whole after an STX and this number, where one is.
fn front_text<const N: usize>(number: u8, following: &[u8]) -> Option<usize>
    requires { is_number_byte number ≡ true }
    ensures bound { IfSome result (λ place. place + 5 ≤ length following.now) }
    ensures frame { IfSome result (λ place. IsFrame N (STX ∷ take (place + 6) (number ∷ following.now))
        (record {
          number = number - 48;
          last = slice_index (drop place following.now) 0 == ETX;
          text = take place following.now;
        })) }
    ensures whole { (frame : FrameContent) → BeginsWith N (STX ∷ number ∷ following.now) frame →
        result ≡ Some (length frame.text) }
{
    let (forbidden, sum) = text_and_sum(following);
    let Some(place) = forbidden else {
        return None;
    };
    let (text, rest) = following.split_at(place);
    let [end, high, low, close, line_feed, _rest @ ..] = rest else {
        return None;
    };
    let parts = Parts {
        number,
        text,
        end: *end,
        high: *high,
        low: *low,
        close: *close,
    };
    if place > N || *line_feed != LF || !parts.is_shaped() || !parts.is_summed(sum) {
        return None;
    }
    Some(place)
}

/// Whether a byte is a frame's number.
fn is_number(byte: u8) -> bool
    ensures { result ≡ is_number_byte byte }
{
    b'0' <= byte && byte <= b'7'
}

/// Whether a byte is the hexadecimal digit of a value, in either case.
#[inline(always)]
fn is_digit_of(byte: u8, value: u8) -> bool
    requires { value < 16 }
    ensures { result ≡ is_value (digit_value byte) value }
{
    byte == upper_digit(value) || byte == lower_digit(value)
}
