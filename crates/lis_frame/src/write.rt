//! Writing a frame (LIS01-A2, 6.3).

ghost use Rattle.std.specs.Prelude.{◌≡◌, ◌+◌, ◌/◌, ◌%◌, ◌≤◌, ◌<◌, [], ◌∷◌, false, is_err, length, take, IfErr, OnOk};
ghost use Rattle.std.specs.Prelude.{if◌then◌else◌, nat_lt};
ghost use Rattle.std.specs.Io.KnownBytes.{Appends};
ghost use Rattle.lis_text.specs.Control.{CR, LF};
ghost use Rattle.lis_frame.specs.Frame.{IsFrame, checksum, end_byte, frame_bytes, upper_digit};

use crate::frame::{Frame, FrameOf};
use crate::text::append;
use arrayvec::ArrayVec;
use lis_port::{Sink, write_all};
use lis_text::{CR, ETB, ETX, LF, STX, sum_of};

/// The bytes of a frame: STX, number, text, ETX or ETB, the checksum in two upper-case digits, CR
/// and LF. `B` has room for the longest frame.
pub fn frame_bytes_of<const N: usize, const B: usize>(frame: &FrameOf<N>) -> ArrayVec<u8, B>
    requires room { N + 7 ≤ B }
    requires bound { B ≤ 64000 }
    ensures bytes { result.items ≡ frame_bytes frame.now }
    ensures frame { IsFrame N result.items frame.now }
{
    let mut bytes = ArrayVec::new();
    bytes.push(STX);
    bytes.push(b'0' + frame.number());
    append(&mut bytes, frame.text().as_slice());
    append(&mut bytes, &tail(frame));
    bytes
}

/// The bytes of a frame with the usual limit.
pub fn frame_bytes(frame: &Frame) -> ArrayVec<u8, 247>
    ensures bytes { result.items ≡ frame_bytes frame.now }
    ensures frame { IsFrame 240 result.items frame.now }
{
    frame_bytes_of(frame)
}

/// Writes the bytes of a frame to a sink that has not failed. Where the sink fails, it took so many of them before.
/// Nothing is tried again.
pub fn put_frame<W: Sink, const N: usize>(sink: &mut W, frame: &FrameOf<N>) -> Result<(), usize>
    requires { W.failed sink.old ≡ false }
    ensures ok { OnOk result (Appends (W.taken sink.old) (W.taken sink.new) (frame_bytes frame.now)) }
    ensures err { IfErr result (λ count. (count < length (frame_bytes frame.now))
        × Appends (W.taken sink.old) (W.taken sink.new) (take count (frame_bytes frame.now))) }
    ensures failed { W.failed sink.new ≡ is_err result }
{
    let text = frame.text().as_slice();
    write_all(sink, &[STX, b'0' + frame.number()])?;
    if let Err(count) = write_all(sink, text) {
        return Err(2 + count);
    }
    if let Err(count) = write_all(sink, &tail(frame)) {
        return Err(2 + text.len() + count);
    }
    Ok(())
}

/// What is after a frame's text: the end byte, the checksum in two upper-case digits, CR and LF.
fn tail<const N: usize>(frame: &FrameOf<N>) -> [u8; 5]
    ensures { result ≡ end_byte frame.now.last ∷ upper_digit (checksum frame.now / 16)
        ∷ upper_digit (checksum frame.now % 16) ∷ CR ∷ LF ∷ [] }
{
    frame_tail(frame.number(), frame.is_last(), frame.text().as_slice())
}

/// What is after the text in a frame of these parts, whose number is at most 7: the end byte, the checksum in two
/// upper-case digits, CR and LF (LIS01-A2, 6.3).
pub fn frame_tail(number: u8, last: bool, text: &[u8]) -> [u8; 5]
    requires { number ≤ 7 }
    ensures { result ≡ end_byte last
        ∷ upper_digit (checksum (record { number = number; last = last; text = text.now }) / 16)
        ∷ upper_digit (checksum (record { number = number; last = last; text = text.now }) % 16) ∷ CR ∷ LF ∷ [] }
{
    let end = end_byte(last);
    let sum = (b'0' + number).wrapping_add(sum_of(text)).wrapping_add(end);
    [end, upper_digit(sum / 16), upper_digit(sum % 16), CR, LF]
}

/// The byte after a frame's text.
fn end_byte(last: bool) -> u8
    ensures { result ≡ end_byte last }
{
    if last { ETX } else { ETB }
}

/// A hexadecimal digit in upper case.
#[inline(always)]
pub(crate) fn upper_digit(value: u8) -> u8
    requires { value < 16 }
    ensures { result ≡ upper_digit value }
{
    if value < 10 {
        b'0' + value
    } else {
        b'A' + (value - 10)
    }
}

/// A hexadecimal digit in lower case.
#[inline(always)]
pub(crate) fn lower_digit(value: u8) -> u8
    requires { value < 16 }
    ensures { result ≡ (if nat_lt value 10 then 48 + value else 87 + value) }
{
    if value < 10 {
        b'0' + value
    } else {
        b'a' + (value - 10)
    }
}
