//! Frames for programs in C.

ghost use Rattle.std.specs.Prelude.{◌≡◌, ◌≢◌, ◌+◌, ◌/◌, ◌%◌, ◌≤◌, ◌<◌, ◌++◌, [], ◌∷◌, drop, length};
ghost use Rattle.lis_c.specs.Emitted.{HoldsBytes};
ghost use Rattle.lis_c.specs.Status.{OK, frame_status, long_frame_status, text_place, text_status};
ghost use Rattle.lis_frame.specs.Frame.{checksum, end_byte, frame_bytes, upper_digit};
ghost use Rattle.lis_text.specs.Control.{CR, LF};
ghost use Rattle.lis_text.specs.LinkText.{longest_text};
ghost use Rattle.lis_text.specs.Text.{text_fault};

use crate::out::{LisBytes, put};
use crate::status::{self, text_place, text_status};
use lis_frame::{Frame, Text, frame_bytes};
use lis_text::{CR, ETB, ETX, LF, LONGEST_TEXT, STX, check_bytes, sum_of};

/// Writes a frame (LIS01-A2, 6.3). `OK`; `TOO_LONG` or `FORBIDDEN`, with the byte's place, where the text is invalid;
/// `BAD_NUMBER` where the number is over 7. Where it isn't `OK` nothing is written. It takes no memory.
#[unsafe(no_mangle)]
pub extern "C" fn lis_frame_write(
    number: u8,
    last: bool,
    text: &[u8],
    out: &mut LisBytes,
    place: &mut usize,
) -> u8
    ensures status { result ≡ frame_status number (text_fault 240 text.now) }
    ensures place { place.new ≡ text_place (text_fault 240 text.now) }
    ensures written { result ≡ OK → HoldsBytes out.new
        (frame_bytes (record { number = number; last = last; text = text.now })) }
    ensures refused { result ≢ OK → out.new ≡ out.old }
{
    *place = 0;
    let text = match Text::from_slice(text) {
        Ok(text) => text,
        Err(fault) => {
            *place = text_place(fault);
            return text_status(fault);
        }
    };
    match Frame::new(number, last, text) {
        None => status::BAD_NUMBER,
        Some(frame) => {
            put(out, frame_bytes(&frame).as_slice());
            status::OK
        }
    }
}

/// Whether a session takes bytes as a text: `OK`; `TOO_LONG`; or `FORBIDDEN`, with the place of the first byte that no
/// text may hold.
#[unsafe(no_mangle)]
pub extern "C" fn lis_text_check(text: &[u8], place: &mut usize) -> u8
    ensures status { result ≡ text_status (text_fault longest_text text.now) }
    ensures place { place.new ≡ text_place (text_fault longest_text text.now) }
{
    *place = 0;
    match check_bytes(text, LONGEST_TEXT) {
        Ok(()) => status::OK,
        Err(fault) => {
            *place = text_place(fault);
            text_status(fault)
        }
    }
}

#[tactic(auto, unfolding(lis_frame::specs::Frame::frame_bytes))]
/// Writes a frame whose text has up to 63,993 bytes to the front of a buffer. `OK`; `TOO_LONG` or `FORBIDDEN`, with the
/// byte's place, if the text can't be sent; `BAD_NUMBER` if the number is over 7; `TOO_SHORT` if the frame is longer
/// than the buffer. If it isn't `OK` nothing is written. It takes no memory.
#[unsafe(no_mangle)]
pub extern "C" fn lis_long_frame_write(
    number: u8,
    last: bool,
    text: &[u8],
    out: &mut [u8],
    size: &mut usize,
    place: &mut usize,
) -> u8
    ensures status { result ≡ long_frame_status number (text_fault 63993 text.now) (length out.old)
        (length (frame_bytes (record { number = number; last = last; text = text.now }))) }
    ensures place { place.new ≡ text_place (text_fault 63993 text.now) }
    ensures written { result ≡ OK → out.new
        ≡ frame_bytes (record { number = number; last = last; text = text.now }) ++ drop size.new out.old }
    ensures size { result ≡ OK →
        size.new ≡ length (frame_bytes (record { number = number; last = last; text = text.now })) }
    ensures refused { result ≢ OK → (out.new ≡ out.old) × (size.new ≡ 0) }
{
    *size = 0;
    *place = 0;
    if let Err(fault) = check_bytes(text, 63_993) {
        *place = text_place(fault);
        return text_status(fault);
    }
    if number > 7 {
        return status::BAD_NUMBER;
    }
    if text.len() + 7 > out.len() {
        return status::TOO_SHORT;
    }
    put_frame(number, last, text, out);
    *size = text.len() + 7;
    status::OK
}

#[tactic(auto, unfolding(lis_frame::specs::Frame::frame_bytes))]
/// Puts the bytes of a frame to the front of a buffer that has room for them. None of them is on the stack, which could
/// be too small for a long frame.
fn put_frame(number: u8, last: bool, text: &[u8], out: &mut [u8])
    requires number { number ≤ 7 }
    requires limit { length text.now ≤ 63993 }
    requires room { length text.now + 7 ≤ length out.old }
    ensures { out.new ≡ frame_bytes (record { number = number; last = last; text = text.now })
        ++ drop (length text.now + 7) out.old }
{
    let (frame, _) = out.split_at_mut(text.len() + 7);
    let (head, rest) = frame.split_at_mut(2);
    let (body, tail) = rest.split_at_mut(text.len());
    head.copy_from_slice(&[STX, b'0' + number]);
    body.copy_from_slice(text);
    tail.copy_from_slice(&tail_bytes(number, last, text));
}

/// What is after a frame's text: the end byte, the checksum in two upper-case digits, CR and LF.
fn tail_bytes(number: u8, last: bool, text: &[u8]) -> [u8; 5]
    requires { number ≤ 7 }
    ensures { result ≡ end_byte last
        ∷ upper_digit (checksum (record { number = number; last = last; text = text.now }) / 16)
        ∷ upper_digit (checksum (record { number = number; last = last; text = text.now }) % 16) ∷ CR ∷ LF ∷ [] }
{
    let end = if last { ETX } else { ETB };
    let sum = (b'0' + number).wrapping_add(sum_of(text)).wrapping_add(end);
    [end, upper_digit(sum / 16), upper_digit(sum % 16), CR, LF]
}

/// A hexadecimal digit in upper case.
fn upper_digit(value: u8) -> u8
    requires { value < 16 }
    ensures { result ≡ upper_digit value }
{
    if value < 10 {
        b'0' + value
    } else {
        b'A' + (value - 10)
    }
}
