//! The frames of a text (LIS01-A2, 6.3 and 6.5).

ghost use Rattle.std.specs.Prelude.{◌≡◌, ◌+◌, ◌%◌, ◌/◌, ◌≤◌, ◌<◌, ◌⊎◌, nat_le, None, Some, IfOk, length, take, drop};
ghost use Rattle.std.specs.Prelude.{slice_get};
ghost use Rattle.lis_frame.specs.Limit.{IsLimit};
ghost use Rattle.lis_text.specs.LinkText.{longest_text};
ghost use Rattle.lis_text.specs.Text.{text_fault};
ghost use Rattle.lis_frame.specs.Pieces.{pieces, text_frames};

use crate::frame::{Frame, FrameOf};
use crate::text::TextOf;
use lis_text::List;
use std::alloc::{AllocError, Global};

/// The frames of a text, or of several.
pub type FramesOf<const N: usize> = List<FrameOf<N>>;

/// Frames with the usual limit.
pub type Frames = FramesOf<240>;

/// The number after a frame's number, which is 7 at most: 7 is followed by 0 (LIS01-A2, 6.3).
pub fn next_number(number: u8) -> u8
    requires { number ≤ 7 }
    ensures value { result ≡ (number + 1) % 8 }
    ensures bound { result ≤ 7 }
{
    (number + 1) % 8
}

/// The frame of this number that carries the piece of a text at an offset: `N` bytes, or those that
/// are left; it is the last where no byte follows (LIS01-A2, 6.3).
///
/// The text is a link text (`lis_text::check_text`), the number 7 at most, and the offset a multiple of `N` that is 0
/// or within the text. `N` is a limit, from 240 to 63,993.
pub fn split_at_of<const N: usize>(text: &[u8], offset: usize, number: u8) -> FrameOf<N>
    requires limit { IsLimit N }
    requires text { text_fault longest_text text.now ≡ None }
    requires number { number ≤ 7 }
    requires whole { offset % N ≡ 0 }
    requires within { (offset ≡ 0) ⊎ (offset < length text.now) }
    ensures value { result ≡ record {
      number = number;
      last = nat_le (length text.now) (offset + N);
      text = take N (drop offset text.now);
    } }
    ensures piece { slice_get (pieces N text.now) (offset / N)
        ≡ Some (record { bytes = result.text; last = result.last }) }
{
    let (_, rest) = text.split_at(offset);
    if rest.len() <= N {
        return FrameOf::of_parts(number, true, TextOf::copied(rest));
    }
    let (piece, _) = rest.split_at(N);
    FrameOf::of_parts(number, false, TextOf::copied(piece))
}

/// The same with the usual limit.
pub fn split_at(text: &[u8], offset: usize, number: u8) -> Frame
    requires text { text_fault longest_text text.now ≡ None }
    requires number { number ≤ 7 }
    requires whole { offset % 240 ≡ 0 }
    requires within { (offset ≡ 0) ⊎ (offset < length text.now) }
    ensures value { result ≡ record {
      number = number;
      last = nat_le (length text.now) (offset + 240);
      text = take 240 (drop offset text.now);
    } }
    ensures piece { slice_get (pieces 240 text.now) (offset / 240)
        ≡ Some (record { bytes = result.text; last = result.last }) }
{
    split_at_of(text, offset, number)
}

/// All frames of a text, the first of this number (LIS01-A2, 6.3). The error is a lack of memory.
///
/// The text is a link text (`lis_text::check_text`), and the number 7 at most. `N` is a limit, from 240 to 63,993.
pub fn split_all_of<const N: usize>(
    alloc: Global,
    text: &[u8],
    first_number: u8,
) -> Result<FramesOf<N>, AllocError>
    requires limit { IsLimit N }
    requires text { text_fault longest_text text.now ≡ None }
    requires number { first_number ≤ 7 }
    ensures { IfOk result (λ frames. frames ≡ text_frames N text.now first_number) }
{
    let mut frames = List::new(alloc);
    let mut number = first_number;
    let mut offset = 0;
    loop {
        let frame = split_at_of(text, offset, number);
        let last = frame.is_last();
        frames.push(frame)?;
        if last {
            return Ok(frames);
        }
        number = next_number(number);
        offset += N;
    }
}

/// The same with the usual limit.
pub fn split_all(alloc: Global, text: &[u8], first_number: u8) -> Result<Frames, AllocError>
    requires text { text_fault longest_text text.now ≡ None }
    requires number { first_number ≤ 7 }
    ensures { IfOk result (λ frames. frames ≡ text_frames 240 text.now first_number) }
{
    split_all_of(alloc, text, first_number)
}
