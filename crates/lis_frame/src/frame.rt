//! A frame: its number, whether it is the last of its message, and its text.

ghost use Rattle.std.specs.Prelude.{◌≡◌, ◌≤◌, ◌<◌, MatchOption};
ghost use Rattle.lis_frame.specs.Frame.{IsContent};
ghost use Rattle.lis_frame.specs.Limit.{IsLimit};

use crate::borrowed::BorrowedFrame;
use crate::text::TextOf;
use std::marker::Model;
use thiserror::Error;

/// Why the bytes between STX and LF are no frame; the first that is, in this order, is reported.
#[derive(Debug, Clone, Copy, PartialEq, Eq, Error)]
pub enum FrameFault {
    /// There are more bytes than a frame of the limit has.
    #[error("the frame is longer than its limit [F1]")]
    TooLong,
    /// There are fewer than five bytes, the last isn't CR, or no ETB or ETX is three before it.
    #[error("the frame has not the shape of one [F2]")]
    Shape,
    /// The first byte isn't a digit from 0 to 7.
    #[error("the frame's number is no digit from 0 to 7 [F3]")]
    Number,
    /// The byte of the text at this place, from 0, is the first that a text may not hold.
    #[error("the byte at place {0} of the frame's text may not be in a text [F4]")]
    Text(usize),
    /// The two bytes before CR aren't hexadecimal digits of the checksum.
    #[error("the checksum is not that of the frame [F5]")]
    Sum,
}

/// A frame with at most `N` bytes of text (LIS01-A2, 6.3).
#[derive(Debug, PartialEq, Eq, Drop)]
pub struct FrameOf<const N: usize> {
    number: u8,
    last: bool,
    text: TextOf<N>,
}

impl<const N: usize> Model for FrameOf<N> {
    ghost use Rattle.lis_frame.specs.Frame.{FrameContent, IsContent};
    ghost use Rattle.lis_frame.specs.Limit.{IsLimit};

    ghost Value = { FrameContent };

    ghost view = { λ f. record { number = f.number; last = f.last; text = f.text } };

    ghost invariant = { λ f. IsLimit N × IsContent N (record { number = f.number; last = f.last; text = f.text }) };

    ghost inverse = { λ f. record { number = f.number; last = f.last; text = f.text } };
}

/// A frame with the usual limit.
pub type Frame = FrameOf<240>;

impl<const N: usize> FrameOf<N> {
    /// The frame of a number, whether it is the last of its message, and a text; none where the
    /// number is over 7.
    pub fn new(number: u8, last: bool, text: TextOf<N>) -> Option<Self>
        ensures { MatchOption result (7 < number)
            (λ frame. (number ≤ 7) × (frame ≡ record { number = number; last = last; text = text.entry })) }
    {
        if number > 7 {
            return None;
        }
        Some(FrameOf::of_parts(number, last, text))
    }

    /// The frame of these parts.
    pub(crate) fn of_parts(number: u8, last: bool, text: TextOf<N>) -> Self
        requires { number ≤ 7 }
        ensures { result ≡ record { number = number; last = last; text = text.entry } }
    {
        // proof: that the text is one is known from its bytes.
        let _ = text.as_slice();
        FrameOf { number, last, text }
    }

    /// The frame that is borrowed, with a text of its own. The frame is within the limit `N`, as each is that a
    /// scanner of this limit reports.
    pub fn from_borrowed(frame: &BorrowedFrame<'_>) -> Self
        requires limit { IsLimit N }
        requires content { IsContent N frame.now }
        ensures { result ≡ frame.now }
    {
        FrameOf::of_parts(
            frame.number(),
            frame.is_last(),
            TextOf::copied(frame.text()),
        )
    }

    /// The same frame.
    pub fn copy(&self) -> Self
        ensures { result ≡ self.now }
    {
        FrameOf::of_parts(self.number, self.last, self.text.copy())
    }

    /// The number, from 0 to 7.
    pub fn number(&self) -> u8
        ensures value { result ≡ self.now.number }
        ensures content { IsContent N self.now }
    {
        self.number
    }

    /// Whether the frame is the last of its message.
    pub fn is_last(&self) -> bool
        ensures { result ≡ self.now.last }
    {
        self.last
    }

    /// The text.
    pub fn text(&self) -> &TextOf<N>
        ensures { result.now ≡ self.now.text }
    {
        &self.text
    }
}
