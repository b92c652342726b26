//! A frame whose text is borrowed.

ghost use Rattle.std.specs.Prelude.{◌≡◌};

use std::marker::Model;

/// A frame whose text is borrowed from the bytes that it is in.
#[derive(Debug, Drop)]
pub struct BorrowedFrame<'a> {
    number: u8,
    last: bool,
    text: &'a [u8],
}

impl<'a> Model for BorrowedFrame<'a> {
    ghost use Rattle.lis_frame.specs.Frame.{FrameContent};

    ghost Value = { FrameContent };

    ghost view = { λ f. record { number = f.number; last = f.last; text = f.text.now } };
}

impl<'a> BorrowedFrame<'a> {
    /// The frame of these parts.
    pub(crate) fn of_parts(number: u8, last: bool, text: &'a [u8]) -> Self
        ensures { result ≡ record { number = number; last = last; text = text.now } }
    {
        BorrowedFrame { number, last, text }
    }

    /// The number.
    pub fn number(&self) -> u8
        ensures { result ≡ self.now.number }
    {
        self.number
    }

    /// Whether the frame is the last of its message.
    pub fn is_last(&self) -> bool
        ensures { result ≡ self.now.last }
    {
        self.last
    }

    /// The bytes of the text.
    pub fn text(&self) -> &'a [u8]
        ensures { result.now ≡ self.now.text }
    {
        self.text
    }
}
