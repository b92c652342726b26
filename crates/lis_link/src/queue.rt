//! The frames of a session, made one at a time from its texts.

ghost use Rattle.std.specs.Prelude.{◌≡◌, ◌<◌, ◌≤◌, ◌==◌, ◌∷◌, None, All, length, drop};
ghost use Rattle.lis_frame.specs.Limit.{IsLimit};
ghost use Rattle.lis_text.specs.LinkText.{longest_text};
ghost use Rattle.lis_text.specs.Text.{text_fault};
ghost use Rattle.lis_frame.specs.Pieces.{session_frames};

use crate::session_texts::SessionTexts;
use lis_frame::{FrameOf, next_number, split_at_of};
use std::marker::Model;

/// The texts of a session, and where its present frame is: the text, the offset in it, and the
/// number that is due.
#[derive(Drop)]
pub(crate) struct QueueOf<const N: usize, T: SessionTexts> {
    texts: T,
    index: usize,
    offset: usize,
    number: u8,
}

impl<const N: usize, T: SessionTexts> Model for QueueOf<N, T> {
    ghost use Rattle.lis_link.specs.Queue.{Queue};
    ghost use Rattle.lis_link.specs.inside.Queue.{frames_left, IsPlace};

    ghost Value = { Queue };

    ghost view = { λ q. record {
      texts = T.texts q.texts;
      left = frames_left N (T.texts q.texts) q.index q.offset q.number;
    } };

    ghost invariant = { λ q. IsPlace N (T.texts q.texts) q.index q.offset q.number };
}

impl<const N: usize, T: SessionTexts> QueueOf<N, T> {
    /// The frames of these texts, from the first on.
    pub(crate) fn new(texts: T) -> Self
        requires limit { IsLimit N }
        requires sendable { All (λ text. text_fault longest_text text ≡ None) (T.texts texts) }
        ensures texts { result.texts ≡ T.texts texts }
        ensures left { result.left ≡ session_frames N (T.texts texts) }
        ensures few { length (T.texts texts) ≤ 65536 }
    {
        // proof: that there are few texts is known from their number.
        let _ = texts.count();
        QueueOf {
            texts,
            index: 0,
            offset: 0,
            number: 1,
        }
    }

    /// Whether no frame is left.
    pub(crate) fn is_empty(&self) -> bool
        ensures { result ≡ (length self.now.left == 0) }
    {
        self.index == self.texts.count()
    }

    /// The present frame.
    pub(crate) fn frame(&self) -> FrameOf<N>
        requires { 0 < length self.now.left }
        ensures { self.now.left ≡ result ∷ drop 1 self.now.left }
    {
        let Some(text) = self.texts.text(self.index) else {
            unreachable!();
        };
        split_at_of(text, self.offset, self.number)
    }

    /// Goes on to the next frame.
    pub(crate) fn advance(&mut self)
        requires { 0 < length self.old.left }
        ensures texts { self.new.texts ≡ self.old.texts }
        ensures left { self.new.left ≡ drop 1 self.old.left }
    {
        let Some(text) = self.texts.text(self.index) else {
            unreachable!();
        };
        self.number = next_number(self.number);
        if text.len() - self.offset > N {
            self.offset += N;
            return;
        }
        self.index += 1;
        self.offset = 0;
    }
}
