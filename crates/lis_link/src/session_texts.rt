//! What holds the texts of a session: a list of its own, or slices that stay with the caller.

ghost use Rattle.std.specs.Prelude.{◌≡◌, ℕ, ◌≤◌, List, length, map, slice_get};
ghost use Rattle.std.specs.Option.{option_copied};

use lis_text::Texts;
use std::marker::Model;

/// What holds the texts of a session, at most 65,536.
pub trait SessionTexts: Drop {
    // The texts, in order.
    ghost texts: { Self → List (List ℕ) };

    /// The number of texts.
    fn count(&self) -> usize
        ensures value { result ≡ length (texts self.now) }
        ensures bound { result ≤ 65536 };

    /// The text at a place, from 0.
    fn text(&self, place: usize) -> Option<&[u8]>
        ensures { option_copied result ≡ slice_get (texts self.now) place };
}

impl SessionTexts for Texts {
    ghost texts = { λ t. t };

    fn count(&self) -> usize
        ensures value { result ≡ length self.now }
        ensures bound { result ≤ 65536 }
    {
        self.len()
    }

    fn text(&self, place: usize) -> Option<&[u8]>
        ensures { option_copied result ≡ slice_get self.now place }
    {
        self.get(place).map(|text| text.as_slice())
    }
}

/// The texts of a session where its caller has them, at most 65,536.
#[derive(Debug, Drop)]
pub struct BorrowedTexts<'a> {
    texts: &'a [&'a [u8]],
}

impl<'a> Model for BorrowedTexts<'a> {
    ghost use Rattle.std.specs.Prelude.{ℕ, ◌≤◌, List, length, map};

    ghost Value = { List (List ℕ) };

    ghost view = { λ t. map (λ text. text.now) t.texts.now };

    ghost invariant = { λ t. length t.texts.now ≤ 65536 };
}

impl<'a> BorrowedTexts<'a> {
    /// The texts of these slices, in order. There are at most 65,536 of them.
    pub fn new(texts: &'a [&'a [u8]]) -> Self
        requires { length texts.now ≤ 65536 }
        ensures value { result ≡ map (λ text. text.now) texts.now }
        ensures texts { ⟦<BorrowedTexts<'static> as SessionTexts>⟧.texts result ≡ map (λ text. text.now) texts.now }
    {
        BorrowedTexts { texts }
    }
}

impl SessionTexts for BorrowedTexts<'_> {
    ghost texts = { λ t. t };

    fn count(&self) -> usize
        ensures value { result ≡ length self.now }
        ensures bound { result ≤ 65536 }
    {
        self.texts.len()
    }

    fn text(&self, place: usize) -> Option<&[u8]>
        ensures { option_copied result ≡ slice_get self.now place }
    {
        self.texts.get(place).copied()
    }
}
