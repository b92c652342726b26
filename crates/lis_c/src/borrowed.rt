//! Texts that stay with a caller in C, and what holds those of a session.

ghost use Rattle.std.specs.Prelude.{◌≡◌, ◌≤◌, length, slice_get};
ghost use Rattle.std.specs.Option.{option_copied};
ghost use Rattle.lis_c.specs.Borrowed.{borrowed_bytes};
ghost use Rattle.lis_c.specs.Borrowed.{session_texts};

use lis_link::SessionTexts;
use lis_text::Texts;
use std::marker::Model;

/// A text that stays with its caller.
#[repr(C)]
#[derive(Drop)]
pub struct LisText {
    pub bytes: &'static [u8],
}

/// The texts of a session that stay with the caller, at most 65,536.
#[derive(Drop)]
pub struct CallerTexts {
    texts: &'static [LisText],
}

impl Model for CallerTexts {
    ghost use Rattle.std.specs.Prelude.{ℕ, ◌≤◌, List, length};

    ghost Value = { List (List ℕ) };

    ghost use Rattle.lis_c.specs.Borrowed.{borrowed_bytes};

    ghost view = { λ t. borrowed_bytes t.texts.now };

    ghost invariant = { λ t. length t.texts.now ≤ 65536 };
}

impl CallerTexts {
    /// The texts of this array, in order. There are at most 65,536 of them.
    pub(crate) fn new(texts: &'static [LisText]) -> Self
        requires { length texts.now ≤ 65536 }
        ensures { result ≡ borrowed_bytes texts.now }
    {
        CallerTexts { texts }
    }
}

impl SessionTexts for CallerTexts {
    ghost texts = { λ t. t };

    fn count(&self) -> usize
        ensures value { result ≡ length self.now }
        ensures bound { result ≤ 65536 }
    {
        self.texts.len()
    }

    fn text(&self, place: usize) -> Option<&[u8]>
        ensures { option_copied result ≡ slice_get self.now place }
    {
        match self.texts.get(place) {
            None => None,
            Some(text) => Some(text.bytes),
        }
    }
}

/// What holds the texts of a session: a list of copies, or the caller.
#[derive(Drop)]
pub enum OwnOrCallerTexts {
    Copied(Texts),
    Borrowed(CallerTexts),
}

impl SessionTexts for OwnOrCallerTexts {
    ghost texts = { session_texts };

    fn count(&self) -> usize
        ensures value { result ≡ length (session_texts self.now) }
        ensures bound { result ≤ 65536 }
    {
        match self {
            OwnOrCallerTexts::Copied(texts) => texts.count(),
            OwnOrCallerTexts::Borrowed(texts) => texts.count(),
        }
    }

    fn text(&self, place: usize) -> Option<&[u8]>
        ensures { option_copied result ≡ slice_get (session_texts self.now) place }
    {
        match self {
            OwnOrCallerTexts::Copied(texts) => texts.text(place),
            OwnOrCallerTexts::Borrowed(texts) => texts.text(place),
        }
    }
}
