//! What a session carries: link texts, each a message of the layer above or a part of one.

ghost use Rattle.std.specs.Prelude.{◌≡◌, ◌==◌, ◌≤◌, ◌++◌, ◌∷◌, [], None, Some, MatchResult, IfErr, IfOk, OnOk, length};
ghost use Rattle.std.specs.Prelude.{map, slice_get};
ghost use Rattle.std.specs.Option.{option_copied};
ghost use Rattle.lis_text.specs.LinkText.{IsTextRefused, longest_text};
ghost use Rattle.lis_text.specs.Text.{text_fault};

use crate::text::{TextFault, check_bytes};
use lis_bytes::List;
use std::alloc::{AllocError, Global};
use std::marker::Model;
use thiserror::Error;

/// The most bytes that a link text has.
pub const LONGEST_TEXT: usize = 1_048_576;

/// The most texts that a session has.
pub const MOST_TEXTS: usize = 65_536;

/// A text that frames carry over the link, in pieces.
pub type LinkText = List<u8>;

/// Whether bytes are a link text: their number is tested first, then each byte from the front.
pub fn check_text(bytes: &[u8]) -> Result<(), TextFault>
    ensures { MatchResult result (λ _. text_fault longest_text bytes.now ≡ None)
        (λ fault. text_fault longest_text bytes.now ≡ Some fault) }
{
    check_bytes(bytes, LONGEST_TEXT)
}

/// The texts of a session, at most 65,536.
#[derive(Debug, PartialEq, Eq, Drop)]
pub struct Texts {
    texts: List<LinkText>,
}

impl Model for Texts {
    ghost use Rattle.std.specs.Prelude.{ℕ, ◌≤◌, List, length};

    ghost Value = { List (List ℕ) };

    ghost view = { λ t. t.texts };

    ghost invariant = { λ t. length t.texts ≤ 65536 };

    ghost inverse = { λ texts. record { texts = texts } };
}

/// Why a text was not put to the others; it comes back.
#[derive(Debug, PartialEq, Eq, Drop, Error)]
pub enum TextRefused {
    /// There are as many texts as a session has.
    #[error("a session has 65536 texts at most")]
    Full(LinkText),
    /// Memory ran out.
    #[error("memory ran out")]
    OutOfMemory(LinkText),
}

impl Texts {
    /// No text. It reserves nothing.
    pub fn new(alloc: Global) -> Self
        ensures { result ≡ [] }
    {
        Texts {
            texts: List::new(alloc),
        }
    }

    /// The texts of these slices, in order, each with memory of its own. There are at most 65,536 of them.
    pub fn from_slices(alloc: Global, slices: &[&[u8]]) -> Result<Self, AllocError>
        requires { length slices.now ≤ 65536 }
        ensures { IfOk result (λ texts. texts ≡ map (λ slice. slice.now) slices.now) }
    {
        let mut texts = List::new(alloc);
        for slice in slices {
            texts.push(List::from_slice(alloc, slice)?)?;
        }
        Ok(Texts { texts })
    }

    /// The same texts once more, with memory of their own.
    pub fn copy(&self, alloc: Global) -> Result<Self, AllocError>
        ensures { IfOk result (λ texts. texts ≡ self.now) }
    {
        let mut texts = List::new(alloc);
        for text in self.as_slice() {
            texts.push(List::from_slice(alloc, text.as_slice())?)?;
        }
        Ok(Texts { texts })
    }

    /// Puts a text at the end. That there are as many as a session has is reported before any lack
    /// of memory; in both cases the text comes back, and the texts are as before.
    pub fn push(&mut self, text: LinkText) -> Result<(), TextRefused>
        ensures ok { OnOk result (self.new ≡ self.old ++ text ∷ []) }
        ensures err { IfErr result (λ refused. IsTextRefused self.old text refused × (self.new ≡ self.old)) }
    {
        if self.texts.len() >= MOST_TEXTS {
            return Err(TextRefused::Full(text));
        }
        match self.texts.push(text) {
            Ok(()) => Ok(()),
            Err(refused) => Err(TextRefused::OutOfMemory(refused.value)),
        }
    }

    /// The number of texts.
    pub fn len(&self) -> usize
        ensures value { result ≡ length self.now }
        ensures bound { result ≤ 65536 }
    {
        self.texts.len()
    }

    /// Whether there is no text.
    pub fn is_empty(&self) -> bool
        ensures { result ≡ (length self.now == 0) }
    {
        self.texts.is_empty()
    }

    /// The text at a place, from 0.
    pub fn get(&self, place: usize) -> Option<&LinkText>
        ensures { option_copied result ≡ slice_get self.now place }
    {
        self.texts.get(place)
    }

    /// The texts, as a slice.
    pub fn as_slice(&self) -> &[LinkText]
        ensures value { result.now ≡ self.now }
        ensures bound { length self.now ≤ 65536 }
    {
        self.texts.as_slice()
    }
}
