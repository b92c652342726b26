//! A call, and reading its words: numbers, bytes, texts. A word that reports none is a trouble of the answer.

use crate::answer::{Answer, Trouble};
use hex::FromHexError;
use lis_text::{LinkText, Texts};

/// A call: its name and its words, of which it takes those that it has use for.
#[derive(Clone, Copy)]
pub(crate) struct Call<'a> {
    pub(crate) name: &'a str,
    pub(crate) words: &'a [&'a str],
}

impl<'a> Call<'a> {
    /// The word at a place, from 0; without it the line is no call.
    pub(crate) fn word(self, place: usize, answer: &mut Answer) -> &'a str {
        match self.words.get(place) {
            Some(word) => *word,
            None => {
                answer.no_call();
                ""
            }
        }
    }

    /// The number that a word is.
    pub(crate) fn number(self, place: usize, answer: &mut Answer) -> u64 {
        match self.word(place, answer).parse() {
            Ok(number) => number,
            Err(_) => {
                answer.no_call();
                0
            }
        }
    }

    /// The bytes of a word.
    pub(crate) fn bytes(self, place: usize, answer: &mut Answer) -> Vec<u8> {
        bytes_of(self.word(place, answer), answer)
    }
}

/// The bytes of a word: pairs of hexadecimal digits, or `-` for none.
pub(crate) fn bytes_of(word: &str, answer: &mut Answer) -> Vec<u8> {
    let digits = if word == "-" { "" } else { word };
    match hex::decode(answer.alloc, digits) {
        Ok(bytes) => bytes,
        Err(fault) => {
            answer.trouble(match fault {
                FromHexError::OutOfMemory => Trouble::OutOfMemory,
                _ => Trouble::NoCall,
            });
            Vec::new(answer.alloc)
        }
    }
}

/// The byte of a word of two hexadecimal digits.
pub(crate) fn byte_of(word: &str, answer: &mut Answer) -> u8 {
    byte_of_digits(word.as_bytes(), answer)
}

/// The byte of two hexadecimal digits.
pub(crate) fn byte_of_digits(digits: &[u8], answer: &mut Answer) -> u8 {
    let mut byte = [0];
    if hex::decode_to_slice(digits, &mut byte).is_err() {
        answer.no_call();
    }
    byte[0]
}

/// The link text of a word of bytes.
pub(crate) fn link_text_of(word: &str, answer: &mut Answer) -> LinkText {
    LinkText::from_vec(bytes_of(word, answer))
}

/// The texts of a word: bytes with `,` between two texts, or `none`.
pub(crate) fn texts_of(word: &str, answer: &mut Answer) -> Texts {
    let mut texts = Texts::new(answer.alloc);
    if word != "none" {
        for text in word.split(',') {
            let pushed = texts.push(link_text_of(text, answer));
            answer.needs(pushed);
        }
    }
    texts
}
