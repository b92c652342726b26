//! The line that answers a call.

use std::alloc::Global;
use std::mem::drop;

/// Why a call has no answer.
#[derive(Clone, Copy)]
pub(crate) enum Trouble {
    /// The line is no call, or the call isn't possible where it is.
    NoCall,
    /// Memory ran out.
    OutOfMemory,
}

/// The words of an answer, with a space between two. After the first trouble it takes no more and has no line.
#[derive(Drop)]
pub(crate) struct Answer {
    pub(crate) alloc: Global,
    line: String,
    trouble: Option<Trouble>,
}

impl Answer {
    /// An answer without a word.
    pub(crate) fn new(alloc: Global) -> Self {
        Answer {
            alloc,
            line: String::new(alloc),
            trouble: None,
        }
    }

    /// The line, or what is in its place.
    pub(crate) fn line(&self) -> &str {
        match self.trouble {
            None => self.line.as_str(),
            Some(Trouble::NoCall) => "no call",
            Some(Trouble::OutOfMemory) => "out of memory",
        }
    }

    /// Whether it has a trouble.
    pub(crate) fn is_in_trouble(&self) -> bool {
        self.trouble.is_some()
    }

    /// Whether no word was put.
    pub(crate) fn is_empty(&self) -> bool {
        self.line.is_empty()
    }

    /// Remembers that the line is no call.
    pub(crate) fn no_call(&mut self) {
        self.trouble(Trouble::NoCall);
    }

    /// Remembers a trouble, if it is the first.
    pub(crate) fn trouble(&mut self, trouble: Trouble) {
        if self.trouble.is_none() {
            self.trouble = Some(trouble);
        }
    }

    /// What was made; if memory runs out to it nothing, which is remembered.
    pub(crate) fn made<T: Drop, E: Drop>(&mut self, made: Result<T, E>) -> Option<T> {
        if made.is_err() {
            self.trouble(Trouble::OutOfMemory);
        }
        made.ok()
    }

    /// Remembers if memory runs out.
    pub(crate) fn needs<E: Drop>(&mut self, done: Result<(), E>) {
        if done.is_err() {
            self.trouble(Trouble::OutOfMemory);
        }
        drop(done);
    }

    /// Puts a space after the words, where there are any.
    pub(crate) fn part(&mut self) {
        if !self.line.is_empty() {
            self.text(" ");
        }
    }

    /// Begins a word with this text.
    pub(crate) fn word(&mut self, text: &str) {
        self.part();
        self.text(text);
    }

    /// Goes on with this text.
    pub(crate) fn text(&mut self, text: &str) {
        if self.trouble.is_none() {
            let put = self.line.push_str(text);
            self.needs(put);
        }
    }

    /// Goes on with a letter.
    pub(crate) fn letter(&mut self, letter: u8) {
        if self.trouble.is_none() {
            let put = self.line.push(char::from(letter));
            self.needs(put);
        }
    }

    /// Goes on with the words of another answer, which may be in trouble.
    pub(crate) fn answer(&mut self, other: &Answer) {
        match other.trouble {
            None => self.text(other.line.as_str()),
            Some(trouble) => self.trouble(trouble),
        }
    }

    /// Goes on with a text and a number.
    pub(crate) fn number(&mut self, text: &str, number: u64) {
        self.text(text);
        if self.trouble.is_none() {
            let put = write!(self.line, "{number}");
            self.needs(put);
        }
    }

    /// Goes on with a text and a byte's two digits.
    pub(crate) fn byte(&mut self, text: &str, byte: u8) {
        self.text(text);
        if self.trouble.is_none() {
            let put = write!(self.line, "{byte:02x}");
            self.needs(put);
        }
    }

    /// Goes on with a text and the digits of bytes, `-` where there are none.
    pub(crate) fn bytes(&mut self, text: &str, bytes: &[u8]) {
        self.text(text);
        if bytes.is_empty() {
            self.text("-");
        } else if self.trouble.is_none() {
            self.digits(bytes);
        }
    }

    /// Goes on with the digits of bytes.
    fn digits(&mut self, bytes: &[u8]) {
        let digits = hex::encode(self.alloc, bytes);
        if let Some(digits) = self.made(digits) {
            self.text(digits.as_str());
        }
    }

    /// Goes on with a text and a list of texts, `none` where there are none.
    pub(crate) fn texts(&mut self, name: &str, texts: &[lis_text::LinkText]) {
        self.text(name);
        if texts.is_empty() {
            self.text("none");
        }
        let mut between = "";
        for text in texts {
            self.bytes(between, text.as_slice());
            between = ",";
        }
    }
}
