//! The link texts of a message, one for each record.
ghost use Rattle.std.specs.Prelude.{◌≡◌, IfOk, IfErr, None, OnOk, Some, false, map};
ghost use Rattle.std.specs.List.{AllByRecursion, flat_map};
ghost use Rattle.lis_text.specs.LinkText.{longest_text};
ghost use Rattle.lis_text.specs.Text.{text_fault};
ghost use Rattle.lis_record_write.specs.WriteFaults.{check_fault};
ghost use Rattle.lis_record_write.specs.Encoding.{written};
ghost use Rattle.lis_message_texts.specs.Texts.{FitsInTexts, HasNoTexts};
ghost use Rattle.lis_message.specs.Writing.{AreWritable, message_bytes, message_texts_of};

use lis_message::{Message, check_message};
use lis_port::{Failed, Sink};
use lis_record::{Delimiters, Record, WriteFault, write_record};
use lis_text::{LinkText, MOST_TEXTS, Texts};
use lis_tree::Walk;
use std::alloc::{AllocError, Global};
use thiserror::Error;

/// Why a message has no texts.
#[derive(Clone, Copy, Debug, PartialEq, Eq, Error)]
pub enum TextsFault {
    /// The record at this place, from 1 for the header, can't be written; `Io` isn't among these.
    #[error("record {place}: {fault}")]
    BadRecord { place: u64, fault: WriteFault },
    /// There are more than 65,536 records.
    #[error("the message has more than 65536 records")]
    TooMany,
    /// A growth fails.
    #[error("memory ran out")]
    OutOfMemory,
}

/// A sink that keeps what it takes.
#[derive(Drop)]
struct TextSink {
    text: LinkText,
    failed: bool,
}

impl Sink for TextSink {
    ghost taken = { λ s. Some s.text };

    ghost sent = { λ s. Some s.text };

    ghost failed = { λ s. s.failed };

    fn write(&mut self, bytes: &[u8]) -> Result<usize, Failed> {
        match self.text.extend(bytes) {
            Ok(()) => Ok(bytes.len()),
            Err(_) => {
                self.failed = true;
                Err(Failed)
            }
        }
    }

    fn flush(&mut self) -> Result<(), Failed> {
        Ok(())
    }

    fn failed(&self) -> bool {
        self.failed
    }
}

/// The link text of a record that can be written under these delimiters: its encoding and CR (LIS02-A2, Delimiters).
pub fn record_text(
    alloc: Global,
    delimiters: Delimiters,
    entry: &Record,
) -> Result<LinkText, AllocError>
    requires { check_fault delimiters entry.now ≡ None }
    ensures { IfOk result (λ text. text ≡ written delimiters entry.now) }
{
    let mut sink = TextSink {
        text: LinkText::new(alloc),
        failed: false,
    };
    match write_record(&mut sink, &delimiters, entry) {
        Ok(()) => {
            let TextSink { text, failed: _ } = sink;
            Ok(text)
        }
        Err(_) => Err(AllocError),
    }
}

/// The texts of the records that are left, of which there are few enough.
fn texts_of(alloc: Global, delimiters: Delimiters, walk: Walk<'_>) -> Result<Texts, AllocError>
    requires writable { AreWritable delimiters walk }
    ensures { IfOk result (λ texts. texts ≡ map (written delimiters) walk.entry) }
{
    let mut texts = Texts::new(alloc);
    let mut walk = walk;
    while let Some(entry) = walk.next() {
        let text = record_text(alloc, delimiters, entry)?;
        if texts.push(text).is_err() {
            return Err(AllocError);
        }
    }
    Ok(texts)
}

/// The link texts of a message: one for each record, its encoding and CR. All records are tested first, then their
/// number.
pub fn message_texts(alloc: Global, message: &Message) -> Result<Texts, TextsFault>
    ensures ok { IfOk result (λ texts. texts ≡ message_texts_of message.now) }
    ensures only { OnOk result (FitsInTexts message.now) }
    ensures joined { IfOk result (λ texts. flat_map (λ text. text) texts ≡ message_bytes message.now) }
    ensures sent { IfOk result (AllByRecursion (λ text. text_fault longest_text text ≡ None)) }
    ensures err { IfErr result (HasNoTexts message.now) }
{
    if let Err(fault) = check_message(message) {
        return Err(TextsFault::BadRecord {
            place: fault.place,
            fault: fault.fault,
        });
    }
    if message.len() > MOST_TEXTS as u64 {
        return Err(TextsFault::TooMany);
    }
    match texts_of(alloc, message.delimiters(), Walk::new(message)) {
        Ok(texts) => Ok(texts),
        Err(_) => Err(TextsFault::OutOfMemory),
    }
}
