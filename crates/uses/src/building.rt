//! Building a message of results, and its link texts.

ghost use Rattle.std.specs.Prelude.{◌≡◌, ◌++◌, ◌∷◌, [], IfErr, IfOk, OnOk, map};
ghost use Rattle.lis_record_values.specs.Delimiters.{usual};
ghost use Rattle.lis_record_values.specs.Shape.{plain_component, plain_field};
ghost use Rattle.lis_record_write.specs.Encoding.{written};
ghost use Rattle.uses.specs.Building.{HasNoResultTexts, IsMemory, IsResultMessage};
ghost use Rattle.uses.specs.Building.{glucose_record, glucose_test, result_records};

use lis_message::{Message, MessageFault, Records};
use lis_message_texts::{Texts, TextsFault, message_texts};
use lis_record_values::{Component, Delimiters, Field, Kind, Record, Repeat};
use lis_tree::laws::whole_lists;
use std::alloc::{AllocError, Global};
use std::mem::drop;
use thiserror::Error;

/// Why there is nothing to send.
#[derive(Debug, Clone, Copy, PartialEq, Eq, Error)]
pub enum BuildFault {
    #[error("memory ran out")]
    Memory(#[from(alloc)] AllocError),
    #[error("no message: {0}")]
    Message(#[from] MessageFault),
    #[error("no texts: {0}")]
    Texts(#[from] TextsFault),
}

/// The message of one result: header, patient, order, result, and the record that closes it.
pub fn result_message(alloc: Global, sample: &[u8], value: &[u8]) -> Result<Message, BuildFault>
    ensures ok { IfOk result (IsResultMessage sample.now value.now) }
    ensures err { IfErr result IsMemory }
{
    whole_lists();
    let mut records = Records::new(alloc);
    push_result(alloc, &mut records, sample, value).map_err(BuildFault::Memory)?;
    Message::from_records(alloc, Delimiters::usual(), records).map_err(BuildFault::Message)
}

/// Adds its records.
fn push_result(
    alloc: Global,
    records: &mut Records,
    sample: &[u8],
    value: &[u8],
) -> Result<(), AllocError>
    ensures { OnOk result (records.new ≡ records.old ++ result_records sample.now value.now) }
{
    push_texts(alloc, records, Kind::H, &[])?;
    push_texts(alloc, records, Kind::P, &[b"1".as_slice()])?;
    push_texts(alloc, records, Kind::O, &[b"1".as_slice(), sample])?;
    records.push(glucose_record(alloc, value)?)?;
    push_texts(alloc, records, Kind::L, &[b"1".as_slice(), b"N".as_slice()])
}

/// Adds the record whose fields are these texts.
fn push_texts(
    alloc: Global,
    records: &mut Records,
    kind: Kind,
    texts: &[&[u8]],
) -> Result<(), AllocError>
    ensures { OnOk result (records.new ≡ records.old ++ record {
      kind = kind;
      fields = map (λ text. plain_field text.now) texts.now;
    } ∷ []) }
{
    Ok(records.push(Record::from_texts(alloc, kind, texts)?)?)
}

/// The record of a glucose result.
fn glucose_record(alloc: Global, value: &[u8]) -> Result<Record, AllocError>
    ensures { IfOk result (λ entry. entry ≡ glucose_record value.now) }
{
    let mut entry = Record::from_texts(alloc, Kind::R, &[b"1".as_slice()])?;
    entry.push(glucose_test(alloc)?)?;
    entry.push(Field::from_text(alloc, value)?)?;
    entry.push(Field::from_text(alloc, b"mmol/L")?)?;
    Ok(entry)
}

/// Its test, `^^^GLU`: a field of four components.
fn glucose_test(alloc: Global) -> Result<Field, AllocError>
    ensures { IfOk result (λ field. field ≡ glucose_test) }
{
    let mut test = Repeat::new(alloc, Component::new(alloc))?;
    push_name(alloc, &mut test, b"GLU")?;
    Ok(Field::new(alloc, test)?)
}

/// Adds the components of a test after the first: two without a symbol, and its name.
fn push_name(alloc: Global, test: &mut Repeat, name: &[u8]) -> Result<(), AllocError>
    ensures { OnOk result (test.new ≡ test.old ++ [] ∷ [] ∷ plain_component name.now ∷ []) }
{
    test.push(Component::new(alloc))?;
    test.push(Component::new(alloc))?;
    Ok(test.push(Component::from_text(alloc, name)?)?)
}

/// The texts that a sender takes for it: one for each record, with its CR.
pub fn result_texts(alloc: Global, sample: &[u8], value: &[u8]) -> Result<Texts, BuildFault>
    ensures ok { IfOk result (λ texts. texts ≡ map (written usual) (result_records sample.now value.now)) }
    ensures err { IfErr result (HasNoResultTexts sample.now value.now) }
{
    let message = result_message(alloc, sample, value)?;
    let texts = message_texts(alloc, &message).map_err(BuildFault::Texts);
    // By a call: what ends in place is released part by part, and the proof goes over each of them.
    drop(message);
    texts
}
