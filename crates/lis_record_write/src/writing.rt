//! Writing records and fields to a sink, without memory (LIS02-A2, Delimiters).

ghost use Rattle.std.specs.Prelude.{◌≡◌, ◌+◌, ◌-◌, ◌^◌, min, ◌<◌, ◌≤◌, ◌++◌, [], ◌↔◌, length, drop, false, not};
ghost use Rattle.std.specs.Prelude.{IsTrue, OnOk, MatchResult, position, None, Some};
ghost use Rattle.lis_record_write.specs.WriteFaults.{bad_field_number, check_fault, field_char_fault, field_fault};
ghost use Rattle.lis_record_write.specs.WriteFaults.{is_text_component, is_text_field, is_text_repeat, is_text_symbol};
ghost use Rattle.lis_record_values.specs.Relation.{IsRecord, declared_part};
ghost use Rattle.lis_record_values.specs.Shape.{IsRecordShape, first_number};
ghost use Rattle.lis_record_write.specs.Encoding.{encoded, encoded_field, written};
ghost use Rattle.lis_record_write.specs.declared.faults.WriteFault.TheVariants as write_faults;
ghost use Rattle.lis_record_write.specs.Writing.{Wrote, WroteAny, is_io};
ghost use Rattle.lis_record_write.specs.inside.Writing.{SentOn};

use crate::chunk::Chunk;
use crate::cursor::{Cursor, Encoding};
use crate::faults::{WriteFault, WriteResult};
use lis_port::{Sink, write_all};
use lis_record_values::{Component, Delimiters, Field, Kind, Record, Repeat, Sym, is_text_byte};

/// The most bytes that a record has, without its CR.
pub const RECORD_LIMIT: usize = 65_536;

// Writes the chunk from `left` on, and then what the cursor has; where the sink fails, the fault counts those
// that were passed before too.
fn send<W: Sink, S: Encoding>(
    sink: &mut W,
    chunk: &mut Chunk,
    cursor: &mut S,
    left: usize,
    passed: u64,
) -> WriteResult
    requires open_sink { W.failed sink.old ≡ false }
    requires within { left ≤ length chunk.old }
    requires filled { length chunk.old ≡ 0 → S.left cursor.old ≡ [] }
    ensures sent { SentOn passed (drop left chunk.old ++ S.left cursor.old) (W.taken sink.old) (W.taken sink.new)
        result }
    ensures failed { W.failed sink.new ≡ is_io result }
{
    let mut left = left;
    let mut passed = passed;
    while !chunk.is_empty() {
        let (_, bytes) = chunk.as_slice().split_at(left);
        if let Err(count) = write_all(sink, bytes) {
            return Err(WriteFault::Io(passed.saturating_add(count as u64)));
        }
        passed = passed.saturating_add(bytes.len() as u64);
        left = 0;
        chunk.clear();
        cursor.fill(chunk);
    }
    Ok(())
}

// Passes over the first bytes of what is left, and answers how many of the chunk's are still to be passed.
fn pass_over(chunk: &mut Chunk, cursor: &mut Cursor<'_>, skip: usize) -> usize
    requires skip { skip ≤ length (chunk.old ++ cursor.old) }
    requires filled { length chunk.old ≡ 0 → cursor.old ≡ [] }
    ensures rest { drop result chunk.new ++ cursor.new ≡ drop skip (chunk.old ++ cursor.old) }
    ensures within { result ≤ length chunk.new }
    ensures filled { length chunk.new ≡ 0 → cursor.new ≡ [] }
{
    let mut left = skip;
    while left > chunk.len() {
        left -= chunk.len();
        chunk.clear();
        cursor.fill(chunk);
    }
    left
}

// Whether at most so many bytes are left.
fn is_within(chunk: &mut Chunk, cursor: &mut Cursor<'_>, limit: usize) -> bool
    requires { length chunk.old ≡ 0 → cursor.old ≡ [] }
    ensures { IsTrue result ↔ (length (chunk.old ++ cursor.old) ≤ limit) }
{
    let mut room = limit;
    while !chunk.is_empty() {
        if chunk.len() > room {
            return false;
        }
        room -= chunk.len();
        chunk.clear();
        cursor.fill(chunk);
    }
    true
}

// Whether what a symbol carries as a character is a text byte.
fn is_text_symbol(symbol: &Sym) -> bool
    ensures { result ≡ is_text_symbol symbol.now }
{
    match symbol {
        Sym::Char(byte) => is_text_byte(*byte),
        _ => true,
    }
}

fn is_text_component(component: &Component) -> bool
    ensures { result ≡ is_text_component component.now }
{
    component.symbols().iter().all(is_text_symbol)
}

fn is_text_repeat(repeat: &Repeat) -> bool
    ensures { result ≡ is_text_repeat repeat.now }
{
    repeat.components().iter().all(is_text_component)
}

fn is_text_field(field: &Field) -> bool
    ensures { result ≡ is_text_field field.now }
{
    field.repeats().iter().all(is_text_repeat)
}

// The place of the first field with a character that is no text byte.
fn bad_field_place(fields: &[Field]) -> Option<usize>
    ensures { result ≡ position (λ field. not (is_text_field field)) fields.now }
{
    fields.iter().position(|field| !is_text_field(field))
}

// The number of the first field with a character that is no text byte.
fn bad_field_number(entry: &Record) -> Option<usize>
    ensures number { result ≡ bad_field_number entry.now }
    ensures shape { IsRecordShape entry.now }
{
    let first = entry.kind().first_number();
    match bad_field_place(entry.fields()) {
        Some(place) => Some(place + first),
        None => None,
    }
}

// Puts what is before a record's fields into the empty chunk, and fills it; the cursor has the rest.
fn begin_record<'a>(
    chunk: &mut Chunk,
    delimiters: Delimiters,
    entry: &'a Record,
    end: &'a [u8],
) -> Cursor<'a>
    requires { chunk.old ≡ [] }
    ensures whole { chunk.new ++ result ≡ encoded delimiters entry.now ++ end.now }
    ensures filled { length chunk.new ≡ 0 → result ≡ [] }
{
    chunk.push(entry.kind().letter());
    push_declared(chunk, delimiters, entry.kind());
    let mut cursor = Cursor::of_fields(delimiters, entry.fields(), end);
    cursor.fill(chunk);
    cursor
}

// Fills the empty chunk with a field; the cursor has the rest.
pub(crate) fn begin_field<'a>(
    chunk: &mut Chunk,
    delimiters: Delimiters,
    field: &'a Field,
) -> Cursor<'a>
    requires { chunk.old ≡ [] }
    ensures whole { chunk.new ++ result ≡ encoded_field delimiters field.now }
    ensures filled { length chunk.new ≡ 0 → result ≡ [] }
{
    let mut cursor = Cursor::of_field(delimiters, field);
    cursor.fill(chunk);
    cursor
}

// Puts what is between a record's letter and its fields into the chunk.
fn push_declared(chunk: &mut Chunk, delimiters: Delimiters, kind: Kind)
    requires { length chunk.old ≤ 4 }
    ensures { chunk.new ≡ chunk.old ++ declared_part delimiters kind }
{
    if let Kind::H = kind {
        chunk.push(delimiters.field());
        chunk.push(delimiters.repeat());
        chunk.push(delimiters.component());
        chunk.push(delimiters.escape());
    }
}

/// Whether a record can be written: the fault that `write_record` reports before it writes.
///
/// `CharNotText(number)`, where the field of that number is the first with a `Char` that is no text byte;
/// else `TooLong`, where the encoding has over 65,536 bytes. Never `Io`.
pub fn check_record(delimiters: &Delimiters, entry: &Record) -> WriteResult
    ensures fault { MatchResult result
        (λ _. check_fault delimiters.now entry.now ≡ None)
        (λ fault. check_fault delimiters.now entry.now ≡ Some fault) }
    // What can be written is a text of the record.
    ensures related { OnOk result (IsRecord delimiters.now (encoded delimiters.now entry.now) entry.now) }
{
    // proof: what is encoded is read back, since delimiters are apart.
    let _ = delimiters.field();
    if let Some(number) = bad_field_number(entry) {
        return Err(WriteFault::CharNotText(number));
    }
    let mut chunk = Chunk::new();
    let mut cursor = begin_record(&mut chunk, *delimiters, entry, &[]);
    if !is_within(&mut chunk, &mut cursor, RECORD_LIMIT) {
        return Err(WriteFault::TooLong);
    }
    Ok(())
}

/// How many bytes a record's encoding has, without its CR, whether it can be written or not. It stays at the greatest
/// number.
pub fn encoded_length(delimiters: &Delimiters, entry: &Record) -> u64
    ensures { result ≡ min (length (encoded delimiters.now entry.now)) (2 ^ 64 - 1) }
{
    let mut chunk = Chunk::new();
    let mut cursor = begin_record(&mut chunk, *delimiters, entry, &[]);
    let mut count: u64 = 0;
    while !chunk.is_empty() {
        count = count.saturating_add(chunk.len() as u64);
        chunk.clear();
        cursor.fill(&mut chunk);
    }
    count
}

/// Writes a record's encoding and CR, without the first `skip` bytes of these, to a sink that has not failed. No more
/// bytes are skipped than there are.
///
/// `CharNotText` and `TooLong` are those of `check_record`, and then nothing was written. On `Io(count)` the
/// sink failed, and the first `count` bytes of the encoding and CR, those that were skipped among them, are out.
pub fn write_record_from<W: Sink>(
    sink: &mut W,
    delimiters: &Delimiters,
    entry: &Record,
    skip: u64,
) -> WriteResult
    requires open_sink { W.failed sink.old ≡ false }
    requires skip { skip ≤ length (written delimiters.now entry.now) }
    ensures wrote { Wrote (check_fault delimiters.now entry.now) skip (written delimiters.now entry.now)
        (W.taken sink.old) (W.taken sink.new) result }
    ensures failed { W.failed sink.new ≡ is_io result }
{
    if let Err(fault) = check_record(delimiters, entry) {
        return Err(fault);
    }
    let mut chunk = Chunk::new();
    let mut cursor = begin_record(&mut chunk, *delimiters, entry, b"\r");
    let left = pass_over(&mut chunk, &mut cursor, skip as usize);
    send(sink, &mut chunk, &mut cursor, left, skip)
}

/// Writes a record's encoding and CR to a sink that has not failed.
///
/// `CharNotText` and `TooLong` are those of `check_record`, and then nothing was written. On `Io(count)` the
/// sink failed, and the first `count` bytes of the encoding and CR are out. Nothing is tried again.
pub fn write_record<W: Sink>(sink: &mut W, delimiters: &Delimiters, entry: &Record) -> WriteResult
    requires { W.failed sink.old ≡ false }
    ensures wrote { Wrote (check_fault delimiters.now entry.now) 0 (written delimiters.now entry.now)
        (W.taken sink.old) (W.taken sink.new) result }
    ensures failed { W.failed sink.new ≡ is_io result }
{
    write_record_from(sink, delimiters, entry, 0)
}

/// Writes a field's encoding alone, of any length, to a sink that has not failed.
///
/// `CharNotText(0)`, where it has a `Char` that is no text byte: then nothing was written. On `Io(count)` the
/// sink failed, and the first `count` bytes are out; the count stops at 18,446,744,073,709,551,615.
pub fn put_field<W: Sink>(sink: &mut W, delimiters: &Delimiters, field: &Field) -> WriteResult
    requires { W.failed sink.old ≡ false }
    ensures wrote { WroteAny (field_char_fault field.now) (encoded_field delimiters.now field.now)
        (W.taken sink.old) (W.taken sink.new) result }
    ensures failed { W.failed sink.new ≡ is_io result }
{
    if !is_text_field(field) {
        return Err(WriteFault::CharNotText(0));
    }
    put_encoding(sink, Cursor::of_field(*delimiters, field))
}

/// Writes an encoding alone, of any length, to a sink that has not failed.
///
/// On `Io(count)` the sink failed, and the first `count` bytes are out; the count stops at
/// 18,446,744,073,709,551,615. There is no other fault.
pub fn put_encoding<W: Sink, S: Encoding + Drop>(sink: &mut W, encoding: S) -> WriteResult
    requires { W.failed sink.old ≡ false }
    ensures wrote { WroteAny None (S.left encoding) (W.taken sink.old) (W.taken sink.new) result }
    ensures failed { W.failed sink.new ≡ is_io result }
{
    let mut chunk = Chunk::new();
    let mut rest = encoding;
    rest.fill(&mut chunk);
    send(sink, &mut chunk, &mut rest, 0, 0)
}

// Whether a field is rejected for the length of its encoding alone.
fn is_too_long(delimiters: Delimiters, field: &Field) -> bool
    ensures { IsTrue result ↔ (field_fault delimiters field.now ≡ Some write_faults.TooLong) }
{
    if !is_text_field(field) {
        return false;
    }
    let mut chunk = Chunk::new();
    let mut cursor = begin_field(&mut chunk, delimiters, field);
    !is_within(&mut chunk, &mut cursor, RECORD_LIMIT)
}

/// Writes a field's encoding alone to a sink that has not failed.
///
/// `CharNotText(0)`, where it has a `Char` that is no text byte; else `TooLong`, where the encoding has over
/// 65,536 bytes: then nothing was written. On `Io(count)` the sink failed, and the first `count` bytes are out.
pub fn write_field<W: Sink>(sink: &mut W, delimiters: &Delimiters, field: &Field) -> WriteResult
    requires { W.failed sink.old ≡ false }
    ensures wrote { Wrote (field_fault delimiters.now field.now) 0 (encoded_field delimiters.now field.now)
        (W.taken sink.old) (W.taken sink.new) result }
    ensures failed { W.failed sink.new ≡ is_io result }
{
    if is_too_long(*delimiters, field) {
        return Err(WriteFault::TooLong);
    }
    put_field(sink, delimiters, field)
}
