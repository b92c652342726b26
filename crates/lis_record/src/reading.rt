//! Reading a record from its text (LIS02-A2, Delimiters, and Data Record Usage Overview).

ghost use Rattle.std.specs.Prelude.{◌≡◌, ◌≢◌, IfOk, IfErr, MatchOption, MatchResult, Option, Some, None, true, false};
ghost use Rattle.lis_record_values.specs.Delimiters.{DelimiterBytes, IsDelimiters};
ghost use Rattle.lis_record.specs.Faults.{ReportsFault, delimiter_part_fault, header_fault, is_header_kind};
ghost use Rattle.lis_record.specs.Faults.{is_other_kind, record_fault, record_text_fault};
ghost use Rattle.lis_record_values.specs.Text.{trailing_byte, bad_byte_place};
ghost use Rattle.lis_record.specs.inside.Opening.{DeclaresDelimiters, OpensHeader, OpensRecord};
ghost use Rattle.lis_record.specs.Borrowing.{FindsHeader, FindsRecord, IsBorrowedHeader, IsBorrowedRecord};
ghost use Rattle.lis_record.specs.Borrowed.{record_in};
ghost use Rattle.lis_record_values.specs.Relation.{IsRecord};
ghost use Rattle.lis_record_values.specs.Shape.{RecordContent};
ghost use Rattle.lis_record_values.specs.declared.kinds.Kind.TheVariants as kinds;
ghost use Rattle.lis_record_values.specs.declared.faults.RecordFault.TheVariants.{OutOfMemory};
ghost use Rattle.lis_record_values.specs.Kinds.{kind_of};

use crate::borrowed::BorrowedRecord;
use lis_record_read::first_bad_byte;
use lis_record_values::{DelimiterPartFault, Delimiters, Kind, Record, RecordFault};
use lis_record_write::RECORD_LIMIT;
use std::alloc::{AllocError, Global};

// A byte that is no text byte, the first of which is at `bad`, else too many bytes.
#[tactic(auto, unfolding(crate::specs::Faults::record_text_fault))]
#[inline(always)]
fn record_text_fault(text: &[u8], bad: Option<usize>) -> Option<RecordFault>
    requires { bad ≡ bad_byte_place text.now }
    ensures { result ≡ record_text_fault text.now }
{
    if let Some(place) = bad {
        return Some(RecordFault::Byte(place));
    }
    if text.len() > RECORD_LIMIT {
        return Some(RecordFault::TooLong);
    }
    None
}

// A first byte other than the field delimiter.
#[inline(always)]
fn trailing_byte(field: u8, bytes: &[u8]) -> Option<u8>
    ensures { result ≡ trailing_byte field bytes.now }
{
    bytes.first().copied().filter(|byte| *byte != field)
}

// The kind of a record other than a header, by its letter.
#[inline(always)]
fn other_kind(letter: u8) -> Option<Kind>
    ensures { MatchOption result (is_other_kind (kind_of letter) ≡ false)
        (λ kind. (kind_of letter ≡ Some kind) × (is_other_kind (kind_of letter) ≡ true)) }
{
    match Kind::of_letter(letter) {
        None | Some(Kind::H) => None,
        Some(kind) => Some(kind),
    }
}

// Whether a letter is a header's.
#[inline(always)]
fn is_header_letter(letter: u8) -> bool
    ensures { result ≡ is_header_kind (kind_of letter) }
{
    matches!(Kind::of_letter(letter), Some(Kind::H))
}

// The kind of a text that is a record other than a header, and what follows its letter; else its first fault.
#[inline(always)]
fn open_record(
    delimiters: Delimiters,
    text: &[u8],
    bad: Option<usize>,
) -> Result<(Kind, &[u8]), RecordFault>
    requires { bad ≡ bad_byte_place text.now }
    ensures opened { MatchResult result
        (λ found. OpensRecord delimiters text.now found.0 found.1.now)
        (λ fault. record_fault delimiters text.now ≡ Some fault) }
    ensures shape { IsDelimiters delimiters }
{
    let field = delimiters.field();
    let Some((letter, rest)) = text.split_first() else {
        return Err(RecordFault::Empty);
    };
    let Some(kind) = other_kind(*letter) else {
        return Err(RecordFault::UnknownKind(*letter));
    };
    if let Some(byte) = trailing_byte(field, rest) {
        return Err(RecordFault::UnknownKind(byte));
    }
    if let Some(fault) = record_text_fault(text, bad) {
        return Err(fault);
    }
    Ok((kind, rest))
}

// The delimiters after a header's letter, and what follows them; else the first fault.
#[inline(always)]
fn read_delimiters(text: &[u8]) -> Result<(Delimiters, &[u8]), DelimiterPartFault>
    ensures { MatchResult result
        (λ found. DeclaresDelimiters text.now found.0 found.1.now)
        (λ fault. delimiter_part_fault text.now ≡ Some fault) }
{
    let [field, repeat, component, escape, rest @ ..] = text else {
        return Err(DelimiterPartFault::Short);
    };
    match Delimiters::new(*field, *repeat, *component, *escape) {
        Err(fault) => Err(DelimiterPartFault::Fault(fault)),
        Ok(delimiters) => match trailing_byte(*field, rest) {
            Some(byte) => Err(DelimiterPartFault::Trailing(byte)),
            None => Ok((delimiters, rest)),
        },
    }
}

// The delimiters of a text that is a header, and what follows them; else its first fault.
#[inline(always)]
fn open_header(text: &[u8], bad: Option<usize>) -> Result<(Delimiters, &[u8]), RecordFault>
    requires { bad ≡ bad_byte_place text.now }
    ensures { MatchResult result
        (λ found. OpensHeader text.now found.0 found.1.now)
        (λ fault. header_fault text.now ≡ Some fault) }
{
    let Some((letter, part)) = text.split_first() else {
        return Err(RecordFault::Empty);
    };
    if !is_header_letter(*letter) {
        return Err(RecordFault::UnknownKind(*letter));
    }
    match read_delimiters(part) {
        Err(fault) => Err(RecordFault::DelimiterPart(fault)),
        Ok(found) => match record_text_fault(text, bad) {
            Some(fault) => Err(fault),
            None => Ok(found),
        },
    }
}

/// Finds the record other than a header that a text without CR is, under these delimiters, where it is.
///
/// The answer is the record, else the first of these faults: `Empty`; `UnknownKind`, where the first byte
/// is no letter of such a record, in either case, or the second byte isn't the field delimiter; `Byte`;
/// `TooLong`. It takes no memory.
///
/// The first byte that no record may hold is at `bad`, as `first_bad_byte` finds it. It isn't looked for again.
#[inline(always)]
pub fn borrow_searched_record<'a>(
    delimiters: &Delimiters,
    text: &'a [u8],
    bad: Option<usize>,
) -> Result<BorrowedRecord<'a>, RecordFault>
    requires { bad ≡ bad_byte_place text.now }
    // What is found is the record that the text is.
    ensures found { IfOk result (λ entry. IsBorrowedRecord delimiters.now text.now entry) }
    // Its fields are after its letter.
    ensures place { IfOk result (λ entry. entry ≡ record_in entry.delimiters entry.content.kind text.now) }
    // A text that is a record is found to be it.
    ensures only { FindsRecord delimiters.now text.now result }
    // Which fault it is.
    ensures fault { MatchResult result (λ _. record_fault delimiters.now text.now ≡ None)
        (λ fault. record_fault delimiters.now text.now ≡ Some fault) }
{
    match open_record(*delimiters, text, bad) {
        Err(fault) => Err(fault),
        Ok((kind, rest)) => Ok(BorrowedRecord::of_parts(*delimiters, kind, rest)),
    }
}

/// Finds the record other than a header that a text without CR is, under these delimiters, where it is.
///
/// The answer is the record, else the first of these faults: `Empty`; `UnknownKind`, where the first byte
/// is no letter of such a record, in either case, or the second byte isn't the field delimiter; `Byte`;
/// `TooLong`. It takes no memory.
pub fn borrow_record<'a>(
    delimiters: &Delimiters,
    text: &'a [u8],
) -> Result<BorrowedRecord<'a>, RecordFault>
    // What is found is the record that the text is.
    ensures found { IfOk result (λ entry. IsBorrowedRecord delimiters.now text.now entry) }
    // Its fields are after its letter.
    ensures place { IfOk result (λ entry. entry ≡ record_in entry.delimiters entry.content.kind text.now) }
    // A text that is a record is found to be it.
    ensures only { FindsRecord delimiters.now text.now result }
    // Which fault it is.
    ensures fault { MatchResult result (λ _. record_fault delimiters.now text.now ≡ None)
        (λ fault. record_fault delimiters.now text.now ≡ Some fault) }
{
    borrow_searched_record(delimiters, text, first_bad_byte(text))
}

/// Finds the header that a text without CR is, under the delimiters that it declares, where it is.
///
/// The answer is the header, else the first of these faults: `Empty`; `UnknownKind`, where the first byte is
/// neither H nor h; `DelimiterPart`; `Byte`; `TooLong`. It takes no memory.
///
/// The first byte that no record may hold is at `bad`, as `first_bad_byte` finds it. It isn't looked for again.
#[inline(always)]
pub fn borrow_searched_header(
    text: &[u8],
    bad: Option<usize>,
) -> Result<BorrowedRecord<'_>, RecordFault>
    requires { bad ≡ bad_byte_place text.now }
    // What is found is the header that the text is, under the delimiters that it declares.
    ensures found { IfOk result (λ entry. IsBorrowedHeader text.now entry) }
    // Its fields are after its delimiters.
    ensures place { IfOk result (λ entry. entry ≡ record_in entry.delimiters entry.content.kind text.now) }
    // A text that is a header is found to be it.
    ensures only { FindsHeader text.now result }
    // Which fault it is.
    ensures fault { MatchResult result (λ _. header_fault text.now ≡ None)
        (λ fault. header_fault text.now ≡ Some fault) }
{
    match open_header(text, bad) {
        Err(fault) => Err(fault),
        Ok(found) => Ok(BorrowedRecord::of_parts(found.0, Kind::H, found.1)),
    }
}

/// Finds the header that a text without CR is, under the delimiters that it declares, where it is.
///
/// The answer is the header, else the first of these faults: `Empty`; `UnknownKind`, where the first byte is
/// neither H nor h; `DelimiterPart`; `Byte`; `TooLong`. It takes no memory.
pub fn borrow_header(text: &[u8]) -> Result<BorrowedRecord<'_>, RecordFault>
    // What is found is the header that the text is, under the delimiters that it declares.
    ensures found { IfOk result (λ entry. IsBorrowedHeader text.now entry) }
    // Its fields are after its delimiters.
    ensures place { IfOk result (λ entry. entry ≡ record_in entry.delimiters entry.content.kind text.now) }
    // A text that is a header is found to be it.
    ensures only { FindsHeader text.now result }
    // Which fault it is.
    ensures fault { MatchResult result (λ _. header_fault text.now ≡ None)
        (λ fault. header_fault text.now ≡ Some fault) }
{
    borrow_searched_header(text, first_bad_byte(text))
}

/// Reads a record other than a header, from its text without CR, under these delimiters.
///
/// The answer is the record, else the first of these faults: `Empty`; `UnknownKind`, where the first byte
/// is no letter of such a record, in either case, or the second byte isn't the field delimiter; `Byte`;
/// `TooLong`. `OutOfMemory` comes where none of these is and a growth fails.
pub fn read_record(
    alloc: Global,
    delimiters: &Delimiters,
    text: &[u8],
) -> Result<Record, RecordFault>
    // What is read is the record that the text is.
    ensures found { IfOk result (λ content. IsRecord delimiters.now text.now content × (content.kind ≢ kinds.H)) }
    // A text that is a record is read, unless memory runs out.
    ensures only { (content : RecordContent) → IsRecord delimiters.now text.now content → content.kind ≢ kinds.H
        → MatchResult result (λ found. found ≡ content) (λ fault. fault ≡ OutOfMemory) }
    // Which fault it is.
    ensures fault { IfErr result (λ fault. ReportsFault fault (record_fault delimiters.now text.now)) }
{
    match borrow_record(delimiters, text) {
        Err(fault) => Err(fault),
        Ok(entry) => match entry.to_record(alloc) {
            Ok(record) => Ok(record),
            Err(AllocError) => Err(RecordFault::OutOfMemory),
        },
    }
}

/// Reads a header from its text without CR, and the delimiters that it declares for its message.
///
/// The answer is these, else the first of these faults: `Empty`; `UnknownKind`, where the first byte is
/// neither H nor h; `DelimiterPart`; `Byte`; `TooLong`. `OutOfMemory` comes where none of these is and
/// a growth fails.
pub fn read_header(alloc: Global, text: &[u8]) -> Result<(Delimiters, Record), RecordFault>
    // What is read is the header that the text is, under the delimiters that it declares.
    ensures found { IfOk result (λ found. IsDelimiters found.0 × IsRecord found.0 text.now found.1
        × (found.1.kind ≡ kinds.H)) }
    // A text that is a header is read, unless memory runs out.
    ensures only { (d : DelimiterBytes) (content : RecordContent) → IsDelimiters d → IsRecord d text.now content
        → content.kind ≡ kinds.H
        → MatchResult result (λ found. (found.0 ≡ d) × (found.1 ≡ content)) (λ fault. fault ≡ OutOfMemory) }
    // Which fault it is.
    ensures fault { IfErr result (λ fault. ReportsFault fault (header_fault text.now)) }
{
    match borrow_header(text) {
        Err(fault) => Err(fault),
        Ok(entry) => match entry.to_record(alloc) {
            Ok(record) => Ok((entry.delimiters(), record)),
            Err(AllocError) => Err(RecordFault::OutOfMemory),
        },
    }
}
