//! Records for programs in C, read where they are (LIS02-A2, Delimiters). No call takes memory.

ghost use Rattle.std.specs.Prelude.{◌≡◌, ◌++◌, ◌≢◌, ◌<◌, ◌≤◌, length, drop, None, Some, Ok, Err};
ghost use Rattle.std.specs.Prelude.{IfOk, IfErr, IfSome, IfNone, MatchOption, MatchResult};
ghost use Rattle.std.specs.Option.{option_to_list};
ghost use Rattle.lis_c.specs.Records.{IsCopied, IsPart, ReportsRecordFault, ReportsRecord, delimiters_in, part_at};
ghost use Rattle.lis_c.specs.Records.{plain};
ghost use Rattle.lis_c.specs.Records.{no_record, record_place, record_status, symbol_bytes};
ghost use Rattle.lis_c.specs.Status.{BAD_DELIMITERS};
ghost use Rattle.lis_record_values.specs.declared.kinds.Kind.TheVariants as kinds;
ghost use Rattle.lis_record_values.specs.Delimiters.{DelimiterBytes, IsDelimiters};
ghost use Rattle.lis_record_values.specs.Shape.{RecordContent};
ghost use Rattle.lis_record_values.specs.Text.{record_limit};
ghost use Rattle.lis_record_values.specs.declared.faults.RecordFault.{RecordFault};
ghost use Rattle.lis_record.specs.Faults.{header_fault, record_fault};
ghost use Rattle.lis_record.specs.Borrowed.{borrowed};
ghost use Rattle.lis_record_values.specs.Relation.{IsRecord};

use crate::status;
use lis_record::{
    BorrowedComponent, BorrowedRecord, BorrowedSymbols, DelimiterPartFault, RecordFault,
    borrow_header, borrow_record,
};
use lis_record_values::{DelimiterFault, Delimiters, Sym};

/// The delimiters of a message, in the order of its header.
#[repr(C)]
#[derive(Drop)]
pub struct LisDelimiters {
    pub field: u8,
    pub repeat: u8,
    pub component: u8,
    pub escape: u8,
}

/// A record: its letter in upper case, and the number of its fields after the letter, or after a header's delimiters.
/// Where the text is invalid they are 0, and the place is that of the byte that no text may hold.
#[repr(C)]
#[derive(Drop)]
pub struct LisRecord {
    pub letter: u8,
    pub fields: usize,
    pub place: usize,
}

/// Reads a header, a text without its CR, and the delimiters that it declares: `OK`, or the first of `NO_RECORD`,
/// `BAD_LETTER`, `BAD_DELIMITERS`, `FORBIDDEN` (with the byte's place) and `TOO_LONG`; then the delimiters stay.
#[unsafe(no_mangle)]
pub extern "C" fn lis_header_read(
    text: &[u8],
    delimiters: &mut LisDelimiters,
    out: &mut LisRecord,
) -> u8
    ensures found { (d : DelimiterBytes) (content : RecordContent) → IsDelimiters d → IsRecord d text.now content
        → content.kind ≡ kinds.H → ReportsRecord content result out.new × (delimiters_in delimiters.new ≡ d) }
    ensures fault { (fault : RecordFault) → header_fault text.now ≡ Some fault
        → ReportsRecordFault fault result out.new × (delimiters.new ≡ delimiters.old) }
{
    match borrow_header(text) {
        Ok(entry) => {
            let declared = entry.delimiters();
            report_delimiters(declared, delimiters);
            report(&entry, out)
        }
        Err(fault) => refuse(fault, out),
    }
}

/// Reads any other record under the delimiters of its message: `OK`, `BAD_DELIMITERS` where these are invalid, or the
/// first of `NO_RECORD`, `BAD_LETTER`, `FORBIDDEN` (with the byte's place) and `TOO_LONG`.
#[unsafe(no_mangle)]
pub extern "C" fn lis_record_read(
    delimiters: &LisDelimiters,
    text: &[u8],
    out: &mut LisRecord,
) -> u8
    ensures found { (content : RecordContent) → IsDelimiters (delimiters_in delimiters.now)
        → IsRecord (delimiters_in delimiters.now) text.now content → content.kind ≢ kinds.H
        → ReportsRecord content result out.new }
    ensures fault { (fault : RecordFault) → IsDelimiters (delimiters_in delimiters.now)
        → record_fault (delimiters_in delimiters.now) text.now ≡ Some fault → ReportsRecordFault fault result out.new }
    ensures delimiters { (IsDelimiters (delimiters_in delimiters.now) → ⊥)
        → (result ≡ BAD_DELIMITERS) × (out.new ≡ no_record) }
{
    match record_under(delimiters, text) {
        Ok(entry) => report(&entry, out),
        Err(fault) => refuse(fault, out),
    }
}

/// Copies the bytes of a header's component, without its escapes, to the front of a buffer, and says how many they
/// are. Fields are counted as the standard does, from 3 in a header; repeats and components from 0. `OK`, `ABSENT`
/// where there is none, `TOO_SHORT` where the buffer is (one as long as the text never is), else as `lis_header_read`.
#[unsafe(no_mangle)]
pub extern "C" fn lis_header_part(
    text: &[u8],
    field: usize,
    repeat: usize,
    component: usize,
    out: &mut [u8],
    size: &mut usize,
) -> u8
    ensures part { (d : DelimiterBytes) (content : RecordContent) → IsDelimiters d → IsRecord d text.now content
        → content.kind ≡ kinds.H → IsPart (part_at content field repeat component) result out.old out.new size.new }
    ensures fault { (fault : RecordFault) → header_fault text.now ≡ Some fault
        → (result ≡ record_status fault) × (size.new ≡ 0) × (out.new ≡ out.old) }
{
    *size = 0;
    match borrow_header(text) {
        Ok(header) => copy_part(&header, field, repeat, component, out, size),
        Err(fault) => record_status(fault),
    }
}

/// The same of any other record under the delimiters of its message; its first field after the letter has number 2.
#[unsafe(no_mangle)]
pub extern "C" fn lis_record_part(
    delimiters: &LisDelimiters,
    text: &[u8],
    field: usize,
    repeat: usize,
    component: usize,
    out: &mut [u8],
    size: &mut usize,
) -> u8
    ensures part { (content : RecordContent) → IsDelimiters (delimiters_in delimiters.now)
        → IsRecord (delimiters_in delimiters.now) text.now content → content.kind ≢ kinds.H
        → IsPart (part_at content field repeat component) result out.old out.new size.new }
    ensures fault { (fault : RecordFault) → IsDelimiters (delimiters_in delimiters.now)
        → record_fault (delimiters_in delimiters.now) text.now ≡ Some fault
        → (result ≡ record_status fault) × (size.new ≡ 0) × (out.new ≡ out.old) }
    ensures delimiters { (IsDelimiters (delimiters_in delimiters.now) → ⊥)
        → (result ≡ BAD_DELIMITERS) × (size.new ≡ 0) × (out.new ≡ out.old) }
{
    *size = 0;
    match record_under(delimiters, text) {
        Ok(entry) => copy_part(&entry, field, repeat, component, out, size),
        Err(fault) => record_status(fault),
    }
}

/// The delimiters that four bytes are.
pub(crate) fn known(delimiters: &LisDelimiters) -> Result<Delimiters, DelimiterFault>
    ensures found { IfOk result (λ known. (known ≡ delimiters_in delimiters.now) × IsDelimiters known) }
    ensures none { IfErr result (λ _. IsDelimiters (delimiters_in delimiters.now) → ⊥) }
{
    Delimiters::new(
        delimiters.field,
        delimiters.repeat,
        delimiters.component,
        delimiters.escape,
    )
}

/// The record, other than a header, that a text is under these delimiters.
pub(crate) fn record_under<'a>(
    delimiters: &LisDelimiters,
    text: &'a [u8],
) -> Result<BorrowedRecord<'a>, RecordFault>
    ensures only { (content : RecordContent) → IsDelimiters (delimiters_in delimiters.now)
        → IsRecord (delimiters_in delimiters.now) text.now content → content.kind ≢ kinds.H
        → result ≡ Ok (borrowed (delimiters_in delimiters.now) content) }
    ensures fault { (fault : RecordFault) → IsDelimiters (delimiters_in delimiters.now)
        → record_fault (delimiters_in delimiters.now) text.now ≡ Some fault → result ≡ Err fault }
    ensures delimiters { (IsDelimiters (delimiters_in delimiters.now) → ⊥)
        → MatchResult result (λ _. ⊥)
        (λ fault. (record_status fault ≡ BAD_DELIMITERS) × (record_place fault ≡ 0)) }
    ensures short { IfOk result (λ _. length text.now ≤ record_limit) }
{
    match known(delimiters) {
        Ok(known) => borrow_record(&known, text),
        Err(fault) => Err(RecordFault::DelimiterPart(DelimiterPartFault::Fault(fault))),
    }
}

/// Reports the delimiters of a message.
pub(crate) fn report_delimiters(known: Delimiters, out: &mut LisDelimiters)
    ensures { delimiters_in out.new ≡ known }
{
    out.field = known.field();
    out.repeat = known.repeat();
    out.component = known.component();
    out.escape = known.escape();
}

/// Reports a record.
fn report(entry: &BorrowedRecord<'_>, out: &mut LisRecord) -> u8
    ensures { ReportsRecord entry.now.content result out.new }
{
    out.letter = entry.kind().letter();
    out.fields = entry.len();
    out.place = 0;
    status::OK
}

/// Reports why a text is invalid.
fn refuse(fault: RecordFault, out: &mut LisRecord) -> u8
    ensures { ReportsRecordFault fault result out.new }
{
    out.letter = 0;
    out.fields = 0;
    out.place = record_place(fault);
    record_status(fault)
}

/// The status of a text that is no record.
pub(crate) fn record_status(fault: RecordFault) -> u8
    ensures { result ≡ record_status fault }
{
    match fault {
        RecordFault::Empty => status::NO_RECORD,
        RecordFault::UnknownKind(_) => status::BAD_LETTER,
        RecordFault::DelimiterPart(_) => status::BAD_DELIMITERS,
        RecordFault::Byte(_) => status::FORBIDDEN,
        RecordFault::TooLong => status::TOO_LONG,
        RecordFault::OutOfMemory => status::OUT_OF_MEMORY,
    }
}

/// The place of the byte that no text may hold; 0 for any other fault.
pub(crate) fn record_place(fault: RecordFault) -> usize
    ensures { result ≡ record_place fault }
{
    match fault {
        RecordFault::Byte(place) => place,
        _ => 0,
    }
}

/// Copies the bytes of a component.
pub(crate) fn copy_part(
    entry: &BorrowedRecord<'_>,
    field: usize,
    repeat: usize,
    component: usize,
    out: &mut [u8],
    size: &mut usize,
) -> u8
    requires { size.old ≡ 0 }
    ensures { IsPart (part_at entry.now.content field repeat component) result out.old out.new size.new }
{
    let Some(part) = part(entry, field, repeat, component) else {
        return status::ABSENT;
    };
    report_symbols(part.symbols(), out, size)
}

/// Copies the bytes that symbols mean, and says how many they are.
pub(crate) fn report_symbols(symbols: BorrowedSymbols<'_>, out: &mut [u8], size: &mut usize) -> u8
    requires { size.old ≡ 0 }
    ensures copied { IsCopied (plain symbols.entry) result out.old out.new size.new }
    ensures length { length out.new ≡ length out.old }
{
    match copy_symbols(symbols, out) {
        Some(count) => {
            *size = count;
            status::OK
        }
        None => status::TOO_SHORT,
    }
}

/// The component at these places.
fn part<'a>(
    entry: &BorrowedRecord<'a>,
    field: usize,
    repeat: usize,
    component: usize,
) -> Option<BorrowedComponent<'a>>
    ensures { MatchOption result (part_at entry.now.content field repeat component ≡ None)
        (λ part. part_at entry.now.content field repeat component ≡ Some part.content) }
{
    let Some(field) = entry.field(field) else {
        return None;
    };
    let Some(repeat) = field.repeat(repeat) else {
        return None;
    };
    repeat.component(component)
}

/// Copies the bytes of symbols to the front of a buffer, and answers how many they are; none where it is too short.
fn copy_symbols(symbols: BorrowedSymbols<'_>, out: &mut [u8]) -> Option<usize>
    ensures length { length out.new ≡ length out.old }
    ensures some { IfSome result (λ count. (out.new ≡ plain symbols.entry ++ drop count out.old)
        × (count ≡ length (plain symbols.entry)) × (count ≤ length out.old)) }
    ensures none { IfNone result (length out.new < length (plain symbols.entry)) }
{
    let mut rest = symbols;
    let mut count = 0;
    while let Some(symbol) = rest.next() {
        if let Some(byte) = byte_of(symbol) {
            if count >= out.len() {
                return None;
            }
            out[count] = byte;
            count += 1;
        }
    }
    Some(count)
}

/// The byte that a symbol means; none for the marks of highlighting.
fn byte_of(symbol: Sym) -> Option<u8>
    ensures { option_to_list result ≡ symbol_bytes symbol }
{
    match symbol {
        Sym::Char(byte) => Some(byte),
        Sym::Raw(byte) => Some(byte),
        Sym::On => None,
        Sym::Off => None,
    }
}
