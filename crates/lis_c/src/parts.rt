//! All parts of a record at once, and what the bytes of one mean, for programs in C (LIS02-A2, Delimiters). No call
//! takes memory.

ghost use Rattle.std.specs.Prelude.{◌≡◌, ◌≢◌, ◌≤◌, Some, length};
ghost use Rattle.lis_c.specs.Parts.{IsDelivered};
ghost use Rattle.lis_c.specs.Records.{IsCopied, delimiters_in, plain, record_status};
ghost use Rattle.lis_c.specs.Status.{BAD_DELIMITERS};
ghost use Rattle.lis_record_values.specs.declared.kinds.Kind.TheVariants as kinds;
ghost use Rattle.lis_record_values.specs.Delimiters.{DelimiterBytes, IsDelimiters};
ghost use Rattle.lis_record_values.specs.Escapes.{IsComponent};
ghost use Rattle.lis_record_values.specs.Shape.{RecordContent, Symbols};
ghost use Rattle.lis_record_values.specs.Text.{record_limit};
ghost use Rattle.lis_record_values.specs.declared.faults.RecordFault.{RecordFault};
ghost use Rattle.lis_record.specs.Faults.{header_fault, record_fault};
ghost use Rattle.lis_record_values.specs.Relation.{IsRecord};
ghost use Rattle.lis_table.specs.Table.{table_of};

use crate::records::{LisDelimiters, known, record_status, record_under, report_symbols};
use crate::status;
use lis_record::borrow_header;
use lis_record_read::BorrowedSymbols;
use lis_record_values::{Delimiters, Kind};
use lis_table::{LisPart, put_places};

/// Puts the places of all components of a header to the front of a table, in the text's order, and says how many they
/// are. Offsets are in the text; fields are counted as the standard does, from 3 in a header; repeats and components
/// from 0. `OK`; `TOO_SHORT`, and as many are put as there is room for; else as `lis_header_read`, and nothing is put.
/// A text has more bytes than components.
#[unsafe(no_mangle)]
pub extern "C" fn lis_header_parts(text: &[u8], out: &mut [LisPart], count: &mut usize) -> u8
    ensures found { (d : DelimiterBytes) (content : RecordContent) → IsDelimiters d → IsRecord d text.now content
        → content.kind ≡ kinds.H
        → IsDelivered (table_of d content.kind text.now) result out.old out.new count.new }
    ensures fault { (fault : RecordFault) → header_fault text.now ≡ Some fault
        → (result ≡ record_status fault) × (count.new ≡ 0) × (out.new ≡ out.old) }
{
    *count = 0;
    match borrow_header(text) {
        Ok(header) => report_parts(header.delimiters(), header.kind(), text, out, count),
        Err(fault) => record_status(fault),
    }
}

/// The same of any other record under the delimiters of its message; its first field after the letter has number 2.
/// `BAD_DELIMITERS` if these are invalid.
#[unsafe(no_mangle)]
pub extern "C" fn lis_record_parts(
    delimiters: &LisDelimiters,
    text: &[u8],
    out: &mut [LisPart],
    count: &mut usize,
) -> u8
    ensures found { (content : RecordContent) → IsDelimiters (delimiters_in delimiters.now)
        → IsRecord (delimiters_in delimiters.now) text.now content → content.kind ≢ kinds.H
        → IsDelivered (table_of (delimiters_in delimiters.now) content.kind text.now) result out.old out.new
        count.new }
    ensures fault { (fault : RecordFault) → IsDelimiters (delimiters_in delimiters.now)
        → record_fault (delimiters_in delimiters.now) text.now ≡ Some fault
        → (result ≡ record_status fault) × (count.new ≡ 0) × (out.new ≡ out.old) }
    ensures delimiters { (IsDelimiters (delimiters_in delimiters.now) → ⊥)
        → (result ≡ BAD_DELIMITERS) × (count.new ≡ 0) × (out.new ≡ out.old) }
{
    *count = 0;
    match record_under(delimiters, text) {
        Ok(entry) => report_parts(entry.delimiters(), entry.kind(), text, out, count),
        Err(fault) => record_status(fault),
    }
}

/// Copies what the bytes of a component mean, without its escapes, to the front of a buffer, and says how many bytes
/// they are: `OK`; `TOO_SHORT` if the buffer is (one as long as the component never is); or `BAD_DELIMITERS`.
#[unsafe(no_mangle)]
pub extern "C" fn lis_part_decode(
    delimiters: &LisDelimiters,
    part: &[u8],
    out: &mut [u8],
    size: &mut usize,
) -> u8
    ensures decoded { (symbols : Symbols) → IsDelimiters (delimiters_in delimiters.now)
        → IsComponent (delimiters_in delimiters.now) part.now symbols
        → IsCopied (plain symbols) result out.old out.new size.new }
    ensures delimiters { (IsDelimiters (delimiters_in delimiters.now) → ⊥)
        → (result ≡ BAD_DELIMITERS) × (size.new ≡ 0) × (out.new ≡ out.old) }
    ensures length { length out.new ≡ length out.old }
{
    *size = 0;
    match known(delimiters) {
        Ok(known) => report_symbols(BorrowedSymbols::of_text(known, part), out, size),
        Err(_) => status::BAD_DELIMITERS,
    }
}

/// Puts a record's table.
pub(crate) fn report_parts(
    delimiters: Delimiters,
    kind: Kind,
    text: &[u8],
    out: &mut [LisPart],
    count: &mut usize,
) -> u8
    requires { length text.now ≤ record_limit }
    ensures { IsDelivered (table_of delimiters kind text.now) result out.old out.new count.new }
{
    *count = put_places(delimiters, kind, text, out);
    if *count > out.len() {
        status::TOO_SHORT
    } else {
        status::OK
    }
}
