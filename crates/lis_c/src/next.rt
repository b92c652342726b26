//! The next record of a stream and the last one, each with all its parts, for programs in C (LIS02-A2, Delimiters). No
//! call takes memory.

ghost use Rattle.std.specs.Prelude.{◌≡◌, ◌<◌, ◌≤◌, ◌∷◌, ◌++◌, [], ℕ, List, None, Option, length};
ghost use Rattle.lis_c.specs.Next.{IsSplitTable, ReadsNext, ReportsTable, no_table};
ghost use Rattle.lis_c.specs.Reading.{nothing};
ghost use Rattle.lis_record_values.specs.Text.{record_limit};
ghost use Rattle.lis_message.specs.Records.{HasLeft, IsRecordRefused};
ghost use Rattle.lis_message.specs.Stream.{LacksReturn};
ghost use Rattle.lis_tree.specs.Begun.{Begun};

use crate::handle_state::ReaderHandleState;
use crate::reader::{LisFound, LisReader, clear, report};
use crate::records::{LisDelimiters, report_delimiters};
use crate::status;
use lis_record::{BorrowedRecord, RECORD_LIMIT};
use lis_table::{LisPart, put_places};

/// The parts of a record that was read: how many they are, how many bytes its text has, and the delimiters that it is
/// read under.
#[repr(C)]
#[derive(Drop)]
pub struct LisTable {
    pub count: usize,
    pub len: usize,
    pub delimiters: LisDelimiters,
}

/// Reads the next record if it is whole in the bytes, with its CR, and answers how many bytes it read; `out` has it as
/// from `lis_reader_read`. All its parts are put to the front of `parts`, as by `lis_record_parts`; their offsets are
/// in the bytes. Its text is the bytes that were read without the last one, the CR: nothing is copied, held or
/// allocated.
///
/// It answers 0, and the reader is as it was, `out` and `table` are 0 and no part is put, if no CR is among the bytes,
/// if the record can't come next, after a fault, or if `lis_reader_read` holds bytes or found a record last: then
/// `lis_reader_read` says what there is.
#[unsafe(no_mangle)]
pub extern "C" fn lis_reader_next(
    s: &mut LisReader,
    bytes: &[u8],
    out: &mut LisFound,
    parts: &mut [LisPart],
    table: &mut LisTable,
) -> usize
    ensures read { 0 < result → (left : Option Begun) → HasLeft s.old.state.reader left →
        ReadsNext s.old.state.reader s.new.state.reader left bytes.now result out.new parts.old parts.new table.new }
    ensures none { result ≡ 0 → (s.new.state ≡ s.old.state) × (out.new ≡ nothing) × (parts.new ≡ parts.old)
        × (table.new ≡ no_table) }
    ensures clear { 0 < result → (s.old.state.reader.fault ≡ None) × (s.old.state.reader.held ≡ [])
        × (s.old.state.reader.split ≡ None) }
    ensures refused { result ≡ 0 → (left : Option Begun) → HasLeft s.old.state.reader left
        → s.old.state.reader.held ≡ [] → s.old.state.reader.split ≡ None → (text following : List ℕ) → LacksReturn text
        → bytes.now ≡ text ++ 13 ∷ following → IsRecordRefused left text }
{
    s.borrow().next(bytes, out, parts, table)
}

/// Puts all components of the record that `lis_reader_read` found last to the front of `out`, as `lis_record_parts`
/// does, in one pass over its text; their offsets are in that text, which `lis_reader_text` copies. `OK`; `TOO_SHORT`,
/// and as many are put as there is room for; `NO_RECORD` if none was found last, and `table` is 0 and no part is put.
#[unsafe(no_mangle)]
pub extern "C" fn lis_reader_parts(
    s: &mut LisReader,
    out: &mut [LisPart],
    table: &mut LisTable,
) -> u8
    ensures parts { IsSplitTable s.old.state.reader.split s.old.state.reader.split_text result out.old out.new
        table.new }
    ensures same { s.new.state ≡ s.old.state }
{
    s.borrow().last_parts(out, table)
}

impl ReaderHandleState {
    fn next(
        &mut self,
        bytes: &[u8],
        out: &mut LisFound,
        parts: &mut [LisPart],
        table: &mut LisTable,
    ) -> usize
        ensures read { 0 < result → (left : Option Begun) → HasLeft self.old.reader left →
            ReadsNext self.old.reader self.new.reader left bytes.now result out.new parts.old parts.new table.new }
        ensures none { result ≡ 0 → (self.new ≡ self.old) × (out.new ≡ nothing) × (parts.new ≡ parts.old)
            × (table.new ≡ no_table) }
        ensures clear { 0 < result → (self.old.reader.fault ≡ None) × (self.old.reader.held ≡ [])
            × (self.old.reader.split ≡ None) }
        ensures refused { result ≡ 0 → (left : Option Begun) → HasLeft self.old.reader left
            → self.old.reader.held ≡ [] → self.old.reader.split ≡ None → (text following : List ℕ) → LacksReturn text
            → bytes.now ≡ text ++ 13 ∷ following → IsRecordRefused left text }
    {
        clear(out);
        clear_table(table);
        match self.reader.read_whole(bytes) {
            None => 0,
            Some((entry, following)) => {
                let count = bytes.len().saturating_sub(following.len());
                report(&entry, out);
                let (text, _) = bytes.split_at(count.saturating_sub(1));
                report_table(&entry, text, parts, table);
                count
            }
        }
    }

    fn last_parts(&self, parts: &mut [LisPart], table: &mut LisTable) -> u8
        ensures { IsSplitTable self.now.reader.split self.now.reader.split_text result parts.old parts.new table.new }
    {
        clear_table(table);
        let Some(entry) = self.reader.split() else {
            return status::NO_RECORD;
        };
        report_table(&entry, self.reader.split_text(), parts, table);
        if table.count > parts.len() {
            status::TOO_SHORT
        } else {
            status::OK
        }
    }
}

/// Clears a table.
fn clear_table(table: &mut LisTable)
    ensures { table.new ≡ no_table }
{
    table.count = 0;
    table.len = 0;
    table.delimiters.field = 0;
    table.delimiters.repeat = 0;
    table.delimiters.component = 0;
    table.delimiters.escape = 0;
}

/// Puts the table of a record's text. No record has a longer one.
fn report_table(
    entry: &BorrowedRecord<'_>,
    text: &[u8],
    parts: &mut [LisPart],
    table: &mut LisTable,
)
    ensures { length text.now ≤ record_limit →
        ReportsTable entry.now.delimiters entry.now.content.kind text.now parts.old parts.new table.new }
{
    if text.len() > RECORD_LIMIT {
        return;
    }
    report_delimiters(entry.delimiters(), &mut table.delimiters);
    table.count = put_places(entry.delimiters(), entry.kind(), text, parts);
    table.len = text.len();
}
