//! Writing records and fields to sinks, wide ones and narrow ones that fail.

ghost use Rattle.std.specs.Prelude.{◌≡◌, ◌≤◌, length, false};
ghost use Rattle.lis_record_write.specs.Encoding.{written};

use crate::answer::Answer;
use crate::narrow::{Narrow, WIDE};
use lis_port::Slow;
use lis_record::{
    Delimiters, Field, Record, WriteFault, check_record, put_field, write_field, write_record,
    write_record_from,
};
use std::mem::drop;

/// The length of what is written for a record; none where it can't be written.
fn length_of(delimiters: Delimiters, entry: &Record) -> u64
    ensures { result ≤ length (written delimiters entry.now) }
{
    let mut sink = Slow::new(WIDE, WIDE);
    let length = match write_record(&mut sink, &delimiters, entry) {
        Ok(()) => sink.took().len() as u64,
        Err(_) => 0,
    };
    drop(sink);
    length
}

/// A record that is to be written under delimiters, and a sink that fails.
#[derive(Drop)]
pub(crate) struct Writing {
    pub(crate) delimiters: Delimiters,
    pub(crate) entry: Record,
    pub(crate) narrow: Narrow,
}

impl Writing {
    /// Tests the record, writes it to a wide sink and, without the first bytes, to a narrow one; where that fails, the
    /// rest to a wide one.
    pub(crate) fn whole_and_part(&self, skip: u64, answer: &mut Answer) {
        answer.word("check=");
        put_result(check_record(&self.delimiters, &self.entry), answer);
        answer.word("whole=");
        self.write_from(0, answer);
        let skip = skip.min(length_of(self.delimiters, &self.entry));
        let mut part = self.narrow.sink();
        let wrote = write_record_from(&mut part, &self.delimiters, &self.entry, skip);
        answer.word("part=");
        put_wrote(wrote, part.took(), answer);
        drop(part);
        if let Err(WriteFault::Io(count)) = wrote {
            answer.word("then=");
            self.write_from(count, answer);
        }
    }

    /// Writes the record without its first bytes to a wide sink.
    fn write_from(&self, skip: u64, answer: &mut Answer)
        requires { skip ≤ length (written self.now.delimiters self.now.entry) }
    {
        let mut sink = Slow::new(WIDE, WIDE);
        let wrote = write_record_from(&mut sink, &self.delimiters, &self.entry, skip);
        put_wrote(wrote, sink.took(), answer);
        drop(sink);
    }

    /// Writes each field of the record, to a wide sink and to a narrow one; `limited` by `write_field`.
    pub(crate) fn fields(&self, limited: bool, answer: &mut Answer) {
        if self.entry.fields().is_empty() {
            answer.word("none");
        }
        for field in self.entry.fields() {
            answer.part();
            let wide = Slow::new(WIDE, WIDE);
            write_one_field(self.delimiters, field, wide, limited, answer);
            answer.text("/");
            write_one_field(self.delimiters, field, self.narrow.sink(), limited, answer);
        }
    }
}

/// Writes a field to a sink, and puts how that ended.
fn write_one_field(
    delimiters: Delimiters,
    field: &Field,
    sink: Slow,
    limited: bool,
    answer: &mut Answer,
)
    requires { sink.failed ≡ false }
{
    let mut sink = sink;
    let wrote = if limited {
        write_field(&mut sink, &delimiters, field)
    } else {
        put_field(&mut sink, &delimiters, field)
    };
    put_wrote(wrote, sink.took(), answer);
    drop(sink);
}

/// Puts how writing ended, and what the sink took.
pub(crate) fn put_wrote(wrote: Result<(), WriteFault>, took: &[u8], answer: &mut Answer) {
    put_result(wrote, answer);
    answer.bytes(":", took)
}

/// Puts how writing ended.
fn put_result(wrote: Result<(), WriteFault>, answer: &mut Answer) {
    match wrote {
        Ok(()) => answer.text("ok"),
        Err(fault) => put_write_fault(fault, answer),
    }
}

/// Puts why a record was not written.
pub(crate) fn put_write_fault(fault: WriteFault, answer: &mut Answer) {
    match fault {
        WriteFault::CharNotText(number) => answer.number("CharNotText.", number as u64),
        WriteFault::TooLong => answer.text("TooLong"),
        WriteFault::Io(count) => answer.number("SinkFailed.", count),
    }
}
