//! Where the records of a message are, and which a result belongs to.

ghost use Rattle.std.specs.Prelude.{◌≡◌};
ghost use Rattle.lis_message_table.specs.Put.{placed_record};

use lis_record_values::{Delimiters, Kind};
use std::mem::size_of;

/// A record of a message: where it is in the message's text, and the record that it is under.
#[derive(Clone, Copy, Debug)]
pub struct RecordPlace {
    /// The place of its first byte, from 0.
    pub start: usize,
    /// The index of the record that it is under, from 0 for the header. The header's is its own.
    pub parent: usize,
    /// How many bytes it has, without its CR.
    pub len: u32,
    pub kind: Kind,
}

// A table has one for each record.
const _: () = prove!(size_of::<RecordPlace>() == 24);

/// A result of a message, by the indexes of its record and of those that it belongs to.
#[derive(Clone, Copy, Debug, PartialEq, Eq)]
pub struct ResultIndexes {
    /// The patient that its order belongs to.
    pub patient: usize,
    /// The order that it belongs to.
    pub order: usize,
    /// The result.
    pub entry: usize,
}

/// Where a record of a message is, as programs in C have it: the same as [`RecordPlace`], with the record's letter.
#[repr(C)]
#[derive(Clone, Copy)]
pub struct LisRecordPlace {
    pub start: usize,
    pub parent: usize,
    pub len: u32,
    pub letter: u8,
}

impl LisRecordPlace {
    /// A place as programs in C have it.
    #[inline(always)]
    pub fn of(place: &RecordPlace) -> Self
        ensures { result ≡ placed_record place.now }
    {
        LisRecordPlace {
            start: place.start,
            parent: place.parent,
            len: place.len,
            letter: place.kind.letter(),
        }
    }
}

/// The message that a text begins with: how many records it has, the delimiters that they are read under, and the bytes
/// after it.
#[derive(Clone, Copy)]
pub struct Placed<'a> {
    pub count: usize,
    pub delimiters: Delimiters,
    pub following: &'a [u8],
}
