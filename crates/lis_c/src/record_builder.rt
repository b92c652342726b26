//! The message that a program in C writes, record by record (LIS02-A2).

ghost use Rattle.std.specs.Prelude.{◌≡◌, ◌≢◌, ◌++◌, ◌∷◌, [], IfOk, None, Option, Some, length};
ghost use Rattle.lis_c.specs.Status.{OK};
ghost use Rattle.lis_c.specs.Writing.{IsPut, PartStatus, PutStatus, after_kind, level_at, misplaced_status};
ghost use Rattle.lis_c.specs.Writing.{parts_so_far, put_fault, repeats_so_far, with_component, with_field};
ghost use Rattle.lis_c.specs.Writing.{with_parts, with_repeat, write_fault};
ghost use Rattle.lis_record_values.specs.Delimiters.{usual};
ghost use Rattle.lis_record_values.specs.Shape.{plain_component};
ghost use Rattle.lis_tree.specs.Level.{misplaced};

use crate::status;
use lis_message_texts::record_text;
use lis_record::{WriteFault, check_record};
use lis_record_values::{Component, Delimiters, Field, Kind, Record, Repeat};
use lis_text::{MOST_TEXTS, Texts};
use lis_tree::{Position, Reason};
use std::alloc::{AllocError, Global};
use std::mem::{self, drop};

/// What a component ends.
#[derive(Clone, Copy)]
pub enum Ended {
    Component,
    Repeat,
    Field,
}

/// A record that isn't put yet; of a field that isn't ended, the repeats that are, and the components of the next one.
#[derive(Drop)]
pub struct RecordBuilder {
    pub entry: Record,
    pub repeats: Option<Field>,
    pub parts: Option<Repeat>,
}

/// A writer: the delimiters of its message, where its next record will be, the record that isn't put yet, and the
/// texts of those that are.
#[derive(Drop)]
pub struct WriterHandleState {
    pub alloc: Global,
    pub delimiters: Delimiters,
    pub position: Option<Position>,
    pub record_builder: Option<RecordBuilder>,
    pub texts: Texts,
}

/// Why a record can't be put: a status, and the number of the field at fault, or 0.
#[derive(Drop)]
pub struct PutFault {
    pub status: u8,
    pub field: usize,
}

/// Releases all that a handle's state keeps.
pub(crate) fn release_writer(handle_state: WriterHandleState) {
    drop(handle_state);
}

/// The components with one more of these bytes.
fn with_part(alloc: Global, parts: Option<Repeat>, bytes: &[u8]) -> Result<Repeat, AllocError>
    ensures { IfOk result (λ repeat. repeat ≡ parts_so_far parts ++ plain_component bytes.now ∷ []) }
{
    let Ok(part) = Component::from_text(alloc, bytes) else {
        // By a call here and below: what ends in place is released part by part, and the proof goes over each of them.
        drop(parts);
        return Err(AllocError);
    };
    match parts {
        None => match Repeat::new(alloc, part) {
            Ok(repeat) => Ok(repeat),
            Err(_) => Err(AllocError),
        },
        Some(repeat) => {
            let mut repeat = repeat;
            match repeat.push(part) {
                Ok(()) => Ok(repeat),
                Err(_) => {
                    drop(repeat);
                    Err(AllocError)
                }
            }
        }
    }
}

/// The repeats with one more, whose last component has these bytes.
fn with_repeat(
    alloc: Global,
    repeats: Option<Field>,
    parts: Option<Repeat>,
    bytes: &[u8],
) -> Result<Field, AllocError>
    ensures { IfOk result (λ field.
        field ≡ repeats_so_far repeats ++ (parts_so_far parts ++ plain_component bytes.now ∷ []) ∷ []) }
{
    let Ok(repeat) = with_part(alloc, parts, bytes) else {
        drop(repeats);
        return Err(AllocError);
    };
    match repeats {
        None => match Field::new(alloc, repeat) {
            Ok(field) => Ok(field),
            Err(_) => Err(AllocError),
        },
        Some(field) => {
            let mut field = field;
            match field.push(repeat) {
                Ok(()) => Ok(field),
                Err(_) => {
                    drop(field);
                    Err(AllocError)
                }
            }
        }
    }
}

impl RecordBuilder {
    /// The record builder with one more component of the repeat that isn't ended.
    fn with_part(self, alloc: Global, bytes: &[u8]) -> Result<RecordBuilder, AllocError>
        ensures { IfOk result (λ record_builder. record_builder ≡ with_parts self bytes.now) }
    {
        let RecordBuilder {
            entry,
            repeats,
            parts,
        } = self;
        let Ok(parts) = with_part(alloc, parts, bytes) else {
            drop(repeats);
            drop(entry);
            return Err(AllocError);
        };
        Ok(RecordBuilder {
            entry,
            repeats,
            parts: Some(parts),
        })
    }

    /// The record builder with a repeat of the field ended by its last component.
    fn with_repeat(self, alloc: Global, bytes: &[u8]) -> Result<RecordBuilder, AllocError>
        ensures { IfOk result (λ record_builder. record_builder ≡ with_repeat self bytes.now) }
    {
        let RecordBuilder {
            entry,
            repeats,
            parts,
        } = self;
        let Ok(repeats) = with_repeat(alloc, repeats, parts, bytes) else {
            drop(entry);
            return Err(AllocError);
        };
        Ok(RecordBuilder {
            entry,
            repeats: Some(repeats),
            parts: None,
        })
    }

    /// The record builder with the field ended by the last component of its last repeat.
    fn with_field(self, alloc: Global, bytes: &[u8]) -> Result<RecordBuilder, AllocError>
        ensures { IfOk result (λ record_builder. record_builder ≡ with_field self bytes.now) }
    {
        let RecordBuilder {
            entry,
            repeats,
            parts,
        } = self;
        let mut entry = entry;
        let Ok(field) = with_repeat(alloc, repeats, parts, bytes) else {
            drop(entry);
            return Err(AllocError);
        };
        match entry.push(field) {
            Ok(()) => Ok(RecordBuilder {
                entry,
                repeats: None,
                parts: None,
            }),
            Err(_) => {
                drop(entry);
                Err(AllocError)
            }
        }
    }

    /// The record builder with one more component, and what it ends.
    fn with(self, alloc: Global, ended: Ended, bytes: &[u8]) -> Result<RecordBuilder, AllocError>
        ensures { IfOk result (λ record_builder. record_builder ≡ with_component self ended bytes.now) }
    {
        match ended {
            Ended::Component => self.with_part(alloc, bytes),
            Ended::Repeat => self.with_repeat(alloc, bytes),
            Ended::Field => self.with_field(alloc, bytes),
        }
    }
}

/// Why a record of this kind can't come next; none is before a header.
fn place_fault(position: Option<Position>, kind: Kind) -> Option<Reason>
    ensures { result ≡ misplaced (level_at position) kind }
{
    match position {
        Some(position) => position.place_fault(kind),
        None => match kind {
            Kind::H => None,
            _ => Some(Reason::NotHeader),
        },
    }
}

/// Where the next record will be after one of this kind; after the closing record it is outside a message.
fn after(position: Option<Position>, kind: Kind) -> Option<Position>
    ensures { level_at result ≡ after_kind (level_at position) kind }
{
    match position {
        Some(position) => position.after(kind),
        None => match kind {
            Kind::H => Some(Position::InHeader),
            Kind::P => Some(Position::InPatient),
            Kind::O => Some(Position::InOrder),
            Kind::Q => Some(Position::InQuery),
            Kind::R | Kind::C | Kind::M | Kind::S | Kind::L => None,
        },
    }
}

/// The status of a record that can't come next.
fn misplaced_status(reason: Reason) -> u8
    ensures { result ≡ misplaced_status reason }
{
    match reason {
        Reason::SecondHeader => status::PUT_SECOND_HEADER,
        Reason::NoParent(_) => status::PUT_NO_PARENT,
        _ => status::PUT_NOT_HEADER,
    }
}

/// Why a record can't be written.
fn write_fault(fault: WriteFault) -> PutFault
    ensures { result ≡ write_fault fault }
{
    match fault {
        WriteFault::CharNotText(field) => PutFault {
            status: status::FORBIDDEN,
            field,
        },
        WriteFault::TooLong => PutFault {
            status: status::TOO_LONG,
            field: 0,
        },
        WriteFault::Io(_) => PutFault {
            status: status::OUT_OF_MEMORY,
            field: 0,
        },
    }
}

/// A fault of no field.
fn plain_fault(status: u8) -> Option<PutFault>
    ensures { result ≡ Some (record { status = status; field = 0 }) }
{
    Some(PutFault { status, field: 0 })
}

impl WriterHandleState {
    /// A handle's state with the usual delimiters, outside a message.
    pub(crate) fn new(alloc: Global) -> Self
        ensures { (result.delimiters ≡ usual) × (result.position ≡ None) × (result.record_builder ≡ None)
            × (result.texts ≡ []) }
    {
        WriterHandleState {
            alloc,
            delimiters: Delimiters::usual(),
            position: None,
            record_builder: None,
            texts: Texts::new(alloc),
        }
    }

    /// Releases all, and begins with these delimiters.
    pub(crate) fn start(&mut self, delimiters: Delimiters)
        ensures { self.new ≡ record self.old {
          delimiters = delimiters;
          position = None;
          record_builder = None;
          texts = [];
        } }
    {
        self.delimiters = delimiters;
        self.position = None;
        drop(mem::replace(&mut self.record_builder, None));
        drop(mem::replace(&mut self.texts, Texts::new(self.alloc)));
    }

    /// Begins a record of this kind; one that isn't put is released.
    pub(crate) fn begin(&mut self, kind: Kind)
        ensures { self.new ≡ record self.old {
          record_builder = Some (record {
            entry = record { kind = kind; fields = [] };
            repeats = None;
            parts = None;
          });
        } }
    {
        let record_builder = RecordBuilder {
            entry: Record::new(self.alloc, kind),
            repeats: None,
            parts: None,
        };
        drop(mem::replace(&mut self.record_builder, Some(record_builder)));
    }

    /// Puts a component to the field, and ends what it is the last of. If memory runs out the record is released.
    pub(crate) fn add(&mut self, bytes: &[u8], ended: Ended) -> u8
        ensures { PartStatus self.old.record_builder ended bytes.now self.old result self.new }
    {
        let Some(record_builder) = mem::replace(&mut self.record_builder, None) else {
            return status::NO_RECORD;
        };
        match record_builder.with(self.alloc, ended, bytes) {
            Ok(record_builder) => {
                drop(mem::replace(&mut self.record_builder, Some(record_builder)));
                status::OK
            }
            Err(_) => status::OUT_OF_MEMORY,
        }
    }

    /// Why the record can't be put.
    fn put_fault(&self) -> Option<PutFault>
        ensures { result ≡ put_fault self.now.delimiters self.now.position self.now.record_builder }
    {
        let Some(record_builder) = &self.record_builder else {
            return plain_fault(status::NO_RECORD);
        };
        if record_builder.repeats.is_some() || record_builder.parts.is_some() {
            return plain_fault(status::UNFINISHED);
        }
        if let Some(reason) = place_fault(self.position, record_builder.entry.kind()) {
            return plain_fault(misplaced_status(reason));
        }
        match check_record(&self.delimiters, &record_builder.entry) {
            Ok(()) => None,
            Err(fault) => Some(write_fault(fault)),
        }
    }

    /// Puts the record after the others. Where it is rejected the handle's state is as before.
    pub(crate) fn put(&mut self, field: &mut usize) -> u8
        ensures put { result ≡ OK → IsPut self.old self.new }
        ensures refused { result ≢ OK → self.new ≡ self.old }
        ensures status { PutStatus (put_fault self.old.delimiters self.old.position self.old.record_builder)
            (length self.old.texts) result field.new }
    {
        *field = 0;
        if let Some(fault) = self.put_fault() {
            *field = fault.field;
            return fault.status;
        }
        if self.texts.len() >= MOST_TEXTS {
            return status::FULL;
        }
        let Some(record_builder) = &self.record_builder else {
            return status::NO_RECORD;
        };
        let kind = record_builder.entry.kind();
        let Ok(text) = record_text(self.alloc, self.delimiters, &record_builder.entry) else {
            return status::OUT_OF_MEMORY;
        };
        if self.texts.push(text).is_err() {
            return status::OUT_OF_MEMORY;
        }
        self.position = after(self.position, kind);
        drop(mem::replace(&mut self.record_builder, None));
        status::OK
    }
}
