//! The writer of a message for programs in C: records by their fields, as link texts (LIS02-A2).

ghost use Rattle.std.specs.Prelude.{◌≡◌, ◌≢◌, [], None, Some, Option, length, slice_get};
ghost use Rattle.lis_c.specs.declared.record_builder.Ended.TheVariants as Ends;
ghost use Rattle.lis_c.specs.declared.record_builder.WriterHandleState.{WriterHandleState};
ghost use Rattle.lis_c.specs.New.{IsNewWriter, type_align};
ghost use Rattle.lis_c.specs.Records.{delimiters_in};
ghost use Rattle.lis_c.specs.Status.{BAD_DELIMITERS, BAD_LETTER, OK};
ghost use Rattle.lis_c.specs.Writing.{BeginStatus, IsPut, IsTextAt, PartStatus, PutStatus, length_if_any};
ghost use Rattle.lis_c.specs.Writing.{put_fault};
ghost use Rattle.lis_c.specs.contracts.record_builder.WriterHandleState.{the_row as handle_state_row};
ghost use Rattle.lis_record_values.specs.Delimiters.{IsDelimiters};
ghost use Rattle.lis_record_values.specs.Kinds.{kind_of};
ghost use Rattle.std.specs.Borrow.{sem};
ghost use Rattle.std.specs.Mem.{type_size};
ghost use Rattle.std.specs.Ptr.{room_at};

use crate::out::copy_text;
use crate::record_builder::{Ended, WriterHandleState, release_writer};
use crate::records::{LisDelimiters, known};
use crate::status;
use lis_record_values::Kind;
use std::alloc::Global;
use std::marker::Model;
use std::mem::{align_of, size_of};

/// A writer, held by a pointer that C hands back as it got it.
#[repr(C)]
pub struct LisWriter {
    at: *mut u8,
    ghost state: { WriterHandleState },
}

impl Model for LisWriter {
    ghost use Rattle.std.specs.Borrow.{full_share};
    ghost use Rattle.std.specs.Ptr.{lies_at};
    ghost use Rattle.lis_c.specs.contracts.record_builder.WriterHandleState.{the_row};

    ghost also_owns = { λ h. lies_at the_row full_share h.at h.state };
}

impl LisWriter {
    ghost use Rattle.lis_c.specs.contracts.record_builder.WriterHandleState.{the_row as handle_state_row};
    ghost use Rattle.lis_c.specs.contracts.writer.LisWriter.{the_row};
    ghost use Rattle.std.specs.Borrow.{Lends, sem};

    /// What the pointer points to.
    fn borrow(&mut self) -> &mut WriterHandleState
        ensures* writes_back { sem 𝓛 (Lends the_row handle_state_row self.entry result
            (λ w. record self.old { state = w })) }
        ensures value { result.now ≡ self.old.state }
    {
        unsafe { &mut *(self.at as *mut WriterHandleState) }
    }
}

/// The number of bytes of a writer's block.
#[unsafe(no_mangle)]
pub extern "C" fn lis_writer_size() -> usize
    ensures { result ≡ type_size handle_state_row }
{
    size_of::<WriterHandleState>()
}

/// What the address of a writer's block is a multiple of.
#[unsafe(no_mangle)]
pub extern "C" fn lis_writer_align() -> usize
    ensures { result ≡ type_align handle_state_row }
{
    align_of::<WriterHandleState>()
}

/// Makes a writer outside a message, with the usual delimiters, in a block of the caller's.
#[unsafe(no_mangle)]
pub unsafe extern "C" fn lis_writer_init(alloc: Global, at: *mut u8)
    requires* { sem 𝓛 (room_at handle_state_row at) }
    ensures* { sem 𝓛 (IsNewWriter at) }
{
    (at as *mut WriterHandleState).write(WriterHandleState::new(alloc));
}

/// Releases all that was written, and begins with these delimiters: `OK`, or `BAD_DELIMITERS`, and then nothing has
/// changed.
#[unsafe(no_mangle)]
pub extern "C" fn lis_writer_start(s: &mut LisWriter, delimiters: &LisDelimiters) -> u8
    ensures started { IsDelimiters (delimiters_in delimiters.now) → (result ≡ OK)
        × (s.new.state ≡ record s.old.state {
          delimiters = delimiters_in delimiters.now;
          position = None;
          record_builder = None;
          texts = [];
        }) }
    ensures refused { (IsDelimiters (delimiters_in delimiters.now) → ⊥) →
        (result ≡ BAD_DELIMITERS) × (s.new.state ≡ s.old.state) }
{
    match known(delimiters) {
        Ok(known) => {
            s.borrow().start(known);
            status::OK
        }
        Err(_) => status::BAD_DELIMITERS,
    }
}

/// Begins a record by the letter of its kind, in either case: `OK`, or `BAD_LETTER`, and then nothing has changed. A
/// record that isn't put is released. Whether it can come next is reported by `lis_writer_put`.
#[unsafe(no_mangle)]
pub extern "C" fn lis_writer_record(s: &mut LisWriter, letter: u8) -> u8
    ensures { BeginStatus (kind_of letter) s.old.state result s.new.state }
{
    match Kind::of_letter(letter) {
        Some(kind) => {
            s.borrow().begin(kind);
            status::OK
        }
        None => status::BAD_LETTER,
    }
}

/// Puts a component to the record's field that isn't ended, one that isn't the last of its repeat: `OK`, `NO_RECORD`
/// where none is begun, or `OUT_OF_MEMORY`, and then the record is released.
#[unsafe(no_mangle)]
pub extern "C" fn lis_writer_component(s: &mut LisWriter, bytes: &[u8]) -> u8
    ensures { PartStatus s.old.state.record_builder Ends.Component bytes.now s.old.state result s.new.state }
{
    s.borrow().add(bytes, Ended::Component)
}

/// Puts the last component of a repeat of the record's field, one that isn't the field's last, and ends it; as
/// `lis_writer_component`.
#[unsafe(no_mangle)]
pub extern "C" fn lis_writer_repeat(s: &mut LisWriter, bytes: &[u8]) -> u8
    ensures { PartStatus s.old.state.record_builder Ends.Repeat bytes.now s.old.state result s.new.state }
{
    s.borrow().add(bytes, Ended::Repeat)
}

/// Puts the last component of the record's field, for most fields the only one, and ends it; as
/// `lis_writer_component`. Bytes that are delimiters are escaped.
#[unsafe(no_mangle)]
pub extern "C" fn lis_writer_field(s: &mut LisWriter, bytes: &[u8]) -> u8
    ensures { PartStatus s.old.state.record_builder Ends.Field bytes.now s.old.state result s.new.state }
{
    s.borrow().add(bytes, Ended::Field)
}

/// Puts the record's text, with its CR, after the others: `OK`; else the first of `NO_RECORD`; `UNFINISHED`, where a
/// field isn't ended; `PUT_NOT_HEADER`, `PUT_SECOND_HEADER` or `PUT_NO_PARENT`, where it can't come next; `FORBIDDEN`,
/// with the number of the first field that holds a byte that no text may hold; `TOO_LONG`; `FULL`, where there are as
/// many texts as a session has; or `OUT_OF_MEMORY`. Where it isn't `OK` nothing has changed. `field` is 0 where none is
/// at fault.
#[unsafe(no_mangle)]
pub extern "C" fn lis_writer_put(s: &mut LisWriter, field: &mut usize) -> u8
    ensures put { result ≡ OK → IsPut s.old.state s.new.state }
    ensures refused { result ≢ OK → s.new.state ≡ s.old.state }
    ensures status { PutStatus (put_fault s.old.state.delimiters s.old.state.position s.old.state.record_builder)
        (length s.old.state.texts) result field.new }
{
    s.borrow().put(field)
}

/// How many texts there are, one for each record that was put.
#[unsafe(no_mangle)]
pub extern "C" fn lis_writer_texts(s: &mut LisWriter) -> usize
    ensures value { result ≡ length s.old.state.texts }
    ensures same { s.new.state ≡ s.old.state }
{
    s.borrow().texts.len()
}

/// How many bytes a text has, by its place from 0; 0 if there are not so many texts, for no text is empty.
#[unsafe(no_mangle)]
pub extern "C" fn lis_writer_text_len(s: &mut LisWriter, place: usize) -> usize
    ensures value { result ≡ length_if_any (slice_get s.old.state.texts place) }
    ensures same { s.new.state ≡ s.old.state }
{
    match s.borrow().texts.get(place) {
        None => 0,
        Some(text) => text.len(),
    }
}

/// Copies a text, by its place from 0, to the front of a buffer, and says how many bytes it has: `OK`, `ABSENT`, or
/// `TOO_SHORT`, which a buffer of 65,537 bytes never is.
#[unsafe(no_mangle)]
pub extern "C" fn lis_writer_text(
    s: &mut LisWriter,
    place: usize,
    out: &mut [u8],
    size: &mut usize,
) -> u8
    ensures text { IsTextAt (slice_get s.old.state.texts place) result out.old out.new size.new }
    ensures same { s.new.state ≡ s.old.state }
{
    *size = 0;
    let Some(text) = s.borrow().texts.get(place) else {
        return status::ABSENT;
    };
    copy_text(text.as_slice(), out, size)
}

/// Ends a writer; its block is the caller's again.
#[unsafe(no_mangle)]
pub extern "C" fn lis_writer_end(s: LisWriter)
    ensures* { sem 𝓛 (room_at handle_state_row s.at) }
{
    let LisWriter { at } = s;
    release_writer(unsafe { (at as *mut WriterHandleState).read() });
}
