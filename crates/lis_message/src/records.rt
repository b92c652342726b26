//! Reading records where they are, from a stream that comes in pieces (LIS02-A2, Delimiters). What is kept is the
//! bytes of one record, and of the open message how its next record is read.

ghost use Rattle.std.specs.Prelude.{◌≡◌, ℕ, true, false, ◌+◌, ◌<◌, ◌≤◌, ◌∷◌, [], ◌++◌, ◌⊎◌, ◌↔◌};
ghost use Rattle.std.specs.Prelude.{List, Option, IfOk, IfErr, OnErr, OnOk, OnSome};
ghost use Rattle.std.specs.Prelude.{IfSome, IfNone, IsTrue, None, Some, Ok, Err, is_some, length};
ghost use Rattle.lis_message.specs.declared.records.RecordFound.TheVariants.{Record as IsFound, Refused as IsRefusal};
ghost use Rattle.lis_message.specs.Feeding.{answer_at_end, next_place};
ghost use Rattle.lis_message.specs.Kept.{opened_of, opened_with};
ghost use Rattle.lis_message.specs.Records.{HasLeft, IsStopped, IsRecordRefused, IsRecordRefusedFor, Reads, ReadsSome};
ghost use Rattle.lis_message.specs.inside.Records.{EndsHeld};
ghost use Rattle.lis_message.specs.Stream.{LacksReturn, refusal};
ghost use Rattle.lis_message.specs.Taking.{ComesNext, left_after};
ghost use Rattle.lis_message.specs.inside.Taking.{front_refusal};
ghost use Rattle.lis_record_write.specs.declared.writing.TheConstants.{RECORD_LIMIT};
ghost use Rattle.lis_record.specs.Borrowed.{Borrowed, record_in};
ghost use Rattle.lis_record_values.specs.Text.{bad_byte_place, record_limit};
ghost use Rattle.lis_record_values.specs.Shape.{RecordContent};
ghost use Rattle.lis_tree.specs.Begun.{Begun};
ghost use Rattle.lis_record_values.specs.declared.faults.Reason.TheVariants as reasons;

use lis_record::{
    BorrowedRecord, Delimiters, Kind, RECORD_LIMIT, RecordFault, borrow_searched_header,
    borrow_searched_record, first_bad_byte,
};
use lis_tree::{MessageFault, Position, Reason};
use memchr::memchr;
use std::alloc::Global;
use std::marker::Model;

const CR: u8 = 0x0d;

/// Of a message that isn't closed yet: how its next record is read.
#[derive(Drop)]
struct Opened {
    delimiters: Delimiters,
    position: Position,
    /// How many records there are; it stays at the greatest number.
    count: u64,
}

impl Model for Opened {
    ghost use Rattle.lis_message.specs.Kept.{Opened};
    ghost use Rattle.lis_tree.specs.Position.{position_level};

    ghost Value = { Opened };

    ghost view = { λ o. record { delimiters = o.delimiters; level = position_level o.position; count = o.count } };
}

/// Why a text can't come next, by its first letter alone. It is asked only of a text that is not such a record.
#[inline(never)]
fn front_fault(is_begun: bool, text: &[u8]) -> Option<Reason>
    ensures { result ≡ front_refusal is_begun text.now }
{
    let Some(letter) = text.first() else {
        return Some(Reason::BadRecord(RecordFault::Empty));
    };
    match Kind::of_letter(*letter) {
        None => Some(Reason::BadRecord(RecordFault::UnknownKind(*letter))),
        Some(Kind::H) => is_begun.then_some(Reason::SecondHeader),
        Some(_) => (!is_begun).then_some(Reason::NotHeader),
    }
}

/// The header that a text is, which comes where no message is open.
#[inline(always)]
fn borrow_first(text: &[u8], bad: Option<usize>) -> Result<BorrowedRecord<'_>, Reason>
    requires { bad ≡ bad_byte_place text.now }
    ensures ok { IfOk result (λ entry. ComesNext None text.now entry) }
    ensures err { IfErr result (λ reason. refusal None text.now ≡ Some reason) }
    ensures place { IfOk result (λ entry. entry ≡ record_in entry.delimiters entry.content.kind text.now) }
{
    match borrow_searched_header(text, bad) {
        Ok(entry) => Ok(entry),
        Err(fault) => Err(front_fault(false, text).unwrap_or(Reason::BadRecord(fault))),
    }
}

/// The record that a text is, which comes in the open message.
#[inline(always)]
fn borrow_inner<'a>(
    opened: &Opened,
    text: &'a [u8],
    bad: Option<usize>,
) -> Result<BorrowedRecord<'a>, Reason>
    requires { bad ≡ bad_byte_place text.now }
    ensures ok { IfOk result (λ entry. (begun : Begun) → opened.now ≡ opened_with begun
        → ComesNext (Some begun) text.now entry) }
    ensures err { IfErr result (λ reason. (begun : Begun) → opened.now ≡ opened_with begun
        → refusal (Some begun) text.now ≡ Some reason) }
    ensures place { IfOk result (λ entry. entry ≡ record_in entry.delimiters entry.content.kind text.now) }
{
    let entry = match borrow_searched_record(&opened.delimiters, text, bad) {
        Ok(entry) => entry,
        Err(fault) => return Err(front_fault(true, text).unwrap_or(Reason::BadRecord(fault))),
    };
    match opened.position.place_fault(entry.kind()) {
        None => Ok(entry),
        Some(reason) => Err(reason),
    }
}

/// The record that a text is which comes next, else the first reason that it can't. The first byte of the text that no
/// record may hold is at `bad`.
#[inline(always)]
fn borrow_next<'a>(
    opened: &Option<Opened>,
    text: &'a [u8],
    bad: Option<usize>,
) -> Result<BorrowedRecord<'a>, Reason>
    requires { bad ≡ bad_byte_place text.now }
    ensures ok { IfOk result (λ entry. (left : Option Begun) → opened.now ≡ opened_of left
        → ComesNext left text.now entry) }
    ensures err { IfErr result (λ reason. (left : Option Begun) → opened.now ≡ opened_of left
        → refusal left text.now ≡ Some reason) }
    ensures place { IfOk result (λ entry. entry ≡ record_in entry.delimiters entry.content.kind text.now) }
{
    match opened {
        None => borrow_first(text, bad),
        Some(opened) => borrow_inner(opened, text, bad),
    }
}

/// Keeps what is open after a record of this kind, which came next under these delimiters. All but what changes stays
/// where it is, since this is done for each record.
#[inline(always)]
fn open_after(opened: &mut Option<Opened>, delimiters: Delimiters, kind: Kind)
    ensures { (left : Option Begun) (text : List ℕ) (entry : Borrowed RecordContent) → opened.old ≡ opened_of left →
        ComesNext left text entry → entry.delimiters ≡ delimiters → entry.content.kind ≡ kind →
        opened.new ≡ opened_of (left_after left entry kind) }
{
    let Some(inner) = opened else {
        *opened = Some(Opened {
            delimiters,
            position: Position::InHeader,
            count: 1,
        });
        return;
    };
    match inner.position.after(kind) {
        Some(position) => {
            inner.position = position;
            inner.count = inner.count.saturating_add(1);
        }
        None => *opened = None,
    }
}

/// The bytes before the first CR, those after it, and the place of the first of those before it that no record may
/// hold.
/// One search finds both, where there is none before it: a CR is such a byte.
#[inline(always)]
fn next_line(bytes: &[u8]) -> Option<(&[u8], &[u8], Option<usize>)>
    ensures some { IfSome result (λ parts. bytes.now ≡ parts.0.now ++ 13 ∷ parts.1.now) }
    ensures lacks { IfSome result (λ parts. LacksReturn parts.0.now) }
    ensures bad { IfSome result (λ parts. parts.2 ≡ bad_byte_place parts.0.now) }
    ensures none { IfNone result (LacksReturn bytes.now) }
{
    let Some(end) = first_bad_byte(bytes) else {
        return None;
    };
    let (text, following) = bytes.split_at(end);
    let Some((byte, rest)) = following.split_first() else {
        return None;
    };
    if *byte != CR {
        return next_bad_line(bytes);
    }
    Some((text, rest, None))
}

/// The same, where another byte that no record may hold comes first.
#[inline(never)]
fn next_bad_line(bytes: &[u8]) -> Option<(&[u8], &[u8], Option<usize>)>
    ensures some { IfSome result (λ parts. bytes.now ≡ parts.0.now ++ 13 ∷ parts.1.now) }
    ensures lacks { IfSome result (λ parts. LacksReturn parts.0.now) }
    ensures bad { IfSome result (λ parts. parts.2 ≡ bad_byte_place parts.0.now) }
    ensures none { IfNone result (LacksReturn bytes.now) }
{
    let Some(end) = memchr(CR, bytes) else {
        return None;
    };
    let (text, following) = bytes.split_at(end);
    let Some((_, rest)) = following.split_first() else {
        return None;
    };
    Some((text, rest, first_bad_byte(text)))
}

/// What is known of a record whose bytes are held: the delimiters that it is read under, and its kind.
#[derive(Clone, Copy, Drop)]
struct Known {
    delimiters: Delimiters,
    kind: Kind,
}

/// The bytes of a record that isn't ended, or of the last record, which was split, until the next bytes come.
#[derive(Drop)]
struct HeldBytes {
    bytes: Vec<u8>,
    /// Where the bytes are the last record: what is known of it.
    known: Option<Known>,
}

impl Model for HeldBytes {
    ghost use Rattle.std.specs.Prelude.{◌≤◌, length};
    ghost use Rattle.lis_message.specs.inside.Kept.{Holding, holding};
    ghost use Rattle.lis_record_write.specs.declared.writing.TheConstants.{RECORD_LIMIT};

    ghost Value = { Holding };

    ghost view = { λ h. holding h.known h.bytes.items };

    ghost invariant = { λ h. length h.bytes.items ≤ RECORD_LIMIT };
}

impl HeldBytes {
    fn new(alloc: Global) -> Self
        ensures { result ≡ record { held = []; split = None; split_text = [] } }
    {
        HeldBytes {
            bytes: Vec::new(alloc),
            known: None,
        }
    }

    /// The bytes of the record that isn't ended.
    #[inline(always)]
    fn text(&self) -> &[u8]
        ensures value { result.now ≡ self.now.held }
        ensures bound { length result.now ≤ RECORD_LIMIT }
    {
        match self.known {
            None => self.bytes.as_slice(),
            Some(_) => &[],
        }
    }

    /// Whether nothing is held, no last record either.
    #[inline(always)]
    fn is_clear(&self) -> bool
        ensures { IsTrue result ↔ ((self.now.held ≡ []) × (self.now.split ≡ None)) }
    {
        self.known.is_none() && self.bytes.is_empty()
    }

    /// Releases the last record.
    #[inline(always)]
    fn forget_split(&mut self)
        ensures { self.new ≡ record { held = self.old.held; split = None; split_text = [] } }
    {
        if self.known.is_some() {
            self.bytes.clear();
            self.known = None;
        }
    }

    fn clear(&mut self)
        ensures { self.new ≡ record { held = []; split = None; split_text = [] } }
    {
        self.bytes.clear();
        self.known = None;
    }

    /// Holds more bytes of a record.
    #[inline(never)]
    fn hold(&mut self, bytes: &[u8]) -> Result<(), Reason>
        requires { self.old.split ≡ None }
        ensures ok { OnOk result (self.new ≡ record {
          held = self.old.held ++ bytes.now;
          split = None;
          split_text = [];
        }) }
        ensures short { OnOk result (length (self.old.held ++ bytes.now) ≤ RECORD_LIMIT) }
        ensures err { IfErr result (λ e. (e ≡ reasons.OutOfMemory)
            ⊎ ((e ≡ reasons.RecordTooLong) × (RECORD_LIMIT < length (self.old.held ++ bytes.now)))) }
    {
        if bytes.len() > RECORD_LIMIT - self.bytes.len() {
            return Err(Reason::RecordTooLong);
        }
        match self.bytes.extend_from_slice(bytes) {
            Ok(()) => Ok(()),
            Err(_) => Err(Reason::OutOfMemory),
        }
    }

    /// What is held is a record of this kind under these delimiters.
    fn end(&mut self, delimiters: Delimiters, kind: Kind)
        requires { self.old.split ≡ None }
        ensures { self.new ≡ record {
          held = [];
          split = Some (record_in delimiters kind self.old.held);
          split_text = self.old.held;
        } }
    {
        self.known = Some(Known { delimiters, kind });
    }

    /// The last record, where it was split.
    fn split(&self) -> Option<BorrowedRecord<'_>>
        ensures { result ≡ self.now.split }
    {
        let Some(known) = self.known else {
            return None;
        };
        Some(BorrowedRecord::in_text(known.delimiters, known.kind, self.bytes.as_slice()))
    }

    /// Its text; empty where there is none.
    fn split_text(&self) -> &[u8]
        ensures value { result.now ≡ self.now.split_text }
        ensures bound { length result.now ≤ RECORD_LIMIT }
        ensures place { IfSome self.now.split (λ entry.
            entry ≡ record_in entry.delimiters entry.content.kind result.now) }
    {
        match self.known {
            None => &[],
            Some(_) => self.bytes.as_slice(),
        }
    }
}

/// What reading on found.
#[derive(Drop)]
pub enum RecordFound<'a> {
    /// No record ends in the bytes; all of them are held.
    Nothing,
    /// A record that is whole in the bytes.
    Record(BorrowedRecord<'a>),
    /// A record that was split, of which bytes were held: `RecordReader::split` borrows it.
    Held,
    /// A record that can't be read, or a lack of memory for bytes that are to be held.
    Refused(MessageFault),
}

/// Reads records from a stream that comes in pieces, each where it is. It keeps the bytes of a record that isn't
/// ended, and of the open message how its next record is read; no record and no tree. After a fault it gives that
/// fault for good.
#[derive(Drop)]
pub struct RecordReader {
    opened: Option<Opened>,
    kept: HeldBytes,
    fault: Option<MessageFault>,
}

impl Model for RecordReader {
    ghost use Rattle.lis_message.specs.Kept.{RecordsState};

    ghost Value = { RecordsState };

    ghost view = { λ r. record {
      opened = r.opened;
      held = r.kept.held;
      split = r.kept.split;
      split_text = r.kept.split_text;
      fault = r.fault;
    } };
}

impl RecordReader {
    /// A reader at the start of a stream. It takes no memory yet.
    pub fn new(alloc: Global) -> Self
        ensures state { result ≡ record { opened = None; held = []; split = None; split_text = []; fault = None } }
        ensures left { HasLeft result None }
    {
        RecordReader {
            opened: None,
            kept: HeldBytes::new(alloc),
            fault: None,
        }
    }

    /// Reads on to the end of a record, or to the end of the bytes where none ends in them, and answers the bytes
    /// after and what it found: a record by what was held of it and these bytes, under the delimiters of its message,
    /// or the fault of the first record that can't come next, with its place in the message. Of bytes in which a
    /// record is rejected none count as read, and the reader then gives that fault for good. A lack of memory may be
    /// in its place, but only where bytes are to be held: a record that is whole in the bytes takes none. A record has
    /// at most 65,536 bytes without its CR.
    ///
    /// Whatever message was open, left is then that message with the record, or nothing after its closing record
    /// (`laws::records_of_a_stream` says the same of the stream).
    #[inline]
    pub fn read<'a>(&mut self, bytes: &'a [u8]) -> (&'a [u8], RecordFound<'a>)
        ensures read { (left : Option Begun) → HasLeft self.old left
            → Reads self.old self.new left bytes.now result.0.now result.1 }
        ensures failed { IfSome self.old.fault (λ fault. (result.0.now ≡ bytes.now) × (result.1 ≡ IsRefusal fault)
            × (self.new ≡ self.old)) }
        ensures some { ReadsSome self.new bytes.now result.0.now result.1 }
    {
        if let Some(fault) = self.fault {
            return (bytes, RecordFound::Refused(fault));
        }
        let place = self.next_place();
        self.kept.forget_split();
        match self.read_open(bytes) {
            Ok(answer) => answer,
            Err(reason) => {
                let fault = MessageFault { place, reason };
                self.kept.clear();
                self.fault = Some(fault);
                (bytes, RecordFound::Refused(fault))
            }
        }
    }

    /// Reads the next record where it is whole in the bytes, nothing is held and no record was split, and answers it
    /// and the bytes after; none where that isn't so, or it is rejected, and then the reader is as it was: `read` says
    /// what there is. What it reads is what `read` does, in less time.
    #[inline(always)]
    pub fn read_whole<'a>(&mut self, bytes: &'a [u8]) -> Option<(BorrowedRecord<'a>, &'a [u8])>
        ensures read { IfSome result (λ found. (left : Option Begun) → HasLeft self.old left
            → Reads self.old self.new left bytes.now found.1.now (IsFound found.0)) }
        ensures some { IfSome result (λ found. length found.1.now < length bytes.now) }
        ensures clear { OnSome result ((self.old.fault ≡ None) × (self.old.held ≡ []) × (self.old.split ≡ None)) }
        ensures none { IfNone result (self.new ≡ self.old) }
        ensures refused { IfNone result ((left : Option Begun) → HasLeft self.old left → self.old.held ≡ []
            → self.old.split ≡ None → (text following : List ℕ) → LacksReturn text → bytes.now ≡ text ++ 13 ∷ following
            → IsRecordRefused left text) }
    {
        if self.fault.is_some() || !self.kept.is_clear() {
            return None;
        }
        let Some(end) = first_bad_byte(bytes) else {
            return None;
        };
        let (text, following) = bytes.split_at(end);
        let Some((byte, rest)) = following.split_first() else {
            return None;
        };
        if *byte != CR {
            return None;
        }
        match self.end_whole(text, None) {
            Ok(entry) => Some((entry, rest)),
            Err(_) => None,
        }
    }

    /// The record that was read last, where it was split; none where it was whole in the bytes, or none was read.
    pub fn split(&self) -> Option<BorrowedRecord<'_>>
        ensures { result ≡ self.now.split }
    {
        self.kept.split()
    }

    /// The text of that record, without its CR; empty where there is none.
    pub fn split_text(&self) -> &[u8]
        ensures value { result.now ≡ self.now.split_text }
        ensures bound { length result.now ≤ record_limit }
        ensures place { IfSome self.now.split (λ entry.
            entry ≡ record_in entry.delimiters entry.content.kind result.now) }
    {
        self.kept.split_text()
    }

    /// The place of the next record in its message, from 1 for a header.
    pub fn next_place(&self) -> u64
        ensures { (left : Option Begun) → self.now.opened ≡ opened_of left → result ≡ next_place left }
    {
        match &self.opened {
            None => 1,
            Some(opened) => opened.count.saturating_add(1),
        }
    }

    /// How many bytes of a record that isn't ended are held; none after a fault.
    pub fn held(&self) -> u64
        ensures value { result ≡ length self.now.held }
        ensures bound { result ≤ 65536 }
    {
        self.kept.text().len() as u64
    }

    /// The end of the stream: a message that isn't closed, or a record that isn't ended, is `Unfinished`.
    pub fn finish(&self) -> Result<(), MessageFault>
        ensures read { (left : Option Begun) → HasLeft self.now left → result ≡ answer_at_end left self.now.held }
        ensures failed { IfSome self.now.fault (λ fault. result ≡ Err fault) }
    {
        if let Some(fault) = self.fault {
            return Err(fault);
        }
        if self.opened.is_none() && self.kept.text().is_empty() {
            return Ok(());
        }
        Err(MessageFault {
            place: self.next_place(),
            reason: Reason::Unfinished,
        })
    }

    /// Reads on, where no fault was met and the last record is released.
    #[inline(always)]
    fn read_open<'a>(&mut self, bytes: &'a [u8]) -> Result<(&'a [u8], RecordFound<'a>), Reason>
        requires { self.old.split ≡ None }
        ensures ok { IfOk result (λ answer. (left : Option Begun) → HasLeft self.old left
            → Reads self.old self.new left bytes.now answer.0.now answer.1) }
        ensures err { IfErr result (λ reason. (left : Option Begun) → HasLeft self.old left
            → IsStopped left self.old.held bytes.now reason) }
        ensures opened { OnErr result (self.new.opened ≡ self.old.opened) }
        ensures some { IfOk result (λ answer. ReadsSome self.new bytes.now answer.0.now answer.1) }
        ensures fault { self.new.fault ≡ self.old.fault }
    {
        let Some((text, following, bad)) = next_line(bytes) else {
            return match self.kept.hold(bytes) {
                Ok(()) => Ok((&[], RecordFound::Nothing)),
                Err(reason) => Err(reason),
            };
        };
        if self.kept.text().is_empty() {
            return match self.end_whole(text, bad) {
                Ok(entry) => Ok((following, RecordFound::Record(entry))),
                Err(reason) => Err(reason),
            };
        }
        match self.end_held(text) {
            Ok(()) => Ok((following, RecordFound::Held)),
            Err(reason) => Err(reason),
        }
    }

    /// Reads a record that this text is, at its CR.
    #[inline(always)]
    fn end_whole<'a>(
        &mut self,
        text: &'a [u8],
        bad: Option<usize>,
    ) -> Result<BorrowedRecord<'a>, Reason>
        requires { bad ≡ bad_byte_place text.now }
        ensures ok { IfOk result (λ entry. (left : Option Begun) → self.old.opened ≡ opened_of left
            → ComesNext left text.now entry × (self.new.opened ≡ opened_of
            (left_after left entry entry.content.kind))) }
        ensures err { IfErr result (λ reason. (left : Option Begun) → self.old.opened ≡ opened_of left
            → IsRecordRefusedFor left text.now reason) }
        ensures held { self.new.held ≡ self.old.held }
        ensures split { self.new.split ≡ self.old.split }
        ensures fault { self.new.fault ≡ self.old.fault }
        ensures same { IfErr result (λ _. self.new ≡ self.old) }
    {
        let entry = match borrow_next(&self.opened, text, bad) {
            Ok(entry) => entry,
            Err(_) if text.len() > RECORD_LIMIT => return Err(Reason::RecordTooLong),
            Err(reason) => return Err(reason),
        };
        open_after(&mut self.opened, entry.delimiters(), entry.kind());
        Ok(entry)
    }

    /// Reads a record that what is held and this text are, at its CR.
    #[inline(never)]
    fn end_held(&mut self, text: &[u8]) -> Result<(), Reason>
        requires { self.old.split ≡ None }
        ensures ok { OnOk result ((left : Option Begun) → self.old.opened ≡ opened_of left
            → EndsHeld self.old self.new left text.now) }
        ensures err { IfErr result (λ reason. (left : Option Begun) → self.old.opened ≡ opened_of left
            → (reason ≡ reasons.OutOfMemory) ⊎ IsRecordRefusedFor left (self.old.held ++ text.now) reason) }
        ensures reported { OnOk result (is_some self.new.split ≡ true) }
        ensures opened { OnErr result (self.new.opened ≡ self.old.opened) }
        ensures fault { self.new.fault ≡ self.old.fault }
    {
        if let Err(reason) = self.kept.hold(text) {
            return Err(reason);
        }
        let text = self.kept.text();
        let (delimiters, kind) = match borrow_next(&self.opened, text, first_bad_byte(text)) {
            Ok(entry) => (entry.delimiters(), entry.kind()),
            Err(reason) => return Err(reason),
        };
        open_after(&mut self.opened, delimiters, kind);
        self.kept.end(delimiters, kind);
        Ok(())
    }
}
