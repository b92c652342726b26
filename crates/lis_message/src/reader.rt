//! Reading messages from a stream that comes in pieces. What is kept is the open message and one record's bytes.
ghost use Rattle.std.specs.Prelude.{◌≡◌, ℕ, ◌++◌, ◌∷◌, ◌≤◌, [], List, IfOk, IfErr};
ghost use Rattle.std.specs.Prelude.{OnOk, OnSome, IfSome, IfNone, MatchOption, None, Some, Option, length};
ghost use Rattle.std.specs.List.{AllByRecursion, flat_map};
ghost use Rattle.lis_message.specs.Feeding.{ReadsWhole, ReadsStream, finished};
ghost use Rattle.lis_message.specs.inside.Feeding.{LeadsTo, LeadsBefore, StopsIn};
ghost use Rattle.lis_message.specs.Records.{HasLeft};
ghost use Rattle.lis_message.specs.inside.Records.{Adds, unended};
ghost use Rattle.lis_message.specs.Stream.{IsSplit};
ghost use Rattle.lis_message.specs.Taking.{ComesNext, begun_with, left_after};
ghost use Rattle.lis_message.specs.Writing.{IsWritable, message_bytes};
ghost use Rattle.lis_record_values.specs.declared.kinds.Kind.TheVariants as kinds;
ghost use Rattle.lis_record_values.specs.declared.faults.Reason.TheVariants as reasons;
ghost use Rattle.lis_tree.specs.Tree.{IsTree, MessageTree};

use crate::records::{RecordFound, RecordReader};
use lis_record::{BorrowedRecord, Delimiters, Kind, Record};
use lis_tree::{Message, MessageFault, OpenMessage, Reason};
use std::alloc::{AllocError, Global};
use std::marker::Model;
use std::mem::{drop, replace};

/// A list of messages.
pub type Messages = lis_bytes::List<Message>;

/// Closes the open message with a record that comes next, and adds it to the others.
// Its locals are large: within its caller each record would pay for them.
#[inline(never)]
fn take_last(
    alloc: Global,
    begun: &mut Option<OpenMessage>,
    messages: &mut Messages,
    entry: &BorrowedRecord<'_>,
) -> Result<(), AllocError>
    requires next { (text : List ℕ) × ComesNext begun.old text entry.now }
    requires last { entry.now.content.kind ≡ kinds.L }
    ensures ok { OnOk result (Adds begun.old entry.now messages.old messages.new) }
    ensures left { OnOk result (begun.new ≡ None) }
    ensures err { IfErr result (λ _. messages.new ≡ messages.old) }
{
    let closing = entry.to_record(alloc)?;
    let Some(message) = begun.take() else {
        unreachable!()
    };
    messages.push(message.closed(closing))?;
    Ok(())
}

/// Opens a message with its header.
#[inline(never)]
fn open_message(
    alloc: Global,
    begun: &mut Option<OpenMessage>,
    delimiters: Delimiters,
    header: Record,
)
    requires { header.kind ≡ kinds.H }
    ensures { begun.new ≡ begun_with delimiters (header ∷ []) }
{
    drop(replace(begun, Some(OpenMessage::new(alloc, delimiters, header))));
}

/// Adds a record that comes next to the open message, and the message that it completes to the others.
fn take_record(
    alloc: Global,
    begun: &mut Option<OpenMessage>,
    messages: &mut Messages,
    entry: &BorrowedRecord<'_>,
) -> Result<(), AllocError>
    requires { (text : List ℕ) × ComesNext begun.old text entry.now }
    ensures ok { OnOk result (Adds begun.old entry.now messages.old messages.new) }
    ensures left { OnOk result (begun.new ≡ left_after begun.old entry.now entry.now.content.kind) }
    ensures err { IfErr result (λ _. messages.new ≡ messages.old) }
{
    if let Kind::L = entry.kind() {
        return take_last(alloc, begun, messages, entry);
    }
    let record = entry.to_record(alloc)?;
    match begun {
        Some(message) => message.push(alloc, record),
        None => {
            open_message(alloc, begun, entry.delimiters(), record);
            Ok(())
        }
    }
}

/// Adds a record that comes next, at this place, to the open message, and the message that it completes to the others.
fn take_entry(
    alloc: Global,
    begun: &mut Option<OpenMessage>,
    messages: &mut Messages,
    place: u64,
    entry: &BorrowedRecord<'_>,
) -> Result<(), MessageFault>
    requires { (text : List ℕ) × ComesNext begun.old text entry.now }
    ensures ok { OnOk result (Adds begun.old entry.now messages.old messages.new) }
    ensures left { OnOk result (begun.new ≡ left_after begun.old entry.now entry.now.content.kind) }
    ensures err { IfErr result (λ fault. (fault.reason ≡ reasons.OutOfMemory) × (messages.new ≡ messages.old)) }
    ensures place { IfErr result (λ fault. fault.place ≡ place) }
{
    match take_record(alloc, begun, messages, entry) {
        Ok(()) => Ok(()),
        Err(AllocError) => Err(MessageFault {
            place,
            reason: Reason::OutOfMemory,
        }),
    }
}

/// Reads on to the end of a record, and answers the bytes after it; none where no record ends in the bytes.
fn read_next<'a>(
    alloc: Global,
    records: &mut RecordReader,
    begun: &mut Option<OpenMessage>,
    messages: &mut Messages,
    bytes: &'a [u8],
) -> Result<Option<&'a [u8]>, MessageFault>
    requires { HasLeft records.old begun.old }
    ensures on { IfOk result (λ next. IfSome next (λ following.
        LeadsBefore (unended begun.old records.old) messages.old bytes.now following.now
        (unended begun.new records.new) messages.new)) }
    ensures done { IfOk result (λ next. IfNone next
        (LeadsTo (unended begun.old records.old) messages.old bytes.now (unended begun.new records.new) messages.new)) }
    ensures left { OnOk result (HasLeft records.new begun.new) }
    ensures err { IfErr result
        (λ fault. StopsIn (unended begun.old records.old) messages.old bytes.now messages.new fault) }
{
    let place = records.next_place();
    let (following, found) = records.read(bytes);
    match found {
        RecordFound::Nothing => Ok(None),
        RecordFound::Refused(fault) => Err(fault),
        RecordFound::Record(entry) => match take_entry(alloc, begun, messages, place, &entry) {
            Ok(()) => Ok(Some(following)),
            Err(fault) => Err(fault),
        },
        RecordFound::Held => {
            let Some(entry) = records.split() else {
                unreachable!()
            };
            match take_entry(alloc, begun, messages, place, &entry) {
                Ok(()) => Ok(Some(following)),
                Err(fault) => Err(fault),
            }
        }
    }
}

/// Reads a piece of the stream, and adds the messages that it completes.
fn read_piece(
    alloc: Global,
    records: &mut RecordReader,
    begun: &mut Option<OpenMessage>,
    messages: &mut Messages,
    piece: &[u8],
) -> Result<(), MessageFault>
    requires { HasLeft records.old begun.old }
    ensures ok { OnOk result
        (LeadsTo (unended begun.old records.old) messages.old piece.now (unended begun.new records.new) messages.new) }
    ensures left { OnOk result (HasLeft records.new begun.new) }
    ensures err { IfErr result
        (λ fault. StopsIn (unended begun.old records.old) messages.old piece.now messages.new fault) }
{
    let mut rest = piece;
    loop {
        match read_next(alloc, records, begun, messages, rest) {
            Ok(Some(following)) => rest = following,
            Ok(None) => return Ok(()),
            Err(fault) => return Err(fault),
        }
    }
}

/// What a piece of a stream completes, and the fault that is in it.
#[derive(Drop)]
pub struct Fed {
    /// The messages that the piece completes, those before a fault too.
    pub messages: Messages,
    pub fault: Option<MessageFault>,
}

/// Reads messages from a stream that comes in pieces. It keeps the message that isn't closed, and the bytes of the
/// record that isn't ended. After a fault it gives that fault for good.
#[derive(Drop)]
pub struct MessageReader {
    alloc: Global,
    records: RecordReader,
    begun: Option<OpenMessage>,
    fault: Option<MessageFault>,
}

impl Model for MessageReader {
    ghost use Rattle.lis_message.specs.Feeding.{ReaderState};
    ghost use Rattle.lis_message.specs.Records.{IsOpenFor};

    ghost Value = { ReaderState };

    ghost view = { λ r. record { left = r.begun; held = r.records.held; fault = r.fault } };

    ghost invariant = { λ r. IsOpenFor r.records r.begun r.fault };
}

impl MessageReader {
    /// A reader at the start of a stream. It takes no memory yet.
    pub fn new(alloc: Global) -> Self
        ensures { result ≡ record { left = None; held = []; fault = None } }
    {
        MessageReader {
            alloc,
            records: RecordReader::new(alloc),
            begun: None,
            fault: None,
        }
    }

    /// Reads the next piece of the stream: the messages that it completes, and the fault of the first record that
    /// can't be read. A lack of memory may be in place of that, after the messages of a prefix of the stream.
    pub fn feed(&mut self, piece: &[u8]) -> Fed
        ensures read { self.old.fault ≡ None → (past : List ℕ) (messages : List MessageTree)
            → IsSplit past messages self.old.left self.old.held
            → ReadsStream (past ++ piece.now) (messages ++ result.messages) self.new result.fault }
        ensures failed { IfSome self.old.fault (λ fault.
            (result.messages ≡ []) × (result.fault ≡ Some fault) × (self.new ≡ self.old)) }
        // After a fault nothing is kept.
        ensures empty { OnSome result.fault ((self.new.left ≡ None) × (self.new.held ≡ [])) }
    {
        let mut messages = Messages::new(self.alloc);
        if let Some(fault) = self.fault {
            return Fed {
                messages,
                fault: Some(fault),
            };
        }
        match read_piece(
            self.alloc,
            &mut self.records,
            &mut self.begun,
            &mut messages,
            piece,
        ) {
            Ok(()) => Fed {
                messages,
                fault: None,
            },
            Err(fault) => {
                self.records = RecordReader::new(self.alloc);
                drop(self.begun.take());
                self.fault = Some(fault);
                Fed {
                    messages,
                    fault: Some(fault),
                }
            }
        }
    }

    /// Ends the stream: a message that isn't closed, or a record that isn't ended, is `Unfinished`.
    pub fn finish(self) -> Result<(), MessageFault>
        ensures { result ≡ finished self }
    {
        let ended = match self.fault {
            Some(fault) => Err(fault),
            None => self.records.finish(),
        };
        // By a call: what ends in place is released part by part, and the proof goes over each of them.
        drop(self);
        ended
    }

    /// How many bytes of a record that isn't ended are held; none after a fault.
    pub fn held(&self) -> u64
        ensures value { result ≡ length self.now.held }
        ensures bound { result ≤ 65536 }
        ensures failed { OnSome self.now.fault (result ≡ 0) }
    {
        self.records.held()
    }
}

// What one reader gives that is fed with a whole stream and finished.
fn read_whole(alloc: Global, bytes: &[u8]) -> Fed
    ensures { ReadsWhole bytes.now result.messages result.fault }
{
    let mut reader = MessageReader::new(alloc);
    let Fed { messages, fault } = reader.feed(bytes);
    match fault {
        Some(fault) => {
            drop(reader);
            Fed {
                messages,
                fault: Some(fault),
            }
        }
        None => match reader.finish() {
            Ok(()) => Fed {
                messages,
                fault: None,
            },
            Err(fault) => Fed {
                messages,
                fault: Some(fault),
            },
        },
    }
}

/// Reads a whole stream: what one reader gives that is fed with it and finished.
pub fn read_messages(alloc: Global, bytes: &[u8]) -> Fed
    ensures read { ReadsWhole bytes.now result.messages result.fault }
    // Messages that were written are read back, unless memory runs out.
    ensures back { (ms : List MessageTree) → AllByRecursion IsTree ms → AllByRecursion IsWritable ms
        → bytes.now ≡ flat_map message_bytes ms
        → MatchOption result.fault (result.messages ≡ ms) (λ fault. fault.reason ≡ reasons.OutOfMemory) }
{
    read_whole(alloc, bytes)
}
