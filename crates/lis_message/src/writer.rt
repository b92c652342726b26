//! Writing a message, record by record.
ghost use Rattle.std.specs.Prelude.{◌≡◌, ◌-◌, ◌≤◌, ◌<◌, false, None, Some, Result, OnOk, IfErr, MatchResult, length};
ghost use Rattle.std.specs.Prelude.{drop};
ghost use Rattle.lis_record_write.specs.Encoding.{written};
ghost use Rattle.lis_message.specs.Stream.{IsMessage};
ghost use Rattle.lis_tree.specs.Tree.{flatten};
ghost use Rattle.lis_message.specs.Writing.{AreWritable, CanResume, WroteMessage, WroteRecords, first_length};
ghost use Rattle.lis_message.specs.Writing.{is_sink_fault, message_bytes, refusal_from, write_refusal};

use crate::fault::MessageWriteFault;
use lis_port::Sink;
use lis_record::{Delimiters, check_record, write_record_from};
use lis_tree::{Message, Walk};

/// Tests the records that are left, the first of which has this place.
fn check_records(delimiters: Delimiters, walk: Walk<'_>) -> Result<(), MessageWriteFault>
    ensures { MatchResult result
        (λ _. refusal_from delimiters 1 walk.entry ≡ None)
        (λ fault. refusal_from delimiters 1 walk.entry ≡ Some fault) }
{
    let mut walk = walk;
    let mut place: u64 = 1;
    while let Some(entry) = walk.next() {
        if let Err(fault) = check_record(&delimiters, entry) {
            return Err(MessageWriteFault { place, fault });
        }
        place = place.saturating_add(1);
    }
    Ok(())
}

/// Whether each record of a message can be written; if not, the first that can't, and why. `Io` isn't among these.
pub fn check_message(message: &Message) -> Result<(), MessageWriteFault>
    ensures { MatchResult result
        (λ _. write_refusal message.now ≡ None)
        (λ fault. write_refusal message.now ≡ Some fault) }
{
    check_records(message.delimiters(), Walk::new(message))
}

/// The walk without so many records at its front.
fn passed(walk: Walk<'_>, count: u64) -> Walk<'_>
    ensures { result ≡ drop count walk.entry }
{
    let mut walk = walk;
    let mut more = count;
    while more > 0 {
        if walk.next().is_none() {
            return walk;
        }
        more -= 1;
    }
    walk
}

/// Writes the records that are left, the first of which has this place, without the first `skip` bytes.
fn write_records<W: Sink>(
    sink: &mut W,
    delimiters: Delimiters,
    walk: Walk<'_>,
    place: u64,
    skip: u64,
) -> Result<(), MessageWriteFault>
    requires sink { W.failed sink.old ≡ false }
    requires writable { AreWritable delimiters walk }
    requires skip { skip ≤ first_length delimiters walk }
    ensures wrote { WroteRecords delimiters walk.entry place skip (W.taken sink.old) (W.taken sink.new) result }
    ensures failed { W.failed sink.new ≡ is_sink_fault result }
{
    let mut walk = walk;
    let mut at = place;
    let mut passed = skip;
    while let Some(entry) = walk.next() {
        if let Err(fault) = write_record_from(sink, &delimiters, entry, passed) {
            return Err(MessageWriteFault { place: at, fault });
        }
        at = at.saturating_add(1);
        passed = 0;
    }
    Ok(())
}

/// Writes a message from the record at a place on, from 1 for the header, without the first `skip` bytes of that one.
/// All records are tested before any byte is written. Where the sink fails, the count is that of the record at the
/// fault's place, with what was skipped of it.
///
/// The sink has not failed, the message has a record at the place, and no more bytes are skipped than that one has.
/// What `MessageWriteFault::resume` gives is such a place and such a count.
pub fn write_message_from<W: Sink>(
    sink: &mut W,
    message: &Message,
    place: u64,
    skip: u64,
) -> Result<(), MessageWriteFault>
    requires sink { W.failed sink.old ≡ false }
    requires first { 1 ≤ place }
    requires last { place ≤ length (flatten message.now) }
    requires skip { skip ≤ first_length message.now.delimiters (drop (place - 1) (flatten message.now)) }
    ensures wrote { WroteMessage message.now place skip (W.taken sink.old) (W.taken sink.new) result }
    // What is written whole is the message.
    ensures related { OnOk result (IsMessage (message_bytes message.now) message.now) }
    ensures failed { W.failed sink.new ≡ is_sink_fault result }
    // A failed sink may be replaced, and the rest be written.
    ensures resume { IfErr result (λ fault. CanResume message.now fault.place fault.fault) }
{
    if let Err(fault) = check_records(message.delimiters(), Walk::new(message)) {
        return Err(fault);
    }
    let walk = passed(Walk::new(message), place - 1);
    write_records(sink, message.delimiters(), walk, place, skip)
}

/// Writes a message to a sink that has not failed: its records' encodings, CR after each. All records are tested before
/// any byte is written.
pub fn write_message<W: Sink>(sink: &mut W, message: &Message) -> Result<(), MessageWriteFault>
    requires { W.failed sink.old ≡ false }
    ensures wrote { WroteMessage message.now 1 0 (W.taken sink.old) (W.taken sink.new) result }
    // What is written is the message.
    ensures related { OnOk result (IsMessage (message_bytes message.now) message.now) }
    ensures failed { W.failed sink.new ≡ is_sink_fault result }
    // A failed sink may be replaced, and the rest be written.
    ensures resume { IfErr result (λ fault. CanResume message.now fault.place fault.fault) }
{
    write_message_from(sink, message, 1, 0)
}
