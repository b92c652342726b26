//! An analyzer's sending loop (LIS01-A2, 6.2 to 6.5).

ghost use Rattle.std.specs.Prelude.{◌≡◌, ◌≢◌, ◌↔◌, IsTrue, Some, None, MatchOption, MatchResult};
ghost use Rattle.lis_link.specs.declared.sender.EmitOf.TheVariants as Emits;
ghost use Rattle.lis_link.specs.Sender.{sender_restarted, start_fault};
ghost use Rattle.lis_world.specs.Late.{reply_may_come};
ghost use Rattle.uses.specs.Analyzer.{KeepsTheRule, WasSession, put_out, renewal, sender_step_at};
ghost use Rattle.uses.specs.Connection.{GoesOn};
ghost use Rattle.uses.specs.declared.connection.Event.TheVariants as Events;

use crate::connection::{Connection, Event};
use lis_link::{Emit, EmitOf, Outcome, Phase, REPLY_SECONDS, Sender, StartRefused};
use lis_text::Texts;

/// Whether a reply to a session may still come, by how it ended. A sender without an outcome is new; the line may be
/// older, so this counts as a session that was restarted.
pub fn reply_may_come(outcome: Option<Outcome>) -> bool
    ensures { result ≡ reply_may_come outcome }
{
    match outcome {
        None | Some(Outcome::TimedOut | Outcome::Restarted) => true,
        Some(Outcome::Done | Outcome::SixTries) => false,
    }
}

/// Sends texts over the sender's line, and returns how the session ended, or none if the line was closed before. If a
/// reply to the sender's last session may still come, the line is connected anew first, so that no late reply is taken
/// for one to this session.
pub fn send_texts<L: Connection>(
    line: &mut L,
    sender: &mut Sender,
    texts: Texts,
) -> Result<Option<Outcome>, StartRefused>
    ensures session { MatchResult result
        (λ outcome. (start_fault sender.old texts ≡ None)
        × WasSession texts sender.old (L.event_log line.old) (L.event_log line.new) outcome sender.new)
        (λ refused. (start_fault sender.old texts ≡ Some refused.fault) × (refused.texts ≡ texts)
        × (sender.new ≡ sender.old) × (L.event_log line.new ≡ L.event_log line.old)) }
    ensures rule { KeepsTheRule sender.old texts }
{
    let last = sender.outcome();
    let enquiry = sender.start(texts)?;
    renew(line, last);
    put(line, &enquiry);
    line.start_timer(REPLY_SECONDS);
    for _turn in 0..u64::MAX {
        let before = sender.phase();
        let event = line.wait();
        let Some(emit) = emit_at(sender, event) else {
            return Ok(None);
        };
        put(line, &emit);
        let Some(seconds) = sender.phase().timer_seconds() else {
            return Ok(sender.outcome());
        };
        // An event that means nothing here leaves the timer running.
        if !means_nothing(before, sender.phase(), &emit) {
            line.start_timer(seconds);
        }
    }
    sender.restart();
    Ok(None)
}

/// Connects the line anew if a reply to a session that ended so may still come.
fn renew<L: Connection>(line: &mut L, outcome: Option<Outcome>)
    ensures { GoesOn (L.event_log line.old) (L.event_log line.new) (renewal outcome) }
{
    if reply_may_come(outcome) {
        line.reconnect();
    }
}

/// What the sender emits at an event of its line; none if the line was closed, which restarts the sender.
fn emit_at(sender: &mut Sender, event: Event) -> Option<Emit>
    ensures { MatchOption result
        ((event ≡ Events.Closed) × (sender.new ≡ sender_restarted sender.old))
        (λ emit. (event ≢ Events.Closed) × (emit ≡ (sender_step_at event sender.old).emit)
        × (sender.new ≡ (sender_step_at event sender.old).after)) }
{
    match event {
        Event::Byte(byte) => Some(sender.reply(byte)),
        Event::Timer => Some(sender.timer()),
        Event::Closed => {
            sender.restart();
            None
        }
    }
}

/// Whether an event meant nothing: the phase stays, and nothing is emitted.
fn means_nothing(before: Phase, after: Phase, emit: &Emit) -> bool
    ensures { IsTrue result ↔ ((emit.now ≡ Emits.Nothing) × (after ≡ before)) }
{
    before == after && *emit == EmitOf::Nothing
}

/// Sends what the sender emits.
pub fn put<L: Connection>(line: &mut L, emit: &Emit)
    ensures { GoesOn (L.event_log line.old) (L.event_log line.new) (put_out emit.now) }
{
    let bytes = emit.bytes();
    if !bytes.is_empty() {
        line.send(bytes.as_slice());
    }
}
