//! A computer's receiving loop (LIS01-A2, 6.2 to 6.6).

ghost use Rattle.std.specs.Prelude.{◌≡◌, ◌≢◌, ◌++◌, MatchOption};
ghost use Rattle.lis_link.specs.declared.receiver.Note.TheVariants as Notes;
ghost use Rattle.lis_link.specs.Representation.{IsIn};
ghost use Rattle.lis_link.specs.Receiver.{ReceiverState};
ghost use Rattle.uses.specs.Computer.{WasReception, reply_log, timer_after};
ghost use Rattle.uses.specs.inside.Computer.{Answers, keeping_log, state_after_keeping};
ghost use Rattle.uses.specs.Connection.{GoesOn};
ghost use Rattle.uses.specs.declared.connection.Event.TheVariants as Events;

use crate::connection::{Connection, Event, Host};
use lis_link::{Note, RECEIVER_SECONDS, Receiver, Step};
use lis_text::LinkText;

/// Waits for the analyzer's next whole text, keeps it, and only then acknowledges its last frame. Answers all that
/// comes before it. A text that can't be kept gets no reply, and the receiver restarts: the analyzer's timer runs out,
/// and it sends the text again in a later session. Returns the text, or none if the line was closed.
pub fn next_text<H: Host>(host: &mut H, receiver: &mut Receiver) -> Option<LinkText>
    ensures { (r : ReceiverState) → IsIn 240 receiver.old r →
        WasReception r (H.event_log host.old) (H.event_log host.new) result receiver.new }
{
    for _turn in 0..u64::MAX {
        let event = host.wait();
        let Some(step) = step_at(receiver, event) else {
            return None;
        };
        let Step {
            reply,
            message,
            note,
        } = step;
        match message {
            None => put(host, reply, note, receiver.is_open()),
            Some(text) => {
                if keep_then_reply(host, receiver, &text, reply, note) {
                    return Some(text);
                }
            }
        }
    }
    None
}

/// Keeps a whole text, and only then sends the reply to its last frame; returns whether it did. If the text can't be
/// kept, nothing is sent, and the receiver restarts.
fn keep_then_reply<H: Host>(
    host: &mut H,
    receiver: &mut Receiver,
    text: &LinkText,
    reply: Option<u8>,
    note: Note,
) -> bool
    ensures { (r : ReceiverState) → IsIn 240 receiver.old r →
        GoesOn (H.event_log host.old) (H.event_log host.new)
        (keeping_log result text.now (reply_log reply ++ timer_after note r.is_open))
        × IsIn 240 receiver.new (state_after_keeping result r) }
{
    if !host.keep(text) {
        receiver.restart();
        return false;
    }
    put(host, reply, note, receiver.is_open());
    true
}

/// The receiver's step at an event of its line; none where the line was closed.
fn step_at(receiver: &mut Receiver, event: Event) -> Option<Step>
    ensures { MatchOption result
        ((event ≡ Events.Closed) × (receiver.new ≡ receiver.old))
        (λ step. (event ≢ Events.Closed)
        × ((r : ReceiverState) → IsIn 240 receiver.old r → Answers event r step receiver.new)) }
{
    match event {
        Event::Byte(byte) => Some(receiver.byte(byte)),
        // A timer that runs out while the line isn't open means nothing.
        Event::Timer => Some(receiver.timer()),
        Event::Closed => None,
    }
}

/// Sends the reply and starts the timer, by what an event meant. Each answer but that to EOT starts the timer anew;
/// noise leaves it running.
fn put<L: Connection>(line: &mut L, reply: Option<u8>, note: Note, is_open: bool)
    ensures { GoesOn (L.event_log line.old) (L.event_log line.new) (reply_log reply ++ timer_after note is_open) }
{
    if let Some(byte) = reply {
        line.send(&[byte]);
    }
    if note != Note::Quiet && is_open {
        line.start_timer(RECEIVER_SECONDS);
    }
}
