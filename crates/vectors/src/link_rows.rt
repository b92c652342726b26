//! Events on a link, and what became of each session.

ghost use Rattle.lis_frame.specs.Limit.{IsLimit};

use crate::answer::Answer;
use crate::frame_rows::put_frame;
use crate::sender_rows::put_outcome;
use crate::words::{Call, byte_of, link_text_of, texts_of};
use lis_frame::FramesOf;
use lis_world::{Event, HistoryOf, LateEvent, List, PlayFault, SessionOf, play_late_of, play_of};
use std::mem::drop;

/// Answers a call on a link.
pub(crate) fn link_call<const N: usize>(call: Call<'_>, answer: &mut Answer)
    requires { IsLimit N }
{
    if let Some(events) = events_of::<Event>(call, answer) {
        put_played(play_of::<N>(answer.alloc, events), answer);
    }
}

/// Answers a call on a line that answers late.
pub(crate) fn late_call<const N: usize>(call: Call<'_>, answer: &mut Answer)
    requires { IsLimit N }
{
    if let Some(events) = events_of::<LateEvent>(call, answer) {
        put_played(play_late_of::<N>(answer.alloc, events), answer);
    }
}

/// Puts what was played, if memory was there.
fn put_played<const N: usize>(played: Result<HistoryOf<N>, PlayFault>, answer: &mut Answer)
    requires { IsLimit N }
{
    if let Some(history) = answer.made(played) {
        put_history(history.as_slice(), answer);
        drop(history);
    }
}

/// The events that the words of a call report; without them it is no call.
pub(crate) fn events_of<E: FromWord>(call: Call<'_>, answer: &mut Answer) -> Option<List<E>> {
    if call.name != "play" {
        answer.no_call();
        return None;
    }
    let mut events = List::new(answer.alloc);
    for word in call.words {
        match E::from_word(*word, answer) {
            Some(event) => answer.needs(events.push(event)),
            None => answer.no_call(),
        }
    }
    Some(events)
}

/// An event that a word can report.
pub(crate) trait FromWord: Sized + Drop {
    /// The event that a word reports, if it reports one.
    fn from_word(word: &str, answer: &mut Answer) -> Option<Self>;
}

impl FromWord for LateEvent {
    fn from_word(word: &str, answer: &mut Answer) -> Option<Self> {
        match word {
            "Reconnect" => Some(LateEvent::Reconnect),
            _ => Event::from_word(word, answer).map(LateEvent::Happens),
        }
    }
}

impl FromWord for Event {
    fn from_word(word: &str, answer: &mut Answer) -> Option<Self> {
        match word.split_once(':') {
            None => plain_event_of(word),
            Some(("Start", texts)) => Some(Event::Start(texts_of(texts, answer))),
            Some(("Damage", bytes)) => Some(Event::Damage(link_text_of(bytes, answer))),
            Some(("DamageReply", byte)) => Some(Event::DamageReply(byte_of(byte, answer))),
            _ => None,
        }
    }
}

/// The event that a word without an argument reports.
fn plain_event_of(word: &str) -> Option<Event> {
    match word {
        "Deliver" => Some(Event::Deliver),
        "DeliverNoRoom" => Some(Event::DeliverNoRoom),
        "Lose" => Some(Event::Lose),
        "Reply" => Some(Event::Reply),
        "LoseReply" => Some(Event::LoseReply),
        "SenderTimer" => Some(Event::SenderTimer),
        "ReceiverTimer" => Some(Event::ReceiverTimer),
        "RestartSender" => Some(Event::RestartSender),
        "RestartReceiver" => Some(Event::RestartReceiver),
        "Ready" => Some(Event::Ready),
        "Busy" => Some(Event::Busy),
        "Contending" => Some(Event::Contending),
        _ => None,
    }
}

/// Puts the sessions of a history.
fn put_history<const N: usize>(history: &[SessionOf<N>], answer: &mut Answer)
    requires { IsLimit N }
{
    answer.number("sessions=", history.len() as u64);
    for session in history {
        put_session(session, answer);
    }
}

/// Puts what became of a session.
pub(crate) fn put_session<const N: usize>(session: &SessionOf<N>, answer: &mut Answer)
    requires { IsLimit N }
{
    answer.texts(" session texts=", session.texts());
    put_frames(" sent=", session.sent(), answer);
    put_frames(" accepted=", session.accepted(), answer);
    answer.number(" acknowledged=", session.acknowledged());
    answer.texts(" handed=", session.handed());
    put_outcome(session.outcome(), answer);
}

/// Puts frames, `none` where there are none.
fn put_frames<const N: usize>(name: &str, frames: &FramesOf<N>, answer: &mut Answer)
    requires { IsLimit N }
{
    answer.text(name);
    if frames.is_empty() {
        answer.text("none");
    }
    let mut between = "";
    for frame in frames.as_slice() {
        answer.text(between);
        put_frame(frame, answer);
        between = ",";
    }
}
