//! Events on a line between two stations, and what became of the sessions of either.

ghost use Rattle.lis_frame.specs.Limit.{IsLimit};

use crate::answer::Answer;
use crate::link_rows::{FromWord, events_of, put_session};
use crate::words::{Call, link_text_of, texts_of};
use lis_line::{BothHistoriesOf, LineEvent, SessionOf, StationEvent, play_both_of};
use std::mem::drop;

/// Answers a call on a line between two stations.
pub(crate) fn both_call<const N: usize>(call: Call<'_>, answer: &mut Answer)
    requires { IsLimit N }
{
    let Some(events) = events_of::<LineEvent>(call, answer) else {
        return;
    };
    if let Some(both) = answer.made(play_both_of::<N>(answer.alloc, events)) {
        put_both(&both, answer);
        drop(both);
    }
}

/// Puts the sessions of either station.
fn put_both<const N: usize>(both: &BothHistoriesOf<N>, answer: &mut Answer)
    requires { IsLimit N }
{
    put_side("analyzer sessions=", both.analyzer.as_slice(), answer);
    put_side(" computer sessions=", both.computer.as_slice(), answer);
}

/// Puts the sessions of a station.
fn put_side<const N: usize>(name: &str, sessions: &[SessionOf<N>], answer: &mut Answer)
    requires { IsLimit N }
{
    answer.number(name, sessions.len() as u64);
    for session in sessions {
        put_session(session, answer);
    }
}

impl FromWord for LineEvent {
    fn from_word(word: &str, answer: &mut Answer) -> Option<Self> {
        match word.split_once('.') {
            Some(("A", event)) => StationEvent::from_word(event, answer).map(LineEvent::AtAnalyzer),
            Some(("C", event)) => StationEvent::from_word(event, answer).map(LineEvent::AtComputer),
            _ => None,
        }
    }
}

impl FromWord for StationEvent {
    fn from_word(word: &str, answer: &mut Answer) -> Option<Self> {
        match word.split_once(':') {
            None => plain_event_of(word),
            Some(("Start", texts)) => Some(StationEvent::Start(texts_of(texts, answer))),
            Some(("Damage", bytes)) => Some(StationEvent::Damage(link_text_of(bytes, answer))),
            _ => None,
        }
    }
}

/// The event that a word without an argument reports.
fn plain_event_of(word: &str) -> Option<StationEvent> {
    match word {
        "Arrive" => Some(StationEvent::Arrive),
        "Lose" => Some(StationEvent::Lose),
        "Timer" => Some(StationEvent::Timer),
        "GiveUp" => Some(StationEvent::GiveUp),
        "CloseLine" => Some(StationEvent::CloseLine),
        "Restart" => Some(StationEvent::Restart),
        "Ready" => Some(StationEvent::SetReady(true)),
        "Busy" => Some(StationEvent::SetReady(false)),
        "AskTurn" => Some(StationEvent::AskTurn),
        _ => None,
    }
}
