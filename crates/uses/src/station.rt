//! A station's loop, for a program that sends and receives on one line (LIS01-A2, 6.2 to 6.6).

ghost use Rattle.std.specs.Prelude.{◌≡◌, ◌≢◌, [], ◌∷◌, ◌++◌, Some, None, MatchOption, MatchResult};
ghost use Rattle.lis_text.specs.Control.{ENQ};
ghost use Rattle.lis_link.specs.Sender.{started};
ghost use Rattle.lis_station.specs.declared.station.Turn.TheVariants.{Free};
ghost use Rattle.lis_station.specs.Representation.{IsStation};
ghost use Rattle.lis_station.specs.Station.{StationState, station_fault, station_started};
ghost use Rattle.uses.specs.Analyzer.{put_out};
ghost use Rattle.uses.specs.Computer.{reply_log};
ghost use Rattle.uses.specs.Connection.{GoesOn, sent, timed};
ghost use Rattle.uses.specs.Station.{WasRun, over_by, timer_log, timer_unless_quiet};
ghost use Rattle.uses.specs.inside.Station.{WasTurn, WasHeard, AnswersStation};
ghost use Rattle.uses.specs.declared.connection.Event.TheVariants as Events;

use crate::analyzer::put;
use crate::connection::{Connection, Event, Host};
use lis_link::{Note, Outcome, Phase, REPLY_SECONDS, Step};
use lis_station::{AnswerOf, Station, StationRefusedOf};
use lis_text::{LinkText, Texts};

/// How a station's loop ended.
#[derive(Debug, PartialEq, Eq, Drop)]
pub enum Ran {
    /// The other side's text is whole, kept and acknowledged.
    Text(LinkText),
    /// The own session is over, with this outcome.
    Over(Option<Outcome>),
    /// The line was closed.
    Closed,
}

/// Asks for the line, to send these texts: sends ENQ, and starts the timer for its reply. While the other side has the
/// line, and whenever the station starts no session, the texts come back and nothing is sent. `turn_seconds` of the
/// station says whether the line should first be left to the other side.
pub fn start_session<L: Connection>(
    line: &mut L,
    station: &mut Station,
    texts: Texts,
) -> Result<(), StationRefusedOf<Texts>>
    ensures { (s : StationState) → IsStation 240 station.old s → MatchResult result
        (λ started. (station_fault s texts ≡ None) × IsStation 240 station.new (station_started 240 texts s)
        × GoesOn (L.event_log line.old) (L.event_log line.new) (sent (ENQ ∷ []) ∷ timed 15 ∷ []))
        (λ refused. (station_fault s texts ≡ Some refused.fault) × (refused.texts ≡ texts)
        × (station.new ≡ station.old) × (L.event_log line.new ≡ L.event_log line.old)) }
{
    let enquiry = station.start(texts)?;
    put(line, &enquiry);
    line.start_timer(REPLY_SECONDS);
    Ok(())
}

/// Runs a station on its line until the other side's next text is kept and acknowledged, the own session is over, or
/// the line is closed. A byte and the timer are each for the station's end that awaits them. A whole text is kept
/// first, and only then is the reply to its last frame sent. One that can't be kept gets no reply, and the other side
/// loses the line: its timer runs out, and it sends the text again in a later session. After that the program starts no
/// session of its own for over 15 seconds.
pub fn run_station<H: Host>(host: &mut H, station: &mut Station) -> Ran
    ensures { (s : StationState) → IsStation 240 station.old s →
        WasRun s (H.event_log host.old) (H.event_log host.new) result station.new }
{
    for _turn in 0..u64::MAX {
        let event = host.wait();
        if let Some(ran) = take_event(host, station, event) {
            return ran;
        }
    }
    Ran::Closed
}

/// What one event leads to; none if the loop goes on.
fn take_event<H: Host>(host: &mut H, station: &mut Station, event: Event) -> Option<Ran>
    ensures { (s : StationState) → IsStation 240 station.old s →
        WasTurn event s (H.event_log host.old) (H.event_log host.new) result station.new }
{
    let before = station.sender().phase();
    let Some(answer) = answer_at(station, event) else {
        return Some(Ran::Closed);
    };
    match answer {
        AnswerOf::Hears(step) => take_step(host, station, step),
        AnswerOf::Emits(emit) => {
            put(host, &emit);
            start_timer(host, station.timer_seconds());
            over_by(before, station.sender().phase(), station.sender().outcome())
        }
    }
}

/// The receiver has made a step: a whole text is kept, and only then the reply is sent. If it can't be kept nothing is
/// sent, and the line is closed.
fn take_step<H: Host>(host: &mut H, station: &mut Station, step: Step) -> Option<Ran>
    ensures { (s : StationState) → IsStation 240 station.old s →
        WasHeard s step (H.event_log host.old) (H.event_log host.new) result station.new }
{
    let Step {
        reply,
        message,
        note,
    } = step;
    let Some(text) = message else {
        reply_and_time(host, reply, note, station.timer_seconds());
        return None;
    };
    if !host.keep(&text) {
        station.close_line();
        start_timer(host, station.timer_seconds());
        return None;
    }
    reply_and_time(host, reply, note, station.timer_seconds());
    Some(Ran::Text(text))
}

/// The station's answer at an event of its line; none where the line was closed.
fn answer_at(station: &mut Station, event: Event) -> Option<AnswerOf<240>>
    ensures { MatchOption result
        ((event ≡ Events.Closed) × (station.new ≡ station.old))
        (λ answer. (event ≢ Events.Closed)
        × ((s : StationState) → IsStation 240 station.old s → AnswersStation event s answer station.new)) }
{
    match event {
        Event::Byte(byte) => Some(station.byte(byte)),
        Event::Timer => Some(station.timer()),
        Event::Closed => None,
    }
}

/// How the session ended, if it is over: the sender was in one, and is so no more.
fn over_by(before: Phase, after: Phase, outcome: Option<Outcome>) -> Option<Ran>
    ensures { result ≡ over_by before after outcome }
{
    match (before, after) {
        (Phase::Neutral, _) => None,
        (_, Phase::Neutral) => Some(Ran::Over(outcome)),
        _ => None,
    }
}

/// Sends the reply, and starts the timer anew unless the step meant nothing.
fn reply_and_time<L: Connection>(line: &mut L, reply: Option<u8>, note: Note, seconds: Option<u32>)
    ensures { GoesOn (L.event_log line.old) (L.event_log line.new)
        (reply_log reply ++ timer_unless_quiet note seconds) }
{
    if let Some(byte) = reply {
        line.send(&[byte]);
    }
    if note != Note::Quiet {
        start_timer(line, seconds);
    }
}

/// Starts the timer anew, if one runs.
fn start_timer<L: Connection>(line: &mut L, seconds: Option<u32>)
    ensures { GoesOn (L.event_log line.old) (L.event_log line.new) (timer_log seconds) }
{
    if let Some(seconds) = seconds {
        line.start_timer(seconds);
    }
}
