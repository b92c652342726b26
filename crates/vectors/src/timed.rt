//! Calls that `lislink` doesn't make by themselves, for the benchmark to time: the receiver's hearing of bytes, the
//! reading of messages as trees and as tables, and the playing of events.

ghost use Rattle.std.specs.Prelude.{◌<◌, ◌≤◌, length};

use lis_link::{Outcome, Receiver};
use lis_message::read_messages;
use lis_message_table::{LisPart, MessageTable};
use lis_station::{AnswerOf, HearingOf, Role, Station};
use lis_text::Texts;
use lis_world::{Event, Events, Session, play};
use std::alloc::Global;
use std::io::Read;
use std::mem::drop;
use std::process::ExitCode;

/// How many bytes of standard input are heard at once.
const PIECE: usize = 65_536;

/// How many frames the session has that is played, each a text of its own.
const FRAMES: usize = 1_000;

/// How many components of a record are kept.
const MOST_PARTS: usize = 256;

const NO_PART: LisPart = LisPart {
    offset: 0,
    len: 0,
    field: 0,
    repeat: 0,
    component: 0,
    flags: 0,
};

/// What a full frame carries.
const FULL: usize = 240;

/// What the words after the program's name ask for.
#[derive(Clone, Copy)]
pub(crate) enum Asked {
    /// The answers of rows.
    Rows,
    /// The hearing of link bytes, by a receiver.
    Bytes,
    /// The same, by a station.
    Station,
    /// The reading of messages, so many times.
    Messages(u32),
    /// The reading of messages where they are, so many times.
    Tables(u32),
    /// The same with all components of each record.
    Parts(u32),
    /// The playing of a session, so many times.
    Play(u32),
}

/// What words ask for, of which the first is the program's name; none where they ask for nothing that is known.
pub(crate) fn asked_by(words: &[String]) -> Option<Asked> {
    match words {
        [] | [_] => Some(Asked::Rows),
        [_, what] => asked_once(what.as_str()),
        [_, what, rounds] => asked_again(what.as_str(), rounds.as_str()),
        _ => None,
    }
}

/// What a word alone asks for.
fn asked_once(what: &str) -> Option<Asked> {
    match what {
        "bytes" => Some(Asked::Bytes),
        "station" => Some(Asked::Station),
        "messages" => Some(Asked::Messages(1)),
        _ => None,
    }
}

/// What a word and a number of rounds ask for.
fn asked_again(what: &str, rounds: &str) -> Option<Asked> {
    let rounds = rounds.parse().ok()?;
    match what {
        "again" => Some(Asked::Messages(rounds)),
        "tables" => Some(Asked::Tables(rounds)),
        "parts" => Some(Asked::Parts(rounds)),
        "play" => Some(Asked::Play(rounds)),
        _ => None,
    }
}

/// Makes the calls that were asked for, and prints what they count.
pub(crate) fn make_calls(rt: &HostRuntime, asked: Option<Asked>) -> ExitCode {
    match asked {
        Some(Asked::Bytes) => report(rt, heard(Receiver::new(rt.alloc()), &mut rt.reader())),
        Some(Asked::Station) => {
            let station = Station::new(rt.alloc(), Role::Computer);
            report(rt, heard(station, &mut rt.reader()))
        }
        Some(Asked::Messages(rounds)) => {
            report(rt, in_messages(rt.alloc(), &mut rt.reader(), rounds))
        }
        Some(Asked::Tables(rounds)) => {
            report(rt, in_tables(rt.alloc(), &mut rt.reader(), rounds, false))
        }
        Some(Asked::Parts(rounds)) => {
            report(rt, in_tables(rt.alloc(), &mut rt.reader(), rounds, true))
        }
        Some(Asked::Play(rounds)) => report(rt, played(rt.alloc(), rounds)),
        Some(Asked::Rows) | None => {
            // If it can't be printed, the status still says it.
            let _ = eprintln!(rt;
                "usage: vectors [bytes | station | messages | again N | tables N | parts N | play N]"
            );
            ExitCode::from(2)
        }
    }
}

/// Prints a count, and reports by the status whether there was one.
fn report(rt: &HostRuntime, count: Option<u64>) -> ExitCode {
    match count {
        Some(count) if println!(rt; "{count}").is_ok() => ExitCode::from(0),
        _ => ExitCode::from(3),
    }
}

/// What hears link bytes.
trait Hears: Drop {
    /// Hears bytes: how many of them at once, and whether a text was delivered.
    fn hear(&mut self, bytes: &[u8]) -> (usize, bool)
        requires { 0 < length bytes.now }
        ensures some { 0 < result.0 }
        ensures bound { result.0 ≤ length bytes.now };
}

impl Hears for Receiver {
    fn hear(&mut self, bytes: &[u8]) -> (usize, bool) {
        let hearing = self.bytes(bytes);
        (hearing.count, hearing.step.message.is_some())
    }
}

impl Hears for Station {
    fn hear(&mut self, bytes: &[u8]) -> (usize, bool) {
        let HearingOf { count, answer } = self.bytes(bytes);
        match answer {
            AnswerOf::Emits(_emit) => (count, false),
            AnswerOf::Hears(step) => (count, step.message.is_some()),
        }
    }
}

/// The number of texts that are delivered of all that is read; none where a read fails.
fn heard<R: Read, H: Hears>(mut hearer: H, reader: &mut R) -> Option<u64> {
    let mut piece = [0; PIECE];
    let mut texts = 0;
    for _ in 0..u64::MAX {
        let count = reader.read(&mut piece).ok()?;
        if count == 0 {
            return Some(texts);
        }
        texts = delivered_texts(&mut hearer, &piece[..count], texts);
    }
    None
}

/// The number of texts that were delivered, with those of these bytes.
fn delivered_texts<H: Hears>(hearer: &mut H, bytes: &[u8], texts: u64) -> u64 {
    let (mut place, mut texts) = (0, texts);
    while place < bytes.len() {
        let (count, is_delivered) = hearer.hear(&bytes[place..]);
        place += count;
        if is_delivered {
            texts = texts.saturating_add(1);
        }
    }
    texts
}

/// The number of messages in all that is read, in all rounds, each made a tree; none where a read fails or a record is
/// rejected.
fn in_messages<R: Read>(alloc: Global, reader: &mut R, rounds: u32) -> Option<u64> {
    let mut bytes = Vec::new(alloc);
    reader.read_to_end(&mut bytes).ok()?;
    let messages = again(alloc, bytes.as_slice(), rounds);
    drop(bytes);
    messages
}

/// The number of messages in all rounds over a record text.
fn again(alloc: Global, bytes: &[u8], rounds: u32) -> Option<u64> {
    let mut messages = 0u64;
    for _ in 0..rounds {
        messages = messages.saturating_add(messages_of(alloc, bytes)?);
    }
    Some(messages)
}

/// The number of messages in a record text, each made a tree; none where a record is rejected.
fn messages_of(alloc: Global, bytes: &[u8]) -> Option<u64> {
    let read = read_messages(alloc, bytes);
    let count = read.messages.len() as u64;
    let is_refused = read.fault.is_some();
    drop(read);
    if is_refused { None } else { Some(count) }
}

/// The number of messages in all that is read, in all rounds, each read where it is, with all components of its records
/// if that is asked; none where a read fails or a record is rejected.
fn in_tables<R: Read>(alloc: Global, reader: &mut R, rounds: u32, with_parts: bool) -> Option<u64> {
    let mut bytes = Vec::new(alloc);
    reader.read_to_end(&mut bytes).ok()?;
    let messages = tables_again(alloc, bytes.as_slice(), rounds, with_parts);
    drop(bytes);
    messages
}

/// The number of messages in all rounds over a record text, by one table.
fn tables_again(alloc: Global, bytes: &[u8], rounds: u32, with_parts: bool) -> Option<u64> {
    let mut parts = [NO_PART; MOST_PARTS];
    let asked = if with_parts { MOST_PARTS } else { 0 };
    let mut table = MessageTable::new(alloc);
    let mut messages = Some(0u64);
    for _ in 0..rounds {
        messages = tables_of(&mut table, bytes, &mut parts[..asked], messages);
    }
    drop(table);
    messages
}

/// The number of messages, with those of a record text; none where a record is rejected.
fn tables_of<'a>(
    table: &mut MessageTable<'a>,
    bytes: &'a [u8],
    parts: &mut [LisPart],
    messages: Option<u64>,
) -> Option<u64> {
    let (mut rest, mut messages) = (bytes, messages?);
    for _ in 0..=bytes.len() {
        match table.read(rest) {
            Ok(Some(following)) => rest = following,
            Ok(None) => return Some(messages),
            Err(_) => return None,
        }
        if !parts.is_empty() && size_of_parts(table, parts)? > bytes.len() as u64 {
            return None;
        }
        messages = messages.saturating_add(1);
    }
    None
}

/// How many bytes all components of a message have; none where a record has more of them than the list has room for.
fn size_of_parts(table: &MessageTable<'_>, parts: &mut [LisPart]) -> Option<u64> {
    let mut size = 0u64;
    for index in 0..table.places().len() {
        let count = table.put_parts(index, parts)?;
        if count > parts.len() {
            return None;
        }
        for part in &parts[..count] {
            size = size.saturating_add(u64::from(part.len));
        }
    }
    Some(size)
}

/// The number of frames that were accepted in all rounds; none if memory runs out.
fn played(alloc: Global, rounds: u32) -> Option<u64> {
    let mut frames = 0u64;
    for _ in 0..rounds {
        frames = frames.saturating_add(frames_of_a_session(alloc)?);
    }
    Some(frames)
}

/// The number of frames that are accepted in the session.
fn frames_of_a_session(alloc: Global) -> Option<u64> {
    let history = play(alloc, session(alloc)?).ok()?;
    let frames = accepted(history.as_slice());
    drop(history);
    Some(frames)
}

/// The number of frames that were accepted in the sessions that came to their end.
fn accepted(history: &[Session]) -> u64 {
    let mut frames = 0u64;
    for session in history {
        if let Some(Outcome::Done) = session.outcome() {
            frames = frames.saturating_add(session.accepted().len() as u64);
        }
    }
    frames
}

/// The events of an undisturbed session of full frames.
fn session(alloc: Global) -> Option<Events> {
    let texts = full_texts(alloc)?;
    let mut events = Events::new(alloc);
    if push_session(texts, &mut events).is_none() {
        drop(events);
        return None;
    }
    Some(events)
}

/// Pushes the events of the session that has these texts.
fn push_session(texts: Texts, events: &mut Events) -> Option<()> {
    events.push(Event::Start(texts)).ok()?;
    // ENQ, the frames, and EOT, which is not answered.
    for _ in 0..FRAMES + 1 {
        events.push(Event::Deliver).ok()?;
        events.push(Event::Reply).ok()?;
    }
    events.push(Event::Deliver).ok()
}

/// The texts of the session.
fn full_texts(alloc: Global) -> Option<Texts> {
    let text = [b'R'; FULL];
    Texts::from_slices(alloc, &[text.as_slice(); FRAMES]).ok()
}
