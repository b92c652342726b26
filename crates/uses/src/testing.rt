//! Devices for tests: a line in memory on which the events of a script happen, with a store, and a log of all that was
//! done on it.

ghost use Rattle.std.specs.Prelude.{◌≡◌, ◌<◌, ◌∷◌, [], None, Some, MatchOption, drop, if◌then◌else◌, map, true};
ghost use Rattle.std.specs.Prelude.{vec_capacity, vec_len};
ghost use Rattle.uses.specs.Connection.{GoesOn, keeping, reconnected, sent, timed, waited};
ghost use Rattle.uses.specs.Scripted.{log_event_of, log_of, next_answer, next_event};

use crate::connection::{Connection, Event, Host};
use lis_text::LinkText;
use std::alloc::Global;

/// What was done on a line.
#[derive(Debug, Drop)]
pub enum Entry {
    /// This event was waited for.
    Waited(Event),
    /// These bytes were sent.
    Sent(Vec<u8>),
    /// The timer was started, to run out after so many seconds.
    Timed(u32),
    /// The line was connected anew.
    Reconnected,
    /// This text was kept.
    Kept(Vec<u8>),
    /// This text was to be kept, and wasn't.
    NotKept(Vec<u8>),
}

/// A line on which the events of a script happen, one after another, until it is closed. Its store keeps each text but
/// those that a second script rejects. Its log is what was done, oldest first. If memory runs out at an entry the log
/// is lost from then on: for bytes that were sent or a text to be kept, or for more room in the list of entries.
#[derive(Drop)]
pub struct ScriptedConnection<'a> {
    alloc: Global,
    events: &'a [Event],
    answers: &'a [bool],
    entries: Vec<Entry>,
    is_whole: bool,
}

impl<'a> ScriptedConnection<'a> {
    /// A line on which nothing was done. It takes no memory yet.
    pub fn new(alloc: Global, events: &'a [Event]) -> Self
        ensures log { log_of result.is_whole result.entries.items ≡ Some [] }
        ensures events { result.events ≡ events.entry }
        ensures answers { result.answers.now ≡ [] }
    {
        ScriptedConnection {
            alloc,
            events,
            answers: &[],
            entries: Vec::new(alloc),
            is_whole: true,
        }
    }

    /// The same line, whose store answers the next texts by these: whether it keeps them.
    pub fn with_answers(self, answers: &'a [bool]) -> Self
        ensures log { log_of result.is_whole result.entries.items
            ≡ log_of self.entry.is_whole self.entry.entries.items }
        ensures answers { result.answers ≡ answers.entry }
        ensures events { result.events ≡ self.entry.events }
    {
        ScriptedConnection { answers, ..self }
    }

    /// The log; none if memory for it ran out. It is what the loops' contracts speak of.
    pub fn log(&self) -> Option<&[Entry]>
        ensures entries { MatchOption result (log_of self.now.is_whole self.now.entries.items ≡ None)
            (λ log. log_of self.now.is_whole self.now.entries.items ≡ Some (map log_event_of log.now)) }
        ensures log { ⟦<ScriptedConnection<'static> as Connection>⟧.event_log self.now
            ≡ log_of self.now.is_whole self.now.entries.items }
    {
        if self.is_whole {
            Some(self.entries.as_slice())
        } else {
            None
        }
    }

    /// Adds an entry to the log. The log is lost only if its list has no room left, and memory for more runs out.
    fn add(&mut self, entry: Entry)
        ensures log { GoesOn (log_of self.old.is_whole self.old.entries.items)
            (log_of self.new.is_whole self.new.entries.items) (log_event_of entry ∷ []) }
        ensures room { self.old.is_whole ≡ true → vec_len self.old.entries < vec_capacity self.old.entries
            → self.new.is_whole ≡ true }
        ensures script { (self.new.events ≡ self.old.events) × (self.new.answers ≡ self.old.answers) }
    {
        if self.is_whole {
            self.is_whole = self.entries.push(entry).is_ok();
        }
    }
}

impl Connection for ScriptedConnection<'_> {
    ghost event_log = { λ line. log_of line.is_whole line.entries.items };

    fn send(&mut self, bytes: &[u8])
        ensures log { GoesOn (log_of self.old.is_whole self.old.entries.items)
            (log_of self.new.is_whole self.new.entries.items) (sent bytes.now ∷ []) }
        ensures script { (self.new.events ≡ self.old.events) × (self.new.answers ≡ self.old.answers) }
    {
        match Vec::from_slice(self.alloc, bytes) {
            Ok(bytes) => self.add(Entry::Sent(bytes)),
            Err(_) => self.is_whole = false,
        }
    }

    fn start_timer(&mut self, seconds: u32)
        ensures log { GoesOn (log_of self.old.is_whole self.old.entries.items)
            (log_of self.new.is_whole self.new.entries.items) (timed seconds ∷ []) }
        ensures room { self.old.is_whole ≡ true → vec_len self.old.entries < vec_capacity self.old.entries
            → self.new.is_whole ≡ true }
        ensures script { (self.new.events ≡ self.old.events) × (self.new.answers ≡ self.old.answers) }
    {
        self.add(Entry::Timed(seconds));
    }

    fn reconnect(&mut self)
        ensures log { GoesOn (log_of self.old.is_whole self.old.entries.items)
            (log_of self.new.is_whole self.new.entries.items) (reconnected ∷ []) }
        ensures room { self.old.is_whole ≡ true → vec_len self.old.entries < vec_capacity self.old.entries
            → self.new.is_whole ≡ true }
        ensures script { (self.new.events ≡ self.old.events) × (self.new.answers ≡ self.old.answers) }
    {
        self.add(Entry::Reconnected);
    }

    fn wait(&mut self) -> Event
        ensures log { GoesOn (log_of self.old.is_whole self.old.entries.items)
            (log_of self.new.is_whole self.new.entries.items) (waited result ∷ []) }
        ensures room { self.old.is_whole ≡ true → vec_len self.old.entries < vec_capacity self.old.entries
            → self.new.is_whole ≡ true }
        ensures event { result ≡ next_event self.old.events.now }
        ensures events { self.new.events.now ≡ drop 1 self.old.events.now }
        ensures answers { self.new.answers ≡ self.old.answers }
    {
        let event = match self.events.split_first() {
            Some((event, rest)) => {
                self.events = rest;
                *event
            }
            None => Event::Closed,
        };
        self.add(Entry::Waited(event));
        event
    }
}

impl Host for ScriptedConnection<'_> {
    fn keep(&mut self, text: &LinkText) -> bool
        ensures log { GoesOn (log_of self.old.is_whole self.old.entries.items)
            (log_of self.new.is_whole self.new.entries.items) (keeping text.now result ∷ []) }
        ensures answer { result ≡ next_answer self.old.answers.now }
        ensures answers { self.new.answers.now ≡ drop 1 self.old.answers.now }
        ensures events { self.new.events ≡ self.old.events }
    {
        let is_kept = match self.answers.split_first() {
            Some((answer, rest)) => {
                self.answers = rest;
                *answer
            }
            None => true,
        };
        let Ok(text) = Vec::from_slice(self.alloc, text.as_slice()) else {
            self.is_whole = false;
            return is_kept;
        };
        self.add(kept_entry(text, is_kept));
        is_kept
    }
}

/// The entry of a text that was to be kept.
fn kept_entry(text: Vec<u8>, is_kept: bool) -> Entry
    ensures { log_event_of result ≡ keeping text.items is_kept }
{
    if is_kept {
        Entry::Kept(text)
    } else {
        Entry::NotKept(text)
    }
}
