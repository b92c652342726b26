//! An analyzer's loop over a line on which frames are lost and replies come late: no session is done whose text the
//! computer didn't get.

ghost use Rattle.std.specs.Prelude.{◌<◌, None};

use lis_link::{Outcome, Receiver, Sender, Step};
use lis_text::Texts;
use std::alloc::Global;
use std::collections::VecDeque;
use std::mem::drop;
use std::process::Abort;
use uses::analyzer::send_texts;
use uses::connection::{Connection, Event};

/// A line in memory to a computer that is slow. A reply that comes after the timer stays on the line.
#[derive(Drop)]
struct SlowConnection {
    computer: Receiver,
    replies: VecDeque<u8>,
    /// The last text that the computer got; its one byte.
    last: Option<u8>,
    /// The state of the numbers by which frames are lost and replies are late.
    chance: u32,
    reconnects: u32,
}

impl SlowConnection {
    fn new(alloc: Global) -> Self {
        SlowConnection {
            computer: Receiver::new(alloc),
            replies: VecDeque::new(alloc),
            last: None,
            chance: 1,
            reconnects: 0,
        }
    }

    /// Whether one of so many chances came, by a congruential generator.
    fn happens(&mut self, one_of: u32) -> bool
        requires { 0 < one_of }
    {
        self.chance = self
            .chance
            .wrapping_mul(1_664_525)
            .wrapping_add(1_013_904_223);
        (self.chance >> 16) % one_of == 0
    }

    /// A byte reaches the computer, which replies.
    fn hear(&mut self, byte: u8) {
        let Step {
            reply,
            message,
            note: _,
        } = self.computer.byte(byte);
        if let Some(text) = &message {
            self.last = text.as_slice().first().copied();
        }
        drop(message);
        if let Some(reply) = reply {
            // Where memory runs out the reply is lost, as on a line.
            let _ = self.replies.push_back(reply);
        }
    }
}

impl Connection for SlowConnection {
    ghost event_log = { λ _. None };

    fn send(&mut self, bytes: &[u8]) {
        if bytes.len() > 1 && self.happens(8) {
            return;
        }
        for byte in bytes {
            self.hear(*byte);
        }
    }

    fn start_timer(&mut self, _seconds: u32) {}

    fn reconnect(&mut self) {
        self.replies.clear();
        self.computer.restart();
        self.reconnects = self.reconnects.saturating_add(1);
    }

    fn wait(&mut self) -> Event {
        if self.happens(6) {
            return Event::Timer;
        }
        match self.replies.pop_front() {
            Some(reply) => Event::Byte(reply),
            None => Event::Timer,
        }
    }
}

#[test]
fn no_session_is_done_whose_text_was_lost(rt: HostRuntime) {
    let mut line = SlowConnection::new(rt.alloc());
    let mut sender = Sender::new();
    let mut done = 0u32;
    for session in 0..1000u32 {
        let letter = b'A' + (session % 26) as u8;
        let texts = Texts::from_slices(rt.alloc(), &[[letter].as_slice()]).expect(&rt, "memory");
        let ended = send_texts(&mut line, &mut sender, texts);
        if ended == Ok(Some(Outcome::Done)) {
            assert!(rt; line.last == Some(letter));
            done = done.saturating_add(1);
        }
        drop(ended);
    }
    // Both happened: sessions that were done, and late replies.
    assert!(rt; done > 300 && line.reconnects > 100);
    drop(sender);
    drop(line);
}
