//! The bytes since the last STX, in fixed buffers: its text is in one piece, and a run of bytes is taken at once.

ghost use Rattle.std.specs.Prelude.{◌≡◌, ◌+◌, ◌≤◌, ◌<◌, [], ◌++◌, Some, IfOk, MatchResult, length, take, slice_index};
ghost use Rattle.lis_frame.specs.Frame.{IsContent};
ghost use Rattle.lis_frame.specs.Limit.{IsLimit};
ghost use Rattle.lis_frame.specs.Scanner.{within};
ghost use Rattle.lis_frame.specs.inside.Scanner.{with_bytes, ended_held};
ghost use Rattle.lis_frame.specs.declared.scanner.SignalOf.TheVariants.{Good, Bad};

use crate::borrowed::BorrowedFrame;
use crate::frame::FrameFault;
use crate::read::{FRAMING, Parts};
use std::marker::Model;
use std::simd::prelude::*;

/// The bytes since STX: how many, the number, and those after it, in two buffers of which `back` goes on where
/// `front` is full. What is there past the count was left after and is nothing. The count stops one past the
/// greatest length of a frame body.
#[derive(Drop)]
pub(crate) struct FrameBodyOf<const N: usize> {
    count: usize,
    number: u8,
    front: [u8; N],
    back: [u8; 4],
}

impl<const N: usize> Model for FrameBodyOf<N> {
    ghost use Rattle.std.specs.Prelude.{◌++◌};
    ghost use Rattle.lis_frame.specs.Scanner.{Held};
    ghost use Rattle.lis_frame.specs.inside.Kept.{kept_held, IsKept};

    ghost Value = { Held };

    ghost view = { λ s. kept_held N s.count s.number (s.front ++ s.back) };

    ghost invariant = { λ s. IsKept N s.count };
}

impl<const N: usize> FrameBodyOf<N> {
    /// No byte since STX.
    pub(crate) fn new() -> Self
        requires { IsLimit N }
        ensures { result ≡ within [] }
    {
        FrameBodyOf {
            count: 0,
            number: 0,
            front: [0; N],
            back: [0; 4],
        }
    }

    /// The same bytes once more.
    pub(crate) fn copy(&self) -> Self
        ensures { result ≡ self.now }
    {
        FrameBodyOf {
            count: self.count,
            number: self.number,
            front: self.front,
            back: self.back,
        }
    }

    /// Begins anew after an STX.
    pub(crate) fn begin(&mut self)
        ensures { self.new ≡ within [] }
    {
        self.count = 0;
    }

    /// Takes the first bytes of these, so many, none of which is a mark.
    #[inline(always)]
    pub(crate) fn extend(&mut self, bytes: &[u8], taken: usize)
        requires { taken ≤ length bytes.now }
        ensures { self.new ≡ with_bytes N self.old (take taken bytes.now) }
    {
        let count = self.count + taken;
        if count > N + FRAMING {
            self.count = N + FRAMING + 1;
            return;
        }
        if taken == 0 {
            return;
        }
        if self.count > 0 {
            put_bytes_at(
                &mut self.front,
                &mut self.back,
                self.count - 1,
                bytes,
                taken,
            );
            self.count = count;
            return;
        }
        let Some((number, following)) = bytes.split_first() else {
            return;
        };
        self.number = *number;
        put_bytes_at(&mut self.front, &mut self.back, 0, following, taken - 1);
        self.count = count;
    }

    /// The frame that an LF ends, its text borrowed, or the first fault.
    pub(crate) fn borrowed(&self) -> Result<BorrowedFrame<'_>, FrameFault>
        ensures reported { MatchResult result (λ frame. Some (Good frame) ≡ ended_held N self.now)
            (λ fault. Some (Bad fault) ≡ ended_held N self.now) }
        ensures content { IfOk result (IsContent N) }
    {
        if self.count > N + FRAMING {
            return Err(FrameFault::TooLong);
        }
        if self.count < FRAMING {
            return Err(FrameFault::Shape);
        }
        let place = self.count - FRAMING;
        let (text, _) = self.front.split_at(place);
        let parts = Parts {
            number: self.number,
            text,
            end: byte_at_place(&self.front, &self.back, place),
            high: byte_at_place(&self.front, &self.back, place + 1),
            low: byte_at_place(&self.front, &self.back, place + 2),
            close: byte_at_place(&self.front, &self.back, place + 3),
        };
        parts.borrowed::<N>()
    }
}

/// The byte at a place of two buffers that act as one.
fn byte_at_place(front: &[u8], back: &[u8], place: usize) -> u8
    requires { place < length front.now + length back.now }
    ensures { result ≡ slice_index (front.now ++ back.now) place }
{
    if place < front.len() {
        front[place]
    } else {
        back[place - front.len()]
    }
}

/// Puts the first bytes of these, so many, at a place of two buffers that act as one. What then is after them
/// is nothing.
#[inline(always)]
fn put_bytes_at(front: &mut [u8], back: &mut [u8], place: usize, bytes: &[u8], taken: usize)
    requires fits { place + taken ≤ length front.old + length back.old }
    requires there { taken ≤ length bytes.now }
    ensures { take (place + taken) (front.new ++ back.new)
        ≡ take place (front.old ++ back.old) ++ take taken bytes.now }
{
    let room = front.len();
    // Most runs are short: they go with what is after them, at once.
    if taken <= 16 && bytes.len() >= 16 && room >= 16 && place <= room - 16 {
        u8x16::from_slice(bytes).copy_to_slice(&mut front[place..]);
        return;
    }
    let (run, _) = bytes.split_at(taken);
    put_run(front, back, place, run);
}

/// The same of all of these bytes.
fn put_run(front: &mut [u8], back: &mut [u8], place: usize, run: &[u8])
    requires { place + length run.now ≤ length front.old + length back.old }
    ensures { take (place + length run.now) (front.new ++ back.new) ≡ take place (front.old ++ back.old) ++ run.now }
{
    let room = front.len();
    if place + run.len() <= room {
        put_at(front, place, run);
    } else if place < room {
        let (first, second) = run.split_at(room - place);
        put_at(front, place, first);
        put_at(back, 0, second);
    } else {
        put_at(back, place - room, run);
    }
}

/// Puts bytes at a place of a buffer.
fn put_at(buffer: &mut [u8], place: usize, bytes: &[u8])
    requires { place + length bytes.now ≤ length buffer.old }
    ensures bytes { take (place + length bytes.now) buffer.new ≡ take place buffer.old ++ bytes.now }
    ensures len { length buffer.new ≡ length buffer.old }
{
    buffer[place..place + bytes.len()].copy_from_slice(bytes);
}
