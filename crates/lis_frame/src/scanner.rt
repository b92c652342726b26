//! The scanner: bytes of the link in, signals out (LIS01-A2, 6.2 to 6.5).

ghost use Rattle.std.specs.Prelude.{◌≡◌, ◌+◌, ◌≤◌, ℕ, List, [], ◌∷◌, Some, IfNone, IfSome, length, nat_le, take};
ghost use Rattle.lis_frame.specs.Frame.{BeginsWith, FrameContent, IsFrame};
ghost use Rattle.lis_frame.specs.Limit.{IsLimit};
ghost use Rattle.lis_frame.specs.Stream.{is_mark, signal_after, signals_after, stream_with};
ghost use Rattle.lis_frame.specs.Scanner.{HoldsAtMost, IsHeardWithin, StandsFor, heard_signal, borrowed_signals};
ghost use Rattle.lis_frame.specs.Scanner.{quiet_length, unmarked_length};
ghost use Rattle.lis_frame.specs.inside.Scanner.{held_signal, held_after, with_bytes};

use crate::borrowed::BorrowedFrame;
use crate::frame::{FrameFault, FrameOf};
use crate::frame_body::FrameBodyOf;
use crate::read::front_frame;
use lis_text::{ByteSet, ENQ, EOT, LF, STX, are_over, first_in};
use std::marker::Model;
use std::simd::prelude::*;

/// What a stream of link bytes reports: enquiry, end of transmission, a good frame, or a bad one.
#[derive(Debug, PartialEq, Eq, Drop)]
pub enum SignalOf<const N: usize> {
    /// ENQ.
    Enq,
    /// EOT.
    Eot,
    /// A frame.
    Good(FrameOf<N>),
    /// Bytes between STX and LF that are no frame, and why.
    Bad(FrameFault),
}

/// A signal with the usual limit.
pub type Signal = SignalOf<240>;

impl<const N: usize> SignalOf<N> {
    /// The signal that is heard; a frame that is borrowed gets a text of its own. It is within the limit `N`, as
    /// each is that a scanner of this limit reports.
    pub fn from_heard(heard: &Heard<'_>) -> Self
        requires limit { IsLimit N }
        requires content { IsHeardWithin N heard.now }
        ensures { Some result ≡ heard_signal (Some heard.now) }
    {
        match heard {
            Heard::Enq => SignalOf::Enq,
            Heard::Eot => SignalOf::Eot,
            Heard::Good(frame) => SignalOf::Good(FrameOf::from_borrowed(frame)),
            Heard::Bad(fault) => SignalOf::Bad(*fault),
        }
    }
}

/// The same, with a frame's text borrowed from the bytes that were read, or from what the scanner holds.
#[derive(Debug, Drop)]
pub enum Heard<'a> {
    /// ENQ.
    Enq,
    /// EOT.
    Eot,
    /// A frame.
    Good(BorrowedFrame<'a>),
    /// Bytes between STX and LF that are no frame, and why.
    Bad(FrameFault),
}

/// The bytes that a scanner looks at wherever they are.
struct Marks;

impl ByteSet for Marks {
    ghost member = { is_mark };

    ghost near = { λ b. nat_le b 10 };

    fn has(byte: u8) -> bool {
        matches!(byte, STX | EOT | ENQ | LF)
    }

    #[inline(always)]
    fn bits(bytes: &[u8]) -> u64 {
        let sixteen = u8x16::from_slice(bytes);
        let starts = sixteen.simd_eq(u8x16::splat(STX)) | sixteen.simd_eq(u8x16::splat(LF));
        let ends = sixteen.simd_eq(u8x16::splat(EOT)) | sixteen.simd_eq(u8x16::splat(ENQ));
        (starts | ends).to_bitmask()
    }

    #[inline(always)]
    fn lacks(bytes: &[u8]) -> bool {
        // No byte over LF is a mark.
        are_over(bytes, LF)
    }
}

/// How many bytes are before the next mark.
fn until_mark(bytes: &[u8]) -> usize
    ensures length { result ≡ unmarked_length bytes.now }
    ensures bound { result ≤ length bytes.now }
{
    // Where there are no frames, many runs are short.
    if bytes.len() >= 16 {
        let bits = Marks::bits(bytes);
        if bits != 0 {
            return bits.trailing_zeros() as usize;
        }
    }
    match first_in::<Marks>(bytes) {
        Some(place) => place,
        None => bytes.len(),
    }
}

/// Reads a stream of link bytes, one byte or a run of them at a time. It holds at most `N + 5` bytes of a frame body,
/// as many as a frame has between STX and LF, and never looks back; it rejects nothing.
#[derive(Drop)]
pub struct ScannerOf<const N: usize> {
    is_open: bool,
    body: FrameBodyOf<N>,
}

impl<const N: usize> Model for ScannerOf<N> {
    ghost use Rattle.std.specs.Prelude.{◌+◌, if◌then◌else◌};
    ghost use Rattle.lis_frame.specs.Limit.{IsLimit};
    ghost use Rattle.lis_frame.specs.Scanner.{Held, HoldsAtMost, outside};

    ghost Value = { Held };

    ghost view = { λ s. if s.is_open then s.body else outside };

    ghost invariant = { λ s. IsLimit N × HoldsAtMost (N + 5) s.body };
}

/// A scanner with the usual limit.
pub type Scanner = ScannerOf<240>;

impl<const N: usize> ScannerOf<N> {
    /// A scanner that has read no byte. `N` is a limit on a frame's text, from 240 to 63,993 bytes.
    pub fn new() -> Self
        requires { IsLimit N }
        ensures { StandsFor N result [] }
    {
        ScannerOf {
            is_open: false,
            body: FrameBodyOf::new(),
        }
    }

    /// A scanner that represents the same streams.
    pub fn copy(&self) -> Self
        ensures { result ≡ self.now }
    {
        ScannerOf {
            is_open: self.is_open,
            body: self.body.copy(),
        }
    }

    /// Reads one byte and answers the signal that it gives, if it gives one: ENQ and EOT wherever
    /// they are, and LF by the frame body that it ends. STX begins a frame anew.
    ///
    /// Whatever stream the scanner represents, newest byte first, the signal is that of the
    /// definition, and afterwards the scanner represents the longer stream.
    pub fn push(&mut self, byte: u8) -> Option<SignalOf<N>>
        ensures signal { (past : List ℕ) → StandsFor N self.old past → result ≡ signal_after N past byte }
        ensures after { (past : List ℕ) → StandsFor N self.old past → StandsFor N self.new (byte ∷ past) }
        ensures kept { HoldsAtMost (N + 5) self.new }
    {
        let signal = match self.peek(byte) {
            None => None,
            Some(heard) => Some(SignalOf::from_heard(&heard)),
        };
        self.take(byte);
        signal
    }

    /// The signal that this byte gives where it comes next, if it gives one; a frame is borrowed from what the
    /// scanner holds. With `take` after it this is `push`, and no text is copied.
    #[inline(always)]
    pub fn peek(&self, byte: u8) -> Option<Heard<'_>>
        ensures signal { (past : List ℕ) → StandsFor N self.now past → heard_signal result ≡ signal_after N past byte }
        ensures limit { IsLimit N }
        ensures content { IfSome result (IsHeardWithin N) }
    {
        self.peek_held(byte)
    }

    /// Reads one byte, and leaves its signal untold.
    #[inline(always)]
    pub fn take(&mut self, byte: u8)
        ensures after { (past : List ℕ) → StandsFor N self.old past → StandsFor N self.new (byte ∷ past) }
        ensures kept { HoldsAtMost (N + 5) self.new }
    {
        self.hold(byte);
    }

    /// Reads bytes from the front: a whole good frame, which is borrowed, or else all bytes up to the next STX, EOT,
    /// ENQ or LF, with an STX that is first. Answers how many were read; where none was, the first byte is
    /// to be read by itself, by `reported` and `take`.
    ///
    /// Whatever stream the scanner represents, newest byte first, the bytes that were read give the
    /// frame that is borrowed and no other signal, and afterwards the scanner represents the stream with them.
    #[inline(always)]
    pub fn scan<'a>(&mut self, bytes: &'a [u8]) -> (usize, Option<BorrowedFrame<'a>>)
        ensures bound { result.0 ≤ length bytes.now }
        ensures frame { IfSome result.1 (λ frame. IsFrame N (take result.0 bytes.now) frame) }
        ensures whole { (frame : FrameContent) → BeginsWith N bytes.now frame → result.1 ≡ Some frame }
        ensures run { IfNone result.1 (result.0 ≡ quiet_length bytes.now) }
        ensures signal { (past : List ℕ) → StandsFor N self.old past →
            signals_after N past (take result.0 bytes.now) ≡ borrowed_signals result.1 }
        ensures after { (past : List ℕ) → StandsFor N self.old past →
            StandsFor N self.new (stream_with past (take result.0 bytes.now)) }
        ensures kept { HoldsAtMost (N + 5) self.new }
    {
        // proof: what is held stays bounded where no byte is read too.
        let _is_open = self.is_open;
        let Some((byte, following)) = bytes.split_first() else {
            return (0, None);
        };
        if *byte != STX {
            // Most often it is a mark, which is read by itself.
            if Marks::has(*byte) {
                return (0, None);
            }
            return (self.run_on(bytes), None);
        }
        if let Some((frame, count)) = front_frame::<N>(following) {
            self.is_open = false;
            return (count + 1, Some(frame));
        }
        self.hold(STX);
        (self.run_on(following) + 1, None)
    }

    /// Reads bytes up to the next mark, and answers how many they are.
    // Within the loops of its callers the search for the mark would be laid out less well.
    #[inline(never)]
    fn run_on(&mut self, bytes: &[u8]) -> usize
        ensures count { result ≡ unmarked_length bytes.now }
        ensures held { self.new ≡ with_bytes N self.old (take (unmarked_length bytes.now) bytes.now) }
        ensures kept { HoldsAtMost (N + 5) self.new }
    {
        let count = until_mark(bytes);
        if self.is_open {
            self.body.extend(bytes, count);
        }
        count
    }

    /// The signal of a byte, by what is held.
    fn peek_held(&self, byte: u8) -> Option<Heard<'_>>
        ensures signal { heard_signal result ≡ held_signal N self.now byte }
        ensures limit { IsLimit N }
        ensures content { IfSome result (IsHeardWithin N) }
    {
        match byte {
            ENQ => Some(Heard::Enq),
            EOT => Some(Heard::Eot),
            LF if self.is_open => match self.body.borrowed() {
                Ok(frame) => Some(Heard::Good(frame)),
                Err(fault) => Some(Heard::Bad(fault)),
            },
            _ => None,
        }
    }

    /// Holds what is to be held after a byte.
    fn hold(&mut self, byte: u8)
        ensures { self.new ≡ held_after N self.old byte }
    {
        match byte {
            STX => {
                self.body.begin();
                self.is_open = true;
            }
            ENQ | EOT | LF => self.is_open = false,
            _ => {
                self.run_on(&[byte]);
            }
        }
    }
}
