//! Reading a capture from slices of its bytes, line by line.

ghost use Rattle.std.specs.Prelude.{◌≡◌, ◌+◌, ◌<◌, ◌≤◌, ◌++◌, [], IsTrue, IfNone, IfSome, None, List, false, true};
ghost use Rattle.std.specs.Prelude.{length, take, ℕ};
ghost use Rattle.memchr.specs.Find.{IsFirstByte, is_byte};
ghost use Rattle.lis_frame.specs.Stream.{stream_with};
ghost use Rattle.lis_capture.specs.Capture.{Lines, capture};
ghost use Rattle.lis_capture.specs.Line.{line_of, reports_bytes};
ghost use Rattle.lis_capture.specs.Encoding.{added_encoding};
ghost use Rattle.lis_capture.specs.Reader.{CopiesLine, EndsOther, HasRead, ReadsLine, found_lines, known_of};
ghost use Rattle.lis_capture.specs.inside.Reader.{found_holding, found_of, holding_more, known_with};

use crate::encoding::LONGEST_ENCODING;
use crate::line::{CaptureVersion, Keeping, LONGEST_LINE, LastLine, Line, version_after};
use arrayvec::ArrayVec;
use lis_bytes::bits_of;
use lis_engine::{OUTPUT_ROOM, Output};
use lis_port::Sink;
use lis_text::LF;
use memchr::memchr;
use std::marker::Model;

/// What reading on found.
#[derive(Debug, Clone, Copy, PartialEq, Eq)]
pub enum LineFound {
    /// No line.
    Nothing,
    /// A line that says something.
    Line,
    /// A line that says nothing that a capture may say.
    Refused,
}

/// What is known of the lines so far.
#[derive(Drop)]
struct Progress {
    version: CaptureVersion,
    refused: bool,
    number: u64,
    last_line: LastLine,
}

impl Model for Progress {
    ghost use Rattle.lis_capture.specs.Reader.{Known};

    ghost Value = { Known };

    ghost view = { λ p. record { version = p.version; refused = p.refused; number = p.number; line = p.last_line } };
}

/// Reads a capture. It keeps the bytes of a line that isn't ended yet, of at most [`LONGEST_LINE`], and
/// what the line before it says, in fixed buffers; it takes no memory.
#[derive(Drop)]
pub struct LineReader {
    progress: Progress,
    held: ArrayVec<u8, LONGEST_LINE>,
}

impl Model for LineReader {
    ghost use Rattle.lis_capture.specs.Reader.{Reading};

    ghost Value = { Reading };

    ghost view = { λ r. record { known = r.progress; held = r.held.items } };
}

impl LineReader {
    /// A reader that has read no byte.
    pub fn new() -> Self
        ensures { HasRead result [] }
    {
        Self::keeping(Keeping::Bytes)
    }

    /// The same, for lines that are written on: it keeps of a line's bytes their digits in lower case.
    pub fn keeping_digits() -> Self
        ensures { HasRead result [] }
    {
        Self::keeping(Keeping::Digits)
    }

    /// A reader that has read no byte and keeps bytes so.
    fn keeping(keeping: Keeping) -> Self
        ensures { HasRead result [] }
    {
        LineReader {
            progress: Progress {
                version: CaptureVersion::Unsaid,
                refused: false,
                number: 0,
                last_line: LastLine::new(keeping),
            },
            held: ArrayVec::new(),
        }
    }

    /// Reads on to the end of a line, or to the end of the bytes where no line ends in them, and answers
    /// how many bytes it read. A line of more than [`LONGEST_LINE`] bytes is rejected at the first byte
    /// that is too many. After a rejected line it reads nothing and rejects again.
    ///
    /// Whatever bytes it had read, newest first, the capture's lines are now those before and what was
    /// found: so no split of the bytes into slices changes them.
    #[inline(always)]
    pub fn read(&mut self, bytes: &[u8]) -> (usize, LineFound)
        ensures within { result.0 ≤ length bytes.now }
        ensures all { result.1 ≡ LineFound.Nothing → result.0 ≡ length bytes.now }
        ensures some { result.1 ≡ LineFound.Line → 0 < result.0 }
        ensures refused { IsTrue self.old.known.refused → (result.0 ≡ 0) × (result.1 ≡ LineFound.Refused) }
        ensures line { self.old.known.refused ≡ false → ReadsLine bytes.now result.0 }
        ensures found { (past : List ℕ) → HasRead self.old past →
            capture (stream_with past (take result.0 bytes.now)) false
            ≡ found_lines (capture past false) result.1 self.new.known.line }
        ensures after { (past : List ℕ) → HasRead self.old past →
            HasRead self.new (stream_with past (take result.0 bytes.now)) }
    {
        if self.progress.refused {
            return (0, LineFound::Refused);
        }
        match first_line_feed(bytes) {
            Some(place) => {
                let (text, _) = bytes.split_at(place);
                (place + 1, self.end_line(text))
            }
            None => (bytes.len(), self.hold(bytes)),
        }
    }

    /// Reads the next line, and puts it as [`Line::append_to`] does, where it is whole in these bytes and reports
    /// bytes, as most do; answers how many bytes it read. Else it reads nothing. There must be room for
    /// [`LONGEST_ENCODING`] bytes.
    #[inline(always)]
    pub fn copy<W: Sink>(&mut self, bytes: &[u8], out: &mut Output<'_, W>) -> Option<usize>
        requires { length out.old.waits + LONGEST_ENCODING ≤ OUTPUT_ROOM }
        ensures some { IfSome result (λ count. CopiesLine self.old self.new bytes.now count) }
        ensures written { IfSome result (λ count. out.new ≡ record out.old {
          waits = out.old.waits ++ added_encoding self.new.known.line;
        }) }
        ensures none { IfNone result ((self.new ≡ self.old) × (out.new ≡ out.old)) }
        ensures other { IfNone result (self.old.known.refused ≡ false → self.old.held ≡ [] →
            EndsOther self.old.known.version bytes.now) }
    {
        if self.progress.refused || !self.held.is_empty() {
            return None;
        }
        let place = first_line_feed(bytes)?;
        let (text, _) = bytes.split_at(place);
        if !self.progress.copy(text, out) {
            return None;
        }
        Some(place + 1)
    }

    /// Reads the end of the input, which ends a line that has a byte. After a rejected line it rejects
    /// again.
    pub fn finish(&mut self) -> LineFound
        ensures refused { IsTrue self.old.known.refused → result ≡ LineFound.Refused }
        ensures found { (past : List ℕ) → HasRead self.old past →
            capture past true ≡ found_lines (capture past false) result self.new.known.line }
        ensures known { (past : List ℕ) → HasRead self.old past → self.new.known ≡ known_of (capture past true) }
        ensures held { self.old.known.refused ≡ false → self.new.held ≡ [] }
    {
        if self.progress.refused {
            return LineFound::Refused;
        }
        if self.held.is_empty() {
            return LineFound::Nothing;
        }
        self.end_line(&[])
    }

    /// What the last line says that wasn't rejected; before the first such line, nothing.
    pub fn line(&self) -> Line<'_>
        ensures { result ≡ self.now.known.line }
    {
        self.progress.last_line.line()
    }

    /// The number of the last line, from 1, also of a rejected one; 0 before the first. At its greatest
    /// value it stays there.
    pub fn number(&self) -> u64
        ensures { result ≡ self.now.known.number }
    {
        self.progress.number
    }

    /// The version, as far as it is reported.
    pub fn version(&self) -> CaptureVersion
        ensures { result ≡ self.now.known.version }
    {
        self.progress.version
    }

    /// Takes the last bytes of a line.
    #[inline(always)]
    fn end_line(&mut self, text: &[u8]) -> LineFound
        ensures known { self.new.known
            ≡ known_with self.old.known (line_of self.old.known.version (self.old.held ++ text.now)) }
        ensures held { self.new.held ≡ [] }
        ensures found { result ≡ found_of (line_of self.old.known.version (self.old.held ++ text.now)) }
    {
        if self.held.is_empty() {
            return self.progress.take(text);
        }
        let found = match self.held.try_extend_from_slice(text) {
            Ok(()) => self.progress.take(self.held.as_slice()),
            Err(_) => self.progress.refuse(),
        };
        self.held.clear();
        found
    }

    /// Keeps bytes of a line that doesn't end in them.
    fn hold(&mut self, text: &[u8]) -> LineFound
        ensures after { self.new ≡ holding_more self.old text.now }
        ensures found { result ≡ found_holding (self.old.held ++ text.now) }
    {
        match self.held.try_extend_from_slice(text) {
            Ok(()) => LineFound::Nothing,
            Err(_) => self.progress.refuse(),
        }
    }
}

/// The place of the first LF. Many lines end among sixteen bytes, which are looked at here, without a call.
#[inline(always)]
fn first_line_feed(bytes: &[u8]) -> Option<usize>
    ensures { IsFirstByte (is_byte 10) bytes.now result }
{
    if bytes.len() >= 16 {
        let ends = bits_of(bytes, LF);
        if ends != 0 {
            return Some(ends.trailing_zeros() as usize);
        }
    }
    memchr(LF, bytes)
}

impl Progress {
    /// Takes a line that is a mark and pairs of digits, and puts it; answers whether it is one.
    /// Of another line nothing is taken.
    #[inline(always)]
    fn copy<W: Sink>(&mut self, text: &[u8], out: &mut Output<'_, W>) -> bool
        requires { length out.old.waits + LONGEST_ENCODING ≤ OUTPUT_ROOM }
        ensures after { result ≡ true → self.new ≡ known_with self.old (line_of self.old.version text.now) }
        ensures found { result ≡ true → LineFound.Line ≡ found_of (line_of self.old.version text.now) }
        ensures written { result ≡ true → out.new ≡ record out.old {
          waits = out.old.waits ++ added_encoding self.new.line;
        } }
        ensures none { result ≡ false → (self.new ≡ self.old) × (out.new ≡ out.old) }
        ensures other { result ≡ false → reports_bytes (line_of self.old.version text.now) ≡ false }
    {
        if !self.last_line.copy(text, out) {
            return false;
        }
        if let CaptureVersion::Unsaid = self.version {
            self.version = CaptureVersion::First;
        }
        self.number = self.number.saturating_add(1);
        true
    }

    /// Takes a line.
    #[inline(always)]
    fn take(&mut self, text: &[u8]) -> LineFound
        ensures after { self.new ≡ known_with self.old (line_of self.old.version text.now) }
        ensures found { result ≡ found_of (line_of self.old.version text.now) }
    {
        if !self.last_line.read(self.version, text) {
            return self.refuse();
        }
        self.version = version_after(self.version, &self.last_line.line());
        self.number = self.number.saturating_add(1);
        LineFound::Line
    }

    /// Rejects a line.
    #[inline(always)]
    fn refuse(&mut self) -> LineFound
        ensures after { self.new ≡ known_with self.old None }
        ensures found { result ≡ found_of None }
    {
        self.refused = true;
        self.number = self.number.saturating_add(1);
        LineFound::Refused
    }
}
