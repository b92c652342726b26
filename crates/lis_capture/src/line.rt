//! What a line of a capture says.

ghost use Rattle.std.specs.Prelude.{◌≡◌, ◌+◌, ◌*◌, ◌≤◌, ◌++◌, [], None, Some, if◌then◌else◌, true, length, is_some};
ghost use Rattle.std.specs.Prelude.{false, unwrap_or};
ghost use Rattle.std.specs.Option.{option_map};
ghost use Rattle.lis_capture.specs.declared.line.Line.TheVariants.{Empty};
ghost use Rattle.lis_capture.specs.Digits.{bytes_of};
ghost use Rattle.lis_capture.specs.Line.{added_line, line_of, plain_line, reports_bytes, said, version_after};
ghost use Rattle.lis_capture.specs.Line.{without_return};
ghost use Rattle.hex.specs.Hex.{encode_lower};
ghost use Rattle.lis_capture.specs.Kept.{KeptAs, kept_bytes};
ghost use Rattle.lis_capture.specs.inside.Kept.{kept_room};
ghost use Rattle.lis_capture.specs.LastLine.{line_with};
ghost use Rattle.lis_capture.specs.Encoding.{line_encoding};
ghost use Rattle.lis_capture.specs.inside.Reader.{IsCopied};

use crate::digits::{decode, lower};
use crate::encoding::LONGEST_ENCODING;
use lis_engine::{OUTPUT_ROOM, Output};
use lis_port::Sink;
use lis_text::{CR, Readiness};
use std::marker::Model;

/// The most bytes of a line before its LF.
pub const LONGEST_LINE: usize = 4096;

/// The most bytes that a line reports: a mark and a space are before their digits.
pub const MOST_BYTES: usize = 2047;

/// The most digits of a line: two for each byte.
const MOST_DIGITS: usize = 4094;

/// The version of a capture, as far as its lines say it: the first line does.
#[derive(Debug, Clone, Copy, PartialEq, Eq)]
pub enum CaptureVersion {
    /// No line was read.
    Unsaid,
    /// Version 1.
    First,
    /// Version 2: the first line is `capture 2`.
    Second,
}

/// What a line says.
#[derive(Drop)]
pub enum Line<'a> {
    /// Nothing.
    Empty,
    /// The analyzer sent these bytes.
    FromAnalyzer(LineBytes<'a>),
    /// The computer sent these bytes.
    FromComputer(LineBytes<'a>),
    /// The receiver's timer runs out.
    Timer,
    /// The receiver is restarted.
    Restart,
    /// How the receiver answers ENQ from now on.
    SetReady(Readiness),
    /// The capture is of version 2.
    Version,
}

/// How the bytes of a line are kept.
#[derive(Debug, Clone, Copy, PartialEq, Eq)]
pub(crate) enum Keeping {
    /// As themselves.
    Bytes,
    /// As their digits in lower case.
    Digits,
}

/// The bytes of a line, borrowed from where they are kept: as themselves, or as their digits.
#[derive(Drop)]
pub struct LineBytes<'a> {
    keeping: Keeping,
    kept: &'a [u8],
}

impl<'a> Model for LineBytes<'a> {
    ghost use Rattle.std.specs.Prelude.{ℕ, List};
    ghost use Rattle.lis_capture.specs.Kept.{KeptAs, kept_bytes};

    ghost Value = { List ℕ };

    ghost view = { λ b. kept_bytes b.keeping b.kept.now };

    ghost invariant = { λ b. KeptAs b.keeping b.kept.now };
}

impl<'a> LineBytes<'a> {
    /// The bytes; no line reports more than [`MOST_BYTES`]. Where their digits are kept, they are read into the room.
    pub fn read(&self, room: &'a mut [u8; MOST_BYTES]) -> &'a [u8]
        ensures value { result.now ≡ self.now }
        ensures short { length result.now ≤ MOST_BYTES }
    {
        match self.keeping {
            Keeping::Bytes => self.kept,
            Keeping::Digits => {
                let (bytes, _) = room.split_at_mut(self.kept.len() / 2);
                // What is kept as digits is pairs of them, so all are read.
                let _read = decode(self.kept, bytes);
                bytes
            }
        }
    }

    /// Puts the digits of the bytes in lower case. There must be room for those of [`MOST_BYTES`].
    #[inline(always)]
    pub(crate) fn append_to<W: Sink>(&self, out: &mut Output<'_, W>)
        requires { length out.old.waits + MOST_DIGITS ≤ OUTPUT_ROOM }
        ensures value { out.new ≡ record out.old { waits = out.old.waits ++ encode_lower self.now } }
        ensures short { length out.new.waits ≤ length out.old.waits + MOST_DIGITS }
    {
        match self.keeping {
            Keeping::Bytes => out.append_digits(self.kept),
            Keeping::Digits => out.append(self.kept),
        }
    }
}

/// What a line says, without its bytes.
#[derive(Clone, Copy)]
enum LineKind {
    Empty,
    FromAnalyzer,
    FromComputer,
    Timer,
    Restart,
    SetReady(Readiness),
    Version,
}

/// The line that was read last. Its bytes, or their digits, are in one of two fixed buffers; those of the next line
/// go to the other, so that a line that is rejected half way leaves the line before it as it was.
#[derive(Drop)]
pub(crate) struct LastLine {
    keeping: Keeping,
    kind: LineKind,
    front: [u8; MOST_DIGITS],
    back: [u8; MOST_DIGITS],
    in_back: bool,
    len: usize,
}

impl Model for LastLine {
    ghost use Rattle.std.specs.Prelude.{◌≡◌, ◌≤◌, if◌then◌else◌, length, take};
    ghost use Rattle.lis_capture.specs.declared.line.Line.{Line};
    ghost use Rattle.lis_capture.specs.Kept.{KeptAs, kept_bytes};
    ghost use Rattle.lis_capture.specs.LastLine.{line_with};

    ghost Value = { Line };

    ghost view = { λ t. line_with t.kind (kept_bytes t.keeping (take t.len (if t.in_back then t.back else t.front))) };

    ghost invariant = { λ t. (t.len ≤ 4094) × (length t.front ≡ 4094) × (length t.back ≡ 4094)
        × KeptAs t.keeping (take t.len (if t.in_back then t.back else t.front)) };
}

impl LastLine {
    /// An empty line.
    pub(crate) fn new(keeping: Keeping) -> Self
        ensures { result ≡ Empty }
    {
        LastLine {
            keeping,
            kind: LineKind::Empty,
            front: [0; MOST_DIGITS],
            back: [0; MOST_DIGITS],
            in_back: false,
            len: 0,
        }
    }

    /// The line.
    #[inline(always)]
    pub(crate) fn line(&self) -> Line<'_>
        ensures { result ≡ self.now }
    {
        let buffer = if self.in_back {
            &self.back
        } else {
            &self.front
        };
        let (kept, _) = buffer.split_at(self.len);
        let keeping = self.keeping;
        match self.kind {
            LineKind::Empty => Line::Empty,
            LineKind::FromAnalyzer => Line::FromAnalyzer(LineBytes { keeping, kept }),
            LineKind::FromComputer => Line::FromComputer(LineBytes { keeping, kept }),
            LineKind::Timer => Line::Timer,
            LineKind::Restart => Line::Restart,
            LineKind::SetReady(readiness) => Line::SetReady(readiness),
            LineKind::Version => Line::Version,
        }
    }

    /// Whether a text is a line, by the version that the lines before it report. The line that it says is
    /// reported from then on; where it says none, the line before it is.
    #[inline(always)]
    pub(crate) fn read(&mut self, version: CaptureVersion, text: &[u8]) -> bool
        ensures said { result ≡ is_some (line_of version text.now) }
        ensures line { self.new ≡ unwrap_or (line_of version text.now) self.old }
    {
        if text.len() > LONGEST_LINE {
            return false;
        }
        self.read_short(version, without_return(text))
    }

    /// The same of a text that isn't too long, without the CR at its end.
    #[inline(always)]
    fn read_short(&mut self, version: CaptureVersion, text: &[u8]) -> bool
        requires { length text.now ≤ LONGEST_LINE }
        ensures said { result ≡ is_some (said version text.now) }
        ensures line { self.new ≡ unwrap_or (said version text.now) self.old }
    {
        match version {
            CaptureVersion::Unsaid => {
                if text == b"capture 2".as_slice() {
                    return self.keep_kind(LineKind::Version);
                }
                self.read_plain(text)
            }
            CaptureVersion::First => self.read_plain(text),
            CaptureVersion::Second => {
                if self.read_plain(text) {
                    return true;
                }
                self.read_added(text)
            }
        }
    }

    /// The same of a line of both versions.
    #[inline(always)]
    fn read_plain(&mut self, text: &[u8]) -> bool
        requires { length text.now ≤ LONGEST_LINE }
        ensures said { result ≡ is_some (plain_line text.now) }
        ensures line { self.new ≡ unwrap_or (plain_line text.now) self.old }
    {
        match text {
            [] => self.keep_kind(LineKind::Empty),
            [b'T'] => self.keep_kind(LineKind::Timer),
            [b'>', b' ', digits @ ..] => self.read_digits(LineKind::FromAnalyzer, digits),
            [b'<', b' ', digits @ ..] => self.read_digits(LineKind::FromComputer, digits),
            _ => false,
        }
    }

    /// The same of a further line of version 2.
    fn read_added(&mut self, text: &[u8]) -> bool
        ensures said { result ≡ is_some (added_line text.now) }
        ensures line { self.new ≡ unwrap_or (added_line text.now) self.old }
    {
        if text == b"R".as_slice() {
            return self.keep_kind(LineKind::Restart);
        }
        if text == b"S ready".as_slice() {
            return self.keep_kind(LineKind::SetReady(Readiness::Ready));
        }
        if text == b"S busy".as_slice() {
            return self.keep_kind(LineKind::SetReady(Readiness::Busy));
        }
        if text == b"S contending".as_slice() {
            return self.keep_kind(LineKind::SetReady(Readiness::Contending));
        }
        false
    }

    /// The same of the digits of a line of this kind.
    #[inline(always)]
    fn read_digits(&mut self, kind: LineKind, digits: &[u8]) -> bool
        requires { length digits.now ≤ 4094 }
        ensures said { result ≡ is_some (bytes_of digits.now) }
        ensures line { self.new ≡ unwrap_or (option_map (line_with kind) (bytes_of digits.now)) self.old }
    {
        if digits.len() % 2 == 1 {
            return false;
        }
        let len = match self.keeping {
            Keeping::Bytes => digits.len() / 2,
            Keeping::Digits => digits.len(),
        };
        let reported = if self.in_back {
            keep(self.keeping, digits, &mut self.front[..len])
        } else {
            keep(self.keeping, digits, &mut self.back[..len])
        };
        if reported {
            self.in_back = !self.in_back;
            self.len = len;
            self.kind = kind;
        }
        reported
    }

    /// Reads a text that is a mark and pairs of digits, as most are, and puts it in lower case,
    /// with LF after it; answers whether it is one. Of another text nothing is read.
    #[inline(always)]
    pub(crate) fn copy<W: Sink>(&mut self, text: &[u8], out: &mut Output<'_, W>) -> bool
        requires { length out.old.waits + LONGEST_ENCODING ≤ OUTPUT_ROOM }
        ensures copied { result ≡ true → IsCopied text.now self.new out.old out.new }
        ensures unread { result ≡ false → (self.new ≡ self.old) × (out.new ≡ out.old) }
        ensures other { result ≡ false → length text.now ≤ LONGEST_LINE →
            reports_bytes (plain_line (without_return text.now)) ≡ false }
    {
        match without_return(text) {
            _ if text.len() > LONGEST_LINE => false,
            [b'>', b' ', digits @ ..] => { self.copy_digits(LineKind::FromAnalyzer, digits, out) }
            [b'<', b' ', digits @ ..] => { self.copy_digits(LineKind::FromComputer, digits, out) }
            _ => false,
        }
    }

    /// The same of the digits of a line of this kind.
    #[inline(always)]
    fn copy_digits<W: Sink>(
        &mut self,
        kind: LineKind,
        digits: &[u8],
        out: &mut Output<'_, W>,
    ) -> bool
        requires short { length digits.now ≤ 4094 }
        requires room { length out.old.waits + LONGEST_ENCODING ≤ OUTPUT_ROOM }
        ensures read { result ≡ is_some (bytes_of digits.now) }
        ensures line { self.new ≡ unwrap_or (option_map (line_with kind) (bytes_of digits.now)) self.old }
        ensures written { out.new ≡ record out.old {
          waits = out.old.waits ++ (if result then line_encoding self.new else []);
        } }
    {
        if !self.read_digits(kind, digits) {
            return false;
        }
        self.line().append_to(out);
        true
    }

    /// Reports a line that has no bytes.
    #[inline(always)]
    fn keep_kind(&mut self, kind: LineKind) -> bool
        ensures said { result ≡ true }
        ensures line { self.new ≡ line_with kind [] }
    {
        self.len = 0;
        self.kind = kind;
        true
    }
}

/// Writes what is kept of pairs of digits, into the room that it takes. Answers whether the text is one or more such
/// pairs; what is in the room is nothing where it isn't.
#[inline(always)]
fn keep(keeping: Keeping, digits: &[u8], room: &mut [u8]) -> bool
    requires short { length digits.now ≤ MOST_DIGITS }
    requires room { length digits.now ≡ kept_room keeping * length room.old }
    ensures bytes { bytes_of digits.now ≡ (if result then Some (kept_bytes keeping room.new) else None) }
    ensures kept { result ≡ true → KeptAs keeping room.new }
{
    match keeping {
        Keeping::Bytes => decode(digits, room),
        Keeping::Digits => lower(digits, room),
    }
}

/// A text without the CR at its end.
#[inline(always)]
fn without_return(text: &[u8]) -> &[u8]
    ensures { result.now ≡ without_return text.now }
{
    match text.split_last() {
        Some((last, front)) if *last == CR => front,
        _ => text,
    }
}

/// The version after a line.
#[inline(always)]
pub(crate) fn version_after(version: CaptureVersion, line: &Line) -> CaptureVersion
    ensures { result ≡ version_after version line.now }
{
    match version {
        CaptureVersion::Unsaid => match line {
            Line::Version => CaptureVersion::Second,
            _ => CaptureVersion::First,
        },
        CaptureVersion::First => CaptureVersion::First,
        CaptureVersion::Second => CaptureVersion::Second,
    }
}
