//! Writing lines.

ghost use Rattle.std.specs.Prelude.{◌≡◌, ◌+◌, ◌≤◌, ◌++◌, codes, length};
ghost use Rattle.lis_capture.specs.Encoding.{line_encoding, line_text, readiness_text};
ghost use Rattle.hex.specs.Hex.{encode_lower};

use crate::line::{Line, LineBytes};
use lis_engine::{OUTPUT_ROOM, Output};
use lis_port::Sink;
use lis_text::Readiness;

/// The most bytes of a written line: a mark, a space, two digits for each byte, and LF.
pub const LONGEST_ENCODING: usize = 4097;

impl Line<'_> {
    /// Puts the line: in version 2, with digits in lower case, without CR, and LF after it. There must be room for
    /// [`LONGEST_ENCODING`] bytes.
    #[inline(always)]
    pub fn append_to<W: Sink>(&self, out: &mut Output<'_, W>)
        requires { length out.old.waits + LONGEST_ENCODING ≤ OUTPUT_ROOM }
        ensures { out.new ≡ record out.old { waits = out.old.waits ++ line_encoding self.now } }
    {
        match self {
            Line::Empty => out.append(b"\n"),
            Line::FromAnalyzer(bytes) => bytes.append_marked(b"> ", out),
            Line::FromComputer(bytes) => bytes.append_marked(b"< ", out),
            Line::Timer => out.append(b"T\n"),
            Line::Restart => out.append(b"R\n"),
            Line::SetReady(Readiness::Ready) => out.append(b"S ready\n"),
            Line::SetReady(Readiness::Busy) => out.append(b"S busy\n"),
            Line::SetReady(Readiness::Contending) => out.append(b"S contending\n"),
            Line::Version => out.append(b"capture 2\n"),
        }
    }
}

impl LineBytes<'_> {
    /// Puts a mark of two bytes, the digits of the bytes, and LF.
    #[inline(always)]
    fn append_marked<W: Sink>(&self, mark: &[u8], out: &mut Output<'_, W>)
        requires room { length out.old.waits + LONGEST_ENCODING ≤ OUTPUT_ROOM }
        requires mark { length mark.now ≤ 2 }
        ensures { out.new ≡ record out.old {
          waits = out.old.waits ++ (mark.now ++ encode_lower self.now) ++ codes "\n";
        } }
    {
        out.append(mark);
        self.append_to(out);
        out.append(b"\n");
    }
}
