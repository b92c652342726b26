//! What has a text, and how it is put.

ghost use Rattle.std.specs.Prelude.{◌++◌, ◌∷◌, [], ℕ, List, codes, decimal};
ghost use Rattle.lis_engine.specs.Output.{IsPut, IsWorking};
ghost use Rattle.lis_engine.specs.Parts.{joined, part_text, parts_text, text_if_any};

use crate::fault::ToolFault;
use crate::output::Output;
use lis_port::Sink;

/// What has a text.
pub trait Print {
    // Its text.
    ghost text: { Self → List ℕ };

    /// Puts the text.
    fn print<W: Sink>(&self, out: &mut Output<'_, W>) -> Result<(), ToolFault>
        requires { IsWorking out.old }
        ensures { IsPut out.old out.new result (text self.now) };
}

/// Where there is nothing, nothing is put.
impl<T: Print> Print for Option<T> {
    ghost text = { text_if_any T.text };

    #[inline(always)]
    fn print<W: Sink>(&self, out: &mut Output<'_, W>) -> Result<(), ToolFault> {
        match self {
            None => Ok(()),
            Some(it) => it.print(out),
        }
    }
}

/// What is borrowed.
impl<T: Print> Print for &T {
    ghost text = { λ it. T.text it.now };

    #[inline(always)]
    fn print<W: Sink>(&self, out: &mut Output<'_, W>) -> Result<(), ToolFault> {
        T::print(self, out)
    }
}

/// The second after the first.
impl<A: Print, B: Print> Print for (A, B) {
    ghost text = { λ both. A.text both.0 ++ B.text both.1 };

    #[inline(always)]
    #[tactic(auto, using(crate::proofs::OutputLaws::put_on))]
    fn print<W: Sink>(&self, out: &mut Output<'_, W>) -> Result<(), ToolFault> {
        let (first, second) = self;
        first.print(out)?;
        second.print(out)
    }
}

/// A part of a line.
#[derive(Clone, Copy)]
pub enum Part<'a> {
    /// The bytes themselves.
    Text(&'a [u8]),
    /// A number in decimal digits.
    Number(u64),
    /// Bytes in pairs of hexadecimal digits.
    Digits(&'a [u8]),
}

impl Print for Part<'_> {
    ghost text = { part_text };

    #[inline(always)]
    fn print<W: Sink>(&self, out: &mut Output<'_, W>) -> Result<(), ToolFault> {
        match self {
            Part::Text(text) => out.put(text),
            Part::Number(number) => out.put_number(*number),
            Part::Digits(bytes) => out.put_digits(bytes),
        }
    }
}

/// Each after the ones before it.
impl Print for &[Part<'_>] {
    ghost text = { λ parts. parts_text parts.now };

    fn print<W: Sink>(&self, out: &mut Output<'_, W>) -> Result<(), ToolFault> {
        let parts = *self;
        for part in parts {
            part.print(out)?;
        }
        Ok(())
    }
}

/// A line of two counts, each after its word.
#[derive(Clone, Copy)]
pub struct CountsLine {
    pub word: &'static [u8],
    pub count: u64,
    pub other_word: &'static [u8],
    pub other_count: u64,
}

impl Print for CountsLine {
    ghost text = { λ it. joined (it.word.now ∷ decimal it.count ∷ it.other_word.now ∷ decimal it.other_count
        ∷ codes "\n" ∷ []) };

    #[tactic(auto, using(crate::proofs::OutputLaws::put_on, crate::proofs::OutputLaws::breaks_on))]
    fn print<W: Sink>(&self, out: &mut Output<'_, W>) -> Result<(), ToolFault> {
        out.put(self.word)?;
        out.put_number(self.count)?;
        out.put(self.other_word)?;
        out.put_number(self.other_count)?;
        out.put(b"\n")
    }
}
