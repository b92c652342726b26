//! The nine kinds of record and their letters (LIS02-A2, Data Record Usage Overview).

ghost use Rattle.std.specs.Prelude.{◌≡◌, ◌≤◌};
ghost use Rattle.lis_record_values.specs.Kinds.{kind_of, letter_of};
ghost use Rattle.lis_record_values.specs.Shape.{first_number};

/// What a record reports, by its first letter.
#[derive(Clone, Copy, Debug, PartialEq, Eq)]
pub enum Kind {
    /// Header, the first record of a message.
    H,
    /// Patient.
    P,
    /// Test order.
    O,
    /// Result.
    R,
    /// Comment.
    C,
    /// Request for information (query).
    Q,
    /// Manufacturer information.
    M,
    /// Scientific information.
    S,
    /// Message terminator, the last record of a message.
    L,
}

impl Kind {
    /// The letter that is written, in upper case.
    pub fn letter(self) -> u8
        ensures { result ≡ letter_of self }
    {
        match self {
            Kind::H => b'H',
            Kind::P => b'P',
            Kind::O => b'O',
            Kind::R => b'R',
            Kind::C => b'C',
            Kind::Q => b'Q',
            Kind::M => b'M',
            Kind::S => b'S',
            Kind::L => b'L',
        }
    }

    /// The kind whose letter a byte is, in either case.
    #[tactic(auto, unfolding(crate::specs::Kinds::kind_of))]
    pub fn of_letter(byte: u8) -> Option<Kind>
        ensures { result ≡ kind_of byte }
    {
        match byte {
            b'H' | b'h' => Some(Kind::H),
            b'P' | b'p' => Some(Kind::P),
            b'O' | b'o' => Some(Kind::O),
            b'R' | b'r' => Some(Kind::R),
            b'C' | b'c' => Some(Kind::C),
            b'Q' | b'q' => Some(Kind::Q),
            b'M' | b'm' => Some(Kind::M),
            b'S' | b's' => Some(Kind::S),
            b'L' | b'l' => Some(Kind::L),
            _ => None,
        }
    }

    /// The number of the first field after the letter, or after a header's delimiters.
    pub fn first_number(self) -> usize
        ensures number { result ≡ first_number self }
        ensures small { result ≤ 3 }
    {
        match self {
            Kind::H => 3,
            _ => 2,
        }
    }
}
