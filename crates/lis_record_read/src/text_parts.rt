//! The parts of a text round a delimiter (LIS02-A2, Delimiters).

ghost use Rattle.std.specs.Prelude.{◌≡◌, ◌<◌, ◌≤◌, ◌∷◌, ◌++◌, None, length};
ghost use Rattle.lis_record_values.specs.Text.{trailing_byte};
ghost use Rattle.lis_record_read.specs.FrontReading.{parts_following, parts_of};

use lis_bytes::{count_of, place_of};

// A text, and the same with more after it or nothing, so that sixteen bytes can be looked at.
#[derive(Clone, Copy)]
pub(crate) struct PaddedText<'a, 'b> {
    pub(crate) text: &'a [u8],
    pub(crate) padded: &'b [u8],
}

/// What is before the first delimiter, and the rest from that delimiter on.
#[inline(always)]
pub fn first_part(text: &[u8], delimiter: u8) -> (&[u8], &[u8])
    ensures parts { parts_of delimiter text.now ≡ result.0.now ∷ parts_following delimiter result.1.now }
    ensures shorter { length result.1.now ≤ length text.now }
    ensures joined { text.now ≡ result.0.now ++ result.1.now }
    ensures mark { trailing_byte delimiter result.1.now ≡ None }
{
    let end = place_of(text, delimiter).unwrap_or(text.len());
    text.split_at(end)
}

/// The number of parts round a delimiter.
#[inline]
pub fn count_parts(text: &[u8], delimiter: u8) -> usize
    ensures { result ≡ length (parts_of delimiter text.now) }
{
    count_of(text, delimiter) + 1
}
