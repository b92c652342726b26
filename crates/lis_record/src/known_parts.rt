//! The parts of a text round a delimiter, some of whose places may be known (LIS02-A2, Delimiters).

ghost use Rattle.std.specs.Prelude.{◌≡◌, ◌<◌, ◌≤◌, ◌∷◌, ◌++◌, IfSome, MatchOption, None, length, slice_get};
ghost use Rattle.std.specs.Option.{option_copied};
ghost use Rattle.lis_record_values.specs.Text.{trailing_byte};
ghost use Rattle.lis_bytes.specs.Marks.{AreMarks};
ghost use Rattle.lis_record.specs.inside.Marks.{SplitsParts};
ghost use Rattle.lis_record_read.specs.FrontReading.{parts_following, parts_of};

use lis_record_read::first_part;

// What is before the first delimiter, the rest from that delimiter on, and bits that say about the first places of
// the delimiter in the rest, or of none, as these do of its first places in the text.
#[inline(always)]
pub(crate) fn first_marked(text: &[u8], delimiter: u8, marks: u64) -> (&[u8], &[u8], u64)
    requires { AreMarks delimiter text.now marks }
    ensures parts { parts_of delimiter text.now ≡ result.0.now ∷ parts_following delimiter result.1.now }
    ensures shorter { length result.1.now ≤ length text.now }
    ensures joined { text.now ≡ result.0.now ++ result.1.now }
    ensures mark { trailing_byte delimiter result.1.now ≡ None }
    ensures marks { AreMarks delimiter result.1.now result.2 }
{
    if marks == 0 {
        let (first, rest) = first_part(text, delimiter);
        return (first, rest, 0);
    }
    let end = marks.trailing_zeros() as usize;
    let (first, rest) = text.split_at(end);
    (first, rest, marks >> end)
}

// The part at a place among those round a delimiter.
#[inline]
pub(crate) fn part_at(text: &[u8], delimiter: u8, place: usize) -> Option<&[u8]>
    ensures { option_copied result ≡ slice_get (parts_of delimiter text.now) place }
{
    let mut rest = text;
    let mut left = place;
    while left > 0 {
        let (_part, others) = first_part(rest, delimiter);
        let Some((_mark, more)) = others.split_first() else {
            return None;
        };
        rest = more;
        left -= 1;
    }
    let (first, _following) = first_part(rest, delimiter);
    Some(first)
}

// The part at a place among those after a first delimiter.
#[inline]
pub(crate) fn part_following(text: &[u8], delimiter: u8, place: usize) -> Option<&[u8]>
    ensures { option_copied result ≡ slice_get (parts_following delimiter text.now) place }
{
    match text.split_first() {
        Some((_mark, parts)) => part_at(parts, delimiter, place),
        None => None,
    }
}

// A first byte, so many parts after it with the delimiters between them, and what follows; none where there are fewer.
// At least one is asked for. Bits say about the first places of the delimiter, or of none, and then of those of what
// follows. The lowest is cleared for each part but the last, so that no part is cut off by itself.
#[inline(always)]
pub(crate) fn split_parts(
    text: &[u8],
    delimiter: u8,
    count: usize,
    marks: u64,
) -> Option<(&[u8], &[u8], u64)>
    requires some { 0 < count }
    requires marks { AreMarks delimiter text.now marks }
    ensures split { MatchOption result (length (parts_following delimiter text.now) < count)
        (λ split. SplitsParts delimiter count text.now split.0.now split.1.now) }
    ensures first { IfSome result (λ split. 0 < length split.0.now) }
    ensures marks { IfSome result (λ split. AreMarks delimiter split.1.now split.2) }
{
    // The first byte is passed over, whatever it is.
    let mut left = marks - marks % 2;
    let mut ahead = count - 1;
    while ahead > 0 {
        if left == 0 {
            return split_unmarked(text, delimiter, count);
        }
        left -= 1 << left.trailing_zeros();
        ahead -= 1;
    }
    if left == 0 {
        return split_unmarked(text, delimiter, count);
    }
    let end = left.trailing_zeros() as usize;
    let (taken, rest) = text.split_at(end);
    Some((taken, rest, left >> end))
}

// The same, where too few places are reported; and none of what follows is.
#[inline(never)]
fn split_unmarked(text: &[u8], delimiter: u8, count: usize) -> Option<(&[u8], &[u8], u64)>
    requires { 0 < count }
    ensures split { MatchOption result (length (parts_following delimiter text.now) < count)
        (λ split. SplitsParts delimiter count text.now split.0.now split.1.now) }
    ensures first { IfSome result (λ split. 0 < length split.0.now) }
    ensures marks { IfSome result (λ split. split.2 ≡ 0) }
{
    let Some((_delimiter, parts)) = text.split_first() else {
        return None;
    };
    let (_first, mut rest) = first_part(parts, delimiter);
    let mut left = count - 1;
    while left > 0 {
        let Some((_mark, following)) = rest.split_first() else {
            return None;
        };
        let (_part, others) = first_part(following, delimiter);
        rest = others;
        left -= 1;
    }
    let (taken, _following) = text.split_at(parts.len() - rest.len() + 1);
    Some((taken, rest, 0))
}
