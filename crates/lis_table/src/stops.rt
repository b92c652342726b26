//! The delimiters and escape bytes of a text, looked for many bytes at a time (LIS02-A2, Delimiters).

ghost use Rattle.std.specs.Prelude.{◌≡◌, ◌≤◌, ◌<◌, ◌-◌, length, map, take, drop};
ghost use Rattle.std.specs.Simd.Lanes.{mask_l};
ghost use Rattle.lis_table.specs.inside.Stops.{AreAhead};
ghost use Rattle.lis_record_read.specs.inside.FrontReading.{stops};

use lis_record_read::stop_bits;
use lis_record_values::Delimiters;

/// The places among the first sixteen bytes of a text that hold one of the four, as bits.
#[inline(always)]
fn stops_of(delimiters: Delimiters, text: &[u8]) -> u64
    requires { 16 ≤ length text.now }
    ensures bits { result ≡ mask_l (map (stops delimiters delimiters.escape) (take 16 text.now)) }
{
    stop_bits(delimiters, delimiters.escape(), text)
}

/// The same of the first thirty-two.
#[inline(always)]
fn stops_of_two(delimiters: Delimiters, text: &[u8]) -> u64
    requires { 32 ≤ length text.now }
    ensures bits { result ≡ mask_l (map (stops delimiters delimiters.escape) (take 32 text.now)) }
{
    let (_, second) = text.split_at(16);
    stops_of(delimiters, text) + (stops_of(delimiters, second) << 16)
}

/// Whether a byte is one of the four.
#[inline(always)]
fn is_stop(delimiters: Delimiters, byte: u8) -> bool
    ensures { result ≡ stops delimiters delimiters.escape byte }
{
    let is_outer = byte == delimiters.field() || byte == delimiters.repeat();
    let is_inner = byte == delimiters.component() || byte == delimiters.escape();
    is_outer || is_inner
}

/// The places among all bytes of a short text, a byte at a time.
#[inline(always)]
fn stops_by_one(delimiters: Delimiters, text: &[u8]) -> u64
    requires { length text.now < 16 }
    ensures bits { result ≡ mask_l (map (stops delimiters delimiters.escape) text.now) }
{
    let mut bits = 0;
    let mut rest = text;
    while let Some((byte, before)) = rest.split_last() {
        bits *= 2;
        if is_stop(delimiters, *byte) {
            bits += 1;
        }
        rest = before;
    }
    bits
}

/// The places among the bytes of a text from one on that hold one of the four, as bits, and how many bytes these are:
/// as many as one look takes, or all that are left.
#[inline(always)]
pub(crate) fn stops_ahead(delimiters: Delimiters, text: &[u8], from: usize) -> (u64, usize)
    requires { from < length text.now }
    ensures ahead { AreAhead delimiters (drop from text.now) result.0 result.1 }
{
    let (_, rest) = text.split_at(from);
    if rest.len() >= 32 {
        return (stops_of_two(delimiters, rest), 32);
    }
    if rest.len() >= 16 {
        return (stops_of(delimiters, rest), 16);
    }
    if text.len() < 16 {
        return (stops_by_one(delimiters, rest), rest.len());
    }
    // The last sixteen bytes hold those that are left.
    let (_, last) = text.split_at(text.len() - 16);
    (stops_of(delimiters, last) >> (16 - rest.len()), rest.len())
}
