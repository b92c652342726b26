//! Places of bytes in a text, looked for sixteen bytes at a time (LIS02-A2, Character Codes).

ghost use Rattle.std.specs.Prelude.{◌≡◌, ◌≤◌, ◌<◌, ◌==◌, ◌∷◌, IfNone, IfSome, None, Some, drop, length, map, not};
ghost use Rattle.std.specs.Prelude.{◌-◌, ◌||◌, take, true};
ghost use Rattle.std.specs.List.{position_from};
ghost use Rattle.std.specs.Simd.Lanes.{mask_l};
ghost use Rattle.lis_record_read.specs.FrontReading.{parts_following, parts_of};
ghost use Rattle.lis_record_read.specs.inside.FrontReading.{stops};
ghost use Rattle.lis_record_values.specs.Text.{IsRecordText, bad_byte_place, is_text_byte};

use lis_bytes::{ByteSet, bits_of, first_in};
use lis_record_values::{Delimiters, is_text_byte};
use std::simd::prelude::*;

/// The bytes that no record may hold.
struct BadBytes;

impl ByteSet for BadBytes {
    ghost member = { λ b. not (is_text_byte b) };

    ghost near = { λ _. true };

    #[inline(always)]
    fn has(byte: u8) -> bool {
        !is_text_byte(byte)
    }

    #[inline(always)]
    fn bits(bytes: &[u8]) -> u64 {
        let sixteen = u8x16::from_slice(bytes);
        // Most bytes are from 32 to 126.
        let low = sixteen.simd_le(u8x16::splat(31)) | sixteen.simd_eq(u8x16::splat(127));
        let unusual = low | sixteen.simd_ge(u8x16::splat(255));
        if unusual.to_bitmask() == 0 {
            return 0;
        }
        let bells = sixteen.simd_eq(u8x16::splat(7)) | sixteen.simd_eq(u8x16::splat(9));
        let feeds = sixteen.simd_eq(u8x16::splat(11)) | sixteen.simd_eq(u8x16::splat(12));
        let ascii = sixteen.simd_ge(u8x16::splat(32)) & sixteen.simd_le(u8x16::splat(126));
        let high = sixteen.simd_ge(u8x16::splat(128)) & sixteen.simd_le(u8x16::splat(254));
        let allowed = bells | feeds | ascii | high;
        65_535 - allowed.to_bitmask()
    }

    #[inline(always)]
    fn lacks(_bytes: &[u8]) -> bool {
        // Most texts are short, and sixteen bytes at a time do for them.
        false
    }
}

/// The places among thirty-two bytes that hold one that no record may hold, as bits, where these are CRs and all others
/// are from 32 to 126 or 128 to 254, as most are; none where that isn't so.
#[inline(always)]
fn return_bits(bytes: &[u8]) -> Option<u64>
    requires { 32 ≤ length bytes.now }
    ensures { IfSome result (λ bits. bits ≡ mask_l (map (λ b. not (is_text_byte b)) (take 32 bytes.now))) }
{
    let lanes = u8x32::from_slice(bytes);
    let low = lanes.simd_le(u8x32::splat(31)) | lanes.simd_eq(u8x32::splat(127));
    let unusual = (low | lanes.simd_ge(u8x32::splat(255))).to_bitmask();
    if unusual == 0 {
        return Some(0);
    }
    let returns = lanes.simd_eq(u8x32::splat(13)).to_bitmask();
    if unusual == returns {
        Some(returns)
    } else {
        None
    }
}

/// The place of the first byte that no record may hold, thirty-two bytes at a time as long as these are CRs alone.
#[inline(always)]
fn first_bad(bytes: &[u8]) -> Option<usize>
    ensures { result ≡ position_from (λ b. not (is_text_byte b)) 0 bytes.now }
{
    let mut rest = bytes;
    let mut place = 0;
    while rest.len() >= 32 {
        let Some(bits) = return_bits(rest) else {
            return first_in::<BadBytes>(bytes);
        };
        if bits != 0 {
            return Some(place + bits.trailing_zeros() as usize);
        }
        let (_, following) = rest.split_at(32);
        rest = following;
        place += 32;
    }
    match first_in::<BadBytes>(rest) {
        None => None,
        Some(found) => Some(place + found),
    }
}

/// The place of the first byte that no record may hold, from 0. A CR is such a byte, so that one search finds the end
/// of a record and tests its text.
#[inline(always)]
pub fn first_bad_byte(bytes: &[u8]) -> Option<usize>
    ensures place { result ≡ bad_byte_place bytes.now }
    ensures bound { IfSome result (λ place. place < length bytes.now) }
    ensures before { IfSome result (λ place. bad_byte_place (take place bytes.now) ≡ None) }
    ensures texts { IfSome result (λ place. IsRecordText (take place bytes.now)) }
    ensures text { IfNone result (IsRecordText bytes.now) }
{
    first_bad(bytes)
}

/// The places among sixteen bytes that hold a field, repeat or component delimiter, or this byte, as bits.
#[inline(always)]
pub fn stop_bits(delimiters: Delimiters, other: u8, bytes: &[u8]) -> u64
    requires { 16 ≤ length bytes.now }
    ensures { result ≡ mask_l (map (λ b. (b == delimiters.field || b == delimiters.repeat)
        || (b == delimiters.component || b == other)) (take 16 bytes.now)) }
{
    let sixteen = u8x16::from_slice(bytes);
    let outer = sixteen.simd_eq(u8x16::splat(delimiters.field()))
        | sixteen.simd_eq(u8x16::splat(delimiters.repeat()));
    let inner = sixteen.simd_eq(u8x16::splat(delimiters.component()))
        | sixteen.simd_eq(u8x16::splat(other));
    (outer | inner).to_bitmask()
}

/// The place of the first of these bytes, where one is among a text's first sixteen; else none, and of a shorter
/// text too.
#[inline(always)]
pub(crate) fn first_stop(delimiters: Delimiters, other: u8, text: &[u8]) -> Option<usize>
    ensures found { IfSome result (λ place. position_from (stops delimiters other) 0 text.now ≡ Some place) }
    ensures near { IfSome result (λ place. place < 16) }
    ensures room { IfSome result (λ place. 16 ≤ length text.now) }
{
    if text.len() < 16 {
        return None;
    }
    let bits = stop_bits(delimiters, other, text);
    if bits == 0 {
        return None;
    }
    Some(bits.trailing_zeros() as usize)
}

/// Where the field ends that a text begins with, if a field delimiter is the first of these bytes; else none. With the
/// escape byte next to the delimiters, the field's bytes are its symbols; with none, it is one component.
#[inline(always)]
pub(crate) fn field_end(delimiters: Delimiters, other: u8, text: &[u8]) -> Option<usize>
    ensures found { IfSome result (λ end. position_from (stops delimiters other) 0 text.now ≡ Some end) }
    ensures first { IfSome result (λ end. parts_of delimiters.field text.now
        ≡ take end text.now ∷ parts_following delimiters.field (drop end text.now)) }
    ensures bound { IfSome result (λ end. end < length text.now) }
    ensures room { IfSome result (λ end. 16 ≤ length text.now) }
{
    let Some(end) = first_stop(delimiters, other, text) else {
        return None;
    };
    if text[end] == delimiters.field() {
        Some(end)
    } else {
        None
    }
}

/// The length of the part that a text begins with, where a delimiter ends it within sixteen bytes; else none.
#[inline(always)]
pub(crate) fn near_end(text: &[u8], delimiter: u8) -> Option<usize>
    ensures first { IfSome result (λ end. parts_of delimiter text.now
        ≡ take end text.now ∷ parts_following delimiter (drop end text.now)) }
    ensures bound { IfSome result (λ end. end < length text.now) }
{
    if text.len() < 16 {
        return None;
    }
    let bits = bits_of(text, delimiter);
    if bits == 0 {
        return None;
    }
    Some(bits.trailing_zeros() as usize)
}
