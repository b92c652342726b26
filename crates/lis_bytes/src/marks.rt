//! The places of a byte in a text: as bits, the first of them, and their number.

ghost use Rattle.std.specs.Prelude.{◌≡◌, ◌≤◌, ◌<◌, ◌-◌, ◌==◌, count_by, drop, length, map, position, take};
ghost use Rattle.std.specs.List.{position_from};
ghost use Rattle.std.specs.Simd.Lanes.{mask_l};
ghost use Rattle.lis_bytes.specs.Marks.{AreMarks};

use std::simd::prelude::*;

/// The places among sixteen bytes that hold this one, as bits.
#[inline(always)]
pub fn bits_of(bytes: &[u8], mark: u8) -> u64
    requires { 16 ≤ length bytes.now }
    ensures { result ≡ mask_l (map (λ b. b == mark) (take 16 bytes.now)) }
{
    u8x16::from_slice(bytes)
        .simd_eq(u8x16::splat(mark))
        .to_bitmask()
}

/// The places among thirty-two bytes that hold this one, as bits.
#[inline(always)]
fn bits_of_32(bytes: &[u8], mark: u8) -> u64
    requires { 32 ≤ length bytes.now }
    ensures { result ≡ mask_l (map (λ b. b == mark) (take 32 bytes.now)) }
{
    u8x32::from_slice(bytes)
        .simd_eq(u8x32::splat(mark))
        .to_bitmask()
}

/// The places among the first bytes of a text, at most 64, that hold this one, as bits: two windows are tested that
/// may overlap, so that no loop turns on the length. Of fewer than sixteen bytes none is tested.
#[inline(always)]
pub fn front_marks(text: &[u8], mark: u8) -> u64
    ensures { AreMarks mark text.now result }
{
    if text.len() < 32 {
        return short_marks(text, mark);
    }
    let count = (text.len() - 32).min(32);
    let (_, window) = text.split_at(count);
    let following = bits_of_32(window, mark) >> (32 - count);
    bits_of_32(text, mark) + 4_294_967_296 * following
}

/// The same, of fewer than thirty-two bytes.
#[inline(always)]
fn short_marks(text: &[u8], mark: u8) -> u64
    requires { length text.now < 32 }
    ensures { AreMarks mark text.now result }
{
    if text.len() < 16 {
        return 0;
    }
    let count = text.len() - 16;
    let (_, window) = text.split_at(count);
    let following = bits_of(window, mark) >> (16 - count);
    bits_of(text, mark) + 65_536 * following
}

/// The places among so many bytes at a text's end that hold this one, as bits. The sixteen that they are among are
/// tested at once.
#[inline(always)]
fn last_bits(text: &[u8], count: usize, mark: u8) -> u64
    requires few { count ≤ 16 }
    requires room { 16 ≤ length text.now }
    ensures { result ≡ mask_l (map (λ b. b == mark) (drop (length text.now - count) text.now)) }
{
    let (_, last) = text.split_at(text.len() - 16);
    bits_of(last, mark) >> (16 - count)
}

/// The place of the first byte that is this one.
#[inline(always)]
#[tactic(auto, using(crate::proofs::PassedLemmas::passed_on, crate::proofs::PassedLemmas::found_on, crate::proofs::PassedLemmas::none_last, crate::proofs::PassedLemmas::some_last, crate::proofs::PassedLemmas::place_from))]
pub fn place_of(text: &[u8], mark: u8) -> Option<usize>
    ensures { result ≡ position (λ b. b == mark) text.now }
{
    let mut rest = text;
    let mut place = 0;
    while rest.len() >= 16 {
        let bits = bits_of(rest, mark);
        if bits != 0 {
            return Some(place + bits.trailing_zeros() as usize);
        }
        let (_, following) = rest.split_at(16);
        rest = following;
        place += 16;
    }
    if text.len() < 16 {
        return place_by_one(text, mark);
    }
    let bits = last_bits(text, rest.len(), mark);
    if bits == 0 {
        return None;
    }
    Some(place + bits.trailing_zeros() as usize)
}

/// The same, a byte at a time.
#[inline(always)]
fn place_by_one(text: &[u8], mark: u8) -> Option<usize>
    ensures { result ≡ position_from (λ b. b == mark) 0 text.now }
{
    text.iter().position(|byte| *byte == mark)
}

/// How many bytes are this one.
#[inline(always)]
#[tactic(auto, using(crate::proofs::PassedLemmas::counted_none, crate::proofs::PassedLemmas::counted_on))]
pub fn count_of(text: &[u8], mark: u8) -> usize
    ensures count { result ≡ count_by (λ b. b == mark) text.now }
    ensures bound { result ≤ length text.now }
{
    let mut rest = text;
    let mut count: usize = 0;
    while rest.len() >= 16 {
        count += bits_of(rest, mark).count_ones() as usize;
        let (_, following) = rest.split_at(16);
        rest = following;
    }
    if text.len() < 16 {
        return count_by_one(text, mark);
    }
    count + last_bits(text, rest.len(), mark).count_ones() as usize
}

/// The same, a byte at a time.
#[inline(always)]
fn count_by_one(text: &[u8], mark: u8) -> usize
    ensures { result ≡ count_by (λ b. b == mark) text.now }
{
    let mut count: usize = 0;
    for byte in text {
        if *byte == mark {
            count += 1;
        }
    }
    count
}
