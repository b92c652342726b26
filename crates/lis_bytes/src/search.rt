//! The first byte of a set, found sixteen bytes at a time, and the sum of the bytes before it.

ghost use Rattle.std.specs.Prelude.{◌≡◌, ◌≤◌, ◌<◌, ◌+◌, ◌%◌, ◌↔◌, ℕ, Bool, IfSome, drop, length, map, nat_le, take};
ghost use Rattle.std.specs.Prelude.{true};
ghost use Rattle.std.specs.List.{position_from, sum};
ghost use Rattle.std.specs.Option.{unwrap_or};
ghost use Rattle.std.specs.Simd.Lanes.{mask_l, sum_l};
ghost use Rattle.lis_bytes.specs.inside.Search.{IsLesser, Passed, Summed};

use std::simd::prelude::*;

/// A set of bytes.
pub trait ByteSet {
    // Whether a byte is in the set.
    ghost member: { ℕ → Bool };

    // Whether `lacks` stops at a byte: at each of the set, and maybe at others.
    ghost near: { ℕ → Bool };

    /// Whether a byte is in the set.
    fn has(byte: u8) -> bool
        ensures { result ≡ member byte };

    /// The places among sixteen bytes that hold a byte of the set, as bits, the lowest for the first byte.
    fn bits(bytes: &[u8]) -> u64
        requires { 16 ≤ length bytes.now }
        ensures { result ≡ mask_l (map member (take 16 bytes.now)) };

    /// Whether sixty-four bytes are seen at once to hold no byte of the set: they are if none is near it. Otherwise
    /// they may hold none too.
    fn lacks(bytes: &[u8]) -> bool
        requires { 64 ≤ length bytes.now }
        ensures none { result ≡ true → mask_l (map member (take 64 bytes.now)) ≡ 0 }
        ensures seen { mask_l (map near (take 64 bytes.now)) ≡ 0 → result ≡ true };
}

/// Whether each of sixty-four bytes is over this one.
#[inline(always)]
pub fn are_over(bytes: &[u8], limit: u8) -> bool
    requires { 64 ≤ length bytes.now }
    ensures { result ≡ true ↔ mask_l (map (λ b. nat_le b limit) (take 64 bytes.now)) ≡ 0 }
{
    let (_, second) = bytes.split_at(16);
    let (_, third) = second.split_at(16);
    let (_, fourth) = third.split_at(16);
    let front = lesser(u8x16::from_slice(bytes), u8x16::from_slice(second));
    let back = lesser(u8x16::from_slice(third), u8x16::from_slice(fourth));
    let least = lesser(front, back);
    least.simd_le(u8x16::splat(limit)).to_bitmask() == 0
}

/// The lesser of two bytes, in each of sixteen lanes. All are over a limit if both are in each lane.
#[inline(always)]
fn lesser(one: u8x16, other: u8x16) -> u8x16
    ensures { IsLesser result one other }
{
    one.simd_min(other)
}

/// How many bytes at the front hold none of the set, sixty-four at a time, as far as that is seen at once.
#[inline(always)]
fn lacking<S: ByteSet>(bytes: &[u8]) -> usize
    ensures { Passed S.member result (drop result bytes.now) bytes.now }
{
    let mut rest = bytes;
    let mut place = 0;
    while rest.len() >= 64 && S::lacks(rest) {
        let (_, following) = rest.split_at(64);
        rest = following;
        place += 64;
    }
    place
}

/// The place of the first byte that is in the set, from 0.
#[tactic(auto, using(crate::proofs::PassedLemmas::passed_on, crate::proofs::PassedLemmas::found_on, crate::proofs::PassedLemmas::none_left, crate::proofs::PassedLemmas::some_left))]
pub fn first_in<S: ByteSet>(bytes: &[u8]) -> Option<usize>
    ensures { result ≡ position_from S.member 0 bytes.now }
{
    let mut place = lacking::<S>(bytes);
    let (_, mut rest) = bytes.split_at(place);
    while rest.len() >= 16 {
        let bits = S::bits(rest);
        if bits != 0 {
            return Some(place + bits.trailing_zeros() as usize);
        }
        let (_, following) = rest.split_at(16);
        rest = following;
        place += 16;
    }
    match first_by_one::<S>(rest) {
        None => None,
        Some(found) => Some(place + found),
    }
}

/// The same, a byte at a time.
fn first_by_one<S: ByteSet>(bytes: &[u8]) -> Option<usize>
    ensures place { result ≡ position_from S.member 0 bytes.now }
    ensures bound { IfSome result (λ found. found < length bytes.now) }
{
    bytes.iter().position(|byte| S::has(*byte))
}

/// How many bytes at the front hold none of the set, as `lacking` answers, and lanes that have their sum.
#[inline(always)]
fn lacking_sum<S: ByteSet>(bytes: &[u8]) -> (usize, u8x16)
    ensures summed { Summed S.member result.0 (drop result.0 bytes.now) bytes.now result.1 }
    ensures lanes { length result.1 ≡ 16 }
{
    let mut rest = bytes;
    let mut place = 0;
    let mut sums = u8x16::splat(0);
    while rest.len() >= 64 && S::lacks(rest) {
        sums += sum_of_four(rest);
        let (_, following) = rest.split_at(64);
        rest = following;
        place += 64;
    }
    (place, sums)
}

/// Sixteen lanes that have the sum of the first sixty-four bytes.
#[inline(always)]
fn sum_of_four(bytes: &[u8]) -> u8x16
    requires { 64 ≤ length bytes.now }
    ensures sum { sum_l result % 256 ≡ sum (take 64 bytes.now) % 256 }
    ensures lanes { length result ≡ 16 }
{
    let (_, second) = bytes.split_at(16);
    let (_, third) = second.split_at(16);
    let (_, fourth) = third.split_at(16);
    let front = u8x16::from_slice(bytes) + u8x16::from_slice(second);
    let back = u8x16::from_slice(third) + u8x16::from_slice(fourth);
    front + back
}

/// The place of the first byte that is in the set, from 0, and the sum modulo 256 of the bytes before it; where none
/// is, that of all. Both come of one pass over the bytes.
#[tactic(auto, using(crate::proofs::PassedLemmas::found_on, crate::proofs::PassedLemmas::none_left, crate::proofs::PassedLemmas::some_left))]
pub fn first_and_sum<S: ByteSet>(bytes: &[u8]) -> (Option<usize>, u8)
    ensures first { result.0 ≡ position_from S.member 0 bytes.now }
    ensures sum { result.1 ≡ sum (take (unwrap_or result.0 (length bytes.now)) bytes.now) % 256 }
{
    let (mut place, mut sums) = lacking_sum::<S>(bytes);
    let (_, mut rest) = bytes.split_at(place);
    while rest.len() >= 16 {
        let bits = S::bits(rest);
        let sixteen = u8x16::from_slice(rest);
        if bits != 0 {
            let count = bits.trailing_zeros() as usize;
            return (
                Some(place + count),
                (sums + front_lanes(sixteen, count)).reduce_sum(),
            );
        }
        sums += sixteen;
        let (_, following) = rest.split_at(16);
        rest = following;
        place += 16;
    }
    let sum = sums.reduce_sum();
    match first_by_one::<S>(rest) {
        None => (None, sum.wrapping_add(sum_of(rest))),
        Some(found) => {
            let (front, _) = rest.split_at(found);
            (Some(place + found), sum.wrapping_add(sum_of(front)))
        }
    }
}

/// The first of sixteen bytes, so many, and 0 in place of the others.
#[inline(always)]
fn front_lanes(sixteen: u8x16, count: usize) -> u8x16
    requires { count ≤ 16 }
    ensures sum { sum_l result ≡ sum (take count sixteen) }
    ensures lanes { length result ≡ 16 }
{
    let places = u8x16::from_array([0, 1, 2, 3, 4, 5, 6, 7, 8, 9, 10, 11, 12, 13, 14, 15]);
    places
        .simd_lt(u8x16::splat(count as u8))
        .select(sixteen, u8x16::splat(0))
}

/// The sum of bytes modulo 256.
pub fn sum_of(bytes: &[u8]) -> u8
    ensures { result ≡ sum bytes.now % 256 }
{
    let mut total: u8 = 0;
    for byte in bytes {
        total = total.wrapping_add(*byte);
    }
    total
}
