//! Pairs of hexadecimal digits, written sixteen bytes at a time.

ghost use Rattle.std.specs.Prelude.{◌≡◌, ◌*◌, ◌<◌, ◌≤◌, length, map, slice_index, take};
ghost use Rattle.std.specs.Simd.Lanes.{Each1};
ghost use Rattle.hex.specs.Hex.{encode_lower, lower_digits};

use std::simd::prelude::*;

/// Writes pairs of digits in lower case, those of sixteen bytes at a time; the last sixteen may be written over
/// some that are there.
pub(crate) fn encode(bytes: &[u8], digits: &mut [u8])
    requires { length digits.old ≡ 2 * length bytes.now }
    ensures { digits.new ≡ encode_lower bytes.now }
{
    if bytes.len() < 16 {
        encode_few(bytes, digits);
        return;
    }
    let last = bytes.len() - 16;
    let mut place = 0;
    while place < last {
        encode_sixteen(&bytes[place..], &mut digits[2 * place..2 * place + 32]);
        place += 16;
    }
    encode_sixteen(&bytes[last..], &mut digits[2 * last..]);
}

/// The same of few bytes.
fn encode_few(bytes: &[u8], digits: &mut [u8])
    requires { length digits.old ≡ 2 * length bytes.now }
    ensures { digits.new ≡ encode_lower bytes.now }
{
    'bytes: for i in 0..bytes.len() {
        let byte = bytes[i];
        digits[2 * i] = digit_of(byte >> 4);
        digits[2 * i + 1] = digit_of(byte & 0x0f);
    }
}

/// The digit of a value, in lower case.
#[inline(always)]
fn digit_of(value: u8) -> u8
    requires { value < 16 }
    ensures { result ≡ slice_index lower_digits value }
{
    if value > 9 {
        b'a' + (value - 10)
    } else {
        b'0' + value
    }
}

/// The same of the first sixteen bytes.
#[inline(always)]
fn encode_sixteen(bytes: &[u8], digits: &mut [u8])
    requires many { 16 ≤ length bytes.now }
    requires room { length digits.old ≡ 32 }
    ensures { digits.new ≡ encode_lower (take 16 bytes.now) }
{
    let sixteen = u8x16::from_slice(bytes);
    let high = digits_of(sixteen >> u8x16::splat(4));
    let low = digits_of(sixteen & u8x16::splat(15));
    let (front, back) = high.interleave(low);
    let (first, second) = digits.split_at_mut(16);
    front.copy_to_slice(first);
    back.copy_to_slice(second);
}

/// The digits of sixteen values.
#[inline(always)]
fn digits_of(values: u8x16) -> u8x16
    requires lanes { length values ≡ 16 }
    requires small { Each1 (λ value. value < 16) values }
    ensures { result ≡ map (slice_index lower_digits) values }
{
    u8x16::from_array(*b"0123456789abcdef").swizzle_dyn(values)
}
