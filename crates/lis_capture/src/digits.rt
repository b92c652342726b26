//! Pairs of hexadecimal digits, read by loops over slices that look at every byte.

ghost use Rattle.std.specs.Prelude.{◌≡◌, ◌*◌, ◌<◌, ◌≤◌, ◌∷◌, [], IsTrue, None, Some, if◌then◌else◌, is_some, length};
ghost use Rattle.std.specs.Prelude.{map, take, unwrap_or, ◌+◌};
ghost use Rattle.std.specs.List.{list_all};
ghost use Rattle.hex.specs.Hex.{encode_lower, hex_digit_value, is_hex_digit};
ghost use Rattle.std.specs.Option.{option_map};
ghost use Rattle.lis_capture.specs.Digits.{bytes_of};
ghost use Rattle.lis_capture.specs.inside.Digits.{is_none_far, is_digit_value, lower_case, digit_meant};

use std::simd::prelude::*;

/// Whether a byte is a digit, in either case.
fn is_digit(byte: u8) -> bool
    ensures { result ≡ is_hex_digit byte }
{
    matches!(byte, b'0'..=b'9' | b'A'..=b'F' | b'a'..=b'f')
}

/// The byte of two digits. A digit's value is its low four bits, and nine more where it is a letter;
/// both are found at once, in the halves of one number, so that a loop takes many bytes at once.
fn byte_of(high: u8, low: u8) -> u8
    requires high { IsTrue (is_hex_digit high) }
    requires low { IsTrue (is_hex_digit low) }
    ensures { result ≡ 16 * unwrap_or (hex_digit_value high) 0 + unwrap_or (hex_digit_value low) 0 }
{
    let digits = u16::from_le_bytes([high, low]);
    let values = (digits & 0x0f0f) + 9 * ((digits >> 6) & 0x0303);
    ((values << 4 | values >> 8) & 0xff) as u8
}

/// Whether a text is one or more pairs of digits.
fn are_pairs(text: &[u8]) -> bool
    ensures { result ≡ is_some (bytes_of text.now) }
{
    if text.is_empty() {
        return false;
    }
    text.len() % 2 == 0 && are_digits(text)
}

/// Whether every byte is a digit.
fn are_digits(bytes: &[u8]) -> bool
    ensures { result ≡ list_all is_hex_digit bytes.now }
{
    let mut all = true;
    for byte in bytes {
        all &= is_digit(*byte);
    }
    all
}

/// Writes the bytes of pairs of digits. Answers whether the text is one or more such pairs; what is in the place of
/// the bytes is nothing where it isn't.
#[inline(always)]
pub(crate) fn decode(digits: &[u8], bytes: &mut [u8]) -> bool
    requires { length digits.now ≡ 2 * length bytes.old }
    ensures { bytes_of digits.now ≡ (if result then Some bytes.new else None) }
{
    // Most replies are one byte.
    if let [high, low] = digits {
        return decode_pair(*high, *low, bytes);
    }
    decode_many(digits, bytes)
}

/// The same, sixteen bytes at a time; the last sixteen may be written over some that are there.
#[inline(never)]
fn decode_many(digits: &[u8], bytes: &mut [u8]) -> bool
    requires { length digits.now ≡ 2 * length bytes.old }
    ensures { bytes_of digits.now ≡ (if result then Some bytes.new else None) }
{
    if bytes.len() < 16 {
        if !are_pairs(digits) {
            return false;
        }
        decode_few(digits, bytes);
        return true;
    }
    let last = bytes.len() - 16;
    let mut most = u8x16::splat(0);
    let mut place = 0;
    while place < last {
        most = most.simd_max(decode_sixteen(&digits[2 * place..], &mut bytes[place..place + 16]));
        place += 16;
    }
    most = most.simd_max(decode_sixteen(&digits[2 * last..], &mut bytes[last..]));
    most.simd_ge(u8x16::splat(16)).to_bitmask() == 0
}

/// The same of two digits.
#[inline(always)]
fn decode_pair(high: u8, low: u8, bytes: &mut [u8]) -> bool
    requires { length bytes.old ≡ 1 }
    ensures { bytes_of (high ∷ low ∷ []) ≡ (if result then Some bytes.new else None) }
{
    let both = is_digit(high) & is_digit(low);
    if both {
        bytes[0] = byte_of(high, low);
    }
    both
}

/// The same of the first thirty-two digits. Answers the greater value of each pair, 16 or more where one is no digit.
#[inline(always)]
fn decode_sixteen(digits: &[u8], bytes: &mut [u8]) -> u8x16
    requires many { 32 ≤ length digits.now }
    requires room { length bytes.old ≡ 16 }
    ensures { (length result ≡ 16)
        × (bytes_of (take 32 digits.now) ≡ (if list_all is_digit_value result then Some bytes.new else None)) }
{
    let front = u8x16::from_slice(digits);
    let (_, following) = digits.split_at(16);
    let back = u8x16::from_slice(following);
    let (first, second) = front.deinterleave(back);
    let high = values_of(first);
    let low = values_of(second);
    let values = (high << u8x16::splat(4)) + low;
    values.copy_to_slice(bytes);
    high.simd_max(low)
}

/// The values of sixteen digits; 16 or more in the place of a byte that is no digit.
#[inline(always)]
fn values_of(digits: u8x16) -> u8x16
    requires { length digits ≡ 16 }
    ensures { map digit_meant result ≡ map hex_digit_value digits }
{
    let decimals = (digits + u8x16::splat(198)).saturating_sub(u8x16::splat(6)) - u8x16::splat(240);
    let from_a = (digits & u8x16::splat(223)) - u8x16::splat(b'A');
    let letters = from_a.simd_max(from_a + u8x16::splat(10));
    decimals.simd_min(letters)
}

/// Writes the bytes of pairs of digits.
fn decode_few(digits: &[u8], bytes: &mut [u8])
    requires pairs { IsTrue (is_some (bytes_of digits.now)) }
    requires room { length digits.now ≡ 2 * length bytes.old }
    ensures { bytes_of digits.now ≡ Some bytes.new }
{
    'bytes: for i in 0..bytes.len() {
        bytes[i] = byte_of(digits[2 * i], digits[2 * i + 1]);
    }
}

/// Writes digits in lower case. Answers whether the text is one or more pairs of digits; what is in their place is
/// nothing where it isn't.
#[inline(always)]
pub(crate) fn lower(digits: &[u8], lowered: &mut [u8]) -> bool
    requires { length digits.now ≡ length lowered.old }
    ensures { option_map encode_lower (bytes_of digits.now) ≡ (if result then Some lowered.new else None) }
{
    if let [high, low] = digits {
        return lower_pair(*high, *low, lowered);
    }
    lower_many(digits, lowered)
}

/// The same of two digits.
#[inline(always)]
fn lower_pair(high: u8, low: u8, lowered: &mut [u8]) -> bool
    requires { length lowered.old ≡ 2 }
    ensures { option_map encode_lower (bytes_of (high ∷ low ∷ [])) ≡ (if result then Some lowered.new else None) }
{
    lowered[0] = high | 0x20;
    lowered[1] = low | 0x20;
    is_digit(high) & is_digit(low)
}

/// The same of any number of digits, sixteen at a time; the last sixteen may be written over some that are there.
#[inline(never)]
fn lower_many(digits: &[u8], lowered: &mut [u8]) -> bool
    requires { length digits.now ≡ length lowered.old }
    ensures { option_map encode_lower (bytes_of digits.now) ≡ (if result then Some lowered.new else None) }
{
    if digits.is_empty() || digits.len() % 2 == 1 {
        return false;
    }
    if digits.len() < 16 {
        return lower_few(digits, lowered);
    }
    let last = digits.len() - 16;
    let mut far = u8x16::splat(0);
    let mut place = 0;
    while place < last {
        far = far.simd_max(lower_sixteen(&digits[place..], &mut lowered[place..place + 16]));
        place += 16;
    }
    far = far.simd_max(lower_sixteen(&digits[last..], &mut lowered[last..]));
    far.simd_ge(u8x16::splat(1)).to_bitmask() == 0
}

/// Writes few digits in lower case, and answers whether each is one.
fn lower_few(digits: &[u8], lowered: &mut [u8]) -> bool
    requires room { length digits.now ≡ length lowered.old }
    ensures all { result ≡ list_all is_hex_digit digits.now }
    ensures lowered { lowered.new ≡ map lower_case digits.now }
{
    let mut all = true;
    'digits: for i in 0..lowered.len() {
        all &= is_digit(digits[i]);
        lowered[i] = digits[i] | 0x20;
    }
    all
}

/// The same of the first sixteen digits. Answers how far each is from a digit, 0 for a digit.
#[inline(always)]
fn lower_sixteen(digits: &[u8], lowered: &mut [u8]) -> u8x16
    requires many { 16 ≤ length digits.now }
    requires room { length lowered.old ≡ 16 }
    ensures far { map is_none_far result ≡ map is_hex_digit (take 16 digits.now) }
    ensures lowered { lowered.new ≡ map lower_case (take 16 digits.now) }
{
    let sixteen = u8x16::from_slice(digits);
    let lower = sixteen | u8x16::splat(0x20);
    lower.copy_to_slice(lowered);
    let from_zero = (sixteen - u8x16::splat(b'0')).saturating_sub(u8x16::splat(9));
    let from_a = (lower - u8x16::splat(b'a')).saturating_sub(u8x16::splat(5));
    from_zero.simd_min(from_a)
}
