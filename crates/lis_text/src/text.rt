//! The bytes of a text: which none may hold, and why bytes are no text (LIS01-A2, 6.3 and 6.5).

ghost use Rattle.std.specs.Prelude.{◌≡◌, ◌%◌, None, Some, MatchResult, length, nat_le, take};
ghost use Rattle.std.specs.List.{sum};
ghost use Rattle.std.specs.Option.{unwrap_or};
ghost use Rattle.lis_text.specs.Text.{first_forbidden, is_forbidden, text_fault};

use lis_bytes::{ByteSet, are_over, first_and_sum, first_in};
use std::simd::prelude::*;
use thiserror::Error;

/// Why bytes are no text of a frame or of a link text.
#[derive(Debug, Clone, Copy, PartialEq, Eq, Error)]
pub enum TextFault {
    /// There are more bytes than the limit allows.
    #[error("the text is too long")]
    TooLong,
    /// The byte at this place, from 0, is the first that a text may not hold.
    #[error("the byte at place {0} may not be in a text")]
    Forbidden(usize),
}

/// The bytes that no text may hold: SOH to ACK, LF, and DLE to ETB.
struct ForbiddenBytes;

impl ByteSet for ForbiddenBytes {
    ghost member = { is_forbidden };

    ghost near = { λ b. nat_le b 23 };

    fn has(byte: u8) -> bool {
        matches!(byte, 1..=6 | 10 | 16..=23)
    }

    #[inline(always)]
    fn bits(bytes: &[u8]) -> u64 {
        let sixteen = u8x16::from_slice(bytes);
        // No byte over 23 is forbidden, and few of a text are under it.
        if sixteen.simd_le(u8x16::splat(23)).to_bitmask() == 0 {
            return 0;
        }
        let low = sixteen.simd_ge(u8x16::splat(1)) & sixteen.simd_le(u8x16::splat(6));
        let line_feed = sixteen.simd_eq(u8x16::splat(10));
        let high = sixteen.simd_ge(u8x16::splat(16)) & sixteen.simd_le(u8x16::splat(23));
        (low | line_feed | high).to_bitmask()
    }

    #[inline(always)]
    fn lacks(bytes: &[u8]) -> bool {
        // No byte over 23 is forbidden.
        are_over(bytes, 23)
    }
}

/// The place of the first byte that no text may hold, from 0: SOH to ACK, LF, and DLE to ETB (LIS01-A2, 6.3 and 6.5).
pub fn first_forbidden(bytes: &[u8]) -> Option<usize>
    ensures { result ≡ first_forbidden bytes.now }
{
    first_in::<ForbiddenBytes>(bytes)
}

/// The place of the first byte that no text may hold, from 0, and the sum modulo 256 of the bytes before it; where
/// there is none, that of all (LIS01-A2, 6.3.1 and 6.5).
pub fn text_and_sum(bytes: &[u8]) -> (Option<usize>, u8)
    ensures first { result.0 ≡ first_forbidden bytes.now }
    ensures sum { result.1 ≡ sum (take (unwrap_or result.0 (length bytes.now)) bytes.now) % 256 }
{
    first_and_sum::<ForbiddenBytes>(bytes)
}

/// Whether bytes are a text of at most `limit` bytes; if not, why. Their number is tested first, then each byte from
/// the front.
pub fn check_bytes(bytes: &[u8], limit: usize) -> Result<(), TextFault>
    ensures { MatchResult result (λ _. text_fault limit bytes.now ≡ None)
        (λ fault. text_fault limit bytes.now ≡ Some fault) }
{
    if bytes.len() > limit {
        return Err(TextFault::TooLong);
    }
    match first_forbidden(bytes) {
        None => Ok(()),
        Some(place) => Err(TextFault::Forbidden(place)),
    }
}
