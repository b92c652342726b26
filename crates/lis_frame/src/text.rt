//! The text of a frame.

ghost use Rattle.std.specs.Prelude.{◌≡◌, ◌+◌, ◌≤◌, ◌++◌, None, Some, MatchResult, length, nat_eq};
ghost use Rattle.std.specs.Cmp.{partial_equiv_from_equiv};
ghost use Rattle.std.specs.Cmp.Lexicographic.{pointwise, nat_list_eq_equiv};
ghost use Rattle.arrayvec.specs.ArrayVec.{array_vec_len};
ghost use Rattle.lis_frame.specs.Limit.{IsLimit};
ghost use Rattle.lis_text.specs.Text.{IsText, text_fault};

use arrayvec::ArrayVec;
use lis_text::{TextFault, check_bytes};
use std::marker::Model;

/// The text of one frame: at most `N` bytes, none of them forbidden (LIS01-A2, 6.3 and 6.5).
#[derive(Debug, Drop)]
pub struct TextOf<const N: usize> {
    bytes: ArrayVec<u8, N>,
}

impl<const N: usize> Model for TextOf<N> {
    ghost use Rattle.std.specs.Prelude.{ℕ, List};
    ghost use Rattle.lis_frame.specs.Limit.{IsLimit};
    ghost use Rattle.lis_text.specs.Text.{IsText};

    ghost Value = { List ℕ };

    ghost view = { λ t. t.bytes.items };

    ghost invariant = { λ t. IsLimit N × IsText N t.bytes.items };
}

/// The text of a frame with the usual limit.
pub type Text = TextOf<240>;

impl<const N: usize> TextOf<N> {
    /// The text of these bytes. Its length is tested first, then its bytes from the front. `N` is a limit, from 240 to
    /// 63,993.
    pub fn from_slice(bytes: &[u8]) -> Result<Self, TextFault>
        requires { IsLimit N }
        ensures { MatchResult result (λ text. (text ≡ bytes.now) × (text_fault N bytes.now ≡ None))
            (λ fault. text_fault N bytes.now ≡ Some fault) }
    {
        check_bytes(bytes, N)?;
        Ok(TextOf::copied(bytes))
    }

    /// The text of bytes that were examined.
    pub(crate) fn copied(bytes: &[u8]) -> Self
        requires limit { IsLimit N }
        requires text { IsText N bytes.now }
        ensures { result ≡ bytes.now }
    {
        let mut text = ArrayVec::new();
        append(&mut text, bytes);
        TextOf { bytes: text }
    }

    /// The same text.
    pub fn copy(&self) -> Self
        ensures { result ≡ self.now }
    {
        TextOf::copied(self.bytes.as_slice())
    }

    /// The bytes of the text.
    pub fn as_slice(&self) -> &[u8]
        ensures value { result.now ≡ self.now }
        ensures limit { IsLimit N }
        ensures text { IsText N result.now }
    {
        self.bytes.as_slice()
    }
}

/// Texts are equal whose bytes are.
impl<const N: usize> PartialEq for TextOf<N> {
    ghost eq = { λ a b. pointwise nat_eq a b };

    ghost laws = { partial_equiv_from_equiv nat_list_eq_equiv };

    fn eq(&self, other: &Self) -> bool
        ensures { result ≡ pointwise nat_eq self.now other.now }
    {
        self.as_slice() == other.as_slice()
    }
}

impl<const N: usize> Eq for TextOf<N> {
    ghost laws = { nat_list_eq_equiv };
}

/// Puts bytes after those of a buffer that has room.
pub(crate) fn append<const B: usize>(buffer: &mut ArrayVec<u8, B>, bytes: &[u8])
    requires { array_vec_len buffer.old + length bytes.now ≤ B }
    ensures { buffer.new.items ≡ buffer.old.items ++ bytes.now }
{
    // There is room for them.
    let _ = buffer.try_extend_from_slice(bytes);
}
