//! The bytes of a record's text (LIS02-A2, Character Codes).

ghost use Rattle.std.specs.Prelude.{◌≡◌};
ghost use Rattle.lis_record_values.specs.Text.{is_text_byte};

/// Whether a byte may be in a record: 7, 9, 11, 12, 32 to 126 and 128 to 254.
#[tactic(auto, unfolding(crate::specs::Text::is_text_byte))]
pub fn is_text_byte(byte: u8) -> bool
    ensures { result ≡ is_text_byte byte }
{
    matches!(byte, 7 | 9 | 11 | 12 | 32..=126 | 128..=254)
}
