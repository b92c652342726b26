//! Reading frames from a line.

ghost use Rattle.std.specs.Prelude.{◌≡◌, ◌∷◌, ℕ, List};
ghost use Rattle.lis_frame.specs.Scanner.{StandsFor};
ghost use Rattle.lis_frame.specs.Stream.{signal_after};
ghost use Rattle.uses.specs.Frames.{is_last_frame};

use lis_frame::{Scanner, Signal};

/// Whether a byte completes a good frame that is the last of its message.
pub fn ends_message(scanner: &mut Scanner, byte: u8) -> bool
    ensures reported { (past : List ℕ) → StandsFor 240 scanner.old past →
        result ≡ is_last_frame (signal_after 240 past byte) }
    ensures after { (past : List ℕ) → StandsFor 240 scanner.old past → StandsFor 240 scanner.new (byte ∷ past) }
{
    match scanner.push(byte) {
        Some(Signal::Good(frame)) => frame.is_last(),
        _ => false,
    }
}
