//! Laws of this crate, each the contract of a function that does nothing.

ghost use Rattle.std.specs.Prelude.{◌≡◌};
ghost use Rattle.lis_text.specs.Control as standard;

use crate::control::{ACK, CR, ENQ, EOT, ETB, ETX, LF, NAK, STX};

/// The control bytes have the codes that the standard gives them.
pub fn control_bytes()
    ensures frames { (STX ≡ standard.STX) × (ETX ≡ standard.ETX) × (ETB ≡ standard.ETB) × (CR ≡ standard.CR)
        × (LF ≡ standard.LF) }
    ensures replies { (ENQ ≡ standard.ENQ) × (EOT ≡ standard.EOT) × (ACK ≡ standard.ACK) × (NAK ≡ standard.NAK) }
{}
