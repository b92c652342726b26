//! Damage: which bytes are noticed in the place of what was on its way.

ghost use Rattle.std.specs.Prelude.{◌≡◌};
ghost use Rattle.lis_frame.specs.Stream.{signals_after};
ghost use Rattle.lis_link.specs.Receiver.{ReceiverState};
ghost use Rattle.lis_link.specs.Representation.{IsIn};
ghost use Rattle.lis_world.specs.Steps.{is_noticed};
ghost use Rattle.lis_station.specs.Line.{is_noise_to_sender, has_byte};
ghost use Rattle.lis_line.specs.inside.Kept.{load_in};

use crate::end::EndOf;
use crate::item::ItemOf;
use lis_frame::Heard;
use lis_text::{ACK, ENQ};

impl<const N: usize> EndOf<N> {
    /// Whether what the receiver hears of these bytes in the place of this is nothing or, in place of a frame, one bad
    /// frame.
    pub(crate) fn hears_noise(&self, item: &ItemOf<N>, bytes: &[u8]) -> bool
        ensures { (r : ReceiverState) → IsIn N self.now.station.receiver r →
            result ≡ is_noticed (load_in item.now) (signals_after N r.past bytes.now) }
    {
        let mut scanner = self.station.receiver().scanner().copy();
        let mut is_bad = false;
        for byte in bytes {
            match scanner.peek(*byte) {
                None => {}
                Some(Heard::Bad(_)) => {
                    if is_bad || !item.is_frame() {
                        return false;
                    }
                    is_bad = true;
                }
                Some(_) => return false,
            }
            scanner.take(*byte);
        }
        true
    }
}

/// Whether a sender that awaits a reply takes none of these bytes for an acknowledgement, nor one that follows another
/// for ENQ.
pub(crate) fn is_noise_to_sender(bytes: &[u8]) -> bool
    ensures { result ≡ is_noise_to_sender bytes.now }
{
    match bytes.split_first() {
        None => true,
        Some((first, rest)) => *first != ACK && !has_byte(ACK, rest) && !has_byte(ENQ, rest),
    }
}

/// Whether this byte is among these.
fn has_byte(byte: u8, bytes: &[u8]) -> bool
    ensures { result ≡ has_byte byte bytes.now }
{
    for other in bytes {
        if byte == *other {
            return true;
        }
    }
    false
}
