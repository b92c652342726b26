//! Writing a message on after a sink that failed.

ghost use Rattle.std.specs.Prelude.{◌≡◌, false};
ghost use Rattle.uses.specs.Resuming.{WroteToBoth};

use lis_message::{Message, MessageWriteFault, write_message, write_message_from};
use lis_port::Sink;

/// Writes a message to a sink, and what that leaves to another one.
pub fn write_to_both<W: Sink, V: Sink>(
    first: &mut W,
    second: &mut V,
    message: &Message,
) -> Result<(), MessageWriteFault>
    requires first { W.failed first.old ≡ false }
    requires second { V.failed second.old ≡ false }
    ensures { WroteToBoth message.now (W.taken first.old) (W.taken first.new)
        (V.taken second.old) (V.taken second.new) (W.failed first.new) (V.failed second.new) result }
{
    let Err(fault) = write_message(first, message) else {
        return Ok(());
    };
    match fault.resume() {
        Some((place, skip)) => write_message_from(second, message, place, skip),
        None => Err(fault),
    }
}
