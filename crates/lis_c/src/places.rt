//! The message that a text begins with, as places in the text, for programs in C (LIS02-A2). No call takes memory.

ghost use Rattle.std.specs.Prelude.{◌≡◌, ◌-◌, length};
ghost use Rattle.lis_c.specs.Places.{IsPlaced, no_message};
ghost use Rattle.lis_c.specs.Records.{delimiters_in};

use crate::reader::{LisFound, clear, refuse};
use crate::records::{LisDelimiters, report_delimiters};
use crate::status;
use lis_message_table::{LisRecordPlace, Placed, put_message};
use std::alloc::Global;

/// The message that a text begins with: how many records it has, how many bytes these have with their CR, and the
/// delimiters that they are read under.
#[repr(C)]
#[derive(Drop)]
pub struct LisMessage {
    pub count: usize,
    pub len: usize,
    pub delimiters: LisDelimiters,
}

/// Puts the places of the records of the message that a text begins with to the front of `out`, in their order: where
/// each begins, how many bytes it has without its CR, its letter, and the index of the record that it is under, from 0
/// for the header, whose own it is. What follows them in `out` stays.
///
/// `OK`; `TOO_SHORT`, and as many are put as there is room for; `NO_RECORD` if the text is empty; `UNFINISHED` if it
/// doesn't begin with a whole message: then `found` has why, as from `lis_reader_finish`, and the places of the records
/// before that one are put. `found` is 0 where there is no fault, and `message` where there is no message.
#[unsafe(no_mangle)]
pub extern "C" fn lis_message_places(
    alloc: Global,
    text: &[u8],
    out: &mut [LisRecordPlace],
    message: &mut LisMessage,
    found: &mut LisFound,
) -> u8
    ensures { IsPlaced text.now result out.old out.new message.new found.new }
{
    clear(found);
    clear_message(message);
    match put_message(alloc, text, out) {
        Ok(None) => status::NO_RECORD,
        Ok(Some(placed)) => {
            report_message(&placed, text, message);
            if placed.count > out.len() {
                status::TOO_SHORT
            } else {
                status::OK
            }
        }
        Err(fault) => {
            refuse(fault, found);
            status::UNFINISHED
        }
    }
}

/// Reports that there is no message.
fn clear_message(message: &mut LisMessage)
    ensures { message.new ≡ no_message }
{
    message.count = 0;
    message.len = 0;
    message.delimiters.field = 0;
    message.delimiters.repeat = 0;
    message.delimiters.component = 0;
    message.delimiters.escape = 0;
}

/// Reports the message that a text begins with.
fn report_message(placed: &Placed<'_>, text: &[u8], message: &mut LisMessage)
    ensures count { message.new.count ≡ placed.now.count }
    ensures len { message.new.len ≡ length text.now - length placed.now.following.now }
    ensures delimiters { delimiters_in message.new.delimiters ≡ placed.now.delimiters }
{
    message.count = placed.count;
    message.len = text.len().saturating_sub(placed.following.len());
    report_delimiters(placed.delimiters, &mut message.delimiters);
}
