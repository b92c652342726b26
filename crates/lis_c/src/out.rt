//! Where an answer is put: structs of the caller's, each of one size, so that no length is owed, and a buffer.

ghost use Rattle.std.specs.Prelude.{◌≡◌, ◌≢◌, ◌≤◌, ◌+◌, length};
ghost use Rattle.lis_c.specs.Codes.{fault_code, fault_place};
ghost use Rattle.lis_c.specs.Emitted.{HoldsBytes, HoldsEmitted};
ghost use Rattle.lis_c.specs.Records.{IsCopied};
ghost use Rattle.lis_c.specs.Status.{OK, copy_status};
ghost use Rattle.lis_link.specs.Duties.{emitted_bytes};

use crate::status;
use lis_frame::{FrameFault, frame_bytes_of};
use lis_link::EmitOf;
use lis_text::{ENQ, EOT, NAK};

/// Bytes for the link: the first `len` of `bytes`, at most 247.
#[repr(C)]
#[derive(Drop)]
pub struct LisBytes {
    pub len: usize,
    pub bytes: [u8; 247],
}

/// Puts bytes to the front.
pub(crate) fn put(out: &mut LisBytes, bytes: &[u8])
    requires { length bytes.now ≤ 247 }
    ensures { HoldsBytes out.new bytes.now }
{
    out.bytes[..bytes.len()].copy_from_slice(bytes);
    out.len = bytes.len();
}

#[tactic(auto, using(crate::proofs::EmitLaws::has_no_room, crate::proofs::EmitLaws::has_room))]
/// Puts what an emit is on the link; nothing if it is a frame of more bytes than there is room for.
pub(crate) fn put_emit<const N: usize, const B: usize>(out: &mut LisBytes, emit: &EmitOf<N>)
    requires room { B ≡ N + 7 }
    requires bound { B ≤ 64000 }
    ensures { HoldsEmitted N out.new (emitted_bytes emit.now) }
{
    match emit {
        EmitOf::Nothing => put(out, &[]),
        EmitOf::Enq => put(out, &[ENQ]),
        EmitOf::Eot => put(out, &[EOT]),
        EmitOf::Nak => put(out, &[NAK]),
        EmitOf::Frame(frame) => {
            let bytes = frame_bytes_of::<N, B>(frame);
            if bytes.len() > out.bytes.len() {
                put(out, &[]);
            } else {
                put(out, bytes.as_slice());
            }
        }
    }
}

/// Which text of a session is at fault, and the place in it of the byte that no text may hold; 0 where none is.
#[repr(C)]
#[derive(Drop)]
pub struct LisPlace {
    pub index: usize,
    pub place: usize,
}

/// A signal: 0 none, 1 ENQ, 2 EOT, 3 a frame, 4 bytes that are no frame, 5 a frame whose text has over 240 bytes. A
/// frame has its number, whether it is the last of its message, and, with 3, the first `len` bytes of `text`; with 5
/// `lis_scanner_text` copies the text. Bytes that are invalid have a fault (1 too long, 2 shape, 3 number, 4 text, 5
/// sum) and, where a byte of the text is at fault, its place. All else is 0.
#[repr(C)]
#[derive(Drop)]
pub struct LisSignal {
    pub kind: u8,
    pub number: u8,
    pub last: bool,
    pub fault: u8,
    pub place: usize,
    pub len: usize,
    pub text: [u8; 240],
}

/// What a receiver answers: the reply byte, 0 for none; whether a text was delivered, which `lis_receiver_text`
/// copies; what it meant; the number or the fault that this goes with, and the fault's place.
#[repr(C)]
#[derive(Drop)]
pub struct LisStep {
    pub reply: u8,
    pub has_text: bool,
    pub note: u8,
    pub detail: u8,
    pub place: usize,
}

/// What a station answers: whether it is a step of its receiver; what goes on the link, which is the step's reply, or
/// what the sender emits; and the step, which else is nothing: 0.
#[repr(C)]
#[derive(Drop)]
pub struct LisAnswer {
    pub is_step: bool,
    pub send: LisBytes,
    pub step: LisStep,
}

/// The code of a frame's fault.
pub(crate) fn fault_code(fault: FrameFault) -> u8
    ensures { result ≡ fault_code fault }
{
    match fault {
        FrameFault::TooLong => 1,
        FrameFault::Shape => 2,
        FrameFault::Number => 3,
        FrameFault::Text(_) => 4,
        FrameFault::Sum => 5,
    }
}

/// The place of the byte that no text may hold; 0 for any other fault.
pub(crate) fn fault_place(fault: FrameFault) -> usize
    ensures { result ≡ fault_place fault }
{
    match fault {
        FrameFault::Text(place) => place,
        _ => 0,
    }
}

/// Copies a text to the front of a buffer, and says how many bytes it has: `OK`, or `TOO_SHORT`, and nothing is
/// copied, where it is longer than the buffer.
pub(crate) fn copy_text(text: &[u8], out: &mut [u8], size: &mut usize) -> u8
    ensures status { result ≡ copy_status (length out.old) (length text.now) }
    ensures copied { IsCopied text.now result out.old out.new size.new }
    ensures refused { result ≢ OK → out.new ≡ out.old }
{
    *size = 0;
    if text.len() > out.len() {
        return status::TOO_SHORT;
    }
    out[..text.len()].copy_from_slice(text);
    *size = text.len();
    status::OK
}
