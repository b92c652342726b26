//! A receiver that hears carefully: an ENQ that damage made of another byte acknowledges nothing.

ghost use Rattle.std.specs.Prelude.{◌≡◌, ◌≢◌, ◌≤◌, ◌<◌, length};
ghost use Rattle.lis_frame.specs.Stream.{open_body};
ghost use Rattle.lis_link.specs.declared.receiver.Note.TheVariants as Notes;
ghost use Rattle.lis_link.specs.Receiver.{ReceiverState};
ghost use Rattle.lis_link.specs.Representation.{IsIn, IsStepMade, RefusesFrame, SpareAfter, KeepsRoom, room_of};
ghost use Rattle.lis_careful.specs.Careful.{begins_within, ends_session, heard_as, heard_only};
ghost use Rattle.lis_careful.specs.Careful.{is_altered, is_noise, noise_in, noise_of, on_byte_carefully};
ghost use Rattle.lis_careful.specs.Careful.{on_bytes_carefully};
ghost use Rattle.lis_careful.specs.inside.Hearing.{HearsFront, IsHeard};

use lis_link::{Hearing, Note, ReceiverOf, Step};
use lis_text::{ENQ, EOT, LF, STX};

/// Data link escape, which no frame may hold.
pub(crate) const DLE: u8 = 0x10;

/// What was heard of bytes: how many of them, how much of these was noise, and the step of the last one.
#[derive(Debug, PartialEq, Eq, Drop)]
pub struct CarefulHearing {
    pub count: usize,
    pub noise: usize,
    pub step: Step,
}

/// A receiver hears one byte as `ReceiverOf::byte` has it, but that one damaged byte of a frame acknowledges nothing:
/// while the line is open ENQ ends the session as EOT does, with no reply, and an STX inside an unfinished frame begins
/// none, so that the frame is rejected at its LF.
///
/// Memory may run out as for `ReceiverOf::byte`; but for the byte heard the state is then as before.
pub fn hear_byte<const N: usize>(receiver: &mut ReceiverOf<N>, byte: u8) -> Step
    ensures step { (r : ReceiverState) → IsIn N receiver.old r → result.note ≢ Notes.OutOfMemory →
        IsStepMade N (on_byte_carefully N byte r) result receiver.new }
    ensures refused { (r : ReceiverState) → IsIn N receiver.old r → result.note ≡ Notes.OutOfMemory →
        RefusesFrame N receiver.old.spare (on_byte_carefully N byte r) (heard_only (on_byte_carefully N byte r) r)
        result receiver.new }
    ensures spare { (r : ReceiverState) → IsIn N receiver.old r
        → SpareAfter receiver.old.spare receiver.new.spare (on_byte_carefully N byte r).taken }
    ensures room { KeepsRoom result.note result.message (room_of receiver.old) (room_of receiver.new) }
{
    if closes(receiver, byte) {
        return receiver.byte(EOT);
    }
    let heard = heard_as(receiver, byte);
    receiver.byte(heard)
}

/// A receiver hears bytes as `ReceiverOf::bytes` has it, each as `hear_byte` hears it: those up to the first that is
/// not quiet, or all of them where each is quiet; and counts the noise among them.
///
/// Memory may run out as for `ReceiverOf::byte`; but for the bytes heard the state is then as before.
pub fn hear_bytes<const N: usize>(receiver: &mut ReceiverOf<N>, bytes: &[u8]) -> CarefulHearing
    ensures count { (r : ReceiverState) → IsIn N receiver.old r →
        result.count ≡ (on_bytes_carefully N bytes.now r).count }
    ensures noise { (r : ReceiverState) → IsIn N receiver.old r → result.noise ≡ noise_in N bytes.now r }
    ensures step { (r : ReceiverState) → IsIn N receiver.old r → result.step.note ≢ Notes.OutOfMemory →
        IsStepMade N (on_bytes_carefully N bytes.now r).step result.step receiver.new }
    ensures refused { (r : ReceiverState) → IsIn N receiver.old r → result.step.note ≡ Notes.OutOfMemory →
        RefusesFrame N receiver.old.spare (on_bytes_carefully N bytes.now r).step
        (heard_only (on_bytes_carefully N bytes.now r).step r) result.step receiver.new }
    ensures spare { (r : ReceiverState) → IsIn N receiver.old r →
        SpareAfter receiver.old.spare receiver.new.spare (on_bytes_carefully N bytes.now r).step.taken }
    ensures room { KeepsRoom result.step.note result.step.message (room_of receiver.old) (room_of receiver.new) }

    // What is reported without a state: some bytes are heard, and all of them where the step is quiet.
    ensures bound { result.count ≤ length bytes.now }
    ensures some { 0 < length bytes.now → 0 < result.count }
    ensures all { result.step.note ≡ Notes.Quiet → result.count ≡ length bytes.now }
    ensures few { result.noise ≤ result.count }
{
    if bytes.is_empty() {
        return hear_following(receiver, bytes);
    }
    // Most often the first front means something: a byte or a whole frame.
    let CarefulHearing { count, noise, step } = hear_front(receiver, bytes);
    match step.note {
        Note::Quiet => {
            let CarefulHearing {
                count: more,
                noise: louder,
                step,
            } = hear_following(receiver, &bytes[count..]);
            CarefulHearing {
                count: count + more,
                noise: noise + louder,
                step,
            }
        }
        _ => CarefulHearing { count, noise, step },
    }
}

/// Hears the bytes that follow the first front.
// Room for what `hear_fronts` answers is made here, and not before the first front.
#[inline(always)]
fn hear_following<const N: usize>(receiver: &mut ReceiverOf<N>, bytes: &[u8]) -> CarefulHearing
    ensures heard { (r : ReceiverState) → IsIn N receiver.old r →
        IsHeard N (on_byte_carefully N) bytes.now r receiver.old.spare result receiver.new }
    ensures room { KeepsRoom result.step.note result.step.message (room_of receiver.old) (room_of receiver.new) }
    ensures bound { result.count ≤ length bytes.now }
    ensures some { 0 < length bytes.now → 0 < result.count }
    ensures all { result.step.note ≡ Notes.Quiet → result.count ≡ length bytes.now }
    ensures few { result.noise ≤ result.count }
{
    let CarefulHearing { count, noise, step } = hear_fronts(receiver, bytes);
    CarefulHearing { count, noise, step }
}

/// Hears bytes, one front after another.
// Within its caller it would take the registers that one front needs.
#[inline(never)]
fn hear_fronts<const N: usize>(receiver: &mut ReceiverOf<N>, bytes: &[u8]) -> CarefulHearing
    ensures heard { (r : ReceiverState) → IsIn N receiver.old r →
        IsHeard N (on_byte_carefully N) bytes.now r receiver.old.spare result receiver.new }
    ensures room { KeepsRoom result.step.note result.step.message (room_of receiver.old) (room_of receiver.new) }
    ensures bound { result.count ≤ length bytes.now }
    ensures some { 0 < length bytes.now → 0 < result.count }
    ensures all { result.step.note ≡ Notes.Quiet → result.count ≡ length bytes.now }
    ensures few { result.noise ≤ result.count }
{
    let mut count = 0;
    let mut noise = 0;
    while count < bytes.len() {
        let CarefulHearing {
            count: more,
            noise: louder,
            step,
        } = hear_front(receiver, &bytes[count..]);
        count += more;
        noise += louder;
        match step.note {
            Note::Quiet => {}
            _ => return CarefulHearing { count, noise, step },
        }
    }
    CarefulHearing {
        count,
        noise,
        step: Step {
            reply: None,
            message: None,
            note: Note::Quiet,
        },
    }
}

/// Hears the front of bytes, in which none but the first byte may be heard as another: that byte alone if it is, or all
/// that the receiver hears at once.
#[inline(always)]
fn hear_front<const N: usize>(receiver: &mut ReceiverOf<N>, bytes: &[u8]) -> CarefulHearing
    requires { 0 < length bytes.now }
    ensures some { 0 < result.count }
    ensures bound { result.count ≤ length bytes.now }
    ensures few { result.noise ≤ result.count }
    ensures front { (r : ReceiverState) → IsIn N receiver.old r →
        HearsFront N (on_byte_carefully N) bytes.now r receiver.old.spare result receiver.new }
    ensures room { KeepsRoom result.step.note result.step.message (room_of receiver.old) (room_of receiver.new) }
{
    let byte = bytes[0];
    if is_altered(receiver, byte) {
        let noise = noise_of(receiver, byte);
        return CarefulHearing {
            count: 1,
            noise,
            step: hear_byte(receiver, byte),
        };
    }
    let Hearing { count, step } = receiver.front(bytes);
    CarefulHearing {
        count,
        noise: 0,
        step,
    }
}

/// How much noise this byte is: on an open line an ENQ, or an STX inside an unfinished frame, is 1.
pub fn noise_of<const N: usize>(receiver: &ReceiverOf<N>, byte: u8) -> usize
    ensures count { (r : ReceiverState) → IsIn N receiver.now r → result ≡ noise_of (is_noise r byte) }
    ensures few { result ≤ 1 }
{
    if receiver.is_open() && (byte == ENQ || begins_within(receiver, byte)) {
        1
    } else {
        0
    }
}

/// Whether this byte is heard as another one, or leaves less of the stream.
pub fn is_altered<const N: usize>(receiver: &ReceiverOf<N>, byte: u8) -> bool
    ensures { (r : ReceiverState) → IsIn N receiver.now r → result ≡ is_altered r byte }
{
    match byte {
        STX => begins_within(receiver, byte),
        ENQ | EOT => receiver.is_open(),
        _ => false,
    }
}

/// Whether this byte ends the session.
pub fn closes<const N: usize>(receiver: &ReceiverOf<N>, byte: u8) -> bool
    ensures { (r : ReceiverState) → IsIn N receiver.now r → result ≡ ends_session r byte }
{
    receiver.is_open() && (byte == ENQ || byte == EOT)
}

/// What this byte is heard as, if it doesn't end the session.
pub fn heard_as<const N: usize>(receiver: &ReceiverOf<N>, byte: u8) -> u8
    ensures { (r : ReceiverState) → IsIn N receiver.now r → result ≡ heard_as (open_body r.past) byte }
{
    if begins_within(receiver, byte) {
        DLE
    } else {
        byte
    }
}

/// Whether this byte is an STX within a frame: where LF comes next, a frame body ends.
fn begins_within<const N: usize>(receiver: &ReceiverOf<N>, byte: u8) -> bool
    ensures { (r : ReceiverState) → IsIn N receiver.now r → result ≡ begins_within (open_body r.past) byte }
{
    match byte {
        STX => receiver.scanner().peek(LF).is_some(),
        _ => false,
    }
}
