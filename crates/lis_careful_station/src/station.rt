//! A station that hears carefully what is for its receiver.

ghost use Rattle.std.specs.Prelude.{◌≡◌, ◌≢◌, ◌≤◌, ◌<◌, false, length};
ghost use Rattle.lis_link.specs.declared.receiver.Note.TheVariants as Notes;
ghost use Rattle.lis_link.specs.Receiver.{ReceiverState};
ghost use Rattle.lis_link.specs.Representation.{IsIn, SpareAfter, KeepsRoom, room_of};
ghost use Rattle.lis_careful.specs.Careful.{heard_only, on_byte_carefully, on_bytes_carefully};
ghost use Rattle.lis_station.specs.declared.station.AnswerOf.TheVariants.{Hears};
ghost use Rattle.lis_station.specs.Station.{awaits_reply, taken_by};
ghost use Rattle.lis_station.specs.Representation.{station_at, IsAnswer, IsOutOfMemory, IsRefused, KeepsStationRoom};
ghost use Rattle.lis_careful_station.specs.Station.{noise_at, on_station_byte_carefully, on_station_bytes_carefully};
ghost use Rattle.lis_careful_station.specs.inside.Front.{HearsFrontOf, heard_step};

use lis_careful::{CarefulHearing, closes, heard_as, is_altered, noise_of};
use lis_link::{Note, SessionTexts, Step};
use lis_station::{AnswerOf, HearingOf, StationOver};
use lis_text::EOT;

/// What was heard of bytes: how many of them, how much of these was noise, and what the last one meant.
#[derive(Debug, PartialEq, Eq, Drop)]
pub struct CarefulHearingOf<const N: usize> {
    pub count: usize,
    pub noise: usize,
    pub answer: AnswerOf<N>,
}

/// A byte comes, as `StationOver::byte` has it. What is for the receiver is heard carefully: on an open line ENQ ends
/// the session as EOT does, with no reply, and an STX inside an unfinished frame begins none, so that the frame is
/// rejected at its LF. A reply is heard as ever.
///
/// Memory may run out as for `StationOver::byte`; but for the byte heard the state is then as before.
pub fn hear_byte<const N: usize, T: SessionTexts>(
    station: &mut StationOver<N, T>,
    byte: u8,
) -> AnswerOf<N>
    ensures step { (r : ReceiverState) → IsIn N station.old.receiver r → (IsOutOfMemory result → ⊥) →
        IsAnswer N station.old (on_station_byte_carefully N byte (station_at station.old r)) result station.new }
    ensures refused { (r : ReceiverState) → IsIn N station.old.receiver r → IsOutOfMemory result →
        IsRefused N station.old (on_byte_carefully N byte r) (heard_only (on_byte_carefully N byte r) r) result
        station.new }
    ensures spare { (r : ReceiverState) → IsIn N station.old.receiver r →
        SpareAfter station.old.receiver.spare station.new.receiver.spare
        (taken_by (on_station_byte_carefully N byte (station_at station.old r)).answer) }
    ensures room { KeepsStationRoom result station.old.receiver station.new.receiver }
    ensures memory { IsOutOfMemory result → awaits_reply station.old.sender.phase ≡ false }
{
    if station.awaits_reply() {
        return station.byte(byte);
    }
    if closes(station.receiver(), byte) {
        return station.byte(EOT);
    }
    let heard = heard_as(station.receiver(), byte);
    station.byte(heard)
}

/// Bytes come: one of them while a reply is awaited, else those up to the first that is not quiet to the receiver, or
/// all of them, each heard as `hear_byte` hears it. Answers how many they are, the noise among them, and what the last
/// one meant.
///
/// Memory may run out as for `StationOver::byte`; but for the bytes heard the state is then as before.
pub fn hear_bytes<const N: usize, T: SessionTexts>(
    station: &mut StationOver<N, T>,
    bytes: &[u8],
) -> CarefulHearingOf<N>
    ensures count { (r : ReceiverState) → IsIn N station.old.receiver r →
        result.count ≡ (on_station_bytes_carefully N bytes.now (station_at station.old r)).count }
    ensures noise { (r : ReceiverState) → IsIn N station.old.receiver r →
        result.noise ≡ noise_at N bytes.now (station_at station.old r) }
    ensures step { (r : ReceiverState) → IsIn N station.old.receiver r → (IsOutOfMemory result.answer → ⊥) →
        IsAnswer N station.old (on_station_bytes_carefully N bytes.now (station_at station.old r)).step result.answer
        station.new }
    ensures refused { (r : ReceiverState) → IsIn N station.old.receiver r → IsOutOfMemory result.answer →
        IsRefused N station.old (on_bytes_carefully N bytes.now r).step
        (heard_only (on_bytes_carefully N bytes.now r).step r) result.answer station.new }
    ensures spare { (r : ReceiverState) → IsIn N station.old.receiver r →
        SpareAfter station.old.receiver.spare station.new.receiver.spare
        (taken_by (on_station_bytes_carefully N bytes.now (station_at station.old r)).step.answer) }
    ensures room { KeepsStationRoom result.answer station.old.receiver station.new.receiver }

    // What is reported without a state: some bytes are heard.
    ensures bound { result.count ≤ length bytes.now }
    ensures some { 0 < length bytes.now → 0 < result.count }
    ensures few { result.noise ≤ result.count }
    ensures memory { IsOutOfMemory result.answer → awaits_reply station.old.sender.phase ≡ false }
{
    if station.awaits_reply() {
        let HearingOf { count, answer } = station.bytes(bytes);
        return CarefulHearingOf {
            count,
            noise: 0,
            answer,
        };
    }
    let CarefulHearing { count, noise, step } = hear_receiving(station, bytes);
    CarefulHearingOf {
        count,
        noise,
        answer: AnswerOf::Hears(step),
    }
}

/// Bytes come while no reply is awaited, so that the receiver hears them: `hear_bytes`, with the receiver's step.
pub fn hear_receiving<const N: usize, T: SessionTexts>(
    station: &mut StationOver<N, T>,
    bytes: &[u8],
) -> CarefulHearing
    requires { awaits_reply station.old.sender.phase ≡ false }
    ensures count { (r : ReceiverState) → IsIn N station.old.receiver r →
        result.count ≡ (on_station_bytes_carefully N bytes.now (station_at station.old r)).count }
    ensures noise { (r : ReceiverState) → IsIn N station.old.receiver r →
        result.noise ≡ noise_at N bytes.now (station_at station.old r) }
    ensures step { (r : ReceiverState) → IsIn N station.old.receiver r → result.step.note ≢ Notes.OutOfMemory →
        IsAnswer N station.old (on_station_bytes_carefully N bytes.now (station_at station.old r)).step
        (Hears result.step) station.new }
    ensures refused { (r : ReceiverState) → IsIn N station.old.receiver r → result.step.note ≡ Notes.OutOfMemory →
        IsRefused N station.old (on_bytes_carefully N bytes.now r).step
        (heard_only (on_bytes_carefully N bytes.now r).step r) (Hears result.step) station.new }
    ensures spare { (r : ReceiverState) → IsIn N station.old.receiver r →
        SpareAfter station.old.receiver.spare station.new.receiver.spare
        (taken_by (on_station_bytes_carefully N bytes.now (station_at station.old r)).step.answer) }
    ensures room { KeepsRoom result.step.note result.step.message (room_of station.old.receiver)
        (room_of station.new.receiver) }

    // What is reported without a state: some bytes are heard.
    ensures bound { result.count ≤ length bytes.now }
    ensures some { 0 < length bytes.now → 0 < result.count }
    ensures few { result.noise ≤ result.count }
{
    let mut count = 0;
    let mut noise = 0;
    while count < bytes.len() {
        let CarefulHearing {
            count: more,
            noise: louder,
            step,
        } = hear_front(station, &bytes[count..]);
        count += more;
        noise += louder;
        match step.note {
            Note::Quiet => {}
            _ => return CarefulHearing { count, noise, step },
        }
    }
    CarefulHearing {
        count,
        noise,
        step: Step {
            reply: None,
            message: None,
            note: Note::Quiet,
        },
    }
}

/// The receiver hears the front of bytes, in which none but the first byte may be heard as another: that byte alone if
/// it is, or all that it hears at once.
#[inline(always)]
fn hear_front<const N: usize, T: SessionTexts>(
    station: &mut StationOver<N, T>,
    bytes: &[u8],
) -> CarefulHearing
    requires { 0 < length bytes.now }
    ensures some { 0 < result.count }
    ensures bound { result.count ≤ length bytes.now }
    ensures few { result.noise ≤ result.count }
    ensures front { (r : ReceiverState) → IsIn N station.old.receiver r →
        awaits_reply station.old.sender.phase ≡ false →
        HearsFrontOf N (on_byte_carefully N) bytes.now r station.old result station.new }
    ensures room { KeepsRoom result.step.note result.step.message (room_of station.old.receiver)
        (room_of station.new.receiver) }
{
    let byte = bytes[0];
    if is_altered(station.receiver(), byte) {
        let noise = noise_of(station.receiver(), byte);
        return CarefulHearing {
            count: 1,
            noise,
            step: step_of(hear_byte(station, byte)),
        };
    }
    let HearingOf { count, answer } = station.front(bytes);
    CarefulHearing {
        count,
        noise: 0,
        step: step_of(answer),
    }
}

/// The receiver's step.
fn step_of<const N: usize>(answer: AnswerOf<N>) -> Step
    ensures { result ≡ heard_step answer.entry }
{
    match answer {
        AnswerOf::Hears(step) => step,
        AnswerOf::Emits(_) => Step {
            reply: None,
            message: None,
            note: Note::Quiet,
        },
    }
}
