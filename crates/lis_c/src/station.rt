//! A station for programs in C: a sender and a receiver on one line.

ghost use Rattle.std.specs.Prelude.{◌≡◌, ◌≢◌, ◌≤◌, ◌<◌, ◌⊎◌, ◌∷◌, ◌++◌, [], MatchResult, Some, drop, false, length};
ghost use Rattle.std.specs.Prelude.{max, take};
ghost use Rattle.lis_c.specs.declared.station_state.StationHandleState.{StationHandleState};
ghost use Rattle.lis_c.specs.Borrowed.{borrowed_bytes};
ghost use Rattle.lis_c.specs.Careful.{counted, heard_set, on_own_byte, on_own_bytes, on_station_byte_set};
ghost use Rattle.lis_c.specs.Careful.{on_station_bytes_set, station_noise_set, station_noises_set};
ghost use Rattle.lis_c.specs.Codes.{outcome_code, phase_code};
ghost use Rattle.lis_c.specs.Emitted.{FrameCopied, HoldsBytes};
ghost use Rattle.lis_c.specs.New.{IsNewStation, type_align};
ghost use Rattle.lis_c.specs.Stations.{BeginStatus, HasReserved, Hears, IsNow, MakesAnswer, NewStation};
ghost use Rattle.lis_c.specs.Stations.{RejectsForMemory, SecondsReported, station_borrowed_status};
ghost use Rattle.lis_c.specs.Stations.{StartsSession, role_code, seconds_code, state_of, station_kept, station_limit};
ghost use Rattle.lis_c.specs.Stations.{station_spare, station_start_index, station_start_place, station_start_status};
ghost use Rattle.lis_c.specs.Status.{AddTextStatus, FULL, OK, OUT_OF_MEMORY, ReserveStatus, copy_status};
ghost use Rattle.lis_c.specs.Steps.{IsNotOutOfMemory, IsOutOfMemory};
ghost use Rattle.lis_c.specs.contracts.station_state.StationHandleState.{the_row as handle_state_row};
ghost use Rattle.lis_link.specs.Receiver.{ReceiverState, held_length};
ghost use Rattle.lis_link.specs.Representation.{SpareAfter};
ghost use Rattle.lis_link.specs.Sender.{awaited, sender_restarted};
ghost use Rattle.lis_station.specs.declared.station.Role.{Role};
ghost use Rattle.lis_station.specs.Station.{awaits_reply, is_requested, line_closed};
ghost use Rattle.lis_station.specs.Station.{on_station_timer, readied, station_fault, station_restarted};
ghost use Rattle.lis_station.specs.Station.{station_seconds};
ghost use Rattle.lis_station.specs.Station.{taken_by, turn_asked_for, turn_seconds};
ghost use Rattle.lis_text.specs.Control.{ENQ};
ghost use Rattle.lis_text.specs.LinkText.{longest_text};
ghost use Rattle.lis_text.specs.Text.{text_fault};
ghost use Rattle.std.specs.Borrow.{sem};
ghost use Rattle.std.specs.Mem.{type_size};
ghost use Rattle.std.specs.Ptr.{room_at};

use crate::borrowed::{CallerTexts, LisText};
use crate::handle_state::add_text;
use crate::out::{LisAnswer, LisBytes, LisPlace, copy_text, put};
use crate::sender::{outcome_code, phase_code};
use crate::station_state::{StationHandleState, release_station};
use crate::stationing::AnyStation;
use crate::status::{self, start_index, start_place, start_status};
use lis_station::{Role, StationFault};
use lis_text::{LONGEST_TEXT, MOST_TEXTS};
use std::alloc::Global;
use std::marker::Model;
use std::mem::{align_of, size_of};

/// A station, held by a pointer that C hands back as it got it.
#[repr(C)]
pub struct LisStation {
    at: *mut u8,
    ghost state: { StationHandleState },
}

impl Model for LisStation {
    ghost use Rattle.std.specs.Borrow.{full_share};
    ghost use Rattle.std.specs.Ptr.{lies_at};
    ghost use Rattle.lis_c.specs.contracts.station_state.StationHandleState.{the_row};

    ghost also_owns = { λ h. lies_at the_row full_share h.at h.state };
}

impl LisStation {
    ghost use Rattle.lis_c.specs.contracts.station_state.StationHandleState.{the_row as handle_state_row};
    ghost use Rattle.lis_c.specs.contracts.station.LisStation.{the_row};
    ghost use Rattle.std.specs.Borrow.{Lends, sem};

    /// What the pointer points to.
    fn borrow(&mut self) -> &mut StationHandleState
        ensures* writes_back { sem 𝓛 (Lends the_row handle_state_row self.entry result
            (λ w. record self.old { state = w })) }
        ensures value { result.now ≡ self.old.state }
    {
        unsafe { &mut *(self.at as *mut StationHandleState) }
    }
}

/// The number of bytes of a station's block.
#[unsafe(no_mangle)]
pub extern "C" fn lis_station_size() -> usize
    ensures { result ≡ type_size handle_state_row }
{
    size_of::<StationHandleState>()
}

/// What the address of a station's block is a multiple of.
#[unsafe(no_mangle)]
pub extern "C" fn lis_station_align() -> usize
    ensures { result ≡ type_align handle_state_row }
{
    align_of::<StationHandleState>()
}

/// Makes a computer's station of the usual limit in a block of the caller's.
#[unsafe(no_mangle)]
pub unsafe extern "C" fn lis_station_init(alloc: Global, at: *mut u8)
    requires* { sem 𝓛 (room_at handle_state_row at) }
    ensures* { sem 𝓛 (IsNewStation at) }
{
    (at as *mut StationHandleState).write(StationHandleState::new(alloc));
}

/// Sets the role, 0 for the analyzer or 1 for the computer, and how long the text of a frame may be, 240 bytes or
/// 63,993, and makes the station new, without a text; it hears carefully if it did. `OK`; `BAD_NUMBER` if it is another
/// role or limit; `OUT_OF_MEMORY`. Nothing has changed unless it is `OK`. Only the long limit takes memory.
#[unsafe(no_mangle)]
pub extern "C" fn lis_station_begin(alloc: Global, s: &mut LisStation, role: u8, limit: usize) -> u8
    ensures status { BeginStatus result role limit }
    ensures begun { (known : Role) → role ≡ role_code known → result ≡ OK →
        NewStation known limit s.new.state.station × (s.new.state.texts ≡ []) × (s.new.state.text ≡ [])
        × (s.new.state.reserved ≡ 0) × (s.new.state.noise ≡ 0) }
    ensures refused { result ≢ OK → s.new.state ≡ s.old.state }
    ensures careful { s.new.state.careful ≡ s.old.state.careful }
{
    let role = match role {
        0 => Role::Analyzer,
        1 => Role::Computer,
        _ => return status::BAD_NUMBER,
    };
    let station = match limit {
        240 => AnyStation::usual(alloc, role),
        63_993 => match AnyStation::long(alloc, role) {
            Ok(station) => station,
            Err(_) => return status::OUT_OF_MEMORY,
        },
        _ => return status::BAD_NUMBER,
    };
    let handle_state = s.borrow();
    let careful = handle_state.careful;
    *handle_state = StationHandleState::over(alloc, station);
    handle_state.careful = careful;
    status::OK
}

/// Puts a copy of a text to the next session, as `lis_sender_add_text`.
#[unsafe(no_mangle)]
pub extern "C" fn lis_station_add_text(s: &mut LisStation, text: &[u8]) -> u8
    ensures added { result ≡ OK →
        s.new.state ≡ record s.old.state { texts = s.old.state.texts ++ text.now ∷ [] } }
    ensures refused { result ≢ OK → s.new.state ≡ s.old.state }
    ensures status { AddTextStatus result (length s.old.state.texts) (text_fault longest_text text.now) }
{
    let handle_state = s.borrow();
    add_text(&mut handle_state.texts, handle_state.alloc, text)
}

/// Releases the texts that were put to the next session; one that goes on is not touched.
#[unsafe(no_mangle)]
pub extern "C" fn lis_station_clear(s: &mut LisStation)
    ensures { s.new.state ≡ record s.old.state { texts = [] } }
{
    s.borrow().clear();
}

/// Asks for the line, to send the texts that were put (LIS01-A2, 6.3): `OK`, and ENQ goes on the link; `LINE_OPEN` if
/// the other side has the line; else as `lis_sender_start`. Where it isn't `OK` nothing has changed, the texts stay,
/// and nothing is put to `out`.
#[unsafe(no_mangle)]
pub extern "C" fn lis_station_start(
    s: &mut LisStation,
    out: &mut LisBytes,
    fault: &mut LisPlace,
) -> u8
    ensures status { (r : ReceiverState) → Hears s.old.state.station r →
        result ≡ station_start_status (station_fault (state_of s.old.state.station r) s.old.state.texts) }
    ensures index { (r : ReceiverState) → Hears s.old.state.station r →
        fault.new.index ≡ station_start_index (station_fault (state_of s.old.state.station r) s.old.state.texts) }
    ensures place { (r : ReceiverState) → Hears s.old.state.station r →
        fault.new.place ≡ station_start_place (station_fault (state_of s.old.state.station r) s.old.state.texts) }
    ensures emit { result ≡ OK → HoldsBytes out.new (ENQ ∷ []) }
    ensures started { (r : ReceiverState) → Hears s.old.state.station r → result ≡ OK →
        StartsSession s.old.state.texts s.old.state.station s.new.state.station
        × (s.new.state ≡ record s.old.state { station = s.new.state.station; texts = [] }) }
    ensures refused { (r : ReceiverState) → Hears s.old.state.station r → result ≢ OK →
        (out.new ≡ out.old) × (s.new.state ≡ s.old.state) }
{
    report_start(s.borrow().start(), out, fault)
}

/// Asks for the line, to send texts that stay with the caller (LIS01-A2, 6.3), and takes no memory: `OK`, and ENQ goes
/// on the link; else `FULL` where there are more than 65,536, or as `lis_station_start`. Where it isn't `OK` nothing
/// has changed, and nothing is put to `out`. The texts that were put to the next session stay.
///
/// The array and the texts stay as they are, as for `lis_sender_start_lent`.
#[unsafe(no_mangle)]
pub extern "C" fn lis_station_start_lent(
    s: &mut LisStation,
    texts: &'static [LisText],
    out: &mut LisBytes,
    fault: &mut LisPlace,
) -> u8
    ensures status { (r : ReceiverState) → Hears s.old.state.station r → result ≡ station_borrowed_status texts.now
        (station_fault (state_of s.old.state.station r) (borrowed_bytes texts.now)) }
    ensures index { (r : ReceiverState) → Hears s.old.state.station r → result ≢ FULL → fault.new.index
        ≡ station_start_index (station_fault (state_of s.old.state.station r) (borrowed_bytes texts.now)) }
    ensures place { (r : ReceiverState) → Hears s.old.state.station r → result ≢ FULL → fault.new.place
        ≡ station_start_place (station_fault (state_of s.old.state.station r) (borrowed_bytes texts.now)) }
    ensures full { result ≡ FULL → (fault.new.index ≡ 0) × (fault.new.place ≡ 0) }
    ensures emit { result ≡ OK → HoldsBytes out.new (ENQ ∷ []) }
    ensures started { (r : ReceiverState) → Hears s.old.state.station r → result ≡ OK →
        StartsSession (borrowed_bytes texts.now) s.old.state.station s.new.state.station
        × (s.new.state ≡ record s.old.state { station = s.new.state.station }) }
    ensures refused { (r : ReceiverState) → Hears s.old.state.station r → result ≢ OK →
        (out.new ≡ out.old) × (s.new.state ≡ s.old.state) }
{
    if texts.len() > MOST_TEXTS {
        fault.index = 0;
        fault.place = 0;
        return status::FULL;
    }
    report_start(
        s.borrow().start_borrowed(CallerTexts::new(texts)),
        out,
        fault,
    )
}

/// Says how a start went, and puts what goes on the link.
fn report_start(start: Result<(), StationFault>, out: &mut LisBytes, place: &mut LisPlace) -> u8
    ensures { MatchResult start
        (λ unit. (result ≡ OK) × HoldsBytes out.new (ENQ ∷ []) × (place.new.index ≡ 0) × (place.new.place ≡ 0))
        (λ fault. (result ≡ station_start_status (Some fault)) × (out.new ≡ out.old)
        × (place.new.index ≡ station_start_index (Some fault))
        × (place.new.place ≡ station_start_place (Some fault))) }
{
    place.index = 0;
    place.place = 0;
    match start {
        Ok(()) => {
            put(out, &[lis_text::ENQ]);
            status::OK
        }
        Err(StationFault::LineOpen) => status::LINE_OPEN,
        Err(StationFault::Start(fault)) => {
            place.index = start_index(fault);
            place.place = start_place(fault);
            start_status(fault)
        }
    }
}

/// A byte comes. While the sender awaits a reply it is one, else the receiver hears it; EOT in reply to a frame is
/// given to the sender as NAK. Only where a frame would be accepted whose text is longer than the spare room may memory
/// run out, note 11; the frame is then answered NAK and not taken.
#[unsafe(no_mangle)]
pub extern "C" fn lis_station_byte(s: &mut LisStation, byte: u8, out: &mut LisAnswer)
    ensures step { (r : ReceiverState) → Hears s.old.state.station r → IsNotOutOfMemory out.new.step → MakesAnswer
        (on_station_byte_set (station_limit s.old.state.station) s.old.state.careful byte
        (state_of s.old.state.station r))
        s.old.state out.new s.new.state }
    ensures refused { (r : ReceiverState) → Hears s.old.state.station r → IsOutOfMemory out.new.step →
        RejectsForMemory (on_own_byte s.old.state.careful (station_limit s.old.state.station) byte r)
        (heard_set s.old.state.careful (on_own_byte s.old.state.careful (station_limit s.old.state.station) byte r)
        (byte ∷ []) r) s.old.state out.new s.new.state }
    ensures spare { (r : ReceiverState) → Hears s.old.state.station r →
        SpareAfter (station_spare s.old.state.station) (station_spare s.new.state.station) (taken_by
        (on_station_byte_set (station_limit s.old.state.station) s.old.state.careful byte
        (state_of s.old.state.station r)).answer) }
    ensures limit { station_limit s.new.state.station ≡ station_limit s.old.state.station }
    ensures texts { s.new.state.texts ≡ s.old.state.texts }
    ensures lasts { HasReserved out.new.step.has_text s.new.state }
    ensures reserved { s.new.state.reserved ≡ s.old.state.reserved }
    ensures careful { s.new.state.careful ≡ s.old.state.careful }
    ensures noise { (r : ReceiverState) → Hears s.old.state.station r → s.new.state.noise
        ≡ counted s.old.state.noise (station_noise_set s.old.state.careful byte (state_of s.old.state.station r)) }
{
    s.borrow().byte(byte, out);
}

/// Bytes come: hears one of them while a reply is awaited, else those up to the first that means something to the
/// receiver, or all of them; answers how many it heard. `lis_station_byte` is the case of one byte.
#[unsafe(no_mangle)]
pub extern "C" fn lis_station_hear(s: &mut LisStation, bytes: &[u8], out: &mut LisAnswer) -> usize
    ensures count { (r : ReceiverState) → Hears s.old.state.station r → result
        ≡ (on_station_bytes_set (station_limit s.old.state.station) s.old.state.careful bytes.now
        (state_of s.old.state.station r)).count }
    ensures step { (r : ReceiverState) → Hears s.old.state.station r → IsNotOutOfMemory out.new.step → MakesAnswer
        (on_station_bytes_set (station_limit s.old.state.station) s.old.state.careful bytes.now
        (state_of s.old.state.station r)).step
        s.old.state out.new s.new.state }
    ensures refused { (r : ReceiverState) → Hears s.old.state.station r → IsOutOfMemory out.new.step →
        RejectsForMemory (on_own_bytes s.old.state.careful (station_limit s.old.state.station) bytes.now r).step
        (heard_set s.old.state.careful (on_own_bytes s.old.state.careful (station_limit s.old.state.station) bytes.now
        r).step (take result bytes.now) r) s.old.state out.new s.new.state }
    ensures spare { (r : ReceiverState) → Hears s.old.state.station r →
        SpareAfter (station_spare s.old.state.station) (station_spare s.new.state.station) (taken_by
        (on_station_bytes_set (station_limit s.old.state.station) s.old.state.careful bytes.now
        (state_of s.old.state.station r)).step.answer) }
    ensures limit { station_limit s.new.state.station ≡ station_limit s.old.state.station }
    ensures texts { s.new.state.texts ≡ s.old.state.texts }
    ensures lasts { HasReserved out.new.step.has_text s.new.state }
    ensures reserved { s.new.state.reserved ≡ s.old.state.reserved }
    ensures careful { s.new.state.careful ≡ s.old.state.careful }
    ensures noise { (r : ReceiverState) → Hears s.old.state.station r → s.new.state.noise
        ≡ counted s.old.state.noise (station_noises_set (station_limit s.old.state.station) s.old.state.careful
        bytes.now (state_of s.old.state.station r)) }
{
    s.borrow().hear(bytes, out)
}

/// The timer runs out: the receiver's while the other side has the line, else the sender's.
#[unsafe(no_mangle)]
pub extern "C" fn lis_station_timer(s: &mut LisStation, out: &mut LisAnswer)
    ensures step { (r : ReceiverState) → Hears s.old.state.station r → MakesAnswer
        (on_station_timer {limit = station_limit s.old.state.station} (state_of s.old.state.station r))
        s.old.state out.new s.new.state }
    ensures spare { station_spare s.old.state.station ≤ station_spare s.new.state.station }
    ensures limit { station_limit s.new.state.station ≡ station_limit s.old.state.station }
    ensures texts { s.new.state.texts ≡ s.old.state.texts }
    ensures reserved { s.new.state.reserved ≡ s.old.state.reserved }
    ensures hearing { (s.new.state.careful ≡ s.old.state.careful) × (s.new.state.noise ≡ s.old.state.noise) }
{
    s.borrow().timer(out);
}

/// Whether a timer runs, and its seconds; 0 too if it is over at once.
#[unsafe(no_mangle)]
pub extern "C" fn lis_station_timer_seconds(s: &mut LisStation, seconds: &mut u32) -> bool
    ensures value { (r : ReceiverState) → Hears s.old.state.station r →
        SecondsReported (station_seconds (state_of s.old.state.station r)) result seconds.new }
    ensures same { s.new.state ≡ s.old.state }
{
    match s.borrow().station.timer_seconds() {
        None => {
            *seconds = 0;
            false
        }
        Some(count) => {
            *seconds = count;
            true
        }
    }
}

/// Copies the frame that was sent and awaits its reply, as `lis_sender_frame`.
#[unsafe(no_mangle)]
pub extern "C" fn lis_station_frame(s: &mut LisStation, out: &mut [u8], size: &mut usize) -> u8
    ensures copied { FrameCopied (awaited (station_kept s.old.state.station).sender) result out.old out.new size.new }
    ensures same { s.new.state ≡ s.old.state }
{
    s.borrow().station.copy_frame(out, size)
}

/// The own session, if one goes on, is given up; nothing goes on the link.
#[unsafe(no_mangle)]
pub extern "C" fn lis_station_give_up(s: &mut LisStation)
    ensures station { station_kept s.new.state.station ≡ record (station_kept s.old.state.station) {
      sender = sender_restarted (station_kept s.old.state.station).sender;
    } }
    ensures limit { station_limit s.new.state.station ≡ station_limit s.old.state.station }
    ensures same { s.new.state ≡ record s.old.state { station = s.new.state.station } }
{
    s.borrow().station.give_up();
}

/// The receiver is restarted: what the other side sends is not taken until it asks for the line again. The text that
/// was delivered last stays.
#[unsafe(no_mangle)]
pub extern "C" fn lis_station_close_line(s: &mut LisStation)
    ensures state { (r : ReceiverState) → Hears s.old.state.station r →
        IsNow s.new.state.station (line_closed (state_of s.old.state.station r)) }
    ensures spare { station_spare s.old.state.station ≤ station_spare s.new.state.station }
    ensures limit { station_limit s.new.state.station ≡ station_limit s.old.state.station }
    ensures same { s.new.state ≡ record s.old.state { station = s.new.state.station } }
{
    s.borrow().station.close_line();
}

/// Both ends are restarted, and nobody waits for a turn; texts stay.
#[unsafe(no_mangle)]
pub extern "C" fn lis_station_restart(s: &mut LisStation)
    ensures state { (r : ReceiverState) → Hears s.old.state.station r →
        IsNow s.new.state.station (station_restarted (state_of s.old.state.station r)) }
    ensures spare { station_spare s.old.state.station ≤ station_spare s.new.state.station }
    ensures limit { station_limit s.new.state.station ≡ station_limit s.old.state.station }
    ensures same { s.new.state ≡ record s.old.state { station = s.new.state.station } }
{
    s.borrow().station.restart();
}

/// Whether the other side gets the line from now on, by ACK to its ENQ, or NAK.
#[unsafe(no_mangle)]
pub extern "C" fn lis_station_set_ready(s: &mut LisStation, ready: bool)
    ensures state { (r : ReceiverState) → Hears s.old.state.station r →
        IsNow s.new.state.station (readied ready (state_of s.old.state.station r)) }
    ensures spare { station_spare s.new.state.station ≡ station_spare s.old.state.station }
    ensures limit { station_limit s.new.state.station ≡ station_limit s.old.state.station }
    ensures same { s.new.state ≡ record s.old.state { station = s.new.state.station } }
{
    s.borrow().station.set_ready(ready);
}

/// Asks for this side's turn, while the other side has the line: the next frame that is accepted in its session is
/// answered EOT in place of ACK (LIS01-A2, 6.5).
#[unsafe(no_mangle)]
pub extern "C" fn lis_station_ask_turn(s: &mut LisStation)
    ensures state { (r : ReceiverState) → Hears s.old.state.station r →
        IsNow s.new.state.station (turn_asked_for (state_of s.old.state.station r)) }
    ensures spare { station_spare s.new.state.station ≡ station_spare s.old.state.station }
    ensures limit { station_limit s.new.state.station ≡ station_limit s.old.state.station }
    ensures same { s.new.state ≡ record s.old.state { station = s.new.state.station } }
{
    s.borrow().station.ask_turn();
}

/// Whether the other side has asked for its turn by EOT in place of ACK, in this side's last session, and has not had
/// it since.
#[unsafe(no_mangle)]
pub extern "C" fn lis_station_turn_asked(s: &mut LisStation) -> bool
    ensures value { result ≡ is_requested (station_kept s.old.state.station).turn }
    ensures same { s.new.state ≡ s.old.state }
{
    s.borrow().station.turn_asked()
}

/// The seconds for which this side leaves the line to the other one before it starts its next session; 0 if that
/// doesn't wait for its turn.
#[unsafe(no_mangle)]
pub extern "C" fn lis_station_turn_seconds(s: &mut LisStation) -> u32
    ensures value { result ≡ seconds_code (turn_seconds (station_kept s.old.state.station).turn) }
    ensures same { s.new.state ≡ s.old.state }
{
    s.borrow().station.turn_seconds().unwrap_or(0)
}

/// Whether the station hears carefully from now on what is for its receiver, as `lis_receiver_set_careful`. A reply is
/// heard as ever.
#[unsafe(no_mangle)]
pub extern "C" fn lis_station_set_careful(s: &mut LisStation, careful: bool)
    ensures { s.new.state ≡ record s.old.state { careful = careful } }
{
    s.borrow().careful = careful;
}

/// How much noise was heard carefully since the station was new, as `lis_receiver_noise`.
#[unsafe(no_mangle)]
pub extern "C" fn lis_station_noise(s: &mut LisStation) -> u64
    ensures value { result ≡ s.old.state.noise }
    ensures same { s.new.state ≡ s.old.state }
{
    s.borrow().noise
}

/// Whether a byte that comes is a reply: the sender awaits one. Else the receiver hears it.
#[unsafe(no_mangle)]
pub extern "C" fn lis_station_awaits_reply(s: &mut LisStation) -> bool
    ensures value { result ≡ awaits_reply (station_kept s.old.state.station).sender.phase }
    ensures same { s.new.state ≡ s.old.state }
{
    s.borrow().station.awaits_reply()
}

/// Makes room for `bytes` more bytes of held text that lasts, as `lis_receiver_reserve`.
#[unsafe(no_mangle)]
pub extern "C" fn lis_station_reserve(s: &mut LisStation, bytes: u64) -> u8
    ensures status { ReserveStatus result bytes }
    ensures spare { result ≡ OK → bytes ≤ station_spare s.new.state.station }
    ensures exact { result ≡ OK → station_spare s.new.state.station ≡ max (station_spare s.old.state.station) bytes }
    ensures kept { station_spare s.old.state.station ≤ station_spare s.new.state.station }
    ensures refused { result ≡ OUT_OF_MEMORY →
        (station_spare s.old.state.station < bytes) ⊎ (s.old.state.beside < bytes) }
    ensures same { result ≢ OK → station_kept s.new.state.station ≡ station_kept s.old.state.station }
    ensures state { (r : ReceiverState) → Hears s.old.state.station r →
        IsNow s.new.state.station (state_of s.old.state.station r) }
    ensures limit { station_limit s.new.state.station ≡ station_limit s.old.state.station }
    ensures lasts { result ≡ OK → (s.new.state.reserved ≡ bytes) × (s.new.state.lacks_room ≡ false) }
    ensures unlasting { result ≢ OK → s.new.state.reserved ≡ s.old.state.reserved }
    ensures texts { (s.new.state.text ≡ s.old.state.text) × (s.new.state.texts ≡ s.old.state.texts) }
    ensures hearing { (s.new.state.careful ≡ s.old.state.careful) × (s.new.state.noise ≡ s.old.state.noise) }
{
    if bytes > LONGEST_TEXT as u64 {
        return status::TOO_LONG;
    }
    match s.borrow().reserve(bytes) {
        Ok(()) => status::OK,
        Err(_) => status::OUT_OF_MEMORY,
    }
}

/// Where the sender is, by the numbers of `lis_sender_phase`.
#[unsafe(no_mangle)]
pub extern "C" fn lis_station_phase(s: &mut LisStation) -> u8
    ensures value { result ≡ phase_code (station_kept s.old.state.station).sender.phase }
    ensures same { s.new.state ≡ s.old.state }
{
    phase_code(s.borrow().station.phase())
}

/// How the last session of its own ended, by the numbers of `lis_sender_outcome`.
#[unsafe(no_mangle)]
pub extern "C" fn lis_station_outcome(s: &mut LisStation) -> u8
    ensures value { result ≡ outcome_code (station_kept s.old.state.station).sender.outcome }
    ensures same { s.new.state ≡ s.old.state }
{
    outcome_code(s.borrow().station.outcome())
}

/// How many frames of its own session are acknowledged.
#[unsafe(no_mangle)]
pub extern "C" fn lis_station_acknowledged(s: &mut LisStation) -> u64
    ensures value { result ≡ (station_kept s.old.state.station).sender.acknowledged }
    ensures same { s.new.state ≡ s.old.state }
{
    s.borrow().station.acknowledged()
}

/// Whether the other side has the line.
#[unsafe(no_mangle)]
pub extern "C" fn lis_station_is_open(s: &mut LisStation) -> bool
    ensures value { (r : ReceiverState) → Hears s.old.state.station r → result ≡ r.is_open }
    ensures same { s.new.state ≡ s.old.state }
{
    s.borrow().station.is_open()
}

/// How many frames were accepted since the other side last got the line.
#[unsafe(no_mangle)]
pub extern "C" fn lis_station_accepted(s: &mut LisStation) -> u64
    ensures value { (r : ReceiverState) → Hears s.old.state.station r → result ≡ length r.accepted }
    ensures same { s.new.state ≡ s.old.state }
{
    s.borrow().station.accepted()
}

/// How many bytes are held of the text that isn't complete.
#[unsafe(no_mangle)]
pub extern "C" fn lis_station_held(s: &mut LisStation) -> u64
    ensures value { (r : ReceiverState) → Hears s.old.state.station r → result ≡ held_length r }
    ensures same { s.new.state ≡ s.old.state }
{
    s.borrow().station.held()
}

/// The length of the text that was delivered last; 0 before the first.
#[unsafe(no_mangle)]
pub extern "C" fn lis_station_text_len(s: &mut LisStation) -> usize
    ensures value { result ≡ length s.old.state.text }
    ensures same { s.new.state ≡ s.old.state }
{
    s.borrow().text.len()
}

/// Copies the text that was delivered last to the front of a buffer. `TOO_SHORT`, and nothing is copied, where it is
/// longer than the buffer.
#[unsafe(no_mangle)]
pub extern "C" fn lis_station_text(s: &mut LisStation, out: &mut [u8]) -> u8
    ensures status { result ≡ copy_status (length out.old) (length s.old.state.text) }
    ensures copied { result ≡ OK → out.new ≡ s.old.state.text ++ drop (length s.old.state.text) out.old }
    ensures refused { result ≢ OK → out.new ≡ out.old }
    ensures same { s.new.state ≡ s.old.state }
{
    let mut size = 0;
    copy_text(s.borrow().text.as_slice(), out, &mut size)
}

/// Ends a station; its block is the caller's again.
#[unsafe(no_mangle)]
pub extern "C" fn lis_station_end(s: LisStation)
    ensures* { sem 𝓛 (room_at handle_state_row s.at) }
{
    let LisStation { at } = s;
    release_station(unsafe { (at as *mut StationHandleState).read() });
}
