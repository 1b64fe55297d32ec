//! Taking events from the lines of an input, as requests.
ghost use Rattle.std.specs.Prelude.{◌≡◌, ◌+◌, ◌<◌, ◌≤◌, ◌++◌, true, false, IsTrue, IfOk, IfErr, OnOk, OnErr, Ok};
ghost use Rattle.std.specs.Io.Buffered.{reader_remaining};
ghost use Rattle.audit_chain.specs.EventData.{EventData};
ghost use Rattle.audit_text.specs.declared.fault.LinesError.TheVariants.{InputTooLong};
ghost use Rattle.audit_wire.specs.Stream.{request_frame};
ghost use Rattle.audit_wire.specs.Request.{IsDaemonRequest};
ghost use Rattle.audit_text.specs.Answers.{GivesLine};
ghost use Rattle.audit_wire_ask.specs.Sending.{line_tag, are_placed, event_request, event_to_send};
ghost use Rattle.audit_wire_ask.specs.Sending.{TakesRound, TakesNext, IsEventFault, IsTakingFault, IsBeyond, HasPlace};

use crate::places::Places;
use audit_chain::Event;
use audit_serve_sockets::{MAX_DIGITS, next_line};
use audit_text::{LineError, LineForm, LinesError, ParseError, event_in_line};
use audit_wire::{MAX_PLACED_PAYLOAD, RequestView, write_request};
use std::alloc::{AllocError, Global};
use std::io::{BufReader, Read};

// A round whose requests have this many bytes takes no further lines. A socket's buffer holds them, the longest event's
// besides: so a client that writes requests and a server that writes answers to earlier ones don't wait for each other.
const FRAMES_ROOM: usize = 1 << 15;

/// The lines that were taken for a round.
#[derive(Clone, Copy)]
pub(crate) struct Taken {
    /// Their number.
    pub count: u64,
    /// Whether the input may have more.
    pub more: bool,
    /// Why the line after them couldn't be taken, if so.
    pub error: Option<LinesError>,
}

/// Takes the next line, and those after it that the buffer already has, up to `window` of them. Their requests replace
/// the frames. The first of them has the number `before` + 1.
pub(crate) fn take_lines<I: Read>(
    alloc: Global,
    places: Places,
    form: LineForm,
    input: &mut BufReader<I>,
    window: u64,
    before: u64,
    line: &mut Vec<u8>,
    frames: &mut Vec<u8>,
) -> Taken
    ensures few { result.count ≤ window }
    ensures some { 0 < window → result.more ≡ true → 0 < result.count }
    ensures fits { before + result.count ≤ u64.MAX }
    ensures taken { TakesRound places form (reader_remaining I.remaining input.old)
        (reader_remaining I.remaining input.new) before frames.new.items result }
{
    frames.clear();
    for count in 0..window {
        if count > 0 && !is_at_hand(input, frames) {
            return Taken {
                count,
                more: true,
                error: None,
            };
        }
        match take_line(alloc, places, form, input, before, count, line, frames) {
            Ok(true) => {}
            Ok(false) => {
                return Taken {
                    count,
                    more: false,
                    error: None,
                };
            }
            Err(error) => {
                return Taken {
                    count,
                    more: false,
                    error: Some(error),
                };
            }
        }
    }
    Taken {
        count: window,
        more: true,
        error: None,
    }
}

// Whether another line can be taken without a read of the input, and the frames have room for it.
fn is_at_hand<I: Read>(input: &BufReader<I>, frames: &[u8]) -> bool {
    frames.len() < FRAMES_ROOM && has_line(input)
}

/// Whether another line can be taken without a read of the input.
pub(crate) fn has_line<I: Read>(input: &BufReader<I>) -> bool {
    input.buffer().iter().any(|byte| *byte == b'\n')
}

// Takes a line, and appends the request of its event to the frames. Returns whether there was one. After an error
// nothing is appended.
fn take_line<I: Read>(
    alloc: Global,
    places: Places,
    form: LineForm,
    input: &mut BufReader<I>,
    before: u64,
    count: u64,
    line: &mut Vec<u8>,
    frames: &mut Vec<u8>,
) -> Result<bool, LinesError>
    ensures fits { result ≡ Ok true → before + count + 1 ≤ u64.MAX }
    ensures taken { IfOk result (TakesNext places form (reader_remaining I.remaining input.old)
        (reader_remaining I.remaining input.new) (before + count) frames.old.items frames.new.items) }
    ensures kept { OnErr result (frames.new.items ≡ frames.old.items) }
    ensures fault { IfErr result (IsTakingFault places form (reader_remaining I.remaining input.old)
        (before + count + 1)) }
{
    if !next_line(input, line)? {
        return Ok(false);
    }
    let earlier = lines_before(places, before, count)?;
    if line.len() > MAX_DIGITS {
        return Err(LinesError::Line {
            line: earlier + 1,
            cause: LineError::PayloadTooLong,
        });
    }
    put_event(alloc, places, form, earlier, line, frames)?;
    Ok(true)
}

// Appends the request for the event in the line after the first `earlier` to the frames.
fn put_event(
    alloc: Global,
    places: Places,
    form: LineForm,
    earlier: u64,
    line: &[u8],
    frames: &mut Vec<u8>,
) -> Result<(), LinesError>
    requires number { earlier < u64.MAX }
    requires place { HasPlace places (earlier + 1) }
    ensures put { OnOk result ((event : EventData) × (event_to_send places form line.now ≡ Ok event)
        × (frames.new.items ≡ frames.old.items ++ request_frame (event_request places earlier event))) }
    ensures kept { OnErr result (frames.new.items ≡ frames.old.items) }
    ensures fault { IfErr result (IsEventFault places form (earlier + 1) line.now) }
{
    let event = match event_to_send(alloc, places, form, line) {
        Ok(event) => event,
        Err(ParseError::Fault(cause)) => {
            return Err(LinesError::Line {
                line: earlier + 1,
                cause,
            });
        }
        Err(ParseError::Memory) => return Err(LinesError::Memory),
    };
    put_request(places, earlier, &event, frames)?;
    Ok(())
}

// Returns the event in a line, if it can be sent: the payload of a placed one is shorter.
fn event_to_send(
    alloc: Global,
    places: Places,
    form: LineForm,
    line: &[u8],
) -> Result<Event, ParseError>
    ensures { GivesLine (λ event. event) result (event_to_send places form line.now) }
{
    let event = event_in_line(alloc, form, line)?;
    if are_placed(places) && event.payload().len() > MAX_PLACED_PAYLOAD {
        return Err(ParseError::Fault(LineError::PayloadTooLong));
    }
    Ok(event)
}

/// Whether events are sent with their places.
pub(crate) fn are_placed(places: Places) -> bool
    ensures { result ≡ are_placed places }
{
    matches!(places, Places::From(_))
}

// Appends the request for an event that `earlier` others precede.
fn put_request(
    places: Places,
    earlier: u64,
    event: &Event,
    frames: &mut Vec<u8>,
) -> Result<(), AllocError>
    requires number { earlier < u64.MAX }
    requires request { IsDaemonRequest (event_request places earlier event.now) }
    ensures put { OnOk result (frames.new.items ≡ frames.old.items
        ++ request_frame (event_request places earlier event.now)) }
    ensures kept { OnErr result (frames.new.items ≡ frames.old.items) }
{
    let tag = line_tag(earlier + 1);
    let (kind, payload) = (event.kind(), event.payload());
    match places {
        Places::Any => write_request(RequestView::Append { tag, kind, payload }, frames),
        Places::From(first) => {
            let request = RequestView::PlacedAppend {
                tag,
                kind,
                place: first + earlier,
                payload,
            };
            write_request(request, frames)
        }
    }
}

// How many lines precede the next one, if that has a number and a place.
fn lines_before(places: Places, before: u64, count: u64) -> Result<u64, LinesError>
    ensures lines { IfOk result (λ lines. (lines ≡ before + count) × (lines < u64.MAX)) }
    ensures place { IfOk result (λ lines. HasPlace places (lines + 1)) }
    ensures fault { IfErr result (λ fault. (fault ≡ InputTooLong) × IsBeyond places (before + count + 1)) }
{
    match before.checked_add(count) {
        Some(lines) if has_place(places, lines) => Ok(lines),
        _ => Err(LinesError::InputTooLong),
    }
}

// Whether the line after as many has a number, and its event a place, that another number follows.
fn has_place(places: Places, lines: u64) -> bool
    ensures number { IsTrue result → lines < u64.MAX }
    ensures place { IsTrue result → HasPlace places (lines + 1) }
    ensures beyond { result ≡ false → IsBeyond places (lines + 1) }
{
    match places {
        Places::Any => lines < u64::MAX,
        Places::From(first) => match first.checked_add(lines) {
            Some(place) => place < u64::MAX,
            None => false,
        },
    }
}

/// The tag of the request for the event of a line: the low 32 bits of its number.
pub(crate) fn line_tag(line: u64) -> u32
    ensures { result ≡ line_tag line }
{
    (line % (1 << 32)) as u32
}
