//! The places of events, for which a server may have to be asked.
ghost use Rattle.std.specs.Prelude.{IfOk, IfErr, OnOk, OnErr, Some};
ghost use Rattle.std.specs.Io.Buffered.{reader_remaining};
ghost use Rattle.std.specs.Io.KnownBytes.{Keeps};
ghost use Rattle.audit_wire_ask.specs.EntryKeys.{KeysBreakOnlyIf};
ghost use Rattle.audit_wire_ask.specs.Placing.{GivesPlaces, FailsPlacing, PlacesAndSends, BeginsLog, LogsInPart};
ghost use Rattle.audit_wire_ask.specs.Placing.{LogsAndSends, FailsBegin, FailsLogging};

use crate::answering::print_line;
use crate::asking::newest_commitment;
use crate::entry_key::put_log;
use crate::fallible_write::FallibleWrite;
use crate::fault::ClientError;
use crate::key_lines::KeyLines;
use crate::place_asking::place_of_kind;
use crate::places::Places;
use crate::send_error::SendError;
use crate::sending::{SendEnd, send_events};
use crate::stop_at::StopAt;
use audit_text::LineForm;
use std::alloc::Global;
use std::io::{BufReader, Read, Write};

/// The places that events are given when they are sent.
#[derive(Clone, Copy, Debug, PartialEq, Eq)]
pub enum Placing {
    /// None: each is appended after whatever events the log has.
    Unplaced,
    /// Those from this one on.
    From(u64),
    /// Those from the next one of this kind on, for which the server is asked.
    Next(u32),
}

/// Sends events as [`send_events`] does, at the places that they are given, for which it asks first. Returns these places
/// too. Errors: those of that question, after which no event was sent.
pub fn place_and_send<I: Read, W: FallibleWrite, R: Read, O: FallibleWrite, K: KeyLines>(
    alloc: Global,
    placing: Placing,
    form: LineForm,
    before: u64,
    input: &mut BufReader<I>,
    to: &mut W,
    from: &mut R,
    output: &mut O,
    keys: &mut K,
    window: u64,
    stop_at: StopAt,
) -> Result<(Places, SendEnd), ClientError>
    ensures sends { IfOk result (λ sent. PlacesAndSends placing form before (reader_remaining I.remaining input.old)
        (W.contents to.old) (W.contents to.new) (R.remaining from.old) (O.contents output.old) (O.contents output.new)
        (K.contents keys.old) (K.contents keys.new) sent.0 sent.1) }
    ensures kept { OnErr result (Keeps (K.contents keys.old) (K.contents keys.new)) }
    ensures fault { IfErr result (FailsPlacing (W.contents to.old) (W.contents to.new) (R.remaining from.old)
        (R.remaining from.new) placing) }
{
    let places = places_given(alloc, to, from, placing)?;
    let end = send_events(
        alloc, places, form, before, input, to, from, output, keys, window, stop_at,
    );
    Ok((places, end))
}

/// Asks for the newest commitment, keeps it in a line of `keys`, and then sends events as [`place_and_send`] does. Errors:
/// those of both questions, after which no event was sent; and that the line couldn't be kept, before any was.
pub fn log_and_send<I: Read, W: FallibleWrite, R: Read, O: FallibleWrite, K: KeyLines>(
    alloc: Global,
    placing: Placing,
    form: LineForm,
    before: u64,
    input: &mut BufReader<I>,
    to: &mut W,
    from: &mut R,
    output: &mut O,
    keys: &mut K,
    window: u64,
    stop_at: StopAt,
) -> Result<(Places, SendEnd), SendError>
    ensures sends { IfOk result (λ sent. LogsAndSends placing form before (reader_remaining I.remaining input.old) (W.contents to.old)
        (W.contents to.new) (R.remaining from.old) (O.contents output.old) (O.contents output.new)
        (K.contents keys.old) (K.contents keys.new) sent.0 sent.1) }
    ensures kept { OnErr result (LogsInPart (K.contents keys.old) (K.contents keys.new)) }
    ensures keys_broken { IfErr result (λ error. KeysBreakOnlyIf (K.failed keys.new) (Some error)) }
    ensures fault { IfErr result (FailsLogging (W.contents to.old) (W.contents to.new) (R.remaining from.old)
        (R.remaining from.new) placing) }
{
    begin_log(alloc, to, from, keys)?;
    match place_and_send(
        alloc, placing, form, before, input, to, from, output, keys, window, stop_at,
    ) {
        Ok(sent) => Ok(sent),
        Err(error) => Err(SendError::Client(error)),
    }
}

// Asks for the newest commitment, and keeps it in a line.
fn begin_log<W: Write, R: Read, K: KeyLines>(
    alloc: Global,
    to: &mut W,
    from: &mut R,
    keys: &mut K,
) -> Result<(), SendError>
    ensures begun { OnOk result (BeginsLog (W.contents to.old) (W.contents to.new) (R.remaining from.old)
        (R.remaining from.new) (K.contents keys.old) (K.contents keys.new)) }
    ensures kept { OnErr result (LogsInPart (K.contents keys.old) (K.contents keys.new)) }
    ensures keys_broken { IfErr result (λ error. KeysBreakOnlyIf (K.failed keys.new) (Some error)) }
    ensures fault { IfErr result (FailsBegin (W.contents to.old) (W.contents to.new) (R.remaining from.old)
        (R.remaining from.new)) }
{
    let newest = match newest_commitment(alloc, to, from) {
        Ok(newest) => newest,
        Err(error) => return Err(SendError::Client(error)),
    };
    let mut line = Vec::new(alloc);
    if put_log(&mut line, &newest).is_err() {
        return Err(SendError::Client(ClientError::Memory));
    }
    match print_line(keys, &line) {
        Ok(()) => Ok(()),
        Err(_) => Err(SendError::Keys),
    }
}

// The places that are given.
fn places_given<W: Write, R: Read>(
    alloc: Global,
    to: &mut W,
    from: &mut R,
    placing: Placing,
) -> Result<Places, ClientError>
    ensures done { IfOk result (GivesPlaces (W.contents to.old) (W.contents to.new) (R.remaining from.old)
        (R.remaining from.new) placing) }
    ensures fault { IfErr result (FailsPlacing (W.contents to.old) (W.contents to.new) (R.remaining from.old)
        (R.remaining from.new) placing) }
{
    match placing {
        Placing::Unplaced => Ok(Places::Any),
        Placing::From(first) => Ok(Places::From(first)),
        Placing::Next(kind) => match place_of_kind(alloc, to, from, kind) {
            Ok(place) => Ok(Places::From(place.number)),
            Err(error) => Err(error),
        },
    }
}
