//! Sending events, each in a line of an input, and printing what the server answers.
ghost use Rattle.std.specs.Prelude.{◌≡◌, ◌⊎◌, ◌+◌, ◌<◌, ◌≤◌, ℕ, List, Option, Some, None, true, false};
ghost use Rattle.std.specs.Io.Buffered.{reader_remaining};
ghost use Rattle.audit_wire_ask.specs.Sending.{Sends, SendsOn, SendsAll, EndsFor, IsWithin, end_after};
ghost use Rattle.audit_wire_ask.specs.Sending.{first_error, stops_at, BreaksOnlyIf, StaysNear, StopsNear};
ghost use Rattle.audit_wire_ask.specs.EntryKeys.{KeepsAllKeys, KeepsKeys, KeysBreakOnlyIf};

use crate::answering::{Answers, take_answers};
use crate::fallible_write::FallibleWrite;
use crate::fault::ClientError;
use crate::key_lines::KeyLines;
use crate::places::Places;
use crate::send_error::SendError;
use crate::stop_at::StopAt;
use crate::taking::{Taken, has_line, take_lines};
use audit_text::{LineForm, LinesError};
use std::alloc::Global;
use std::io::{BufReader, Read};

// A round has as many lines, if the window has: a server commits its lines together, and fewer take about as long.
const MIN_ROUND: u64 = 64;

/// How sending ended.
#[derive(Clone, Copy, Debug, PartialEq, Eq)]
pub struct SendEnd {
    /// The number of lines that were taken from the input to be sent.
    pub sent: u64,
    /// The number of them that were answered, and whose answers were printed.
    pub answered: u64,
    /// The number of answers that are refusals, or say that an event lacks others before its place.
    pub refused: u64,
    /// Why sending failed, if it did. It didn't if it stopped at a refusal.
    pub error: Option<SendError>,
}

/// Sends the events that the lines of an input have in this form, and prints a line for each answer as soon as it is
/// read. Lines are sent as they come: those that the buffer of the input has, at most `window` of them ahead of their
/// answers. All answers that are due are read before the next read of the input. The input has no limit, and the memory
/// that is taken doesn't grow with it. If it stops at a refusal, at most `window` lines more are sent than are answered
/// before the first one, and each line that was sent is still answered.
///
/// An event that has a place is appended there or not at all; if not, the answer is how many events of its kind the log
/// has. If its place is below that, it is in the log already, unless others send events of that kind. If it isn't, the
/// event counts as refused, since those before it are missing. The key in the answer to an event that was appended is
/// kept in a line of `keys` before the line of the answer is printed.
pub fn send_events<I: Read, W: FallibleWrite, R: Read, O: FallibleWrite, K: KeyLines>(
    alloc: Global,
    places: Places,
    form: LineForm,
    before: u64,
    input: &mut BufReader<I>,
    to: &mut W,
    from: &mut R,
    output: &mut O,
    keys: &mut K,
    window: u64,
    stop_at: StopAt,
) -> SendEnd
    // What was written, read and printed, whatever happened.
    ensures sends { Sends places form before (reader_remaining I.remaining input.old) (W.contents to.old)
        (W.contents to.new) (R.remaining from.old) (O.contents output.old) (O.contents output.new) result }
    // At most `window` lines are sent ahead of the answers that were read, whatever the next answer is.
    ensures ahead { result.sent ≤ result.answered + window }
    // It ends only for a cause: the next line has no event or no number, the next answer didn't come, or all lines were
    // answered, and the last call that wrote to the connection failed.
    ensures cause { 0 < window → EndsFor places form before (reader_remaining I.remaining input.old)
        (R.remaining from.old) (R.remaining from.new) (W.failed to.new) result.sent result.answered result.error }
    // That the output failed is said only if its last call did.
    ensures broken { BreaksOnlyIf (O.failed output.new) result.error }
    // If it stops at a refusal, at most `window` more lines are sent than are answered before the first one.
    ensures near { stop_at ≡ StopAt.Refusal → StopsNear places before (R.remaining from.old) window result }
    // Without an error all lines that were sent were answered; and all lines were sent, unless it stopped at a refusal:
    // then the lines after them remain.
    ensures answered { result.error ≡ None → result.answered ≡ result.sent }
    ensures all { result.error ≡ None → stops_at stop_at result.refused ≡ false
        → SendsAll places form before (reader_remaining I.remaining input.old)
        (W.contents to.old) (W.contents to.new) (R.remaining from.old) (R.remaining from.new) (O.contents output.old)
        (O.contents output.new) result }
    ensures stopped { result.error ≡ None → stops_at stop_at result.refused ≡ true
        → SendsOn places form before (reader_remaining I.remaining input.old) (reader_remaining I.remaining input.new)
        (W.contents to.old) (W.contents to.new) (R.remaining from.old) (R.remaining from.new) (O.contents output.old)
        (O.contents output.new) result
        ⊎ SendsAll places form before (reader_remaining I.remaining input.old) (W.contents to.old) (W.contents to.new)
        (R.remaining from.old) (R.remaining from.new) (O.contents output.old) (O.contents output.new) result }
    // The keys in the answers were kept, each before its answer was printed, and at most a part of one more.
    ensures kept { KeepsKeys (R.remaining from.old) (K.contents keys.old) (K.contents keys.new) result.answered }
    ensures all_kept { result.error ≡ None → KeepsAllKeys (R.remaining from.old) (R.remaining from.new)
        (K.contents keys.old) (K.contents keys.new) result.answered }
    // That they couldn't be kept is said only if the last call for them failed.
    ensures keys_broken { KeysBreakOnlyIf (K.failed keys.new) result.error }
{
    let mut room = Room::new(alloc);
    let mut end = SendEnd {
        sent: 0,
        answered: 0,
        refused: 0,
        error: None,
    };
    for _ in 0..u64::MAX {
        if stops_at(stop_at, end.refused) {
            return take_last(
                alloc, places, before, from, output, keys, window, &end, &mut room,
            );
        }
        let round = send_round(
            alloc, places, form, before, input, to, from, output, keys, window, &end, &mut room,
        );
        end = round.end;
        if !round.more {
            return end;
        }
    }
    with_error(&end, SendError::Input(LinesError::InputTooLong))
}

fn stops_at(stop_at: StopAt, refused: u64) -> bool
    ensures { result ≡ stops_at stop_at refused }
{
    match stop_at {
        StopAt::End => false,
        StopAt::Refusal => refused > 0,
    }
}

// Reads and prints the answers to all lines that were sent.
fn take_last<R: Read, O: FallibleWrite, K: KeyLines>(
    alloc: Global,
    places: Places,
    before: u64,
    from: &mut R,
    output: &mut O,
    keys: &mut K,
    window: u64,
    end: &SendEnd,
    room: &mut Room,
) -> SendEnd
    requires within { IsWithin window end.now }
    requires number { before + end.now.sent ≤ u64.MAX }
    ensures ahead { result.sent ≤ result.answered + window }
    ensures answered { result.error ≡ None → result.answered ≡ result.sent }
    ensures refused { end.now.refused ≤ result.refused }
    ensures broken { BreaksOnlyIf (O.failed output.new) result.error }
    // After rounds that sent lines and answered the first of them.
    ensures sends { (form : LineForm) (i rest w v r o : Option (List ℕ)) → SendsOn places form before i rest w v r
        (R.remaining from.old) o (O.contents output.old) end.now
        → Sends places form before i w v r o (O.contents output.new) result }
    ensures cause { (form : LineForm) (i rest w v r o : Option (List ℕ)) → SendsOn places form before i rest w v r
        (R.remaining from.old) o (O.contents output.old) end.now
        → EndsFor places form before i r (R.remaining from.new) ⊥ result.sent result.answered result.error }
    ensures on { result.error ≡ None → (form : LineForm) (i rest w v r o : Option (List ℕ))
        → SendsOn places form before i rest w v r (R.remaining from.old) o (O.contents output.old) end.now
        → SendsOn places form before i rest w v r (R.remaining from.new) o (O.contents output.new) result }
    ensures near { (r : Option (List ℕ)) → StaysNear places before r (R.remaining from.old) window end.now
        → StopsNear places before r window result }
    ensures kept { (r k : Option (List ℕ)) → KeepsAllKeys r (R.remaining from.old) k (K.contents keys.old)
        end.now.answered → KeepsKeys r k (K.contents keys.new) result.answered }
    ensures all_kept { result.error ≡ None → (r k : Option (List ℕ)) → KeepsAllKeys r (R.remaining from.old) k
        (K.contents keys.old) end.now.answered
        → KeepsAllKeys r (R.remaining from.new) k (K.contents keys.new) result.answered }
    ensures keys_broken { KeysBreakOnlyIf (K.failed keys.new) result.error }
{
    let first = end.answered;
    let answers = take_answers(
        alloc,
        places,
        from,
        output,
        keys,
        before + first,
        end.sent - first,
        &mut room.body,
        &mut room.line,
    );
    let none = Taken {
        count: 0,
        more: true,
        error: None,
    };
    let error = first_error(Ok(()), answers.error, None);
    end_after(end, &none, &answers, error)
}

fn with_error(end: &SendEnd, error: SendError) -> SendEnd
    ensures { result ≡ record end.now { error = Some error } }
{
    SendEnd {
        sent: end.sent,
        answered: end.answered,
        refused: end.refused,
        error: Some(error),
    }
}

/// Buffers that are used again for each round.
#[derive(Drop)]
struct Room {
    frames: Vec<u8>,
    line: Vec<u8>,
    body: Vec<u8>,
}

impl Room {
    fn new(alloc: Global) -> Room {
        Room {
            frames: Vec::new(alloc),
            line: Vec::new(alloc),
            body: Vec::new(alloc),
        }
    }
}

/// How a round ended.
#[derive(Clone, Copy)]
struct Round {
    // What was sent and answered so far, in this round and those before it.
    end: SendEnd,
    // Whether another round is to follow.
    more: bool,
}

// Sends the next lines, and then reads and prints answers. If the requests couldn't be written, the answers that the
// server gave before are still read.
fn send_round<I: Read, W: FallibleWrite, R: Read, O: FallibleWrite, K: KeyLines>(
    alloc: Global,
    places: Places,
    form: LineForm,
    before: u64,
    input: &mut BufReader<I>,
    to: &mut W,
    from: &mut R,
    output: &mut O,
    keys: &mut K,
    window: u64,
    end: &SendEnd,
    room: &mut Room,
) -> Round
    requires within { IsWithin window end.now }
    requires number { before + end.now.sent ≤ u64.MAX }
    ensures within { result.more ≡ true → IsWithin window result.end }
    ensures number { before + result.end.sent ≤ u64.MAX }
    ensures ahead { result.end.sent ≤ result.end.answered + window }
    ensures more { 0 < window → result.more ≡ true → end.now.sent < result.end.sent }
    ensures cause { (i w r o : Option (List ℕ)) → SendsOn places form before i (reader_remaining I.remaining input.old)
        w (W.contents to.old) r (R.remaining from.old) o (O.contents output.old) end.now
        → EndsFor places form before i r (R.remaining from.new) (W.failed to.new) result.end.sent result.end.answered
        result.end.error }
    ensures broken { BreaksOnlyIf (O.failed output.new) result.end.error }
    ensures answered { result.more ≡ false → result.end.error ≡ None → result.end.answered ≡ result.end.sent }
    // If nothing was refused before.
    ensures near { end.now.refused ≡ 0 → (r : Option (List ℕ))
        → StaysNear places before r (R.remaining from.old) window end.now
        → StopsNear places before r window result.end }
    ensures stays { result.more ≡ true → end.now.refused ≡ 0 → (r : Option (List ℕ))
        → StaysNear places before r (R.remaining from.old) window end.now
        → StaysNear places before r (R.remaining from.new) window result.end }
    ensures kept { (r k : Option (List ℕ)) → KeepsAllKeys r (R.remaining from.old) k (K.contents keys.old)
        end.now.answered → KeepsKeys r k (K.contents keys.new) result.end.answered }
    ensures all_kept { result.end.error ≡ None → (r k : Option (List ℕ)) → KeepsAllKeys r (R.remaining from.old) k
        (K.contents keys.old) end.now.answered
        → KeepsAllKeys r (R.remaining from.new) k (K.contents keys.new) result.end.answered }
    ensures keys_broken { KeysBreakOnlyIf (K.failed keys.new) result.end.error }
    // After rounds that sent lines and answered the first of them, from any input, connection and output on.
    ensures sends { (i w r o : Option (List ℕ)) → SendsOn places form before i (reader_remaining I.remaining input.old)
        w (W.contents to.old) r (R.remaining from.old) o (O.contents output.old) end.now
        → Sends places form before i w (W.contents to.new) r o (O.contents output.new) result.end }
    ensures on { result.more ≡ true → (i w r o : Option (List ℕ)) → SendsOn places form before i
        (reader_remaining I.remaining input.old) w (W.contents to.old) r (R.remaining from.old)
        o (O.contents output.old) end.now → SendsOn places form before i (reader_remaining I.remaining input.new)
        w (W.contents to.new) r (R.remaining from.new) o (O.contents output.new) result.end }
    ensures all { result.more ≡ false → result.end.error ≡ None → (i w r o : Option (List ℕ))
        → SendsOn places form before i (reader_remaining I.remaining input.old) w (W.contents to.old) r
        (R.remaining from.old) o (O.contents output.old) end.now
        → SendsAll places form before i w (W.contents to.new) r (R.remaining from.new) o (O.contents output.new)
        result.end }
{
    let due = end.sent - end.answered;
    let taken = take_lines(
        alloc,
        places,
        form,
        input,
        lines_of_round(window, due),
        before + end.sent,
        &mut room.line,
        &mut room.frames,
    );
    let sent = to.send_text(&room.frames);
    let count = answers_to_read(input, window, due, &taken, sent.is_ok());
    let answers = take_answers(
        alloc,
        places,
        from,
        output,
        keys,
        before + end.answered,
        count,
        &mut room.body,
        &mut room.line,
    );
    let error = first_error(sent, answers.error, taken.error);
    Round {
        end: end_after(end, &taken, &answers, error),
        more: goes_on(taken.more, error),
    }
}

fn end_after(end: &SendEnd, taken: &Taken, answers: &Answers, error: Option<SendError>) -> SendEnd
    requires sent { end.now.sent + taken.now.count ≤ u64.MAX }
    requires answered { end.now.answered + answers.now.count ≤ u64.MAX }
    requires refused { end.now.refused + answers.now.refused ≤ u64.MAX }
    ensures { result ≡ end_after end.now taken.now answers.now error }
{
    SendEnd {
        sent: end.sent + taken.count,
        answered: end.answered + answers.count,
        refused: end.refused + answers.refused,
        error,
    }
}

// How many lines a round takes at most, while `due` are unanswered: half of the window, so that two rounds fit in it,
// unless that is too few.
fn lines_of_round(window: u64, due: u64) -> u64
    requires { due ≤ window }
    ensures within { due + result ≤ window }
    ensures some { due < window → 0 < result }
{
    (window - window / 2).max(MIN_ROUND).min(window - due)
}

// How many answers are read after these lines were taken, while `due` others were unanswered. While more lines are at
// hand, only those to the others: the server has these lines meanwhile, and gets more before it has answered them. All
// of them if the input has to be read before the next line, or there is none.
fn answers_to_read<I: Read>(
    input: &BufReader<I>,
    window: u64,
    due: u64,
    taken: &Taken,
    written: bool,
) -> u64
    requires { due + taken.now.count ≤ window }
    ensures { (result ≡ due + taken.now.count)
        ⊎ ((result ≡ due) × (taken.now.more ≡ true) × (written ≡ true) × (taken.now.count < window)) }
{
    if written && taken.more && taken.count < window && has_line(input) {
        due
    } else {
        due + taken.count
    }
}

fn goes_on(more: bool, error: Option<SendError>) -> bool
    ensures more { result ≡ true → more ≡ true }
    ensures right { result ≡ true → error ≡ None }
    ensures over { result ≡ false → error ≡ None → more ≡ false }
{
    more && error.is_none()
}

// The error of an answer goes before that of a write, and both before the input's: the lines before the input's fault
// were to be answered.
fn first_error(
    sent: Result<(), ClientError>,
    answered: Option<SendError>,
    taken: Option<LinesError>,
) -> Option<SendError>
    ensures { result ≡ first_error sent answered taken }
{
    if answered.is_some() {
        return answered;
    }
    if let Err(error) = sent {
        return Some(SendError::Client(error));
    }
    match taken {
        Some(error) => Some(SendError::Input(error)),
        None => None,
    }
}
