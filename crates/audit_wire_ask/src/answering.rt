//! Printing the answers to events.
ghost use Rattle.std.specs.Prelude.{◌≡◌, ◌+◌, ◌<◌, ◌≤◌, if◌then◌else◌, Some, None, OnOk, OnErr, IfOk, IfErr};
ghost use Rattle.std.specs.Io.KnownBytes.{Appends};
ghost use Rattle.audit_text.specs.AckLine.{ack_line};
ghost use Rattle.audit_text.specs.Writing.{WritesInPart};
ghost use Rattle.audit_wire_ask.specs.Sending.{is_refusal, are_before, is_of_event, answer_line, refusal_line};
ghost use Rattle.audit_wire_ask.specs.Sending.{AnswersLine, IsUnprinted};
ghost use Rattle.audit_wire_ask.specs.Sending.{TakesAnswer, FailsAnswer, TakesAnswers, BreaksOnlyIf};
ghost use Rattle.audit_wire_ask.specs.EntryKeys.{KeepsKey, KeepsInPart, KeepsAllKeys, KeepsKeys, KeysBreakOnlyIf};

use crate::asking::not_due;
use crate::conversation::next_reply;
use crate::entry_key::keep_key;
use crate::fallible_write::FallibleWrite;
use crate::fault::ClientError;
use crate::key_lines::KeyLines;
use crate::place_line::put_place;
use crate::places::Places;
use crate::refusal_word::word_of_refusal;
use crate::send_error::SendError;
use crate::taking::{are_placed, line_tag};
use audit_base::Hash;
use audit_text::{push_ack, push_number};
use audit_wire::{Refusal, Reply};
use std::alloc::{AllocError, Global};
use std::io::Read;

/// The answers that were read and printed.
#[derive(Clone, Copy)]
pub(crate) struct Answers {
    /// Their number.
    pub count: u64,
    /// The number of those by which an event isn't in the log.
    pub refused: u64,
    /// Why the next answer wasn't read or printed, if so.
    pub error: Option<SendError>,
}

/// Reads the answers to as many lines, of which the first has the number `before` + 1, and prints a line for each as
/// soon as it is read. The key in an answer is kept before its line is printed.
pub(crate) fn take_answers<R: Read, O: FallibleWrite, K: KeyLines>(
    alloc: Global,
    places: Places,
    from: &mut R,
    output: &mut O,
    keys: &mut K,
    before: u64,
    count: u64,
    body: &mut Vec<u8>,
    line: &mut Vec<u8>,
) -> Answers
    requires { before + count ≤ u64.MAX }
    ensures taken { TakesAnswers places (R.remaining from.old) (R.remaining from.new) (O.contents output.old)
        (O.contents output.new) before count result }
    ensures broken { BreaksOnlyIf (O.failed output.new) result.error }
    ensures kept { KeepsKeys (R.remaining from.old) (K.contents keys.old) (K.contents keys.new) result.count }
    ensures all_kept { result.error ≡ None → KeepsAllKeys (R.remaining from.old) (R.remaining from.new)
        (K.contents keys.old) (K.contents keys.new) result.count }
    ensures keys_broken { KeysBreakOnlyIf (K.failed keys.new) result.error }
{
    let mut refused = 0;
    for place in 0..count {
        let number = before + place + 1;
        match take_answer(alloc, places, from, output, keys, number, body, line) {
            Ok(refuses) => refused = refusals_after(refused, refuses),
            Err(error) => {
                return Answers {
                    count: place,
                    refused,
                    error: Some(error),
                };
            }
        }
    }
    Answers {
        count,
        refused,
        error: None,
    }
}

fn refusals_after(refused: u64, refuses: bool) -> u64
    requires { refused < u64.MAX }
    ensures { result ≡ (if refuses then refused + 1 else refused) }
{
    if refuses { refused + 1 } else { refused }
}

// Reads the answer to a line and prints it. Returns whether the event isn't in the log.
fn take_answer<R: Read, O: FallibleWrite, K: KeyLines>(
    alloc: Global,
    places: Places,
    from: &mut R,
    output: &mut O,
    keys: &mut K,
    number: u64,
    body: &mut Vec<u8>,
    line: &mut Vec<u8>,
) -> Result<bool, SendError>
    ensures taken { IfOk result (TakesAnswer places (R.remaining from.old) (R.remaining from.new)
        (O.contents output.old) (O.contents output.new) number) }
    ensures failed { IfErr result (FailsAnswer places (R.remaining from.old) (R.remaining from.new)
        (O.contents output.old) (O.contents output.new) number) }
    ensures broken { IfErr result (λ error. BreaksOnlyIf (O.failed output.new) (Some error)) }
    ensures kept { OnOk result (KeepsKey (R.remaining from.old) (R.remaining from.new) (K.contents keys.old)
        (K.contents keys.new)) }
    ensures unkept { OnErr result (KeepsInPart (R.remaining from.old) (K.contents keys.old) (K.contents keys.new)) }
    ensures keys_broken { IfErr result (λ error. KeysBreakOnlyIf (K.failed keys.new) (Some error)) }
{
    let given = match next_reply(alloc, from, body) {
        Ok(given) => given,
        Err(error) => return Err(SendError::Client(error)),
    };
    let refuses = match put_answer(line, places, number, &given) {
        Ok(refuses) => refuses,
        Err(error) => return Err(SendError::Client(error)),
    };
    keep_key(keys, body, &given)?;
    print_line(output, line)?;
    Ok(refuses)
}

/// Prints a line at once.
pub(crate) fn print_line<O: FallibleWrite>(output: &mut O, line: &[u8]) -> Result<(), SendError>
    ensures written { OnOk result (Appends (O.contents output.old) (O.contents output.new) line.now) }
    ensures part { OnErr result (WritesInPart (O.contents output.old) (O.contents output.new) line.now) }
    ensures fault { IfErr result (λ error. error ≡ SendError.Output) }
    ensures broken { OnErr result (O.failed output.new) }
{
    if output.write_text(line).is_err() {
        return Err(SendError::Output);
    }
    match output.flush_text() {
        Ok(()) => Ok(()),
        Err(_) => Err(SendError::Output),
    }
}

// Replaces the contents of the buffer with the line of an answer, if the reply is one to this line of the input.
// Returns whether the event isn't in the log. That no event is allowed is an error, since no later one would be.
fn put_answer(
    line: &mut Vec<u8>,
    places: Places,
    number: u64,
    given: &Reply,
) -> Result<bool, ClientError>
    ensures due { OnOk result (AnswersLine places number given.now) }
    ensures put { OnOk result (line.new.items ≡ answer_line number given.now) }
    ensures refuses { IfOk result (λ refuses. refuses ≡ is_refusal places number given.now) }
    ensures fault { IfErr result (IsUnprinted places number given.now) }
{
    match given {
        Reply::Acknowledgement {
            tag,
            index,
            count,
            root,
        } if *tag == line_tag(number) && !are_placed(places) => {
            put_ack(line, *index, *count, root)?;
            Ok(false)
        }
        Reply::Placed {
            tag,
            index,
            count,
            root,
            ..
        } if *tag == line_tag(number) && are_placed(places) => {
            put_ack(line, *index, *count, root)?;
            Ok(false)
        }
        Reply::Place {
            tag,
            number: events,
            count,
        } if *tag == line_tag(number) && are_placed(places) => {
            put_place(line, *events, *count)?;
            Ok(are_before(places, number, *events))
        }
        Reply::Refused { tag, refusal } if *tag == line_tag(number) && is_of_event(*refusal) => {
            put_refusal(line, number, *refusal)?;
            Ok(true)
        }
        other => Err(not_due(line_tag(number), other)),
    }
}

// Whether so few events of a kind don't have one at the place of this line.
fn are_before(places: Places, line: u64, number: u64) -> bool
    ensures { result ≡ are_before places line number }
{
    match places {
        Places::Any => true,
        Places::From(first) => match first.checked_add(line) {
            Some(next) => number < next,
            None => true,
        },
    }
}

// Replaces the contents of the buffer with the line of an acknowledgement.
fn put_ack(line: &mut Vec<u8>, index: u64, count: u64, root: &Hash) -> Result<(), AllocError>
    ensures { OnOk result (line.new.items ≡ ack_line index count root.now) }
{
    line.clear();
    push_ack(line, index, count, root)
}

// Whether a refusal is of one event, so that the server may take the next one.
fn is_of_event(refusal: Refusal) -> bool
    ensures { result ≡ is_of_event refusal }
{
    !matches!(refusal, Refusal::NotAllowed)
}

// `refused`, the number of the line, and the number and name of the refusal.
#[tactic(auto, unfolding(crate::specs::Sending::refusal_line))]
fn put_refusal(line: &mut Vec<u8>, number: u64, refusal: Refusal) -> Result<(), AllocError>
    ensures { OnOk result (line.new.items ≡ refusal_line number refusal) }
{
    line.clear();
    push_number(line, b"refused ", number)?;
    push_number(line, b" ", u64::from(refusal.code()))?;
    line.extend_from_slice(b" ")?;
    line.extend_from_slice(word_of_refusal(refusal).as_bytes())?;
    line.extend_from_slice(b"\n")
}
