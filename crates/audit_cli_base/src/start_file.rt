//! What the verification of an export starts from: a key file, or a state that was saved.
ghost use Rattle.std.specs.Prelude.{◌≡◌, ◌<◌, ℕ, List, Option, Some, Ok, Err, IfOk, IfErr, IfSome, MatchResult};
ghost use Rattle.audit_proof.specs.declared.commitment.Commitment.{Commitment};
ghost use Rattle.audit_verify.specs.State.{StateData, first_state};
ghost use Rattle.audit_verify.specs.Bookmark.{AreSoundParts, bookmark_text};
ghost use Rattle.audit_cli_base.specs.KeyFile.{key_of_file};
ghost use Rattle.audit_cli_base.specs.StartFile.{IsStart, IsNoStart, IsStartFault};

use crate::fault::CommandError;
use crate::key_file::key_of_file;
use audit_proof::Commitment;
use audit_text::{LinesError, read_input};
use audit_verify::{State, StateError, read_bookmark};
use std::alloc::Global;
use std::io::Read;

/// Reads what a verification starts from: the state before the first entry of the log, if the file holds its first
/// key, or the state of the bookmark whose text it holds. The error is `BadArgument` if it holds neither. Otherwise it
/// fails only if a read failed or memory was refused.
pub fn read_start<R: Read>(alloc: Global, reader: &mut R) -> Result<State, CommandError>
    ensures start { IfOk result (λ state. IfSome (R.remaining reader.old) (λ text. IsStart text state)) }
    ensures fault { IfErr result (IsStartFault (R.remaining reader.old)) }

    // The state of a bookmark is read from its text.
    ensures state { IfSome (R.remaining reader.old) (λ text. (state : StateData) (newest : Option Commitment)
        → AreSoundParts state newest → text ≡ bookmark_text state newest → IfOk result (λ given. given ≡ state)) }
{
    match read_input(alloc, reader) {
        Ok(text) => start_of_file(alloc, &text),
        Err(LinesError::InputTooLong) => Err(CommandError::BadArgument),
        Err(fault) => Err(CommandError::Lines(fault)),
    }
}

// The same for the text of a file.
fn start_of_file(alloc: Global, text: &[u8]) -> Result<State, CommandError>
    ensures start { IfOk result (IsStart text.now) }
    ensures fault { IfErr result (IsStartFault (Some text.now)) }
    ensures state { (state : StateData) (newest : Option Commitment) → AreSoundParts state newest
        → text.now ≡ bookmark_text state newest → IfOk result (λ given. given ≡ state) }
{
    if let Some(key) = key_of_file(text) {
        return Ok(State::first(&key));
    }
    match read_bookmark(alloc, text) {
        Ok(mark) => Ok(mark.state),
        Err(StateError::Damaged) => Err(CommandError::BadArgument),
        Err(StateError::Memory) => Err(CommandError::Lines(LinesError::Memory)),
    }
}

/// Judges whether a verification may go on from a state to a commitment. The error is `BadArgument` if the state is
/// after more entries than the commitment is to.
pub fn judge_start(start: &State, commitment: &Commitment) -> Result<(), CommandError>
    ensures ahead { commitment.now.count < start.now.frontier.count → result ≡ Err CommandError.BadArgument }
    ensures fault { IfErr result (λ fault. (fault ≡ CommandError.BadArgument)
        × (commitment.now.count < start.now.frontier.count)) }
{
    if start.count() > commitment.count {
        return Err(CommandError::BadArgument);
    }
    Ok(())
}
