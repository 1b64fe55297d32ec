//! The newest commitment in the file of a witness, which is only read.
ghost use Rattle.std.specs.Prelude.{◌≡◌, ℕ, Some, List, IfOk, IfErr, IfSome};
ghost use Rattle.audit_wire_ask.specs.Keeping.{last_kept};
ghost use Rattle.audit_cli_witness.specs.State.{kept_in};
ghost use Rattle.audit_cli_witness.specs.StateFaults.{HasNewestCause, HasNoBadLine};

use crate::state_file::StateFile;
use crate::state_text::{StateAt, StateText};
use audit_cli_base::CommandError;
use audit_cli_connection::RemoteError;
use audit_proof::Commitment;
use audit_wire_ask::Kept;
use std::alloc::Global;
use std::fs::{self, Files};

/// Returns the newest commitment in the file of a witness at a path. The file is only read, and isn't locked: its
/// witness may add a line meanwhile.
///
/// Errors: a file fault if it can't be read, or is no regular file; `BadStateLine` if a line at its end isn't a
/// commitment, and with the number 1 if it has none; memory.
pub fn witnessed_at<F: Files>(
    rt: &F,
    alloc: Global,
    path: &str,
) -> Result<Commitment, RemoteError> {
    if !fs::metadata(rt, path)?.is_file() {
        return Err(RemoteError::Command(CommandError::File));
    }
    let file = fs::open(rt, path)?;
    witnessed_in(alloc, StateAt { rt, path, file })
}

/// Returns the newest commitment in the bytes of a witness's file. Errors: those of [`StateFile::read`], and
/// `BadStateLine` with the number 1 if there is none.
pub fn witnessed_in<T: StateText>(alloc: Global, file: T) -> Result<Commitment, RemoteError>
    ensures newest { IfOk result (λ newest. (bytes : List ℕ) → T.text file ≡ Some bytes
        → last_kept (kept_in bytes) ≡ Some newest) }
    ensures sound { IfOk result (λ _. IfSome (T.text file) HasNoBadLine) }
    ensures failed { IfErr result (HasNewestCause ((last : T) × T.failed last) (T.text file)) }
{
    let kept = StateFile::read(alloc, file)?;
    match kept.newest() {
        Some(newest) => Ok(newest),
        None => Err(RemoteError::BadStateLine(1)),
    }
}
