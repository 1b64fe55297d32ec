//! A witness: what it sees of a log, after the commitment that it kept.
ghost use Rattle.std.specs.Prelude.{◌≡◌, Some, IfOk, IfErr};
ghost use Rattle.audit_wire_ask.specs.Failing.{FailsWatch};
ghost use Rattle.audit_wire_ask.specs.Watching.{Sees};

use crate::asking::{join, newest_commitment};
use crate::fault::ClientError;
use audit_proof::Commitment;
use std::alloc::Global;
use std::io::{Read, Write};

/// What a witness sees.
#[derive(Clone, Copy, Debug, PartialEq, Eq)]
pub enum Sight {
    /// The first commitment, which it keeps.
    Began(Commitment),
    /// The commitment that it kept.
    Same(Commitment),
    /// A commitment of more entries, to which the one that it kept is joined. It keeps this one too.
    Grew(Commitment),
}

/// Why a witness saw nothing.
#[derive(Clone, Copy, Debug, PartialEq, Eq)]
pub struct Unseen {
    /// The error.
    pub error: ClientError,
    /// The newest commitment, if the server had given one to be judged by one that was kept.
    pub given: Option<Commitment>,
}

impl From<ClientError> for Unseen {
    ghost use Rattle.std.specs.Prelude.{◌≡◌, None};
    ghost use Rattle.audit_wire_ask.specs.declared.watching.Unseen.{Unseen};

    ghost from_gives = { λ cause unseen. unseen ≡ record { error = cause; given = None } };

    fn from(error: ClientError) -> Self {
        Unseen { error, given: None }
    }
}

/// Asks for the newest commitment, and judges it by the one that was kept: one of more entries is believed only if
/// the server gives an increment that is accepted. From the empty log there is no increment, and any log follows it.
///
/// Errors: `Shorter` if the log has fewer entries than the one that was kept; `OtherRoot` if it has as many and
/// another root; `NotAccepted` if the increment isn't accepted; and those of every question. Each comes with the
/// commitment that the server gave, if it was judged.
pub fn watch<W: Write, R: Read>(
    alloc: Global,
    to: &mut W,
    from: &mut R,
    kept: Option<Commitment>,
) -> Result<Sight, Unseen>
    ensures seen { IfOk result (Sees (W.contents to.old) (W.contents to.new) (R.remaining from.old)
        (R.remaining from.new) kept) }
    ensures fault { IfErr result (FailsWatch (W.contents to.old) (W.contents to.new) (R.remaining from.old)
        (R.remaining from.new) kept) }
{
    let newest = newest_commitment(alloc, to, from)?;
    let Some(kept) = kept else {
        return Ok(Sight::Began(newest));
    };
    if newest.count < kept.count {
        return Err(not_seen(ClientError::Shorter, newest));
    }
    if newest == kept {
        return Ok(Sight::Same(newest));
    }
    if newest.count == kept.count {
        return Err(not_seen(ClientError::OtherRoot, newest));
    }
    if kept.count == 0 {
        return Ok(Sight::Grew(newest));
    }
    match join(alloc, to, from, &kept, &newest) {
        Ok(()) => Ok(Sight::Grew(newest)),
        Err(error) => Err(not_seen(error, newest)),
    }
}

fn not_seen(error: ClientError, given: Commitment) -> Unseen
    ensures error { result.error ≡ error }
    ensures given { result.given ≡ Some given }
{
    Unseen {
        error,
        given: Some(given),
    }
}
