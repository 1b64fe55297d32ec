//! A witness that keeps what it sees.
ghost use Rattle.std.specs.Prelude.{◌≡◌, ◌⊎◌, ◌∷◌, ◌++◌, [], List, Err, IfOk, IfErr, OnOk, OnErr};
ghost use Rattle.audit_proof.specs.declared.commitment.Commitment.{Commitment};
ghost use Rattle.audit_wire_ask.specs.Failing.{FailsKeeping};
ghost use Rattle.audit_wire_ask.specs.Keeping.{last_kept, KeepsOn, KeepsSight};
ghost use Rattle.audit_wire_ask.specs.Watching.{Sees};
ghost use Rattle.audit_wire_ask.specs.declared.watching.Unseen.{Unseen};

use crate::watching::{Sight, Unseen, watch};
use audit_proof::Commitment;
use std::alloc::Global;
use std::io::{Read, Write};

/// What a witness keeps: the commitments that it saw, the newest last.
pub trait Kept {
    /// Why a commitment can't be added.
    type Error;

    /// The commitments, in the order in which they were added.
    ghost kept: { Self → List Commitment };

    /// The newest commitment, if any is kept.
    fn newest(&self) -> Option<Commitment>
        ensures { result ≡ last_kept (kept self.now) };

    /// Adds a commitment after the others. After an error it may have been added, or not.
    fn add(&mut self, seen: &Commitment) -> Result<(), Self::Error>
        ensures done { OnOk result (kept self.new ≡ kept self.old ++ seen.now ∷ []) }
        ensures part { OnErr result ((kept self.new ≡ kept self.old)
            ⊎ (kept self.new ≡ kept self.old ++ seen.now ∷ [])) };
}

/// Why a witness saw nothing, or couldn't keep it.
#[derive(Clone, Copy, Debug, PartialEq, Eq)]
pub enum WatchError<E> {
    /// The server didn't answer, or its answer isn't believed.
    Client(Unseen),
    /// What it saw couldn't be kept.
    Kept(E),
}

/// Sees the newest commitment of a log, as [`watch`] does, and keeps it if it is the first or the log has grown.
pub fn watch_and_keep<W: Write, R: Read, K: Kept>(
    alloc: Global,
    to: &mut W,
    from: &mut R,
    kept: &mut K,
) -> Result<Sight, WatchError<K::Error>>
    // Whatever happens, nothing is lost, and nothing is added but a commitment that may follow.
    ensures kept { KeepsOn (K.kept kept.old) (K.kept kept.new) }
    ensures seen { IfOk result (Sees (W.contents to.old) (W.contents to.new) (R.remaining from.old)
        (R.remaining from.new) (last_kept (K.kept kept.old))) }
    ensures added { IfOk result (KeepsSight (K.kept kept.old) (K.kept kept.new)) }
    // What isn't believed is why, and nothing is added then.
    ensures fault { IfErr result (FailsKeeping (W.contents to.old) (W.contents to.new) (R.remaining from.old)
        (R.remaining from.new) (last_kept (K.kept kept.old))) }
    ensures untouched { (unseen : Unseen) → result ≡ Err (WatchError.Client unseen)
        → K.kept kept.new ≡ K.kept kept.old }
{
    let sight = match watch(alloc, to, from, kept.newest()) {
        Ok(sight) => sight,
        Err(unseen) => return Err(WatchError::Client(unseen)),
    };
    match sight {
        Sight::Same(_) => Ok(sight),
        Sight::Began(seen) | Sight::Grew(seen) => match kept.add(&seen) {
            Ok(()) => Ok(sight),
            Err(error) => Err(WatchError::Kept(error)),
        },
    }
}
