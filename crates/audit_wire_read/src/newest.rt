//! The newest commitment after one that is held.
ghost use Rattle.std.specs.Prelude.{Some, IfOk, IfErr};
ghost use Rattle.audit_wire_ask.specs.Failing.{FailsWatch};
ghost use Rattle.audit_wire_read.specs.Newest.{SeesNewest, Extends};

use audit_proof::Commitment;
use audit_wire_ask::{Sight, Unseen, watch};
use std::alloc::Global;
use std::io::{Read, Write};

/// Asks for the newest commitment, and returns it if it extends the one that is held. That is judged by [`watch`].
pub(crate) fn newest_after<W: Write, R: Read>(
    alloc: Global,
    to: &mut W,
    from: &mut R,
    held: &Commitment,
) -> Result<Commitment, Unseen>
    ensures extends { IfOk result (Extends held.now) }
    ensures sees { IfOk result (SeesNewest (W.contents to.old) (W.contents to.new) (R.remaining from.old)
        (R.remaining from.new) held.now) }
    ensures fault { IfErr result (FailsWatch (W.contents to.old) (W.contents to.new) (R.remaining from.old)
        (R.remaining from.new) (Some held.now)) }
{
    match watch(alloc, to, from, Some(*held)) {
        Ok(Sight::Began(seen) | Sight::Same(seen) | Sight::Grew(seen)) => Ok(seen),
        Err(unseen) => Err(unseen),
    }
}
