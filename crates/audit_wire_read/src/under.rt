//! A reader under a witness of the same log.
ghost use Rattle.std.specs.Prelude.{IfOk, IfErr, OnOk};
ghost use Rattle.audit_wire_read.specs.Newest.{Extends};
ghost use Rattle.audit_wire_read.specs.Questions.{AsksToRead};
ghost use Rattle.audit_wire_read.specs.Under.{IsNotAfter, FailsUnder};

use crate::newest::newest_after;
use crate::not_under::NotUnder;
use audit_proof::Commitment;
use audit_wire_ask::{ClientError, Unseen, join_by};
use std::alloc::Global;
use std::io::{Read, Write};

// The tag of the question for an increment from what a reader kept.
const KEPT_TAG: u32 = 1;

/// Asks for the newest commitment, which has to extend the one that a witness saw and the one that a reader kept. So
/// both are of one log, and what is read on from it is the log that the witness saw.
///
/// Errors: as [`watch`](audit_wire_ask::watch), by either of the two, with that one and the commitment that the server gave
/// if it was judged: so the two contradict each other.
pub fn newest_under<W: Write, R: Read>(
    alloc: Global,
    to: &mut W,
    from: &mut R,
    kept: &Commitment,
    witnessed: &Commitment,
) -> Result<Commitment, NotUnder>
    ensures witnessed { IfOk result (Extends witnessed.now) }
    ensures kept { IfOk result (Extends kept.now) }
    ensures asked { OnOk result (AsksToRead (W.contents to.old) (W.contents to.new) (R.remaining from.old)
        (R.remaining from.new)) }
    ensures fault { IfErr result (FailsUnder (W.contents to.old) (W.contents to.new) (R.remaining from.old)
        (R.remaining from.new) kept.now witnessed.now) }
{
    let newest = match newest_after(alloc, to, from, witnessed) {
        Ok(seen) => seen,
        Err(unseen) => return Err(NotUnder {
            held: *witnessed,
            unseen,
        }),
    };
    match lead_kept(alloc, to, from, kept, &newest) {
        Ok(()) => Ok(newest),
        Err(error) => Err(NotUnder {
            held: *kept,
            unseen: Unseen {
                error,
                given: Some(newest),
            },
        }),
    }
}

// Sees that the newest commitment extends the one that a reader kept.
fn lead_kept<W: Write, R: Read>(
    alloc: Global,
    to: &mut W,
    from: &mut R,
    kept: &Commitment,
    newest: &Commitment,
) -> Result<(), ClientError>
    ensures extends { OnOk result (Extends kept.now newest.now) }
    ensures asked { OnOk result (AsksToRead (W.contents to.old) (W.contents to.new) (R.remaining from.old)
        (R.remaining from.new)) }
    ensures fault { IfErr result (IsNotAfter (W.contents to.old) (W.contents to.new) (R.remaining from.old)
        (R.remaining from.new) kept.now newest.now) }
{
    if *newest == *kept {
        return Ok(());
    }
    if newest.count < kept.count {
        return Err(ClientError::Shorter);
    }
    if newest.count == kept.count {
        return Err(ClientError::OtherRoot);
    }
    if kept.count == 0 {
        return Ok(());
    }
    join_by(alloc, to, from, KEPT_TAG, kept, newest)
}
