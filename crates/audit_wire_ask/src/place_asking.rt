//! The question for the place of a kind, which a daemon answers.
ghost use Rattle.std.specs.Prelude.{◌≡◌, ◌∷◌, [], IfOk, IfErr};
ghost use Rattle.audit_wire.specs.declared.request.Request.TheVariants as request;
ghost use Rattle.audit_wire_ask.specs.Conversation.{Converses};
ghost use Rattle.audit_wire_ask.specs.PlaceAsking.{place_reply, IsPlaceReply, FailsPlace};
ghost use Rattle.audit_wire_ask.specs.Failing.{IsNoAnswer};
ghost use Rattle.audit_wire_ask.specs.declared.asking.TheConstants.{ASKED_TAG};

use crate::asking::{ASKED_TAG, not_due};
use crate::conversation::ask;
use crate::fault::ClientError;
use crate::kind_place::KindPlace;
use audit_wire::{Reply, RequestView};
use std::alloc::Global;
use std::io::{Read, Write};

/// Asks how many events of a kind the log has. Errors: as for every question. A daemon that doesn't count the kind
/// refuses with `NotCounted`; a server that isn't a daemon refuses the bytes as malformed, which is a bad reply.
pub fn place_of_kind<W: Write, R: Read>(
    alloc: Global,
    to: &mut W,
    from: &mut R,
    kind: u32,
) -> Result<KindPlace, ClientError>
    ensures done { IfOk result (λ place. Converses (W.contents to.old) (W.contents to.new) (R.remaining from.old)
        (R.remaining from.new) (request.Place ASKED_TAG kind ∷ []) (place_reply place ∷ [])) }
    ensures fault { IfErr result (FailsPlace (W.contents to.old) (W.contents to.new) (R.remaining from.old)
        (R.remaining from.new) kind) }
{
    let asked = RequestView::Place {
        tag: ASKED_TAG,
        kind,
    };
    let given = ask(alloc, to, from, asked)?;
    let place = place_in(&given)?;
    Ok(place)
}

fn place_in(given: &Reply) -> Result<KindPlace, ClientError>
    ensures found { IfOk result (λ place. given.now ≡ place_reply place) }
    ensures fault { IfErr result (IsNoAnswer ASKED_TAG IsPlaceReply given.now) }
{
    match given {
        Reply::Place { tag, number, count } if *tag == ASKED_TAG => Ok(KindPlace {
            number: *number,
            count: *count,
        }),
        other => Err(not_due(ASKED_TAG, other)),
    }
}
