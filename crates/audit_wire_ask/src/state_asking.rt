//! The question for the state of a store, which a daemon answers.
ghost use Rattle.std.specs.Prelude.{◌≡◌, ◌∷◌, [], IfOk, IfErr};
ghost use Rattle.audit_wire.specs.declared.request.Request.TheVariants as request;
ghost use Rattle.audit_wire_ask.specs.Conversation.{Converses};
ghost use Rattle.audit_wire_ask.specs.StateAsking.{state_reply, IsStateReply, FailsState};
ghost use Rattle.audit_wire_ask.specs.Failing.{IsNoAnswer};
ghost use Rattle.audit_wire_ask.specs.declared.asking.TheConstants.{ASKED_TAG};

use crate::asking::{ASKED_TAG, not_due};
use crate::conversation::ask;
use crate::fault::ClientError;
use crate::store_state::StoreState;
use audit_proof::Commitment;
use audit_wire::{Reply, RequestView};
use std::alloc::Global;
use std::io::{Read, Write};

/// Asks for the state of a store. Errors: as for every question. A server that isn't a daemon refuses the bytes as
/// malformed, which is a bad reply.
pub fn state_of_store<W: Write, R: Read>(
    alloc: Global,
    to: &mut W,
    from: &mut R,
) -> Result<StoreState, ClientError>
    ensures done { IfOk result (λ state. Converses (W.contents to.old) (W.contents to.new)
        (R.remaining from.old) (R.remaining from.new) (request.State ASKED_TAG ∷ []) (state_reply state ∷ [])) }
    ensures fault { IfErr result (FailsState (W.contents to.old) (W.contents to.new) (R.remaining from.old)
        (R.remaining from.new)) }
{
    let given = ask(alloc, to, from, RequestView::State { tag: ASKED_TAG })?;
    let state = state_in(&given)?;
    Ok(state)
}

fn state_in(given: &Reply) -> Result<StoreState, ClientError>
    ensures found { IfOk result (λ state. given.now ≡ state_reply state) }
    ensures fault { IfErr result (IsNoAnswer ASKED_TAG IsStateReply given.now) }
{
    match given {
        Reply::State {
            tag,
            count,
            root,
            end,
            sectors,
            generation,
            version,
            closed,
        } if *tag == ASKED_TAG => Ok(StoreState {
            commitment: Commitment {
                count: *count,
                root: *root,
            },
            end: *end,
            sectors: *sectors,
            generation: *generation,
            version: *version,
            closed: *closed,
        }),
        other => Err(not_due(ASKED_TAG, other)),
    }
}
