ghost use Rattle.std.specs.Prelude.{◌≡◌, ◌+◌, ◌≤◌, length, IfOk, Some};
ghost use Rattle.std.specs.Int.{w32, w64};
ghost use Rattle.audit_wire.specs.declared.request.Request.{Request};
ghost use Rattle.audit_base.specs.Bytes.{number_at};
ghost use Rattle.audit_wire.specs.Request.{request_body, request_in, request_by, IsRequest, IsRequestBy};
ghost use Rattle.audit_wire.specs.Request.{append_in, commitment_in, membership_in, incremental_in, entry_in};
ghost use Rattle.audit_wire.specs.Request.{close_in, state_in, place_in, placed_append_in};
ghost use Rattle.audit_wire.specs.View.{request_shown, request_read};

use crate::fields::{
    AFTER_ONE_NUMBER, AFTER_TAG, AFTER_TWO_NUMBERS, PAYLOAD_AT, PLACE_AT, PLACED_PAYLOAD_AT, TAG_AT,
};
use crate::grammar::Grammar;
use crate::limits::MAX_PLACED_PAYLOAD;
use crate::malformed::Malformed;
use crate::request_kind::RequestKind;
use crate::view::RequestView;
use audit_base::{MAX_PAYLOAD, RESERVED_KIND, u32_at, u64_at};

/// Reads the body of a frame as a request that every session may make, and borrows an append's payload. It allocates
/// nothing.
pub fn read_request(body: &[u8]) -> Result<RequestView<'_>, Malformed>
    // A request that is read has this body.
    ensures found { IfOk result (λ view. IsRequest (request_shown view)
        × (body.now ≡ request_body (request_shown view))) }
    // The body of a request reads as that request.
    ensures only { (request : Request) → IsRequest request → body.now ≡ request_body request
        → request_read result ≡ Some request }
    // Every body is read according to the grammar of every session.
    ensures exact { request_read result ≡ request_in body.now }
{
    read_by_kind(Grammar::Plain, body)
}

/// Reads the body of a frame as a request of this grammar, and borrows an append's payload. It allocates nothing.
pub fn read_request_by(grammar: Grammar, body: &[u8]) -> Result<RequestView<'_>, Malformed>
    // A request that is read has this body.
    ensures found { IfOk result (λ view. IsRequestBy grammar (request_shown view)
        × (body.now ≡ request_body (request_shown view))) }
    // The body of a request reads as that request.
    ensures only { (request : Request) → IsRequestBy grammar request → body.now ≡ request_body request
        → request_read result ≡ Some request }
    // Every body is read according to the grammar.
    ensures exact { request_read result ≡ request_by grammar body.now }
{
    read_by_kind(grammar, body)
}

#[tactic(auto, unfolding(crate::specs::Request::request_by))]
fn read_by_kind(grammar: Grammar, body: &[u8]) -> Result<RequestView<'_>, Malformed>
    ensures { request_read result ≡ request_by grammar body.now }
{
    let [first, fields @ ..] = body else {
        return Err(Malformed);
    };
    let Some(kind) = RequestKind::from_byte(grammar, *first) else {
        return Err(Malformed);
    };
    match kind {
        RequestKind::Append => append_of(fields),
        RequestKind::Commitment => commitment_of(fields),
        RequestKind::Membership => membership_of(fields),
        RequestKind::Incremental => incremental_of(fields),
        RequestKind::Entry => entry_of(fields),
        RequestKind::Close => close_of(fields),
        RequestKind::State => state_of(fields),
        RequestKind::Place => place_of(fields),
        RequestKind::PlacedAppend => placed_append_of(fields),
    }
}

#[tactic(auto, unfolding(crate::specs::Request::append_in))]
fn append_of(fields: &[u8]) -> Result<RequestView<'_>, Malformed>
    ensures { request_read result ≡ append_in fields.now }
{
    if fields.len() < PAYLOAD_AT || fields.len() > PAYLOAD_AT + MAX_PAYLOAD {
        return Err(Malformed);
    }
    let kind = u32_at(fields, AFTER_TAG);
    if kind == RESERVED_KIND {
        return Err(Malformed);
    }
    Ok(RequestView::Append {
        tag: u32_at(fields, TAG_AT),
        kind,
        payload: &fields[PAYLOAD_AT..],
    })
}

#[tactic(auto, unfolding(crate::specs::Request::commitment_in))]
fn commitment_of(fields: &[u8]) -> Result<RequestView<'_>, Malformed>
    ensures { request_read result ≡ commitment_in fields.now }
{
    if fields.len() != AFTER_TAG {
        return Err(Malformed);
    }
    Ok(RequestView::Commitment {
        tag: u32_at(fields, TAG_AT),
    })
}

#[tactic(auto, unfolding(crate::specs::Request::membership_in))]
fn membership_of(fields: &[u8]) -> Result<RequestView<'_>, Malformed>
    ensures { request_read result ≡ membership_in fields.now }
{
    if fields.len() != AFTER_TWO_NUMBERS {
        return Err(Malformed);
    }
    Ok(RequestView::Membership {
        tag: u32_at(fields, TAG_AT),
        index: u64_at(fields, AFTER_TAG),
        count: u64_at(fields, AFTER_ONE_NUMBER),
    })
}

#[tactic(auto, unfolding(crate::specs::Request::incremental_in))]
fn incremental_of(fields: &[u8]) -> Result<RequestView<'_>, Malformed>
    ensures { request_read result ≡ incremental_in fields.now }
{
    if fields.len() != AFTER_TWO_NUMBERS {
        return Err(Malformed);
    }
    Ok(RequestView::Incremental {
        tag: u32_at(fields, TAG_AT),
        older: u64_at(fields, AFTER_TAG),
        newer: u64_at(fields, AFTER_ONE_NUMBER),
    })
}

#[tactic(auto, unfolding(crate::specs::Request::entry_in))]
fn entry_of(fields: &[u8]) -> Result<RequestView<'_>, Malformed>
    ensures { request_read result ≡ entry_in fields.now }
{
    if fields.len() != AFTER_ONE_NUMBER {
        return Err(Malformed);
    }
    Ok(RequestView::Entry {
        tag: u32_at(fields, TAG_AT),
        index: u64_at(fields, AFTER_TAG),
    })
}

#[tactic(auto, unfolding(crate::specs::Request::close_in))]
fn close_of(fields: &[u8]) -> Result<RequestView<'_>, Malformed>
    ensures { request_read result ≡ close_in fields.now }
{
    if fields.len() != AFTER_TAG {
        return Err(Malformed);
    }
    Ok(RequestView::Close {
        tag: u32_at(fields, TAG_AT),
    })
}

#[tactic(auto, unfolding(crate::specs::Request::state_in))]
fn state_of(fields: &[u8]) -> Result<RequestView<'_>, Malformed>
    ensures { request_read result ≡ state_in fields.now }
{
    if fields.len() != AFTER_TAG {
        return Err(Malformed);
    }
    Ok(RequestView::State {
        tag: u32_at(fields, TAG_AT),
    })
}

#[tactic(auto, unfolding(crate::specs::Request::place_in))]
fn place_of(fields: &[u8]) -> Result<RequestView<'_>, Malformed>
    ensures { request_read result ≡ place_in fields.now }
{
    if fields.len() != PLACE_AT {
        return Err(Malformed);
    }
    Ok(RequestView::Place {
        tag: u32_at(fields, TAG_AT),
        kind: u32_at(fields, AFTER_TAG),
    })
}

#[tactic(auto, unfolding(crate::specs::Request::placed_append_in))]
fn placed_append_of(fields: &[u8]) -> Result<RequestView<'_>, Malformed>
    ensures { request_read result ≡ placed_append_in fields.now }
{
    if fields.len() < PLACED_PAYLOAD_AT || fields.len() > PLACED_PAYLOAD_AT + MAX_PLACED_PAYLOAD {
        return Err(Malformed);
    }
    if u32_at(fields, AFTER_TAG) == RESERVED_KIND {
        return Err(Malformed);
    }
    Ok(RequestView::PlacedAppend {
        tag: u32_at(fields, TAG_AT),
        kind: u32_at(fields, AFTER_TAG),
        place: u64_at(fields, PLACE_AT),
        payload: &fields[PLACED_PAYLOAD_AT..],
    })
}
