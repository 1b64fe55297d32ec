//! Writing requests, for clients.
ghost use Rattle.std.specs.Prelude.{◌≡◌, ◌+◌, ◌^◌, ◌<◌, ◌≤◌, ◌∷◌, ◌++◌, length, IsOk, OnOk, OnErr, vec_len};
ghost use Rattle.std.specs.Prelude.{vec_capacity};
ghost use Rattle.std.specs.Int.{w32, w64, to_be_bytes};
ghost use Rattle.audit_wire.specs.Request.{request_body, request_byte, IsDaemonRequest};
ghost use Rattle.audit_wire.specs.Stream.{request_frame};
ghost use Rattle.audit_wire.specs.View.{request_shown};

use crate::limits::LENGTH_BYTES;
use crate::request_kind::RequestKind;
use crate::room::put;
use crate::view::RequestView;
use std::alloc::AllocError;

// A body begins with its kind in one byte and the request tag in four. An index or a count has eight bytes, the kind
// of an event four.
const HEAD: usize = 5;

const NUMBER: usize = 8;

const EVENT_KIND: usize = 4;

/// Appends the frame of a request to `out`. The only error is that memory is refused; the bytes of `out` are then
/// unchanged. Read back from its frame, by a grammar that has it, it is the same request: `every_request_is_read_back`.
pub fn write_request(request: RequestView<'_>, out: &mut Vec<u8>) -> Result<(), AllocError>
    requires { IsDaemonRequest (request_shown request) }
    ensures ok { OnOk result (out.new.items ≡ out.old.items ++ request_frame (request_shown request.entry)) }
    ensures err { OnErr result (out.new.items ≡ out.old.items) }
    // Nothing is allocated if the capacity suffices, and capacity is never given back.
    ensures room { vec_len out.old + length (request_frame (request_shown request.entry)) ≤ vec_capacity out.old
        → IsOk result }
    ensures capacity { vec_capacity out.old ≤ vec_capacity out.new }
{
    let size = body_size(request);
    out.reserve(LENGTH_BYTES + size)?;
    put(out, &(size as u16).to_be_bytes());
    put_body(out, request);
    Ok(())
}

// Returns the length of a request's body.
fn body_size(request: RequestView<'_>) -> usize
    requires { IsDaemonRequest (request_shown request) }
    ensures size { result ≡ length (request_body (request_shown request.entry)) }
    ensures fits { result < 2 ^ 16 }
{
    match request {
        RequestView::Append { payload, .. } => HEAD + EVENT_KIND + payload.len(),
        RequestView::Commitment { .. } | RequestView::Close { .. } | RequestView::State { .. } =>
            HEAD,
        RequestView::Membership { .. } | RequestView::Incremental { .. } => HEAD + 2 * NUMBER,
        RequestView::Entry { .. } => HEAD + NUMBER,
        RequestView::Place { .. } => HEAD + EVENT_KIND,
        RequestView::PlacedAppend { payload, .. } => HEAD + EVENT_KIND + NUMBER + payload.len(),
    }
}

// Appends the body of a request, within the capacity.
fn put_body(out: &mut Vec<u8>, request: RequestView<'_>)
    requires { vec_len out.old + length (request_body (request_shown request)) ≤ vec_capacity out.old }
    ensures items { out.new.items ≡ out.old.items ++ request_body (request_shown request.entry) }
    ensures capacity { vec_capacity out.old ≤ vec_capacity out.new }
{
    match request {
        RequestView::Append { tag, kind, payload } => {
            put_head(out, RequestKind::Append, tag);
            put(out, &kind.to_be_bytes());
            put(out, payload);
        }
        RequestView::Commitment { tag } => put_head(out, RequestKind::Commitment, tag),
        RequestView::Membership { tag, index, count } => {
            put_head(out, RequestKind::Membership, tag);
            put_numbers(out, index, count);
        }
        RequestView::Incremental { tag, older, newer } => {
            put_head(out, RequestKind::Incremental, tag);
            put_numbers(out, older, newer);
        }
        RequestView::Entry { tag, index } => {
            put_head(out, RequestKind::Entry, tag);
            put(out, &index.to_be_bytes());
        }
        RequestView::Close { tag } => put_head(out, RequestKind::Close, tag),
        RequestView::State { tag } => put_head(out, RequestKind::State, tag),
        RequestView::Place { tag, kind } => {
            put_head(out, RequestKind::Place, tag);
            put(out, &kind.to_be_bytes());
        }
        RequestView::PlacedAppend {
            tag,
            kind,
            place,
            payload,
        } => {
            put_head(out, RequestKind::PlacedAppend, tag);
            put(out, &kind.to_be_bytes());
            put(out, &place.to_be_bytes());
            put(out, payload);
        }
    }
}

fn put_head(out: &mut Vec<u8>, kind: RequestKind, tag: u32)
    requires { vec_len out.old + 5 ≤ vec_capacity out.old }
    ensures items { out.new.items ≡ out.old.items ++ request_byte kind ∷ to_be_bytes w32 tag }
    ensures capacity { vec_capacity out.old ≤ vec_capacity out.new }
{
    put(out, &[kind.byte()]);
    put(out, &tag.to_be_bytes());
}

fn put_numbers(out: &mut Vec<u8>, first: u64, second: u64)
    requires { vec_len out.old + 16 ≤ vec_capacity out.old }
    ensures items { out.new.items ≡ out.old.items ++ to_be_bytes w64 first ++ to_be_bytes w64 second }
    ensures capacity { vec_capacity out.old ≤ vec_capacity out.new }
{
    put(out, &first.to_be_bytes());
    put(out, &second.to_be_bytes());
}
