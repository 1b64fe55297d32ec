//! Requests, written as frames.
ghost use Rattle.std.specs.Prelude.{◌≡◌, ◌↔◌, ◌+◌, ◌^◌, ◌<◌, ◌≤◌, ◌∷◌, [], ◌++◌, length, take, IsTrue};
ghost use Rattle.std.specs.Int.{w32, w64, to_be_bytes};
ghost use Rattle.audit_wire.specs.declared.request.Request.TheVariants as request;
ghost use Rattle.audit_wire.specs.Request.{request_body, IsDaemonRequest};
ghost use Rattle.audit_wire.specs.View.{request_shown};
ghost use Rattle.audit_c.specs.Written.{IsRequestWritten};

use audit_wire::{MAX_PAYLOAD, MAX_PLACED_PAYLOAD, RESERVED_KIND, RequestView};

// Where the fields of a request start in its frame, after the length, the kind and the tag.
const FIELDS_AT: usize = 7;

/// Writes the frame of an append of an event into `frame`, and returns its length, 11 bytes more than the payload's.
/// Returns 0 and writes nothing if the kind is the reserved one, the payload is longer than `MAX_PAYLOAD`, or `frame`
/// is too short.
#[unsafe(no_mangle)]
pub extern "C" fn audit_store_write_append(
    tag: u32,
    kind: u32,
    payload: &[u8],
    frame: &mut [u8],
) -> usize
    ensures { IsRequestWritten (request.Append tag kind payload.now) frame.old frame.new result }
{
    write_view(RequestView::Append { tag, kind, payload }, frame)
}

/// The same of a request for the newest commitment, of 7 bytes.
#[unsafe(no_mangle)]
pub extern "C" fn audit_store_write_commitment(tag: u32, frame: &mut [u8]) -> usize
    ensures { IsRequestWritten (request.Commitment tag) frame.old frame.new result }
{
    write_view(RequestView::Commitment { tag }, frame)
}

/// The same of a request for an inclusion proof, of 23 bytes.
#[unsafe(no_mangle)]
pub extern "C" fn audit_store_write_inclusion(
    tag: u32,
    index: u64,
    count: u64,
    frame: &mut [u8],
) -> usize
    ensures { IsRequestWritten (request.Membership tag index count) frame.old frame.new result }
{
    write_view(RequestView::Membership { tag, index, count }, frame)
}

/// The same of a request for a consistency proof, of 23 bytes.
#[unsafe(no_mangle)]
pub extern "C" fn audit_store_write_consistency(
    tag: u32,
    older: u64,
    newer: u64,
    frame: &mut [u8],
) -> usize
    ensures { IsRequestWritten (request.Incremental tag older newer) frame.old frame.new result }
{
    write_view(RequestView::Incremental { tag, older, newer }, frame)
}

/// The same of a request for an entry, of 15 bytes.
#[unsafe(no_mangle)]
pub extern "C" fn audit_store_write_entry(tag: u32, index: u64, frame: &mut [u8]) -> usize
    ensures { IsRequestWritten (request.Entry tag index) frame.old frame.new result }
{
    write_view(RequestView::Entry { tag, index }, frame)
}

/// The same of a request to close the log, of 7 bytes.
#[unsafe(no_mangle)]
pub extern "C" fn audit_store_write_close(tag: u32, frame: &mut [u8]) -> usize
    ensures { IsRequestWritten (request.Close tag) frame.old frame.new result }
{
    write_view(RequestView::Close { tag }, frame)
}

/// The same of a request for the state of the store, of 7 bytes.
#[unsafe(no_mangle)]
pub extern "C" fn audit_store_write_state(tag: u32, frame: &mut [u8]) -> usize
    ensures { IsRequestWritten (request.State tag) frame.old frame.new result }
{
    write_view(RequestView::State { tag }, frame)
}

/// The same of a question for the place of a kind, of 11 bytes: how many of its events the log has.
#[unsafe(no_mangle)]
pub extern "C" fn audit_store_write_place(tag: u32, kind: u32, frame: &mut [u8]) -> usize
    ensures { IsRequestWritten (request.Place tag kind) frame.old frame.new result }
{
    write_view(RequestView::Place { tag, kind }, frame)
}

/// Writes the frame of an append of an event at its place among those of its kind, and returns its length, 19 bytes more
/// than the payload's. Returns 0 and writes nothing if the kind is the reserved one, the payload is longer than
/// `MAX_PLACED_PAYLOAD`, or `frame` is too short.
#[unsafe(no_mangle)]
pub extern "C" fn audit_store_write_placed_append(
    tag: u32,
    kind: u32,
    place: u64,
    payload: &[u8],
    frame: &mut [u8],
) -> usize
    ensures { IsRequestWritten (request.PlacedAppend tag kind place payload.now) frame.old frame.new result }
{
    let request = RequestView::PlacedAppend {
        tag,
        kind,
        place,
        payload,
    };
    write_view(request, frame)
}

fn write_view(request: RequestView<'_>, frame: &mut [u8]) -> usize
    ensures { IsRequestWritten (request_shown request.entry) frame.old frame.new result }
{
    if !is_request(request) {
        return 0;
    }
    let size = body_size(request);
    if frame.len() < 2 + size {
        return 0;
    }
    put(frame, 0, &(size as u16).to_be_bytes());
    put_body(frame, request);
    2 + size
}

// Whether a view shows a request of a client.
fn is_request(request: RequestView<'_>) -> bool
    ensures { IsTrue result ↔ IsDaemonRequest (request_shown request.entry) }
{
    match request {
        RequestView::Append { kind, payload, .. } => kind != RESERVED_KIND
            && payload.len() <= MAX_PAYLOAD,
        RequestView::PlacedAppend { kind, payload, .. } => kind != RESERVED_KIND
            && payload.len() <= MAX_PLACED_PAYLOAD,
        _ => true,
    }
}

// The length of a request's body.
fn body_size(request: RequestView<'_>) -> usize
    requires { IsDaemonRequest (request_shown request) }
    ensures size { result ≡ length (request_body (request_shown request.entry)) }
    ensures fits { result < 2 ^ 16 }
{
    match request {
        RequestView::Append { payload, .. } => 9 + payload.len(),
        RequestView::Commitment { .. } | RequestView::Close { .. } | RequestView::State { .. } => 5,
        RequestView::Membership { .. } | RequestView::Incremental { .. } => 21,
        RequestView::Entry { .. } => 13,
        RequestView::Place { .. } => 9,
        RequestView::PlacedAppend { payload, .. } => 17 + payload.len(),
    }
}

// Puts the body of a request after the length of its frame.
fn put_body(frame: &mut [u8], request: RequestView<'_>)
    requires { 2 + length (request_body (request_shown request)) ≤ length frame.old }
    ensures { take (2 + length (request_body (request_shown request.entry))) frame.new
        ≡ take 2 frame.old ++ request_body (request_shown request.entry) }
{
    match request {
        RequestView::Append { tag, kind, payload } => {
            put_head(frame, 1, tag);
            put(frame, FIELDS_AT, &kind.to_be_bytes());
            put(frame, FIELDS_AT + 4, payload);
        }
        RequestView::Commitment { tag } => put_head(frame, 2, tag),
        RequestView::Membership { tag, index, count } => {
            put_head(frame, 3, tag);
            put_two(frame, index, count);
        }
        RequestView::Incremental { tag, older, newer } => {
            put_head(frame, 4, tag);
            put_two(frame, older, newer);
        }
        RequestView::Entry { tag, index } => {
            put_head(frame, 5, tag);
            put(frame, FIELDS_AT, &index.to_be_bytes());
        }
        RequestView::Close { tag } => put_head(frame, 6, tag),
        RequestView::State { tag } => put_head(frame, 7, tag),
        RequestView::Place { tag, kind } => {
            put_head(frame, 8, tag);
            put(frame, FIELDS_AT, &kind.to_be_bytes());
        }
        RequestView::PlacedAppend {
            tag,
            kind,
            place,
            payload,
        } => {
            put_head(frame, 9, tag);
            put(frame, FIELDS_AT, &kind.to_be_bytes());
            put(frame, FIELDS_AT + 4, &place.to_be_bytes());
            put(frame, FIELDS_AT + 12, payload);
        }
    }
}

// Puts the kind and the tag of a request after the length of its frame.
fn put_head(frame: &mut [u8], kind: u8, tag: u32)
    requires { FIELDS_AT ≤ length frame.old }
    ensures front { take FIELDS_AT frame.new ≡ take 2 frame.old ++ kind ∷ to_be_bytes w32 tag }
    ensures size { length frame.new ≡ length frame.old }
{
    put(frame, 2, &[kind]);
    put(frame, 3, &tag.to_be_bytes());
}

// Puts two numbers after the head of a request.
fn put_two(frame: &mut [u8], first: u64, second: u64)
    requires { FIELDS_AT + 16 ≤ length frame.old }
    ensures front { take (FIELDS_AT + 16) frame.new
        ≡ take FIELDS_AT frame.old ++ to_be_bytes w64 first ++ to_be_bytes w64 second }
    ensures size { length frame.new ≡ length frame.old }
{
    put(frame, FIELDS_AT, &first.to_be_bytes());
    put(frame, FIELDS_AT + 8, &second.to_be_bytes());
}

// Puts bytes at a place, and keeps those before it.
fn put(frame: &mut [u8], place: usize, bytes: &[u8])
    requires { place + length bytes.now ≤ length frame.old }
    ensures front { take (place + length bytes.now) frame.new ≡ take place frame.old ++ bytes.now }
    ensures size { length frame.new ≡ length frame.old }
{
    frame[place..place + bytes.len()].copy_from_slice(bytes);
}
