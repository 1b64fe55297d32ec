ghost use Rattle.std.specs.Prelude.{◌≡◌, IfOk, IsOk};

use crate::byte_list::ByteList;
use crate::request::Request;
use std::alloc::{AllocError, Global};

/// A request in a frame's body, from which it borrows its payload. See [`Request`].
#[derive(Clone, Copy, Debug, PartialEq, Eq)]
pub enum RequestView<'a> {
    Append {
        tag: u32,
        kind: u32,
        payload: &'a [u8],
    },
    Commitment {
        tag: u32,
    },
    Membership {
        tag: u32,
        index: u64,
        count: u64,
    },
    Incremental {
        tag: u32,
        older: u64,
        newer: u64,
    },
    Entry {
        tag: u32,
        index: u64,
    },
    Close {
        tag: u32,
    },
    State {
        tag: u32,
    },
    Place {
        tag: u32,
        kind: u32,
    },
    PlacedAppend {
        tag: u32,
        kind: u32,
        place: u64,
        payload: &'a [u8],
    },
}

impl<'a> RequestView<'a> {
    ghost use Rattle.audit_wire.specs.View.{request_shown, IsQuery};

    /// Copies the request, with a payload of its own. The only error is that memory is refused for a payload.
    pub fn own(self, alloc: Global) -> Result<Request, AllocError>
        ensures shown { IfOk result (λ request. request ≡ request_shown self.entry) }
        ensures query { IsQuery self.entry → IsOk result }
    {
        Ok(match self {
            RequestView::Append { tag, kind, payload } => Request::Append {
                tag,
                kind,
                payload: copy_of(alloc, payload)?,
            },
            RequestView::Commitment { tag } => Request::Commitment { tag },
            RequestView::Membership { tag, index, count } => Request::Membership {
                tag,
                index,
                count,
            },
            RequestView::Incremental { tag, older, newer } => Request::Incremental {
                tag,
                older,
                newer,
            },
            RequestView::Entry { tag, index } => Request::Entry { tag, index },
            RequestView::Close { tag } => Request::Close { tag },
            RequestView::State { tag } => Request::State { tag },
            RequestView::Place { tag, kind } => Request::Place { tag, kind },
            RequestView::PlacedAppend {
                tag,
                kind,
                place,
                payload,
            } => Request::PlacedAppend {
                tag,
                kind,
                place,
                payload: copy_of(alloc, payload)?,
            },
        })
    }
}

// Copies a payload. The only error is that memory is refused.
fn copy_of(alloc: Global, payload: &[u8]) -> Result<ByteList, AllocError>
    ensures { IfOk result (λ copy. copy ≡ payload.now) }
{
    Ok(ByteList::from_vec(Vec::from_slice(alloc, payload)?))
}
