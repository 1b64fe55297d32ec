ghost use Rattle.std.specs.Prelude.{◌≡◌, ◌<◌, ◌≤◌, [], ◌∷◌, length, IfOk, IfSome};
ghost use Rattle.audit_serve_ready.specs.Ready.{ready_read_call};

use crate::limits::MAX_READ;
use crate::ready_stream::ReadyStream;
use audit_serve_passes::StreamError;
use std::alloc::{AllocError, Global};
use std::marker::Model;

/// The bytes that were read from a client in one piece and that its session hasn't taken yet.
#[derive(Drop)]
pub(crate) struct Unread {
    // A piece of the longest size, whose bytes from `start` to `end` are left.
    piece: Vec<u8>,
    start: usize,
    end: usize,
}

impl Model for Unread {
    ghost use Rattle.std.specs.Prelude.{◌≡◌, ◌≤◌, ℕ, List, length, take, drop};
    ghost use Rattle.audit_serve_ready.specs.declared.limits.TheConstants.{MAX_READ};

    ghost Value = { List ℕ };

    ghost view = { λ unread. drop unread.start (take unread.end unread.piece.items) };

    ghost invariant = { λ unread. (unread.start ≤ unread.end) × (unread.end ≤ length unread.piece.items)
        × (length unread.piece.items ≡ MAX_READ) };
}

impl Unread {
    ghost use Rattle.std.specs.Prelude.{◌≡◌, ◌≢◌, ◌≤◌, [], ◌∷◌, length, drop, true, false, IfOk};
    ghost use Rattle.audit_serve_ready.specs.declared.limits.TheConstants.{MAX_READ};
    ghost use Rattle.audit_serve_ready.specs.Ready.{ready_read_call, IsReadInto};

    /// No bytes. It reserves all the capacity that it will need. The only error is that memory is refused.
    pub(crate) fn new(alloc: Global) -> Result<Unread, AllocError>
        ensures { IfOk result (λ unread. unread ≡ []) }
    {
        Ok(Unread {
            piece: vec![in alloc; 0; MAX_READ]?,
            start: 0,
            end: 0,
        })
    }

    pub(crate) fn is_empty(&self) -> bool
        ensures none { result ≡ true → self.now ≡ [] }
        ensures some { result ≡ false → self.now ≢ [] }
    {
        self.start == self.end
    }

    pub(crate) fn as_slice(&self) -> &[u8]
        ensures bytes { result.now ≡ self.now }
        ensures most { length result.now ≤ MAX_READ }
    {
        &self.piece[self.start..self.end]
    }

    /// Removes the first `count` bytes.
    pub(crate) fn remove(&mut self, count: usize)
        requires { count ≤ length self.old }
        ensures { self.new ≡ drop count self.old }
    {
        self.start += count;
    }

    pub(crate) fn clear(&mut self)
        ensures { self.new ≡ [] }
    {
        self.start = self.end;
    }

    /// Reads the next piece of a client's stream, if something is there, in place of what is left: at most this many
    /// bytes, and never more than [`MAX_READ`].
    pub(crate) fn read_from<S: ReadyStream>(
        &mut self,
        stream: &mut S,
        most: usize,
    ) -> Option<Result<usize, StreamError>>
        ensures into { IsReadInto result self.new }
        ensures did { S.calls.DidCalls stream.old stream.new (ready_read_call result self.new ∷ []) }
    {
        let given = read_front(stream, &mut self.piece, most.clamp(1, MAX_READ));
        self.start = 0;
        self.end = match given {
            Some(Ok(count)) => count,
            Some(Err(_)) | None => 0,
        };
        given
    }
}

// Reads into the front of a buffer.
fn read_front<S: ReadyStream>(
    stream: &mut S,
    buffer: &mut [u8],
    most: usize,
) -> Option<Result<usize, StreamError>>
    requires some { 0 < most }
    requires room { most ≤ length buffer.old }
    ensures length { length buffer.new ≡ length buffer.old }
    ensures within { IfSome result (λ given. IfOk given (λ count. count ≤ length buffer.new)) }
    ensures did { S.calls.DidCalls stream.old stream.new (ready_read_call result buffer.new ∷ []) }
{
    stream.read_ready(&mut buffer[..most])
}
