ghost use Rattle.std.specs.Prelude.{◌≡◌, ◌≢◌, ◌↔◌, ◌+◌, ◌-◌, ◌<◌, ◌≤◌, ℕ, List, [], ◌∷◌, ◌++◌, length, take, drop, min};
ghost use Rattle.std.specs.Prelude.{IsTrue, false, IfOk, vec_len, vec_capacity};
ghost use Rattle.audit_wire.specs.Frame.{IsPartial};
ghost use Rattle.audit_wire.specs.Progress.{reading, rest_of, body_of, HasJustTaken, IsDecoderProgress, IsDecoderFed};
ghost use Rattle.audit_wire.specs.Progress.{IsDecoderAnswer, PutsBack, Spoils, taken_of, taken_by, handed_out, untaken};
ghost use Rattle.audit_wire.specs.Progress.{is_spoiled, requests_ahead};
ghost use Rattle.audit_wire.specs.declared.grammar.Grammar.{Grammar};
ghost use Rattle.audit_wire.specs.Stream.{requests_of};
ghost use Rattle.audit_wire.specs.Filled.{IsFilled};

use crate::fed::Fed;
use crate::limits::{LENGTH_BYTES, MAX_BODY, MAX_FRAME};
use crate::room::put;
use std::alloc::{AllocError, Global};
use std::marker::Model;

/// The position of a decoder in its stream.
#[derive(Clone, Copy, Debug, PartialEq, Eq)]
enum State {
    /// A frame is in progress, or starts with the next byte.
    Reading,
    /// A body was returned, and is lent until the next feed.
    Whole,
    /// A malformed length was reported.
    Malformed,
    /// A malformed length was reported, and more bytes came after it.
    Closed,
}

/// Finds the frames of a byte stream that arrives in arbitrary pieces.
///
/// Contracts see its progress in the stream: the bytes of the frame in progress, or the body that was just completed,
/// or the malformed length that was just read, or that everything else is dropped. However the stream is cut into
/// pieces, the bodies returned and the bytes held back depend only on the bytes so far.
#[derive(Debug, Drop)]
pub struct Decoder {
    /// The bytes since the end of the previous frame.
    frame: Vec<u8>,
    state: State,
}

impl Model for Decoder {
    ghost use Rattle.std.specs.Prelude.{vec_capacity};
    ghost use Rattle.audit_wire.specs.Progress.{DecoderProgress};

    ghost Value = { DecoderProgress };

    ghost use Rattle.audit_wire.specs.Decoder.{progress_of, IsDecoderKept};

    ghost view = { λ decoder. progress_of decoder.state decoder.frame.items };

    ghost invariant = { λ decoder. IsDecoderKept decoder.state decoder.frame.items (vec_capacity decoder.frame) };
}

impl Decoder {
    /// Makes a decoder at the start of a stream. It reserves capacity for the longest frame, and no other call
    /// allocates. The only error is that memory is refused.
    pub fn new(alloc: Global) -> Result<Decoder, AllocError>
        ensures { IfOk result (λ decoder. decoder ≡ reading []) }
    {
        Ok(Decoder {
            frame: Vec::with_capacity(alloc, MAX_FRAME)?,
            state: State::Reading,
        })
    }

    /// Takes the next piece of the stream, up to the first complete body or malformed length. After a malformed length
    /// every piece is taken and dropped.
    pub fn feed(&mut self, piece: &[u8]) -> Fed
        // The effect of the piece: the frame in progress continues, is completed, or is malformed.
        ensures fed { IsDecoderFed self.old piece.now result self.new }
        // A body or a malformed length takes at least one byte, which may be put back.
        ensures taken { IsDecoderAnswer result (length piece.now) self.new }
        // The requests ahead before the call are those in the returned body, followed by those ahead after it.
        ensures requests { (grammar : Grammar) (later : List ℕ) → requests_ahead grammar self.old (piece.now ++ later)
            ≡ requests_of grammar (handed_out self.new)
            (requests_ahead grammar self.new (untaken result piece.now ++ later)) }
        ensures rest { IsPartial (rest_of self.new) }
        // The same for the bytes that were taken, whatever follows them.
        ensures ahead { (grammar : Grammar) (later : List ℕ)
            → requests_ahead grammar self.old (taken_by result piece.now ++ later)
            ≡ requests_of grammar (handed_out self.new) (requests_ahead grammar self.new later) }
        // The bytes since the end of the previous frame are those held back and those taken.
        ensures so_far { is_spoiled self.old ≡ false → taken_of self.new
            ≡ rest_of self.old ++ taken_by result piece.now }
        // Only a malformed length spoils the stream, and nothing repairs it.
        ensures live { Spoils result (is_spoiled self.old) (is_spoiled self.new) }
    {
        self.advance(piece)
    }

    fn advance(&mut self, piece: &[u8]) -> Fed
        ensures { IsDecoderFed self.old piece.now result self.new }
    {
        match self.state {
            State::Malformed | State::Closed => {
                self.state = State::Closed;
                return Fed::More;
            }
            State::Whole => self.frame.clear(),
            State::Reading => {}
        }
        let fed = take_up(&mut self.frame, piece);
        self.state = match fed {
            Fed::More => State::Reading,
            Fed::Body { taken: _ } => State::Whole,
            Fed::Malformed { taken: _ } => State::Malformed,
        };
        fed
    }

    /// The body that the last feed completed, or nothing if it completed none.
    pub fn body(&self) -> &[u8]
        ensures body { result.now ≡ body_of self.now }
        ensures progress { IsDecoderProgress self.now }
    {
        match self.state {
            State::Whole => &self.frame[LENGTH_BYTES..],
            State::Reading | State::Malformed | State::Closed => &[],
        }
    }

    /// Puts back the last byte taken, as if it had never arrived. Allowed only right after a body or a malformed
    /// length.
    pub fn put_back(&mut self)
        requires { HasJustTaken self.old }
        ensures before { PutsBack self.old self.new }
        // If that byte comes again, the requests ahead are the same as before it was put back.
        ensures requests { (grammar : Grammar) (byte : ℕ) (later : List ℕ)
            → taken_of self.old ≡ rest_of self.new ++ byte ∷ []
            → requests_ahead grammar self.new (byte ∷ later) ≡ requests_of grammar (handed_out self.old)
            (requests_ahead grammar self.old later) }
    {
        self.undo();
    }

    fn undo(&mut self)
        requires { HasJustTaken self.old }
        ensures before { PutsBack self.old self.new }
        ensures progress { IsDecoderProgress self.old }
    {
        let _ = self.frame.pop();
        self.state = State::Reading;
    }

    /// Returns whether a frame has begun but isn't complete.
    pub fn pending(&self) -> bool
        ensures pending { IsTrue result ↔ (rest_of self.now ≢ []) }
        ensures rest { IsPartial (rest_of self.now) }
        // Its progress is in one of four states, with the properties of that state.
        ensures progress { IsDecoderProgress self.now }
    {
        self.state == State::Reading && !self.frame.is_empty()
    }
}

/// Takes from the piece what the frame in progress lacks.
fn take_up(frame: &mut Vec<u8>, piece: &[u8]) -> Fed
    requires begun { IsPartial frame.old.items }
    requires room { MAX_FRAME ≤ vec_capacity frame.old }
    ensures taken { IsFilled frame.old.items piece.now result frame.new.items }
    ensures capacity { vec_capacity frame.old ≤ vec_capacity frame.new }
{
    let of_length = fill(frame, piece, LENGTH_BYTES);
    if frame.len() < LENGTH_BYTES {
        return Fed::More;
    }
    let size = u16::from_be_bytes([frame[0], frame[1]]) as usize;
    if size == 0 || size > MAX_BODY {
        return Fed::Malformed { taken: of_length };
    }
    let of_body = fill(frame, &piece[of_length..], LENGTH_BYTES + size);
    if frame.len() < LENGTH_BYTES + size {
        return Fed::More;
    }
    Fed::Body {
        taken: of_length + of_body,
    }
}

/// Takes from the start of a piece until the frame has `size` bytes or the piece ends, and returns how many bytes it
/// took.
fn fill(frame: &mut Vec<u8>, piece: &[u8], size: usize) -> usize
    requires has { vec_len frame.old ≤ vec_capacity frame.old }
    requires room { size ≤ vec_capacity frame.old }
    ensures taken { result ≡ min (size - length frame.old.items) (length piece.now) }
    ensures items { frame.new.items ≡ frame.old.items ++ take result piece.now }
    ensures capacity { vec_capacity frame.old ≤ vec_capacity frame.new }
{
    let taken = size.saturating_sub(frame.len()).min(piece.len());
    put(frame, &piece[..taken]);
    taken
}
