ghost use Rattle.std.specs.Prelude.{◌≡◌, ◌≤◌, [], ◌∷◌, false, replicate, IfOk, length};
ghost use Rattle.audit_serve_ready.specs.Ready.{ready_read_call, ready_write_call, IsReadInto};
ghost use Rattle.audit_serve_ready.specs.Slot.{vacant, is_no_client, HasCalled};

use crate::backlog::Backlog;
use crate::note::Note;
use crate::ready_stream::ReadyStream;
use crate::reception::Reception;
use crate::unread::Unread;
use audit_serve_passes::{Share, StreamError};
use std::alloc::{AllocError, Global};
use std::marker::Model;
use std::mem;

/// The place of a session's client, with the bytes of the client that its session hasn't taken, and those that are kept
/// for the client until it takes them.
///
/// It is shut if there is no client, or if the client is to be dropped: nothing more is read, kept or written then.
#[derive(Drop)]
pub struct Slot<S> {
    client: Option<S>,
    unread: Unread,
    kept: Backlog,
    reception: Reception,
    noted: Option<Note>,
}

/// What was found of a client's bytes.
#[derive(Clone, Copy)]
pub(crate) enum Look {
    /// Nothing is there now.
    Nothing,
    /// The stream is over: at its end, or after a fault.
    Over,
    /// Some bytes are unread.
    Bytes,
}

impl<S> Model for Slot<S> {
    ghost use Rattle.audit_serve_ready.specs.Slot.{SlotData, slot_data, IsKeptFor};

    ghost Value = { SlotData S };

    ghost view = { λ slot. slot_data slot.client slot.unread slot.kept slot.reception slot.noted };

    ghost invariant = { λ slot. IsKeptFor slot.reception slot.kept };
}

/// Makes this many vacant places. The only error is that memory is refused.
pub fn vacant_slots<S: ReadyStream + Drop>(
    alloc: Global,
    count: usize,
) -> Result<Vec<Slot<S>>, AllocError>
    ensures { IfOk result (λ slots. slots.items ≡ replicate count vacant) }
{
    let mut slots = Vec::with_capacity(alloc, count)?;
    for _ in 0..count {
        slots.push_reserved(Slot::vacant(alloc)?);
    }
    Ok(slots)
}

fn write_some<S: ReadyStream>(client: &mut Option<S>, bytes: &[u8]) -> Result<usize, StreamError>
    ensures within { IfOk result (λ count. count ≤ length bytes.now) }
    ensures did { is_no_client client.old ≡ false
        → HasCalled S.calls client.old client.new (ready_write_call result bytes.now ∷ []) }
{
    match client {
        Some(client) => client.write_ready(bytes),
        None => Ok(0),
    }
}

fn read_some<S: ReadyStream>(
    client: &mut Option<S>,
    unread: &mut Unread,
    most: usize,
) -> Option<Result<usize, StreamError>>
    ensures into { IsReadInto result unread.new }
    ensures did { is_no_client client.old ≡ false
        → HasCalled S.calls client.old client.new (ready_read_call result unread.new ∷ []) }
{
    match client {
        Some(client) => unread.read_from(client, most),
        None => {
            unread.clear();
            None
        }
    }
}

impl<S: ReadyStream + Drop> Slot<S> {
    ghost use Rattle.std.specs.Prelude.{◌≡◌, ◌≢◌, ◌+◌, ◌-◌, ◌<◌, ◌≤◌, max, nat_eq, [], length, drop, true, false, List};
    ghost use Rattle.std.specs.Prelude.{IfOk, IfSome, MatchOption};
    ghost use Rattle.audit_serve_ready.specs.declared.limits.TheConstants.{MAX_READ};
    ghost use Rattle.audit_serve_passes.specs.Streams.{StreamCall};
    ghost use Rattle.audit_serve_ready.specs.declared.slot.Look.{Look};
    ghost use Rattle.audit_serve_ready.specs.Reading.{IsFound};
    ghost use Rattle.audit_serve_ready.specs.Slot.{vacant, serving, closed, client_of, has_client, has_kept, is_shut};
    ghost use Rattle.audit_serve_ready.specs.Slot.{is_mute, kept_of, unread_of};
    ghost use Rattle.audit_serve_ready.specs.Slot.{with_unread, noted_of, noting, noted_after_sending};
    ghost use Rattle.audit_serve_ready.specs.Slot.{HasLooked, IsAccounted, IsPushed};

    /// A place with no client. The only error is that memory is refused.
    pub(crate) fn vacant(alloc: Global) -> Result<Slot<S>, AllocError>
        ensures { IfOk result (λ slot. slot ≡ vacant) }
    {
        Ok(Slot {
            client: None,
            unread: Unread::new(alloc)?,
            kept: Backlog::new(alloc),
            reception: Reception::Takes,
            noted: None,
        })
    }

    /// The client, if there is one.
    pub fn client(&self) -> Option<&S>
        ensures { MatchOption result (client_of self.now ≡ None) (λ client. client_of self.now ≡ Some client.now) }
    {
        self.client.as_ref()
    }

    /// Whether there is a client.
    pub fn has_client(&self) -> bool
        ensures { result ≡ has_client self.now }
    {
        self.client.is_some()
    }

    /// Whether there is no client, or the client is to be dropped.
    pub(crate) fn is_shut(&self) -> bool
        ensures { result ≡ is_shut self.now }
    {
        self.reception == Reception::Shut || self.client.is_none()
    }

    /// Whether there is no client that takes replies.
    fn is_mute(&self) -> bool
        ensures { result ≡ is_mute self.now }
    {
        self.reception != Reception::Takes || self.client.is_none()
    }

    /// Whether something is kept for a client that takes replies.
    pub(crate) fn has_kept(&self) -> bool
        ensures { result ≡ has_kept self.now }
    {
        !self.is_mute() && self.kept.len() > 0
    }

    /// Takes a client in.
    pub(crate) fn admit(&mut self, client: S)
        ensures { self.new ≡ serving client [] [] None }
    {
        self.unread.clear();
        self.kept.clear();
        self.reception = Reception::Takes;
        self.noted = None;
        self.client = Some(client);
    }

    /// Gives the client back, with what is noted of why it leaves. The place is vacant then.
    pub(crate) fn leave(&mut self) -> Option<(S, Option<Note>)>
        ensures left { self.new ≡ vacant }
        ensures client { MatchOption result (client_of self.old ≡ None) (λ given. client_of self.old ≡ Some given.0) }
        ensures noted { IfSome result (λ given. given.1 ≡ noted_of self.old) }
    {
        let noted = self.noted;
        self.kept.clear();
        self.noted = None;
        match mem::replace(&mut self.client, None) {
            Some(client) => Some((client, noted)),
            None => None,
        }
    }

    /// Drops what is kept for the client, which is to be dropped too.
    pub(crate) fn close(&mut self, why: Note)
        ensures { self.new ≡ closed why self.old }
    {
        self.kept.clear();
        self.reception = Reception::Shut;
        self.noted = Some(why);
    }

    /// How many bytes of replies may be queued for the client, beside those that are kept for it, if there is a backlog
    /// of this many: one reply always if none are kept.
    pub(crate) fn share(&self, backlog: usize) -> Share
        ensures left { length (kept_of self.now) + result.left ≤ max backlog (length (kept_of self.now)) }
        ensures whole { result.is_whole ≡ true → kept_of self.now ≡ [] }
        ensures exact { is_shut self.now ≡ false → result ≡ record {
          left = backlog - length (kept_of self.now);
          is_whole = nat_eq (length (kept_of self.now)) 0;
        } }
    {
        Share {
            left: backlog.saturating_sub(self.kept.len()),
            is_whole: self.kept.len() == 0,
        }
    }

    /// The bytes of the client that its session hasn't taken.
    pub(crate) fn unread(&self) -> &[u8]
        ensures bytes { is_shut self.now ≡ false → result.now ≡ unread_of self.now }
        ensures most { length result.now ≤ MAX_READ }
    {
        self.unread.as_slice()
    }

    /// Removes the first bytes of those that are unread: the session has taken them.
    pub(crate) fn advance(&mut self, taken: usize)
        requires live { is_shut self.old ≡ false }
        requires within { taken ≤ length (unread_of self.old) }
        ensures { self.new ≡ with_unread (drop taken (unread_of self.old)) self.old }
    {
        self.unread.remove(taken);
    }

    /// Drops the bytes that are unread.
    pub(crate) fn drop_unread(&mut self)
        ensures { self.new ≡ with_unread [] self.old }
    {
        self.unread.clear();
    }

    /// Reads a piece of the client's bytes, at most this many, if none are unread.
    pub(crate) fn look(&mut self, most: usize) -> Look
        requires { is_shut self.old ≡ false }
        ensures looked { (calls : List StreamCall) × HasLooked S.calls self.old self.new calls
            × IsFound result calls self.new }
        ensures waits { unread_of self.old ≢ [] → (result ≡ Look.Bytes) × (self.new ≡ self.old) }
    {
        if !self.unread.is_empty() {
            return Look::Bytes;
        }
        match read_some(&mut self.client, &mut self.unread, most) {
            None => Look::Nothing,
            Some(Ok(count)) if count > 0 => Look::Bytes,
            Some(Ok(_)) => {
                self.note(Note::Finished);
                Look::Over
            }
            Some(Err(_)) => {
                self.note(Note::ReadFailed);
                Look::Over
            }
        }
    }

    // Notes why the session ends, unless something worse was noted before.
    fn note(&mut self, why: Note)
        ensures { self.new ≡ noting why self.old }
    {
        if self.noted.is_none() {
            self.noted = Some(why);
        }
    }

    /// Keeps these bytes for the client and writes what it takes now of all that is kept. If a write fails, the replies
    /// are dropped from then on. If memory is refused, the place is shut. Returns whether the client took bytes or
    /// failed.
    pub(crate) fn send(&mut self, bytes: Vec<u8>) -> bool
        ensures { IsPushed S.calls result bytes.items self.old self.new }
    {
        self.keep(bytes);
        self.push()
    }

    fn keep(&mut self, bytes: Vec<u8>)
        ensures accounted { IsAccounted S.calls bytes.items [] self.old self.new }
        ensures unread { unread_of self.new ≡ unread_of self.old }
        ensures dropped { is_mute self.old ≡ false → is_mute self.new ≡ true → is_shut self.new ≡ true }
        ensures shut { is_shut self.old ≡ false → is_shut self.new ≡ true
            → (kept_of self.old ≢ []) × (bytes.items ≢ []) }
        ensures noted { noted_of self.new ≡ noted_after_sending [] self.old self.new }
    {
        if self.is_mute() {
            self.kept.discard(bytes);
            return;
        }
        if self.kept.append(bytes).is_err() {
            self.close(Note::Memory);
        }
    }

    /// Writes what is kept, as far as the client takes it now. Returns whether the client took bytes or failed.
    pub(crate) fn push(&mut self) -> bool
        ensures { IsPushed S.calls result [] self.old self.new }
    {
        if !self.has_kept() {
            return false;
        }
        match write_some(&mut self.client, self.kept.as_slice()) {
            Ok(count) => {
                self.kept.remove(count);
                count > 0
            }
            Err(StreamError) => {
                self.kept.clear();
                self.reception = Reception::Drops;
                self.noted = Some(Note::WriteFailed);
                true
            }
        }
    }
}
