ghost use Rattle.std.specs.Prelude.{◌≡◌};
ghost use Rattle.audit_server.specs.Feeding.{place_after};

use crate::entering::{Item, enter_body};
use crate::feed_fault::FeedFault;
use crate::limit::Limit;
use audit_disk_model::Sectors;
use audit_serve_passes::Rights;
use audit_server_commit::{Committer, Query, Question};
use audit_store::StoreError;
use audit_wire::{Decoder, Fed, Grammar};
use std::alloc::{AllocError, Global};
use std::marker::Model;

/// What was found at the start of a piece.
#[derive(Clone, Copy, Drop)]
pub(crate) enum Front {
    /// No complete frame. The whole piece was taken.
    Part,
    /// A request, which was queued. It took the first `taken` bytes of the piece.
    Request { taken: usize },
    /// A malformed place, or a request that isn't allowed, which was queued. The session has ended.
    Last,
    /// A request or a malformed place that the limit doesn't admit. The first `taken` bytes of the piece were taken, up
    /// to the one that completes it.
    Withheld { taken: usize },
}

/// What a core keeps of a session: its grammar, its rights, its decoder, whether it has ended, and whether it made a
/// request that isn't allowed.
#[derive(Drop)]
pub(crate) struct Session {
    grammar: Grammar,
    rights: Rights,
    decoder: Decoder,
    ended: bool,
    cut_off: bool,
}

// The number of bytes of a piece up to the end of a frame or of a malformed length.
fn place_after(fed: Fed) -> Option<usize>
    ensures { result ≡ place_after fed }
{
    match fed {
        Fed::More => None,
        Fed::Body { taken } | Fed::Malformed { taken } => Some(taken),
    }
}

impl Model for Session {
    ghost use Rattle.audit_server_commit.specs.Sessions.{SessionData};
    ghost use Rattle.audit_server.specs.Feeding.{session_view, IsLive};

    ghost Value = { SessionData };

    ghost view = { λ session. session_view (record { grammar = session.grammar; rights = session.rights })
        session.decoder session.ended session.cut_off };

    ghost invariant = { λ session. IsLive session.decoder session.ended };
}

impl Session {
    ghost use Rattle.std.specs.Prelude.{◌≡◌, ◌<◌, ℕ, false, true, IfOk};
    ghost use Rattle.audit_base.specs.declared.limits.TheConstants.{SESSIONS};
    ghost use Rattle.audit_store.specs.Store.{is_broken};
    ghost use Rattle.audit_server_commit.specs.Committer.{store_of};
    ghost use Rattle.audit_server_commit.specs.Sessions.{begun_session, ended_session};
    ghost use Rattle.audit_server.specs.Feeding.{IsFront, IsFedWithin};
    ghost use Rattle.audit_server.specs.Ending.{IsFrameEnd, IsEnd};

    /// Makes a session with this grammar and these rights at the start of its stream. It reserves all the capacity that
    /// it will need. The only error is that memory is refused.
    pub(crate) fn new(
        alloc: Global,
        grammar: Grammar,
        rights: Rights,
    ) -> Result<Session, AllocError>
        ensures { IfOk result (λ session.
            session ≡ begun_session (record { grammar = grammar; rights = rights })) }
    {
        Ok(Session {
            grammar,
            rights,
            decoder: Decoder::new(alloc)?,
            ended: false,
            cut_off: false,
        })
    }

    pub(crate) fn has_ended(&self) -> bool
        ensures { result ≡ self.now.ended }
    {
        self.ended
    }

    /// Whether it has ended by a request that isn't allowed.
    pub(crate) fn is_cut_off(&self) -> bool
        ensures by { result ≡ self.now.cut_off }
        ensures over { result ≡ true → self.now.ended ≡ true }
    {
        self.ended && self.cut_off
    }

    /// Takes the next bytes of the session, whose number is `session`, up to the first request or malformed place that
    /// the limit doesn't admit, and returns how many it took. If a request or a malformed place is refused or not
    /// admitted, the bytes before the one that completed it have been taken.
    pub(crate) fn feed<D: Sectors>(
        &mut self,
        committer: &mut Committer<D>,
        alloc: Global,
        session: usize,
        piece: &[u8],
        limit: &mut Limit,
    ) -> Result<usize, FeedFault>
        requires session { session < SESSIONS }
        requires sound { is_broken (store_of committer.old) ≡ false }
        ensures { IsFedWithin session piece.now self.old self.new committer.old committer.new
            limit.old limit.new result }
    {
        if self.ended {
            return Ok(piece.len());
        }
        self.feed_live(committer, alloc, session, piece, limit)
    }

    fn feed_live<D: Sectors>(
        &mut self,
        committer: &mut Committer<D>,
        alloc: Global,
        session: usize,
        piece: &[u8],
        limit: &mut Limit,
    ) -> Result<usize, FeedFault>
        requires session { session < SESSIONS }
        requires sound { is_broken (store_of committer.old) ≡ false }
        requires live { self.old.ended ≡ false }
        ensures { IsFedWithin session piece.now self.old self.new committer.old committer.new
            limit.old limit.new result }
    {
        let mut taken = 0;
        loop {
            match self.take_front(committer, alloc, session, &piece[taken..], limit) {
                Ok(Front::Request { taken: more }) => taken += more,
                Ok(Front::Withheld { taken: more }) => return Ok(taken + more),
                Ok(Front::Part) => return Ok(piece.len()),
                Ok(Front::Last) => return Ok(piece.len()),
                Err(fault) => {
                    return Err(FeedFault {
                        taken: taken + fault.taken,
                        error: fault.error,
                    });
                }
            }
        }
    }

    // Takes a piece up to the end of its first frame.
    fn take_front<D: Sectors>(
        &mut self,
        committer: &mut Committer<D>,
        alloc: Global,
        session: usize,
        piece: &[u8],
        limit: &mut Limit,
    ) -> Result<Front, FeedFault>
        requires session { session < SESSIONS }
        requires live { self.old.ended ≡ false }
        ensures { IsFront session piece.now self.old self.new committer.old committer.new limit.old limit.new result }
    {
        let fed = self.decoder.feed(piece);
        let Some(taken) = place_after(fed) else {
            return Ok(Front::Part);
        };
        // A malformed length leaves the body empty, and an empty body isn't a request.
        match enter_body(
            committer,
            alloc,
            session,
            self.grammar,
            self.rights,
            self.decoder.body(),
            limit,
        ) {
            Ok(Item::Request) => Ok(Front::Request { taken }),
            Ok(Item::Withheld) => {
                self.decoder.put_back();
                let taken = taken - 1;
                Ok(Front::Withheld { taken })
            }
            Ok(Item::Last { is_cut_off }) => {
                self.ended = true;
                self.cut_off = is_cut_off;
                Ok(Front::Last)
            }
            Err(error) => {
                self.decoder.put_back();
                let taken = taken - 1;
                Err(FeedFault { taken, error })
            }
        }
    }

    /// Ends the session, whose number is `session`. An incomplete frame is malformed. On an error the session has not
    /// ended.
    pub(crate) fn end<D: Sectors>(
        &mut self,
        committer: &mut Committer<D>,
        session: usize,
    ) -> Result<(), StoreError>
        requires session { session < SESSIONS }
        requires sound { is_broken (store_of committer.old) ≡ false }
        ensures { IsEnd session self.old self.new committer.old committer.new result }
    {
        match self.end_frame(committer, session) {
            Ok(()) => {
                self.cut_off = self.is_cut_off();
                self.ended = true;
                Ok(())
            }
            Err(error) => Err(error),
        }
    }

    // Queues an incomplete frame as a malformed place.
    fn end_frame<D: Sectors>(
        &self,
        committer: &mut Committer<D>,
        session: usize,
    ) -> Result<(), StoreError>
        requires session { session < SESSIONS }
        requires sound { is_broken (store_of committer.old) ≡ false }
        ensures { IsFrameEnd session self.now committer.old committer.new result }
    {
        if self.ended || !self.decoder.pending() {
            return Ok(());
        }
        let query = Query::Malformed;
        committer.ask(Question { session, query })
    }
}
