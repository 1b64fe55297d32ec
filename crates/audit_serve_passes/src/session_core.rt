ghost use Rattle.std.specs.Prelude.{◌≡◌, ◌+◌, ◌<◌, ◌≤◌, ℕ, List, [], ◌∷◌, true, length, take, IfOk, IfErr, OnOk, OnErr};
ghost use Rattle.audit_base.specs.declared.limits.TheConstants.{SESSIONS};
ghost use Rattle.audit_serve_passes.specs.Steps.{StepData, a_piece, an_end, a_flush};
ghost use Rattle.audit_serve_passes.specs.Core.{CoreModel, GoesBy, asked_by, no_bytes, bytes_for};
ghost use Rattle.audit_serve_passes.specs.Owing.{OwesNoMore, OwesWithin, OwesAtEnd, IsBeyondAllowance};
ghost use Rattle.audit_serve_passes.specs.Ending.{EndsQuietly};

use crate::allowance::Allowance;
use crate::rights::Rights;
use std::alloc::AllocError;

/// A core that serves the requests of sessions. It takes their bytes in pieces of any size, and keeps the bytes of the
/// replies until they are taken.
///
/// A successful call of `feed`, `end` or `flush` is one step. A refused call is a part of its step: all of it,
/// nothing, or a prefix of its piece. Each core defines the effect of steps and the meaning of its refusals. For every
/// core, whether a session has ended depends only on the steps.
pub trait SessionCore {
    /// Why a step is refused.
    type Error;

    /// The core as contracts see it.
    ghost model: { CoreModel Self };

    // What a refusal with this error states about the old and the new core.
    ghost refuses: { Self → Self → Self.Error → Type 0 };

    /// Takes the next bytes of a session. Bytes of a session that has ended are dropped.
    fn feed(&mut self, session: usize, piece: &[u8]) -> Result<(), Self::Error>
        requires { session < SESSIONS }
        ensures reaches { GoesBy model (a_piece session piece.now) self.old self.new }
        ensures did { OnOk result (model.DidSteps self.old self.new (a_piece session piece.now ∷ []) no_bytes) }
        ensures refused { IfErr result (refuses self.old self.new) };

    /// Takes the next bytes of a session up to the first request that the allowance doesn't admit, and returns how many
    /// it took. The allowance is then what is left of it. Bytes of a session that has ended are dropped.
    fn feed_within(
        &mut self,
        session: usize,
        piece: &[u8],
        allowance: &mut Allowance,
    ) -> Result<usize, Self::Error>
        requires { session < SESSIONS }
        ensures within { IfOk result (λ taken. taken ≤ length piece.now) }
        ensures reaches { GoesBy model (a_piece session piece.now) self.old self.new }
        ensures did { IfOk result (λ taken.
            model.DidSteps self.old self.new (a_piece session (take taken piece.now) ∷ []) no_bytes) }
        // The replies that it may have to send are within the session's share.
        ensures owes { OnOk result (OwesWithin model session allowance.old.session self.old self.new) }
        // It stops only before a request that isn't admitted, and only requests are taken of the allowance.
        ensures stops { IfOk result (λ taken. taken < length piece.now
            → IsBeyondAllowance model session self.old (take taken piece.now) piece.now allowance.new) }
        ensures unspent { IfOk result (λ taken. model.requests self.old session (take taken piece.now) ≡ []
            → allowance.new ≡ allowance.old) }
        ensures spent { IfOk result (λ taken. allowance.old.session.left
            ≤ allowance.new.session.left + model.replies self.old session (take taken piece.now)) }
        ensures asked { IfOk result (λ taken. allowance.old.questions.left
            ≤ allowance.new.questions.left + asked_by (model.requests self.old session (take taken piece.now))) }
        ensures fewer { OnOk result (allowance.new.questions.left ≤ allowance.old.questions.left) }
        ensures refused { IfErr result (refuses self.old self.new) };

    /// Ends a session: no more of its bytes follow.
    fn end(&mut self, session: usize) -> Result<(), Self::Error>
        requires { session < SESSIONS }
        ensures reaches { GoesBy model (an_end session) self.old self.new }
        ensures did { OnOk result (model.DidSteps self.old self.new (an_end session ∷ []) no_bytes) }
        ensures over { OnOk result (model.ended self.new [] session ≡ true) }
        ensures owes { OnOk result (OwesAtEnd model session self.old self.new) }
        // No other client's output is changed by it.
        ensures quiet { OnOk result (EndsQuietly model self.old self.new) }
        ensures refused { IfErr result (refuses self.old self.new) };

    /// Commits and answers what waits.
    fn flush(&mut self) -> Result<(), Self::Error>
        ensures reaches { GoesBy model a_flush self.old self.new }
        ensures did { OnOk result (model.DidSteps self.old self.new (a_flush ∷ []) no_bytes) }
        ensures idle { OnOk result (model.Idle self.new) }
        ensures owes { OnOk result (OwesNoMore model self.old self.new) }
        ensures refused { IfErr result (refuses self.old self.new) };

    /// Takes the bytes that wait for a session. The bytes for other sessions are kept.
    fn take_output(&mut self, session: usize) -> Vec<u8>
        requires { session < SESSIONS }
        ensures taken { result.items ≡ model.output self.old session }
        ensures did { model.DidSteps self.old self.new [] (bytes_for session result.items) }
        ensures empty { model.output self.new session ≡ [] }
        ensures idle { model.Idle self.old → model.Idle self.new }
        ensures waiting { model.waiting self.new ≤ model.waiting self.old }
        ensures others { (other : ℕ) → (other ≡ session → ⊥)
            → model.output self.new other ≡ model.output self.old other };

    /// Starts an ended session anew, for another client with these rights. Nothing may wait to be answered, and the
    /// session's output must be empty, so that no reply to the earlier client goes to the next one. The only error is
    /// that memory is refused; nothing has then changed.
    fn reopen(&mut self, session: usize, rights: Rights) -> Result<(), AllocError>
        requires session { session < SESSIONS }
        requires ended { model.ended self.old [] session ≡ true }
        requires idle { model.Idle self.old }
        requires empty { model.output self.old session ≡ [] }
        ensures begun { OnOk result (model.Begins session rights self.old self.new) }
        ensures idle { model.Idle self.new }
        ensures outputs { (other : ℕ) → model.output self.new other ≡ model.output self.old other }
        ensures refused { OnErr result (model.DidSteps self.old self.new [] no_bytes) }
        ensures memory { OnErr result (model.LacksMemory session self.old self.new) };

    /// Returns whether a session has ended: by `end`, by bytes that aren't a request, or by a request that its rights
    /// don't allow.
    fn ended(&self, session: usize) -> bool
        requires { session < SESSIONS }
        ensures { result ≡ model.ended self.now [] session };

    /// Returns whether a session has ended by a request that its rights don't allow.
    fn is_cut_off(&self, session: usize) -> bool
        requires { session < SESSIONS }
        ensures by { result ≡ model.cut_off self.now session }
        ensures over { result ≡ true → model.ended self.now [] session ≡ true };

    // If a refusal follows other steps, what it states holds from before those steps too.
    ghost refuses_after: { (old mid new : Self) (steps : List StepData) (taken : ℕ → List ℕ) (error : Self.Error)
        → model.DidSteps old mid steps taken → refuses mid new error → refuses old new error };
}
