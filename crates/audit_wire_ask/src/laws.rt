//! Laws of what a witness keeps, and of lines. Each function does nothing: its contract is the law.
ghost use Rattle.std.specs.Prelude.{◌≢◌, ◌<◌, ◌∷◌, ◌++◌, [], ℕ, Option, Some, Ok, List, length};
ghost use Rattle.audit_chain.specs.EventData.{EventData};
ghost use Rattle.audit_text.specs.declared.line_form.LineForm.{LineForm};
ghost use Rattle.audit_text.specs.LineEvents.{event_in_line};
ghost use Rattle.audit_serve_sockets.specs.declared.limits.TheConstants.{MAX_DIGITS};
ghost use Rattle.audit_proof.specs.declared.commitment.Commitment.{Commitment};
ghost use Rattle.audit_wire.specs.Frame.{frame};
ghost use Rattle.audit_wire_ask.specs.declared.fault.ClientError.{ClientError};
ghost use Rattle.audit_wire_ask.specs.Asking.{newest_reply};
ghost use Rattle.audit_wire_ask.specs.Conversation.{IsPartOfFrame, ReadsReply};
ghost use Rattle.audit_wire_ask.specs.Failing.{FailsNewest};
ghost use Rattle.audit_wire_ask.specs.Joined.{IsJoined, AreJoined};
ghost use Rattle.audit_wire_ask.specs.Keeping.{AreRuns, kept_after};

/// Commitments of which each is joined to the next stay so when one is added to which the newest is joined. So they
/// are over any runs of a witness that keeps what [`watch`](crate::watch) saw grow.
pub fn what_a_witness_keeps_is_joined()
    ensures first { (seen : Commitment) → AreJoined (seen ∷ []) }
    ensures more { (before : List Commitment) (kept seen : Commitment) → AreJoined (before ++ kept ∷ [])
        → IsJoined kept seen → AreJoined (before ++ kept ∷ seen ∷ []) }
{}

/// What a witness keeps stays joined over any sequence of runs, whatever the server gave in them: the commitments of
/// its file are joined pairwise, if those that it began with are. So two different pasts under them are a SHA-256
/// collision, by [`collide_three`](audit_proof::collide_three).
pub fn runs_of_a_witness_stay_joined()
    ensures { (start : List Commitment) (runs : List (List Commitment)) → AreJoined start → AreRuns start runs
        → AreJoined (kept_after start runs) }
{}

/// Less than a frame isn't one that was read whole. So once the reply with the newest commitment was read whole, none
/// of the errors for not getting it can be given: a witness that read it judges it.
pub fn what_was_read_whole_is_judged()
    ensures part { (body more : List ℕ) → IsPartOfFrame (frame body ++ more) → ⊥ }
    ensures newest { (written_old written_new : Option (List ℕ)) (before after : List ℕ) (newest : Commitment)
        (error : ClientError) → ReadsReply (Some before) (Some after) (newest_reply newest)
        → FailsNewest written_old written_new (Some before) (Some after) error → ⊥ }
{}

/// A line that is refused as too long before it is read whole has no event, in either form.
pub fn longer_lines_have_no_event()
    ensures { (form : LineForm) (line : List ℕ) (event : EventData) → MAX_DIGITS < length line
        → event_in_line form line ≢ Ok event }
{}
