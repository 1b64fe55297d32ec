//! Laws of a witness's file. Each function does nothing: its contract is the law.
ghost use Rattle.std.specs.Prelude.{◌≡◌, ◌∷◌, ◌++◌, [], ℕ, Bool, Some, List};
ghost use Rattle.std.specs.List.{AllByRecursion};
ghost use Rattle.audit_text.specs.Lines.{lines_of};
ghost use Rattle.audit_cli_offline.specs.CommitmentWord.{commitment_in_word};
ghost use Rattle.audit_proof.specs.declared.commitment.Commitment.{Commitment};
ghost use Rattle.audit_cli_witness.specs.State.{IsStored, HoldsState, commitment_word, kept_in, lacks_feed, line_after};
ghost use Rattle.audit_cli_witness.specs.State.{commitment_lines};
ghost use Rattle.audit_cli_witness.specs.StateFaults.{HasNoBadLine};
ghost use Rattle.audit_wire_ask.specs.Keeping.{last_kept};

/// The last commitment in a witness's file is the newest of those that it was seen to hold: so the next look begins
/// from the one that this look kept.
pub fn the_next_look_begins_from_what_was_kept()
    ensures { (file : List ℕ) (kept : List Commitment) (end : ℕ) (lacks : Bool) → HoldsState file kept end lacks
        → last_kept (kept_in file) ≡ last_kept kept }
{}

/// What is added to a witness's file is one line after the others, and is read as the commitment that was added: the
/// newest of the next look.
pub fn the_line_that_was_added_is_the_newest()
    ensures added { (text : List ℕ) (seen : Commitment) → IsStored seen
        → lines_of (text ++ line_after (lacks_feed text) seen) ≡ lines_of text ++ commitment_word seen ∷ [] }
    ensures read { (seen : Commitment) → IsStored seen → commitment_in_word (commitment_word seen) ≡ Some seen }
{}

/// The lines of any commitments, however many, are a file by which a look goes on, and are read as these commitments.
pub fn files_of_lines_are_read_back()
    ensures read { (kept : List Commitment) → AllByRecursion IsStored kept → kept_in (commitment_lines kept) ≡ kept }
    ensures sound { (kept : List Commitment) → AllByRecursion IsStored kept → HasNoBadLine (commitment_lines kept) }
{}
