//! Laws of notes. Each function does nothing: its contract is the law.
ghost use Rattle.std.specs.Prelude.{◌≡◌, ◌≤◌, ℕ, List, length};
ghost use Rattle.audit_proof.specs.declared.commitment.Commitment.{Commitment};
ghost use Rattle.audit_note.specs.NoteText.{IsNote, SpellsNote, note_text};

/// A text is the note of at most one name and commitment, so a note that was signed says one thing.
pub fn notes_are_one()
    ensures one { (text name other : List ℕ) (commitment another : Commitment) → SpellsNote text name commitment
        → SpellsNote text other another → (name ≡ other) × (commitment ≡ another) }
    ensures short { (name : List ℕ) (commitment : Commitment) → IsNote name commitment
        → length (note_text name commitment) ≤ 371 }
{}
