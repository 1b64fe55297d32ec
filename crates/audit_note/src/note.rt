//! Notes: a commitment with the name of its log, as lines of text that may be signed and dated.
ghost use Rattle.std.specs.Prelude.{◌≡◌, ◌↔◌, ◌++◌, ℕ, List, [], IsTrue, IfSome, MatchOption};
ghost use Rattle.audit_proof.specs.declared.commitment.Commitment.{Commitment};
ghost use Rattle.audit_proof.specs.SoundCommitment.{IsSoundCommitment};
ghost use Rattle.audit_note.specs.NoteText.{SpellsNote, IsNoNote, note_text};

use crate::name::is_log_name;
use audit_base::Hash;
use audit_proof::Commitment;
use audit_text::{after_line, decimal_of, digits_of, field, hash_in, number_in_text};
use itoa::Buffer;

/// A commitment with the name of its log.
#[derive(Clone, Copy)]
pub struct Note<'a> {
    /// The name.
    pub name: &'a [u8],
    /// The commitment.
    pub commitment: Commitment,
}

/// Reads the note of which this is the text, and no other text: a note has only one. It takes no memory.
pub fn read_note<'a>(text: &'a [u8]) -> Option<Note<'a>>
    ensures { MatchOption result (IsNoNote text.now) (λ note. SpellsNote text.now note.name.now note.commitment) }
{
    let note = parse(text)?;
    if !is_log_name(note.name) || !is_text_of(text, note) {
        return None;
    }
    Some(note)
}

// The parts of the note whose text this may be. Other texts may have parts too.
fn parse<'a>(text: &'a [u8]) -> Option<Note<'a>>
    ensures only { (name : List ℕ) (commitment : Commitment) → SpellsNote text.now name commitment
        → MatchOption result ⊥ (λ note. (note.name.now ≡ name) × (note.commitment ≡ commitment)) }
    ensures sound { IfSome result (λ note. IsSoundCommitment note.commitment) }
{
    let (_, rest) = field(text);
    let (name, rest) = field(rest);
    let (count, rest) = field(rest);
    let (root, _) = field(rest);
    let commitment = commitment_with(number_in_text(count)?, hash_in(root)?);
    Some(Note { name, commitment })
}

fn commitment_with(count: u64, root: Hash) -> Commitment
    ensures parts { result ≡ record { count = count; root = root } }
    ensures sound { IsSoundCommitment result }
{
    Commitment { count, root }
}

// Whether a text is the one of a note with these parts.
fn is_text_of(text: &[u8], note: Note<'_>) -> bool
    ensures { IsTrue result ↔ (text.now ≡ note_text note.entry.name.now note.entry.commitment) }
{
    match after_note(text, note) {
        Some(rest) => is_none(rest),
        None => false,
    }
}

fn is_none(bytes: &[u8]) -> bool
    ensures { IsTrue result ↔ (bytes.now ≡ []) }
{
    bytes.is_empty()
}

// What follows the lines of a note, if the text begins with them.
fn after_note<'a>(text: &'a [u8], note: Note<'_>) -> Option<&'a [u8]>
    ensures found { IfSome result (λ rest. text.now
        ≡ note_text note.entry.name.now note.entry.commitment ++ rest.now) }
    ensures only { (rest : List ℕ) → text.now ≡ note_text note.entry.name.now note.entry.commitment ++ rest
        → MatchOption result ⊥ (λ found. found.now ≡ rest) }
{
    let mut buffer = Buffer::new();
    let count = decimal_of(&mut buffer, note.commitment.count);
    let root = digits_of(&note.commitment.root);
    let after_version = after_line(text, b"audit-note", b"1")?;
    let after_name = after_line(after_version, b"name", note.name)?;
    let after_count = after_line(after_name, b"count", count)?;
    let rest = after_line(after_count, b"root", &root)?;
    Some(rest)
}
