//! Notes that are written.
ghost use Rattle.std.specs.Prelude.{◌≡◌, ◌⊎◌, None, Err, false, IfOk, OnOk, IfErr};
ghost use Rattle.audit_note.specs.CommitmentWord.{commitment_in_word};
ghost use Rattle.audit_note.specs.NoteText.{is_log_name, note_text};
ghost use Rattle.audit_cli_note.specs.NoteWords.{WritesNote, IsNoteUnwritten};

use crate::fault::NoteError;
use audit_note::{commitment_in_word, is_log_name};
use audit_proof::Commitment;
use audit_text::{push_hex, push_number, write_whole};
use std::alloc::{AllocError, Global};
use std::io::Write;

/// Writes the note of a log with this name and commitment, both words of a command line. The words are judged first:
/// `NoNote` if the first one isn't a name or the second no commitment, and then nothing was written. Otherwise it fails
/// only if a write failed or memory was refused.
pub fn write_note<W: Write>(
    alloc: Global,
    name: &str,
    word: &str,
    writer: &mut W,
) -> Result<(), NoteError>
    ensures wrong { (is_log_name name.now ≡ false) ⊎ (commitment_in_word word.now ≡ None)
        → result ≡ Err NoteError.NoNote }
    ensures written { OnOk result (WritesNote name.now word.now (W.contents writer.old) (W.contents writer.new)) }
    ensures fault { IfErr result (λ fault. IsNoteUnwritten name.now word.now fault (W.contents writer.old)
        (W.contents writer.new)) }
{
    if !is_log_name(name.as_bytes()) {
        return Err(NoteError::NoNote);
    }
    let Some(commitment) = commitment_in_word(word.as_bytes()) else {
        return Err(NoteError::NoNote);
    };
    let text = note_text(alloc, name.as_bytes(), &commitment)?;
    Ok(write_whole(writer, &text)?)
}

/// Returns the note of a log with this name and commitment as text: a line with a version, and one each for the name,
/// the count in decimal, and the root in lowercase hex digits.
#[tactic(auto, unfolding(audit_note::specs::NoteText::note_text))]
pub fn note_text(alloc: Global, name: &[u8], commitment: &Commitment) -> Result<Vec<u8>, AllocError>
    ensures { IfOk result (λ text. text.items ≡ note_text name.now commitment.now) }
{
    let mut text = Vec::new(alloc);
    text.extend_from_slice(b"audit-note 1\nname ")?;
    text.extend_from_slice(name)?;
    push_number(&mut text, b"\ncount ", commitment.count)?;
    text.extend_from_slice(b"\nroot ")?;
    push_hex(&mut text, &commitment.root)?;
    text.extend_from_slice(b"\n")?;
    Ok(text)
}
