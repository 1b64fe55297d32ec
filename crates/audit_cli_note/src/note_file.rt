//! Words of a command line that name a file with a note.
ghost use Rattle.std.specs.Prelude.{◌≡◌, None, Some, IfOk, IfErr, IfSome, MatchOption, string_bytes};
ghost use Rattle.audit_proof.specs.SoundCommitment.{IsSoundCommitment};
ghost use Rattle.audit_note.specs.CommitmentWord.{commitment_in_word};
ghost use Rattle.audit_cli_note.specs.NoteWords.{path_after_sign, IsNoteAt, IsNoteAtFault, IsNoteFileFault, IsNoteTo};

use crate::fault::NoteError;
use audit_disk::{SystemFile, SystemFiles};
use audit_note::read_note;
use audit_proof::Commitment;
use audit_text::{LinesError, read_input};
use hex::encode;
use itoa::Buffer;
use std::alloc::{AllocError, Global};
use std::io::Read;

/// The path of the file that a word names as one with a note: what follows its first byte, if that is `@`.
pub fn note_path(word: &str) -> Option<&str>
    ensures { MatchOption result (path_after_sign word.now ≡ None) (λ path. path_after_sign word.now ≡ Some path.now) }
{
    word.strip_prefix("@")
}

/// Reads the commitment in the note of the file at a path, and returns it as a word, COUNT:ROOT. Errors: `File` if the
/// file can't be opened; `NoNote` if it isn't the text of a note, and nothing else; `Lines` if a read failed or memory
/// was refused.
pub fn named_commitment<F: SystemFiles>(
    rt: &F,
    alloc: Global,
    path: &str,
) -> Result<String, NoteError>
where
    F::File: SystemFile,
    ensures read { IfOk result (λ word. IsNoteAt F.File.facts F.File.remaining path.now (string_bytes word)) }
    ensures fault { IfErr result (IsNoteAtFault F.File.facts F.File.remaining (F.failed rt.now) path.now) }
{
    let Ok(mut file) = rt.open_to_read(path) else {
        return Err(NoteError::File);
    };
    let commitment = read_commitment(alloc, &mut file)?;
    Ok(commitment_word(alloc, &commitment)?)
}

// The commitment in the note that a reader has.
fn read_commitment<R: Read>(alloc: Global, reader: &mut R) -> Result<Commitment, NoteError>
    ensures note { IfOk result (λ commitment. IfSome (R.remaining reader.old) (λ text. IsNoteTo text commitment)) }
    ensures sound { IfOk result IsSoundCommitment }
    ensures fault { IfErr result (IsNoteFileFault (R.remaining reader.old)) }
{
    match read_input(alloc, reader) {
        Ok(text) => match read_note(&text) {
            Some(note) => Ok(note.commitment),
            None => Err(NoteError::NoNote),
        },
        Err(LinesError::InputTooLong) => Err(NoteError::NoNote),
        Err(fault) => Err(NoteError::Lines(fault)),
    }
}

// COUNT:ROOT.
fn commitment_word(alloc: Global, commitment: &Commitment) -> Result<String, AllocError>
    ensures { IsSoundCommitment commitment.now
        → IfOk result (λ word. commitment_in_word (string_bytes word) ≡ Some commitment.now) }
{
    let mut digits = Buffer::new();
    let mut word = String::new(alloc);
    word.push_str(digits.format(commitment.count))?;
    word.push_str(":")?;
    word.push_str(encode(alloc, commitment.root)?.as_str())?;
    Ok(word)
}
