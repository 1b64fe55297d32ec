//! Commitments, read from words and from notes.
ghost use Rattle.std.specs.Prelude.{◌≡◌};
ghost use Rattle.audit_note.specs.CommitmentWord.{commitment_in_word};
ghost use Rattle.audit_c.specs.Worded.{IsWordRead, IsNoteRead};

use crate::answers::{MALFORMED, OK};
use crate::commitment::{GivenCommitment, given_of};
use audit_note::{commitment_in_word, read_note};

/// `audit_store_note`: the commitment in a note, and the length of the name of its log, which begins at byte 18 of the
/// note.
#[derive(Clone, Copy)]
#[repr(C)]
pub struct GivenNote {
    /// The commitment.
    pub commitment: GivenCommitment,
    /// The length of the name in bytes, from 1 to 255.
    pub name_size: usize,
}

/// Reads a commitment as a word: COUNT:ROOT, as the program prints and takes it. Returns `OK`, or `MALFORMED` if the
/// bytes are no such word; `commitment` is then as it was.
#[unsafe(no_mangle)]
pub extern "C" fn audit_store_read_commitment(word: &[u8], commitment: &mut GivenCommitment) -> u32
    ensures { IsWordRead (commitment_in_word word.now) commitment.old commitment.new result }
{
    let Some(found) = commitment_in_word(word) else {
        return MALFORMED;
    };
    *commitment = given_of(found);
    OK
}

/// Reads the note of which these bytes are the text. Returns `OK`, or `MALFORMED` if they are the text of none; `note`
/// is then as it was.
#[unsafe(no_mangle)]
pub extern "C" fn audit_store_read_note(text: &[u8], note: &mut GivenNote) -> u32
    ensures { IsNoteRead text.now note.old note.new result }
{
    let Some(found) = read_note(text) else {
        return MALFORMED;
    };
    let name_size = found.name.len();
    let commitment = given_of(found.commitment);
    *note = GivenNote {
        commitment,
        name_size,
    };
    OK
}
