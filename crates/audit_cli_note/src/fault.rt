use audit_text::LinesError;
use std::alloc::AllocError;
use thiserror::Error;

/// Why a note wasn't written or read.
#[derive(Clone, Copy, Debug, Drop, Error, PartialEq, Eq)]
pub enum NoteError {
    /// A word isn't the name of a log or a commitment, or a text isn't a note.
    #[error("no note")]
    NoNote,
    /// A file couldn't be opened.
    #[error("the file can't be opened")]
    File,
    /// A read or a write failed, or memory was refused.
    #[error(transparent)]
    Lines(LinesError),
}

impl From<LinesError> for NoteError {
    ghost use Rattle.std.specs.Prelude.{◌≡◌};
    ghost use Rattle.audit_cli_note.specs.declared.fault.NoteError.TheVariants.{Lines};

    ghost from_gives = { λ given fault. fault ≡ Lines given };

    fn from(given: LinesError) -> Self {
        NoteError::Lines(given)
    }
}

impl From<AllocError> for NoteError {
    ghost use Rattle.std.specs.Prelude.{◌≡◌};
    ghost use Rattle.audit_text.specs.declared.fault.LinesError.TheVariants.{Memory};
    ghost use Rattle.audit_cli_note.specs.declared.fault.NoteError.TheVariants.{Lines};

    ghost from_gives = { λ _ fault. fault ≡ Lines Memory };

    fn from(_: AllocError) -> Self {
        NoteError::Lines(LinesError::Memory)
    }
}
