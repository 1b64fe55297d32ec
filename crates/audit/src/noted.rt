//! Notes: the command that writes one, and the words of other commands that name a file with one.
use crate::command::Asked;
use audit_cli_base::CommandError;
use audit_cli_disclosure::Request as Disclosure;
use audit_cli_note::{NoteError, named_commitment, note_path};
use audit_cli_store::Request;
use audit_disk::{SystemFile, SystemFiles};
use std::alloc::Global;

/// A request for a note, with the words of the command line as given.
#[derive(Clone, Copy)]
pub struct NoteRequest<'a> {
    /// The name of the log.
    pub name: &'a str,
    /// The commitment.
    pub commitment: &'a str,
}

/// The commitments that were read from the notes that a command line names, as words.
#[derive(Drop)]
pub(crate) struct Noted {
    first: Option<String>,
    second: Option<String>,
    /// Why one wasn't read.
    pub(crate) fault: Option<CommandError>,
}

impl Noted {
    /// Reads the notes that a command's words for commitments name, up to the first that can't be read.
    pub(crate) fn read<F: SystemFiles>(rt: &F, alloc: Global, asked: Asked<'_>) -> Noted
    where
        F::File: SystemFile,
    {
        let (first, second) = commitment_words(asked);
        let first = match read_word(rt, alloc, first) {
            Ok(first) => first,
            Err(fault) => return Noted::unread(None, fault),
        };
        match read_word(rt, alloc, second) {
            Ok(second) => Noted {
                first,
                second,
                fault: None,
            },
            Err(fault) => Noted::unread(first, fault),
        }
    }

    fn unread(first: Option<String>, fault: CommandError) -> Noted {
        Noted {
            first,
            second: None,
            fault: Some(fault),
        }
    }

    /// The command with these commitments for the words that name them.
    pub(crate) fn in_place<'a>(&'a self, asked: Asked<'a>) -> Asked<'a> {
        let asked = match &self.first {
            Some(word) => with_first(asked, word.as_str()),
            None => asked,
        };
        match &self.second {
            Some(word) => with_second(asked, word.as_str()),
            None => asked,
        }
    }
}

/// The file of the first note that wasn't read.
pub(crate) fn unread_note<'a>(asked: Asked<'a>) -> Option<&'a str> {
    let (first, second) = commitment_words(asked);
    match file_in(first) {
        Some(file) => Some(file),
        None => file_in(second),
    }
}

// The file that a word names as one with a note.
fn file_in<'a>(word: Option<&'a str>) -> Option<&'a str> {
    match word {
        Some(word) => note_path(word),
        None => None,
    }
}

// The words of a command that are commitments.
fn commitment_words<'a>(asked: Asked<'a>) -> (Option<&'a str>, Option<&'a str>) {
    match asked {
        Asked::Plain(Request::Check { older, newer, .. }) => (Some(older), newer),
        Asked::Plain(Request::Open(asked)) => (Some(asked.commitment), asked.newer),
        Asked::Plain(Request::CheckLink(asked)) => (Some(asked.old), asked.new),
        Asked::Plain(Request::Verify(asked)) => (Some(asked.commitment), None),
        Asked::Note(note) => (Some(note.commitment), None),
        Asked::Search(asked) => (asked.under, None),
        Asked::Disclosure(Disclosure::Disclose(asked)) => (Some(asked.commitment), None),
        Asked::Disclosure(Disclosure::Show(asked)) => (Some(asked.commitment), None),
        _ => (None, None),
    }
}

// The commitment in the note that a word names, if it names one.
fn read_word<F: SystemFiles>(
    rt: &F,
    alloc: Global,
    word: Option<&str>,
) -> Result<Option<String>, CommandError>
where
    F::File: SystemFile,
{
    let Some(path) = file_in(word) else {
        return Ok(None);
    };
    match named_commitment(rt, alloc, path) {
        Ok(found) => Ok(Some(found)),
        Err(fault) => Err(fault_of(fault)),
    }
}

/// The fault of a command that a note has.
pub(crate) fn fault_of(fault: NoteError) -> CommandError {
    match fault {
        NoteError::NoNote => CommandError::BadArgument,
        NoteError::File => CommandError::File,
        NoteError::Lines(cause) => CommandError::Lines(cause),
    }
}

// The command with another word for its first commitment.
fn with_first<'a>(asked: Asked<'a>, word: &'a str) -> Asked<'a> {
    match asked {
        Asked::Plain(
            Request::Check {
                proof,
                newer,
                form,
                ..
            },
        ) => Asked::Plain(Request::Check {
            proof,
            older: word,
            newer,
            form,
        }),
        Asked::Plain(Request::Open(mut asked)) => {
            asked.commitment = word;
            Asked::Plain(Request::Open(asked))
        }
        Asked::Plain(Request::CheckLink(mut asked)) => {
            asked.old = word;
            Asked::Plain(Request::CheckLink(asked))
        }
        Asked::Plain(Request::Verify(mut asked)) => {
            asked.commitment = word;
            Asked::Plain(Request::Verify(asked))
        }
        Asked::Note(mut note) => {
            note.commitment = word;
            Asked::Note(note)
        }
        Asked::Search(mut asked) => {
            asked.under = Some(word);
            Asked::Search(asked)
        }
        Asked::Disclosure(Disclosure::Disclose(mut asked)) => {
            asked.commitment = word;
            Asked::Disclosure(Disclosure::Disclose(asked))
        }
        Asked::Disclosure(Disclosure::Show(mut asked)) => {
            asked.commitment = word;
            Asked::Disclosure(Disclosure::Show(asked))
        }
        _ => asked,
    }
}

// The command with another word for its second commitment.
fn with_second<'a>(asked: Asked<'a>, word: &'a str) -> Asked<'a> {
    match asked {
        Asked::Plain(
            Request::Check {
                proof,
                older,
                form,
                ..
            },
        ) => Asked::Plain(Request::Check {
            proof,
            older,
            newer: Some(word),
            form,
        }),
        Asked::Plain(Request::Open(mut asked)) => {
            asked.newer = Some(word);
            Asked::Plain(Request::Open(asked))
        }
        Asked::Plain(Request::CheckLink(mut asked)) => {
            asked.new = Some(word);
            Asked::Plain(Request::CheckLink(asked))
        }
        _ => asked,
    }
}
