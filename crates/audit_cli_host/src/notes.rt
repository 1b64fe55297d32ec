use crate::key_text::KeyText;
use audit_cli_terminal::{Motion, Progress};
use std::cell::Cell;
use std::fs::TryLockError;
use std::io::{self, ErrorKind};

/// The subject of a call of the operating system.
#[derive(Clone, Copy, PartialEq, Eq)]
pub enum Subject {
    /// The file named by a word of the command line, given by the word's place.
    Word(usize),
    /// Standard input.
    Input,
    /// Standard output.
    Output,
    /// A file that no word names.
    Other,
}

/// How far the main file of a command is shown.
#[derive(Clone, Copy, PartialEq, Eq)]
pub enum Extent {
    /// Until it is open as a store.
    Opening,
    /// Always, as a store. Its length doesn't say what is left, since its log ends somewhere in it.
    Store,
    /// Always, as a file that is read whole. Its length says what is left.
    Whole,
}

/// A failed call of the operating system: its subject and its error.
#[derive(Clone, Copy)]
struct Note {
    subject: Subject,
    error: io::Error,
}

/// What is noted of calls of the operating system: the last one that failed, for the line that explains a file fault,
/// since the fault itself names neither path nor cause; what else such lines say of what was read; and how far the main
/// file of a command is read or written.
#[derive(Drop)]
pub struct Notes<'a> {
    words: &'a [String],
    last: Cell<Option<Note>>,
    key_file: Cell<Option<Subject>>,
    key_text: Cell<KeyText>,
    in_use: Cell<Option<Subject>>,
    count: Cell<Option<u64>>,
    lacks_reader: Cell<bool>,
    main: Cell<Option<Subject>>,
    extent: Cell<Extent>,
    progress: &'a Progress<'a>,
}

impl<'a> Notes<'a> {
    /// Makes empty notes. Paths are named by these words of the command line.
    pub fn new(words: &'a [String], progress: &'a Progress<'a>) -> Notes<'a> {
        Notes {
            words,
            last: Cell::new(None),
            key_file: Cell::new(None),
            key_text: Cell::new(KeyText::new()),
            in_use: Cell::new(None),
            count: Cell::new(None),
            lacks_reader: Cell::new(false),
            main: Cell::new(None),
            extent: Cell::new(Extent::Store),
            progress,
        }
    }

    /// Shows from now on how far this file is read or written.
    pub fn show_progress(&self, main: Subject, extent: Extent) {
        self.main.set(Some(main));
        self.extent.set(extent);
        self.progress.show();
    }

    /// Notes that a store is open, since it is served or input for it is read. If only its opening is shown, that is
    /// erased, and nothing is shown from now on.
    pub(crate) fn end_opening(&self) {
        if self.extent.get() == Extent::Opening {
            self.main.set(None);
            self.progress.erase();
        }
    }

    /// Whether it is shown how far this file is.
    pub(crate) fn is_shown(&self, subject: Subject) -> bool {
        self.progress.is_shown() && self.main.get() == Some(subject)
    }

    /// Whether the length of this file is shown.
    pub(crate) fn is_length_shown(&self, subject: Subject) -> bool {
        self.is_shown(subject) && self.extent.get() == Extent::Whole
    }

    /// Notes that a file is read or written up to a place. `total` is where it ends, if that is known.
    pub(crate) fn moved(&self, motion: Motion, subject: Subject, place: u64, total: Option<u64>) {
        if self.is_shown(subject) {
            self.progress
                .moved(motion, self.name(subject), place, total);
        }
    }

    /// Erases what is shown, so that something else can be printed.
    pub(crate) fn erase_progress(&self) {
        self.progress.erase();
    }

    /// The subject of the last failure, as a word, and its error.
    pub fn last(&self) -> Option<(&'a str, io::Error)> {
        let note = self.last.get()?;
        Some((self.name(note.subject), note.error))
    }

    /// Notes the error of a failed call.
    pub(crate) fn watch<T>(&self, subject: Subject, outcome: &io::Result<T>) {
        if let Err(error) = outcome {
            if subject == Subject::Output && error.kind() == ErrorKind::BrokenPipe {
                self.lacks_reader.set(true);
            }
            self.last.set(Some(Note {
                subject,
                error: *error,
            }));
        }
    }

    /// Notes what is read of this file, which is to hold a key. No digit of it is kept.
    pub fn watch_key(&self, file: Subject) {
        self.key_file.set(Some(file));
    }

    /// Notes bytes that were read; none are the end of what is read.
    pub(crate) fn read(&self, subject: Subject, bytes: &[u8]) {
        if self.key_file.get() == Some(subject) {
            let mut text = self.key_text.get();
            text.take(bytes);
            self.key_text.set(text);
        }
    }

    /// What was read of the file that is to hold a key.
    pub fn key_text(&self) -> KeyText {
        self.key_text.get()
    }

    /// Notes that another program has a file locked.
    pub(crate) fn watch_lock(&self, subject: Subject, taken: &Result<(), TryLockError>) {
        if let Err(TryLockError::WouldBlock) = taken {
            self.in_use.set(Some(subject));
        }
    }

    /// The last file that another program had locked, as a word.
    pub fn in_use(&self) -> Option<&'a str> {
        Some(self.name(self.in_use.get()?))
    }

    /// Notes how many entries the log of a server has.
    pub(crate) fn note_count(&self, count: u64) {
        self.count.set(Some(count));
    }

    /// How many entries the log of a server has, if that was asked after a refusal.
    pub fn count(&self) -> Option<u64> {
        self.count.get()
    }

    /// Whether standard output is a pipe whose reader has gone.
    pub fn lacks_reader(&self) -> bool {
        self.lacks_reader.get()
    }

    /// Forgets the last failure. It wasn't a fault, because the program continued.
    pub(crate) fn forget(&self) {
        self.last.set(None);
    }

    /// The word of the command line that names this path, or that names the file for which it is a temporary file.
    pub fn subject_of(&self, path: &str) -> Subject {
        let mut found = Subject::Other;
        let mut length = 0;
        for (place, word) in self.words.iter().enumerate() {
            let named = path_in(word.as_str());
            if named == path {
                return Subject::Word(place);
            }
            if named.len() > length && path.starts_with(named) {
                found = Subject::Word(place);
                length = named.len();
            }
        }
        found
    }

    fn name(&self, subject: Subject) -> &'a str {
        match subject {
            Subject::Word(place) => match self.words.get(place) {
                Some(word) => word.as_str(),
                None => "a file",
            },
            Subject::Input => "standard input",
            Subject::Output => "standard output",
            Subject::Other => "a file",
        }
    }
}

// The path in a word: all of it, or what follows the kind and the colon of a source.
fn path_in(word: &str) -> &str {
    match word.split_once(':') {
        Some((kind, path)) if is_number(kind) => path,
        _ => word,
    }
}

fn is_number(word: &str) -> bool {
    !word.is_empty() && word.bytes().all(|byte| byte.is_ascii_digit())
}
