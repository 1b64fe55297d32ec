use audit_cli_base::Status;
use audit_cli_host::Notes;
use audit_text::{number_in_text, split_at_first};
use std::io::{self, Write};

// The most bytes of a line that are held before it is passed on. Longer lines are none of those that are told apart.
const ROOM: usize = 128;

/// What a command said of its failure, in a line of its own.
#[derive(Clone, Copy, PartialEq, Eq)]
pub(crate) enum Said {
    BadArgument,
    FileFault,
    FileExists,
    InUse,
    NoSuchVersion,
    BadSize,
    NotAStore,
    NotAllowed,
    NotCounted,
    BadProof,
    /// An entry of an export isn't the one that it is to be.
    BadEntry,
    /// The entry with this index of an export doesn't follow what comes before it.
    BadLink { index: u64 },
    NoReply,
    Ended,
    DeviceFault,
}

impl Said {
    /// Whether a command that said this last ends with this status. A witness that looks again goes on after some of it,
    /// and may end for another reason.
    pub(crate) fn ends_with(self, status: Status) -> bool {
        match self {
            Said::BadArgument => status == Status::Usage,
            Said::FileFault | Said::DeviceFault | Said::InUse | Said::NoReply | Said::Ended => {
                status == Status::Device
            }
            Said::BadEntry | Said::BadLink { .. } => true,
            Said::FileExists
            | Said::NoSuchVersion
            | Said::BadSize
            | Said::NotAStore
            | Said::NotAllowed
            | Said::NotCounted
            | Said::BadProof => status == Status::Refused,
        }
    }
}

/// Messages, of which the last that says why a command failed is remembered. They are passed on line by line. Of a
/// command that only prints an answer the file fault of its output isn't passed on, if the reader of that has gone: it
/// wants no more.
#[derive(Drop)]
pub(crate) struct Heard<'m, 'n, 'w, M> {
    messages: &'m mut M,
    notes: &'n Notes<'w>,
    only_answers: bool,
    line: [u8; ROOM],
    count: usize,
    // Whether the line has begun to be passed on.
    has_begun: bool,
    said: Option<Said>,
}

impl<'m, 'n, 'w, M: Write> Heard<'m, 'n, 'w, M> {
    /// Messages of which nothing is heard yet.
    pub(crate) fn new(
        messages: &'m mut M,
        notes: &'n Notes<'w>,
        only_answers: bool,
    ) -> Heard<'m, 'n, 'w, M> {
        Heard {
            messages,
            notes,
            only_answers,
            line: [0; ROOM],
            count: 0,
            has_begun: false,
            said: None,
        }
    }

    /// Why the command failed, if it said that in a line that is told apart.
    pub(crate) fn said(&self) -> Option<Said> {
        self.said
    }

    fn put(&mut self, byte: u8) -> io::Result<()> {
        if let Some(place) = self.line.get_mut(self.count) {
            *place = byte;
            self.count = self.count.saturating_add(1);
        }
        let is_end = byte == b'\n';
        let passed = if is_end || self.count >= ROOM {
            self.pass_on()
        } else {
            Ok(())
        };
        if is_end {
            self.has_begun = false;
        }
        passed
    }

    // Passes on what is held of a line.
    fn pass_on(&mut self) -> io::Result<()> {
        let Some(line) = self.line.get(..self.count) else {
            return Ok(());
        };
        let said = if self.has_begun { None } else { said_in(line) };
        let is_unwanted = self.only_answers
            && said == Some(Said::FileFault)
            && self.notes.lacks_reader();
        let passed = if is_unwanted {
            Ok(())
        } else {
            self.said = said.or(self.said);
            self.messages.write_all(line)
        };
        self.has_begun = true;
        self.count = 0;
        passed
    }
}

impl<M: Write> Write for Heard<'_, '_, '_, M> {
    fn write(&mut self, bytes: &[u8]) -> io::Result<usize> {
        for byte in bytes {
            self.put(*byte)?;
        }
        Ok(bytes.len())
    }

    fn flush(&mut self) -> io::Result<()> {
        self.messages.flush()
    }
}

// What a line says of an entry, after that word.
fn said_of_entry(words: &[u8]) -> Said {
    let (index, cause) = split_at_first(words, b':');
    match number_in_text(index) {
        Some(index) if cause == b" 42 BadLink\n".as_slice() => Said::BadLink { index },
        _ => Said::BadEntry,
    }
}

// What a line says, with its line feed.
fn said_in(line: &[u8]) -> Option<Said> {
    let words = line.strip_prefix(b"audit: ")?;
    if let Some(entry) = words.strip_prefix(b"entry ") {
        return Some(said_of_entry(entry));
    }
    match words {
        b"bad argument\n" => Some(Said::BadArgument),
        b"file fault\n" => Some(Said::FileFault),
        b"file exists\n" => Some(Said::FileExists),
        b"store in use\n" => Some(Said::InUse),
        b"8 NoSuchVersion\n" => Some(Said::NoSuchVersion),
        b"14 BadSize\n" => Some(Said::BadSize),
        b"1 NotAStore\n" => Some(Said::NotAStore),
        b"16 NotAllowed\n" => Some(Said::NotAllowed),
        b"18 NotCounted\n" => Some(Said::NotCounted),
        b"32 BadProof\n" => Some(Said::BadProof),
        b"no reply in time\n" => Some(Said::NoReply),
        b"connection ended\n" => Some(Said::Ended),
        b"11 Device\n" => Some(Said::DeviceFault),
        _ => None,
    }
}
