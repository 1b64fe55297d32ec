//! The file that standard output is.
use audit_cli_witness::lacks_feed;
use audit_text::{LinesError, write_whole};
use std::fs::{self, Files, OpenFile};
use std::io::{self, Read, Seek, Write};

// The name by which a program on Linux opens what its standard output is.
const OUTPUT: &str = "/proc/self/fd/1";

/// The file that standard output is, if it is a regular one that can be opened here: what is printed there is synced, and
/// follows a whole line. A terminal and a pipe have nothing to sync.
#[derive(Drop)]
pub(crate) struct PrintedFile<F> {
    file: Option<F>,
}

impl<F: OpenFile + Read + Seek + Drop> PrintedFile<F> {
    /// Opens it.
    pub(crate) fn open<R: Files<File = F>>(rt: &R) -> PrintedFile<F> {
        let file = match fs::metadata(rt, OUTPUT) {
            Ok(found) if found.is_file() => fs::open(rt, OUTPUT).ok(),
            _ => None,
        };
        PrintedFile { file }
    }

    /// Syncs what was printed so far.
    pub(crate) fn sync(&self) -> io::Result<()> {
        match &self.file {
            Some(file) => file.sync_all(),
            None => Ok(()),
        }
    }

    /// Ends the last line there, if a run that was cut off, or a full disk, left it without its line feed: what is
    /// printed next stands on lines of its own.
    pub(crate) fn end_line<W: Write>(&mut self, output: &mut W) -> Result<(), LinesError> {
        let Some(file) = &mut self.file else {
            return Ok(());
        };
        if lacks_feed(file).unwrap_or(false) {
            return write_whole(output, b"\n");
        }
        Ok(())
    }
}
