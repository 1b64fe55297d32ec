//! What opens and makes the files of the operating system.
ghost use Rattle.std.specs.Prelude.{ℕ, List, IfOk, OnOk, OnErr, IsErr};
ghost use Rattle.audit_disk.specs.FileFacts.{IsNewFile};
ghost use Rattle.audit_disk.specs.Positioned.{IsUncalled};

use crate::SystemFile;
use std::alloc::Global;
use std::fs::{self, File, FileType, Files, Metadata, OpenFile, OpenOptions};
use std::io::{self, ErrorKind};
use std::os::unix::fs::{FileTypeExt, OpenOptionsExt};
use std::rt::HostRuntime;

/// The calls that open and make the files of devices. Contracts know of a file what the call promises that gave it.
pub trait SystemFiles: Files
where
    Self::File: SystemFile,
{
    /// This folder was synced.
    ghost synced: { Self → List ℕ → Type 0 };

    /// A call of the system failed.
    ghost failed: { Self → Type 0 };

    /// Looks at what is at a path.
    fn look(&self, path: &str) -> io::Result<Metadata>
        ensures failed { OnErr result (failed self.now) };

    /// Looks at what is at a path, if anything is.
    fn look_if_any(&self, path: &str) -> io::Result<Option<Metadata>>
        ensures failed { OnErr result (failed self.now) };

    /// Judges what was seen at a path: it fails if that can't be a device, or opening it might wait.
    fn judge(&self, found: &Metadata, to_write: bool) -> io::Result<()>
        ensures failed { OnErr result (failed self.now) };

    /// Reads the text of a file of the system, if there is one at the path.
    fn text_if_any(&self, alloc: Global, path: &str) -> io::Result<Option<String>>
        ensures failed { OnErr result (failed self.now) };

    /// Opens what is at a path, for reading and writing. No call of the file was made.
    fn open_to_write(&self, path: &str) -> io::Result<Self::File>
        ensures failed { OnErr result (failed self.now) }
        ensures opened { IfOk result (λ file. (Self.File.facts file).opened path.now) }
        ensures uncalled { IfOk result (λ file. IsUncalled (Self.File.positioned file)) };

    /// Opens what is at a path, for reading. No call of the file was made.
    fn open_to_read(&self, path: &str) -> io::Result<Self::File>
        ensures failed { OnErr result (failed self.now) }
        ensures opened { IfOk result (λ file. (Self.File.facts file).opened_to_read path.now) }
        ensures uncalled { IfOk result (λ file. IsUncalled (Self.File.positioned file)) };

    /// Makes a file at a path where nothing is, with these permission bits, less those of the umask. It has no bytes.
    fn make_file(&self, path: &str, mode: u32) -> io::Result<Self::File>
        ensures failed { OnErr result (failed self.now) }
        ensures made { IfOk result (λ file. (Self.File.facts file).made path.now mode) }
        ensures mode { IfOk result (λ file. (Self.File.facts file).mode mode) }
        ensures new { IfOk result (λ file. IsNewFile (Self.File.positioned file)) };

    /// Syncs a folder, which keeps the names of its files. One that can't be opened is left as it is.
    fn sync_folder(&self, path: &str) -> io::Result<()>
        ensures synced { OnOk result (synced self.now path.now) }
        ensures failed { OnErr result (failed self.now) };
}

impl SystemFiles for HostRuntime {
    ghost synced = { λ _ _. Unit {0} };

    ghost failed = { λ _. Unit {0} };

    fn look(&self, path: &str) -> io::Result<Metadata> {
        fs::metadata(self, path)
    }

    fn look_if_any(&self, path: &str) -> io::Result<Option<Metadata>> {
        if_any(fs::metadata(self, path))
    }

    fn judge(&self, found: &Metadata, to_write: bool) -> io::Result<()> {
        judge_kind(found.file_type(), to_write)
    }

    fn text_if_any(&self, alloc: Global, path: &str) -> io::Result<Option<String>> {
        match if_any(fs::open(self, path))? {
            Some(file) => unless_gone(io::read_to_string(alloc, file)),
            None => Ok(None),
        }
    }

    fn open_to_write(&self, path: &str) -> io::Result<File> {
        OpenOptions::new().read(true).write(true).open(self, path)
    }

    fn open_to_read(&self, path: &str) -> io::Result<File> {
        OpenOptions::new().read(true).open(self, path)
    }

    fn make_file(&self, path: &str, mode: u32) -> io::Result<File> {
        let mut options = OpenOptions::new();
        options.read(true).write(true).create_new(true).mode(mode);
        options.open(self, path)
    }

    fn sync_folder(&self, path: &str) -> io::Result<()> {
        match fs::open(self, path) {
            Ok(folder) => folder.sync_all(),
            Err(_) => Ok(()),
        }
    }
}

// The error of Linux for a device that isn't there any more (`ENODEV` of errno(3)).
const NO_DEVICE: i32 = 19;

// What was read of a file of the system, or nothing if the device that it describes went away since it was opened: so
// reads the file of a loop device that was detached.
fn unless_gone(text: io::Result<String>) -> io::Result<Option<String>>
    ensures failed { IsErr result → IsErr text }
{
    match text {
        Ok(text) => Ok(Some(text)),
        Err(error) if error.raw_os_error() == Some(NO_DEVICE) => Ok(None),
        Err(error) => Err(error),
    }
}

/// What a call gave, or nothing if nothing is at its path.
pub(crate) fn if_any<T>(given: io::Result<T>) -> io::Result<Option<T>>
    ensures failed { IsErr result → IsErr given }
{
    match given {
        Ok(found) => Ok(Some(found)),
        Err(error) if error.kind() == ErrorKind::NotFound => Ok(None),
        Err(error) => Err(error),
    }
}

/// Whether a file of this kind can be opened as a device. A pipe, a terminal or a socket isn't, since that might wait,
/// and a folder isn't opened to be read.
pub(crate) fn judge_kind(kind: FileType, to_write: bool) -> io::Result<()> {
    if kind.is_fifo() || kind.is_char_device() || kind.is_socket() || !to_write && kind.is_dir() {
        return Err(io::Error::from(ErrorKind::Other));
    }
    Ok(())
}
