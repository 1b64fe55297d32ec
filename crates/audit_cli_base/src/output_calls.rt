//! The calls by which outputs are made.
ghost use Rattle.std.specs.Prelude.{IfErr, OnErr};
ghost use Rattle.audit_cli_base.specs.Faults.{IsNoWordFault};
ghost use Rattle.audit_cli_base.specs.Outputs.{IsOutputFault};

use crate::fault::CommandError;
use crate::replacing::judge_replaced;
use audit_disk::{FileIdentity, OWNER_ONLY};
use std::alloc::Global;
use std::fs::{self, Files, Metadata, OpenFile, OpenOptions, Permissions};
use std::io::{self, ErrorKind, Write};
use std::os::unix::fs::{FileTypeExt, OpenOptionsExt, PermissionsExt};
use std::path::{Path, PathBuf};

/// A system on which outputs are made. That a call failed, and that something is in the way which no output may
/// replace, are facts of these calls alone: code that is generic over the system can have them from nothing else. Every
/// system of files is one.
pub trait OutputFiles: Files {
    /// A call failed.
    ghost output_failed: { Self → Type 0 };

    /// Something is in the way that no output may replace.
    ghost kept: { Self → Type 0 };

    /// Looks at what is at a path, if anything is.
    fn seen_if_any(&self, path: &str) -> io::Result<Option<Metadata>>
        ensures { OnErr result (output_failed self.now) };

    /// Judges what was seen at the path of an output. The store and a block device are `FileExists`.
    fn judge_seen(&self, found: &Metadata, store: FileIdentity) -> Result<(), CommandError>
        ensures words { IfErr result IsNoWordFault }
        ensures cause { IfErr result (IsOutputFault (output_failed self.now) (kept self.now)) };

    /// Opens a character device or a pipe, to be written directly. Anything else is `FileExists`.
    fn open_direct(&self, store: FileIdentity, path: &str) -> Result<Self::File, CommandError>
        ensures words { IfErr result IsNoWordFault }
        ensures cause { IfErr result (IsOutputFault (output_failed self.now) (kept self.now)) };

    /// The path without links.
    fn real_path(&self, alloc: Global, path: &str) -> io::Result<PathBuf<Global>>
        ensures { OnErr result (output_failed self.now) };

    /// Judges what is at a path, which a file is about to replace. A store, and what isn't a regular file, is
    /// `FileExists`.
    fn judge_last(&self, path: &str) -> Result<(), CommandError>
        ensures words { IfErr result IsNoWordFault }
        ensures cause { IfErr result (IsOutputFault (output_failed self.now) (kept self.now)) };

    /// Makes a new file. If it will replace another, it gets this mode, and never has wider permissions before.
    fn make_new(&self, path: &str, mode: Option<u32>) -> io::Result<Self::File>
        ensures { OnErr result (output_failed self.now) };

    /// Flushes an output that is written directly.
    fn flush_direct(&self, file: &mut Self::File) -> io::Result<()>
        ensures { OnErr result (output_failed self.now) };

    /// Syncs an output.
    fn sync_made(&self, file: &Self::File) -> io::Result<()>
        ensures { OnErr result (output_failed self.now) };

    /// Gives a file its last name. What another program has locked is `FileExists`.
    fn give_name(&self, from: &str, to: &str) -> Result<(), CommandError>
        ensures words { IfErr result IsNoWordFault }
        ensures cause { IfErr result (IsOutputFault (output_failed self.now) (kept self.now)) };

    /// Syncs the name of a file, if its directory can be opened.
    fn sync_name(&self, path: &str) -> io::Result<()>
        ensures { OnErr result (output_failed self.now) };
}

impl<F: Files> OutputFiles for F {
    ghost output_failed = { λ _. Unit {0} };

    ghost kept = { λ _. Unit {0} };

    fn seen_if_any(&self, path: &str) -> io::Result<Option<Metadata>> {
        match fs::metadata(self, path) {
            Ok(found) => Ok(Some(found)),
            Err(error) if error.kind() == ErrorKind::NotFound => Ok(None),
            Err(error) => Err(error),
        }
    }

    fn judge_seen(&self, found: &Metadata, store: FileIdentity) -> Result<(), CommandError> {
        if FileIdentity::of(found) == store || found.file_type().is_block_device() {
            return Err(CommandError::FileExists);
        }
        Ok(())
    }

    // The opened file is judged again, because the path may lead elsewhere by now.
    fn open_direct(&self, store: FileIdentity, path: &str) -> Result<F::File, CommandError> {
        let file = OpenOptions::new().write(true).open(self, path)?;
        let opened = file.metadata()?;
        if opened.is_file() {
            return Err(CommandError::FileExists);
        }
        self.judge_seen(&opened, store)?;
        Ok(file)
    }

    fn real_path(&self, alloc: Global, path: &str) -> io::Result<PathBuf<Global>> {
        self.canonicalize(alloc, path)
    }

    fn judge_last(&self, path: &str) -> Result<(), CommandError> {
        judge_replaced(self, path)
    }

    fn make_new(&self, path: &str, mode: Option<u32>) -> io::Result<F::File> {
        let mut options = OpenOptions::new();
        options.write(true).create_new(true);
        let Some(mode) = mode else {
            return options.open(self, path);
        };
        options.mode(OWNER_ONLY);
        let file = options.open(self, path)?;
        let _ = file.set_permissions(Permissions::from_mode(mode));
        Ok(file)
    }

    fn flush_direct(&self, file: &mut F::File) -> io::Result<()> {
        file.flush()
    }

    fn sync_made(&self, file: &F::File) -> io::Result<()> {
        file.sync_all()
    }

    fn give_name(&self, from: &str, to: &str) -> Result<(), CommandError> {
        match fs::rename(self, from, to) {
            Ok(()) => Ok(()),
            Err(error) if error.kind() == ErrorKind::AlreadyExists => Err(CommandError::FileExists),
            Err(error) => Err(error.into()),
        }
    }

    fn sync_name(&self, path: &str) -> io::Result<()> {
        if let Ok(folder) = fs::open(self, folder_of(path).unwrap_or(".")) {
            folder.sync_all()?;
        }
        Ok(())
    }
}

/// The directory of a path, if it names one.
pub(crate) fn folder_of(path: &str) -> Option<&str> {
    let folder = Path::new(path).parent()?.as_str();
    if folder.is_empty() {
        None
    } else {
        Some(folder)
    }
}
