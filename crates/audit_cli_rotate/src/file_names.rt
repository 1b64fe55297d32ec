//! The calls by which files are written whole and get their names.
ghost use Rattle.std.specs.Prelude.{◌≡◌, ℕ, List, Ok, Some, OnErr, OnOk};
ghost use Rattle.audit_disk.specs.declared.file_identity.FileIdentity.{FileIdentity};

use audit_disk::{FileIdentity, SystemFile, SystemFiles};
use std::fs::{self, Metadata, OpenFile};
use std::io::{self, ErrorKind, Write};

/// The calls by which files are written whole and get their names. That one failed is a fact, and so are which file is
/// at a path, and that a file was given a name: code that is generic over the system can have them from a call alone. Every system of files has them.
pub trait FileNames: SystemFiles
where
    Self::File: SystemFile,
{
    /// A call failed.
    ghost unnamed: { Self → Type 0 };

    /// A path leads to the file with this identity.
    ghost leads_to: { Self → List ℕ → FileIdentity → Type 0 };

    /// The file at the first path was given the second one as a name.
    ghost named: { Self → List ℕ → List ℕ → Type 0 };

    /// The identity of what a path leads to, if anything is there.
    fn identity_at(&self, path: &str) -> io::Result<Option<FileIdentity>>
        ensures found { (found : FileIdentity) → result ≡ Ok (Some found) → leads_to self.now path.now found }
        ensures failed { OnErr result (unnamed self.now) };

    /// Looks at what is at a path, and doesn't follow a link.
    fn see(&self, path: &str) -> io::Result<Option<Metadata>>
        ensures { OnErr result (unnamed self.now) };

    /// Looks at an open file.
    fn see_open(&self, file: &Self::File) -> io::Result<Metadata>
        ensures { OnErr result (unnamed self.now) };

    /// Writes all bytes to a file, and syncs it.
    fn write_and_sync(&self, file: &mut Self::File, bytes: &[u8]) -> io::Result<()>
        ensures { OnErr result (unnamed self.now) };

    /// Gives a file a further name.
    fn name(&self, path: &str, further: &str) -> io::Result<()>
        ensures named { OnOk result (named self.now path.now further.now) }
        ensures failed { OnErr result (unnamed self.now) };

    /// Gives a file another name.
    fn name_again(&self, path: &str, other: &str) -> io::Result<()>
        ensures named { OnOk result (named self.now path.now other.now) }
        ensures failed { OnErr result (unnamed self.now) };

    /// Takes a name away.
    fn remove_name(&self, path: &str) -> io::Result<()>
        ensures { OnErr result (unnamed self.now) };
}

impl<F: SystemFiles> FileNames for F
where
    F::File: SystemFile,
{
    ghost unnamed = { λ _. Unit {0} };

    ghost leads_to = { λ _ _ _. Unit {0} };

    ghost named = { λ _ _ _. Unit {0} };

    fn identity_at(&self, path: &str) -> io::Result<Option<FileIdentity>> {
        Ok(
            self.look_if_any(path)?
                .map(|found| FileIdentity::of(&found)),
        )
    }

    fn see(&self, path: &str) -> io::Result<Option<Metadata>> {
        match self.symlink_metadata(path) {
            Ok(found) => Ok(Some(found)),
            Err(error) if error.kind() == ErrorKind::NotFound => Ok(None),
            Err(error) => Err(error),
        }
    }

    fn see_open(&self, file: &F::File) -> io::Result<Metadata> {
        OpenFile::metadata(file)
    }

    fn write_and_sync(&self, file: &mut F::File, bytes: &[u8]) -> io::Result<()> {
        file.write_all(bytes)?;
        file.sync_all()
    }

    fn name(&self, path: &str, further: &str) -> io::Result<()> {
        fs::hard_link(self, path, further)
    }

    fn name_again(&self, path: &str, other: &str) -> io::Result<()> {
        fs::rename(self, path, other)
    }

    fn remove_name(&self, path: &str) -> io::Result<()> {
        fs::remove_file(self, path)
    }
}
