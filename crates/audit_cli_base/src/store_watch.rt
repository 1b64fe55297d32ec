//! Looks at the place of a store.
ghost use Rattle.std.specs.Prelude.{◌≡◌, ℕ, List, false};
ghost use Rattle.audit_disk.specs.declared.file_identity.FileIdentity.{FileIdentity};

use audit_disk::{FileIdentity, SECTOR_SIZE};
use std::fs::{self, Files, Metadata, OpenFile};

/// A system on which the places of stores are looked at. That a store isn't in its place is a fact of such a look
/// alone: code that is generic over the system can have it from nothing else. Every system of files is one.
pub trait StorePlaces: Files {
    /// A look found at this path no store of this identity and number of sectors.
    ghost lacks: { Self → List ℕ → FileIdentity → ℕ → Type 0 };

    /// Whether a path names the file with this identity, and the file has the length of a store of `sectors` sectors.
    fn has_store(&self, path: &str, identity: FileIdentity, sectors: u64) -> bool
        ensures { result ≡ false → lacks self.now path.now identity sectors };
}

impl<R: Files> StorePlaces for R {
    ghost lacks = { λ _ _ _ _. Unit {0} };

    fn has_store(&self, path: &str, identity: FileIdentity, sectors: u64) -> bool {
        match fs::metadata(self, path) {
            Ok(found) => {
                FileIdentity::of(&found) == identity && has_length(&found, identity, sectors)
            }
            Err(_) => false,
        }
    }
}

/// A look whether a path still names the file of the store that is open, and whether its length is still the store's.
/// Without that, events would be acknowledged that nobody finds any more.
#[derive(Drop)]
pub struct StoreWatch<'a, R> {
    pub(crate) rt: &'a R,
    pub(crate) path: &'a str,
    pub(crate) identity: FileIdentity,
    pub(crate) sectors: u64,
}

impl<'a, R: StorePlaces> StoreWatch<'a, R> {
    ghost use Rattle.audit_cli_base.specs.Places.{IsOutOfPlace};

    /// Looks for the store of this identity and number of sectors at this path.
    pub fn new(
        rt: &'a R,
        path: &'a str,
        identity: FileIdentity,
        sectors: u64,
    ) -> StoreWatch<'a, R> {
        StoreWatch {
            rt,
            path,
            identity,
            sectors,
        }
    }

    /// The path.
    pub fn path(&self) -> &'a str {
        self.path
    }

    /// The store's number of sectors.
    pub fn sectors(&self) -> u64 {
        self.sectors
    }

    /// Opens the store's file once more, to read, if the path names it and it can be opened.
    pub fn open(&self) -> Option<R::File> {
        let file = fs::open(self.rt, self.path).ok()?;
        let found = file.metadata().ok()?;
        (FileIdentity::of(&found) == self.identity).then_some(file)
    }

    /// Whether the path still names that file, and its length is still the store's.
    pub fn is_in_place(&self) -> bool
        ensures { result ≡ false → IsOutOfPlace R.lacks self.now }
    {
        self.rt.has_store(self.path, self.identity, self.sectors)
    }
}

// A block device keeps its length, and its metadata don't have it.
fn has_length(found: &Metadata, identity: FileIdentity, sectors: u64) -> bool {
    let sector = SECTOR_SIZE as u64;
    match identity {
        FileIdentity::Block { .. } => true,
        FileIdentity::File { .. } => {
            found.len() % sector == 0 && found.len() / sector == sectors
        }
    }
}
