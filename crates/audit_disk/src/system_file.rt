//! The files of the operating system.
ghost use Rattle.std.specs.Prelude.{OnOk, OnErr};
ghost use Rattle.audit_disk.specs.FileFacts.{FileFacts, KeepsPlace, KeepsFacts, HasSameBytes, IsLaidOut};
ghost use Rattle.audit_disk.specs.FileFacts.{facts_of_calls};
ghost use Rattle.audit_disk.specs.Positioned.{unknown_positioned};

use crate::{PositionedFile, SECTOR_SIZE};
use std::fs::{File, Metadata, OpenFile, Permissions, TryLockError};
use std::io::{self, ErrorKind, Seek, SeekFrom};
use std::os::unix::fs::{FileExt, MetadataExt, PermissionsExt};

/// An open file of the operating system, or a program's own type that passes each call on to one.
///
/// Nothing is known of the bytes of the system's own file: whether it is honest is a premise. What else is known of a
/// file are facts, each established by its call alone.
pub trait SystemFile: PositionedFile + OpenFile + Drop {
    /// What calls established.
    ghost facts: { Self → FileFacts };

    /// Takes the exclusive lock, which only one open of the file can hold. It is held until the file is dropped.
    fn try_lock(&self) -> Result<(), TryLockError>
        ensures locked { OnOk result (facts self.now).locked }
        ensures failed { OnErr result (facts self.now).failed };

    /// Takes the shared lock, which any number of opens can hold while none holds the exclusive one.
    fn try_lock_shared(&self) -> Result<(), TryLockError>
        ensures locked { OnOk result (facts self.now).locked_shared }
        ensures failed { OnErr result (facts self.now).failed };

    /// Judges whether this is the file that was seen at its path, by the inode, and by the device if it is a device's
    /// node. It fails if it is another one.
    fn is_same(&self, found: &Metadata) -> io::Result<()>
        ensures failed { OnErr result (facts self.now).failed };

    /// Gives the file these permission bits, whatever the umask is. Those that it had are no longer known.
    fn set_mode(&mut self, mode: u32) -> io::Result<()>
        ensures mode { OnOk result ((facts self.new).mode mode) }
        ensures failed { OnErr result (facts self.new).failed }
        ensures kept { KeepsPlace (facts self.old) (facts self.new) }
        ensures bytes { HasSameBytes (Self.positioned self.old) (Self.positioned self.new) };

    /// Gives an empty file its length, all of it zeros, and syncs it.
    fn lay_out(&mut self, length: u64) -> io::Result<()>
        ensures done { OnOk result ((facts self.new).laid_out length) }
        ensures failed { OnErr result (facts self.new).failed }
        ensures kept { KeepsFacts (facts self.old) (facts self.new) }
        ensures bytes { IsLaidOut (Self.positioned self.old) (Self.positioned self.new) length result };
}

// A block device's length is found by seeking to its end: its metadata say 0.
impl PositionedFile for File {
    ghost positioned = { λ _. unknown_positioned };

    fn read_exact_at(&mut self, into: &mut [[u8; SECTOR_SIZE]], offset: u64) -> io::Result<()> {
        FileExt::read_exact_at(self, into.as_flattened_mut(), offset)
    }

    fn write_all_at(&mut self, row: &[[u8; SECTOR_SIZE]], offset: u64) -> io::Result<()> {
        FileExt::write_all_at(self, row.as_flattened(), offset)
    }

    fn sync_data(&mut self) -> io::Result<()> {
        File::sync_data(self)
    }

    fn length(&mut self) -> io::Result<u64> {
        self.seek(SeekFrom::End(0))
    }
}

impl SystemFile for File {
    ghost facts = { λ _. facts_of_calls };

    fn try_lock(&self) -> Result<(), TryLockError> {
        File::try_lock(self)
    }

    fn try_lock_shared(&self) -> Result<(), TryLockError> {
        File::try_lock_shared(self)
    }

    fn is_same(&self, found: &Metadata) -> io::Result<()> {
        judge_same(&OpenFile::metadata(self)?, found)
    }

    fn set_mode(&mut self, mode: u32) -> io::Result<()> {
        self.set_permissions(Permissions::from_mode(mode))
    }

    fn lay_out(&mut self, length: u64) -> io::Result<()> {
        self.set_len(length)?;
        self.sync_all()
    }
}

/// Whether two metadata are of one inode, and of one device if that is a device's node.
pub(crate) fn judge_same(one: &Metadata, other: &Metadata) -> io::Result<()> {
    if one.dev() == other.dev() && one.ino() == other.ino() && one.rdev() == other.rdev() {
        return Ok(());
    }
    Err(io::Error::from(ErrorKind::Other))
}
