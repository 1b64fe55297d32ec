use std::alloc::AllocError;
use std::fs::TryLockError;
use std::io;
use thiserror::Error;

/// Why a file can't be a device.
#[derive(Clone, Copy, Debug, PartialEq, Eq, Error)]
pub enum FileFault {
    /// Making, opening, measuring or syncing the file failed.
    #[error("the file failed")]
    Io,
    /// The length isn't a multiple of the sector size, or would be 2^64 bytes or more.
    #[error("the length is no whole number of sectors")]
    Length,
    /// Memory was refused.
    #[error("out of memory")]
    Memory,
    /// Another open of the file holds the lock.
    #[error("the file is in use")]
    InUse,
    /// The file has fewer whole sectors than requested: only `sectors`.
    #[error("the file has {sectors} sectors")]
    TooSmall { sectors: u64 },
}

impl From<io::Error> for FileFault {
    ghost use Rattle.std.specs.Prelude.{◌≡◌};
    ghost use Rattle.audit_disk.specs.declared.file_fault.FileFault.TheVariants.{Io};

    ghost from_gives = { λ _ fault. fault ≡ Io };

    fn from(_: io::Error) -> Self {
        FileFault::Io
    }
}

impl From<TryLockError> for FileFault {
    ghost use Rattle.std.specs.Prelude.{◌≡◌};
    ghost use Rattle.audit_disk.specs.FileFaults.{of_lock};

    ghost from_gives = { λ given fault. fault ≡ of_lock given };

    fn from(given: TryLockError) -> Self {
        match given {
            TryLockError::WouldBlock => FileFault::InUse,
            TryLockError::Error(error) => FileFault::from(error),
        }
    }
}

impl From<AllocError> for FileFault {
    ghost use Rattle.std.specs.Prelude.{◌≡◌};
    ghost use Rattle.audit_disk.specs.declared.file_fault.FileFault.TheVariants.{Memory};

    ghost from_gives = { λ _ fault. fault ≡ Memory };

    fn from(_: AllocError) -> Self {
        FileFault::Memory
    }
}
