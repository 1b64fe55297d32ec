ghost use Rattle.std.specs.Prelude.{◌≡◌};
ghost use Rattle.audit_cli_base.specs.Faults.{status_of_cause};

use crate::status::Status;
use audit_cli_offline::OfflineError;
use audit_disk::FileFault;
use audit_disk_model::DeviceFault;
use audit_proof::{Commitment, ProofError};
use audit_store::StoreError;
use audit_text::LinesError;
use audit_verify::{Cause, VerifyFault};
use std::alloc::AllocError;
use std::io;
use thiserror::Error;

/// Why a command failed.
#[derive(Clone, Copy, Debug, Drop, Error, PartialEq, Eq)]
pub enum CommandError {
    /// An argument, or the contents of a key file, doesn't have the required form.
    #[error("bad argument")]
    BadArgument,
    /// The file to be made already exists.
    #[error("the file exists")]
    FileExists,
    /// A file couldn't be opened, read, written or made.
    #[error("a file failed")]
    File,
    /// Another program has the store open.
    #[error("the store is in use")]
    InUse,
    /// The path of the store that is served names another file by now, or none, or its length changed.
    #[error("the store was replaced")]
    Replaced,
    /// The file or device to be formatted in place has fewer sectors than requested.
    #[error("there are {sectors} sectors")]
    TooSmall {
        /// The number of its sectors.
        sectors: u64,
    },
    /// The store holds another number of events than the one that was expected.
    #[error("there are {count} events")]
    OtherCount {
        /// The number that it holds.
        count: u64,
    },
    /// The log of the store doesn't extend a commitment that it has to extend.
    #[error("the log is another one")]
    OtherLog {
        /// The commitment.
        held: Commitment,
        /// The store's own.
        own: Commitment,
    },
    /// The store is damaged, and the entries that could still be read were written.
    #[error("the store is damaged")]
    Salvaged,
    /// Lines weren't read or written.
    #[error(transparent)]
    Lines(LinesError),
    /// The store returned an error.
    #[error(transparent)]
    Refused(StoreError),
    /// An export couldn't be verified.
    #[error("the export is not verified")]
    Export(VerifyFault),
    /// The contents of a file aren't a proof.
    #[error("the file holds no proof")]
    BadProof,
    /// A proof isn't accepted.
    #[error("the proof is not accepted")]
    NotAccepted,
}

impl CommandError {
    ghost use Rattle.std.specs.Prelude.{◌≡◌};
    ghost use Rattle.audit_cli_base.specs.Faults.{status_of};

    /// The status with which the program exits.
    pub fn status(self) -> Status
        ensures { result ≡ status_of self }
    {
        match self {
            CommandError::BadArgument => Status::Usage,
            CommandError::FileExists => Status::Refused,
            CommandError::File | CommandError::InUse | CommandError::Replaced => Status::Device,
            CommandError::TooSmall { .. }
            | CommandError::OtherCount { .. }
            | CommandError::OtherLog { .. }
            | CommandError::Salvaged => Status::Refused,
            CommandError::Lines(LinesError::Memory) => Status::Memory,
            CommandError::Lines(LinesError::Read | LinesError::Write) => Status::Device,
            CommandError::Lines(LinesError::InputTooLong | LinesError::Line { .. }) => {
                Status::Refused
            }
            CommandError::Refused(StoreError::Memory) => Status::Memory,
            CommandError::Refused(StoreError::Device) => Status::Device,
            CommandError::Refused(_) => Status::Refused,
            CommandError::Export(fault) => status_of_cause(fault.cause),
            CommandError::BadProof | CommandError::NotAccepted => Status::Refused,
        }
    }
}

impl From<LinesError> for CommandError {
    ghost use Rattle.std.specs.Prelude.{◌≡◌};
    ghost use Rattle.audit_cli_base.specs.declared.fault.CommandError.TheVariants.{Lines};

    ghost from_gives = { λ cause fault. fault ≡ Lines cause };

    fn from(cause: LinesError) -> Self {
        CommandError::Lines(cause)
    }
}

impl From<StoreError> for CommandError {
    ghost use Rattle.std.specs.Prelude.{◌≡◌};
    ghost use Rattle.audit_cli_base.specs.declared.fault.CommandError.TheVariants.{Refused};

    ghost from_gives = { λ error fault. fault ≡ Refused error };

    fn from(error: StoreError) -> Self {
        CommandError::Refused(error)
    }
}

impl From<DeviceFault> for CommandError {
    ghost use Rattle.std.specs.Prelude.{◌≡◌};
    ghost use Rattle.audit_store.specs.declared.store_error.StoreError.TheVariants.{Device};
    ghost use Rattle.audit_cli_base.specs.declared.fault.CommandError.TheVariants.{Refused};

    ghost from_gives = { λ _ fault. fault ≡ Refused Device };

    fn from(_: DeviceFault) -> Self {
        CommandError::Refused(StoreError::Device)
    }
}

impl From<AllocError> for CommandError {
    ghost use Rattle.std.specs.Prelude.{◌≡◌};
    ghost use Rattle.audit_store.specs.declared.store_error.StoreError.TheVariants.{Memory};
    ghost use Rattle.audit_cli_base.specs.declared.fault.CommandError.TheVariants.{Refused};

    ghost from_gives = { λ _ fault. fault ≡ Refused Memory };

    fn from(_: AllocError) -> Self {
        CommandError::Refused(StoreError::Memory)
    }
}

impl From<FileFault> for CommandError {
    ghost use Rattle.std.specs.Prelude.{◌≡◌};
    ghost use Rattle.audit_cli_base.specs.Faults.{of_file};

    ghost from_gives = { λ given fault. fault ≡ of_file given };

    fn from(given: FileFault) -> Self {
        match given {
            FileFault::Io | FileFault::Length => CommandError::File,
            FileFault::InUse => CommandError::InUse,
            FileFault::TooSmall { sectors } => CommandError::TooSmall { sectors },
            FileFault::Memory => CommandError::Refused(StoreError::Memory),
        }
    }
}

impl From<io::Error> for CommandError {
    ghost use Rattle.std.specs.Prelude.{◌≡◌};
    ghost use Rattle.audit_cli_base.specs.declared.fault.CommandError.TheVariants.{File};

    ghost from_gives = { λ _ fault. fault ≡ File };

    fn from(_: io::Error) -> Self {
        CommandError::File
    }
}

// The status if an export can't be verified.
fn status_of_cause(cause: Cause) -> Status
    ensures { result ≡ status_of_cause cause }
{
    match cause {
        Cause::ReadFault => Status::Device,
        Cause::Memory => Status::Memory,
        Cause::Short
        | Cause::BadLength
        | Cause::BadLink
        | Cause::BadMac
        | Cause::WrongCommitment
        | Cause::BadClose => Status::Refused,
    }
}

impl From<OfflineError> for CommandError {
    ghost use Rattle.std.specs.Prelude.{◌≡◌};
    ghost use Rattle.audit_cli_base.specs.Faults.{of_auditor};

    ghost from_gives = { λ given fault. fault ≡ of_auditor given };

    fn from(given: OfflineError) -> Self {
        match given {
            OfflineError::Export(fault) => CommandError::Export(fault),
            OfflineError::Lines(fault) => CommandError::Lines(fault),
        }
    }
}

impl From<ProofError> for CommandError {
    ghost use Rattle.std.specs.Prelude.{◌≡◌};
    ghost use Rattle.audit_cli_base.specs.Faults.{of_reading};

    ghost from_gives = { λ given fault. fault ≡ of_reading given };

    fn from(given: ProofError) -> Self {
        match given {
            ProofError::BadProof => CommandError::BadProof,
            ProofError::Memory => CommandError::Refused(StoreError::Memory),
        }
    }
}
