ghost use Rattle.std.specs.Prelude.{◌≡◌};
ghost use Rattle.audit_cli_rotate.specs.PreparedFaults.{prepared_status};

use crate::prepared::Prepared;
use audit_cli_base::{CommandError, Status, report};
use audit_join::JoinError;
use audit_link::MAX_KINDS;
use audit_store::StoreError;
use audit_text::Shown;
use std::alloc::AllocError;
use std::io::{self, Write};

/// Why a log wasn't rotated to a store that was prepared.
#[derive(Clone, Copy, Debug, PartialEq, Eq)]
pub enum PreparedError {
    /// An error that other commands have too.
    Command(CommandError),
    /// The old log began with the first key of the new store: two logs would be encrypted under the same keystream.
    OwnKey,
    /// The new store has events, and isn't one to which the link joins the old log.
    NotEmpty,
    /// The file for the link exists, and isn't this link.
    OtherLink,
    /// The old log doesn't begin with the two entries of the link by which it was to go on.
    OtherLog,
    /// There are events of more than `MAX_KINDS` kinds.
    TooManyKinds,
    /// There are 2^64 events of a kind.
    TooManyEvents,
}

impl PreparedError {
    /// The status with which the program exits.
    pub fn status(self) -> Status
        ensures { result ≡ prepared_status self }
    {
        match self {
            PreparedError::Command(fault) => fault.status(),
            PreparedError::OwnKey => Status::Usage,
            PreparedError::NotEmpty
            | PreparedError::OtherLink
            | PreparedError::OtherLog
            | PreparedError::TooManyKinds
            | PreparedError::TooManyEvents => Status::Refused,
        }
    }

    /// Prints the error, in two lines unless other commands have it too, and returns the status with which the program
    /// exits.
    pub(crate) fn report<M: Write>(self, request: Prepared<'_>, messages: &mut M) -> Status
        ensures { result ≡ prepared_status self }
    {
        if let PreparedError::Command(fault) = self {
            return report(fault, messages);
        }
        let _ = self.print(request, messages);
        self.status()
    }

    fn print<M: Write>(self, request: Prepared<'_>, messages: &mut M) -> io::Result<()> {
        let (old, next, link) = (Shown(request.old), Shown(request.next), Shown(request.link));
        match self {
            PreparedError::Command(_) => Ok(()),
            PreparedError::OwnKey => {
                writeln!(messages, "audit: bad argument")?;
                writeln!(
                    messages,
                    "audit: {next}: its first key is that of {old}: format one with a new key"
                )
            }
            PreparedError::NotEmpty => {
                writeln!(messages, "audit: file exists")?;
                writeln!(
                    messages,
                    "audit: {next}: it has events, and {link} isn't its link from {old}"
                )
            }
            PreparedError::OtherLink => {
                writeln!(messages, "audit: file exists")?;
                writeln!(
                    messages,
                    "audit: {link}: it isn't the link from {old} to {next}"
                )
            }
            PreparedError::OtherLog => {
                let after = Shown(request.after.unwrap_or(""));
                writeln!(messages, "audit: other link")?;
                writeln!(
                    messages,
                    "audit: {after}: {old} doesn't begin with its two entries"
                )
            }
            PreparedError::TooManyKinds => {
                writeln!(messages, "audit: too many kinds")?;
                writeln!(
                    messages,
                    "audit: {old}: events of more than {MAX_KINDS} kinds can't be counted in a link"
                )
            }
            PreparedError::TooManyEvents => writeln!(messages, "audit: too many events of a kind"),
        }
    }
}

impl From<CommandError> for PreparedError {
    ghost use Rattle.std.specs.Prelude.{◌≡◌};
    ghost use Rattle.audit_cli_rotate.specs.declared.prepared_error.PreparedError.TheVariants.{Command};

    ghost from_gives = { λ cause fault. fault ≡ Command cause };

    fn from(fault: CommandError) -> Self {
        PreparedError::Command(fault)
    }
}

impl From<StoreError> for PreparedError {
    ghost use Rattle.std.specs.Prelude.{◌≡◌};
    ghost use Rattle.audit_cli_base.specs.declared.fault.CommandError.TheVariants.{Refused};
    ghost use Rattle.audit_cli_rotate.specs.declared.prepared_error.PreparedError.TheVariants.{Command};

    ghost from_gives = { λ error fault. fault ≡ Command (Refused error) };

    fn from(error: StoreError) -> Self {
        PreparedError::Command(CommandError::Refused(error))
    }
}

impl From<AllocError> for PreparedError {
    ghost use Rattle.std.specs.Prelude.{◌≡◌};
    ghost use Rattle.audit_store.specs.declared.store_error.StoreError.TheVariants.{Memory};
    ghost use Rattle.audit_cli_base.specs.declared.fault.CommandError.TheVariants.{Refused};
    ghost use Rattle.audit_cli_rotate.specs.declared.prepared_error.PreparedError.TheVariants.{Command};

    ghost from_gives = { λ _ fault. fault ≡ Command (Refused Memory) };

    fn from(_: AllocError) -> Self {
        PreparedError::Command(CommandError::Refused(StoreError::Memory))
    }
}

impl From<io::Error> for PreparedError {
    ghost use Rattle.std.specs.Prelude.{◌≡◌};
    ghost use Rattle.audit_cli_base.specs.declared.fault.CommandError.TheVariants.{File};
    ghost use Rattle.audit_cli_rotate.specs.declared.prepared_error.PreparedError.TheVariants.{Command};

    ghost from_gives = { λ _ fault. fault ≡ Command File };

    fn from(_: io::Error) -> Self {
        PreparedError::Command(CommandError::File)
    }
}

impl From<JoinError> for PreparedError {
    ghost use Rattle.std.specs.Prelude.{◌≡◌};
    ghost use Rattle.audit_cli_rotate.specs.PreparedFaults.{of_join};

    ghost from_gives = { λ cause fault. fault ≡ of_join cause };

    fn from(cause: JoinError) -> Self {
        match cause {
            JoinError::Store(error) => PreparedError::Command(CommandError::Refused(error)),
            JoinError::TooManyKinds => PreparedError::TooManyKinds,
            JoinError::TooManyEvents => PreparedError::TooManyEvents,
        }
    }
}
