ghost use Rattle.std.specs.Prelude.{◌≡◌};
ghost use Rattle.audit_cli_rotate.specs.Faults.{rotation_status};

use crate::request::Request;
use audit_cli_base::{CommandError, Status, report};
use audit_store::StoreError;
use audit_text::Shown;
use std::io::Write;

/// Why a log wasn't rotated.
#[derive(Clone, Copy, Debug, PartialEq, Eq)]
pub enum RotationError {
    /// An error that other commands have too.
    Command(CommandError),
    /// The old log began with the first key that the new one was to have: two logs would be encrypted under the same
    /// keystream.
    OwnKey,
}

impl RotationError {
    /// The status with which the program exits.
    pub fn status(self) -> Status
        ensures { result ≡ rotation_status self }
    {
        match self {
            RotationError::Command(fault) => fault.status(),
            RotationError::OwnKey => Status::Usage,
        }
    }

    /// Prints the error, for a key that was used in two lines, and returns the status with which the program exits.
    pub(crate) fn report<M: Write>(self, request: Request<'_>, messages: &mut M) -> Status
        ensures { result ≡ rotation_status self }
    {
        match self {
            RotationError::Command(fault) => report(fault, messages),
            RotationError::OwnKey => {
                let _ = report(CommandError::BadArgument, messages);
                let (key_file, old) = (Shown(request.key_file), Shown(request.old));
                let _ = writeln!(
                    messages,
                    "audit: {key_file}: the first key of {old}: use a new one"
                );
                self.status()
            }
        }
    }
}

impl From<CommandError> for RotationError {
    ghost use Rattle.std.specs.Prelude.{◌≡◌};
    ghost use Rattle.audit_cli_rotate.specs.declared.fault.RotationError.TheVariants.{Command};

    ghost from_gives = { λ cause fault. fault ≡ Command cause };

    fn from(fault: CommandError) -> Self {
        RotationError::Command(fault)
    }
}

impl From<StoreError> for RotationError {
    ghost use Rattle.std.specs.Prelude.{◌≡◌};
    ghost use Rattle.audit_cli_base.specs.declared.fault.CommandError.TheVariants.{Refused};
    ghost use Rattle.audit_cli_rotate.specs.declared.fault.RotationError.TheVariants.{Command};

    ghost from_gives = { λ error fault. fault ≡ Command (Refused error) };

    fn from(error: StoreError) -> Self {
        RotationError::Command(CommandError::Refused(error))
    }
}
