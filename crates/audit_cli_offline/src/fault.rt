use audit_text::LinesError;
use audit_verify::VerifyFault;
use thiserror::Error;

/// Why an export wasn't verified, or the lines of its report weren't written.
#[derive(Clone, Copy, Debug, Drop, Error, PartialEq, Eq)]
pub enum OfflineError {
    /// The export has a fault, or couldn't be read.
    #[error("the export is not verified")]
    Export(VerifyFault),
    /// The export is verified, but its lines weren't written.
    #[error(transparent)]
    Lines(LinesError),
}

impl From<VerifyFault> for OfflineError {
    ghost use Rattle.std.specs.Prelude.{◌≡◌};
    ghost use Rattle.audit_cli_offline.specs.declared.fault.OfflineError.TheVariants.{Export};

    ghost from_gives = { λ given fault. fault ≡ Export given };

    fn from(given: VerifyFault) -> Self {
        OfflineError::Export(given)
    }
}

impl From<LinesError> for OfflineError {
    ghost use Rattle.std.specs.Prelude.{◌≡◌};
    ghost use Rattle.audit_cli_offline.specs.declared.fault.OfflineError.TheVariants.{Lines};

    ghost from_gives = { λ given fault. fault ≡ Lines given };

    fn from(given: LinesError) -> Self {
        OfflineError::Lines(given)
    }
}
