use audit_verify::VerifyFault;
use audit_wire_ask::{ClientError, Unseen};

/// Why a log wasn't read on to its newest commitment.
#[derive(Clone, Copy, Debug, PartialEq, Eq)]
pub enum ReadError<E> {
    /// The newest commitment wasn't given, or isn't believed after the one that was kept.
    Unseen(Unseen),
    /// Entries weren't given, or don't lead to the newest commitment.
    Client(ClientError),
    /// The next entry isn't valid; the index counts all entries of the log.
    Export(VerifyFault),
    /// Events couldn't be printed, or a state not be kept.
    Outlet(E),
}

impl<E> From<ClientError> for ReadError<E> {
    ghost use Rattle.std.specs.Prelude.{◌≡◌};
    ghost use Rattle.audit_wire_read.specs.declared.read_error.ReadError.TheVariants.{Client};

    ghost from_gives = { λ given error. error ≡ Client given };

    fn from(given: ClientError) -> Self {
        ReadError::Client(given)
    }
}

impl<E> From<VerifyFault> for ReadError<E> {
    ghost use Rattle.std.specs.Prelude.{◌≡◌};
    ghost use Rattle.audit_wire_read.specs.declared.read_error.ReadError.TheVariants.{Export};

    ghost from_gives = { λ given error. error ≡ Export given };

    fn from(given: VerifyFault) -> Self {
        ReadError::Export(given)
    }
}
