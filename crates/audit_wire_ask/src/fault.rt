use audit_wire::Refusal;
use std::alloc::{AllocError, AllocFailed};
use thiserror::Error;

/// Why a server's answer isn't there, or isn't taken.
#[derive(Clone, Copy, Debug, Drop, Error, PartialEq, Eq)]
pub enum ClientError {
    /// The server refused the request.
    #[error("the server refused")]
    Refused(Refusal),
    /// The server sent something other than a reply that was due.
    #[error("bad reply")]
    BadReply,
    /// The connection ended or failed.
    #[error("connection ended")]
    Ended,
    /// Nothing arrived in time.
    #[error("timed out")]
    TimedOut,
    /// What the server sent isn't accepted under the commitment that it gave.
    #[error("not accepted")]
    NotAccepted,
    /// The log has fewer entries than the newest commitment that was kept.
    #[error("the log has become shorter")]
    Shorter,
    /// The log has another root than the newest commitment that was kept, for the same number of entries.
    #[error("the log has another root")]
    OtherRoot,
    /// What the server sent couldn't be written.
    #[error("the output can't be written")]
    Output,
    /// Memory was refused.
    #[error("out of memory")]
    Memory,
}

impl From<AllocError> for ClientError {
    ghost use Rattle.std.specs.Prelude.{◌≡◌};
    ghost use Rattle.audit_wire_ask.specs.declared.fault.ClientError.TheVariants.{Memory};

    ghost from_gives = { λ _ fault. fault ≡ Memory };

    fn from(_: AllocError) -> Self {
        ClientError::Memory
    }
}

impl<T: Drop> From<AllocFailed<T>> for ClientError {
    ghost use Rattle.std.specs.Prelude.{◌≡◌};
    ghost use Rattle.audit_wire_ask.specs.declared.fault.ClientError.TheVariants.{Memory};

    ghost from_gives = { λ _ fault. fault ≡ Memory };

    fn from(_: AllocFailed<T>) -> Self {
        ClientError::Memory
    }
}
