//! Why a log wasn't read on.
ghost use Rattle.std.specs.Prelude.{◌≡◌, Some, None};
ghost use Rattle.audit_cli_client.specs.ReadFaults.{fault_of_unseen, fault_of_client, fault_of_reading};

use audit_cli_base::CommandError;
use audit_cli_connection::{Contradiction, RemoteError};
use audit_proof::Commitment;
use audit_wire_ask::{ClientError, Unseen};
use audit_wire_read::ReadError;

/// The fault of a reader that holds this commitment.
pub fn fault_of_reading(held: Commitment, error: ReadError<CommandError>) -> RemoteError
    ensures { result ≡ fault_of_reading held error }
{
    match error {
        ReadError::Unseen(unseen) => fault_of_unseen(held, unseen),
        ReadError::Client(error) => fault_of_client(error),
        ReadError::Export(fault) => RemoteError::Command(CommandError::Export(fault)),
        ReadError::Outlet(fault) => RemoteError::Command(fault),
    }
}

/// The same if the newest commitment isn't believed, or wasn't had.
pub fn fault_of_unseen(held: Commitment, unseen: Unseen) -> RemoteError
    ensures { result ≡ fault_of_unseen held unseen }
{
    match (unseen.error, unseen.given) {
        (ClientError::Shorter | ClientError::OtherRoot | ClientError::NotAccepted, Some(given)) =>
            RemoteError::NotLed(
                unseen.error,
                Some(Contradiction {
                    error: unseen.error,
                    held,
                    given,
                    is_kept: false,
                }),
            ),
        _ => fault_of_client(unseen.error),
    }
}

// The fault of an error without two commitments: a judgment of the log is one of the reader's.
fn fault_of_client(error: ClientError) -> RemoteError
    ensures { result ≡ fault_of_client error }
{
    match error {
        ClientError::Shorter | ClientError::OtherRoot | ClientError::NotAccepted => {
            RemoteError::NotLed(error, None)
        }
        _ => RemoteError::Server(error),
    }
}
