//! Why a look failed.
ghost use Rattle.std.specs.Prelude.{◌≡◌};
ghost use Rattle.audit_cli_witness.specs.Alarm.{fault_of_look};

use audit_cli_connection::{Contradiction, RemoteError};
use audit_proof::Commitment;
use audit_wire_ask::{ClientError, WatchError};

/// The fault of a look by a witness that holds this commitment, if any: a contradiction if the server gave another
/// one, and that judges the log. It isn't kept yet.
pub fn fault_of_look(held: Option<Commitment>, error: WatchError<RemoteError>) -> RemoteError
    ensures { result ≡ fault_of_look held error }
{
    match error {
        WatchError::Client(unseen) => match (held, unseen.given, unseen.error) {
            (
                Some(held),
                Some(given),
                ClientError::Shorter | ClientError::OtherRoot | ClientError::NotAccepted,
            ) => RemoteError::Contradicted(Contradiction {
                error: unseen.error,
                held,
                given,
                is_kept: false,
            }),
            _ => RemoteError::Server(unseen.error),
        },
        WatchError::Kept(fault) => fault,
    }
}
