//! Stopping a daemon.
ghost use Rattle.std.specs.Prelude.{◌≡◌, ◌⊎◌, ◌↔◌, ℕ, List, Some, Err, IfOk, IfErr, OnErr};
ghost use Rattle.audit_store.specs.declared.store_error.StoreError.TheVariants.{Memory};
ghost use Rattle.audit_cli_base.specs.declared.fault.CommandError.TheVariants.{BadArgument, File, Refused};
ghost use Rattle.audit_cli_base.specs.Faults.{exit_status_of};
ghost use Rattle.audit_cli_base.specs.declared.status.Status.{Status};
ghost use Rattle.audit_cli_base.specs.SocketPath.{IsNoSocketPath};
ghost use Rattle.audit_cli_daemon.specs.Stopping.{IsOrdered};
ghost use Rattle.audit_cli_daemon.specs.declared.sockets.TheConstants.{STOP_SUFFIX_LEN};

use crate::sockets::{STOP_SUFFIX_LEN, stop_path};
use audit_cli_base::{CommandError, Status, socket_path_asked};
use audit_cli_host::{Dial, dial_within};
use audit_serve_door::STOP_ORDER;
use std::alloc::Global;
use std::io::{self, Read, Write};
use std::time::{Clock, Duration, Instant};

// How many seconds the end of a daemon is waited for.
const PATIENCE: u64 = 30;

/// The call by which a daemon is ordered to stop. What it answered, and that the call failed, are facts of that call
/// alone. Every system that connects to sockets has it.
pub trait StopCalls {
    /// The daemon whose orders come at this path took one, and answered with this byte.
    ghost answered: { Self → List ℕ → ℕ → Type 0 };

    /// A call failed.
    ghost unanswered: { Self → Type 0 };

    /// Orders the daemon whose orders come at a path to stop, and waits for its answer, together for at most 30 seconds.
    fn order_stop(&self, path: &str) -> io::Result<u8>
        ensures answered { IfOk result (answered self.now path.now) }
        ensures failed { OnErr result (unanswered self.now) };
}

impl<N: Dial + Clock> StopCalls for N {
    ghost answered = { λ _ _ _. Unit {0} };

    ghost unanswered = { λ _. Unit {0} };

    fn order_stop(&self, path: &str) -> io::Result<u8> {
        let begun = Instant::now(self)?;
        let mut order = dial_within(self, path, Duration::from_secs(PATIENCE))?;
        order.set_read_timeout(Some(time_left(begun.elapsed(self)?)))?;
        order.write_all(STOP_ORDER)?;
        let mut answer = [0];
        order.read_exact(&mut answer)?;
        Ok(answer[0])
    }
}

/// Orders the daemon at a socket to stop, waits for its end, and returns the status with which it exits. If no daemon
/// is there, if it ends without a status, or if it took no order or hasn't ended after 30 seconds, the error is `File`;
/// if the word is no socket's path, `BadArgument`; if memory was refused, `Refused`.
pub fn stop<N: StopCalls>(rt: &N, alloc: Global, socket: &str) -> Result<Status, CommandError>
    ensures wrong { IsNoSocketPath socket.now STOP_SUFFIX_LEN → result ≡ Err BadArgument }
    // Nothing else is called a wrong argument.
    ensures fault { IfErr result (λ fault. ((fault ≡ BadArgument) × IsNoSocketPath socket.now STOP_SUFFIX_LEN)
        ⊎ ((fault ≡ File) ⊎ (fault ≡ Refused Memory))) }
    // A status is the daemon's answer, and a file fault needs a call that failed, or an answer that is no status.
    ensures ordered { IsOrdered (N.answered rt.now) (N.unanswered rt.now) socket.now result }
{
    socket_path_asked(socket, STOP_SUFFIX_LEN)?;
    let path = stop_path(alloc, socket)?;
    let code = rt.order_stop(path.as_str())?;
    match status_of_code(code) {
        Some(status) => Ok(status),
        None => Err(CommandError::File),
    }
}

// How long the end of a daemon is still waited for. A stream can't wait for no time.
fn time_left(elapsed: Duration) -> Duration {
    let left = Duration::from_secs(PATIENCE).saturating_sub(elapsed);
    left.max(Duration::from_millis(1))
}

// The status with this number.
fn status_of_code(code: u8) -> Option<Status>
    ensures { (status : Status) → (result ≡ Some status) ↔ (exit_status_of status ≡ code) }
{
    match code {
        0 => Some(Status::Done),
        1 => Some(Status::Refused),
        2 => Some(Status::Usage),
        3 => Some(Status::Device),
        4 => Some(Status::Memory),
        _ => None,
    }
}
