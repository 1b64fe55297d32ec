//! Connections to a server's socket.
ghost use Rattle.std.specs.Prelude.{◌≡◌, ◌⊎◌, ◌*◌, ◌-◌, ◌≤◌, ℕ, true, Ok, None, IfOk, IfErr, IfSome};
ghost use Rattle.std.specs.Net.Unix.{unix_stream_raw_fd};
ghost use Rattle.std.specs.Duration.{as_nanos};
ghost use Rattle.std.specs.Time.{instant_nanos};
ghost use Rattle.std.specs.declared.io.ErrorKind.{ErrorKind};
ghost use Rattle.audit_cli_connection.specs.Dialing.{IsConnected, IsUnconnected, IsUnseen, descriptor_of_line};

use crate::dialing::Dialing;
use crate::fault::RemoteError;
use crate::line::{Line, Pace};
use audit_disk::{FileIdentity, SystemFile, SystemFiles};
use audit_wire_ask::ClientError;
use std::io::ErrorKind;
use std::os::unix::net::UnixStream;
use std::time::{Clock, Duration, Instant};

/// Connects to a socket. While no more clients can wait there, it tries again, until `seconds` have passed; then the
/// error is `TimedOut`. What is written, and what is read after it by the pace, has `seconds` too.
pub fn connect<'a, F: Dialing + Clock>(
    rt: &'a F,
    socket: &str,
    seconds: u64,
    pace: Pace,
) -> Result<Line<'a, F>, RemoteError>
    ensures connected { IfOk result (λ line. IsConnected (F.dials rt.now) socket.now (descriptor_of_line line)) }
    ensures time { IfOk result (λ line. as_nanos line.limit ≡ seconds * 1_000_000_000) }
    ensures pace { IfOk result (λ line. line.pace ≡ pace) }
    // It fails only if a call did, or the seconds are over.
    ensures failed { IfErr result (IsUnconnected (F.dials rt.now) socket.now seconds) }
{
    let limit = Duration::from_secs(seconds);
    match connected_in_time(rt, socket, seconds) {
        Ok(stream) => Ok(Line::new(rt, stream, limit, pace)),
        Err(fault) => Err(fault),
    }
}

fn connected_in_time<F: Dialing>(
    rt: &F,
    path: &str,
    seconds: u64,
) -> Result<UnixStream, RemoteError>
    ensures connected { IfOk result (λ stream. IsConnected (F.dials rt.now) path.now (unix_stream_raw_fd stream)) }
    ensures failed { IfErr result (IsUnconnected (F.dials rt.now) path.now seconds) }
{
    let begun = moment_of(rt)?;
    for tries in 0..u64::MAX {
        if let Some(stream) = connected_at_once(rt, path)? {
            return waiting(rt, stream);
        }
        if is_over(begun, moment_of(rt)?, seconds) {
            return Err(RemoteError::Server(ClientError::TimedOut));
        }
        rt.wait_for_retry();
    }
    Err(RemoteError::NoConnection(ErrorKind::WouldBlock))
}

// A stream to a socket; none if no more clients can wait for the server there.
fn connected_at_once<F: Dialing>(rt: &F, path: &str) -> Result<Option<UnixStream>, RemoteError>
    ensures connected { IfOk result (λ made. IfSome made
        (λ stream. (F.dials rt.now).connected path.now (unix_stream_raw_fd stream))) }
    ensures full { result ≡ Ok None → (F.dials rt.now).unconnected path.now ErrorKind.WouldBlock }
    ensures failed { IfErr result (λ fault. (kind : ErrorKind) × (fault ≡ RemoteError.NoConnection kind)
        × (F.dials rt.now).unconnected path.now kind) }
{
    match rt.connect_once(path) {
        Ok(stream) => Ok(Some(stream)),
        Err(error) => match error.kind() {
            ErrorKind::WouldBlock => Ok(None),
            kind => Err(RemoteError::NoConnection(kind)),
        },
    }
}

fn waiting<F: Dialing>(rt: &F, stream: UnixStream) -> Result<UnixStream, RemoteError>
    ensures waits { IfOk result (λ same. (same ≡ stream) × (F.dials rt.now).waits (unix_stream_raw_fd stream)) }
    ensures failed { IfErr result (λ fault. (kind : ErrorKind) × (fault ≡ RemoteError.NoConnection kind)
        × (F.dials rt.now).failed kind) }
{
    match rt.let_wait(&stream) {
        Ok(()) => Ok(stream),
        Err(error) => Err(RemoteError::NoConnection(error.kind())),
    }
}

fn moment_of<F: Dialing>(rt: &F) -> Result<Instant, RemoteError>
    ensures read { IfOk result (λ now. (F.dials rt.now).read (instant_nanos now)) }
    ensures failed { IfErr result (λ fault. (kind : ErrorKind) × (fault ≡ RemoteError.NoConnection kind)
        × (F.dials rt.now).failed kind) }
{
    match rt.moment() {
        Ok(now) => Ok(now),
        Err(error) => Err(RemoteError::NoConnection(error.kind())),
    }
}

/// Whether these seconds have passed since a moment.
pub fn is_over(begun: Instant, now: Instant, seconds: u64) -> bool
    ensures { result ≡ true → seconds * 1_000_000_000 ≤ instant_nanos now - instant_nanos begun }
{
    let limit = Duration::from_secs(seconds);
    limit.saturating_sub(now.duration_since(begun)).is_zero()
}

/// The identity of the socket's file, so that no output replaces it. It fails only if the call does that looks at it.
pub fn socket_identity<F: SystemFiles>(rt: &F, socket: &str) -> Result<FileIdentity, RemoteError>
where
    F::File: SystemFile,
    ensures failed { IfErr result (IsUnseen (F.failed rt.now)) }
{
    match rt.look(socket) {
        Ok(found) => Ok(FileIdentity::of(&found)),
        Err(error) => Err(RemoteError::NoConnection(error.kind())),
    }
}
