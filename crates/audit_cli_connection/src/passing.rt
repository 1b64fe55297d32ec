//! What is reported of a passing fault, and of its end.
ghost use Rattle.std.specs.Prelude.{◌≡◌, ℕ, List, codes, IfOk, IfErr, IfSome};
ghost use Rattle.std.specs.Io.KnownBytes.{Appends};
ghost use Rattle.audit_cli_connection.specs.Messages.{message_of, IsMomentLine, Says, SaysFirst};
ghost use Rattle.audit_cli_connection.specs.Messages.{was_absent, SaysAnswersAgain};

use crate::dates::push_date;
use crate::fault::RemoteError;
use audit_text::Shown;
use audit_wire_ask::{ClientError, FallibleWrite};
use httpdate::HttpDate;
use std::alloc::Global;
use std::io;

/// Reports the return of a server that was reported not to be there. If memory for the line is refused, a line without
/// the socket and the date is printed.
pub fn report_return<M: FallibleWrite>(
    alloc: Global,
    date: Option<HttpDate>,
    socket: &str,
    reported: Option<RemoteError>,
    messages: &mut M,
)
    ensures { SaysAnswersAgain reported date (M.contents messages.old) (M.contents messages.new)
        (M.failed messages.new) }
{
    if was_absent(reported) {
        print_return(moment_line(alloc, date, socket, "answers again"), messages);
    }
}

// Whether it was reported that a server isn't there, or doesn't answer.
fn was_absent(reported: Option<RemoteError>) -> bool
    ensures { result ≡ was_absent reported }
{
    matches!(
        reported,
        Some(RemoteError::NoConnection(_) | RemoteError::Server(_))
    )
}

// Prints the line of a server that answers again, or a line without its name.
fn print_return<M: FallibleWrite>(line: io::Result<Vec<u8>>, messages: &mut M)
    ensures made { IfOk line (λ line. Says (M.contents messages.old) (M.contents messages.new)
        (M.failed messages.new) line.items) }
    ensures unmade { IfErr line (λ _. Says (M.contents messages.old) (M.contents messages.new)
        (M.failed messages.new) (codes "audit: answers again\n")) }
{
    let _ = match &line {
        Ok(line) => messages.write_text(line),
        Err(_) => messages.write_text(b"audit: answers again\n"),
    };
}

/// Reports a passing fault of a command with this socket and this file: what it is, and then of what, why and when.
pub fn report_passing<M: FallibleWrite>(
    alloc: Global,
    date: Option<HttpDate>,
    socket: &str,
    state: &str,
    fault: RemoteError,
    messages: &mut M,
)
    ensures { IfSome (message_of fault) (SaysFirst (M.contents messages.old) (M.contents messages.new)
        (M.failed messages.new)) }
{
    match fault.print(messages) {
        Ok(()) => print_if_made(passing_line(alloc, date, socket, state, fault), messages),
        Err(_) => (),
    }
}

// Prints a line, if there was memory for it.
fn print_if_made<M: FallibleWrite>(line: io::Result<Vec<u8>>, messages: &mut M)
    ensures { (later : List ℕ) × Appends (M.contents messages.old) (M.contents messages.new) later }
{
    match line {
        Ok(line) => {
            let _ = messages.write_text(&line);
        }
        Err(_) => {}
    }
}

// The line of what a fault is of, why it came, and when.
fn passing_line(
    alloc: Global,
    date: Option<HttpDate>,
    socket: &str,
    state: &str,
    fault: RemoteError,
) -> io::Result<Vec<u8>> {
    match fault {
        RemoteError::NoConnection(kind) => {
            let cause = format!(in alloc; "{kind}")?;
            moment_line(alloc, date, socket, &cause)
        }
        RemoteError::StateInUse | RemoteError::ReaderInUse => {
            moment_line(alloc, date, state, "in use")
        },
        RemoteError::Server(ClientError::TimedOut) => {
            moment_line(alloc, date, socket, "no reply in time")
        }
        _ => moment_line(alloc, date, socket, "connection ended"),
    }
}

// A line with the name of a file, what is said of it, and the date.
fn moment_line(alloc: Global, date: Option<HttpDate>, name: &str, what: &str) -> io::Result<Vec<u8>>
    ensures { IfOk result (λ line. IsMomentLine what.now date line.items) }
{
    let shown = format!(in alloc; "{}", Shown(name))?;
    let mut line = Vec::from_slice(alloc, b"audit: ")?;
    line.extend_from_slice(shown.as_bytes())?;
    line.extend_from_slice(b": ")?;
    line.extend_from_slice(what.as_bytes())?;
    line.extend_from_slice(b", ")?;
    push_date(&mut line, date)?;
    line.extend_from_slice(b"\n")?;
    Ok(line)
}
