//! What it may be that a server doesn't answer.
use crate::command::Asked;
use crate::heard::Said;
use audit_cli_client::Request as Remote;
use audit_text::Shown;
use std::io::{self, Write};

/// Prints what it may be that a server doesn't answer, or doesn't take what it was asked.
pub(crate) fn explain_server<M: Write>(
    asked: Asked<'_>,
    said: Option<Said>,
    messages: &mut M,
) -> io::Result<()> {
    let Asked::Remote(request) = asked else {
        return Ok(());
    };
    let (socket, refused) = match request {
        Remote::Ask {
            socket,
            question: ("close", _, _, _),
            ..
        } => (socket, "its clients may not close the log"),
        Remote::Ask { socket, .. } => (socket, "its clients may not ask this"),
        Remote::Send { socket, .. } => (socket, "its clients may not append this"),
        Remote::Watch { socket, .. } | Remote::Read { socket, .. } => {
            (socket, "its clients may not ask")
        }
    };
    let cause = match said {
        Some(Said::NotAllowed) => refused,
        Some(Said::NotCounted) => "the daemon counts the kinds of its --writer sockets alone",
        Some(Said::NoReply) => {
            "all 16 places are taken, or the server is stopped, busy or slower than --timeout"
        }
        _ => "the server closed the connection",
    };
    writeln!(messages, "audit: {}: {cause}", Shown(socket))
}
