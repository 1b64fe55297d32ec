//! The files of a command that may hold keys.
use crate::command::Asked;
use audit_cli_client::Request as Remote;
use audit_cli_daemon::Request as Daemon;
use audit_cli_disclosure::Request as Disclosure;
use audit_cli_serve::Request as Serving;
use audit_cli_store::Request;

/// The file of the store that a command opens, or formats.
pub(crate) fn store_of<'a>(asked: Asked<'a>) -> Option<&'a str> {
    match asked {
        Asked::Plain(request) => store_of_plain(request),
        Asked::Search(asked) => Some(asked.file),
        Asked::Lines(lines) => Some(lines.file),
        Asked::Rotation(rotation) => Some(rotation.old),
        Asked::Prepared(asked) => Some(asked.old),
        Asked::Serving(Serving::Serve { file, .. } | Serving::Loop { file, .. }) => Some(file),
        Asked::Daemon(Daemon::Run(settings)) => Some(settings.file),
        Asked::Daemon(Daemon::Stop { .. })
        | Asked::Remote(_)
        | Asked::Note(_)
        | Asked::Disclosure(_) => None,
    }
}

fn store_of_plain<'a>(request: Request<'a>) -> Option<&'a str> {
    match request {
        Request::Format { file, .. }
        | Request::Close { file }
        | Request::Show { file, .. }
        | Request::ShowHeader { file, .. }
        | Request::Export { file, .. }
        | Request::Prove { file, .. } => Some(file),
        Request::Replay
        | Request::Check { .. }
        | Request::CheckLink(_)
        | Request::Open(_)
        | Request::Verify(_) => None,
    }
}

/// The file from which a command reads a key.
pub(crate) fn key_file_of<'a>(asked: Asked<'a>) -> Option<&'a str> {
    match asked {
        Asked::Plain(Request::Format { key_file, .. }) => Some(key_file),
        Asked::Plain(Request::Verify(asked)) => Some(asked.start),
        Asked::Disclosure(Disclosure::Disclose(asked)) => Some(asked.start),
        Asked::Search(asked) => Some(asked.key_file),
        Asked::Rotation(rotation) => Some(rotation.key_file),
        Asked::Remote(Remote::Read { state, first, .. }) => Some(first.unwrap_or(state)),
        _ => None,
    }
}
