//! The commands that ask a server, as requests.
use crate::command::{report_form, word};
use crate::forms::LINK;
use audit_cli_client::Request as Remote;
use clap::ArgMatches;

/// The request of a command with these arguments, if it is a command that asks a server.
pub fn remote_request<'a>(name: &str, given: &ArgMatches<'a>) -> Option<Remote<'a>> {
    let socket = word(given, "SOCKET");
    let timeout = given.get_str("timeout");
    match name {
        "ask" => Some(Remote::Ask {
            socket,
            question: (
                word(given, "QUESTION"),
                given.get_str("A"),
                given.get_str("B"),
                given.get_str("C"),
            ),
            from: given.get_str("from"),
            timeout,
        }),
        "send" => Some(Remote::Send {
            socket,
            text: given.get_str("text"),
            long: given.get_str("long"),
            window: given.get_str("window"),
            timeout,
            until_refused: given.get_flag("until-refused"),
            is_placed: given.get_flag("placed"),
            from: given.get_str("from"),
            keys: given.get_str("receipts"),
            retry: given.get_str("retry"),
        }),
        "watch" => Some(Remote::Watch {
            socket,
            state: word(given, "STATE"),
            every: given.get_str("every"),
            timeout,
            is_quiet: given.get_flag("quiet"),
            after: given.get_str("after"),
            link: given.get_str(LINK),
        }),
        "read" => Some(Remote::Read {
            socket,
            state: word(given, "STATE"),
            first: given.get_str("first"),
            under: given.get_str("under"),
            form: report_form(given),
            kinds: given.get_str("kind"),
            every: given.get_str("every"),
            timeout,
        }),
        _ => None,
    }
}
