use crate::forms::{
    DISCLOSED, EVENTS, EXPLAIN, EXTENDS, NO_PROGRESS, PREPARED, PROOF, WRITER, command_line,
};
use crate::noted::NoteRequest;
use crate::remote_command::remote_request;
use audit_cli_append::Request as Lines;
use audit_cli_client::Request as Remote;
use audit_cli_daemon::{Request as Daemon, Settings};
use audit_cli_disclosure::{ChoiceWord, Disclosing, Request as Disclosure, Showing};
use audit_cli_offline::{CheckForm, ReportForm};
use audit_cli_rotate::{Prepared, Request as Rotation};
use audit_cli_salvage::Salvaging;
use audit_cli_serve::Request as Serving;
use audit_cli_store::{Access, LinkCheck, Opening, Request, ShowForm, Site, Verification};
use clap::{ArgMatches, Error};
use std::alloc::Global;
use std::convert::AsStr;

/// The command that a command line requests, and how it is reported.
#[derive(Clone, Copy)]
pub struct CommandLine<'a> {
    /// The command with its arguments.
    pub asked: Asked<'a>,
    /// The file of a witness, whose newest commitment the log of its store has to extend.
    pub extends: Option<&'a str>,
    /// Whether causes and warnings are printed even without a terminal.
    pub explain: bool,
    /// Whether a terminal shows how far the command is.
    pub shows_progress: bool,
}

/// The requested command.
#[derive(Clone, Copy)]
pub enum Asked<'a> {
    /// A command that serves no sessions.
    Plain(Request<'a>),
    /// A note of a commitment.
    Note(NoteRequest<'a>),
    /// A disclosure that is made, or by which an export is shown.
    Disclosure(Disclosure<'a>),
    /// A search of a damaged store with its log's first key.
    Search(Salvaging<'a>),
    /// An append of lines.
    Lines(Lines<'a>),
    /// Closing a log, and beginning a new store with its last commitment.
    Rotation(Rotation<'a>),
    /// The same with a store that was formatted before, and a link to it.
    Prepared(Prepared<'a>),
    /// A command that asks a server.
    Remote(Remote<'a>),
    /// A command that serves sessions.
    Serving(Serving<'a>),
    /// A command about a daemon.
    Daemon(Daemon<'a>),
}

/// Parses the words of a command line, of which the first is the program's name. The error prints help or usage, or
/// reports that memory ran out.
pub fn matches_of<'a, S: AsStr>(alloc: Global, words: &'a [S]) -> Result<ArgMatches<'a>, Error> {
    command_line(alloc)?.try_get_matches_from(words)
}

/// What a command line requests: `Replay` without a command.
pub fn request_of<'m, 'a: 'm>(matches: &'m ArgMatches<'a>) -> CommandLine<'m> {
    match matches.subcommand() {
        Some((name, given)) => CommandLine {
            asked: asked_by(name, given),
            extends: extends_asked(name, given),
            explain: given.get_flag(EXPLAIN),
            shows_progress: !given.get_flag(NO_PROGRESS),
        },
        None => CommandLine {
            asked: Asked::Plain(Request::Replay),
            extends: None,
            explain: false,
            shows_progress: false,
        },
    }
}

// The file of a witness that a command names, if it opens a store to append to it, or to close its log.
fn extends_asked<'a>(name: &str, given: &ArgMatches<'a>) -> Option<&'a str> {
    match name {
        "append" | "daemon" | "rotate" => given.get_str(EXTENDS),
        _ => None,
    }
}

// The request of a command with these arguments.
fn asked_by<'m, 'a: 'm>(name: &str, given: &'m ArgMatches<'a>) -> Asked<'m> {
    if let Some(remote) = remote_request(name, given) {
        return Asked::Remote(remote);
    }
    match name {
        "append" => Asked::Lines(append_request(given)),
        "disclose" => Asked::Disclosure(Disclosure::Disclose(disclosing(given))),
        "verify" if given.get_flag(DISCLOSED) => Asked::Disclosure(Disclosure::Show(showing(
            given,
        ))),
        "salvage" => Asked::Search(search_request(given)),
        "note" => Asked::Note(NoteRequest {
            name: word(given, "NAME"),
            commitment: word(given, "COMMIT"),
        }),
        "serve" => Asked::Serving(serve_request(given)),
        "loop" => Asked::Serving(loop_request(given)),
        "daemon" => Asked::Daemon(Daemon::Run(settings(given))),
        "rotate" if given.get_flag(PREPARED) => Asked::Prepared(prepared(given)),
        "rotate" => Asked::Rotation(rotation(given)),
        "stop" => Asked::Daemon(Daemon::Stop {
            socket: word(given, "SOCKET"),
        }),
        _ => Asked::Plain(plain_request(name, given)),
    }
}

fn serve_request<'a>(given: &ArgMatches<'a>) -> Serving<'a> {
    Serving::Serve {
        file: word(given, "FILE"),
        socket: word(given, "SOCKET"),
        rounds: word(given, "ROUNDS"),
        sessions: given.get_str("sessions"),
        socket_mode: given.get_str("socket-mode"),
    }
}

fn loop_request<'a>(given: &ArgMatches<'a>) -> Serving<'a> {
    Serving::Loop {
        file: word(given, "FILE"),
        socket: word(given, "SOCKET"),
        socket_mode: given.get_str("socket-mode"),
    }
}

fn rotation<'a>(given: &ArgMatches<'a>) -> Rotation<'a> {
    Rotation {
        old: word(given, "OLD"),
        new: word(given, "NEW"),
        sectors: word(given, "SECTORS"),
        key_file: word(given, "KEYFILE"),
    }
}

fn prepared<'a>(given: &ArgMatches<'a>) -> Prepared<'a> {
    Prepared {
        old: word(given, "OLD"),
        next: word(given, "NEW"),
        link: word(given, "link"),
        after: given.get_str("after"),
    }
}

fn search_request<'m, 'a: 'm>(given: &'m ArgMatches<'a>) -> Salvaging<'m> {
    Salvaging {
        file: word(given, "FILE"),
        key_file: word(given, "KEYFILE"),
        out: word(given, "OUT"),
        within: given.get_str("within"),
        under: given.get_str("under"),
        proofs: given.get_strs(PROOF).unwrap_or(&[]),
    }
}

fn append_request<'a>(given: &ArgMatches<'a>) -> Lines<'a> {
    Lines {
        file: word(given, "FILE"),
        text: given.get_str("text"),
        expect: given.get_str("expect"),
        follows: given.get_flag("follow"),
        long: given.get_str("long"),
        reserve: given.get_str("reserve"),
    }
}

fn settings<'m, 'a: 'm>(given: &'m ArgMatches<'a>) -> Settings<'m> {
    Settings {
        file: word(given, "FILE"),
        socket: word(given, "SOCKET"),
        reader: given.get_str("reader"),
        writers: given.get_strs(WRITER).unwrap_or(&[]),
        may_close: given.get_flag("allow-close"),
        idle: given.get_str("idle"),
        backlog: given.get_str("backlog"),
        reserve: given.get_str("reserve"),
        until_free: given.get_str("until-free"),
        socket_mode: given.get_str("socket-mode"),
    }
}

fn plain_request<'a>(name: &str, given: &ArgMatches<'a>) -> Request<'a> {
    match name {
        "format" => format_request(given),
        "close" => Request::Close {
            file: word(given, "FILE"),
        },
        "show" => show_request(given),
        "check" => check_request(given),
        "export" => export_request(given),
        "verify" => verify_request(given),
        "prove" => prove_request(given),
        _ => Request::Replay,
    }
}

fn format_request<'a>(given: &ArgMatches<'a>) -> Request<'a> {
    Request::Format {
        file: word(given, "FILE"),
        site: site(given),
        sectors: word(given, "SECTORS"),
        key_file: word(given, "KEYFILE"),
    }
}

fn show_request<'a>(given: &ArgMatches<'a>) -> Request<'a> {
    let file = word(given, "FILE");
    let form = show_form(given);
    if given.get_flag("header") {
        return Request::ShowHeader { file, form };
    }
    Request::Show {
        file,
        access: access(given),
        form,
    }
}

fn check_request<'a>(given: &ArgMatches<'a>) -> Request<'a> {
    let (proof, older, newer) = (
        word(given, "PROOF"),
        word(given, "OLDER"),
        given.get_str("NEWER"),
    );
    if given.get_flag("link") {
        return Request::CheckLink(LinkCheck {
            link: proof,
            old: older,
            new: newer,
        });
    }
    match given.get_str("key") {
        Some(key) => Request::Open(Opening {
            proof,
            commitment: older,
            newer,
            key,
            form: opened_form(given),
        }),
        None => Request::Check {
            proof,
            older,
            newer,
            form: check_form(given),
        },
    }
}

// How the event of a proof is printed.
fn opened_form(given: &ArgMatches<'_>) -> ReportForm {
    if given.get_flag("json") {
        ReportForm::Json
    } else if given.get_flag("text") {
        ReportForm::Text
    } else {
        ReportForm::Events
    }
}

fn export_request<'a>(given: &ArgMatches<'a>) -> Request<'a> {
    Request::Export {
        file: word(given, "FILE"),
        out: word(given, "OUT"),
        access: if given.get_flag("salvage") {
            Access::Salvage
        } else {
            access(given)
        },
        from: given.get_str("from"),
    }
}

fn verify_request<'a>(given: &ArgMatches<'a>) -> Request<'a> {
    Request::Verify(Verification {
        export: word(given, "EXPORT"),
        start: word(given, "KEYFILE"),
        commitment: word(given, "COMMIT"),
        form: report_form(given),
        kinds: given.get_str("kind"),
        from: given.get_str("from"),
        save: given.get_str("save"),
    })
}

fn disclosing<'a>(given: &ArgMatches<'a>) -> Disclosing<'a> {
    Disclosing {
        export: word(given, "EXPORT"),
        start: word(given, "KEYFILE"),
        commitment: word(given, "COMMIT"),
        out: word(given, "OUT"),
        choice: match given.get_str(EVENTS) {
            Some(events) => ChoiceWord::Events(events),
            None => ChoiceWord::Kinds(word(given, "kind")),
        },
    }
}

fn showing<'a>(given: &ArgMatches<'a>) -> Showing<'a> {
    Showing {
        export: word(given, "EXPORT"),
        disclosed: word(given, "KEYFILE"),
        commitment: word(given, "COMMIT"),
        form: report_form(given),
    }
}

fn prove_request<'a>(given: &ArgMatches<'a>) -> Request<'a> {
    Request::Prove {
        file: word(given, "FILE"),
        kind: word(given, "KIND"),
        first: word(given, "A"),
        second: word(given, "B"),
        out: word(given, "OUT"),
        access: access(given),
    }
}

// How a command that only answers opens the store.
fn access(given: &ArgMatches<'_>) -> Access {
    if given.get_flag("read-only") {
        Access::ReadOnly
    } else {
        Access::Repair
    }
}

// What is printed of a store.
fn show_form(given: &ArgMatches<'_>) -> ShowForm {
    if given.get_flag("free") {
        ShowForm::WithFree
    } else {
        ShowForm::State
    }
}

// What is printed of an accepted proof.
fn check_form(given: &ArgMatches<'_>) -> CheckForm {
    if given.get_flag("print") {
        CheckForm::Contents
    } else {
        CheckForm::Judgment
    }
}

/// How the events of a log are printed.
pub(crate) fn report_form(given: &ArgMatches<'_>) -> ReportForm {
    if given.get_flag("json") {
        ReportForm::Json
    } else if given.get_flag("numbers") {
        ReportForm::Numbered
    } else if given.get_flag("text") {
        ReportForm::Text
    } else {
        ReportForm::Events
    }
}

// Where a store is made.
fn site<'a>(given: &ArgMatches<'a>) -> Site<'a> {
    if given.get_flag("in-place") {
        Site::InPlace {
            erase: given.get_flag("erase"),
        }
    } else {
        Site::NewFile {
            mode: given.get_str("mode"),
        }
    }
}

// The value of a required argument. The parser has already refused command lines without it.
pub(crate) fn word<'a>(given: &ArgMatches<'a>, id: &str) -> &'a str {
    given.get_str(id).unwrap_or("")
}
