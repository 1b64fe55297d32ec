//! The word of a command line that has another form than it should have.
use crate::command::Asked;
use crate::form::Form;
use audit_cli_append::Request as Lines;
use audit_cli_client::Request as Remote;
use audit_cli_daemon::{Request as Daemon, Settings, source_in};
use audit_cli_disclosure::{ChoiceWord, Request as Disclosure};
use audit_cli_salvage::Salvaging;
use audit_cli_serve::Request as Serving;
use audit_cli_store::{Request, Site};
use audit_log::{MAX_SECTORS, MIN_SECTORS};
use audit_serve_passes::BoundKinds;
use audit_text::Shown;
use std::fmt::{self, Display, Formatter};

// The bounds of numbers of seconds, of entries of a hole, of lines that are sent ahead, of sessions in a round, and of
// bytes for a client.
const SECONDS: Form<'static> = Form::Number {
    least: 1,
    most: 86_400,
};

const HOLE: Form<'static> = Form::Number {
    least: 1,
    most: u64::MAX,
};

const WINDOW: Form<'static> = Form::Number {
    least: 1,
    most: 1024,
};

const SESSIONS: Form<'static> = Form::Number { least: 1, most: 16 };

const BACKLOG: Form<'static> = Form::Number {
    least: 0,
    most: 67_108_864,
};

const SECTORS: Form<'static> = Form::Number {
    least: MIN_SECTORS,
    most: MAX_SECTORS,
};

/// A word, its name in the help, and the form that it lacks.
#[derive(Clone, Copy)]
pub(crate) struct Wrong<'a> {
    name: &'static str,
    word: &'a str,
    form: Form<'a>,
}

impl Display for Wrong<'_> {
    fn fmt<W: fmt::Write>(&self, f: &mut Formatter<W>) -> fmt::Result {
        let Wrong { name, word, form } = self;
        if word.is_empty() {
            return write!(f, "the empty word: {name} is {form}");
        }
        write!(f, "{}: {name} is {form}", Shown(word))?;
        match form.flaw(word) {
            Some(flaw) => write!(f, ": {flaw}"),
            None => Ok(()),
        }
    }
}

/// The first word that has another form than it should have, besides those of a question.
pub(crate) fn wrong_word<'a>(asked: Asked<'a>) -> Option<Wrong<'a>> {
    match asked {
        Asked::Plain(request) => wrong_in_plain(request),
        Asked::Note(note) => judge("NAME", Some(note.name), Form::Name).or(judge(
            "COMMIT",
            Some(note.commitment),
            Form::Commitment,
        )),
        Asked::Disclosure(request) => wrong_in_disclosure(request),
        Asked::Search(asked) => wrong_in_search(asked),
        Asked::Lines(lines) => wrong_in_lines(lines),
        Asked::Rotation(rotation) => judge("SECTORS", Some(rotation.sectors), SECTORS),
        Asked::Prepared(_) => None,
        Asked::Remote(request) => wrong_in_remote(request),
        Asked::Serving(request) => wrong_in_serving(request),
        Asked::Daemon(Daemon::Run(settings)) => wrong_in_settings(settings),
        Asked::Daemon(Daemon::Stop { socket }) => {
            judge("SOCKET", Some(socket), Form::DaemonSocket)
        }
    }
}

/// A word, if it is there and has another form.
pub(crate) fn judge<'a>(
    name: &'static str,
    word: Option<&'a str>,
    form: Form<'a>,
) -> Option<Wrong<'a>> {
    match word {
        Some(word) if !form.fits(word) => Some(Wrong { name, word, form }),
        _ => None,
    }
}

fn wrong_in_plain<'a>(request: Request<'a>) -> Option<Wrong<'a>> {
    match request {
        Request::Format { site, sectors, .. } => {
            let mode = match site {
                Site::NewFile { mode } => mode,
                Site::InPlace { .. } => None,
            };
            judge("--mode", mode, Form::Mode).or(judge("SECTORS", Some(sectors), SECTORS))
        }
        Request::Check { older, newer, .. } => {
            judge("OLDER", Some(older), Form::Commitment).or(judge(
                "NEWER",
                newer,
                Form::Commitment,
            ))
        }
        Request::CheckLink(asked) => judge("OLDER", Some(asked.old), Form::Commitment).or(judge(
            "NEWER",
            asked.new,
            Form::Commitment,
        )),
        Request::Open(asked) => {
            judge("OLDER", Some(asked.commitment), Form::Commitment)
                .or(judge("NEWER", asked.newer, Form::NoNewer))
                .or(judge("--key", Some(asked.key), Form::Key))
        }
        Request::Verify(asked) => {
            judge("COMMIT", Some(asked.commitment), Form::Commitment)
                .or(judge("--kind", asked.kinds, Form::Kinds))
                .or(judge("--from", asked.from, Form::ANY))
        }
        Request::Prove {
            kind,
            first,
            second,
            ..
        } => judge("KIND", Some(kind), Form::Proof).or(wrong_in_pair(kind, first, second)),
        Request::Export { from, .. } => judge("--from", from, Form::ANY),
        Request::Replay
        | Request::Close { .. }
        | Request::Show { .. }
        | Request::ShowHeader { .. } => None,
    }
}

fn wrong_in_disclosure<'a>(request: Disclosure<'a>) -> Option<Wrong<'a>> {
    match request {
        Disclosure::Disclose(asked) => {
            let choice = match asked.choice {
                ChoiceWord::Kinds(kinds) => judge("--kind", Some(kinds), Form::Kinds),
                ChoiceWord::Events(events) => judge("--events", Some(events), Form::Rows),
            };
            judge("COMMIT", Some(asked.commitment), Form::Commitment).or(choice)
        }
        Disclosure::Show(asked) => judge("COMMIT", Some(asked.commitment), Form::Commitment),
    }
}

fn wrong_in_search<'a>(asked: Salvaging<'a>) -> Option<Wrong<'a>> {
    judge("--within", asked.within, HOLE).or(judge("--under", asked.under, Form::Commitment))
}

/// The numbers of a proof that has another form, by their names.
pub(crate) fn wrong_in_pair<'a>(kind: &str, first: &'a str, second: &'a str) -> Option<Wrong<'a>> {
    let (one, other) = names_of_pair(kind);
    judge(one, Some(first), Form::ANY).or(judge(other, Some(second), Form::ANY))
}

/// The names of the numbers of a proof.
pub(crate) fn names_of_pair(kind: &str) -> (&'static str, &'static str) {
    if kind == "increment" {
        ("OLDER", "NEWER")
    } else {
        ("INDEX", "COUNT")
    }
}

fn wrong_in_lines<'a>(lines: Lines<'a>) -> Option<Wrong<'a>> {
    let text = wrong_in_text(lines.text, lines.long);
    text.or(judge("--expect", lines.expect, Form::ANY))
        .or(judge("--reserve", lines.reserve, Form::ANY))
}

fn wrong_in_text<'a>(text: Option<&'a str>, long: Option<&'a str>) -> Option<Wrong<'a>> {
    judge("--text", text, Form::Kind).or(judge("--long", long, Form::Long { text }))
}

fn wrong_in_remote<'a>(request: Remote<'a>) -> Option<Wrong<'a>> {
    match request {
        Remote::Ask {
            socket,
            from,
            timeout,
            ..
        } => {
            judge("SOCKET", Some(socket), Form::Socket)
                .or(judge("--from", from, Form::ANY))
                .or(judge("--timeout", timeout, SECONDS))
        }
        Remote::Send {
            socket,
            text,
            long,
            window,
            timeout,
            until_refused: _,
            is_placed: _,
            from,
            keys: _,
            retry,
        } => {
            let socket = judge("SOCKET", Some(socket), Form::Socket);
            let text = wrong_in_text(text, long);
            socket
                .or(text)
                .or(judge("--window", window, WINDOW))
                .or(judge("--timeout", timeout, SECONDS))
                .or(judge("--from", from, Form::ANY))
                .or(judge("--retry", retry, SECONDS))
        }
        Remote::Watch {
            socket,
            every,
            timeout,
            ..
        } => {
            judge("SOCKET", Some(socket), Form::Socket)
                .or(judge("--timeout", timeout, SECONDS))
                .or(judge("--every", every, SECONDS))
        }
        Remote::Read {
            socket,
            kinds,
            timeout,
            every,
            ..
        } => {
            judge("SOCKET", Some(socket), Form::Socket)
                .or(judge("--kind", kinds, Form::Kinds))
                .or(judge("--timeout", timeout, SECONDS))
                .or(judge("--every", every, SECONDS))
        }
    }
}

fn wrong_in_serving<'a>(request: Serving<'a>) -> Option<Wrong<'a>> {
    match request {
        Serving::Serve {
            socket,
            rounds,
            sessions,
            socket_mode,
            ..
        } => {
            judge("SOCKET", Some(socket), Form::Socket)
                .or(judge("ROUNDS", Some(rounds), Form::ANY))
                .or(judge("--sessions", sessions, SESSIONS))
                .or(judge("--socket-mode", socket_mode, Form::Mode))
        }
        Serving::Loop {
            socket,
            socket_mode,
            ..
        } => {
            judge("SOCKET", Some(socket), Form::Socket).or(judge(
                "--socket-mode",
                socket_mode,
                Form::Mode,
            ))
        }
    }
}

fn wrong_in_settings<'a>(settings: Settings<'a>) -> Option<Wrong<'a>> {
    judge("SOCKET", Some(settings.socket), Form::DaemonSocket)
        .or(judge("--reader", settings.reader, Form::Socket))
        .or(wrong_in_sources(settings.writers))
        .or(judge("--idle", settings.idle, Form::ANY))
        .or(judge("--reserve", settings.reserve, Form::ANY))
        .or(judge("--until-free", settings.until_free, Form::ANY))
        .or(judge("--backlog", settings.backlog, BACKLOG))
        .or(judge("--socket-mode", settings.socket_mode, Form::Mode))
}

// The first word for a source that is none, or that binds a kind once more, or that is one too many.
fn wrong_in_sources<'a>(words: &'a [&'a str]) -> Option<Wrong<'a>> {
    let mut bound = BoundKinds::none();
    for word in words {
        let form = match source_in(word) {
            None => Some(Form::Source),
            Some(source) if bound.contains(source.kind) => Some(Form::NewSource),
            Some(source) => match bound.with(source.kind) {
                Some(more) => {
                    bound = more;
                    None
                }
                None => Some(Form::FurtherSource),
            },
        };
        if let Some(form) = form {
            return Some(Wrong {
                name: "--writer",
                word,
                form,
            });
        }
    }
    None
}
