use crate::command::{Asked, CommandLine, matches_of, request_of};
use crate::ending::{End, explain_end};
use crate::heard::Heard;
use crate::noted::{NoteRequest, Noted, fault_of};
use crate::places::key_file_of;
use crate::witnessed::Witnessed;
use audit_cli_append::Request as Lines;
use audit_cli_base::{CommandError, Status, report, report_end};
use audit_cli_calls::SystemStores;
use audit_cli_client::{Request as Remote, SystemServers};
use audit_cli_daemon::{Request as Daemon, Settings};
use audit_cli_disclosure::{Disclosing, Request as Disclosure, Showing, SystemAuditorFiles};
use audit_cli_host::{Dial, Extent, Notes, Subject};
use audit_cli_note::write_note;
use audit_cli_offline::ReportForm;
use audit_cli_rotate::{Prepared, Request as Rotation};
use audit_cli_salvage::Salvaging;
use audit_cli_serve::Request as Serving;
use audit_cli_store::Request;
use audit_cli_terminal::Screen;
use audit_disk::{SystemFile, SystemFiles};
use audit_proof::Commitment;
use audit_serve_sockets::SystemSockets;
use audit_store::StoreError;
use audit_text::Shown;
use clap::error::ErrorKind;
use clap::{ArgMatches, Error};
use std::alloc::{AllocError, Global};
use std::io::{Read, Write};
use std::os::unix::net::UnixStream;
use std::time::Clock;

/// Which streams of the program are terminals.
#[derive(Clone, Copy)]
pub struct Terminals {
    /// Whether its input is one.
    pub input: bool,
    /// Whether its output is one.
    pub output: bool,
    /// Whether standard error is one.
    pub messages: bool,
}

/// Runs the program on the words of a command line, of which the first is its name. Lines that begin with `audit: `,
/// and clap's usage, are written to `messages`. All other text is written to `output`, which is flushed at the end.
/// Causes and warnings follow if `messages` is a terminal, or if the command line requests them; causes also if the
/// command serves, asks or rotates, since its messages are mostly read later, in a journal. Payloads that are printed
/// as text are escaped if `output` is a terminal.
pub fn run<F: SystemFiles + SystemSockets + Clock + Dial, R: Read, W: Write, M: Write>(
    rt: &F,
    alloc: Global,
    words: &[String],
    notes: &Notes<'_>,
    terminals: Terminals,
    input: &mut R,
    output: &mut W,
    messages: &mut M,
) -> Status
where
    F::File: SystemFile,
{
    if words.len() < 2 && terminals.input && terminals.messages {
        hint(messages);
    }
    match matches_of(alloc, words) {
        Ok(matches) => {
            let line = request_of(&matches);
            run_line(rt, alloc, line, notes, terminals, input, output, messages)
        }
        Err(error) => explain_words(alloc, words, &error, notes, output, messages),
    }
}

// Runs the command of a command line, and explains its end.
fn run_line<F: SystemFiles + SystemSockets + Clock + Dial, R: Read, W: Write, M: Write>(
    rt: &F,
    alloc: Global,
    line: CommandLine<'_>,
    notes: &Notes<'_>,
    terminals: Terminals,
    input: &mut R,
    output: &mut W,
    messages: &mut M,
) -> Status
where
    F::File: SystemFile,
{
    let asked = line.asked;
    let explains = terminals.messages || line.explain;
    if line.shows_progress {
        show_progress(asked, notes);
    }
    if let Some(file) = key_file_of(asked) {
        notes.watch_key(notes.subject_of(file));
    }
    let noted = Noted::read(rt, alloc, asked);
    let witnessed = Witnessed::read(rt, alloc, line.extends);
    run_noted(
        rt,
        alloc,
        noted.in_place(asked),
        noted.fault,
        witnessed,
        explains,
        notes,
        terminals,
        input,
        output,
        messages,
    )
}

// Runs a command whose commitments were read from the notes that its words name, or not for this fault. The log of its
// store has to extend the commitment that was read from the file of a witness, if one is named.
fn run_noted<F: SystemFiles + SystemSockets + Clock + Dial, R: Read, W: Write, M: Write>(
    rt: &F,
    alloc: Global,
    asked: Asked<'_>,
    unread: Option<CommandError>,
    witnessed: Witnessed<'_>,
    explains: bool,
    notes: &Notes<'_>,
    terminals: Terminals,
    input: &mut R,
    output: &mut W,
    messages: &mut M,
) -> Status
where
    F::File: SystemFile,
{
    let mut heard = Heard::new(messages, notes, only_answers(asked));
    let older = witnessed.older;
    let status = if let Some(fault) = unread {
        report(fault, &mut heard)
    } else if let Some(fault) = witnessed.fault {
        fault.report(&mut heard)
    } else if terminals.output && prints_text(asked) {
        let mut screen = Screen::new(alloc, output);
        carry_out(
            rt,
            alloc,
            asked,
            older,
            explains,
            input,
            &mut screen,
            &mut heard,
        )
    } else {
        carry_out(rt, alloc, asked, older, explains, input, output, &mut heard)
    };
    let said = heard.said();
    let end = End {
        said,
        status,
        explains,
        unread: witnessed.unread,
    };
    explain_end(rt, alloc, asked, end, notes, messages);
    status
}

// Without words the program seals what it reads, which nobody expects who typed its name alone.
fn hint<M: Write>(messages: &mut M) {
    let _ = writeln!(
        messages,
        "audit: waiting for a replay on standard input; 'audit --help' prints the commands"
    );
}

// Whether a command changes nothing, and only prints an answer.
fn only_answers(asked: Asked<'_>) -> bool {
    match asked {
        Asked::Plain(Request::Format { .. } | Request::Close { .. }) => false,
        Asked::Plain(Request::Verify(asked)) => asked.save.is_none(),
        Asked::Plain(_)
        | Asked::Note(_)
        | Asked::Disclosure(Disclosure::Show(_))
        | Asked::Search(_) => true,
        Asked::Remote(Remote::Ask { question, .. }) => question.0 != "close",
        _ => false,
    }
}

// Carries out what a command line asks for. Each command has a stack frame of its own, so that a small one doesn't take
// the memory of the largest.
fn carry_out<F: SystemFiles + SystemSockets + Clock + Dial, R: Read, W: Write, M: Write>(
    rt: &F,
    alloc: Global,
    asked: Asked<'_>,
    older: Option<Commitment>,
    explains: bool,
    input: &mut R,
    output: &mut W,
    messages: &mut M,
) -> Status
where
    F::File: SystemFile,
{
    match asked {
        Asked::Plain(request) => answer(rt, alloc, request, input, output, messages),
        Asked::Note(request) => note(alloc, request, output, messages),
        Asked::Disclosure(request) => disclose(rt, alloc, request, output, messages),
        Asked::Search(request) => search(rt, alloc, request, output, messages),
        Asked::Lines(request) => append(rt, alloc, request, older, input, output, messages),
        Asked::Rotation(request) => rotate(rt, alloc, request, older, output, messages),
        Asked::Prepared(request) => rotate_prepared(rt, alloc, request, older, output, messages),
        Asked::Remote(request) => ask(rt, alloc, request, input, output, messages),
        Asked::Serving(request) => serve(rt, alloc, request, input, output, messages),
        Asked::Daemon(request) => attend(rt, alloc, request, older, explains, output, messages),
    }
}

#[inline(never)]
fn answer<F: SystemFiles, R: Read, W: Write, M: Write>(
    rt: &F,
    alloc: Global,
    request: Request<'_>,
    input: &mut R,
    output: &mut W,
    messages: &mut M,
) -> Status
where
    F::File: SystemFile,
{
    audit_cli_store::run(rt, alloc, request, input, output, messages)
}

#[inline(never)]
fn note<W: Write, M: Write>(
    alloc: Global,
    request: NoteRequest<'_>,
    output: &mut W,
    messages: &mut M,
) -> Status {
    let done = match write_note(alloc, request.name, request.commitment, output) {
        Ok(()) => Ok(()),
        Err(fault) => Err(fault_of(fault)),
    };
    report_end(done, output.flush(), messages)
}

#[inline(never)]
fn disclose<F: SystemFiles, W: Write, M: Write>(
    rt: &F,
    alloc: Global,
    request: Disclosure<'_>,
    output: &mut W,
    messages: &mut M,
) -> Status
where
    F::File: SystemFile,
{
    let mut files = SystemAuditorFiles::new(rt);
    audit_cli_disclosure::run(&mut files, alloc, request, output, messages)
}

#[inline(never)]
fn search<F: SystemFiles, W: Write, M: Write>(
    rt: &F,
    alloc: Global,
    request: Salvaging<'_>,
    output: &mut W,
    messages: &mut M,
) -> Status
where
    F::File: SystemFile,
{
    audit_cli_salvage::run(rt, alloc, request, output, messages)
}

#[inline(never)]
fn append<F: SystemFiles + Clock, R: Read, W: Write, M: Write>(
    rt: &F,
    alloc: Global,
    request: Lines<'_>,
    older: Option<Commitment>,
    input: &mut R,
    output: &mut W,
    messages: &mut M,
) -> Status
where
    F::File: SystemFile,
{
    let mut stores = SystemStores::extending(rt, older);
    audit_cli_append::run(rt, &mut stores, alloc, request, input, output, messages)
}

#[inline(never)]
fn rotate<F: SystemFiles, W: Write, M: Write>(
    rt: &F,
    alloc: Global,
    request: Rotation<'_>,
    older: Option<Commitment>,
    output: &mut W,
    messages: &mut M,
) -> Status
where
    F::File: SystemFile,
{
    let mut stores = SystemStores::extending(rt, older);
    audit_cli_rotate::run(rt, &mut stores, alloc, request, output, messages)
}

#[inline(never)]
fn rotate_prepared<F: SystemFiles, W: Write, M: Write>(
    rt: &F,
    alloc: Global,
    request: Prepared<'_>,
    older: Option<Commitment>,
    output: &mut W,
    messages: &mut M,
) -> Status
where
    F::File: SystemFile,
{
    let mut stores = SystemStores::extending(rt, older);
    audit_cli_rotate::run_prepared(rt, &mut stores, alloc, request, output, messages)
}

#[inline(never)]
fn ask<F: SystemFiles + SystemSockets + Clock + Dial, R: Read, W: Write, M: Write>(
    rt: &F,
    alloc: Global,
    request: Remote<'_>,
    input: &mut R,
    output: &mut W,
    messages: &mut M,
) -> Status
where
    F::File: SystemFile,
{
    let mut servers = SystemServers::new(rt);
    audit_cli_client::run(&mut servers, alloc, request, input, output, messages)
}

#[inline(never)]
fn serve<F: SystemFiles + SystemSockets + Clock, R: Read, W: Write, M: Write>(
    rt: &F,
    alloc: Global,
    request: Serving<'_>,
    input: &mut R,
    output: &mut W,
    messages: &mut M,
) -> Status
where
    F::File: SystemFile,
{
    let mut stores = SystemStores::new(rt);
    audit_cli_serve::run::<F, UnixStream, (), SystemStores<'_, F>, R, W, M>(
        rt,
        &mut stores,
        alloc,
        request,
        input,
        output,
        messages,
    )
}

#[inline(never)]
fn attend<F: SystemFiles + SystemSockets + Dial + Clock, W: Write, M: Write>(
    rt: &F,
    alloc: Global,
    request: Daemon<'_>,
    older: Option<Commitment>,
    explains: bool,
    output: &mut W,
    messages: &mut M,
) -> Status
where
    F::File: SystemFile,
{
    let mut stores = SystemStores::extending(rt, older);
    audit_cli_daemon::run(rt, &mut stores, alloc, request, explains, output, messages)
}

// Whether payloads are printed as text.
fn prints_text(asked: Asked<'_>) -> bool {
    match asked {
        Asked::Plain(Request::Verify(asked)) => asked.form != ReportForm::Events,
        Asked::Disclosure(Disclosure::Show(asked)) => asked.form != ReportForm::Events,
        Asked::Remote(Remote::Read { form, .. }) => form != ReportForm::Events,
        _ => false,
    }
}

// Shows how far a command is that may take long, by the file that it reads or writes most.
fn show_progress(asked: Asked<'_>, notes: &Notes<'_>) {
    match asked {
        Asked::Plain(Request::Verify(asked)) => {
            notes.show_progress(notes.subject_of(asked.export), Extent::Whole)
        }
        Asked::Disclosure(
            Disclosure::Disclose(Disclosing { export, .. })
            | Disclosure::Show(Showing { export, .. }),
        ) => notes.show_progress(notes.subject_of(export), Extent::Whole),
        Asked::Plain(
            Request::Format { file, .. }
            | Request::Close { file }
            | Request::Show { file, .. }
            | Request::Prove { file, .. }
            | Request::Export { file, .. },
        ) => notes.show_progress(notes.subject_of(file), Extent::Store),
        Asked::Search(asked) => notes.show_progress(notes.subject_of(asked.file), Extent::Store),
        Asked::Lines(lines) => {
            let extent = if lines.follows {
                Extent::Opening
            } else {
                Extent::Store
            };
            notes.show_progress(notes.subject_of(lines.file), extent)
        }
        Asked::Rotation(rotation) => {
            notes.show_progress(notes.subject_of(rotation.old), Extent::Store)
        }
        Asked::Prepared(asked) => notes.show_progress(notes.subject_of(asked.old), Extent::Store),
        Asked::Serving(Serving::Serve { file, .. } | Serving::Loop { file, .. })
        | Asked::Daemon(Daemon::Run(Settings { file, .. })) => {
            notes.show_progress(notes.subject_of(file), Extent::Opening)
        }
        Asked::Remote(Remote::Send { .. }) => notes.show_progress(Subject::Input, Extent::Store),
        Asked::Remote(
            Remote::Ask {
                question: ("export", Some(out), _, _),
                ..
            },
        ) => notes.show_progress(notes.subject_of(out), Extent::Store),
        _ => {}
    }
}

// Prints what is wrong with the words of a command line. Their escapes are parsed in their place, since it names them.
fn explain_words<W: Write, M: Write>(
    alloc: Global,
    words: &[String],
    error: &Error,
    notes: &Notes<'_>,
    output: &mut W,
    messages: &mut M,
) -> Status {
    if error.kind() == ErrorKind::OutOfMemory {
        return report(CommandError::Refused(StoreError::Memory), messages);
    }
    let Ok(shown) = shown_words(alloc, words) else {
        return report(CommandError::Refused(StoreError::Memory), messages);
    };
    match fault_in(alloc, &shown) {
        Some(shown) if shown.kind() == error.kind() => {
            print_usage(&shown, notes, output, messages)
        }
        Some(shown) if shown.kind() == ErrorKind::OutOfMemory => {
            report(CommandError::Refused(StoreError::Memory), messages)
        }
        _ => report(CommandError::BadArgument, messages),
    }
}

// What is wrong with the words of a command line, if they can't be parsed.
fn fault_in(alloc: Global, words: &[String]) -> Option<Error> {
    match matches_of(alloc, words) {
        Ok(matches) => {
            drop(matches);
            None
        }
        Err(error) => Some(error),
    }
}

fn shown_words(alloc: Global, words: &[String]) -> Result<Vec<String>, AllocError> {
    let mut shown = Vec::new(alloc);
    for word in words {
        shown.push(format!(in alloc; "{}", Shown(word.as_str()))?)?;
    }
    Ok(shown)
}

// Prints clap's help or usage.
fn print_usage<W: Write, M: Write>(
    error: &Error,
    notes: &Notes<'_>,
    output: &mut W,
    messages: &mut M,
) -> Status {
    if error.use_stderr() {
        let _ = write!(messages, "{error}");
        return Status::Usage;
    }
    if write!(output, "{error}").is_err() || output.flush().is_err() {
        return report(CommandError::File, &mut Heard::new(messages, notes, true));
    }
    Status::Done
}
