//! The requests that ask a server, and how they are carried out.
ghost use Rattle.std.specs.Prelude.{◌≡◌, ◌⊎◌, ℕ, List, [], Ok, Err, Some, None, IfOk, IfErr};
ghost use Rattle.std.specs.Io.KnownBytes.{Appends, Keeps};
ghost use Rattle.audit_text.specs.declared.fault.LinesError.{LinesError};
ghost use Rattle.audit_text.specs.LineEvents.{form_asked, long_asked};
ghost use Rattle.audit_cli_connection.specs.declared.fault.RemoteError.{RemoteError};
ghost use Rattle.audit_cli_connection.specs.Faults.{IsNoJudgment, judgment_of};
ghost use Rattle.audit_cli_connection.specs.ServerCalls.{CommandStreams};
ghost use Rattle.audit_cli_client.specs.Arguments.{AreNoSeconds, IsNoWindow, HasRefusedWord, IsOrderOf};
ghost use Rattle.audit_cli_client.specs.Arguments.{IsTaskOfWords, IsNoTask, stop_asked, placing_asked};
ghost use Rattle.audit_cli_client.specs.Arguments.{IsPause, before_asked, seconds_or_default, window_or_default};
ghost use Rattle.audit_cli_client.specs.Requests.{IsClientRun, EndsOrder, Performs, status_of_done, done_after};
ghost use Rattle.audit_cli_client.specs.Requests.{HasUnfitArgument, IsUnfitOrder};

use crate::arguments::{QuestionWords, question_asked, seconds_asked, window_asked};
use crate::reading::read_for_ever;
use audit_cli_base::{CommandError, Status, report_flush, socket_path_asked};
use audit_cli_connection::{Post, Predecessor, Question, ReadTask, RemoteError, Servers, Task};
use audit_cli_offline::ReportForm;
use audit_cli_witness::{print_contradiction, watch_for_ever, watch_once};
use audit_text::{LineForm, LongLines, form_asked, long_asked, number_in_text};
use audit_wire_ask::{FallibleWrite, Placing, StopAt};
use std::alloc::Global;
use std::io::{Read, Write};

// How many seconds a reply is waited for if the command line doesn't say.
const TIMEOUT: u64 = 30;

// How many lines are sent ahead of their answers if the command line doesn't say.
const WINDOW: u64 = 64;

/// A request to a server, with the words of the command line as they were given.
#[derive(Clone, Copy)]
pub enum Request<'a> {
    /// Asks a question.
    Ask {
        /// The path of the server's socket.
        socket: &'a str,
        /// The question.
        question: QuestionWords<'a>,
        /// The index of the first entry of an export; 0 if absent.
        from: Option<&'a str>,
        /// How many seconds a reply is waited for; 30 if absent.
        timeout: Option<&'a str>,
    },
    /// Sends the events in the lines of the input.
    Send {
        /// The path of the server's socket.
        socket: &'a str,
        /// The kind of the events, if the lines are their payloads.
        text: Option<&'a str>,
        /// What becomes of lines that are too long: `refuse` or `cut`; refused if absent.
        long: Option<&'a str>,
        /// How many lines are sent ahead of their answers; 64 if absent.
        window: Option<&'a str>,
        /// How many seconds an answer is waited for; 30 if absent.
        timeout: Option<&'a str>,
        /// Whether it ends once an event is refused.
        until_refused: bool,
        /// Whether the events have places.
        is_placed: bool,
        /// The place of the first one; the server is asked for it if absent.
        from: Option<&'a str>,
        /// The file to which the keys of placed events are appended; they aren't kept if absent.
        keys: Option<&'a str>,
        /// How many seconds a server that is lost is tried again; it isn't if absent.
        retry: Option<&'a str>,
    },
    /// Sees the newest commitment, and keeps it in a file if it follows from the one before.
    Watch {
        /// The path of the server's socket.
        socket: &'a str,
        /// The file.
        state: &'a str,
        /// After how many seconds to look again; if absent, it looks once.
        every: Option<&'a str>,
        /// How many seconds a reply is waited for; 30 if absent.
        timeout: Option<&'a str>,
        /// Whether nothing is printed of a log that is the same or has grown.
        is_quiet: bool,
        /// The file of the log before, by which a file without a line is begun. It comes with the link from that log.
        after: Option<&'a str>,
        /// The file with that link.
        link: Option<&'a str>,
    },
    /// Reads the log on from the bookmark in a file, and prints its events.
    Read {
        /// The path of the server's socket.
        socket: &'a str,
        /// The file.
        state: &'a str,
        /// The file with the first key, with which reading begins if there is no bookmark.
        first: Option<&'a str>,
        /// The file of a witness, whose newest commitment the log has to extend.
        under: Option<&'a str>,
        /// How events are printed.
        form: ReportForm,
        /// The kinds of the events that are printed; any if absent.
        kinds: Option<&'a str>,
        /// After how many seconds to read on again; if absent, it reads once.
        every: Option<&'a str>,
        /// How many seconds a reply is waited for; 30 if absent.
        timeout: Option<&'a str>,
    },
}

/// Carries out a request. Lines that begin with `audit: ` are written to `messages`, all others to `output`, which is
/// flushed after each answer to an event and at the end. Returns the status with which the program exits.
pub fn run<F: Servers, R: Read, W: FallibleWrite, M: FallibleWrite>(
    servers: &mut F,
    alloc: Global,
    request: Request<'_>,
    input: &mut R,
    output: &mut W,
    messages: &mut M,
) -> Status
    // What the words order was done by these calls and no others, and the result is theirs.
    ensures carried { IsClientRun F.calls W.contents W.failed W.flushed request.entry servers.old servers.new
        (R.remaining input.old) (R.remaining input.new) (M.contents messages.old) output.old output.new result }
    // A wrong word ends the program before anything is written. An output that can't be flushed is another fault.
    ensures words { HasRefusedWord request.entry → (result ≡ Status.Usage) ⊎ (result ≡ Status.Device) }
    ensures unwritten { HasRefusedWord request.entry → Keeps (W.contents output.old) (W.contents output.new) }
    ensures unasked { HasRefusedWord request.entry → F.calls.DidCalls servers.old servers.new [] }
    // It ends so only for such a word, or for what is at a path that a word names.
    ensures only { result ≡ Status.Usage → HasUnfitArgument (F.files servers.new) request.entry }
{
    let done = perform(servers, alloc, request, input, output, messages);
    let judged = print_judgment(done, output);
    let status = flush_and_report(judged, output, messages);
    report_alarm(alloc, request, done, messages);
    status
}

// Flushes the output, and prints how the command ended. Returns the status of that, or a failed file's if the output
// couldn't be flushed.
fn flush_and_report<W: FallibleWrite, M: FallibleWrite>(
    ended: Result<Status, RemoteError>,
    output: &mut W,
    messages: &mut M,
) -> Status
    ensures kept { Keeps (W.contents output.old) (W.contents output.new) }
    ensures status { ((result ≡ status_of_done ended) × W.flushed output.new)
        ⊎ ((result ≡ Status.Device) × W.failed output.new) }
{
    let flushed = output.flush_text();
    let status = report_fault(ended, messages);
    match flushed {
        Ok(()) => status,
        Err(error) => report_flush(status, Err(error), messages),
    }
}

// Prints the fault of a command, if it has one, and returns its status.
fn report_fault<M: FallibleWrite>(ended: Result<Status, RemoteError>, messages: &mut M) -> Status
    ensures { result ≡ status_of_done ended }
{
    match ended {
        Ok(status) => status,
        Err(fault) => fault.report(messages),
    }
}

// Prints what contradicts a witness or a reader, after the word for it.
fn report_alarm<M: Write>(
    alloc: Global,
    request: Request<'_>,
    done: Result<Status, RemoteError>,
    messages: &mut M,
) {
    let (socket, state, under) = match request {
        Request::Watch { socket, state, .. } => (socket, state, None),
        Request::Read {
            socket,
            state,
            under,
            ..
        } => (socket, state, under),
        _ => return,
    };
    if let Err(RemoteError::Contradicted(found) | RemoteError::NotLed(_, Some(found))) = done {
        let _ = print_contradiction(alloc, socket, state, under, &found, messages);
    }
}

// Prints the judgment of a log, if that is why the command failed.
fn print_judgment<W: FallibleWrite>(
    done: Result<Status, RemoteError>,
    output: &mut W,
) -> Result<Status, RemoteError>
    ensures other { IsNoJudgment done → (result ≡ done) × Keeps (W.contents output.old) (W.contents output.new) }
    ensures judged { (fault : RemoteError) (words : List ℕ) → done ≡ Err fault → judgment_of fault ≡ Some words
        → ((result ≡ done) × Appends (W.contents output.old) (W.contents output.new) words)
        ⊎ ((result ≡ Err (RemoteError.Command (CommandError.Lines LinesError.Write))) × W.failed output.new) }
{
    if let Err(fault) = done {
        if let Some(words) = fault.judgment() {
            output.write_text(words.as_bytes())?;
        }
    }
    done
}

// A request whose words are judged.
enum Order<'a> {
    Ask {
        socket: &'a str,
        question: Question<'a>,
        seconds: u64,
    },
    Send {
        socket: &'a str,
        task: Task<'a>,
    },
    Watch {
        post: Post<'a>,
        every: Option<u64>,
    },
    Read {
        task: ReadTask<'a>,
        every: Option<u64>,
    },
}

// The words are judged before the socket is opened.
fn perform<F: Servers, R: Read, W: FallibleWrite, M: FallibleWrite>(
    servers: &mut F,
    alloc: Global,
    request: Request<'_>,
    input: &mut R,
    output: &mut W,
    messages: &mut M,
) -> Result<Status, RemoteError>
    ensures words { HasRefusedWord request.entry → result ≡ Err (RemoteError.Command CommandError.BadArgument) }
    ensures unwritten { HasRefusedWord request.entry → Keeps (W.contents output.old) (W.contents output.new) }
    ensures unasked { HasRefusedWord request.entry → F.calls.DidCalls servers.old servers.new [] }
    ensures carried { Performs F.calls request.entry servers.old servers.new
        (record { input = R.remaining input.old; output = W.contents output.old; messages = M.contents messages.old })
        (record { input = R.remaining input.new; output = W.contents output.new; messages = M.contents messages.new })
        (W.failed output.new) result }
    ensures only { result ≡ Err (RemoteError.Command CommandError.BadArgument)
        → HasUnfitArgument (F.files servers.new) request.entry }
    ensures status { result ≡ Ok Status.Usage → ⊥ }
{
    match judge(request) {
        Ok(order) => carry_out(servers, alloc, order, input, output, messages),
        Err(fault) => Err(RemoteError::Command(fault)),
    }
}

fn judge<'a>(request: Request<'a>) -> Result<Order<'a>, CommandError>
    ensures wrong { HasRefusedWord request.entry → result ≡ Err CommandError.BadArgument }
    ensures asked { IfOk result (IsOrderOf request.entry) }
    ensures fault { IfErr result (λ fault. (fault ≡ CommandError.BadArgument) × HasRefusedWord request.entry) }
{
    match request {
        Request::Ask {
            socket,
            question,
            from,
            timeout,
        } => {
            socket_path_asked(socket, 0)?;
            Ok(Order::Ask {
                socket,
                question: question_asked(question, from)?,
                seconds: seconds_or_default(timeout)?,
            })
        }
        Request::Send {
            socket,
            text,
            long,
            window,
            timeout,
            until_refused,
            is_placed,
            from,
            keys,
            retry,
        } => {
            socket_path_asked(socket, 0)?;
            let task = task_asked(
                text,
                long,
                window,
                timeout,
                until_refused,
                is_placed,
                from,
                keys,
                retry,
            )?;
            Ok(Order::Send { socket, task })
        }
        Request::Watch {
            socket,
            state,
            every,
            timeout,
            is_quiet,
            after,
            link,
        } => {
            socket_path_asked(socket, 0)?;
            let seconds = seconds_or_default(timeout)?;
            let post = Post {
                socket,
                state,
                seconds,
                is_quiet,
                before: before_asked(after, link)?,
            };
            let every = pause_asked(every)?;
            Ok(Order::Watch { post, every })
        }
        Request::Read {
            socket,
            state,
            first,
            under,
            form,
            kinds,
            every,
            timeout,
        } => {
            socket_path_asked(socket, 0)?;
            let seconds = seconds_or_default(timeout)?;
            let pause = pause_asked(every)?;
            let task = ReadTask {
                socket,
                state,
                first,
                under,
                form,
                kinds,
                seconds,
                is_quiet: pause.is_some(),
            };
            Ok(Order::Read { task, every: pause })
        }
    }
}

fn task_asked<'a>(
    text: Option<&'a str>,
    long: Option<&'a str>,
    window: Option<&'a str>,
    timeout: Option<&'a str>,
    until_refused: bool,
    is_placed: bool,
    from: Option<&'a str>,
    keys: Option<&'a str>,
    retry: Option<&'a str>,
) -> Result<Task<'a>, CommandError>
    ensures wrong { IsNoTask text.entry long.entry window.entry timeout.entry is_placed from.entry retry.entry
        → result ≡ Err CommandError.BadArgument }
    ensures asked { IfOk result (IsTaskOfWords text.entry long.entry window.entry timeout.entry until_refused is_placed
        from.entry keys.entry retry.entry) }
    ensures fault { IfErr result (λ fault. (fault ≡ CommandError.BadArgument)
        × IsNoTask text.entry long.entry window.entry timeout.entry is_placed from.entry retry.entry) }
{
    let form = form_or_fault(text)?;
    let long = long_or_fault(long, text)?;
    let window = window_or_default(window)?;
    let seconds = seconds_or_default(timeout)?;
    let placing = placing_or_fault(text, is_placed, from)?;
    let retry = pause_asked(retry)?;
    Ok(Task {
        form,
        long,
        window,
        seconds,
        stop_at: stop_asked(until_refused),
        placing,
        keys,
        retry,
    })
}

fn stop_asked(until_refused: bool) -> StopAt
    ensures { result ≡ stop_asked until_refused }
{
    if until_refused {
        StopAt::Refusal
    } else {
        StopAt::End
    }
}

// Does what was ordered. Only sending has a status of its own.
fn carry_out<F: Servers, R: Read, W: FallibleWrite, M: FallibleWrite>(
    servers: &mut F,
    alloc: Global,
    order: Order<'_>,
    input: &mut R,
    output: &mut W,
    messages: &mut M,
) -> Result<Status, RemoteError>
    ensures ended { EndsOrder F.calls order.entry servers.old servers.new
        (record { input = R.remaining input.old; output = W.contents output.old; messages = M.contents messages.old })
        (record { input = R.remaining input.new; output = W.contents output.new; messages = M.contents messages.new })
        (W.failed output.new) result }
    ensures only { result ≡ Err (RemoteError.Command CommandError.BadArgument)
        → IsUnfitOrder (F.files servers.new) order.entry }
    ensures status { result ≡ Ok Status.Usage → ⊥ }
{
    match order {
        Order::Ask {
            socket,
            question,
            seconds,
        } => done_after(servers.ask(alloc, socket, question, seconds, output)),
        Order::Send { socket, task } => servers.send(alloc, socket, task, input, output, messages),
        Order::Watch { post, every } => match every {
            Some(every) => {
                done_after(watch_for_ever(servers, alloc, post, every, output, messages))
            }
            None => done_after(watch_once(servers, alloc, post, output)),
        },
        Order::Read { task, every } => match every {
            Some(every) => {
                done_after(read_for_ever(servers, alloc, task, every, output, messages))
            }
            None => done_after(servers.read(alloc, task, output, messages)),
        },
    }
}

fn done_after(done: Result<(), RemoteError>) -> Result<Status, RemoteError>
    ensures { result ≡ done_after done }
{
    match done {
        Ok(()) => Ok(Status::Done),
        Err(fault) => Err(fault),
    }
}

fn pause_asked(word: Option<&str>) -> Result<Option<u64>, CommandError>
    ensures asked { IfOk result (IsPause word.entry) }
    ensures wrong { AreNoSeconds word.entry → result ≡ Err CommandError.BadArgument }
    ensures fault { IfErr result (λ fault. (fault ≡ CommandError.BadArgument) × AreNoSeconds word.entry) }
{
    match word {
        Some(word) => match seconds_asked(word) {
            Ok(seconds) => Ok(Some(seconds)),
            Err(fault) => Err(fault),
        },
        None => Ok(None),
    }
}

fn before_asked<'a>(
    after: Option<&'a str>,
    link: Option<&'a str>,
) -> Result<Option<Predecessor<'a>>, CommandError>
    ensures asked { IfOk result (λ before. before_asked after.entry link.entry ≡ Some before) }
    ensures wrong { before_asked after.entry link.entry ≡ None → result ≡ Err CommandError.BadArgument }
    ensures fault { IfErr result (λ fault. (fault ≡ CommandError.BadArgument)
        × (before_asked after.entry link.entry ≡ None)) }
{
    match (after, link) {
        (None, None) => Ok(None),
        (Some(state), Some(link)) => Ok(Some(Predecessor { state, link })),
        _ => Err(CommandError::BadArgument),
    }
}

fn form_or_fault(word: Option<&str>) -> Result<LineForm, CommandError>
    ensures asked { IfOk result (λ form. form_asked word.entry ≡ Some form) }
    ensures wrong { form_asked word.entry ≡ None → result ≡ Err CommandError.BadArgument }
    ensures fault { IfErr result (λ fault. (fault ≡ CommandError.BadArgument) × (form_asked word.entry ≡ None)) }
{
    match form_asked(word) {
        Some(form) => Ok(form),
        None => Err(CommandError::BadArgument),
    }
}

fn long_or_fault(word: Option<&str>, text: Option<&str>) -> Result<LongLines, CommandError>
    ensures asked { IfOk result (λ long. long_asked word.entry text.entry ≡ Some long) }
    ensures wrong { long_asked word.entry text.entry ≡ None → result ≡ Err CommandError.BadArgument }
    ensures fault { IfErr result (λ fault. (fault ≡ CommandError.BadArgument)
        × (long_asked word.entry text.entry ≡ None)) }
{
    match long_asked(word, text) {
        Some(long) => Ok(long),
        None => Err(CommandError::BadArgument),
    }
}

fn placing_or_fault(
    text: Option<&str>,
    is_placed: bool,
    from: Option<&str>,
) -> Result<Placing, CommandError>
    ensures asked { IfOk result (λ placing. placing_asked (form_asked text.entry) is_placed from.entry ≡ Some placing) }
    ensures wrong { placing_asked (form_asked text.entry) is_placed from.entry ≡ None
        → result ≡ Err CommandError.BadArgument }
    ensures fault { IfErr result (λ fault. (fault ≡ CommandError.BadArgument)
        × (placing_asked (form_asked text.entry) is_placed from.entry ≡ None)) }
{
    match placing_asked(form_asked(text), is_placed, from) {
        Some(placing) => Ok(placing),
        None => Err(CommandError::BadArgument),
    }
}

// Places are for lines that are the payloads of one kind, and a first place is for placed events.
fn placing_asked(form: Option<LineForm>, is_placed: bool, from: Option<&str>) -> Option<Placing>
    ensures { result ≡ placing_asked form is_placed from.entry }
{
    match (form, is_placed, from) {
        (Some(_), false, None) => Some(Placing::Unplaced),
        (Some(LineForm::Text(kind)), true, None) => Some(Placing::Next(kind)),
        (Some(LineForm::Text(_)), true, Some(from)) => {
            let first = number_in_text(from.as_bytes())?;
            Some(Placing::From(first))
        }
        _ => None,
    }
}

fn seconds_or_default(word: Option<&str>) -> Result<u64, CommandError>
    ensures asked { result ≡ seconds_or_default word.entry }
    ensures wrong { AreNoSeconds word.entry → result ≡ Err CommandError.BadArgument }
    ensures fault { IfErr result (λ fault. (fault ≡ CommandError.BadArgument) × AreNoSeconds word.entry) }
{
    match word {
        Some(word) => seconds_asked(word),
        None => Ok(TIMEOUT),
    }
}

fn window_or_default(word: Option<&str>) -> Result<u64, CommandError>
    ensures asked { result ≡ window_or_default word.entry }
    ensures wrong { IsNoWindow word.entry → result ≡ Err CommandError.BadArgument }
    ensures fault { IfErr result (λ fault. (fault ≡ CommandError.BadArgument) × IsNoWindow word.entry) }
{
    match word {
        Some(word) => window_asked(word),
        None => Ok(WINDOW),
    }
}
