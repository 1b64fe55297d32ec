//! Sending events to a server.
ghost use Rattle.std.specs.Prelude.{◌≡◌, ◌⊎◌, ◌<◌, None, Ok, IfOk, IfErr, OnErr};
ghost use Rattle.std.specs.Io.Buffered.{reader_remaining};
ghost use Rattle.audit_wire_ask.specs.Placing.{PlacesAndSends, FailsPlacing, LogsAndSends, FailsLogging, LogsInPart};
ghost use Rattle.audit_cli_connection.specs.Faults.{IsNoBadArgument, remote_status};
ghost use Rattle.audit_cli_base.specs.declared.fault.CommandError.TheVariants.{File};
ghost use Rattle.audit_cli_connection.specs.declared.fault.RemoteError.TheVariants.{Command};
ghost use Rattle.audit_cli_client.specs.Sent.{status_of_sent, nothing_sent, with_leg, placing_after, EndsSending};
ghost use Rattle.audit_cli_client.specs.Sent.{KeepsConnections};
ghost use Rattle.audit_cli_client.specs.SocketCalls.{EndsOver, SendsToSocket};

use crate::legs::{Leg, Legs};
use crate::outage::Outage;
use audit_cli_base::{CommandError, Status};
use audit_cli_connection::{
    Dialing, Line, LineEnd, Pace, RemoteError, Task, connect, without_words,
};
use audit_cli_witness::{lacks_feed, open_lines};
use audit_text::{CutLines, LongLines};
use audit_wire_ask::{
    ClientError, FallibleWrite, KeptInput, KeyFile, KeyLines, NoKeys, Places, Placing, SendEnd,
    SendError, StopAt, log_and_send, place_and_send,
};
use std::alloc::Global;
use std::fs::Files;
use std::io::{BufReader, Read, Write};
use std::time::Clock;

// The size in bytes of the buffer for the input: the most that is read at a time.
const INPUT_ROOM: usize = 1 << 16;

/// Sends the events of the input to a server, and prints its answers. Returns the status of a command whose lines were
/// all answered.
pub fn send_to_socket<F: Files + Dialing + Clock, R: Read, W: Write, M: Write>(
    rt: &F,
    alloc: Global,
    socket: &str,
    task: Task<'_>,
    input: &mut R,
    output: &mut W,
    messages: &mut M,
) -> Result<Status, RemoteError>
    ensures usage { result ≡ Ok Status.Usage → ⊥ }
    // A status comes only over a connection to the socket.
    ensures sent { SendsToSocket (F.dials rt.now) socket.now task.entry.seconds result }
{
    let mut keys = match task.keys {
        Some(path) => Some(KeyFile::new(begin_lines(rt, path)?)),
        None => None,
    };
    match task.long {
        LongLines::Refused => {
            let mut lines = KeptInput::new(alloc, input);
            let mut legs = SystemLegs::new(rt, alloc, socket, task, &mut lines, output, &mut keys);
            send_on(rt, task, &mut legs, messages)
        }
        LongLines::Cut => {
            let cut = CutLines::new(alloc, input)?;
            let mut lines = KeptInput::new(alloc, cut);
            let mut legs = SystemLegs::new(rt, alloc, socket, task, &mut lines, output, &mut keys);
            send_on(rt, task, &mut legs, messages)
        }
    }
}

// Sends over a connection, and if it is lost over another one: the lines that weren't answered again, with the numbers
// and places that they had, and then the next ones.
fn send_on<C: Clock, L: Legs, M: Write>(
    rt: &C,
    task: Task<'_>,
    legs: &mut L,
    messages: &mut M,
) -> Result<Status, RemoteError>
    requires { L.sent legs.old 0 task.placing nothing_sent }
    ensures usage { result ≡ Ok Status.Usage → ⊥ }
    // The status is that of all that was sent and answered, over all connections, or of the fault of a further one.
    ensures ends { IfOk result (EndsSending (L.sent legs.new) (L.broke legs.new)) }
    // Only a connection or the clock fails, or there were as many tries as are counted.
    ensures fault { IfErr result (λ fault. L.broke legs.new fault ⊎ (fault ≡ Command File)) }
    ensures kept { KeepsConnections L.reached L.broke legs.old legs.new }
{
    let mut placing = task.placing;
    let mut outage = Outage::within(task.retry);
    let mut total = SendEnd {
        sent: 0,
        answered: 0,
        refused: 0,
        error: None,
    };
    for _ in 0..u64::MAX {
        match legs.send(placing, total.answered) {
            Ok(leg) => {
                placing = placing_of(leg.places);
                total = with_leg(&total, &leg.end);
                if leg.end.answered > 0 {
                    outage.end();
                }
                let Some(error) = loss_of(task, &total) else {
                    return Ok(report_sent(&total, messages));
                };
                let left = leg.end.sent.saturating_sub(leg.end.answered);
                if !legs.go_back(leg.unread, left) || !outage.lasts(rt, error.into(), messages)? {
                    return Ok(report_sent(&total, messages));
                }
            }
            Err(fault) => {
                if !outage.lasts(rt, fault, messages)? {
                    return report_unsent(fault, &total, messages);
                }
            }
        }
    }
    Err(RemoteError::Command(CommandError::File))
}

// The loss of a connection after which another one is made, if any: not if sending was to stop at a refusal.
fn loss_of(task: Task<'_>, total: &SendEnd) -> Option<SendError> {
    if task.retry.is_none() || (task.stop_at == StopAt::Refusal && total.refused > 0) {
        return None;
    }
    match total.error {
        Some(SendError::Client(ClientError::Ended | ClientError::TimedOut)) => total.error,
        _ => None,
    }
}

// The same places, as given.
fn placing_of(places: Places) -> Placing
    ensures { result ≡ placing_after places }
{
    match places {
        Places::Any => Placing::Unplaced,
        Places::From(first) => Placing::From(first),
    }
}

// What was sent and answered over all connections, with the last one.
fn with_leg(total: &SendEnd, leg: &SendEnd) -> SendEnd
    ensures { result ≡ with_leg total.now leg.now }
{
    SendEnd {
        sent: total.answered.saturating_add(leg.sent),
        answered: total.answered.saturating_add(leg.answered),
        refused: total.refused.saturating_add(leg.refused),
        error: leg.error,
    }
}

// The connections of a system over which the lines of an input are sent.
#[derive(Drop)]
struct SystemLegs<'a, F, R, W, K> {
    rt: &'a F,
    alloc: Global,
    socket: &'a str,
    task: Task<'a>,
    input: &'a mut KeptInput<R>,
    output: &'a mut W,
    keys: &'a mut Option<K>,
}

impl<'a, F, R, W, K> SystemLegs<'a, F, R, W, K> {
    fn new(
        rt: &'a F,
        alloc: Global,
        socket: &'a str,
        task: Task<'a>,
        input: &'a mut KeptInput<R>,
        output: &'a mut W,
        keys: &'a mut Option<K>,
    ) -> SystemLegs<'a, F, R, W, K>
        ensures rt { result.rt ≡ rt.entry }
        ensures socket { result.socket ≡ socket.entry }
        ensures task { result.task ≡ task.entry }
    {
        SystemLegs {
            rt,
            alloc,
            socket,
            task,
            input,
            output,
            keys,
        }
    }
}

// Of the system's connections it is known that they were made.
impl<F: Dialing + Clock, R: Read, W: Write, K: KeyLines> Legs for SystemLegs<'_, F, R, W, K> {
    ghost use Rattle.std.specs.Prelude.{◌≡◌, ◌⊎◌};
    ghost use Rattle.audit_cli_connection.specs.Dialing.{HasConnection, IsUnconnected};
    ghost use Rattle.audit_cli_client.specs.Sent.{nothing_sent};

    ghost sent = { λ legs count placing total. ((count ≡ 0) × (total ≡ nothing_sent))
        ⊎ HasConnection (F.dials legs.rt.now) legs.socket.now };

    ghost reached = { λ legs. HasConnection (F.dials legs.rt.now) legs.socket.now };

    ghost broke = { λ legs fault. HasConnection (F.dials legs.rt.now) legs.socket.now
        ⊎ IsUnconnected (F.dials legs.rt.now) legs.socket.now legs.task.seconds fault };

    fn send(&mut self, placing: Placing, before: u64) -> Result<Leg, RemoteError> {
        let mut task = self.task;
        task.placing = placing;
        without_words(send_once(
            self.rt,
            self.alloc,
            self.socket,
            task,
            before,
            self.input,
            self.output,
            self.keys,
        ))
    }

    fn go_back(&mut self, unread: usize, lines: u64) -> bool {
        self.input.go_back(unread, lines)
    }
}

// Sends over one connection, the lines after the first `before`.
fn send_once<F: Dialing + Clock, R: Read, W: Write, K: KeyLines>(
    rt: &F,
    alloc: Global,
    socket: &str,
    task: Task<'_>,
    before: u64,
    input: &mut KeptInput<R>,
    output: &mut W,
    keys: &mut Option<K>,
) -> Result<Leg, RemoteError>
    ensures { EndsOver (F.dials rt.now) socket.now task.entry.seconds result }
{
    let line = connect(rt, socket, task.seconds, Pace::Reply)?;
    let mut lines = BufReader::with_capacity(alloc, INPUT_ROOM, input)?;
    let (places, end) = send_over(alloc, task, before, &mut lines, &line, output, keys)?;
    let unread = lines.buffer().len();
    Ok(Leg {
        places,
        end,
        unread,
    })
}

// Opens a file to which lines are appended. If its last line lacks its line feed, that is appended first.
fn begin_lines<F: Files>(rt: &F, path: &str) -> Result<F::File, RemoteError>
    ensures { IfErr result (λ fault. fault ≡ Command File) }
{
    let mut file = open_lines(rt, path)?;
    if lacks_feed(&mut file)? {
        file.write_all(b"\n")?;
    }
    Ok(file)
}

fn send_over<C: Clock, R: Read, W: Write, K: KeyLines>(
    alloc: Global,
    task: Task<'_>,
    before: u64,
    lines: &mut BufReader<R>,
    line: &Line<'_, C>,
    output: &mut W,
    keys: &mut Option<K>,
) -> Result<(Places, SendEnd), RemoteError> {
    let mut to = LineEnd::of(line);
    let mut from = BufReader::new(alloc, LineEnd::of(line))?;
    match keys {
        Some(keys) => Ok(send_and_keep(
            alloc, task, before, lines, &mut to, &mut from, output, keys,
        )?),
        None => Ok(send_task(alloc, task, before, lines, &mut to, &mut from, output)?),
    }
}

// Sends the events of a task at their places.
fn send_task<I: Read, A: FallibleWrite, B: Read, W: Write>(
    alloc: Global,
    task: Task<'_>,
    before: u64,
    lines: &mut BufReader<I>,
    to: &mut A,
    from: &mut B,
    output: &mut W,
) -> Result<(Places, SendEnd), ClientError>
    ensures sends { IfOk result (λ sent. PlacesAndSends task.entry.placing task.entry.form before
        (reader_remaining I.remaining lines.old) (A.contents to.old) (A.contents to.new) (B.remaining from.old)
        (W.contents output.old) (W.contents output.new) None None sent.0 sent.1) }
    ensures fault { IfErr result (FailsPlacing (A.contents to.old) (A.contents to.new) (B.remaining from.old)
        (B.remaining from.new) task.entry.placing) }
{
    place_and_send(
        alloc,
        task.placing,
        task.form,
        before,
        lines,
        to,
        from,
        output,
        &mut NoKeys,
        task.window,
        task.stop_at,
    )
}

// The same, and keeps their keys after the newest commitment.
fn send_and_keep<I: Read, A: FallibleWrite, B: Read, W: Write, K: KeyLines>(
    alloc: Global,
    task: Task<'_>,
    before: u64,
    lines: &mut BufReader<I>,
    to: &mut A,
    from: &mut B,
    output: &mut W,
    keys: &mut K,
) -> Result<(Places, SendEnd), SendError>
    ensures sends { IfOk result (λ sent. LogsAndSends task.entry.placing task.entry.form before
        (reader_remaining I.remaining lines.old) (A.contents to.old) (A.contents to.new) (B.remaining from.old)
        (W.contents output.old) (W.contents output.new) (K.contents keys.old) (K.contents keys.new) sent.0 sent.1) }
    ensures fault { IfErr result (FailsLogging (A.contents to.old) (A.contents to.new) (B.remaining from.old)
        (B.remaining from.new) task.entry.placing) }
    ensures kept { OnErr result (LogsInPart (K.contents keys.old) (K.contents keys.new)) }
{
    log_and_send(
        alloc,
        task.placing,
        task.form,
        before,
        lines,
        to,
        from,
        output,
        keys,
        task.window,
        task.stop_at,
    )
}

// Prints why sending failed, if it did, and which lines weren't acknowledged. Returns the status.
fn report_sent<M: Write>(end: &SendEnd, messages: &mut M) -> Status
    ensures { result ≡ status_of_sent end.now }
{
    let status = status_of_end(end, messages);
    report_left(end, messages);
    status
}

// Prints why there is no connection any more, and which lines weren't acknowledged on earlier ones. Without any the
// fault is the result.
fn report_unsent<M: Write>(
    fault: RemoteError,
    end: &SendEnd,
    messages: &mut M,
) -> Result<Status, RemoteError>
    ensures usage { IsNoBadArgument fault → result ≡ Ok Status.Usage → ⊥ }
    ensures status { IfOk result (λ status. (status ≡ remote_status fault) × (end.now.answered < end.now.sent)) }
    ensures fault { IfErr result (λ error. error ≡ fault) }
{
    if end.sent <= end.answered {
        return Err(fault);
    }
    let status = fault.report(messages);
    report_left(end, messages);
    Ok(status)
}

fn report_left<M: Write>(end: &SendEnd, messages: &mut M) {
    if end.sent > end.answered {
        let left = RemoteError::NotAcknowledged {
            lines: end.sent - end.answered,
            first: end.answered.saturating_add(1),
        };
        left.report(messages);
    }
}

fn status_of_end<M: Write>(end: &SendEnd, messages: &mut M) -> Status
    ensures { result ≡ status_of_sent end.now }
{
    match end.error {
        Some(error) => RemoteError::from(error).report(messages),
        None if end.refused > 0 => Status::Refused,
        None => Status::Done,
    }
}
