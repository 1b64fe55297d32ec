//! The requests to serve sessions, and how they are carried out.
ghost use Rattle.std.specs.Prelude.{◌≡◌, ◌⊎◌, ◌≤◌, List, [], ℕ, length, IsOk, IsErr, true, false, Ok, Err};
ghost use Rattle.std.specs.Prelude.{IfOk, IfErr, OnOk, OnErr};
ghost use Rattle.std.specs.Io.KnownBytes.{Keeps, Appends};
ghost use Rattle.audit_base.specs.declared.limits.TheConstants.{SESSIONS};
ghost use Rattle.audit_cli_base.specs.Arguments.{RefusesWords};
ghost use Rattle.audit_cli_base.specs.declared.fault.CommandError.TheVariants.{File, Lines, Replaced};
ghost use Rattle.audit_text.specs.declared.fault.LinesError.TheVariants.{Read as NotRead, Write as NotWritten};
ghost use Rattle.audit_serve_sockets.specs.Bound.{CallFailed, IsBound};
ghost use Rattle.audit_serve_sockets.specs.declared.socket_file.SocketFile.{SocketFile};
ghost use Rattle.audit_cli_serve.specs.Arguments.{rounds_asked, sessions_wanted};
ghost use Rattle.audit_server_commit.specs.Serving.{StoreKeepsOn};
ghost use Rattle.audit_cli_serve.specs.WatchedLines.{watched_lines};
ghost use Rattle.audit_cli_serve.specs.Carried.{ServesAt, ServesOpened, IsStoppedWith, StopsOpened, LoopsAt};
ghost use Rattle.audit_cli_serve.specs.Carried.{LoopsOpened, LoopStopsOpened, IsLoopStopped, IsUnopened};
ghost use Rattle.audit_cli_serve.specs.Carried.{LoopsToBad, LoopsThroughAll, LosesLoop, MeetsOthers};
ghost use Rattle.audit_cli_serve.specs.Carried.{HasFailed, failed_calls};
ghost use Rattle.audit_cli_serve.specs.Carried.{IsServingDone, IsServingCarriedOut};
ghost use Rattle.audit_cli_serve.specs.Rounds.{round_lines};
ghost use Rattle.audit_cli_serve.specs.Served.{LoopReachesOver, StopsLoop};
ghost use Rattle.audit_cli_serve.specs.Faults.{IsNoWordError};
ghost use Rattle.audit_cli_serve.specs.declared.fault.ServingError.TheVariants.{BadFrameLine, Command};
ghost use Rattle.audit_cli_serve.specs.Words.{IsWrongNumber, HasWrongWord, IsServingFault};

use crate::arguments::{rounds_asked, sessions_asked};
use crate::fault::ServingError;
use crate::looping::loop_over;
use crate::own_connections::OwnConnections;
use crate::rounds::serve_rounds;
use crate::watched_lines::WatchedLines;
use audit_cli_base::{
    CommandError, FileDevice, FileStore, Opened, Status, StoreWatch, report_flush,
    socket_mode_asked, socket_path_asked,
};
use audit_cli_calls::{FlushedOutput, Stores};
use audit_disk::{SystemFile, SystemFiles};
use audit_disk_model::Sectors;
use audit_serve_passes::Duplex;
use audit_serve_sockets::{
    LineInput, LineOutput, Link, Listener, PieceInput, SocketFile, SocketLock, SystemSockets,
    TriedRead, TriedWrite,
};
use audit_store::Store;
use std::alloc::Global;
use std::io::{self, Write};
use std::os::unix::net::UnixStream;

// How many connections of other clients are closed before the program gives up.
const STRANGERS: usize = 64;

/// A request to serve sessions, with the words of the command line as they were given.
#[derive(Clone, Copy, Debug)]
pub enum Request<'a> {
    /// Serves rounds of sessions of the store in a file over a socket.
    Serve {
        /// The store's file.
        file: &'a str,
        /// The path of the socket's file.
        socket: &'a str,
        /// The number of rounds.
        rounds: &'a str,
        /// The number of sessions in each round; 1 if absent.
        sessions: Option<&'a str>,
        /// The permissions of the socket's file, in three octal digits. If absent, only its owner has access.
        socket_mode: Option<&'a str>,
    },
    /// Serves one session of the store in a file over a socket. The lines of the input are the session's bytes.
    Loop {
        /// The store's file.
        file: &'a str,
        /// The path of the socket's file.
        socket: &'a str,
        /// The permissions of the socket's file, as for `Serve`.
        socket_mode: Option<&'a str>,
    },
}

/// Carries out a request over the stores of a system, `stores`, which are those of `rt`. Lines that begin with `audit: `
/// are written to `messages`, all others to `output`. The output is flushed after each round, after the replies to each
/// line, and at the end. Once the store isn't in its place, no line is written any more, and that is the fault. Returns
/// the status with which the program exits.
pub fn run<F, E, S, O, R, W, M>(
    rt: &F,
    stores: &mut O,
    alloc: Global,
    request: Request<'_>,
    input: &mut R,
    output: &mut W,
    messages: &mut M,
) -> Status
where
    F: SystemFiles + OwnConnections<E, S>,
    E: TriedRead + TriedWrite + Drop,
    S: Drop,
    F::File: SystemFile,
    O: Stores<FileStore<F::File>>,
    R: TriedRead,
    W: FlushedOutput + TriedWrite,
    M: Write,
    // A wrong word ends the program before a store is opened or anything is written. An output that can't be flushed is
    // another fault.
    ensures words { HasWrongWord request.entry → (result ≡ Status.Usage) ⊎ (result ≡ Status.Device) }
    ensures only { result ≡ Status.Usage → HasWrongWord request.entry }
    ensures unwritten { HasWrongWord request.entry → Keeps (W.contents output.old) (W.contents output.new) }
    ensures unopened { HasWrongWord request.entry → O.calls.DidCalls stores.old stores.new [] }
    // The status is that of the result, or the output couldn't be flushed. On success what was asked for was served,
    // over the store that was opened in the file that was named; whatever happens, the output has the lines of what was
    // served, in order. After an error no store was opened, or that store was let go with its events. Nothing else was
    // done to a store. An error of files, of reading or of writing needs a call that failed, once the store was opened.
    ensures carried { IsServingCarriedOut ⟦<FileDevice<F::File> as Sectors>⟧ O.calls (O.at stores.old)
        ⟦<UnixStream as Duplex>⟧.calls ⟦<SocketFile as Listener<UnixStream>>⟧.model (IsBound (F.sockets rt.now))
        (failed_calls (F.call_failed rt.now) F.File.facts R.unread W.unwritten) (F.sockets rt.now).connects
        (LosesLoop F.met E.unwritten E.unread E.gave)
        request.entry stores.old stores.new (R.remaining input.old) (W.contents output.old) (W.contents output.new)
        (W.flushed output.new) (W.unflushed output.new) result }
{
    let done = perform(rt, stores, alloc, request, input, output);
    let flushed = output.flush_last();
    let status = match done {
        Ok(()) => Status::Done,
        Err(fault) => fault.report(messages),
    };
    report_flush(status, flushed, messages)
}

// The words are checked before the store is opened, and the store is opened before the socket's file is made. The
// socket's file is removed at the end.
fn perform<F, E, S, O, R, W>(
    rt: &F,
    stores: &mut O,
    alloc: Global,
    request: Request<'_>,
    input: &mut R,
    output: &mut W,
) -> Result<(), ServingError>
where
    F: SystemFiles + OwnConnections<E, S>,
    E: TriedRead + TriedWrite + Drop,
    S: Drop,
    F::File: SystemFile,
    O: Stores<FileStore<F::File>>,
    R: TriedRead,
    W: TriedWrite,
    ensures words { RefusesWords (IsServingFault request.entry) (W.contents output.old) (W.contents output.new) result }
    ensures only { result ≡ Err (ServingError.Command CommandError.BadArgument) → HasWrongWord request.entry }
    ensures unopened { HasWrongWord request.entry → O.calls.DidCalls stores.old stores.new [] }
    ensures served { IsServingDone ⟦<FileDevice<F::File> as Sectors>⟧ O.calls (O.at stores.old)
        ⟦<UnixStream as Duplex>⟧.calls ⟦<SocketFile as Listener<UnixStream>>⟧.model (IsBound (F.sockets rt.now))
        (failed_calls (F.call_failed rt.now) F.File.facts R.unread W.unwritten) (F.sockets rt.now).connects
        (LosesLoop F.met E.unwritten E.unread E.gave)
        request.entry stores.old stores.new (R.remaining input.old) (W.contents output.old) (W.contents output.new)
        result }
{
    match request {
        Request::Serve {
            file,
            socket,
            rounds,
            sessions,
            socket_mode,
        } => {
            socket_path_asked(socket, 0)?;
            let rounds = rounds_asked(rounds)?;
            let sessions = sessions_or_one(sessions)?;
            let mode = socket_mode_asked(socket_mode)?;
            serve_file(
                rt, stores, alloc, file, socket, mode, rounds, sessions, output,
            )
        }
        Request::Loop {
            file,
            socket,
            socket_mode,
        } => {
            socket_path_asked(socket, 0)?;
            let mode = socket_mode_asked(socket_mode)?;
            loop_file(rt, stores, alloc, file, socket, mode, input, output)
        }
    }
}

fn sessions_or_one(word: Option<&str>) -> Result<usize, CommandError>
    ensures wrong { IsWrongNumber word.entry → result ≡ Err CommandError.BadArgument }
    ensures fault { IfErr result (λ fault. (fault ≡ CommandError.BadArgument) × IsWrongNumber word.entry) }
    ensures few { IfOk result (λ sessions. sessions ≤ SESSIONS) }
    ensures asked { IfOk result (λ sessions. sessions_wanted word.entry ≡ Ok sessions) }
{
    match word {
        Some(word) => sessions_asked(word),
        None => Ok(1),
    }
}

fn serve_file<F, O, W>(
    rt: &F,
    stores: &mut O,
    alloc: Global,
    file: &str,
    socket: &str,
    mode: u32,
    rounds: u64,
    sessions: usize,
    output: &mut W,
) -> Result<(), ServingError>
where
    F: SystemFiles + SystemSockets,
    F::File: SystemFile,
    O: Stores<FileStore<F::File>>,
    W: TriedWrite,
    requires { sessions ≤ SESSIONS }
    ensures words { IfErr result IsNoWordError }
    ensures served { OnOk result (ServesOpened ⟦<FileDevice<F::File> as Sectors>⟧ O.calls (O.at stores.old)
        ⟦<UnixStream as Duplex>⟧.calls ⟦<SocketFile as Listener<UnixStream>>⟧.model (IsBound (F.sockets rt.now))
        file.now socket.now mode sessions rounds stores.old stores.new (W.contents output.old)
        (W.contents output.new)) }
    ensures stopped { IfErr result (λ fault. IsUnopened O.calls
        file.now stores.old stores.new (W.contents output.old) (W.contents output.new) fault
        ⊎ StopsOpened ⟦<FileDevice<F::File> as Sectors>⟧ O.calls (O.at stores.old)
        ⟦<UnixStream as Duplex>⟧.calls ⟦<SocketFile as Listener<UnixStream>>⟧.model (IsBound (F.sockets rt.now))
        file.now socket.now mode sessions stores.old stores.new (W.contents output.old) (W.contents output.new)
        fault) }
    ensures failed { result ≡ Err (Command File) → IsUnopened O.calls
        file.now stores.old stores.new (W.contents output.old) (W.contents output.new) (Command File)
        ⊎ CallFailed (F.call_failed rt.now) F.File.facts }
    ensures unwritten { result ≡ Err (Command (Lines NotWritten)) → IsUnopened O.calls
        file.now stores.old stores.new (W.contents output.old) (W.contents output.new) (Command (Lines NotWritten))
        ⊎ HasFailed W.unwritten }
{
    let Opened { content, identity } = stores.open(alloc, file)?;
    let watch = StoreWatch::new(rt, file, identity, content.sectors());
    let mut watched = WatchedLines::new(&watch, output);
    let (store, served) = serve_store(
        rt,
        alloc,
        content,
        socket,
        mode,
        rounds,
        sessions,
        &mut watched,
    );
    stores.let_go(store);
    served
}

// Whatever happens, the store is returned as the rounds left it. It stays locked until the socket's file is removed.
fn serve_store<F: SystemFiles + SystemSockets, D: Sectors + Drop, W: TriedWrite>(
    rt: &F,
    alloc: Global,
    store: Store<D>,
    socket: &str,
    mode: u32,
    rounds: u64,
    sessions: usize,
    output: &mut WatchedLines<'_, '_, F, W>,
) -> (Store<D>, Result<(), ServingError>)
where
    F::File: SystemFile,
    requires { sessions ≤ SESSIONS }
    ensures words { IfErr result.1 IsNoWordError }
    // Nothing else is done to the store.
    ensures kept { StoreKeepsOn store result.0 }
    ensures served { OnOk result.1 ((turns : List ℕ) × (length turns ≡ rounds)
        × ServesAt ⟦<UnixStream as Duplex>⟧.calls ⟦<SocketFile as Listener<UnixStream>>⟧.model
        (IsBound (F.sockets rt.now) socket.now mode) sessions turns store result.0
        × Appends (watched_lines W.contents output.old) (watched_lines W.contents output.new) (round_lines 1 turns)) }
    ensures stopped { IfErr result.1 (IsStoppedWith ⟦<UnixStream as Duplex>⟧.calls
        ⟦<SocketFile as Listener<UnixStream>>⟧.model (IsBound (F.sockets rt.now) socket.now mode) sessions store
        result.0 (watched_lines W.contents output.old) (watched_lines W.contents output.new)) }
    ensures failed { result.1 ≡ Err (Command File) → CallFailed (F.call_failed rt.now) F.File.facts }
    ensures unwritten { result.1 ≡ Err (Command (Lines NotWritten)) → HasFailed W.unwritten }
{
    match SocketFile::bind(rt, alloc, socket, mode) {
        Ok((bound, lock)) => serve_bound(
            rt, alloc, store, bound, lock, socket, mode, rounds, sessions, output,
        ),
        Err(error) => (store, Err(error.into())),
    }
}

fn serve_bound<F: SystemFiles + SystemSockets, D: Sectors + Drop, W: TriedWrite>(
    rt: &F,
    alloc: Global,
    store: Store<D>,
    bound: SocketFile,
    lock: SocketLock<F::File>,
    socket: &str,
    mode: u32,
    rounds: u64,
    sessions: usize,
    output: &mut WatchedLines<'_, '_, F, W>,
) -> (Store<D>, Result<(), ServingError>)
where
    F::File: SystemFile,
    requires few { sessions ≤ SESSIONS }
    requires listens { IsBound (F.sockets rt.now) socket.now mode bound }
    ensures words { IfErr result.1 IsNoWordError }
    ensures kept { StoreKeepsOn store result.0 }
    ensures served { OnOk result.1 ((turns : List ℕ) × (length turns ≡ rounds)
        × ServesAt ⟦<UnixStream as Duplex>⟧.calls ⟦<SocketFile as Listener<UnixStream>>⟧.model
        (IsBound (F.sockets rt.now) socket.now mode) sessions turns store result.0
        × Appends (watched_lines W.contents output.old) (watched_lines W.contents output.new) (round_lines 1 turns)) }
    ensures stopped { IfErr result.1 (IsStoppedWith ⟦<UnixStream as Duplex>⟧.calls
        ⟦<SocketFile as Listener<UnixStream>>⟧.model (IsBound (F.sockets rt.now) socket.now mode) sessions store
        result.0 (watched_lines W.contents output.old) (watched_lines W.contents output.new)) }
    ensures failed { result.1 ≡ Err (Command File) → CallFailed (F.call_failed rt.now) F.File.facts }
    ensures unwritten { result.1 ≡ Err (Command (Lines NotWritten)) → HasFailed W.unwritten }
{
    let mut bound = bound;
    let (store, served) = serve_rounds(rt, alloc, store, &mut bound, rounds, sessions, output);
    let served = unless_replaced(served, output.is_replaced());
    let ended = after_removing(served, bound.remove(rt, socket, lock));
    (store, ended)
}

// How serving ended. That the store isn't in its place counts before all else.
fn unless_replaced(served: Result<(), ServingError>, is_replaced: bool) -> Result<(), ServingError>
    ensures replaced { is_replaced ≡ true → result ≡ Err (Command Replaced) }
    ensures served { is_replaced ≡ false → result ≡ served }
    ensures words { IfErr served IsNoWordError → IfErr result IsNoWordError }
{
    if is_replaced {
        return Err(ServingError::Command(CommandError::Replaced));
    }
    served
}

// The result of serving, once the socket's file was removed.
fn after_removing(
    served: Result<(), ServingError>,
    removed: io::Result<()>,
) -> Result<(), ServingError>
    ensures words { IfErr served IsNoWordError → IfErr result IsNoWordError }
    ensures done { OnOk result (IsOk served) }
    ensures stopped { IfErr result (λ fault. (served ≡ Err fault) ⊎ (fault ≡ Command File)) }
    ensures removed { result ≡ Err (Command File) → (served ≡ Err (Command File)) ⊎ IsErr removed }
{
    served?;
    Ok(removed?)
}

fn loop_file<F, E, S, O, R, W>(
    rt: &F,
    stores: &mut O,
    alloc: Global,
    file: &str,
    socket: &str,
    mode: u32,
    input: &mut R,
    output: &mut W,
) -> Result<(), ServingError>
where
    F: SystemFiles + OwnConnections<E, S>,
    E: TriedRead + TriedWrite + Drop,
    S: Drop,
    F::File: SystemFile,
    O: Stores<FileStore<F::File>>,
    R: TriedRead,
    W: TriedWrite,
    ensures words { IfErr result IsNoWordError }
    ensures looped { OnOk result (LoopsOpened ⟦<FileDevice<F::File> as Sectors>⟧ O.calls (O.at stores.old)
        (IsBound (F.sockets rt.now)) (F.sockets rt.now).connects file.now socket.now mode stores.old stores.new
        (R.remaining input.old) (W.contents output.old) (W.contents output.new)) }
    ensures stopped { IfErr result (λ fault. IsUnopened O.calls
        file.now stores.old stores.new (W.contents output.old) (W.contents output.new) fault
        ⊎ LoopStopsOpened ⟦<FileDevice<F::File> as Sectors>⟧ O.calls (O.at stores.old)
        (failed_calls (F.call_failed rt.now) F.File.facts R.unread W.unwritten)
        (LosesLoop F.met E.unwritten E.unread E.gave)
        file.now stores.old stores.new (R.remaining input.old) (W.contents output.old) (W.contents output.new)
        fault) }
{
    let Opened { content, identity } = stores.open(alloc, file)?;
    let watch = StoreWatch::new(rt, file, identity, content.sectors());
    let mut watched = WatchedLines::new(&watch, output);
    let (store, served) = loop_store(rt, alloc, content, socket, mode, input, &mut watched);
    stores.let_go(store);
    served
}

// Whatever happens, the store is returned as the session left it. It stays locked until the socket's file is removed.
fn loop_store<F, E, S, D, R, W>(
    rt: &F,
    alloc: Global,
    store: Store<D>,
    socket: &str,
    mode: u32,
    input: &mut R,
    output: &mut WatchedLines<'_, '_, F, W>,
) -> (Store<D>, Result<(), ServingError>)
where
    F: SystemFiles + OwnConnections<E, S>,
    F::File: SystemFile,
    E: TriedRead + TriedWrite + Drop,
    S: Drop,
    D: Sectors + Drop,
    R: TriedRead,
    W: TriedWrite,
    ensures words { IfErr result.1 IsNoWordError }
    // Nothing else is done to the store.
    ensures kept { StoreKeepsOn store result.0 }
    ensures looped { OnOk result.1 (LoopsAt (R.remaining input.old) (watched_lines W.contents output.old)
        (watched_lines W.contents output.new) store result.0) }
    ensures bound { OnOk result.1 ((bound : SocketFile) × IsBound (F.sockets rt.now) socket.now mode bound) }
    ensures connected { OnOk result.1 ((F.sockets rt.now).connects socket.now) }
    ensures stopped { IfErr result.1 (IsLoopStopped
        (failed_calls (F.call_failed rt.now) F.File.facts R.unread W.unwritten)
        (LosesLoop F.met E.unwritten E.unread E.gave store result.0) (R.remaining input.old)
        (watched_lines W.contents output.old) (watched_lines W.contents output.new) store result.0) }
{
    let mut reader = PieceInput::new(input);
    let (bound, lock) = match SocketFile::bind(rt, alloc, socket, mode) {
        Ok(made) => made,
        Err(error) => return (store, Err(error.into())),
    };
    let (store, served) = loop_bound(rt, alloc, store, &bound, socket, &mut reader, output);
    let served = unless_replaced(served, output.is_replaced());
    let ended = after_removing(served, bound.remove(rt, socket, lock));
    (store, ended)
}

fn loop_bound<F, E, S, D, R, W>(
    rt: &F,
    alloc: Global,
    store: Store<D>,
    bound: &SocketFile,
    socket: &str,
    reader: &mut R,
    output: &mut W,
) -> (Store<D>, Result<(), ServingError>)
where
    F: OwnConnections<E, S>,
    E: TriedRead + TriedWrite + Drop,
    S: Drop,
    D: Sectors + Drop,
    R: LineInput,
    W: LineOutput,
    ensures words { IfErr result.1 IsNoWordError }
    ensures kept { StoreKeepsOn store result.0 }
    ensures looped { OnOk result.1 (LoopsAt (R.remaining reader.old) (W.contents output.old) (W.contents output.new)
        store result.0) }
    ensures connected { OnOk result.1 ((F.sockets rt.now).connects socket.now) }
    ensures stopped { IfErr result.1 (StopsLoop store result.0) }
    ensures failed { result.1 ≡ Err (Command File) → F.call_failed rt.now
        ⊎ LosesLoop F.met E.unwritten E.unread E.gave store result.0 }
    ensures unread { result.1 ≡ Err (Command (Lines NotRead)) → R.failed reader.new
        ⊎ LoopsThroughAll (W.contents output.old) (W.contents output.new) store result.0 }
    ensures unwritten { result.1 ≡ Err (Command (Lines NotWritten)) → W.failed output.new }
    ensures reached { (result.0 ≡ store) ⊎ LoopReachesOver store result.0 (R.remaining reader.old) }
    ensures bad { (number : ℕ) → result.1 ≡ Err (BadFrameLine number) → LoopsToBad number (R.remaining reader.old)
        (W.contents output.old) (W.contents output.new) store result.0 }
{
    match connect(rt, bound, socket) {
        Ok(mut link) => loop_over(alloc, store, &mut link, reader, output),
        Err(fault) => (store, Err(fault)),
    }
}

// Makes both ends of a connection through the socket. Another client may connect first, so the client's end sends a
// random text, and the server's end is the connection on which it arrives.
fn connect<F, E, S>(rt: &F, bound: &SocketFile, socket: &str) -> Result<Link<E, E>, ServingError>
where
    F: OwnConnections<E, S>,
    E: TriedRead + TriedWrite + Drop,
    S: Drop,
    ensures connects { OnOk result ((F.sockets rt.now).connects socket.now) }
    // That none of as many connections as are let in is the other end is a failure, too.
    ensures failed { OnErr result (F.call_failed rt.now
        ⊎ MeetsOthers F.met E.unwritten E.unread E.gave) }
    ensures fault { IfErr result (λ fault. fault ≡ Command File) }
{
    let mut client = rt.connect_to_own(socket)?;
    let text = rt.random_text()?;
    rt.send_to_own(&mut client, &text)?;
    let mut search = rt.begin_search();
    for _ in 0..STRANGERS {
        let arrived = rt.accept_own(bound)?;
        match rt.hears_own(arrived, &text, &mut search)? {
            Some(server) => return Ok(Link::new(client, server)),
            None => {}
        }
    }
    Err(ServingError::Command(CommandError::File))
}
