//! The requests to run a daemon and to stop it, and how they are carried out.
ghost use Rattle.std.specs.Prelude.{◌≡◌, ◌≢◌, ◌⊎◌, ◌≤◌, ℕ, Option, None, Ok, Err, IfSome, IfOk, IfErr, OnOk, OnErr, IsOk};
ghost use Rattle.std.specs.Prelude.{map, true, false, [], List, IsErr, ℤ, Result, is_some};
ghost use denote.Ref.{Bor};
ghost use Rattle.std.specs.Io.KnownBytes.{Keeps, Appends};
ghost use Rattle.audit_serve_ready.specs.declared.limits.TheConstants.{MAX_BACKLOG};
ghost use Rattle.audit_cli_base.specs.Arguments.{number_asked};
ghost use Rattle.audit_cli_base.specs.Faults.{IsNoWordFault};
ghost use Rattle.audit_cli_base.specs.Mode.{IsMode};
ghost use Rattle.audit_cli_calls.specs.StoreCalls.{LetsGo};
ghost use Rattle.audit_cli_daemon.specs.declared.request.Settings.{Settings};
ghost use Rattle.audit_disk.specs.declared.files.TheConstants.{OWNER_ONLY};
ghost use Rattle.audit_cli_daemon.specs.declared.arguments.TheConstants.{DEFAULT_IDLE, DEFAULT_RESERVE};
ghost use Rattle.audit_cli_daemon.specs.Words.{HasBadSetting, HasBadWord, backlog_asked, free_asked, free_kept};
ghost use Rattle.audit_cli_daemon.specs.Carried.{ServesAtDoor, ServesBetween, EndsEarly, IsDaemonDone};
ghost use Rattle.audit_cli_daemon.specs.Carried.{IsDaemonCarriedOut};
ghost use Rattle.audit_cli_daemon.specs.Gauged.{IsTold, IsEnding};
ghost use Rattle.audit_serve_passes.specs.declared.bound_kinds.BoundKinds.{BoundKinds};
ghost use Rattle.audit_serve_passes.specs.Rights.{is_bound};
ghost use Rattle.audit_cli_daemon.specs.Rights.{rights_of_others, modes_at, IsIdleTime, IsDoorFor};
ghost use Rattle.audit_cli_daemon.specs.Sources.{has_kind, words_of, are_no_sources};
ghost use Rattle.audit_cli_base.specs.declared.fault.CommandError.TheVariants.{File};
ghost use Rattle.audit_cli_daemon.specs.Carried.{sources_asked, terms_of};
ghost use Rattle.audit_cli_daemon.specs.Sockets.{rights_served, paths_served, ListenAt, prompt_sockets, BindFailed};
ghost use Rattle.audit_cli_daemon.specs.State.{ready_line, word_of, end_in};
ghost use Rattle.audit_cli_daemon.specs.Stopping.{IsOrdered, status_ordered};
ghost use Rattle.audit_cli_base.specs.declared.status.Status.{Status};
ghost use Rattle.audit_cli_base.specs.declared.fault.CommandError.{CommandError};
ghost use Rattle.audit_serve_door.specs.Entrances.{rights_of, rights_of_door, mode_of, modes_of_door, idle_of_door};
ghost use Rattle.audit_serve_door.specs.Entrances.{descriptor_of, descriptors_of_door};
ghost use Rattle.audit_serve_door.specs.Comings.{who_waits, places_of, was_told, is_replaced, has_failed};
ghost use Rattle.audit_serve_door.specs.Idle.{IsVacant};
ghost use Rattle.audit_serve_door.specs.Waits.{NobodyWaits};
ghost use Rattle.audit_store.specs.Store.{active_header};
ghost use Rattle.audit_server_commit.specs.Committing.{free_after};
ghost use Rattle.audit_text.specs.NumberedLine.{numbered_line};
ghost use Rattle.audit_text.specs.Writing.{WritesInPart};
ghost use Rattle.audit_server_commit.specs.Serving.{StoreKeepsOn};

use crate::arguments::{DEFAULT_IDLE, DEFAULT_RESERVE, backlog_asked, free_asked, free_kept};
use crate::client_journal::ClientJournal;
use crate::end::{End, word_of};
use crate::ending_door::EndingDoor;
use crate::gauge::{Gauge, GaugedDoor};
use crate::prompt_sockets::PromptSockets;
use crate::running::serve_until_stopped;
use crate::sockets::{Listening, Made, STOP_SUFFIX_LEN, Sockets, fault_of};
use crate::sources::{kinds_bound_by, kinds_of_sources};
use crate::sparing::Sparing;
use crate::state_line::write_state;
use crate::stopping::{StopCalls, stop};
use crate::watched_store::WatchedStore;
use audit_cli_base::{
    CommandError, FileDevice, FileStore, Opened, Status, StoreWatch, number_asked, report,
    report_end, socket_mode_asked, socket_path_asked,
};
use audit_cli_calls::{FlushedOutput, Stores};
use audit_disk::{SystemFile, SystemFiles};
use audit_disk_model::Sectors;
use audit_proof::Commitment;
use audit_serve_door::{Client, ClientDoor, Journal, Room, SocketDoor, StopOrders, Watch};
use audit_serve_passes::Rights;
use audit_serve_ready::{Door, ReadyStream};
use audit_store::{Store, StoreError};
use std::alloc::Global;
use std::cell::RefCell;
use std::fs::Files;
use std::io::{self, Write};
use std::net::Net;
use std::os::fd::RawFd;
use std::time::{Clock, Duration};

// The descriptor of standard output.
const OUTPUT_DESCRIPTOR: RawFd = 1;

/// A request about a daemon, with the words of the command line as they were given.
#[derive(Clone, Copy)]
pub enum Request<'a> {
    /// Runs a daemon.
    Run(Settings<'a>),
    /// Stops the daemon at a socket, and waits for its end.
    Stop {
        /// The path of the daemon's socket.
        socket: &'a str,
    },
}

/// What a daemon serves, and to whom.
#[derive(Clone, Copy)]
pub struct Settings<'a> {
    /// The store's file.
    pub file: &'a str,
    /// The path of the socket for clients that append and read.
    pub socket: &'a str,
    /// The path of the socket for clients that only read.
    pub reader: Option<&'a str>,
    /// For each source, a word for its kind and the path of the socket for its clients, who append events of that
    /// kind alone: the kind, a colon, and the path. No other client may append such an event.
    pub writers: &'a [&'a str],
    /// Whether clients may close the log.
    pub may_close: bool,
    /// How many seconds a client may be idle while another one waits; 0 for ever.
    pub idle: Option<&'a str>,
    /// How many bytes of replies are kept for a client.
    pub backlog: Option<&'a str>,
    /// How many sectors stay free after the log, so that it can still be closed.
    pub reserve: Option<&'a str>,
    /// If there is a word, the daemon ends at the first event that wouldn't leave that many sectors free, or the reserve,
    /// and answers all before it, and not that one.
    pub until_free: Option<&'a str>,
    /// The permissions of the sockets' files, in three octal digits. Without this word only their owner has access.
    pub socket_mode: Option<&'a str>,
}

// The words that were judged.
#[derive(Clone, Copy)]
struct Judged<'a> {
    // In seconds; 0 is for ever.
    idle: u64,
    reserve: u64,
    // How many sectors events leave: the reserve at least.
    kept: u64,
    stops_when_full: bool,
    most: usize,
    mode: u32,
    rights: Rights,
    // The words for sources, whose kinds are counted.
    sources: &'a [&'a str],
}

/// Carries out a request over the stores of a system, `stores`, which are those of `rt`. Lines that begin with `audit: `
/// are written to `messages`, all others to `output`. If
/// `explains` is set, there is a line for each client that was dropped or cut off, and their counts. Returns the status
/// with which the program exits.
pub fn run<F, O, W, M>(
    rt: &F,
    stores: &mut O,
    alloc: Global,
    request: Request<'_>,
    explains: bool,
    output: &mut W,
    messages: &mut M,
) -> Status
where
    F: SystemFiles + PromptSockets + StopCalls + Clock,
    F::File: SystemFile,
    O: Stores<FileStore<F::File>>,
    W: FlushedOutput,
    M: Write,
    // A wrong word ends the program before a store is opened or anything is written; an output that can't be flushed is
    // another fault.
    ensures words { HasBadWord request.entry → (result ≡ Status.Usage) ⊎ (result ≡ Status.Device) }
    ensures only { (settings : Settings) → request.entry ≡ Request.Run settings → result ≡ Status.Usage
        → HasBadSetting settings }
    ensures unwritten { HasBadWord request.entry → Keeps (W.contents output.old) (W.contents output.new) }
    ensures unopened { HasBadWord request.entry → O.calls.DidCalls stores.old stores.new [] }
    // To stop one no store is opened.
    ensures stops { (socket : Bor (List ℕ)) → request.entry ≡ Request.Stop socket
        → O.calls.DidCalls stores.old stores.new [] }
    // The status is then the one that the daemon answered, or that of a fault that has a cause.
    ensures ordered { (socket : Bor (List ℕ)) → request.entry ≡ Request.Stop socket
        → (done : Result Status CommandError) × IsOrdered (F.answered rt.now) (F.unanswered rt.now) socket.now done
        × (result ≡ status_ordered done) }
    // The status is that of the result, or the output couldn't be flushed. On success clients were served over the store
    // that was opened in the file that was named, with the reserve and the backlog that were asked for and the kinds of
    // the sources counted, until the order to stop came, and its first and last state were written. After an error no
    // store was opened and nothing was written, or that store was let go with its events, and a prefix of these lines
    // was written. In both cases nothing else was done to a store.
    ensures carried { (settings : Settings) → request.entry ≡ Request.Run settings
        → IsDaemonCarriedOut ⟦<FileDevice<F::File> as Sectors>⟧ O.calls (O.at stores.old)
        (prompt_sockets (F.sockets rt.now) (F.prompt rt.now))
        (BindFailed (F.call_failed rt.now) (F.unprompted rt.now) F.File.facts) ⟦<Client as ReadyStream>⟧.calls
        ⟦<DaemonDoor<F, F::File, Sparing<'static, M>> as Door>⟧.calls settings
        stores.old stores.new (W.contents output.old) (W.contents output.new) (W.flushed output.new)
        (W.unflushed output.new) result }
{
    match request {
        Request::Run(settings) => {
            run_daemon(rt, stores, alloc, settings, explains, output, messages)
        }
        Request::Stop { socket } => match stop(rt, alloc, socket) {
            Ok(status) => status,
            Err(fault) => report(fault, messages),
        },
    }
}

// Once the words are judged, no message waits for its reader.
fn run_daemon<F, O, W, M>(
    rt: &F,
    stores: &mut O,
    alloc: Global,
    settings: Settings<'_>,
    explains: bool,
    output: &mut W,
    messages: &mut M,
) -> Status
where
    F: SystemFiles + PromptSockets + Clock,
    F::File: SystemFile,
    O: Stores<FileStore<F::File>>,
    W: FlushedOutput,
    M: Write,
    ensures words { HasBadSetting settings.entry → (result ≡ Status.Usage) ⊎ (result ≡ Status.Device) }
    ensures only { result ≡ Status.Usage → HasBadSetting settings.entry }
    ensures unwritten { HasBadSetting settings.entry → Keeps (W.contents output.old) (W.contents output.new) }
    ensures unopened { HasBadSetting settings.entry → O.calls.DidCalls stores.old stores.new [] }
    ensures carried { IsDaemonCarriedOut ⟦<FileDevice<F::File> as Sectors>⟧ O.calls (O.at stores.old)
        (prompt_sockets (F.sockets rt.now) (F.prompt rt.now))
        (BindFailed (F.call_failed rt.now) (F.unprompted rt.now) F.File.facts) ⟦<Client as ReadyStream>⟧.calls
        ⟦<DaemonDoor<F, F::File, Sparing<'static, M>> as Door>⟧.calls settings.entry
        stores.old stores.new (W.contents output.old) (W.contents output.new) (W.flushed output.new)
        (W.unflushed output.new) result }
{
    let mut sparing = Sparing::new(messages);
    let status = run_sparing(rt, stores, alloc, settings, explains, output, &mut sparing);
    sparing.report_left_out();
    status
}

// Whoever ordered the daemon to stop is answered last.
fn run_sparing<F, O, W, M>(
    rt: &F,
    stores: &mut O,
    alloc: Global,
    settings: Settings<'_>,
    explains: bool,
    output: &mut W,
    messages: &mut Sparing<'_, M>,
) -> Status
where
    F: SystemFiles + PromptSockets + Clock,
    F::File: SystemFile,
    O: Stores<FileStore<F::File>>,
    W: FlushedOutput,
    M: Write,
    ensures words { HasBadSetting settings.entry → (result ≡ Status.Usage) ⊎ (result ≡ Status.Device) }
    ensures only { result ≡ Status.Usage → HasBadSetting settings.entry }
    ensures unwritten { HasBadSetting settings.entry → Keeps (W.contents output.old) (W.contents output.new) }
    ensures unopened { HasBadSetting settings.entry → O.calls.DidCalls stores.old stores.new [] }
    ensures carried { IsDaemonCarriedOut ⟦<FileDevice<F::File> as Sectors>⟧ O.calls (O.at stores.old)
        (prompt_sockets (F.sockets rt.now) (F.prompt rt.now))
        (BindFailed (F.call_failed rt.now) (F.unprompted rt.now) F.File.facts) ⟦<Client as ReadyStream>⟧.calls
        ⟦<DaemonDoor<F, F::File, Sparing<'static, M>> as Door>⟧.calls settings.entry
        stores.old stores.new (W.contents output.old) (W.contents output.new) (W.flushed output.new)
        (W.unflushed output.new) result }
{
    let mut orders = None;
    let done = perform(
        rt,
        stores,
        alloc,
        settings,
        explains,
        output,
        messages,
        &mut orders,
    );
    let flushed = output.flush_last();
    let status = report_end(done, flushed, messages);
    if let Some(orders) = orders {
        orders.answer(status.code());
    }
    status
}

// The words are judged before the store is opened, and the store is opened before the sockets' files are made.
fn perform<F, O, W, M>(
    rt: &F,
    stores: &mut O,
    alloc: Global,
    settings: Settings<'_>,
    explains: bool,
    output: &mut W,
    messages: &mut Sparing<'_, M>,
    orders: &mut Option<StopOrders>,
) -> Result<(), CommandError>
where
    F: SystemFiles + PromptSockets + Clock,
    F::File: SystemFile,
    O: Stores<FileStore<F::File>>,
    W: Write,
    M: Write,
    ensures words { HasBadSetting settings.entry → result ≡ Err CommandError.BadArgument }
    ensures only { result ≡ Err CommandError.BadArgument → HasBadSetting settings.entry }
    ensures unwritten { HasBadSetting settings.entry → Keeps (W.contents output.old) (W.contents output.new) }
    ensures unopened { HasBadSetting settings.entry → O.calls.DidCalls stores.old stores.new [] }
    ensures served { IsDaemonDone ⟦<FileDevice<F::File> as Sectors>⟧ O.calls (O.at stores.old)
        (prompt_sockets (F.sockets rt.now) (F.prompt rt.now))
        (BindFailed (F.call_failed rt.now) (F.unprompted rt.now) F.File.facts) ⟦<Client as ReadyStream>⟧.calls
        ⟦<DaemonDoor<F, F::File, Sparing<'static, M>> as Door>⟧.calls settings.entry
        stores.old stores.new (W.contents output.old) (W.contents output.new) result }
{
    let judged = judge(settings)?;
    let sockets = Sockets::new(alloc, settings.socket, settings.reader, settings.writers)?;
    if let Err(error) = messages.spare(rt, alloc) {
        return Err(fault_of(error.kind()));
    }
    let Opened { content, identity } = stores.open(alloc, settings.file)?;
    let watch = StoreWatch::new(rt, settings.file, identity, content.sectors());
    serve_store(
        rt, stores, alloc, content, watch, &sockets, judged, explains, output, messages, orders,
    )
}

fn judge<'a>(settings: Settings<'a>) -> Result<Judged<'a>, CommandError>
    ensures wrong { HasBadSetting settings.entry → result ≡ Err CommandError.BadArgument }
    ensures fault { IfErr result (λ _. HasBadSetting settings.entry) }
    ensures idle { IfOk result (λ judged. number_asked settings.entry.idle DEFAULT_IDLE ≡ Ok judged.idle) }
    ensures reserve { IfOk result (λ judged. number_asked settings.entry.reserve DEFAULT_RESERVE ≡ Ok judged.reserve) }
    ensures kept { IfOk result (λ judged. (until : Option ℕ) × (free_asked settings.entry.until_free ≡ Ok until)
        × (judged.kept ≡ free_kept judged.reserve until)) }
    ensures stops { IfOk result (λ judged. judged.stops_when_full ≡ is_some settings.entry.until_free) }
    ensures backlog { IfOk result (λ judged. backlog_asked settings.entry.backlog ≡ Ok judged.most) }
    ensures most { IfOk result (λ judged. judged.most ≤ MAX_BACKLOG) }
    ensures sources { IfOk result (λ judged. judged.sources ≡ settings.entry.writers) }
    ensures words { IfOk result (λ judged. are_no_sources (words_of settings.entry.writers.now) ≡ false) }
    ensures owner { settings.entry.socket_mode ≡ None → IfOk result (λ judged. judged.mode ≡ OWNER_ONLY) }
    ensures mode { IfOk result (λ judged. IfSome settings.entry.socket_mode (λ word. IsMode word.now judged.mode)) }
    ensures others { IfOk result (λ judged. (bound : BoundKinds)
        × ((kind : ℕ) → is_bound bound kind ≡ has_kind (sources_asked settings.entry) kind)
        × (judged.rights ≡ rights_of_others settings.entry.may_close bound)) }
{
    socket_path_asked(settings.socket, STOP_SUFFIX_LEN)?;
    if let Some(path) = settings.reader {
        socket_path_asked(path, 0)?;
    }
    let bound = kinds_bound_by(settings.writers)?;
    let reserve = number_asked(settings.reserve, DEFAULT_RESERVE)?;
    let until_free = free_asked(settings.until_free)?;
    Ok(Judged {
        idle: number_asked(settings.idle, DEFAULT_IDLE)?,
        reserve,
        kept: free_kept(reserve, until_free),
        stops_when_full: settings.until_free.is_some(),
        most: backlog_asked(settings.backlog)?,
        mode: socket_mode_asked(settings.socket_mode)?,
        rights: if settings.may_close {
            Rights::Close(bound)
        } else {
            Rights::Append(bound)
        },
        sources: settings.writers,
    })
}

// How long a client may be idle, if there is an end.
fn time_of(seconds: u64) -> Option<Duration>
    ensures { IsIdleTime seconds result }
{
    if seconds == 0 {
        return None;
    }
    Some(Duration::from_secs(seconds))
}

// Serves the store, and removes the sockets' files at the end. The store stays locked until then.
fn serve_store<F, D, O, W, M>(
    rt: &F,
    stores: &mut O,
    alloc: Global,
    store: Store<D>,
    watch: StoreWatch<'_, F>,
    sockets: &Sockets<'_>,
    judged: Judged<'_>,
    explains: bool,
    output: &mut W,
    messages: &mut Sparing<'_, M>,
    orders: &mut Option<StopOrders>,
) -> Result<(), CommandError>
where
    F: SystemFiles + PromptSockets + Clock,
    F::File: SystemFile,
    D: Sectors + Drop,
    O: Stores<Store<D>>,
    W: Write,
    M: Write,
    requires most { judged.most ≤ MAX_BACKLOG }
    requires sources { are_no_sources (words_of sockets.now.sources.now) ≡ false }
    ensures cause { IfErr result IsNoWordFault }
    ensures served { OnOk result (ServesBetween ⟦<Client as ReadyStream>⟧.calls
        ⟦<DaemonDoor<F, F::File, Sparing<'static, M>> as Door>⟧.calls IsEnding
        (IsDoorFor (rights_served sockets.now judged.entry.rights)
        (modes_at (rights_served sockets.now judged.entry.rights) judged.entry.mode)
        (ListenAt (prompt_sockets (F.sockets rt.now) (F.prompt rt.now)) judged.entry.mode (paths_served sockets.now))
        judged.entry.idle) IsTold
        (LetsGo O.calls stores.old stores.new) (judged.entry.stops_when_full ≡ true) judged.entry.reserve
        (terms_of judged.entry.sources judged.entry.kept judged.entry.stops_when_full) judged.entry.most store
        (W.contents output.old) (W.contents output.new)) }
    ensures ended { OnErr result (EndsEarly (LetsGo O.calls stores.old stores.new)
        (judged.entry.stops_when_full ≡ true) store (W.contents output.old) (W.contents output.new)) }
    ensures failed { result ≡ Err File → BindFailed (F.call_failed rt.now) (F.unprompted rt.now) F.File.facts
        ⊎ ((descriptors : List ℤ) × ListenAt (prompt_sockets (F.sockets rt.now) (F.prompt rt.now)) judged.entry.mode
        (paths_served sockets.now) descriptors) }
{
    let shared = RefCell::new(messages);
    let mut made = Made::none(alloc);
    let (store, served) = match sockets.bind(rt, alloc, judged.mode, judged.rights, &mut made) {
        Ok(listening) => serve_listening(
            rt, alloc, store, watch, listening, judged, explains, output, &shared, orders,
        ),
        Err(fault) => (store, Err(fault)),
    };
    let removed = sockets.remove(rt, made);
    let state = closed(stores, store);
    report_stopped(rt, alloc, served, removed, state, output, orders)
}

// Lets the store go, and returns its last state.
fn closed<D: Sectors, O: Stores<Store<D>>>(stores: &mut O, store: Store<D>) -> Commitment
    ensures count { result.count ≡ (active_header store).count }
    ensures root { result.root ≡ (active_header store).root }
    ensures let_go { LetsGo O.calls stores.old stores.new store }
{
    let state = store.commitment();
    stores.let_go(store);
    state
}

fn report_stopped<N: Net, W: Write>(
    rt: &N,
    alloc: Global,
    served: Result<End, CommandError>,
    removed: io::Result<()>,
    state: Commitment,
    output: &mut W,
    orders: &mut Option<StopOrders>,
) -> Result<(), CommandError>
    ensures cause { IfErr served IsNoWordFault → IfErr result IsNoWordFault }
    ensures served { OnOk result (IsOk served) }
    ensures failed { result ≡ Err File → (served ≡ Err File) ⊎ IsErr removed }
    ensures kept { OnErr served (Keeps (W.contents output.old) (W.contents output.new)) }
    ensures part { OnErr result (WritesInPart (W.contents output.old) (W.contents output.new)
        (numbered_line (word_of (end_in served)) state.count state.root)) }
    ensures written { OnOk result (Appends (W.contents output.old) (W.contents output.new)
        (numbered_line (word_of (end_in served)) state.count state.root)) }
{
    let end = served?;
    removed?;
    answer_without_room(rt, alloc, orders);
    write_state(alloc, word_of(end), &state, output)
}

// Whoever ordered the daemon to stop doesn't wait for the reader of its output longer than a second: then the orders
// are answered before the last line is written.
fn answer_without_room<N: Net>(rt: &N, alloc: Global, orders: &mut Option<StopOrders>) {
    let has_room = match Room::new(rt, alloc, OUTPUT_DESCRIPTOR) {
        Ok(mut room) => room.comes_within(Duration::from_secs(1)),
        Err(_) => false,
    };
    if has_room {
        return;
    }
    if let Some(orders) = orders.take() {
        orders.answer(Status::Done.code());
    }
}

fn serve_listening<F: SystemFiles + PromptSockets + Clock, D: Sectors + Drop, W: Write, M: Write>(
    rt: &F,
    alloc: Global,
    store: Store<D>,
    watch: StoreWatch<'_, F>,
    listening: Listening,
    judged: Judged<'_>,
    explains: bool,
    output: &mut W,
    messages: &RefCell<&mut M>,
    orders: &mut Option<StopOrders>,
) -> (Store<D>, Result<End, CommandError>)
where
    F::File: SystemFile,
    requires { judged.most ≤ MAX_BACKLOG }
    ensures cause { IfErr result.1 IsNoWordFault }
    ensures kept { StoreKeepsOn store result.0 }
    ensures part { OnErr result.1 (WritesInPart (W.contents output.old) (W.contents output.new)
        (ready_line (active_header store))) }
    ensures ready { OnOk result.1 (Appends (W.contents output.old) (W.contents output.new)
        (ready_line (active_header store))) }
    ensures served { IfOk result.1 (λ end. ServesAtDoor ⟦<Client as ReadyStream>⟧.calls
        ⟦<DaemonDoor<F, F::File, M> as Door>⟧.calls IsEnding
        (IsDoorFor (map rights_of listening.entrances.items) (map mode_of listening.entrances.items)
        (λ descriptors. descriptors ≡ map descriptor_of listening.entrances.items) judged.entry.idle) IsTold
        judged.entry.reserve (terms_of judged.entry.sources judged.entry.kept judged.entry.stops_when_full)
        judged.entry.most end store result.0) }
    ensures asked { IfOk result.1 (λ end. end ≡ End.Full → judged.entry.stops_when_full ≡ true) }
{
    let gauge = gauge_of(&watch, judged.kept, messages);
    let journal = ClientJournal::new(messages, explains);
    let watch = WatchedStore::new(watch);
    let door = match open_door(rt, alloc, listening, time_of(judged.idle), journal, watch) {
        Ok(door) => door,
        Err(fault) => return (store, Err(fault)),
    };
    let Ok(kinds) = kinds_of_sources(alloc, judged.sources) else {
        return (store, Err(CommandError::Refused(StoreError::Memory)));
    };
    let mut gauged = GaugedDoor::new(door, gauge);
    let (store, served) = serve_until_stopped(
        alloc,
        store,
        judged.kept,
        &kinds,
        judged.stops_when_full,
        judged.most,
        &mut gauged,
        output,
    );
    let closed = close_door(gauged.into_door(), orders, end_in(&served));
    let end = end_of(served, closed, has_reserve(&store, judged.reserve));
    (store, end)
}

// Returns whether the reserve is still free after the log.
fn has_reserve<D: Sectors>(store: &Store<D>, reserve: u64) -> bool
    ensures { result ≡ true → reserve ≤ free_after (active_header store.now) }
{
    store.sectors() - store.end() >= reserve
}

// The end that is reported, unless serving failed.
fn end_in(served: &Result<End, CommandError>) -> End
    ensures { result ≡ end_in served.now }
{
    match served {
        Ok(end) => *end,
        Err(_) => End::Stopped,
    }
}

// A store that was full before the reserve was free is a fault.
fn end_of(
    served: Result<End, CommandError>,
    closed: Result<(), CommandError>,
    is_spared: bool,
) -> Result<End, CommandError>
    ensures cause { IfErr served IsNoWordFault → IfErr closed IsNoWordFault → IfErr result IsNoWordFault }
    ensures end { IfOk result (λ end. (served ≡ Ok end) × IsOk closed × (end ≡ End.Full → is_spared ≡ true)) }
{
    let reached = served?;
    closed?;
    if reached == End::Full && !is_spared {
        return Err(CommandError::Refused(StoreError::Full));
    }
    Ok(reached)
}

// A gauge of the store, for the sectors beside the reserve. There is none if its file can't be opened once more.
fn gauge_of<'n, 'a, 'b, F: SystemFiles, M: Write>(
    watch: &StoreWatch<'n, F>,
    reserve: u64,
    messages: &'a RefCell<&'b mut M>,
) -> Option<Gauge<'n, 'a, 'b, F::File, M>>
where
    F::File: SystemFile,
{
    let most = watch.sectors().saturating_sub(reserve);
    Some(Gauge::new(watch.open()?, watch.path(), most, messages))
}

// The door of a daemon, with its gauge, as contracts name it.
type DaemonDoor<F, G, M> = GaugedDoor<
    'static,
    'static,
    'static,
    ServedDoor<'static, 'static, 'static, F, M>,
    G,
    M,
>;

// The door of a daemon.
type ServedDoor<'a, 'b, 'c, F, M> = ClientDoor<
    'a,
    F,
    ClientJournal<'b, 'c, M>,
    WatchedStore<'a, F>,
>;

impl<F: Clock, J: Journal + Drop, W: Watch + Drop> EndingDoor for ClientDoor<'_, F, J, W> {
    ghost use Rattle.audit_cli_daemon.specs.Gauged.{HasBegunEnd};

    ghost ending = { HasBegunEnd };

    fn begin_end(&mut self) {
        SocketDoor::begin_end(self)
    }
}

fn open_door<'a, 'b, 'c, F: Files + Net + Clock, M: Write>(
    rt: &'a F,
    alloc: Global,
    listening: Listening,
    idle: Option<Duration>,
    journal: ClientJournal<'b, 'c, M>,
    watch: WatchedStore<'a, F>,
) -> Result<ServedDoor<'a, 'b, 'c, F, M>, CommandError>
    ensures cause { IfErr result IsNoWordFault }
    ensures rights { IfOk result (λ door. rights_of_door door ≡ map rights_of listening.entrances.items) }
    ensures modes { IfOk result (λ door. modes_of_door door ≡ map mode_of listening.entrances.items) }
    ensures sockets { IfOk result (λ door. descriptors_of_door door
        ≡ map descriptor_of listening.entrances.items) }
    ensures idle { IfOk result (λ door. idle_of_door door ≡ idle) }
    ensures nobody { IfOk result (λ door. NobodyWaits (who_waits door)) }
    ensures vacant { IfOk result (λ door. IsVacant idle (places_of door)) }
    ensures in_place { IfOk result (λ door. is_replaced door ≡ false) }
    ensures works { IfOk result (λ door. has_failed door ≡ false) }
{
    let Listening { entrances, orders } = listening;
    match SocketDoor::new(rt, rt, alloc, entrances, orders, idle, journal, watch) {
        Ok(door) => Ok(door),
        Err(error) => Err(fault_of(error.kind())),
    }
}

// Takes the orders to stop, which are answered last, and prints what clients did. A store that isn't in its place is a
// fault, and so is a door that failed, or an end that nobody ordered while there was space.
fn close_door<F: Files + Clock, M: Write>(
    mut door: ServedDoor<'_, '_, '_, F, M>,
    orders: &mut Option<StopOrders>,
    end: End,
) -> Result<(), CommandError>
    ensures cause { IfErr result IsNoWordFault }
    ensures told { OnOk result (end ≡ End.Stopped → was_told door.entry ≡ true) }
{
    let was_told = door.was_told();
    let is_replaced = door.is_replaced();
    let has_failed = door.has_failed();
    let (given, mut journal) = door.close();
    *orders = Some(given);
    journal.print_counts();
    if is_replaced {
        Err(CommandError::Replaced)
    } else if has_failed || end == End::Stopped && !was_told {
        Err(CommandError::File)
    } else {
        Ok(())
    }
}
