ghost use Rattle.std.specs.Prelude.{◌≡◌, ◌⊎◌, ◌++◌, [], ◌∷◌, ℕ, List, map, false, IfOk, IfErr, IfSome, OnOk, OnErr};
ghost use Rattle.std.specs.Prelude.{string_bytes, codes, MatchOption};
ghost use Rattle.audit_serve_door.specs.Entrances.{rights_of, mode_of, descriptor_of};
ghost use Rattle.audit_serve_door.specs.Finishing.{descriptor_of_orders};
ghost use Rattle.audit_serve_sockets.specs.Bound.{ListensAt, IsNameGone, mode_of_name};
ghost use Rattle.audit_cli_daemon.specs.Rights.{modes_at, source_rights};
ghost use Rattle.audit_cli_daemon.specs.Sockets.{rights_served, paths_served, path_of_source, ListenAt, IsRemoved};
ghost use Rattle.audit_cli_daemon.specs.Sockets.{AreRemoved, BindFailed, IsBindFault, prompt_sockets};
ghost use Rattle.audit_cli_daemon.specs.Sources.{words_of, sources_in, are_no_sources};
ghost use Rattle.audit_cli_base.specs.declared.fault.CommandError.TheVariants.{File, Refused};
ghost use Rattle.audit_store.specs.declared.store_error.StoreError.TheVariants.{Memory};

use crate::prompt_sockets::PromptSockets;
use crate::sources::source_in;
use audit_cli_base::CommandError;
use audit_disk::{OWNER_ONLY, SystemFile};
use audit_serve_door::{ClientEntrance, Entrance, StopOrders};
use audit_serve_passes::Rights;
use audit_serve_sockets::{SocketFile, SocketLock, SocketName, SystemSockets};
use audit_store::StoreError;
use std::alloc::{AllocError, Global};
use std::io::{self, ErrorKind};

// What follows a socket's path in the path of the socket for stop orders.
const STOP_SUFFIX: &str = ".stop";

/// The length of what follows a socket's path in that of the socket for stop orders.
pub const STOP_SUFFIX_LEN: usize = 5;

/// The paths of a daemon's sockets.
#[derive(Drop)]
pub struct Sockets<'a> {
    clients: &'a str,
    readers: Option<&'a str>,
    // The words for the sources.
    sources: &'a [&'a str],
    stop: String,
}

/// The sockets, which listen.
#[derive(Drop)]
pub struct Listening {
    /// Where clients come in.
    pub entrances: Vec<ClientEntrance>,
    /// Where orders to stop come in.
    pub orders: StopOrders,
}

// A socket's file that was made, and its lock.
#[derive(Drop)]
struct MadeSocket<'a, F> {
    path: &'a str,
    name: SocketName,
    lock: SocketLock<F>,
}

/// The sockets' files that were made, and their locks.
#[derive(Drop)]
pub struct Made<'a, F> {
    // That of the clients comes first.
    sockets: Vec<MadeSocket<'a, F>>,
    stop: Option<SocketName>,
}

/// The path of the socket for stop orders, which is beside the clients' socket.
pub fn stop_path(alloc: Global, socket: &str) -> Result<String, AllocError>
    ensures { IfOk result (λ path. string_bytes path ≡ socket.now ++ codes ".stop") }
{
    format!(in alloc; "{socket}{STOP_SUFFIX}")
}

impl<'a, F: SystemFile> Made<'a, F> {
    /// No file, before the first is made.
    pub fn none(alloc: Global) -> Made<'a, F> {
        Made {
            sockets: Vec::new(alloc),
            stop: None,
        }
    }
}

impl<'a, F: SystemFile> MadeSocket<'a, F> {
    // Removes the file, and then its lock, as far as they are still this program's. The first error is returned, after
    // both were tried.
    fn remove<R: SystemSockets<File = F>>(self, rt: &R) -> io::Result<()>
        ensures gone { OnOk result (IsRemoved (R.sockets rt.now) self.entry) }
        ensures failed { OnErr result (R.call_failed rt.now) }
    {
        let removed = self.name.remove(rt, self.path);
        removed.and(self.lock.remove(rt))
    }
}

impl<'a> Sockets<'a> {
    /// The paths of the sockets for clients, for those that only read, for those of the sources that these words ask
    /// for, and for stop orders.
    pub fn new(
        alloc: Global,
        clients: &'a str,
        readers: Option<&'a str>,
        sources: &'a [&'a str],
    ) -> Result<Sockets<'a>, AllocError>
        ensures clients { IfOk result (λ sockets. sockets.clients ≡ clients.entry) }
        ensures readers { IfOk result (λ sockets. sockets.readers ≡ readers.entry) }
        ensures sources { IfOk result (λ sockets. sockets.sources ≡ sources.entry) }
        ensures stop { IfOk result (λ sockets. string_bytes sockets.stop ≡ clients.now ++ codes ".stop") }
    {
        Ok(Sockets {
            clients,
            readers,
            sources,
            stop: stop_path(alloc, clients)?,
        })
    }

    /// Makes the sockets' files, those for clients with this mode. What was made is noted in `made`, whatever happens,
    /// and has to be removed in the end. It fails only if a call failed, or memory was refused.
    pub fn bind<R: PromptSockets>(
        &self,
        rt: &R,
        alloc: Global,
        mode: u32,
        rights: Rights,
        made: &mut Made<'a, R::File>,
    ) -> Result<Listening, CommandError>
    where
        R::File: SystemFile,
        requires { are_no_sources (words_of self.now.sources.now) ≡ false }
        // Whoever comes by the readers' socket only reads, and whoever comes by a source's appends its kind; the others
        // have these rights.
        ensures rights { IfOk result (λ listening. map rights_of listening.entrances.items
            ≡ rights_served self.now rights) }
        ensures modes { IfOk result (λ listening. map mode_of listening.entrances.items
            ≡ modes_at (rights_served self.now rights) mode) }
        // Each listens at its own path, and accepting there doesn't wait.
        ensures listen { IfOk result (λ listening. ListenAt (prompt_sockets (R.sockets rt.now) (R.prompt rt.now)) mode
            (paths_served self.now) (map descriptor_of listening.entrances.items)) }
        // So does the socket on which orders to stop come, at the path beside that of the clients, for the owner alone.
        ensures stop { IfOk result (λ listening. ListensAt (prompt_sockets (R.sockets rt.now) (R.prompt rt.now))
            (string_bytes self.now.stop) OWNER_ONLY (descriptor_of_orders listening.orders)) }
        ensures stop_mode { OnOk result (MatchOption made.new.stop ⊥ (λ name. mode_of_name name ≡ OWNER_ONLY)) }
        ensures fault { IfErr result
            (IsBindFault (BindFailed (R.call_failed rt.now) (R.unprompted rt.now) R.File.facts)) }
    {
        let clients = open_entrance(rt, alloc, self.clients, mode, rights, &mut made.sockets)?;
        let orders = self.bind_stop(rt, alloc, made)?;
        let mut entrances = Vec::new(alloc);
        if let Some(path) = self.readers {
            let readers = open_entrance(rt, alloc, path, mode, Rights::Read, &mut made.sockets)?;
            push(&mut entrances, readers)?;
        }
        self.bind_sources(rt, alloc, mode, &mut made.sockets, &mut entrances)?;
        push(&mut entrances, clients)?;
        Ok(Listening { entrances, orders })
    }

    // The lock of the clients' socket covers it.
    fn bind_stop<R: PromptSockets>(
        &self,
        rt: &R,
        alloc: Global,
        made: &mut Made<'a, R::File>,
    ) -> Result<StopOrders, CommandError>
    where
        R::File: SystemFile,
        ensures listens { IfOk result (λ orders. ListensAt (prompt_sockets (R.sockets rt.now) (R.prompt rt.now))
            (string_bytes self.now.stop) OWNER_ONLY (descriptor_of_orders orders)) }
        ensures mode { OnOk result (MatchOption made.new.stop ⊥ (λ name. mode_of_name name ≡ OWNER_ONLY)) }
        ensures fault { IfErr result
            (IsBindFault (BindFailed (R.call_failed rt.now) (R.unprompted rt.now) R.File.facts)) }
    {
        let path = self.stop.as_str();
        let lock = made.sockets.first().map(|clients| &clients.lock);
        let bound = match SocketFile::bind_beside(rt, alloc, path, OWNER_ONLY, lock) {
            Ok(bound) => bound,
            Err(error) => return Err(fault_of(error.kind())),
        };
        let (listener, name) = bound.into_parts();
        made.stop = Some(name);
        match StopOrders::new(rt, alloc, listener) {
            Ok(orders) => Ok(orders),
            Err(error) => Err(fault_of(error.kind())),
        }
    }

    // The words were judged, so each of them asks for a source.
    fn bind_sources<R: PromptSockets>(
        &self,
        rt: &R,
        alloc: Global,
        mode: u32,
        made: &mut Vec<MadeSocket<'a, R::File>>,
        entrances: &mut Vec<ClientEntrance>,
    ) -> Result<(), CommandError>
    where
        R::File: SystemFile,
        requires { are_no_sources (words_of self.now.sources.now) ≡ false }
        ensures rights { OnOk result (map rights_of entrances.new.items ≡ map rights_of entrances.old.items
            ++ map source_rights (sources_in (words_of self.now.sources.now))) }
        ensures modes { OnOk result (map mode_of entrances.new.items ≡ map mode_of entrances.old.items
            ++ map (λ source. mode) (sources_in (words_of self.now.sources.now))) }
        ensures listen { OnOk result ((paths : List (List ℕ))
            → ListenAt (prompt_sockets (R.sockets rt.now) (R.prompt rt.now)) mode paths
            (map descriptor_of entrances.old.items)
            → ListenAt (prompt_sockets (R.sockets rt.now) (R.prompt rt.now)) mode
            (paths ++ map path_of_source (sources_in (words_of self.now.sources.now)))
            (map descriptor_of entrances.new.items)) }
        ensures fault { IfErr result
            (IsBindFault (BindFailed (R.call_failed rt.now) (R.unprompted rt.now) R.File.facts)) }
    {
        for word in self.sources {
            let Some(source) = source_in(word) else {
                return Err(CommandError::BadArgument);
            };
            let rights = Rights::Source(source.kind);
            let entrance = open_entrance(rt, alloc, source.path, mode, rights, made)?;
            push(entrances, entrance)?;
        }
        Ok(())
    }

    /// Removes the sockets' files that were made, and their locks, as far as they are still this program's. The first
    /// error is returned, after all were tried.
    pub fn remove<R: SystemSockets>(&self, rt: &R, made: Made<'a, R::File>) -> io::Result<()>
    where
        R::File: SystemFile,
        ensures gone { OnOk result (AreRemoved (R.sockets rt.now) made.entry.sockets.items) }
        ensures stop { OnOk result (IfSome made.entry.stop (IsNameGone (R.sockets rt.now) (string_bytes self.now.stop))) }
        ensures failed { OnErr result (R.call_failed rt.now) }
    {
        let Made { sockets, stop } = made;
        let removed = match stop {
            Some(name) => name.remove(rt, self.stop.as_str()),
            None => Ok(()),
        };
        removed.and(remove_all(rt, sockets))
    }
}

// Removes all of these. The first error is returned, after all were tried.
fn remove_all<R: SystemSockets>(rt: &R, sockets: Vec<MadeSocket<'_, R::File>>) -> io::Result<()>
where
    R::File: SystemFile,
    ensures gone { OnOk result (AreRemoved (R.sockets rt.now) sockets.entry.items) }
    ensures failed { OnErr result (R.call_failed rt.now) }
{
    let mut removed = Ok(());
    for socket in sockets {
        removed = removed.and(socket.remove(rt));
    }
    removed
}

// Makes the file of a socket, whose clients have these rights, and listens. What was made is noted.
fn open_entrance<'a, R: PromptSockets>(
    rt: &R,
    alloc: Global,
    path: &'a str,
    mode: u32,
    rights: Rights,
    made: &mut Vec<MadeSocket<'a, R::File>>,
) -> Result<ClientEntrance, CommandError>
where
    R::File: SystemFile,
    ensures rights { IfOk result (λ entrance. rights_of entrance ≡ rights) }
    ensures mode { IfOk result (λ entrance. mode_of entrance ≡ mode) }
    ensures listens { IfOk result (λ entrance. ListensAt (prompt_sockets (R.sockets rt.now) (R.prompt rt.now))
        path.now mode (descriptor_of entrance)) }
    ensures fault { IfErr result (IsBindFault (BindFailed (R.call_failed rt.now) (R.unprompted rt.now) R.File.facts)) }
{
    made.reserve(1)?;
    let (bound, lock) = match SocketFile::bind(rt, alloc, path, mode) {
        Ok(bound) => bound,
        Err(error) => return Err(fault_of(error.kind())),
    };
    let (listener, name) = bound.into_parts();
    let mode = name.mode();
    made.push_reserved(MadeSocket { path, name, lock });
    match Entrance::new(rt, listener, rights, mode) {
        Ok(entrance) => Ok(entrance),
        Err(error) => Err(fault_of(error.kind())),
    }
}

// Appends an entrance.
fn push(entrances: &mut Vec<ClientEntrance>, one: ClientEntrance) -> Result<(), AllocError>
    ensures items { OnOk result (entrances.new.items ≡ entrances.old.items ++ one ∷ []) }
{
    Ok(entrances.push(one)?)
}

/// The error of a command for one of the system.
pub(crate) fn fault_of(kind: ErrorKind) -> CommandError
    ensures fault { (result ≡ File) ⊎ (result ≡ Refused Memory) }
    ensures memory { kind ≡ ErrorKind.OutOfMemory → result ≡ Refused Memory }
{
    if kind == ErrorKind::OutOfMemory {
        CommandError::Refused(StoreError::Memory)
    } else {
        CommandError::File
    }
}
