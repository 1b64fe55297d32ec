//! Rounds of serving, each by a new core over the same store.
ghost use Rattle.std.specs.Prelude.{◌≡◌, ◌⊎◌, ◌≤◌, List, ℕ, length, Err, IfOk, IfErr, OnOk, OnErr};
ghost use Rattle.audit_text.specs.declared.fault.LinesError.TheVariants.{Write as NotWritten};
ghost use Rattle.std.specs.Io.KnownBytes.{Appends};
ghost use Rattle.audit_base.specs.declared.limits.TheConstants.{SESSIONS};
ghost use Rattle.audit_server_commit.specs.Serving.{StoreKeepsOn};
ghost use Rattle.audit_cli_serve.specs.Rounds.{round_lines};
ghost use Rattle.audit_store.specs.declared.store_error.StoreError.TheVariants.{Memory};
ghost use Rattle.audit_cli_base.specs.declared.fault.CommandError.TheVariants.{File, Lines, Refused};
ghost use Rattle.audit_cli_serve.specs.declared.fault.ServingError.TheVariants.{Command};
ghost use Rattle.audit_cli_serve.specs.Served.{ServesRound, ServesRounds, ReachesByRound, ReachesByRounds, StopsRound};
ghost use Rattle.audit_cli_serve.specs.Served.{StopsRounds, AreAccepted, AreLetGo, IsNotBegun};

use crate::fault::{ServingError, fault_of_serving, no_memory};
use audit_disk_model::Sectors;
use audit_serve_passes::{Duplex, DuplexStream, serve};
use audit_serve_sockets::{LineOutput, Listener, SystemSockets, write_round};
use audit_server::Core;
use audit_store::Store;
use std::alloc::Global;

/// Serves the requested number of rounds. Each round accepts the requested number of connections, and a new core over
/// the store serves them until the last one has ended. After each round a line is written with its number, counted
/// from 1, and the number of its passes.
///
/// Every connection that is accepted is one of a round, and is served in it, unless the round can't begin. The store is
/// returned as the rounds left it. A fault in a round ends serving, and that round has no line.
pub fn serve_rounds<F, D, T, L, W>(
    rt: &F,
    alloc: Global,
    store: Store<D>,
    socket: &mut L,
    rounds: u64,
    sessions: usize,
    writer: &mut W,
) -> (Store<D>, Result<(), ServingError>)
where
    F: SystemSockets,
    D: Sectors + Drop,
    T: Duplex + Drop,
    L: Listener<T>,
    W: LineOutput,
    requires { sessions ≤ SESSIONS }
    // Whatever happens, a stop at any moment keeps the events that the store held, and so does the returned store.
    ensures kept { StoreKeepsOn store result.0 }
    // On success each round was served and has its line. A new core served it, over the store that the previous round
    // left, through calls of all connections that the socket accepted for it.
    ensures served { OnOk result.1 ((turns : List ℕ) × (length turns ≡ rounds)
        × ServesRounds T.calls L.model sessions turns store result.0 socket.old socket.new
        × Appends (W.contents writer.old) (W.contents writer.new) (round_lines 1 turns)) }
    // On an error some rounds were served, and some steps of one more were done.
    ensures stopped { OnErr result.1 ((turns : List ℕ)
        × ReachesByRounds T.calls L.model sessions turns store result.0 socket.old socket.new) }
    // The error states why serving stopped, and what a refusal states about the store holds. Each round that was served
    // has its line, except that the last one may be cut off: then nothing more is written.
    ensures fault { IfErr result.1 (λ fault. (text : List ℕ)
        × Appends (W.contents writer.old) (W.contents writer.new) text
        × StopsRounds T.calls L.model sessions store result.0 socket.old socket.new text fault) }
    // `File` needs a call of the system that failed, and `Write` a call of the writer.
    ensures unaccepted { result.1 ≡ Err (Command File) → F.call_failed rt.now }
    ensures unwritten { result.1 ≡ Err (Command (Lines NotWritten)) → W.failed writer.new }
{
    let mut store = store;
    for round in 0..rounds {
        let (kept, served) = serve_round(rt, alloc, store, socket, sessions);
        store = kept;
        let turns = match served {
            Ok(turns) => turns,
            Err(fault) => return (store, Err(fault)),
        };
        if let Err(fault) = write_round(alloc, round + 1, turns, writer) {
            return (store, Err(fault.into()));
        }
    }
    (store, Ok(()))
}

// Waits for the requested number of connections, in order of arrival. Memory for all of them is reserved first, so
// that refused memory isn't reported as a fault of the socket.
fn accept_streams<F: SystemSockets, T: Duplex + Drop, L: Listener<T>>(
    rt: &F,
    alloc: Global,
    socket: &mut L,
    count: usize,
) -> Result<Vec<DuplexStream<T>>, ServingError>
    ensures accepted { IfOk result (λ streams. AreAccepted L.model count socket.old socket.new streams.items) }
    ensures gone { OnErr result (AreLetGo L.model count socket.old socket.new) }
    ensures fault { IfErr result (λ fault. (fault ≡ Command (Refused Memory)) ⊎ (fault ≡ Command File)) }
    ensures unaccepted { result ≡ Err (Command File) → F.call_failed rt.now }
{
    let Ok(mut streams) = Vec::with_capacity(alloc, count) else {
        return Err(no_memory());
    };
    for _ in 0..count {
        streams.push_reserved(DuplexStream::new(socket.next_connection(rt)?));
    }
    Ok(streams)
}

// Serves one round. Returns the store and the number of passes.
fn serve_round<F: SystemSockets, D: Sectors + Drop, T: Duplex + Drop, L: Listener<T>>(
    rt: &F,
    alloc: Global,
    store: Store<D>,
    socket: &mut L,
    sessions: usize,
) -> (Store<D>, Result<u64, ServingError>)
    requires { sessions ≤ SESSIONS }
    ensures kept { StoreKeepsOn store result.0 }
    ensures served { IfOk result.1 (λ turns. ServesRound T.calls L.model sessions turns store result.0
        socket.old socket.new) }
    ensures reached { IsNotBegun T.calls L.model sessions store result.0 socket.old socket.new
        ⊎ ReachesByRound T.calls L.model sessions store result.0 socket.old socket.new }
    ensures fault { IfErr result.1 (StopsRound T.calls L.model sessions store result.0 socket.old socket.new) }
    ensures unaccepted { result.1 ≡ Err (Command File) → F.call_failed rt.now }
{
    let mut streams = match accept_streams(rt, alloc, socket, sessions) {
        Ok(streams) => streams,
        Err(refusal) => return (store, Err(refusal)),
    };
    let mut core = match Core::new(alloc, store) {
        Ok(core) => core,
        Err(failed) => return (failed.store, Err(no_memory())),
    };
    let end = serve(&mut core, &mut streams);
    let served = match end.fault {
        None => Ok(end.turns),
        Some(fault) => Err(fault_of_serving(fault)),
    };
    (core.into_store(), served)
}
