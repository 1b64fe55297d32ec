//! A session over lines, served by a core over a store.
ghost use Rattle.std.specs.Prelude.{◌≡◌, ◌⊎◌, ◌≤◌, ◌+◌, ◌^◌, List, ℕ, length, IfSome, IfErr, OnOk, Err};
ghost use Rattle.audit_text.specs.declared.fault.LinesError.TheVariants.{Write as NotWritten, Read as NotRead};
ghost use Rattle.audit_server_commit.specs.Serving.{StoreKeepsOn};
ghost use Rattle.audit_serve_sockets.specs.Input.{SpellsInput, SpellsUpToBad};
ghost use Rattle.audit_serve_sockets.specs.Carrying.{LosesSome, client_end, server_end};
ghost use Rattle.audit_serve_sockets.specs.Looping.{AreLinePasses, IsWholeLoop};
ghost use Rattle.audit_cli_base.specs.declared.fault.CommandError.TheVariants.{File, Lines};
ghost use Rattle.audit_cli_serve.specs.declared.fault.ServingError.TheVariants.{BadFrameLine, Command};
ghost use Rattle.audit_cli_serve.specs.Served.{CutsFrameOver, LoopsOver, LoopReachesOver, StopsLoop};

use crate::fault::{ServingError, fault_of_loop, no_memory};
use audit_disk_model::Sectors;
use audit_serve_sockets::{LineInput, LineOutput, Link, TriedRead, TriedWrite, run_lines};
use audit_server::Core;
use audit_store::Store;
use std::alloc::Global;

/// Serves a session whose bytes are given as lines of hex digits, through a connection, by a core over the store. Each
/// frame of the replies is written as a line. The store is returned as the session left it.
pub fn loop_over<D, A, B, R, W>(
    alloc: Global,
    store: Store<D>,
    link: &mut Link<A, B>,
    reader: &mut R,
    writer: &mut W,
) -> (Store<D>, Result<(), ServingError>)
where
    D: Sectors + Drop,
    A: TriedRead + TriedWrite + Drop,
    B: TriedRead + TriedWrite + Drop,
    R: LineInput,
    W: LineOutput,
    // A crash at any moment keeps the events that the store held, and so does the returned store.
    ensures kept { StoreKeepsOn store result.0 }
    // If a core was made, it did steps that feed a prefix of what the first lines spell.
    ensures reached { (result.0 ≡ store) ⊎ LoopReachesOver store result.0 (R.remaining reader.old) }
    // On success each line was fed to a new core over the store and flushed, in order. Then the session was ended, and
    // the replies were written. If the reader's bytes are known, `lines` is what all their lines spell.
    ensures done { OnOk result.1 ((lines : List (List ℕ))
        × LoopsOver store result.0 (W.contents writer.old) (W.contents writer.new) (IsWholeLoop lines)
        × IfSome (R.remaining reader.old) (SpellsInput lines)) }
    // If a line spells no bytes, the replies to all earlier lines were written.
    ensures bad { (number : ℕ) → result.1 ≡ Err (BadFrameLine number)
        → (lines : List (List ℕ)) × (length lines + 1 ≡ number)
        × LoopsOver store result.0 (W.contents writer.old) (W.contents writer.new) (AreLinePasses lines)
        × IfSome (R.remaining reader.old) (SpellsUpToBad lines) }
    // The error states why serving stopped, and what a refusal states about the store holds.
    ensures fault { IfErr result.1 (StopsLoop store result.0) }
    // `File` needs a call that failed at an end of the link, bytes that were read there and weren't sent, or output of
    // the core that isn't whole frames. `Read` needs a call of the reader that failed, or as many lines as are counted;
    // `Write` a call of the writer that failed.
    ensures lost { result.1 ≡ Err (Command File)
        → LosesSome A.unwritten B.unread B.gave (client_end link.new) (server_end link.new)
        ⊎ (LosesSome B.unwritten A.unread A.gave (server_end link.new) (client_end link.new)
        ⊎ CutsFrameOver store result.0) }
    ensures unread { result.1 ≡ Err (Command (Lines NotRead)) → R.failed reader.new
        ⊎ ((lines : List (List ℕ)) × (2 ^ 64 ≤ length lines + 2)
        × LoopsOver store result.0 (W.contents writer.old) (W.contents writer.new) (AreLinePasses lines)) }
    ensures unwritten { result.1 ≡ Err (Command (Lines NotWritten)) → W.failed writer.new }
{
    let mut core = match Core::new(alloc, store) {
        Ok(core) => core,
        Err(failed) => return (failed.store, Err(no_memory())),
    };
    let done = match run_lines(alloc, &mut core, link, reader, writer) {
        Ok(()) => Ok(()),
        Err(fault) => Err(fault_of_loop(fault)),
    };
    (core.into_store(), done)
}
