//! A witness of a log, which keeps what it sees in a file.
ghost use Rattle.std.specs.Prelude.{◌≡◌, ◌++◌, List, [], ◌∷◌, Result, Err, false, codes, Some};
ghost use Rattle.std.specs.Prelude.{IfErr, OnOk, OnErr};
ghost use Rattle.std.specs.Io.KnownBytes.{Appends};
ghost use Rattle.audit_wire_ask.specs.declared.watching.Sight.{Sight};
ghost use Rattle.audit_cli_connection.specs.declared.fault.RemoteError.{RemoteError};
ghost use Rattle.audit_cli_connection.specs.Faults.{is_passing_fault, IsNoBadArgument};
ghost use Rattle.audit_cli_connection.specs.ServerCalls.{a_look, a_rest};
ghost use Rattle.audit_cli_witness.specs.Looking.{sight_line, change_line, FollowsLook, PrintsLook, FailsToPrint};
ghost use Rattle.audit_cli_witness.specs.Looking.{SaysPassing, SaysReturn};
ghost use Rattle.audit_cli_connection.specs.declared.fault.RemoteError.TheVariants.{StateInUse};
ghost use Rattle.audit_cli_witness.specs.Locking.{IsInUse};
ghost use Rattle.audit_cli_witness.specs.Looks.{LooksOnce, LooksToTheEnd};
ghost use Rattle.audit_cli_witness.specs.State.{commitment_word};

use crate::alarm_file::keep_alarm;
use crate::beginning::begin_after;
use crate::look_error::fault_of_look;
use crate::state_file::StateFile;
use crate::state_lines::push_commitment_line;
use crate::state_lock::{Locked, lock_state, remove_made};
use crate::state_text::{StateAt, StateText};
use crate::witnessed::witnessed_at;
use audit_cli_base::CommandError;
use audit_cli_connection::{
    Dialing, LineEnd, Pace, Post, RemoteError, Servers, connect, report_passing, report_return,
    socket_identity,
};
use audit_disk::{SystemFile, SystemFiles};
use audit_proof::Commitment;
use audit_text::read_input;
use audit_wire_ask::{FallibleWrite, Kept, Sight, watch_and_keep};
use httpdate::HttpDate;
use std::alloc::Global;
use std::fs::{self, Files};
use std::io::BufReader;
use std::time::Clock;

/// Looks once, and prints what was seen.
pub fn watch_once<F: Servers, W: FallibleWrite>(
    servers: &mut F,
    alloc: Global,
    post: Post<'_>,
    output: &mut W,
) -> Result<(), RemoteError>
    ensures looked { LooksOnce F.calls post.entry servers.old servers.new (W.contents output.old) (W.contents
        output.new)
        (W.failed output.new) result }
    ensures bad { IfErr result IsNoBadArgument }
{
    let looked = servers.look(alloc, post);
    print_look(alloc, looked, post.is_quiet, output)
}

// Prints what a look saw, or passes its fault on.
fn print_look<W: FallibleWrite>(
    alloc: Global,
    looked: Result<Sight, RemoteError>,
    is_quiet: bool,
    output: &mut W,
) -> Result<(), RemoteError>
    ensures printed { PrintsLook is_quiet looked (W.contents output.old) (W.contents output.new) (W.failed output.new)
        result }
    ensures bad { IfErr looked IsNoBadArgument → IfErr result IsNoBadArgument }
{
    match looked {
        Ok(sight) => print_sight(alloc, sight, is_quiet, output),
        Err(fault) => Err(fault),
    }
}

/// Looks again and again, pausing for `every` seconds after each look, and prints what has changed. A server that
/// isn't there, or doesn't answer, is reported once until something else is seen, and so is its return. What isn't such
/// a fault ends it: a judgment of the log, and an output that can't be written.
pub fn watch_for_ever<F: Servers, W: FallibleWrite, M: FallibleWrite>(
    servers: &mut F,
    alloc: Global,
    post: Post<'_>,
    every: u64,
    output: &mut W,
    messages: &mut M,
) -> Result<(), RemoteError>
    ensures looked { LooksToTheEnd F.calls post.entry every servers.old servers.new (W.contents output.old)
        (W.contents output.new) (W.failed output.new) result }
    // No fault says that an argument is bad.
    ensures bad { IfErr result IsNoBadArgument }
{
    let mut reported = None;
    for looks in 0..u64::MAX {
        reported = look_and_pause(servers, alloc, post, every, reported, output, messages)?;
    }
    Ok(())
}

// Looks once more, and pauses before the next look. Returns what was reported of a server that isn't there.
fn look_and_pause<F: Servers, W: FallibleWrite, M: FallibleWrite>(
    servers: &mut F,
    alloc: Global,
    post: Post<'_>,
    every: u64,
    reported: Option<RemoteError>,
    output: &mut W,
    messages: &mut M,
) -> Result<Option<RemoteError>, RemoteError>
    ensures on { OnOk result ((saw : Result Sight RemoteError) × (mid : F)
        × F.calls.DidCalls servers.old mid (a_look post.entry saw ∷ [])
        × F.calls.DidCalls mid servers.new (a_rest every ∷ [])
        × FollowsLook post.entry.is_quiet saw (W.contents output.old) (W.contents output.new)
        (W.failed output.new) result) }
    ensures last { OnErr result ((saw : Result Sight RemoteError)
        × F.calls.DidCalls servers.old servers.new (a_look post.entry saw ∷ [])
        × FollowsLook post.entry.is_quiet saw (W.contents output.old) (W.contents output.new)
        (W.failed output.new) result) }
    ensures ends { IfErr result (λ fault. is_passing_fault fault ≡ false) }
    ensures bad { IfErr result IsNoBadArgument }
{
    match look_again(servers, alloc, post, reported, output, messages) {
        Ok(reported) => {
            servers.pause(every);
            Ok(reported)
        }
        Err(fault) => Err(fault),
    }
}

// Looks once more. Returns what was reported of a server that isn't there.
fn look_again<F: Servers, W: FallibleWrite, M: FallibleWrite>(
    servers: &mut F,
    alloc: Global,
    post: Post<'_>,
    reported: Option<RemoteError>,
    output: &mut W,
    messages: &mut M,
) -> Result<Option<RemoteError>, RemoteError>
    ensures looked { (saw : Result Sight RemoteError)
        × F.calls.DidCalls servers.old servers.new (a_look post.entry saw ∷ [])
        × FollowsLook post.entry.is_quiet saw (W.contents output.old) (W.contents output.new)
        (W.failed output.new) result }
    ensures ends { IfErr result (λ fault. is_passing_fault fault ≡ false) }
    ensures bad { IfErr result IsNoBadArgument }
{
    let looked = servers.look(alloc, post);
    let date = servers.date();
    follow_look(alloc, date, post, reported, looked, output, messages)
}

/// Prints what a look saw, or reports why it failed, unless that was reported. Returns what was reported, if the next
/// look is to follow: of a server that isn't there or doesn't answer, or a file that another witness looks by. Reports
/// have this date.
pub fn follow_look<W: FallibleWrite, M: FallibleWrite>(
    alloc: Global,
    date: Option<HttpDate>,
    post: Post<'_>,
    reported: Option<RemoteError>,
    looked: Result<Sight, RemoteError>,
    output: &mut W,
    messages: &mut M,
) -> Result<Option<RemoteError>, RemoteError>
    ensures follows { FollowsLook post.entry.is_quiet looked (W.contents output.old) (W.contents output.new)
        (W.failed output.new) result }
    ensures ends { IfErr result (λ fault. is_passing_fault fault ≡ false) }
    ensures bad { IfErr looked IsNoBadArgument → IfErr result IsNoBadArgument }
    // A passing fault is said unless it was reported. No other fault is said here.
    ensures said { SaysPassing (λ fault. ⟦<Option<RemoteError> as PartialEq>⟧.eq reported (Some fault)) looked
        (M.contents messages.old) (M.contents messages.new) (M.failed messages.new) }
    ensures returned { SaysReturn reported date looked (M.contents messages.old) (M.contents messages.new)
        (M.failed messages.new) }
{
    match looked {
        Ok(sight) => {
            report_return(alloc, date, post.socket, reported, messages);
            print_change(alloc, sight, post.is_quiet, output)?;
            Ok(None)
        }
        Err(fault) if fault.is_passing() => {
            if reported != Some(fault) {
                report_passing(alloc, date, post.socket, post.state, fault, messages);
            }
            Ok(Some(fault))
        }
        Err(fault) => Err(fault),
    }
}

// Prints what was seen, unless it is the same.
fn print_change<W: FallibleWrite>(
    alloc: Global,
    sight: Sight,
    is_quiet: bool,
    output: &mut W,
) -> Result<(), RemoteError>
    ensures printed { OnOk result (Appends (W.contents output.old) (W.contents output.new)
        (change_line is_quiet sight)) }
    ensures fault { IfErr result (λ fault. is_passing_fault fault ≡ false) }
    ensures unprinted { IfErr result (FailsToPrint (W.failed output.new)) }
{
    if let Sight::Same(_) = sight {
        return Ok(());
    }
    print_sight(alloc, sight, is_quiet, output)?;
    Ok(output.flush_text()?)
}

/// Looks by the file, which is locked meanwhile. One that was made for a look that kept nothing is removed. What
/// contradicts it is kept beside it.
pub fn look_by_file<F: SystemFiles + Dialing + Clock>(
    rt: &F,
    alloc: Global,
    post: Post<'_>,
) -> Result<Sight, RemoteError>
where
    F::File: SystemFile,
    // The file is in use only if a call that locks it failed, and the seconds are over.
    ensures in_use { result ≡ Err StateInUse → IsInUse F.File.facts (F.dials rt.now).read post.entry.seconds }
{
    socket_identity(rt, post.socket)?;
    let Locked { file, is_made } = lock_state(rt, post.state, post.seconds)?;
    let text = StateAt {
        rt,
        path: post.state,
        file,
    };
    let mut kept = StateFile::read(alloc, text)?;
    let sight = look_on(rt, alloc, post, &mut kept);
    if is_made && sight.is_err() {
        remove_made(rt, post.state);
    }
    match sight {
        Err(RemoteError::Contradicted(mut found)) => {
            found.is_kept = keep_alarm(rt, alloc, post.state, &found).is_ok();
            Err(RemoteError::Contradicted(found))
        }
        // It is locked by now.
        Err(RemoteError::StateInUse) => Err(RemoteError::Command(CommandError::File)),
        other => other,
    }
}

// Begins a file without a line by the log before, if one is named, and looks.
fn look_on<F: Files + Dialing + Clock, T: StateText>(
    rt: &F,
    alloc: Global,
    post: Post<'_>,
    kept: &mut StateFile<T>,
) -> Result<Sight, RemoteError> {
    if let Some(before) = post.before
        && kept.newest().is_none()
    {
        let old = witnessed_at(rt, alloc, before.state)?;
        if !fs::metadata(rt, before.link)?.is_file() {
            return Err(RemoteError::Command(CommandError::File));
        }
        let link = read_input(alloc, &mut fs::open(rt, before.link)?)?;
        begin_after(alloc, &old, &link, kept)?;
    }
    look_and_keep(rt, alloc, post, kept)
}

fn look_and_keep<F: Dialing + Clock, K: Kept<Error = RemoteError>>(
    rt: &F,
    alloc: Global,
    post: Post<'_>,
    kept: &mut K,
) -> Result<Sight, RemoteError> {
    let line = connect(rt, post.socket, post.seconds, Pace::Question)?;
    let mut to = LineEnd::of(&line);
    let mut from = BufReader::new(alloc, LineEnd::of(&line))?;
    match watch_and_keep(alloc, &mut to, &mut from, kept) {
        Ok(sight) => Ok(sight),
        Err(error) => Err(fault_of_look(kept.newest(), error)),
    }
}

// Prints the line of what was seen; a quiet witness prints only its first commitment.
fn print_sight<W: FallibleWrite>(
    alloc: Global,
    sight: Sight,
    is_quiet: bool,
    output: &mut W,
) -> Result<(), RemoteError>
    ensures printed { OnOk result (Appends (W.contents output.old) (W.contents output.new)
        (sight_line is_quiet sight)) }
    ensures fault { IfErr result (λ fault. is_passing_fault fault ≡ false) }
    ensures unprinted { IfErr result (FailsToPrint (W.failed output.new)) }
{
    match sight {
        Sight::Began(seen) => print_seen(alloc, b"began ", &seen, output),
        Sight::Same(_) => {
            if is_quiet {
                return Ok(());
            }
            Ok(output.write_text(b"same\n")?)
        }
        Sight::Grew(seen) => {
            if is_quiet {
                return Ok(());
            }
            print_seen(alloc, b"grew ", &seen, output)
        }
    }
}

fn print_seen<W: FallibleWrite>(
    alloc: Global,
    word: &[u8],
    seen: &Commitment,
    output: &mut W,
) -> Result<(), RemoteError>
    ensures printed { OnOk result (Appends (W.contents output.old) (W.contents output.new)
        (word.now ++ commitment_word seen.now ++ codes "\n")) }
    ensures fault { IfErr result (λ fault. is_passing_fault fault ≡ false) }
    ensures unprinted { IfErr result (FailsToPrint (W.failed output.new)) }
{
    let mut line = Vec::from_slice(alloc, word)?;
    push_commitment_line(&mut line, seen)?;
    Ok(output.write_text(&line)?)
}
