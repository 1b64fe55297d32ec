//! A log that is read on, by the bookmark in a file.
ghost use Rattle.std.specs.Prelude.{◌≡◌, List, [], ◌∷◌, Option, Some, false, Result, Err, IfErr, IfSome, OnOk, OnErr};
ghost use Rattle.audit_cli_connection.specs.declared.fault.RemoteError.{RemoteError};
ghost use Rattle.audit_cli_connection.specs.Faults.{is_passing_fault};
ghost use Rattle.audit_cli_base.specs.declared.fault.CommandError.TheVariants.{BadArgument};
ghost use Rattle.audit_cli_connection.specs.declared.fault.RemoteError.TheVariants.{Command};
ghost use Rattle.audit_cli_connection.specs.ServerCalls.{a_reading, a_rest, IsUnfitReading};
ghost use Rattle.audit_cli_client.specs.ReadingTask.{ReadsToTheEnd, FollowsReading};

use audit_cli_connection::{ReadTask, RemoteError, Servers, report_passing, report_return};
use audit_wire_ask::FallibleWrite;
use httpdate::HttpDate;
use std::alloc::Global;

/// Reads on again and again, pausing for `every` seconds after each time. A server that isn't there, or doesn't answer,
/// is reported once until something else happens, and so is its return. What isn't such a fault ends it.
pub fn read_for_ever<F: Servers, W: FallibleWrite, M: FallibleWrite>(
    servers: &mut F,
    alloc: Global,
    task: ReadTask<'_>,
    every: u64,
    output: &mut W,
    messages: &mut M,
) -> Result<(), RemoteError>
    ensures read { ReadsToTheEnd F.calls task.entry every servers.old servers.new (W.contents output.old)
        (W.contents output.new) result }
    ensures bad { result ≡ Err (Command BadArgument) → IsUnfitReading (F.files servers.new) task.entry }
{
    let mut reported = None;
    for times in 0..u64::MAX {
        reported = read_and_pause(servers, alloc, task, every, reported, output, messages)?;
    }
    Ok(())
}

// Reads on once more, and pauses. Returns what was reported of a server that isn't there.
fn read_and_pause<F: Servers, W: FallibleWrite, M: FallibleWrite>(
    servers: &mut F,
    alloc: Global,
    task: ReadTask<'_>,
    every: u64,
    reported: Option<RemoteError>,
    output: &mut W,
    messages: &mut M,
) -> Result<Option<RemoteError>, RemoteError>
    ensures on { OnOk result ((done : Result (Unit {0}) RemoteError) × (mid : F)
        × F.calls.DidCalls servers.old mid
        (a_reading task.entry (W.contents output.old) (W.contents output.new) done ∷ [])
        × F.calls.DidCalls mid servers.new (a_rest every ∷ []) × FollowsReading done result) }
    ensures last { OnErr result ((done : Result (Unit {0}) RemoteError)
        × F.calls.DidCalls servers.old servers.new
        (a_reading task.entry (W.contents output.old) (W.contents output.new) done ∷ []) × FollowsReading done result) }
    ensures ends { IfErr result (λ fault. is_passing_fault fault ≡ false) }
    ensures bad { result ≡ Err (Command BadArgument) → IsUnfitReading (F.files servers.new) task.entry }
{
    let done = servers.read(alloc, task, output, messages);
    let date = servers.date();
    match follow_reading(alloc, date, task, reported, done, messages) {
        Ok(reported) => {
            servers.pause(every);
            Ok(reported)
        }
        Err(fault) => Err(fault),
    }
}

// Reports why reading failed, unless that was reported. Returns what was reported, if it is to be tried again: of a
// server that isn't there or doesn't answer, or a file that another reader has.
fn follow_reading<M: FallibleWrite>(
    alloc: Global,
    date: Option<HttpDate>,
    task: ReadTask<'_>,
    reported: Option<RemoteError>,
    done: Result<(), RemoteError>,
    messages: &mut M,
) -> Result<Option<RemoteError>, RemoteError>
    ensures follows { FollowsReading done result }
    ensures ends { IfErr result (λ fault. is_passing_fault fault ≡ false) }
{
    match done {
        Ok(()) => {
            report_return(alloc, date, task.socket, reported, messages);
            Ok(None)
        }
        Err(fault) if fault.is_passing() => {
            if reported != Some(fault) {
                report_passing(alloc, date, task.socket, task.state, fault, messages);
            }
            Ok(Some(fault))
        }
        Err(fault) => Err(fault),
    }
}
