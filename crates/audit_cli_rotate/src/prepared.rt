//! The request to rotate a log to a store that was prepared, and how it is carried out.
ghost use Rattle.std.specs.Prelude.{◌≡◌, ◌⊎◌, List};
ghost use Rattle.audit_cli_calls.specs.StoreCalls.{StoreCall};
ghost use Rattle.audit_cli_rotate.specs.PreparedCarried.{prepared_end_status, IsPreparedCarriedOut, IsPreparedDone};
ghost use Rattle.audit_cli_rotate.specs.PreparedCarried.{OpensNext};

use crate::file_names::FileNames;
use crate::files::{identity_if_any, is_same_file};
use crate::joined::join_prepared;
use crate::prepared_error::PreparedError;
use audit_cli_base::{CommandError, FileStore, Status, report_flush};
use audit_cli_calls::{FlushedOutput, Stores};
use audit_disk::SystemFile;
use audit_disk_model::Sectors;
use audit_store::Store;
use std::alloc::Global;
use std::io::Write;

/// A request to rotate the log of a store to another one that was formatted before, with the words of the command line
/// as given.
#[derive(Clone, Copy)]
pub struct Prepared<'a> {
    /// The file of the store whose log is closed.
    pub old: &'a str,
    /// The file of the store that continues it.
    pub next: &'a str,
    /// The file for the link from the one to the other.
    pub link: &'a str,
    /// The file with the link by which the old log goes on from the one before it, if it does.
    pub after: Option<&'a str>,
}

/// Carries out a request over the stores of a system, `stores`, which are those of `rt`. Lines that begin with `audit: `
/// are written to `messages`, all others to `output`, which is flushed at the end. Returns the status with which the
/// program exits.
///
/// The link is made, written and synced before anything else is changed. Then the old log is closed, and its last
/// commitment and the numbers of events by kind are appended to the new store, as one batch. A run that was interrupted
/// is continued by another one with the same words.
pub fn run_prepared<F, O, W, M>(
    rt: &F,
    stores: &mut O,
    alloc: Global,
    request: Prepared<'_>,
    output: &mut W,
    messages: &mut M,
) -> Status
where
    F: FileNames,
    F::File: SystemFile,
    O: Stores<FileStore<F::File>>,
    W: FlushedOutput,
    M: Write,
    // The status is that of the result. On success the link to the store that was opened in the next file is in its file,
    // read again, and its folder was synced; the log of the store that was opened in the old file is closed as the link
    // says, and the next store, which was empty, has appended the two events. Or the link that was found is accepted under
    // the commitments of both. The lines of the two were written. After an error no store was opened and nothing was
    // written; or the stores were only looked at, and `OwnKey`, `NotEmpty`, `OtherLink`, `OtherLog` and the errors of
    // numbers have their cause; or the link is in its file, and what the join did until it failed was done. In each
    // case nothing else was done to a store, and no other was opened.
    ensures carried { IsPreparedCarriedOut F.File.facts F.File.remaining (F.synced rt.now)
        (F.failed rt.now ⊎ F.unnamed rt.now) (F.leads_to rt.now) O.calls O.at request.entry stores.old stores.new
        (W.contents output.old) (W.contents output.new)
        (W.flushed output.new) (W.unflushed output.new) result }
{
    let done = perform(rt, stores, alloc, request, output);
    let flushed = output.flush_last();
    let status = report_prepared(done, request, messages);
    report_flush(status, flushed, messages)
}

fn report_prepared<M: Write>(
    done: Result<(), PreparedError>,
    request: Prepared<'_>,
    messages: &mut M,
) -> Status
    ensures { result ≡ prepared_end_status done }
{
    match done {
        Ok(()) => Status::Done,
        Err(fault) => fault.report(request, messages),
    }
}

// The two names are judged first.
fn perform<F, O, W>(
    rt: &F,
    stores: &mut O,
    alloc: Global,
    request: Prepared<'_>,
    output: &mut W,
) -> Result<(), PreparedError>
where
    F: FileNames,
    F::File: SystemFile,
    O: Stores<FileStore<F::File>>,
    W: Write,
    ensures { IsPreparedDone F.File.facts F.File.remaining (F.synced rt.now) (F.failed rt.now ⊎ F.unnamed rt.now)
        (F.leads_to rt.now) O.calls O.at request.entry stores.old stores.new (W.contents output.old)
        (W.contents output.new) result }
{
    let there = identity_if_any(rt, request.next)?;
    if request.old == request.next || is_same_file(rt, request.old, there) {
        return Err(PreparedError::Command(CommandError::BadArgument));
    }
    let mut old = stores.open(alloc, request.old)?.content;
    let done = open_next(rt, stores, alloc, &mut old, request, output);
    stores.let_go(old);
    done
}

// Opens the new store, and joins an open one to it.
fn open_next<F, D, O, W>(
    rt: &F,
    stores: &mut O,
    alloc: Global,
    old: &mut Store<D>,
    request: Prepared<'_>,
    output: &mut W,
) -> Result<(), PreparedError>
where
    F: FileNames,
    F::File: SystemFile,
    D: Sectors + Drop,
    O: Stores<Store<D>>,
    W: Write,
    ensures { (between : List (StoreCall (Store D ⟦<D as Sectors>⟧))) × O.calls.DidCalls stores.old stores.new between
        × OpensNext F.File.facts F.File.remaining (F.synced rt.now) (F.failed rt.now ⊎ F.unnamed rt.now)
        (F.leads_to rt.now) O.calls O.at request.entry stores.old between old.old old.new (W.contents output.old)
        (W.contents output.new) result }
{
    let mut next = stores.open(alloc, request.next)?.content;
    let done = join_prepared(rt, alloc, old, &mut next, request, output);
    stores.let_go(next);
    done
}
