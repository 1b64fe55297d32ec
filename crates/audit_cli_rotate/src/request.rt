//! The request to rotate a log, and how it is carried out.
ghost use Rattle.std.specs.Prelude.{◌≡◌, ◌⊎◌, [], Err};
ghost use Rattle.std.specs.Io.KnownBytes.{Keeps};
ghost use Rattle.audit_cli_base.specs.declared.fault.CommandError.{CommandError};
ghost use Rattle.audit_cli_base.specs.Arguments.{sectors_asked};
ghost use Rattle.audit_cli_base.specs.Faults.{status_of};
ghost use Rattle.audit_cli_rotate.specs.Carried.{rotation_end_status, IsRotationDone, IsRotationCarriedOut};
ghost use Rattle.audit_cli_rotate.specs.Files.{IsNamed};

use crate::fault::RotationError;
use crate::file_names::FileNames;
use crate::files::rotate_file;
use audit_cli_base::{
    CommandError, FileDevice, FileStore, Status, key_at, report_flush, sectors_asked,
};
use audit_cli_calls::{FlushedOutput, NewStores};
use audit_disk::SystemFile;
use audit_disk_model::Sectors;
use std::alloc::Global;
use std::fs::Files;
use std::io::Write;

/// A request to rotate the log of a store, with the words of the command line as given.
#[derive(Clone, Copy)]
pub struct Request<'a> {
    /// The file of the store whose log is closed.
    pub old: &'a str,
    /// The file of the store that continues it.
    pub new: &'a str,
    /// The number of sectors of the new store.
    pub sectors: &'a str,
    /// The file with the first key of the new store.
    pub key_file: &'a str,
}

/// Carries out a request over the stores of a system, `stores`, which are those of `rt`. Lines that begin with `audit: `
/// are written to `messages`, all others to `output`, which is flushed at the end. Returns the status with which the
/// program exits.
///
/// A run that was interrupted is continued by another one with the same words: what is done is found, and not done
/// twice.
pub fn run<F, O, W, M>(
    rt: &F,
    stores: &mut O,
    alloc: Global,
    request: Request<'_>,
    output: &mut W,
    messages: &mut M,
) -> Status
where
    F: FileNames,
    F::File: SystemFile,
    O: NewStores<FileStore<F::File>, FileDevice<F::File>>,
    W: FlushedOutput,
    M: Write,
    // A wrong number of sectors ends the program before a store is opened or anything is written. An output that can't
    // be flushed is another fault.
    ensures words { (fault : CommandError) → sectors_asked request.entry.sectors.now ≡ Err fault
        → (result ≡ status_of fault) ⊎ (result ≡ Status.Device) }
    ensures unwritten { (fault : CommandError) → sectors_asked request.entry.sectors.now ≡ Err fault
        → Keeps (W.contents output.old) (W.contents output.new) }
    ensures unopened { (fault : CommandError) → sectors_asked request.entry.sectors.now ≡ Err fault
        → O.calls.DidCalls stores.old stores.new [] }
    // The status is that of the result. On success the log of the store that was opened in the old file is closed, and a
    // store of the size and with the first key asked for continues it: one that was made under the temporary name, or one
    // that an earlier run had made, found in the new file. The lines of the two were written. After an error no store was
    // opened and nothing was written; or the old log is as it was, or was closed by a rotation to a device that was made
    // so, and nothing or a prefix of the lines of that rotation was written. In each case nothing else was done to a
    // store, and no other device was made.
    ensures carried { IsRotationCarriedOut F.File.facts F.File.positioned F.File.remaining
        ⟦<FileDevice<F::File> as Sectors>⟧ O.made_at (IsNamed (F.named rt.now) (F.synced rt.now)) O.calls
        (O.at stores.old) request.entry stores.old stores.new
        (W.contents output.old) (W.contents output.new) (W.flushed output.new) (W.unflushed output.new) result }
{
    let done = perform(rt, stores, alloc, request, output);
    let flushed = output.flush_last();
    let status = report_rotation(done, request, messages);
    report_flush(status, flushed, messages)
}

fn report_rotation<M: Write>(
    done: Result<(), RotationError>,
    request: Request<'_>,
    messages: &mut M,
) -> Status
    ensures { result ≡ rotation_end_status done }
{
    match done {
        Ok(()) => Status::Done,
        Err(fault) => fault.report(request, messages),
    }
}

// The words and the key are judged first.
fn perform<F, O, W>(
    rt: &F,
    stores: &mut O,
    alloc: Global,
    request: Request<'_>,
    output: &mut W,
) -> Result<(), RotationError>
where
    F: FileNames,
    F::File: SystemFile,
    O: NewStores<FileStore<F::File>, FileDevice<F::File>>,
    W: Write,
    ensures words { (fault : CommandError) → sectors_asked request.entry.sectors.now ≡ Err fault
        → result ≡ Err (RotationError.Command fault) }
    ensures unwritten { (fault : CommandError) → sectors_asked request.entry.sectors.now ≡ Err fault
        → Keeps (W.contents output.old) (W.contents output.new) }
    ensures unopened { (fault : CommandError) → sectors_asked request.entry.sectors.now ≡ Err fault
        → O.calls.DidCalls stores.old stores.new [] }
    ensures rotated { IsRotationDone F.File.facts F.File.positioned F.File.remaining
        ⟦<FileDevice<F::File> as Sectors>⟧ O.made_at (IsNamed (F.named rt.now) (F.synced rt.now)) O.calls
        (O.at stores.old) request.entry stores.old stores.new
        (W.contents output.old) (W.contents output.new) result }
{
    let sectors = sectors_asked(request.sectors)?;
    let first_key = key_at(rt, alloc, request.key_file)?;
    rotate_file(
        rt,
        stores,
        alloc,
        request.old,
        request.new,
        sectors,
        first_key,
        output,
    )
}
