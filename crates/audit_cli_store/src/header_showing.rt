//! Showing what the headers of a store say, also while another program has it open.
ghost use Rattle.std.specs.Prelude.{OnOk, IfOk, IfErr};
ghost use Rattle.audit_disk.specs.FileDisk.{file_disk_view};
ghost use Rattle.audit_disk.specs.Positioned.{ShowsFront};
ghost use Rattle.audit_cli_store.specs.Headers.{IsHeaderOn, TellsHeader, ShowsHeader};
ghost use Rattle.audit_cli_base.specs.Faults.{IsNoWordFault};

use crate::show_form::ShowForm;
use crate::showing::{ShownState, show_state};
use audit_cli_base::{CommandError, FileDevice};
use audit_disk::{FileDisk, FileFault, SystemFile, SystemFiles};
use audit_disk_model::Sectors;
use audit_log::{Header, MAX_SECTORS};
use audit_store::StoreError;
use audit_store_opening::read_header;
use std::alloc::Global;
use std::fs::Files;
use std::io::Write;
use std::os::unix::fs::FileTypeExt;

/// How often the headers are read before they are called damaged: a program that has the store open may be replacing
/// one of them, and may have replaced both between the two reads.
pub const LOOKS: u32 = 4;

/// Writes what the headers of the store in a file say, in the lines of `show`. Nothing else of the file is read, it isn't
/// locked, and nothing is written to it. A commit that is under way may be in them already.
pub fn show_header<F: SystemFiles, W: Write>(
    rt: &F,
    alloc: Global,
    file: &str,
    form: ShowForm,
    output: &mut W,
) -> Result<(), CommandError>
where
    F::File: SystemFile,
    ensures shown { OnOk result (ShowsHeader F.File.facts F.File.positioned ⟦<FileDevice<F::File> as Sectors>⟧
        file.now form (W.contents output.old) (W.contents output.new)) }
    ensures words { IfErr result IsNoWordFault }
{
    let header = settled_header(rt, alloc, file)?;
    show_state(alloc, ShownState::of_header(&header), form, output)
}

// What they say, once they are those of a store.
fn settled_header<F: SystemFiles>(rt: &F, alloc: Global, file: &str) -> Result<Header, CommandError>
where
    F::File: SystemFile,
    ensures told { IfOk result (TellsHeader F.File.facts F.File.positioned ⟦<FileDevice<F::File> as Sectors>⟧ file.now) }
    ensures words { IfErr result IsNoWordFault }
{
    for _ in 1..LOOKS {
        match header_now(rt, alloc, file) {
            Err(CommandError::Refused(StoreError::DamagedHeader | StoreError::HeadersDisagree)) =>
                {}
            told => return told,
        }
    }
    header_now(rt, alloc, file)
}

// What they say at one look.
fn header_now<F: SystemFiles>(rt: &F, alloc: Global, file: &str) -> Result<Header, CommandError>
where
    F::File: SystemFile,
    ensures told { IfOk result (TellsHeader F.File.facts F.File.positioned ⟦<FileDevice<F::File> as Sectors>⟧ file.now) }
    ensures words { IfErr result IsNoWordFault }
{
    let found = rt.look(file)?;
    rt.judge(&found, false)?;
    if found.file_type().is_block_device() {
        match FileDisk::over_front(alloc, rt.open_to_read(file)?, MAX_SECTORS) {
            Ok(disk) => return header_on(disk),
            Err(FileFault::TooSmall { .. }) => {}
            Err(fault) => return Err(fault.into()),
        }
    }
    header_on(FileDisk::over_whole(alloc, rt.open_to_read(file)?)?)
}

// What those of a device say.
fn header_on<D: Sectors + Drop>(disk: D) -> Result<Header, CommandError>
    ensures told { IfOk result (IsHeaderOn (D.view disk)) }
    ensures words { IfErr result IsNoWordFault }
{
    let mut disk = disk;
    match read_header(&mut disk) {
        Ok(chosen) => Ok(chosen.header),
        Err(refusal) => Err(CommandError::Refused(StoreError::from(refusal))),
    }
}
