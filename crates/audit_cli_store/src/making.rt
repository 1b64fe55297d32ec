//! Making stores in files and on block devices.
ghost use Rattle.std.specs.Prelude.{◌≡◌, ◌⊎◌, ◌++◌, codes, Err, IfErr, OnOk};
ghost use Rattle.std.specs.Fmt.{decimal};
ghost use Rattle.std.specs.Io.KnownBytes.{Appends};
ghost use Rattle.audit_store.specs.Store.{IsFormatted};
ghost use Rattle.audit_store.specs.declared.store.Store.{Store};
ghost use Rattle.audit_cli_base.specs.KeyFile.{HasNoKeyAt};
ghost use Rattle.audit_cli_base.specs.Arguments.{IsNewFileFault, RefusesWords, sectors_asked};
ghost use Rattle.audit_cli_store.specs.OnFiles.{FormatsSite, FormatsNewFile, FormatsInPlace};
ghost use Rattle.audit_cli_store.specs.Requests.{IsFormatFault};
ghost use Rattle.audit_cli_base.specs.Faults.{IsNoWordFault};

use crate::formatting::format_device;
use crate::request::Site;
use audit_chain::Key;
use audit_cli_base::{
    CommandError, FileDevice, device_in_place, key_at, make_device, new_file_asked, sectors_asked,
};
use audit_disk::{SystemFile, SystemFiles};
use audit_disk_model::Sectors;
use std::alloc::Global;
use std::fs::{self, Files};
use std::io::Write;

/// Makes a store in a new file, or in an existing file or block device.
pub fn format_site<F: SystemFiles, W: Write>(
    rt: &F,
    alloc: Global,
    file: &str,
    site: Site<'_>,
    sectors: &str,
    key_file: &str,
    output: &mut W,
) -> Result<(), CommandError>
where
    F::File: SystemFile,
    ensures words { RefusesWords (IsFormatFault site.entry sectors.now) (W.contents output.old)
        (W.contents output.new) result }
    ensures formatted { OnOk result (FormatsSite F.File.facts F.File.positioned ⟦<FileDevice<F::File> as Sectors>⟧
        F.File.remaining file.now site.entry sectors.now key_file.now (W.contents output.old) (W.contents output.new)) }
    ensures only { result ≡ Err CommandError.BadArgument
        → IsFormatFault site.entry sectors.now CommandError.BadArgument
        ⊎ HasNoKeyAt F.File.facts F.File.remaining key_file.now }
{
    match site {
        Site::NewFile { mode } => { format_file(rt, alloc, file, mode, sectors, key_file, output) }
        Site::InPlace { erase } => {
            format_in_place(rt, alloc, file, erase, sectors, key_file, output)
        }
    }
}

// Formats a new file for a store. The file is made only after all words were checked and the key was read. If it
// can't be formatted it is removed again.
fn format_file<F: SystemFiles, W: Write>(
    rt: &F,
    alloc: Global,
    file: &str,
    mode: Option<&str>,
    sectors: &str,
    key_file: &str,
    output: &mut W,
) -> Result<(), CommandError>
where
    F::File: SystemFile,
    ensures words { RefusesWords (IsNewFileFault mode.entry sectors.now) (W.contents output.old)
        (W.contents output.new) result }
    ensures formatted { OnOk result (FormatsNewFile F.File.facts F.File.positioned
        ⟦<FileDevice<F::File> as Sectors>⟧ F.File.remaining file.now mode.entry sectors.now key_file.now
        (W.contents output.old) (W.contents output.new)) }
    ensures only { result ≡ Err CommandError.BadArgument
        → IsNewFileFault mode.entry sectors.now CommandError.BadArgument
        ⊎ HasNoKeyAt F.File.facts F.File.remaining key_file.now }
{
    let (mode, sectors) = new_file_asked(mode, sectors)?;
    let first_key = key_at(rt, alloc, key_file)?;
    let disk = make_device(rt, alloc, file, sectors, mode)?;
    format_or_remove(rt, alloc, disk, Some(file), first_key, output)
}

// Formats all of an existing file or block device. It must have at least the requested number of sectors, and must
// not hold a store unless `erase` is set.
fn format_in_place<F: SystemFiles, W: Write>(
    rt: &F,
    alloc: Global,
    file: &str,
    erase: bool,
    sectors: &str,
    key_file: &str,
    output: &mut W,
) -> Result<(), CommandError>
where
    F::File: SystemFile,
    ensures words { RefusesWords (λ fault. sectors_asked sectors.now ≡ Err fault) (W.contents output.old)
        (W.contents output.new) result }
    ensures formatted { OnOk result (FormatsInPlace F.File.facts F.File.positioned
        ⟦<FileDevice<F::File> as Sectors>⟧ F.File.remaining file.now erase sectors.now key_file.now
        (W.contents output.old) (W.contents output.new)) }
    ensures only { result ≡ Err CommandError.BadArgument → (sectors_asked sectors.now ≡ Err CommandError.BadArgument)
        ⊎ HasNoKeyAt F.File.facts F.File.remaining key_file.now }
{
    let sectors = sectors_asked(sectors)?;
    let first_key = key_at(rt, alloc, key_file)?;
    let disk = device_in_place(rt, alloc, file, sectors, erase)?;
    format_or_remove(rt, alloc, disk, None, first_key, output)
}

// Formats a device. If it can't be formatted its file is removed, while it is still locked, if it was made for that.
fn format_or_remove<F: Files, D: Sectors + Drop, W: Write>(
    rt: &F,
    alloc: Global,
    disk: D,
    made: Option<&str>,
    first_key: Key,
    output: &mut W,
) -> Result<(), CommandError>
    ensures formatted { OnOk result ((store : Store D ⟦<D as Sectors>⟧) × IsFormatted (D.view disk) first_key store
        × Appends (W.contents output.old) (W.contents output.new)
        (codes "formatted " ++ decimal (D.view disk).size ++ codes "\n")) }
    ensures words { IfErr result IsNoWordFault }
{
    match format_device(alloc, disk, first_key, output) {
        Ok(formatted) => formatted.line,
        Err(failed) => {
            if let Some(file) = made {
                let _ = fs::remove_file(rt, file);
            }
            Err(CommandError::Refused(failed.error))
        }
    }
}
