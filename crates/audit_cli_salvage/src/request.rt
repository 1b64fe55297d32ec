//! The request, and how it is carried out.
ghost use denote.Ref.{Bor};
ghost use Rattle.std.specs.Prelude.{◌≡◌, ℕ, Option, List, IfOk, IfErr, IsOk};
ghost use Rattle.std.specs.Io.KnownBytes.{Keeps};
ghost use Rattle.audit_cli_base.specs.Arguments.{RefusesWords, selects_output};
ghost use Rattle.audit_cli_base.specs.Faults.{IsNoWordFault};
ghost use Rattle.audit_cli_salvage.specs.SalvageWords.{AreProofsAsked, HasWrongSalvageWord, IsUnderAsked};
ghost use Rattle.audit_cli_salvage.specs.SalvagedFiles.{IsSalvageRun, IsSearched, SearchesDevice, WritesTo};
ghost use Rattle.audit_cli_salvage.specs.SalvagedFiles.{WritesSearchOf, salvage_status};

use crate::proofs::{ProvedLeaf, proofs_at};
use crate::salvage::Salvage;
use crate::searching::{write_end_line, write_salvage};
use crate::words::{Salvaging, salvage_words};
use audit_chain::Key;
use audit_cli_base::{
    CommandError, FileDevice, Opened, OutputFile, Status, is_standard_output, key_at,
    open_device_to_salvage, report, report_flush,
};
use audit_disk::{FileIdentity, SystemFile, SystemFiles};
use audit_disk_model::Sectors;
use audit_proof::Commitment;
use audit_store::StoreError;
use audit_text::write_whole;
use std::alloc::Global;
use std::fs::Files;
use std::io::{BufWriter, Write};

// The size in bytes of the buffer for a file.
const FILE_ROOM: usize = 1 << 16;

/// Carries out a search: it opens the store in a file to read it, searches it with its log's first key, and writes what
/// it finds to another file, for its owner alone, and a last line to the output. Lines that begin with `audit: ` are
/// written to `messages`, and the output is flushed at the end. It returns the program's exit status: `Done` if all
/// entries that the headers state were found, each bound to its place, and `Refused` if not.
pub fn run<F: SystemFiles, W: Write, M: Write>(
    rt: &F,
    alloc: Global,
    asked: Salvaging<'_>,
    output: &mut W,
    messages: &mut M,
) -> Status
where
    F::File: SystemFile,
    ensures { IsSalvageRun F.File.facts F.File.positioned ⟦<FileDevice<F::File> as Sectors>⟧ F.File.remaining
        asked.entry (W.contents output.old) (W.contents output.new) result }
{
    let done = salvage_file(rt, alloc, asked, output);
    let status = report_search(done, messages);
    report_flush(status, output.flush(), messages)
}

// Prints why a search failed, if it did, and returns the status of its result.
fn report_search<M: Write>(done: Result<bool, CommandError>, messages: &mut M) -> Status
    ensures { result ≡ salvage_status done }
{
    match done {
        Ok(true) => Status::Done,
        Ok(false) => Status::Refused,
        Err(fault) => report(fault, messages),
    }
}

// Searches the store in a file. Returns whether nothing is missing.
fn salvage_file<F: SystemFiles, W: Write>(
    rt: &F,
    alloc: Global,
    asked: Salvaging<'_>,
    output: &mut W,
) -> Result<bool, CommandError>
where
    F::File: SystemFile,
    ensures words { RefusesWords (λ fault. HasWrongSalvageWord asked.entry × (fault ≡ CommandError.BadArgument))
        (W.contents output.old) (W.contents output.new) result }
    ensures searched { IsSearched F.File.facts F.File.positioned ⟦<FileDevice<F::File> as Sectors>⟧ F.File.remaining
        asked.entry (W.contents output.old) (W.contents output.new) result }
{
    let words = salvage_words(asked)?;
    let first_key = key_at(rt, alloc, asked.key_file)?;
    let proofs = proofs_asked(rt, alloc, words.under, asked.proofs, output)?;
    let opened = open_device_to_salvage(rt, alloc, asked.file)?;
    search_opened(
        rt,
        alloc,
        opened,
        first_key,
        words.beyond,
        &proofs,
        asked.out,
        output,
    )
}

// Reads the proofs in files. One that isn't accepted is reported in a line of the output.
fn proofs_asked<F: SystemFiles, W: Write>(
    rt: &F,
    alloc: Global,
    under: Option<Commitment>,
    paths: &[&str],
    output: &mut W,
) -> Result<Vec<ProvedLeaf>, CommandError>
where
    F::File: SystemFile,
    ensures shown { (word : Option (Bor (List ℕ))) → IsUnderAsked word paths.now under → IfOk result (λ proofs.
        AreProofsAsked F.File.facts F.File.remaining word paths.now proofs.items) }
    ensures written { IsOk result → Keeps (W.contents output.old) (W.contents output.new) }
    ensures words { IfErr result IsNoWordFault }
{
    let Some(commitment) = under else {
        return Ok(Vec::new(alloc));
    };
    match proofs_at(rt, alloc, &commitment, paths) {
        Ok(proofs) => Ok(proofs),
        Err(CommandError::NotAccepted) => {
            write_whole(output, b"not accepted\n")?;
            Err(CommandError::NotAccepted)
        }
        Err(fault) => Err(fault),
    }
}

// Searches a device, and then releases it.
fn search_opened<F: Files, D: Sectors + Drop, W: Write>(
    rt: &F,
    alloc: Global,
    mut opened: Opened<D>,
    first_key: Key,
    beyond: u64,
    proofs: &[ProvedLeaf],
    out: &str,
    output: &mut W,
) -> Result<bool, CommandError>
    ensures searched { IfOk result (SearchesDevice (D.view opened.content) first_key beyond proofs.now out.now
        (W.contents output.old) (W.contents output.new)) }
    ensures words { IfErr result IsNoWordFault }
{
    let search = Search {
        alloc,
        disk: &mut opened.content,
        first_key,
        beyond,
        proofs,
    };
    let salvage = write_to(rt, search, opened.identity, out, output)?;
    write_end_line(alloc, &salvage, output)?;
    Ok(salvage.is_whole())
}

// A search of a device.
#[derive(Drop)]
struct Search<'a, D> {
    alloc: Global,
    disk: &'a mut D,
    first_key: Key,
    beyond: u64,
    proofs: &'a [ProvedLeaf],
}

// Writes what a search finds: to the command's output if `out` is standard output, and otherwise to a file for its
// owner alone, which replaces the one there once all of it is written. The file with this identity isn't replaced.
fn write_to<F: Files, D: Sectors, W: Write>(
    rt: &F,
    search: Search<'_, D>,
    identity: FileIdentity,
    out: &str,
    output: &mut W,
) -> Result<Salvage, CommandError>
    ensures written { IfOk result (WritesTo (WritesSearchOf (D.view search.entry.disk.now) search.entry.first_key
        search.entry.beyond search.entry.proofs.now) (selects_output out.now) (W.contents output.old)
        (W.contents output.new)) }
    ensures words { IfErr result IsNoWordFault }
{
    if is_standard_output(out) {
        return write_search(search, output);
    }
    let mut made = OutputFile::create_private(rt, search.alloc, identity, out)?;
    match write_buffered(search, &mut made) {
        Ok(salvage) => {
            made.publish(rt)?;
            Ok(salvage)
        }
        Err(fault) => {
            made.discard(rt);
            Err(fault)
        }
    }
}

fn write_buffered<D: Sectors, W: Write>(
    search: Search<'_, D>,
    file: &mut W,
) -> Result<Salvage, CommandError>
    ensures written { IfOk result (λ salvage. (empty : Option (List ℕ)) × (full : Option (List ℕ))
        × WritesSearchOf (D.view search.entry.disk.now) search.entry.first_key search.entry.beyond
        search.entry.proofs.now empty full salvage) }
    ensures words { IfErr result IsNoWordFault }
{
    let Ok(mut buffered) = BufWriter::with_capacity(search.alloc, FILE_ROOM, file) else {
        return Err(CommandError::Refused(StoreError::Memory));
    };
    let salvage = write_search(search, &mut buffered)?;
    buffered.flush()?;
    Ok(salvage)
}

fn write_search<D: Sectors, W: Write>(
    search: Search<'_, D>,
    writer: &mut W,
) -> Result<Salvage, CommandError>
    ensures written { IfOk result (WritesSearchOf (D.view search.entry.disk.now) search.entry.first_key
        search.entry.beyond search.entry.proofs.now (W.contents writer.old) (W.contents writer.new)) }
    ensures words { IfErr result IsNoWordFault }
{
    let Search {
        alloc,
        disk,
        first_key,
        beyond,
        proofs,
    } = search;
    write_salvage(alloc, disk, first_key, beyond, proofs, writer)
}
