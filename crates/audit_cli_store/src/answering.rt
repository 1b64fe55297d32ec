//! Commands that only answer about the store in a file.
ghost use Rattle.std.specs.Prelude.{◌≡◌, ℕ, Option, List, Ok, Err, IsErr, IfOk, IfErr, OnOk, length};
ghost use Rattle.std.specs.Io.KnownBytes.{Appends};
ghost use Rattle.audit_chain.specs.Event.{EventData};
ghost use Rattle.audit_disk.specs.SectorSource.{source_of};
ghost use Rattle.audit_store.specs.ReadOnlyOpening.{at_rest};
ghost use Rattle.audit_store.specs.Store.{Holds};
ghost use Rattle.audit_store_commit.specs.Origin.{Origin};
ghost use Rattle.audit_cli_base.specs.Arguments.{RefusesWords, number_asked, selects_output};
ghost use Rattle.audit_cli_base.specs.OpenedStore.{IsStoreOn};
ghost use Rattle.audit_cli_store.specs.OnFiles.{exported_text, IsPutTo, AnswersAbout, AnswersOn, AnswersAt};
ghost use Rattle.audit_cli_store.specs.OnFiles.{ProvesOn, IsProofAt, ProvesAt};
ghost use Rattle.audit_cli_store.specs.Exports.{PutsEntries};
ghost use Rattle.audit_cli_store.specs.Proofs.{AsksOutside, proof_of_log};
ghost use Rattle.audit_cli_store.specs.declared.answering.StoreQuestion.TheVariants.{Entries};
ghost use Rattle.audit_cli_base.specs.Faults.{IsNoWordFault};

use crate::exporting::{judge_first, write_entries};
use crate::proving::proof_bytes;
use crate::request::Access;
use crate::salvaging::{Salvaged, write_salvage_line, write_salvaged};
use crate::show_form::ShowForm;
use crate::showing::show;
use audit_cli_base::{
    CommandError, FileDevice, Opened, OutputFile, ProofRequest, STANDARD_OUTPUT,
    is_standard_output, number_asked, open_device_to_read, open_device_to_salvage, open_store,
    store_to_read, write_exported, write_number,
};
use audit_disk::{FileIdentity, Reading, SystemFile, SystemFiles};
use audit_disk_model::Sectors;
use audit_store::{Store, StoreError};
use std::alloc::Global;
use std::fs::Files;
use std::io::{BufWriter, Write};

// The size in bytes of the buffer for a file.
const FILE_ROOM: usize = 1 << 16;

/// What is asked about a store.
#[derive(Clone, Copy)]
pub enum StoreQuestion<'a> {
    /// Its commitment, and the state of its log.
    State { form: ShowForm },
    /// Its entries from the index `first` on, which are written to the file `out`. With `Access::Salvage` those of a
    /// damaged store that can still be read are written, from the first one on.
    Entries { out: &'a str, first: u64 },
}

/// Writes the entries of the store in a file, from an index on, to the file `out`. The word for the index is checked
/// before the store is opened; without one it is 0.
pub fn export_file<F: SystemFiles, W: Write>(
    rt: &F,
    alloc: Global,
    file: &str,
    access: Access,
    from: Option<&str>,
    out: &str,
    output: &mut W,
) -> Result<(), CommandError>
where
    F::File: SystemFile,
    ensures words { RefusesWords (λ fault. number_asked from.entry 0 ≡ Err fault) (W.contents output.old)
        (W.contents output.new) result }
    ensures exported { OnOk result ((first : ℕ) × (number_asked from.entry 0 ≡ Ok first)
        × AnswersAt F.File.facts F.File.positioned ⟦<FileDevice<F::File> as Sectors>⟧ access file.now
        (Entries out.entry first) (W.contents output.old) (W.contents output.new)) }
    ensures only { result ≡ Err CommandError.BadArgument → number_asked from.entry 0 ≡ Err CommandError.BadArgument }
{
    let first = number_asked(from, 0)?;
    let question = StoreQuestion::Entries { out, first };
    answer_file(rt, alloc, file, access, question, output)
}

/// Answers a question about the store in a file. The file that is written can't be the store's. The store is opened
/// before that file is made, and stays open until the answer is written.
pub fn answer_file<F: SystemFiles, W: Write>(
    rt: &F,
    alloc: Global,
    file: &str,
    access: Access,
    question: StoreQuestion<'_>,
    output: &mut W,
) -> Result<(), CommandError>
where
    F::File: SystemFile,
    ensures answered { OnOk result (AnswersAt F.File.facts F.File.positioned ⟦<FileDevice<F::File> as Sectors>⟧
        access file.now question.entry (W.contents output.old) (W.contents output.new)) }
    ensures words { IfErr result IsNoWordFault }
{
    match access {
        Access::Repair => {
            let opened = open_store(rt, alloc, file)?;
            answer_opened(rt, alloc, opened, question, output)
        }
        Access::ReadOnly => {
            let opened = open_device_to_read(rt, alloc, file)?;
            answer_device(rt, alloc, opened, access, question, output)
        }
        Access::Salvage => {
            let opened = open_device_to_salvage(rt, alloc, file)?;
            answer_device(rt, alloc, opened, access, question, output)
        }
    }
}

// Answers a question about the store on a device that is only read. It is generic over the device, like the functions
// below, so that no proof has to follow the release of a file's device at each way out.
fn answer_device<F: Files, D: Sectors + Drop, W: Write>(
    rt: &F,
    alloc: Global,
    opened: Opened<D>,
    access: Access,
    question: StoreQuestion<'_>,
    output: &mut W,
) -> Result<(), CommandError>
    ensures answered { OnOk result (AnswersOn question.entry (at_rest (source_of (D.view opened.content)))
        (W.contents output.old) (W.contents output.new)) }
    ensures words { IfErr result IsNoWordFault }
{
    let identity = opened.identity;
    let mut source = Reading::new(opened.content);
    match store_to_read(alloc, &mut source) {
        Ok(content) => {
            let opened = Opened { content, identity };
            answer_opened(rt, alloc, opened, question, output)
        }
        Err(fault) => match damage_of(fault, access) {
            Some(damage) => answer_damaged(
                rt,
                alloc,
                &mut source.into_device(),
                identity,
                damage,
                question,
                output,
            ),
            None => Err(fault),
        },
    }
}

// The damage for which an opening was refused, if the command salvages what can still be read.
fn damage_of(fault: CommandError, access: Access) -> Option<StoreError> {
    match access {
        Access::Repair | Access::ReadOnly => None,
        Access::Salvage => match fault {
            CommandError::Refused(error) if is_damage(error) => Some(error),
            _ => None,
        },
    }
}

// Answers a question about a store, and then releases it.
fn answer_opened<F: Files, D: Sectors + Drop, W: Write>(
    rt: &F,
    alloc: Global,
    mut opened: Opened<Store<D>>,
    question: StoreQuestion<'_>,
    output: &mut W,
) -> Result<(), CommandError>
    ensures answered { OnOk result (AnswersAbout question.entry opened.content
        (W.contents output.old) (W.contents output.new)) }
    ensures words { IfErr result IsNoWordFault }
{
    let identity = opened.identity;
    answer(rt, alloc, &mut opened.content, identity, question, output)
}

fn answer<F: Files, D: Sectors, W: Write>(
    rt: &F,
    alloc: Global,
    store: &mut Store<D>,
    identity: FileIdentity,
    question: StoreQuestion<'_>,
    output: &mut W,
) -> Result<(), CommandError>
    ensures answered { OnOk result (AnswersAbout question.entry store.old
        (W.contents output.old) (W.contents output.new)) }
    ensures words { IfErr result IsNoWordFault }
{
    match question {
        StoreQuestion::State { form } => show(alloc, store, form, output),
        StoreQuestion::Entries { out, first } => {
            export_store(rt, alloc, store, identity, first, out, output)
        }
    }
}

// Answers a question about a store whose opening was refused because of damage.
fn answer_damaged<F: Files, D: Sectors, W: Write>(
    rt: &F,
    alloc: Global,
    disk: &mut D,
    identity: FileIdentity,
    damage: StoreError,
    question: StoreQuestion<'_>,
    output: &mut W,
) -> Result<(), CommandError>
    ensures fails { IsErr result }
    ensures words { IfErr result IsNoWordFault }
{
    match question {
        StoreQuestion::State { .. } => Err(CommandError::Refused(damage)),
        StoreQuestion::Entries { out, .. } => {
            salvage_device(rt, alloc, disk, identity, out, output)
        }
    }
}

// Whether an opening was refused because of the contents of the device.
fn is_damage(error: StoreError) -> bool {
    matches!(
        error,
        StoreError::NotAStore
            | StoreError::DamagedHeader
            | StoreError::HeadersDisagree
            | StoreError::Worn
            | StoreError::DamagedLog { .. }
    )
}

fn export_store<F: Files, D: Sectors, W: Write>(
    rt: &F,
    alloc: Global,
    store: &mut Store<D>,
    identity: FileIdentity,
    first: u64,
    out: &str,
    output: &mut W,
) -> Result<(), CommandError>
    ensures exported { OnOk result ((origin : Origin) (events : List EventData) → Holds store.old origin events
        → Appends (W.contents output.old) (W.contents output.new)
        (exported_text out.now first origin.first_key events)) }
    ensures words { IfErr result IsNoWordFault }
{
    let count = store.commitment().count;
    judge_first(first, count)?;
    let mut export = Export { store, first };
    let size = put(rt, alloc, &mut export, identity, out, output)?;
    if out == STANDARD_OUTPUT {
        return Ok(());
    }
    write_exported(alloc, count.saturating_sub(first), size, output)
}

// Writes the entries of a damaged store that can still be read.
fn salvage_device<F: Files, D: Sectors, W: Write>(
    rt: &F,
    alloc: Global,
    disk: &mut D,
    identity: FileIdentity,
    out: &str,
    output: &mut W,
) -> Result<(), CommandError>
    ensures fails { IsErr result }
    ensures words { IfErr result IsNoWordFault }
{
    let mut salvage = Salvage { alloc, disk };
    let salvaged = put(rt, alloc, &mut salvage, identity, out, output)?;
    if out != STANDARD_OUTPUT {
        write_salvage_line(alloc, &salvaged, output)?;
    }
    Err(CommandError::Salvaged)
}

// What a command puts to OUT.
trait Contents {
    // What is known of it once it is written.
    type Extent: Copy;

    // What is written, to an output of which these bytes are known before and after, and with this extent.
    ghost puts: { Self → Option (List ℕ) → Option (List ℕ) → Self.Extent → Type 0 };

    fn write_to<W: Write>(&mut self, output: &mut W) -> Result<Self::Extent, CommandError>
        ensures puts { IfOk result (puts self.old (W.contents output.old) (W.contents output.new)) }
        ensures words { IfErr result IsNoWordFault };
}

// The entries of a store from an index on; their size in bytes.
#[derive(Drop)]
struct Export<'a, D: Sectors> {
    store: &'a mut Store<D>,
    first: u64,
}

impl<D: Sectors> Contents for Export<'_, D> {
    type Extent = u64;

    ghost puts = { λ it before after size. PutsEntries it.store.now it.first before after size };

    fn write_to<W: Write>(&mut self, output: &mut W) -> Result<u64, CommandError> {
        write_entries(self.store, self.first, output)
    }
}

// The entries on a device that can still be read.
#[derive(Drop)]
struct Salvage<'a, D> {
    alloc: Global,
    disk: &'a mut D,
}

impl<D: Sectors> Contents for Salvage<'_, D> {
    type Extent = Salvaged;

    ghost puts = { λ _ _ _ _. Unit {0} };

    fn write_to<W: Write>(&mut self, output: &mut W) -> Result<Salvaged, CommandError> {
        write_salvaged(self.alloc, self.disk, output)
    }
}

// The bytes of a proof.
impl Contents for &[u8] {
    type Extent = ();

    ghost puts = { λ bytes before after _. Appends before after bytes.now };

    fn write_to<W: Write>(&mut self, output: &mut W) -> Result<(), CommandError> {
        Ok(output.write_all(self)?)
    }
}

// Writes to `out`: to the command's output if that is standard output, and otherwise to a file, which replaces the one
// there once all of it is written. The file with this identity isn't replaced.
fn put<F: Files, C: Contents, W: Write>(
    rt: &F,
    alloc: Global,
    contents: &mut C,
    identity: FileIdentity,
    out: &str,
    output: &mut W,
) -> Result<C::Extent, CommandError>
    ensures put { IfOk result (IsPutTo (C.puts contents.old) (selects_output out.now)
        (W.contents output.old) (W.contents output.new)) }
    ensures words { IfErr result IsNoWordFault }
{
    if is_standard_output(out) {
        return contents.write_to(output);
    }
    let mut made = OutputFile::create(rt, alloc, identity, out)?;
    match write_buffered(alloc, contents, &mut made) {
        Ok(extent) => {
            made.publish(rt)?;
            Ok(extent)
        }
        Err(fault) => {
            made.discard(rt);
            Err(fault)
        }
    }
}

fn write_buffered<C: Contents, W: Write>(
    alloc: Global,
    contents: &mut C,
    file: &mut W,
) -> Result<C::Extent, CommandError>
    ensures written { IfOk result (λ extent. (empty : Option (List ℕ)) × (full : Option (List ℕ))
        × C.puts contents.old empty full extent) }
    ensures words { IfErr result IsNoWordFault }
{
    let Ok(mut buffered) = BufWriter::with_capacity(alloc, FILE_ROOM, file) else {
        return Err(CommandError::Refused(StoreError::Memory));
    };
    let extent = contents.write_to(&mut buffered)?;
    buffered.flush()?;
    Ok(extent)
}

/// Writes a proof about the store in a file to the file `out`, which can't be the store's. The proof is made and the
/// store closed before that file is made.
pub fn prove_file<F: SystemFiles, W: Write>(
    rt: &F,
    alloc: Global,
    file: &str,
    access: Access,
    asked: ProofRequest,
    out: &str,
    output: &mut W,
) -> Result<(), CommandError>
where
    F::File: SystemFile,
    ensures proved { OnOk result (ProvesAt F.File.facts F.File.positioned ⟦<FileDevice<F::File> as Sectors>⟧
        access file.now asked out.now (W.contents output.old) (W.contents output.new)) }
    ensures words { IfErr result IsNoWordFault }
{
    let (proof, identity) = proof_about(rt, alloc, file, access, asked)?;
    put(rt, alloc, &mut proof.as_slice(), identity, out, output)?;
    if out == STANDARD_OUTPUT {
        return Ok(());
    }
    write_number(alloc, b"proof ", proof.len() as u64, output)
}

// The bytes of a proof about the store in a file, and the identity of that file.
fn proof_about<F: SystemFiles>(
    rt: &F,
    alloc: Global,
    file: &str,
    access: Access,
    asked: ProofRequest,
) -> Result<(Vec<u8>, FileIdentity), CommandError>
where
    F::File: SystemFile,
    ensures made { IfOk result (λ made. IsProofAt F.File.facts F.File.positioned ⟦<FileDevice<F::File> as Sectors>⟧
        access file.now asked made.0.items) }
    ensures words { IfErr result IsNoWordFault }
{
    match access {
        Access::Repair => { proof_of_opened(alloc, open_store(rt, alloc, file)?, asked) }
        Access::ReadOnly | Access::Salvage => {
            proof_on(alloc, open_device_to_read(rt, alloc, file)?, asked)
        }
    }
}

// The same for a store, which is then released.
fn proof_of_opened<D: Sectors + Drop>(
    alloc: Global,
    mut opened: Opened<Store<D>>,
    asked: ProofRequest,
) -> Result<(Vec<u8>, FileIdentity), CommandError>
    ensures made { (origin : Origin) (events : List EventData) → Holds opened.content origin events
        → (AsksOutside asked (length events) → ⊥)
        → IfOk result (λ made. made.0.items ≡ proof_of_log origin.first_key events asked) }
    ensures words { IfErr result IsNoWordFault }
{
    let identity = opened.identity;
    proof_in(alloc, &mut opened.content, identity, asked)
}

fn proof_in<D: Sectors>(
    alloc: Global,
    store: &mut Store<D>,
    identity: FileIdentity,
    asked: ProofRequest,
) -> Result<(Vec<u8>, FileIdentity), CommandError>
    ensures made { (origin : Origin) (events : List EventData) → Holds store.old origin events
        → (AsksOutside asked (length events) → ⊥)
        → IfOk result (λ made. made.0.items ≡ proof_of_log origin.first_key events asked) }
    ensures words { IfErr result IsNoWordFault }
{
    Ok((proof_bytes(alloc, store, asked)?, identity))
}

// The same for the store on a device that is only read.
fn proof_on<D: Sectors + Drop>(
    alloc: Global,
    opened: Opened<D>,
    asked: ProofRequest,
) -> Result<(Vec<u8>, FileIdentity), CommandError>
    ensures made { IfOk result (λ made. ProvesOn asked (at_rest (source_of (D.view opened.content))) made.0.items) }
    ensures words { IfErr result IsNoWordFault }
{
    let identity = opened.identity;
    let mut source = Reading::new(opened.content);
    match store_to_read(alloc, &mut source) {
        Ok(content) => proof_of_opened(alloc, Opened { content, identity }, asked),
        Err(fault) => Err(fault),
    }
}
