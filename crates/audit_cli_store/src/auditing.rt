//! Commands that check files without a store.
ghost use Rattle.std.specs.Prelude.{◌≡◌, ◌⊎◌, Ok, Err, IsErr, IfOk, IfErr, OnOk, OnErr};
ghost use Rattle.std.specs.Io.KnownBytes.{Appends, Keeps};
ghost use Rattle.audit_text.specs.Writing.{WritesInPart};
ghost use Rattle.audit_verify.specs.StateText.{state_text};
ghost use Rattle.audit_cli_offline.specs.ReportLines.{end_message};
ghost use Rattle.audit_cli_base.specs.Arguments.{AreNoCommitments, RefusesWords};
ghost use Rattle.audit_cli_base.specs.Faults.{IsNoWordFault, IsUnwritten};
ghost use Rattle.audit_cli_store.specs.Verifications.{AreKindsAsked, IsKindsFault, IsPrintingAsked, IsPrintingFault};
ghost use Rattle.audit_cli_store.specs.Verifications.{HasNoStartAt, IsRightVerification, IsStartAt, IsWrongVerification};
ghost use Rattle.audit_cli_store.specs.Checks.{HasOtherKindAt};

use crate::checking::check_proof;
use audit_cli_base::{
    CommandError, OutputFile, commitment_asked, commitments_asked, judge_start, number_asked,
    read_start,
};
use audit_cli_offline::{
    CheckForm, Printing, ReportForm, VerifiedEnd, kinds_in_word, verify_export,
    verify_in_two_passes, write_end_message,
};
use audit_disk::{FileIdentity, SystemFile, SystemFiles};
use audit_proof::Commitment;
use audit_text::write_whole;
use audit_verify::{State, state_text};
use std::alloc::Global;
use std::fs::{self, Files, OpenFile};
use std::io::{self, ErrorKind, Read, Write};

/// The first word of a file with a state.
pub const STATE_WORD: [u8; 11] = *b"audit-state";

/// What is asked of a verification, with the words of the command line as given.
#[derive(Clone, Copy)]
pub struct Verification<'a> {
    /// The file with the export.
    pub export: &'a str,
    /// The file with the first key, or with the state that the export follows.
    pub start: &'a str,
    /// The commitment to the whole log.
    pub commitment: &'a str,
    /// How the events are written.
    pub form: ReportForm,
    /// The kinds of the events that are written, with commas between them; any kind if there is no word.
    pub kinds: Option<&'a str>,
    /// The index of the first event that may be written.
    pub from: Option<&'a str>,
    /// The file for the state after the export, which is replaced if it has a state.
    pub save: Option<&'a str>,
}

/// Checks the proof in a file. The commitments are checked before the file is opened.
pub fn check_file<F: SystemFiles, W: Write>(
    rt: &F,
    alloc: Global,
    proof: &str,
    older: &str,
    newer: Option<&str>,
    form: CheckForm,
    output: &mut W,
) -> Result<(), CommandError>
where
    F::File: SystemFile,
    ensures words { RefusesWords (λ fault. AreNoCommitments older.now newer.entry × (fault ≡ CommandError.BadArgument))
        (W.contents output.old) (W.contents output.new) result }
    ensures only { result ≡ Err CommandError.BadArgument → AreNoCommitments older.now newer.entry
        ⊎ HasOtherKindAt F.File.facts F.File.remaining proof.now newer.entry }
{
    let (older, newer) = commitments_asked(older, newer)?;
    let mut proof = rt.open_to_read(proof)?;
    check_proof(alloc, &mut proof, &older, newer, form, output)
}

/// Verifies the export in a file, and writes its events. The output is flushed, and then the message with the number of
/// entries is written, if the form has one. After that the state is saved, if a file for it is given.
pub fn verify_and_report<F: SystemFiles, W: Write, M: Write>(
    rt: &F,
    alloc: Global,
    asked: Verification<'_>,
    output: &mut W,
    messages: &mut M,
) -> Result<(), CommandError>
where
    F::File: SystemFile,
    ensures only { result ≡ Err CommandError.BadArgument
        → IsWrongVerification F.File.facts F.File.remaining asked.entry }
    ensures right { OnOk result (IsRightVerification F.File.facts F.File.remaining asked.entry) }
{
    let next = verify_file(rt, alloc, asked, output)?;
    let end = VerifiedEnd {
        count: next.count(),
        closed: next.is_closed(),
    };
    end_report(alloc, asked.form, end, output.flush(), messages)?;
    match asked.save {
        Some(out) => save_state(rt, alloc, &next, asked.export, out),
        None => Ok(()),
    }
}

// Verifies the export in a file. The arguments are checked before the export is opened. Returns the state after it.
fn verify_file<F: SystemFiles, W: Write>(
    rt: &F,
    alloc: Global,
    asked: Verification<'_>,
    output: &mut W,
) -> Result<State, CommandError>
where
    F::File: SystemFile,
    ensures only { result ≡ Err CommandError.BadArgument
        → IsWrongVerification F.File.facts F.File.remaining asked.entry }
    ensures right { OnOk result (IsRightVerification F.File.facts F.File.remaining asked.entry) }
{
    let start = start_in(rt, alloc, asked.start)?;
    let commitment = commitment_asked(asked.commitment)?;
    judge_start(&start, &commitment)?;
    let printing = printing_asked(alloc, asked.form, asked.kinds, asked.from)?;
    judge_saved(rt, asked)?;
    verify_further(
        rt,
        alloc,
        asked.export,
        &start,
        &commitment,
        &printing,
        output,
    )
}

// The state in a file, or the one before the first entry if the file has a first key.
fn start_in<F: SystemFiles>(rt: &F, alloc: Global, path: &str) -> Result<State, CommandError>
where
    F::File: SystemFile,
    ensures start { IfOk result (IsStartAt F.File.facts F.File.remaining path.now) }
    ensures bad { result ≡ Err CommandError.BadArgument → HasNoStartAt F.File.facts F.File.remaining path.now }
{
    let mut file = rt.open_to_read(path)?;
    read_start(alloc, &mut file)
}

// A state replaces a state or nothing: what else is there may be a key, without which nobody can read a log.
fn judge_saved<F: Files>(rt: &F, asked: Verification<'_>) -> Result<(), CommandError>
    ensures words { IfErr result IsNoWordFault }
{
    let Some(out) = asked.save else {
        return Ok(());
    };
    match fs::metadata(rt, out) {
        Ok(found) if found.is_file() && found.len() > 0 => judge_replaced(&mut fs::open(rt, out)?),
        _ => Ok(()),
    }
}

fn judge_replaced<R: Read>(file: &mut R) -> Result<(), CommandError>
    ensures words { IfErr result IsNoWordFault }
{
    let mut word = [0; STATE_WORD.len()];
    match file.read_exact(&mut word) {
        Ok(()) if word == STATE_WORD => Ok(()),
        Ok(()) => Err(CommandError::FileExists),
        Err(error) if error.kind() == ErrorKind::UnexpectedEof => Err(CommandError::FileExists),
        Err(error) => Err(error.into()),
    }
}

// What is printed, by the words for it.
fn printing_asked(
    alloc: Global,
    form: ReportForm,
    kinds: Option<&str>,
    from: Option<&str>,
) -> Result<Printing, CommandError>
    ensures printing { IfOk result (IsPrintingAsked form kinds.entry from.entry) }
    ensures fault { IfErr result (IsPrintingFault kinds.entry from.entry) }
{
    let kinds = kinds_asked(alloc, kinds)?;
    let from = number_asked(from, 0)?;
    Ok(Printing::new(form, kinds, from))
}

// The kinds in a word. Without a word there are none.
fn kinds_asked(alloc: Global, word: Option<&str>) -> Result<Vec<u32>, CommandError>
    ensures kinds { IfOk result (λ kinds. AreKindsAsked word.entry kinds.items) }
    ensures fault { IfErr result (IsKindsFault word.entry) }
{
    let Some(word) = word else {
        return Ok(Vec::new(alloc));
    };
    match kinds_in_word(alloc, word.as_bytes())? {
        Some(kinds) => Ok(kinds),
        None => Err(CommandError::BadArgument),
    }
}

// Verifies the export in a file from a state on. A file is read twice, so that nothing of it has to be kept. Input that
// can't be read twice, such as a pipe, is read once and kept.
fn verify_further<F: Files, W: Write>(
    rt: &F,
    alloc: Global,
    export: &str,
    start: &State,
    commitment: &Commitment,
    printing: &Printing,
    output: &mut W,
) -> Result<State, CommandError>
    ensures words { IfErr result IsNoWordFault }
{
    let mut first = fs::open(rt, export)?;
    if !first.metadata()?.is_file() {
        return Ok(verify_export(alloc, &mut first, start, commitment, printing, output)?);
    }
    let mut second = fs::open(rt, export)?;
    Ok(verify_in_two_passes(
        alloc,
        &mut first,
        &mut second,
        start,
        commitment,
        printing,
        output,
    )?)
}

// Ends a report whose output was flushed: writes the message with the number of entries, if the form has one.
fn end_report<M: Write>(
    alloc: Global,
    form: ReportForm,
    end: VerifiedEnd,
    flushed: io::Result<()>,
    messages: &mut M,
) -> Result<(), CommandError>
    ensures unflushed { IsErr flushed → (result ≡ Err CommandError.File)
        × Keeps (M.contents messages.old) (M.contents messages.new) }
    ensures message { OnOk result (Appends (M.contents messages.old) (M.contents messages.new)
        (end_message form end)) }
    ensures words { IfErr result IsNoWordFault }
{
    flushed?;
    Ok(write_end_message(alloc, form, end, messages)?)
}

// Saves a state in a file, which its owner alone can read, and which can't be the export's.
fn save_state<F: Files>(
    rt: &F,
    alloc: Global,
    state: &State,
    export: &str,
    out: &str,
) -> Result<(), CommandError>
    ensures words { IfErr result IsNoWordFault }
{
    let identity = FileIdentity::of(&fs::metadata(rt, export)?);
    let mut made = OutputFile::create_private(rt, alloc, identity, out)?;
    match write_state(alloc, state, &mut made) {
        Ok(()) => made.publish(rt),
        Err(fault) => {
            made.discard(rt);
            Err(fault)
        }
    }
}

/// Writes the text of a state. After an error a prefix of it was written.
pub fn write_state<W: Write>(
    alloc: Global,
    state: &State,
    writer: &mut W,
) -> Result<(), CommandError>
    ensures written { OnOk result (Appends (W.contents writer.old) (W.contents writer.new) (state_text state.now)) }
    ensures part { OnErr result (WritesInPart (W.contents writer.old) (W.contents writer.new)
        (state_text state.now)) }
    ensures fault { IfErr result (IsUnwritten (W.contents writer.old) (W.contents writer.new)) }
    ensures words { IfErr result IsNoWordFault }
{
    let text = state_text(alloc, state)?;
    write_whole(writer, &text)?;
    Ok(())
}
