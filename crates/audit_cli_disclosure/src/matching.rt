//! An export in a file that is shown by the disclosure in another.
ghost use Rattle.std.specs.Prelude.{◌≡◌, ℕ, Option, Result, Ok, List, [], ◌∷◌, IfOk, IfErr, IfSome, IsErr, OnOk};
ghost use Rattle.std.specs.Prelude.{MatchResult};
ghost use Rattle.std.specs.Io.KnownBytes.{Appends, Keeps};
ghost use Rattle.audit_disclosure.specs.DisclosureText.{AreKeysFrom, SpellsDisclosure};
ghost use Rattle.audit_text.specs.declared.fault.LinesError.{LinesError};
ghost use Rattle.audit_cli_offline.specs.TwoPasses.{IsLineUnwritten};
ghost use Rattle.audit_cli_base.specs.declared.fault.CommandError.TheVariants.{File, Lines};
ghost use Rattle.audit_cli_disclosure.specs.FileCalls.{ExportBytes, a_file_opening, an_export_opening};
ghost use Rattle.audit_cli_disclosure.specs.ShownDisclosure.{EndsAfterDisclosure, EndsShowing, IsDisclosureFault};
ghost use Rattle.audit_cli_disclosure.specs.ShownDisclosure.{IsUndisclosedFile, IsUnended, IsUnshownExport, ShowsKnown};
ghost use Rattle.audit_cli_disclosure.specs.ShownReport.{matched_message};

use crate::ending::write_matched_message;
use crate::files::AuditorFiles;
use crate::showing::show_disclosed;
use crate::words::Showing;
use audit_cli_base::{CommandError, commitment_asked};
use audit_cli_calls::FlushedOutput;
use audit_cli_offline::ReportForm;
use audit_disclosure::{Disclosure, read_disclosure};
use audit_proof::Commitment;
use audit_text::{LinesError, read_input};
use audit_verify::Accepted;
use std::alloc::Global;
use std::io::{Read, Write};

/// Judges the export in a file without a key of its log, and writes what its entries show under the keys of a
/// disclosure in another file. The output is flushed, and then the message with the number of entries is written, if
/// the form has one.
pub(crate) fn show_file<F: AuditorFiles, W: FlushedOutput, M: Write>(
    files: &mut F,
    alloc: Global,
    asked: Showing<'_>,
    output: &mut W,
    messages: &mut M,
) -> Result<(), CommandError>
    ensures { EndsShowing F.calls F.Export.failed asked.entry files.old files.new (W.contents output.old)
        (W.contents output.new) (M.contents messages.old) (M.contents messages.new)
        (W.flushed output.new) (W.unflushed output.new) result }
{
    let commitment = commitment_asked(asked.commitment)?;
    let disclosure = disclosure_at(files, alloc, asked.disclosed)?;
    show_by(
        files,
        alloc,
        asked,
        &commitment,
        &disclosure,
        output,
        messages,
    )
}

// The disclosure in a file.
fn disclosure_at<F: AuditorFiles>(
    files: &mut F,
    alloc: Global,
    path: &str,
) -> Result<Disclosure, CommandError>
    ensures found { MatchResult result
        (λ read. (known : Option (List ℕ)) × IfSome known (λ text. SpellsDisclosure text read.start read.keys.items)
        × F.calls.DidCalls files.old files.new (a_file_opening path.now (Ok known) ∷ []))
        (λ fault. (opened : Result (Option (List ℕ)) CommandError) × IsUndisclosedFile opened fault
        × F.calls.DidCalls files.old files.new (a_file_opening path.now opened ∷ [])) }
    ensures order { IfOk result (λ read. AreKeysFrom 0 read.keys.items) }
{
    let mut file = files.open(path)?;
    disclosure_in(alloc, &mut file)
}

// The disclosure in an input, which has nothing else. What is too long has none.
fn disclosure_in<R: Read>(alloc: Global, reader: &mut R) -> Result<Disclosure, CommandError>
    ensures read { IfOk result (λ read. IfSome (R.remaining reader.old)
        (λ text. SpellsDisclosure text read.start read.keys.items)) }
    ensures order { IfOk result (λ read. AreKeysFrom 0 read.keys.items) }
    ensures fault { IfErr result (IsDisclosureFault (R.remaining reader.old)) }
{
    match read_input(alloc, reader) {
        Ok(text) => match read_disclosure(alloc, &text)? {
            Some(read) => Ok(read),
            None => Err(CommandError::BadArgument),
        },
        Err(LinesError::InputTooLong) => Err(CommandError::BadArgument),
        Err(fault) => Err(CommandError::Lines(fault)),
    }
}

// Shows an export by a disclosure, and ends its report.
fn show_by<F: AuditorFiles, W: FlushedOutput, M: Write>(
    files: &mut F,
    alloc: Global,
    asked: Showing<'_>,
    commitment: &Commitment,
    disclosure: &Disclosure,
    output: &mut W,
    messages: &mut M,
) -> Result<(), CommandError>
    requires { (least : ℕ) × AreKeysFrom least disclosure.now.keys.items }
    ensures { EndsAfterDisclosure F.calls F.Export.failed asked.entry files.old files.new (W.contents output.old)
        (W.contents output.new) (M.contents messages.old) (M.contents messages.new)
        (W.flushed output.new) (W.unflushed output.new)
        commitment.now disclosure.now.start disclosure.now.keys.items result }
{
    let end = show_at(
        files,
        alloc,
        asked.export,
        commitment,
        disclosure,
        asked.form,
        output,
    )?;
    end_report(alloc, asked.form, &end, output, messages)
}

// Shows the export in a file by a disclosure. Returns how its log ends.
fn show_at<F: AuditorFiles, W: Write>(
    files: &mut F,
    alloc: Global,
    export: &str,
    commitment: &Commitment,
    disclosure: &Disclosure,
    form: ReportForm,
    output: &mut W,
) -> Result<Accepted, CommandError>
    requires { (least : ℕ) × AreKeysFrom least disclosure.now.keys.items }
    ensures { MatchResult result
        (λ end. (known : ExportBytes) × ShowsKnown form disclosure.now.start disclosure.now.keys.items commitment.now
        known end (W.contents output.old) (W.contents output.new)
        × F.calls.DidCalls files.old files.new (an_export_opening export.now (Ok known) ∷ []))
        (λ fault. (opened : Result ExportBytes CommandError) × IsUnshownExport form disclosure.now.start
        disclosure.now.keys.items commitment.now F.Export.failed (W.contents output.old) (W.contents output.new)
        opened fault
        × F.calls.DidCalls files.old files.new (an_export_opening export.now opened ∷ [])) }
{
    let mut readers = files.open_export(alloc, export)?;
    match show_disclosed(
        alloc,
        &mut readers.first,
        &mut readers.second,
        disclosure,
        commitment,
        form,
        output,
    ) {
        Ok(end) => Ok(end),
        Err(error) => Err(CommandError::from(error)),
    }
}

// Flushes the output, and then writes the message about the end of an export, if the form has one.
fn end_report<W: FlushedOutput, M: Write>(
    alloc: Global,
    form: ReportForm,
    end: &Accepted,
    output: &mut W,
    messages: &mut M,
) -> Result<(), CommandError>
    ensures kept { Keeps (W.contents output.old) (W.contents output.new) }
    ensures done { OnOk result (W.flushed output.new × Appends (M.contents messages.old) (M.contents messages.new)
        (matched_message form end.now)) }
    ensures fault { IfErr result (IsUnended (W.flushed output.new) (W.unflushed output.new) (M.contents messages.old)
        (M.contents messages.new) (matched_message form end.now)) }
{
    output.flush_last()?;
    Ok(write_matched_message(alloc, form, end, messages)?)
}
