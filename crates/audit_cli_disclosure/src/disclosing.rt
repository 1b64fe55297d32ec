//! Disclosing chosen events of an export.
ghost use Rattle.std.specs.Prelude.{◌≡◌, ◌≤◌, ℕ, Option, Result, Ok, List, [], ◌∷◌, ◌++◌, length, IfOk, IfErr};
ghost use Rattle.std.specs.Prelude.{IfSome, MatchResult, OnOk};
ghost use Rattle.std.specs.Io.KnownBytes.{Appends};
ghost use Rattle.audit_text.specs.declared.input.TheConstants.{INPUT_LIMIT};
ghost use Rattle.audit_cli_base.specs.Faults.{IsUnwritten};
ghost use Rattle.audit_cli_base.specs.StartFile.{IsStart};
ghost use Rattle.audit_cli_disclosure.specs.FileCalls.{ExportBytes, a_file_opening, an_export_opening};
ghost use Rattle.audit_cli_disclosure.specs.MadeDisclosure.{AreKeysOfExport, EndsAfterKeys, EndsAfterStart};
ghost use Rattle.audit_cli_disclosure.specs.MadeDisclosure.{EndsDisclosing, IsNoText, IsUndisclosed, IsUnstarted};
ghost use Rattle.audit_cli_disclosure.specs.MadeDisclosure.{disclosed_count, disclosed_data, text_of_disclosed};
ghost use Rattle.audit_cli_disclosure.specs.Words.{AreDisclosingWords};

use crate::files::AuditorFiles;
use crate::words::{Disclosing, DisclosingWords, disclosing_words};
use audit_cli_base::{CommandError, judge_start, read_start};
use audit_disclosure::{Chosen, disclose, disclosure_text};
use audit_proof::Commitment;
use audit_text::{INPUT_LIMIT, LinesError, push_number, write_whole};
use audit_verify::State;
use std::alloc::{AllocError, Global};
use std::io::Write;

/// Makes a file with the keys of the chosen events of an export, once all of it is verified, and prints how many they
/// are.
pub(crate) fn disclose_file<F: AuditorFiles, W: Write>(
    files: &mut F,
    alloc: Global,
    asked: Disclosing<'_>,
    output: &mut W,
) -> Result<(), CommandError>
    ensures { EndsDisclosing F.calls F.Export.failed asked.entry files.old files.new
        (W.contents output.old) (W.contents output.new) result }
{
    let words = disclosing_words(alloc, asked)?;
    disclose_by(files, alloc, asked, &words, output)
}

// The same by words that were judged.
fn disclose_by<F: AuditorFiles, W: Write>(
    files: &mut F,
    alloc: Global,
    asked: Disclosing<'_>,
    words: &DisclosingWords,
    output: &mut W,
) -> Result<(), CommandError>
    requires { AreDisclosingWords asked words.now.commitment words.now.choice }
    ensures { EndsDisclosing F.calls F.Export.failed asked.entry files.old files.new
        (W.contents output.old) (W.contents output.new) result }
{
    let start = start_at(files, alloc, asked.start, &words.commitment)?;
    files.look_for_nothing(asked.out)?;
    disclose_from(files, alloc, asked, words, &start, output)
}

// The state in a file from which an export is verified.
fn start_at<F: AuditorFiles>(
    files: &mut F,
    alloc: Global,
    path: &str,
    commitment: &Commitment,
) -> Result<State, CommandError>
    ensures { MatchResult result
        (λ state. (known : Option (List ℕ)) × IfSome known (λ text. IsStart text state)
        × (state.frontier.count ≤ commitment.now.count)
        × F.calls.DidCalls files.old files.new (a_file_opening path.now (Ok known) ∷ []))
        (λ fault. (opened : Result (Option (List ℕ)) CommandError) × IsUnstarted commitment.now opened fault
        × F.calls.DidCalls files.old files.new (a_file_opening path.now opened ∷ [])) }
{
    let mut file = files.open(path)?;
    let start = read_start(alloc, &mut file)?;
    judge_start(&start, commitment)?;
    Ok(start)
}

// Discloses events of an export that is verified from a state on.
fn disclose_from<F: AuditorFiles, W: Write>(
    files: &mut F,
    alloc: Global,
    asked: Disclosing<'_>,
    words: &DisclosingWords,
    start: &State,
    output: &mut W,
) -> Result<(), CommandError>
    ensures { EndsAfterStart F.calls F.Export.failed asked.entry files.old files.new
        (W.contents output.old) (W.contents output.new) words.now.commitment words.now.choice start.now result }
{
    let chosen = choose_at(files, alloc, asked.export, words, start)?;
    put_disclosed(files, alloc, asked, &chosen, output)
}

// The keys of the chosen events of the export in a file.
fn choose_at<F: AuditorFiles>(
    files: &mut F,
    alloc: Global,
    export: &str,
    words: &DisclosingWords,
    start: &State,
) -> Result<Chosen, CommandError>
    ensures { MatchResult result
        (λ chosen. (known : ExportBytes)
        × AreKeysOfExport words.now.choice start.now words.now.commitment known (disclosed_data chosen)
        × F.calls.DidCalls files.old files.new (an_export_opening export.now (Ok known) ∷ []))
        (λ fault. (opened : Result ExportBytes CommandError)
        × IsUndisclosed F.Export.failed start.now words.now.commitment opened fault
        × F.calls.DidCalls files.old files.new (an_export_opening export.now opened ∷ [])) }
{
    let mut readers = files.open_export(alloc, export)?;
    match disclose(
        alloc,
        &mut readers.first,
        &mut readers.second,
        start,
        &words.commitment,
        &words.choice,
    ) {
        Ok(chosen) => Ok(chosen),
        Err(fault) => Err(CommandError::Export(fault)),
    }
}

// Makes the file for keys that were taken, and prints how many they are.
fn put_disclosed<F: AuditorFiles, W: Write>(
    files: &mut F,
    alloc: Global,
    asked: Disclosing<'_>,
    chosen: &Chosen,
    output: &mut W,
) -> Result<(), CommandError>
    ensures { EndsAfterKeys F.calls F.Export.failed asked.entry files.old files.new
        (W.contents output.old) (W.contents output.new) (disclosed_data chosen.now) result }
{
    let text = text_of(alloc, chosen)?;
    files.make(asked.out, &text)?;
    let chosen_count = chosen.disclosure.keys.len() as u64;
    write_disclosed(alloc, chosen_count, chosen.count, output)
}

// The text of keys that were taken. The error is `InputTooLong` if it is longer than what is read as a disclosure.
fn text_of(alloc: Global, chosen: &Chosen) -> Result<Vec<u8>, CommandError>
    ensures text { IfOk result (λ text. (text.items ≡ text_of_disclosed (disclosed_data chosen.now))
        × (length text.items ≤ INPUT_LIMIT)) }
    ensures fault { IfErr result (IsNoText (disclosed_data chosen.now)) }
{
    let text = disclosure_text(alloc, &chosen.disclosure.start, &chosen.disclosure.keys)?;
    if text.len() > INPUT_LIMIT {
        return Err(CommandError::Lines(LinesError::InputTooLong));
    }
    Ok(text)
}

// Writes the line about a disclosure: how many entries it has, and how many there are.
fn write_disclosed<W: Write>(
    alloc: Global,
    chosen: u64,
    count: u64,
    writer: &mut W,
) -> Result<(), CommandError>
    ensures written { OnOk result (Appends (W.contents writer.old) (W.contents writer.new)
        (disclosed_count chosen count)) }
    ensures fault { IfErr result (IsUnwritten (W.contents writer.old) (W.contents writer.new)) }
{
    let mut line = Vec::new(alloc);
    push_disclosed(&mut line, chosen, count)?;
    write_whole(writer, &line)?;
    Ok(())
}

fn push_disclosed(line: &mut Vec<u8>, chosen: u64, count: u64) -> Result<(), AllocError>
    ensures { OnOk result (line.new.items ≡ line.old.items ++ disclosed_count chosen count) }
{
    push_number(line, b"disclosed ", chosen)?;
    push_number(line, b" ", count)?;
    line.extend_from_slice(b"\n")
}
