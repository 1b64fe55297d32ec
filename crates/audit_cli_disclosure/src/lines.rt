//! What is printed of the entries of an export, of which some can be opened.
ghost use Rattle.std.specs.Prelude.{◌≡◌, ◌++◌, ◌∷◌, [], OnOk, IfErr, length, codes, option_map};
ghost use Rattle.std.specs.Fmt.{decimal};
ghost use Rattle.std.specs.Io.KnownBytes.{Appends};
ghost use Rattle.json.specs.Token.{key, number};
ghost use Rattle.audit_chain.specs.EntryForm.{EntryParts};
ghost use Rattle.audit_disclosure.specs.ShownEntries.{shown_event};
ghost use Rattle.audit_link.specs.OpenedEntry.{IsEntryOf, IsSoleEntry};
ghost use Rattle.audit_cli_offline.specs.TwoPasses.{IsLineUnwritten};
ghost use Rattle.audit_cli_disclosure.specs.SealedLines.{sealed_line, sealed_json, sealed_text};
ghost use Rattle.audit_cli_disclosure.specs.ShownReport.{shown_text};

use audit_base::Hash;
use audit_chain::{EntryView, read_entry};
use audit_cli_offline::{ReportForm, open_entry, write_opened};
use audit_text::{LinesError, push_number, write_whole};
use json::Writer;
use std::alloc::{AllocError, Global};
use std::io::Write;
use std::mem;

/// Writes what is printed of an entry that has this index: with its key the event that it reads as, and otherwise that
/// it is sealed. The buffer is reused.
///
/// Errors: `Memory` if memory was refused, and then nothing was written; `Write` if a write failed, and then a prefix
/// of the line was written.
pub(crate) fn write_entry<W: Write>(
    alloc: Global,
    line: &mut Vec<u8>,
    form: ReportForm,
    index: u64,
    key: Option<Hash>,
    entry: &[u8],
    writer: &mut W,
) -> Result<(), LinesError>
    requires { IsSoleEntry entry.now }
    ensures written { (parts : EntryParts) → IsEntryOf entry.now parts
        → OnOk result (Appends (W.contents writer.old) (W.contents writer.new)
        (shown_text form index parts (shown_event key parts))) }
    ensures fault { (parts : EntryParts) → IsEntryOf entry.now parts
        → IfErr result (λ fault. IsLineUnwritten fault (W.contents writer.old) (W.contents writer.new)
        (shown_text form index parts (shown_event key parts))) }
{
    match key {
        Some(key) => write_open(alloc, form, index, &key, entry, writer),
        None => {
            put_sealed(alloc, line, form, index, entry)?;
            write_whole(writer, line)
        }
    }
}

// Writes the event that an entry reads as under its key.
fn write_open<W: Write>(
    alloc: Global,
    form: ReportForm,
    index: u64,
    key: &Hash,
    entry: &[u8],
    writer: &mut W,
) -> Result<(), LinesError>
    requires { IsSoleEntry entry.now }
    ensures written { (parts : EntryParts) → IsEntryOf entry.now parts
        → OnOk result (Appends (W.contents writer.old) (W.contents writer.new)
        (shown_text form index parts (shown_event (Some key.now) parts))) }
    ensures fault { (parts : EntryParts) → IsEntryOf entry.now parts
        → IfErr result (λ fault. IsLineUnwritten fault (W.contents writer.old) (W.contents writer.new)
        (shown_text form index parts (shown_event (Some key.now) parts))) }
{
    let Some(opened) = open_entry(alloc, entry, key)? else {
        unreachable!();
    };
    write_opened(alloc, form, index, &opened, writer)
}

// Replaces the contents of the buffer with what is printed of a sealed entry.
fn put_sealed(
    alloc: Global,
    line: &mut Vec<u8>,
    form: ReportForm,
    index: u64,
    entry: &[u8],
) -> Result<(), AllocError>
    requires { IsSoleEntry entry.now }
    ensures { (parts : EntryParts) → IsEntryOf entry.now parts
        → OnOk result (line.new.items ≡ sealed_text form index parts.kind (length parts.cipher)) }
{
    let Ok(view) = read_entry(entry) else {
        unreachable!();
    };
    line.clear();
    match form {
        ReportForm::Events => push_sealed(line, index, &view),
        ReportForm::Json => push_sealed_json(alloc, line, index, &view),
        ReportForm::Text | ReportForm::Numbered => Ok(()),
    }
}

// Appends the line with the index, the kind and the length of a sealed entry.
#[tactic(auto, unfolding(crate::specs::SealedLines::sealed_line))]
fn push_sealed(line: &mut Vec<u8>, index: u64, view: &EntryView<'_>) -> Result<(), AllocError>
    ensures { OnOk result (line.new.items
        ≡ line.old.items ++ sealed_line index view.now.kind (length view.now.cipher)) }
{
    push_number(line, b"sealed ", index)?;
    push_number(line, b" ", u64::from(view.kind()))?;
    push_number(line, b" ", view.cipher().len() as u64)?;
    line.extend_from_slice(b"\n")
}

// Appends the object of a sealed entry. If memory is refused the buffer's contents are lost.
fn push_sealed_json(
    alloc: Global,
    line: &mut Vec<u8>,
    index: u64,
    view: &EntryView<'_>,
) -> Result<(), AllocError>
    ensures { OnOk result (line.new.items
        ≡ line.old.items ++ sealed_json index view.now.kind (length view.now.cipher)) }
{
    let mut writer = Writer::new(mem::replace(line, Vec::new(alloc)));
    writer.begin_object()?;
    write_member(&mut writer, "index", index)?;
    write_member(&mut writer, "kind", u64::from(view.kind()))?;
    write_member(&mut writer, "sealed", view.cipher().len() as u64)?;
    writer.end_object()?;
    *line = writer.into_inner();
    line.extend_from_slice(b"\n")
}

fn write_member(writer: &mut Writer, name: &str, value: u64) -> Result<(), AllocError>
    ensures before { writer.new.before ≡ writer.old.before }
    ensures written { OnOk result
        (writer.new.tokens ≡ writer.old.tokens ++ key name.now ∷ number (decimal value) ∷ []) }
{
    writer.key(name)?;
    writer.u64(value)
}
