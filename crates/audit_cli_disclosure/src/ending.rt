//! How the report of an export that was matched ends.
ghost use Rattle.std.specs.Prelude.{◌≡◌, ◌++◌, OnOk, IfErr};
ghost use Rattle.std.specs.Io.KnownBytes.{Appends};
ghost use Rattle.audit_cli_offline.specs.TwoPasses.{IsLineUnwritten};
ghost use Rattle.audit_cli_disclosure.specs.ShownReport.{matched_line, last_matched, matched_message};

use audit_cli_offline::{ReportForm, push_state};
use audit_text::{LinesError, push_number, write_whole};
use audit_verify::Accepted;
use std::alloc::{AllocError, Global};
use std::io::Write;

/// Writes what follows the entries: in the form `Events` a line with the number of all entries and whether the last one
/// closes the log, and nothing in another form. The buffer is reused.
pub(crate) fn write_last<W: Write>(
    line: &mut Vec<u8>,
    form: ReportForm,
    end: &Accepted,
    writer: &mut W,
) -> Result<(), LinesError>
    ensures written { OnOk result (Appends (W.contents writer.old) (W.contents writer.new)
        (last_matched form end.now)) }
    ensures fault { IfErr result (λ fault. IsLineUnwritten fault (W.contents writer.old) (W.contents writer.new)
        (last_matched form end.now)) }
{
    put_last(line, form, end)?;
    write_whole(writer, line)
}

fn put_last(line: &mut Vec<u8>, form: ReportForm, end: &Accepted) -> Result<(), AllocError>
    ensures { OnOk result (line.new.items ≡ last_matched form end.now) }
{
    line.clear();
    match form {
        ReportForm::Events => push_matched(line, end),
        ReportForm::Text | ReportForm::Numbered | ReportForm::Json => Ok(()),
    }
}

// Appends the line with the number of all entries.
fn push_matched(line: &mut Vec<u8>, end: &Accepted) -> Result<(), AllocError>
    ensures { OnOk result (line.new.items ≡ line.old.items ++ matched_line end.now.count end.now.closed) }
{
    push_number(line, b"matched ", end.count)?;
    line.extend_from_slice(b" ")?;
    push_state(line, end.closed)?;
    line.extend_from_slice(b"\n")
}

/// Writes the message after a report: `audit: matched`, the number of all entries, and whether the last one closes the
/// log. After a report in the form `Events`, whose last line has these, nothing is written.
///
/// Errors: `Memory` if memory was refused, and then nothing was written; `Write` if a write failed, and then a prefix
/// of the message was written.
pub(crate) fn write_matched_message<M: Write>(
    alloc: Global,
    form: ReportForm,
    end: &Accepted,
    messages: &mut M,
) -> Result<(), LinesError>
    ensures written { OnOk result (Appends (M.contents messages.old) (M.contents messages.new)
        (matched_message form end.now)) }
    ensures fault { IfErr result (λ fault. IsLineUnwritten fault (M.contents messages.old) (M.contents messages.new)
        (matched_message form end.now)) }
{
    let mut line = Vec::new(alloc);
    push_message(&mut line, form, end)?;
    write_whole(messages, &line)
}

// Appends the message after a report.
fn push_message(line: &mut Vec<u8>, form: ReportForm, end: &Accepted) -> Result<(), AllocError>
    ensures { OnOk result (line.new.items ≡ line.old.items ++ matched_message form end.now) }
{
    match form {
        ReportForm::Events => Ok(()),
        ReportForm::Text | ReportForm::Numbered | ReportForm::Json => {
            line.extend_from_slice(b"audit: ")?;
            push_matched(line, end)
        }
    }
}
