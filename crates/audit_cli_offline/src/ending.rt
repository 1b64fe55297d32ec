//! How a report ends among the program's messages.
ghost use Rattle.std.specs.Prelude.{◌≡◌, ◌++◌, OnOk, IfErr};
ghost use Rattle.std.specs.Io.KnownBytes.{Appends};
ghost use Rattle.audit_cli_offline.specs.ReportLines.{end_message};
ghost use Rattle.audit_cli_offline.specs.TwoPasses.{IsLineUnwritten};

use crate::report_form::ReportForm;
use crate::verified_end::VerifiedEnd;
use crate::verifying::push_count;
use audit_text::{LinesError, write_whole};
use std::alloc::{AllocError, Global};
use std::io::Write;

/// Writes the message after a report: `audit: verified`, the number of all entries, and whether the log is closed.
/// After a report in the form `Events`, whose last line has these, nothing is written.
///
/// Errors: `Memory` if memory was refused, and then nothing was written; `Write` if a write failed, and then a prefix
/// of the message was written.
pub fn write_end_message<M: Write>(
    alloc: Global,
    form: ReportForm,
    end: VerifiedEnd,
    messages: &mut M,
) -> Result<(), LinesError>
    ensures written { OnOk result (Appends (M.contents messages.old) (M.contents messages.new)
        (end_message form end)) }
    ensures fault { IfErr result (λ fault. IsLineUnwritten fault (M.contents messages.old) (M.contents messages.new)
        (end_message form end)) }
{
    let mut line = Vec::new(alloc);
    push_message(&mut line, form, end)?;
    write_whole(messages, &line)
}

// Appends the message after a report.
fn push_message(line: &mut Vec<u8>, form: ReportForm, end: VerifiedEnd) -> Result<(), AllocError>
    ensures { OnOk result (line.new.items ≡ line.old.items ++ end_message form end) }
{
    match form {
        ReportForm::Events => Ok(()),
        ReportForm::Text | ReportForm::Numbered | ReportForm::Json => {
            line.extend_from_slice(b"audit: ")?;
            push_count(line, end.count, end.closed)
        }
    }
}
