//! Events of entries that were opened with the keys of their keystreams, which placed appends' acknowledgements have.
ghost use Rattle.std.specs.Prelude.{OnOk, IfErr};
ghost use Rattle.std.specs.Io.KnownBytes.{Appends};
ghost use Rattle.audit_cli_offline.specs.OpenedEntry.{event_in};
ghost use Rattle.audit_cli_offline.specs.ReportLines.{event_text};
ghost use Rattle.audit_cli_offline.specs.TwoPasses.{IsLineUnwritten};

use crate::report_form::ReportForm;
use crate::verifying::push_in_form;
use audit_link::OpenedEvent;
use audit_text::{LinesError, write_whole};
use std::alloc::Global;
use std::io::Write;

/// Writes an opened event that has this index, as an event of a verified export is printed in this form.
///
/// Errors: `Memory` if memory was refused for the line, and then nothing was written; `Write` if a write failed, and
/// then a prefix of the line was written.
pub fn write_opened<W: Write>(
    alloc: Global,
    form: ReportForm,
    index: u64,
    opened: &OpenedEvent,
    writer: &mut W,
) -> Result<(), LinesError>
    ensures written { OnOk result (Appends (W.contents writer.old) (W.contents writer.new)
        (event_text form index (event_in opened.now))) }
    ensures fault { IfErr result (λ fault. IsLineUnwritten fault (W.contents writer.old) (W.contents writer.new)
        (event_text form index (event_in opened.now))) }
{
    let mut line = Vec::new(alloc);
    push_in_form(alloc, &mut line, form, index, opened.kind, &opened.payload)?;
    write_whole(writer, &line)
}
