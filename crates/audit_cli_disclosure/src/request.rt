//! The requests about disclosures, and how they are carried out.
ghost use Rattle.std.specs.Prelude.{◌≡◌, ◌⊎◌, []};
ghost use Rattle.std.specs.Io.KnownBytes.{Keeps};
ghost use Rattle.audit_cli_disclosure.specs.Requests.{EndsRequest, HasWrongDisclosureWord, IsDisclosureRun};

use crate::disclosing::disclose_file;
use crate::files::AuditorFiles;
use crate::matching::show_file;
use crate::words::{Disclosing, Showing};
use audit_cli_base::{CommandError, Status, report_end};
use audit_cli_calls::FlushedOutput;
use std::alloc::Global;
use std::io::Write;

/// A request about a disclosure, with the words of the command line as given.
#[derive(Clone, Copy)]
pub enum Request<'a> {
    /// Verify an export, and make a file with the keys of some of its entries.
    Disclose(Disclosing<'a>),
    /// Judge an export without a key of its log, and write the events that disclosed keys open.
    Show(Showing<'a>),
}

/// Carries out a request. Lines that begin with `audit: ` are written to `messages`, all others to `output`, which is
/// flushed at the end. It returns the program's exit status.
pub fn run<F: AuditorFiles, W: FlushedOutput, M: Write>(
    files: &mut F,
    alloc: Global,
    request: Request<'_>,
    output: &mut W,
    messages: &mut M,
) -> Status
    // What the words ask for was done by these calls and no others, or this is why it wasn't; and the status is that of
    // the result.
    ensures carried { IsDisclosureRun F.calls F.Export.failed W.contents W.flushed W.unflushed request.entry
        files.old files.new (M.contents messages.old) output.old output.new result }

    // A wrong word ends the program before anything is opened, made or written. Judging the others may take memory, and
    // an output that can't be flushed is another fault.
    ensures words { HasWrongDisclosureWord request.entry
        → (result ≡ Status.Usage) ⊎ ((result ≡ Status.Memory) ⊎ (result ≡ Status.Device)) }
    ensures unwritten { HasWrongDisclosureWord request.entry → Keeps (W.contents output.old) (W.contents output.new) }
    ensures unopened { HasWrongDisclosureWord request.entry → F.calls.DidCalls files.old files.new [] }
{
    let done = perform(files, alloc, request, output, messages);
    report_end(done, output.flush_last(), messages)
}

fn perform<F: AuditorFiles, W: FlushedOutput, M: Write>(
    files: &mut F,
    alloc: Global,
    request: Request<'_>,
    output: &mut W,
    messages: &mut M,
) -> Result<(), CommandError>
    ensures { EndsRequest F.calls F.Export.failed request.entry files.old files.new (W.contents output.old)
        (W.contents output.new) (M.contents messages.old) (M.contents messages.new)
        (W.flushed output.new) (W.unflushed output.new) result }
{
    match request {
        Request::Disclose(asked) => disclose_file(files, alloc, asked, output),
        Request::Show(asked) => show_file(files, alloc, asked, output, messages),
    }
}
