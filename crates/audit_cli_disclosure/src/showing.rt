//! Showing an export by disclosed keys, in two passes.
ghost use Rattle.std.specs.Prelude.{ℕ, OnOk, IfOk, IfErr, IfSome};
ghost use Rattle.audit_disclosure.specs.DisclosureText.{AreKeysFrom};
ghost use Rattle.audit_cli_disclosure.specs.ShownExport.{FailsShownAgain, FailsToShow, IsShowingFault, IsAgainFault};
ghost use Rattle.audit_cli_disclosure.specs.ShownExport.{ShowsTwice, WritesShown};

use crate::ending::write_last;
use crate::lines::write_entry;
use audit_cli_offline::{OfflineError, ReportForm};
use audit_disclosure::{Disclosure, LinkReader, key_for, match_export};
use audit_proof::Commitment;
use audit_verify::{Accepted, Cause, FallibleRead, VerifyFault};
use std::alloc::Global;
use std::io::Write;

/// Judges an export that can be read twice, as `match_export` does, and writes what its entries show under the keys of
/// a disclosure, which are in the order of their entries. Both readers must be over the same file. The first pass
/// judges the export, and nothing is written if it is refused. The second pass judges each entry again before it writes
/// its line, and then writes the last line of the form `Events`. It returns how the log ends.
///
/// If the file changed in between, the second pass returns the fault that it finds: a fault of an entry, or
/// `WrongCommitment` if the count or the last link isn't that of the first pass. The lines written before are those of
/// linked entries only.
pub fn show_disclosed<R: FallibleRead, W: Write>(
    alloc: Global,
    first: &mut R,
    second: &mut R,
    disclosure: &Disclosure,
    commitment: &Commitment,
    form: ReportForm,
    writer: &mut W,
) -> Result<Accepted, OfflineError>
    requires { (least : ℕ) × AreKeysFrom least disclosure.now.keys.items }
    ensures shown { IfOk result (λ end. IfSome (R.remaining first.old) (λ bytes. IfSome (R.remaining second.old)
        (λ again. ShowsTwice form disclosure.now.start disclosure.now.keys.items commitment.now bytes again end
        (W.contents writer.old) (W.contents writer.new)))) }
    ensures fault { IfErr result (λ error. IfSome (R.remaining first.old) (λ bytes. IfSome (R.remaining second.old)
        (λ again. FailsToShow form disclosure.now.start disclosure.now.keys.items commitment.now bytes again
        (W.contents writer.old) (W.contents writer.new) error))) }
    ensures report { IfErr result (λ error. IsShowingFault error (R.failed first.new) (R.failed second.new)
        (R.remaining first.old) (R.remaining second.old)) }
{
    let end = match_export(first, &disclosure.start, commitment)?;
    show_again(alloc, second, disclosure, &end, form, writer)?;
    Ok(end)
}

// Reads an export again, and writes the lines of its entries.
fn show_again<R: FallibleRead, W: Write>(
    alloc: Global,
    reader: &mut R,
    disclosure: &Disclosure,
    accepted: &Accepted,
    form: ReportForm,
    writer: &mut W,
) -> Result<(), OfflineError>
    requires { (least : ℕ) × AreKeysFrom least disclosure.now.keys.items }
    ensures shown { OnOk result (IfSome (R.remaining reader.old)
        (λ again. WritesShown form disclosure.now.start disclosure.now.keys.items accepted.now again
        (W.contents writer.old) (W.contents writer.new))) }
    ensures fault { IfErr result (λ error. IfSome (R.remaining reader.old)
        (λ again. FailsShownAgain form disclosure.now.start disclosure.now.keys.items error accepted.now again
        (W.contents writer.old) (W.contents writer.new))) }
    ensures report { IfErr result (λ error. IsAgainFault error (R.failed reader.new) (R.remaining reader.old)) }
{
    let mut entries = LinkReader::new(&disclosure.start);
    let mut keys = disclosure.keys.as_slice();
    let mut line = Vec::new(alloc);
    while entries.next_entry(reader)? {
        let index = entries.count() - 1;
        let (key, later) = key_for(keys, index);
        write_entry(alloc, &mut line, form, index, key, entries.held(), writer)?;
        keys = later;
    }
    if !entries.has_reached(accepted) {
        return Err(OfflineError::Export(VerifyFault {
            index: entries.count(),
            cause: Cause::WrongCommitment,
        }));
    }
    write_last(&mut line, form, accepted, writer)?;
    Ok(())
}
