//! Answers that are put into a file once they are accepted.
ghost use Rattle.std.specs.Prelude.{◌≡◌, ◌⊎◌, ℕ, List, [], length, Option, Some, None, Err, IfOk, IfErr, OnOk, OnErr};
ghost use Rattle.audit_wire_ask.specs.declared.fault.ClientError.{ClientError};
ghost use Rattle.audit_wire_ask.specs.Failing.{FailsEntry, FailsMember, FailsIncrement, FailsExport, FailsPutting};
ghost use Rattle.audit_wire_ask.specs.Failing.{FailsPuttingOne, IsUnasked, PuttingBreaksOnlyIf};
ghost use Rattle.audit_wire_ask.specs.Putting.{IsFile, PutsOnly, IsGivenEntry, IsGivenMember, IsGivenIncrement};
ghost use Rattle.audit_wire_ask.specs.Putting.{AreGivenEntries};
ghost use Rattle.audit_wire_ask.specs.Exporting.{GivesExport};
ghost use Rattle.std.specs.List.{concat};

use crate::asking::{entry_of, increment_proof, member_proof};
use crate::exporting::{Export, export_entries};
use crate::fallible_write::FallibleWrite;
use crate::fault::ClientError;
use std::alloc::Global;
use std::io::{Read, Write};

/// Where the file of an answer is put.
pub trait Out {
    /// Why it can't be put there.
    type Error;

    /// A file that is written. Nobody sees it before it is put.
    type Draft: FallibleWrite + Drop;

    /// The file that was put there, if one was: its bytes, where they are known.
    ghost file: { Self → Option (Option (List ℕ)) };

    /// Begins an empty file. Its bytes are known from the start, or those of no file are.
    fn draft(&mut self) -> Result<Self::Draft, Self::Error>
        ensures kept { file self.new ≡ file self.old }
        ensures empty { IfOk result (λ draft. (Self.Draft.contents draft ≡ Some [])
            ⊎ ((other : Self.Draft) → Self.Draft.contents other ≡ None)) };

    /// Puts a file. After an error it may have been put, or not.
    fn put(&mut self, draft: Self::Draft) -> Result<(), Self::Error>
        ensures done { OnOk result (file self.new ≡ Some (Self.Draft.contents draft)) }
        ensures part { OnErr result ((file self.new ≡ file self.old)
            ⊎ (file self.new ≡ Some (Self.Draft.contents draft))) };

    /// Drops a file that isn't to be put.
    fn discard(&mut self, draft: Self::Draft)
        ensures { file self.new ≡ file self.old };
}

/// Why an answer wasn't put into a file.
#[derive(Clone, Copy, Debug, PartialEq, Eq)]
pub enum AskError<E> {
    /// The server didn't answer, its answer isn't accepted, or it couldn't be written.
    Client(ClientError),
    /// The file couldn't be begun or put.
    Out(E),
}

/// Asks for the entry of an index, as [`entry_of`](crate::entry_of) does, and puts it. Returns its size in bytes.
pub fn put_entry<W: Write, R: Read, O: Out>(
    alloc: Global,
    to: &mut W,
    from: &mut R,
    index: u64,
    out: &mut O,
) -> Result<u64, AskError<O::Error>>
    // Whatever happens, nothing is put but what is accepted under the commitment that was read.
    ensures only { PutsOnly (O.file out.old) (O.file out.new) (IsGivenEntry (W.contents to.old) (W.contents to.new)
        (R.remaining from.old) (R.remaining from.new) index) }
    ensures done { IfOk result (λ size. (bytes : List ℕ) × (size ≡ length bytes) × IsFile (O.file out.new) bytes
        × IsGivenEntry (W.contents to.old) (W.contents to.new) (R.remaining from.old) (R.remaining from.new)
        index bytes) }
    // Why it failed, and that nothing is put unless it was the file.
    ensures fault { IfErr result (FailsPuttingOne (IsGivenEntry (W.contents to.old) (W.contents to.new)
        (R.remaining from.old) (R.remaining from.new) index) (FailsEntry (W.contents to.old) (W.contents to.new)
        (R.remaining from.old) (R.remaining from.new) index)) }
    ensures untouched { (error : ClientError) → result ≡ Err (AskError.Client error) → O.file out.new ≡ O.file out.old }
    // That the file couldn't be written is said only if its last call failed.
    ensures broken { IfErr result (PuttingBreaksOnlyIf ((draft : O.Draft) × O.Draft.failed draft)) }
{
    match entry_of(alloc, to, from, index) {
        Ok(entry) => put_bytes(&entry, out),
        Err(error) => Err(AskError::Client(error)),
    }
}

/// Asks for a membership (inclusion) proof, as [`member_proof`](crate::member_proof) does, and puts it. Returns its
/// size in bytes.
pub fn put_member<W: Write, R: Read, O: Out>(
    alloc: Global,
    to: &mut W,
    from: &mut R,
    index: u64,
    count: u64,
    out: &mut O,
) -> Result<u64, AskError<O::Error>>
    ensures only { PutsOnly (O.file out.old) (O.file out.new) (IsGivenMember (W.contents to.old) (W.contents to.new)
        (R.remaining from.old) (R.remaining from.new) index count) }
    ensures done { IfOk result (λ size. (bytes : List ℕ) × (size ≡ length bytes) × IsFile (O.file out.new) bytes
        × IsGivenMember (W.contents to.old) (W.contents to.new) (R.remaining from.old) (R.remaining from.new)
        index count bytes) }
    ensures fault { IfErr result (FailsPuttingOne (IsGivenMember (W.contents to.old) (W.contents to.new)
        (R.remaining from.old) (R.remaining from.new) index count) (FailsMember (W.contents to.old) (W.contents to.new)
        (R.remaining from.old) (R.remaining from.new) index count)) }
    ensures untouched { (error : ClientError) → result ≡ Err (AskError.Client error) → O.file out.new ≡ O.file out.old }
    ensures broken { IfErr result (PuttingBreaksOnlyIf ((draft : O.Draft) × O.Draft.failed draft)) }
{
    match member_proof(alloc, to, from, index, count) {
        Ok(proof) => put_bytes(&proof, out),
        Err(error) => Err(AskError::Client(error)),
    }
}

/// Asks for an incremental (consistency) proof, as [`increment_proof`](crate::increment_proof) does, and puts it.
/// Returns its size in bytes.
pub fn put_increment<W: Write, R: Read, O: Out>(
    alloc: Global,
    to: &mut W,
    from: &mut R,
    older: u64,
    newer: u64,
    out: &mut O,
) -> Result<u64, AskError<O::Error>>
    ensures only { PutsOnly (O.file out.old) (O.file out.new) (IsGivenIncrement (W.contents to.old) (W.contents to.new)
        (R.remaining from.old) (R.remaining from.new) older newer) }
    ensures done { IfOk result (λ size. (bytes : List ℕ) × (size ≡ length bytes) × IsFile (O.file out.new) bytes
        × IsGivenIncrement (W.contents to.old) (W.contents to.new) (R.remaining from.old) (R.remaining from.new)
        older newer bytes) }
    ensures fault { IfErr result (FailsPuttingOne (IsGivenIncrement (W.contents to.old) (W.contents to.new)
        (R.remaining from.old) (R.remaining from.new) older newer) (FailsIncrement (W.contents to.old)
        (W.contents to.new) (R.remaining from.old) (R.remaining from.new) older newer)) }
    ensures untouched { (error : ClientError) → result ≡ Err (AskError.Client error) → O.file out.new ≡ O.file out.old }
    ensures broken { IfErr result (PuttingBreaksOnlyIf ((draft : O.Draft) × O.Draft.failed draft)) }
{
    match increment_proof(alloc, to, from, older, newer) {
        Ok(proof) => put_bytes(&proof, out),
        Err(error) => Err(AskError::Client(error)),
    }
}

fn put_bytes<O: Out>(bytes: &[u8], out: &mut O) -> Result<u64, AskError<O::Error>>
    ensures only { (O.file out.new ≡ O.file out.old) ⊎ IsFile (O.file out.new) bytes.now }
    ensures done { OnOk result (IsFile (O.file out.new) bytes.now) }
    ensures size { IfOk result (λ size. size ≡ length bytes.now) }
    ensures fault { IfErr result (FailsPuttingOne (λ answer. answer ≡ bytes.now) (λ error. ⊥)) }
    ensures untouched { (error : ClientError) → result ≡ Err (AskError.Client error) → O.file out.new ≡ O.file out.old }
    ensures broken { IfErr result (PuttingBreaksOnlyIf ((draft : O.Draft) × O.Draft.failed draft)) }
{
    let mut draft = match out.draft() {
        Ok(draft) => draft,
        Err(error) => return Err(AskError::Out(error)),
    };
    if draft.write_text(bytes).is_err() {
        out.discard(draft);
        return Err(AskError::Client(ClientError::Output));
    }
    match out.put(draft) {
        Ok(()) => Ok(bytes.len() as u64),
        Err(error) => Err(AskError::Out(error)),
    }
}

/// Asks for all entries from `first` on, as [`export_entries`](crate::export_entries) does, and puts them.
pub fn put_export<W: Write, R: Read, O: Out>(
    alloc: Global,
    to: &mut W,
    from: &mut R,
    first: u64,
    out: &mut O,
) -> Result<Export, AskError<O::Error>>
    ensures only { PutsOnly (O.file out.old) (O.file out.new) (AreGivenEntries (W.contents to.old) (W.contents to.new)
        (R.remaining from.old) (R.remaining from.new) first) }
    ensures done { IfOk result (λ export. (entries : List (List ℕ)) × (export.count ≡ length entries)
        × (export.size ≡ length (concat entries)) × IsFile (O.file out.new) (concat entries)
        × GivesExport (W.contents to.old) (W.contents to.new) (R.remaining from.old) (R.remaining from.new) first
        entries) }
    ensures fault { IfErr result (FailsPutting ⊥ (IsUnasked (W.contents to.old) (W.contents to.new)
        (R.remaining from.old) (R.remaining from.new) ⊎ ((bytes : List ℕ) × AreGivenEntries (W.contents to.old)
        (W.contents to.new) (R.remaining from.old) (R.remaining from.new) first bytes)) (λ error. (begun left : O.Draft)
        × FailsExport (W.contents to.old) (W.contents to.new) (R.remaining from.old) (R.remaining from.new)
        first (O.Draft.contents begun) (O.Draft.contents left) error)) }
    ensures untouched { (error : ClientError) → result ≡ Err (AskError.Client error) → O.file out.new ≡ O.file out.old }
    ensures broken { IfErr result (PuttingBreaksOnlyIf ((draft : O.Draft) × O.Draft.failed draft)) }
{
    let mut draft = match out.draft() {
        Ok(draft) => draft,
        Err(error) => return Err(AskError::Out(error)),
    };
    let export = match export_entries(alloc, to, from, first, &mut draft) {
        Ok(export) => export,
        Err(error) => {
            out.discard(draft);
            return Err(AskError::Client(error));
        }
    };
    match out.put(draft) {
        Ok(()) => Ok(export),
        Err(error) => Err(AskError::Out(error)),
    }
}
