//! The file of a link: it is made whole, or found, and read again in both cases.
ghost use Rattle.std.specs.Prelude.{◌≡◌, ◌≢◌, ◌⊎◌, ◌<◌, List, length, Err, IfOk, IfErr, IfSome, OnOk, OnErr};
ghost use Rattle.audit_disk.specs.Folder.{folder_of};
ghost use Rattle.audit_link.specs.Links.{LinkData, link_in};
ghost use Rattle.audit_link.specs.LinkBytes.{SpellsLink};
ghost use Rattle.audit_text.specs.declared.input.TheConstants.{INPUT_LIMIT};
ghost use Rattle.audit_cli_rotate.specs.LinkFile.{HasLinkAt, HasBytesAt, IsJudgingFault, IsLinkNotIn, IsLinkUnread};
ghost use Rattle.audit_cli_rotate.specs.LinkFile.{IsCallFault, IsNotKept};

use crate::file_names::FileNames;
use crate::files::{Names, drop_leftover, drop_second_name, give_name, temporary_name};
use crate::prepared_error::PreparedError;
use audit_base::are_equal;
use audit_cli_base::CommandError;
use audit_disk::{FileIdentity, OWNER_ONLY, SystemFile};
use audit_link::{Link, LinkError, read_link};
use audit_store::StoreError;
use audit_text::{LinesError, read_input};
use std::alloc::Global;
use std::io::Read;
use std::path::Path;

/// Sees to it that a file has these bytes, and that its folder was synced: if nothing is at the path, a file is made for
/// its owner alone. What is there already isn't changed. The error is `OtherLink` if that is anything else.
pub(crate) fn keep_link<F: FileNames>(
    rt: &F,
    alloc: Global,
    path: &str,
    bytes: &[u8],
) -> Result<(), PreparedError>
where
    F::File: SystemFile,
    ensures kept { OnOk result (HasBytesAt F.File.facts F.File.remaining (F.synced rt.now) path.now bytes.now) }
    ensures fault { IfErr result (IsNotKept F.File.facts F.File.remaining (F.failed rt.now ⊎ F.unnamed rt.now) path.now
        bytes.now) }
{
    if rt.see(path)?.is_none() {
        make_link_file(rt, alloc, path, bytes)?;
    }
    find_link_file(rt, alloc, path, bytes)
}

// Makes the file under a temporary name, which is exchanged for its own when it is written and synced.
fn make_link_file<F: FileNames>(
    rt: &F,
    alloc: Global,
    path: &str,
    bytes: &[u8],
) -> Result<(), CommandError>
where
    F::File: SystemFile,
    ensures { IfErr result (IsCallFault (F.failed rt.now ⊎ F.unnamed rt.now)) }
{
    let temporary = temporary_name(alloc, path)?;
    drop_leftover(rt, alloc, &temporary)?;
    let names = Names {
        temporary: temporary.as_str(),
        own: path,
    };
    let mut file = rt.make_file(names.temporary, OWNER_ONLY)?;
    match write_synced(rt, &mut file, bytes) {
        // The file is locked until it has its name.
        Ok(identity) => give_name(rt, identity, names),
        Err(fault) => {
            let _ = rt.remove_name(names.temporary);
            Err(fault)
        }
    }
}

// Locks a file, writes the bytes and syncs it.
fn write_synced<F: FileNames>(
    rt: &F,
    file: &mut F::File,
    bytes: &[u8],
) -> Result<FileIdentity, CommandError>
where
    F::File: SystemFile,
    ensures { IfErr result (IsCallFault (F.failed rt.now ⊎ F.unnamed rt.now)) }
{
    if file.try_lock().is_err() {
        return Err(CommandError::InUse);
    }
    rt.write_and_sync(file, bytes)?;
    Ok(FileIdentity::of(&rt.see_open(file)?))
}

// Finds that a file has these bytes, and syncs its folder, since a run may have been killed before it did.
fn find_link_file<F: FileNames>(
    rt: &F,
    alloc: Global,
    path: &str,
    bytes: &[u8],
) -> Result<(), PreparedError>
where
    F::File: SystemFile,
    ensures kept { OnOk result (HasBytesAt F.File.facts F.File.remaining (F.synced rt.now) path.now bytes.now) }
    ensures fault { IfErr result (IsNotKept F.File.facts F.File.remaining (F.failed rt.now ⊎ F.unnamed rt.now) path.now
        bytes.now) }
{
    let found = rt.look(path)?;
    // A folder, or what might wait, isn't opened.
    if rt.judge(&found, false).is_err() {
        return Err(PreparedError::OtherLink);
    }
    let mut file = rt.open_to_read(path)?;
    judge_bytes(alloc, &mut file, bytes)?;
    drop_second_name(rt, alloc, path, FileIdentity::of(&found))?;
    Ok(rt.sync_folder(folder_of(path))?)
}

// Judges whether a file has these bytes, and no others.
fn judge_bytes<R: Read>(alloc: Global, reader: &mut R, bytes: &[u8]) -> Result<(), PreparedError>
    ensures same { OnOk result (IfSome (R.remaining reader.old) (λ found. found ≡ bytes.now)) }
    ensures others { result ≡ Err PreparedError.OtherLink → IfSome (R.remaining reader.old) (λ found.
        (INPUT_LIMIT < length found) ⊎ (found ≢ bytes.now)) }
    ensures fault { IfErr result IsJudgingFault }
{
    match read_input(alloc, reader) {
        Ok(found) => judge_found(&found, bytes),
        Err(LinesError::InputTooLong) => Err(PreparedError::OtherLink),
        Err(fault) => Err(PreparedError::Command(CommandError::Lines(fault))),
    }
}

fn judge_found(found: &[u8], bytes: &[u8]) -> Result<(), PreparedError>
    ensures same { OnOk result (found.now ≡ bytes.now) }
    ensures others { OnErr result (found.now ≢ bytes.now) }
    ensures fault { IfErr result (λ fault. fault ≡ PreparedError.OtherLink) }
{
    if are_equal(found, bytes) {
        Ok(())
    } else {
        Err(PreparedError::OtherLink)
    }
}

/// The link in the file at a path. The error is `BadProof` if the file has none.
pub(crate) fn link_at<F: FileNames>(rt: &F, alloc: Global, path: &str) -> Result<Link, CommandError>
where
    F::File: SystemFile,
    ensures read { IfOk result (λ link. HasLinkAt F.File.facts F.File.remaining path.now (link_in link)) }
    ensures fault { IfErr result (IsLinkUnread F.File.facts F.File.remaining (F.failed rt.now ⊎ F.unnamed rt.now)
        path.now) }
{
    let mut file = rt.open_to_read(path)?;
    link_in_file(alloc, &mut file)
}

// The link in a file, which contains nothing else. An input that is too long is no link.
fn link_in_file<R: Read>(alloc: Global, reader: &mut R) -> Result<Link, CommandError>
    ensures read { IfOk result (λ link. IfSome (R.remaining reader.old) (λ bytes. SpellsLink bytes (link_in link))) }
    ensures fault { IfErr result (IsLinkNotIn (R.remaining reader.old)) }
{
    match read_input(alloc, reader) {
        Ok(bytes) => link_of(alloc, &bytes),
        Err(LinesError::InputTooLong) => Err(CommandError::BadProof),
        Err(fault) => Err(CommandError::Lines(fault)),
    }
}

fn link_of(alloc: Global, bytes: &[u8]) -> Result<Link, CommandError>
    ensures read { IfOk result (λ link. SpellsLink bytes.now (link_in link)) }
    ensures fault { IfErr result (λ fault. ((fault ≡ CommandError.BadProof)
        × ((link : LinkData) → SpellsLink bytes.now link → ⊥)) ⊎ (fault ≡ CommandError.Refused StoreError.Memory)) }
{
    match read_link(alloc, bytes) {
        Ok(link) => Ok(link),
        Err(LinkError::BadLink) => Err(CommandError::BadProof),
        Err(LinkError::Memory) => Err(CommandError::Refused(StoreError::Memory)),
    }
}

// The folder that has the name of what is at a path.
pub(crate) fn folder_of(path: &str) -> &str
    ensures { result.now ≡ folder_of path.now }
{
    match Path::new(path).parent() {
        Some(folder) if !folder.as_str().is_empty() => folder.as_str(),
        _ => ".",
    }
}
