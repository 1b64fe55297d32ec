//! Opening the file of a witness for one look at a time.
ghost use Rattle.std.specs.Prelude.{◌≡◌, true, false, Ok, IfOk, IfErr, IfSome};
ghost use Rattle.std.specs.Time.{instant_nanos};
ghost use Rattle.audit_cli_base.specs.declared.fault.CommandError.TheVariants.{File};
ghost use Rattle.audit_cli_connection.specs.Dialing.{HavePassed};
ghost use Rattle.audit_cli_connection.specs.declared.fault.RemoteError.TheVariants.{Command};
ghost use Rattle.audit_cli_witness.specs.Locking.{IsUnlocked, IsUnlockedNow};

use audit_cli_base::CommandError;
use audit_cli_connection::{Dialing, RemoteError, is_over};
use audit_disk::{SystemFile, SystemFiles};
use std::fs::{self, Files, Metadata, OpenFile, OpenOptions, TryLockError};
use std::io::{self, ErrorKind};
use std::path::Path;
use std::time::Instant;

/// An open file that is locked until it is dropped, and is the one at its path.
#[derive(Drop)]
pub struct Locked<F> {
    /// The file.
    pub file: F,
    /// Whether it was made for this look.
    pub is_made: bool,
}

/// Opens the file of a witness and locks it. If there is none, an empty one is made. While another look has it locked,
/// it is tried again until the seconds have passed; then the error is `StateInUse`. Anything but a regular file is a
/// file fault.
pub fn lock_state<R: SystemFiles + Dialing>(
    rt: &R,
    path: &str,
    seconds: u64,
) -> Result<Locked<R::File>, RemoteError>
where
    R::File: SystemFile,
    // It was locked by a call that nothing else can be taken for.
    ensures locked { IfOk result (λ locked. (R.File.facts locked.file).locked) }
    // It is in use only if a call that locks it failed, and the seconds are over.
    ensures failed { IfErr result (IsUnlocked R.File.facts (R.dials rt.now).read seconds) }
{
    let begun = rt.moment()?;
    for _ in 0..u64::MAX {
        match lock_once(rt, path) {
            Ok(Some(locked)) => return Ok(locked),
            Ok(None) => {}
            Err(fault) => {
                if is_last(rt, fault, begun, seconds)? {
                    return Err(fault);
                }
            }
        }
        rt.wait_for_retry();
    }
    Err(RemoteError::Command(CommandError::File))
}

// Opens the file and locks it without waiting; none if it was removed before it was locked. The error is `StateInUse`
// if another open has it locked, or another file is at the path.
fn lock_once<R: SystemFiles>(rt: &R, path: &str) -> Result<Option<Locked<R::File>>, RemoteError>
where
    R::File: SystemFile,
    ensures locked { IfOk result (λ made. IfSome made (λ locked. (R.File.facts locked.file).locked)) }
    ensures failed { IfErr result (IsUnlockedNow R.File.facts) }
{
    let opened = open_state(rt, path)?;
    if !takes_lock(&opened.file)? {
        return Err(RemoteError::StateInUse);
    }
    let Some(found) = metadata_if_any(rt, path)? else {
        return Ok(None);
    };
    match opened.file.is_same(&found) {
        Ok(()) => Ok(Some(opened)),
        Err(_) => Err(RemoteError::StateInUse),
    }
}

// Whether it isn't tried again after this fault. While the file is in use it is, until the seconds have passed.
fn is_last<R: Dialing>(rt: &R, fault: RemoteError, begun: Instant, seconds: u64) -> io::Result<bool>
    requires { (R.dials rt.now).read (instant_nanos begun) }
    ensures { result ≡ Ok true → fault ≡ RemoteError.StateInUse → HavePassed (R.dials rt.now).read seconds }
{
    if fault != RemoteError::StateInUse {
        return Ok(true);
    }
    let now = rt.moment()?;
    Ok(is_over(begun, now, seconds))
}

/// Removes a file that was made for a look by which nothing was kept. The caller has it locked.
pub fn remove_made<R: Files>(rt: &R, path: &str) {
    if let Ok(found) = fs::symlink_metadata(rt, path)
        && found.is_file()
        && found.len() == 0
    {
        let _ = fs::remove_file(rt, path);
    }
}

// A pipe or a device isn't opened: that might wait, or do something.
fn open_state<R: Files>(rt: &R, path: &str) -> Result<Locked<R::File>, RemoteError>
    ensures { IfErr result (λ fault. fault ≡ Command File) }
{
    let found = metadata_if_any(rt, path)?;
    if let Some(found) = &found
        && !found.is_file()
    {
        return Err(RemoteError::Command(CommandError::File));
    }
    let mut options = OpenOptions::new();
    options.read(true).write(true).create(true);
    let file = options.open(rt, path)?;
    if !file.metadata()?.is_file() {
        return Err(RemoteError::Command(CommandError::File));
    }
    Ok(Locked {
        file,
        is_made: found.is_none(),
    })
}

/// The metadata of what is at a path, if anything is.
pub fn metadata_if_any<R: Files>(rt: &R, path: &str) -> io::Result<Option<Metadata>> {
    match fs::metadata(rt, path) {
        Ok(found) => Ok(Some(found)),
        Err(error) if error.kind() == ErrorKind::NotFound => Ok(None),
        Err(error) => Err(error),
    }
}

fn takes_lock<F: SystemFile>(file: &F) -> io::Result<bool>
    ensures locked { result ≡ Ok true → (F.facts file.now).locked }
    ensures held { result ≡ Ok false → (F.facts file.now).failed }
{
    match file.try_lock() {
        Ok(()) => Ok(true),
        Err(TryLockError::WouldBlock) => Ok(false),
        Err(TryLockError::Error(error)) => Err(error),
    }
}

/// Syncs the name of a file, if its folder can be opened.
pub fn sync_folder<R: Files>(rt: &R, path: &str) -> io::Result<()> {
    let folder = match Path::new(path).parent() {
        Some(folder) if !folder.as_str().is_empty() => folder,
        _ => Path::new("."),
    };
    if let Ok(folder) = fs::open(rt, folder) {
        folder.sync_all()?;
    }
    Ok(())
}
