//! A file that is made for a disclosure.
ghost use Rattle.std.specs.Prelude.{IfErr};
ghost use Rattle.audit_cli_base.specs.Faults.{IsNoWordFault};

use audit_cli_base::CommandError;
use audit_disk::{OWNER_ONLY, SystemFile, SystemFiles};
use std::fs::{self, Files, OpenFile};
use std::io::{ErrorKind, Write};
use std::path::Path;

/// Judges whether nothing is at a path. If something is, a link that leads nowhere too, the error is `FileExists`.
pub(crate) fn judge_nothing<F: Files>(rt: &F, path: &str) -> Result<(), CommandError>
    ensures { IfErr result IsNoWordFault }
{
    match rt.symlink_metadata(path) {
        Ok(_) => Err(CommandError::FileExists),
        Err(error) if error.kind() == ErrorKind::NotFound => Ok(()),
        Err(error) => Err(error.into()),
    }
}

/// Makes a file with these bytes for its owner alone, where nothing is, and syncs it and its name. If something is
/// there, the error is `FileExists`, and it isn't changed. After another error the file is removed: a part of a
/// disclosure would be one, too.
pub(crate) fn make_new<F: SystemFiles>(rt: &F, path: &str, bytes: &[u8]) -> Result<(), CommandError>
where
    F::File: SystemFile,
    ensures { IfErr result IsNoWordFault }
{
    match rt.make_file(path, OWNER_ONLY) {
        Ok(file) => {
            let mut file = file;
            fill_new(rt, &mut file, path, bytes)
        }
        Err(error) if error.kind() == ErrorKind::AlreadyExists => Err(CommandError::FileExists),
        Err(error) => Err(error.into()),
    }
}

fn fill_new<F: SystemFiles, W: OpenFile + Write>(
    rt: &F,
    file: &mut W,
    path: &str,
    bytes: &[u8],
) -> Result<(), CommandError>
where
    F::File: SystemFile,
    ensures { IfErr result IsNoWordFault }
{
    let filled = write_synced(rt, file, path, bytes);
    if filled.is_err() {
        let _ = fs::remove_file(rt, path);
    }
    filled
}

fn write_synced<F: SystemFiles, W: OpenFile + Write>(
    rt: &F,
    file: &mut W,
    path: &str,
    bytes: &[u8],
) -> Result<(), CommandError>
where
    F::File: SystemFile,
    ensures { IfErr result IsNoWordFault }
{
    file.write_all(bytes)?;
    file.sync_all()?;
    Ok(rt.sync_folder(folder_of(path))?)
}

// The folder that has the name of what is at a path.
fn folder_of(path: &str) -> &str {
    match Path::new(path).parent() {
        Some(folder) if !folder.as_str().is_empty() => folder.as_str(),
        _ => ".",
    }
}
