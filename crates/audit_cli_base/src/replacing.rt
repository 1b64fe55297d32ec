//! What an output may replace.
ghost use Rattle.std.specs.Prelude.{◌≡◌, ◌⊎◌, IfErr};

use crate::fault::CommandError;
use audit_disk::SECTOR_SIZE;
use audit_log::Header;
use std::fs::{self, Files};
use std::io::{self, ErrorKind, Read};

/// Judges what is at the path of an output, which a file is about to replace. A regular file that begins with a store's
/// header in one of its first two sectors, a device, a pipe, a socket or a folder is `FileExists`. What can't be read is
/// `File`, since it may be a store. Nothing at the path is fine, and so is a link, which alone would be replaced.
pub(crate) fn judge_replaced<R: Files>(rt: &R, path: &str) -> Result<(), CommandError>
    ensures { IfErr result (λ fault. (fault ≡ CommandError.File) ⊎ (fault ≡ CommandError.FileExists)) }
{
    match rt.symlink_metadata(path) {
        Ok(found) if found.is_symlink() => return Ok(()),
        Ok(found) if found.is_file() => {}
        Ok(_) => return Err(CommandError::FileExists),
        Err(error) if error.kind() == ErrorKind::NotFound => return Ok(()),
        Err(error) => return Err(error.into()),
    }
    if begins_store(&mut fs::open(rt, path)?)? {
        return Err(CommandError::FileExists);
    }
    Ok(())
}

// Whether one of the first two sectors is a header.
fn begins_store<F: Read>(file: &mut F) -> io::Result<bool> {
    let mut sector = [0; SECTOR_SIZE];
    for slot in 0..2 {
        match file.read_exact(&mut sector) {
            Ok(()) => {}
            Err(error) if error.kind() == ErrorKind::UnexpectedEof => return Ok(false),
            Err(error) => return Err(error),
        }
        if Header::decode(slot, &sector).is_ok() {
            return Ok(true);
        }
    }
    Ok(false)
}
