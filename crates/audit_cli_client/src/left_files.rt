//! Files that a run left which was killed.
use std::alloc::{AllocError, Global};
use std::fs::{self, Files};

// How many names are looked for. A run leaves one file at most, and the next one removes it.
const NAMES: u32 = 16;

/// Removes the files beside a state that were to replace it: each holds a key. A file that can't be removed stays. The
/// caller has the state locked.
pub(crate) fn remove_left<R: Files>(rt: &R, alloc: Global, state: &str) -> Result<(), AllocError> {
    match rt.canonicalize(alloc, state) {
        Ok(last) => remove_beside(rt, alloc, last.as_path().as_str()),
        Err(_) => remove_beside(rt, alloc, state),
    }
}

fn remove_beside<R: Files>(rt: &R, alloc: Global, last: &str) -> Result<(), AllocError> {
    for number in 0..NAMES {
        let path = format!(in alloc; "{last}.{number}.tmp")?;
        if let Ok(found) = fs::symlink_metadata(rt, &path)
            && found.is_file()
        {
            let _ = fs::remove_file(rt, &path);
        }
    }
    Ok(())
}
