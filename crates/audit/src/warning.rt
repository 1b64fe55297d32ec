//! Warnings about files that hold keys.
use crate::command::Asked;
use crate::contents::{StateText, state_in, store_head};
use crate::places::{key_file_of, store_of};
use audit_cli_host::Notes;
use audit_text::Shown;
use std::alloc::Global;
use std::fs::{self, Files};
use std::io::{self, Write};
use std::os::unix::fs::PermissionsExt;

// The permissions of a file for everyone but its owner.
const OTHERS: u32 = 0o077;

/// Prints a warning for each file with a key that others than its owner can access.
pub(crate) fn warn<F: Files, M: Write>(
    rt: &F,
    alloc: Global,
    asked: Asked<'_>,
    notes: &Notes<'_>,
    messages: &mut M,
) -> io::Result<()> {
    if let Some(store) = store_of(asked)
        && let Some(head) = store_head(rt, store)
        && !head.is_closed
    {
        warn_of(rt, store, messages)?;
    }
    match key_file_of(asked) {
        Some(file) if notes.key_text().is_key() => warn_of(rt, file, messages),
        Some(file) => match state_in(rt, alloc, file) {
            Some(
                StateText::Whole {
                    is_closed: false,
                    ..
                },
            ) => warn_of(rt, file, messages),
            _ => Ok(()),
        },
        None => Ok(()),
    }
}

fn warn_of<F: Files, M: Write>(rt: &F, file: &str, messages: &mut M) -> io::Result<()> {
    let Ok(found) = fs::metadata(rt, file) else {
        return Ok(());
    };
    let mode = found.permissions().mode() & 0o777;
    if mode & OTHERS == 0 {
        return Ok(());
    }
    writeln!(
        messages,
        "audit: {}: holds a key, and others can reach it (mode {mode:o})",
        Shown(file)
    )
}
