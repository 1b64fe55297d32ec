//! What is known of the cause of a file fault, and of what a file is.
use crate::bytes::Bytes;
use crate::command::Asked;
use crate::contents::{Contents, contents_of, holds_inclusion};
use crate::heard::Said;
use crate::noted::unread_note;
use crate::places::store_of;
use audit_cli_client::Request as Remote;
use audit_cli_daemon::Request as Daemon;
use audit_cli_disclosure::Request as Disclosure;
use audit_cli_host::Notes;
use audit_cli_rotate::Prepared;
use audit_cli_store::{Access, Request};
use audit_text::Shown;
use std::alloc::Global;
use std::fs::{self, Files};
use std::io::{self, Write};
use std::os::unix::fs::FileTypeExt;

// The bytes of a sector: a store's file has whole sectors.
const SECTOR_LEN: u64 = 512;

/// Prints the last call of the system that failed, or else what is wrong with the file that was to be a store, or a
/// witness's.
pub(crate) fn print_cause<F: Files, M: Write>(
    rt: &F,
    alloc: Global,
    asked: Asked<'_>,
    notes: &Notes<'_>,
    messages: &mut M,
) -> io::Result<()> {
    if let Asked::Remote(request) = asked
        && let Some(kept) = kept_by(request)
    {
        return print_kept_cause(rt, alloc, kept, notes, messages);
    }
    if let Some((name, error)) = notes.last() {
        let name = unread_note(asked).unwrap_or(name);
        return writeln!(messages, "audit: {}: {error}", Shown(name));
    }
    match asked {
        Asked::Daemon(Daemon::Stop { socket }) => {
            let shown = Shown(socket);
            writeln!(
                messages,
                "audit: {shown}: the daemon didn't answer within 30 seconds that it ended"
            )
        }
        _ => match store_of(asked) {
            Some(store) => print_kind(rt, alloc, store, messages),
            None => Ok(()),
        },
    }
}

// The file that a witness or a reader keeps, and that of the witness after which it begins or under which it reads.
fn kept_by<'a>(request: Remote<'a>) -> Option<(&'a str, Option<&'a str>)> {
    match request {
        Remote::Watch { state, after, .. } => Some((state, after)),
        Remote::Read { state, under, .. } => Some((state, under)),
        _ => None,
    }
}

// A file that isn't opened since it is none, or else the last call of the system that failed: before these looks, which
// are calls too.
fn print_kept_cause<F: Files, M: Write>(
    rt: &F,
    alloc: Global,
    kept: (&str, Option<&str>),
    notes: &Notes<'_>,
    messages: &mut M,
) -> io::Result<()> {
    let (state, under) = kept;
    let failed = notes.last();
    if is_other(rt, state) {
        return print_other(state, messages);
    }
    if let Some(under) = under
        && is_other(rt, under)
    {
        return print_other(under, messages);
    }
    if let Ok(lock) = format!(in alloc; "{state}.lock")
        && is_other(rt, &lock)
    {
        return print_other(&lock, messages);
    }
    match failed {
        Some((name, error)) => writeln!(messages, "audit: {}: {error}", Shown(name)),
        None => Ok(()),
    }
}

/// Prints why the file of a witness wasn't read, which a command names whose store has to extend it.
pub(crate) fn explain_witness<F: Files, M: Write>(
    rt: &F,
    path: &str,
    said: Option<Said>,
    notes: &Notes<'_>,
    messages: &mut M,
) -> io::Result<()> {
    if said != Some(Said::FileFault) {
        return Ok(());
    }
    if is_other(rt, path) {
        return print_other(path, messages);
    }
    match notes.last() {
        Some((name, error)) => writeln!(messages, "audit: {}: {error}", Shown(name)),
        None => Ok(()),
    }
}

// Whether something is there that is no regular file.
fn is_other<F: Files>(rt: &F, path: &str) -> bool {
    match fs::metadata(rt, path) {
        Ok(found) => !found.is_file(),
        Err(_) => false,
    }
}

fn print_other<M: Write>(path: &str, messages: &mut M) -> io::Result<()> {
    writeln!(messages, "audit: {}: it is no regular file", Shown(path))
}

// What is wrong with the kind or the length of a file that was to be a store.
fn print_kind<F: Files, M: Write>(
    rt: &F,
    alloc: Global,
    file: &str,
    messages: &mut M,
) -> io::Result<()> {
    let shown = Shown(file);
    let Ok(found) = fs::metadata(rt, file) else {
        return Ok(());
    };
    if !found.is_file() && !found.file_type().is_block_device() {
        return writeln!(messages, "audit: {shown}: it is no regular file");
    }
    if !found.is_file() || found.len() % SECTOR_LEN == 0 {
        return Ok(());
    }
    match contents_of(rt, alloc, file) {
        Some(Contents::Store) | None => writeln!(
            messages,
            "audit: {shown}: its length is no multiple of {SECTOR_LEN} bytes"
        ),
        Some(other) => writeln!(messages, "audit: {shown}: {other}"),
    }
}

/// Prints what a file is that was given in the place of a store, an export, a proof or a link.
pub(crate) fn explain_contents<F: Files, M: Write>(
    rt: &F,
    alloc: Global,
    asked: Asked<'_>,
    said: Option<Said>,
    messages: &mut M,
) -> io::Result<()> {
    if let Asked::Search(asked) = asked
        && said == Some(Said::BadProof)
    {
        return explain_proofs(rt, alloc, asked.proofs, messages);
    }
    let (path, wanted) = match asked {
        Asked::Plain(Request::Check { proof, .. }) => (Some(proof), Contents::Proof),
        Asked::Plain(Request::Open(asked)) => (Some(asked.proof), Contents::Proof),
        Asked::Plain(Request::CheckLink(asked)) => (Some(asked.link), Contents::Link),
        Asked::Plain(Request::Verify(asked)) => (Some(asked.export), Contents::Export),
        Asked::Disclosure(Disclosure::Disclose(asked)) => (Some(asked.export), Contents::Export),
        Asked::Disclosure(Disclosure::Show(asked)) => (Some(asked.export), Contents::Export),
        Asked::Prepared(
            Prepared {
                after: Some(after),
                ..
            },
        ) if said == Some(Said::BadProof) => (Some(after), Contents::Link),
        _ => (store_of(asked), Contents::Store),
    };
    let Some(path) = path else {
        return Ok(());
    };
    match contents_of(rt, alloc, path) {
        Some(found) if found != wanted => writeln!(messages, "audit: {}: {found}", Shown(path)),
        _ => Ok(()),
    }
}

// Prints which of the files of a search holds no inclusion proof.
fn explain_proofs<F: Files, M: Write>(
    rt: &F,
    alloc: Global,
    proofs: &[&str],
    messages: &mut M,
) -> io::Result<()> {
    for path in proofs {
        if !holds_inclusion(rt, alloc, path) {
            return writeln!(messages, "audit: {}: no inclusion proof", Shown(path));
        }
    }
    Ok(())
}

/// Prints how much of the file of a damaged store was left out, since it is no whole sector.
pub(crate) fn explain_rest<F: Files, M: Write>(
    rt: &F,
    asked: Asked<'_>,
    messages: &mut M,
) -> io::Result<()> {
    let file = match asked {
        Asked::Plain(
            Request::Export {
                file,
                access: Access::Salvage,
                ..
            },
        ) => file,
        Asked::Search(asked) => asked.file,
        _ => return Ok(()),
    };
    match fs::metadata(rt, file) {
        Ok(found) if found.is_file() && found.len() % SECTOR_LEN != 0 => {
            let rest = Bytes(found.len() % SECTOR_LEN);
            let shown = Shown(file);
            writeln!(
                messages,
                "audit: {shown}: left out after the last whole sector: {rest}"
            )
        }
        _ => Ok(()),
    }
}
