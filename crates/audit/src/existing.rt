//! Why a file isn't replaced.
use crate::argument::is_same;
use crate::command::Asked;
use crate::contents::{state_in, store_head};
use audit_cli_client::Request as Remote;
use audit_cli_disclosure::Request as Disclosure;
use audit_cli_store::{Request, Site, Verification};
use audit_disk::FileIdentity;
use audit_text::Shown;
use std::alloc::Global;
use std::fs::{self, Files, Metadata};
use std::io::{self, Write};
use std::os::unix::fs::FileTypeExt;

/// Prints what is at the path at which a command was to write, so that it wrote nothing.
pub(crate) fn explain_existing<F: Files, M: Write>(
    rt: &F,
    alloc: Global,
    asked: Asked<'_>,
    messages: &mut M,
) -> io::Result<()> {
    let (path, cause) = match asked {
        Asked::Plain(Request::Export { file, out, .. } | Request::Prove { file, out, .. }) => {
            return explain_output(rt, "OUT", out, (file, "the store"), messages);
        }
        Asked::Search(asked) => {
            return explain_output(rt, "OUT", asked.out, (asked.file, "the store"), messages);
        }
        Asked::Plain(Request::Verify(asked)) => {
            let Some(out) = asked.save else {
                return Ok(());
            };
            return explain_saved(rt, alloc, asked, out, messages);
        }
        Asked::Remote(
            Remote::Ask {
                socket,
                question,
                ..
            },
        ) => {
            let (_, first, second, third) = question;
            let Some(out) = third.or(second).or(first) else {
                return Ok(());
            };
            return explain_output(rt, "OUT", out, (socket, "the socket"), messages);
        }
        Asked::Plain(Request::Format { file, site, .. }) => match site {
            Site::NewFile { .. } => (file, "it is there, and --in-place would format it"),
            Site::InPlace { .. } => {
                (
                    file,
                    "its first MiB isn't zeros, and --erase would overwrite it",
                )
            }
        },
        Asked::Rotation(rotation) => (rotation.new, "it isn't the store that these words make"),
        Asked::Disclosure(Disclosure::Disclose(asked)) => {
            (asked.out, "it is there, and a disclosure replaces nothing")
        }
        _ => return Ok(()),
    };
    writeln!(messages, "audit: {}: {cause}", Shown(path))
}

// Prints why a state isn't written to a path.
fn explain_saved<F: Files, M: Write>(
    rt: &F,
    alloc: Global,
    asked: Verification<'_>,
    out: &str,
    messages: &mut M,
) -> io::Result<()> {
    let is_plain = fs::metadata(rt, out).is_ok_and(|found| found.is_file());
    if is_plain
        && state_in(rt, alloc, out).is_none()
        && store_head(rt, out).is_none()
        && !is_same(rt, asked.export, out)
    {
        return writeln!(
            messages,
            "audit: {}: STATE is a file that has no state",
            Shown(out)
        );
    }
    explain_output(rt, "STATE", out, (asked.export, "EXPORT"), messages)
}

// Prints why an output isn't written to a path. `read` is the path of what is read, and its name.
fn explain_output<F: Files, M: Write>(
    rt: &F,
    name: &'static str,
    out: &str,
    read: (&str, &'static str),
    messages: &mut M,
) -> io::Result<()> {
    let (path, what) = read;
    let shown = Shown(out);
    let Ok(found) = fs::metadata(rt, out) else {
        return writeln!(messages, "audit: {shown}: {name} is gone by now");
    };
    if let Ok(other) = fs::metadata(rt, path)
        && FileIdentity::of(&found) == FileIdentity::of(&other)
    {
        return writeln!(messages, "audit: {shown}: {name} is {what}");
    }
    match kind_at(rt, out, &found) {
        Some(kind) => writeln!(messages, "audit: {shown}: {name} is {kind}"),
        None => writeln!(
            messages,
            "audit: {shown}: another program has {name} locked"
        ),
    }
}

// What a file is that isn't replaced.
fn kind_at<F: Files>(rt: &F, path: &str, found: &Metadata) -> Option<&'static str> {
    if found.file_type().is_block_device() {
        return Some("a block device");
    }
    if !found.is_file() {
        return Some("no regular file");
    }
    store_head(rt, path)?;
    Some("a store")
}
