//! What is printed when a command has ended.
use crate::cause::{explain_rest, explain_witness};
use crate::command::Asked;
use crate::disk_blocks::warn_of_blocks;
use crate::explaining::explain_fault;
use crate::heard::Said;
use crate::warning::warn;
use audit_cli_base::Status;
use audit_cli_daemon::{Request as Daemon, Sparing};
use audit_cli_host::Notes;
use std::alloc::Global;
use std::fs::Files;
use std::io::{self, Write};
use std::net::Net;

/// How a command ended.
#[derive(Clone, Copy)]
pub(crate) struct End<'a> {
    /// Why it failed, if it said that.
    pub(crate) said: Option<Said>,
    /// Its status.
    pub(crate) status: Status,
    /// Whether causes and warnings are printed on request.
    pub(crate) explains: bool,
    /// The path of a witness's file that wasn't read.
    pub(crate) unread: Option<&'a str>,
}

/// Prints causes and warnings. A daemon doesn't wait for whoever reads them.
pub(crate) fn explain_end<F: Files + Net, M: Write>(
    rt: &F,
    alloc: Global,
    asked: Asked<'_>,
    end: End<'_>,
    notes: &Notes<'_>,
    messages: &mut M,
) {
    let mut messages = Sparing::new(messages);
    let may_print = match asked {
        Asked::Daemon(Daemon::Run(_)) => messages.spare(rt, alloc).is_ok(),
        _ => true,
    };
    if may_print {
        let _ = print_end(rt, alloc, asked, end, notes, &mut messages);
    }
}

fn print_end<F: Files, M: Write>(
    rt: &F,
    alloc: Global,
    asked: Asked<'_>,
    end: End<'_>,
    notes: &Notes<'_>,
    messages: &mut M,
) -> io::Result<()> {
    let End {
        said,
        status,
        explains,
        unread,
    } = end;
    let said = said.filter(|said| said.ends_with(status));
    if explains || always_explains(asked) {
        match unread {
            Some(path) => explain_witness(rt, path, said, notes, messages)?,
            None => explain_fault(rt, alloc, asked, said, status, notes, messages)?,
        }
    }
    if said.is_none() {
        explain_rest(rt, asked, messages)?;
    }
    if explains {
        warn(rt, alloc, asked, notes, messages)?;
    }
    if explains && status == Status::Done {
        warn_of_blocks(rt, alloc, asked, messages)?;
    }
    Ok(())
}

// Whether the causes of a command's faults are printed in any case: it serves, asks, sends, watches or rotates.
fn always_explains(asked: Asked<'_>) -> bool {
    match asked {
        Asked::Rotation(_)
        | Asked::Prepared(_)
        | Asked::Remote(_)
        | Asked::Serving(_)
        | Asked::Daemon(_) => true,
        Asked::Plain(_)
        | Asked::Lines(_)
        | Asked::Note(_)
        | Asked::Disclosure(_)
        | Asked::Search(_) => false,
    }
}
