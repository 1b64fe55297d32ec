//! Printing the causes of what commands say, in separate lines.
use crate::argument::explain_argument;
use crate::cause::{explain_contents, print_cause};
use crate::command::Asked;
use crate::continuing::explain_entry;
use crate::existing::explain_existing;
use crate::heard::Said;
use crate::outside::explain_outside;
use crate::places::store_of;
use crate::server::explain_server;
use crate::wrong_word::wrong_word;
use audit_cli_base::Status;
use audit_cli_host::Notes;
use audit_cli_offline::commitment_in_word;
use audit_cli_store::Request;
use audit_text::Shown;
use std::alloc::Global;
use std::fs::Files;
use std::io::{self, Write};

/// Prints why a command failed, in a line after the one in which it said that it did, if more is known.
pub(crate) fn explain_fault<F: Files, M: Write>(
    rt: &F,
    alloc: Global,
    asked: Asked<'_>,
    said: Option<Said>,
    status: Status,
    notes: &Notes<'_>,
    messages: &mut M,
) -> io::Result<()> {
    match said {
        Some(Said::BadArgument) => explain_argument(rt, alloc, asked, notes, messages),
        Some(Said::FileFault | Said::DeviceFault) => print_cause(rt, alloc, asked, notes, messages),
        Some(Said::BadEntry) if status == Status::Device => {
            print_cause(rt, alloc, asked, notes, messages)
        }
        Some(Said::FileExists) => explain_existing(rt, alloc, asked, messages),
        Some(Said::InUse) => explain_use(asked, notes, messages),
        Some(Said::NoSuchVersion) => explain_outside(rt, asked, notes, messages),
        Some(Said::BadSize) => match wrong_word(asked) {
            Some(wrong) => writeln!(messages, "audit: {wrong}"),
            None => Ok(()),
        },
        Some(Said::NotAStore | Said::BadProof) => explain_contents(
            rt, alloc, asked, said, messages,
        ),
        Some(Said::BadEntry | Said::BadLink { .. }) => {
            explain_entry(rt, alloc, asked, said, messages)
        }
        Some(Said::NotAllowed | Said::NotCounted | Said::NoReply | Said::Ended) => {
            explain_server(asked, said, messages)
        }
        None if status == Status::Refused => explain_order(asked, messages),
        None => Ok(()),
    }
}

// Which store is in use. That of a rotation is the one that was locked; any other may be locked under another name.
fn explain_use<M: Write>(asked: Asked<'_>, notes: &Notes<'_>, messages: &mut M) -> io::Result<()> {
    let cause = match asked {
        Asked::Plain(Request::Format { .. }) =>
            "another program has it open, or the system uses it",
        _ => "another program has it open",
    };
    let store = match asked {
        Asked::Rotation(_) | Asked::Prepared(_) => notes.in_use(),
        _ => store_of(asked),
    };
    match store {
        Some(store) => writeln!(messages, "audit: {}: {cause}", Shown(store)),
        None => Ok(()),
    }
}

// That an older commitment counts more than a newer one, if a proof wasn't accepted under them.
fn explain_order<M: Write>(asked: Asked<'_>, messages: &mut M) -> io::Result<()> {
    let Asked::Plain(Request::Check { older, newer, .. }) = asked else {
        return Ok(());
    };
    let newer = newer.and_then(|word| commitment_in_word(word.as_bytes()));
    match (commitment_in_word(older.as_bytes()), newer) {
        (Some(older), Some(newer)) if older.count > newer.count => writeln!(
            messages,
            "audit: OLDER counts {} and NEWER {}: the older commitment comes first",
            older.count, newer.count
        ),
        _ => Ok(()),
    }
}
