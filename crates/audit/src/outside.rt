//! Which number is too large for the log that it was asked of.
use crate::command::Asked;
use crate::contents::store_head;
use crate::wrong_word::names_of_pair;
use audit_cli_client::Request as Remote;
use audit_cli_host::Notes;
use audit_cli_store::Request;
use audit_text::{Shown, number_in_text};
use std::fmt::{self, Display, Formatter};
use std::fs::Files;
use std::io::{self, Write};

/// A number that a log doesn't have.
#[derive(Clone, Copy)]
enum Outside {
    /// A count, or an index that may be one, is above the log's count.
    Above { name: &'static str, count: u64 },
    /// An index isn't below the count.
    Index { index: u64, count: u64 },
    /// An older count is above the newer one.
    Older { older: u64, newer: u64 },
    /// An older count is 0.
    Zero,
    /// The index of an entry isn't below the log's count.
    Entry { index: u64 },
}

impl Display for Outside {
    fn fmt<W: fmt::Write>(&self, f: &mut Formatter<W>) -> fmt::Result {
        match self {
            Outside::Above { name, count } => write!(f, "{name} {count} is too large"),
            Outside::Index { index, count } => {
                write!(f, "INDEX {index} is too large for COUNT {count}")
            }
            Outside::Older { older, newer } => {
                write!(f, "OLDER {older} is larger than NEWER {newer}")
            }
            Outside::Zero => f.write_str("OLDER 0 has no proof"),
            Outside::Entry { index } => write!(f, "INDEX {index} is too large"),
        }
    }
}

/// Prints which number is too large, and the log's count if it is known.
pub(crate) fn explain_outside<F: Files, M: Write>(
    rt: &F,
    asked: Asked<'_>,
    notes: &Notes<'_>,
    messages: &mut M,
) -> io::Result<()> {
    let asked = match asked {
        Asked::Plain(
            Request::Prove {
                file,
                kind,
                first,
                second,
                ..
            },
        ) => {
            let total = store_head(rt, file).map(|head| head.count);
            (kind, Some(first), Some(second), total)
        }
        Asked::Plain(
            Request::Export {
                file,
                from: Some(from),
                ..
            },
        ) => {
            let total = store_head(rt, file).map(|head| head.count);
            ("--from", Some(from), None, total)
        }
        Asked::Remote(
            Remote::Ask {
                from: Some(from),
                ..
            },
        ) => ("--from", Some(from), None, notes.count()),
        Asked::Remote(
            Remote::Ask {
                question: (name, first, second, _),
                ..
            },
        ) => (name, first, second, notes.count()),
        Asked::Remote(Remote::Watch { socket, .. } | Remote::Read { socket, .. }) => {
            return writeln!(
                messages,
                "audit: {}: it has no proof from STATE's last line to its newest commitment",
                Shown(socket)
            );
        }
        _ => return Ok(()),
    };
    let (kind, first, second, total) = asked;
    match outside_of(kind, first, second, total) {
        Some(outside) => print_outside(outside, total, messages),
        None => Ok(()),
    }
}

fn print_outside<M: Write>(
    outside: Outside,
    total: Option<u64>,
    messages: &mut M,
) -> io::Result<()> {
    match total {
        Some(1) => writeln!(messages, "audit: {outside}: the log has 1 entry"),
        Some(total) => writeln!(messages, "audit: {outside}: the log has {total} entries"),
        None => writeln!(messages, "audit: {outside}"),
    }
}

// The number that a log with this count doesn't have.
fn outside_of(
    kind: &str,
    first: Option<&str>,
    second: Option<&str>,
    total: Option<u64>,
) -> Option<Outside> {
    let one = number_in_text(first?.as_bytes())?;
    if kind == "--from" {
        return Some(Outside::Above {
            name: "INDEX",
            count: one,
        });
    }
    if kind == "entry" {
        return Some(Outside::Entry { index: one });
    }
    let other = number_in_text(second?.as_bytes())?;
    let (_, name) = names_of_pair(kind);
    let above = Outside::Above { name, count: other };
    if let Some(total) = total
        && other > total
    {
        return Some(above);
    }
    match kind {
        "member" if one >= other => Some(Outside::Index {
            index: one,
            count: other,
        }),
        "increment" if one == 0 => Some(Outside::Zero),
        "increment" if one > other => Some(Outside::Older {
            older: one,
            newer: other,
        }),
        "member" | "increment" => Some(above),
        _ => None,
    }
}
