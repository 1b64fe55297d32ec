//! What is wrong with a word of a command line, or with a key file.
use crate::bytes::Bytes;
use crate::command::Asked;
use crate::contents::{StateText, state_in, state_or_other};
use crate::continuing::{explain_start, verified_by};
use crate::form::key_flaw;
use crate::noted::unread_note;
use crate::places::key_file_of;
use crate::question::bad_question;
use crate::wrong_word::wrong_word;
use audit_cli_client::Request as Remote;
use audit_cli_disclosure::Request as Disclosure;
use audit_cli_host::Notes;
use audit_cli_store::Request;
use audit_disk::FileIdentity;
use audit_text::Shown;
use std::alloc::Global;
use std::fs::{self, Files};
use std::io::{self, Write};

/// Prints which word has another form, or that the key file holds no key.
pub(crate) fn explain_argument<F: Files, M: Write>(
    rt: &F,
    alloc: Global,
    asked: Asked<'_>,
    notes: &Notes<'_>,
    messages: &mut M,
) -> io::Result<()> {
    if let Some(file) = unread_note(asked) {
        let shown = Shown(file);
        return writeln!(messages, "audit: {shown}: it isn't a note");
    }
    if let Some(verified) = verified_by(asked)
        && may_be_state(notes)
        && let Some(state) = state_in(rt, alloc, verified.start)
    {
        return explain_start(asked, verified, state, messages);
    }
    if let Asked::Remote(Remote::Read { state, .. }) = asked
        && wrong_word(asked).is_none()
        && let Some(StateText::Damaged) = state_or_other(rt, alloc, state)
    {
        let shown = Shown(state);
        return writeln!(
            messages,
            "audit: {shown}: no state, or one that was changed or cut off"
        );
    }
    if let Some(file) = key_file_read(rt, asked)
        && notes.key_text().is_no_key()
    {
        return explain_key(file, notes, messages);
    }
    if let Some(wrong) = wrong_word(asked) {
        return writeln!(messages, "audit: {wrong}");
    }
    match asked {
        Asked::Remote(Remote::Ask { question, from, .. }) => {
            writeln!(messages, "audit: {}", bad_question(question, from))
        }
        Asked::Plain(Request::Check { proof, newer, .. }) => {
            let (kind, number) = match newer {
                Some(_) => ("an inclusion proof", "one commitment"),
                None => ("a consistency proof", "two commitments, OLDER and NEWER"),
            };
            let shown = Shown(proof);
            writeln!(
                messages,
                "audit: {shown}: {kind}, which is checked under {number}"
            )
        }
        Asked::Plain(Request::CheckLink(asked)) => {
            let shown = Shown(asked.link);
            writeln!(
                messages,
                "audit: {shown}: a link, which is checked under two commitments, OLDER and NEWER"
            )
        }
        Asked::Disclosure(Disclosure::Show(asked)) => {
            let shown = Shown(asked.disclosed);
            writeln!(
                messages,
                "audit: {shown}: no disclosure, or one that was changed or cut off"
            )
        }
        Asked::Plain(Request::Open(asked)) => {
            let shown = Shown(asked.proof);
            writeln!(
                messages,
                "audit: {shown}: a consistency proof, which has no entry to open"
            )
        }
        Asked::Rotation(rotation) if is_same(rt, rotation.old, rotation.new) => {
            writeln!(messages, "audit: {}: NEW is OLD", Shown(rotation.new))
        }
        Asked::Prepared(asked) if is_same(rt, asked.old, asked.next) => {
            writeln!(messages, "audit: {}: NEW is OLD", Shown(asked.next))
        }
        _ => Ok(()),
    }
}

// The file from which a key was read. `read` judges its words first, and reads a key only where there is no state.
fn key_file_read<'a, F: Files>(rt: &F, asked: Asked<'a>) -> Option<&'a str> {
    match asked {
        Asked::Remote(Remote::Read { state, first, .. }) => {
            if wrong_word(asked).is_some() || fs::metadata(rt, state).is_ok() {
                return None;
            }
            first
        }
        _ => key_file_of(asked),
    }
}

// Whether what was read in the place of a key file may be a state, whose first word has `u` as its second letter. Nothing
// else is read again, since its length is noted.
fn may_be_state(notes: &Notes<'_>) -> bool {
    matches!(notes.key_text().odd(), Some((2, b'u')))
}

/// Whether two paths lead to one file.
pub(crate) fn is_same<F: Files>(rt: &F, one: &str, other: &str) -> bool {
    match (fs::metadata(rt, one), fs::metadata(rt, other)) {
        (Ok(one), Ok(other)) => FileIdentity::of(&one) == FileIdentity::of(&other),
        _ => false,
    }
}

fn explain_key<M: Write>(file: &str, notes: &Notes<'_>, messages: &mut M) -> io::Result<()> {
    let text = notes.key_text();
    let (shown, length) = (Shown(file), Bytes(text.length()));
    let verb = if text.length() == 1 {
        "isn't"
    } else {
        "aren't"
    };
    write!(
        messages,
        "audit: {shown}: {length} that {verb} 64 hex digits"
    )?;
    if let Some(odd) = text.odd() {
        write!(messages, ": {}", key_flaw(odd))?;
    }
    writeln!(messages)
}
