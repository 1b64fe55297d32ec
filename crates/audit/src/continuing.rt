//! Why a verification didn't go on from what it was to start from.
use crate::cause::explain_contents;
use crate::command::Asked;
use crate::contents::{Contents, StateText, contents_of, state_in};
use crate::heard::Said;
use crate::wrong_word::wrong_word;
use audit_cli_disclosure::Request as Disclosure;
use audit_cli_offline::commitment_in_word;
use audit_cli_store::Request;
use audit_text::Shown;
use std::alloc::Global;
use std::fs::Files;
use std::io::{self, Write};

/// The words of a command that verifies an export with a key of its log.
#[derive(Clone, Copy)]
pub(crate) struct Verified<'a> {
    export: &'a str,
    /// The file with what the verification starts from.
    pub(crate) start: &'a str,
    commitment: &'a str,
}

/// The words of a command, if it verifies an export with a key of its log.
pub(crate) fn verified_by<'a>(asked: Asked<'a>) -> Option<Verified<'a>> {
    match asked {
        Asked::Plain(Request::Verify(asked)) => Some(Verified {
            export: asked.export,
            start: asked.start,
            commitment: asked.commitment,
        }),
        Asked::Disclosure(Disclosure::Disclose(asked)) => Some(Verified {
            export: asked.export,
            start: asked.start,
            commitment: asked.commitment,
        }),
        _ => None,
    }
}

/// Prints what is wrong with the words of a verification that was to start from this state.
pub(crate) fn explain_start<M: Write>(
    asked: Asked<'_>,
    verified: Verified<'_>,
    state: StateText,
    messages: &mut M,
) -> io::Result<()> {
    let shown = Shown(verified.start);
    match state {
        StateText::Damaged => writeln!(
            messages,
            "audit: {shown}: a state that was changed or cut off"
        ),
        StateText::Whole { count, .. } => match commitment_in_word(verified.commitment.as_bytes()) {
            Some(commitment) if commitment.count < count => writeln!(
                messages,
                "audit: {shown}: the state counts {count} and COMMIT {}: COMMIT is older",
                commitment.count
            ),
            _ => explain_word(asked, messages),
        },
    }
}

fn explain_word<M: Write>(asked: Asked<'_>, messages: &mut M) -> io::Result<()> {
    match wrong_word(asked) {
        Some(wrong) => writeln!(messages, "audit: {wrong}"),
        None => Ok(()),
    }
}

/// Prints what an export is instead, or why its first entry doesn't follow what the verification started from.
pub(crate) fn explain_entry<F: Files, M: Write>(
    rt: &F,
    alloc: Global,
    asked: Asked<'_>,
    said: Option<Said>,
    messages: &mut M,
) -> io::Result<()> {
    let export = match asked {
        Asked::Plain(Request::Verify(asked)) => asked.export,
        Asked::Disclosure(Disclosure::Disclose(asked)) => asked.export,
        Asked::Disclosure(Disclosure::Show(asked)) => asked.export,
        _ => return Ok(()),
    };
    match (contents_of(rt, alloc, export), verified_by(asked)) {
        (Some(Contents::Export) | None, Some(verified)) => {
            let state = state_in(rt, alloc, verified.start);
            explain_first(verified, state, said, messages)
        }
        (Some(Contents::Export) | None, None) => Ok(()),
        (Some(_), _) => explain_contents(rt, alloc, asked, said, messages),
    }
}

// Prints why the first entry of an export doesn't follow this state, or the first key without one.
fn explain_first<M: Write>(
    asked: Verified<'_>,
    state: Option<StateText>,
    said: Option<Said>,
    messages: &mut M,
) -> io::Result<()> {
    let (start, export) = (Shown(asked.start), Shown(asked.export));
    match (state, said) {
        (
            Some(
                StateText::Whole {
                    is_closed: true,
                    ..
                },
            ),
            Some(Said::BadEntry),
        ) => writeln!(
            messages,
            "audit: {start}: the state is of a closed log, which nothing follows"
        ),
        (Some(StateText::Whole { count, .. }), Some(Said::BadLink { index })) if index == count => {
            writeln!(
                messages,
                "audit: {export}: it doesn't begin with entry {count}, the one after the state"
            )
        }
        (None, Some(Said::BadLink { index: 0 })) => writeln!(
            messages,
            "audit: {export}: it doesn't begin with the first entry of a log: what follows others needs their state"
        ),
        _ => Ok(()),
    }
}
