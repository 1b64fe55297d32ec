//! The words of the commands about disclosures. They are judged before anything is opened.
ghost use Rattle.std.specs.Prelude.{IfOk, IfErr};
ghost use Rattle.audit_cli_disclosure.specs.Words.{AreDisclosingWords, IsChoiceAsked, IsChoiceFault};
ghost use Rattle.audit_cli_disclosure.specs.Words.{IsDisclosingWordFault};

use audit_cli_base::{CommandError, commitment_asked};
use audit_cli_offline::{ReportForm, kinds_in_word};
use audit_disclosure::{Choice, spans_in_word};
use audit_proof::Commitment;
use std::alloc::Global;

/// Which entries are disclosed, as a word of the command line.
#[derive(Clone, Copy)]
pub enum ChoiceWord<'a> {
    /// All of these kinds: numbers with commas between them.
    Kinds(&'a str),
    /// All with these indices: numbers, or two with a dash between them, with commas between them.
    Events(&'a str),
}

/// What is asked of a disclosure that is made, with the words of the command line as given.
#[derive(Clone, Copy)]
pub struct Disclosing<'a> {
    /// The file with the export.
    pub export: &'a str,
    /// The file with the first key, or with the state that the export follows.
    pub start: &'a str,
    /// The commitment to the whole log.
    pub commitment: &'a str,
    /// The file to be made for the disclosure. Nothing may be there.
    pub out: &'a str,
    /// Which entries are disclosed.
    pub choice: ChoiceWord<'a>,
}

/// What is asked of an export that is shown by a disclosure, with the words of the command line as given.
#[derive(Clone, Copy)]
pub struct Showing<'a> {
    /// The file with the export.
    pub export: &'a str,
    /// The file with the disclosure.
    pub disclosed: &'a str,
    /// The commitment to the whole log.
    pub commitment: &'a str,
    /// How the events are written.
    pub form: ReportForm,
}

/// What the words of a disclosure say that is made.
#[derive(Drop)]
pub(crate) struct DisclosingWords {
    /// The commitment to the whole log.
    pub(crate) commitment: Commitment,
    /// Which entries are disclosed.
    pub(crate) choice: Choice,
}

/// Judges the words of a disclosure that is made. The error is `BadArgument` if one is wrong; otherwise memory was
/// refused.
pub(crate) fn disclosing_words(
    alloc: Global,
    asked: Disclosing<'_>,
) -> Result<DisclosingWords, CommandError>
    ensures asked { IfOk result (λ words. AreDisclosingWords asked.entry words.commitment words.choice) }
    ensures fault { IfErr result (IsDisclosingWordFault asked.entry) }
{
    let commitment = commitment_asked(asked.commitment)?;
    let choice = choice_asked(alloc, asked.choice)?;
    Ok(DisclosingWords { commitment, choice })
}

// Which entries a word chooses.
fn choice_asked(alloc: Global, word: ChoiceWord<'_>) -> Result<Choice, CommandError>
    ensures asked { IfOk result (IsChoiceAsked word.entry) }
    ensures fault { IfErr result (IsChoiceFault word.entry) }
{
    match word {
        ChoiceWord::Kinds(word) => match kinds_in_word(alloc, word.as_bytes())? {
            Some(kinds) => Ok(Choice::Kinds(kinds)),
            None => Err(CommandError::BadArgument),
        },
        ChoiceWord::Events(word) => match spans_in_word(alloc, word.as_bytes())? {
            Some(spans) => Ok(Choice::Spans(spans)),
            None => Err(CommandError::BadArgument),
        },
    }
}
