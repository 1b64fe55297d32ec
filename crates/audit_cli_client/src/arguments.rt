//! Arguments that are checked here, not by the command line's parser.
ghost use Rattle.std.specs.Prelude.{◌≡◌, Err, None, IfErr};
ghost use Rattle.audit_cli_client.specs.Arguments.{judged_number, seconds_asked, window_asked};
ghost use Rattle.audit_cli_client.specs.Arguments.{question_in, question_from, judged_question};
ghost use Rattle.audit_text.specs.Number.{number_in_text};

use audit_cli_base::{CommandError, is_standard_output, proof_request};
use audit_cli_connection::{Evidence, Question};
use audit_text::{kind_in_word, number_in_text};

/// The most seconds of a timeout or a pause: a day.
pub const MAX_SECONDS: u64 = 86_400;

/// The most lines that are sent ahead of their answers.
pub const MAX_WINDOW: u64 = 1024;

/// The words of a question: its name, and up to three more.
pub type QuestionWords<'a> = (&'a str, Option<&'a str>, Option<&'a str>, Option<&'a str>);

/// Parses a question, and the index that an export begins at, 0 if absent. If its name or the number of its words is
/// another, a number has another form, another question has an index, or an export is to go to standard output, the
/// error is `BadArgument`. The numbers
/// themselves are judged by the server.
pub fn question_asked<'a>(
    words: QuestionWords<'a>,
    from: Option<&'a str>,
) -> Result<Question<'a>, CommandError>
    ensures asked { result ≡ judged_question (question_from from.entry
        (question_in words.entry.0.now words.entry.1 words.entry.2 words.entry.3)) }
    ensures wrong { question_from from.entry
        (question_in words.entry.0.now words.entry.1 words.entry.2 words.entry.3) ≡ None
        → result ≡ Err CommandError.BadArgument }
    ensures fault { IfErr result (λ fault. (fault ≡ CommandError.BadArgument) × (question_from from.entry
        (question_in words.entry.0.now words.entry.1 words.entry.2 words.entry.3) ≡ None)) }
{
    match question_from(from, question_in(words)) {
        Some(question) => Ok(question),
        None => Err(CommandError::BadArgument),
    }
}

fn question_from<'a>(from: Option<&'a str>, asked: Option<Question<'a>>) -> Option<Question<'a>>
    ensures { result ≡ question_from from.entry asked.entry }
{
    match (from, asked) {
        (None, asked) => asked,
        (Some(from), Some(Question::Export(out, _))) => {
            let first = number_in_text(from.as_bytes())?;
            Some(Question::Export(out, first))
        }
        (Some(_), _) => None,
    }
}

fn question_in<'a>(words: QuestionWords<'a>) -> Option<Question<'a>>
    ensures { result ≡ question_in words.entry.0.now words.entry.1 words.entry.2 words.entry.3 }
{
    let (name, first, second, third) = words;
    match (first, second, third) {
        (None, None, None) if name == "commitment" => Some(Question::Commitment),
        (None, None, None) if name == "state" => Some(Question::State),
        (None, None, None) if name == "close" => Some(Question::Close),
        (Some(kind), None, None) if name == "place" => {
            let kind = kind_in_word(kind.as_bytes())?;
            Some(Question::Place(kind))
        }
        (Some(out), None, None) if name == "export" && !is_standard_output(out) => {
            Some(Question::Export(out, 0))
        }
        (Some(index), Some(out), None) if name == "entry" => {
            let index = number_in_text(index.as_bytes())?;
            Some(Question::Evidence(Evidence::Entry(index), out))
        }
        (Some(first), Some(second), Some(out)) => {
            let proof = proof_request(name, first, second)?;
            Some(Question::Evidence(Evidence::Proof(proof), out))
        }
        _ => None,
    }
}

/// Parses a number of seconds, from 1 to [`MAX_SECONDS`].
pub fn seconds_asked(word: &str) -> Result<u64, CommandError>
    ensures asked { result ≡ seconds_asked word.now }
    ensures fault { IfErr result (λ fault. fault ≡ CommandError.BadArgument) }
{
    number_up_to(word, MAX_SECONDS)
}

/// Parses a number of lines, from 1 to [`MAX_WINDOW`].
pub fn window_asked(word: &str) -> Result<u64, CommandError>
    ensures asked { result ≡ window_asked word.now }
    ensures fault { IfErr result (λ fault. fault ≡ CommandError.BadArgument) }
{
    number_up_to(word, MAX_WINDOW)
}

fn number_up_to(word: &str, most: u64) -> Result<u64, CommandError>
    ensures asked { result ≡ judged_number most (number_in_text word.now) }
    ensures fault { IfErr result (λ fault. fault ≡ CommandError.BadArgument) }
{
    match number_in_text(word.as_bytes()) {
        Some(number) if number >= 1 && number <= most => Ok(number),
        _ => Err(CommandError::BadArgument),
    }
}
