//! What is wrong with the words of a question to a server.
use crate::form::Form;
use crate::wrong_word::{Wrong, judge, wrong_in_pair};
use audit_text::Shown;
use std::fmt::{self, Display, Formatter};

/// The words of a question: its name, and up to three more.
pub(crate) type Words<'a> = (&'a str, Option<&'a str>, Option<&'a str>, Option<&'a str>);

/// What is wrong with a question.
#[derive(Clone, Copy)]
pub(crate) enum BadQuestion<'a> {
    /// It has another name than those that there are.
    Name(&'a str),
    /// It takes these words, and others were given.
    Words(&'a str, &'static str),
    /// This word has another form.
    Word(Wrong<'a>),
    /// What an export is written to isn't a regular file.
    Out(&'a str),
    /// It is no export, and has the index of the first entry of one.
    From(&'a str),
}

impl Display for BadQuestion<'_> {
    fn fmt<W: fmt::Write>(&self, f: &mut Formatter<W>) -> fmt::Result {
        match self {
            BadQuestion::Name(name) => write!(
                f,
                "{}: QUESTION is commitment, state, place, close, export, entry, member or increment",
                Shown(name)
            ),
            BadQuestion::Words(name, "") => write!(f, "{}: it takes no further word", Shown(name)),
            BadQuestion::Words(name, words) => write!(f, "{}: it takes {words}", Shown(name)),
            BadQuestion::Word(wrong) => write!(f, "{wrong}"),
            BadQuestion::Out(out) => write!(f, "{}: OUT is a regular file, or is made", Shown(out)),
            BadQuestion::From(name) => write!(f, "{}: --from is for an export", Shown(name)),
        }
    }
}

/// What is wrong with a question whose words were refused, but for the path of the socket and the time.
pub(crate) fn bad_question<'a>(words: Words<'a>, from: Option<&'a str>) -> BadQuestion<'a> {
    let (name, first, second, third) = words;
    let Some(wanted) = wanted_words(name) else {
        return BadQuestion::Name(name);
    };
    if from.is_some() && name != "export" {
        return BadQuestion::From(name);
    }
    let bad_words = BadQuestion::Words(name, wanted);
    match (first, second, third) {
        (Some(kind), None, None) if name == "place" => {
            word_or(judge("KIND", Some(kind), Form::Kind), bad_words)
        }
        (Some(out), None, None) if name == "export" => BadQuestion::Out(out),
        (Some(index), Some(_), None) if name == "entry" => {
            word_or(judge("INDEX", Some(index), Form::ANY), bad_words)
        }
        (Some(first), Some(second), Some(_)) if name == "member" || name == "increment" => {
            word_or(wrong_in_pair(name, first, second), bad_words)
        }
        _ => bad_words,
    }
}

fn word_or<'a>(wrong: Option<Wrong<'a>>, other: BadQuestion<'a>) -> BadQuestion<'a> {
    match wrong {
        Some(wrong) => BadQuestion::Word(wrong),
        None => other,
    }
}

// The words that a question takes.
fn wanted_words(name: &str) -> Option<&'static str> {
    match name {
        "commitment" | "state" | "close" => Some(""),
        "place" => Some("KIND"),
        "export" => Some("OUT"),
        "entry" => Some("INDEX OUT"),
        "member" => Some("INDEX COUNT OUT"),
        "increment" => Some("OLDER NEWER OUT"),
        _ => None,
    }
}
