//! Which entries are disclosed.
ghost use Rattle.std.specs.Prelude.{◌≡◌, ℕ, List, None, Ok, IfOk, IfSome, map};
ghost use Rattle.std.specs.List.{list_any, slice_split};
ghost use Rattle.audit_disclosure.specs.declared.choice.Span.{Span};
ghost use Rattle.audit_disclosure.specs.Choosing.{has_index, is_chosen, is_comma_byte, is_dash, span_with, span_in_word, AreSpansInWord};

use audit_text::{number_in_text, split_at_first};
use std::alloc::{AllocError, Global};

/// A row of indices.
#[derive(Clone, Copy, Debug, Drop)]
pub struct Span {
    /// The first of them.
    pub first: u64,
    /// The last of them.
    pub last: u64,
}

/// Which entries are disclosed.
#[derive(Drop)]
pub enum Choice {
    /// All of these kinds.
    Kinds(Vec<u32>),
    /// All with these indices.
    Spans(Vec<Span>),
}

impl Choice {
    /// Whether an entry with this index and of this kind is chosen.
    pub fn has(&self, index: u64, kind: u32) -> bool
        ensures { result ≡ is_chosen self.now index kind }
    {
        match self {
            Choice::Kinds(kinds) => kinds.contains(&kind),
            Choice::Spans(spans) => is_in(spans, index),
        }
    }
}

fn is_in(spans: &[Span], index: u64) -> bool
    ensures { result ≡ list_any (has_index index) spans.now }
{
    spans
        .iter()
        .any(|span| span.first <= index && index <= span.last)
}

/// Decodes the indices that a word lists, with commas between them: numbers below 2^64 in 1 to 20 decimal digits each, or
/// two of them with a dash between, of which the second isn't less. `None` for any other word.
pub fn spans_in_word(alloc: Global, word: &[u8]) -> Result<Option<Vec<Span>>, AllocError>
    ensures spans { IfOk result (λ found. IfSome found (λ spans. AreSpansInWord word.now spans.items)) }
    ensures none { result ≡ Ok None → (spans : List Span) → AreSpansInWord word.now spans → ⊥ }
{
    let mut spans = Vec::new(alloc);
    let parts = parts_of(alloc, word)?;
    for part in &parts {
        let Some(span) = span_in_word(part) else {
            return Ok(None);
        };
        spans.push(span)?;
    }
    Ok(Some(spans))
}

// The parts of a word between its commas.
fn parts_of(alloc: Global, word: &[u8]) -> Result<Vec<&[u8]>, AllocError>
    ensures { IfOk result (λ parts. map (λ part. part.now) parts.items ≡ slice_split is_comma_byte word.now) }
{
    word.split(|byte| *byte == b',').collect(alloc)
}

// The indices in a part.
fn span_in_word(word: &[u8]) -> Option<Span>
    ensures { result ≡ span_in_word word.now }
{
    if !has_dash(word) {
        let index = number_in_text(word);
        return span_with(index, index);
    }
    let (first, last) = split_at_first(word, b'-');
    span_with(number_in_text(first), number_in_text(last))
}

fn has_dash(word: &[u8]) -> bool
    ensures { result ≡ list_any is_dash word.now }
{
    word.iter().any(|byte| *byte == b'-')
}

fn span_with(first: Option<u64>, last: Option<u64>) -> Option<Span>
    ensures { result ≡ span_with first last }
{
    let (first, last) = (first?, last?);
    if first > last {
        return None;
    }
    Some(Span { first, last })
}
