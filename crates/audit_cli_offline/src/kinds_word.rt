//! Kinds of events as a word of a command line.
ghost use Rattle.std.specs.Prelude.{◌≡◌, ℕ, List, None, Ok, IfOk, IfSome, map};
ghost use Rattle.std.specs.List.{slice_split};
ghost use Rattle.audit_cli_offline.specs.KindsWord.{is_comma, any_kind_in_word, AreKindsInWord};

use audit_base::RESERVED_KIND;
use audit_text::number_in_text;
use std::alloc::{AllocError, Global};

/// Decodes the kinds that a word lists, with commas between them: numbers below 2^32 in 1 to 20 decimal digits each, of
/// which the greatest is the kind of a closing event. `None` for any other word.
pub fn kinds_in_word(alloc: Global, word: &[u8]) -> Result<Option<Vec<u32>>, AllocError>
    ensures kinds { IfOk result (λ found. IfSome found (λ kinds. AreKindsInWord word.now kinds.items)) }
    ensures none { result ≡ Ok None → (kinds : List ℕ) → AreKindsInWord word.now kinds → ⊥ }
{
    let mut kinds = Vec::new(alloc);
    let parts = parts_of(alloc, word)?;
    for part in &parts {
        let Some(kind) = any_kind_in_word(part) else {
            return Ok(None);
        };
        kinds.push(kind)?;
    }
    Ok(Some(kinds))
}

// The parts of a word between its commas.
fn parts_of(alloc: Global, word: &[u8]) -> Result<Vec<&[u8]>, AllocError>
    ensures { IfOk result (λ parts. map (λ part. part.now) parts.items ≡ slice_split is_comma word.now) }
{
    word.split(|byte| *byte == b',').collect(alloc)
}

// The kind in a part.
fn any_kind_in_word(word: &[u8]) -> Option<u32>
    ensures { result ≡ any_kind_in_word word.now }
{
    let kind = number_in_text(word)?;
    if kind > u64::from(RESERVED_KIND) {
        return None;
    }
    Some(kind as u32)
}
