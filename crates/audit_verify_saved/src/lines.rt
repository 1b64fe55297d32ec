//! The lines of a state, compared with a text.
ghost use Rattle.std.specs.Prelude.{◌≡◌, ◌++◌, ℕ, List, IfSome, MatchOption};
ghost use Rattle.audit_verify.specs.StateText.{node_lines, log_word, state_lines};
ghost use Rattle.audit_verify_saved.specs.Saved.{shown};

use crate::saved::Saved;
use audit_base::Hash;
use audit_text::{after_line, decimal_of, digits_of};
use itoa::Buffer;

/// What follows the lines of a state, if the text begins with them.
pub(crate) fn after_state<'a>(text: &'a [u8], saved: &Saved) -> Option<&'a [u8]>
    ensures found { IfSome result (λ rest. text.now ≡ state_lines (shown saved.now) ++ rest.now) }
    ensures only { (rest : List ℕ) → text.now ≡ state_lines (shown saved.now) ++ rest
        → MatchOption result ⊥ (λ found. found.now ≡ rest) }
{
    let number = saved.tree.count();
    let nodes = saved.tree.hashes();
    let mut buffer = Buffer::new();
    let count = decimal_of(&mut buffer, number);
    let key = digits_of(&saved.key);
    let link = digits_of(&saved.link);
    let log = word_of(saved.closed);
    let after_version = after_line(text, b"audit-state", b"1")?;
    let after_count = after_line(after_version, b"count", count)?;
    let after_key = after_line(after_count, b"key", &key)?;
    let after_link = after_line(after_key, b"link", &link)?;
    let after_log = after_line(after_link, b"log", log)?;
    let rest = after_nodes(after_log, number, nodes)?;
    Some(rest)
}

fn word_of(closed: bool) -> &'static [u8]
    ensures { result.now ≡ log_word closed }
{
    if closed { b"closed" } else { b"open" }
}

// What follows the lines of a frontier's nodes, if the text begins with them.
fn after_nodes<'a>(text: &'a [u8], count: u64, hashes: &[Hash]) -> Option<&'a [u8]>
    ensures found { IfSome result (λ rest. text.now ≡ node_lines count hashes.now ++ rest.now) }
    ensures only { (rest : List ℕ) → text.now ≡ node_lines count hashes.now ++ rest
        → MatchOption result ⊥ (λ found. found.now ≡ rest) }
{
    let mut ones = count;
    let mut rest = text;
    for hash in hashes {
        if ones % 2 == 1 {
            rest = after_line(rest, b"node", &digits_of(hash))?;
        }
        ones /= 2;
    }
    Some(rest)
}
