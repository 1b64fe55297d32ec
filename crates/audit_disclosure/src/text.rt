//! Disclosures written as text.
ghost use Rattle.std.specs.Prelude.{◌≡◌, ◌++◌, IfOk, OnOk, codes};
ghost use Rattle.hex.specs.Hex.{encode_lower};
ghost use Rattle.audit_verify.specs.StateText.{node_lines};
ghost use Rattle.audit_text.specs.Fields.{field_line};
ghost use Rattle.audit_disclosure.specs.DisclosureText.{disclosed_line, disclosed_lines, start_lines, disclosure_text};

use crate::disclosure::{DisclosedKey, Start};
use audit_base::Hash;
use audit_text::{push_hex, push_number};
use std::alloc::{AllocError, Global};

/// Returns a disclosure as text: the lines of where its export begins, if that isn't the first entry, and a line for each
/// key. It is made of these parts alone.
#[tactic(auto, unfolding(crate::specs::DisclosureText::disclosure_text))]
pub fn disclosure_text(
    alloc: Global,
    start: &Start,
    keys: &[DisclosedKey],
) -> Result<Vec<u8>, AllocError>
    ensures { IfOk result (λ text. text.items ≡ disclosure_text start.now keys.now) }
{
    let mut text = Vec::new(alloc);
    push_start(&mut text, start)?;
    push_keys(&mut text, keys)?;
    Ok(text)
}

// Appends the lines of keys.
fn push_keys(text: &mut Vec<u8>, keys: &[DisclosedKey]) -> Result<(), AllocError>
    ensures { OnOk result (text.new.items ≡ text.old.items ++ disclosed_lines keys.now) }
{
    for one in keys {
        push_key(text, one)?;
    }
    Ok(())
}

// Appends the line of a key.
#[tactic(auto, unfolding(audit_text::specs::NumberedLine::numbered_line))]
fn push_key(text: &mut Vec<u8>, one: &DisclosedKey) -> Result<(), AllocError>
    ensures { OnOk result (text.new.items ≡ text.old.items ++ disclosed_line one.now) }
{
    push_number(text, b"key ", one.index)?;
    text.extend_from_slice(b" ")?;
    push_hex(text, &one.key)?;
    text.extend_from_slice(b"\n")
}

// Appends the lines of where an export begins.
#[tactic(auto, unfolding(crate::specs::DisclosureText::start_lines))]
fn push_start(text: &mut Vec<u8>, start: &Start) -> Result<(), AllocError>
    ensures { OnOk result (text.new.items ≡ text.old.items ++ start_lines start.now) }
{
    let count = start.tree.count();
    if count == 0 {
        return Ok(());
    }
    push_number(text, b"count ", count)?;
    text.extend_from_slice(b"\n")?;
    push_hash(text, b"link", &start.link)?;
    push_nodes(text, count, start.tree.hashes())
}

// Appends a line for each node.
fn push_nodes(text: &mut Vec<u8>, count: u64, hashes: &[Hash]) -> Result<(), AllocError>
    ensures { OnOk result (text.new.items ≡ text.old.items ++ node_lines count hashes.now) }
{
    let mut ones = count;
    for hash in hashes {
        if ones % 2 == 1 {
            push_hash(text, b"node", hash)?;
        }
        ones /= 2;
    }
    Ok(())
}

// Appends a line with a word and a hash in hex digits.
fn push_hash(text: &mut Vec<u8>, word: &[u8], hash: &Hash) -> Result<(), AllocError>
    ensures { OnOk result (text.new.items ≡ text.old.items ++ field_line word.now (encode_lower hash.now)) }
{
    text.extend_from_slice(word)?;
    text.extend_from_slice(b" ")?;
    push_hex(text, hash)?;
    text.extend_from_slice(b"\n")
}
