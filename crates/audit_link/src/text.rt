//! Numbers of events by kind as lines of text.
ghost use Rattle.std.specs.Prelude.{◌≡◌, ◌++◌, ◌<◌, ◌^◌, ℕ, List, Some, length, IfOk, OnOk, IfSome, MatchOption};
ghost use Rattle.audit_link.specs.declared.kind_count.KindCount.{KindCount};
ghost use Rattle.audit_link.specs.Counts.{IsCount, Ascends, AreCounts};
ghost use Rattle.audit_link.specs.CountsText.{kind_line, kind_lines, counts_text, AreCountsIn};

use crate::counts::Counts;
use crate::kind_count::KindCount;
use audit_base::are_equal;
use audit_text::{number_in_text, push_number, split_at_first, split_line};
use std::alloc::{AllocError, Global};

// The first line: the version.
const VERSION: &[u8] = b"audit-counts 1\n";

/// Returns numbers of events as text: a line with a version, and a line for each kind, which are the kind, a space and
/// the number, both in decimal. It has at most 32,015 bytes. The only error is that memory is refused.
pub fn counts_text(alloc: Global, counts: &Counts) -> Result<Vec<u8>, AllocError>
    ensures text { IfOk result (λ text. text.items ≡ counts_text counts.now) }
    ensures counts { IfOk result (λ _. AreCounts counts.now) }
{
    let counts = counts.as_slice();
    let mut text = Vec::new(alloc);
    text.extend_from_slice(VERSION)?;
    for counted in counts {
        push_count(&mut text, counted)?;
    }
    Ok(text)
}

fn push_count(text: &mut Vec<u8>, counted: &KindCount) -> Result<(), AllocError>
    ensures { OnOk result (text.new.items ≡ text.old.items ++ kind_line counted.now) }
{
    push_number(text, b"", u64::from(counted.kind))?;
    push_number(text, b" ", counted.count)?;
    text.extend_from_slice(b"\n")
}

/// Reads the numbers of events of which this is the text, if it is that of some. No other text is read: numbers have
/// only one. The only error is that memory is refused.
pub fn read_counts(alloc: Global, text: &[u8]) -> Result<Option<Counts>, AllocError>
    ensures { IfOk result (AreCountsIn text.now) }
{
    let Some(lines) = text.strip_prefix(VERSION) else {
        return Ok(None);
    };
    let Some(parts) = parse(alloc, lines)? else {
        return Ok(None);
    };
    let Some(counts) = Counts::from_vec(parts) else {
        return Ok(None);
    };
    let again = counts_text(alloc, &counts)?;
    if !are_equal(&again, text) {
        return Ok(None);
    }
    Ok(Some(counts))
}

// The numbers whose lines these may be. Other texts may have parts too.
fn parse(alloc: Global, lines: &[u8]) -> Result<Option<Vec<KindCount>>, AllocError>
    ensures { (counts : List KindCount) → Ascends 0 counts → lines.now ≡ kind_lines counts
        → IfOk result (λ found. MatchOption found ⊥ (λ parts. parts.items ≡ counts)) }
{
    let mut counts = Vec::new(alloc);
    let mut rest = lines;
    while !rest.is_empty() {
        let Some((counted, after)) = next_count(rest) else {
            return Ok(None);
        };
        counts.push(counted)?;
        rest = after;
    }
    Ok(Some(counts))
}

// The kind and the number in the first line, and the bytes after the line.
fn next_count(text: &[u8]) -> Option<(KindCount, &[u8])>
    ensures read { (counted : KindCount) (more : List ℕ) → IsCount counted → text.now ≡ kind_line counted ++ more
        → MatchOption result ⊥ (λ found. (found.0 ≡ counted) × (found.1.now ≡ more)) }
    ensures shorter { IfSome result (λ found. 0 < length text.now → length found.1.now < length text.now) }
{
    let (line, after) = split_line(text);
    let (kind, count) = split_at_first(line, b' ');
    let kind = kind_of(number_in_text(kind)?)?;
    let count = number_in_text(count)?;
    Some((KindCount { kind, count }, after))
}

// The kind of this number, if it is one.
fn kind_of(number: u64) -> Option<u32>
    ensures { number < 2 ^ 32 → result ≡ Some number }
{
    if number > u64::from(u32::MAX) {
        return None;
    }
    Some(number as u32)
}
