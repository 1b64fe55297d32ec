//! The calls: four digests at once, or one after another where that takes less time.

ghost use Rattle.std.specs.Prelude.{◌≡◌, ◌<◌, ℕ, List, [], ◌∷◌, ◌++◌, IfSome, map, slice_index};
ghost use Rattle.std.specs.Simd.Lanes.{zip2};
ghost use Rattle.sha2.specs.Sha256.{sha256};
ghost use Rattle.audit_lanes.specs.Lanes.{of_four};
ghost use Rattle.audit_lanes.specs.Messages.{block_count};

use crate::message::Message;
use crate::messages::Messages;
use crate::text::Text;

/// Returns the SHA-256 of each of four messages. They are hashed side by side if that takes less time than one after
/// another, so if they have about as many blocks.
pub fn sha256_four(messages: [&[u8]; 4]) -> [[u8; 32]; 4]
    ensures { result ≡ map (λ message. sha256 message.now) messages.entry }
{
    let none: &[u8] = &[];
    sha256_four_joined(none, [none, none, none, none], messages)
}

/// Returns the SHA-256 of each of four messages in three pieces: a prefix that they share, and two of their own. They
/// are hashed side by side if that takes less time than one after another, so if they have about as many blocks.
pub fn sha256_four_joined(prefix: &[u8], firsts: [&[u8]; 4], seconds: [&[u8]; 4]) -> [[u8; 32]; 4]
    ensures { result
        ≡ zip2 (λ first second. sha256 (prefix.now ++ first.now ++ second.now)) firsts.entry seconds.entry }
{
    let [a, b, c, d] = firsts;
    let [e, f, g, h] = seconds;
    digests_of(
        text_of(prefix, a, e),
        text_of(prefix, b, f),
        text_of(prefix, c, g),
        text_of(prefix, d, h),
    )
}

/// Returns the SHA-256 of each of four messages in three pieces of their own, as [`sha256_four_joined`] does.
pub fn sha256_four_in_pieces(
    firsts: [&[u8]; 4],
    seconds: [&[u8]; 4],
    thirds: [&[u8]; 4],
) -> [[u8; 32]; 4]
    ensures { result ≡ zip2 (λ front third. sha256 (front ++ third.now))
        (zip2 (λ first second. first.now ++ second.now) firsts.entry seconds.entry) thirds.entry }
{
    let [a, b, c, d] = firsts;
    let [e, f, g, h] = seconds;
    let [i, j, k, l] = thirds;
    digests_of(
        text_of(a, e, i),
        text_of(b, f, j),
        text_of(c, g, k),
        text_of(d, h, l),
    )
}

fn text_of<'a>(prefix: &'a [u8], first: &'a [u8], second: &'a [u8]) -> Text<'a>
    ensures { result ≡ prefix.now ++ first.now ++ second.now }
{
    Text {
        prefix,
        first,
        second,
    }
}

fn digests_of(a: Text<'_>, b: Text<'_>, c: Text<'_>, d: Text<'_>) -> [[u8; 32]; 4]
    ensures { result ≡ sha256 a.entry ∷ sha256 b.entry ∷ sha256 c.entry ∷ sha256 d.entry ∷ [] }
{
    match counts_of(&a, &b, &c, &d) {
        Some(counts) if are_balanced(&counts) => digests_in_lanes(a, b, c, d, &counts),
        _ => [a.digest(), b.digest(), c.digest(), d.digest()],
    }
}

// How many blocks each message has with its padding.
fn counts_of(a: &Text<'_>, b: &Text<'_>, c: &Text<'_>, d: &Text<'_>) -> Option<[usize; 4]>
    ensures { IfSome result (λ counts. (k : ℕ) → k < 4
        → slice_index counts k ≡ block_count (of_four a.now b.now c.now d.now k)) }
{
    Some([a.blocks()?, b.blocks()?, c.blocks()?, d.blocks()?])
}

// Whether lanes save time: a block in four lanes takes as long as two by `sha2`.
fn are_balanced(counts: &[usize; 4]) -> bool {
    let [a, b, c, d] = *counts;
    let most = a.max(b).max(c.max(d));
    let sum = a.saturating_add(b).saturating_add(c).saturating_add(d);
    sum / 2 >= most
}

fn digests_in_lanes(
    a: Text<'_>,
    b: Text<'_>,
    c: Text<'_>,
    d: Text<'_>,
    counts: &[usize; 4],
) -> [[u8; 32]; 4]
    requires { (k : ℕ) → k < 4 → slice_index counts.now k ≡ block_count (of_four a b c d k) }
    ensures { result ≡ sha256 a.entry ∷ sha256 b.entry ∷ sha256 c.entry ∷ sha256 d.entry ∷ [] }
{
    let messages = Messages {
        first: Message::new(a),
        second: Message::new(b),
        third: Message::new(c),
        fourth: Message::new(d),
    };
    messages.digests(counts)
}
