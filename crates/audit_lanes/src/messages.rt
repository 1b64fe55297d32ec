//! Four messages that are hashed side by side, each until its own last block.

ghost use Rattle.std.specs.Prelude.{◌≡◌, ◌≢◌, ℕ, ◌*◌, ◌<◌, ◌≤◌, [], drop, length, take, slice_index, slice_index_or};
ghost use Rattle.sha2.specs.Sha256.{compress, digest_bytes, hash_after, initial_hash_256};
ghost use Rattle.audit_lanes.specs.States.{hash_in_lane};
ghost use Rattle.audit_lanes.specs.Messages.{message_in_lane};

use crate::compress::compress;
use crate::message::Message;
use crate::states::States;

/// What is left of each message.
#[derive(Drop)]
pub(crate) struct Messages<'a> {
    pub(crate) first: Message<'a>,
    pub(crate) second: Message<'a>,
    pub(crate) third: Message<'a>,
    pub(crate) fourth: Message<'a>,
}

impl<'a> Messages<'a> {
    /// Returns the digest of each message. `counts` has the number of blocks that are left of it.
    pub(crate) fn digests(mut self, counts: &[usize; 4]) -> [[u8; 32]; 4]
        requires some { (k : ℕ) → k < 4 → 1 ≤ slice_index counts.now k }
        requires whole { (k : ℕ) → k < 4 → 64 * slice_index counts.now k ≤ length (message_in_lane self k) }
        ensures { (k : ℕ) → k < 4 → slice_index_or result k []
            ≡ digest_bytes (hash_after initial_hash_256 (message_in_lane self.entry k) (slice_index counts.now k)) 8 }
    {
        let most = most_of(counts);
        let mut states = States::initial();
        let mut digests = [[0; 32]; 4];
        'turns: for i in 0..most {
            let next = self.next_states(states);
            states = next;
            let kept = with_ended(digests, &states, counts, i + 1);
            digests = kept;
        }
        digests
    }

    // Takes the next block of each message into its hash value. That of a message that has ended changes, too.
    fn next_states(&mut self, states: States) -> States
        ensures block { (k : ℕ) → k < 4 → 64 ≤ length (message_in_lane self.old k)
            → hash_in_lane result k ≡ compress (hash_in_lane states k) (take 64 (message_in_lane self.old k)) }
        ensures rest { (k : ℕ) → k < 4 → message_in_lane self.new k ≡ drop 64 (message_in_lane self.old k) }
    {
        let first = self.first.next_block();
        let second = self.second.next_block();
        let third = self.third.next_block();
        let fourth = self.fourth.next_block();
        compress(states, &first, &second, &third, &fourth)
    }
}

fn most_of(counts: &[usize; 4]) -> usize
    ensures { (k : ℕ) → k < 4 → slice_index counts.now k ≤ result }
{
    let [a, b, c, d] = *counts;
    a.max(b).max(c.max(d))
}

// The digests, with those of the messages that end with this block.
fn with_ended(
    digests: [[u8; 32]; 4],
    states: &States,
    counts: &[usize; 4],
    block: usize,
) -> [[u8; 32]; 4]
    ensures ended { (k : ℕ) → k < 4 → slice_index counts.now k ≡ block
        → slice_index_or result k [] ≡ digest_bytes (hash_in_lane states.now k) 8 }
    ensures others { (k : ℕ) → k < 4 → slice_index counts.now k ≢ block
        → slice_index_or result k [] ≡ slice_index_or digests k [] }
{
    let [a, b, c, d] = digests;
    let first = if counts[0] == block {
        states.digest(0)
    } else {
        a
    };
    let second = if counts[1] == block {
        states.digest(1)
    } else {
        b
    };
    let third = if counts[2] == block {
        states.digest(2)
    } else {
        c
    };
    let fourth = if counts[3] == block {
        states.digest(3)
    } else {
        d
    };
    [first, second, third, fourth]
}
