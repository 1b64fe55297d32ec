use crate::figures::print_figures;
use crate::times::Stopwatch;
use sha2::{Digest, Sha256};
use std::rt::Clock;

// The lengths of the messages hashed for an event with a payload of two bytes: entry key, link, the two halves of the
// MAC, next key, leaf, and an inner node. They have 11 blocks.
const MESSAGE_LENS: [usize; 7] = [50, 38, 96, 96, 46, 75, 65];

/// Times just the SHA-256 of `events` small events.
pub fn measure(rt: &(impl Clock + Eprint), events: u32) -> anyhow::Result<()> {
    let watch = Stopwatch::start(rt);
    let seen = hash_events(events);
    let nanoseconds = watch.nanoseconds(rt)?;
    print_figures(
        rt,
        &[
            ("events", u128::from(events)),
            ("nanoseconds", nanoseconds),
            ("seen", u128::from(seen)),
        ],
    )
}

/// Hashes what `events` small events require: seven messages with 11 blocks for each.
pub fn hash_events(events: u32) -> u8 {
    let message = [0x5a; 96];
    let mut seen = 0;
    for _ in 0..events {
        for len in MESSAGE_LENS {
            seen ^= Sha256::digest(&message[..len])[0];
        }
    }
    seen
}
