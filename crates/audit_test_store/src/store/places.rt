//! How many events of a kind a store holds, and the keys of the entries of a batch.
use super::*;
use audit_chain::FIRST_LINK;
use audit_store_commit::{Batch, seal_batch};

// Events of these kinds without payloads.
fn of_kinds(rt: &impl Abort, alloc: Global, kinds: &[u32]) -> Vec<Event> {
    let mut events = Vec::new(alloc);
    for kind in kinds {
        let event = Event::new(alloc, *kind, &[]).expect(rt, "an event");
        events.push(event).expect(rt, "memory");
    }
    events
}

// The kinds of the events of three batches.
const BATCHES: [&[u32]; 3] = [&[1, 7, 1], &[0, 4_294_967_294, 263], &[7, 1]];

// Kinds, and how many of these events have each.
const NUMBERS: [(u32, u64); 7] = [
    (0, 1),
    (1, 3),
    (2, 0),
    (7, 2),
    (263, 1),
    (65_536, 0),
    (4_294_967_294, 1),
];

fn expect_numbers<D: Sectors>(rt: &impl Abort, store: &Store<D>, closings: u64) {
    for (kind, number) in NUMBERS {
        check!(rt; store.events_of_kind(kind) == number, kind);
    }
    check!(rt; store.events_of_kind(4_294_967_295) == closings);
}

// Those of both batches count, of a close too, and of a store that was opened again.
#[test]
fn events_of_each_kind_are_counted(rt: HostRuntime) {
    let alloc = rt.alloc();
    let mut store = formatted(&rt, alloc, device(&rt, alloc, 16));
    check!(&rt; store.events_of_kind(0) == 0 && store.events_of_kind(1) == 0);
    for kinds in BATCHES {
        store
            .append(&of_kinds(&rt, alloc, kinds))
            .expect(&rt, "an append");
    }
    expect_numbers(&rt, &store, 0);
    store.close(&[]).expect(&rt, "a close");
    expect_numbers(&rt, &store, 1);
    expect_numbers(&rt, &opened(&rt, alloc, store.into_disk()), 1);
}

// The keys of the keystreams of three entries, of kinds 1, 1 and 7, in a log whose first key is zero.
const KEYS: [&str; 3] = [
    "691382027c6aceeced5ad1fadced0943a8ec01db381c4ce29a83b0b2ee0ebdaf",
    "98dfd1c593074976646b29099609c14b51ac3b85ca58e03dfca0b3799065cd05",
    "1fa2960d04ad6b5eb5d8b2a94a9d87598b8a69e8f0ffe894b11c066d75571189",
];

// Keys of no entry.
const NO_KEY: [u8; 32] = [0xff; 32];

// Seals a batch of these kinds, the first of a log whose first key is zero, with this room for the keys of its entries.
fn seal_kinds(rt: &impl Abort, alloc: Global, kinds: &[u32], keys: &mut [[u8; 32]]) {
    let events = of_kinds(rt, alloc, kinds);
    let first = Key::from_bytes([0; 32]);
    let sealed = seal_batch(alloc, &first, &FIRST_LINK, &Batch::new(&events), keys).expect(
        rt,
        "a sealed batch",
    );
    check!(rt; sealed.entries.len() == kinds.len());
}

// They are those of the batch's entries, in order; what is behind them stays. Where there is less room, the others are
// left out.
#[test]
fn keys_of_a_batch(rt: HostRuntime) {
    let alloc = rt.alloc();
    let mut keys = [NO_KEY; 4];
    seal_kinds(&rt, alloc, &[1, 1, 7], &mut keys);
    check!(&rt; keys[0] == hash(&rt, KEYS[0]) && keys[1] == hash(&rt, KEYS[1]));
    check!(&rt; keys[2] == hash(&rt, KEYS[2]) && keys[3] == NO_KEY);
    let mut few = [NO_KEY; 2];
    seal_kinds(&rt, alloc, &[1, 1, 7], &mut few);
    check!(&rt; few[0] == hash(&rt, KEYS[0]) && few[1] == hash(&rt, KEYS[1]));
    let mut none = [NO_KEY; 1];
    seal_kinds(&rt, alloc, &[], &mut none);
    check!(&rt; none[0] == NO_KEY);
}
