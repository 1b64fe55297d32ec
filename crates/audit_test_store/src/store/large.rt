//! A store of more than 2^20 events, and its answers after reopening.
use super::*;

const COUNT: u64 = (1 << 20) + 3;

// The sectors of a device on which no further event fits.
const SECTORS: u64 = COUNT + 2;

// Events without a payload, starting with this number.
fn empty_events(rt: &impl Abort, alloc: Global, first: u64, count: u64) -> Vec<Event> {
    let mut events = Vec::new(alloc);
    for place in 0..count {
        events
            .push(event(rt, alloc, first.wrapping_add(place), 0))
            .expect(rt, "memory");
    }
    events
}

// Appends this many events, in batches of 64 and a last one of the rest.
fn fill<D: Sectors>(rt: &impl Abort, alloc: Global, store: &mut Store<D>, count: u64) {
    for _ in 0..count.div_ceil(64) {
        let first = store.commitment().count;
        let size = count.saturating_sub(first).min(64);
        store
            .append(&empty_events(rt, alloc, first, size))
            .expect(rt, "an append");
    }
}

// Indices and counts of events, around powers of 2 and at the ends.
const MEMBERS: [(u64, u64); 8] = [
    (0, 1),
    (0, COUNT),
    (255, 257),
    (524_287, 1_048_575),
    (1_048_575, 1_048_576),
    (1_048_575, 1_048_577),
    (1_048_576, COUNT),
    (COUNT - 1, COUNT),
];

// Older and newer counts.
const INCREMENTS: [(u64, u64); 6] = [
    (1, COUNT),
    (524_288, 1_048_576),
    (1_048_575, 1_048_576),
    (1_048_576, 1_048_577),
    (1_048_577, COUNT),
    (COUNT, COUNT),
];

// The SHA-256 of the commitment and the end, and of the proofs and entries at these places.
fn asked_at_places<D: Sectors>(rt: &impl Abort, store: &mut Store<D>) -> [u8; 32] {
    let mut text = Sha256::new();
    let Commitment { count, root } = store.commitment();
    text.update(&count.to_be_bytes());
    text.update(&root);
    text.update(&store.end().to_be_bytes());
    for (index, count) in MEMBERS {
        put_hashes(
            &mut text,
            &store.membership(index, count).expect(rt, "a path"),
        );
        text.update(&store.entry(index).expect(rt, "an entry"));
    }
    for (older, newer) in INCREMENTS {
        put_hashes(
            &mut text,
            &store.incremental(older, newer).expect(rt, "a path"),
        );
    }
    text.finalize()
}

#[test]
fn a_store_of_more_than_2_to_the_20_events(rt: HostRuntime) {
    let alloc = rt.alloc();
    let answers = hash(
        &rt,
        "37114df4af7128a0849a7868e853d77d4ed7c0bd0d45977c00740541f0a7e9f5",
    );
    let mut store = formatted(&rt, alloc, device(&rt, alloc, SECTORS));
    fill(&rt, alloc, &mut store, COUNT);
    check!(&rt; store.append(&empty_events(&rt, alloc, COUNT, 1)).err() == Some(StoreError::Full));
    check!(&rt; asked_at_places(&rt, &mut store) == answers);
    let mut again = opened(&rt, alloc, store.into_disk());
    check!(&rt; asked_at_places(&rt, &mut again) == answers);
}
