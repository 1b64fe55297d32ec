// A batch is sealed four events at a time, and the last ones alone. The expected entries are sealed one by one.
use audit_chain::{Event, FIRST_LINK, Key, Sealed, seal};
use audit_store_commit::{Batch, LogIndex, SealedBatch, keep_batch, seal_batch};
use audit_tree::{Tree, leaf_hash};
use std::alloc::Global;
use std::process::Abort;

// More events than a batch may have, and no multiple of four.
const MOST: u32 = 70;

const FIRST_KEY: [u8; 32] = [5; 32];

// Event `number`, of another kind and another length than its neighbours.
fn event_of(rt: &impl Abort, alloc: Global, number: u32) -> Event {
    let payload = vec![in alloc; (number % 100) as u8; (number % 11) as usize * 23].expect(
        rt, "memory",
    );
    Event::new(alloc, number % 7 + 1, &payload).expect(rt, "an event")
}

fn events_of(rt: &impl Abort, alloc: Global, count: u32) -> Vec<Event> {
    let mut events = Vec::new(alloc);
    for number in 0..count {
        events
            .push(event_of(rt, alloc, number))
            .expect(rt, "memory");
    }
    events
}

// Seals the events one by one and compares what a batch of them has: entries, keys of keystreams, link and next key.
// It returns the root over the entries.
fn expect_sealed(
    rt: &impl Abort,
    alloc: Global,
    events: &[Event],
    batch: &SealedBatch,
    keys: &[[u8; 32]],
) -> [u8; 32] {
    let mut tree = Tree::new(alloc);
    let mut key = Key::from_bytes(FIRST_KEY);
    let mut last_link = FIRST_LINK;
    for (number, event) in events.iter().enumerate() {
        let entry_key = key.entry_key(event.kind());
        let Sealed { bytes, link, next } = seal(alloc, &key, &last_link, event).expect(
            rt,
            "a sealed entry",
        );
        check!(rt; batch.entries.get(number).map(Vec::as_slice) == Some(bytes.as_slice()), number);
        check!(rt; keys.get(number) == Some(&entry_key), number);
        tree.push(leaf_hash(&bytes)).expect(rt, "memory");
        last_link = link;
        key = next;
    }
    check!(rt; batch.last_link == last_link && batch.next_key.bytes() == key.bytes());
    tree.root()
}

fn expect_batch(rt: &impl Abort, alloc: Global, count: u32) {
    let events = events_of(rt, alloc, count);
    let batch = Batch::new(&events);
    let mut keys = [[0; 32]; MOST as usize];
    let sealed = seal_batch(
        alloc,
        &Key::from_bytes(FIRST_KEY),
        &FIRST_LINK,
        &batch,
        &mut keys,
    )
    .expect(rt, "a sealed batch");
    check!(rt; sealed.entries.len() == events.len(), count);
    let root = expect_sealed(rt, alloc, &events, &sealed, &keys);
    if let Some(sectors) = batch.sectors() {
        let mut index = LogIndex::new(alloc);
        index.reserve(sectors).expect(rt, "memory");
        check!(rt; index.count() == 0 && sectors <= 64);
        keep_batch(&mut index, 2, &batch, &sealed);
        check!(rt; index.tree().root() == root, count);
    }
}

#[test]
fn batches_of_each_number_of_events(rt: HostRuntime) {
    for count in 1..MOST + 1 {
        expect_batch(&rt, rt.alloc(), count);
    }
}
