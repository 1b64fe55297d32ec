//! Stores of the format's first version: they can be read, and are written in the newest version.
use super::damage::{outcome, sectors_of};
use super::*;
use audit_base::{FIRST_MAX_PAYLOAD, MAX_PAYLOAD};
use audit_chain::ChainError;
use audit_log::{FIRST_VERSION, Header, VERSION};

// The header sector with another version and generation.
fn rewritten(rt: &impl Abort, sector: &[u8; 512], version: u16, generation: u64) -> [u8; 512] {
    let Ok(mut header) = Header::decode(generation % 2, sector) else {
        panic!(rt; "no header");
    };
    header.version = version;
    header.generation = generation;
    check!(rt; header.meets_rules(header.generation % 2));
    header.encode()
}

// The sectors of a store of one batch, with headers of these versions: first generation 4, then generation 3.
fn as_versions(
    rt: &impl Abort,
    alloc: Global,
    store: Store<MemDisk>,
    versions: [u16; 2],
) -> Vec<[u8; 512]> {
    let mut sectors = sectors_of(rt, alloc, store.into_disk());
    check!(rt; sectors.len() > 2);
    sectors[0] = rewritten(rt, &sectors[0], versions[0], 4);
    sectors[1] = rewritten(rt, &sectors[1], versions[1], 3);
    sectors
}

// The device of one event with the payload `hi` in the first version.
pub(crate) fn first_of_hi(rt: &impl Abort, alloc: Global) -> MemDisk {
    let store = of_hi(rt, alloc, device(rt, alloc, 16));
    let sectors = as_versions(rt, alloc, store, [FIRST_VERSION, FIRST_VERSION]);
    MemDisk::from_sectors(alloc, &sectors).expect(rt, "a device")
}

// The image of that device, the state of its store, and the state after appending an event without payload.
const FIRST_IMAGE: &str = "f8dccd9bf9d0886fa8fa8171cddf2670f682efdde3298c39fa8b07af559a4bfc";

const FIRST: &str = "378c9e74d3f25d7035860ab7496d00415139759749547296c0b0c65b7f5dfed0";

const UPGRADED: &str = "d9454682b9de101395e4b139ddaa7d863ef81867bc02f8e251a7b3a5b945d25d";

// An event without payload.
fn more(rt: &impl Abort, alloc: Global) -> Vec<Event> {
    vec![in alloc; Event::new(alloc, 2, &[]).expect(rt, "an event")].expect(rt, "memory")
}

// Opening keeps the first version, and so does an append of no events. An append of an event writes the newest
// version.
#[test]
fn a_store_of_the_first_version(rt: HostRuntime) {
    let alloc = rt.alloc();
    check!(&rt; image_of(&rt, first_of_hi(&rt, alloc)) == hash(&rt, FIRST_IMAGE));
    let mut store = opened(&rt, alloc, first_of_hi(&rt, alloc));
    store.append(&[]).expect(&rt, "an append");
    check!(&rt; store.version() == 1 && store.generation() == 4 && store.calls() == 15);
    check!(&rt; state_of(&rt, opened(&rt, alloc, first_of_hi(&rt, alloc))) == hash(&rt, FIRST));
    store.append(&more(&rt, alloc)).expect(&rt, "an append");
    check!(&rt; store.version() == 2 && store.generation() == 6 && store.calls() == 15 + 6);
    check!(&rt; store.end() == 4 && state_of(&rt, store) == hash(&rt, UPGRADED));
}

// The device of the append, stopped after `calls` calls, after a crash that left none or all of what was pending.
fn stopped(rt: &impl Abort, alloc: Global, calls: u64, pick: u64) -> MemDisk {
    let fuse = Fuse::new(first_of_hi(rt, alloc), calls.saturating_add(15));
    let mut store = opened(rt, alloc, fuse);
    let refusal = store.append(&more(rt, alloc)).err();
    check!(rt; refusal.is_none() == (calls == 6));
    check!(rt; store.version() == if calls == 6 { VERSION } else { FIRST_VERSION });
    let picks = vec![in alloc; pick; 16].expect(rt, "memory");
    store
        .into_disk()
        .into_inner()
        .crash(alloc, &picks)
        .expect(rt, "a device")
}

// For an append stopped after some number of calls, after a crash that left none or all of what was pending: the
// version of the reopened store, and the calls of the opening. At most one sector is pending.
const STOPPED: [[(u16, u64); 2]; 7] = [
    [(1, 15), (1, 15)],
    [(1, 15), (1, 15)],
    [(1, 15), (1, 15)],
    [(1, 15), (2, 16)],
    [(2, 16), (2, 16)],
    [(2, 16), (2, 14)],
    [(2, 14), (2, 14)],
];

fn expect_opened(rt: &impl Abort, alloc: Global, disk: MemDisk, (version, calls): (u16, u64)) {
    let store = opened(rt, alloc, disk);
    check!(rt; store.version() == version && store.calls() == calls);
    check!(rt; store.commitment().count == u64::from(version));
    let state = hash(
        rt,
        if version == FIRST_VERSION {
            FIRST
        } else {
            UPGRADED
        },
    );
    check!(rt; state_of(rt, store) == state);
}

#[test]
fn an_upgrade_stopped_at_each_call(rt: HostRuntime) {
    let alloc = rt.alloc();
    for (calls, [lost, kept]) in (0..7).zip(STOPPED) {
        expect_opened(&rt, alloc, stopped(&rt, alloc, calls, 0), lost);
        expect_opened(&rt, alloc, stopped(&rt, alloc, calls, 1), kept);
    }
}

// The outcome of opening a store of two events with payloads of these lengths, in this version.
fn outcome_of(rt: &impl Abort, alloc: Global, lengths: &[u64], version: u16) -> u8 {
    let store = store_of(rt, alloc, 16, lengths);
    let sectors = as_versions(rt, alloc, store, [version, version]);
    outcome(
        alloc,
        MemDisk::from_sectors(alloc, &sectors).expect(rt, "a device"),
    )
}

// The longest payload of the first version.
const MOST: u64 = FIRST_MAX_PAYLOAD as u64;

// A payload that only the newest version allows is damage in the first one, even if the log ends where it may.
#[test]
fn payloads_under_each_version(rt: HostRuntime) {
    let alloc = rt.alloc();
    check!(&rt; outcome_of(&rt, alloc, &[MOST + 1, 0], FIRST_VERSION) == 0x40);
    check!(&rt; outcome_of(&rt, alloc, &[MOST, 0], FIRST_VERSION) == 0);
    check!(&rt; outcome_of(&rt, alloc, &[MOST + 1, 0], VERSION) == 0);
    let longer = vec![in alloc; 0; MAX_PAYLOAD + 1].expect(&rt, "memory");
    check!(&rt; Event::new(alloc, 1, &longer).err() == Some(ChainError::TooLong));
}

// The headers of generation 4 over one event and of generation 3 over none, in these versions.
fn over_one_and_none(rt: &impl Abort, alloc: Global, versions: [u16; 2]) -> MemDisk {
    let store = of_hi(rt, alloc, device(rt, alloc, 16));
    let mut sectors = as_versions(rt, alloc, store, versions);
    let none = sectors_of(
        rt,
        alloc,
        formatted(rt, alloc, device(rt, alloc, 16)).into_disk(),
    );
    check!(rt; sectors.len() > 2 && none.len() > 2);
    sectors[1] = rewritten(rt, &none[1], versions[1], 3);
    MemDisk::from_sectors(alloc, &sectors).expect(rt, "a device")
}

// A lower generation can't have a higher version.
#[test]
fn headers_of_two_versions(rt: HostRuntime) {
    let alloc = rt.alloc();
    let refused = over_one_and_none(&rt, alloc, [FIRST_VERSION, VERSION]);
    check!(&rt; outcome(alloc, refused) == 0x30);
    let upgraded = over_one_and_none(&rt, alloc, [VERSION, FIRST_VERSION]);
    let state = hash(
        &rt,
        "bd5e271e0fa1f3e791a6655e2cb311abdd284727ca9bc12d294bc54687c15ed8",
    );
    check!(&rt; state_of(&rt, opened(&rt, alloc, upgraded)) == state);
}
