// The expected values come from an independent model of the sessions, which shares no code with the crates.
mod places;

use audit_chain::{Event, Key};
use audit_disk::{Fuse, MemDisk, Sectors};
use audit_server_commit::{Committer, Query, Question};
use audit_store::{Store, StoreError};
use hex::ToHex;
use sha2::{Digest, Sha256};
use std::alloc::Global;
use std::process::Abort;

// A device of this many sectors of zeros.
fn device(rt: &impl Abort, alloc: Global, sectors: u64) -> MemDisk {
    MemDisk::new(alloc, sectors).expect(rt, "a device")
}

fn formatted<D: Sectors + Drop>(rt: &impl Abort, alloc: Global, disk: D) -> Store<D> {
    match Store::format(alloc, disk, Key::from_bytes([0; 32])) {
        Ok(store) => store,
        Err(failed) => panic!(rt; "a store: {}", failed.error),
    }
}

// A committer over a new store on this device, with a reserve unless `reserve` is 0.
fn committer_on<D: Sectors + Drop>(
    rt: &impl Abort,
    alloc: Global,
    disk: D,
    reserve: u64,
) -> Committer<D> {
    let store = formatted(rt, alloc, disk);
    let made = if reserve == 0 {
        Committer::new(alloc, store)
    } else {
        Committer::with_reserve(alloc, store, reserve)
    };
    the_committer(rt, made)
}

fn the_committer<D: Sectors + Drop>(
    rt: &impl Abort,
    made: Result<Committer<D>, Store<D>>,
) -> Committer<D> {
    match made {
        Ok(committer) => committer,
        Err(_) => panic!(rt; "no memory"),
    }
}

// A call of a committer. Session 2 appends and closes, and session 1 asks. The output of a session is taken, and must
// be these pieces of hex digits.
#[derive(Clone, Copy)]
enum Step<'a> {
    Append(u32, &'a [u8]),
    // The tag, kind and place of an append, and its payload.
    Placed(u32, u32, u64, &'a [u8]),
    Close(u32),
    Ask(Query),
    Flush,
    FlushFails(StoreError),
    Says(usize, &'a [&'a str]),
}

// Takes the output of a session, and returns whether it is these pieces of hex digits in a row.
fn says<D: Sectors>(
    rt: &impl Abort,
    alloc: Global,
    committer: &mut Committer<D>,
    session: usize,
    pieces: &[&str],
) -> bool {
    let output = committer.take_output(session % 16);
    let text: String = output.encode_hex(alloc).expect(rt, "memory");
    is_all(text.as_str(), pieces)
}

// Whether a text is these pieces in a row.
fn is_all(text: &str, pieces: &[&str]) -> bool {
    let mut rest = text;
    for piece in pieces {
        match rest.strip_prefix(*piece) {
            Some(after) => rest = after,
            None => return false,
        }
    }
    rest.is_empty()
}

// Makes the call, and returns whether the result was as expected.
fn takes<D: Sectors>(
    rt: &impl Abort,
    alloc: Global,
    committer: &mut Committer<D>,
    step: &Step,
) -> bool {
    match step {
        Step::Append(tag, payload) => {
            let event = Event::new(alloc, 1, payload).expect(rt, "an event");
            committer.append(2, *tag, None, event).is_ok()
        }
        Step::Placed(tag, kind, place, payload) => {
            let event = Event::new(alloc, *kind, payload).expect(rt, "an event");
            committer.append(2, *tag, Some(*place), event).is_ok()
        }
        Step::Close(tag) => {
            committer
                .append(2, *tag, None, Event::closing(alloc))
                .is_ok()
        }
        Step::Ask(query) => {
            let (session, query) = (1, *query);
            committer.ask(Question { session, query }).is_ok()
        }
        Step::Flush => committer.flush().is_ok(),
        Step::FlushFails(fault) => committer.flush() == Err(*fault),
        Step::Says(session, pieces) => says(rt, alloc, committer, *session, pieces),
    }
}

fn expect<D: Sectors>(
    rt: &impl Abort,
    alloc: Global,
    committer: &mut Committer<D>,
    steps: &[Step],
) {
    for (place, step) in steps.iter().enumerate() {
        check!(rt; takes(rt, alloc, committer, step), place);
    }
}

// The store after these calls of a committer over a new store on this device.
fn after<D: Sectors + Drop>(
    rt: &impl Abort,
    alloc: Global,
    disk: D,
    reserve: u64,
    steps: &[Step],
) -> Store<D> {
    let mut committer = committer_on(rt, alloc, disk, reserve);
    expect(rt, alloc, &mut committer, steps);
    committer.into_store()
}

// Makes the calls over a device of `sectors` sectors. Afterwards its log must end at `end`.
fn expect_end(
    rt: &impl Abort,
    alloc: Global,
    sectors: u64,
    reserve: u64,
    steps: &[Step],
    end: u64,
) {
    let store = after(rt, alloc, device(rt, alloc, sectors), reserve, steps);
    check!(rt; store.end() == end);
}

const ROOT: &str = "1adb768b1a8442d111228c6b4ee67325246d75c87ac4a45dce6d4ed7a0cba265";

const COUNTED: [Step; 6] = [
    Step::Ask(Query::Commitment { tag: 9 }),
    Step::Append(7, b"hi"),
    Step::Flush,
    Step::Says(1, &["002d82000000090000000000000001", ROOT]),
    Step::Says(2, &["0035810000000700000000000000000000000000000001", ROOT]),
    Step::Says(2, &[]),
];

#[test]
fn a_commitment_beside_an_append_counts_it(rt: HostRuntime) {
    expect_end(&rt, rt.alloc(), 16, 0, &COUNTED, 3);
}

// The replies to three appends if three sectors are left for them: the second one needs two, and doesn't fit.
const TWO_OF_THREE: &str =
    "00358100000001000000000000000000000000000000025130bd5ac59f2c5cb0d225c79ff5f96bd12035a8dd7dd988fd51402eabb71a6c0006ff000000020700358100000003000000000000000100000000000000025130bd5ac59f2c5cb0d225c79ff5f96bd12035a8dd7dd988fd51402eabb71a6c";

const THREE: [Step; 5] = [
    Step::Append(1, &[0; 441]),
    Step::Append(2, &[0; 441]),
    Step::Append(3, &[]),
    Step::Flush,
    Step::Says(2, &[TWO_OF_THREE]),
];

#[test]
fn an_append_after_one_that_does_not_fit(rt: HostRuntime) {
    expect_end(&rt, rt.alloc(), 5, 0, &THREE, 5);
}

// The replies to the closing and to an append after it.
const CLOSED: &str =
    "0035810000000400000000000000020000000000000003056b7cbdebe1527c089a6d04f89eeaf40728ca97b2c3bed08684cba7aec18e3a0006ff000000050d";

const CLOSING: [Step; 9] = [
    Step::Append(1, &[0; 441]),
    Step::Append(2, &[0; 441]),
    Step::Append(3, &[]),
    Step::Flush,
    Step::Says(2, &[TWO_OF_THREE]),
    Step::Close(4),
    Step::Append(5, &[]),
    Step::Flush,
    Step::Says(2, &[CLOSED]),
];

// A reserve is for the events as if the device were so much smaller. A close may use it.
#[test]
fn a_close_uses_the_reserve(rt: HostRuntime) {
    expect_end(&rt, rt.alloc(), 6, 1, &CLOSING, 6);
}

const ENTRY: &str =
    "0000000100000002b8879f1e0e12b5bff2e04073ae77cd7220863b2a5d3c10c71940136430292b3a08eea5a823836da22bd11e8e5f9c6e0141ef0a27786dfce7f9366ab4d990cf7c071d";

const ANSWERED: [Step; 9] = [
    Step::Append(7, b"hi"),
    Step::Flush,
    Step::Ask(Query::Entry { tag: 5, index: 0 }),
    Step::Ask(Query::Membership {
        tag: 5,
        index: 0,
        count: 1,
    }),
    Step::Ask(Query::Incremental {
        tag: 6,
        older: 1,
        newer: 1,
    }),
    Step::Ask(Query::Entry { tag: 8, index: 1 }),
    Step::Ask(Query::Malformed),
    Step::Flush,
    Step::Says(
        1,
        &[
            "004f8500000005",
            ENTRY,
            "0050830000000500",
            ENTRY,
            "0026840000000601",
            ROOT,
            "0006ff00000008080006ff0000000014",
        ],
    ),
];

#[test]
fn every_question_is_answered(rt: HostRuntime) {
    expect_end(&rt, rt.alloc(), 16, 0, &ANSWERED, 3);
}

#[test]
fn the_65th_sector_forces_a_flush(rt: HostRuntime) {
    let alloc = rt.alloc();
    let mut committer = committer_on(&rt, alloc, device(&rt, alloc, 100), 0);
    for tag in 0..65u32 {
        check!(&rt; takes(&rt, alloc, &mut committer, &Step::Append(tag, &[])), tag);
    }
    let digest: [u8; 32] = Sha256::digest(&committer.take_output(2));
    let text: String = digest.encode_hex(alloc).expect(&rt, "memory");
    check!(&rt;
        text.as_str() == "fe853354ae92d66c78394a99ea220459b7d0cc4f6173c92b718db472360de928"
    );
    let store = committer.into_store();
    check!(&rt; store.commitment().count == 64 && store.generation() == 4);
}

#[test]
fn the_257th_item_forces_a_flush(rt: HostRuntime) {
    let alloc = rt.alloc();
    let mut committer = committer_on(&rt, alloc, device(&rt, alloc, 16), 0);
    for tag in 0..257u32 {
        let step = Step::Ask(Query::Commitment { tag });
        check!(&rt; takes(&rt, alloc, &mut committer, &step), tag);
    }
    check!(&rt; committer.take_output(1).len() == 256 * 47);
    expect(&rt, alloc, &mut committer, &[Step::Flush]);
    check!(&rt; committer.take_output(1).len() == 47);
}

// A flush of a question and an append during which the device fails. What waited is dropped, nothing is answered, and
// no more calls are made.
const FAILED: [Step; 7] = [
    Step::Ask(Query::Commitment { tag: 9 }),
    Step::Append(7, b"hi"),
    Step::FlushFails(StoreError::Device),
    Step::FlushFails(StoreError::Broken),
    Step::FlushFails(StoreError::Broken),
    Step::Says(1, &[]),
    Step::Says(2, &[]),
];

// The device after these calls of a committer, if it fails after its first `calls` calls.
fn after_a_fault(rt: &impl Abort, alloc: Global, calls: u64) -> MemDisk {
    let fuse = Fuse::new(device(rt, alloc, 16), calls);
    after(rt, alloc, fuse, 0, &FAILED).into_disk().into_inner()
}

// Either the header isn't written, or it is written and the sync after it fails.
#[test]
fn a_fault_in_the_commit_drops_what_waits(rt: HostRuntime) {
    let alloc = rt.alloc();
    for (calls, count) in [(23, 0), (24, 1)] {
        let Ok(store) = Store::open(alloc, after_a_fault(&rt, alloc, calls)) else {
            panic!(&rt; "not opened");
        };
        check!(&rt; store.commitment().count == count, calls);
    }
}
