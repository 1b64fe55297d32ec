//! Appends with a place: the number of events of their kind that come before them.
use super::*;

// A committer over a store that counts the events of these kinds.
fn counting<D: Sectors + Drop>(
    rt: &impl Abort,
    alloc: Global,
    store: Store<D>,
    reserve: u64,
    kinds: &[u32],
) -> Committer<D> {
    the_committer(rt, Committer::counting(alloc, store, reserve, kinds))
}

// The store after these calls of a committer that counts these kinds.
fn after_counting<D: Sectors + Drop>(
    rt: &impl Abort,
    alloc: Global,
    store: Store<D>,
    reserve: u64,
    kinds: &[u32],
    steps: &[Step],
) -> Store<D> {
    let mut committer = counting(rt, alloc, store, reserve, kinds);
    expect(rt, alloc, &mut committer, steps);
    committer.into_store()
}

// Those of kinds 1 and 7 are counted. Of kind 1 there are three after the first flush, and four after the second one.
const MIXED: [Step; 14] = [
    Step::Ask(Query::Place { tag: 8, kind: 1 }),
    Step::Ask(Query::Place { tag: 9, kind: 7 }),
    Step::Ask(Query::Place { tag: 10, kind: 2 }),
    Step::Placed(1, 1, 0, b"a"),
    Step::Append(2, b"b"),
    Step::Placed(3, 1, 1, b"c"),
    Step::Placed(4, 1, 3, b"d"),
    Step::Placed(5, 7, 0, b"e"),
    Step::Placed(6, 2, 0, b"f"),
    Step::Placed(7, 1, 2, b"g"),
    Step::Flush,
    Step::Says(
        2,
        &[
            "0055890000000100000000000000000000000000000004378d9460d967542983d27175b9af460293d433de0cbee3a357bec67169c10efe691382027c6aceeced5ad1fadced0943a8ec01db381c4ce29a83b0b2ee0ebdaf",
            "0035810000000200000000000000010000000000000004378d9460d967542983d27175b9af460293d433de0cbee3a357bec67169c10efe",
            // One lower than its place would be, and one higher.
            "0015880000000300000000000000030000000000000004",
            "0015880000000400000000000000030000000000000004",
            "0055890000000500000000000000020000000000000004378d9460d967542983d27175b9af460293d433de0cbee3a357bec67169c10efe1fa2960d04ad6b5eb5d8b2a94a9d87598b8a69e8f0ffe894b11c066d75571189",
            "0006ff0000000612",
            "0055890000000700000000000000030000000000000004378d9460d967542983d27175b9af460293d433de0cbee3a357bec67169c10efe571f8eefcf8969af7abaa5915a8857865a293dc70cdbb799809edcd7aba07a47",
        ],
    ),
    Step::Says(
        1,
        &[
            "0015880000000800000000000000030000000000000004",
            "0015880000000900000000000000010000000000000004",
            "0006ff0000000a12",
        ],
    ),
    Step::Says(2, &[]),
];

// What is appended to the same store later.
const LATER: [Step; 5] = [
    Step::Placed(11, 1, 2, b"h"),
    Step::Placed(12, 1, 3, b"h"),
    Step::Flush,
    Step::Says(
        2,
        &[
            "0015880000000b00000000000000040000000000000005",
            "0055890000000c000000000000000400000000000000055ed8434c489afc0d413c873f9f14743b037516ac8c7da59c2cee8ad448558f0a73e5f5bacb1bbf817b5547848ff647324d5dc184819a9b070ac103ca21bf5560",
        ],
    ),
    Step::Says(1, &[]),
];

#[test]
fn places_in_one_flush_and_the_next(rt: HostRuntime) {
    let alloc = rt.alloc();
    let store = formatted(&rt, alloc, device(&rt, alloc, 16));
    let mut committer = counting(&rt, alloc, store, 0, &[1, 7]);
    expect(&rt, alloc, &mut committer, &MIXED);
    expect(&rt, alloc, &mut committer, &LATER);
    check!(&rt; committer.into_store().end() == 7);
}

// The events of a store that is opened again are counted.
#[test]
fn places_in_a_store_that_is_opened_again(rt: HostRuntime) {
    let alloc = rt.alloc();
    let store = formatted(&rt, alloc, device(&rt, alloc, 16));
    let disk = after_counting(&rt, alloc, store, 0, &[1, 7], &MIXED).into_disk();
    let Ok(again) = Store::open(alloc, disk) else {
        panic!(&rt; "not opened");
    };
    check!(&rt; after_counting(&rt, alloc, again, 0, &[7, 1], &LATER).end() == 7);
}

// Two sectors are left. An event that needs more is refused as full, and isn't counted: what comes next is displaced. So
// is what has a wrong place, though nothing more fits.
const FULL: [Step; 8] = [
    Step::Placed(1, 1, 0, &[]),
    Step::Placed(2, 1, 1, &[0; 441]),
    Step::Placed(3, 1, 2, &[]),
    Step::Placed(4, 1, 1, &[]),
    Step::Placed(5, 1, 2, &[]),
    Step::Placed(6, 1, 0, &[]),
    Step::Flush,
    Step::Says(
        2,
        &[
            "00558900000001000000000000000000000000000000029e495e23c535674ef9478d00d662b0dcc6f77ed4d7359d3cbe0572b81c7ff641691382027c6aceeced5ad1fadced0943a8ec01db381c4ce29a83b0b2ee0ebdaf",
            "0006ff0000000207",
            "0015880000000300000000000000020000000000000002",
            "00558900000004000000000000000100000000000000029e495e23c535674ef9478d00d662b0dcc6f77ed4d7359d3cbe0572b81c7ff64198dfd1c593074976646b29099609c14b51ac3b85ca58e03dfca0b3799065cd05",
            "0006ff0000000507",
            "0015880000000600000000000000020000000000000002",
        ],
    ),
];

// After a close an event at its place is refused as closed, and in the next flush too. Others are still told the place.
const CLOSED_LOG: [Step; 10] = [
    Step::Placed(1, 1, 0, &[]),
    Step::Close(2),
    Step::Placed(3, 1, 1, &[]),
    Step::Placed(4, 1, 0, &[]),
    Step::Flush,
    Step::Says(
        2,
        &[
            "0055890000000100000000000000000000000000000002dcf2548810cf6a5c3dbc51c9c275608e46239c8b0bf5450ee1c0063d52f57202691382027c6aceeced5ad1fadced0943a8ec01db381c4ce29a83b0b2ee0ebdaf",
            "0035810000000200000000000000010000000000000002dcf2548810cf6a5c3dbc51c9c275608e46239c8b0bf5450ee1c0063d52f57202",
            "0006ff000000030d",
            "0015880000000400000000000000010000000000000002",
        ],
    ),
    Step::Placed(5, 1, 1, &[]),
    Step::Placed(6, 1, 2, &[]),
    Step::Flush,
    Step::Says(
        2,
        &[
            "0006ff000000050d",
            "0015880000000600000000000000010000000000000002",
        ],
    ),
];

// Makes the calls over a device of `sectors` sectors, of which kind 1 is counted. Afterwards its log must end at 4.
fn expect_four(rt: &impl Abort, alloc: Global, sectors: u64, reserve: u64, steps: &[Step]) {
    let store = formatted(rt, alloc, device(rt, alloc, sectors));
    check!(rt; after_counting(rt, alloc, store, reserve, &[1], steps).end() == 4);
}

#[test]
fn places_in_a_full_store(rt: HostRuntime) {
    expect_four(&rt, rt.alloc(), 4, 0, &FULL);
}

#[test]
fn places_in_a_closed_log(rt: HostRuntime) {
    expect_four(&rt, rt.alloc(), 5, 1, &CLOSED_LOG);
}
