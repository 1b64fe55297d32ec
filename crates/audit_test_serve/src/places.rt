// Questions for places, and appends with a place. The bytes are those of the formats.
use crate::rights::{begin, bound, counting_core, new_core};
use audit_disk::MemDisk;
use audit_serve_passes::{BoundKinds, Rights, SessionCore};
use audit_server::Core;
use std::alloc::Global;
use std::process::Abort;

// An append of `hi` under kind 1.
const APPEND: [u8; 13] = [0, 11, 1, 0, 0, 0, 7, 0, 0, 0, 1, b'h', b'i'];

// What a source of kind 1 sends after that event, and what it is replied each time: the place of kind 1, an event at its
// place, one at the same place again, the place of a kind that isn't counted, and an append that isn't allowed.
const REQUESTS: [(&[u8], &[u8]); 5] = [
    (
        &[
            0x00, 0x09, 0x08, 0x00, 0x00, 0x00, 0x09, 0x00, 0x00, 0x00, 0x01,
        ],
        &[
            0x00, 0x15, 0x88, 0x00, 0x00, 0x00, 0x09, 0x00, 0x00, 0x00, 0x00, 0x00, 0x00, 0x00,
            0x01, 0x00, 0x00, 0x00, 0x00, 0x00, 0x00, 0x00, 0x01,
        ],
    ),
    (
        &[
            0x00, 0x12, 0x09, 0x00, 0x00, 0x00, 0x0a, 0x00, 0x00, 0x00, 0x01, 0x00, 0x00, 0x00,
            0x00, 0x00, 0x00, 0x00, 0x01, 0x61,
        ],
        &[
            0x00, 0x55, 0x89, 0x00, 0x00, 0x00, 0x0a, 0x00, 0x00, 0x00, 0x00, 0x00, 0x00, 0x00,
            0x01, 0x00, 0x00, 0x00, 0x00, 0x00, 0x00, 0x00, 0x02, 0x23, 0x0a, 0x75, 0xb6, 0xe4,
            0xa7, 0x58, 0x48, 0x9f, 0x58, 0x34, 0xdd, 0x50, 0xc6, 0x12, 0x30, 0x09, 0x93, 0xd7,
            0x9b, 0x68, 0x86, 0x67, 0xe9, 0xff, 0x5b, 0x87, 0x6d, 0x44, 0xe9, 0x2a, 0xbd, 0x98,
            0xdf, 0xd1, 0xc5, 0x93, 0x07, 0x49, 0x76, 0x64, 0x6b, 0x29, 0x09, 0x96, 0x09, 0xc1,
            0x4b, 0x51, 0xac, 0x3b, 0x85, 0xca, 0x58, 0xe0, 0x3d, 0xfc, 0xa0, 0xb3, 0x79, 0x90,
            0x65, 0xcd, 0x05,
        ],
    ),
    (
        &[
            0x00, 0x12, 0x09, 0x00, 0x00, 0x00, 0x0b, 0x00, 0x00, 0x00, 0x01, 0x00, 0x00, 0x00,
            0x00, 0x00, 0x00, 0x00, 0x01, 0x62,
        ],
        &[
            0x00, 0x15, 0x88, 0x00, 0x00, 0x00, 0x0b, 0x00, 0x00, 0x00, 0x00, 0x00, 0x00, 0x00,
            0x02, 0x00, 0x00, 0x00, 0x00, 0x00, 0x00, 0x00, 0x02,
        ],
    ),
    (
        &[
            0x00, 0x09, 0x08, 0x00, 0x00, 0x00, 0x0c, 0x00, 0x00, 0x00, 0x02,
        ],
        &[0x00, 0x06, 0xff, 0x00, 0x00, 0x00, 0x0c, 0x12],
    ),
    (
        &[
            0x00, 0x0a, 0x01, 0x00, 0x00, 0x00, 0x0d, 0x00, 0x00, 0x00, 0x02, 0x63,
        ],
        &[0x00, 0x06, 0xff, 0x00, 0x00, 0x00, 0x0d, 0x10],
    ),
];

// What session 0 is replied to a piece.
fn answer(rt: &impl Abort, core: &mut Core<MemDisk>, piece: &[u8]) -> Vec<u8> {
    assert!(rt; core.feed(0, piece).is_ok() && core.flush().is_ok());
    core.take_output(0)
}

// A core that counts the events of kind 1, of which it has one, with a daemon's client of these rights in session 0.
fn core_of_one(rt: &impl Abort, alloc: Global, rights: Rights) -> Core<MemDisk> {
    let mut core = counting_core(rt, alloc, &[1]);
    assert!(rt; answer(rt, &mut core, &APPEND).len() == 55);
    assert!(rt; begin(&mut core, rights));
    core
}

#[test]
fn a_source_appends_at_its_places(rt: HostRuntime) {
    let mut core = core_of_one(&rt, rt.alloc(), Rights::Source(1));
    for (request, reply) in REQUESTS {
        assert!(&rt; !core.ended(0));
        assert!(&rt; answer(&rt, &mut core, request).as_slice() == reply);
    }
    assert!(&rt; core.ended(0) && core.is_cut_off(0));
    assert!(&rt; core.into_store().commitment().count == 2);
}

// Whether a daemon's client of these rights is told the place of kind 1, and may append at it.
fn may_append(rt: &impl Abort, alloc: Global, rights: Rights) -> bool {
    let mut core = core_of_one(rt, alloc, rights);
    let [(question, place), (append, placed), ..] = REQUESTS;
    assert!(rt; answer(rt, &mut core, question).as_slice() == place);
    let reply = answer(rt, &mut core, append);
    let refused: [u8; 8] = [0, 6, 0xff, 0, 0, 0, 10, 16];
    assert!(rt; reply.as_slice() == placed || reply.as_slice() == refused.as_slice());
    reply.as_slice() == placed
}

// A placed append is allowed where an append of its kind is, and everybody may ask for a place.
#[test]
fn rights_to_append_at_a_place(rt: HostRuntime) {
    let taken = bound(&rt, &[1]);
    for (rights, may) in [
        (Rights::Read, false),
        (Rights::Source(9), false),
        (Rights::Append(taken), false),
        (Rights::Close(taken), false),
        (Rights::Source(1), true),
        (Rights::Append(BoundKinds::none()), true),
        (Rights::all(), true),
    ] {
        assert!(&rt; may_append(&rt, rt.alloc(), rights) == may);
    }
}

// For the sessions of a core that was just made they are no requests.
#[test]
fn other_sessions_have_no_places(rt: HostRuntime) {
    for (request, _) in &REQUESTS[..2] {
        let mut core = new_core(&rt, rt.alloc());
        let output = answer(&rt, &mut core, request);
        assert!(&rt; output.as_slice() == [0, 6, 0xff, 0, 0, 0, 0, 20].as_slice());
        assert!(&rt; core.ended(0) && !core.is_cut_off(0));
    }
}
