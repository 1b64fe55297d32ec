// What a session is told of the state of a store: one of a core that was just made, and a daemon's client.
use crate::rights::{core_with, new_core};
use audit_disk::MemDisk;
use audit_serve_passes::{BoundKinds, Rights, SessionCore};
use audit_server::Core;
use audit_wire::{Reply, first_frame, read_reply};
use std::alloc::Global;
use std::process::Abort;

// An append of `hi` under kind 1, a request for the state, and a close.
const APPEND: [u8; 13] = [0, 11, 1, 0, 0, 0, 7, 0, 0, 0, 1, b'h', b'i'];

const GET_STATE: [u8; 7] = [0, 5, 7, 0, 0, 0, 8];

const CLOSE: [u8; 7] = [0, 5, 6, 0, 0, 0, 3];

// How many events there are, the first free sector, the generation, and whether the log is closed.
type Numbers = (u64, u64, u64, bool);

// What is answered to the last request in a piece.
fn answer(rt: &impl Abort, core: &mut Core<MemDisk>, piece: &[u8]) -> Vec<u8> {
    assert!(rt; core.feed(0, piece).is_ok() && core.flush().is_ok());
    core.take_output(0)
}

// Whether the output ends with the state of a store of 64 sectors, of the newest version.
fn says(alloc: Global, output: &[u8], numbers: Numbers) -> bool {
    let Some(start) = output.len().checked_sub(74) else {
        return false;
    };
    let Some((body, [])) = first_frame(&output[start..]) else {
        return false;
    };
    match read_reply(alloc, body) {
        Ok(
            Reply::State {
                tag: 8,
                count,
                end,
                sectors: 64,
                generation,
                version: 2,
                closed,
                ..
            },
        ) => (count, end, generation, closed) == numbers,
        _ => false,
    }
}

// A store without events is of generation 2, and each batch uses two more.
#[test]
fn clients_of_a_daemon_are_told(rt: HostRuntime) {
    let alloc = rt.alloc();
    let mut core = core_with(&rt, alloc, Rights::all());
    assert!(&rt; says(alloc, &answer(&rt, &mut core, &GET_STATE), (0, 2, 2, false)));
    assert!(&rt; answer(&rt, &mut core, &APPEND).len() == 55);
    assert!(&rt; says(alloc, &answer(&rt, &mut core, &GET_STATE), (1, 3, 4, false)));
    assert!(&rt; answer(&rt, &mut core, &CLOSE).len() == 55);
    assert!(&rt; says(alloc, &answer(&rt, &mut core, &GET_STATE), (2, 4, 6, true)));
}

// It is the state after the appends that were taken with it.
#[test]
fn it_is_the_state_after_the_commit(rt: HostRuntime) {
    let alloc = rt.alloc();
    let mut core = core_with(&rt, alloc, Rights::all());
    assert!(&rt; core.feed(0, &GET_STATE).is_ok());
    assert!(&rt; says(alloc, &answer(&rt, &mut core, &APPEND), (1, 3, 4, false)));
}

// Whatever a daemon's client may append, it may ask.
#[test]
fn every_right_is_told(rt: HostRuntime) {
    for rights in [
        Rights::Read,
        Rights::Source(9),
        Rights::Append(BoundKinds::none()),
    ] {
        let mut core = core_with(&rt, rt.alloc(), rights);
        let output = answer(&rt, &mut core, &GET_STATE);
        assert!(&rt; says(rt.alloc(), &output, (0, 2, 2, false)));
        assert!(&rt; !core.ended(0));
    }
}

// For the sessions of a core that was just made it is no request.
#[test]
fn other_sessions_have_no_such_request(rt: HostRuntime) {
    let mut core = new_core(&rt, rt.alloc());
    let output = answer(&rt, &mut core, &GET_STATE);
    assert!(&rt; output.as_slice() == [0, 6, 0xff, 0, 0, 0, 0, 20].as_slice());
    assert!(&rt; core.ended(0) && !core.is_cut_off(0));
}
