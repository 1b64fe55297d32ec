// A log that is verified in pieces, and states as lines of text. The digests of states come from the independent model;
// the verdicts on pieces are compared with those on the whole log, which `tests` compares with the model's.
use crate::tests::{Log, add_bytes, closed_log, counted_log, counting_key, hash, turn};
use audit_chain::Key;
use audit_verify::{
    State, StateError, advance, bookmark_text, check_from, collect, read_bookmark, state_text,
    verify, verify_from,
};
use sha2::{Digest, Sha256};
use std::alloc::Global;
use std::process::Abort;

// The export of the entries of a log from one place up to another.
fn piece(rt: &impl Abort, alloc: Global, log: &Log, from: usize, to: usize) -> Vec<u8> {
    let mut bytes = Vec::new(alloc);
    for (place, entry) in log.entries.iter().enumerate() {
        if from <= place && place < to {
            add_bytes(rt, &mut bytes, entry);
        }
    }
    bytes
}

// The state after the first entries of a log.
fn state_at(rt: &impl Abort, alloc: Global, log: &Log, count: usize) -> State {
    let bytes = piece(rt, alloc, log, 0, count);
    advance(&mut bytes.as_slice(), &State::first(&counting_key())).expect(rt, "a state")
}

// Whether the texts of the states after 0 to 33 entries, one after another, have this digest.
#[test]
fn states_are_those_of_the_model(rt: HostRuntime) {
    let log = counted_log(&rt, rt.alloc(), 33);
    let mut texts = Sha256::new();
    for count in 0..=33 {
        let state = state_at(&rt, rt.alloc(), &log, count);
        let text = state_text(rt.alloc(), &state).expect(&rt, "memory");
        texts.update(&text);
    }
    assert!(rt;
        texts.finalize()
            == hash(
                &rt,
                "eb89ed86893084ffe8e046e71237bbcd5e2091fc7c73e66112a551b65f88f90c"
            )
    );
}

// The state of a closed log has no key.
#[test]
fn the_state_of_a_closed_log_is_the_models(rt: HostRuntime) {
    let (bytes, commitment) = closed_log(&rt, rt.alloc());
    let first = State::first(&Key::from_bytes([0; 32]));
    let state = check_from(&mut bytes.as_slice(), &first, &commitment).expect(&rt, "a state");
    assert!(rt; state.is_closed());
    let text = state_text(rt.alloc(), &state).expect(&rt, "memory");
    assert!(rt;
        Sha256::digest(&text)
            == hash(
                &rt,
                "1fba99292bdc3b8fe9505510afec19abf906985e1eb32991ea361a92fc44e304"
            )
    );
    let more = advance(&mut bytes.as_slice(), &state);
    assert!(rt; more.is_err());
}

// Whether the entries after the first ones are verified from the state after these, read back from its text, and give
// the state of the whole log.
fn continues_at(rt: &impl Abort, alloc: Global, log: &Log, cut: usize, whole: &[u8]) -> bool {
    let text = state_text(alloc, &state_at(rt, alloc, log, cut)).expect(rt, "memory");
    let state = read_bookmark(alloc, &text).expect(rt, "a state").state;
    let tail = piece(rt, alloc, log, cut, 33);
    let end = check_from(&mut tail.as_slice(), &state, &log.commitment).expect(rt, "a state");
    let next = verify_from(alloc, &mut tail.as_slice(), &state, &log.commitment).expect(
        rt,
        "verified events",
    );
    let pass = collect(alloc, &mut tail.as_slice(), &state).expect(rt, "events");
    let left = 33_usize.saturating_sub(cut);
    next.events.len() == left
        && pass.events.len() == left
        && end.commitment() == log.commitment
        && state_text(alloc, &end).expect(rt, "memory").as_slice() == whole
        && state_text(alloc, &next.state)
            .expect(rt, "memory")
            .as_slice()
            == whole
}

#[test]
fn a_log_in_every_two_pieces(rt: HostRuntime) {
    let log = counted_log(&rt, rt.alloc(), 33);
    let whole = state_text(rt.alloc(), &state_at(&rt, rt.alloc(), &log, 33)).expect(&rt, "memory");
    for cut in 0..=33 {
        assert!(rt;
            continues_at(&rt, rt.alloc(), &log, cut, &whole),
            "after {cut} entries"
        );
    }
}

// The number of the cause and the index of the fault of the whole bytes, and of the bytes after a state.
fn faults_agree(alloc: Global, log: &Log, whole: &[u8], state: &State, tail: &[u8]) -> bool {
    let mut all = whole;
    let mut rest = tail;
    match (
        verify(alloc, &mut all, &counting_key(), &log.commitment),
        check_from(&mut rest, state, &log.commitment),
    ) {
        (Err(fault), Err(other)) => fault == other,
        _ => false,
    }
}

// Each 61st byte of the tail is changed, one at a time.
fn faults_agree_at(rt: &impl Abort, alloc: Global, cut: usize) -> bool {
    let log = counted_log(rt, alloc, 33);
    let state = state_at(rt, alloc, &log, cut);
    let front = piece(rt, alloc, &log, 0, cut);
    let mut tail = piece(rt, alloc, &log, cut, 33);
    let mut agree = true;
    for place in (0..tail.len()).step_by(61) {
        turn(&mut tail, place, 1);
        let mut whole = Vec::new(alloc);
        add_bytes(rt, &mut whole, &front);
        add_bytes(rt, &mut whole, &tail);
        agree = agree && faults_agree(alloc, &log, &whole, &state, &tail);
        turn(&mut tail, place, 1);
    }
    agree
}

#[test]
fn a_fault_after_a_cut_is_that_of_the_whole(rt: HostRuntime) {
    for cut in [1, 16] {
        assert!(rt;
            faults_agree_at(&rt, rt.alloc(), cut),
            "after {cut} entries"
        );
    }
}

fn is_damaged(alloc: Global, text: &[u8]) -> bool {
    match read_bookmark(alloc, text) {
        Err(StateError::Damaged) => true,
        _ => false,
    }
}

// A text with one byte changed, cut off, or with a byte after it, is that of no bookmark.
fn each_change_damages(rt: &impl Abort, alloc: Global, text: &mut Vec<u8>) {
    for place in 0..text.len() {
        for mask in [0x01, 0x20, 0x80] {
            turn(text, place, mask);
            assert!(rt; is_damaged(alloc, text), "byte {place}");
            turn(text, place, mask);
        }
        assert!(rt;
            is_damaged(alloc, &text[..place]),
            "the first {place} bytes"
        );
    }
    assert!(rt; !is_damaged(alloc, text));
    text.push(b'\n').expect(rt, "memory");
    assert!(rt; is_damaged(alloc, text));
}

#[test]
fn a_damaged_bookmark(rt: HostRuntime) {
    let log = counted_log(&rt, rt.alloc(), 33);
    let own = state_at(&rt, rt.alloc(), &log, 33);
    let mut text = state_text(rt.alloc(), &own).expect(&rt, "memory");
    each_change_damages(&rt, rt.alloc(), &mut text);
    let early = state_at(&rt, rt.alloc(), &log, 5);
    let mut text = bookmark_text(rt.alloc(), &early, Some(log.commitment)).expect(&rt, "memory");
    let mark = read_bookmark(rt.alloc(), &text).expect(&rt, "a bookmark");
    assert!(rt; mark.newest == Some(log.commitment));
    each_change_damages(&rt, rt.alloc(), &mut text);
}
