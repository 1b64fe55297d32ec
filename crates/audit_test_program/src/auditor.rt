// The expected values come from an independent model.
use audit_chain::Key;
use audit_cli_offline::{
    OfflineError, Printing, ReportForm, VerifiedEnd, commitment_in_word, verify_export,
    verify_in_two_passes, write_end_message,
};
use audit_proof::Commitment;
use audit_verify::{Cause, State, VerifyFault};
use hex::FromHex;
use std::alloc::Global;
use std::process::Abort;

// The entry of the first event of a log: kind 1, payload `hi`, under a key of zeros.
const ENTRY_OF_HI: &str =
    "0000000100000002b8879f1e0e12b5bff2e04073ae77cd7220863b2a5d3c10c71940136430292b3a\
08eea5a823836da22bd11e8e5f9c6e0141ef0a27786dfce7f9366ab4d990cf7c071d";

const COMMIT_OF_HI: &[u8] = b"1:1adb768b1a8442d111228c6b4ee67325246d75c87ac4a45dce6d4ed7a0cba265";

// The entry that closes the log after it, and the commitment to both.
const CLOSING_ENTRY: &str =
    "ffffffff00000000f415c30b12ce8c2676b5dd4bf086d49db37bfbcfb9fe946299ff1ddd1717c6e4\
fc29a60fa46ec7279abb46062f6f789ec8c43a95c1f16da482d87163a0ca2fbc";

const COMMIT_OF_CLOSED: &[u8] =
    b"2:213da655fe94c535b2f1c1e6d1ac4492ae788296d88cf9823654f7a2b6ae7b7c";

#[test]
fn words_of_commitments(rt: HostRuntime) {
    let root = <[u8; 32] as FromHex>::from_hex(
        "1adb768b1a8442d111228c6b4ee67325246d75c87ac4a45dce6d4ed7a0cba265",
    ).expect(&rt, "digits");
    assert!(rt; commitment_in_word(COMMIT_OF_HI) == Some(Commitment { count: 1, root }));
    let others: [&[u8]; 4] = [b"", b"1", b":", b"1:1adb"];
    for word in others {
        assert!(rt; commitment_in_word(word).is_none());
    }
}

fn commitment_of(rt: &impl Abort, word: &[u8]) -> Commitment {
    commitment_in_word(word).expect(rt, "a commitment")
}

// The state before the first entry of the log with a key of zeros.
fn start() -> State {
    State::first(&Key::from_bytes([0; 32]))
}

// Every event in a form.
fn every_event(alloc: Global, form: ReportForm) -> Printing {
    Printing::new(form, Vec::new(alloc), 0)
}

fn entry_of_hi(rt: &impl Abort, alloc: Global) -> Vec<u8> {
    hex::decode(alloc, ENTRY_OF_HI).expect(rt, "digits")
}

// The lines of an export that is verified.
fn verified_lines(
    rt: &impl Abort,
    alloc: Global,
    bytes: &[u8],
    commitment: &Commitment,
) -> Vec<u8> {
    let mut reader = bytes;
    let mut written = Vec::new(alloc);
    verify_export(
        alloc,
        &mut reader,
        &start(),
        commitment,
        &every_event(alloc, ReportForm::Events),
        &mut written,
    )
    .expect(rt, "a report");
    written
}

#[test]
fn an_export_of_one_event(rt: HostRuntime) {
    let alloc = rt.alloc();
    let commitment = commitment_of(&rt, COMMIT_OF_HI);
    let entry = entry_of_hi(&rt, alloc);
    let mut written = verified_lines(&rt, alloc, &entry, &commitment);
    assert!(rt; written.as_slice() == b"event 0 1 6869\nverified 1 open\n".as_slice());
    let cut = verify_export(
        alloc,
        &mut &entry[..0],
        &start(),
        &commitment,
        &every_event(alloc, ReportForm::Events),
        &mut written,
    );
    assert!(rt; cut.is_err() && written.len() == 31);
}

// The lines of the closed log.
const CLOSED_LINES: &[u8] = b"event 0 1 6869\nevent 1 4294967295 -\nverified 2 closed\n";

#[test]
fn an_export_of_a_closed_log(rt: HostRuntime) {
    let alloc = rt.alloc();
    let commitment = commitment_of(&rt, COMMIT_OF_CLOSED);
    let bytes = closed_export(&rt, alloc);
    let written = verified_lines(&rt, alloc, &bytes, &commitment);
    assert!(rt; written.as_slice() == CLOSED_LINES);
}

// The export of the closed log.
fn closed_export(rt: &impl Abort, alloc: Global) -> Vec<u8> {
    let mut bytes = entry_of_hi(rt, alloc);
    let closing = hex::decode(alloc, CLOSING_ENTRY).expect(rt, "digits");
    bytes.extend_from_slice(&closing).expect(rt, "memory");
    bytes
}

// How a verification ended.
fn end_of(done: Result<State, OfflineError>) -> Result<VerifiedEnd, OfflineError> {
    let state = done?;
    Ok(VerifiedEnd {
        count: state.count(),
        closed: state.is_closed(),
    })
}

// The outcome of two passes, over these bytes and then those, under the closed log's commitment; and what they wrote.
fn outcome_of<'a>(
    alloc: Global,
    mut first: &'a [u8],
    mut second: &'a [u8],
    commitment: &Commitment,
    form: ReportForm,
) -> (Result<VerifiedEnd, OfflineError>, Vec<u8>) {
    let mut written = Vec::new(alloc);
    let done = verify_in_two_passes(
        alloc,
        &mut first,
        &mut second,
        &start(),
        commitment,
        &every_event(alloc, form),
        &mut written,
    );
    (end_of(done), written)
}

// Whether bytes get the same verdict in two passes as in one, with the same lines.
fn is_one_verdict(alloc: Global, bytes: &[u8], commitment: &Commitment, form: ReportForm) -> bool {
    let mut held = Vec::new(alloc);
    let printing = every_event(alloc, form);
    let mut reader = bytes;
    let once = verify_export(
        alloc,
        &mut reader,
        &start(),
        commitment,
        &printing,
        &mut held,
    );
    let once = end_of(once);
    let (twice, written) = outcome_of(alloc, bytes, bytes, commitment, form);
    once == twice && held.as_slice() == written.as_slice()
}

// The bytes with the lowest bit of the one at a place turned.
fn turned(rt: &impl Abort, alloc: Global, bytes: &[u8], place: usize) -> Vec<u8> {
    let mut turned = Vec::from_slice(alloc, bytes).expect(rt, "memory");
    if let Some(byte) = turned.get_mut(place) {
        *byte ^= 1;
    }
    turned
}

fn assert_one_verdict_if_turned(
    rt: &impl Abort,
    alloc: Global,
    bytes: &[u8],
    commitment: &Commitment,
    place: usize,
) {
    let turned = turned(rt, alloc, bytes, place);
    assert!(rt;
        is_one_verdict(alloc, &turned, commitment, ReportForm::Text),
        "turned at {place}"
    );
}

fn assert_one_verdicts(rt: &impl Abort, alloc: Global, bytes: &[u8], commitment: &Commitment) {
    for place in 0..bytes.len() {
        assert!(rt;
            is_one_verdict(alloc, &bytes[..place], commitment, ReportForm::Events),
            "cut at {place}"
        );
        assert_one_verdict_if_turned(rt, alloc, bytes, commitment, place);
    }
}

// Whether bytes are verified in two passes, with these lines.
fn writes(alloc: Global, bytes: &[u8], commitment: &Commitment, lines: &[u8]) -> bool {
    let (done, written) = outcome_of(alloc, bytes, bytes, commitment, ReportForm::Events);
    done.is_ok() && written.as_slice() == lines
}

#[test]
fn exports_in_two_passes(rt: HostRuntime) {
    let alloc = rt.alloc();
    let commitment = commitment_of(&rt, COMMIT_OF_CLOSED);
    let bytes = closed_export(&rt, alloc);
    assert!(rt; writes(alloc, &bytes, &commitment, CLOSED_LINES));
    assert_one_verdicts(&rt, alloc, &bytes, &commitment);
}

// The fault of two passes, if there is one.
fn fault_of(done: &Result<VerifiedEnd, OfflineError>) -> Option<VerifyFault> {
    match done {
        Err(OfflineError::Export(fault)) => Some(*fault),
        _ => None,
    }
}

// Whether two passes, over these bytes and then those, find this fault of the second entry, after these lines.
fn have_fault(
    alloc: Global,
    first: &[u8],
    second: &[u8],
    commitment: &Commitment,
    cause: Cause,
    lines: &[u8],
) -> bool {
    let (done, written) = outcome_of(alloc, first, second, commitment, ReportForm::Events);
    fault_of(&done) == Some(VerifyFault { index: 1, cause }) && written.as_slice() == lines
}

#[test]
fn an_export_that_changes_between_the_passes(rt: HostRuntime) {
    let alloc = rt.alloc();
    let commitment = commitment_of(&rt, COMMIT_OF_CLOSED);
    let bytes = closed_export(&rt, alloc);
    let entry = entry_of_hi(&rt, alloc);
    let turned = turned(&rt, alloc, &bytes, bytes.len().saturating_sub(1));
    let line = b"event 0 1 6869\n".as_slice();
    assert!(rt;
        have_fault(
            alloc,
            &bytes,
            &entry,
            &commitment,
            Cause::WrongCommitment,
            line
        )
    );
    assert!(rt; have_fault(alloc, &bytes, &turned, &commitment, Cause::BadMac, line));
    assert!(rt; have_fault(alloc, &turned, &bytes, &commitment, Cause::BadMac, b""));
}

// The end of a report in text: the same lines in one pass and in two.
fn expect_text(
    rt: &impl Abort,
    alloc: Global,
    bytes: &[u8],
    commitment: &Commitment,
) -> VerifiedEnd {
    assert!(rt; is_one_verdict(alloc, bytes, commitment, ReportForm::Text));
    let (done, written) = outcome_of(alloc, bytes, bytes, commitment, ReportForm::Text);
    assert!(rt; written.as_slice() == b"hi\n\n".as_slice());
    done.expect(rt, "an end")
}

// The payloads as lines of text, in one pass and in two, and then the message.
#[test]
fn a_report_in_text(rt: HostRuntime) {
    let alloc = rt.alloc();
    let commitment = commitment_of(&rt, COMMIT_OF_CLOSED);
    let bytes = closed_export(&rt, alloc);
    let end = expect_text(&rt, alloc, &bytes, &commitment);
    assert!(rt; end.count == 2 && end.closed);
    let mut message = Vec::new(alloc);
    write_end_message(alloc, ReportForm::Events, end, &mut message).expect(&rt, "a message");
    assert!(rt; message.is_empty());
    write_end_message(alloc, ReportForm::Text, end, &mut message).expect(&rt, "a message");
    assert!(rt; message.as_slice() == b"audit: verified 2 closed\n".as_slice());
}
