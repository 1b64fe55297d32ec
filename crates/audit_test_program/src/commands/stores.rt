// The expected output was computed by an independent model, which shares no code with the program.
use audit_chain::Key;
use audit_cli_append::{Appender, Rules};
use audit_cli_base::{CommandError, ProofRequest};
use audit_cli_store::{ShowForm, close_log, format_device, proof_bytes, show};
use audit_disk::{FailOnce, MemDisk};
use audit_store::{Store, StoreError};
use audit_text::{LineError, LineForm, LinesError};
use std::alloc::Global;
use std::process::Abort;

// A store without events on a device of `sectors` sectors, with a first key of zeros.
fn empty_store(rt: &impl Abort, alloc: Global, sectors: u64) -> Store<MemDisk> {
    let key = Key::from_bytes([0; 32]);
    let disk = MemDisk::new(alloc, sectors).expect(rt, "a device");
    match Store::format(alloc, disk, key) {
        Ok(store) => store,
        Err(failed) => panic!(rt; "a store: {:?}", failed.error),
    }
}

// For each row a number of lines, each an event of kind 1, and the number of zero digits in their payloads.
type Rows = [(usize, usize); 3];

fn lines_of(rt: &impl Abort, alloc: Global, rows: Rows) -> Vec<u8> {
    let mut lines = Vec::new(alloc);
    for (count, digits) in rows {
        push_lines(rt, alloc, &mut lines, count, digits);
    }
    lines
}

fn push_lines(rt: &impl Abort, alloc: Global, lines: &mut Vec<u8>, count: usize, digits: usize) {
    let payload = if digits == 0 {
        vec![in alloc; b'-'; 1].expect(rt, "memory")
    } else {
        vec![in alloc; b'0'; digits].expect(rt, "memory")
    };
    for _ in 0..count {
        lines.extend_from_slice(b"event 1 ").expect(rt, "memory");
        lines.extend_from_slice(&payload).expect(rt, "memory");
        lines.push(b'\n').expect(rt, "memory");
    }
}

// The sectors of a device and the lines, and what is printed for them.
const RUNS: [(u64, Rows, &str); 6] = [
    (10, [(0, 0), (0, 0), (0, 0)], ""),
    (
        70,
        [(65, 0), (0, 0), (0, 0)],
        "ack 0 64 a83418fd433e7f04e15aa90e18627e4ef5c2345ea331ea929a36f93bf3b55e06\n\
ack 64 65 276b24f885af75371f2be0febfc0b399b0b354621bd11f303d42960c0a0afc34\n",
    ),
    (
        200,
        [(9, 8048), (0, 0), (0, 0)],
        "ack 0 8 5cc63d12ddd341876232b2bdde1144e83d5dbdf564b3431fdd75a23c14142a27\n\
ack 8 9 c42b338d70585ebd5103532fca6e925fc541f63a83cfe96196c5c65908ee88ae\n",
    ),
    (
        200,
        [(7, 8048), (7, 0), (1, 8048)],
        "ack 0 14 2219d788e047e8dc6a8899797fa472206575196d2886bdd50742c4feb38029e1\n\
ack 14 15 4f31e5941ec6309ab975657a62a2bf85b9ac9d9984fe8249d446067d07e3e718\n",
    ),
    (
        200,
        [(1, 65_392), (1, 0), (1, 65_392)],
        "ack 0 1 e81559087dd12378f4ba472d6a973da2d1f0fc70f4b6c73bba8031a829e7e221\n\
ack 1 2 ad833e0554dabe63ac1de1413ea5fe98b70b0f70859cccf759f69a62df2aeb1f\n\
ack 2 3 dc010a46503a45547bd96cf56749cd4b16149bd3a8b8ce478fddf32113bc5167\n",
    ),
    (
        200,
        [(1, 0), (1, 64_368), (1, 0)],
        "ack 0 2 200a37761515ff00ab32816ea9931730f8aaee1f575526c3b3c3a2bea4ceb9d6\n\
ack 2 3 26ac92625465d3f5576712c88cfacee43ce807767b5e3d341559a8643817d2d3\n",
    ),
];

#[test]
fn lines_are_gathered_into_batches(rt: HostRuntime) {
    for (sectors, rows, printed) in RUNS {
        let lines = lines_of(&rt, rt.alloc(), rows);
        let output = output_of(&rt, rt.alloc(), sectors, &lines);
        assert!(rt; output.as_slice() == printed.as_bytes());
    }
}

// What is printed for lines that are appended to a new store.
fn output_of(rt: &impl Abort, alloc: Global, sectors: u64, lines: &[u8]) -> Vec<u8> {
    let (_, output, fault) = appended(alloc, empty_store(rt, alloc, sectors), lines);
    assert!(rt; fault.is_none());
    output
}

// Appends lines to a store, and returns it with what is printed, and why not all of them were appended.
fn appended(
    alloc: Global,
    store: Store<MemDisk>,
    lines: &[u8],
) -> (Store<MemDisk>, Vec<u8>, Option<CommandError>) {
    let rules = Rules {
        form: LineForm::Spelled,
        reserve: 0,
    };
    let mut appender = Appender::new(alloc, rules, store, Vec::new(alloc));
    let mut input = lines;
    let fault = appender.append_input(&mut input).err();
    let (store, output) = appender.into_parts();
    (store, output, fault)
}

// Whatever was appended before the refusal is printed, and is in the store.
#[test]
fn a_device_that_gets_full(rt: HostRuntime) {
    let lines = lines_of(&rt, rt.alloc(), [(65, 0), (0, 0), (0, 0)]);
    let (store, printed, fault) = appended(rt.alloc(), empty_store(&rt, rt.alloc(), 66), &lines);
    let mut output = printed;
    assert!(rt; fault == Some(CommandError::Refused(StoreError::Full)));
    show(rt.alloc(), &store, ShowForm::State, &mut output).expect(&rt, "a report");
    assert!(rt; output.as_slice() == FULL);
}

const FULL: &[u8] = b"\
ack 0 64 a83418fd433e7f04e15aa90e18627e4ef5c2345ea331ea929a36f93bf3b55e06\n\
commit 64 a83418fd433e7f04e15aa90e18627e4ef5c2345ea331ea929a36f93bf3b55e06\n\
sectors 66 end 66 generation 4 version 2 state open\n";

const CLOSED: &[u8] = b"\
closed 1 2d575e5b39c1814e3d248ecf4d9cde1d3c9577c0c4900494c66ebaca6f5809f2\n\
commit 1 2d575e5b39c1814e3d248ecf4d9cde1d3c9577c0c4900494c66ebaca6f5809f2\n\
sectors 3 end 3 generation 4 version 2 state closed\n\
free 0\n";

// A closed log stays unchanged.
#[test]
fn a_log_of_no_event_is_closed(rt: HostRuntime) {
    let mut store = empty_store(&rt, rt.alloc(), 3);
    let mut output = Vec::new(rt.alloc());
    close_log(rt.alloc(), &mut store, &mut output).expect(&rt, "a closing");
    let fault = close_log(rt.alloc(), &mut store, &mut output).err();
    assert!(rt; fault == Some(CommandError::Refused(StoreError::Closed)));
    show(rt.alloc(), &store, ShowForm::WithFree, &mut output).expect(&rt, "a report");
    assert!(rt; output.as_slice() == CLOSED);
}

// The last line is bad, so nothing is appended.
#[test]
fn all_lines_are_judged_first(rt: HostRuntime) {
    let lines = b"event 1 6869\nevent 1 6\n".as_slice();
    let (store, output, fault) = appended(rt.alloc(), empty_store(&rt, rt.alloc(), 10), lines);
    assert!(rt; fault == Some(CommandError::Lines(BAD_SECOND_LINE)));
    assert!(rt; output.is_empty() && store.commitment().count == 0);
}

const BAD_SECOND_LINE: LinesError = LinesError::Line {
    line: 2,
    cause: LineError::BadEventLine,
};

const THREE: &[u8] = b"event 1 6869\nevent 7 -\nevent 4294967294 DEadBEef";

fn store_of_three(rt: &impl Abort, alloc: Global) -> Store<MemDisk> {
    let (store, _, fault) = appended(alloc, empty_store(rt, alloc, 10), THREE);
    assert!(rt; fault.is_none());
    store
}

// The request, and the proof in hex digits.
const PROOFS: [(ProofRequest, &str); 2] = [
    (
        ProofRequest::Member { index: 1, count: 3 },
        "0100000000000000010000000000000003021adb768b1a8442d111228c6b4ee67325246d75c87ac4a45dce6d4ed7a0cba265\
9b7db49b5cc99cb1b3c6018368ff15082e8b1014c3da2d9a8510af16fcacab26000000070000000020a9b1a0481bc38a4d1e\
724fe1b9ca85332df9534e1aa7f5d3f459a7c570fdce03063d909ba97cf23efe6becf67cf968c0a1db480ddaa99ebc6fc7d7\
c12d3d40",
    ),
    (
        ProofRequest::Increment { older: 1, newer: 3 },
        "0200000000000000010000000000000003031adb768b1a8442d111228c6b4ee67325246d75c87ac4a45dce6d4ed7a0cba265\
9cc88c842d5443515dc61f2315273824a5b4c565884825a40642f9e632449a3f9b7db49b5cc99cb1b3c6018368ff15082e8b\
1014c3da2d9a8510af16fcacab26",
    ),
];

#[test]
fn proofs_of_a_store(rt: HostRuntime) {
    let mut store = store_of_three(&rt, rt.alloc());
    for (asked, digits) in PROOFS {
        let found = proof_digits(&rt, rt.alloc(), &mut store, asked);
        assert!(rt; found.as_str() == digits);
    }
}

fn proof_digits(
    rt: &impl Abort,
    alloc: Global,
    store: &mut Store<MemDisk>,
    asked: ProofRequest,
) -> String {
    let proof = proof_bytes(alloc, store, asked).expect(rt, "a proof");
    hex::encode(alloc, &proof).expect(rt, "memory")
}

const NO_PROOFS: [ProofRequest; 4] = [
    ProofRequest::Member { index: 3, count: 3 },
    ProofRequest::Member { index: 0, count: 4 },
    ProofRequest::Increment { older: 0, newer: 1 },
    ProofRequest::Increment { older: 3, newer: 2 },
];

#[test]
fn no_proof_beyond_the_store(rt: HostRuntime) {
    let mut store = store_of_three(&rt, rt.alloc());
    for asked in NO_PROOFS {
        let refused = proof_bytes(rt.alloc(), &mut store, asked).err();
        assert!(rt; refused == Some(CommandError::Refused(StoreError::NoSuchVersion)));
    }
}

#[test]
fn a_device_is_formatted(rt: HostRuntime) {
    let disk = MemDisk::new(rt.alloc(), 3).expect(&rt, "a device");
    let output = formatted_line(&rt, rt.alloc(), disk);
    assert!(rt; output.as_slice() == b"formatted 3\n".as_slice());
}

// What is printed for a device that is formatted.
fn formatted_line(rt: &impl Abort, alloc: Global, disk: MemDisk) -> Vec<u8> {
    let mut output = Vec::new(alloc);
    match format_device(alloc, disk, Key::from_bytes([0; 32]), &mut output) {
        Ok(formatted) => formatted.line.expect(rt, "a line"),
        Err(failed) => panic!(rt; "a store: {:?}", failed.error),
    }
    output
}

// Each call of the device fails once. Formatting three sectors takes eight calls.
#[test]
fn a_device_that_fails(rt: HostRuntime) {
    for calls in 0..9 {
        assert!(rt; format_fails(&rt, rt.alloc(), calls) == (calls < 8));
    }
}

fn format_fails(rt: &impl Abort, alloc: Global, calls: u64) -> bool {
    let disk = FailOnce::new(MemDisk::new(alloc, 3).expect(rt, "a device"), calls);
    let key = Key::from_bytes([0; 32]);
    match format_device(alloc, disk, key, &mut Vec::new(alloc)) {
        Ok(_) => false,
        Err(failed) => failed.error == StoreError::Device,
    }
}
