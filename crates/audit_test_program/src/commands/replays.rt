// The expected output was computed by an independent model, which shares no code with the program.
use audit_cli_base::Status;
use audit_cli_store::{Request, run};
use std::alloc::Global;
use std::io::{self, ErrorKind, Read, Write};
use std::process::Abort;
use std::str;

// A key line of zeros.
const KEY_LINE: &str = "key 0000000000000000000000000000000000000000000000000000000000000000\n";

const ENTRIES: &str = "\
entry 0 0000000100000002b8879f1e0e12b5bff2e04073ae77cd7220863b2a5d3c10c71940136430292b3a\
08eea5a823836da22bd11e8e5f9c6e0141ef0a27786dfce7f9366ab4d990cf7c071d\n\
entry 1 000000070000000020a9b1a0481bc38a4d1e724fe1b9ca85332df9534e1aa7f5d3f459a7c570fdce\
03063d909ba97cf23efe6becf67cf968c0a1db480ddaa99ebc6fc7d7c12d3d40\n\
entry 2 fffffffe0000000450afde35a5fa3cc83010f13ba809a19a4534f9c42009dad9607c26f55ec6b1a8\
a792894c6abbc6d8301dc7f7287235c63379727fcbcb2ee8f87167d81343a371cbf483da\n\
commit 3 14f62f94f894a0899217375286c3fc9aff843acaf2f9244791534711b20d0109\n";

// What the program did: standard output, standard error and status.
#[derive(Drop)]
struct Outcome {
    output: Vec<u8>,
    messages: Vec<u8>,
    status: Status,
}

fn outcome_of<R: Read>(rt: &HostRuntime, input: &mut R) -> Outcome {
    let alloc = rt.alloc();
    let mut output = Vec::new(alloc);
    let mut messages = Vec::new(alloc);
    let status = run(
        rt,
        alloc,
        Request::Replay,
        input,
        &mut output,
        &mut messages,
    );
    Outcome {
        output,
        messages,
        status,
    }
}

// Whether this is all that the program did.
fn did(found: &Outcome, output: &[u8], messages: &[u8], status: Status) -> bool {
    found.output.as_slice() == output
        && found.messages.as_slice() == messages
        && found.status == status
}

// Whether an input is refused with this message.
fn refuses(rt: &HostRuntime, input: &[u8], message: &str) -> bool {
    let mut input = input;
    let found = outcome_of(rt, &mut input);
    did(&found, b"", message.as_bytes(), Status::Refused)
}

// Whether the program prints the entries of the three events, even if its input arrives byte by byte.
fn prints_entries(rt: &HostRuntime, text: &[u8]) -> bool {
    let mut whole = text;
    let found = outcome_of(rt, &mut whole);
    let again = outcome_of(rt, &mut ByteByByte(text));
    did(&found, ENTRIES.as_bytes(), b"", Status::Done)
        && again.output.as_slice() == ENTRIES.as_bytes()
}

#[test]
fn a_log_of_three_events(rt: HostRuntime) {
    let lines = "event 1 6869\nevent 7 -\nevent 4294967294 DEadBEef";
    let text = format!(in rt.alloc(); "{KEY_LINE}{lines}").expect(&rt, "memory");
    assert!(rt; prints_entries(&rt, text.as_bytes()));
}

#[test]
fn bad_key_lines(rt: HostRuntime) {
    let message = "audit: line 1: bad key line\n";
    for input in [
        b"".as_slice(),
        b"\n".as_slice(),
        b"key".as_slice(),
        b"key ".as_slice(),
        b"key 000000000000000000000000000000000000000000000000000000000000000".as_slice(),
        b"key 00000000000000000000000000000000000000000000000000000000000000000".as_slice(),
        b"key 000000000000000000000000000000000000000000000000000000000000000000".as_slice(),
        b"key  0000000000000000000000000000000000000000000000000000000000000000".as_slice(),
        b"Key 0000000000000000000000000000000000000000000000000000000000000000".as_slice(),
        b"key 000000000000000000000000000000000000000000000000000000000000000g".as_slice(),
        b"key 0000000000000000000000000000000000000000000000000000000000000000 ".as_slice(),
        b"key 0000000000000000000000000000000000000000000000000000000000000000\r\n".as_slice(),
        b"event 1 -\n".as_slice(),
        b"\xff".as_slice(),
    ] {
        assert!(rt; refuses(&rt, input, message));
    }
}

#[test]
fn bad_lines_of_events(rt: HostRuntime) {
    let message = "audit: line 2: bad event line\n";
    for line in [
        b"".as_slice(),
        b"event".as_slice(),
        b"event ".as_slice(),
        b"event 1".as_slice(),
        b"event 1 ".as_slice(),
        b"event  -".as_slice(),
        b"event 1  -".as_slice(),
        b"event 1 - ".as_slice(),
        b" event 1 -".as_slice(),
        b"event 1 -\r".as_slice(),
        b"event 1 -\0".as_slice(),
        b"event x -".as_slice(),
        b"event -1 -".as_slice(),
        b"event +1 -".as_slice(),
        b"event 00000000001 -".as_slice(),
        b"event 4294967296 -".as_slice(),
        b"event 9999999999 -".as_slice(),
        b"event 99999999999999999999 -".as_slice(),
        b"event 1 6".as_slice(),
        b"event 1 zz".as_slice(),
        b"event 1 6z".as_slice(),
        b"event 1 --".as_slice(),
        b"event 1 -0".as_slice(),
        b"Event 1 -".as_slice(),
        b"key 1 -".as_slice(),
        b"event 4294967295 zz".as_slice(),
        b"\xff\xfe".as_slice(),
        b"event 1 \xff\xff".as_slice(),
    ] {
        assert!(rt; refuses_line(&rt, &rt, line, message));
    }
}

fn refuses_line(rt: &HostRuntime, judge: &impl Abort, line: &[u8], message: &str) -> bool {
    let input = input_of(judge, rt.alloc(), line);
    refuses(rt, &input, message)
}

// The key line, and a line after it.
fn input_of(rt: &impl Abort, alloc: Global, line: &[u8]) -> Vec<u8> {
    let mut input = Vec::from_slice(alloc, KEY_LINE.as_bytes()).expect(rt, "memory");
    input.extend_from_slice(line).expect(rt, "memory");
    input.push(b'\n').expect(rt, "memory");
    input
}

// A line of an event of this kind, with a payload of `digits` zero digits, followed by `rest`.
fn line_of(rt: &impl Abort, alloc: Global, kind: &str, digits: usize, rest: &str) -> String {
    let zeros = vec![in alloc; b'0'; digits].expect(rt, "memory");
    let zeros = str::from_utf8(&zeros).expect(rt, "digits");
    format!(in alloc; "event {kind} {zeros}{rest}").expect(rt, "memory")
}

// The kind, the digits and the text after them, and the expected message.
const FAULTS: [(&str, usize, &str, &str); 7] = [
    ("4294967295", 0, "-", "audit: line 2: reserved kind\n"),
    ("4294967295", 65_394, "", "audit: line 2: reserved kind\n"),
    ("4294967295", 65_395, "", "audit: line 2: bad event line\n"),
    ("1", 65_394, "", "audit: line 2: payload too long\n"),
    ("1", 65_394, "g", "audit: line 2: bad event line\n"),
    (
        "1",
        65_392,
        "\nevent 2 zz",
        "audit: line 3: bad event line\n",
    ),
    (
        "1",
        0,
        "zz\nevent 4294967295 -",
        "audit: line 2: bad event line\n",
    ),
];

// A bad line takes precedence over the reserved kind, which takes precedence over a payload that is too long.
#[test]
fn faults_of_a_line_in_their_order(rt: HostRuntime) {
    for (kind, digits, rest, message) in FAULTS {
        let line = line_of(&rt, rt.alloc(), kind, digits, rest);
        expect_refused(&rt, &rt, line.as_bytes(), message);
    }
}

fn expect_refused(rt: &HostRuntime, judge: &impl Abort, line: &[u8], message: &str) {
    assert!(judge; refuses_line(rt, judge, line, message), "{message}");
}

#[test]
fn an_input_of_the_limit_and_one_byte_more(rt: HostRuntime) {
    for (len, message) in [
        (16_777_216, "audit: line 1: bad key line\n"),
        (16_777_217, "audit: input too long\n"),
        (20_000_000, "audit: input too long\n"),
    ] {
        let found = outcome_of(&rt, &mut Zeros(len));
        assert!(rt; did(&found, b"", message.as_bytes(), Status::Refused));
    }
}

// 256 events of zeros with the longest payloads, and one that fills the input up to its limit.
fn longest_input(rt: &impl Abort, alloc: Global) -> Vec<u8> {
    let mut input = Vec::from_slice(alloc, KEY_LINE.as_bytes()).expect(rt, "memory");
    for _ in 0..256 {
        push_event(rt, alloc, &mut input, 65_392);
    }
    push_event(rt, alloc, &mut input, 34_482);
    input
}

#[test]
fn a_log_of_the_longest_input(rt: HostRuntime) {
    let input = longest_input(&rt, rt.alloc());
    assert!(rt; input.len() == 16_777_216);
    let found = outcome_of(&rt, &mut input.as_slice());
    assert!(rt; found.status == Status::Done);
    assert!(rt; found.output.ends_with(LAST_COMMIT));
}

const LAST_COMMIT: &[u8] =
    b"\ncommit 257 d8cd69f7c899bfe6ba6f211167b9d893209c8daedc41e0cdfcbc85e2ddf93097\n";

// Appends a line of an event of kind 1 whose payload is zeros, written with `digits` digits.
fn push_event(rt: &impl Abort, alloc: Global, input: &mut Vec<u8>, digits: usize) {
    let zeros = vec![in alloc; b'0'; digits].expect(rt, "memory");
    input.extend_from_slice(b"event 1 ").expect(rt, "memory");
    input.extend_from_slice(&zeros).expect(rt, "memory");
    input.push(b'\n').expect(rt, "memory");
}

// A key line and one event.
const SHORT_INPUT: &[u8] =
    b"key 0000000000000000000000000000000000000000000000000000000000000000\nevent 1 6869\n";

const FILE_FAULT: &[u8] = b"audit: file fault\n";

#[test]
fn a_reader_that_fails(rt: HostRuntime) {
    for good_reads in 0..3 {
        let mut input = FailingReader {
            bytes: SHORT_INPUT,
            good_reads,
        };
        let found = outcome_of(&rt, &mut input);
        assert!(rt; did(&found, b"", FILE_FAULT, Status::Device));
    }
}

// The first line of the output has 157 bytes, and both lines 231.
#[test]
fn a_writer_that_fails(rt: HostRuntime) {
    for room in [0, 1, 100, 156, 157, 158, 230] {
        assert!(rt; ends_over(&rt, room, true, Status::Device, FILE_FAULT));
    }
    assert!(rt; ends_over(&rt, 231, true, Status::Done, b""));
    assert!(rt; ends_over(&rt, 231, false, Status::Device, FILE_FAULT));
}

// Whether a run with an output of this capacity ends with this status and prints this report.
fn ends_over(rt: &HostRuntime, room: usize, flushes: bool, status: Status, report: &[u8]) -> bool {
    let mut input = SHORT_INPUT;
    let mut output = FailingWriter { room, flushes };
    let mut messages = Vec::new(rt.alloc());
    let found = run(
        rt,
        rt.alloc(),
        Request::Replay,
        &mut input,
        &mut output,
        &mut messages,
    );
    found == status && messages.as_slice() == report
}

const CODES: [(Status, u8); 5] = [
    (Status::Done, 0),
    (Status::Refused, 1),
    (Status::Usage, 2),
    (Status::Device, 3),
    (Status::Memory, 4),
];

#[test]
fn codes_of_each_status(rt: HostRuntime) {
    for (status, code) in CODES {
        assert!(rt; status.code() == code);
    }
}

// A reader that returns one byte for each read.
#[derive(Drop)]
struct ByteByByte<'a>(&'a [u8]);

impl Read for ByteByByte<'_> {
    fn read(&mut self, buf: &mut [u8]) -> io::Result<usize> {
        let most = buf.len().min(1);
        self.0.read(&mut buf[..most])
    }
}

// A reader of this many zero bytes.
#[derive(Drop)]
struct Zeros(usize);

impl Read for Zeros {
    fn read(&mut self, buf: &mut [u8]) -> io::Result<usize> {
        let given = buf.len().min(self.0);
        self.0 -= given;
        Ok(given)
    }
}

// A reader that returns a few bytes for each read, and fails after some reads.
#[derive(Drop)]
struct FailingReader<'a> {
    bytes: &'a [u8],
    good_reads: usize,
}

impl Read for FailingReader<'_> {
    fn read(&mut self, buf: &mut [u8]) -> io::Result<usize> {
        if self.good_reads == 0 {
            return Err(io::Error::from(ErrorKind::Other));
        }
        self.good_reads -= 1;
        let most = buf.len().min(10);
        self.bytes.read(&mut buf[..most])
    }
}

// A writer that accepts `room` bytes and then fails. It may also fail to flush.
#[derive(Drop)]
struct FailingWriter {
    room: usize,
    flushes: bool,
}

impl Write for FailingWriter {
    fn write(&mut self, buf: &[u8]) -> io::Result<usize> {
        if self.room == 0 {
            return Err(io::Error::from(ErrorKind::Other));
        }
        let taken = buf.len().min(self.room);
        self.room -= taken;
        Ok(taken)
    }

    fn flush(&mut self) -> io::Result<()> {
        if self.flushes {
            Ok(())
        } else {
            Err(io::Error::from(ErrorKind::Other))
        }
    }
}
