// What a session with certain rights answers, by hand from the formats: everything up to the first request that isn't
// allowed, which gets the refusal 16 with its own tag; nothing after it is read.
use audit_chain::Key;
use audit_disk::MemDisk;
use audit_serve_passes::{Allowance, BoundKinds, Rights, SessionCore, Share};
use audit_server::Core;
use audit_store::Store;
use std::alloc::Global;
use std::process::Abort;

// A stream, whether it ends, and the replies that are expected to it, with whether the session has ended and was cut
// off.
#[derive(Clone, Copy)]
struct Case<'a> {
    sent: &'a [u8],
    ends: bool,
    replies: &'a [Said],
    ended: bool,
    cut_off: bool,
}

// The kind of a reply, its tag, and the code of a refusal.
#[derive(Clone, Copy, Debug, PartialEq, Eq)]
struct Said {
    kind: u8,
    tag: u8,
    code: u8,
}

// The replies to the requests in the streams below, and the refusal of what is no request.
const APPENDED: Said = Said {
    kind: 0x81,
    tag: 1,
    code: 0,
};

const CLOSED: Said = Said {
    kind: 0x81,
    tag: 5,
    code: 0,
};

const ANSWERED: Said = Said {
    kind: 0x82,
    tag: 9,
    code: 0,
};

const NO_APPEND: Said = Said {
    kind: 0xff,
    tag: 1,
    code: 16,
};

const NO_CLOSE: Said = Said {
    kind: 0xff,
    tag: 5,
    code: 16,
};

const MALFORMED: [Said; 1] = [Said {
    kind: 0xff,
    tag: 0,
    code: 20,
}];

// Starts session 0 anew with these rights.
pub(crate) fn begin<C: SessionCore>(core: &mut C, rights: Rights) -> bool
where
    C::Error: Drop,
{
    if core.end(0).is_err() || core.flush().is_err() {
        return false;
    }
    let _ = core.take_output(0);
    core.ended(0) && core.reopen(0, rights).is_ok()
}

// A store of 64 sectors without events.
fn new_store(rt: &impl Abort, alloc: Global) -> Store<MemDisk> {
    let disk = MemDisk::new(alloc, 64).expect(rt, "a device");
    match Store::format(alloc, disk, Key::from_bytes([0; 32])) {
        Ok(store) => store,
        Err(failed) => panic!(rt; "a store: {}", failed.error),
    }
}

// A core over such a store, as it is made.
pub(crate) fn new_core(rt: &impl Abort, alloc: Global) -> Core<MemDisk> {
    match Core::new(alloc, new_store(rt, alloc)) {
        Ok(core) => core,
        Err(_) => panic!(rt; "memory"),
    }
}

// The same that counts the events of these kinds.
pub(crate) fn counting_core(rt: &impl Abort, alloc: Global, kinds: &[u32]) -> Core<MemDisk> {
    match Core::counting(alloc, new_store(rt, alloc), 0, kinds) {
        Ok(core) => core,
        Err(_) => panic!(rt; "memory"),
    }
}

// A new core with a daemon's client of these rights in session 0.
pub(crate) fn core_with(rt: &impl Abort, alloc: Global, rights: Rights) -> Core<MemDisk> {
    let mut core = new_core(rt, alloc);
    assert!(rt; begin(&mut core, rights));
    core
}

// How a stream is fed.
#[derive(Clone, Copy, PartialEq, Eq)]
enum Feeding {
    // Without a limit.
    Freely,
    // Each piece under an allowance of one reply.
    OneByOne,
}

// Feeds a piece, whatever it takes.
fn feed(rt: &impl Abort, core: &mut Core<MemDisk>, piece: &[u8], how: Feeding) {
    if how == Feeding::Freely {
        assert!(rt; core.feed(0, piece).is_ok());
        return;
    }
    let mut rest = piece;
    for _ in 0..piece.len() {
        rest = feed_one(rt, core, rest);
    }
    assert!(rt; rest.is_empty());
}

// Feeds a piece up to the second request in it, and returns the rest.
fn feed_one<'a>(rt: &impl Abort, core: &mut Core<MemDisk>, piece: &'a [u8]) -> &'a [u8] {
    let one = Share {
        left: 0,
        is_whole: true,
    };
    let mut allowance = Allowance {
        session: one,
        questions: one,
    };
    match core.feed_within(0, piece, &mut allowance) {
        Ok(count) => piece.get(count..).unwrap_or(&[]),
        Err(_) => panic!(rt; "a piece was refused"),
    }
}

// Whether the output is these replies.
fn says(output: &[u8], replies: &[Said]) -> bool {
    let mut rest = output;
    for reply in replies {
        let [high, low, kind, _, _, _, tag, following @ ..] = rest else {
            return false;
        };
        let code = if *kind == 0xff {
            following.first().copied().unwrap_or(0)
        } else {
            0
        };
        let said = Said {
            kind: *kind,
            tag: *tag,
            code,
        };
        let size = usize::from(u16::from_be_bytes([*high, *low])) + 2;
        if said != *reply || size > rest.len() {
            return false;
        }
        rest = &rest[size..];
    }
    rest.is_empty()
}

// Whether a case holds, if its stream comes in pieces of at most `most` bytes.
fn holds(
    rt: &impl Abort,
    alloc: Global,
    rights: Rights,
    case: &Case,
    most: usize,
    how: Feeding,
) -> bool {
    let mut core = core_with(rt, alloc, rights);
    for piece in case.sent.chunks(most.max(1)) {
        feed(rt, &mut core, piece, how);
    }
    if case.ends {
        assert!(rt; core.end(0).is_ok());
    }
    let ended = core.ended(0);
    let cut_off = core.is_cut_off(0);
    assert!(rt; core.flush().is_ok());
    let output = core.take_output(0);
    ended == case.ended && cut_off == case.cut_off && says(&output, case.replies)
}

fn all_hold(rt: &impl Abort, alloc: Global, rights: Rights, cases: &[Case]) -> bool {
    for case in cases {
        for most in 1..20 {
            if !holds(rt, alloc, rights, case, most, Feeding::Freely)
                || !holds(rt, alloc, rights, case, most, Feeding::OneByOne)
            {
                return false;
            }
        }
    }
    true
}

// A case of a stream that doesn't end, all of which is answered.
fn live<'a>(sent: &'a [u8], replies: &'a [Said]) -> Case<'a> {
    Case {
        sent,
        ends: false,
        replies,
        ended: false,
        cut_off: false,
    }
}

// A case of a stream that doesn't end, of which one request isn't allowed.
fn cut_off<'a>(sent: &'a [u8], replies: &'a [Said]) -> Case<'a> {
    Case {
        sent,
        ends: false,
        replies,
        ended: true,
        cut_off: true,
    }
}

// A case of a stream that is malformed, and may end in the middle of a frame.
fn malformed(sent: &[u8], ends: bool) -> Case<'_> {
    Case {
        sent,
        ends,
        replies: &MALFORMED,
        ended: true,
        cut_off: false,
    }
}

// A commitment with tag 9, an append of `h` under kind 7 with tag 1, a close with tag 5.
const COMMITMENT_APPEND: [u8; 26] = [
    0, 5, 2, 0, 0, 0, 9, 0, 10, 1, 0, 0, 0, 1, 0, 0, 0, 7, b'h', 0, 5, 2, 0, 0, 0, 9,
];

const APPEND_CLOSE: [u8; 26] = [
    0, 10, 1, 0, 0, 0, 1, 0, 0, 0, 7, b'h', 0, 5, 6, 0, 0, 0, 5, 0, 5, 2, 0, 0, 0, 9,
];

const ASKED: [Said; 2] = [ANSWERED, NO_APPEND];

const APPENDED_FIRST: [Said; 3] = [APPENDED, ANSWERED, ANSWERED];

const APPENDED_ALONE: [Said; 2] = [APPENDED, NO_CLOSE];

const ALL_DONE: [Said; 3] = [APPENDED, CLOSED, ANSWERED];

// Each right allows what it includes. Nothing is read after a request that isn't allowed.
#[test]
fn readers_only_ask(rt: HostRuntime) {
    let cases = [
        cut_off(&COMMITMENT_APPEND, &ASKED),
        cut_off(&APPEND_CLOSE, &ASKED[1..]),
    ];
    assert!(rt; all_hold(&rt, rt.alloc(), Rights::Read, &cases));
}

// Appends are answered before questions, and the refusal is an answer to a question.
#[test]
fn appenders_do_not_close(rt: HostRuntime) {
    let cases = [
        live(&COMMITMENT_APPEND, &APPENDED_FIRST),
        cut_off(&APPEND_CLOSE, &APPENDED_ALONE),
    ];
    assert!(rt; all_hold(&rt, rt.alloc(), Rights::Append(BoundKinds::none()), &cases));
}

#[test]
fn closers_may_do_everything(rt: HostRuntime) {
    let cases = [
        live(&COMMITMENT_APPEND, &APPENDED_FIRST),
        live(&APPEND_CLOSE, &ALL_DONE),
    ];
    assert!(rt; all_hold(&rt, rt.alloc(), Rights::all(), &cases));
}

// These kinds, bound to sources.
pub(crate) fn bound(rt: &impl Abort, kinds: &[u32]) -> BoundKinds {
    let mut bound = BoundKinds::none();
    for kind in kinds {
        bound = bound.with(*kind).expect(rt, "a free place");
    }
    bound
}

// A source appends its own kind, and doesn't close.
#[test]
fn sources_append_their_own(rt: HostRuntime) {
    let own = [
        live(&COMMITMENT_APPEND, &APPENDED_FIRST),
        cut_off(&APPEND_CLOSE, &APPENDED_ALONE),
    ];
    let other = [
        cut_off(&COMMITMENT_APPEND, &ASKED),
        cut_off(&APPEND_CLOSE, &ASKED[1..]),
    ];
    assert!(rt; all_hold(&rt, rt.alloc(), Rights::Source(7), &own));
    assert!(rt; all_hold(&rt, rt.alloc(), Rights::Source(8), &other));
}

// Nobody else appends a kind that is bound, whether they may close or not. Other kinds are free.
#[test]
fn others_append_what_is_free(rt: HostRuntime) {
    let taken = bound(&rt, &[8, 7]);
    let free = bound(&rt, &[0, 1, 2, 3, 4, 5, 6, 8, 9, 10, 11, 12, 13, 14, 15]);
    assert!(rt; free.with(7).is_none());
    let refused = [
        cut_off(&COMMITMENT_APPEND, &ASKED),
        cut_off(&APPEND_CLOSE, &ASKED[1..]),
    ];
    let done = [live(&APPEND_CLOSE, &ALL_DONE)];
    assert!(rt; all_hold(&rt, rt.alloc(), Rights::Append(taken), &refused));
    assert!(rt; all_hold(&rt, rt.alloc(), Rights::Close(taken), &refused));
    assert!(rt; all_hold(&rt, rt.alloc(), Rights::Close(free), &done));
}

const UNKNOWN: [u8; 15] = [0, 0, 0, 2, 99, 1, 0, 0, 0, 5, 2, 0, 0, 0, 9];

const LONG_CLOSE: [u8; 5] = [255, 255, 6, 0, 0];

const SHORT_APPEND: [u8; 7] = [0, 5, 1, 0, 0, 0, 1];

// What is no request is malformed, whatever it would have asked for: an empty frame, a length over the limit, an append
// that is too short.
#[test]
fn frames_that_are_no_requests(rt: HostRuntime) {
    let cases = [
        live(&[], &[]),
        malformed(&UNKNOWN, false),
        malformed(&LONG_CLOSE, false),
        malformed(&SHORT_APPEND, false),
    ];
    assert!(rt; all_hold(&rt, rt.alloc(), Rights::Read, &cases));
}

// A frame is judged when it is whole. One that the end of the stream cuts off is malformed.
#[test]
fn streams_that_end_in_a_frame(rt: HostRuntime) {
    let cases = [
        malformed(&APPEND_CLOSE[..1], true),
        malformed(&APPEND_CLOSE[..2], true),
        malformed(&APPEND_CLOSE[..11], true),
        live(&APPEND_CLOSE[..11], &[]),
    ];
    assert!(rt; all_hold(&rt, rt.alloc(), Rights::Read, &cases));
}
