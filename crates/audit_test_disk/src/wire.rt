ghost use Rattle.audit_wire.specs.Reply.{IsReply};

use audit_base::MAX_ENTRY;
use audit_wire::*;
use std::alloc::Global;
use std::process::Abort;

mod streams;
mod vectors;

use vectors::*;

/// Frames of one request each, with their requests.
const REQUESTS: [(&[u8], RequestView<'static>); 6] = [
    (
        &APPEND,
        RequestView::Append {
            tag: 7,
            kind: 1,
            payload: b"hi",
        },
    ),
    (&COMMITMENT, RequestView::Commitment { tag: 9 }),
    (&GET_ENTRY, RequestView::Entry { tag: 4, index: 0 }),
    (&CLOSE, RequestView::Close { tag: 3 }),
    (
        &GET_MEMBERSHIP,
        RequestView::Membership {
            tag: 5,
            index: 0,
            count: 1,
        },
    ),
    (
        &GET_INCREMENT,
        RequestView::Incremental {
            tag: 6,
            older: 1,
            newer: 1,
        },
    ),
];

// Whether a decoder takes the whole piece and still waits for the rest of the frame.
fn waits(decoder: &mut Decoder, piece: &[u8]) -> bool {
    decoder.feed(piece) == Fed::More && decoder.pending()
}

// Whether a decoder takes the whole piece, which completes the frame of this request.
fn gives(decoder: &mut Decoder, piece: &[u8], request: &RequestView) -> bool {
    let taken = piece.len();
    decoder.feed(piece) == Fed::Body { taken } && read_request(decoder.body()) == Ok(*request)
}

fn check_cuts(rt: &impl Abort, decoder: &mut Decoder, frame: &[u8], request: &RequestView) {
    for cut in 1..frame.len() {
        let (front, back) = frame.split_at(cut);
        check!(rt; waits(decoder, front) && gives(decoder, back, request), cut);
    }
}

fn check_bytes(rt: &impl Abort, decoder: &mut Decoder, frame: &[u8], request: &RequestView) {
    let mut bodies = 0u8;
    for byte in frame {
        if decoder.feed(&[*byte]) != Fed::More {
            check!(rt; read_request(decoder.body()) == Ok(*request));
            bodies = bodies.saturating_add(1);
        }
    }
    check!(rt; bodies == 1 && !decoder.pending());
}

fn check_request(rt: &impl Abort, decoder: &mut Decoder, frame: &[u8], request: &RequestView) {
    check!(rt; gives(decoder, frame, request));
    check_cuts(rt, decoder, frame, request);
    check_bytes(rt, decoder, frame, request);
}

#[test]
fn requests_are_read_whole_cut_anywhere_and_byte_by_byte(rt: HostRuntime) {
    for (frame, request) in &REQUESTS {
        check_request(
            &rt,
            &mut Decoder::new(rt.alloc()).expect(&rt, "memory"),
            frame,
            request,
        );
    }
}

// A view of an owned request.
fn view_of(request: &Request) -> RequestView<'_> {
    match request {
        Request::Append { tag, kind, payload } => RequestView::Append {
            tag: *tag,
            kind: *kind,
            payload: payload.as_slice(),
        },
        Request::Commitment { tag } => RequestView::Commitment { tag: *tag },
        Request::Membership { tag, index, count } => RequestView::Membership {
            tag: *tag,
            index: *index,
            count: *count,
        },
        Request::Incremental { tag, older, newer } => RequestView::Incremental {
            tag: *tag,
            older: *older,
            newer: *newer,
        },
        Request::Entry { tag, index } => RequestView::Entry {
            tag: *tag,
            index: *index,
        },
        Request::Close { tag } => RequestView::Close { tag: *tag },
        Request::State { tag } => RequestView::State { tag: *tag },
        Request::Place { tag, kind } => RequestView::Place {
            tag: *tag,
            kind: *kind,
        },
        Request::PlacedAppend {
            tag,
            kind,
            place,
            payload,
        } => RequestView::PlacedAppend {
            tag: *tag,
            kind: *kind,
            place: *place,
            payload: payload.as_slice(),
        },
    }
}

#[test]
fn an_owned_request_is_what_its_view_shows(rt: HostRuntime) {
    for (_, request) in &REQUESTS {
        check!(&rt; view_of(&request.own(rt.alloc()).expect(&rt, "memory")) == *request);
    }
}

#[test]
fn a_list_is_the_vector_that_it_was_made_of(rt: HostRuntime) {
    let payload = ByteList::from_vec(Vec::from_slice(rt.alloc(), b"hi").expect(&rt, "memory"));
    check!(&rt; payload.into_vec().as_slice() == b"hi".as_slice());
    let hashes = HashList::from_vec(Vec::from_slice(rt.alloc(), &[ROOT]).expect(&rt, "memory"));
    check!(&rt; hashes.as_slice() == [ROOT].as_slice());
    check!(&rt; hashes.into_vec().len() == 1);
}

// Lengths, and whether a frame may have them.
const LENGTHS: [([u8; 2], bool); 7] = [
    ([0x00, 0x00], false),
    ([0x00, 0x01], true),
    ([0x0f, 0xc2], true),
    ([0x7f, 0xc1], true),
    ([0x7f, 0xc2], false),
    ([0x80, 0x00], false),
    ([0xff, 0xff], false),
];

// Whether a decoder accepts or rejects a length at its second byte, as expected.
fn judges(decoder: &mut Decoder, first: u8, second: u8, allowed: bool) -> bool {
    let expected = if allowed {
        Fed::More
    } else {
        Fed::Malformed { taken: 1 }
    };
    decoder.feed(&[first]) == Fed::More
        && decoder.feed(&[second]) == expected
        && decoder.pending() == allowed
}

fn drops_all(decoder: &mut Decoder) -> bool {
    decoder.feed(&APPEND) == Fed::More
        && decoder.feed(&[]) == Fed::More
        && decoder.body().is_empty()
}

#[test]
fn a_length_is_judged_at_its_second_byte(rt: HostRuntime) {
    for ([first, second], allowed) in LENGTHS {
        let mut decoder = Decoder::new(rt.alloc()).expect(&rt, "memory");
        check!(&rt; judges(&mut decoder, first, second, allowed), first, second);
        check!(&rt; allowed || drops_all(&mut decoder));
    }
}

// The first `size` bytes of the longest append's frame.
fn frame_of(rt: &impl Abort, alloc: Global, size: usize) -> Vec<u8> {
    let mut frame = Vec::from_slice(alloc, &[0x7f, 0xc1]).expect(rt, "memory");
    frame.extend_from_slice(&APPEND[2..11]).expect(rt, "memory");
    frame.resize(size, 0xab).expect(rt, "memory");
    frame
}

fn is_append_of(body: &[u8], len: usize) -> bool {
    match read_request(body) {
        Ok(RequestView::Append { payload, .. }) => payload.len() == len,
        _ => false,
    }
}

#[test]
fn the_longest_frame_is_read(rt: HostRuntime) {
    let frame = frame_of(&rt, rt.alloc(), MAX_FRAME);
    let mut decoder = Decoder::new(rt.alloc()).expect(&rt, "memory");
    check!(&rt; decoder.feed(&frame) == Fed::Body { taken: 32_707 });
    check!(&rt; is_append_of(decoder.body(), 32_696));
}

#[test]
fn the_longest_body_and_one_byte_more_is_not_read(rt: HostRuntime) {
    let frame = frame_of(&rt, rt.alloc(), MAX_FRAME + 1);
    check!(&rt; frame.len() == MAX_FRAME + 1);
    check!(&rt; read_request(&frame[2..]) == Err(Malformed));
}

const NO_REQUESTS: [&[u8]; 18] = [
    b"",
    b"\x00\x00\x00\x00\x09",
    b"\x07\x00\x00\x00\x09",
    b"\x81\x00\x00\x00\x09",
    b"\x01",
    b"\x01\x00\x00\x00\x07\x00\x00\x00",
    b"\x01\x00\x00\x00\x01\xff\xff\xff\xff",
    b"\x01\x00\x00\x00\x01\xff\xff\xff\xffhi",
    b"\x02\x00\x00\x00",
    b"\x02\x00\x00\x00\x09\x00",
    b"\x03\x00\x00\x00\x05\x00\x00\x00\x00\x00\x00\x00\x00\x00\x00\x00\x00\x00\x00\x00",
    b"\x03\x00\x00\x00\x05\x00\x00\x00\x00\x00\x00\x00\x00\x00\x00\x00\x00\x00\x00\x00\x01\x00",
    b"\x04\x00\x00\x00\x06\x00\x00\x00\x00\x00\x00\x00\x00\x00\x00\x00\x00\x00\x00\x00",
    b"\x04\x00\x00\x00\x06\x00\x00\x00\x00\x00\x00\x00\x00\x00\x00\x00\x00\x00\x00\x00\x01\x00",
    b"\x05\x00\x00\x00\x04\x00\x00\x00\x00\x00\x00\x00",
    b"\x05\x00\x00\x00\x04\x00\x00\x00\x00\x00\x00\x00\x00\x00",
    b"\x06\x00\x00\x00\x03\x00",
    b"\x06\x00\x00\x00\x03\xff\xff\xff\xff",
];

#[test]
fn bodies_that_are_no_requests(rt: HostRuntime) {
    for (place, body) in NO_REQUESTS.iter().enumerate() {
        check!(&rt; read_request(body) == Err(Malformed), place);
    }
}

#[test]
fn a_close_that_is_cut_short_is_no_request(rt: HostRuntime) {
    let (_, body) = CLOSE.split_at(2);
    check!(&rt; read_request(body) == Ok(RequestView::Close { tag: 3 }));
    for size in 0..body.len() {
        check!(&rt; read_request(&body[..size]) == Err(Malformed), size);
    }
}

#[test]
fn an_append_of_the_greatest_kind_and_no_payload(rt: HostRuntime) {
    let append = RequestView::Append {
        tag: 7,
        kind: 0xFFFF_FFFE,
        payload: b"",
    };
    check!(&rt; read_request(b"\x01\x00\x00\x00\x07\xff\xff\xff\xfe") == Ok(append));
}

// A daemon's clients may ask for the state, and every session for the other requests, which are the same for both.
#[test]
fn a_state_is_a_request_of_daemons_alone(rt: HostRuntime) {
    let (_, body) = GET_STATE.split_at(2);
    let state = RequestView::State { tag: 8 };
    check!(&rt; read_request_by(Grammar::Daemon, body) == Ok(state));
    check!(&rt; read_request_by(Grammar::Plain, body) == Err(Malformed));
    check!(&rt; view_of(&state.own(rt.alloc()).expect(&rt, "memory")) == state);
    for size in 0..body.len() {
        check!(&rt; read_request_by(Grammar::Daemon, &body[..size]) == Err(Malformed), size);
    }
    check!(&rt; read_request_by(Grammar::Daemon, b"\x07\0\0\0\x08\0") == Err(Malformed));
}

// Frames about places, with their requests.
const OF_PLACES: [(&[u8], RequestView<'static>); 2] = [
    (&GET_PLACE, RequestView::Place { tag: 9, kind: 1 }),
    (
        &PLACED_APPEND,
        RequestView::PlacedAppend {
            tag: 10,
            kind: 1,
            place: 1,
            payload: b"a",
        },
    ),
];

fn is_of_daemons_alone(body: &[u8], request: &RequestView) -> bool {
    read_request_by(Grammar::Daemon, body) == Ok(*request)
        && read_request_by(Grammar::Plain, body) == Err(Malformed)
}

#[test]
fn places_are_requests_of_daemons_alone(rt: HostRuntime) {
    for (frame, request) in &OF_PLACES {
        let (_, body) = frame.split_at(2);
        check!(&rt; is_of_daemons_alone(body, request));
        check!(&rt; view_of(&request.own(rt.alloc()).expect(&rt, "memory")) == *request);
    }
}

// The lengths of bodies about places that daemons read, and those that they don't: a place of a kind is 9 bytes long, and
// an append at a place at least 17. A place of any kind may be asked for, but the reserved kind isn't appended.
const PLACE_BODIES: [(&[u8], bool); 8] = [
    (b"\x08\x00\x00\x00\x09\x00\x00\x00", false),
    (b"\x08\x00\x00\x00\x09\xff\xff\xff\xff", true),
    (b"\x08\x00\x00\x00\x09\x00\x00\x00\x01\x00", false),
    (
        b"\x09\x00\x00\x00\x0a\x00\x00\x00\x01\x00\x00\x00\x00\x00\x00\x00",
        false,
    ),
    (
        b"\x09\x00\x00\x00\x0a\x00\x00\x00\x01\x00\x00\x00\x00\x00\x00\x00\x01",
        true,
    ),
    (
        b"\x09\x00\x00\x00\x0a\xff\xff\xff\xfe\x00\x00\x00\x00\x00\x00\x00\x01",
        true,
    ),
    (
        b"\x09\x00\x00\x00\x0a\xff\xff\xff\xff\x00\x00\x00\x00\x00\x00\x00\x01",
        false,
    ),
    (b"\x0a\x00\x00\x00\x0a\x00\x00\x00\x01", false),
];

#[test]
fn bodies_about_places(rt: HostRuntime) {
    for (place, (body, is_request)) in PLACE_BODIES.iter().enumerate() {
        check!(&rt; read_request_by(Grammar::Daemon, body).is_ok() == *is_request, place);
    }
}

// The length of the payload of an append at a place, if a daemon reads one in the body of a frame.
fn placed_payload(frame: &[u8]) -> Option<usize> {
    match read_request_by(Grammar::Daemon, frame.get(2..)?) {
        Ok(RequestView::PlacedAppend { payload, .. }) => Some(payload.len()),
        _ => None,
    }
}

// It has 8 bytes less for its payload than a plain one.
#[test]
fn the_longest_append_at_a_place(rt: HostRuntime) {
    let mut frame = frame_of(&rt, rt.alloc(), MAX_FRAME);
    check!(&rt; frame.len() > 2 && placed_payload(&frame) == None);
    frame[2] = 9;
    check!(&rt; placed_payload(&frame) == Some(32_688));
    frame.push(0).expect(&rt, "memory");
    check!(&rt; placed_payload(&frame) == None);
}

#[test]
fn a_daemon_reads_the_requests_of_every_session(rt: HostRuntime) {
    for (frame, request) in &REQUESTS {
        let (_, body) = frame.split_at(2);
        check!(&rt; read_request_by(Grammar::Daemon, body) == Ok(*request));
        check!(&rt; read_request_by(Grammar::Plain, body) == Ok(*request));
    }
    for (place, body) in NO_REQUESTS.iter().enumerate() {
        let is_state = *body == b"\x07\x00\x00\x00\x09".as_slice();
        check!(&rt; read_request_by(Grammar::Daemon, body).is_ok() == is_state, place);
    }
}

// Whether a last byte completes the request, and can be put back as if it had never arrived.
fn gives_and_puts_back(decoder: &mut Decoder, last: &[u8], request: &RequestView) -> bool {
    match decoder.feed(last) {
        Fed::Body { taken } => {
            let read = taken == 1 && read_request(decoder.body()) == Ok(*request);
            decoder.put_back();
            read && decoder.pending() && decoder.body().is_empty()
        }
        _ => false,
    }
}

fn check_again(rt: &impl Abort, decoder: &mut Decoder, frame: &[u8], request: &RequestView) {
    let (front, last) = frame.split_at(frame.len().saturating_sub(1));
    check!(rt; decoder.feed(front) == Fed::More);
    for _ in 0..3 {
        check!(rt; gives_and_puts_back(decoder, last, request));
    }
}

#[test]
fn a_byte_that_is_put_back_comes_again(rt: HostRuntime) {
    for (frame, request) in &REQUESTS {
        check_again(
            &rt,
            &mut Decoder::new(rt.alloc()).expect(&rt, "memory"),
            frame,
            request,
        );
    }
}

// Whether a malformed length is reported, and its last byte can be put back.
fn puts_back_length(decoder: &mut Decoder) -> bool {
    match decoder.feed(b"\x7f\xc2\x01") {
        Fed::Malformed { taken } => {
            decoder.put_back();
            taken == 2 && decoder.pending()
        }
        _ => false,
    }
}

// The next byte makes it an allowed length.
#[test]
fn a_malformed_length_that_is_put_back_comes_again(rt: HostRuntime) {
    let mut decoder = Decoder::new(rt.alloc()).expect(&rt, "memory");
    check!(&rt; puts_back_length(&mut decoder));
    check!(&rt; waits(&mut decoder, b"\xc1"));
}

/// The frame of a reply after these bytes, in a vector with capacity for `room` bytes.
fn written(rt: &impl Abort, alloc: Global, reply: &Reply, before: &[u8], room: usize) -> Vec<u8>
    requires { IsReply reply.now }
{
    let mut out = Vec::with_capacity(alloc, room).expect(rt, "memory");
    out.extend_from_slice(before).expect(rt, "memory");
    write_reply(alloc, reply, &mut out).expect(rt, "a reply");
    out
}

/// The frame of a reply follows the existing bytes, even if the capacity is exactly its size.
fn check_reply(rt: &impl Abort, alloc: Global, reply: &Reply, frame: &[u8])
    requires { IsReply reply.now }
{
    let room = frame.len().saturating_add(1);
    let after = written(rt, alloc, reply, &[0xaa], room);
    check!(rt; after.capacity() == room && is_after_a_byte(&after, frame));
    let out = written(rt, alloc, reply, &[], 0);
    check!(rt; out.as_slice() == frame && is_read_back(alloc, &out));
}

fn is_after_a_byte(out: &[u8], frame: &[u8]) -> bool {
    match out {
        [first, rest @ ..] => *first == 0xaa && rest == frame,
        [] => false,
    }
}

/// Whether the first frame of an output is the whole output and reads as a reply, and no prefix of it does.
fn is_read_back(alloc: Global, output: &[u8]) -> bool {
    match first_frame(output) {
        Some((body, [])) => {
            body.len() > 4
                && body.len() + 2 == output.len()
                && read_reply(alloc, body).is_ok()
                && is_malformed(alloc, &body[..4])
                && first_frame(&output[..output.len() - 1]).is_none()
                && first_frame(&output[..1]).is_none()
        }
        _ => false,
    }
}

fn is_malformed(alloc: Global, body: &[u8]) -> bool {
    read_reply(alloc, body).err() == Some(ReplyError::Malformed)
}

#[test]
fn bodies_that_are_no_replies(rt: HostRuntime) {
    check!(&rt; is_malformed(rt.alloc(), b""));
    check!(&rt; is_malformed(rt.alloc(), b"\x80\0\0\0\0"));
}

#[test]
fn an_acknowledgement_has_the_bytes_of_the_formats(rt: HostRuntime) {
    let acknowledgement = Reply::Acknowledgement {
        tag: 7,
        index: 0,
        count: 1,
        root: ROOT,
    };
    check_reply(&rt, rt.alloc(), &acknowledgement, &ACKNOWLEDGED);
}

#[test]
fn a_commitment_has_the_bytes_of_the_formats(rt: HostRuntime) {
    let commitment = Reply::Commitment {
        tag: 9,
        count: 0,
        root: [0; 32],
    };
    check_reply(&rt, rt.alloc(), &commitment, &EMPTY_COMMITMENT);
}

// The state of a log of one event on 64 sectors.
const OF_ONE: Reply = Reply::State {
    tag: 8,
    count: 1,
    root: ROOT,
    end: 3,
    sectors: 64,
    generation: 4,
    version: 2,
    closed: false,
};

#[test]
fn a_state_has_the_bytes_of_the_formats(rt: HostRuntime) {
    check_reply(&rt, rt.alloc(), &OF_ONE, &STATE);
}

// The last byte is 0 or 1. A state has one length.
#[test]
fn states_with_another_mark_or_length(rt: HostRuntime) {
    for (mark, malformed) in [(0, false), (1, false), (2, true), (255, true)] {
        let mut body = Vec::from_slice(rt.alloc(), &STATE[2..73]).expect(&rt, "memory");
        check!(&rt; is_malformed(rt.alloc(), &body));
        body.push(mark).expect(&rt, "memory");
        check!(&rt; is_malformed(rt.alloc(), &body) == malformed, mark);
        body.push(0).expect(&rt, "memory");
        check!(&rt; is_malformed(rt.alloc(), &body));
    }
}

#[test]
fn a_place_has_the_bytes_of_the_formats(rt: HostRuntime) {
    let place = Reply::Place {
        tag: 9,
        number: 1,
        count: 1,
    };
    check_reply(&rt, rt.alloc(), &place, &PLACE);
}

#[test]
fn a_placed_event_has_the_bytes_of_the_formats(rt: HostRuntime) {
    let placed = Reply::Placed {
        tag: 10,
        index: 1,
        count: 2,
        root: ROOT_OF_TWO,
        key: KEY_OF_ENTRY_1,
    };
    check_reply(&rt, rt.alloc(), &placed, &PLACED);
}

// Each has one length.
#[test]
fn replies_about_places_of_another_length(rt: HostRuntime) {
    for frame in [PLACE.as_slice(), PLACED.as_slice()] {
        let mut body = Vec::from_slice(rt.alloc(), &frame[2..]).expect(&rt, "memory");
        check!(&rt; read_reply(rt.alloc(), &body).is_ok());
        check!(&rt; is_malformed(rt.alloc(), &frame[2..frame.len() - 1]));
        body.push(0).expect(&rt, "memory");
        check!(&rt; is_malformed(rt.alloc(), &body));
    }
}

const REFUSALS: [(u8, Refusal, u8); 9] = [
    (0, Refusal::Malformed, 20),
    (2, Refusal::Full, 7),
    (3, Refusal::DamagedLog, 4),
    (4, Refusal::NoSuchVersion, 8),
    (5, Refusal::Worn, 9),
    (6, Refusal::Device, 11),
    (7, Refusal::Closed, 13),
    (8, Refusal::NotAllowed, 16),
    (9, Refusal::NotCounted, 18),
];

#[test]
fn refusals_have_the_bytes_of_the_formats(rt: HostRuntime) {
    for (tag, refusal, code) in REFUSALS {
        let frame = [0x00, 0x06, 0xff, 0x00, 0x00, 0x00, tag, code];
        let refused = Reply::Refused {
            tag: u32::from(tag),
            refusal,
        };
        check_reply(&rt, rt.alloc(), &refused, &frame);
    }
}

// A reply of the greatest length of its kind.
fn check_longest(rt: &impl Abort, alloc: Global, reply: &Reply, len: usize, begins: &[u8])
    requires { IsReply reply.now }
{
    let out = written(rt, alloc, reply, &[], 0);
    check!(rt; out.len() == len && out.starts_with(begins) && out.ends_with(&[7; 32]));
}

#[test]
fn the_longest_increment(rt: HostRuntime) {
    let increment = Reply::Incremental {
        tag: 6,
        hashes: HashList::from_vec(vec![in rt.alloc(); [7; 32]; 25].expect(&rt, "memory")),
    };
    let begins = [0x03, 0x26, 0x84, 0x00, 0x00, 0x00, 0x06, 25];
    check_longest(&rt, rt.alloc(), &increment, 808, &begins);
}

#[test]
fn the_longest_membership(rt: HostRuntime) {
    let membership = Reply::Membership {
        tag: 5,
        hashes: HashList::from_vec(vec![in rt.alloc(); [7; 32]; 24].expect(&rt, "memory")),
        entry: ByteList::from_vec(vec![in rt.alloc(); 7; MAX_ENTRY].expect(&rt, "memory")),
    };
    let begins = [0x83, 0x06, 0x83, 0x00, 0x00, 0x00, 0x05, 24];
    check_longest(&rt, rt.alloc(), &membership, 33_544, &begins);
}

#[test]
fn the_longest_entry(rt: HostRuntime) {
    let entry = Reply::Entry {
        tag: 4,
        entry: ByteList::from_vec(vec![in rt.alloc(); 7; MAX_ENTRY].expect(&rt, "memory")),
    };
    let begins = [0x80, 0x05, 0x85, 0x00, 0x00, 0x00, 0x04, 7];
    check_longest(&rt, rt.alloc(), &entry, 32_775, &begins);
}

#[test]
fn an_increment_has_the_bytes_of_the_formats(rt: HostRuntime) {
    let increment = Reply::Incremental {
        tag: 6,
        hashes: HashList::from_vec(Vec::from_slice(rt.alloc(), &[ROOT]).expect(&rt, "memory")),
    };
    check_reply(&rt, rt.alloc(), &increment, &INCREMENT);
}

#[test]
fn a_membership_has_the_bytes_of_the_formats(rt: HostRuntime) {
    let membership = Reply::Membership {
        tag: 5,
        hashes: HashList::from_vec(Vec::new(rt.alloc())),
        entry: ByteList::from_vec(Vec::from_slice(rt.alloc(), &ENTRY).expect(&rt, "memory")),
    };
    check_reply(&rt, rt.alloc(), &membership, &MEMBERSHIP);
}

#[test]
fn an_entry_has_the_bytes_of_the_formats(rt: HostRuntime) {
    let entry = Reply::Entry {
        tag: 4,
        entry: ByteList::from_vec(Vec::from_slice(rt.alloc(), &ENTRY).expect(&rt, "memory")),
    };
    check_reply(&rt, rt.alloc(), &entry, &ENTRY_REPLY);
}
