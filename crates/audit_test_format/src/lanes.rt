use audit_lanes::{sha256_four, sha256_four_joined};
use hex::FromHex;
use sha2::{Digest, Sha256};
use std::process::Abort;

const LONGEST: usize = 200;

/// Bytes that differ from their neighbours, and from those of another seed.
fn bytes_from(seed: u8) -> [u8; LONGEST] {
    let mut bytes = [0; LONGEST];
    let mut next = seed;
    for byte in bytes.iter_mut() {
        next = next.wrapping_mul(5).wrapping_add(seed | 1);
        *byte = next;
    }
    bytes
}

/// The SHA-256 of four messages, one after another.
fn digests_of(messages: [&[u8]; 4]) -> [[u8; 32]; 4] {
    let [a, b, c, d] = messages;
    [
        Sha256::digest(a),
        Sha256::digest(b),
        Sha256::digest(c),
        Sha256::digest(d),
    ]
}

/// Asserts that the message has this digest in every lane, beside messages of every length.
fn expect_digest(rt: &impl Abort, message: &[u8], digest: &str) {
    let expected = <[u8; 32] as FromHex>::from_hex(digest).expect(rt, "digits");
    let bytes = bytes_from(7);
    for len in 0..LONGEST + 1 {
        let other = &bytes[..len];
        let [first, ..] = sha256_four([message, other, other, other]);
        let [_, second, ..] = sha256_four([other, message, other, other]);
        let [_, _, third, _] = sha256_four([other, other, message, other]);
        let [.., fourth] = sha256_four([other, other, other, message]);
        assert_eq!(rt; [first, second, third, fourth], [expected; 4]);
    }
}

/// Asserts that both calls give the digests of `sha2`, with each message whole and cut in two.
fn expect_same(rt: &impl Abort, messages: [&[u8]; 4], at: usize) {
    let digests = digests_of(messages);
    assert_eq!(rt; sha256_four(messages), digests);
    let [a, b, c, d] = messages;
    let (a, e) = a.split_at(at.min(a.len()));
    let (b, f) = b.split_at(at.min(b.len()));
    let (c, g) = c.split_at(at.min(c.len()));
    let (d, h) = d.split_at(at.min(d.len()));
    assert_eq!(rt;
        sha256_four_joined(&[], [a, b, c, d], [e, f, g, h]),
        digests
    );
}

// The examples of FIPS 180-4 for SHA-256 that NIST publishes.
#[test]
fn vectors_in_every_lane(rt: HostRuntime) {
    expect_digest(
        &rt,
        b"",
        "e3b0c44298fc1c149afbf4c8996fb92427ae41e4649b934ca495991b7852b855",
    );
    expect_digest(
        &rt,
        b"abc",
        "ba7816bf8f01cfea414140de5dae2223b00361a396177a9cb410ff61f20015ad",
    );
    expect_digest(
        &rt,
        b"abcdbcdecdefdefgefghfghighijhijkijkljklmklmnlmnomnopnopq",
        "248d6a61d20638b8e5c026930c3e6039a33ce45964ff2167f6ecedd419db06c1",
    );
    expect_digest(
        &rt,
        b"abcdefghbcdefghicdefghijdefghijkefghijklfghijklmghijklmnhijklmnoijklmnopjklmnopqklmnopqrlmnopqrsmnopqrstnopqrstu",
        "cf5b16a778af8380036ce59e7b0492370b249b11e8f07a51afac45037afee9d1",
    );
}

#[test]
fn every_length(rt: HostRuntime) {
    let a = bytes_from(1);
    let b = bytes_from(2);
    let c = bytes_from(3);
    let d = bytes_from(4);
    for len in 0..LONGEST + 1 {
        expect_same(&rt, [&a[..len], &b[..len], &c[..len], &d[..len]], len / 3);
    }
}

// Texts as those of leaves and nodes: a prefix and one piece or two.
#[test]
fn pieces_behind_a_prefix(rt: HostRuntime) {
    let text = bytes_from(5);
    for len in 1..LONGEST + 1 {
        let (first, second) = text[1..len].split_at((len - 1) / 2);
        let joined = sha256_four_joined(&text[..1], [first; 4], [second; 4]);
        assert_eq!(&rt; joined, [Sha256::digest(&text[..len]); 4]);
    }
}

// The next number of a generator of Knuth's, whose high bits serve.
fn advance(state: u64) -> u64 {
    state
        .wrapping_mul(6_364_136_223_846_793_005)
        .wrapping_add(1_442_695_040_888_963_407)
}

// A piece of the bytes: 24 bits choose where it begins, and its length if none is given.
fn piece_by(bytes: &[u8; LONGEST], bits: u64, len: Option<usize>) -> &[u8] {
    let len = len.unwrap_or((bits >> 40) as usize % (LONGEST + 1));
    let len = len.min(LONGEST);
    let start = (bits >> 48) as usize % (LONGEST - len + 1);
    &bytes[start..start + len]
}

// In every other quadruple the messages have the same length.
#[test]
fn random_quadruples(rt: HostRuntime) {
    let bytes = bytes_from(6);
    let mut state = 1;
    for round in 0..100_000u32 {
        let a = advance(state);
        let b = advance(a);
        let c = advance(b);
        let d = advance(c);
        state = d;
        let first = piece_by(&bytes, a, None);
        let len = if round % 2 == 0 {
            Some(first.len())
        } else {
            None
        };
        let messages = [
            first,
            piece_by(&bytes, b, len),
            piece_by(&bytes, c, len),
            piece_by(&bytes, d, len),
        ];
        expect_same(&rt, messages, (d >> 56) as usize);
    }
}
