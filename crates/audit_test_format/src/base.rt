use audit_base::*;
use std::process::Abort;

#[test]
fn digests_that_differ_in_one_bit_are_not_the_same(rt: HostRuntime) {
    let hash: Hash = [0x5a; HASH_LEN];
    assert!(rt; is_same_hash(&hash, &hash));
    for place in 0..HASH_LEN {
        let mut other = hash;
        other[place] ^= 0x80;
        assert!(rt; !is_same_hash(&hash, &other));
    }
}

#[test]
fn numbers_have_their_highest_byte_first(rt: HostRuntime) {
    let bytes = [0xff, 1, 2, 3, 4, 5, 6, 7, 8, 0xff];
    assert_eq!(rt; u32_at(&bytes, 1), 0x0102_0304);
    assert_eq!(rt; u64_at(&bytes, 1), 0x0102_0304_0506_0708);
}

#[test]
fn digests_are_read_one_after_the_other(rt: HostRuntime) {
    let bytes: [u8; MAX_INCREMENT_HASHES * HASH_LEN] = std::array::from_fn(|i| (i
        / HASH_LEN) as u8);
    for number in 0..=MAX_INCREMENT_HASHES {
        let hashes = read_hashes(rt.alloc(), &bytes, number).expect(&rt, "hashes");
        assert_counted(&rt, &hashes, number);
    }
}

// Asserts that these are `number` hashes, each of bytes of its place.
fn assert_counted(rt: &impl Abort, hashes: &[Hash], number: usize) {
    assert_eq!(rt; hashes.len(), number);
    for (place, hash) in hashes.iter().enumerate() {
        assert_eq!(rt; *hash, [(place % 256) as u8; HASH_LEN]);
    }
}
