use super::*;

// The entry of kind 1 and payload `hi` under the zero key, and its proof under count 1.
const FIRST_ENTRY: &str =
    "0000000100000002b8879f1e0e12b5bff2e04073ae77cd7220863b2a5d3c10c71940136430292b3a08eea5a823836da22bd11e8e5f9c6e0141ef0a27786dfce7f9366ab4d990cf7c071d";

const FIRST_PROOF: &str =
    "0100000000000000000000000000000001000000000100000002b8879f1e0e12b5bff2e04073ae77cd7220863b2a5d3c10c71940136430292b3a08eea5a823836da22bd11e8e5f9c6e0141ef0a27786dfce7f9366ab4d990cf7c071d";

// The membership proof of leaf 1 under count 3, and the incremental proof from 3 to 5, in the counted tree.
const MEMBERSHIP: &str =
    "01000000000000000100000000000000030296a296d224f285c67bee93c30f8a309157f0daa35dc5b87e410b78630a09cfc7f3956680d1c73a4a4334eb46e3c978a803c22ed6732cf4bc21811f768f39ff9e01";

const INCREMENT: &str =
    "020000000000000003000000000000000504fcf0a6c700dd13e274b6fba8deea8dd9b26e4eedde3495717cac8408c9c5177f583c7dfb7b3055d99465544032a571e10a134b1b6f769422bbb71fd7fa167a5da20bf9a7cc2dc8a08f5f415a71b19f6ac427bab54d24eec868b5d3103449953a0c67f97ec8e59c76fd3ae49f348748c9c009d93f8d43e7e3642274505fce91c4";

fn is_no_member(alloc: Global, bytes: &[u8]) -> bool {
    read_member(alloc, bytes).err() == Some(ProofError::BadProof)
}

fn is_no_increment(alloc: Global, bytes: &[u8]) -> bool {
    read_increment(alloc, bytes).err() == Some(ProofError::BadProof)
}

fn is_hex(rt: &impl Abort, alloc: Global, bytes: &[u8], digits: &str) -> bool {
    hex::encode(alloc, bytes).expect(rt, "memory").as_str() == digits
}

fn is_same_member(one: &MemberProof, other: &MemberProof) -> bool {
    one.index == other.index
        && one.count == other.count
        && one.hashes.as_slice() == other.hashes.as_slice()
        && one.entry.as_slice() == other.entry.as_slice()
}

fn is_same_increment(one: &IncrementProof, other: &IncrementProof) -> bool {
    one.older == other.older
        && one.newer == other.newer
        && one.hashes.as_slice() == other.hashes.as_slice()
}

// Writes a proof and reads it back.
fn member_through_bytes(rt: &impl Abort, alloc: Global, proof: MemberProof) -> Vec<u8> {
    assert!(rt; proof.hashes.len() <= MAX_MEMBER_HASHES && proof.entry.len() <= MAX_ENTRY);
    let bytes = write_member(alloc, &proof).expect(rt, "bytes of a proof");
    assert_member_read(rt, alloc, &bytes, &proof);
    bytes
}

fn assert_member_read(rt: &impl Abort, alloc: Global, bytes: &[u8], proof: &MemberProof) {
    let read = read_member(alloc, bytes).expect(rt, "a proof");
    assert!(rt; is_same_member(&read, proof));
}

fn increment_through_bytes(rt: &impl Abort, alloc: Global, proof: IncrementProof) -> Vec<u8> {
    assert!(rt; proof.hashes.len() <= MAX_INCREMENT_HASHES);
    let bytes = write_increment(alloc, &proof).expect(rt, "bytes of a proof");
    assert_increment_read(rt, alloc, &bytes, &proof);
    bytes
}

fn assert_increment_read(rt: &impl Abort, alloc: Global, bytes: &[u8], proof: &IncrementProof) {
    let read = read_increment(alloc, bytes).expect(rt, "a proof");
    assert!(rt; is_same_increment(&read, proof));
}

fn first_proof(rt: &impl Abort, alloc: Global) -> MemberProof {
    MemberProof {
        index: 0,
        count: 1,
        hashes: Vec::new(alloc),
        entry: hex::decode(alloc, FIRST_ENTRY).expect(rt, "digits"),
    }
}

#[test]
fn the_first_entry_is_proved_in_92_bytes(rt: HostRuntime) {
    let bytes = member_through_bytes(&rt, rt.alloc(), first_proof(&rt, rt.alloc()));
    assert!(&rt; bytes.len() == 92);
    assert!(&rt; is_hex(&rt, rt.alloc(), &bytes, FIRST_PROOF));
    assert!(&rt; is_no_member(rt.alloc(), &bytes[..17]));
}

#[test]
fn the_first_entry_is_accepted(rt: HostRuntime) {
    let one = commitment(
        &rt,
        1,
        "1adb768b1a8442d111228c6b4ee67325246d75c87ac4a45dce6d4ed7a0cba265",
    );
    let proof = first_proof(&rt, rt.alloc());
    assert!(&rt; accepts_member(&one, 0, &proof.entry, &proof.hashes));
}

fn membership_of_three(rt: &impl Abort, alloc: Global) -> MemberProof {
    MemberProof {
        index: 1,
        count: 3,
        hashes: path_of_three(rt, alloc),
        entry: Vec::from_slice(alloc, &[1]).expect(rt, "memory"),
    }
}

#[test]
fn a_membership_is_written_as_listed(rt: HostRuntime) {
    let bytes = member_through_bytes(&rt, rt.alloc(), membership_of_three(&rt, rt.alloc()));
    assert!(&rt; is_hex(&rt, rt.alloc(), &bytes, MEMBERSHIP));
    assert!(&rt; is_no_increment(rt.alloc(), &bytes));
}

fn increment_of_five(rt: &impl Abort, alloc: Global) -> IncrementProof {
    IncrementProof {
        older: 3,
        newer: 5,
        hashes: counted_tree(rt, alloc, 5)
            .incremental(3, 5)
            .expect(rt, "a path"),
    }
}

#[test]
fn an_increment_is_written_as_listed(rt: HostRuntime) {
    let mut bytes = increment_through_bytes(&rt, rt.alloc(), increment_of_five(&rt, rt.alloc()));
    assert!(&rt; is_hex(&rt, rt.alloc(), &bytes, INCREMENT));
    assert!(&rt; is_no_member(rt.alloc(), &bytes));
    bytes.push(0).expect(&rt, "memory");
    assert!(&rt; is_no_increment(rt.alloc(), &bytes));
}

fn longest_membership(rt: &impl Abort, alloc: Global) -> MemberProof {
    let hashes = counted_hashes(rt, alloc, 24);
    MemberProof {
        index: u64::MAX,
        count: 0,
        hashes,
        entry: vec![in alloc; 7; MAX_ENTRY].expect(rt, "memory"),
    }
}

#[test]
fn the_longest_membership_is_read(rt: HostRuntime) {
    let mut bytes = member_through_bytes(&rt, rt.alloc(), longest_membership(&rt, rt.alloc()));
    bytes.push(7).expect(&rt, "memory");
    assert!(&rt; is_no_member(rt.alloc(), &bytes));
    bytes.truncate(900);
    assert!(&rt; 17 < bytes.len());
    bytes[17] = 25;
    assert!(&rt; is_no_member(rt.alloc(), &bytes));
}

fn longest_increment(rt: &impl Abort, alloc: Global) -> IncrementProof {
    IncrementProof {
        older: u64::MAX,
        newer: 0,
        hashes: counted_hashes(rt, alloc, 25),
    }
}

#[test]
fn the_longest_increment_is_read(rt: HostRuntime) {
    let mut bytes = increment_through_bytes(&rt, rt.alloc(), longest_increment(&rt, rt.alloc()));
    bytes.extend_from_slice(&[0; 32]).expect(&rt, "memory");
    assert!(&rt; 17 < bytes.len());
    bytes[17] = 26;
    assert!(&rt; is_no_increment(rt.alloc(), &bytes));
}

#[test]
fn bytes_of_no_proof_are_refused(rt: HostRuntime) {
    assert!(&rt; is_no_member(rt.alloc(), &[]) && is_no_increment(rt.alloc(), &[]));
    let mut changed = hex::decode(rt.alloc(), FIRST_PROOF).expect(&rt, "digits");
    assert!(&rt; 17 < changed.len());
    changed[17] = 25;
    assert!(&rt; is_no_member(rt.alloc(), &changed));
}
