use crate::byte_list::ByteList;
use crate::hash_list::HashList;
use crate::refusal::Refusal;
use audit_base::Hash;

/// The reply to a request, with the request's tag.
#[derive(Debug, Drop)]
pub enum Reply {
    /// The event is in the log at `index`, and this is now the log's commitment.
    Acknowledgement {
        tag: u32,
        index: u64,
        count: u64,
        root: Hash,
    },
    /// The newest commitment.
    Commitment {
        tag: u32,
        count: u64,
        root: Hash,
    },
    /// A membership (inclusion) proof, and the entry that it proves.
    Membership {
        tag: u32,
        hashes: HashList,
        entry: ByteList,
    },
    /// An incremental (consistency) proof.
    Incremental {
        tag: u32,
        hashes: HashList,
    },
    /// An entry.
    Entry {
        tag: u32,
        entry: ByteList,
    },
    /// The state of the store: its commitment, the first sector after the log, how many sectors there are, the
    /// generation and the format version of its header, and whether the log is closed.
    State {
        tag: u32,
        count: u64,
        root: Hash,
        end: u64,
        sectors: u64,
        generation: u64,
        version: u16,
        closed: bool,
    },
    /// How many events of a kind the log has, and how many in all. The reply to a placed append means that nothing was
    /// appended, as the event has another place.
    Place {
        tag: u32,
        number: u64,
        count: u64,
    },
    /// The placed event is in the log at `index`, this is now the log's commitment, and `key` is the key of the entry's
    /// keystream, which opens this entry alone.
    Placed {
        tag: u32,
        index: u64,
        count: u64,
        root: Hash,
        key: Hash,
    },
    /// The request was refused. A malformed request has no tag, and is answered with tag 0.
    Refused {
        tag: u32,
        refusal: Refusal,
    },
}
