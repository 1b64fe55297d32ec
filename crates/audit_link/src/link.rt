use audit_base::Hash;
use audit_chain::{KEY_LEN, LINK_LEN};
use audit_mac::MAC_LEN;

/// The entry that closes a log, without its kind and its length, which are always the same.
#[derive(Clone, Copy, Debug, Drop, PartialEq, Eq)]
pub struct ClosingEntry {
    /// The entry's link.
    pub link: [u8; LINK_LEN],
    /// The entry's MAC.
    pub tag: [u8; MAC_LEN],
}

/// An entry, and the key of its keystream, which opens this entry alone.
#[derive(Debug, Drop)]
pub struct KeyedEntry {
    /// The key of the keystream.
    pub key: [u8; KEY_LEN],
    /// The entry.
    pub entry: Vec<u8>,
}

/// A link from a log that was closed to the log that goes on.
#[derive(Debug, Drop)]
pub struct Link {
    /// The siblings on the path from the old log's last leaf to its root, from the leaf upwards.
    pub hashes: Vec<Hash>,
    /// The entry that closed the old log.
    pub last: ClosingEntry,
    /// The new log's entry with the old one's last commitment.
    pub first: KeyedEntry,
    /// The new log's entry with the numbers of events by kind.
    pub second: KeyedEntry,
}
