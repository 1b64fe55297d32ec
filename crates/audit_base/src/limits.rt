//! The limits of the formats and of sessions. A limit that follows from others is computed from them, so raising one
//! means changing one line here and the law that fixes its number.

/// The length of a SHA-256 digest (FIPS 180-4) in bytes. Hashes, keys, links and MACs have this length.
pub const HASH_LEN: usize = 32;

/// The size of a sector of a device, in bytes.
pub const SECTOR_SIZE: usize = 512;

/// The longest payload of an event, in bytes. Its entry fills 64 sectors, which is a whole batch.
pub const MAX_PAYLOAD: usize = 32_696;

/// The longest payload in a store of the format's first version, in bytes. Its entry fills 8 sectors.
pub const FIRST_MAX_PAYLOAD: usize = 4_024;

/// The kind of the event that closes a log. No other event may have it.
pub const RESERVED_KIND: u32 = 0xffff_ffff;

/// The length in bytes of an entry's head, which precedes the cipher: the kind and the length, 4 bytes each.
pub const ENTRY_HEAD_LEN: usize = 8;

/// How much longer an entry is than its payload, in bytes: the lengths of its head, link and MAC.
pub const ENTRY_OVERHEAD: usize = ENTRY_HEAD_LEN + 2 * HASH_LEN;

/// The longest entry, in bytes.
pub const MAX_ENTRY: usize = ENTRY_OVERHEAD + MAX_PAYLOAD;

/// The longest entry in a store of the format's first version, in bytes.
pub const FIRST_MAX_ENTRY: usize = ENTRY_OVERHEAD + FIRST_MAX_PAYLOAD;

/// The most sectors that an entry occupies.
pub const MAX_ENTRY_SECTORS: u64 = ((MAX_ENTRY + SECTOR_SIZE - 1) / SECTOR_SIZE) as u64;

/// The most sectors that an entry occupies in a store of the format's first version.
pub const FIRST_MAX_ENTRY_SECTORS: u64 = ((FIRST_MAX_ENTRY + SECTOR_SIZE - 1) / SECTOR_SIZE) as u64;

/// The depth of the largest history tree: the number of layers above its leaves, up to the root.
pub const MAX_DEPTH: usize = 24;

/// The most leaves of a history tree, hence the most entries of a log.
pub const MAX_COUNT: u64 = 1 << MAX_DEPTH;

/// The number of layers of the largest history tree, including the leaves.
pub const LAYERS: usize = MAX_DEPTH + 1;

/// The most hashes in a membership proof: one sibling at each layer below the root.
pub const MAX_MEMBER_HASHES: usize = MAX_DEPTH;

/// The most hashes in an incremental proof: the node that ends the older tree, and its siblings.
pub const MAX_INCREMENT_HASHES: usize = MAX_DEPTH + 1;

/// How many sessions a store serves at once. They are numbered from 0.
pub const SESSIONS: usize = 16;
