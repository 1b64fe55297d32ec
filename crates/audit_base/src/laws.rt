ghost use Rattle.std.specs.Prelude.{◌≡◌, ◌^◌};

use crate::{
    ENTRY_OVERHEAD, FIRST_MAX_ENTRY, FIRST_MAX_ENTRY_SECTORS, FIRST_MAX_PAYLOAD, HASH_LEN, LAYERS,
    MAX_COUNT, MAX_ENTRY, MAX_ENTRY_SECTORS, MAX_INCREMENT_HASHES, MAX_MEMBER_HASHES, MAX_PAYLOAD,
    RESERVED_KIND, SECTOR_SIZE, SESSIONS,
};

/// The limits of the formats and of sessions, as numbers. The function does nothing: its contract is the law.
pub fn limits_are_these_numbers()
    ensures hash { HASH_LEN ≡ 32 }
    ensures sector { SECTOR_SIZE ≡ 512 }
    ensures payload { MAX_PAYLOAD ≡ 32696 }
    ensures first_payload { FIRST_MAX_PAYLOAD ≡ 4024 }
    ensures reserved { RESERVED_KIND ≡ 0xffffffff }
    ensures overhead { ENTRY_OVERHEAD ≡ 72 }
    ensures entry { MAX_ENTRY ≡ 32768 }
    ensures first_entry { FIRST_MAX_ENTRY ≡ 4096 }
    ensures entry_sectors { MAX_ENTRY_SECTORS ≡ 64 }
    ensures first_entry_sectors { FIRST_MAX_ENTRY_SECTORS ≡ 8 }
    ensures count { MAX_COUNT ≡ 2 ^ 24 }
    ensures layers { LAYERS ≡ 25 }
    ensures member_hashes { MAX_MEMBER_HASHES ≡ 24 }
    ensures increment_hashes { MAX_INCREMENT_HASHES ≡ 25 }
    ensures sessions { SESSIONS ≡ 16 }
{}
