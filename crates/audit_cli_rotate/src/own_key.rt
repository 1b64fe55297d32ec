//! Whether a log began with a key.
ghost use Rattle.std.specs.Prelude.{◌≡◌, ◌↔◌, List, IfOk, IfErr, IsTrue};
ghost use Rattle.audit_chain.specs.Event.{EventData};
ghost use Rattle.audit_chain.specs.Key.{evolved_key};
ghost use Rattle.audit_store_commit.specs.Origin.{Origin};
ghost use Rattle.audit_store.specs.Store.{Holds};
ghost use Rattle.audit_cli_rotate.specs.OwnKey.{IsAuthenticatedUnder, IsJudged, LacksFirstEntry};

use audit_base::is_same_hash;
use audit_chain::{Key, read_entry};
use audit_disk_model::Sectors;
use audit_mac::hmac_sha256;
use audit_store::{Store, StoreError};

/// Whether a log began with this key: an open log has the key that this one becomes after as many events, which costs a
/// SHA-256 each; the first entry of a closed one is read, and was authenticated under it. Errors are those of
/// [`Store::entry`], of a closed log alone.
pub(crate) fn began_with<D: Sectors>(store: &mut Store<D>, key: &Key) -> Result<bool, StoreError>
    ensures judged { IfOk result (IsJudged key.now store.old store.new) }
    ensures unread { IfErr result (LacksFirstEntry store.old store.new) }
    ensures holds { (origin : Origin) (events : List EventData) → Holds store.old origin events
        → Holds store.new origin events }
    ensures own { (origin : Origin) (events : List EventData) → Holds store.old origin events
        → origin.first_key ≡ key.now → IfOk result IsTrue }
{
    if store.closed() {
        let first = store.entry(0)?;
        return Ok(is_authenticated(&first, key));
    }
    Ok(store.has_key(&key_after(key, store.commitment().count)))
}

// The key of a log after `count` events, given its first key.
fn key_after(first: &Key, count: u64) -> Key
    ensures { result ≡ evolved_key first.now count }
{
    let mut key = Key::from_bytes(*first.bytes());
    for _ in 0..count {
        key = key.next_key();
    }
    key
}

// Whether bytes begin with an entry that was authenticated under this key.
fn is_authenticated(bytes: &[u8], key: &Key) -> bool
    ensures { IsTrue result ↔ IsAuthenticatedUnder key.now bytes.now }
{
    match read_entry(bytes) {
        Ok(entry) => is_same_hash(entry.tag(), &hmac_sha256(key.bytes(), entry.link())),
        Err(_) => false,
    }
}
