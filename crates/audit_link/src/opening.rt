//! Entries opened with the keys of their keystreams.
ghost use Rattle.std.specs.Prelude.{◌≡◌, ◌↔◌, IfOk, IsTrue};
ghost use Rattle.audit_link.specs.OpenedEntry.{IsSoleEntry, OpensAs};

use audit_chain::{KEY_LEN, apply_stream, read_entry};
use std::alloc::{AllocError, Global};

/// An event as its entry reads under a key. Nobody vouches for the key: under another one it would read otherwise.
#[derive(Debug, Drop)]
pub struct OpenedEvent {
    /// The kind, which may be the reserved one.
    pub kind: u32,
    /// The payload, at most `MAX_PAYLOAD` bytes.
    pub payload: Vec<u8>,
}

/// Opens an entry with the key of its keystream: the payload is what the cipher decrypts to. `None` if the bytes aren't
/// one whole entry and nothing else. It judges neither the link nor the MAC. The only error is that memory for the
/// payload is refused.
pub fn open_entry(
    alloc: Global,
    entry: &[u8],
    key: &[u8; KEY_LEN],
) -> Result<Option<OpenedEvent>, AllocError>
    ensures { IfOk result (OpensAs key.now entry.now) }
{
    let Ok(view) = read_entry(entry) else {
        return Ok(None);
    };
    if view.size() != entry.len() {
        return Ok(None);
    }
    let mut payload = Vec::from_slice(alloc, view.cipher())?;
    apply_stream(key, &mut payload);
    Ok(Some(OpenedEvent {
        kind: view.kind(),
        payload,
    }))
}

/// Whether bytes are one entry and nothing else.
pub(crate) fn is_entry(bytes: &[u8]) -> bool
    ensures { IsTrue result ↔ IsSoleEntry bytes.now }
{
    match read_entry(bytes) {
        Ok(view) => view.size() == bytes.len(),
        Err(_) => false,
    }
}
