//! What a file holds that was given in the place of another.
use audit_base::{ENTRY_OVERHEAD, MAX_PAYLOAD, u32_at};
use audit_cli_offline::read_proof;
use audit_cli_store::STATE_WORD;
use audit_disk::SECTOR_SIZE;
use audit_link::read_link;
use audit_log::Header;
use audit_proof::{MemberProof, read_member};
use audit_text::read_input;
use audit_verify::{StateError, read_bookmark};
use std::alloc::Global;
use std::fmt::{self, Display, Formatter};
use std::fs::{self, Files, Metadata};
use std::io::Read;
use std::os::unix::fs::FileTypeExt;

// More bytes than a proof or a link has.
const MAX_PROOF: u64 = 40_000;

/// The active header of a store.
#[derive(Clone, Copy)]
pub(crate) struct StoreHead {
    /// The number of its entries.
    pub(crate) count: u64,
    /// Whether its log is closed, so that it has no key.
    pub(crate) is_closed: bool,
    generation: u64,
}

/// What a file holds.
#[derive(Clone, Copy, PartialEq, Eq)]
pub(crate) enum Contents {
    Store,
    Export,
    Proof,
    Link,
}

impl Display for Contents {
    fn fmt<W: fmt::Write>(&self, f: &mut Formatter<W>) -> fmt::Result {
        f.write_str(match self {
            Contents::Store => "a store, which 'export' and 'prove' read",
            Contents::Export => "an export, which 'verify' reads",
            Contents::Proof => "a proof, which 'check' reads",
            Contents::Link => "a link, which 'check --link' reads",
        })
    }
}

/// What a file holds whose first word is that of a state.
#[derive(Clone, Copy)]
pub(crate) enum StateText {
    /// A state after this number of entries, of which the last closed the log or didn't.
    Whole { count: u64, is_closed: bool },
    /// No state.
    Damaged,
}

/// The state in a regular file whose first word is that of one.
pub(crate) fn state_in<F: Files>(rt: &F, alloc: Global, path: &str) -> Option<StateText> {
    metadata_of(rt, path)?;
    let mut file = fs::open(rt, path).ok()?;
    let text = read_input(alloc, &mut file).ok()?;
    if !text.starts_with(&STATE_WORD) {
        return None;
    }
    match read_bookmark(alloc, &text) {
        Ok(mark) => Some(StateText::Whole {
            count: mark.state.count(),
            is_closed: mark.state.is_closed(),
        }),
        Err(StateError::Damaged) => Some(StateText::Damaged),
        Err(StateError::Memory) => None,
    }
}

/// The state in a regular file; another text is a damaged one.
pub(crate) fn state_or_other<F: Files>(rt: &F, alloc: Global, path: &str) -> Option<StateText> {
    metadata_of(rt, path)?;
    Some(state_in(rt, alloc, path).unwrap_or(StateText::Damaged))
}

/// Finds out what a file holds, if it is a regular file or a block device that can be read.
pub(crate) fn contents_of<F: Files>(rt: &F, alloc: Global, path: &str) -> Option<Contents> {
    if store_head(rt, path).is_some() {
        return Some(Contents::Store);
    }
    let found = metadata_of(rt, path)?;
    if found.len() <= MAX_PROOF
        && let Some(found) = proof_or_link(rt, alloc, path)
    {
        return Some(found);
    }
    let mut start = [0; ENTRY_OVERHEAD];
    fs::open(rt, path).ok()?.read_exact(&mut start).ok()?;
    begins_export(&start, found.len()).then_some(Contents::Export)
}

/// The active header of the store in a file, if one of its first two sectors is a header.
pub(crate) fn store_head<F: Files>(rt: &F, path: &str) -> Option<StoreHead> {
    metadata_of(rt, path)?;
    let mut file = fs::open(rt, path).ok()?;
    let first = head_in(&mut file, 0);
    let second = head_in(&mut file, 1);
    match (first, second) {
        (Some(first), Some(second)) if first.generation < second.generation => Some(second),
        (Some(first), _) => Some(first),
        (None, second) => second,
    }
}

// The metadata of a file that can be read without waiting.
fn metadata_of<F: Files>(rt: &F, path: &str) -> Option<Metadata> {
    let found = fs::metadata(rt, path).ok()?;
    (found.is_file() || found.file_type().is_block_device()).then_some(found)
}

fn head_in<R: Read>(file: &mut R, slot: u64) -> Option<StoreHead> {
    let mut sector = [0; SECTOR_SIZE];
    file.read_exact(&mut sector).ok()?;
    let header = Header::decode(slot, &sector).ok()?;
    Some(StoreHead {
        count: header.count(),
        is_closed: header.closed(),
        generation: header.generation(),
    })
}

fn proof_or_link<F: Files>(rt: &F, alloc: Global, path: &str) -> Option<Contents> {
    let mut file = fs::open(rt, path).ok()?;
    let bytes = read_input(alloc, &mut file).ok()?;
    if read_proof(alloc, &bytes).is_ok() {
        return Some(Contents::Proof);
    }
    read_link(alloc, &bytes).is_ok().then_some(Contents::Link)
}

/// Whether a regular file holds an inclusion proof.
pub(crate) fn holds_inclusion<F: Files>(rt: &F, alloc: Global, path: &str) -> bool {
    inclusion_in(rt, alloc, path).is_some()
}

fn inclusion_in<F: Files>(rt: &F, alloc: Global, path: &str) -> Option<MemberProof> {
    metadata_of(rt, path)?;
    let mut file = fs::open(rt, path).ok()?;
    let bytes = read_input(alloc, &mut file).ok()?;
    read_member(alloc, &bytes).ok()
}

// Whether a file of this length may begin with an entry that begins so. Zeros are none.
fn begins_export(start: &[u8; ENTRY_OVERHEAD], length: u64) -> bool {
    let payload = u32_at(start, 4) as usize;
    payload <= MAX_PAYLOAD
        && (ENTRY_OVERHEAD + payload) as u64 <= length
        && start.iter().any(|byte| *byte != 0)
}
