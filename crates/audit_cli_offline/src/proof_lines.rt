//! What a proof is about, as a line.
ghost use Rattle.std.specs.Prelude.{◌≡◌, ◌++◌, OnOk};
ghost use Rattle.audit_proof.specs.ProofBytes.{member_in, increment_in};
ghost use Rattle.audit_cli_offline.specs.ProofLines.{head_text, member_line, increment_line, proof_line, is_one_entry};

use crate::checking::Proof;
use audit_base::{ENTRY_OVERHEAD, u32_at};
use audit_chain::stated_length;
use audit_proof::{IncrementProof, MemberProof};
use audit_text::push_number;
use std::alloc::AllocError;

/// Appends a line with what a proof is about: of a membership proof its index and count, and the kind and the number of
/// the payload's bytes that its entry states (dashes if its bytes aren't one whole entry); of an incremental proof its
/// two counts. The only error is that memory is refused.
pub fn push_proof(line: &mut Vec<u8>, proof: &Proof) -> Result<(), AllocError>
    ensures { OnOk result (line.new.items ≡ line.old.items ++ proof_line proof.now) }
{
    match proof {
        Proof::Member(member) => push_member(line, member),
        Proof::Increment(increment) => push_increment(line, increment),
    }
}

#[tactic(auto, unfolding(crate::specs::ProofLines::member_line))]
fn push_member(line: &mut Vec<u8>, proof: &MemberProof) -> Result<(), AllocError>
    ensures { OnOk result (line.new.items ≡ line.old.items ++ member_line (member_in proof.now)) }
{
    push_number(line, b"index ", proof.index)?;
    push_number(line, b" count ", proof.count)?;
    push_head(line, &proof.entry)?;
    line.extend_from_slice(b"\n")
}

#[tactic(auto, unfolding(crate::specs::ProofLines::increment_line))]
fn push_increment(line: &mut Vec<u8>, proof: &IncrementProof) -> Result<(), AllocError>
    ensures { OnOk result (line.new.items ≡ line.old.items ++ increment_line (increment_in proof.now)) }
{
    push_number(line, b"older ", proof.older)?;
    push_number(line, b" newer ", proof.newer)?;
    line.extend_from_slice(b"\n")
}

// Appends the kind and the number of the payload's bytes that an entry states.
#[tactic(auto, unfolding(audit_chain::specs::EntryForm::stated_length))]
fn push_head(line: &mut Vec<u8>, entry: &[u8]) -> Result<(), AllocError>
    ensures { OnOk result (line.new.items ≡ line.old.items ++ head_text entry.now) }
{
    if !is_one_entry(entry) {
        return line.extend_from_slice(b" kind - bytes -");
    }
    push_number(line, b" kind ", u64::from(u32_at(entry, 0)))?;
    push_number(line, b" bytes ", stated_length(entry) as u64)
}

// Whether bytes are one entry, as long as its head states.
#[tactic(auto, unfolding(audit_chain::specs::EntryForm::stated_length))]
fn is_one_entry(entry: &[u8]) -> bool
    ensures { result ≡ is_one_entry entry.now }
{
    entry.len() >= ENTRY_OVERHEAD && entry.len() == ENTRY_OVERHEAD + stated_length(entry)
}
