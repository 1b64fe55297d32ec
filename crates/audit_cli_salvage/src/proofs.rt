//! Inclusion proofs of entries that a search may find.
ghost use Rattle.std.specs.Prelude.{◌≡◌, ◌++◌, ◌∷◌, [], ◌↔◌, IfOk, IfErr, IfSome, OnOk, IsTrue};
ghost use Rattle.audit_cli_base.specs.Faults.{IsNoWordFault};
ghost use Rattle.audit_cli_salvage.specs.SalvageWords.{ShowsLeaf, ShowsLeafAt, ShowLeavesAt};
ghost use Rattle.audit_cli_salvage.specs.SalvageWords.{IsAcceptedUnder, IsLeafFault};
ghost use Rattle.audit_proof.specs.ProofBytes.{member_in};
ghost use Rattle.audit_chain.specs.EntryForm.{EntryParts, bytes_of_parts};
ghost use Rattle.audit_cli_salvage.specs.Pieces.{shows, is_shown};

use audit_base::{Hash, is_same_hash};
use audit_cli_base::CommandError;
use audit_disk::{SystemFile, SystemFiles};
use audit_proof::{Commitment, MemberProof, accepts_member, read_member};
use audit_text::read_input;
use audit_tree::leaf_hash;
use std::alloc::{AllocError, Global};
use std::io::Read;

/// What an accepted inclusion proof shows.
#[derive(Clone, Copy, Drop)]
pub struct ProvedLeaf {
    /// The index of its entry.
    pub index: u64,
    /// The leaf of its entry in the history tree.
    pub leaf: Hash,
}

/// Whether one of the proofs shows this entry with this index.
pub(crate) fn is_shown(proofs: &[ProvedLeaf], index: u64, entry: &[u8]) -> bool
    ensures { (parts : EntryParts) → entry.now ≡ bytes_of_parts parts → result ≡ is_shown proofs.now index parts }
{
    for proved in proofs {
        if shows(proved, index, entry) {
            return true;
        }
    }
    false
}

// Whether a proof shows this entry with this index.
fn shows(proved: &ProvedLeaf, index: u64, entry: &[u8]) -> bool
    ensures { (parts : EntryParts) → entry.now ≡ bytes_of_parts parts → result ≡ shows proved.now index parts }
{
    proved.index == index && is_same_hash(&proved.leaf, &leaf_hash(entry))
}

/// Reads an inclusion proof, and returns what it shows. Errors: `BadProof` if the input is none, `NotAccepted` if it
/// isn't accepted under the commitment; otherwise reading failed, or memory was refused.
pub fn proved_leaf<R: Read>(
    alloc: Global,
    reader: &mut R,
    commitment: &Commitment,
) -> Result<ProvedLeaf, CommandError>
    ensures shown { IfOk result (λ proved. IfSome (R.remaining reader.old)
        (λ bytes. ShowsLeaf commitment.now bytes proved)) }
    ensures fault { IfErr result (λ fault. IfSome (R.remaining reader.old)
        (λ bytes. IsLeafFault commitment.now bytes fault)) }
    ensures words { IfErr result IsNoWordFault }
{
    let bytes = read_input(alloc, reader)?;
    let proof = read_member(alloc, &bytes)?;
    if !is_accepted(commitment, &proof) {
        return Err(CommandError::NotAccepted);
    }
    Ok(ProvedLeaf {
        index: proof.index,
        leaf: leaf_hash(&proof.entry),
    })
}

// Whether a proof is one for the commitment's count, and accepted under it.
fn is_accepted(commitment: &Commitment, proof: &MemberProof) -> bool
    ensures { IsTrue result ↔ IsAcceptedUnder commitment.now (member_in proof.now) }
{
    proof.count == commitment.count
        && accepts_member(commitment, proof.index, &proof.entry, &proof.hashes)
}

/// Reads the proofs in the files at these paths, in order. The errors are those of `proved_leaf`, or `File` if a file
/// can't be opened.
pub(crate) fn proofs_at<F: SystemFiles>(
    rt: &F,
    alloc: Global,
    commitment: &Commitment,
    paths: &[&str],
) -> Result<Vec<ProvedLeaf>, CommandError>
where
    F::File: SystemFile,
    ensures shown { IfOk result (λ proofs. ShowLeavesAt F.File.facts F.File.remaining commitment.now paths.now
        proofs.items) }
    ensures words { IfErr result IsNoWordFault }
{
    let mut proofs = Vec::new(alloc);
    for path in paths {
        let proved = proof_at(rt, alloc, commitment, path)?;
        push_proved(&mut proofs, proved)?;
    }
    Ok(proofs)
}

fn push_proved(proofs: &mut Vec<ProvedLeaf>, proved: ProvedLeaf) -> Result<(), AllocError>
    ensures { OnOk result (proofs.new.items ≡ proofs.old.items ++ proved ∷ []) }
{
    match proofs.push(proved) {
        Ok(()) => Ok(()),
        Err(_) => Err(AllocError),
    }
}

fn proof_at<F: SystemFiles>(
    rt: &F,
    alloc: Global,
    commitment: &Commitment,
    path: &str,
) -> Result<ProvedLeaf, CommandError>
where
    F::File: SystemFile,
    ensures shown { IfOk result (ShowsLeafAt F.File.facts F.File.remaining commitment.now path.now) }
    ensures words { IfErr result IsNoWordFault }
{
    let mut file = rt.open_to_read(path)?;
    proved_leaf(alloc, &mut file, commitment)
}
