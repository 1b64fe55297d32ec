//! Beginning a witness's file for a log that goes on from another one.
ghost use Rattle.std.specs.Prelude.{◌≡◌, ◌⊎◌, ◌∷◌, ◌++◌, [], Some, take, IfOk, IfErr, IfSome, OnOk, OnErr};
ghost use Rattle.audit_proof.specs.declared.commitment.Commitment.{Commitment};
ghost use Rattle.audit_link.specs.LinkBytes.{SpellsLink};
ghost use Rattle.audit_link.specs.Links.{link_in};
ghost use Rattle.audit_cli_witness.specs.Beginning.{IsLinkedStart, IsUnlinked, IsNoLink};
ghost use Rattle.audit_cli_witness.specs.State.{line_after};
ghost use Rattle.audit_cli_witness.specs.StateFaults.{HasAddCause};

use crate::state_file::StateFile;
use crate::state_text::StateText;
use audit_cli_base::CommandError;
use audit_cli_connection::{RemoteError, no_memory};
use audit_link::{Link, LinkError, LinkJudgment, check_link, next_commitment, read_link};
use audit_proof::Commitment;
use audit_wire_ask::Kept;
use std::alloc::Global;

/// Returns the commitment to the first two entries of the log to which these bytes are a link, from the log that ended
/// with another commitment.
///
/// Errors: `BadProof` if the bytes are no link; `NotLinked`, with the half of the link that isn't so; memory.
pub fn linked_start(alloc: Global, old: &Commitment, link: &[u8]) -> Result<Commitment, RemoteError>
    ensures start { IfOk result (IsLinkedStart old.now link.now) }
    ensures fault { IfErr result (IsUnlinked old.now link.now) }
{
    let link = link_of(alloc, link)?;
    let start = next_commitment(&link);
    match check_link(alloc, &link, old, &start)? {
        LinkJudgment::Accepted => Ok(start),
        judgment => Err(RemoteError::NotLinked(judgment)),
    }
}

fn link_of(alloc: Global, bytes: &[u8]) -> Result<Link, RemoteError>
    ensures spelled { IfOk result (λ link. SpellsLink bytes.now (link_in link)) }
    ensures fault { IfErr result (IsNoLink bytes.now) }
{
    match read_link(alloc, bytes) {
        Ok(link) => Ok(link),
        Err(LinkError::BadLink) => Err(RemoteError::Command(CommandError::BadProof)),
        Err(LinkError::Memory) => Err(no_memory()),
    }
}

/// Begins the file of a witness with the commitment to the first two entries of its log, which a link joins to the last
/// commitment of the log before.
///
/// Errors: those of [`linked_start`], after which nothing is added. If the link is accepted, only those of adding a line:
/// a call of the file failed, or memory was refused.
pub fn begin_after<T: StateText>(
    alloc: Global,
    old: &Commitment,
    link: &[u8],
    state: &mut StateFile<T>,
) -> Result<(), RemoteError>
    ensures begun { OnOk result ((start : Commitment) × IsLinkedStart old.now link.now start
        × (state.new.kept.items ≡ state.old.kept.items ++ start ∷ [])
        × T.synced state.new.file state.old.end (line_after state.old.lacks_feed start)) }
    ensures part { OnErr result ((state.new.kept.items ≡ state.old.kept.items) ⊎ ((start : Commitment)
        × IsLinkedStart old.now link.now start × (state.new.kept.items ≡ state.old.kept.items ++ start ∷ []))) }
    ensures written { OnOk result (IfSome (T.text state.old.file) (λ bytes. (start : Commitment)
        × IsLinkedStart old.now link.now start
        × (T.text state.new.file ≡ Some (take state.old.end bytes ++ line_after state.old.lacks_feed start)))) }
    // A link that isn't accepted has its own error, and one that is has none.
    ensures fault { IfErr result (λ fault. IsUnlinked old.now link.now fault
        ⊎ ((start : Commitment) × IsLinkedStart old.now link.now start
        × HasAddCause (T.failed state.new.file) state.old.end state.old.lacks_feed start fault)) }
{
    let start = linked_start(alloc, old, link)?;
    state.add(&start)
}
