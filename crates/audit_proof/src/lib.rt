//! Proofs about a history tree, as an auditor uses them. An auditor checks whether a membership (inclusion) or an
//! incremental (consistency) proof is accepted under a commitment. If two accepted proofs disagree, under one
//! commitment or under two that an increment joins, the auditor obtains two different texts with one digest. The bytes
//! of both kinds of proof are encoded and decoded here too.
#![tactic(auto)]

mod accept;
mod bytes;
mod climb;
mod codec;
mod collision;
mod collision_across;
mod commitment;
mod increment_proof;
pub mod laws;
mod meeting;
mod member_proof;
mod shared_node;
mod side;
mod steps;

pub use accept::{accepts_increment, accepts_member, root_of_membership, roots_of_increment};
pub use audit_base::{MAX_ENTRY, MAX_INCREMENT_HASHES, MAX_MEMBER_HASHES};
pub use codec::{ProofError, read_increment, read_member, write_increment, write_member};
pub use collision::{CollideFault, Collision, collide_two};
pub use collision_across::collide_three;
pub use commitment::Commitment;
pub use increment_proof::IncrementProof;
pub use member_proof::MemberProof;
