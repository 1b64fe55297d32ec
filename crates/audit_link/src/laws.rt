//! Laws of links. Each function does nothing: its contract is the law, which may stand on another one.
ghost use Rattle.std.specs.Prelude.{◌≡◌, ◌⊎◌, ◌≤◌, ℕ, List, length};
ghost use Rattle.audit_proof.specs.declared.commitment.Commitment.{Commitment};
ghost use Rattle.audit_proof.specs.SoundCommitment.{IsSoundCommitment};
ghost use Rattle.audit_proof.specs.TreesCollide.{TreesCollide};
ghost use Rattle.audit_link.specs.declared.kind_count.KindCount.{KindCount};
ghost use Rattle.audit_link.specs.Counts.{AreCounts};
ghost use Rattle.audit_link.specs.CountsText.{SpellsCounts, counts_text};
ghost use Rattle.audit_link.specs.Links.{LinkData, entries_in, commitment_event, counts_event};
ghost use Rattle.audit_link.specs.LinkBytes.{SpellsLink};
ghost use Rattle.audit_link.specs.Accepted.{AcceptsLink, SaysCounts, ShowTwoTexts};

/// A log goes on from one log alone, and says one list of numbers: two links to one log that are accepted have one old
/// commitment, and say the same numbers. Otherwise the SHA-256 of a node or a leaf of the new log's tree is that of two
/// texts, or one entry reads as two events under two keys.
pub fn logs_go_on_from_one()
    ensures commitment { (old other new : Commitment) (link another : LinkData)
        → IsSoundCommitment old → IsSoundCommitment other → AcceptsLink old new link → AcceptsLink other new another
        → (old ≡ other) ⊎ (TreesCollide (entries_in link) (entries_in another)
        ⊎ ShowTwoTexts link.first another.first (commitment_event old) (commitment_event other)) }
    ensures counts { (old other new : Commitment) (link another : LinkData) (counts others : List KindCount)
        → SaysCounts old new link counts → SaysCounts other new another others
        → (counts ≡ others) ⊎ (TreesCollide (entries_in link) (entries_in another)
        ⊎ ShowTwoTexts link.second another.second (counts_event counts) (counts_event others)) }
{}

/// Bytes are those of at most one link, and a text that of at most one list of numbers, which has at most 32,015 bytes.
pub fn links_have_one_reading()
    ensures link { (bytes : List ℕ) (link another : LinkData) → SpellsLink bytes link → SpellsLink bytes another
        → link ≡ another }
    ensures counts { (text : List ℕ) (counts others : List KindCount) → SpellsCounts text counts
        → SpellsCounts text others → counts ≡ others }
    ensures short { (counts : List KindCount) → AreCounts counts → length (counts_text counts) ≤ 32015 }
{}
