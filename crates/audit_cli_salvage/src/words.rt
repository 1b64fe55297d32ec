//! The words of a search. They are judged before anything is opened.
ghost use Rattle.std.specs.Prelude.{◌≡◌, ◌≢◌, ◌⊎◌, Some, None, Ok, Err, [], IfOk, IfErr, IfSome, OnErr};
ghost use Rattle.audit_cli_offline.specs.CommitmentWord.{commitment_in_word};
ghost use Rattle.audit_cli_salvage.specs.SalvageWords.{beyond_asked, HasWrongSalvageWord, IsUnderAsked, LacksUnder};

use audit_cli_base::{CommandError, commitment_asked, number_asked};
use audit_proof::Commitment;

/// The most entries of a hole behind which entries are found, if no word says otherwise.
pub const WITHIN: u64 = 65_536;

/// What is asked of a search, with the words of the command line as given.
#[derive(Clone, Copy)]
pub struct Salvaging<'a> {
    /// The file with the store.
    pub file: &'a str,
    /// The file with the log's first key.
    pub key_file: &'a str,
    /// The file for what is found, which is replaced; `-` for standard output. It can't be the store's.
    pub out: &'a str,
    /// How many entries a hole may have at most, so that those behind it are found: at least 1.
    pub within: Option<&'a str>,
    /// The commitment under which the proofs are accepted.
    pub under: Option<&'a str>,
    /// The files with inclusion proofs.
    pub proofs: &'a [&'a str],
}

/// What the words of a search say.
#[derive(Clone, Copy, Drop)]
pub(crate) struct SalvageWords {
    /// How many indices are tried for an entry behind a hole, after the least one.
    pub(crate) beyond: u64,
    /// The commitment under which proofs are accepted.
    pub(crate) under: Option<Commitment>,
}

/// Judges the words of a search. The only error is `BadArgument`.
pub(crate) fn salvage_words(asked: Salvaging<'_>) -> Result<SalvageWords, CommandError>
    ensures beyond { IfOk result (λ words. beyond_asked asked.entry.within ≡ Ok words.beyond) }
    ensures under { IfOk result (λ words. IsUnderAsked asked.entry.under asked.entry.proofs.now words.under) }
    ensures wrong { HasWrongSalvageWord asked.entry → result ≡ Err CommandError.BadArgument }
    ensures fault { IfErr result (λ fault. (fault ≡ CommandError.BadArgument) × HasWrongSalvageWord asked.entry) }
{
    let within = number_asked(asked.within, WITHIN)?;
    if within == 0 {
        return Err(CommandError::BadArgument);
    }
    let under = under_asked(asked.under, asked.proofs)?;
    Ok(SalvageWords {
        beyond: within - 1,
        under,
    })
}

// The commitment for proofs, if there is a word for it.
fn under_asked(word: Option<&str>, proofs: &[&str]) -> Result<Option<Commitment>, CommandError>
    ensures under { IfOk result (IsUnderAsked word.entry proofs.now) }
    ensures fault { IfErr result (λ fault. (fault ≡ CommandError.BadArgument) × LacksUnder word.entry proofs.now) }
{
    match word {
        Some(word) => Ok(Some(commitment_asked(word)?)),
        None if proofs.is_empty() => Ok(None),
        None => Err(CommandError::BadArgument),
    }
}
