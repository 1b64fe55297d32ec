//! Arguments that are checked here, not by the command line's parser.
ghost use Rattle.std.specs.Prelude.{◌≡◌, Some, None, Ok, Err, IfSome, IfOk, IfErr};
ghost use Rattle.audit_cli_offline.specs.CommitmentWord.{commitment_in_word};
ghost use Rattle.audit_cli_base.specs.Arguments.{number_asked, sectors_asked, proof_asked, commitment_asked};
ghost use Rattle.audit_cli_base.specs.Arguments.{IsNewFileFault, IsNoMode, AreNoCommitments, IsCommitmentAsked};
ghost use Rattle.audit_cli_base.specs.Mode.{IsMode};
ghost use Rattle.audit_disk.specs.declared.files.TheConstants.{OWNER_ONLY};

use crate::fault::CommandError;
use crate::mode::mode_asked;
use audit_cli_offline::commitment_in_word;
use audit_disk::OWNER_ONLY;
use audit_log::{MAX_SECTORS, MIN_SECTORS};
use audit_proof::Commitment;
use audit_store::StoreError;
use audit_text::number_in_text;

/// The requested proof.
#[derive(Clone, Copy)]
pub enum ProofRequest {
    /// A membership (inclusion) proof: the event of this index is one of the first `count` events.
    Member {
        /// The event's index, counting from 0.
        index: u64,
        /// The number of events.
        count: u64,
    },
    /// An incremental (consistency) proof: the first `newer` events begin with the first `older` events.
    Increment {
        /// The count of the older commitment.
        older: u64,
        /// The count of the newer commitment.
        newer: u64,
    },
}

/// The number in a word, or `fallback` if there is no word. The word must be a number below 2^64, in 1 to 20 decimal
/// digits. The only error is `BadArgument`.
pub fn number_asked(word: Option<&str>, fallback: u64) -> Result<u64, CommandError>
    ensures asked { result ≡ number_asked word.entry fallback }
    ensures fault { IfErr result (λ fault. fault ≡ CommandError.BadArgument) }
{
    let Some(word) = word else {
        return Ok(fallback);
    };
    match number_in_text(word.as_bytes()) {
        Some(number) => Ok(number),
        None => Err(CommandError::BadArgument),
    }
}

/// The number of sectors that a word requests: 1 to 20 decimal digits, and a number that a store can have. Errors:
/// `BadArgument` if the word has another form, `BadSize` if no store can have this number.
pub fn sectors_asked(text: &str) -> Result<u64, CommandError>
    ensures { result ≡ sectors_asked text.now }
{
    let Some(sectors) = number_in_text(text.as_bytes()) else {
        return Err(CommandError::BadArgument);
    };
    if sectors < MIN_SECTORS || sectors > MAX_SECTORS {
        return Err(CommandError::Refused(StoreError::BadSize));
    }
    Ok(sectors)
}

/// The proof that three words request: `member` with an index and a count, or `increment` with an older and a newer
/// count. Each number is 1 to 20 decimal digits and below 2^64. The counts aren't checked here.
pub fn proof_request(kind: &str, first: &str, second: &str) -> Option<ProofRequest>
    ensures { result ≡ proof_asked kind.now first.now second.now }
{
    let first = number_in_text(first.as_bytes())?;
    let second = number_in_text(second.as_bytes())?;
    if kind == "member" {
        return Some(ProofRequest::Member {
            index: first,
            count: second,
        });
    }
    if kind == "increment" {
        return Some(ProofRequest::Increment {
            older: first,
            newer: second,
        });
    }
    None
}

/// The commitment in a word: a count, a colon and the 64 hex digits of a root. Any other word is `BadArgument`.
pub fn commitment_asked(word: &str) -> Result<Commitment, CommandError>
    ensures asked { result ≡ commitment_asked word.now }
    ensures fault { IfErr result (λ fault. fault ≡ CommandError.BadArgument) }
{
    match commitment_in_word(word.as_bytes()) {
        Some(commitment) => Ok(commitment),
        None => Err(CommandError::BadArgument),
    }
}

/// Parses the permissions and the number of sectors for a new file. The permissions are checked first. Without a word
/// for them only the owner has access.
pub fn new_file_asked(mode: Option<&str>, sectors: &str) -> Result<(u32, u64), CommandError>
    ensures wrong { (fault : CommandError) → IsNewFileFault mode.entry sectors.now fault → result ≡ Err fault }
    ensures owner { mode.entry ≡ None → IfOk result (λ asked. asked.0 ≡ OWNER_ONLY) }
    ensures mode { IfOk result (λ asked. IfSome mode.entry (λ word. IsMode word.now asked.0)) }
    ensures sectors { IfOk result (λ asked. sectors_asked sectors.now ≡ Ok asked.1) }
    ensures fault { IfErr result (λ fault. IsNewFileFault mode.entry sectors.now fault) }
{
    let mode = match mode {
        Some(word) => mode_asked(word)?,
        None => OWNER_ONLY,
    };
    Ok((mode, sectors_asked(sectors)?))
}

/// The permissions of a socket's file that a word asks for. Without a word only the owner has access. The only error is
/// `BadArgument`, exactly if the word gives no permissions.
pub fn socket_mode_asked(word: Option<&str>) -> Result<u32, CommandError>
    ensures none { word.entry ≡ None → result ≡ Ok OWNER_ONLY }
    ensures mode { IfOk result (λ mode. IfSome word.entry (λ word. IsMode word.now mode)) }
    ensures wrong { IsNoMode word.entry → result ≡ Err CommandError.BadArgument }
    ensures fault { IfErr result (λ fault. (fault ≡ CommandError.BadArgument) × IsNoMode word.entry) }
{
    match word {
        Some(word) => mode_asked(word),
        None => Ok(OWNER_ONLY),
    }
}

/// Parses one or two commitments. If one of the words isn't a commitment, the error is `BadArgument`.
pub fn commitments_asked(
    older: &str,
    newer: Option<&str>,
) -> Result<(Commitment, Option<Commitment>), CommandError>
    ensures wrong { AreNoCommitments older.now newer.entry → result ≡ Err CommandError.BadArgument }
    ensures older { IfOk result (λ asked. commitment_in_word older.now ≡ Some asked.0) }
    ensures newer { IfOk result (λ asked. IsCommitmentAsked newer.entry asked.1) }
    ensures fault { IfErr result (λ fault. (fault ≡ CommandError.BadArgument)
        × AreNoCommitments older.now newer.entry) }
{
    let older = commitment_asked(older)?;
    let newer = match newer {
        Some(word) => Some(commitment_asked(word)?),
        None => None,
    };
    Ok((older, newer))
}
