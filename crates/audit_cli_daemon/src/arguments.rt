//! Arguments that are judged here rather than by the parser of the command line.
ghost use Rattle.std.specs.Prelude.{◌≡◌, ◌≤◌, IfOk, IfErr};
ghost use Rattle.audit_serve_ready.specs.declared.limits.TheConstants.{MAX_BACKLOG};
ghost use Rattle.audit_cli_daemon.specs.Words.{backlog_asked, free_asked, free_kept};

use audit_cli_base::CommandError;
use audit_serve_ready::{DEFAULT_BACKLOG, MAX_BACKLOG};
use audit_text::number_in_text;

/// How many seconds a client may move no byte while another one waits, if the command line doesn't say.
pub const DEFAULT_IDLE: u64 = 60;

/// How many sectors stay free after the log, if the command line doesn't say: closing the log takes one.
pub const DEFAULT_RESERVE: u64 = 1;

/// Returns the number of bytes that a word asks to be kept for a client, or [`DEFAULT_BACKLOG`] without a word. The
/// word must be a number up to [`MAX_BACKLOG`], in at most 20 decimal digits. The only error is `BadArgument`.
pub fn backlog_asked(word: Option<&str>) -> Result<usize, CommandError>
    ensures asked { result ≡ backlog_asked word.entry }
    ensures most { IfOk result (λ bytes. bytes ≤ MAX_BACKLOG) }
    ensures fault { IfErr result (λ fault. fault ≡ CommandError.BadArgument) }
{
    let Some(word) = word else {
        return Ok(DEFAULT_BACKLOG);
    };
    match number_in_text(word.as_bytes()) {
        Some(bytes) if bytes <= MAX_BACKLOG as u64 => Ok(bytes as usize),
        _ => Err(CommandError::BadArgument),
    }
}

/// Returns the number of sectors that a word asks to stay free, if there is a word: a number in at most 20 decimal
/// digits. The only error is `BadArgument`.
pub(crate) fn free_asked(word: Option<&str>) -> Result<Option<u64>, CommandError>
    ensures asked { result ≡ free_asked word.entry }
    ensures fault { IfErr result (λ fault. fault ≡ CommandError.BadArgument) }
{
    let Some(word) = word else {
        return Ok(None);
    };
    match number_in_text(word.as_bytes()) {
        Some(sectors) => Ok(Some(sectors)),
        None => Err(CommandError::BadArgument),
    }
}

/// How many sectors events leave: the reserve, or more if more are to stay free.
pub(crate) fn free_kept(reserve: u64, until_free: Option<u64>) -> u64
    ensures { result ≡ free_kept reserve until_free }
{
    match until_free {
        Some(sectors) if reserve <= sectors => sectors,
        _ => reserve,
    }
}
