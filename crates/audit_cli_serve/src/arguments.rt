//! Arguments that are checked here rather than by the parser of the command line.
ghost use Rattle.std.specs.Prelude.{◌≡◌, ◌≤◌, IfOk, IfErr};
ghost use Rattle.audit_base.specs.declared.limits.TheConstants.{SESSIONS};
ghost use Rattle.audit_cli_serve.specs.Arguments.{rounds_asked, sessions_asked};

use audit_base::SESSIONS;
use audit_cli_base::CommandError;
use audit_text::number_in_text;

/// Parses a number of rounds: below 2^64, in 1 to 20 decimal digits. The only error is `BadArgument`.
pub fn rounds_asked(text: &str) -> Result<u64, CommandError>
    ensures asked { result ≡ rounds_asked text.now }
    ensures fault { IfErr result (λ fault. fault ≡ CommandError.BadArgument) }
{
    match number_in_text(text.as_bytes()) {
        Some(rounds) => Ok(rounds),
        None => Err(CommandError::BadArgument),
    }
}

/// Parses the number of sessions in a round: from 1 to 16, in at most 20 decimal digits. The only error is
/// `BadArgument`.
pub fn sessions_asked(text: &str) -> Result<usize, CommandError>
    ensures asked { result ≡ sessions_asked text.now }
    ensures few { IfOk result (λ sessions. (1 ≤ sessions) × (sessions ≤ SESSIONS)) }
    ensures fault { IfErr result (λ fault. fault ≡ CommandError.BadArgument) }
{
    match number_in_text(text.as_bytes()) {
        Some(sessions) if sessions >= 1 && sessions <= SESSIONS as u64 => Ok(sessions as usize),
        _ => Err(CommandError::BadArgument),
    }
}
