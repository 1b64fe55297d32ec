//! The permissions of a new file.
ghost use Rattle.std.specs.Prelude.{◌≡◌, ℕ, Some, IfOk, IfErr, Ok, bit_and};
ghost use Rattle.std.specs.Option.{option_map};
ghost use Rattle.audit_cli_base.specs.Mode.{IsMode, mode_digits};

use crate::fault::CommandError;
use audit_disk::OWNER_ONLY;

/// Reading and writing for everyone.
const ANYONE: u32 = 0o666;

/// Who may read and write a file that a command writes.
#[derive(Clone, Copy)]
pub(crate) enum Readers {
    /// Those who may by the file that it replaces, or by the system's habit.
    AsReplaced,
    /// Its owner alone.
    Owner,
}

/// The permissions of a file for these readers that replaces one with this mode, if there is one. `None` leaves them to
/// the system.
pub(crate) fn mode_for(readers: Readers, replaced: Option<u32>) -> Option<u32>
    ensures owner { readers ≡ Readers.Owner → result ≡ Some 0o600 }
    ensures replaced { readers ≡ Readers.AsReplaced → result
        ≡ option_map (λ mode. bit_and mode 0o666) replaced }
{
    match (readers, replaced) {
        (Readers::Owner, _) => Some(OWNER_ONLY),
        (Readers::AsReplaced, Some(mode)) => Some(replacing_mode(mode)),
        (Readers::AsReplaced, None) => None,
    }
}

// The permissions of a file that replaces one with the mode `replaced`: at most those, and never more than reading and
// writing. So nobody executes what was written, and no bit changes the user or the group of a program.
fn replacing_mode(replaced: u32) -> u32
    ensures { result ≡ bit_and replaced 0o666 }
{
    replaced & ANYONE
}

/// The permissions in a word: three octal digits, as in POSIX's `chmod`, of which the first is 6, because the owner
/// reads and writes. A zero may stand before them. Any other word is `BadArgument`.
pub fn mode_asked(text: &str) -> Result<u32, CommandError>
    ensures mode { IfOk result (IsMode text.now) }
    ensures every { (mode : ℕ) → IsMode text.now mode → result ≡ Ok mode }
    ensures fault { IfErr result (λ fault. fault ≡ CommandError.BadArgument) }
{
    let digits = mode_digits(text.as_bytes());
    if digits.len() != 3 || digits[0] != b'6' {
        return Err(CommandError::BadArgument);
    }
    let (group, others) = (digits[1], digits[2]);
    if group < b'0' || group > b'7' || others < b'0' || others > b'7' {
        return Err(CommandError::BadArgument);
    }
    Ok(OWNER_ONLY + 8 * (group - b'0') as u32 + (others - b'0') as u32)
}

// The digits of a word for permissions, without a zero before three others.
fn mode_digits(word: &[u8]) -> &[u8]
    ensures { result.now ≡ mode_digits word.now }
{
    if word.len() == 4 && word[0] == b'0' {
        &word[1..]
    } else {
        word
    }
}
