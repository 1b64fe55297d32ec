//! Names of logs.
ghost use Rattle.std.specs.Prelude.{◌≡◌};
ghost use Rattle.std.specs.List.{list_all};
ghost use Rattle.audit_note.specs.NoteText.{is_name_byte, is_log_name};

/// The most bytes of a name.
pub const MAX_NAME: usize = 255;

/// Whether a word is a name of a log: 1 to `MAX_NAME` bytes of ASCII, each one that is printed and no space.
pub fn is_log_name(word: &[u8]) -> bool
    ensures { result ≡ is_log_name word.now }
{
    !word.is_empty() && word.len() <= MAX_NAME && has_name_bytes(word)
}

fn has_name_bytes(word: &[u8]) -> bool
    ensures { result ≡ list_all is_name_byte word.now }
{
    word.iter().all(|byte| *byte >= b'!' && *byte <= b'~')
}
