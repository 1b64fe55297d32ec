//! Key files.
ghost use Rattle.std.specs.Prelude.{◌≡◌, Some, None, Err, IfOk, IfErr, IfSome};
ghost use Rattle.audit_text.specs.Reading.{TakesAtMost};
ghost use Rattle.audit_cli_base.specs.KeyFile.{key_of_file, without_line_feed, HasNoKeyAt, IsKeyAt, IsKeyFault};
ghost use Rattle.audit_cli_base.specs.KeyFile.{IsKeyFaultAt};

use crate::fault::CommandError;
use audit_chain::{KEY_LEN, Key};
use audit_disk::{SystemFile, SystemFiles};
use audit_text::{INPUT_LIMIT, LinesError, read_input};
use hex::FromHex;
use std::alloc::Global;
use std::io::Read;

/// Parses the key in a key file: 64 hex digits in either case, optionally followed by a line feed.
pub fn key_of_file(text: &[u8]) -> Option<Key>
    ensures { result ≡ key_of_file text.now }
{
    match <[u8; KEY_LEN]>::from_hex(without_line_feed(text)) {
        Ok(bytes) => Some(Key::from_bytes(bytes)),
        Err(_) => None,
    }
}

// The text without a line feed at its end.
fn without_line_feed(text: &[u8]) -> &[u8]
    ensures { result.now ≡ without_line_feed text.now }
{
    match text.strip_suffix(b"\n") {
        Some(front) => front,
        None => text,
    }
}

/// Reads the key in a key file. The error is `BadArgument` if the file doesn't have a key. Otherwise it fails only if
/// a read failed or memory was refused.
pub fn read_key<R: Read>(alloc: Global, reader: &mut R) -> Result<Key, CommandError>
    ensures key { IfOk result (λ key. IfSome (R.remaining reader.old) (λ text. key_of_file text ≡ Some key)) }
    ensures fault { IfErr result (IsKeyFault (R.remaining reader.old)) }
{
    match read_input(alloc, reader) {
        Ok(text) => key_of_file(&text).ok_or(CommandError::BadArgument),
        Err(LinesError::InputTooLong) => Err(CommandError::BadArgument),
        Err(fault) => Err(CommandError::Lines(fault)),
    }
}

/// Reads the key in the key file at a path. The error is `File` if it can't be opened, or that of `read_key`.
pub fn key_at<F: SystemFiles>(rt: &F, alloc: Global, path: &str) -> Result<Key, CommandError>
where
    F::File: SystemFile,
    ensures key { IfOk result (IsKeyAt F.File.facts F.File.remaining path.now) }
    ensures bad { result ≡ Err CommandError.BadArgument → HasNoKeyAt F.File.facts F.File.remaining path.now }
    ensures fault { IfErr result (IsKeyFaultAt F.File.facts F.File.remaining (F.failed rt.now) path.now) }
{
    let mut file = rt.open_to_read(path)?;
    read_key(alloc, &mut file)
}
