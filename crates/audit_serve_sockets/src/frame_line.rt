ghost use Rattle.std.specs.Prelude.{◌≡◌, IfOk, option_map};
ghost use Rattle.audit_serve_sockets.specs.FrameLine.{bytes_of_line};

use crate::limits::MAX_DIGITS;
use hex::FromHexError;
use std::alloc::{AllocError, Global};

/// Returns the bytes of a line of hex digits in either case, two for each byte. Returns none if the line has other
/// characters, or more than [`MAX_DIGITS`]. An empty line has no bytes. The only error is that memory is refused.
#[tactic(auto, unfolding(crate::specs::FrameLine::bytes_of_line))]
pub fn bytes_of_line(alloc: Global, line: &[u8]) -> Result<Option<Vec<u8>>, AllocError>
    ensures { IfOk result (λ bytes. option_map (λ list. list.items) bytes ≡ bytes_of_line line.now) }
{
    if line.len() > MAX_DIGITS {
        return Ok(None);
    }
    match hex::decode(alloc, line) {
        Ok(bytes) => Ok(Some(bytes)),
        Err(FromHexError::OutOfMemory) => Err(AllocError),
        Err(
            FromHexError::InvalidHexCharacter { .. }
            | FromHexError::OddLength
            | FromHexError::InvalidStringLength,
        ) => Ok(None),
    }
}
