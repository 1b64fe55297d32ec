ghost use Rattle.std.specs.Prelude.{◌≡◌, ◌<◌, ◌≤◌, ◌+◌, [], length, vec_len, IfOk, OnOk, OnErr, IfErr, IfSome};
ghost use Rattle.std.specs.Io.KnownBytes.{Keeps};
ghost use Rattle.audit_text.specs.Reading.{TakesPiece, TakesAtMost, IsReadingFault};

use crate::fault::LinesError;
use std::alloc::{AllocError, Global};
use std::io::Read;

/// The most bytes of an input.
pub const INPUT_LIMIT: usize = 1 << 24;

// The most bytes read at a time.
const PIECE_LEN: usize = 1 << 16;

/// Reads the whole input, but at most `INPUT_LIMIT` bytes and one more: an input with that extra byte is too long.
pub fn read_input<R: Read>(alloc: Global, reader: &mut R) -> Result<Vec<u8>, LinesError>
    ensures within { IfOk result (λ input. length input.items ≤ INPUT_LIMIT) }
    ensures whole { IfOk result (λ input. IfSome (R.remaining reader.old) (λ bytes. bytes ≡ input.items)) }
    ensures fault { IfErr result (λ fault. IsReadingFault fault (R.remaining reader.old)) }
    ensures taken { TakesAtMost (R.remaining reader.old) (R.remaining reader.new) (INPUT_LIMIT + 1) }
{
    let mut piece = new_piece(alloc)?;
    let mut input = Vec::new(alloc);
    read_to_end(reader, &mut piece, &mut input)?;
    Ok(input)
}

fn new_piece(alloc: Global) -> Result<Vec<u8>, AllocError>
    ensures { IfOk result (λ piece. vec_len piece ≡ PIECE_LEN) }
{
    vec![in alloc; 0; PIECE_LEN]
}

// Reads pieces until the reader ends or the input is too long.
fn read_to_end<R: Read>(
    reader: &mut R,
    piece: &mut [u8],
    input: &mut Vec<u8>,
) -> Result<(), LinesError>
    requires room { length piece.old ≡ PIECE_LEN }
    requires empty { input.old.items ≡ [] }
    ensures within { OnOk result (length input.new.items ≤ INPUT_LIMIT) }
    ensures whole { OnOk result (IfSome (R.remaining reader.old) (λ bytes. bytes ≡ input.new.items)) }
    ensures fault { IfErr result (λ fault. IsReadingFault fault (R.remaining reader.old)) }
    ensures taken { TakesAtMost (R.remaining reader.old) (R.remaining reader.new) (INPUT_LIMIT + 1) }
{
    for _ in 0..u64::MAX {
        let room = (INPUT_LIMIT + 1 - input.len()).min(PIECE_LEN);
        let taken = read_piece(reader, &mut piece[..room])?;
        if taken == 0 {
            return Ok(());
        }
        input.extend_from_slice(&piece[..taken])?;
        if input.len() > INPUT_LIMIT {
            return Err(LinesError::InputTooLong);
        }
    }
    Err(LinesError::Read)
}

// Reads once. Any error is a fault.
fn read_piece<R: Read>(reader: &mut R, piece: &mut [u8]) -> Result<usize, LinesError>
    ensures taken { IfOk result (λ taken. TakesPiece (R.remaining reader.old)
        (R.remaining reader.new) taken piece.new) }
    ensures kept { OnErr result (Keeps (R.remaining reader.old) (R.remaining reader.new)) }
    ensures fault { IfErr result (λ fault. fault ≡ LinesError.Read) }
{
    match reader.read(piece) {
        Ok(taken) => Ok(taken),
        Err(_) => Err(LinesError::Read),
    }
}
