//! An input that is read in pieces.
ghost use Rattle.std.specs.Prelude.{◌≡◌, [], IfErr, OnOk, OnErr};
ghost use Rattle.std.specs.Io.KnownBytes.{Consumes, IsAtEnd};
ghost use Rattle.audit_serve_sockets.specs.PieceInput.{bytes_at_hand, piece_remaining, TakesAtHand};

use crate::limits::PIECE_LEN;
use crate::line_streams::LineInput;
use crate::tried::TriedRead;
use audit_text::LinesError;

/// An input that is read in pieces, and whose bytes are taken one by one. It allocates nothing. A call of it fails only
/// if a read of the input did.
#[derive(Drop)]
pub struct PieceInput<'a, R> {
    input: &'a mut R,
    // The last piece that was read: the bytes from `next` to `end` aren't taken yet.
    piece: [u8; PIECE_LEN],
    next: usize,
    end: usize,
}

impl<'a, R: TriedRead> PieceInput<'a, R> {
    /// An input of which no byte was read yet.
    pub fn new(input: &'a mut R) -> PieceInput<'a, R>
        ensures { piece_remaining R.remaining result ≡ R.remaining input.old }
    {
        PieceInput {
            input,
            piece: [0; PIECE_LEN],
            next: 0,
            end: 0,
        }
    }

    // Takes the next byte of the piece.
    fn take_at_hand(&mut self) -> Option<u8>
        ensures taken { TakesAtHand (bytes_at_hand self.old) (bytes_at_hand self.new) result }
        ensures input { self.new.input ≡ self.old.input }
    {
        if self.next >= self.end {
            return None;
        }
        let byte = *self.piece.get(self.next)?;
        self.next += 1;
        Some(byte)
    }

    // Reads the next piece in place of the last one. It's empty at the end of the input alone.
    fn read_piece(&mut self) -> Result<(), LinesError>
        ensures read { OnOk result (Consumes (R.remaining self.old.input.now) (R.remaining self.new.input.now)
            (bytes_at_hand self.new)) }
        ensures end { OnOk result (bytes_at_hand self.new ≡ [] → IsAtEnd (R.remaining self.new.input.now)) }
        ensures fault { IfErr result (λ cause. cause ≡ LinesError.Read) }
        ensures unread { OnErr result (R.unread self.new.input.now) }
    {
        self.next = 0;
        self.end = match self.input.read_once(&mut self.piece) {
            Ok(end) => end,
            Err(_) => return Err(LinesError::Read),
        };
        Ok(())
    }
}

impl<R: TriedRead> LineInput for PieceInput<'_, R> {
    ghost use Rattle.audit_serve_sockets.specs.PieceInput.{piece_remaining};

    ghost remaining = { piece_remaining R.remaining };

    ghost failed = { λ pieces. R.unread pieces.input.now };

    fn next_byte(&mut self) -> Result<Option<u8>, LinesError> {
        match self.take_at_hand() {
            Some(byte) => Ok(Some(byte)),
            None => {
                self.read_piece()?;
                Ok(self.take_at_hand())
            }
        }
    }
}
