use hex::FromHexError;
use std::alloc::{AllocError, AllocFailed};
use std::fmt::{Display, Formatter, Write};
use std::{error, fmt};
use thiserror::Error;

/// What is wrong with a line of input.
#[derive(Clone, Copy, Debug, Drop, PartialEq, Eq)]
pub enum LineError {
    /// The first line isn't `key`, a space and 64 hexadecimal digits.
    BadKeyLine,
    /// A later line isn't `event`, a decimal kind and a payload in hexadecimal digits.
    BadEventLine,
    /// The kind of the event is the reserved one.
    ReservedKind,
    /// The payload is longer than an event allows.
    PayloadTooLong,
}

impl LineError {
    /// The text printed for it.
    pub fn name(self) -> &'static str {
        match self {
            LineError::BadKeyLine => "bad key line",
            LineError::BadEventLine => "bad event line",
            LineError::ReservedKind => "reserved kind",
            LineError::PayloadTooLong => "payload too long",
        }
    }
}

impl Display for LineError {
    fn fmt<W: Write>(&self, f: &mut Formatter<W>) -> fmt::Result {
        f.write_str(self.name())
    }
}

impl error::Error for LineError {}

/// Why a line has no event.
#[derive(Clone, Copy, Debug, Drop, Error, PartialEq, Eq)]
pub enum ParseError {
    /// The line is wrong.
    #[error(transparent)]
    Fault(LineError),
    /// Memory was refused.
    #[error("out of memory")]
    Memory,
}

impl From<FromHexError> for ParseError {
    ghost use Rattle.std.specs.Prelude.{◌≡◌};
    ghost use Rattle.audit_text.specs.HexErrors.{error_of_hex};

    ghost from_gives = { λ error given. given ≡ error_of_hex error };

    fn from(error: FromHexError) -> Self {
        match error {
            FromHexError::OutOfMemory => ParseError::Memory,
            FromHexError::InvalidHexCharacter { .. }
            | FromHexError::OddLength
            | FromHexError::InvalidStringLength => ParseError::Fault(LineError::BadEventLine),
        }
    }
}

/// Why lines weren't read or written. `Write` occurs only in writing; `InputTooLong`, `Line` and `Read` only in
/// reading.
#[derive(Clone, Copy, Debug, Drop, Error, PartialEq, Eq)]
pub enum LinesError {
    /// The input is longer than `INPUT_LIMIT`.
    #[error("input too long")]
    InputTooLong,
    /// The first bad line, counting from 1.
    #[error("line {line}: {cause}")]
    Line { line: u64, cause: LineError },
    /// A read of the input failed.
    #[error("the input can't be read")]
    Read,
    /// A write of the output failed.
    #[error("the output can't be written")]
    Write,
    /// Memory was refused.
    #[error("out of memory")]
    Memory,
}

impl From<AllocError> for LinesError {
    ghost use Rattle.std.specs.Prelude.{◌≡◌};
    ghost use Rattle.audit_text.specs.declared.fault.LinesError.TheVariants.{Memory};

    ghost from_gives = { λ _ fault. fault ≡ Memory };

    fn from(_: AllocError) -> Self {
        LinesError::Memory
    }
}

impl<T: Drop> From<AllocFailed<T>> for LinesError {
    ghost use Rattle.std.specs.Prelude.{◌≡◌};
    ghost use Rattle.audit_text.specs.declared.fault.LinesError.TheVariants.{Memory};

    ghost from_gives = { λ _ fault. fault ≡ Memory };

    fn from(_: AllocFailed<T>) -> Self {
        LinesError::Memory
    }
}
