//! Where the keys of events' entries are kept.
ghost use Rattle.std.specs.Prelude.{◌≡◌, false, None};

use crate::fallible_write::FallibleWrite;
use std::io::{self, Write};

/// Where the lines of keys are kept, if anywhere.
pub trait KeyLines: FallibleWrite {
    /// Returns whether they are kept. What keeps none is given none, and no bytes of it are known.
    fn are_kept(&self) -> bool
        ensures { result ≡ false → Self.contents self.now ≡ None };
}

/// A place where no keys are kept.
#[derive(Clone, Copy, Debug, Drop)]
pub struct NoKeys;

impl KeyLines for NoKeys {
    fn are_kept(&self) -> bool {
        false
    }
}

/// Nothing is known of the bytes.
impl Write for NoKeys {
    fn write(&mut self, bytes: &[u8]) -> io::Result<usize> {
        Ok(bytes.len())
    }

    fn flush(&mut self) -> io::Result<()> {
        Ok(())
    }
}
