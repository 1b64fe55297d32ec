ghost use Rattle.std.specs.Prelude.{OnOk, OnErr};
ghost use Rattle.std.specs.Io.KnownBytes.{Keeps};

use std::io::{self, Write};

/// An output of which contracts can say that its last call was a flush that succeeded, or one that failed. Code that is
/// generic over it can have such a fact from that call alone. Every `Write` is one.
pub trait FlushedOutput: Write {
    /// The last call was a flush, and it succeeded.
    ghost flushed: { Self → Type 0 };

    /// The last call was a flush, and it failed.
    ghost unflushed: { Self → Type 0 };

    /// Flushes, as `Write::flush` does.
    fn flush_last(&mut self) -> io::Result<()>
        ensures kept { Keeps (Self.contents self.old) (Self.contents self.new) }
        ensures flushed { OnOk result (flushed self.new) }
        ensures unflushed { OnErr result (unflushed self.new) };
}

impl<W: Write> FlushedOutput for W {
    ghost flushed = { λ _. Unit {0} };

    ghost unflushed = { λ _. Unit {0} };

    fn flush_last(&mut self) -> io::Result<()> {
        self.flush()
    }
}
