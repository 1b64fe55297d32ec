//! An output of lines of a command that keeps a store open.
ghost use Rattle.std.specs.Prelude.{◌≡◌, true, false};
ghost use Rattle.audit_cli_base.specs.Watched.{after_reference};
ghost use Rattle.audit_cli_serve.specs.WatchedLines.{watched_lines};

use audit_cli_base::StoreWatch;
use audit_serve_sockets::{LineOutput, TriedWrite};
use audit_text::LinesError;
use std::fs::Files;

/// An output of lines that takes nothing more once the store isn't in its place, so that no event is acknowledged
/// there. It looks before each line. A call of it fails only if one of the output did, or the store wasn't in its place.
#[derive(Drop)]
pub struct WatchedLines<'a, 'b, F, W> {
    output: &'b mut W,
    watch: &'a StoreWatch<'a, F>,
    is_replaced: bool,
}

impl<'a, 'b, F: Files, W: TriedWrite> WatchedLines<'a, 'b, F, W> {
    /// An output of a command whose store is watched.
    pub fn new(watch: &'a StoreWatch<'a, F>, output: &'b mut W) -> WatchedLines<'a, 'b, F, W>
        ensures same_reference { result.output.ghost_name ≡ output.entry.ghost_name }
        ensures bytes { watched_lines W.contents result
            ≡ after_reference output.entry.ghost_name (W.contents output.old) }
    {
        WatchedLines {
            output,
            watch,
            is_replaced: false,
        }
    }

    /// Whether the store isn't in its place, now or when it was last looked.
    pub fn is_replaced(&mut self) -> bool
        ensures bytes { watched_lines W.contents self.new ≡ watched_lines W.contents self.old }
        ensures stays { result ≡ false → self.old.is_replaced ≡ false }
    {
        !self.look()
    }

    // Looks whether the store is in its place. Once it wasn't, it isn't looked any more.
    fn look(&mut self) -> bool
        ensures output { self.new.output ≡ self.old.output }
        ensures gone { result ≡ false → self.new.is_replaced ≡ true }
        ensures stays { self.old.is_replaced ≡ true → result ≡ false }
    {
        self.is_replaced = self.is_replaced || !self.watch.is_in_place();
        !self.is_replaced
    }
}

impl<F: Files, W: TriedWrite> LineOutput for WatchedLines<'_, '_, F, W> {
    ghost use Rattle.audit_cli_serve.specs.WatchedLines.{watched_lines, LineFailed};

    ghost contents = { watched_lines W.contents };

    ghost failed = { LineFailed W.unwritten };

    ghost was_flushed = { λ watched. W.was_flushed watched.output.now };

    fn write_text(&mut self, text: &[u8]) -> Result<(), LinesError> {
        if !self.look() {
            return Err(LinesError::Write);
        }
        self.output.write_text(text)
    }

    fn flush_text(&mut self) -> Result<(), LinesError> {
        self.output.flush_text()
    }
}
