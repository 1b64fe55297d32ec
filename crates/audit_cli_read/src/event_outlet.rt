//! Where the events of a log go that is read on.
ghost use Rattle.std.specs.Prelude.{◌≡◌, ◌≤◌, [], ◌∷◌, OnOk, OnErr};
ghost use Rattle.std.specs.Io.KnownBytes.{Appends};
ghost use Rattle.audit_base.specs.declared.limits.TheConstants.{MAX_COUNT};
ghost use Rattle.audit_text.specs.Writing.{WritesInPart};
ghost use Rattle.audit_cli_offline.specs.ReportLines.{event_lines};
ghost use Rattle.audit_cli_read.specs.EventModel.{event_calls};

use crate::bookmark_file::BookmarkFile;
use audit_chain::Event;
use audit_cli_base::CommandError;
use audit_cli_offline::{Printing, write_events};
use audit_proof::Commitment;
use audit_text::LinesError;
use audit_verify::{State, bookmark_text};
use audit_wire_ask::FallibleWrite;
use audit_wire_read::Outlet;
use std::alloc::Global;

/// An output on which events are printed as lines, and a file with a bookmark.
#[derive(Drop)]
pub struct EventOutlet<'a, K, W> {
    alloc: Global,
    file: K,
    output: W,
    printing: &'a Printing,
}

impl<'a, K: BookmarkFile, W: FallibleWrite> EventOutlet<'a, K, W> {
    /// Prints on this output, and keeps the bookmark in this file.
    pub fn new(alloc: Global, file: K, output: W, printing: &'a Printing) -> EventOutlet<'a, K, W>
        ensures file { result.file ≡ file }
        ensures output { result.output ≡ output }
        ensures printing { result.printing.now ≡ printing.now }
    {
        EventOutlet {
            alloc,
            file,
            output,
            printing,
        }
    }

    // Prints the lines of events, and flushes.
    fn print_lines(&mut self, first: u64, events: &[Event]) -> Result<(), LinesError>
        requires most { first ≤ MAX_COUNT }
        ensures kept { self.new.file ≡ self.old.file }
        ensures same { self.new.printing ≡ self.old.printing }
        ensures printed { OnOk result (Appends (W.contents self.old.output) (W.contents self.new.output)
            (event_lines self.old.printing.now first events.now)) }
        ensures part { OnErr result (WritesInPart (W.contents self.old.output) (W.contents self.new.output)
            (event_lines self.old.printing.now first events.now)) }
    {
        write_events(self.alloc, first, events, self.printing, &mut self.output)?;
        match self.output.flush_text() {
            Ok(()) => Ok(()),
            Err(_) => Err(LinesError::Write),
        }
    }
}

impl<K: BookmarkFile, W: FallibleWrite> Outlet for EventOutlet<'_, K, W> {
    type Error = CommandError;

    ghost calls = { event_calls K.bytes W.contents };

    fn keep(&mut self, state: &State, newest: &Commitment) -> Result<(), CommandError> {
        let text = bookmark_text(self.alloc, state, Some(*newest))?;
        self.file.replace(&text)
    }

    fn print(&mut self, first: u64, events: &[Event]) -> Result<(), CommandError> {
        Ok(self.print_lines(first, events)?)
    }
}
