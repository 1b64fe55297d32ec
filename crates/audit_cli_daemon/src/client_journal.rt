ghost use Rattle.std.specs.Prelude.{[], ◌∷◌};
ghost use Rattle.audit_serve_door.specs.Notes.{a_note, a_silent_note, unknown_notes};

use audit_serve_door::Journal;
use audit_serve_ready::Departure;
use std::cell::RefCell;
use std::io::Write;

/// Counts the clients that were dropped or cut off, and prints a line for each where that is asked for.
#[derive(Drop)]
pub struct ClientJournal<'a, 'b, M> {
    messages: &'a RefCell<&'b mut M>,
    explains: bool,
    dropped: u64,
    cut_off: u64,
}

impl<'a, 'b, M: Write> ClientJournal<'a, 'b, M> {
    /// A journal without clients. If `explains` is set, it prints a line for each.
    pub fn new(messages: &'a RefCell<&'b mut M>, explains: bool) -> ClientJournal<'a, 'b, M> {
        ClientJournal {
            messages,
            explains,
            dropped: 0,
            cut_off: 0,
        }
    }

    /// Prints the counts, if lines are printed and there were such clients.
    pub fn print_counts(&mut self) {
        let (dropped, cut_off) = (self.dropped, self.cut_off);
        if self.explains
            && (dropped > 0 || cut_off > 0)
            && let Ok(mut messages) = self.messages.try_borrow_mut()
        {
            let _ = writeln!(
                *messages,
                "audit: clients dropped: {dropped}, cut off: {cut_off}"
            );
        }
    }

    fn drop_one(&mut self, why: &str) {
        self.dropped = self.dropped.saturating_add(1);
        self.print("dropped", why);
    }

    fn print(&mut self, what: &str, why: &str) {
        if self.explains
            && let Ok(mut messages) = self.messages.try_borrow_mut()
        {
            let _ = writeln!(*messages, "audit: client {what}: {why}");
        }
    }
}

impl<M: Write> Journal for ClientJournal<'_, '_, M> {
    ghost notes = { unknown_notes };

    fn note(&mut self, departure: Departure) {
        if departure == Departure::CutOff {
            self.cut_off = self.cut_off.saturating_add(1);
            self.print("cut off", "its socket doesn't allow the request");
        } else if let Some(why) = reason(departure) {
            self.drop_one(why);
        }
    }

    fn note_silent(&mut self) {
        self.drop_one("it had sent nothing, and no further one could be accepted");
    }
}

// Why a client was dropped; none if it left by itself.
fn reason(departure: Departure) -> Option<&'static str> {
    match departure {
        Departure::Finished | Departure::CutOff => None,
        Departure::Malformed => Some("it sent no request"),
        Departure::ReadFailed => Some("a read from it failed"),
        Departure::WriteFailed => Some("a write to it failed"),
        Departure::Dismissed => Some("it was idle while another one waited"),
        Departure::Memory => Some("memory was refused"),
    }
}
