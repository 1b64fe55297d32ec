ghost use Rattle.std.specs.Prelude.{[], ◌∷◌};
ghost use Rattle.audit_serve_door.specs.Notes.{NoteModel, a_note, a_silent_note};

use audit_serve_ready::Departure;

/// Where it is noted which clients have left, and why.
pub trait Journal {
    /// What was noted.
    ghost notes: { NoteModel Self };

    /// Notes that a client has left.
    fn note(&mut self, departure: Departure)
        ensures { notes.DidNote self.old self.new (a_note departure ∷ []) };

    /// Notes that a connection that had sent nothing was dropped, because the system gave no further descriptor.
    fn note_silent(&mut self)
        ensures { notes.DidNote self.old self.new (a_silent_note ∷ []) };
}
