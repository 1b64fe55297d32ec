ghost use Rattle.std.specs.Prelude.{◌≡◌};
ghost use Rattle.audit_serve_ready.specs.Slot.{departure_for};

use crate::note::Note;

/// Why a client has left its place.
#[derive(Clone, Copy, Debug, PartialEq, Eq)]
pub enum Departure {
    /// Its stream ended, and it took every reply.
    Finished,
    /// It sent bytes that are no request, and took every reply.
    Malformed,
    /// It made a request that its rights don't allow.
    CutOff,
    /// A read of its stream failed.
    ReadFailed,
    /// A write to its stream failed. All that it had sent was read, unless a read failed too.
    WriteFailed,
    /// The door dismissed it.
    Dismissed,
    /// Memory was refused, for its replies or for its session.
    Memory,
}

/// Why a client leaves: its session was cut off, or else this was noted in its place. If nothing was noted, what it
/// sent has ended its session.
pub(crate) fn departure_for(is_cut_off: bool, noted: Option<Note>) -> Departure
    ensures { result ≡ departure_for is_cut_off noted }
{
    if is_cut_off {
        return Departure::CutOff;
    }
    match noted {
        None => Departure::Malformed,
        Some(Note::Finished) => Departure::Finished,
        Some(Note::ReadFailed) => Departure::ReadFailed,
        Some(Note::WriteFailed) => Departure::WriteFailed,
        Some(Note::Dismissed) => Departure::Dismissed,
        Some(Note::Memory) => Departure::Memory,
    }
}
