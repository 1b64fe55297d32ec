ghost use Rattle.std.specs.Prelude.{◌≡◌};

use crate::grammar::Grammar;

/// The kinds of requests. A body begins with its kind in one byte.
#[derive(Clone, Copy)]
pub(crate) enum RequestKind {
    Append = 1,
    Commitment = 2,
    Membership = 3,
    Incremental = 4,
    Entry = 5,
    Close = 6,
    State = 7,
    Place = 8,
    PlacedAppend = 9,
}

impl RequestKind {
    ghost use Rattle.audit_wire.specs.Request.{kind_in, request_byte};

    /// The first byte of a body.
    pub(crate) fn byte(self) -> u8
        ensures { result ≡ request_byte self }
    {
        self as u8
    }

    /// The kind that a body's first byte denotes in this grammar.
    pub(crate) fn from_byte(grammar: Grammar, byte: u8) -> Option<RequestKind>
        ensures { result ≡ kind_in grammar byte }
    {
        match byte {
            1 => Some(RequestKind::Append),
            2 => Some(RequestKind::Commitment),
            3 => Some(RequestKind::Membership),
            4 => Some(RequestKind::Incremental),
            5 => Some(RequestKind::Entry),
            6 => Some(RequestKind::Close),
            7 if grammar == Grammar::Daemon => Some(RequestKind::State),
            8 if grammar == Grammar::Daemon => Some(RequestKind::Place),
            9 if grammar == Grammar::Daemon => Some(RequestKind::PlacedAppend),
            _ => None,
        }
    }
}
