ghost use Rattle.std.specs.Prelude.{◌≡◌};

/// The kinds of replies, by the first byte of their bodies.
#[derive(Clone, Copy)]
pub(crate) enum ReplyKind {
    Acknowledgement = 0x81,
    Commitment = 0x82,
    Membership = 0x83,
    Incremental = 0x84,
    Entry = 0x85,
    State = 0x87,
    Place = 0x88,
    Placed = 0x89,
    Refused = 0xFF,
}

impl ReplyKind {
    ghost use Rattle.audit_wire.specs.Reply.{reply_byte, reply_kind_at};

    /// The first byte of a body.
    pub(crate) fn byte(self) -> u8
        ensures { result ≡ reply_byte self }
    {
        self as u8
    }

    /// The kind that a body's first byte denotes.
    pub(crate) fn from_byte(byte: u8) -> Option<ReplyKind>
        ensures { result ≡ reply_kind_at byte }
    {
        match byte {
            0x81 => Some(ReplyKind::Acknowledgement),
            0x82 => Some(ReplyKind::Commitment),
            0x83 => Some(ReplyKind::Membership),
            0x84 => Some(ReplyKind::Incremental),
            0x85 => Some(ReplyKind::Entry),
            0x87 => Some(ReplyKind::State),
            0x88 => Some(ReplyKind::Place),
            0x89 => Some(ReplyKind::Placed),
            0xFF => Some(ReplyKind::Refused),
            _ => None,
        }
    }
}
