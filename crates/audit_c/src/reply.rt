//! A reply as C has it.

/// `audit_store_reply`: the fields of a reply. Those that its kind doesn't have are 0.
#[derive(Clone, Copy)]
#[repr(C)]
pub struct GivenReply {
    /// The length of the whole frame in bytes.
    pub size: usize,
    /// The kind, by the first byte of the frame's body.
    pub kind: u32,
    /// The tag of the request.
    pub tag: u32,
    /// The index of an acknowledged event; of the place of a kind, the number of its events.
    pub index: u64,
    /// The count of a commitment, also of an acknowledgement, of a state and of a place.
    pub count: u64,
    /// The root of the same commitment.
    pub root: [u8; 32],
    /// Of a state: the first free sector, the number of sectors, and the generation.
    pub end: u64,
    pub sectors: u64,
    pub generation: u64,
    /// Of a state: the format's version, and 1 if the log is closed.
    pub version: u32,
    pub closed: u32,
    /// The code of a refusal.
    pub code: u32,
    /// The number of a proof's hashes, which begin at byte 8 of the frame.
    pub hashes: u32,
}

impl GivenReply {
    ghost use Rattle.std.specs.Prelude.{◌≡◌};
    ghost use Rattle.audit_c.specs.Replied.{with_tag};

    /// A reply with a tag, and no other field.
    #[tactic(auto, unfolding(audit_base::specs::Bytes::zeros))]
    pub(crate) fn tagged(size: usize, kind: u8, tag: u32) -> GivenReply
        ensures { result ≡ with_tag size kind tag }
    {
        GivenReply {
            size,
            kind: u32::from(kind),
            tag,
            index: 0,
            count: 0,
            root: [0; 32],
            end: 0,
            sectors: 0,
            generation: 0,
            version: 0,
            closed: 0,
            code: 0,
            hashes: 0,
        }
    }
}
