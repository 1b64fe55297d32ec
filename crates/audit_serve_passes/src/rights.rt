ghost use Rattle.std.specs.Prelude.{◌≡◌};

use crate::bound_kinds::BoundKinds;

/// What a session may ask for. Questions it may always ask.
#[derive(Clone, Copy, Debug, PartialEq, Eq)]
pub enum Rights {
    /// Questions alone: neither appending nor closing.
    Read,
    /// Appending events of this kind alone, and not closing.
    Source(u32),
    /// Appending events of all kinds but these, which are bound to their sources, and not closing.
    Append(BoundKinds),
    /// Appending the same events, and closing.
    Close(BoundKinds),
}

impl Rights {
    ghost use Rattle.audit_serve_passes.specs.Rights.{all_rights, only_reads, may_append, may_close};

    /// Whatever can be asked for.
    pub fn all() -> Rights
        ensures { result ≡ all_rights }
    {
        Rights::Close(BoundKinds::none())
    }

    /// Whether nothing but questions may be asked.
    pub fn only_reads(self) -> bool
        ensures { result ≡ only_reads self }
    {
        matches!(self, Rights::Read)
    }

    /// Whether an event of this kind may be appended.
    pub fn may_append(self, kind: u32) -> bool
        ensures { result ≡ may_append self kind }
    {
        match self {
            Rights::Read => false,
            Rights::Source(own) => kind == own,
            Rights::Append(bound) | Rights::Close(bound) => !bound.contains(kind),
        }
    }

    /// Whether the log may be closed.
    pub fn may_close(self) -> bool
        ensures { result ≡ may_close self }
    {
        matches!(self, Rights::Close(_))
    }
}
