ghost use Rattle.std.specs.Prelude.{◌≡◌};
ghost use Rattle.audit_cli_daemon.specs.State.{word_of};

/// How the serving of a store ended without an error.
#[derive(Clone, Copy, Debug, PartialEq, Eq)]
pub enum End {
    /// The door said to stop, or let no replies leave.
    Stopped,
    /// An event came that doesn't fit into the sectors that the log may fill. It wasn't answered.
    Full,
}

/// The word of the line that reports the end, with a space after it.
pub(crate) fn word_of(end: End) -> &'static [u8]
    ensures { result.now ≡ word_of end }
{
    match end {
        End::Stopped => b"stopped ",
        End::Full => b"full ",
    }
}
