/// What becomes of the replies to a client.
#[derive(Clone, Copy, PartialEq, Eq)]
pub(crate) enum Reception {
    /// They are kept until the client takes them.
    Takes,
    /// A write failed, so they are dropped. What the client sent is still read.
    Drops,
    /// They are dropped, and nothing more is read: the client is to go.
    Shut,
}
