/// Why a client is to leave its place, as it was found there.
#[derive(Clone, Copy, PartialEq, Eq)]
pub(crate) enum Note {
    /// Its stream ended.
    Finished,
    /// A read of its stream failed.
    ReadFailed,
    /// A write to its stream failed.
    WriteFailed,
    /// The door dismissed it.
    Dismissed,
    /// Memory was refused for its replies.
    Memory,
}
