/// How a verified export ends.
#[derive(Clone, Copy, Debug, PartialEq, Eq)]
pub struct VerifiedEnd {
    /// The number of all entries of the log.
    pub count: u64,
    /// Whether the last entry closes the log.
    pub closed: bool,
}
