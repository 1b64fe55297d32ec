/// A kind, and how many events of it there are.
#[derive(Clone, Copy, Debug, PartialEq, Eq)]
pub struct KindCount {
    /// The kind.
    pub kind: u32,
    /// The number of events.
    pub count: u64,
}
