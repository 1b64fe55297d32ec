/// How far the events of a kind are, as their daemon says it. Nothing proves it.
#[derive(Clone, Copy, Debug, PartialEq, Eq)]
pub struct KindPlace {
    /// How many events of the kind the log has. It is the place of the next one.
    pub number: u64,
    /// How many events the log has in all.
    pub count: u64,
}
