/// The places that the events of an input's lines have among the events of their kinds.
#[derive(Clone, Copy, Debug, PartialEq, Eq)]
pub enum Places {
    /// Any: each event is appended after whatever events the log has.
    Any,
    /// The event of the first line has this place, counted from 0, and each further one the next. A server appends an
    /// event at its place alone.
    From(u64),
}
