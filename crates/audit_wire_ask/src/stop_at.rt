/// Where sending stops.
#[derive(Clone, Copy, Debug, PartialEq, Eq)]
pub enum StopAt {
    /// At the end of the input.
    End,
    /// At an event that is refused, or at the end of the input.
    Refusal,
}
