/// How serving ended.
#[derive(Clone, Copy, Debug, PartialEq, Eq)]
pub struct ServeEnd<E> {
    /// How many passes were begun.
    pub turns: u64,
    /// Why serving stopped before the last session had ended and the last output was written; none if it didn't.
    pub fault: Option<ServeFault<E>>,
}

/// Why serving stopped.
#[derive(Clone, Copy, Debug, PartialEq, Eq)]
pub enum ServeFault<E> {
    /// The core refused a step.
    Core(E),
    /// The limit of passes was reached while sessions were still live: refusal number 45.
    ReadFault,
}
