/// A call of a session's stream failed.
#[derive(Clone, Copy, Debug, PartialEq, Eq)]
pub struct StreamError;
