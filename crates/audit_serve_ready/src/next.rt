/// What is to be done after a pause.
#[derive(Clone, Copy, Debug, PartialEq, Eq)]
pub enum Next {
    /// Serving goes on.
    Again,
    /// Serving ends.
    Stop,
}
