/// The requests that the bytes of a session are read as.
#[derive(Clone, Copy, Debug, PartialEq, Eq)]
pub enum Grammar {
    /// Those that every session may make.
    Plain,
    /// Those, and what only the clients of a daemon may ask.
    Daemon,
}
