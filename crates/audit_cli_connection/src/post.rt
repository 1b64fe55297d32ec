//! What a witness looks at, and by.

/// What a witness needs: the server's socket, its own file, how long it waits for a reply, and what it prints.
#[derive(Clone, Copy)]
pub struct Post<'a> {
    /// The socket.
    pub socket: &'a str,
    /// The file.
    pub state: &'a str,
    /// The seconds.
    pub seconds: u64,
    /// Whether nothing is printed of a log that is the same or has grown.
    pub is_quiet: bool,
    /// The log before, by which a file without a line is begun.
    pub before: Option<Predecessor<'a>>,
}

/// The log before, from which a witness goes on.
#[derive(Clone, Copy)]
pub struct Predecessor<'a> {
    /// The file of its witness.
    pub state: &'a str,
    /// The file with the link from it.
    pub link: &'a str,
}
