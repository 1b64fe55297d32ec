use audit_cli_offline::ReportForm;

/// What is read, from where on, and how it is printed.
#[derive(Clone, Copy)]
pub struct ReadTask<'a> {
    /// The server's socket.
    pub socket: &'a str,
    /// The file with the bookmark.
    pub state: &'a str,
    /// The file with the log's first key, from which it is read if there is no bookmark.
    pub first: Option<&'a str>,
    /// The file of a witness, whose newest commitment the log has to extend.
    pub under: Option<&'a str>,
    /// How events are printed.
    pub form: ReportForm,
    /// The kinds of the events that are printed, with commas between them; any kind if there is no word.
    pub kinds: Option<&'a str>,
    /// How many seconds the server has for each reply.
    pub seconds: u64,
    /// Whether nothing is printed if there is nothing new.
    pub is_quiet: bool,
}
