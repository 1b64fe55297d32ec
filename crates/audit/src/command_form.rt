//! What the command line and its help show of a command.

/// A command: its name, its help, the words that follow it, and its options.
pub(crate) struct Form {
    pub(crate) name: &'static str,
    pub(crate) about: &'static str,
    // The end of its help.
    pub(crate) after: Option<&'static str>,
    pub(crate) words: &'static [Word],
    pub(crate) options: &'static [Choice],
}

/// A word that follows the name of a command.
pub(crate) struct Word {
    pub(crate) name: &'static str,
    pub(crate) help: &'static str,
    pub(crate) is_required: bool,
}

/// An option of a command.
pub(crate) struct Choice {
    pub(crate) name: &'static str,
    // The name of its value. An option without one is a flag.
    pub(crate) value: Option<&'static str>,
    pub(crate) help: &'static str,
    // The option that it requires.
    pub(crate) needs: Option<&'static str>,
    // The option that it can't be combined with.
    pub(crate) excludes: Option<&'static str>,
}
