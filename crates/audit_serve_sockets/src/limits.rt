//! The limits of lines, and the length of a text that is sent to oneself.

/// The most hex digits that a line of bytes may have.
pub const MAX_DIGITS: usize = 65_536;

// The most bytes of an input of lines that are read at a time.
pub(crate) const PIECE_LEN: usize = 8_192;

/// The length in bytes of the random text by which a program recognises its own connection.
pub const TEXT_LEN: usize = 32;
