//! The limits of serving, in bytes.

/// How many bytes are read in a pass from a client that is alone. Several have equal shares of them.
pub const MAX_READ: usize = 1 << 16;

/// The most bytes that may be kept for a client that doesn't take its replies.
pub const MAX_BACKLOG: usize = 1 << 26;

/// How many bytes are kept for a client if nothing else is asked for.
pub const DEFAULT_BACKLOG: usize = 1 << 20;

/// How many bytes of replies the questions of one pass may have, so that appends needn't wait for many answers. One
/// question is answered in a pass whatever its reply.
pub const MAX_ASKED: usize = 1 << 16;
