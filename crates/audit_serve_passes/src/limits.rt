//! The limits of serving.

/// The most bytes that are read from a session in one pass.
pub const MAX_PIECE: usize = 4_096;

/// The most passes. Sessions that are still live after them are ended, so that serving terminates whatever clients do.
pub const MAX_TURNS: u64 = 1_048_576;
