use thiserror::Error;

/// Why bytes couldn't be read as a reply.
#[derive(Clone, Copy, Debug, Drop, Error, PartialEq, Eq)]
pub enum ReplyError {
    /// The bytes aren't a reply.
    #[error("malformed reply")]
    Malformed,
    /// Memory was refused for the reply's parts.
    #[error("out of memory")]
    Memory,
}
