use thiserror::Error;

/// The bytes aren't a request: refusal number 20.
#[derive(Clone, Copy, Debug, PartialEq, Eq, Error)]
#[error("malformed request")]
pub struct Malformed;
