use crate::fault::ClientError;
use audit_text::LinesError;

/// Why sending ended before the input did.
#[derive(Clone, Copy, Debug, PartialEq, Eq)]
pub enum SendError {
    /// A line of the input has no event, or the input couldn't be read.
    Input(LinesError),
    /// The server didn't answer, or not what was due.
    Client(ClientError),
    /// The line of an answer couldn't be printed.
    Output,
    /// The key of an event's entry couldn't be kept.
    Keys,
}
