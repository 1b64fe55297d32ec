//! The operating system as the program `audit` uses it: failed calls are noted, and how far a file has been read or
//! written.
#![tactic(auto)]

mod dial;
mod host;
mod key_text;
mod noted_file;
mod notes;

pub use dial::{Dial, dial_within, retry_time};
pub use host::Host;
pub use key_text::{KEY_DIGITS, KeyText};
pub use noted_file::NotedFile;
pub use notes::{Extent, Notes, Subject};
