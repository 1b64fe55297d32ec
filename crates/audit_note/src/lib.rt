//! Commitments as words and as notes: read from their text without memory, and from no other text.
#![tactic(auto)]

mod commitment_word;
pub mod laws;
mod name;
mod note;

pub use commitment_word::commitment_in_word;
pub use name::{MAX_NAME, is_log_name};
pub use note::{Note, read_note};
