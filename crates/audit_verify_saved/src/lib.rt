//! Saved states of verifications, read from their text without memory, and from no other text.
#![tactic(auto)]

mod lines;
mod mark;
mod parsing;
mod reading;
mod saved;

pub use reading::read_saved;
pub use saved::Saved;
