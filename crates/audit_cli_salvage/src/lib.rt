//! The command that searches a damaged store with its first key: it writes every event that the key still finds, also
//! those behind holes, and says what is missing.
#![tactic(auto)]

mod lines;
mod pieces;
mod proofs;
mod request;
mod salvage;
mod searching;
mod totals;
mod words;

pub use pieces::{SearchEnd, write_pieces};
pub use proofs::{ProvedLeaf, proved_leaf};
pub use request::run;
pub use salvage::Salvage;
pub use searching::{write_end_line, write_salvage};
pub use totals::Totals;
pub use words::{Salvaging, WITHIN};
