//! Reading a log on: the entries of a running store since a state, verified piece by piece under the newest commitment,
//! and what is printed and kept of them.
#![tactic(auto)]

pub mod laws;
mod newest;
mod not_under;
mod outlet;
mod part;
mod piece;
mod read_error;
mod reading;
mod under;

pub use not_under::NotUnder;
pub use outlet::Outlet;
pub use part::{PART_BYTES, PART_ENTRIES};
pub use piece::{PIECE_BYTES, PIECE_ENTRIES};
pub use read_error::ReadError;
pub use reading::read_on;
pub use under::newest_under;
