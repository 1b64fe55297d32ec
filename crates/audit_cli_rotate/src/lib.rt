//! Rotation of a log: it is closed, and a new store begins with its last commitment.
#![tactic(auto)]

mod fault;
mod file_names;
mod files;
mod joined;
pub mod laws;
mod lines;
mod link_file;
mod linking;
mod own_key;
mod prepared;
mod prepared_error;
mod request;
mod rotating;
mod stores;

pub use fault::RotationError;
pub use file_names::FileNames;
pub use linking::{link_event, starts_with_link};
pub use prepared::{Prepared, run_prepared};
pub use prepared_error::PreparedError;
pub use request::{Request, run};
pub use rotating::{find_rotation, rotate};
