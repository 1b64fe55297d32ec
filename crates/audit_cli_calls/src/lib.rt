//! The calls of a command that are facts: stores that it opens, makes and lets go, and the last flush of its output.
#![tactic(auto)]

mod flushing;
mod stores;

pub use flushing::FlushedOutput;
pub use stores::{NewStores, Stores, SystemStores};
