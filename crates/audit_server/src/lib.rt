//! The core that serves sessions over a store: it is fed the bytes of requests in pieces, and keeps the bytes of
//! replies until they are taken.
#![tactic(auto)]

mod core_failed;
mod drive_fault;
mod driving;
mod entering;
mod feed_fault;
pub mod laws;
mod limit;
mod server_core;
mod session;
mod session_core;
mod step;

pub use audit_serve_passes::{ServeEnd, ServeFault, SessionStream, serve};
pub use core_failed::CoreFailed;
pub use drive_fault::DriveFault;
pub use driving::drive;
pub use feed_fault::FeedFault;
pub use server_core::Core;
pub use step::Step;
