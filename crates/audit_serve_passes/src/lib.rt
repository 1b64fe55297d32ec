//! Sessions that are served in passes over streams.
//!
//! [`serve`] makes passes. In each of them every live session has one read of its stream; then the core flushes, and
//! what waits for each session is written to its stream. A stream is a [`SessionStream`]. A [`SessionCore`] handles
//! the bytes of the sessions.
#![tactic(auto)]

mod allowance;
mod bound_kinds;
mod duplex;
mod duplex_stream;
pub mod laws;
mod limits;
mod reading;
mod rights;
mod rounds;
mod serve_end;
mod serving;
mod session_core;
mod session_stream;
mod stream_fault;
mod stream_pair;
mod writing;

pub use allowance::{Allowance, Demand, Share};
pub use bound_kinds::{BoundKinds, MAX_BOUND_KINDS};
pub use duplex::Duplex;
pub use duplex_stream::DuplexStream;
pub use limits::{MAX_PIECE, MAX_TURNS};
pub use rights::Rights;
pub use serve_end::{ServeEnd, ServeFault};
pub use serving::serve;
pub use session_core::SessionCore;
pub use session_stream::SessionStream;
pub use stream_fault::StreamError;
pub use stream_pair::StreamPair;
