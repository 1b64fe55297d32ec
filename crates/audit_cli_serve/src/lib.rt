//! The commands of the program `audit` that serve sessions of a store in a file over a Unix socket.
#![tactic(auto)]

mod arguments;
mod fault;
mod looping;
mod own_connections;
mod request;
mod rounds;
mod watched_lines;

pub use arguments::{rounds_asked, sessions_asked};
pub use fault::ServingError;
pub use looping::loop_over;
pub use own_connections::OwnConnections;
pub use request::{Request, run};
pub use rounds::serve_rounds;
