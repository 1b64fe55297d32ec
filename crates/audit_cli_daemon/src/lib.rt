//! The commands of the program `audit` that run a daemon over the store in a file, and stop it.
#![tactic(auto)]

mod arguments;
mod client_journal;
mod end;
mod ending_door;
mod gauge;
pub mod laws;
mod marks;
mod prompt_sockets;
mod request;
mod running;
mod sockets;
mod sources;
mod sparing;
mod state_line;
mod stopping;
mod watched_store;

pub use arguments::{DEFAULT_IDLE, DEFAULT_RESERVE, backlog_asked};
pub use end::End;
pub use ending_door::EndingDoor;
pub use marks::{MARKS, mark_passed};
pub use prompt_sockets::PromptSockets;
pub use request::{Request, Settings, run};
pub use running::serve_until_stopped;
pub use sources::{Source, source_in};
pub use sparing::Sparing;
pub use state_line::write_state;
pub use stopping::StopCalls;
