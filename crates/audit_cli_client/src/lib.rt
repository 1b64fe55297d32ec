//! The commands of the program `audit` that ask a running store over its socket: questions, events that are sent, a
//! witness, and a log that is read on.
#![tactic(auto)]

mod arguments;
mod asking;
mod draft;
pub mod laws;
mod left_files;
mod legs;
mod out;
mod outage;
mod printed_file;
mod read_error;
mod read_file;
mod reading;
mod request;
mod seen_files;
mod sending;
mod store_state_line;
mod system_servers;

pub use asking::answer;
pub use read_file::bookmark_in;
pub use request::{Request, run};
pub use seen_files::SeenFiles;
pub use system_servers::SystemServers;
