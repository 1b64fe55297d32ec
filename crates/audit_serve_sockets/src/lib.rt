//! Sockets on which sessions arrive. Also a session whose client is in the same process: it is fed lines of hex
//! digits, and its replies are written as lines.
#![tactic(auto)]

mod carrying;
mod frame_line;
mod input_line;
pub mod laws;
mod limits;
mod line_streams;
mod link;
mod listener;
mod loop_fault;
mod looping;
mod owner_only;
mod piece_input;
mod replying;
mod round_line;
mod socket_file;
mod socket_lock;
mod system_sockets;
mod tried;

pub use frame_line::bytes_of_line;
pub use input_line::next_line;
pub use limits::{MAX_DIGITS, TEXT_LEN};
pub use line_streams::{LineInput, LineOutput};
pub use link::Link;
pub use listener::Listener;
pub use loop_fault::LoopError;
pub use looping::run_lines;
pub use piece_input::PieceInput;
pub use replying::write_frames;
pub use round_line::write_round;
pub use socket_file::{SocketFile, SocketName};
pub use socket_lock::SocketLock;
pub use system_sockets::SystemSockets;
pub use tried::{TriedRead, TriedWrite};
