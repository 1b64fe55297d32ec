//! What the commands that ask a server share: a connection that limits the server's time, the calls that they make, and
//! their errors.
#![tactic(auto)]

mod connection;
mod contradiction;
mod dates;
mod dialing;
mod fault;
mod frames;
mod line;
mod passing;
mod post;
mod question;
mod read_task;
mod servers;
mod task;

pub use connection::{connect, is_over, socket_identity};
pub use contradiction::Contradiction;
pub use dates::{date_of_now, push_date};
pub use dialing::Dialing;
pub use fault::{RemoteError, no_memory, without_words};
pub use line::{Line, LineEnd, Pace};
pub use passing::{report_passing, report_return};
pub use post::{Post, Predecessor};
pub use question::{Evidence, Question};
pub use read_task::ReadTask;
pub use servers::Servers;
pub use task::Task;
