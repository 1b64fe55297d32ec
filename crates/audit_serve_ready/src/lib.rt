//! Serving clients that come and go, over streams whose calls don't wait.
//!
//! A client has a place, which is that of a session, from its coming to its going. In each pass what clients have sent
//! is read, one piece of each, then the core flushes, and then each client takes what it can of the replies:
//! [`serve_clients`]. Nobody waits for a client. A stream is a [`ReadyStream`], clients come in by a [`Door`], each with
//! its [`Rights`], and what decides on the bytes of the sessions is a [`SessionCore`].
//!
//! [`Rights`]: audit_serve_passes::Rights
//! [`SessionCore`]: audit_serve_passes::SessionCore
#![tactic(auto)]

mod answering;
mod backlog;
mod clients;
mod departure;
mod door;
mod gathering;
pub mod laws;
mod limits;
mod newcomer;
mod next;
mod note;
mod pass_bounds;
mod ready_stream;
mod reception;
mod serving;
mod slot;
mod turns;
mod unread;

pub use answering::answer_waiting;
pub use departure::Departure;
pub use door::Door;
pub use limits::{DEFAULT_BACKLOG, MAX_ASKED, MAX_BACKLOG, MAX_READ};
pub use newcomer::Newcomer;
pub use next::Next;
pub use ready_stream::ReadyStream;
pub use serving::{finish_writing, serve_clients};
pub use slot::{Slot, vacant_slots};
