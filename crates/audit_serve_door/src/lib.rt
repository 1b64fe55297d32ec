//! The door of a daemon: Unix sockets on which clients come in, and one on which orders to stop come.
//!
//! [`SocketDoor`] waits with `mio`'s `Poll`, so no call on a client's stream waits, and without anything to do it takes
//! no processor time. What a client may ask for depends on the socket that it came by ([`Entrance`]).
#![tactic(auto)]

mod accepts;
mod choice;
mod client;
mod entrance;
mod incoming;
mod journal;
pub mod laws;
mod limits;
mod listening;
mod metered;
mod nonblocking;
mod order;
mod places;
mod prompt;
mod room;
mod socket_door;
mod stop_orders;
mod waiting;
mod watch;

pub use accepts::{Accepts, Watched};
pub use choice::{Heads, Taken, next_entry};
pub use client::{Client, ClientDoor, ClientEntrance};
pub use entrance::Entrance;
pub use journal::Journal;
pub use limits::MOST_OF_A_SIDE;
pub use listening::PromptListening;
pub use metered::Metered;
pub use nonblocking::Nonblocking;
pub use order::{OrderText, STOP_ORDER, order_text};
pub use prompt::Prompt;
pub use room::{ROOM, Room};
pub use socket_door::SocketDoor;
pub use stop_orders::StopOrders;
pub use watch::Watch;
