//! A witness of a log: what it sees of it, and the file in which it keeps that.
#![tactic(auto)]

mod alarm;
mod alarm_file;
mod beginning;
pub mod laws;
mod look_error;
mod state_file;
mod state_lines;
mod state_lock;
mod state_text;
mod watching;
mod witnessed;

pub use alarm::print_contradiction;
pub use alarm_file::{keep_alarm, lacks_feed, open_lines};
pub use beginning::{begin_after, linked_start};
pub use state_file::StateFile;
pub use state_lock::{Locked, lock_state, metadata_if_any, remove_made};
pub use state_text::StateText;
pub use watching::{follow_look, look_by_file, watch_for_ever, watch_once};
pub use witnessed::{witnessed_at, witnessed_in};
