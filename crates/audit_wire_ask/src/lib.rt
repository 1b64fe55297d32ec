//! What a client asks of a running store, over any reader and writer: questions whose answers are checked under the
//! commitment that the server gave before them in the same conversation.
#![tactic(auto)]

mod answering;
mod asking;
mod conversation;
mod entry_key;
mod exporting;
mod fallible_write;
mod fault;
mod keeping;
mod kept_input;
mod key_file;
mod key_lines;
mod kind_place;
pub mod laws;
mod older;
mod place_asking;
mod place_line;
mod places;
mod placing;
mod putting;
mod refusal_word;
mod send_error;
mod sending;
mod state_asking;
mod stop_at;
mod store_state;
mod taking;
mod watching;

pub use asking::{
    ASKED_TAG, JOIN_TAG, NEWEST_TAG, close_log, entry_of, increment_proof, join, join_by,
    member_proof, newest_commitment,
};
pub use conversation::{ask, next_reply, send_bytes};
pub use exporting::{Export, ask_ahead, entry_in, export_entries, piece_tag};
pub use fallible_write::FallibleWrite;
pub use fault::ClientError;
pub use keeping::{Kept, WatchError, watch_and_keep};
pub use kept_input::KeptInput;
pub use key_file::KeyFile;
pub use key_lines::{KeyLines, NoKeys};
pub use kind_place::KindPlace;
pub use place_asking::place_of_kind;
pub use place_line::put_place;
pub use places::Places;
pub use placing::{Placing, log_and_send, place_and_send};
pub use putting::{AskError, Out, put_entry, put_export, put_increment, put_member};
pub use refusal_word::word_of_refusal;
pub use send_error::SendError;
pub use sending::{SendEnd, send_events};
pub use state_asking::state_of_store;
pub use stop_at::StopAt;
pub use store_state::StoreState;
pub use watching::{Sight, Unseen, watch};
