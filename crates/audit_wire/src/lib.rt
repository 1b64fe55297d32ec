//! Frames between a client and the audit store.
//!
//! A frame is a length in two bytes and a body of that many bytes. A [`Decoder`] takes a byte stream in arbitrary
//! pieces and returns the bodies. [`read_request`] reads a body as a request, [`read_request_by`] as one of a
//! [`Grammar`], and [`write_reply`] writes the frame of a reply; [`write_request`] and [`read_reply`] are the client's.
//! Numbers are unsigned and big-endian.
#![tactic(auto)]

mod byte_list;
mod decoder;
mod fed;
mod fields;
mod grammar;
mod hash_list;
mod laws;
mod limits;
mod malformed;
mod reading;
mod refusal;
mod reply;
mod reply_fault;
mod reply_kind;
mod reply_reading;
mod request;
mod request_kind;
mod request_writing;
mod room;
mod view;
mod writing;

pub use audit_base::{
    MAX_ENTRY, MAX_INCREMENT_HASHES, MAX_MEMBER_HASHES, MAX_PAYLOAD, RESERVED_KIND,
};
pub use byte_list::ByteList;
pub use decoder::Decoder;
pub use fed::Fed;
pub use grammar::Grammar;
pub use hash_list::HashList;
pub use laws::{
    a_byte_given_back_never_came, every_cut_gives_one_reading, every_reply_is_read_back,
    every_request_is_read_back, grammars_agree, limits_are_these_numbers,
    more_bytes_keep_the_requests, one_reading_of_a_stream, one_reading_of_replies,
    replies_have_their_sizes,
};
pub use limits::{
    ACKNOWLEDGEMENT_FRAME, COMMITMENT_FRAME, LENGTH_BYTES, MAX_BODY, MAX_ENTRY_FRAME, MAX_FRAME,
    MAX_INCREMENT_FRAME, MAX_MEMBERSHIP_FRAME, MAX_PLACED_PAYLOAD, PLACE_FRAME, PLACED_FRAME,
    REFUSAL_FRAME, STATE_FRAME,
};
pub use malformed::Malformed;
pub use reading::{read_request, read_request_by};
pub use refusal::Refusal;
pub use reply::Reply;
pub use reply_fault::ReplyError;
pub use reply_reading::{first_frame, read_reply};
pub use request::Request;
pub use request_writing::write_request;
pub use view::RequestView;
pub use writing::{frame_size, write_reply};
