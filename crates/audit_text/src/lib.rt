//! Lines of text: events parsed from lines that spell them or are their payloads, the log's first key, whole inputs;
//! and lines that are written, for programs or to be seen by people.
#![tactic(auto)]

mod cutting;
mod event_line;
mod events;
mod fault;
mod fields;
mod input;
mod json_line;
pub mod laws;
mod line_form;
mod number;
mod output;
mod printing;
mod script;
mod shown;
mod split;

pub use cutting::{CutLines, push_cut};
pub use event_line::event_of_line;
pub use fault::{LineError, LinesError, ParseError};
pub use fields::{after_line, decimal_of, digits_of, field, hash_in};
pub use input::{INPUT_LIMIT, read_input};
pub use json_line::push_json;
pub use line_form::{LineForm, LongLines, event_in_line, form_asked, kind_in_word, long_asked};
pub use number::number_in_text;
pub use output::{push_ack, push_hex, push_number, put_line, write_whole};
pub use printing::{push_numbered_text, push_text};
pub use script::{Script, read_script};
pub use shown::{Shown, ShownLetter, is_seen};
pub use split::{split_at_first, split_line};
