//! The commands of the program `audit`, over words, readers, writers and devices.
#![tactic(auto)]

mod answering;
mod auditing;
mod checking;
mod closing;
mod exporting;
mod formatting;
mod header_showing;
mod leaves;
mod link_checking;
mod making;
mod opening;
mod proving;
mod replaying;
mod request;
mod salvaging;
mod show_form;
mod showing;

pub use auditing::{STATE_WORD, Verification, write_state};
pub use checking::check_proof;
pub use closing::close_log;
pub use exporting::write_entries;
pub use formatting::{Formatted, format_device};
pub use header_showing::LOOKS;
pub use link_checking::{LinkCheck, judge_link};
pub use opening::{BOUND_TEXT, Opening, open_proof};
pub use proving::proof_bytes;
pub use replaying::replay;
pub use request::{Access, Request, Site, run};
pub use salvaging::{Salvaged, write_salvage_line, write_salvaged};
pub use show_form::ShowForm;
pub use showing::show;
