//! What an auditor does without a store, over readers and writers: verify an export, check a proof, and parse
//! commitments.
#![tactic(auto)]

mod check_form;
mod checking;
mod ending;
mod fault;
mod kinds_word;
pub mod laws;
mod opening;
mod printing;
mod proof_lines;
mod report_form;
mod two_passes;
mod verified_end;
mod verifying;

pub use audit_link::{OpenedEvent, open_entry};
pub use audit_note::commitment_in_word;
pub use check_form::CheckForm;
pub use checking::{Proof, judge_proof, read_proof, write_judgment};
pub use ending::write_end_message;
pub use fault::OfflineError;
pub use kinds_word::kinds_in_word;
pub use opening::write_opened;
pub use printing::Printing;
pub use report_form::ReportForm;
pub use two_passes::verify_in_two_passes;
pub use verified_end::VerifiedEnd;
pub use verifying::{push_state, verify_export, write_events, write_last_line, write_report};
