//! Notes that are written, and words of a command line that name a file with a note.
#![tactic(auto)]

mod fault;
mod note_file;
mod writing;

pub use audit_note::{MAX_NAME, is_log_name};
pub use fault::NoteError;
pub use note_file::{named_commitment, note_path};
pub use writing::{note_text, write_note};
