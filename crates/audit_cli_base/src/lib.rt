//! What the commands share: words, errors, statuses, files and lines.
#![tactic(auto)]

mod arguments;
mod commitment_word;
mod fault;
mod files;
mod key_file;
pub mod laws;
mod mode;
mod output_calls;
mod output_file;
mod replacing;
mod reporting;
mod socket_path;
mod standard_output;
mod start_file;
mod status;
mod store_watch;
mod system_use;
mod text;
mod watched_output;

pub use arguments::{
    ProofRequest, commitment_asked, commitments_asked, new_file_asked, number_asked, proof_request,
    sectors_asked, socket_mode_asked,
};
pub use fault::CommandError;
pub use files::{
    FileDevice, FileStore, Opened, device_in_place, make_device, open_device_to_read,
    open_device_to_salvage, open_store, open_store_extending, store_to_read,
};
pub use key_file::{key_at, key_of_file, read_key};
pub use mode::mode_asked;
pub use output_calls::OutputFiles;
pub use output_file::OutputFile;
pub use reporting::{report, report_end, report_flush};
pub use socket_path::{MAX_SOCKET_PATH, socket_path_asked};
pub use standard_output::{STANDARD_OUTPUT, is_standard_output};
pub use start_file::{judge_start, read_start};
pub use status::Status;
pub use store_watch::{StorePlaces, StoreWatch};
pub use text::{write_exported, write_number};
pub use watched_output::WatchedOutput;
