//! The commands about disclosures: one makes the keys of chosen events of an export, another shows an export by them.
#![tactic(auto)]

mod disclosing;
mod ending;
mod export_reader;
mod files;
pub mod laws;
mod lines;
mod matching;
mod new_file;
mod request;
mod showing;
mod words;

pub use export_reader::ExportReader;
pub use files::{AuditorFiles, Readers, SystemAuditorFiles};
pub use request::{Request, run};
pub use showing::show_disclosed;
pub use words::{ChoiceWord, Disclosing, Showing};
