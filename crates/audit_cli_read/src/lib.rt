//! Where a log goes that is read on: the lines of its events, and a file with a bookmark.
#![tactic(auto)]

mod bookmark_file;
mod event_outlet;

pub use bookmark_file::BookmarkFile;
pub use event_outlet::EventOutlet;
