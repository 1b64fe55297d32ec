//! The line of progress and text for a terminal: the line is drawn on standard error and erased before anything else is
//! printed there, and text is shown without what would move the cursor.
#![tactic(auto)]

mod progress;
mod screen;

pub use progress::{Messages, Motion, Progress};
pub use screen::Screen;
