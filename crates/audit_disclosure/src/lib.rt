//! Disclosures: chosen events of an export, shown to somebody who has no key of its log. The keys of the chosen entries
//! are written as text and read back, and an export is judged without a key of its log, as far as that goes: by the form
//! of its entries, their links, their number and their root.
#![tactic(auto)]

mod choice;
mod disclosure;
pub mod laws;
mod linked;
mod making;
mod matching;
mod reading;
mod text;

pub use choice::{Choice, Span, spans_in_word};
pub use disclosure::{DisclosedKey, Disclosure, Start};
pub use linked::LinkReader;
pub use making::{Chosen, disclose};
pub use matching::match_export;
pub use reading::{INDEX_LIMIT, key_for, read_disclosure};
pub use text::disclosure_text;
