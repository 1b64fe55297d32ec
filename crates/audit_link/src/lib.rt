//! Links between logs: a file with which a witness that has no key sees that a log was closed, and that the next one
//! begins with its last commitment and with the numbers of its events by kind.
#![tactic(auto)]

mod checking;
mod codec;
mod counts;
mod counts_error;
mod kind_count;
pub mod laws;
mod link;
mod link_error;
mod making;
mod opening;
mod text;

pub use checking::{LinkJudgment, check_link, counts_in, next_commitment};
pub use codec::{LINK_MARK, read_link, write_link};
pub use counts::{Counts, MAX_KINDS};
pub use counts_error::CountsError;
pub use kind_count::KindCount;
pub use link::{ClosingEntry, KeyedEntry, Link};
pub use link_error::LinkError;
pub use making::{LINK_KIND, commitment_event, counts_event, make_link};
pub use opening::{OpenedEvent, open_entry};
pub use text::{counts_text, read_counts};
