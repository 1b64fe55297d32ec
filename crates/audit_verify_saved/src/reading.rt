//! The text of a state, read.
ghost use Rattle.std.specs.Prelude.{◌≡◌, MatchOption};
ghost use Rattle.audit_verify_saved.specs.Saved.{shown, SpellsState, IsNoState};

use crate::lines::after_state;
use crate::mark::{after_newest, ends_with_digest, newest_in};
use crate::parsing::parse;
use crate::saved::{Saved, is_fitting};

/// Reads the state of which this is the text, with a newest commitment, which is passed over, or without one. No other
/// text is read: a state has only one. It takes no memory.
pub fn read_saved(text: &[u8]) -> Option<Saved>
    ensures { MatchOption result (IsNoState text.now) (λ saved. SpellsState text.now (shown saved)) }
{
    let saved = parse(text)?;
    if !is_fitting(&saved) {
        return None;
    }
    let after_lines = after_state(text, &saved)?;
    let newest = newest_in(after_lines);
    let rest = after_newest(after_lines, newest)?;
    if !ends_with_digest(text, rest) {
        return None;
    }
    Some(saved)
}
