//! The verification of what follows a saved state.
ghost use Rattle.std.specs.Prelude.{◌≡◌, ◌==◌, []};
ghost use Rattle.audit_verify_saved.specs.Saved.{shown};
ghost use Rattle.audit_c.specs.Fed.{HasBeenFed};
ghost use Rattle.audit_c.specs.Resumed.{IsBegunFrom};

use crate::answers::{MALFORMED, OK};
use crate::verifier::Verifier;
use audit_verify_saved::{Saved, read_saved};

/// Begins the verification of the entries after a saved state, by its text. Returns `OK`, or `MALFORMED` if the bytes
/// are the text of no state; the verifier is then as it was.
#[unsafe(no_mangle)]
pub extern "C" fn audit_store_verify_state(text: &[u8], verifier: &mut Verifier) -> u32
    ensures { IsBegunFrom text.now verifier.old verifier.new result }
{
    let Some(saved) = read_saved(text) else {
        return MALFORMED;
    };
    begin(verifier, &saved);
    OK
}

fn begin(verifier: &mut Verifier, saved: &Saved)
    ensures { HasBeenFed (shown saved.now) [] [] verifier.new }
{
    let nodes = *saved.tree.hashes();
    let count = saved.tree.count();
    let closed = mark_of(saved.closed);
    verifier.key = saved.key;
    verifier.link = saved.link;
    verifier.nodes = nodes;
    verifier.count = count;
    verifier.closed = closed;
    verifier.fault = OK;
    verifier.held = 0;
}

// Whether a log is closed, as C has it.
fn mark_of(closed: bool) -> u32
    ensures { (result == 1) ≡ closed }
{
    u32::from(closed)
}
