//! The line with the state of a store.
ghost use Rattle.std.specs.Prelude.{◌≡◌, OnOk};
ghost use Rattle.audit_cli_client.specs.StoreStateLine.{store_state_line};

use audit_cli_offline::push_state;
use audit_text::{push_hex, push_number};
use audit_wire_ask::StoreState;
use std::alloc::AllocError;

/// Replaces the buffer's contents with the line of a store's state: what `show` says of a store, in one line, and the
/// number of sectors after the log.
#[tactic(auto, unfolding(crate::specs::StoreStateLine::store_state_line))]
pub fn put_store_state(line: &mut Vec<u8>, state: &StoreState) -> Result<(), AllocError>
    ensures { OnOk result (line.new.items ≡ store_state_line state.now) }
{
    line.clear();
    push_number(line, b"commit ", state.commitment.count)?;
    line.extend_from_slice(b" ")?;
    push_hex(line, &state.commitment.root)?;
    push_number(line, b" sectors ", state.sectors)?;
    push_number(line, b" end ", state.end)?;
    push_number(line, b" generation ", state.generation)?;
    push_number(line, b" version ", u64::from(state.version))?;
    line.extend_from_slice(b" state ")?;
    push_state(line, state.closed)?;
    push_number(line, b" free ", state.sectors.saturating_sub(state.end))?;
    line.extend_from_slice(b"\n")
}
