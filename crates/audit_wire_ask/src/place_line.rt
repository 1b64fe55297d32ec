//! The line that is printed for the place of a kind.
ghost use Rattle.std.specs.Prelude.{◌≡◌, OnOk};
ghost use Rattle.audit_wire_ask.specs.PlaceLine.{place_line};

use audit_text::push_number;
use std::alloc::AllocError;

/// Replaces the buffer's contents with `place`, the number of events of a kind and the count of all.
#[tactic(auto, unfolding(crate::specs::PlaceLine::place_line))]
pub fn put_place(line: &mut Vec<u8>, number: u64, count: u64) -> Result<(), AllocError>
    ensures { OnOk result (line.new.items ≡ place_line number count) }
{
    line.clear();
    push_number(line, b"place ", number)?;
    push_number(line, b" ", count)?;
    line.extend_from_slice(b"\n")
}
