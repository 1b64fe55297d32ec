ghost use Rattle.audit_disk.specs.ReadOnly.{IsLastWritten};

use crate::block::Block;
use crate::call::{Call, Effect};

/// The content that these calls last wrote to the sector.
pub(crate) fn last_written(calls: &[Call], at: usize) -> Option<Block>
    ensures { IsLastWritten calls.now at result }
{
    let mut found = None;
    for call in calls {
        if let Effect::Write(place, block) = call.effect {
            if place == at {
                found = Some(block);
            }
        }
    }
    found
}
