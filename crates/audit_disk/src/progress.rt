ghost use Rattle.std.specs.Prelude.{◌≡◌};
ghost use Rattle.audit_disk.specs.Held.{settled};

use crate::block::Block;

/// The state of one sector while the calls before a crash are replayed.
#[derive(Clone, Copy)]
pub(crate) struct Progress {
    /// The last content written.
    pub(crate) newest: Block,
    /// What a crash at this point leaves.
    pub(crate) landed: Block,
    /// Which content since the last sync the crash is to leave.
    pub(crate) pick: u64,
    /// How many more writes there are until that content.
    pub(crate) left: u64,
}

impl Progress {
    ghost use Rattle.audit_disk.specs.Progress.{IsSectorProgress, pushed, synced};

    pub(crate) fn new(block: Block, pick: u64) -> Self
        ensures { IsSectorProgress (settled block) pick result }
    {
        Progress {
            newest: block,
            landed: block,
            pick,
            left: pick,
        }
    }

    pub(crate) fn write(&mut self, block: Block)
        ensures { self.new ≡ pushed self.old block }
    {
        self.newest = block;
        if self.left > 0 {
            self.landed = block;
            self.left -= 1;
        }
    }

    pub(crate) fn sync(&mut self)
        ensures { self.new ≡ synced self.old }
    {
        self.landed = self.newest;
        self.left = self.pick;
    }
}
