ghost use Rattle.std.specs.Prelude.{◌≡◌, ◌+◌, ◌*◌, ◌^◌, ◌<◌, ◌≤◌, length};
ghost use Rattle.audit_base.specs.declared.limits.TheConstants.{SECTOR_SIZE};
ghost use Rattle.audit_disk.specs.Rows.{IsWholeRow};
ghost use Rattle.audit_disk.specs.declared.read_ahead.TheConstants.{ROW_SECTORS};

use crate::SECTOR_SIZE;
use crate::read_ahead::{ROW_SECTORS, new_row};
use std::alloc::{AllocError, Global};

/// The first sector that is kept. Those before it are a store's headers, which contain its key. They are always
/// written at once, so that no key remains in the row.
pub(crate) const KEPT_FROM: u64 = 2;

/// Consecutive sectors that were written to a device and not yet to its file.
#[derive(Drop)]
pub(crate) struct KeptRow {
    row: Vec<[u8; SECTOR_SIZE]>,
    /// The number of the first sector.
    pub(crate) start: u64,
    /// How many sectors of the row are kept.
    pub(crate) count: usize,
    ghost room: { length row.items ≡ ROW_SECTORS },
    ghost in_row: { count ≤ length row.items },
    ghost whole: { IsWholeRow row.items },
    ghost fits: { SECTOR_SIZE * (start + count) < 2 ^ 64 },
}

impl KeptRow {
    ghost use Rattle.std.specs.Prelude.{◌⊎◌, IsTrue, IsFalse, IfOk};
    ghost use Rattle.audit_disk.specs.KeptRow.{kept_sectors, IsEmptyRow, TakesSector, KeepsSector};

    /// Allocates the row, and keeps nothing.
    pub(crate) fn new(alloc: Global) -> Result<Self, AllocError>
        ensures { IfOk result IsEmptyRow }
    {
        Ok(KeptRow {
            row: new_row(alloc)?,
            start: 0,
            count: 0,
        })
    }

    /// Whether a write of the sector `at` can be kept after the row.
    pub(crate) fn takes(&self, at: u64) -> bool
        ensures { IsTrue result → TakesSector self.now at }
    {
        let follows = self.count == 0 || at == self.start + self.count as u64;
        at >= KEPT_FROM && self.count < ROW_SECTORS && follows
    }

    /// Whether the sector `at` is kept.
    pub(crate) fn has(&self, at: u64) -> bool
        ensures kept { IsTrue result → self.now.start ≤ at }
        ensures other { IsFalse result → (at < self.now.start) ⊎ (self.now.start + self.now.count ≤ at) }
    {
        self.start <= at && at < self.start + self.count as u64
    }

    /// Keeps one more sector.
    pub(crate) fn keep(&mut self, at: u64, bytes: &[u8; SECTOR_SIZE])
        requires takes { TakesSector self.old at }
        requires fits { SECTOR_SIZE * (at + 1) < 2 ^ 64 }
        ensures { KeepsSector self.old self.new at bytes.now }
    {
        if self.count == 0 {
            self.start = at;
        }
        self.row[self.count] = *bytes;
        self.count += 1;
    }

    /// Lends the kept sectors.
    pub(crate) fn sectors(&self) -> &[[u8; SECTOR_SIZE]]
        ensures { result.now ≡ kept_sectors self.now }
    {
        &self.row[..self.count]
    }

    /// Drops the kept sectors.
    pub(crate) fn clear(&mut self)
        ensures start { self.new.start ≡ self.old.start }
        ensures count { self.new.count ≡ 0 }
    {
        self.count = 0;
    }
}
