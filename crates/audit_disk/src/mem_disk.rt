ghost use Rattle.std.specs.Prelude.{◌≡◌, ◌*◌, ◌^◌, ◌<◌, length, map};
ghost use Rattle.audit_base.specs.declared.limits.TheConstants.{SECTOR_SIZE};
ghost use Rattle.audit_disk.specs.Held.{settled, content_of, bytes_of_blocks};
ghost use Rattle.audit_disk.specs.Memory.{after_calls};
ghost use Rattle.audit_disk.specs.MemoryView.{memory_view};

use crate::block::Block;
use crate::call::Effect;
use crate::call_log::CallLog;
use crate::replay::{blocks_of, crashed_blocks, zero_blocks};
use crate::{DeviceFault, SECTOR_SIZE, SectorSource, Sectors};
use std::alloc::{AllocError, Global};

/// A device in memory, for tests. It is honest, and records its calls, so that any crash can be tried. If the record
/// can't grow, the call fails and has no effect.
#[derive(Drop)]
pub struct MemDisk {
    start: Vec<Block>,
    content: Vec<Block>,
    log: CallLog,
    ghost current: { bytes_of_blocks content.items
        ≡ content_of (after_calls log.calls.items (map settled start.items)) },
    ghost sized: { length start.items < 2 ^ 64 },
}

impl Sectors for MemDisk {
    ghost use Rattle.std.specs.Prelude.{IsOk};
    ghost use Rattle.audit_disk_model.specs.Calls.{IsRead, IsWrite, IsSync};
    ghost use Rattle.audit_disk.specs.MemDisk.{disk_view, disk_held, HoldsWrite, HoldsSync};

    ghost view = { λ disk. memory_view disk.start.items (bytes_of_blocks disk.content.items) disk.log.calls.items
        disk.log.clock disk.log.failures disk.current disk.log.stamped disk.sized disk.log.in_range };

    fn size(&self) -> u64 {
        self.start.len() as u64
    }

    fn calls(&self) -> u64 {
        self.log.clock
    }

    /// It allocates nothing, so it never fails.
    fn read(&mut self, at: u64, into: &mut [u8; SECTOR_SIZE]) -> Result<(), DeviceFault>
        requires { at < (disk_view self.old).size }
        ensures read { IsRead (disk_view self.old) (disk_view self.new) at into.new result }
        ensures held { disk_held self.new ≡ disk_held self.old }
        ensures succeeds { IsOk result }
    {
        *into = self.content[at as usize].bytes;
        Ok(())
    }

    /// If the record of calls can't grow, it fails and nothing is written.
    fn write(&mut self, at: u64, bytes: &[u8; SECTOR_SIZE]) -> Result<(), DeviceFault>
        requires { at < (disk_view self.old).size }
        ensures write { IsWrite (disk_view self.old) (disk_view self.new) at bytes.now result }
        ensures held { HoldsWrite (disk_held self.old) (disk_held self.new) at bytes.now result }
    {
        let block = Block { bytes: *bytes };
        self.log.note(Effect::Write(at as usize, block))?;
        self.content[at as usize] = block;
        Ok(())
    }

    /// If the record of calls can't grow, it fails, and as much is pending as before.
    fn sync(&mut self) -> Result<(), DeviceFault>
        ensures sync { IsSync (disk_view self.old) (disk_view self.new) result }
        ensures held { HoldsSync (disk_held self.old) (disk_held self.new) result }
    {
        self.log.note(Effect::Sync)?;
        Ok(())
    }
}

impl SectorSource for MemDisk {
    ghost use Rattle.std.specs.Prelude.{IsOk, OnErr};
    ghost use Rattle.audit_disk.specs.MemDisk.{disk_view};
    ghost use Rattle.audit_disk.specs.SectorSource.{source_of, IsSourceRead, IsSameSource};

    ghost source = { λ disk. source_of (⟦<MemDisk as Sectors>⟧.view disk) };

    fn sectors(&self) -> u64 {
        self.size()
    }

    /// It allocates nothing, so it never fails.
    fn read_sector(&mut self, at: u64, into: &mut [u8; SECTOR_SIZE]) -> Result<(), DeviceFault>
        requires { at < (disk_view self.old).size }
        ensures read { IsSourceRead (source_of (disk_view self.old)) at into.new result }
        ensures same { IsSameSource (source_of (disk_view self.old)) (source_of (disk_view self.new)) }
        ensures fails { OnErr result (source_of (disk_view self.new)).failed }
        ensures last { OnErr result (source_of (disk_view self.new)).last_failed }
        ensures succeeds { IsOk result }
    {
        let block = &self.content[at as usize];
        let bytes = block.bytes;
        *into = bytes;
        Ok(())
    }
}

impl MemDisk {
    ghost use Rattle.std.specs.Prelude.{ℕ, IfOk, replicate};
    ghost use Rattle.audit_disk_model.specs.Moments.{IsAfterCrash};
    ghost use Rattle.audit_disk.specs.Held.{crashed};
    ghost use Rattle.audit_disk.specs.MemDisk.{disk_view, disk_held, IsFresh, HoldsOnly, IsEachPicked};

    /// Makes a device of `sectors` zero sectors, all synced.
    pub fn new(alloc: Global, sectors: u64) -> Result<MemDisk, AllocError>
        ensures fresh { IfOk result (λ disk. IsFresh (disk_view disk) (replicate sectors (replicate SECTOR_SIZE 0))) }
        ensures held { IfOk result (λ disk. HoldsOnly (disk_held disk) (replicate sectors (replicate SECTOR_SIZE 0))) }
    {
        MemDisk::with_content(alloc, zero_blocks(alloc, sectors)?)
    }

    /// Makes a device with this content, all of it synced.
    pub fn from_sectors(alloc: Global, sectors: &[[u8; SECTOR_SIZE]]) -> Result<MemDisk, AllocError>
        ensures fresh { IfOk result (λ disk. IsFresh (disk_view disk) sectors.now) }
        ensures held { IfOk result (λ disk. HoldsOnly (disk_held disk) sectors.now) }
    {
        MemDisk::with_content(alloc, blocks_of(alloc, sectors)?)
    }

    /// Returns, as a device, what a crash now may leave. `pick[k]` selects the content of sector k: 0 (or a missing
    /// pick) selects its last synced content, and p the p-th content written since. If p is too large it selects the
    /// last one, or the synced content if nothing was written since. Every image that a crash may leave has picks that
    /// select it.
    pub fn crash(&self, alloc: Global, pick: &[u64]) -> Result<MemDisk, AllocError>
        ensures device { IfOk result (λ disk. IsFresh (disk_view disk)
            (crashed (disk_held self.now) pick.now)) }
        ensures held { IfOk result (λ disk. HoldsOnly (disk_held disk)
            (crashed (disk_held self.now) pick.now)) }
        ensures after { IfOk result (λ disk. IsAfterCrash (disk_view self.now) (disk_view disk)) }
        ensures image { (disk_view self.now).left_at (disk_view self.now).clock
            (crashed (disk_held self.now) pick.now) }
        ensures every { IsEachPicked (disk_view self.now) (disk_held self.now) }
    {
        let left = crashed_blocks(alloc, &self.start, &self.log.calls, pick)?;
        MemDisk::with_content(alloc, left)
    }

    /// Returns how many bytes its sectors have.
    pub(crate) fn byte_count(&self) -> u64
        ensures { result ≡ SECTOR_SIZE * (disk_view self.now).size }
    {
        bytes_in(&self.start)
    }

    fn with_content(alloc: Global, content: Vec<Block>) -> Result<MemDisk, AllocError>
        ensures fresh { IfOk result (λ disk. IsFresh (disk_view disk) (bytes_of_blocks content.items)) }
        ensures held { IfOk result (λ disk. HoldsOnly (disk_held disk) (bytes_of_blocks content.items)) }
    {
        let start = Vec::from_slice(alloc, &content)?;
        Ok(MemDisk {
            start,
            content,
            log: CallLog::new(alloc),
        })
    }
}

// How many bytes these blocks have, as memory for them was allocated.
fn bytes_in(blocks: &[Block]) -> u64
    ensures { result ≡ SECTOR_SIZE * length blocks.now }
{
    (SECTOR_SIZE * blocks.len()) as u64
}
