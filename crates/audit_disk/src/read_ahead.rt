ghost use Rattle.std.specs.Prelude.{◌≡◌, ◌*◌, ◌%◌, ◌<◌, ◌≤◌, length, IfOk};
ghost use Rattle.audit_base.specs.declared.limits.TheConstants.{SECTOR_SIZE};
ghost use Rattle.audit_disk.specs.declared.read_ahead.TheConstants.{ROW_SECTORS, ROWS_FROM};
ghost use Rattle.audit_disk.specs.Rows.{IsWholeRow};
ghost use Rattle.audit_disk.specs.File.{HasRow, IsRowOffset, OnlyFileReads};
ghost use Rattle.audit_disk.specs.FileLaws.{HasRow-prop};

use crate::sector_file::write_each;
use crate::{DeviceFault, SECTOR_SIZE, SectorFile};
use std::alloc::{AllocError, Global};

/// The most sectors read or written at once: 64 KiB.
pub(crate) const ROW_SECTORS: usize = 128;

/// Allocates a row of sectors.
pub(crate) fn new_row(alloc: Global) -> Result<Vec<[u8; SECTOR_SIZE]>, AllocError>
    ensures room { IfOk result (λ row. length row.items ≡ ROW_SECTORS) }
    ensures whole { IfOk result (λ row. IsWholeRow row.items) }
{
    Ok(vec![in alloc; [0; SECTOR_SIZE]; ROW_SECTORS]?)
}

/// Where rows may begin. The sectors before this are a store's headers, which contain its key. They are always read
/// one by one, so that no key remains in the row.
const ROWS_FROM: u64 = 2 * SECTOR_SIZE as u64;

/// A file that is read ahead. A read that continues where the last one ended reads a row of sectors at once: two at
/// first, then twice as many each time. The row holds what the file returned. Every write, every sync and every read
/// elsewhere drops it. The first two sectors are never in a row.
#[derive(Drop)]
pub(crate) struct ReadAhead<F: SectorFile> {
    pub(crate) inner: F,
    row: Vec<[u8; SECTOR_SIZE]>,
    /// The file offset of the row.
    start: u64,
    /// How many sectors of the row are valid.
    held: usize,
    /// The file offset where the last read ended.
    next: u64,
    ghost aligned: { start % SECTOR_SIZE ≡ 0 },
    ghost after_headers: { ROWS_FROM ≤ start },
    ghost in_row: { held ≤ length row.items },
    ghost given: { HasRow (F.file inner) start held row.items } by { HasRow-prop (F.file inner) start held row.items },
}

impl<F: SectorFile> ReadAhead<F> {
    ghost use Rattle.std.specs.Prelude.{IfSome};
    ghost use Rattle.audit_disk.specs.File.{IsSectorOffset, IsReadThrough, IsFileWrite, IsRowWrite, IsFileSync};
    ghost use Rattle.audit_disk.specs.ReadAhead.{StandsAt};

    /// Wraps a file of which nothing has been read.
    pub(crate) fn new(inner: F, row: Vec<[u8; SECTOR_SIZE]>) -> Self
        ensures { result.inner ≡ inner }
    {
        ReadAhead {
            inner,
            row,
            start: ROWS_FROM,
            held: 0,
            next: u64::MAX,
        }
    }

    /// Reads the sector at `offset`, which is followed by the file's remaining sectors: `sectors` in all. After a
    /// fault the contents of `into` are unspecified.
    pub(crate) fn read_at(
        &mut self,
        offset: u64,
        sectors: u64,
        into: &mut [u8; SECTOR_SIZE],
    ) -> Result<(), DeviceFault>
        requires within { IsRowOffset (F.file self.old.inner) offset sectors }
        requires some { 0 < sectors }
        ensures { IsReadThrough (F.file self.old.inner) (F.file self.new.inner) offset into.new result }
    {
        if offset >= ROWS_FROM && offset == self.next && self.place_of(offset).is_none() {
            self.fill(offset, sectors);
        }
        self.next = offset.saturating_add(SECTOR_SIZE as u64);
        match self.place_of(offset) {
            Some(place) => {
                *into = self.row[place];
                Ok(())
            }
            None => {
                self.held = 0;
                self.inner.read_at(offset, into)
            }
        }
    }

    /// The index in the row of the sector at `offset`, if the row has it.
    fn place_of(&self, offset: u64) -> Option<usize>
        requires { offset % SECTOR_SIZE ≡ 0 }
        ensures { IfSome result (λ place. StandsAt self.now.start self.now.held offset place) }
    {
        let place = offset.checked_sub(self.start)? / SECTOR_SIZE as u64;
        if place < self.held as u64 {
            Some(place as usize)
        } else {
            None
        }
    }

    /// Reads the next row. The file has `sectors` sectors from `offset` on.
    fn fill(&mut self, offset: u64, sectors: u64)
        requires row { IsRowOffset (F.file self.old.inner) offset sectors }
        requires after_headers { ROWS_FROM ≤ offset }
        ensures { OnlyFileReads (F.file self.old.inner) (F.file self.new.inner) }
    {
        let wanted = self.held.saturating_mul(2).max(2).min(self.row.len());
        let count = sectors.min(wanted as u64) as usize;
        self.start = offset;
        self.held = read_front(&mut self.inner, offset, &mut self.row, count);
    }

    /// Drops the row and writes one sector.
    pub(crate) fn write_at(
        &mut self,
        offset: u64,
        bytes: &[u8; SECTOR_SIZE],
    ) -> Result<(), DeviceFault>
        requires { IsSectorOffset (F.file self.old.inner) offset }
        ensures { IsFileWrite (F.file self.old.inner) (F.file self.new.inner) offset bytes.now result }
    {
        self.held = 0;
        self.inner.write_at(offset, bytes)
    }

    /// Drops the row and writes consecutive sectors, in one call of the file.
    pub(crate) fn write_row(
        &mut self,
        offset: u64,
        sectors: &[[u8; SECTOR_SIZE]],
    ) -> Result<(), DeviceFault>
        requires { IsRowOffset (F.file self.old.inner) offset (length sectors.now) }
        ensures { IsRowWrite (F.file self.old.inner) (F.file self.new.inner) offset sectors.now result }
    {
        self.held = 0;
        self.inner.write_row(offset, sectors)
    }

    /// Drops the row and writes consecutive sectors, in one call for each.
    pub(crate) fn write_each(
        &mut self,
        offset: u64,
        sectors: &[[u8; SECTOR_SIZE]],
    ) -> Result<(), DeviceFault>
        requires { IsRowOffset (F.file self.old.inner) offset (length sectors.now) }
        ensures { IsRowWrite (F.file self.old.inner) (F.file self.new.inner) offset sectors.now result }
    {
        self.held = 0;
        write_each(&mut self.inner, offset, sectors)
    }

    /// Drops the row and syncs.
    pub(crate) fn sync(&mut self) -> Result<(), DeviceFault>
        ensures { IsFileSync (F.file self.old.inner) (F.file self.new.inner) result }
    {
        self.held = 0;
        self.inner.sync()
    }
}

/// Reads `count` sectors from `offset` on into the start of the row, and returns how many the row then holds. A failed
/// read yields none: its sectors must be read one by one.
fn read_front<F: SectorFile>(
    file: &mut F,
    offset: u64,
    row: &mut [[u8; SECTOR_SIZE]],
    count: usize,
) -> usize
    requires offset { IsRowOffset (F.file file.old) offset count }
    requires count { count ≤ length row.old }
    ensures only { OnlyFileReads (F.file file.old) (F.file file.new) }
    ensures length { length row.new ≡ length row.old }
    ensures held { result ≤ length row.new }
    ensures row { HasRow (F.file file.new) offset result row.new }
{
    match file.read_row(offset, &mut row[..count]) {
        Ok(()) => count,
        Err(_) => 0,
    }
}
