use crate::notes::{Notes, Subject};
use audit_cli_terminal::Motion;
use audit_disk::{PositionedFile, SECTOR_SIZE, SystemFile};
use std::cell::Cell;
use std::fs::{Metadata, OpenFile, Permissions, TryLockError};
use std::io::{self, Read, Seek, SeekFrom, Write};

// The header sectors of a store, which are written again with each batch, and say nothing of how far it is.
const HEADERS: u64 = 2 * SECTOR_SIZE as u64;

/// An open file or standard stream whose failures are noted, and how far it is read or written.
#[derive(Drop)]
pub struct NotedFile<'n, 'w, F> {
    inner: F,
    subject: Subject,
    notes: &'n Notes<'w>,
    // The bytes that were read or written so far.
    place: u64,
    // Where it ends, if that is known.
    total: Cell<Option<u64>>,
}

impl<'n, 'w, F> NotedFile<'n, 'w, F> {
    ghost use Rattle.std.specs.Prelude.{◌≡◌};
    ghost use Rattle.audit_cli_host.specs.NotedFile.{file_within};

    /// Wraps a file, with its description and a place for notes.
    pub fn new(inner: F, subject: Subject, notes: &'n Notes<'w>) -> NotedFile<'n, 'w, F>
        ensures { file_within result ≡ inner }
    {
        NotedFile {
            inner,
            subject,
            notes,
            place: 0,
            total: Cell::new(None),
        }
    }

    /// Sets the length of the file, if it is known.
    pub(crate) fn with_total(self, total: Option<u64>) -> NotedFile<'n, 'w, F>
        ensures { file_within result ≡ file_within self.entry }
    {
        self.total.set(total);
        self
    }

    /// The file that is wrapped.
    pub(crate) fn inner(&self) -> &F {
        &self.inner
    }

    /// Returns the result of a call about the file, after noting its error.
    pub(crate) fn noted<T>(&self, outcome: io::Result<T>) -> io::Result<T>
        ensures { result ≡ outcome }
    {
        self.notes.watch(self.subject, &outcome);
        outcome
    }

    // Adds the bytes that a call read or wrote to the place, and notes it.
    fn went_on(&mut self, motion: Motion, moved: &io::Result<usize>) {
        if let Ok(count) = moved {
            self.place = self.place.saturating_add(*count as u64);
            let total = self.total.get();
            self.notes.moved(motion, self.subject, self.place, total);
        }
    }

    // Notes where a row of sectors was read or written. The header sectors are left out.
    fn was_at(&self, motion: Motion, sectors: usize, offset: u64) {
        if offset >= HEADERS {
            let bytes = (sectors as u64).saturating_mul(SECTOR_SIZE as u64);
            let place = offset.saturating_add(bytes);
            let total = self.total.get();
            self.notes.moved(motion, self.subject, place, total);
        }
    }
}

impl<F: Read> Read for NotedFile<'_, '_, F> {
    fn read(&mut self, into: &mut [u8]) -> io::Result<usize> {
        if self.subject == Subject::Input {
            self.notes.end_opening();
        }
        let read = self.inner.read(into);
        self.notes.watch(self.subject, &read);
        if let Ok(count) = read {
            self.notes.read(self.subject, &into[..count]);
        }
        self.went_on(Motion::Reading, &read);
        read
    }
}

impl<F: Write> Write for NotedFile<'_, '_, F> {
    fn write(&mut self, bytes: &[u8]) -> io::Result<usize> {
        if self.subject == Subject::Output {
            self.notes.erase_progress();
        }
        let written = self.inner.write(bytes);
        self.notes.watch(self.subject, &written);
        self.went_on(Motion::Writing, &written);
        written
    }

    fn flush(&mut self) -> io::Result<()> {
        let flushed = self.inner.flush();
        self.notes.watch(self.subject, &flushed);
        flushed
    }
}

impl<F: Seek> Seek for NotedFile<'_, '_, F> {
    fn seek(&mut self, to: SeekFrom) -> io::Result<u64> {
        let place = self.inner.seek(to);
        self.notes.watch(self.subject, &place);
        place
    }
}

impl<F: OpenFile> OpenFile for NotedFile<'_, '_, F> {
    fn metadata(&self) -> io::Result<Metadata> {
        let metadata = self.inner.metadata();
        self.notes.watch(self.subject, &metadata);
        metadata
    }

    fn set_len(&self, size: u64) -> io::Result<()> {
        let cut = self.inner.set_len(size);
        self.notes.watch(self.subject, &cut);
        self.total.set(Some(size));
        cut
    }

    fn sync_all(&self) -> io::Result<()> {
        let synced = self.inner.sync_all();
        self.notes.watch(self.subject, &synced);
        synced
    }

    fn sync_data(&self) -> io::Result<()> {
        let synced = self.inner.sync_data();
        self.notes.watch(self.subject, &synced);
        synced
    }

    fn set_permissions(&self, permissions: Permissions) -> io::Result<()> {
        let changed = self.inner.set_permissions(permissions);
        self.notes.watch(self.subject, &changed);
        changed
    }
}

impl<F: PositionedFile> PositionedFile for NotedFile<'_, '_, F> {
    ghost positioned = { λ it. F.positioned it.inner };

    fn read_exact_at(&mut self, into: &mut [[u8; SECTOR_SIZE]], offset: u64) -> io::Result<()> {
        let read = self.inner.read_exact_at(into, offset);
        self.notes.watch(self.subject, &read);
        self.was_at(Motion::Reading, into.len(), offset);
        read
    }

    fn write_all_at(&mut self, row: &[[u8; SECTOR_SIZE]], offset: u64) -> io::Result<()> {
        let written = self.inner.write_all_at(row, offset);
        self.notes.watch(self.subject, &written);
        self.was_at(Motion::Writing, row.len(), offset);
        written
    }

    fn sync_data(&mut self) -> io::Result<()> {
        let synced = self.inner.sync_data();
        self.notes.watch(self.subject, &synced);
        synced
    }

    fn length(&mut self) -> io::Result<u64> {
        let length = self.inner.length();
        self.notes.watch(self.subject, &length);
        length
    }
}

impl<F: SystemFile> SystemFile for NotedFile<'_, '_, F> {
    ghost facts = { λ it. F.facts it.inner };

    fn try_lock(&self) -> Result<(), TryLockError> {
        let taken = self.inner.try_lock();
        self.notes.watch_lock(self.subject, &taken);
        taken
    }

    fn try_lock_shared(&self) -> Result<(), TryLockError> {
        let taken = self.inner.try_lock_shared();
        self.notes.watch_lock(self.subject, &taken);
        taken
    }

    // That it is another file is no failure of a call.
    fn is_same(&self, found: &Metadata) -> io::Result<()> {
        self.inner.is_same(found)
    }

    fn set_mode(&mut self, mode: u32) -> io::Result<()> {
        let changed = self.inner.set_mode(mode);
        self.notes.watch(self.subject, &changed);
        changed
    }

    fn lay_out(&mut self, length: u64) -> io::Result<()> {
        let laid_out = self.inner.lay_out(length);
        self.notes.watch(self.subject, &laid_out);
        self.total.set(Some(length));
        laid_out
    }
}
