//! Files that are honest, opened by the same calls as the system's own. So what a device over an opened file promises
//! of honest files isn't empty.
ghost use Rattle.std.specs.Prelude.{IfOk, IsErr};
ghost use Rattle.audit_disk.specs.FileDisk.{file_disk_view};
ghost use Rattle.audit_disk.specs.FileFacts.{facts_of_calls};
ghost use Rattle.audit_disk.specs.MemFileView.{mem_file_view};
ghost use Rattle.audit_disk.specs.Positioned.{uncounted};

use super::{Step, expect, fresh_path};
use audit_disk::{
    FileDisk, FileFault, MemDisk, MemFile, OsFile, PositionedFile, SECTOR_SIZE, SystemFile,
    SystemFiles,
};
use std::alloc::{Allocator, Global};
use std::fs::{self, File, Files, Metadata, OpenFile, OpenOptions, TryLockError};
use std::io::{self, ErrorKind, Read, Seek, SeekFrom, Write};

/// A runtime in which each path leads to a file of this many zero sectors, in memory. What lies at the path is only
/// asked for its metadata.
#[derive(Drop)]
struct Imagined<'r> {
    rt: &'r HostRuntime,
    sectors: u64,
}

/// A file in memory, with the metadata of a real one.
#[derive(Drop)]
struct ImaginedFile {
    file: MemFile,
    real: File,
}

fn unsupported<T>() -> io::Result<T>
    ensures { IsErr result }
{
    Err(io::Error::from(ErrorKind::Unsupported))
}

impl Read for ImaginedFile {
    fn read(&mut self, _into: &mut [u8]) -> io::Result<usize> {
        unsupported()
    }
}

impl Write for ImaginedFile {
    fn write(&mut self, _bytes: &[u8]) -> io::Result<usize> {
        unsupported()
    }

    fn flush(&mut self) -> io::Result<()> {
        unsupported()
    }
}

impl Seek for ImaginedFile {
    fn seek(&mut self, _to: SeekFrom) -> io::Result<u64> {
        unsupported()
    }
}

impl OpenFile for ImaginedFile {
    fn metadata(&self) -> io::Result<Metadata> {
        self.real.metadata()
    }

    fn set_len(&self, _size: u64) -> io::Result<()> {
        unsupported()
    }

    fn sync_all(&self) -> io::Result<()> {
        unsupported()
    }

    fn sync_data(&self) -> io::Result<()> {
        unsupported()
    }
}

impl PositionedFile for ImaginedFile {
    ghost positioned = { λ it. uncounted (mem_file_view it.file) };

    fn read_exact_at(&mut self, into: &mut [[u8; SECTOR_SIZE]], offset: u64) -> io::Result<()> {
        self.file.read_exact_at(into, offset)
    }

    fn write_all_at(&mut self, row: &[[u8; SECTOR_SIZE]], offset: u64) -> io::Result<()> {
        self.file.write_all_at(row, offset)
    }

    fn sync_data(&mut self) -> io::Result<()> {
        PositionedFile::sync_data(&mut self.file)
    }

    fn length(&mut self) -> io::Result<u64> {
        self.file.length()
    }
}

impl SystemFile for ImaginedFile {
    ghost facts = { λ _. facts_of_calls };

    fn try_lock(&self) -> Result<(), TryLockError> {
        Ok(())
    }

    fn try_lock_shared(&self) -> Result<(), TryLockError> {
        Ok(())
    }

    fn is_same(&self, _found: &Metadata) -> io::Result<()> {
        Ok(())
    }

    fn set_mode(&mut self, _mode: u32) -> io::Result<()> {
        unsupported()
    }

    fn lay_out(&mut self, _length: u64) -> io::Result<()> {
        unsupported()
    }
}

impl Files for Imagined<'_> {
    type File = ImaginedFile;

    type Dir = <HostRuntime as Files>::Dir;

    fn open_file(&self, _how: &OpenOptions, _path: &str) -> io::Result<ImaginedFile> {
        unsupported()
    }

    fn open_dir(&self, _path: &str) -> io::Result<Self::Dir> {
        unsupported()
    }

    fn metadata(&self, path: &str) -> io::Result<Metadata> {
        Files::metadata(self.rt, path)
    }

    fn symlink_metadata(&self, path: &str) -> io::Result<Metadata> {
        Files::metadata(self.rt, path)
    }

    fn copy(&self, _from: &str, _to: &str) -> io::Result<u64> {
        unsupported()
    }

    fn rename(&self, _from: &str, _to: &str) -> io::Result<()> {
        unsupported()
    }

    fn remove_file(&self, _path: &str) -> io::Result<()> {
        unsupported()
    }

    fn create_dir(&self, _path: &str) -> io::Result<()> {
        unsupported()
    }

    fn remove_dir(&self, _path: &str) -> io::Result<()> {
        unsupported()
    }

    fn remove_dir_all<B: Allocator>(&self, _alloc: B, _path: &str) -> io::Result<()> {
        unsupported()
    }
}

impl SystemFiles for Imagined<'_> {
    ghost synced = { λ _ _. Unit {0} };

    ghost failed = { λ _. Unit {0} };

    fn look(&self, path: &str) -> io::Result<Metadata> {
        Files::metadata(self.rt, path)
    }

    fn look_if_any(&self, _path: &str) -> io::Result<Option<Metadata>> {
        Ok(None)
    }

    fn judge(&self, _found: &Metadata, _to_write: bool) -> io::Result<()> {
        Ok(())
    }

    fn text_if_any(&self, _alloc: Global, _path: &str) -> io::Result<Option<String>> {
        Ok(None)
    }

    fn open_to_write(&self, path: &str) -> io::Result<ImaginedFile> {
        Ok(ImaginedFile {
            file: MemFile {
                disk: MemDisk::new(self.rt.alloc(), self.sectors)?,
            },
            real: OpenOptions::new().read(true).open(self.rt, path)?,
        })
    }

    fn open_to_read(&self, path: &str) -> io::Result<ImaginedFile> {
        self.open_to_write(path)
    }

    fn make_file(&self, _path: &str, _mode: u32) -> io::Result<ImaginedFile> {
        unsupported()
    }

    fn sync_folder(&self, _path: &str) -> io::Result<()> {
        Ok(())
    }
}

/// Opens a device whose honesty is proved: the premise of every promise about its sectors.
fn opened_honestly(
    rt: &HostRuntime,
    path: &str,
    sectors: u64,
) -> Result<FileDisk<OsFile<ImaginedFile>>, FileFault>
    ensures { IfOk result (λ disk. (file_disk_view disk).honest) }
{
    FileDisk::open(&Imagined { rt, sectors }, rt.alloc(), path)
}

#[test]
fn an_honest_file_is_opened_by_the_same_call(rt: HostRuntime) {
    let path = fresh_path(&rt, &rt, "audit_disk_imagined");
    let path = path.as_str();
    fs::write(&rt, path, b"").expect(&rt, "a file");
    let mut disk = opened_honestly(&rt, path, 3).expect(&rt, "a device");
    let steps = [
        Step::Size(3),
        Step::Put(2, b'x'),
        Step::Syncs,
        Step::Found(2, b'x'),
        Step::Found(0, 0),
        Step::Calls(2),
    ];
    expect(&rt, &mut disk, &steps);
    fs::remove_file(&rt, path).expect(&rt, "a removal");
}
