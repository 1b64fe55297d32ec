//! Which blocks the disk under a new store writes.
use crate::command::Asked;
use audit_cli_store::Request;
use audit_disk::DeviceNumber;
use audit_text::Shown;
use std::alloc::Global;
use std::fs::{self, Files};
use std::io::{self, Write};
use std::os::unix::fs::{FileTypeExt, MetadataExt};

// The bytes that a store needs its disk to write whole.
const SECTOR_LEN: u64 = 512;

/// Prints a warning if a store was formatted on a disk that writes larger blocks than a sector, and the system doesn't
/// say that it writes them whole. Both headers are in one such block, so a power cut that tears it loses the store.
pub(crate) fn warn_of_blocks<F: Files, M: Write>(
    rt: &F,
    alloc: Global,
    asked: Asked<'_>,
    messages: &mut M,
) -> io::Result<()> {
    let Asked::Plain(Request::Format { file, .. }) = asked else {
        return Ok(());
    };
    match torn_block(rt, alloc, file) {
        Some(bytes) => writeln!(
            messages,
            "audit: {}: its disk writes blocks of {bytes} bytes, and may tear one in a power cut, which loses the store",
            Shown(file)
        ),
        None => Ok(()),
    }
}

// The size in bytes of the blocks of the disk under a file, if one of them has several sectors and may be torn.
fn torn_block<F: Files>(rt: &F, alloc: Global, file: &str) -> Option<u64> {
    let found = fs::metadata(rt, file).ok()?;
    let number = if found.file_type().is_block_device() {
        found.rdev()
    } else {
        found.dev()
    };
    let queue = queue_of(rt, alloc, DeviceNumber::of(number))?;
    let block = number_in(rt, alloc, &queue, "physical_block_size")?;
    // What an NVMe disk writes whole is known by this number, and is 0 where nothing is known.
    let whole = number_in(rt, alloc, &queue, "atomic_write_unit_max_bytes").unwrap_or(0);
    if block <= SECTOR_LEN || block <= whole {
        return None;
    }
    Some(block)
}

// The folder in which the system describes the disk of a device, which may be a partition of it.
fn queue_of<F: Files>(rt: &F, alloc: Global, device: DeviceNumber) -> Option<String> {
    let own = format!(in alloc; "/sys/dev/block/{device}/queue").ok()?;
    if fs::metadata(rt, own.as_str()).is_ok() {
        return Some(own);
    }
    format!(in alloc; "/sys/dev/block/{device}/../queue").ok()
}

// The number in a file of that folder.
fn number_in<F: Files>(rt: &F, alloc: Global, folder: &str, name: &str) -> Option<u64> {
    let path = format!(in alloc; "{folder}/{name}").ok()?;
    let file = fs::open(rt, path.as_str()).ok()?;
    let text = io::read_to_string(alloc, file).ok()?;
    text.trim_ascii_end().parse().ok()
}
