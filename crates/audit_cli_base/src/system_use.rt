//! What the system uses a file or a block device for, as far as it lists that.
ghost use Rattle.std.specs.Prelude.{IfErr};
ghost use Rattle.audit_cli_base.specs.Faults.{IsNoWordFault};

use crate::fault::CommandError;
use audit_disk::{
    DeviceNumber, FileFault, FileIdentity, SystemFile, SystemFiles, backing_file, whole_disk,
};
use std::alloc::Global;
use std::fs::{self, Files};
use std::io::{self, ErrorKind};

// The mounts that this program sees.
const MOUNTS: &str = "/proc/self/mountinfo";

const SWAPS: &str = "/proc/swaps";

// The numbers of all block devices. Those of loop devices begin with `LOOP`.
const DEVICES: &str = "/sys/dev/block";

const LOOP: &str = "7:";

/// A block device, and the disk if it is a partition.
#[derive(Clone, Copy)]
struct Place {
    device: DeviceNumber,
    disk: Option<DeviceNumber>,
}

impl Place {
    fn of<F: SystemFiles>(rt: &F, alloc: Global, device: DeviceNumber) -> Result<Place, FileFault>
    where
        F::File: SystemFile,
    {
        Ok(Place {
            device,
            disk: whole_disk(rt, alloc, device)?,
        })
    }

    // Whether both have sectors in common.
    fn overlaps(&self, other: Place) -> bool {
        self.device == other.device
            || self.disk == Some(other.device)
            || other.disk == Some(self.device)
    }
}

/// Whether the system uses a file or a block device: a device, its disk or one of its partitions is mounted, is swapped
/// to, or is part of another device; or a file is swapped to, or is behind a loop device that is used so. Mounts of other
/// namespaces aren't seen. It is an error if the list of mounts can't be read.
pub(crate) fn is_used_by_system<F: SystemFiles>(
    rt: &F,
    alloc: Global,
    identity: FileIdentity,
) -> Result<bool, CommandError>
where
    F::File: SystemFile,
    ensures { IfErr result IsNoWordFault }
{
    match identity {
        FileIdentity::Block { number } => {
            let place = Place::of(rt, alloc, DeviceNumber::of(number))?;
            is_device_used(rt, alloc, place)
        }
        FileIdentity::File { .. } => is_file_used(rt, alloc, identity),
    }
}

fn is_device_used<F: SystemFiles>(rt: &F, alloc: Global, place: Place) -> Result<bool, CommandError>
where
    F::File: SystemFile,
    ensures { IfErr result IsNoWordFault }
{
    Ok(
        is_mounted(rt, alloc, place)?
            || is_device_swap(rt, alloc, place)?
            || is_held(rt, alloc, place)?,
    )
}

fn is_mounted<F: SystemFiles>(rt: &F, alloc: Global, place: Place) -> Result<bool, CommandError>
where
    F::File: SystemFile,
    ensures { IfErr result IsNoWordFault }
{
    let Some(mounts) = rt.text_if_any(alloc, MOUNTS)? else {
        return Err(CommandError::File);
    };
    for line in mounts.lines() {
        if is_mount_of(rt, alloc, line, place)? {
            return Ok(true);
        }
    }
    Ok(false)
}

// Whether a line of the mounts is about a device. Some file systems have a number of their own, and only name the device.
fn is_mount_of<F: SystemFiles>(
    rt: &F,
    alloc: Global,
    line: &str,
    place: Place,
) -> Result<bool, CommandError>
where
    F::File: SystemFile,
    ensures { IfErr result IsNoWordFault }
{
    let (own, source) = line.split_once(" - ").unwrap_or((line, ""));
    if let Some(device) = own.split_whitespace().nth(2).and_then(DeviceNumber::named) {
        if place.overlaps(Place::of(rt, alloc, device)?) {
            return Ok(true);
        }
    }
    match source.split_whitespace().nth(1) {
        Some(path) if path.starts_with('/') => leads_to(rt, alloc, path, place),
        _ => Ok(false),
    }
}

// Whether a path leads to a device that overlaps this one.
fn leads_to<F: SystemFiles>(
    rt: &F,
    alloc: Global,
    path: &str,
    place: Place,
) -> Result<bool, CommandError>
where
    F::File: SystemFile,
    ensures { IfErr result IsNoWordFault }
{
    match identity_at(rt, path) {
        Some(FileIdentity::Block { number }) => {
            let other = Place::of(rt, alloc, DeviceNumber::of(number))?;
            Ok(place.overlaps(other))
        }
        _ => Ok(false),
    }
}

fn identity_at<F: Files>(rt: &F, path: &str) -> Option<FileIdentity> {
    let found = fs::metadata(rt, path).ok()?;
    Some(FileIdentity::of(&found))
}

fn is_device_swap<F: SystemFiles>(rt: &F, alloc: Global, place: Place) -> Result<bool, CommandError>
where
    F::File: SystemFile,
    ensures { IfErr result IsNoWordFault }
{
    let swaps = rt.text_if_any(alloc, SWAPS)?;
    for line in swaps.iter().flat_map(|text| text.lines()) {
        let path = line.split_whitespace().next().unwrap_or("");
        if path.starts_with('/') && leads_to(rt, alloc, path, place)? {
            return Ok(true);
        }
    }
    Ok(false)
}

// Whether another device is made of a device, of its disk, or of one of its partitions.
fn is_held<F: Files>(rt: &F, alloc: Global, place: Place) -> io::Result<bool> {
    let device = place.device;
    let own = format!(in alloc; "{DEVICES}/{device}")?;
    if has_holders(rt, alloc, own.as_str())? {
        return Ok(true);
    }
    if let Some(disk) = place.disk {
        let disk = format!(in alloc; "{DEVICES}/{disk}")?;
        return has_holders(rt, alloc, disk.as_str());
    }
    for name in names_in(rt, alloc, own.as_str())?.split('\0') {
        let part = format!(in alloc; "{own}/{name}")?;
        if name.starts_with(|c: char| c.is_ascii_alphabetic())
            && has_holders(rt, alloc, part.as_str())?
        {
            return Ok(true);
        }
    }
    Ok(false)
}

// Whether another device is made of the device with this folder.
fn has_holders<F: Files>(rt: &F, alloc: Global, folder: &str) -> io::Result<bool> {
    let path = format!(in alloc; "{folder}/holders")?;
    let names = names_in(rt, alloc, path.as_str())?;
    Ok(
        names
            .split('\0')
            .any(|name| !name.is_empty() && !name.starts_with('.')),
    )
}

// The names in a folder, each ended by a NUL. There are none if it isn't there, or is no folder.
fn names_in<F: Files>(rt: &F, alloc: Global, path: &str) -> io::Result<String> {
    match rt.open_dir(path) {
        Ok(folder) => io::read_to_string(alloc, folder),
        Err(error) if matches!(error.kind(), ErrorKind::NotFound | ErrorKind::NotADirectory) => {
            Ok(String::new(alloc))
        }
        Err(error) => Err(error),
    }
}

fn is_file_used<F: SystemFiles>(
    rt: &F,
    alloc: Global,
    identity: FileIdentity,
) -> Result<bool, CommandError>
where
    F::File: SystemFile,
    ensures { IfErr result IsNoWordFault }
{
    let swaps = rt.text_if_any(alloc, SWAPS)?;
    for line in swaps.iter().flat_map(|text| text.lines()) {
        let path = line.split_whitespace().next().unwrap_or("");
        if path.starts_with('/') && identity_at(rt, path) == Some(identity) {
            return Ok(true);
        }
    }
    is_loop_used(rt, alloc, identity)
}

// Whether a loop device over a file is used.
fn is_loop_used<F: SystemFiles>(
    rt: &F,
    alloc: Global,
    identity: FileIdentity,
) -> Result<bool, CommandError>
where
    F::File: SystemFile,
    ensures { IfErr result IsNoWordFault }
{
    for name in names_in(rt, alloc, DEVICES)?.split('\0') {
        let device = match DeviceNumber::named(name) {
            Some(device) if name.starts_with(LOOP) => device,
            _ => continue,
        };
        let place = Place { device, disk: None };
        if is_over(rt, alloc, device, identity)? && is_device_used(rt, alloc, place)? {
            return Ok(true);
        }
    }
    Ok(false)
}

// Whether a loop device is over this file.
fn is_over<F: SystemFiles>(
    rt: &F,
    alloc: Global,
    device: DeviceNumber,
    identity: FileIdentity,
) -> Result<bool, CommandError>
where
    F::File: SystemFile,
    ensures { IfErr result IsNoWordFault }
{
    match backing_file(rt, alloc, device)? {
        Some(path) => Ok(identity_at(rt, path.as_str()) == Some(identity)),
        None => Ok(false),
    }
}
