//! Block devices as the files below `/sys` describe them.
ghost use Rattle.std.specs.Prelude.{IfErr};
ghost use Rattle.audit_disk.specs.FileFaults.{IsSystemFault};

use crate::{DeviceNumber, FileFault, SystemFile, SystemFiles};
use std::alloc::Global;
use std::fs::Files;

/// The path of the file behind a loop device, or nothing for any other device. If the file was removed, the path leads
/// nowhere.
pub fn backing_file<R: SystemFiles>(
    rt: &R,
    alloc: Global,
    device: DeviceNumber,
) -> Result<Option<String>, FileFault>
where
    R::File: SystemFile,
    ensures { IfErr result (IsSystemFault (R.failed rt.now)) }
{
    let path = format!(in alloc; "/sys/dev/block/{device}/loop/backing_file")?;
    let Some(text) = rt.text_if_any(alloc, path.as_str())? else {
        return Ok(None);
    };
    let name = text.strip_suffix('\n').unwrap_or(text.as_str());
    Ok(Some(String::from_str(alloc, name)?))
}

/// The disk that a device is a partition of, if it is one.
pub fn whole_disk<R: SystemFiles>(
    rt: &R,
    alloc: Global,
    device: DeviceNumber,
) -> Result<Option<DeviceNumber>, FileFault>
where
    R::File: SystemFile,
    ensures { IfErr result (IsSystemFault (R.failed rt.now)) }
{
    let part = format!(in alloc; "/sys/dev/block/{device}/partition")?;
    if rt.text_if_any(alloc, part.as_str())?.is_none() {
        return Ok(None);
    }
    let path = format!(in alloc; "/sys/dev/block/{device}/../dev")?;
    let text = rt.text_if_any(alloc, path.as_str())?;
    Ok(text.and_then(|text| DeviceNumber::named(text.as_str())))
}

/// The name of a device's node in `/dev`, if the system tells one.
pub(crate) fn node_name<R: SystemFiles>(
    rt: &R,
    alloc: Global,
    device: DeviceNumber,
) -> Result<Option<String>, FileFault>
where
    R::File: SystemFile,
    ensures { IfErr result (IsSystemFault (R.failed rt.now)) }
{
    let path = format!(in alloc; "/sys/dev/block/{device}/uevent")?;
    let Some(text) = rt.text_if_any(alloc, path.as_str())? else {
        return Ok(None);
    };
    for line in text.lines() {
        if let Some(name) = line.strip_prefix("DEVNAME=") {
            return Ok(Some(format!(in alloc; "/dev/{name}")?));
        }
    }
    Ok(None)
}
