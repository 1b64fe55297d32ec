ghost use Rattle.std.specs.Prelude.{◌≡◌, ◌+◌, ◌<◌, ◌≤◌, length, OnOk};
ghost use Rattle.audit_disk_model.specs.Calls.{CountsFailure};
ghost use Rattle.audit_disk_model.specs.Moments.{AtEachMoment};
ghost use Rattle.audit_disk_model.specs.Window.{WritesRow, IsBeforeOrPublished, Publishes};

use crate::{DeviceFault, SECTOR_SIZE, Sectors};

/// Writes consecutive sectors, starting with number `at`, one call each. Nothing is synced. After a fault some of them
/// may be written, and at most one call was made for each.
pub fn write_sectors<D: Sectors>(
    disk: &mut D,
    at: u64,
    sectors: &[[u8; SECTOR_SIZE]],
) -> Result<(), DeviceFault>
    requires { at + length sectors.now ≤ (D.view disk.old).size }

    ensures { WritesRow (D.view disk.old) (D.view disk.new) at sectors.now result }
{
    for (k, sector) in sectors.iter().enumerate() {
        disk.write(at + k as u64, sector)?;
    }
    Ok(())
}

/// Writes a window of sectors and syncs, then writes one sector that marks it and syncs. A crash at any moment leaves
/// the old content except for the window, or the window with its mark.
pub fn publish<D: Sectors>(
    disk: &mut D,
    at: u64,
    window: &[[u8; SECTOR_SIZE]],
    mark_at: u64,
    mark: &[u8; SECTOR_SIZE],
) -> Result<(), DeviceFault>
    requires window { at + length window.now ≤ (D.view disk.old).size }
    requires mark { mark_at < (D.view disk.old).size }

    ensures done { OnOk result (Publishes (D.view disk.old) (D.view disk.new)
        at window.now mark_at mark.now) }
    ensures any_moment { AtEachMoment (D.view disk.old) (D.view disk.new)
        (IsBeforeOrPublished (D.view disk.old) at window.now mark_at mark.now) }
    ensures cause { CountsFailure (D.view disk.old).failures (D.view disk.new).failures result }
{
    write_sectors(disk, at, window)?;
    disk.sync()?;
    disk.write(mark_at, mark)?;
    disk.sync()?;
    Ok(())
}
