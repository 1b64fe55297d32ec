//! Laws of devices in files.
ghost use Rattle.std.specs.Prelude.{◌≡◌, ◌≤◌, ◌^◌, ◌*◌};
ghost use Rattle.audit_base.specs.declared.limits.TheConstants.{SECTOR_SIZE};
ghost use Rattle.audit_disk.specs.FileDisk.{file_of, file_inside};
ghost use Rattle.audit_disk.specs.OsFile.{file_below};
ghost use Rattle.audit_disk.specs.declared.files.TheConstants.{OWNER_ONLY};
ghost use Rattle.audit_disk.specs.declared.kept_row.TheConstants.{KEPT_FROM};
ghost use Rattle.audit_disk.specs.declared.read_ahead.TheConstants.{ROWS_FROM, ROW_SECTORS};

use crate::{FileDisk, OsFile, PositionedFile};

/// If the file of a device has counted a failure, a call of the system's file has failed. So each error of the device
/// is one of the system's, since it raises the count of its file. The function does nothing: its contract is the law.
pub fn counted_failures_are_of_calls<F: PositionedFile>(disk: &FileDisk<OsFile<F>>)
    ensures { 1 ≤ (file_of disk.now).failures → (F.positioned (file_below (file_inside disk.now))).failed }
{}

/// The numbers of a device in a file. The first sectors, a store's headers with its key, are written at once and never
/// kept, and they and what follows them are read one by one, so no row in memory has them. A row is 64 KiB. A new file
/// is its owner's alone (0600). The function does nothing: its contract is the law.
pub fn limits_are_these_numbers()
    ensures kept_from { KEPT_FROM ≡ 2 }
    ensures rows_from { ROWS_FROM ≡ 2 * SECTOR_SIZE }
    ensures row { ROW_SECTORS * SECTOR_SIZE ≡ 2 ^ 16 }
    ensures mode { OWNER_ONLY ≡ 384 }
{}
