ghost use Rattle.std.specs.Prelude.{◌≡◌, length};
ghost use Rattle.audit_base.specs.declared.limits.TheConstants.{SECTOR_SIZE};

use crate::SECTOR_SIZE;

/// The bytes that one sector held at some time.
#[derive(Clone, Copy)]
pub(crate) struct Block {
    pub(crate) bytes: [u8; SECTOR_SIZE],
    ghost whole: { length bytes ≡ SECTOR_SIZE },
}
