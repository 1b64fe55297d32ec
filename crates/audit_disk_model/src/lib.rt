//! The crash model of a device of sectors: what its calls do, and what a crash at each moment may leave.
#![tactic(auto)]

mod fault;
pub mod laws;
mod sectors;
mod window;

pub use audit_base::SECTOR_SIZE;
pub use fault::DeviceFault;
pub use sectors::Sectors;
pub use window::{publish, write_sectors};
