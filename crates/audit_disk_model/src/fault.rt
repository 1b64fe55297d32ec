use thiserror::Error;

/// A call of a device failed. The call's contract states what a crash may then leave.
#[derive(Clone, Copy, Debug, PartialEq, Eq, Error)]
#[error("the device failed")]
pub struct DeviceFault;
