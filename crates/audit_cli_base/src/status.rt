/// The status with which the program exits.
#[derive(Clone, Copy, Debug, PartialEq, Eq)]
pub enum Status {
    /// Everything was done.
    Done,
    /// The input or a request was refused.
    Refused,
    /// The command line isn't valid.
    Usage,
    /// A file or a device failed.
    Device,
    /// Memory ran out.
    Memory,
}

impl Status {
    ghost use Rattle.std.specs.Prelude.{◌≡◌};
    ghost use Rattle.audit_cli_base.specs.Faults.{exit_status_of};

    /// The exit status as a number.
    pub fn code(self) -> u8
        ensures { result ≡ exit_status_of self }
    {
        match self {
            Status::Done => 0,
            Status::Refused => 1,
            Status::Usage => 2,
            Status::Device => 3,
            Status::Memory => 4,
        }
    }
}
