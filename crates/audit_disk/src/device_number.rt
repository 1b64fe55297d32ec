use std::fmt;

/// The number of a block device, which all nodes that lead to it have. It is printed as the system names it, by its
/// major and its minor number: `8:1`.
#[derive(Clone, Copy, Debug, PartialEq, Eq)]
pub struct DeviceNumber {
    major: u64,
    minor: u64,
}

impl DeviceNumber {
    /// The number in the metadata of a node (`rdev`), as Linux encodes it.
    pub fn of(rdev: u64) -> DeviceNumber {
        DeviceNumber {
            major: ((rdev >> 8) & 0xfff) | ((rdev >> 32) & 0xffff_f000),
            minor: (rdev & 0xff) | ((rdev >> 12) & 0xffff_ff00),
        }
    }

    /// The number that a text names, as `8:1`. A line feed may follow.
    pub fn named(text: &str) -> Option<DeviceNumber> {
        let (major, minor) = text.trim_ascii_end().split_once(':')?;
        Some(DeviceNumber {
            major: major.parse().ok()?,
            minor: minor.parse().ok()?,
        })
    }
}

impl fmt::Display for DeviceNumber {
    fn fmt<W: fmt::Write>(&self, f: &mut fmt::Formatter<W>) -> fmt::Result {
        write!(f, "{}:{}", self.major, self.minor)
    }
}
