use std::fs::OpenOptions;
use std::io;
use std::os::fd::{AsRawFd, IntoRawFd};

// The highest descriptor of a standard stream.
const STANDARD_ERROR: i32 = 2;

/// Opens `/dev/null` for each standard stream that the program was started without. Otherwise a file opened later
/// would take the stream's place, and messages would be written into it.
pub fn hold_standard_streams(rt: &HostRuntime) -> io::Result<()> {
    for _ in 0..=STANDARD_ERROR {
        let file = OpenOptions::new()
            .read(true)
            .write(true)
            .open(rt, "/dev/null")?;
        if file.as_raw_fd() > STANDARD_ERROR {
            return Ok(());
        }
        // The descriptor stays open.
        let _ = file.into_raw_fd();
    }
    Ok(())
}
