//! The descriptors of standard input, output and error.

use std::fs::{File, OpenOptions};
use std::io;
use std::os::fd::{AsRawFd, IntoRawFd, RawFd};

/// The descriptor above those of the standard streams.
pub(crate) const FIRST_FREE: RawFd = 3;

/// Opens something at each standard descriptor that the program was started without, so that nothing
/// that is opened later becomes a standard stream. Each is open in the direction in which its stream
/// isn't used: reading and writing it fails as where it is closed. To be called before anything else
/// is opened.
pub fn fill_standard_descriptors(rt: &HostRuntime) {
    for standard in 0..FIRST_FREE {
        // Where nothing can be opened, connections and pipes at these descriptors are refused.
        let _ = fill(rt, standard);
    }
}

/// Opens the null device or, where there is none, the root folder, which can be read and written as
/// little, and leaves it open where it has this descriptor.
fn fill(rt: &HostRuntime, standard: RawFd) -> io::Result<()> {
    let null = if standard == 0 {
        OpenOptions::new().write(true).open(rt, "/dev/null")
    } else {
        File::open(rt, "/dev/null")
    };
    let filler = match null {
        Ok(null) => null,
        Err(_) => File::open(rt, "/")?,
    };
    if filler.as_raw_fd() == standard {
        let _ = filler.into_raw_fd();
    }
    Ok(())
}
