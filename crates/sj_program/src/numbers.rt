//! The numbers of the standard streams.

use std::fs::File;
use std::os::fd::{AsRawFd, IntoRawFd};
use std::rt::Files;

/// The number of standard output.
pub const STDOUT: u8 = 1;

/// The number of standard error, the last of the standard streams.
pub const STDERR: u8 = 2;

/// Occupies the numbers of the standard streams that are closed, so that no file of the program's own gets one of them. What
/// stands there then is a folder that is open for reading: it gives no byte and takes none.
pub fn occupy_streams<R: Files<File = File>>(rt: &R) {
    for _ in 0..=STDERR {
        let Ok(folder) = File::open(rt, "/") else {
            return;
        };
        if folder.as_raw_fd() > i32::from(STDERR) {
            return;
        }
        folder.into_raw_fd();
    }
}
