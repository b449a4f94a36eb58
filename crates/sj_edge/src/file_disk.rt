//! A disk over one file.

ghost use Rattle.std.specs.Prelude.{◌≡◌, None};

use crate::disk::{CheckFault, Disk};
use crate::source::Failed;
use std::fs::{File, OpenOptions};
use std::io;
use std::io::ErrorKind;
use std::os::unix::fs::FileExt;
use std::rt::Files;

/// Keeps bytes in a file, counts the errors of its calls, and keeps the cause of the last one. Tells nothing.
///
/// A read that meets the end of the file is a fault, and so is a write that doesn't fit a full
/// device. Where the file can't be opened, each read, write and check is a fault.
#[derive(Drop)]
pub struct FileDisk {
    file: Option<File>,
    size: u64,
    faults: u64,
    mismatches: u64,
    cause: Option<i32>,
}

/// Opens the file, and makes it with this size where there is none.
fn open_or_make<R: Files<File = File>>(rt: &R, path: &str, size: u64) -> io::Result<File> {
    match OpenOptions::new()
        .read(true)
        .write(true)
        .create_new(true)
        .open(rt, path)
    {
        Ok(file) => {
            file.set_len(size)?;
            Ok(file)
        }
        Err(e) if e.kind() == ErrorKind::AlreadyExists => {
            OpenOptions::new().read(true).write(true).open(rt, path)
        }
        Err(e) => Err(e),
    }
}

impl FileDisk {
    ghost use Rattle.sj_edge.specs.Files.{file_size, file_faults, file_mismatches};

    /// A disk of so many bytes over this file, which is made with that size where it isn't there.
    pub fn at<R: Files<File = File>>(rt: &R, path: &str, size: u64) -> FileDisk
        ensures size { file_size result ≡ size }
        ensures faults { file_faults result ≡ 0 }
        ensures mismatches { file_mismatches result ≡ 0 }
    {
        FileDisk {
            file: open_or_make(rt, path, size).ok(),
            size,
            faults: 0,
            mismatches: 0,
            cause: None,
        }
    }

    /// A disk of so many bytes over a file that is open already, for reading and writing. What the file holds from its end
    /// on isn't there: a read of it is a fault.
    pub fn over(file: File, size: u64) -> FileDisk
        ensures size { file_size result ≡ size }
        ensures faults { file_faults result ≡ 0 }
        ensures mismatches { file_mismatches result ≡ 0 }
    {
        FileDisk {
            file: Some(file),
            size,
            faults: 0,
            mismatches: 0,
            cause: None,
        }
    }

    /// How many faults there were. Constant time.
    pub fn faults(&self) -> u64
        ensures { result ≡ file_faults self.now }
    {
        self.faults
    }

    /// How many checks differed. Constant time.
    pub fn mismatches(&self) -> u64
        ensures { result ≡ file_mismatches self.now }
    {
        self.mismatches
    }

    /// The system's number of the cause of its last fault, where it told one. Constant time.
    pub fn cause(&self) -> Option<i32> {
        self.cause
    }
}

/// Reads all of `buf` from `at` on. The error is the system's number of the cause, where it tells one.
fn read_all(file: &Option<File>, at: u64, buf: &mut [u8]) -> Result<(), Option<i32>> {
    let Some(file) = file else {
        return Err(None);
    };
    file.read_exact_at(buf, at).map_err(|e| e.raw_os_error())
}

/// Writes all of `bytes` from `at` on. The error is the system's number of the cause, where it tells one.
fn write_all(file: &Option<File>, at: u64, bytes: &[u8]) -> Result<(), Option<i32>> {
    let Some(file) = file else {
        return Err(None);
    };
    file.write_all_at(bytes, at).map_err(|e| e.raw_os_error())
}

impl Disk for FileDisk {
    ghost size = { λ d. d.size };

    ghost held = { λ _. None };

    ghost faults = { λ d. d.faults };

    ghost mismatches = { λ d. d.mismatches };

    fn size(&self) -> u64 {
        self.size
    }

    fn read(&mut self, at: u64, buf: &mut [u8]) -> Result<(), Failed> {
        match read_all(&self.file, at, buf) {
            Ok(()) => Ok(()),
            Err(cause) => {
                self.faults = self.faults.saturating_add(1);
                self.cause = cause;
                Err(Failed)
            }
        }
    }

    fn write(&mut self, at: u64, bytes: &[u8]) -> Result<(), Failed> {
        match write_all(&self.file, at, bytes) {
            Ok(()) => Ok(()),
            Err(cause) => {
                self.faults = self.faults.saturating_add(1);
                self.cause = cause;
                Err(Failed)
            }
        }
    }

    fn check(&mut self, at: u64, want: &[u8; 24]) -> Result<(), CheckFault> {
        let mut found = [0u8; 24];
        if self.read(at, &mut found).is_err() {
            return Err(CheckFault::Failed);
        }
        if found == *want {
            return Ok(());
        }
        self.mismatches = self.mismatches.saturating_add(1);
        Err(CheckFault::Differs(found))
    }
}
