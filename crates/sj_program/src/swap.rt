//! The file that a run swaps to.

use crate::room::file_size_limit;
use std::fs::{File, FileType, OpenOptions};
use std::io::{Error, ErrorKind};
use std::os::unix::fs::{FileTypeExt, OpenOptionsExt};
use std::rt::{Clock, Files};
use std::{fs, io};

/// How many names of a file in a folder are tried.
const NAMES_TRIED: u32 = 100;

/// The system's number of the cause that a file is there.
const FILE_EXISTS: i32 = 17;

/// The system's number of the cause that a file has no places to read from or write to.
const ILLEGAL_SEEK: i32 = 29;

/// The system's number of the cause that a file would be larger than it may be.
const FILE_TOO_LARGE: i32 = 27;

/// What a path is, where it is to be swapped to.
enum PathKind {
    Nothing,
    Folder,
    Regular,
    Stream,
    Device,
}

/// Whether it is a pipe or a socket, which has no places.
fn is_stream(kind: FileType) -> bool {
    kind.is_fifo() || kind.is_socket()
}

/// What there is at a path.
fn place_at(files: &impl Files, path: &str) -> io::Result<PathKind> {
    match fs::metadata(files, path) {
        Ok(found) if found.is_dir() => Ok(PathKind::Folder),
        Ok(found) if found.is_file() => Ok(PathKind::Regular),
        Ok(found) if is_stream(found.file_type()) => Ok(PathKind::Stream),
        Ok(_) => Ok(PathKind::Device),
        Err(e) if e.kind() == ErrorKind::NotFound => Ok(PathKind::Nothing),
        Err(e) => Err(e),
    }
}

/// Opens the file that `--swap PATH` asks for, of so many bytes.
///
/// Where nothing is at the path, the file is made new, and its name is removed at once: it is this run's alone, and goes with
/// it, however it ends. A folder means such a file in it. Neither a regular file that is there is taken, nor a pipe
/// or a socket, which has no places; a device is used as it is. The error is the system's cause.
pub fn open_swap<R>(rt: &R, path: &str, size: u64) -> io::Result<File>
where
    R: Files<File = File> + Alloc + Clock,
{
    match place_at(rt, path)? {
        PathKind::Nothing => private_file(rt, path, size),
        PathKind::Folder => private_file_in(rt, path, size),
        PathKind::Regular => Err(Error::from_raw_os_error(FILE_EXISTS)),
        PathKind::Stream => Err(Error::from_raw_os_error(ILLEGAL_SEEK)),
        PathKind::Device => open_as_it_is(rt, path),
    }
}

/// Opens what is there, unless it is a regular file by now.
fn open_as_it_is<R: Files<File = File>>(files: &R, path: &str) -> io::Result<File> {
    let file = OpenOptions::new().read(true).write(true).open(files, path)?;
    if file.metadata()?.is_file() {
        return Err(Error::from_raw_os_error(FILE_EXISTS));
    }
    Ok(file)
}

/// Makes a file of so many bytes where there is none, and removes its name.
fn private_file<R>(rt: &R, path: &str, size: u64) -> io::Result<File>
where
    R: Files<File = File> + Alloc,
{
    if file_size_limit(rt).is_some_and(|most| most < size) {
        return Err(Error::from_raw_os_error(FILE_TOO_LARGE));
    }
    let file = OpenOptions::new()
        .read(true)
        .write(true)
        .create_new(true)
        .mode(0o600)
        .open(rt, path)?;
    fs::remove_file(rt, path)?;
    file.set_len(size)?;
    Ok(file)
}

/// The same in a folder, under a name that nobody has there.
fn private_file_in<R>(rt: &R, folder: &str, size: u64) -> io::Result<File>
where
    R: Files<File = File> + Alloc + Clock,
{
    let began = rt.since_1970()?.as_nanos();
    for number in 0..NAMES_TRIED {
        let path = format!(in rt.alloc(); "{folder}/starjob-swap-{began:x}-{number}")?;
        match private_file(rt, path.as_str(), size) {
            Err(e) if e.kind() == ErrorKind::AlreadyExists => {}
            made => return made,
        }
    }
    Err(Error::from_raw_os_error(FILE_EXISTS))
}
