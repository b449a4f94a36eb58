//! Each device once, with calls that fail.

ghost use Rattle.sj_edge.specs.GivenBack.{AreUntouched};

use sj_base::ids::Task;
use sj_edge::disk::{CheckFault, Disk, add_disk};
use sj_edge::file_disk::FileDisk;
use sj_edge::gate::{Gate, OpenGate};
use sj_edge::memory_disk::MemDisk;
use sj_edge::memory_sink::MemSink;
use sj_edge::memory_source::MemSource;
use sj_edge::sink::Sink;
use sj_edge::source::{Failed, Source};
use sj_edge::standard::{StdSink, StdSource};
use sj_edge::sure::{SureDisk, SureSink, SureSource};
use std::fmt::Debug;
use std::io::{ErrorKind, Read, Write};
use std::process::Abort;
use std::test::Fail;
use std::{fs, io};

/// Two values are equal.
fn same<R: Abort, T: PartialEq + Debug + Drop>(rt: &R, found: T, wanted: T) {
    assert_eq!(rt; found, wanted);
}

#[test]
fn a_memory_source_gives_its_bytes_and_fails_where_told(rt: HostRuntime) -> Result<(), Fail> {
    let bytes = [1, 2, 3, 4, 5].to_vec(rt.alloc())?;
    let fail = [2].to_vec(rt.alloc())?;
    let mut source = MemSource::new(bytes, fail);
    let mut buf = [0; 3];
    same(&rt, source.read(&mut buf), Ok(3));
    same(&rt, buf, [1, 2, 3]);
    same(&rt, source.read(&mut buf), Err(Failed));
    same(&rt, source.faults(), 1);
    same(&rt, source.read(&mut buf), Ok(2));
    same(&rt, buf[0], 4);
    same(&rt, buf[1], 5);
    same(&rt, source.read(&mut buf), Ok(0));
    same(&rt, source.faults(), 1);
    Ok(())
}

#[test]
fn a_memory_sink_takes_bytes_while_there_is_room(rt: HostRuntime) -> Result<(), Fail> {
    let fail = [2].to_vec(rt.alloc())?;
    let mut sink = MemSink::new(rt.alloc(), 4, fail)?;
    same(&rt, sink.write(b"abc"), Ok(3));
    same(&rt, sink.write(b"de"), Err(Failed));
    same(&rt, sink.write(b"de"), Ok(1));
    same(&rt, sink.write(b"e"), Err(Failed));
    same(&rt, sink.write(b""), Ok(0));
    same(&rt, sink.taken(), b"abcd".as_slice());
    same(&rt, sink.faults(), 2);
    Ok(())
}

#[test]
fn a_memory_disk_keeps_bytes_and_fails_where_told(rt: HostRuntime) -> Result<(), Fail> {
    let fail = [3, 4, 5].to_vec(rt.alloc())?;
    let mut disk = MemDisk::new(rt.alloc(), 32, fail)?;
    same(&rt, disk.size(), 32);
    let mut want = [0; 24];
    same(&rt, disk.write(3, &[9]), Ok(()));
    same(&rt, disk.check(8, &want), Ok(()));
    same(&rt, disk.check(8, &want), Err(CheckFault::Failed));
    same(&rt, disk.write(0, &[1]), Err(Failed));
    same(&rt, disk.read(0, &mut want), Err(Failed));
    same(&rt, disk.faults(), 3);
    want[2] = 9;
    same(&rt, disk.check(1, &want), Ok(()));
    same(&rt, disk.check(8, &want), Err(CheckFault::Differs([0; 24])));
    same(&rt, disk.mismatches(), 1);
    let mut buf = [7; 3];
    same(&rt, disk.read(2, &mut buf), Ok(()));
    same(&rt, buf, [0, 9, 0]);
    same(&rt, disk.faults(), 3);
    let bytes = disk.into_bytes();
    same(&rt, bytes.len(), 32);
    same(&rt, bytes[3], 9);
    Ok(())
}

#[test]
fn sure_devices_do_what_they_are_asked(rt: HostRuntime) -> Result<(), Fail> {
    let mut source = SureSource::new([5, 6, 7].to_vec(rt.alloc())?);
    let mut buf = [0; 2];
    same(&rt, source.read(&mut buf), Ok(2));
    same(&rt, buf, [5, 6]);
    same(&rt, source.read(&mut buf), Ok(1));
    same(&rt, buf[0], 7);

    let mut sink = SureSink::new();
    same(&rt, sink.write(b"abc"), Ok(3));

    let mut disk = SureDisk::new(rt.alloc(), 25)?;
    same(&rt, disk.size(), 25);
    same(&rt, disk.write(24, &[1]), Ok(()));
    same(&rt, disk.check(0, &[0; 24]), Ok(()));
    let mut found = [0; 24];
    found[23] = 1;
    same(
        &rt,
        disk.check(1, &[0; 24]),
        Err(CheckFault::Differs(found)),
    );
    same(&rt, disk.mismatches(), 1);
    same(&rt, disk.read(23, &mut buf), Ok(()));
    same(&rt, buf, [0, 1]);
    same(&rt, disk.bytes()[24], 1);

    let gate = OpenGate;
    gate.begins(1);
    gate.entered(Task(0));
    gate.left(Task(0));
    Ok(())
}

/// Interrupted, one byte, a fault, and then interrupted for good.
#[derive(Drop)]
struct FailingReader {
    calls: u8,
}

impl Read for FailingReader {
    fn read(&mut self, buf: &mut [u8]) -> io::Result<usize> {
        self.calls = self.calls.saturating_add(1);
        let [first, ..] = buf else {
            return Ok(0);
        };
        match self.calls {
            2 => {
                *first = 42;
                Ok(1)
            }
            3 => Err(ErrorKind::BrokenPipe.into()),
            _ => Err(ErrorKind::Interrupted.into()),
        }
    }
}

#[test]
fn a_standard_source_reads_on_where_it_was_interrupted_and_counts_faults(rt: HostRuntime) {
    let mut text = StdSource::over(b"abc".as_slice());
    let mut buf = [0; 2];
    same(&rt, text.read(&mut buf), Ok(2));
    same(&rt, buf, *b"ab");
    same(&rt, text.read(&mut buf), Ok(1));
    same(&rt, buf[0], b'c');
    same(&rt, text.read(&mut buf), Ok(0));
    same(&rt, text.faults(), 0);

    let mut failing = StdSource::over(FailingReader { calls: 0 });
    same(&rt, failing.read(&mut buf), Ok(1));
    same(&rt, buf[0], 42);
    same(&rt, failing.read(&mut buf), Err(Failed));
    same(&rt, failing.read(&mut buf), Err(Failed));
    same(&rt, failing.faults(), 2);
}

/// Interrupted, takes all, takes nothing, takes all; the third flush fails.
#[derive(Drop)]
struct FailingWriter {
    writes: u8,
    flushes: u8,
}

impl Write for FailingWriter {
    fn write(&mut self, bytes: &[u8]) -> io::Result<usize> {
        self.writes = self.writes.saturating_add(1);
        match self.writes {
            1 => Err(ErrorKind::Interrupted.into()),
            3 => Ok(0),
            _ => Ok(bytes.len()),
        }
    }

    fn flush(&mut self) -> io::Result<()> {
        self.flushes = self.flushes.saturating_add(1);
        if self.flushes == 3 {
            return Err(ErrorKind::BrokenPipe.into());
        }
        Ok(())
    }
}

#[test]
fn a_standard_sink_flushes_each_write_and_counts_faults(rt: HostRuntime) {
    let mut text = StdSink::over(Vec::new(rt.alloc()));
    same(&rt, text.write(b"ab"), Ok(2));
    same(&rt, text.write(b""), Ok(0));
    same(&rt, text.write(b"c"), Ok(1));
    same(&rt, text.faults(), 0);
    same(&rt, text.into_inner().as_slice(), b"abc".as_slice());

    let mut failing = StdSink::over(FailingWriter {
        writes: 0,
        flushes: 0,
    });
    same(&rt, failing.write(b"ab"), Ok(2));
    same(&rt, failing.write(b"ab"), Err(Failed));
    same(&rt, failing.write(b"ab"), Err(Failed));
    same(&rt, failing.faults(), 2);
    let writer = failing.into_inner();
    same(&rt, writer.writes, 4);
    same(&rt, writer.flushes, 3);
}

fn hand_back(disks: Vec<Box<dyn Disk + Send>>) -> Vec<Box<dyn Disk + Send>>
    ensures { AreUntouched ⟦<Box<dyn Disk + Send> as Disk>⟧.size
        ⟦<Box<dyn Disk + Send> as Disk>⟧.faults ⟦<Box<dyn Disk + Send> as Disk>⟧.mismatches
        ⟦<Box<dyn Disk + Send> as Disk>⟧.held disks.items result.items }
{
    disks
}

#[test]
fn boxes_of_disks_come_back_in_order(rt: HostRuntime) -> Result<(), Fail> {
    let mut disks = Vec::new(rt.alloc());
    let told = MemDisk::new(rt.alloc(), 8, [1].to_vec(rt.alloc())?)?;
    add_disk(&mut disks, Box::new(rt.alloc(), told)?)?;
    add_disk(
        &mut disks,
        Box::new(rt.alloc(), SureDisk::new(rt.alloc(), 16)?)?,
    )?;
    let mut back = hand_back(disks);
    assert_eq!(rt; back.len(), 2);
    assert_eq!(rt; back[0].size(), 8);
    same(&rt, back[0].write(0, &[3]), Err(Failed));
    assert_eq!(rt; back[1].size(), 16);
    same(&rt, back[1].write(0, &[3]), Ok(()));
    Ok(())
}

#[test]
fn a_file_disk_keeps_bytes_in_its_file(rt: HostRuntime) -> Result<(), Fail> {
    let path = "a_file_disk";
    let _ = fs::remove_file(&rt, path);
    let mut disk = FileDisk::at(&rt, path, 32);
    let mut want = [7; 24];
    same(&rt, disk.size(), 32);
    same(&rt, disk.write(8, &want), Ok(()));
    same(&rt, disk.check(8, &want), Ok(()));
    want[0] = 0;
    same(&rt, disk.check(7, &want), Ok(()));
    same(&rt, disk.check(8, &want), Err(CheckFault::Differs([7; 24])));
    same(&rt, (disk.faults(), disk.mismatches()), (0, 1));

    let mut again = FileDisk::at(&rt, path, 32);
    let mut buf = [9; 3];
    same(&rt, again.read(6, &mut buf), Ok(()));
    same(&rt, buf, [0, 0, 7]);
    fs::OpenOptions::new()
        .write(true)
        .open(&rt, path)?
        .set_len(31)?;
    same(&rt, again.read(28, &mut buf), Ok(()));
    same(&rt, again.read(29, &mut buf), Err(Failed));
    same(&rt, again.check(8, &[7; 24]), Err(CheckFault::Failed));
    same(&rt, (again.faults(), again.mismatches()), (2, 0));

    let file = fs::OpenOptions::new()
        .read(true)
        .write(true)
        .open(&rt, path)?;
    fs::remove_file(&rt, path)?;
    let mut over = FileDisk::over(file, 32);
    same(&rt, over.check(7, &want), Ok(()));
    same(&rt, over.write(31, &[1]), Ok(()));
    same(&rt, over.read(29, &mut buf), Ok(()));
    same(&rt, buf, [7, 7, 1]);
    same(&rt, (over.faults(), over.mismatches()), (0, 0));
    Ok(())
}

#[test]
fn a_file_disk_fails_where_the_system_does(rt: HostRuntime) -> Result<(), Fail> {
    let mut full = FileDisk::at(&rt, "/dev/full", 32);
    same(&rt, full.cause(), None);
    same(&rt, full.write(0, &[1]), Err(Failed));
    same(&rt, (full.faults(), full.cause()), (1, Some(28)));

    let mut disks = Vec::new(rt.alloc());
    let closed = FileDisk::at(&rt, "no_such_folder/disk", 32);
    add_disk(&mut disks, Box::new(rt.alloc(), closed)?)?;
    let closed = &mut disks[0];
    assert!(rt; closed.size() == 32);
    same(&rt, closed.read(0, &mut [0; 2]), Err(Failed));
    same(&rt, closed.write(0, &[]), Err(Failed));
    same(&rt, closed.check(0, &[0; 24]), Err(CheckFault::Failed));
    Ok(())
}
