//! Disks of several kinds in one run, devices that failed in an earlier one, and devices whose counts can't rise.

ghost use Rattle.std.specs.Prelude.{◌≡◌, ◌+◌, ◌≤◌, ◌^◌, IfOk, None, Some, length};
ghost use Rattle.sj_edge.specs.Faults.{last_count};
ghost use Rattle.sj_edge.specs.Sizes.{AreWithin};

use crate::test_calls::{
    Answer, SUM, answer_on, bytes, call, calls, is_answered, memory, one, same, with_one_more,
};
use crate::tests_of_machines::{ROUND, ROUND_OUT, ROUND_SWAP};
use sj_base::ids::DiskNo;
use sj_edge::disk::{CheckFault, Disk};
use sj_edge::file_disk::FileDisk;
use sj_edge::gate::OpenGate;
use sj_edge::memory_disk::MemDisk;
use sj_edge::memory_sink::MemSink;
use sj_edge::memory_source::MemSource;
use sj_edge::sink::Sink;
use sj_edge::source::{Failed, Source};
use sj_top::status::Status;
use sj_top::top::{AnyDisk, Outcome};
use std::alloc::Global;
use std::fs;
use std::fs::File;
use std::rt::Files;
use std::sync::Wait;
use std::test::Fail;
use std::thread::Threads;

/// A device whose counts stand at their last value.
#[derive(Drop)]
struct Worn<T: Drop> {
    inner: T,
}

impl Disk for Worn<MemDisk> {
    ghost size = { λ d. length d.inner.bytes };

    ghost held = { λ d. Some d.inner.bytes };

    ghost faults = { λ _. last_count };

    ghost mismatches = { λ _. last_count };

    fn size(&self) -> u64 {
        self.inner.size()
    }

    fn read(&mut self, at: u64, buf: &mut [u8]) -> Result<(), Failed> {
        self.inner.read(at, buf)
    }

    fn write(&mut self, at: u64, bytes: &[u8]) -> Result<(), Failed> {
        self.inner.write(at, bytes)
    }

    fn check(&mut self, at: u64, want: &[u8; 24]) -> Result<(), CheckFault> {
        self.inner.check(at, want)
    }
}

impl Source for Worn<MemSource> {
    ghost left = { λ _. None };

    ghost faults = { λ _. last_count };

    fn read(&mut self, buf: &mut [u8]) -> Result<usize, Failed> {
        self.inner.read(buf)
    }
}

impl Sink for Worn<MemSink> {
    ghost taken = { λ _. None };

    ghost faults = { λ _. last_count };

    fn write(&mut self, bytes: &[u8]) -> Result<usize, Failed> {
        self.inner.write(bytes)
    }
}

/// The bytes of a vector's block in a `ROUND`, and of a disk that has a name behind it.
const BLOCK: u64 = 48;

const NAMED: u32 = 49;

/// A disk with its name behind the block for which it has room, where it has room for both.
fn named<D: Disk>(mut disk: D, name: u8) -> D
    ensures size { D.size result ≡ D.size disk }
{
    if disk.size() > BLOCK {
        let _ = disk.write(BLOCK, &[name]);
    }
    disk
}

/// The name of a disk that has one.
fn name_of<D: Disk>(disk: &mut D) -> Option<u8> {
    if disk.size() <= BLOCK {
        return None;
    }
    let mut name = [0];
    disk.read(BLOCK, &mut name).ok()?;
    Some(name[0])
}

const FILE: &str = "a_disk_with_a_name";

/// Three disks, each with room for a block and a name behind it: two of memory and one of a file.
fn three_kinds<R: Files<File = File>>(rt: &R, alloc: Global) -> Result<Vec<AnyDisk>, Fail>
    ensures three { IfOk result (λ disks. length disks.items ≡ 3) }
    ensures small { IfOk result (λ disks.
        AreWithin ⟦<AnyDisk as Disk>⟧.size (2 ^ 40) disks.items) }
{
    let disk = named(memory(alloc, NAMED, &[])?, b'm');
    let disks = one(alloc, Box::new(alloc, disk)?)?;
    let inner = memory(alloc, NAMED, &[])?;
    let disk = named(Worn { inner }, b'w');
    let disks = with_one_more(disks, Box::new(alloc, disk)?)?;
    let disk = named(FileDisk::at(rt, FILE, NAMED as u64), b'f');
    Ok(with_one_more(disks, Box::new(alloc, disk)?)?)
}

#[test]
fn disks_of_several_kinds_come_back_in_their_order(rt: HostRuntime) -> Result<(), Fail> {
    let alloc = rt.alloc();
    for workers in ["1", "4"] {
        let _ = fs::remove_file(&rt, FILE);
        let words = ["--workers", workers, "--node", "48"];
        let disks = three_kinds(&rt, alloc)?;
        let mut answer = answer_on(&rt, alloc, &words, ROUND.as_bytes(), disks, &OpenGate)?;
        is_answered(&rt, &answer, Status::Done, ROUND_OUT, workers);
        let mut names = Vec::new(alloc);
        for disk in answer.outcome.disks.iter_mut() {
            names.push(name_of(disk))?;
        }
        let wanted = [Some(b'm'), Some(b'w'), Some(b'f')];
        same(&rt, names.as_slice(), wanted.as_slice());
    }
    fs::remove_file(&rt, FILE)?;
    Ok(())
}

/// How a `ROUND` ends on a disk whose counts stand at their last value, and which refuses this call, and how it ends when it is
/// run again on what came back.
fn ends_on_disk<R: Threads + Wait + Sync>(
    rt: &R,
    alloc: Global,
    refused: u64,
) -> Result<(Status, Option<Status>), Fail> {
    let words = ["--node", "48"];
    let inner = memory(alloc, ROUND_SWAP, &[refused])?;
    let disks = one(alloc, Box::new(alloc, Worn { inner })?)?;
    let Answer { outcome, .. } = answer_on(rt, alloc, &words, ROUND.as_bytes(), disks, &OpenGate)?;
    let Outcome {
        status,
        mut disks,
        ..
    } = outcome;
    let Some(disk) = disks.pop() else {
        return Ok((status, None));
    };
    if disk.size() > ROUND_SWAP as u64 {
        return Ok((status, None));
    }
    let disks = one(alloc, disk)?;
    let again = answer_on(rt, alloc, &words, ROUND.as_bytes(), disks, &OpenGate)?;
    Ok((status, Some(again.outcome.status)))
}

#[test]
fn a_disk_that_failed_in_an_earlier_run_is_not_to_blame(rt: HostRuntime) -> Result<(), Fail> {
    let fault = Status::DiskFault { disk: DiskNo(0) };
    for refused in 1..=6 {
        let ended = ends_on_disk(&rt, rt.alloc(), refused)?;
        same(&rt, ended, (fault, Some(Status::Done)));
    }
    Ok(())
}

#[test]
fn a_source_and_an_out_that_failed_in_an_earlier_run_are_not_to_blame(
    rt: HostRuntime,
) -> Result<(), Fail> {
    let alloc = rt.alloc();
    let inner = MemSource::new(bytes(alloc, SUM)?, calls(alloc, &[1])?);
    let mut source = Worn { inner };
    let inner = MemSink::new(alloc, 1000, calls(alloc, &[1])?)?;
    let mut out = Worn { inner };
    let mut err = MemSink::new(alloc, 1000, Vec::new(alloc))?;
    let first = call(&rt, alloc, &mut source, &mut out, &mut err)?;
    same(&rt, first.status, Status::SourceFault);
    let second = call(&rt, alloc, &mut source, &mut out, &mut err)?;
    same(&rt, second.status, Status::SinkFault);
    let inner = MemSource::new(bytes(alloc, SUM)?, Vec::new(alloc));
    let mut source = Worn { inner };
    let third = call(&rt, alloc, &mut source, &mut out, &mut err)?;
    same(&rt, third.status, Status::Done);
    Ok(())
}
