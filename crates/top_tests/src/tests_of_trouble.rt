//! Whole jobs on disks that fail, that lose what was written, and that answer with something else.

ghost use Rattle.std.specs.Prelude.{◌+◌, ◌≤◌, ◌^◌, None, length};

use crate::test_calls::{Answer, answer_on, is_answered, memory, one, only, same};
use crate::tests_of_machines::{ROUND, ROUND_OUT, ROUND_SWAP};
use sj_base::ids::{DiskNo, Task};
use sj_disk::header::Header;
use sj_edge::disk::{CheckFault, Disk};
use sj_edge::file_disk::FileDisk;
use sj_edge::gate::{Gate, OpenGate};
use sj_edge::memory_disk::MemDisk;
use sj_edge::source::Failed;
use sj_top::status::Status;
use sj_top::top::AnyDisk;
use std::alloc::Global;
use std::fs;
use std::fs::File;
use std::process::Abort;
use std::rt::Files;
use std::sync::Wait;
use std::test::Fail;
use std::thread::Threads;

/// The answer to a `ROUND` on a node that holds two of its vectors, with this disk.
fn answer_tight<G: Gate, R: Threads + Wait + Sync>(
    rt: &R,
    alloc: Global,
    disk: AnyDisk,
    gate: &G,
) -> Result<Answer, Fail>
    requires { ⟦<AnyDisk as Disk>⟧.size disk ≤ 2 ^ 40 }
{
    let words = ["--node", "48"];
    let disks = one(alloc, disk)?;
    answer_on(rt, alloc, &words, ROUND.as_bytes(), disks, gate)
}

/// The disk is to blame, and nothing is written.
fn is_failed<D, R: Abort>(rt: &R, answer: &Answer<D>) {
    let fault = Status::DiskFault { disk: DiskNo(0) };
    is_answered(rt, answer, fault, "", "a fault");
}

/// A job whose vectors don't fit its node together, what it prints, and how often it calls its disk by one worker.
struct Evicting {
    text: &'static str,
    out: &'static str,
    calls: u64,
}

/// Three vectors on a node that holds two of them, each of them scaled.
pub const SCALED: &str =
    "starjob 1\nnode 64\nvector a 3 values 1 2 3\nvector b 3 values 4 5 6\nvector c 3 values 7 8 9\ntask scale(2) a:RW\ntask scale(3) b:RW\ntask scale(5) c:RW\nprint a\n";

/// What that prints.
pub const SCALED_OUT: &str = "a: 2 4 6\n";

const EVICTING: [Evicting; 2] = [
    Evicting {
        // a `ROUND` on a node that holds two of its vectors
        text: "starjob 1\nnode 48\nvector x 3 values 1 2 3\nvector y 3 values 10 20 30\nvector z 3 values 100 200 300\ntask add x:R y:RW\ntask add y:R z:RW\ntask add z:R x:RW\nprint x\nprint y\nprint z\n",
        out: ROUND_OUT,
        calls: 12,
    },
    Evicting {
        text: SCALED,
        out: SCALED_OUT,
        calls: 18,
    },
];

/// The faults of a disk that refuses these calls. With one the disk is to blame and nothing is written, else the job is done.
fn faults_of<R: Threads + Wait + Abort + Sync>(
    rt: &R,
    alloc: Global,
    job: &Evicting,
    workers: &str,
    refused: &[u64],
) -> Result<u64, Fail> {
    let words = ["--workers", workers];
    let disks = only(alloc, memory(alloc, ROUND_SWAP, refused)?)?;
    let answer = answer_on(rt, alloc, &words, job.text.as_bytes(), disks, &OpenGate)?;
    assert_eq!(rt; answer.outcome.disks.len(), 1);
    let faults = answer.outcome.disks[0].faults();
    if faults > 0 {
        is_failed(rt, &answer);
    } else {
        is_answered(rt, &answer, Status::Done, job.out, workers);
    }
    Ok(faults)
}

/// The faults where one call is refused, and where each from that one on is.
fn faults_at<R: Threads + Wait + Abort + Sync>(
    rt: &R,
    alloc: Global,
    job: &Evicting,
    workers: &str,
    call: u64,
) -> Result<(u64, u64), Fail> {
    let mut from = Vec::new(alloc);
    for number in call..100 {
        from.push(number)?;
    }
    let one = faults_of(rt, alloc, job, workers, &[call])?;
    Ok((one, faults_of(rt, alloc, job, workers, &from)?))
}

#[test]
fn each_call_that_a_disk_refuses_one_worker_is_its_one_fault(rt: HostRuntime) -> Result<(), Fail> {
    for job in &EVICTING {
        for call in 1..=job.calls.saturating_add(2) {
            let faults = u64::from(call <= job.calls);
            let came = faults_at(&rt, rt.alloc(), job, "1", call)?;
            same(&rt, (call, came), (call, (faults, faults)));
        }
    }
    Ok(())
}

// The threads decide how many calls there are: two at least, since a vector that goes out is stored. From a call on that is
// refused, a worker meets one fault at most.
#[test]
fn a_call_that_a_disk_refuses_four_workers_is_a_fault_or_never_comes(
    rt: HostRuntime,
) -> Result<(), Fail> {
    for job in &EVICTING {
        for call in 1..=job.calls {
            let (one, from) = faults_at(&rt, rt.alloc(), job, "4", call)?;
            assert!(rt; one <= 1 && from <= 4, "{one} and {from} at {call}");
            assert!(rt; one > 0 && from > 0 || call > 2, "at {call}");
        }
    }
    Ok(())
}

/// What a disk does in place of keeping what is written and giving it back.
#[derive(Clone, Copy, Debug, PartialEq, Eq)]
enum Lie {
    /// It keeps the first writes, so many, and loses those behind them.
    Keeps(u64),
    /// Of each write it keeps the first half.
    Halves,
    /// It writes the first block in place of the one that begins so many bytes behind, and the other way round.
    WritesElsewhere(u64),
    /// It reads them so.
    ReadsElsewhere(u64),
}

/// A disk that answers `Ok` all the same.
#[derive(Drop)]
struct FalseDisk {
    disk: MemDisk,
    lie: Lie,
}

/// The bytes of a block: a header of 24 and three elements of 8.
const BLOCK: u64 = 48;

/// The place that is taken in place of another one, for so many bytes of a disk of this size: blocks so far apart change places.
fn elsewhere(at: u64, count: u64, size: u64, apart: u64) -> u64
    requires { at + count ≤ size }
    ensures { result + count ≤ size }
{
    let other = if at < BLOCK {
        at.saturating_add(apart)
    } else if at >= apart && at - apart < BLOCK {
        at - apart
    } else {
        at
    };
    if other <= size - count { other } else { at }
}

impl FalseDisk {
    /// The place that it reads in place of this one, for so many bytes.
    fn place(&self, at: u64, count: u64) -> u64
        requires { at + count ≤ length self.now.disk.bytes }
        ensures { result + count ≤ length self.now.disk.bytes }
    {
        match self.lie {
            Lie::ReadsElsewhere(apart) => elsewhere(at, count, self.disk.size(), apart),
            _ => at,
        }
    }
}

impl Disk for FalseDisk {
    ghost size = { λ d. length d.disk.bytes };

    ghost held = { λ _. None };

    ghost faults = { λ d. d.disk.called.faults };

    ghost mismatches = { λ d. d.disk.mismatches };

    fn size(&self) -> u64 {
        self.disk.size()
    }

    fn read(&mut self, at: u64, buf: &mut [u8]) -> Result<(), Failed> {
        let place = self.place(at, buf.len() as u64);
        self.disk.read(place, buf)
    }

    fn write(&mut self, at: u64, bytes: &[u8]) -> Result<(), Failed> {
        match self.lie {
            Lie::Keeps(0) => Ok(()),
            Lie::Keeps(left) => {
                self.lie = Lie::Keeps(left - 1);
                self.disk.write(at, bytes)
            }
            Lie::Halves => self.disk.write(at, &bytes[..bytes.len() / 2]),
            Lie::WritesElsewhere(apart) => {
                let place = elsewhere(at, bytes.len() as u64, self.disk.size(), apart);
                self.disk.write(place, bytes)
            }
            Lie::ReadsElsewhere(_) => self.disk.write(at, bytes),
        }
    }

    fn check(&mut self, at: u64, want: &[u8; 24]) -> Result<(), CheckFault> {
        let place = self.place(at, 24);
        self.disk.check(place, want)
    }
}

/// A lie, a job to which it is told, and the first header that isn't the one wanted: its cell, its writes and its elements.
struct Damage {
    text: &'static str,
    lie: Lie,
    want: (u64, u64, u64),
    found: (u64, u64, u64),
}

/// A `ROUND` that goes on for a second one.
const TWO_ROUNDS: &str =
    "starjob 1\nnode 48\nvector x 3 values 1 2 3\nvector y 3 values 10 20 30\nvector z 3 values 100 200 300\ntask add x:R y:RW\ntask add y:R z:RW\ntask add z:R x:RW\ntask add x:R y:RW\ntask add y:R z:RW\ntask add z:R x:RW\nprint x\n";

// Of two rounds x is the first that is fetched again, and z is written before. Behind x, z and y the fourth that is written, by
// the seventh and the eighth write, is z again. Of the vectors that are scaled a is the first that is fetched again, and b is
// written before; a, b, c, a and b go out, and the last that is fetched is a, for the print.
const DAMAGES: [Damage; 12] = [
    Damage {
        text: TWO_ROUNDS,
        lie: Lie::Keeps(0),
        want: (0, 1, 3),
        found: (0, 0, 0),
    },
    Damage {
        text: TWO_ROUNDS,
        lie: Lie::Keeps(6),
        want: (2, 2, 3),
        found: (2, 1, 3),
    },
    Damage {
        text: TWO_ROUNDS,
        lie: Lie::Halves,
        want: (0, 1, 3),
        found: (0, 1, 0),
    },
    Damage {
        text: TWO_ROUNDS,
        lie: Lie::WritesElsewhere(2 * BLOCK),
        want: (0, 1, 3),
        found: (2, 1, 3),
    },
    Damage {
        text: TWO_ROUNDS,
        lie: Lie::ReadsElsewhere(2 * BLOCK),
        want: (0, 1, 3),
        found: (2, 1, 3),
    },
    Damage {
        text: SCALED,
        lie: Lie::Keeps(0),
        want: (0, 1, 3),
        found: (0, 0, 0),
    },
    Damage {
        text: SCALED,
        lie: Lie::Keeps(2),
        want: (1, 1, 3),
        found: (0, 0, 0),
    },
    Damage {
        text: SCALED,
        lie: Lie::Keeps(4),
        want: (2, 1, 3),
        found: (0, 0, 0),
    },
    Damage {
        text: SCALED,
        lie: Lie::Keeps(6),
        want: (0, 2, 3),
        found: (0, 1, 3),
    },
    Damage {
        text: SCALED,
        lie: Lie::Halves,
        want: (0, 1, 3),
        found: (0, 1, 0),
    },
    Damage {
        text: SCALED,
        lie: Lie::WritesElsewhere(BLOCK),
        want: (0, 1, 3),
        found: (1, 1, 3),
    },
    Damage {
        text: SCALED,
        lie: Lie::ReadsElsewhere(BLOCK),
        want: (0, 1, 3),
        found: (1, 1, 3),
    },
];

/// The header with this cell, these writes and these elements.
pub fn header((cell, writes, length): (u64, u64, u64)) -> Header {
    Header {
        cell,
        writes,
        length,
    }
}

/// The answer to a job by so many workers on a disk that lies.
fn answer_to_lie<R: Threads + Wait + Sync>(
    rt: &R,
    alloc: Global,
    workers: &str,
    text: &str,
    lie: Lie,
) -> Result<Answer, Fail> {
    let disk = memory(alloc, ROUND_SWAP, &[])?;
    let disks = one(alloc, Box::new(alloc, FalseDisk { disk, lie })?)?;
    let words = ["--workers", workers];
    answer_on(rt, alloc, &words, text.as_bytes(), disks, &OpenGate)
}

#[test]
fn a_disk_that_lies_is_damaged(rt: HostRuntime) -> Result<(), Fail> {
    for damage in &DAMAGES {
        let answer = answer_to_lie(&rt, rt.alloc(), "1", damage.text, damage.lie)?;
        let damaged = Status::Damaged {
            disk: DiskNo(0),
            want: header(damage.want),
            found: header(damage.found),
        };
        is_answered(&rt, &answer, damaged, "", "a lie");
    }
    Ok(())
}

// The block of b that goes out last isn't wanted back.
#[test]
fn a_disk_whose_lies_do_not_matter_is_no_liar(rt: HostRuntime) -> Result<(), Fail> {
    for kept in [u64::MAX, 8] {
        let answer = answer_to_lie(&rt, rt.alloc(), "1", SCALED, Lie::Keeps(kept))?;
        is_answered(&rt, &answer, Status::Done, SCALED_OUT, "all is kept");
    }
    Ok(())
}

/// What two rounds print.
const TWO_ROUNDS_OUT: &str = "x: 346 692 1038\n";

/// A lie was found and nothing is written, or it doesn't matter. Whether it was found.
pub fn is_found<D, R: Abort>(rt: &R, answer: &Answer<D>, out: &str) -> bool {
    let Status::Damaged { disk, want, found } = answer.outcome.status else {
        is_answered(rt, answer, Status::Done, out, "a lie that doesn't matter");
        return false;
    };
    assert!(rt; disk == DiskNo(0) && want != found);
    assert!(rt; answer.out.taken().is_empty());
    true
}

// The threads decide which blocks go out and come back. Of two rounds' one is wanted back at least.
#[test]
fn a_disk_that_lies_to_four_workers_is_damaged_or_out_is_right(
    rt: HostRuntime,
) -> Result<(), Fail> {
    for damage in &DAMAGES {
        let answer = answer_to_lie(&rt, rt.alloc(), "4", damage.text, damage.lie)?;
        if damage.text == SCALED {
            is_found(&rt, &answer, SCALED_OUT);
        } else {
            let is_sure = matches!(damage.lie, Lie::Keeps(0) | Lie::Halves);
            assert!(rt; is_found(&rt, &answer, TWO_ROUNDS_OUT) || !is_sure);
        }
    }
    Ok(())
}

#[test]
fn a_device_without_room_is_a_fault(rt: HostRuntime) -> Result<(), Fail> {
    let disk = FileDisk::at(&rt, "/dev/full", ROUND_SWAP as u64);
    let disk = Box::new(rt.alloc(), disk)?;
    let answer = answer_tight(&rt, rt.alloc(), disk, &OpenGate)?;
    is_failed(&rt, &answer);
    Ok(())
}

const FILE: &str = "a_disk_that_is_cut_off";

/// Cuts the file off before the block of z while the first sum is inside, when x and y fill the node.
#[derive(Drop)]
struct Cutting<'a, R> {
    rt: &'a R,
}

impl<R: Files<File = File> + Sync> Gate for Cutting<'_, R> {
    fn entered(&self, task: Task) {
        if task != Task(3) {
            return;
        }
        if let Ok(file) = fs::OpenOptions::new().write(true).open(self.rt, FILE) {
            let _ = file.set_len(96);
        }
    }

    fn left(&self, _task: Task) {}
}

#[test]
fn a_file_that_is_cut_off_is_a_fault(rt: HostRuntime) -> Result<(), Fail> {
    let _ = fs::remove_file(&rt, FILE);
    let disk = FileDisk::at(&rt, FILE, ROUND_SWAP as u64);
    let disk = Box::new(rt.alloc(), disk)?;
    let answer = answer_tight(&rt, rt.alloc(), disk, &Cutting { rt: &rt })?;
    is_failed(&rt, &answer);
    fs::remove_file(&rt, FILE)?;
    Ok(())
}
