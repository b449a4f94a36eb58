//! Vectors that are scaled on a node that holds two of three: what their disk is called for, and how it ends where the disk keeps
//! what was written first.

ghost use Rattle.std.specs.Prelude.{◌≡◌, ◌≤◌, ◌^◌, IfOk, None};

use crate::test_calls::{Answer, answer_on, is_answered, memory, only, same};
use crate::tests_of_machines::ROUND_SWAP;
use crate::tests_of_threads::{Call, NotingDisk, calls_of_trace};
use crate::tests_of_trouble::{SCALED, SCALED_OUT, header, is_found};
use sj_base::ids::DiskNo;
use sj_base::memory::OutOfMemory;
use sj_edge::disk::{CheckFault, Disk};
use sj_edge::gate::OpenGate;
use sj_edge::source::Failed;
use sj_top::status::Status;
use std::alloc::Global;
use std::sync::Wait;
use std::test::Fail;
use std::thread::Threads;

/// What they print with the trace: each load or scaling of one behind the second takes the place of the one used longest ago.
const SCALED_TRACED: &str =
    "a: 2 4 6\nclaim t0 w0\nrun t0 w0\nend t0 w0\nclaim t1 w0\nrun t1 w0\nend t1 w0\nclaim t2 w0\nmove c0 n0 d0\nmoved c0 n0 d0\ndrop c0 n0\nrun t2 w0\nend t2 w0\nclaim t3 w0\nmove c1 n0 d0\nmoved c1 n0 d0\ndrop c1 n0\nmove c0 d0 n0\nmoved c0 d0 n0\nrun t3 w0\nend t3 w0\nclaim t4 w0\nmove c2 n0 d0\nmoved c2 n0 d0\ndrop c2 n0\nmove c1 d0 n0\nmoved c1 d0 n0\nrun t4 w0\nend t4 w0\nclaim t5 w0\nmove c0 n0 d0\nmoved c0 n0 d0\ndrop c0 n0\nmove c2 d0 n0\nmoved c2 d0 n0\nrun t5 w0\nend t5 w0\nclaim t6 w0\nmove c1 n0 d0\nmoved c1 n0 d0\ndrop c1 n0\nmove c0 d0 n0\nmoved c0 d0 n0\nrun t6 w0\nend t6 w0\n";

/// What the disk is called for: a and b are stored, a is fetched, c is stored, b is fetched, a is stored again, c is fetched, b
/// is stored again, and a is fetched again.
const SCALED_CALLS: [Call; 18] = [
    Call::Write(0, 24),
    Call::Write(24, 24),
    Call::Write(48, 24),
    Call::Write(72, 24),
    Call::Check(0),
    Call::Read(24, 24),
    Call::Write(96, 24),
    Call::Write(120, 24),
    Call::Check(48),
    Call::Read(72, 24),
    Call::Write(0, 24),
    Call::Write(24, 24),
    Call::Check(96),
    Call::Read(120, 24),
    Call::Write(48, 24),
    Call::Write(72, 24),
    Call::Check(0),
    Call::Read(24, 24),
];

/// The answer to that job with one more word, on a disk that notes its calls.
fn answer_scaled<D: Disk + Send, R: Threads + Wait + Sync>(
    rt: &R,
    alloc: Global,
    word: &str,
    disk: D,
) -> Result<Answer<NotingDisk<D>>, Fail>
    requires { D.size disk ≤ 2 ^ 40 }
{
    let calls = Vec::new(alloc);
    let disks = only(alloc, NotingDisk { disk, calls })?;
    answer_on(rt, alloc, &[word], SCALED.as_bytes(), disks, &OpenGate)
}

#[test]
fn vectors_that_are_scaled_go_out_and_come_back_as_the_trace_says(
    rt: HostRuntime,
) -> Result<(), Fail> {
    let alloc = rt.alloc();
    let answer = answer_scaled(&rt, alloc, "--trace", memory(alloc, ROUND_SWAP, &[])?)?;
    is_answered(&rt, &answer, Status::Done, SCALED_TRACED, "scaled");
    let calls = calls_of_trace(alloc, &answer.outcome.trace)?;
    same(&rt, calls.as_slice(), SCALED_CALLS.as_slice());
    same(&rt, answer.outcome.disks.len(), 1);
    for noting in answer.outcome.disks.iter() {
        same(&rt, noting.calls.as_slice(), SCALED_CALLS.as_slice());
        let counts = (noting.disk.faults(), noting.disk.mismatches());
        same(&rt, counts, (0, 0));
    }
    Ok(())
}

/// A disk on each of whose places a byte is written once. It answers later writes with `Ok`, too.
#[derive(Drop)]
struct OnceDisk {
    places: Vec<Option<u8>>,
    size: u64,
    mismatches: u64,
}

impl OnceDisk {
    /// So many places on which nothing is written.
    fn new(alloc: Global, size: u32) -> Result<OnceDisk, OutOfMemory>
        ensures { IfOk result (λ d. d.size ≡ size) }
    {
        Ok(OnceDisk {
            places: vec![in alloc; None; size as usize]?,
            size: size as u64,
            mismatches: 0,
        })
    }
}

/// The bytes from a place on; 0 where none is written.
fn give(places: &[Option<u8>], at: u64, buf: &mut [u8]) {
    for (i, byte) in buf.iter_mut().enumerate() {
        let place = places.get((at as usize).saturating_add(i));
        *byte = place.copied().flatten().unwrap_or(0);
    }
}

/// Writes bytes from a place on, each where none is written.
fn keep(places: &mut [Option<u8>], at: u64, bytes: &[u8]) {
    for (i, byte) in bytes.iter().enumerate() {
        if let Some(place) = places.get_mut((at as usize).saturating_add(i)) {
            *place = place.or(Some(*byte));
        }
    }
}

impl Disk for OnceDisk {
    ghost size = { λ d. d.size };

    ghost held = { λ _. None };

    ghost faults = { λ _. 0 };

    ghost mismatches = { λ d. d.mismatches };

    fn size(&self) -> u64 {
        self.size
    }

    fn read(&mut self, at: u64, buf: &mut [u8]) -> Result<(), Failed> {
        give(&self.places, at, buf);
        Ok(())
    }

    fn write(&mut self, at: u64, bytes: &[u8]) -> Result<(), Failed> {
        keep(&mut self.places, at, bytes);
        Ok(())
    }

    fn check(&mut self, at: u64, want: &[u8; 24]) -> Result<(), CheckFault> {
        let mut found = [0; 24];
        give(&self.places, at, &mut found);
        if found == *want {
            return Ok(());
        }
        self.mismatches = self.mismatches.saturating_add(1);
        Err(CheckFault::Differs(found))
    }
}

// The second block of a is lost, so its fetch for the print finds the first one. All up to there is as on another disk.
#[test]
fn a_disk_on_which_each_byte_is_written_once_is_damaged(rt: HostRuntime) -> Result<(), Fail> {
    let alloc = rt.alloc();
    let whole = answer_scaled(&rt, alloc, "--trace", memory(alloc, ROUND_SWAP, &[])?)?;
    let answer = answer_scaled(&rt, alloc, "--trace", OnceDisk::new(alloc, ROUND_SWAP)?)?;
    let damaged = Status::Damaged {
        disk: DiskNo(0),
        want: header((0, 2, 3)),
        found: header((0, 1, 3)),
    };
    is_answered(&rt, &answer, damaged, "", "written once");
    same(&rt, answer.outcome.status.code(), 7);
    let (trace, all) = (&answer.outcome.trace, &whole.outcome.trace);
    assert!(rt; all.len() > trace.len() && all.len() - trace.len() == 3);
    for i in 0..trace.len() {
        same(&rt, (i, trace.get(i)), (i, all.get(i)));
    }
    same(&rt, answer.outcome.disks.len(), 1);
    for noting in answer.outcome.disks.iter() {
        same(&rt, noting.calls.as_slice(), &SCALED_CALLS[..17]);
        same(&rt, noting.disk.mismatches, 1);
    }
    let answer = answer_scaled(&rt, alloc, "--workers=4", OnceDisk::new(alloc, ROUND_SWAP)?)?;
    is_found(&rt, &answer, SCALED_OUT);
    Ok(())
}
