ghost use Rattle.std.specs.Prelude.{◌≡◌, ◌≤◌, ◌^◌, IfOk, length};

use crate::held_disk::{Begun, FirstWaits, Held, HeldDisk, Until};
use crate::runs::{one, run_text, two};
use sj_base::memory::OutOfMemory;
use sj_edge::gate::OpenGate;
use sj_edge::memory_disk::MemDisk;
use sj_engine::engine::RunOutcome;
use sj_minplus::library::Library;
use std::alloc::Global;
use std::process::Abort;
use std::sync::Wait;
use std::test::Fail;
use std::thread::Threads;

/// Two workers, of which the first has a node for two parts of s. Only the node of the second holds an a, b, c or d, and under
/// `prio` these stay in front of the parts, also where the first worker passes them.
const APART: &str =
    "starjob 1\nworkers 2\nnode 48\nnode 4096\npolicy prio\nvector a 12 fill 1 1\nvector b 12 fill 1 1\nvector c 12 fill 1 1\nvector d 12 fill 1 1\nvector s 18 by 1 6 fill 1 1\nprint s\n";

/// The bytes of their blocks.
const APART_SWAP: u32 = 1024;

/// A disk in memory whose first call of a kind waits.
fn held<'a>(
    clock: &HostRuntime,
    begun: &'a Begun,
    size: u32,
    held: Held,
    until: Until,
) -> Result<HeldDisk<'a>, OutOfMemory>
    ensures { IfOk result (λ d. length d.disk.bytes ≤ 2 ^ 40) }
{
    let alloc = clock.alloc();
    Ok(HeldDisk {
        clock: *clock,
        begun,
        disk: MemDisk::new(alloc, size as u64, Vec::new(alloc))?,
        held,
        until,
        came: None,
    })
}

/// Fails unless the run is done, and each of its disks has met what it waited for.
fn is_met<R: Abort>(rt: &R, run: &RunOutcome<HeldDisk>) {
    assert!(rt; run.result.is_ok());
    for disk in run.disks.iter() {
        assert_eq!(rt; disk.came, Some(true));
    }
}

/// Fails unless three kernels more begin while a disk makes its first call of a kind. The second worker is inside of the first
/// task until then, and has three tasks more after it, each of them in turns of its own.
fn kernels_begin_beside<R: Threads + Wait + Sync + Abort>(
    rt: &R,
    clock: &HostRuntime,
    call: Held,
) -> Result<(), Fail> {
    let alloc = clock.alloc();
    let begun = Begun::nothing();
    let disk = held(clock, &begun, APART_SWAP, call, Until::Kernels(3))?;
    let disks = one(alloc, disk)?;
    let gate = FirstWaits {
        clock: *clock,
        begun: &begun,
    };
    let run = run_text(rt, alloc, APART, disks, &Library, &gate)?;
    is_met(rt, &run);
    Ok(())
}

#[test]
fn kernels_begin_while_a_disk_is_written(rt: HostRuntime) -> Result<(), Fail> {
    kernels_begin_beside(&rt, &rt, Held::Writes)
}

#[test]
fn kernels_begin_while_a_disk_is_read(rt: HostRuntime) -> Result<(), Fail> {
    kernels_begin_beside(&rt, &rt, Held::Reads)
}

/// Two workers, each with a node for two of these parts, of which the first has its block on the first disk, and the others on
/// the second one.
const BOTH: &str = "starjob 1\nworkers 2\nnode 48\nnode 48\nvector s 18 by 1 6 fill 1 1\nprint s\n";

/// The bytes of one block, and of the others.
const BOTH_SWAPS: [u32; 2] = [48, 1024];

// Each worker evicts its first part for its third one: one of them writes to the first disk, and the other one to the second.
#[test]
fn two_disks_work_at_once(rt: HostRuntime) -> Result<(), Fail> {
    let alloc = rt.alloc();
    let begun = Begun::nothing();
    let first = held(
        &rt,
        &begun,
        BOTH_SWAPS[0],
        Held::Writes,
        Until::Transfers(2),
    )?;
    let second = held(
        &rt,
        &begun,
        BOTH_SWAPS[1],
        Held::Writes,
        Until::Transfers(2),
    )?;
    let run = run_text(
        &rt,
        alloc,
        BOTH,
        two(alloc, first, second)?,
        &Library,
        &OpenGate,
    )?;
    is_met(&rt, &run);
    Ok(())
}
