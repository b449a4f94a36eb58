//! What a machine lacks for a program.

ghost use Rattle.std.specs.Prelude.{◌≡◌, ◌<◌, ◌≤◌, ◌^◌, All, IfErr, IfOk, IfSome, IsOk, find, length, nat_lt, sum};
ghost use Rattle.sj_core.specs.Needs.{AreFootprints, footprint, swap_need};
ghost use Rattle.sj_core.specs.Program.{task_of, tasks_of};
ghost use Rattle.sj_core.specs.Proper.{HasSwapFor, IsMachineFor, IsWithinLimits, Proper};
ghost use Rattle.sj_needs.specs.Shortage.{FitRoom, IsShortage};

use crate::footprint::{footprint, footprints_of};
use crate::room::room;
use crate::swap::{bytes_of_all, has_places, swap_need};
use sj_base::ids::{Line, Task};
use sj_base::memory::OutOfMemory;
use sj_base::program::{Machine, Program};
use std::alloc::Global;

/// Why a program can't run on a machine.
#[derive(Clone, Copy, Debug, PartialEq, Eq)]
pub enum Shortage {
    /// A task of this line needs so many bytes, and no node that has a worker has as many.
    TooLarge { line: Line, bytes: u64 },
    /// The blocks of the cells, of so many bytes, have no places on the disks, which together have so many.
    SwapTooSmall { needed: u64, have: u64 },
    /// It wasn't found out, since an allocation was refused.
    OutOfMemory,
}

impl From<OutOfMemory> for Shortage {
    ghost use Rattle.std.specs.Prelude.{◌≡◌};
    ghost use Rattle.sj_needs.specs.declared.shortage.Shortage.TheVariants.{OutOfMemory};

    ghost from_gives = { λ _ e. e ≡ OutOfMemory };

    fn from(_: OutOfMemory) -> Self {
        Shortage::OutOfMemory
    }
}

/// The bytes that a task needs on its node: as they are listed, or counted where the list found no memory. Constant time where
/// there is a list; no memory.
fn bytes_of(program: &Program, listed: &Result<Vec<u64>, OutOfMemory>, t: Task) -> u64
    requires program { Proper program.now }
    requires listed { IfOk listed.now (λ v. AreFootprints program.now v.items) }
    requires task { t.0 < length program.now.tasks }
    ensures { result ≡ footprint program.now t }
{
    match listed {
        Ok(footprints) => footprints[t.0 as usize],
        Err(_) => footprint(program, t),
    }
}

/// The first task that needs more than so many bytes. Linear in the tasks before it; no memory.
fn first_above(program: &Program, listed: &Result<Vec<u64>, OutOfMemory>, room: u64) -> Option<Task>
    requires program { Proper program.now }
    requires listed { IfOk listed.now (λ v. AreFootprints program.now v.items) }
    ensures first { result
        ≡ find (λ t. nat_lt room (footprint program.now t)) (tasks_of program.now) }
    ensures task { IfSome result (λ t. t.0 < length program.now.tasks) }
{
    for i in 0..program.tasks.len() {
        let t = Task(i as u32);
        if room < bytes_of(program, listed, t) {
            return Some(t);
        }
    }
    None
}

/// What a task that is too large lacks. Constant time.
fn too_large(program: &Program, t: Task) -> Shortage
    requires program { Proper program.now }
    requires task { t.0 < length program.now.tasks }
    ensures { result ≡ Shortage.TooLarge (task_of program.now t).line (footprint program.now t) }
{
    Shortage::TooLarge {
        line: program.tasks.items()[t.0 as usize].line,
        bytes: footprint(program, t),
    }
}

/// What disks lack that are too small. Linear in the cells.
fn swap_too_small(program: &Program, disks: &[u64]) -> Shortage
    requires program { IsWithinLimits program.now }
    requires few { length disks.now ≤ 16 }
    requires small { All (λ n. n ≤ 2 ^ 40) disks.now }
    ensures { result ≡ Shortage.SwapTooSmall (swap_need program.now) (sum disks.now) }
{
    Shortage::SwapTooSmall {
        needed: swap_need(program),
        have: bytes_of_all(disks),
    }
}

/// The bytes that each task needs on its node, by the task's number, where a machine has what the program needs: a node with a
/// worker for each task, and a place on its disks for a block of each cell, so that what doesn't fit a node can be evicted.
/// Linear in the accesses, and for each cell in the disks.
///
/// # Errors
///
/// The first task that fits no node with a worker, by its line and its bytes, whether or not memory is wanting; else the bytes of
/// all blocks and of all disks, where the blocks have no places; or that an allocation was refused.
pub fn fits(alloc: Global, program: &Program, machine: &Machine) -> Result<Vec<u64>, Shortage>
    requires program { Proper program.now }
    requires machine { IsMachineFor program.now machine.now }
    requires disks { All (λ n. n ≤ 2 ^ 40) machine.now.disks }
    ensures room { IsOk result → FitRoom program.now machine.now }
    ensures swap { IsOk result → HasSwapFor program.now machine.now }
    ensures footprints { IfOk result (λ v. AreFootprints program.now v.items) }
    ensures shortage { IfErr result (IsShortage program.now machine.now) }
    ensures too_large_first { IfErr result (λ why. why ≡ Shortage.OutOfMemory →
        FitRoom program.now machine.now) }
{
    let listed = footprints_of(alloc, program);
    if let Some(t) = first_above(program, &listed, room(machine)) {
        return Err(too_large(program, t));
    }
    let footprints = listed?;
    let disks = machine.disks.items();
    if has_places(alloc, program, disks)? {
        return Ok(footprints);
    }
    Err(swap_too_small(program, disks))
}
