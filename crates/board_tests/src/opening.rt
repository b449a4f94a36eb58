//! Boards of job texts, on which nothing has happened.

ghost use Rattle.std.specs.Prelude.{◌≡◌, ◌<◌, ◌≤◌, ◌^◌, ◌∷◌, [], IfOk, None, OnOk, length, map};
ghost use Rattle.sj_base.specs.declared.ids.Worker.{Worker};
ghost use Rattle.sj_base.specs.Array.{area};
ghost use Rattle.sj_codelet.specs.Kernel.{out};
ghost use Rattle.sj_core.specs.Needs.{AreFootprints};
ghost use Rattle.sj_core.specs.Proper.{HasSwapFor, IsWithinLimits};
ghost use Rattle.sj_disk.specs.Directory.{extent_of};
ghost use Rattle.sj_board.specs.Placing.{ArePlaced, IsEmptySet, ReservesSome};
ghost use Rattle.sj_board.specs.Sound.{IsRunnableOn};
ghost use Rattle.sj_board.specs.Standing.{AllTell};
ghost use Rattle.sj_board.specs.Board.{HasTakenReleased, IsFree};

use sj_base::ids::Cell;
use sj_base::mode::Policy;
use sj_base::program::{Machine, Program};
use sj_base::sequence::Sequence;
use sj_base::tile::Dims;
use sj_board::board::Board;
use sj_core::tasks::arguments_fit;
use sj_disk::disk_set::DiskSet;
use sj_edge::disk::Disk;
use sj_job::read::read;
use sj_kernels::ring::Ring;
use sj_lower::lower::{LoweredJob, lower};
use sj_meaning::settings::Settings;
use sj_needs::shortage::fits;
use std::alloc::Global;
use std::sync::Arc;
use std::test::Fail;

/// A program, the bytes that each of its tasks needs, and the machine that is to run it.
#[derive(Drop)]
struct Parts {
    program: Arc<Program>,
    footprints: Vec<u64>,
    machine: Machine,
}

/// The machine that a job's settings ask for, but for the policy, with one disk of so many bytes.
fn machine_of(
    alloc: Global,
    settings: &Settings,
    disk: u64,
    policy: Policy,
) -> Result<Machine, Fail>
    ensures workers { IfOk result (λ m. (1 ≤ m.workers) × (m.workers ≤ 64)) }
    ensures nodes { IfOk result (λ m. (1 ≤ length m.nodes) × (length m.nodes ≤ 16)) }
    ensures disks { IfOk result (λ m. m.disks ≡ disk ∷ []) }
    ensures policy { IfOk result (λ m. m.policy ≡ policy) }
{
    let workers = settings.worker_count();
    let nodes = settings.node_sizes(alloc)?;
    if workers == 0 || workers > 64 || nodes.is_empty() || nodes.len() > 16 {
        return Err(Fail::new("no such machine"));
    }
    let mut disks = Vec::new(alloc);
    disks.push(disk)?;
    Ok(Machine {
        workers,
        nodes: Sequence::of(nodes),
        disks: Sequence::of(disks),
        policy,
    })
}

/// The program of a job text, and the machine that its settings ask for, but for the policy, with one disk of so many bytes.
fn parts_of(alloc: Global, text: &str, disk: u64, policy: Policy) -> Result<Parts, Fail>
    requires small { disk ≤ 2 ^ 40 }
    ensures run { IfOk result (λ r. IsRunnableOn out r.program.value r.machine) }
    ensures footprints { IfOk result (λ r. AreFootprints r.program.value r.footprints.items) }
    ensures disks { IfOk result (λ r. r.machine.disks ≡ disk ∷ []) }
    ensures policy { IfOk result (λ r. r.machine.policy ≡ policy) }
{
    let job = read(alloc, text.as_bytes(), &Ring)?;
    let machine = machine_of(alloc, &job.settings, disk, policy)?;
    let LoweredJob { program, .. } = lower(alloc, job, machine.workers)?;
    arguments_fit(&program);
    let footprints = fits(alloc, &program, &machine)?;
    Ok(Parts {
        program: Arc::new(alloc, program)?,
        footprints,
        machine,
    })
}

/// Gives a cell of these dimensions its block, on the first disk that has room for it.
fn place_cell<D: Disk>(set: &mut DiskSet<D>, cell: Cell, dims: Dims) -> Result<(), Fail>
    requires has_none { extent_of set.old.directory cell.0 ≡ None }
    requires small { area dims ≤ 2 ^ 24 }
    ensures reserves { OnOk result (ReservesSome D.size cell.0 (area dims) set.old set.new) }
{
    set.reserve(cell, dims.area())?;
    Ok(())
}

/// Gives each cell of a program its block, in cell order.
fn place_cells<D: Disk>(
    set: &mut DiskSet<D>,
    program: &Program,
    machine: &Machine,
) -> Result<(), Fail>
    requires limits { IsWithinLimits program.now }
    requires swap { HasSwapFor program.now machine.now }
    requires sizes { machine.now.disks ≡ map D.size set.old.disks }
    requires empty { IsEmptySet set.old }
    ensures disks { OnOk result (set.new.disks ≡ set.old.disks) }
    ensures placed { OnOk result (ArePlaced program.now machine.now set.new.directory) }
{
    let _machine = machine;
    for i in 0..program.cells.len() {
        let dims = program.cells.items()[i].dims;
        place_cell(set, Cell(i as u32), dims)?;
    }
    Ok(())
}

/// The board of these parts, on which nothing has happened.
fn board_of<D: Disk>(alloc: Global, parts: Parts, disks: Vec<D>) -> Result<Board<D>, Fail>
    requires run { IsRunnableOn out parts.program.value parts.machine }
    requires footprints { AreFootprints parts.program.value parts.footprints.items }
    requires sizes { parts.machine.disks ≡ map D.size disks.items }
    ensures free { IfOk result (λ b. (w : Worker) → w.0 < b.run.program.workers → IsFree b w) }
    ensures no_fault { IfOk result (λ b. b.fault ≡ None) }
    ensures opened { IfOk result (λ b. b.run.opened ≡ disks.items) }
    ensures machine { IfOk result (λ b. b.run.machine ≡ parts.machine) }
    ensures taken { IfOk result (λ b. (w : Worker) → HasTakenReleased b w) }
{
    let Parts {
        program,
        footprints,
        machine,
    } = parts;
    let Ok(mut set) = DiskSet::make(alloc, disks) else {
        return Err(Fail::new("out of memory"));
    };
    place_cells(&mut set, &program, &machine)?;
    match Board::make(alloc, program, footprints, machine, set) {
        Ok(board) => Ok(board),
        Err(_) => Err(Fail::new("out of memory")),
    }
}

/// The board of a job text under a policy, on which nothing has happened, with one disk that tells nothing.
pub fn opened<D: Disk>(alloc: Global, text: &str, disk: D, policy: Policy) -> Result<Board<D>, Fail>
    requires small { D.size disk ≤ 2 ^ 40 }
    requires silent { D.held disk ≡ None }
    ensures free { IfOk result (λ b. (w : Worker) → w.0 < b.run.program.workers → IsFree b w) }
    ensures no_fault { IfOk result (λ b. b.fault ≡ None) }
    ensures silent { IfOk result (λ b. ¬ AllTell D.held b.run) }
    ensures policy { IfOk result (λ b. b.run.machine.policy ≡ policy) }
    ensures taken { IfOk result (λ b. (w : Worker) → HasTakenReleased b w) }
{
    let parts = parts_of(alloc, text, disk.size(), policy)?;
    let mut disks = Vec::new(alloc);
    if disks.push(disk).is_err() {
        return Err(Fail::new("out of memory"));
    }
    board_of(alloc, parts, disks)
}
