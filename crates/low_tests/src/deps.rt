//! Worked examples, with answers by hand: which tasks are ready after which.

ghost use Rattle.std.specs.Prelude.{◌≡◌, ◌<◌, All, IfOk, IsTrue, length};
ghost use Rattle.sj_deps.specs.Conflict.{HasDependencies, usages};
ghost use Rattle.low_tests.specs.Countable.{Agrees, IsCountable};

use crate::usages::usages_of_task;
use sj_base::few::Few;
use sj_base::ids::{Cell, Line, Root, Task};
use sj_base::memory::OutOfMemory;
use sj_base::mode::{Access, Mode};
use sj_base::program::{CellInfo, Codelet, Lowered, Program};
use sj_base::sequence::Sequence;
use sj_base::tile::Dims;
use sj_deps::deps::Deps;
use sj_deps::manner::Usage;
use std::alloc::Global;
use std::process::Abort;
use std::test::Fail;

fn all_within(usages: &[Usage], cells: usize) -> bool
    ensures { IsTrue result → All (λ u. u.cell < cells) usages.now }
{
    usages.iter().all(|u| u.cell < cells)
}

fn agrees(usages: &[Usage], with: Usage) -> bool
    ensures { IsTrue result → Agrees usages.now with }
{
    usages
        .iter()
        .all(|u| u.cell != with.cell || u.manner == with.manner)
}

fn all_agree(usages: &[Usage]) -> bool
    ensures { IsTrue result → All (Agrees usages.now) usages.now }
{
    for u in usages {
        if !agrees(usages, *u) {
            return false;
        }
    }
    true
}

/// Whether the accesses of one task can be counted.
fn is_task_countable(alloc: Global, program: &Program, t: usize) -> Result<bool, OutOfMemory>
    requires { t < length program.now.tasks }
    ensures { IfOk result (λ b. IsTrue b → IsCountable program.now t) }
{
    let task = &program.tasks.items()[t];
    let usages = usages_of_task(alloc, program, task)?;
    Ok(all_within(&usages, program.cells.len()) && all_agree(&usages))
}

/// Whether a program's dependencies can be counted.
fn is_countable(alloc: Global, program: &Program) -> Result<bool, OutOfMemory>
    ensures { IfOk result (λ b. IsTrue b → HasDependencies program.now) }
{
    let count = program.tasks.len();
    if count > 100 {
        return Ok(false);
    }
    for t in 0..count {
        if !is_task_countable(alloc, program, t)? {
            return Ok(false);
        }
    }
    Ok(true)
}

fn lowered(alloc: Global, codelet: u16, accesses: &[(Mode, u32)]) -> Result<Lowered, OutOfMemory> {
    let mut list = Few::empty(alloc);
    for (mode, cell) in accesses {
        list.push(Access {
            mode: *mode,
            cell: Cell(*cell),
        })?;
    }
    Ok(Lowered {
        codelet: Codelet(codelet),
        args: Few::empty(alloc),
        accesses: list,
        line: Line(1),
        priority: 0,
    })
}

/// The first partial copy of a cell: those of cells 0 and 2 overlap where there are two workers.
fn partials(cell: u32) -> Option<Cell> {
    match cell {
        0 => Some(Cell(3)),
        1 => Some(Cell(6)),
        2 => Some(Cell(4)),
        _ => None,
    }
}

/// A program over nine cells, with the partial copies of the first three.
fn program(
    alloc: Global,
    workers: u8,
    tasks: &[(u16, &[(Mode, u32)])],
) -> Result<Program, OutOfMemory> {
    let mut cells = Vec::new(alloc);
    for c in 0..9u32 {
        cells.push(CellInfo {
            root: Root(c),
            dims: Dims { rows: 1, cols: 1 },
            partials: partials(c),
        })?;
    }
    let mut list = Vec::new(alloc);
    for (codelet, accesses) in tasks {
        list.push(lowered(alloc, *codelet, accesses)?)?;
    }
    Ok(Program {
        cells: Sequence::of(cells),
        tasks: Sequence::of(list),
        deliveries: Sequence::of(Vec::new(alloc)),
        workers,
    })
}

/// Takes tasks as done one after another, each with the tasks that it makes ready.
fn goes<R: Abort>(
    rt: &R,
    alloc: Global,
    workers: u8,
    tasks: &[(u16, &[(Mode, u32)])],
    first: &[u32],
    steps: &[(u32, &[Task])],
) -> Result<(), OutOfMemory> {
    let program = program(alloc, workers, tasks)?;
    let countable = is_countable(alloc, &program)?;
    assert!(rt; countable);
    let mut deps = Deps::of(alloc, &program)?;
    for t in 0..10u32 {
        assert_eq!(rt; deps.is_ready(Task(t)), first.contains(&t));
    }
    for (t, wanted) in steps {
        let ready = deps.is_ready(Task(*t));
        assert!(rt; ready);
        assert_eq!(rt; deps.done(Task(*t)), *wanted);
    }
    Ok(())
}

const LOAD: u16 = 16;

const DELIVER: u16 = 19;

const AXPY: u16 = 4;

const ADD: u16 = 3;

#[test]
fn loads_are_ready_and_a_delivery_waits_for_its_load(rt: HostRuntime) -> Result<(), Fail> {
    let tasks: &[(u16, &[(Mode, u32)])] = &[
        (LOAD, &[(Mode::W, 0)]),
        (LOAD, &[(Mode::W, 1)]),
        (LOAD, &[(Mode::W, 2)]),
        (DELIVER, &[(Mode::R, 0)]),
    ];
    goes(
        &rt,
        rt.alloc(),
        2,
        tasks,
        &[0, 1, 2],
        &[(1, &[]), (0, &[Task(3)]), (3, &[]), (2, &[])],
    )?;
    Ok(())
}

#[test]
fn readers_go_together_and_a_writer_waits_for_all_of_them(rt: HostRuntime) -> Result<(), Fail> {
    let tasks: &[(u16, &[(Mode, u32)])] = &[
        (LOAD, &[(Mode::W, 1)]),
        (DELIVER, &[(Mode::R, 1)]),
        (DELIVER, &[(Mode::R, 1)]),
        (ADD, &[(Mode::R, 1), (Mode::Scratch, 1)]),
        (2, &[(Mode::RW, 1)]),
        (DELIVER, &[(Mode::R, 1)]),
        (2, &[(Mode::Scratch, 1)]),
    ];
    let steps: &[(u32, &[Task])] = &[
        (0, &[Task(1), Task(2), Task(3)]),
        (3, &[]),
        (1, &[]),
        (2, &[Task(4)]),
        (4, &[Task(5)]),
    ];
    goes(&rt, rt.alloc(), 2, tasks, &[0, 6], steps)?;
    Ok(())
}

#[test]
fn commuting_tasks_go_in_any_order_and_a_reader_closes_their_group(
    rt: HostRuntime,
) -> Result<(), Fail> {
    let tasks: &[(u16, &[(Mode, u32)])] = &[
        (LOAD, &[(Mode::W, 1)]),
        (LOAD, &[(Mode::W, 2)]),
        (AXPY, &[(Mode::R, 1), (Mode::Commute, 2)]),
        (AXPY, &[(Mode::R, 1), (Mode::Commute, 2)]),
        (DELIVER, &[(Mode::R, 2)]),
        (AXPY, &[(Mode::R, 1), (Mode::Commute, 2)]),
        (ADD, &[(Mode::R, 1), (Mode::Commute, 2)]),
    ];
    let steps: &[(u32, &[Task])] = &[
        (0, &[]),
        (1, &[Task(2), Task(3)]),
        (3, &[]),
        (2, &[Task(4)]),
        (4, &[Task(5)]),
        (5, &[Task(6)]),
    ];
    goes(&rt, rt.alloc(), 2, tasks, &[0, 1], steps)?;
    Ok(())
}

#[test]
fn contributions_wait_for_the_inits_and_combines_for_the_contributions(
    rt: HostRuntime,
) -> Result<(), Fail> {
    let tasks: &[(u16, &[(Mode, u32)])] = &[
        (LOAD, &[(Mode::W, 0)]),
        (20, &[(Mode::W, 3)]),
        (20, &[(Mode::W, 4)]),
        (10, &[(Mode::R, 1), (Mode::Redux, 0)]),
        (10, &[(Mode::R, 1), (Mode::Redux, 0)]),
        (ADD, &[(Mode::R, 3), (Mode::RW, 0)]),
        (ADD, &[(Mode::R, 4), (Mode::RW, 0)]),
        (DELIVER, &[(Mode::R, 0)]),
    ];
    let steps: &[(u32, &[Task])] = &[
        (2, &[]),
        (1, &[Task(3), Task(4)]),
        (4, &[]),
        (3, &[]),
        (0, &[Task(5)]),
        (5, &[Task(6)]),
        (6, &[Task(7)]),
    ];
    goes(&rt, rt.alloc(), 2, tasks, &[0, 1, 2], steps)?;
    Ok(())
}

#[test]
fn answers_from_several_cells_come_by_number(rt: HostRuntime) -> Result<(), Fail> {
    let tasks: &[(u16, &[(Mode, u32)])] = &[
        (5, &[(Mode::W, 1), (Mode::W, 2)]),
        (DELIVER, &[(Mode::R, 2)]),
        (DELIVER, &[(Mode::R, 1)]),
        (ADD, &[(Mode::R, 2), (Mode::R, 2)]),
    ];
    goes(
        &rt,
        rt.alloc(),
        2,
        tasks,
        &[0],
        &[(0, &[Task(1), Task(2), Task(3)])],
    )?;
    Ok(())
}

#[test]
fn a_copy_read_between_contributions_parts_two_phases(rt: HostRuntime) -> Result<(), Fail> {
    let tasks: &[(u16, &[(Mode, u32)])] = &[
        (20, &[(Mode::W, 3)]),
        (20, &[(Mode::W, 4)]),
        (10, &[(Mode::Redux, 0)]),
        (10, &[(Mode::Redux, 0)]),
        (DELIVER, &[(Mode::R, 4)]),
        (10, &[(Mode::Redux, 0)]),
        (10, &[(Mode::Redux, 0)]),
        (DELIVER, &[(Mode::R, 3)]),
    ];
    let steps: &[(u32, &[Task])] = &[
        (1, &[]),
        (0, &[Task(2), Task(3)]),
        (3, &[]),
        (2, &[Task(4)]),
        (4, &[Task(5), Task(6)]),
        (5, &[]),
        (6, &[Task(7)]),
    ];
    goes(&rt, rt.alloc(), 2, tasks, &[0, 1], steps)?;
    Ok(())
}

#[test]
fn a_phase_of_three_workers_waits_for_all_copies(rt: HostRuntime) -> Result<(), Fail> {
    let tasks: &[(u16, &[(Mode, u32)])] = &[
        (20, &[(Mode::W, 3)]),
        (20, &[(Mode::W, 4)]),
        (20, &[(Mode::W, 5)]),
        (10, &[(Mode::Redux, 0)]),
        (10, &[(Mode::Redux, 0)]),
        (ADD, &[(Mode::R, 3), (Mode::RW, 0)]),
        (ADD, &[(Mode::R, 5), (Mode::RW, 0)]),
        (DELIVER, &[(Mode::R, 4)]),
    ];
    let steps: &[(u32, &[Task])] = &[
        (0, &[]),
        (2, &[]),
        (1, &[Task(3), Task(4)]),
        (4, &[]),
        (3, &[Task(5), Task(7)]),
        (5, &[Task(6)]),
    ];
    goes(&rt, rt.alloc(), 3, tasks, &[0, 1, 2], steps)?;
    Ok(())
}

#[test]
fn a_task_that_contributes_to_two_cells_waits_for_both_phases(rt: HostRuntime) -> Result<(), Fail> {
    let tasks: &[(u16, &[(Mode, u32)])] = &[
        (20, &[(Mode::W, 3)]),
        (20, &[(Mode::W, 4)]),
        (20, &[(Mode::W, 6)]),
        (20, &[(Mode::W, 7)]),
        (10, &[(Mode::Redux, 0), (Mode::Redux, 1), (Mode::Redux, 0)]),
        (10, &[(Mode::Redux, 0)]),
        (10, &[(Mode::Redux, 1)]),
        (DELIVER, &[(Mode::R, 3)]),
        (DELIVER, &[(Mode::R, 7)]),
    ];
    let steps: &[(u32, &[Task])] = &[
        (0, &[]),
        (1, &[Task(5)]),
        (2, &[]),
        (3, &[Task(4), Task(6)]),
        (5, &[]),
        (6, &[]),
        (4, &[Task(7), Task(8)]),
    ];
    goes(&rt, rt.alloc(), 2, tasks, &[0, 1, 2, 3], steps)?;
    Ok(())
}

#[test]
fn contributions_of_one_worker_go_together(rt: HostRuntime) -> Result<(), Fail> {
    let tasks: &[(u16, &[(Mode, u32)])] = &[
        (20, &[(Mode::W, 3)]),
        (10, &[(Mode::Redux, 0)]),
        (10, &[(Mode::Redux, 0)]),
        (DELIVER, &[(Mode::R, 3)]),
        (10, &[(Mode::Redux, 0)]),
        (10, &[(Mode::Redux, 4)]),
    ];
    let steps: &[(u32, &[Task])] = &[
        (0, &[Task(1), Task(2)]),
        (1, &[]),
        (2, &[Task(3)]),
        (3, &[Task(4)]),
        (5, &[]),
    ];
    goes(&rt, rt.alloc(), 1, tasks, &[0, 5], steps)?;
    Ok(())
}

#[test]
fn contributions_to_cells_that_share_a_copy_go_together(rt: HostRuntime) -> Result<(), Fail> {
    let tasks: &[(u16, &[(Mode, u32)])] = &[
        (20, &[(Mode::W, 3)]),
        (20, &[(Mode::W, 4)]),
        (20, &[(Mode::W, 5)]),
        (10, &[(Mode::Redux, 0)]),
        (10, &[(Mode::Redux, 2), (Mode::Redux, 0)]),
        (10, &[(Mode::Redux, 0)]),
        (10, &[(Mode::Redux, 2)]),
        (DELIVER, &[(Mode::R, 4)]),
    ];
    let steps: &[(u32, &[Task])] = &[
        (1, &[]),
        (2, &[Task(6)]),
        (6, &[]),
        (0, &[Task(3), Task(4), Task(5)]),
        (4, &[]),
        (3, &[]),
        (5, &[Task(7)]),
    ];
    goes(&rt, rt.alloc(), 2, tasks, &[0, 1, 2], steps)?;
    Ok(())
}
