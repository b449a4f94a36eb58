//! The text of a program made by hand.

use sj_base::few::Few;
use sj_base::ids::{Cell, Line, Root, Task};
use sj_base::memory::OutOfMemory;
use sj_base::mode::{Access, Mode};
use sj_base::program::{CellInfo, Codelet, Delivery, Lowered, Program};
use sj_base::sequence::Sequence;
use sj_base::tile::Dims;
use sj_codelet::kernel::{DELIVER, DOT, LOAD};
use sj_show::program::program_text;
use std::alloc::Global;

/// A cell of a root.
fn cell(root: u32, rows: u32, cols: u32, partials: Option<Cell>) -> CellInfo {
    CellInfo {
        root: Root(root),
        dims: Dims { rows, cols },
        partials,
    }
}

/// The cells of a vector and of a number to which two workers contribute.
fn cells(alloc: Global) -> Result<Sequence<CellInfo>, OutOfMemory> {
    let mut cells = Sequence::empty(alloc);
    cells.push(cell(0, 1, 3, None))?;
    cells.push(cell(1, 1, 1, Some(Cell(2))))?;
    cells.push(cell(1, 1, 1, None))?;
    cells.push(cell(1, 1, 1, None))?;
    Ok(cells)
}

/// An access.
fn access(cell: u32, mode: Mode) -> Access {
    Access {
        mode,
        cell: Cell(cell),
    }
}

/// A task that loads three elements, one that contributes, one of an unknown codelet, and one that delivers.
fn tasks(alloc: Global) -> Result<Sequence<Lowered>, OutOfMemory> {
    let mut tasks = Sequence::empty(alloc);
    tasks.push(Lowered {
        codelet: LOAD,
        args: Few::of(alloc, [1, -2, i64::MAX])?,
        accesses: Few::of(alloc, [access(0, Mode::W)])?,
        line: Line(2),
        priority: 0,
    })?;
    tasks.push(Lowered {
        codelet: DOT,
        args: Few::empty(alloc),
        accesses: Few::of(
            alloc,
            [
                access(0, Mode::R),
                access(0, Mode::Scratch),
                access(1, Mode::Redux),
            ],
        )?,
        line: Line(5),
        priority: -7,
    })?;
    tasks.push(Lowered {
        codelet: Codelet(99),
        args: Few::of(alloc, [i64::MIN])?,
        accesses: Few::of(alloc, [access(1, Mode::RW), access(0, Mode::Commute)])?,
        line: Line(6),
        priority: 1000,
    })?;
    tasks.push(Lowered {
        codelet: DELIVER,
        args: Few::empty(alloc),
        accesses: Few::of(alloc, [access(1, Mode::R)])?,
        line: Line(7),
        priority: 0,
    })?;
    Ok(tasks)
}

#[test]
fn a_program_has_a_line_for_each_thing(rt: HostRuntime) -> Result<(), OutOfMemory> {
    let alloc = rt.alloc();
    let mut deliveries = Sequence::empty(alloc);
    deliveries.push(Delivery {
        task: Task(3),
        root: Root(1),
        place: (4, 5),
        print: 0,
    })?;
    let program = Program {
        cells: cells(alloc)?,
        tasks: tasks(alloc)?,
        deliveries,
        workers: 2,
    };
    let text = program_text(alloc, &program)?;
    let lines = b"workers 2\n\
        cell c0 r0 1 3\n\
        cell c1 r1 1 1 copies c2\n\
        cell c2 r1 1 1\n\
        cell c3 r1 1 1\n\
        task t0 line 2 prio 0 load(1,-2,inf) c0:W\n\
        task t1 line 5 prio -7 dot c0:R c0:SCRATCH c1:REDUX\n\
        task t2 line 6 prio 1000 99(-9223372036854775808) c1:RW c0:COMMUTE\n\
        task t3 line 7 prio 0 deliver c1:R\n\
        delivery t3 r1 4 5 print 0\n";
    assert_eq!(rt; text.as_slice(), lines.as_slice());
    Ok(())
}
