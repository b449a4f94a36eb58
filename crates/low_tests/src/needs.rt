//! Needs in numbers, by hand: cells of 4, 1, 1 and 1 elements have blocks of 56, 32, 32 and 32 bytes.

ghost use Rattle.std.specs.Prelude.{◌≤◌, ◌^◌, All, IfOk, IsTrue};
ghost use Rattle.sj_base.specs.Array.{area};
ghost use Rattle.sj_core.specs.Proper.{IsWithinLimits};

use sj_base::ids::Root;
use sj_base::memory::OutOfMemory;
use sj_base::mode::Policy;
use sj_base::program::{CellInfo, Machine, Program};
use sj_base::sequence::Sequence;
use sj_base::tile::Dims;
use sj_needs::room::room;
use sj_needs::swap::{bytes_of_all, has_places, swap_need};
use std::alloc::Global;

fn cell(elements: u32) -> CellInfo {
    CellInfo {
        root: Root(0),
        dims: Dims {
            rows: 1,
            cols: elements,
        },
        partials: None,
    }
}

fn are_small(cells: &[CellInfo]) -> bool
    ensures { IsTrue result → All (λ c. area c.dims ≤ 2 ^ 24) cells.now }
{
    cells.iter().all(|c| c.dims.area() <= 1 << 24)
}

/// A program with these cells and no task; without cells where they are too many or too large.
fn program(alloc: Global, cells: Vec<CellInfo>) -> Program
    ensures { IsWithinLimits result }
{
    let within = cells.len() <= 100 && are_small(&cells);
    Program {
        cells: Sequence::of(if within { cells } else { Vec::new(alloc) }),
        tasks: Sequence::empty(alloc),
        deliveries: Sequence::empty(alloc),
        workers: 1,
    }
}

#[test]
fn blocks_have_places_to_the_last_byte(rt: HostRuntime) -> Result<(), OutOfMemory> {
    let alloc = rt.alloc();
    let four = program(alloc, vec![in alloc; cell(4), cell(1), cell(1), cell(1)]?);
    assert!(rt; swap_need(&four) == 152);
    assert!(rt; has_places(alloc, &four, &[152])?);
    assert!(rt; !has_places(alloc, &four, &[151])?);
    assert!(rt; has_places(alloc, &four, &[55, 56, 64])?);
    assert!(rt; !has_places(alloc, &four, &[88, 63])?);
    assert!(rt; bytes_of_all(&[88, 63]) == 151);
    Ok(())
}

#[test]
fn without_disks_a_cell_has_no_place(rt: HostRuntime) -> Result<(), OutOfMemory> {
    let alloc = rt.alloc();
    let one = program(alloc, vec![in alloc; cell(1)]?);
    let none = program(alloc, Vec::new(alloc));
    assert!(rt; !has_places(alloc, &one, &[])?);
    assert!(rt; has_places(alloc, &none, &[])?);
    Ok(())
}

#[test]
fn a_node_without_a_worker_makes_no_room(rt: HostRuntime) -> Result<(), OutOfMemory> {
    let alloc = rt.alloc();
    let mut machine = Machine {
        workers: 1,
        nodes: Sequence::of(vec![in alloc; 48, 1_000]?),
        disks: Sequence::empty(alloc),
        policy: Policy::Eager,
    };
    assert!(rt; room(&machine) == 48);
    machine.workers = 2;
    assert!(rt; room(&machine) == 1_000);
    Ok(())
}
