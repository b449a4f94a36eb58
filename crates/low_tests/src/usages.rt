//! Which cells a task accesses, and how.

ghost use Rattle.std.specs.Prelude.{◌≡◌, ◌+◌, ◌^◌, ◌<◌, ◌++◌, ◌∷◌, [], map, IfOk, OnOk};
ghost use Rattle.std.specs.List.{flat_map, range_with_len};
ghost use Rattle.sj_deps.specs.Conflict.{copies_of, first_copy, usage, usages_of};

use sj_base::ids::Cell;
use sj_base::memory::OutOfMemory;
use sj_base::mode::{Access, Mode};
use sj_base::program::{Codelet, Lowered, Program};
use sj_deps::manner::{Manner, Usage};
use std::alloc::Global;

/// The accesses of a task, operand by operand: `Redux` is one to each partial copy of its cell, and
/// `Scratch` is none. Linear in the result.
pub fn usages_of_task(
    alloc: Global,
    program: &Program,
    task: &Lowered,
) -> Result<Vec<Usage>, OutOfMemory>
    ensures { IfOk result (λ v. v.items
        ≡ flat_map (usages_of program.now task.now.codelet) task.now.accesses) }
{
    let mut usages = Vec::new(alloc);
    for access in task.accesses.items() {
        add_usages(&mut usages, program, task.codelet, *access)?;
    }
    Ok(usages)
}

fn add_usages(
    usages: &mut Vec<Usage>,
    program: &Program,
    codelet: Codelet,
    access: Access,
) -> Result<(), OutOfMemory>
    ensures { OnOk result (usages.new.items
        ≡ usages.old.items ++ usages_of program.now codelet access) }
{
    let cell = access.cell.0 as usize;
    match access.mode {
        Mode::R => add_usage(usages, cell, Manner::Read),
        Mode::W => add_usage(usages, cell, Manner::Write),
        Mode::RW => add_usage(usages, cell, Manner::Write),
        Mode::Scratch => Ok(()),
        Mode::Redux => add_copies(usages, program, access.cell),
        Mode::Commute => add_usage(usages, cell, Manner::Commute(codelet)),
    }
}

fn add_usage(usages: &mut Vec<Usage>, cell: usize, manner: Manner) -> Result<(), OutOfMemory>
    ensures { OnOk result (usages.new.items ≡ usages.old.items ++ usage manner cell ∷ []) }
{
    usages.push(Usage { cell, manner })?;
    Ok(())
}

/// The first partial copy of a cell, where it has any.
fn first_copy(program: &Program, cell: Cell) -> Option<Cell>
    ensures { result ≡ first_copy program.now cell.0 }
{
    program.cells.items().get(cell.0 as usize)?.partials
}

fn add_copies(usages: &mut Vec<Usage>, program: &Program, cell: Cell) -> Result<(), OutOfMemory>
    ensures { OnOk result (usages.new.items
        ≡ usages.old.items ++ map (usage Manner.Contribute) (copies_of program.now cell.0)) }
{
    match first_copy(program, cell) {
        Some(first) => add_range(usages, first.0 as usize, program.workers as usize),
        None => Ok(()),
    }
}

fn add_range(usages: &mut Vec<Usage>, first: usize, count: usize) -> Result<(), OutOfMemory>
    requires { first + count < 2 ^ 63 }
    ensures { OnOk result (usages.new.items
        ≡ usages.old.items ++ map (usage Manner.Contribute) (range_with_len first count)) }
{
    for n in 0..count {
        add_usage(usages, first + n, Manner::Contribute)?;
    }
    Ok(())
}
