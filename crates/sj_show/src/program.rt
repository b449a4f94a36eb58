//! A lowered program as text: a line for each thing in it.

ghost use Rattle.std.specs.Prelude.{◌≡◌, ◌++◌, flat_map, map, IfOk, OnOk};
ghost use Rattle.std.specs.List.{enumerate_from};
ghost use Rattle.sj_show.specs.Program.{access_word, line_of_cell, copies_words, line_of_delivery, line_of_task, text_of_program, line_of_workers};
ghost use Rattle.sj_show.specs.Words.{spaced};

use crate::words::{mode_word, write_codelet, write_integer, write_numbered};
use sj_base::ids::Cell;
use sj_base::memory::OutOfMemory;
use sj_base::mode::Access;
use sj_base::program::{CellInfo, Delivery, Lowered, Program};
use std::alloc::Global;

/// Appends the line of the number of workers.
fn write_workers(text: &mut Vec<u8>, workers: u8) -> Result<(), OutOfMemory>
    ensures { OnOk result (text.new.items ≡ text.old.items ++ line_of_workers workers) }
{
    write_numbered(text, b"workers ", workers as u64)?;
    text.push(b'\n')?;
    Ok(())
}

/// Appends the first of a cell's partial copies, where it has any.
fn write_copies(text: &mut Vec<u8>, first: Option<Cell>) -> Result<(), OutOfMemory>
    ensures { OnOk result (text.new.items ≡ text.old.items ++ spaced (copies_words first)) }
{
    match first {
        Some(cell) => write_numbered(text, b" copies c", cell.0 as u64),
        None => Ok(()),
    }
}

/// Appends the line of a cell.
fn write_cell(text: &mut Vec<u8>, number: usize, cell: &CellInfo) -> Result<(), OutOfMemory>
    ensures { OnOk result (text.new.items ≡ text.old.items ++ line_of_cell (number, cell.now)) }
{
    write_numbered(text, b"cell c", number as u64)?;
    write_numbered(text, b" r", cell.root.0 as u64)?;
    write_numbered(text, b" ", cell.dims.rows as u64)?;
    write_numbered(text, b" ", cell.dims.cols as u64)?;
    write_copies(text, cell.partials)?;
    text.push(b'\n')?;
    Ok(())
}

/// Appends the lines of cells. Linear in them, amortised.
fn write_cells(text: &mut Vec<u8>, cells: &[CellInfo]) -> Result<(), OutOfMemory>
    ensures { OnOk result (text.new.items
        ≡ text.old.items ++ flat_map line_of_cell (enumerate_from 0 cells.now)) }
{
    for (number, cell) in cells.iter().enumerate() {
        write_cell(text, number, cell)?;
    }
    Ok(())
}

/// Appends the words of accesses, each behind a space. Linear in them, amortised.
fn write_accesses(text: &mut Vec<u8>, accesses: &[Access]) -> Result<(), OutOfMemory>
    ensures { OnOk result (text.new.items
        ≡ text.old.items ++ spaced (map access_word accesses.now)) }
{
    for access in accesses {
        write_numbered(text, b" c", access.cell.0 as u64)?;
        text.push(b':')?;
        text.extend_from_slice(mode_word(access.mode))?;
    }
    Ok(())
}

/// Appends the line of a task. Linear in it, amortised.
fn write_task(text: &mut Vec<u8>, number: usize, task: &Lowered) -> Result<(), OutOfMemory>
    ensures { OnOk result (text.new.items ≡ text.old.items ++ line_of_task (number, task.now)) }
{
    write_numbered(text, b"task t", number as u64)?;
    write_numbered(text, b" line ", task.line.0 as u64)?;
    text.extend_from_slice(b" prio ")?;
    write_integer(text, task.priority as i64)?;
    text.push(b' ')?;
    write_codelet(text, task.codelet, task.args.items())?;
    write_accesses(text, task.accesses.items())?;
    text.push(b'\n')?;
    Ok(())
}

/// Appends the lines of tasks. Linear in them, amortised.
fn write_tasks(text: &mut Vec<u8>, tasks: &[Lowered]) -> Result<(), OutOfMemory>
    ensures { OnOk result (text.new.items
        ≡ text.old.items ++ flat_map line_of_task (enumerate_from 0 tasks.now)) }
{
    for (number, task) in tasks.iter().enumerate() {
        write_task(text, number, task)?;
    }
    Ok(())
}

/// Appends the line of a delivery.
fn write_delivery(text: &mut Vec<u8>, delivery: &Delivery) -> Result<(), OutOfMemory>
    ensures { OnOk result (text.new.items ≡ text.old.items ++ line_of_delivery delivery.now) }
{
    write_numbered(text, b"delivery t", delivery.task.0 as u64)?;
    write_numbered(text, b" r", delivery.root.0 as u64)?;
    write_numbered(text, b" ", delivery.place.0 as u64)?;
    write_numbered(text, b" ", delivery.place.1 as u64)?;
    write_numbered(text, b" print ", delivery.print as u64)?;
    text.push(b'\n')?;
    Ok(())
}

/// Appends the lines of deliveries. Linear in them, amortised.
fn write_deliveries(text: &mut Vec<u8>, deliveries: &[Delivery]) -> Result<(), OutOfMemory>
    ensures { OnOk result (text.new.items
        ≡ text.old.items ++ flat_map line_of_delivery deliveries.now) }
{
    for delivery in deliveries {
        write_delivery(text, delivery)?;
    }
    Ok(())
}

/// The text of a program: a line for the number of workers, for each cell, each task and each delivery. Linear in it, and in the
/// arguments and accesses of the tasks.
pub fn program_text(alloc: Global, program: &Program) -> Result<Vec<u8>, OutOfMemory>
    ensures { IfOk result (λ text. text.items ≡ text_of_program program.now) }
{
    let mut text = Vec::new(alloc);
    write_workers(&mut text, program.workers)?;
    write_cells(&mut text, program.cells.items())?;
    write_tasks(&mut text, program.tasks.items())?;
    write_deliveries(&mut text, program.deliveries.items())?;
    Ok(text)
}
