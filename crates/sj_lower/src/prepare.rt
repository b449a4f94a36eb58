//! What comes before a statement's own tasks: the phases of contributions that it closes are closed, and that of its own
//! contribution is open.

ghost use Rattle.std.specs.Prelude.{◌≡◌, ◌<◌, ◌≤◌, ◌+◌, None, Some, All, IfErr, OnOk, map, filter, fold, length, vec_len, ◌++◌};
ghost use Rattle.std.specs.List.{range_with_len};
ghost use Rattle.sj_base.specs.Mode.{is_redux};
ghost use Rattle.sj_job.specs.State.{State};
ghost use Rattle.sj_job.specs.Table.{Table};
ghost use Rattle.sj_job.specs.Track.{children_count, is_set};
ghost use Rattle.sj_job.specs.View.{act_seen};
ghost use Rattle.sj_plan.specs.Parts.{places};
ghost use Rattle.sj_lower.specs.Cells.{cells_from};
ghost use Rattle.sj_lower.specs.Limits.{most};
ghost use Rattle.sj_lower.specs.Lowering.{Lowering, closed, all_closed, opened, opened_for, closed_by, contributions, finished};
ghost use Rattle.sj_lower.specs.Progress.{IsAt, Prepares, PreparesIn, HasFewCopies, HasRoomLeft, KeepsRest, OpensAt, PreparesOperand, IsFullFor, IsFullAt, NamesActives, is_other};
ghost use Rattle.sj_lower.specs.Seen.{AreIn, active_at, access_by};

use crate::lower::{LowerRefusal, Progress};
use crate::phase::{OpenPhase, push_begin, push_close};
use sj_base::ids::{Cell, Line, Root};
use sj_base::memory::OutOfMemory;
use sj_base::mode::Mode;
use sj_job::job::{Act, Operand};
use std::alloc::Global;

/// Whether an operand is accessed otherwise than by a contribution; a scratch buffer is no access. Constant time.
fn is_other_access(operand: &Operand) -> bool {
    match operand.mode {
        Mode::Redux | Mode::Scratch => false,
        Mode::R | Mode::W | Mode::RW | Mode::Commute => true,
    }
}

impl Progress {
    /// Closes the phase of a cell, if one is open. Linear in the workers.
    fn close(&mut self, alloc: Global, cell: Cell, line: Line) -> Result<(), OutOfMemory>
        requires room { HasRoomLeft self.old }
        requires copies { HasFewCopies self.old }
        ensures closes { OnOk result (Prepares self.old self.new line (λ S L. closed self.old.workers L cell)) }
        ensures rest { OnOk result (KeepsRest self.old self.new) }
        ensures room { OnOk result (HasRoomLeft self.new) }
        ensures copies { OnOk result (HasFewCopies self.new) }
    {
        if self.over.is_some() {
            return Ok(());
        }
        let Some(phase) = self.lowerer.phases.swap_remove(&cell.0) else {
            return Ok(());
        };
        if !self.has_room(self.workers as u64) {
            self.over = Some(line);
            return Ok(());
        }
        push_close(&mut self.lowerer.tasks, alloc, phase, cell, self.workers)
    }

    /// Closes the open phases of a root, row by row. Linear in its children, but constant time where no phase is open.
    fn close_root(&mut self, alloc: Global, root: Root, line: Line) -> Result<(), OutOfMemory>
        requires root { root.0 < vec_len self.old.lowerer.actives }
        requires cells { (active_at self.old.lowerer.actives.items root.0).first
            + children_count (active_at self.old.lowerer.actives.items root.0).tracked.parts ≤ most }
        requires room { HasRoomLeft self.old }
        requires copies { HasFewCopies self.old }
        ensures closes { OnOk result (Prepares self.old self.new line (λ S L. all_closed self.old.workers
            (map (cells_from (active_at self.old.lowerer.actives.items root.0).first
            (active_at self.old.lowerer.actives.items root.0).tracked.parts)
            (places (active_at self.old.lowerer.actives.items root.0).tracked.parts)) L)) }
        ensures rest { OnOk result (KeepsRest self.old self.new) }
        ensures room { OnOk result (HasRoomLeft self.new) }
        ensures copies { OnOk result (HasFewCopies self.new) }
    {
        if self.lowerer.phases.is_empty() {
            return Ok(());
        }
        let placed = self.lowerer.actives[root.0 as usize].placed();
        let count = placed.parts.r * placed.parts.c;
        for k in 0..count {
            self.close(alloc, Cell(placed.first + k), line)?;
        }
        Ok(())
    }

    /// Closes the open phases of the operands that are accessed otherwise than by a contribution, in their order. Linear in the
    /// operands.
    fn close_operands(
        &mut self,
        alloc: Global,
        operands: &[Operand],
        line: Line,
    ) -> Result<(), OutOfMemory>
        requires operands { All (AreIn self.old.lowerer.actives.items) operands.now }
        requires room { HasRoomLeft self.old }
        requires copies { HasFewCopies self.old }
        ensures closes { OnOk result (Prepares self.old self.new line (λ S L. all_closed self.old.workers
            (map (λ o. (access_by self.old.lowerer.actives.items o).cell) (filter is_other operands.now)) L)) }
        ensures rest { OnOk result (KeepsRest self.old self.new) }
        ensures room { OnOk result (HasRoomLeft self.new) }
        ensures copies { OnOk result (HasFewCopies self.new) }
    {
        for operand in operands {
            if is_other_access(operand) {
                let placed = self.lowerer.actives[operand.root.0 as usize].placed();
                self.close(alloc, placed.cell(operand.place), line)?;
            }
        }
        Ok(())
    }

    /// Closes the phases that a statement closes.
    pub fn close_by(&mut self, alloc: Global, act: &Act, line: Line) -> Result<(), OutOfMemory>
        requires actives { NamesActives self.old act.now }
        requires room { HasRoomLeft self.old }
        requires copies { HasFewCopies self.old }
        ensures closes { OnOk result ((T : Table) → PreparesIn T act.now self.old self.new line
            (λ S L. all_closed self.old.workers (closed_by S L.cells (act_seen T L.cells.roots act.now)) L)) }
        ensures rest { OnOk result (KeepsRest self.old self.new) }
        ensures room { OnOk result (HasRoomLeft self.new) }
        ensures copies { OnOk result (HasFewCopies self.new) }
    {
        match act {
            Act::Register(_) | Act::Redux(_, _) => Ok(()),
            Act::Plan(root, parts) => {
                if self.lowerer.actives[root.0 as usize].tracked.parts() == *parts {
                    return Ok(());
                }
                self.close_root(alloc, *root, line)
            }
            Act::Task(task) => self.close_operands(alloc, task.operands.items(), line),
            Act::Print(root) | Act::Invalidate(root) | Act::Unregister(root) => {
                self.close_root(alloc, *root, line)
            }
        }
    }

    /// Closes all open phases, by cell. Their tasks count for the last statement. Linear in the cells.
    pub fn close_last(&mut self, alloc: Global) -> Result<(), OutOfMemory>
        requires room { HasRoomLeft self.old }
        requires copies { HasFewCopies self.old }
        ensures none { OnOk result (self.old.last ≡ None → self.new ≡ self.old) }
        ensures closes { OnOk result ((line : Line) → self.old.last ≡ Some line
            → Prepares self.old self.new line (λ S L. finished self.old.workers L)) }
        ensures rest { OnOk result (KeepsRest self.old self.new) }
    {
        let Some(line) = self.last else {
            return Ok(());
        };
        if self.lowerer.phases.is_empty() {
            return Ok(());
        }
        for cell in 0..self.layout.infos.len() {
            self.close(alloc, Cell(cell as u32), line)?;
        }
        Ok(())
    }

    /// The phase of a cell that is contributed to goes on, or begins. Linear in the workers where it begins.
    fn open(
        &mut self,
        alloc: Global,
        cell: Cell,
        phase: OpenPhase,
        valued: bool,
    ) -> Result<(), OutOfMemory>
        requires cells { phase.copies.0 + self.old.workers ≤ most }
        requires room { HasRoomLeft self.old }
        requires copies { HasFewCopies self.old }
        ensures opens { OnOk result (OpensAt self.old self.new cell phase valued) }
        ensures rest { OnOk result (KeepsRest self.old self.new) }
        ensures room { OnOk result (HasRoomLeft self.new) }
        ensures copies { OnOk result (HasFewCopies self.new) }
    {
        if self.over.is_some() {
            return Ok(());
        }
        if let Some(open) = self.lowerer.phases.get_mut(&cell.0) {
            open.line = phase.line;
            return Ok(());
        }
        let count = self.workers as u64 + !valued as u64;
        if !self.has_room(count) {
            self.over = Some(phase.line);
            return Ok(());
        }
        push_begin(
            &mut self.lowerer.tasks,
            alloc,
            phase,
            cell,
            valued,
            self.workers,
        )?;
        self.lowerer.phases.insert(cell.0, phase)?;
        Ok(())
    }

    /// The phase of an operand's child goes on, or begins, if the operand is a contribution.
    fn open_for(&mut self, alloc: Global, operand: &Operand, line: Line) -> Result<(), LowerRefusal>
        requires operand { AreIn self.old.lowerer.actives.items operand.now }
        requires room { HasRoomLeft self.old }
        requires copies { HasFewCopies self.old }
        ensures opens { OnOk result ((T : Table) → PreparesOperand T operand.now self.old self.new line) }
        ensures full { IfErr result (λ e. IsFullFor self.old operand.now line e) }
        ensures room { OnOk result (HasRoomLeft self.new) }
        ensures copies { OnOk result (HasFewCopies self.new) }
    {
        let active = &self.lowerer.actives[operand.root.0 as usize];
        let Some(by) = active.reduction else {
            return Ok(());
        };
        let cell = active.placed().cell(operand.place);
        let valued = active.tracked.is_valued(operand.place.0, operand.place.1);
        let Some(copies) = self.layout.copies(cell, self.workers)? else {
            return Err(LowerRefusal::TooManyCells { line });
        };
        self.open(alloc, cell, OpenPhase { by, copies, line }, valued)?;
        Ok(())
    }

    /// The phases to which a statement contributes go on, or begin. Linear in its operands, and in the workers where a phase
    /// begins.
    pub fn open_by(&mut self, alloc: Global, act: &Act, line: Line) -> Result<(), LowerRefusal>
        requires actives { NamesActives self.old act.now }
        requires room { HasRoomLeft self.old }
        requires copies { HasFewCopies self.old }
        ensures opens { OnOk result ((T : Table) → PreparesIn T act.now self.old self.new line
            (λ S L. fold (opened_for self.old.workers S line) L (contributions (act_seen T L.cells.roots act.now)))) }
        ensures full { IfErr result (λ e. (T : Table) → IsFullAt T act.now self.old line e) }
        ensures room { OnOk result (HasRoomLeft self.new) }
        ensures copies { OnOk result (HasFewCopies self.new) }
    {
        let Act::Task(task) = act else {
            return Ok(());
        };
        for operand in task.operands.items() {
            if operand.mode == Mode::Redux {
                self.open_for(alloc, operand, line)?;
            }
        }
        Ok(())
    }
}
