//! What the steps of a run keep of a coherent state, and what legal traces come to, whatever the program, the
//! machine and the order of events.

ghost use Rattle.std.specs.Prelude.{List};
ghost use Rattle.sj_base.specs.declared.trace.Event.{Event};
ghost use Rattle.sj_base.specs.declared.program.Program.{Program};
ghost use Rattle.sj_base.specs.declared.program.Machine.{Machine};
ghost use Rattle.sj_core.specs.Coherent.{Coherent};
ghost use Rattle.sj_core.specs.Laws.{CompleteHoldsFinal, CompleteTracesHoldFinal, DeliversGiven, DisksAreOfMachine, EachCellHasDisk, EventsChangeRows, EventsKeepContent, FindsContent, FindsEarlierTasks, IsKeptByClaims, IsKeptByDrops, IsKeptByEndedMoves, IsKeptByEnds, IsKeptByMovesIn, IsKeptByMovesOut, IsKeptByRuns, LegalTracesAreBounded, MovesHaveOneWorker, TakesAnyWorker, TracesGoOn, TracesKeepCoherence, TracesKeepContent};
ghost use Rattle.sj_core.specs.Legal.{IsFinished};
ghost use Rattle.sj_core.specs.Machine.{opening};
ghost use Rattle.sj_core.specs.Once.{EachRanOnce};
ghost use Rattle.sj_core.specs.Proper.{Proper};
ghost use Rattle.sj_deps.specs.Conflict.{HasDependencies};

/// A proper program's dependencies can be counted: each access names a cell, and a task accesses a cell in one manner.
pub fn dependencies()
    ensures { (p : Program) → Proper p → HasDependencies p }
{}

/// A run begins in a coherent state.
pub fn openings()
    ensures { (p : Program) (m : Machine) → Coherent p m (opening p m) }
{}

/// A claim leaves a coherent state.
pub fn claims()
    ensures { IsKeptByClaims Coherent }
{}

/// The beginning of a kernel's run leaves a coherent state.
pub fn runs()
    ensures { IsKeptByRuns Coherent }
{}

/// The end of a kernel's run leaves a coherent state.
pub fn ends()
    ensures { IsKeptByEnds Coherent }
{}

/// The beginning of a move into a node leaves a coherent state.
pub fn moves_in()
    ensures { IsKeptByMovesIn Coherent }
{}

/// The beginning of a move out to a disk leaves a coherent state.
pub fn moves_out()
    ensures { IsKeptByMovesOut Coherent }
{}

/// The end of a move leaves a coherent state.
pub fn ended_moves()
    ensures { IsKeptByEndedMoves Coherent }
{}

/// A drop leaves a coherent state.
pub fn drops()
    ensures { IsKeptByDrops Coherent }
{}

/// Each event leaves the arrays that the tasks leave, by the laws of the program's set.
pub fn contents()
    ensures { EventsKeepContent }
{}

/// What a task finds on its worker's node: what the tasks that are done leave in its cells; and in a cell that no phase holds
/// open what all tasks before it leave, in submission order, whatever the workers of contributions and the order of commuting
/// tasks.
pub fn deliveries()
    ensures finds_content { FindsContent }
    ensures finds_earlier_tasks { FindsEarlierTasks }
    ensures delivers_given { DeliversGiven }
    ensures takes_any_worker { TakesAnyWorker }
{}

/// What the cells hold where all tasks are done: what the tasks leave one after another in submission order.
pub fn completions()
    ensures { CompleteHoldsFinal }
{}

/// Each legal trace leaves a coherent state and the arrays that the tasks leave, and a complete one what all tasks leave in
/// submission order.
pub fn traces()
    ensures keep_coherence { TracesKeepCoherence }
    ensures keep_content { TracesKeepContent }
    ensures hold_final { CompleteTracesHoldFinal }
{}

/// A trace goes on by an event that may happen in the state that it leaves, and is legal then. Which worker moves a cell is a
/// function of the state.
pub fn states()
    ensures go_on { TracesGoOn }
    ensures moves { MovesHaveOneWorker }
{}

/// What each event makes of the row of each cell.
pub fn rows()
    ensures { EventsChangeRows }
{}

/// Where blocks lie: each cell's on one of the machine's disks, if all fit there.
pub fn blocks()
    ensures each_has_disk { EachCellHasDisk }
    ensures of_machine { DisksAreOfMachine }
{}

/// In a trace that is legal and finished each task was claimed, ran and ended once.
pub fn finishes()
    ensures { (p : Program) (m : Machine) (trace : List Event) →
        IsFinished p m trace → EachRanOnce p trace }
{}

/// A legal trace has at most three events for each task of its program and five for each operand.
pub fn bounds()
    ensures { LegalTracesAreBounded }
{}
