//! Lowering a job.

ghost use Rattle.std.specs.Prelude.{◌≡◌, ◌+◌, ◌<◌, ◌≤◌, Bool, IsTrue, None, Some, All, IfOk, IfErr, OnOk, nat_le, vec_len};
ghost use Rattle.sj_codelet.specs.declared.kernel.Kernel.{Kernel};
ghost use Rattle.sj_codelet.specs.Kernel.{out};
ghost use Rattle.sj_core.specs.Laws.{IsLawful, is_known};
ghost use Rattle.sj_core.specs.Proper.{Proper};
ghost use Rattle.sj_meaning.specs.State.{JobState, start};
ghost use Rattle.sj_meaning.specs.Table.{Table};
ghost use Rattle.sj_meaning.specs.View.{statements_of, IsNumbered};
ghost use Rattle.sj_lower.specs.Delivering.{DeliversPrinted, NamesDeliverTasks, DeliversInOrder};
ghost use Rattle.sj_lower.specs.Job.{IsJob, IsJobIn};
ghost use Rattle.sj_lower.specs.Limits.{most, late_limit};
ghost use Rattle.sj_lower.specs.Lowering.{Lowering, lowered, nothing, lowered_program};
ghost use Rattle.sj_lower.specs.Progress.{StandsAt, HasComing, Goes, IsFull, GoesOwn, IsFullOwn, IsOverLimit, IsLate};

use crate::layout::{Layout, MOST_PER_JOB};
use crate::lowerer::Lowerer;
use sj_base::ids::Line;
use sj_base::memory;
use sj_base::program::Program;
use sj_base::sequence::Sequence;
use sj_meaning::job::{Job, Statement};
use sj_meaning::roots::Roots;
use std::alloc::Global;

/// Why a job isn't lowered.
#[derive(Clone, Copy, Debug, PartialEq, Eq)]
pub enum LowerRefusal {
    /// The statement at this line is the first with which there are more than 262,144 cells.
    TooManyCells { line: Line },
    /// There are never too many cells, and this is the first statement with which there are more than 262,144 tasks.
    TooManyTasks { line: Line },
    OutOfMemory,
}

impl From<memory::OutOfMemory> for LowerRefusal {
    ghost use Rattle.std.specs.Prelude.{◌≡◌};
    ghost use Rattle.sj_lower.specs.declared.lower.LowerRefusal.TheVariants.{OutOfMemory};

    ghost from_gives = { λ _ e. e ≡ OutOfMemory };

    fn from(_: memory::OutOfMemory) -> Self {
        LowerRefusal::OutOfMemory
    }
}

/// What a job is lowered to, and its roots.
#[derive(Drop)]
pub struct LoweredJob {
    pub program: Program,
    pub roots: Roots,
}

/// How far a job is lowered, for so many workers, and the line of the last statement. Once there are too many tasks, at a line,
/// none is made any more, and only cells are counted.
#[derive(Drop)]
pub struct LoweringProgress {
    pub workers: u8,
    pub layout: Layout,
    pub lowerer: Lowerer,
    pub over: Option<Line>,
    pub last: Option<Line>,
}

impl LoweringProgress {
    /// Before the first statement.
    fn nothing(alloc: Global, workers: u8) -> LoweringProgress
        ensures at { (T : Table) → StandsAt T result start nothing }
        ensures over { result.over ≡ None }
        ensures last { result.last ≡ None }
        ensures workers { result.workers ≡ workers }
    {
        LoweringProgress {
            workers,
            layout: Layout::none(alloc),
            lowerer: Lowerer::nothing(alloc),
            over: None,
            last: None,
        }
    }

    /// Lowers one statement more. Linear in its operands and in the cells and tasks that it gives, and in the children of a root
    /// whose open phases it closes; where there are too many tasks, in what it takes to count the cells.
    fn add(
        &mut self,
        alloc: Global,
        roots: &Roots,
        statement: Statement,
    ) -> Result<(), LowerRefusal>
        requires { HasComing roots.now self.old statement }
        ensures workers { OnOk result (self.new.workers ≡ self.old.workers) }
        ensures last { OnOk result (self.new.last ≡ Some statement.line) }
        ensures goes { OnOk result (Goes roots.now self.old self.new statement) }
        ensures full { IfErr result (IsFull roots.now self.old statement) }
    {
        self.last = Some(statement.line);
        self.prepare(alloc, &statement.act, statement.line)?;
        self.add_own(alloc, roots, statement)
    }

    /// What the statement's own tasks give.
    fn add_own(
        &mut self,
        alloc: Global,
        roots: &Roots,
        statement: Statement,
    ) -> Result<(), LowerRefusal>
        requires { HasComing roots.now self.old statement }
        ensures workers { OnOk result (self.new.workers ≡ self.old.workers) }
        ensures last { OnOk result (self.new.last ≡ self.old.last) }
        ensures goes { OnOk result (GoesOwn roots.now self.old self.new statement) }
        ensures full { IfErr result (IsFullOwn roots.now self.old statement) }
    {
        let Statement { line, act } = statement;
        let Some(first) = self.layout.lay(alloc, roots, &act)? else {
            return Err(LowerRefusal::TooManyCells { line });
        };
        if self.over.is_some() {
            self.lowerer.pass(alloc, roots, &act, first)?;
            return Ok(());
        }
        if !self.has_room(self.lowerer.count(roots, &act)) {
            self.over = Some(line);
            self.lowerer.pass(alloc, roots, &act, first)?;
            return Ok(());
        }
        self.lowerer.add(alloc, roots, act, first, line)?;
        Ok(())
    }

    /// Whether there is room for so many tasks more. Constant time.
    pub fn has_room(&self, count: u64) -> bool
        requires few { vec_len self.now.lowerer.tasks ≤ most }
        ensures { result ≡ nat_le (vec_len self.now.lowerer.tasks + count) most }
    {
        count <= (MOST_PER_JOB - self.lowerer.tasks.len()) as u64
    }

    /// The program of the statements so far, or the line with which there were too many tasks. Constant time.
    fn finish(self) -> Result<Program, LowerRefusal>
        ensures ok { IfOk result (λ p. (self.over ≡ None)
            × ((T : Table) (S : JobState) (L : Lowering) → StandsAt T self S L → p
            ≡ lowered_program self.workers L)) }
        ensures err { IfErr result (λ e. IsOverLimit e self.over) }
    {
        let LoweringProgress {
            workers,
            layout,
            lowerer,
            over,
            ..
        } = self;
        if let Some(line) = over {
            return Err(LowerRefusal::TooManyTasks { line });
        }
        let Lowerer {
            tasks,
            deliveries,
            ..
        } = lowerer;
        Ok(Program {
            cells: Sequence::of(layout.infos),
            tasks: Sequence::of(tasks),
            deliveries: Sequence::of(deliveries),
            workers,
        })
    }
}

/// The program that a job gives, for so many workers, with the job's own values and arguments; and its roots. Refused where there
/// are too many cells, else where there are too many tasks, at the first line with which there are; or for want of memory. One
/// pass over the statements: linear in them, in their operands, and in the cells and tasks that they give; while a phase of
/// contributions is open, a statement that may close phases of a root takes time for each of its children. A contribution is one
/// task; a phase takes a task for each worker when it begins, and again when it is closed. A job with too many tasks takes no
/// memory for those of the statements from that line on.
pub fn lower(alloc: Global, job: Job, workers: u8) -> Result<LoweredJob, LowerRefusal>
    requires job { IsJob (statements_of job) }
    requires numbered { IsNumbered job.roots job.statements }
    ensures fits { OnOk result (late_limit workers (statements_of job) ≡ None) }
    ensures is { IfOk result (λ l. l.program ≡ lowered (statements_of job) workers) }
    ensures roots { IfOk result (λ l. l.roots ≡ job.roots) }
    ensures proper { IfOk result (λ l. Proper l.program) }
    ensures known { IfOk result (λ l. (has : Kernel → Bool) → IsJobIn has (statements_of job)
        → All (λ t. IsTrue (is_known has t.codelet)) l.program.tasks) }
    ensures prints { IfOk result (λ l. (has : Kernel → Bool) → IsLawful out has l.program
        → 0 < workers → DeliversPrinted job.roots l.program (statements_of job)) }
    ensures handed_over { IfOk result (λ l. NamesDeliverTasks l.program) }
    ensures in_order { IfOk result (λ l. DeliversInOrder l.program) }
    ensures refused { IfErr result (λ e. IsLate e (late_limit workers (statements_of job))) }
{
    let Job {
        settings,
        roots,
        statements,
    } = job;
    drop(settings);
    let mut progress = LoweringProgress::nothing(alloc, workers);
    for statement in statements.into_items() {
        progress.add(alloc, &roots, statement)?;
    }
    progress.close_last(alloc)?;
    let program = progress.finish()?;
    Ok(LoweredJob { program, roots })
}
