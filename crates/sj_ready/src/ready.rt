//! A job made ready: its program, and the machine that is to run it.

ghost use Rattle.std.specs.Prelude.{◌≡◌, ◌<◌, ◌≤◌, ◌^◌, Bool, true, IsTrue, All, IfOk, IfErr, None, Ok, length};
ghost use Rattle.sj_apps.specs.Application.{job_for, IsSized};
ghost use Rattle.sj_codelet.specs.Laws.{CommutingCommute, ContributingContribute, ReductionsReduce};
ghost use Rattle.sj_codelet.specs.declared.kernel.Kernel.{Kernel};
ghost use Rattle.sj_codelet.specs.Kernel.{out};
ghost use Rattle.sj_core.specs.Laws.{IsLawful, is_known};
ghost use Rattle.sj_core.specs.Proper.{Proper};
ghost use Rattle.sj_job.specs.Reading.{job_of, IsReadRefusal};
ghost use Rattle.sj_meaning.specs.State.{start};
ghost use Rattle.sj_meaning.specs.View.{statements_of, job_seen, IsNumbered};
ghost use Rattle.sj_job.specs.Well.{IsWell};
ghost use Rattle.sj_lower.specs.Delivering.{DeliversPrinted, NamesDeliverTasks};
ghost use Rattle.sj_lower.specs.Job.{IsJob, IsJobIn};
ghost use Rattle.sj_lower.specs.Limits.{late_limit};
ghost use Rattle.sj_lower.specs.Lowering.{lowered};
ghost use Rattle.sj_meaning.specs.Settings.{SettingsAreInRange};
ghost use Rattle.sj_words.specs.Machine.{HasNodes, IsWorkerCount};
ghost use Rattle.sj_words.specs.Options.{OptionsAreInRange};
ghost use Rattle.sj_job.specs.declared.reason.ReadRefusal.{ReadRefusal};
ghost use Rattle.sj_ready.specs.Input.{job_in, work_in, HasJob};
ghost use Rattle.sj_ready.specs.Ready.{HasOwnCodelets, IsReady, IsUnready};
ghost use Rattle.sj_ready.specs.Work.{Work, machine_for, within_limits};

use crate::input::Input;
use crate::unready::Unready;
use sj_apps::application::Application;
use sj_base::memory::OutOfMemory;
use sj_base::program::{Machine, Program};
use sj_base::sequence::Sequence;
use sj_codelet::set::Codelets;
use sj_core::tasks::arguments_fit;
use sj_job::read::read;
use sj_job::reason::ReadRefusal;
use sj_lower::lower::{LoweredJob, lower};
use sj_meaning::job::Job;
use sj_meaning::roots::Roots;
use sj_meaning::settings::Settings;
use sj_needs::shortage::fits;
use sj_words::{Options, machine_of};
use std::alloc::Global;
use std::sync::Arc;

/// A job's program, to be shared, its roots, the machine that is to run it, and the bytes that each task needs on its node.
#[derive(Drop)]
pub struct ReadyJob {
    pub program: Arc<Program>,
    pub roots: Roots,
    pub machine: Machine,
    pub footprints: Vec<u64>,
    /// A line is to be printed of each array, in place of its elements.
    pub shows_summary: bool,
    /// The trace's text is to follow what the job prints.
    pub shows_trace: bool,
}

/// The machine that words ask for, else a job's settings, with disks of these sizes. Linear in its nodes.
fn machine_for(
    alloc: Global,
    options: &Options,
    settings: &Settings,
    disks: Vec<u64>,
) -> Result<Machine, OutOfMemory>
    requires options { OptionsAreInRange options.now }
    requires settings { SettingsAreInRange settings.now }
    ensures machine { IfOk result (λ m. m ≡ machine_for options.now disks.items settings.now) }
    ensures workers { IfOk result (λ m. IsWorkerCount m.workers) }
    ensures nodes { IfOk result (λ m. HasNodes m.nodes) }
{
    let nodes = settings.node_sizes(alloc)?;
    machine_of(
        alloc,
        options,
        settings.worker_count(),
        Sequence::of(nodes),
        settings.chosen_policy(),
        Sequence::of(disks),
    )
}

/// No code: its contract is what a set of codelets obeys.
fn laws_of<C: Codelets>(_codelets: &C)
    ensures commuting { CommutingCommute out C.has }
    ensures contributing { ContributingContribute out C.has }
    ensures reducing { ReductionsReduce out C.has }
{}

/// A program that can be shared. Constant time.
fn shareable(alloc: Global, program: Program) -> Result<Arc<Program>, OutOfMemory>
    ensures { IfOk result (λ p. p.value ≡ program) }
{
    Ok(Arc::new(alloc, program)?)
}

/// A job's program, to be shared, and its roots.
#[derive(Drop)]
struct SharedJob {
    program: Arc<Program>,
    roots: Roots,
}

/// A job lowered for so many workers. The cost of lowering.
fn lowered_for(alloc: Global, job: Job, workers: u8) -> Result<SharedJob, Unready>
    requires job { IsJob (statements_of job) }
    requires numbered { IsNumbered job.roots job.statements }
    ensures within { IfOk result (λ _. late_limit workers (statements_of job) ≡ None) }
    ensures program { IfOk result (λ r. r.program.value ≡ lowered (statements_of job) workers) }
    ensures proper { IfOk result (λ r. Proper r.program.value) }
    ensures known { IfOk result (λ r. (has : Kernel → Bool) → IsJobIn has (statements_of job)
        → All (λ l. IsTrue (is_known has l.codelet)) r.program.value.tasks) }
    ensures prints { IfOk result (λ r. (has : Kernel → Bool) → IsLawful out has r.program.value
        → 0 < workers → DeliversPrinted r.roots r.program.value (statements_of job)) }
    ensures handed_over { IfOk result (λ r. NamesDeliverTasks r.program.value) }
    ensures unready { IfErr result (λ why. (w : Work) → w.statements ≡ statements_of job →
        w.machine.workers ≡ workers → IsUnready (within_limits w) why) }
{
    let LoweredJob { program, roots } = lower(alloc, job, workers)?;
    let program = shareable(alloc, program)?;
    Ok(SharedJob { program, roots })
}

/// The job of a text, whose memory is given back. Linear in the text, but that codelets are looked up in the table.
fn read_whole<C: Codelets>(alloc: Global, text: Vec<u8>, codelets: &C) -> Result<Job, ReadRefusal>
    ensures ok { IfOk result (λ job. job_of C.has text.items ≡ Ok (job_seen job)) }
    ensures err { IfErr result (λ e. IsReadRefusal e (job_of C.has text.items)) }
    ensures within { IfOk result (λ job. SettingsAreInRange job.settings) }
    ensures well { IfOk result (λ job. IsWell C.has 0 start (statements_of job)) }
    ensures numbered { IfOk result (λ job. IsNumbered job.roots job.statements) }
{
    read(alloc, &text, codelets)
}

/// The job of an application. Linear in its weights and tasks.
fn generated(alloc: Global, application: Application) -> Result<Job, ReadRefusal>
    requires size { IsSized application }
    ensures seen { IfOk result (λ job. job_seen job ≡ job_for application) }
    ensures err { IfErr result (λ e. e ≡ ReadRefusal.OutOfMemory) }
    ensures within { IfOk result (λ job. SettingsAreInRange job.settings) }
    ensures well { IfOk result (λ job. IsWell (λ _. true) 0 start (statements_of job)) }
    ensures numbered { IfOk result (λ job. IsNumbered job.roots job.statements) }
{
    match application.job(alloc) {
        Ok(job) => Ok(job),
        Err(_) => Err(ReadRefusal::OutOfMemory),
    }
}

/// The job that is asked for. The cost of reading it, or of generating it.
fn job_of<C: Codelets>(alloc: Global, input: Input, codelets: &C) -> Result<Job, ReadRefusal>
    requires input { HasJob C.has input }
    ensures ok { IfOk result (λ job. job_in C.has input ≡ Ok (job_seen job)) }
    ensures err { IfErr result (λ e. IsReadRefusal e (job_in C.has input)) }
    ensures within { IfOk result (λ job. SettingsAreInRange job.settings) }
    ensures well { IfOk result (λ job. IsWell C.has 0 start (statements_of job)) }
    ensures numbered { IfOk result (λ job. IsNumbered job.roots job.statements) }
{
    match input {
        Input::Text(text) => read_whole(alloc, text, codelets),
        Input::Generated(application) => generated(alloc, application),
    }
}

/// A job text, or the job of an application, made ready to be run on the machine that words ask for, else its settings, with
/// disks of these sizes. The cost of reading, of lowering, and of what the program needs: linear in the text, the tasks, their
/// accesses and the cells. The text is dropped as soon as it is read.
///
/// # Errors
///
/// The first bad line with the first reason against it, or the limit that is exceeded; the first task that fits no node; that the
/// blocks have no places on the disks; that an allocation was refused. In this order.
pub fn ready_job<C: Codelets>(
    alloc: Global,
    input: Input,
    options: &Options,
    disks: Vec<u64>,
    codelets: &C,
) -> Result<ReadyJob, Unready>
    requires own { HasOwnCodelets C.has }
    requires input { HasJob C.has input }
    requires options { OptionsAreInRange options.now }
    requires few { length disks.items ≤ 16 }
    requires small { All (λ n. n ≤ 2 ^ 40) disks.items }
    ensures ready { IfOk result (IsReady C.has
        (work_in C.has options.now disks.items input)) }
    ensures disks { IfOk result (λ r. r.machine.disks ≡ disks.items) }
    ensures unready { IfErr result (IsUnready
        (work_in C.has options.now disks.items input)) }
{
    let job = job_of(alloc, input, codelets)?;
    let machine = machine_for(alloc, options, &job.settings, disks)?;
    let SharedJob { program, roots } = lowered_for(alloc, job, machine.workers)?;
    arguments_fit(&program);
    laws_of(codelets);
    let footprints = fits(alloc, &program, &machine)?;
    Ok(ReadyJob {
        program,
        roots,
        machine,
        footprints,
        shows_summary: options.summary,
        shows_trace: options.trace,
    })
}
