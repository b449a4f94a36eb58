//! A program of one's own over the engine: its set of codelets, a program that lowering makes of a text, the run of it on a
//! machine too small to hold all its matrices, and the arrays that the run hands over.
#![tactic(auto)]

ghost use Rattle.std.specs.Prelude.{◌≡◌, ◌↔◌, ◌≤◌, ◌^◌, ℕ, All, IsOkAnd, IsTrue, IfOk, IfErr, Result, length, map};
ghost use Rattle.sj_codelet.specs.Kernel.{out};
ghost use Rattle.sj_edge.specs.Sizes.{AreWithin};
ghost use Rattle.sj_engine.specs.Outcome.{AllDisksTell};
ghost use Rattle.sj_meaning.specs.Job.{Job};
ghost use Rattle.sj_job.specs.Reading.{Refusal, job_of};
ghost use Rattle.sj_board.specs.Delivered.{DeliversEach};
ghost use Rattle.own_set.specs.NotRun.{IsNotReady, IsNotRun, IsSetRun};
ghost use Rattle.own_set.specs.Turns.{HasCodelets, small_program, small_machine, turns_has};

use sj_base::memory;
use sj_base::mode::Policy;
use sj_base::program::{Codelet, Machine, Program};
use sj_base::sequence::Sequence;
use sj_board::delivered::Delivered;
use sj_board::fault::RunFault;
use sj_codelet::frame::Frame;
use sj_codelet::kernel::Kernel;
use sj_codelet::set::Codelets;
use sj_core::tasks::arguments_fit;
use sj_edge::disk::{Disk, sizes_of};
use sj_edge::gate::OpenGate;
use sj_edge::memory_disk::MemDisk;
use sj_engine::engine::{RunOutcome, run};
use sj_job::read::read;
use sj_job::reason::ReadRefusal;
use sj_kernels::ring::Ring;
use sj_lower::lower::{LowerRefusal, LoweredJob, lower};
use sj_needs::shortage::{Shortage, fits};
use std::alloc::Global;
use std::io;
use std::sync::{Arc, Wait};
use std::thread::Threads;

/// What the example runs: a matrix is turned, and turned back.
const JOB: &[u8] =
    b"starjob 1\nmatrix A 2 3 fill 1 1\nmatrix B 3 2 none\nmatrix C 2 3 none\ntask transpose A:R B:W\ntask transpose B:R C:W\nprint B\n";

/// The workers of the example's machine.
const WORKER_COUNT: u8 = 2;

/// The bytes of its one node: two of the three matrices, each of six elements of 8 bytes.
const NODE_BYTES: u64 = 96;

/// The bytes of its disk: a block for each of the three matrices, with a header of 24 bytes.
const DISK_BYTES: u64 = 216;

/// A set of one's own: `transpose` alone, beside what registrations and print statements are lowered to. Its kernels are those
/// of the ring; one's own would stand in `run`.
struct Turns;

impl Codelets for Turns {
    ghost use Rattle.own_set.specs.Turns.{turns_commuting, turns_contributing, turns_reducing};

    ghost has = { turns_has };

    ghost commuting = { turns_commuting };

    ghost contributing = { turns_contributing };

    ghost reducing = { turns_reducing };

    fn knows(&self, kernel: Kernel) -> bool {
        matches!(
            kernel,
            Kernel::Transpose | Kernel::Load | Kernel::LoadFill | Kernel::Deliver
        )
    }

    fn run(
        &self,
        alloc: Global,
        id: Codelet,
        args: &[i64],
        frame: &mut Frame,
    ) -> Result<(), memory::OutOfMemory> {
        Ring.run(alloc, id, args, frame)
    }
}

/// Whether the set has the codelet of each task. Linear in the tasks.
fn has_codelets(program: &Program) -> bool
    ensures { IsTrue result ↔ HasCodelets program.now }
{
    program.tasks.items().iter().all(|task| match Kernel::of(task.codelet) {
        Some(kernel) => Turns.knows(kernel),
        None => false,
    })
}

/// Why a text isn't made ready.
#[derive(Debug, Drop)]
enum NotReady {
    /// One of its lines is bad.
    Text(ReadRefusal),
    /// It has too many cells or tasks.
    Limit(LowerRefusal),
    /// The set hasn't one of its codelets.
    Codelet,
    /// The machine hasn't the room.
    Lacking(Shortage),
    OutOfMemory,
}

impl From<ReadRefusal> for NotReady {
    ghost use Rattle.std.specs.Prelude.{◌≡◌};
    ghost use Rattle.own_set.specs.declared.NotReady.TheVariants.{Text};

    ghost from_gives = { λ refusal e. e ≡ Text refusal };

    fn from(refusal: ReadRefusal) -> Self {
        NotReady::Text(refusal)
    }
}

impl From<LowerRefusal> for NotReady {
    ghost use Rattle.std.specs.Prelude.{◌≡◌};
    ghost use Rattle.own_set.specs.declared.NotReady.TheVariants.{Limit};

    ghost from_gives = { λ refusal e. e ≡ Limit refusal };

    fn from(refusal: LowerRefusal) -> Self {
        NotReady::Limit(refusal)
    }
}

impl From<Shortage> for NotReady {
    ghost use Rattle.std.specs.Prelude.{◌≡◌};
    ghost use Rattle.own_set.specs.declared.NotReady.TheVariants.{Lacking};

    ghost from_gives = { λ shortage e. e ≡ Lacking shortage };

    fn from(shortage: Shortage) -> Self {
        NotReady::Lacking(shortage)
    }
}

impl From<memory::OutOfMemory> for NotReady {
    ghost use Rattle.std.specs.Prelude.{◌≡◌};
    ghost use Rattle.own_set.specs.declared.NotReady.TheVariants.{OutOfMemory};

    ghost from_gives = { λ _ e. e ≡ OutOfMemory };

    fn from(_: memory::OutOfMemory) -> Self {
        NotReady::OutOfMemory
    }
}

/// A program that the set runs, the bytes that each of its tasks needs, and the machine for it.
#[derive(Drop)]
struct SetRun {
    program: Arc<Program>,
    footprints: Vec<u64>,
    machine: Machine,
}

/// The example's machine, with disks of these sizes.
fn machine(alloc: Global, disks: Vec<u64>) -> Result<Machine, memory::OutOfMemory>
    ensures { IfOk result (λ m. m ≡ small_machine disks.items) }
{
    let mut nodes = Vec::new(alloc);
    nodes.push(NODE_BYTES)?;
    Ok(Machine {
        workers: WORKER_COUNT,
        nodes: Sequence::of(nodes),
        disks: Sequence::of(disks),
        policy: Policy::Eager,
    })
}

/// A program to be run.
fn shared(alloc: Global, program: Program) -> Result<Arc<Program>, memory::OutOfMemory>
    ensures { IfOk result (λ p. p.value ≡ program) }
{
    Ok(Arc::new(alloc, program)?)
}

/// The program of a text, and the machine for it with disks of these sizes. The cost of reading and lowering.
fn make_ready(alloc: Global, text: &[u8], disks: Vec<u64>) -> Result<SetRun, NotReady>
    requires few { length disks.items ≤ 16 }
    requires small { All (λ n. n ≤ 2 ^ 40) disks.items }
    ensures ok { IfOk result (IsSetRun (job_of turns_has text.now) disks.items) }
    ensures err { IfErr result (λ e. IsNotReady e (job_of turns_has text.now) disks.items) }
{
    let job = read(alloc, text, &Turns)?;
    let LoweredJob { program, .. } = lower(alloc, job, WORKER_COUNT)?;
    if !has_codelets(&program) {
        return Err(NotReady::Codelet);
    }
    arguments_fit(&program);
    let machine = machine(alloc, disks)?;
    let footprints = fits(alloc, &program, &machine)?;
    let program = shared(alloc, program)?;
    Ok(SetRun {
        program,
        footprints,
        machine,
    })
}

/// Why a text isn't run.
#[derive(Debug, Drop)]
enum NotRun {
    Unready(NotReady),
    /// Its run broke off.
    Fault(RunFault),
}

/// What a run handed over, or why there was none, and the disks.
#[derive(Drop)]
struct Turned<D> {
    handed: Result<Delivered, NotRun>,
    disks: Vec<D>,
}

/// Runs what is ready. The cost of the run.
#[tactic(auto, using(crate::proofs::Handing::delivers_of))]
fn run_ready<D: Disk + Send, R: Threads + Wait + Sync>(
    rt: &R,
    alloc: Global,
    ready: SetRun,
    disks: Vec<D>,
) -> Turned<D>
    requires ready { (job : Result Job Refusal) × IsSetRun job (map D.size disks.items) ready }
    ensures ok { (job : Result Job Refusal) → IsSetRun job (map D.size disks.items) ready →
        IfOk result.handed (λ handed. IsOkAnd job
        (λ j. DeliversEach out (small_program j.statements) (AllDisksTell D.held disks.items)
        handed.pairs)) }
    ensures err { (job : Result Job Refusal) → IfErr result.handed (λ e. IsNotRun D.faults
        D.mismatches D.held e job (map D.size disks.items) disks.items result.disks.items) }
{
    let SetRun {
        program,
        footprints,
        machine,
    } = ready;
    let RunOutcome {
        result,
        delivered,
        disks,
        ..
    } = run(
        rt, alloc, program, footprints, machine, disks, &Turns, &OpenGate,
    );
    match result {
        Ok(()) => Turned {
            handed: Ok(delivered),
            disks,
        },
        Err(fault) => Turned {
            handed: Err(NotRun::Fault(fault)),
            disks,
        },
    }
}

/// Runs the program of a text on the example's machine with these disks, and gives what its deliver tasks hand over.
fn run_text<D: Disk + Send, R: Threads + Wait + Sync>(
    rt: &R,
    alloc: Global,
    text: &[u8],
    disks: Vec<D>,
) -> Turned<D>
    requires few { length disks.items ≤ 16 }
    requires small { AreWithin D.size (2 ^ 40) disks.items }
    ensures ok { IfOk result.handed (λ handed. IsOkAnd (job_of turns_has text.now)
        (λ job. DeliversEach out (small_program job.statements)
        (AllDisksTell D.held disks.items) handed.pairs)) }
    ensures err { IfErr result.handed (λ e. IsNotRun D.faults D.mismatches D.held e
        (job_of turns_has text.now) (map D.size disks.items) disks.items result.disks.items) }
{
    let Ok(sizes) = sizes_of(alloc, &disks) else {
        return Turned {
            handed: Err(NotRun::Unready(NotReady::OutOfMemory)),
            disks,
        };
    };
    match make_ready(alloc, text, sizes) {
        Ok(ready) => run_ready(rt, alloc, ready, disks),
        Err(refusal) => Turned {
            handed: Err(NotRun::Unready(refusal)),
            disks,
        },
    }
}

/// One disk of memory.
fn one_disk(alloc: Global) -> Result<Vec<MemDisk>, memory::OutOfMemory>
    ensures { IfOk result (λ disks. (length disks.items ≡ 1)
        × AreWithin ⟦<MemDisk as Disk>⟧.size (2 ^ 40) disks.items) }
{
    let mut disks = Vec::new(alloc);
    disks.push(MemDisk::new(alloc, DISK_BYTES, Vec::new(alloc))?)?;
    Ok(disks)
}

/// Prints the elements of each array, one a line.
fn print(rt: &HostRuntime, handed: &Delivered) -> io::Result<()> {
    for i in 0..handed.len() {
        for element in handed.tile(i).elements() {
            println!(rt; "{element}")?;
        }
    }
    Ok(())
}

fn main(rt: HostRuntime) -> io::Result<()> {
    let Ok(disks) = one_disk(rt.alloc()) else {
        return println!(rt; "out of memory");
    };
    let Turned { handed, .. } = run_text(&rt, rt.alloc(), JOB, disks);
    match handed {
        Ok(handed) => print(&rt, &handed),
        Err(refusal) => println!(rt; "{refusal:?}"),
    }
}
