//! Whole jobs seen from outside of their runs: what a gate and a disk notice, beside the events of the trace.

ghost use Rattle.std.specs.Prelude.{◌≡◌, ◌≤◌, ◌^◌, Some, length};
ghost use Rattle.sj_ready.specs.Ready.{HasOwnCodelets};

use crate::test_calls::{DISK, answer_on, is_answered, memory, only, same, whole};
use crate::tests_of_machines::ROUND_SWAP;
use sj_base::ids::{Cell, DiskNo, Node, Place, Task};
use sj_base::trace::{Event, Trace};
use sj_codelet::set::Codelets;
use sj_edge::disk::{CheckFault, Disk};
use sj_edge::gate::{Gate, OpenGate};
use sj_edge::memory_disk::MemDisk;
use sj_edge::source::Failed;
use sj_kernels::ring::Ring;
use sj_minplus::library::Library;
use sj_ready::input::Input;
use sj_top::running::{Run, run_input};
use sj_top::status::Status;
use sj_words::read_words;
use std::alloc::Global;
use std::process::Abort;
use std::sync::Wait;
use std::sync::atomic::{AtomicU64, Ordering};
use std::test::Fail;
use std::thread;
use std::thread::Threads;
use std::time::{Clock, CpuClock, Duration};

/// Seven inner products of two elements each, on top of a value, by five workers.
const DOTS: &str =
    "starjob 1\nworkers 5\nvector x 14 by 1 7 fill 1 1\nvector y 14 by 1 7 fill 1 0\nvector s 1 values 100\nredux s plus\ntask dot x[0,0]:R y[0,0]:R s:REDUX\ntask dot x[0,1]:R y[0,1]:R s:REDUX\ntask dot x[0,2]:R y[0,2]:R s:REDUX\ntask dot x[0,3]:R y[0,3]:R s:REDUX\ntask dot x[0,4]:R y[0,4]:R s:REDUX\ntask dot x[0,5]:R y[0,5]:R s:REDUX\ntask dot x[0,6]:R y[0,6]:R s:REDUX\nprint s\n";

/// Numbers its calls from 1 on, and keeps at each task the numbers of the two calls that name it.
#[derive(Drop)]
struct Watch {
    calls: AtomicU64,
    entered: Vec<AtomicU64>,
    left: Vec<AtomicU64>,
    /// How many calls named a task that had been named so before, or one that has no place here.
    strays: AtomicU64,
}

/// A zero for each of 64 tasks, which are more than that job has.
fn zeros(alloc: Global) -> Result<Vec<AtomicU64>, Fail> {
    let mut numbers = Vec::new(alloc);
    for _ in 0..64 {
        numbers.push(AtomicU64::new(0))?;
    }
    Ok(numbers)
}

/// The number that is kept at a task: 0 where no call named it.
fn number_at(numbers: &[AtomicU64], task: Task) -> u64 {
    let number = numbers.get(task.0 as usize);
    number.map_or(0, |number| number.load(Ordering::SeqCst))
}

impl Watch {
    /// Keeps the number of this call at the task.
    fn note(&self, numbers: &[AtomicU64], task: Task) {
        let number = self.calls.fetch_add(1, Ordering::SeqCst).wrapping_add(1);
        let kept = numbers.get(task.0 as usize);
        let before = kept.map(|kept| kept.swap(number, Ordering::SeqCst));
        if before != Some(0) {
            self.strays.fetch_add(1, Ordering::SeqCst);
        }
    }
}

impl Gate for Watch {
    fn entered(&self, task: Task) {
        self.note(&self.entered, task);
    }

    fn left(&self, task: Task) {
        self.note(&self.left, task);
    }
}

/// Each task of a trace, and no other, was entered once and left once, later; and it was entered after all were left that had
/// ended before it ran.
fn has_seen<R: Abort>(rt: &R, watch: &Watch, trace: &Trace) {
    let mut calls: u64 = 0;
    let mut last_left = 0;
    for i in 0..trace.len() {
        match trace.get(i) {
            Event::Run(task, _) => {
                assert!(rt; number_at(&watch.entered, task) > last_left, "{task:?}");
            }
            Event::End(task, _) => {
                let left = number_at(&watch.left, task);
                assert!(rt; left > number_at(&watch.entered, task), "{task:?}");
                last_left = left.max(last_left);
                calls = calls.saturating_add(2);
            }
            _ => {}
        }
    }
    let strays = watch.strays.load(Ordering::SeqCst);
    same(rt, (watch.calls.load(Ordering::SeqCst), strays), (calls, 0));
}

#[test]
fn what_a_gate_sees_agrees_with_the_trace(rt: HostRuntime) -> Result<(), Fail> {
    let alloc = rt.alloc();
    let watch = Watch {
        calls: AtomicU64::new(0),
        entered: zeros(alloc)?,
        left: zeros(alloc)?,
        strays: AtomicU64::new(0),
    };
    let disks = whole(alloc, DISK)?;
    let answer = answer_on(&rt, alloc, &[], DOTS.as_bytes(), disks, &watch)?;
    is_answered(&rt, &answer, Status::Done, "s: 205\n", "dots");
    has_seen(&rt, &watch, &answer.outcome.trace);
    Ok(())
}

/// The run of a job without words, on this disk. No clause: a test has the text at hand, and isn't to read it in its proof.
fn run_on<C: Codelets, G: Gate, D: Disk + Send, R: Threads + Wait + Sync>(
    rt: &R,
    alloc: Global,
    text: &str,
    disk: D,
    codelets: &C,
    gate: &G,
) -> Result<Run<D>, Fail>
    requires own { HasOwnCodelets C.has }
    requires small { D.size disk ≤ 2 ^ 40 }
{
    let options = read_words(alloc, &[])?;
    let disks = only(alloc, disk)?;
    let input = Input::Text(text.as_bytes().to_vec(alloc)?);
    Ok(run_input(rt, alloc, input, &options, disks, codelets, gate))
}

/// Three vectors of 24 bytes on a node that holds two of them.
const THREE: &str =
    "starjob 1\nnode 64\nvector a 3 values 1 2 3\nvector b 3 values 4 5 6\nvector c 3 values 7 8 9\nprint a\n";

/// The bytes of the block of each of them: a header of 24 and three elements of 8.
const BLOCK: u64 = 48;

/// A call of a disk: where its bytes begin, and how many they are.
#[derive(Clone, Copy, Debug, PartialEq, Eq)]
pub enum Call {
    Write(u64, u64),
    Read(u64, u64),
    /// Of a header.
    Check(u64),
}

/// The two calls that a transfer of one of these blocks makes: for its header and for its elements.
fn calls_of(event: Event) -> Option<(Call, Call)> {
    let Event::Move(Cell(cell), from, to) = event else {
        return None;
    };
    let at = BLOCK * cell as u64;
    match (from, to) {
        (_, Place::Disk(_)) => Some((Call::Write(at, 24), Call::Write(at + 24, 24))),
        (Place::Disk(_), _) => Some((Call::Check(at), Call::Read(at + 24, 24))),
        _ => None,
    }
}

/// The calls that a trace's transfers make of a disk on which these blocks lie one behind another.
pub fn calls_of_trace(alloc: Global, trace: &Trace) -> Result<Vec<Call>, Fail> {
    let mut calls = Vec::new(alloc);
    for i in 0..trace.len() {
        if let Some((first, second)) = calls_of(trace.get(i)) {
            calls.push(first)?;
            calls.push(second)?;
        }
    }
    Ok(calls)
}

/// A disk that notes each of its calls.
#[derive(Drop)]
pub struct NotingDisk<D: Disk> {
    pub disk: D,
    pub calls: Vec<Call>,
}

impl<D: Disk> NotingDisk<D> {
    fn note(&mut self, call: Call)
        ensures { self.new.disk ≡ self.old.disk }
    {
        let _ = self.calls.push(call);
    }
}

impl<D: Disk> Disk for NotingDisk<D> {
    ghost size = { λ d. D.size d.disk };

    ghost held = { λ d. D.held d.disk };

    ghost faults = { λ d. D.faults d.disk };

    ghost mismatches = { λ d. D.mismatches d.disk };

    fn size(&self) -> u64 {
        self.disk.size()
    }

    fn read(&mut self, at: u64, buf: &mut [u8]) -> Result<(), Failed> {
        self.note(Call::Read(at, buf.len() as u64));
        self.disk.read(at, buf)
    }

    fn write(&mut self, at: u64, bytes: &[u8]) -> Result<(), Failed> {
        self.note(Call::Write(at, bytes.len() as u64));
        self.disk.write(at, bytes)
    }

    fn check(&mut self, at: u64, want: &[u8; 24]) -> Result<(), CheckFault> {
        self.note(Call::Check(at));
        self.disk.check(at, want)
    }
}

/// What a disk is called for as `THREE` is run: a and b are stored, and a is fetched, each of them once.
const CALLS: [Call; 6] = [
    Call::Write(0, 24),
    Call::Write(24, 24),
    Call::Write(48, 24),
    Call::Write(72, 24),
    Call::Check(0),
    Call::Read(24, 24),
];

#[test]
fn what_a_disk_sees_agrees_with_the_trace(rt: HostRuntime) -> Result<(), Fail> {
    let alloc = rt.alloc();
    let disk = NotingDisk {
        disk: memory(alloc, ROUND_SWAP, &[])?,
        calls: Vec::new(alloc),
    };
    let run = run_on(&rt, alloc, THREE, disk, &Library, &OpenGate)?;
    let Run { text, trace, disks } = run;
    same(&rt, text?.as_slice(), b"a: 1 2 3\n".as_slice());
    let calls = calls_of_trace(alloc, &trace)?;
    same(&rt, calls.as_slice(), CALLS.as_slice());
    same(&rt, disks.len(), 1);
    for disk in disks.iter() {
        same(&rt, disk.calls.as_slice(), CALLS.as_slice());
    }
    Ok(())
}

/// The same of vectors of 10,000 elements, each of which a disk takes and gives by three pieces.
const LARGE: &str =
    "starjob 1\nnode 160008\nvector a 10000 fill 1 1\nvector b 10000 fill 2 1\nvector c 10000 fill 3 1\nvector s 1 fill 0 0\ntask sum a:R s:RW\nprint s\n";

/// What a disk is called for as that is run: a and b are stored, and a is fetched. Each block has 80,024 bytes.
const LARGE_CALLS: [Call; 12] = [
    Call::Write(0, 24),
    Call::Write(24, 32_768),
    Call::Write(32_792, 32_768),
    Call::Write(65_560, 14_464),
    Call::Write(80_024, 24),
    Call::Write(80_048, 32_768),
    Call::Write(112_816, 32_768),
    Call::Write(145_584, 14_464),
    Call::Check(0),
    Call::Read(24, 32_768),
    Call::Read(32_792, 32_768),
    Call::Read(65_560, 14_464),
];

#[test]
fn a_large_block_goes_by_pieces_to_its_last_byte(rt: HostRuntime) -> Result<(), Fail> {
    let alloc = rt.alloc();
    let disk = NotingDisk {
        disk: memory(alloc, 1 << 18, &[])?,
        calls: Vec::new(alloc),
    };
    let run = run_on(&rt, alloc, LARGE, disk, &Library, &OpenGate)?;
    same(&rt, run.text?.as_slice(), b"s: 50005000\n".as_slice());
    for disk in run.disks.iter() {
        same(&rt, disk.calls.as_slice(), LARGE_CALLS.as_slice());
    }
    same(&rt, run.disks.len(), 1);
    Ok(())
}

/// What `THREE` prints with its trace: a and b fill the node, c takes the place of a, and a that of b.
const THREE_TRACED: &str =
    "a: 1 2 3\nclaim t0 w0\nrun t0 w0\nend t0 w0\nclaim t1 w0\nrun t1 w0\nend t1 w0\nclaim t2 w0\nmove c0 n0 d0\nmoved c0 n0 d0\ndrop c0 n0\nrun t2 w0\nend t2 w0\nclaim t3 w0\nmove c1 n0 d0\nmoved c1 n0 d0\ndrop c1 n0\nmove c0 d0 n0\nmoved c0 d0 n0\nrun t3 w0\nend t3 w0\n";

/// The block of a: its cell 0, which was written once, three elements, and these.
const BLOCK_OF_A: [u8; 48] = [
    0, 0, 0, 0, 0, 0, 0, 0, 1, 0, 0, 0, 0, 0, 0, 0, 3, 0, 0, 0, 0, 0, 0, 0, // the header
    1, 0, 0, 0, 0, 0, 0, 0, 2, 0, 0, 0, 0, 0, 0, 0, 3, 0, 0, 0, 0, 0, 0, 0,
];

/// The bytes of the first block of a disk, where it has so many and gives them.
fn first_block<D: Disk>(disk: &mut D) -> Option<[u8; 48]> {
    let mut block = [0; 48];
    let is_read = disk.size() >= BLOCK && disk.read(0, &mut block).is_ok();
    if is_read { Some(block) } else { None }
}

#[test]
fn a_text_of_the_trace_of_three_arrays(rt: HostRuntime) -> Result<(), Fail> {
    let alloc = rt.alloc();
    let disks = whole(alloc, ROUND_SWAP)?;
    let text = THREE.as_bytes();
    let mut answer = answer_on(&rt, alloc, &["--trace"], text, disks, &OpenGate)?;
    is_answered(&rt, &answer, Status::Done, THREE_TRACED, "three");
    same(&rt, answer.outcome.disks.len(), 1);
    for disk in answer.outcome.disks.iter_mut() {
        same(&rt, first_block(disk), Some(BLOCK_OF_A));
    }
    Ok(())
}

#[test]
fn a_set_of_ring_codelets_alone_runs_contributions(rt: HostRuntime) -> Result<(), Fail> {
    let alloc = rt.alloc();
    let disk = memory(alloc, DISK, &[])?;
    let run = run_on(&rt, alloc, DOTS, disk, &Ring, &OpenGate)?;
    same(&rt, run.text?.as_slice(), b"s: 205\n".as_slice());
    Ok(())
}

/// Four vectors of 24 bytes on a node that holds three of them, for two workers.
const FOUR: &str =
    "starjob 1\nworkers 2\nnode 72\nvector a 3 values 1 2 3\nvector b 3 values 4 5 6\nvector c 3 values 7 8 9\nvector d 3 values 1 1 1\nprint a\nprint b\n";

/// The bytes of their blocks.
const FOUR_SWAP: u32 = 192;

/// A disk that tells when it has refused a call.
#[derive(Drop)]
struct RefusingDisk<'a> {
    disk: MemDisk,
    refusals: &'a AtomicU64,
}

impl RefusingDisk<'_> {
    fn note(&self, is_refused: bool) {
        if is_refused {
            self.refusals.fetch_add(1, Ordering::SeqCst);
        }
    }
}

impl Disk for RefusingDisk<'_> {
    ghost size = { λ d. length d.disk.bytes };

    ghost held = { λ d. Some d.disk.bytes };

    ghost faults = { λ d. d.disk.called.faults };

    ghost mismatches = { λ d. d.disk.mismatches };

    fn size(&self) -> u64 {
        self.disk.size()
    }

    fn read(&mut self, at: u64, buf: &mut [u8]) -> Result<(), Failed> {
        let read = self.disk.read(at, buf);
        self.note(read.is_err());
        read
    }

    fn write(&mut self, at: u64, bytes: &[u8]) -> Result<(), Failed> {
        let written = self.disk.write(at, bytes);
        self.note(written.is_err());
        written
    }

    fn check(&mut self, at: u64, want: &[u8; 24]) -> Result<(), CheckFault> {
        self.disk.check(at, want)
    }
}

/// Keeps the first task inside until a disk has refused a call, ten seconds at most.
#[derive(Drop)]
struct Keeping<'a, R> {
    rt: &'a R,
    refusals: &'a AtomicU64,
}

impl<R: Clock + Sync> Gate for Keeping<'_, R> {
    fn entered(&self, task: Task) {
        if task != Task(0) {
            return;
        }
        for _ in 0..10_000 {
            if self.refusals.load(Ordering::SeqCst) != 0 {
                // the worker that met it keeps the fault in its next turn
                thread::sleep(self.rt, Duration::from_millis(500));
                return;
            }
            thread::sleep(self.rt, Duration::from_millis(1));
        }
    }

    fn left(&self, _task: Task) {}
}

/// Whether something begins by the event: a claim, a transfer or a kernel.
fn begins(event: Event) -> bool {
    matches!(event, Event::Claim(..) | Event::Move(..) | Event::Run(..))
}

// One worker is inside of the first task while the other evicts b for d, which the disk refuses. So the fault is kept when the
// first task ends: a and b could be handed over then, but nothing begins any more.
#[test]
fn nothing_begins_behind_a_fault(rt: HostRuntime) -> Result<(), Fail> {
    let alloc = rt.alloc();
    let refusals = AtomicU64::new(0);
    let disk = RefusingDisk {
        disk: memory(alloc, FOUR_SWAP, &[1])?,
        refusals: &refusals,
    };
    let gate = Keeping {
        rt: &rt,
        refusals: &refusals,
    };
    let run = run_on(&rt, alloc, FOUR, disk, &Library, &gate)?;
    assert!(rt; run.text.is_err());
    same(&rt, refusals.load(Ordering::SeqCst), 1);
    let trace = &run.trace;
    let mut last = None;
    for i in 0..trace.len() {
        if begins(trace.get(i)) {
            last = Some(trace.get(i));
        }
    }
    let (node, swap) = (Place::Node(Node(0)), Place::Disk(DiskNo(0)));
    same(&rt, last, Some(Event::Move(Cell(1), node, swap)));
    assert!(rt; trace.len() > 0);
    let ended = trace.get(trace.len().saturating_sub(1));
    assert!(rt; matches!(ended, Event::End(Task(0), _)));
    Ok(())
}

/// Keeps one task inside for a second.
#[derive(Drop)]
struct Slow<'a, R> {
    rt: &'a R,
    task: Task,
}

impl<R: Clock + Sync> Gate for Slow<'_, R> {
    fn entered(&self, task: Task) {
        if task == self.task {
            thread::sleep(self.rt, Duration::from_secs(1));
        }
    }

    fn left(&self, _task: Task) {}
}

/// Two workers, and one task at a time: x is filled, and then handed over.
const CHAIN: &str = "starjob 1\nworkers 2\nvector x 1 values 7\nprint x\n";

/// Two workers, and two tasks that commute on y, so that one of them can't be claimed while the other runs.
const PAIR: &str =
    "starjob 1\nworkers 2\nvector x 1 values 1\nvector y 1 values 5\ntask axpy(1) x:R y:COMMUTE\ntask axpy(10) x:R y:COMMUTE\nprint y\n";

// One worker is inside for a second. The other has nothing to do, or nothing that it may claim: it rests.
#[test]
fn a_worker_that_can_do_nothing_takes_no_processor_time(rt: HostRuntime) -> Result<(), Fail> {
    let alloc = rt.alloc();
    for (text, task, out) in [(CHAIN, Task(0), "x: 7\n"), (PAIR, Task(2), "y: 16\n")] {
        let before = rt.process_cpu_time()?;
        let disks = whole(alloc, DISK)?;
        let gate = Slow { rt: &rt, task };
        let answer = answer_on(&rt, alloc, &[], text.as_bytes(), disks, &gate)?;
        let spent = rt.process_cpu_time()?.saturating_sub(before);
        is_answered(&rt, &answer, Status::Done, out, text);
        assert!(rt; spent < Duration::from_millis(333), "{text}");
    }
    Ok(())
}
