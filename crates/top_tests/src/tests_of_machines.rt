//! Whole jobs on machines: workers, policies, nodes that their tasks just fit, and disks for what doesn't fit them.

use crate::test_calls::{answer_on, is_answered, same, whole};
use sj_base::ids::{Cell, DiskNo, Line, Node, Place, Task, Worker};
use sj_base::trace::Event;
use sj_edge::gate::{Gate, OpenGate};
use sj_top::status::Status;
use sj_top::top::AnyDisk;
use std::alloc::Global;
use std::process::Abort;
use std::sync::Wait;
use std::sync::atomic::{AtomicU64, Ordering};
use std::test::Fail;
use std::thread;
use std::thread::Threads;
use std::time::{Clock, Duration};

/// Three vectors of 24 bytes, each added to the next: a task needs two of them on its node.
pub const ROUND: &str =
    "starjob 1\nvector x 3 values 1 2 3\nvector y 3 values 10 20 30\nvector z 3 values 100 200 300\ntask add x:R y:RW\ntask add y:R z:RW\ntask add z:R x:RW\nprint x\nprint y\nprint z\n";

/// What that prints.
pub const ROUND_OUT: &str = "x: 112 224 336\ny: 11 22 33\nz: 111 222 333\n";

/// The bytes of its three blocks, each a header of 24 and three elements of 8.
pub const ROUND_SWAP: u32 = 144;

/// A `ROUND` with these words prints what it always prints.
fn prints_the_same<R: Threads + Wait + Abort + Sync>(
    rt: &R,
    alloc: Global,
    words: &[&str],
    shows: &str,
) -> Result<(), Fail> {
    let disks = whole(alloc, ROUND_SWAP)?;
    let answer = answer_on(rt, alloc, words, ROUND.as_bytes(), disks, &OpenGate)?;
    is_answered(rt, &answer, Status::Done, ROUND_OUT, shows);
    Ok(())
}

#[test]
fn workers_whose_tasks_together_exceed_the_node_print_the_same(
    rt: HostRuntime,
) -> Result<(), Fail> {
    for workers in ["2", "4"] {
        let words = ["--workers", workers, "--node", "48"];
        prints_the_same(&rt, rt.alloc(), &words, workers)?;
    }
    Ok(())
}

#[test]
fn workers_of_two_nodes_print_the_same_by_each_policy(rt: HostRuntime) -> Result<(), Fail> {
    for policy in ["eager", "prio", "ws"] {
        for workers in ["1", "2", "4", "64"] {
            let words = [
                "--workers",
                workers,
                "--sched",
                policy,
                "--node",
                "48",
                "--nodes",
                "2",
            ];
            prints_the_same(&rt, rt.alloc(), &words, policy)?;
        }
    }
    Ok(())
}

/// A job text on a disk of so many bytes, how it ends, and what `out` and `err` take.
struct Fitting {
    shows: &'static str,
    text: &'static str,
    disk: u32,
    status: Status,
    out: &'static str,
    err: &'static str,
}

const FITTINGS: [Fitting; 6] = [
    Fitting {
        shows: "a node that a task just fits",
        text: "starjob 1\nnode 48\nvector x 3 values 1 2 3\nvector y 3 values 10 20 30\ntask add x:R y:RW\nprint y\n",
        disk: 4096,
        status: Status::Done,
        out: "y: 11 22 33\n",
        err: "",
    },
    Fitting {
        shows: "a node one byte short",
        text: "starjob 1\nnode 47\nvector x 3 values 1 2 3\nvector y 3 values 10 20 30\ntask add x:R y:RW\nprint y\n",
        disk: 4096,
        status: Status::TooLarge {
            line: Line(5),
            bytes: 48,
        },
        out: "",
        err: "starjob: line 5: task needs 48 bytes on one node\n",
    },
    Fitting {
        shows: "a node without a worker makes no room",
        text: "starjob 1\nworkers 1\nnode 48\nnode 1000\nvector x 4 values 1 2 3 4\nvector y 4 values 10 20 30 40\ntask add x:R y:RW\nprint y\n",
        disk: 4096,
        status: Status::TooLarge {
            line: Line(7),
            bytes: 64,
        },
        out: "",
        err: "starjob: line 7: task needs 64 bytes on one node\n",
    },
    Fitting {
        shows: "a second worker makes that room",
        text: "starjob 1\nworkers 2\nnode 48\nnode 1000\nvector x 4 values 1 2 3 4\nvector y 4 values 10 20 30 40\ntask add x:R y:RW\nprint y\n",
        disk: 4096,
        status: Status::Done,
        out: "y: 11 22 33 44\n",
        err: "",
    },
    Fitting {
        shows: "a swap that three blocks just fit",
        text: "starjob 1\nnode 64\nvector a 3 values 1 2 3\nvector b 3 values 4 5 6\nvector c 3 values 7 8 9\nprint a\n",
        disk: 144,
        status: Status::Done,
        out: "a: 1 2 3\n",
        err: "",
    },
    Fitting {
        shows: "a swap one byte short",
        text: "starjob 1\nnode 64\nvector a 3 values 1 2 3\nvector b 3 values 4 5 6\nvector c 3 values 7 8 9\nprint a\n",
        disk: 143,
        status: Status::SwapTooSmall {
            needed: 144,
            have: 143,
        },
        out: "",
        err: "starjob: swap needs 144 bytes, has 143\n",
    },
];

#[test]
fn jobs_run_where_they_fit_and_say_what_they_lack(rt: HostRuntime) -> Result<(), Fail> {
    for case in FITTINGS.iter() {
        let disks = whole(rt.alloc(), case.disk)?;
        let text = case.text.as_bytes();
        let answer = answer_on(&rt, rt.alloc(), &[], text, disks, &OpenGate)?;
        let done = case.status == Status::Done;
        is_answered(&rt, &answer, case.status, case.out, case.shows);
        same(
            &rt,
            (case.shows, answer.outcome.trace.is_empty()),
            (case.shows, !done),
        );
        same(
            &rt,
            (case.shows, answer.err.taken()),
            (case.shows, case.err.as_bytes()),
        );
    }
    Ok(())
}

#[test]
fn without_a_disk_no_job_with_cells_is_run(rt: HostRuntime) -> Result<(), Fail> {
    let alloc = rt.alloc();
    let lacking = Status::SwapTooSmall {
        needed: 144,
        have: 0,
    };
    for (text, status) in [(ROUND, lacking), ("starjob 1\n", Status::Done)] {
        let disks: Vec<AnyDisk> = Vec::new(alloc);
        let answer = answer_on(&rt, alloc, &[], text.as_bytes(), disks, &OpenGate)?;
        is_answered(&rt, &answer, status, "", text);
        same(&rt, answer.outcome.trace.len(), 0);
    }
    Ok(())
}

const NODE: Place = Place::Node(Node(0));

const DISK: Place = Place::Disk(DiskNo(0));

const WORKER: Worker = Worker(0);

const X: Cell = Cell(0);

const Z: Cell = Cell(2);

// x and y are loaded, which fills the node. z takes the place of x, the one used longest ago; then the first sum needs x again,
// and z makes room, since y is the sum's own.
const EVENTS: [Event; 20] = [
    Event::Claim(Task(0), WORKER),
    Event::Run(Task(0), WORKER),
    Event::End(Task(0), WORKER),
    Event::Claim(Task(1), WORKER),
    Event::Run(Task(1), WORKER),
    Event::End(Task(1), WORKER),
    Event::Claim(Task(2), WORKER),
    Event::Move(X, NODE, DISK),
    Event::Moved(X, NODE, DISK),
    Event::Drop(X, Node(0)),
    Event::Run(Task(2), WORKER),
    Event::End(Task(2), WORKER),
    Event::Claim(Task(3), WORKER),
    Event::Move(Z, NODE, DISK),
    Event::Moved(Z, NODE, DISK),
    Event::Drop(Z, Node(0)),
    Event::Move(X, DISK, NODE),
    Event::Moved(X, DISK, NODE),
    Event::Run(Task(3), WORKER),
    Event::End(Task(3), WORKER),
];

#[test]
fn the_one_used_longest_ago_is_evicted_and_fetched_again(rt: HostRuntime) -> Result<(), Fail> {
    let disks = whole(rt.alloc(), ROUND_SWAP)?;
    let words = ["--node", "48"];
    let answer = answer_on(&rt, rt.alloc(), &words, ROUND.as_bytes(), disks, &OpenGate)?;
    let trace = &answer.outcome.trace;
    same(&rt, answer.outcome.status, Status::Done);
    same(&rt, trace.len() >= EVENTS.len(), true);
    for (i, event) in EVENTS.iter().enumerate() {
        if i < trace.len() {
            same(&rt, (i, trace.get(i)), (i, *event));
        }
    }
    Ok(())
}

/// Lets the kernels of a task and the next one go on when both are inside, or after some seconds. The tasks before them, from
/// another one on, take their time, the earlier the longer.
#[derive(Drop)]
struct Meeting<'a, R> {
    rt: &'a R,
    slow: u32,
    first: u32,
    inside: AtomicU64,
    met: AtomicU64,
}

impl<R: Clock + Sync> Gate for Meeting<'_, R> {
    fn entered(&self, task: Task) {
        if task.0 < self.first {
            let turns = if task.0 < self.slow {
                0
            } else {
                self.first - task.0
            };
            thread::sleep(self.rt, Duration::from_millis(50 * turns as u64));
            return;
        }
        if task.0 - self.first > 1 {
            return;
        }
        self.inside.fetch_add(1, Ordering::SeqCst);
        for _ in 0..5_000 {
            if self.inside.load(Ordering::SeqCst) == 2 {
                self.met.fetch_add(1, Ordering::SeqCst);
                return;
            }
            thread::sleep(self.rt, Duration::from_millis(1));
        }
    }

    fn left(&self, _task: Task) {}
}

/// Whether two workers are inside the kernels of these two tasks at once, and what is printed.
fn meet<R: Threads + Wait + Abort + Clock + Sync>(
    rt: &R,
    alloc: Global,
    words: &[&str],
    text: &str,
    (slow, first): (u32, u32),
    printed: &str,
) -> Result<(), Fail> {
    let gate = Meeting {
        rt,
        slow,
        first,
        inside: AtomicU64::new(0),
        met: AtomicU64::new(0),
    };
    let disks = whole(alloc, 1 << 12)?;
    let answer = answer_on(rt, alloc, words, text.as_bytes(), disks, &gate)?;
    is_answered(rt, &answer, Status::Done, printed, text);
    same(rt, gate.met.load(Ordering::SeqCst), 2);
    Ok(())
}

const APART: &str =
    "starjob 1\nvector x 1 values 1\nvector y 1 values 1\ntask scale(2) x:RW\ntask scale(3) y:RW\nprint x\nprint y\n";

#[test]
fn two_kernels_are_inside_at_once(rt: HostRuntime) -> Result<(), Fail> {
    let words = ["--workers", "2"];
    meet(&rt, rt.alloc(), &words, APART, (2, 2), "x: 2\ny: 3\n")
}

/// A chain of two tasks, and then two tasks that it makes ready.
const FORK: &str =
    "starjob 1\nvector x 1 values 1\nvector y 1 values 1\nvector z 1 values 1\ntask scale(2) x:RW\ntask scale(2) x:RW\ntask add x:R y:RW\ntask add x:R z:RW\nprint y\nprint z\n";

#[test]
fn a_worker_that_rests_comes_back_for_what_another_leaves(rt: HostRuntime) -> Result<(), Fail> {
    for workers in ["2", "4"] {
        let words = ["--workers", workers];
        meet(&rt, rt.alloc(), &words, FORK, (3, 5), "y: 5\nz: 5\n")?;
    }
    Ok(())
}

/// Of 32 bytes one task uses 24 for a long while. Another uses the other 8, and makes two tasks ready that need 16 each.
const FULL: &str =
    "starjob 1\nvector p 3 values 1 1 1\nvector m 1 values 1\nvector q 1 values 1\nvector r 1 values 1\ntask scale(2) p:RW\ntask scale(2) m:RW\ntask add m:R q:RW\ntask add m:R r:RW\nprint q\nprint r\n";

#[test]
fn a_worker_that_waits_for_room_is_woken_by_the_end_of_anothers_task(
    rt: HostRuntime,
) -> Result<(), Fail> {
    let words = ["--workers", "2", "--node", "32"];
    meet(&rt, rt.alloc(), &words, FULL, (4, 6), "q: 3\nr: 3\n")
}
