//! Whole jobs whose tasks contribute to an array or change places, by several numbers of workers.

use crate::test_calls::{Printing, all_print, answer_on, is_answered, whole};
use sj_edge::gate::OpenGate;
use sj_top::status::Status;
use std::alloc::Global;
use std::process::Abort;
use std::sync::Wait;
use std::test::Fail;
use std::thread::Threads;

/// The bytes of a disk that takes all blocks of these jobs.
const DISK: u32 = 4096;

/// Seven inner products of two elements each, on top of a value.
const DOTS: &str =
    "starjob 1\nvector x 14 by 1 7 fill 1 1\nvector y 14 by 1 7 fill 1 0\nvector s 1 values 100\nredux s plus\ntask dot x[0,0]:R y[0,0]:R s:REDUX\ntask dot x[0,1]:R y[0,1]:R s:REDUX\ntask dot x[0,2]:R y[0,2]:R s:REDUX\ntask dot x[0,3]:R y[0,3]:R s:REDUX\ntask dot x[0,4]:R y[0,4]:R s:REDUX\ntask dot x[0,5]:R y[0,5]:R s:REDUX\ntask dot x[0,6]:R y[0,6]:R s:REDUX\nprint s\n";

/// The same without a value.
const DOTS_ALONE: &str =
    "starjob 1\nvector x 14 by 1 7 fill 1 1\nvector y 14 by 1 7 fill 1 0\nvector s 1 none\nredux s plus\ntask dot x[0,0]:R y[0,0]:R s:REDUX\ntask dot x[0,1]:R y[0,1]:R s:REDUX\ntask dot x[0,2]:R y[0,2]:R s:REDUX\ntask dot x[0,3]:R y[0,3]:R s:REDUX\ntask dot x[0,4]:R y[0,4]:R s:REDUX\ntask dot x[0,5]:R y[0,5]:R s:REDUX\ntask dot x[0,6]:R y[0,6]:R s:REDUX\nprint s\n";

/// Two tasks that may change places, and a third behind a print statement.
const COMMUTING: &str =
    "starjob 1\nvector x 2 values 1 2\nvector y 2 fill 0 0\ntask axpy(1) x:R y:COMMUTE\ntask axpy(10) x:R y:COMMUTE\nprint y\ntask axpy(100) x:R y:COMMUTE\nprint y\n";

/// A contribution by two workers: blocks of 56 bytes for x, and of 32 for s and for each worker's copy of it.
const COPIES: &str =
    "starjob 1\nworkers 2\nvector x 4 values 1 2 3 4\nvector s 1 values 100\nredux s plus\ntask sum x:R s:REDUX\nprint s\n";

/// A job with these words prints this.
fn prints<R: Threads + Wait + Abort + Sync>(
    rt: &R,
    alloc: Global,
    words: &[&str],
    text: &str,
    out: &str,
) -> Result<(), Fail> {
    let disks = whole(alloc, DISK)?;
    let answer = answer_on(rt, alloc, words, text.as_bytes(), disks, &OpenGate)?;
    is_answered(rt, &answer, Status::Done, out, text);
    Ok(())
}

#[test]
fn contributions_give_the_same_by_any_number_of_workers(rt: HostRuntime) -> Result<(), Fail> {
    for workers in ["1", "2", "5"] {
        let words = ["--workers", workers];
        prints(&rt, rt.alloc(), &words, DOTS, "s: 205\n")?;
        prints(&rt, rt.alloc(), &words, DOTS_ALONE, "s: 105\n")?;
    }
    Ok(())
}

#[test]
fn copies_that_do_not_fit_the_nodes_together_give_the_same(rt: HostRuntime) -> Result<(), Fail> {
    for policy in ["eager", "prio", "ws"] {
        let words = [
            "--workers",
            "5",
            "--sched",
            policy,
            "--node",
            "40",
            "--nodes",
            "2",
        ];
        prints(&rt, rt.alloc(), &words, DOTS, "s: 205\n")?;
    }
    Ok(())
}

#[test]
fn tasks_that_change_places_give_the_same(rt: HostRuntime) -> Result<(), Fail> {
    for workers in ["1", "3"] {
        let words = ["--workers", workers];
        prints(&rt, rt.alloc(), &words, COMMUTING, "y: 11 22\ny: 111 222\n")?;
    }
    Ok(())
}

/// The copies take part in what the swap needs: the job runs on a disk of so many bytes, and on none that is a byte smaller.
fn needs<R: Threads + Wait + Abort + Sync>(
    rt: &R,
    alloc: Global,
    words: &[&str],
    bytes: u16,
) -> Result<(), Fail> {
    let text = COPIES.as_bytes();
    let disks = whole(alloc, bytes as u32)?;
    let answer = answer_on(rt, alloc, words, text, disks, &OpenGate)?;
    is_answered(rt, &answer, Status::Done, "s: 110\n", "room");
    let have = bytes.saturating_sub(1);
    let disks = whole(alloc, have as u32)?;
    let answer = answer_on(rt, alloc, words, text, disks, &OpenGate)?;
    let lacking = Status::SwapTooSmall {
        needed: bytes as u64,
        have: have as u64,
    };
    is_answered(rt, &answer, lacking, "", "a byte short");
    Ok(())
}

#[test]
fn a_copy_for_each_worker_takes_room_on_the_swap(rt: HostRuntime) -> Result<(), Fail> {
    needs(&rt, rt.alloc(), &[], 152)
}

#[test]
fn the_workers_that_words_ask_for_have_the_copies(rt: HostRuntime) -> Result<(), Fail> {
    needs(&rt, rt.alloc(), &["--workers", "1"], 120)?;
    needs(&rt, rt.alloc(), &["--workers", "4"], 216)
}

const PHASES: [Printing; 9] = [
    Printing {
        shows: "a child is added to its neighbour",
        text: "starjob 1\nworkers 2\nvector z 2 by 1 2 fill 3 8\nredux z plus\ntask sum z[0,1]:R z[0,0]:REDUX\nprint z\n",
        out: "z: 14 11\n",
    },
    Printing {
        shows: "each child of an array without values has its own",
        text: "starjob 1\nworkers 2\nvector x 1 values 5\nvector z 2 by 1 2 none\nredux z plus\ntask sum x:R z[0,0]:REDUX\ntask fill(1,0) z[0,1]:W\nprint z\n",
        out: "z: 5 1\n",
    },
    Printing {
        shows: "the least of candidates",
        text: "starjob 1\nworkers 3\nvector x 2 values 5 -1\nvector y 2 values 4 inf\nvector s 2 none\nredux s least\ntask lowest x:R s:REDUX\ntask lowest y:R s:REDUX\nprint s\n",
        out: "s: 4 -1\n",
    },
    Printing {
        shows: "a read between contributions finds those before it",
        text: "starjob 1\nworkers 2\nvector x 2 values 1 2\nvector s 1 values 10\nvector t 1 none\nredux s plus\ntask sum x:R s:REDUX\ntask copy s:R t:W\ntask sum x:R s:REDUX\nprint t\nprint s\n",
        out: "t: 13\ns: 16\n",
    },
    Printing {
        shows: "contributions that are taken away count no more",
        text: "starjob 1\nworkers 2\nvector x 2 values 1 2\nvector s 1 values 10\nredux s plus\ntask sum x:R s:REDUX\ninvalidate s\ntask sum x:R s:REDUX\nprint s\n",
        out: "s: 3\n",
    },
    Printing {
        shows: "another plan finds what was contributed",
        text: "starjob 1\nworkers 2\nvector x 2 values 1 2\nvector z 2 by 1 2 values 10 20\nredux z plus\ntask sum x:R z[0,1]:REDUX\nplan z 1 1\ntask scale(2) z:RW\nprint z\n",
        out: "z: 20 46\n",
    },
    Printing {
        shows: "a phase that is open at the end, and a name that is ended",
        text: "starjob 1\nworkers 2\nvector x 2 values 1 2\nvector s 1 values 10\nvector t 1 none\nredux s plus\nredux t plus\ntask sum x:R s:REDUX\ntask sum x:R t:REDUX\nunregister t\nprint x\n",
        out: "x: 1 2\n",
    },
    Printing {
        shows: "contributions with a scratch operand",
        text: "starjob 1\nworkers 2\nmatrix A 1 2 values 1 2\nmatrix B 2 2 values 1 0 0 1\nmatrix D 2 1 values 3 4\nmatrix T 1 2 none\nvector C 1 values 5\nredux C plus\ntask gemm3 A:R B:R D:R T:SCRATCH C:REDUX\ntask gemm3 A:R B:R D:R T:SCRATCH C:REDUX\nprint C\n",
        out: "C: 27\n",
    },
    Printing {
        shows: "tasks change places on what was contributed",
        text: "starjob 1\nworkers 3\nvector x 2 values 1 2\nvector s 1 values 10\nredux s plus\ntask sum x:R s:REDUX\ntask sum x:R s:COMMUTE\ntask sum x:R s:COMMUTE\ntask scale(2) s:COMMUTE\nprint s\n",
        out: "s: 38\n",
    },
];

#[test]
fn phases_give_what_their_tasks_give_one_after_another(rt: HostRuntime) -> Result<(), Fail> {
    all_print(&rt, rt.alloc(), &PHASES)
}
