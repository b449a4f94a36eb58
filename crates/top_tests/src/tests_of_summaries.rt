//! Whole jobs whose printed arrays are summed up.

use crate::test_calls::{DISK, answer_on, is_answered, whole};
use sj_edge::gate::OpenGate;
use sj_top::status::Status;
use std::alloc::Global;
use std::process::Abort;
use std::sync::Wait;
use std::test::Fail;
use std::thread::Threads;

fn sums_up<R: Threads + Wait + Abort + Sync>(
    rt: &R,
    alloc: Global,
    words: &[&str],
    text: &str,
    out: &str,
) -> Result<(), Fail> {
    let disks = whole(alloc, DISK)?;
    let answer = answer_on(rt, alloc, words, text.as_bytes(), disks, &OpenGate)?;
    is_answered(rt, &answer, Status::Done, out, text);
    Ok(())
}

#[test]
fn each_print_gives_a_line(rt: HostRuntime) -> Result<(), Fail> {
    let text =
        "starjob 1\nmatrix A 3 3 by 2 2 values 0 inf -4 7 inf inf 2 3 5\nprint A\nvector v 2 fill 9 0\nprint v\nprint A\n";
    let out =
        "A 3 3: sum 13 min -4 max 7 inf 3\nv 1 2: sum 18 min 9 max 9 inf 0\nA 3 3: sum 13 min -4 max 7 inf 3\n";
    sums_up(&rt, rt.alloc(), &["--summary"], text, out)?;
    sums_up(&rt, rt.alloc(), &["--workers", "3", "--summary"], text, out)
}

#[test]
fn a_trace_follows_the_lines(rt: HostRuntime) -> Result<(), Fail> {
    let text = "starjob 1\nvector v 1 values inf\nprint v\n";
    let out =
        "v 1 1: sum 0 min - max - inf 1\nclaim t0 w0\nrun t0 w0\nend t0 w0\nclaim t1 w0\nrun t1 w0\nend t1 w0\n";
    sums_up(&rt, rt.alloc(), &["--trace", "--summary"], text, out)
}
