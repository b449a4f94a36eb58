//! What single lines say, line by line.

use sj_base::ids::Root;
use sj_base::memory::OutOfMemory;
use sj_base::mode::Mode;
use sj_codelet::kernel::Kernel;
use sj_job::read::read;
use sj_job::reason::{ReadRefusal, Reason};
use sj_kernels::ring::Ring;
use sj_meaning::job::{Act, Init, Job, Kind, RootInfo};
use sj_meaning::roots::Roots;
use std::alloc::{AllocGlobal, Global};
use std::process::Abort;
use std::test::Fail;

/// The job of a line, behind a statement or alone.
fn job_of(alloc: Global, line: &str, begun: bool) -> Result<Job, ReadRefusal> {
    let mut text = Vec::from_slice(alloc, b"starjob 1\n")?;
    if begun {
        text.extend_from_slice(b"vector begun 1 none\n")?;
    }
    text.extend_from_slice(line.as_bytes())?;
    text.push(b'\n')?;
    read(alloc, &text, &Ring)
}

/// Why a line says no form that is read, or `None` where it says one.
fn reason_of(alloc: Global, line: &str, begun: bool) -> Result<Option<Reason>, OutOfMemory> {
    match job_of(alloc, line, begun) {
        Err(ReadRefusal::OutOfMemory) => Err(OutOfMemory),
        Err(
            ReadRefusal::Refused {
                reason: reason @ (Reason::Word | Reason::Number),
                ..
            },
        ) => Ok(Some(reason)),
        _ => Ok(None),
    }
}

/// Each of these lines is refused for this reason, or for none, behind a statement or alone.
fn all_are<R: AllocGlobal + Abort>(
    rt: &R,
    lines: &[&str],
    begun: bool,
    wanted: Option<Reason>,
) -> Result<(), Fail> {
    for line in lines {
        assert_eq!(rt; reason_of(rt.alloc(), line, begun)?, wanted, "{line}");
    }
    Ok(())
}

#[test]
fn lines_without_fault_say_sentences(rt: HostRuntime) -> Result<(), Fail> {
    let lines = [
        "vector x 2 values 1 2",
        "vector x 1 values inf",
        "vector x 0 none",
        "vector by 4 fill 0 -1",
        "vector by 4 by 1 2 fill 0 -1",
        "matrix A 1 1 by 2 2 none",
        "plan x 0 1",
        "redux s plus",
        "redux s least",
        "task sum x:R s:REDUX",
        "task copy x:R y:COMMUTE",
        "plan plan 007 9223372036854775807",
        "task scale(2) x[0,2]:RW",
        "task copy x[00,9223372036854775807]:R y:W",
        "vector values 007 values -9223372036854775808",
        "vector n2345678901234567890123456789_1 1 none",
        "matrix A 2 3 fill inf inf",
        "matrix _ 9223372036854775807 2 values 1 0 0 1",
        "task scale(2) x:RW",
        "task axpy(-3) x:R y:RW",
        "task gemm3 A:R B:R D:R T:SCRATCH C:RW",
        "task fill(0,inf) x:W prio=-1001",
        "task add",
        "task add prio=5",
        "print x",
        "invalidate x",
        "unregister unregister",
    ];
    all_are(&rt, &lines, false, None)?;
    all_are(&rt, &lines, true, None)
}

#[test]
fn lines_of_no_form_are_words(rt: HostRuntime) -> Result<(), Fail> {
    let lines = [
        "vecter x 2 none",
        "starjob 1",
        "vector x 2",
        "vector x 2 values",
        "vector x 2 some",
        "vector x 2 fill 1",
        "vector x 2 fill 1 2 3",
        "vector x 2 none none",
        "vector x 2 by 1 none",
        "vector x 2 by 1 2",
        "vector 2 x none",
        "vector x-y b none",
        "vector n2345678901234567890123456789_12 1 none",
        "matrix A 2 none",
        "matrix A b c",
        "plan x 1",
        "plan x a b c",
        "redux x max",
        "redux x",
        "redux x plus least",
        "workers",
        "workers a b",
        "node",
        "policy",
        "policy near",
        "policy eager ws",
        "print",
        "print x y",
        "print 1",
        "invalidate x y",
        "unregister",
    ];
    all_are(&rt, &lines, false, Some(Reason::Word))
}

#[test]
fn operands_and_codelets_are_spelled(rt: HostRuntime) -> Result<(), Fail> {
    let words = [
        "task",
        "task prio=1",
        "task 2x",
        "task add:R",
        "task scale(2",
        "task scale(2)x x:RW",
        "task scale((2)) x:RW",
        "task scale([2]) x:RW",
        "task scale(2) x",
        "task scale(2) x[0,0:RW",
        "task scale(2) x0,0]:RW",
        "task scale(2) x[0]:R",
        "task scale(2) x[]:R",
        "task scale(2) x[0,0,0]:R",
        "task scale(2) x[(0),0]:R",
        "task scale(2) x[0,0]y:R",
        "task scale(2) [0,0]:R",
        "task scale(2) :R",
        "task scale(2) x:",
        "task scale(2) x:WR",
        "task scale(2) x:r",
        "task scale(2) x:R:RW",
        "task scale(2) prio=1 x:RW",
        "task scale(b) x",
        "task scale(2) x:RW prio=b x:R",
    ];
    all_are(&rt, &words, false, Some(Reason::Word))
}

#[test]
fn numbers_of_tasks_are_spelled(rt: HostRuntime) -> Result<(), Fail> {
    let numbers = [
        "task scale() x:RW",
        "task fill(1,) x:W",
        "task add() x:R",
        "task add(,) x:R",
        "task scale(2:3) x:RW",
        "task scale(+2) x:RW",
        "task scale(9223372036854775808) x:RW",
        "task scale(2) x[,0]:R",
        "task scale(2) x[-1,0]:R",
        "task scale(2) x[inf,0]:R",
        "task scale(2) x[0:1,2]:R",
        "task scale(2) x:RW prio=",
        "task scale(2) x:RW prio=1.5",
        "task scale(2) x:RW prio=x:R",
    ];
    all_are(&rt, &numbers, false, Some(Reason::Number))
}

#[test]
fn places_of_numbers_hold_numbers(rt: HostRuntime) -> Result<(), Fail> {
    let lines = [
        "vector x 2 values 1 b",
        "vector x 1 values 9223372036854775808",
        "vector x 1 values --1",
        "vector x 99999999999999999999 none",
        "vector x 9223372036854775808 none",
        "vector x -1 none",
        "vector x inf none",
        "vector x 4 by 1 x none",
        "vector x 4 by -1 2 values 1",
        "vector x 2 fill 1 -",
        "matrix A 2 +3 none",
        "plan x 1 -1",
        "workers two",
        "workers inf",
        "node -7",
    ];
    all_are(&rt, &lines, false, Some(Reason::Number))
}

#[test]
fn settings_behind_a_statement_are_words(rt: HostRuntime) -> Result<(), Fail> {
    let lines = ["workers 2", "workers two", "node 8", "node -8", "policy ws"];
    all_are(&rt, &lines, true, Some(Reason::Word))
}

/// What is fixed of a root, where there is one of this number.
fn info_of(roots: &Roots, root: Root) -> Option<RootInfo> {
    if (root.0 as usize) < roots.len() {
        return Some(roots.info(root));
    }
    None
}

#[test]
fn a_registration_has_its_name_dimensions_and_values(rt: HostRuntime) -> Result<(), Fail> {
    let job = job_of(rt.alloc(), "matrix x_1 1 2 values -1 inf", false)?;
    let Some(root) = job.roots.find(b"x_1") else {
        return Err(Fail::from("a root"));
    };
    assert!(rt; root == Root(0) && job.roots.len() == 1);
    let info = info_of(&job.roots, root).ok_or("its dimensions")?;
    assert!(rt; info.kind == Kind::Matrix && info.dims.rows == 1 && info.dims.cols == 2);
    let Some(statement) = job.statements.items().first() else {
        return Err(Fail::from("a statement"));
    };
    let Act::Register(Init::Values(values)) = &statement.act else {
        return Err(Fail::from("values"));
    };
    assert_eq!(rt; values.items(), [-1, i64::MAX].as_slice());
    Ok(())
}

#[test]
fn a_task_has_its_codelet_arguments_operands_and_priority(rt: HostRuntime) -> Result<(), Fail> {
    let lines = "vector x 1 fill 0 0\nvector yy 1 fill 0 0\ntask axpy(-3) x:R yy:RW prio=-7";
    let job = job_of(rt.alloc(), lines, false)?;
    let Some(statement) = job.statements.items().last() else {
        return Err(Fail::from("a statement"));
    };
    let Act::Task(task) = &statement.act else {
        return Err(Fail::from("a task"));
    };
    assert!(rt; task.kernel == Kernel::Axpy && task.priority == -7);
    assert!(rt; task.args.items() == [-3i64].as_slice());
    let [x, y] = task.operands.items() else {
        return Err(Fail::from("two operands"));
    };
    assert!(rt; x.root == Root(0) && x.mode == Mode::R);
    assert!(rt; y.root == Root(1) && y.mode == Mode::RW);
    Ok(())
}
