//! Whole jobs over partition plans, from bytes to bytes, and the limits that are counted in lowering.

use crate::test_calls::{
    Answer, Printing, Refusal, all_are_refused, all_print, answer_on, same, whole,
};
use sj_edge::gate::OpenGate;
use sj_top::status::Status;
use std::alloc::Global;
use std::process::Abort;
use std::sync::Wait;
use std::test::Fail;
use std::thread::Threads;

const PRINTINGS: [Printing; 12] = [
    Printing {
        shows: "parts of unlike sizes, and other parts",
        text: "starjob 1\nmatrix A 5 2 fill 0 1\nplan A 2 1\ntask scale(10) A[1,0]:RW\nplan A 3 1\nprint A\n",
        out: "A 5 2:\n0 1\n2 3\n4 5\n60 70\n80 90\n",
    },
    Printing {
        shows: "a product by tiles of unlike sizes",
        text: "starjob 1\nmatrix A 5 4 by 3 2 fill 1 1\nmatrix B 4 3 by 2 2 fill -3 1\nmatrix C 5 3 by 3 2 fill 0 0\ntask gemm A[0,0]:R B[0,0]:R C[0,0]:RW\ntask gemm A[0,1]:R B[1,0]:R C[0,0]:RW\ntask gemm A[0,0]:R B[0,1]:R C[0,1]:RW\ntask gemm A[0,1]:R B[1,1]:R C[0,1]:RW\ntask gemm A[1,0]:R B[0,0]:R C[1,0]:RW\ntask gemm A[1,1]:R B[1,0]:R C[1,0]:RW\ntask gemm A[1,0]:R B[0,1]:R C[1,1]:RW\ntask gemm A[1,1]:R B[1,1]:R C[1,1]:RW\ntask gemm A[2,0]:R B[0,0]:R C[2,0]:RW\ntask gemm A[2,1]:R B[1,0]:R C[2,0]:RW\ntask gemm A[2,0]:R B[0,1]:R C[2,1]:RW\ntask gemm A[2,1]:R B[1,1]:R C[2,1]:RW\nprint C\n",
        out: "C 5 3:\n30 40 50\n54 80 106\n78 120 162\n102 160 218\n126 200 274\n",
    },
    Printing {
        shows: "halves, then thirds that lie in both halves",
        text: "starjob 1\nvector x 6 by 1 2 fill 1 0\ntask scale(10) x[0,1]:RW\nplan x 1 3\ntask add x[0,0]:R x[0,1]:RW\nprint x\n",
        out: "x: 1 1 2 11 10 10\n",
    },
    Printing {
        shows: "panels of rows, then panels of columns",
        text: "starjob 1\nmatrix M 5 6 by 3 1 fill 1 1\ntask scale(10) M[0,0]:RW\nprint M\nplan M 1 3\ntask add M[0,0]:R M[0,1]:RW\nplan M 3 1\ntask scale(-1) M[2,0]:RW\nprint M\n",
        out: "M 5 6:\n10 20 30 40 50 60\n70 80 90 100 110 120\n13 14 15 16 17 18\n19 20 21 22 23 24\n25 26 27 28 29 30\nM 5 6:\n10 20 40 60 50 60\n70 80 160 180 110 120\n13 14 28 30 17 18\n19 20 40 42 23 24\n-25 -26 -52 -54 -29 -30\n",
    },
    Printing {
        shows: "a plan that is taken again",
        text: "starjob 1\nvector x 4 values 1 2 3 4\nplan x 1 2\ntask scale(10) x[0,1]:RW\nplan x 1 1\ntask scale(2) x:RW\nplan x 1 2\nprint x\n",
        out: "x: 2 4 60 80\n",
    },
    Printing {
        shows: "the active plan again",
        text: "starjob 1\nvector x 2 by 1 2 values 5 6\nplan x 1 2\ntask add x[0,0]:R x[0,1]:RW\nplan x 1 2\nprint x\n",
        out: "x: 5 11\n",
    },
    Printing {
        shows: "children that get their first values one by one",
        text: "starjob 1\nvector x 5 by 1 2 none\ntask fill(7,0) x[0,1]:W\ntask fill(1,1) x[0,0]:W\nprint x\n",
        out: "x: 1 2 3 7 7\n",
    },
    Printing {
        shows: "another plan while there are no values",
        text: "starjob 1\nvector x 4 by 1 4 none\nplan x 1 2\ntask fill(1,1) x[0,0]:W\ntask copy x[0,0]:R x[0,1]:W\nprint x\n",
        out: "x: 1 2 1 2\n",
    },
    Printing {
        shows: "values taken away, and another plan",
        text: "starjob 1\nmatrix A 2 2 by 2 1 values 1 2 3 4\ninvalidate A\nplan A 1 2\ntask fill(1,1) A[0,0]:W\ntask fill(8,1) A[0,1]:W\nprint A\n",
        out: "A 2 2:\n1 8\n2 9\n",
    },
    Printing {
        shows: "two arrays printed in turn, each under its plans",
        text: "starjob 1\nmatrix A 2 2 by 2 2 values 1 2 3 4\nvector y 3 by 1 3 values 7 8 9\nprint y\nprint A\nplan y 1 1\nplan A 2 1\nprint y\nprint A\n",
        out: "y: 7 8 9\nA 2 2:\n1 2\n3 4\ny: 7 8 9\nA 2 2:\n1 2\n3 4\n",
    },
    Printing {
        shows: "a child of an element is transposed into another",
        text: "starjob 1\nmatrix A 2 2 by 2 2 values 1 2 3 4\ntask transpose A[0,1]:R A[1,0]:W\nprint A\n",
        out: "A 2 2:\n1 2\n2 4\n",
    },
    Printing {
        shows: "a child is summed",
        text: "starjob 1\nmatrix M 5 6 by 3 2 fill 1 1\nvector s 1 values 0\ntask sum M[2,1]:R s:RW\nprint s\n",
        out: "s: 87\n",
    },
];

const REFUSALS: [Refusal; 12] = [
    Refusal {
        shows: "a child beside the plan",
        text: "starjob 1\nvector x 4 by 1 2 fill 0 1\ntask scale(2) x[0,2]:RW\n",
        err: "starjob: line 3: part\n",
    },
    Refusal {
        shows: "a child of the plan before",
        text: "starjob 1\nvector x 4 by 1 4 fill 0 1\nplan x 1 2\ntask scale(2) x[0,2]:RW\n",
        err: "starjob: line 4: part\n",
    },
    Refusal {
        shows: "a divided array without an index",
        text: "starjob 1\nvector x 4 by 1 2 fill 0 1\ntask scale(2) x:RW\n",
        err: "starjob: line 3: part\n",
    },
    Refusal {
        shows: "more parts than elements",
        text: "starjob 1\nvector x 3 values 1 2 3\nplan x 1 4\n",
        err: "starjob: line 3: part\n",
    },
    Refusal {
        shows: "no parts",
        text: "starjob 1\nvector x 4 by 0 1 none\n",
        err: "starjob: line 2: part\n",
    },
    Refusal {
        shows: "too many children",
        text: "starjob 1\nmatrix M 128 64 by 64 64 none\nplan M 65 64\n",
        err: "starjob: line 3: limit Parts\n",
    },
    Refusal {
        shows: "children of unlike dimensions",
        text: "starjob 1\nvector x 5 by 1 2 values 1 2 3 4 5\ntask add x[0,0]:R x[0,1]:RW\n",
        err: "starjob: line 3: shape\n",
    },
    Refusal {
        shows: "a child that is read and written",
        text: "starjob 1\nvector x 4 by 1 2 fill 0 1\ntask add x[0,1]:R x[0,1]:RW\n",
        err: "starjob: line 3: aliased\n",
    },
    Refusal {
        shows: "a child without a value",
        text: "starjob 1\nvector x 4 by 1 2 none\ntask fill(1,1) x[0,0]:W\ntask add x[0,0]:R x[0,1]:RW\n",
        err: "starjob: line 4: no value\n",
    },
    Refusal {
        shows: "another plan where some children have values",
        text: "starjob 1\nvector x 4 by 1 2 none\ntask fill(1,1) x[0,0]:W\nplan x 1 4\n",
        err: "starjob: line 4: no value\n",
    },
    Refusal {
        shows: "a print where some children have values",
        text: "starjob 1\nvector x 4 by 1 2 none\ntask fill(1,1) x[0,0]:W\nprint x\n",
        err: "starjob: line 4: no value\n",
    },
    Refusal {
        shows: "a bad plan line stands before a later limit",
        text: "starjob 1\nvector x 4 by 1 2 fill 0 1\nprint x\nplan y 1 2\n",
        err: "starjob: line 4: unknown name\n",
    },
];

#[test]
fn jobs_over_plans_print_what_their_tasks_make(rt: HostRuntime) -> Result<(), Fail> {
    all_print(&rt, rt.alloc(), &PRINTINGS)
}

#[test]
fn a_refused_job_over_plans_names_its_first_bad_line_and_its_first_reason(
    rt: HostRuntime,
) -> Result<(), Fail> {
    all_are_refused(&rt, rt.alloc(), &REFUSALS)
}

/// Appends registrations of so many arrays of 4,096 children.
fn push_divided(alloc: Global, text: &mut Vec<u8>, arrays: u32) -> Result<(), Fail> {
    for k in 0..arrays {
        let line = format!(in alloc; "matrix A{k} 64 64 by 64 64 none\n")?;
        text.extend_from_slice(line.as_bytes())?;
    }
    Ok(())
}

/// Appends a vector of 4,096 children and so many print statements of it: 4,096 tasks for each of these lines.
fn push_printed(text: &mut Vec<u8>, prints: u32) -> Result<(), Fail> {
    text.extend_from_slice(b"vector x 4096 by 1 4096 fill 0 0\n")?;
    for _ in 0..prints {
        text.extend_from_slice(b"print x\n")?;
    }
    Ok(())
}

/// The bytes of a disk that takes the blocks of as many cells as the limit, of one element each.
const DISK: u32 = 1 << 23;

/// The answer to a job of up to so many cells.
fn answer_large<R: Threads + Wait + Sync>(
    rt: &R,
    alloc: Global,
    text: &[u8],
) -> Result<Answer, Fail> {
    answer_on(rt, alloc, &[], text, whole(alloc, DISK)?, &OpenGate)
}

/// A job ends with this code; `out` takes so many bytes, and `err` this line.
fn ends<R: Threads + Wait + Abort + Sync>(
    rt: &R,
    alloc: Global,
    text: &[u8],
    code: u8,
    printed: usize,
    line: &str,
) -> Result<(), Fail> {
    let answer = answer_large(rt, alloc, text)?;
    let ended = (answer.outcome.status.code(), answer.out.taken().len());
    same(
        rt,
        (ended, answer.err.taken()),
        ((code, printed), line.as_bytes()),
    );
    Ok(())
}

#[test]
fn as_many_cells_as_the_limit_are_taken_and_no_more(rt: HostRuntime) -> Result<(), Fail> {
    let alloc = rt.alloc();
    for (arrays, code, line) in [(64, 0, ""), (65, 3, "starjob: line 66: limit Cells\n")] {
        let mut text = Vec::from_slice(alloc, b"starjob 1\n")?;
        push_divided(alloc, &mut text, arrays)?;
        ends(&rt, alloc, &text, code, 0, line)?;
    }
    Ok(())
}

#[test]
fn as_many_tasks_as_the_limit_are_run_and_no_more(rt: HostRuntime) -> Result<(), Fail> {
    let alloc = rt.alloc();
    for (prints, code, printed, line) in [
        (63, 0, 63 * 8_195, ""),
        (64, 3, 0, "starjob: line 66: limit Tasks\n"),
    ] {
        let mut text = Vec::from_slice(alloc, b"starjob 1\n")?;
        push_printed(&mut text, prints)?;
        ends(&rt, alloc, &text, code, printed, line)?;
    }
    Ok(())
}

#[test]
fn too_many_cells_are_named_though_their_line_is_the_later_one(
    rt: HostRuntime,
) -> Result<(), Fail> {
    let alloc = rt.alloc();
    let mut text = Vec::from_slice(alloc, b"starjob 1\n")?;
    push_printed(&mut text, 64)?;
    push_divided(alloc, &mut text, 64)?;
    let line = "starjob: line 130: limit Cells\n";
    ends(&rt, alloc, &text, 3, 0, line)
}

/// A job of 4,096 names, over 8,000 cells, 24,000 tasks and 4,097 print statements, one array of which has 4,096 children, and
/// another one is an operand of over 8,000 tasks.
fn many_of_all(alloc: Global) -> Result<Vec<u8>, Fail> {
    let first = b"starjob 1\nvector w 4096 by 1 4096 fill 0 1\nvector v0 1 values 1000\n";
    let mut text = Vec::from_slice(alloc, first)?;
    for k in 1..4_095 {
        let lines = format!(in alloc;
            "vector v{k} 1 values {k}\ntask add v0:R v{k}:RW\nprint v{k}\n"
        )?;
        text.extend_from_slice(lines.as_bytes())?;
    }
    for k in 0..4_096 {
        let line = format!(in alloc; "task add v0:R w[0,{k}]:RW\n")?;
        text.extend_from_slice(line.as_bytes())?;
    }
    text.extend_from_slice(b"print v0\nprint v0\nprint w\n")?;
    Ok(text)
}

/// What it prints.
fn many_printed(alloc: Global) -> Result<Vec<u8>, Fail> {
    let mut text = Vec::new(alloc);
    for k in 1..4_095 {
        let line = format!(in alloc; "v{k}: {}\n", k + 1_000)?;
        text.extend_from_slice(line.as_bytes())?;
    }
    text.extend_from_slice(b"v0: 1000\nv0: 1000\nw:")?;
    for k in 1_000..5_096 {
        let element = format!(in alloc; " {k}")?;
        text.extend_from_slice(element.as_bytes())?;
    }
    text.push(b'\n')?;
    Ok(text)
}

#[test]
fn a_job_of_over_4_thousand_of_everything_is_done(rt: HostRuntime) -> Result<(), Fail> {
    let alloc = rt.alloc();
    let answer = answer_large(&rt, alloc, &many_of_all(alloc)?)?;
    same(
        &rt,
        (answer.outcome.status, answer.err.taken().len()),
        (Status::Done, 0),
    );
    same(
        &rt,
        answer.out.taken() == many_printed(alloc)?.as_slice(),
        true,
    );
    Ok(())
}
