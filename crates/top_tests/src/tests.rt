//! Whole jobs, from bytes to bytes.

use crate::test_calls::{
    Printing, Refusal, SUM, all_are_refused, all_print, answer_on, answer_to, bytes, call, calls,
    is_answered, memory, same, whole, with_one_more,
};
use sj_base::ids::{Line, Task, Worker};
use sj_base::trace::Event;
use sj_edge::disk::Disk;
use sj_edge::gate::OpenGate;
use sj_edge::memory_sink::MemSink;
use sj_edge::memory_source::MemSource;
use sj_edge::sure::{SureSink, SureSource};
use sj_job::reason::{LimitKind, Reason};
use sj_top::status::Status;
use std::test::Fail;

const PRINTINGS: [Printing; 30] = [
    Printing {
        shows: "no statement",
        text: "starjob 1\n",
        out: "",
    },
    Printing {
        shows: "a sum",
        text: "starjob 1\nvector x 3 values 1 2 3\nvector y 3 values 10 20 30\ntask add x:R y:RW\nprint y\n",
        out: "y: 11 22 33\n",
    },
    Printing {
        shows: "each print prints the array as it is then",
        text: "starjob 1\nvector x 2 values 1 2\nprint x\ntask scale(5) x:RW\nprint x\n",
        out: "x: 1 2\nx: 5 10\n",
    },
    Printing {
        shows: "sums wrap, and the greatest integer is inf",
        text: "starjob 1\nvector x 2 values 9223372036854775807 1\nvector y 2 values 1 1\ntask add x:R y:RW\nprint y\nprint x\n",
        out: "y: -9223372036854775808 2\nx: inf 1\n",
    },
    Printing {
        shows: "comments, blanks, and no LF at the end",
        text: "# skipped\n \t\r\nstarjob\t 1 \r\nvector x 2 values -5 inf\nvector y 2 values 0 0\ntask copy x:R y:W\nprint y",
        out: "y: -5 inf\n",
    },
    Printing {
        shows: "a matrix is printed row by row",
        text: "starjob 1\nmatrix A 2 3 values 1 2 3 -4 inf 6\nprint A\n",
        out: "A 2 3:\n1 2 3\n-4 inf 6\n",
    },
    Printing {
        shows: "a matrix of one column",
        text: "starjob 1\nmatrix A 3 1 fill 5 0\nprint A\n",
        out: "A 3 1:\n5\n5\n5\n",
    },
    Printing {
        shows: "fill counts in steps",
        text: "starjob 1\nvector x 4 fill 10 -3\nprint x\n",
        out: "x: 10 7 4 1\n",
    },
    Printing {
        shows: "fill counts row by row",
        text: "starjob 1\nmatrix A 2 2 fill -1 2\nprint A\n",
        out: "A 2 2:\n-1 1\n3 5\n",
    },
    Printing {
        shows: "fill wraps",
        text: "starjob 1\nvector x 3 fill 9223372036854775806 1\nprint x\n",
        out: "x: 9223372036854775806 inf -9223372036854775808\n",
    },
    Printing {
        shows: "a task may give the first values",
        text: "starjob 1\nvector x 3 none\ntask fill(2,5) x:W\nprint x\n",
        out: "x: 2 7 12\n",
    },
    Printing {
        shows: "a written operand starts from zeros and not from its old value",
        text: "starjob 1\nmatrix A 1 2 values 3 4\nmatrix B 2 1 values 9 9\ntask transpose A:R B:W\nprint B\n",
        out: "B 2 1:\n3\n4\n",
    },
    Printing {
        shows: "values taken away may be written again",
        text: "starjob 1\nvector x 2 values 1 2\nvector y 2 values 7 8\ninvalidate x\ntask copy y:R x:W\nprint x\n",
        out: "x: 7 8\n",
    },
    Printing {
        shows: "invalidate of an array without values",
        text: "starjob 1\nvector x 2 none\ninvalidate x\ninvalidate x\ntask fill(1,0) x:W\nprint x\n",
        out: "x: 1 1\n",
    },
    Printing {
        shows: "other names stand after one is ended",
        text: "starjob 1\nvector x 1 values 1\nvector y 1 values 2\nunregister x\nprint y\n",
        out: "y: 2\n",
    },
    Printing {
        shows: "a name without values may be ended",
        text: "starjob 1\nvector x 1 none\nunregister x\n",
        out: "",
    },
    Printing {
        shows: "a product of an array with itself",
        text: "starjob 1\nmatrix A 2 2 values 1 1 0 1\nmatrix C 2 2 fill 0 0\ntask gemm A:R A:R C:RW\nprint C\n",
        out: "C 2 2:\n1 2\n0 1\n",
    },
    Printing {
        shows: "a product is added",
        text: "starjob 1\nmatrix A 1 2 values 1 2\nmatrix B 2 1 values 10 100\nmatrix C 1 1 values 5\ntask gemm A:R B:R C:RW\nprint C\n",
        out: "C 1 1:\n215\n",
    },
    Printing {
        shows: "a product of three with a scratch operand",
        text: "starjob 1\nmatrix A 1 2 values 1 2\nmatrix B 2 2 values 1 0 0 1\nmatrix D 2 1 values 3 4\nmatrix T 1 2 none\nvector C 1 values 5\ntask gemm3 A:R B:R D:R T:SCRATCH C:RW\nprint C\n",
        out: "C: 16\n",
    },
    Printing {
        shows: "a scratch operand keeps its value",
        text: "starjob 1\nmatrix A 1 1 values 2\nmatrix B 1 1 values 3\nmatrix D 1 1 values 7\nvector T 1 values 9\nvector C 1 values 0\ntask gemm3 A:R B:R D:R T:SCRATCH C:RW\nprint T\nprint C\n",
        out: "T: 9\nC: 42\n",
    },
    Printing {
        shows: "axpy",
        text: "starjob 1\nvector x 2 values 1 -1\nvector y 2 values 10 10\ntask axpy(-3) x:R y:RW\nprint y\n",
        out: "y: 7 13\n",
    },
    Printing {
        shows: "sum and difference",
        text: "starjob 1\nvector x 2 values 5 1\nvector y 2 values 3 4\ntask butterfly x:RW y:RW\nprint x\nprint y\n",
        out: "x: 8 5\ny: 2 -3\n",
    },
    Printing {
        shows: "inner product and sum",
        text: "starjob 1\nvector x 3 values 1 2 3\nvector y 3 values 4 5 6\nvector s 1 values 100\nvector t 1 values -6\ntask dot x:R y:R s:RW\ntask sum x:R t:RW\nprint s\nprint t\n",
        out: "s: 132\nt: 0\n",
    },
    Printing {
        shows: "the lesser of two",
        text: "starjob 1\nvector x 3 values 5 inf -2\nvector y 3 values 4 9 inf\ntask lowest x:R y:RW\nprint y\n",
        out: "y: 4 9 -2\n",
    },
    Printing {
        shows: "a min-plus sum stays below inf",
        text: "starjob 1\nvector A 2 values inf 9223372036854775800\nmatrix B 2 1 values 5 100\nvector C 1 values inf\ntask mingemm A:R B:R C:RW\nprint C\n",
        out: "C: 9223372036854775806\n",
    },
    Printing {
        shows: "shortest ways past a missing road",
        text: "starjob 1\nmatrix D 2 2 values 0 4 inf 0\ntask fwdiag D:RW\nprint D\n",
        out: "D 2 2:\n0 4\ninf 0\n",
    },
    Printing {
        shows: "shortest ways by way of a third place",
        text: "starjob 1\nmatrix D 3 3 values 0 7 inf inf 0 2 1 inf 0\ntask fwdiag D:RW\nprint D\n",
        out: "D 3 3:\n0 7 9\n3 0 2\n1 8 0\n",
    },
    Printing {
        shows: "shortest ways through a block, by row and by column",
        text: "starjob 1\nmatrix D 2 2 values 0 1 inf 0\nmatrix A 2 1 values inf 5\nmatrix B 1 2 values 3 inf\ntask fwrow D:R A:RW\ntask fwcol D:R B:RW\nprint A\nprint B\n",
        out: "A 2 1:\n6\n5\nB 1 2:\n3 4\n",
    },
    Printing {
        shows: "tasks on one array keep their order whatever their priority",
        text: "starjob 1\nvector x 2 values 1 2\nvector y 2 values 1 1\ntask scale(2) x:RW prio=-1000\ntask add y:R x:RW prio=1000\ntask scale(3) x:RW\nprint x\n",
        out: "x: 9 15\n",
    },
    Printing {
        shows: "leading zeros",
        text: "starjob 1\nvector x 002 values 007 -01\ntask scale(03) x:RW prio=00\nprint x\n",
        out: "x: 21 -3\n",
    },
];

const REFUSALS: [Refusal; 54] = [
    Refusal {
        shows: "no line",
        text: "",
        err: "starjob: line 1: header\n",
    },
    Refusal {
        shows: "skipped lines alone",
        text: "#\n\n",
        err: "starjob: line 3: header\n",
    },
    Refusal {
        shows: "another header",
        text: "starjob 3\n",
        err: "starjob: line 1: header\n",
    },
    Refusal {
        shows: "no visible byte in the header",
        text: "starjob\x01 1\n",
        err: "starjob: line 1: header\n",
    },
    Refusal {
        shows: "an unknown first word",
        text: "starjob 1\nvecter x 2 none\n",
        err: "starjob: line 2: word\n",
    },
    Refusal {
        shows: "a byte that no line has",
        text: "starjob 1\nprint \x01\n",
        err: "starjob: line 2: word\n",
    },
    Refusal {
        shows: "a name that begins with a digit",
        text: "starjob 1\nprint 2x\n",
        err: "starjob: line 2: word\n",
    },
    Refusal {
        shows: "an unknown mode",
        text: "starjob 1\nvector x 1 values 1\ntask scale(2) x:rw\n",
        err: "starjob: line 3: word\n",
    },
    Refusal {
        shows: "an operand without a mode",
        text: "starjob 1\nvector x 1 values 1\ntask scale(2) x\n",
        err: "starjob: line 3: word\n",
    },
    Refusal {
        shows: "a priority before an operand",
        text: "starjob 1\nvector x 1 values 1\ntask scale(2) prio=1 x:RW\n",
        err: "starjob: line 3: word\n",
    },
    Refusal {
        shows: "no values",
        text: "starjob 1\nvector x 1 values\n",
        err: "starjob: line 2: word\n",
    },
    Refusal {
        shows: "a missing number of columns",
        text: "starjob 1\nmatrix A 2 none\n",
        err: "starjob: line 2: word\n",
    },
    Refusal {
        shows: "a word too many",
        text: "starjob 1\nvector x 1 none none\n",
        err: "starjob: line 2: word\n",
    },
    Refusal {
        shows: "settings behind a statement",
        text: "starjob 1\nvector x 1 none\nworkers 2\n",
        err: "starjob: line 3: word\n",
    },
    Refusal {
        shows: "a second header",
        text: "starjob 1\nstarjob 1\n",
        err: "starjob: line 2: word\n",
    },
    Refusal {
        shows: "letters for a number",
        text: "starjob 1\nvector x 2 values 1 b\n",
        err: "starjob: line 2: number\n",
    },
    Refusal {
        shows: "an integer that is too great",
        text: "starjob 1\nvector x 1 values 9223372036854775808\n",
        err: "starjob: line 2: number\n",
    },
    Refusal {
        shows: "a sign before a count",
        text: "starjob 1\nvector x -1 none\n",
        err: "starjob: line 2: number\n",
    },
    Refusal {
        shows: "a plus sign",
        text: "starjob 1\nvector x 1 fill +1 0\n",
        err: "starjob: line 2: number\n",
    },
    Refusal {
        shows: "an empty argument",
        text: "starjob 1\nvector x 1 values 1\ntask scale() x:RW\n",
        err: "starjob: line 3: number\n",
    },
    Refusal {
        shows: "a priority that is no number",
        text: "starjob 1\nvector x 1 values 1\ntask scale(2) x:RW prio=high\n",
        err: "starjob: line 3: number\n",
    },
    Refusal {
        shows: "workers above their range",
        text: "starjob 1\nworkers 65\n",
        err: "starjob: line 2: limit Workers\n",
    },
    Refusal {
        shows: "a node that is too small",
        text: "starjob 1\nnode 7\n",
        err: "starjob: line 2: limit NodeBytes\n",
    },
    Refusal {
        shows: "an unknown policy",
        text: "starjob 1\npolicy near\n",
        err: "starjob: line 2: word\n",
    },
    Refusal {
        shows: "a second reduction",
        text: "starjob 1\nvector s 1 values 0\nredux s plus\nredux s least\n",
        err: "starjob: line 4: taken name\n",
    },
    Refusal {
        shows: "a contribution to an array without a reduction",
        text: "starjob 1\nvector x 1 values 1\nvector s 1 values 1\ntask sum x:R s:REDUX\n",
        err: "starjob: line 4: no reduction\n",
    },
    Refusal {
        shows: "tasks whose runs may not change places",
        text: "starjob 1\nvector x 1 values 1\nvector y 1 values 1\ntask copy x:R y:COMMUTE\n",
        err: "starjob: line 4: not lawful\n",
    },
    Refusal {
        shows: "a contribution to a reduction by others",
        text: "starjob 1\nvector x 1 values 1\nvector s 1 none\nredux s least\ntask sum x:R s:REDUX\n",
        err: "starjob: line 5: not lawful\n",
    },
    Refusal {
        shows: "a commuting operand beside another output",
        text: "starjob 1\nvector x 1 values 1\nvector y 1 values 1\ntask butterfly x:COMMUTE y:RW\n",
        err: "starjob: line 4: mixed outputs\n",
    },
    Refusal {
        shows: "a priority above its range",
        text: "starjob 1\nvector x 1 values 1\ntask scale(2) x:RW prio=1001\n",
        err: "starjob: line 3: limit Priority\n",
    },
    Refusal {
        shows: "a priority below its range",
        text: "starjob 1\nvector x 1 values 1\ntask scale(2) x:RW prio=-1001\n",
        err: "starjob: line 3: limit Priority\n",
    },
    Refusal {
        shows: "no columns",
        text: "starjob 1\nvector x 0 none\n",
        err: "starjob: line 2: limit Elements\n",
    },
    Refusal {
        shows: "a column too many",
        text: "starjob 1\nvector x 1048577 none\n",
        err: "starjob: line 2: limit Elements\n",
    },
    Refusal {
        shows: "too many elements",
        text: "starjob 1\nmatrix A 4097 4096 none\n",
        err: "starjob: line 2: limit Elements\n",
    },
    Refusal {
        shows: "a name that was never registered",
        text: "starjob 1\nprint x\n",
        err: "starjob: line 2: unknown name\n",
    },
    Refusal {
        shows: "a name that is ended",
        text: "starjob 1\nvector x 1 none\nunregister x\nprint x\n",
        err: "starjob: line 4: ended name\n",
    },
    Refusal {
        shows: "an ended name is not registered again",
        text: "starjob 1\nvector x 1 none\nunregister x\nvector x 1 none\n",
        err: "starjob: line 4: ended name\n",
    },
    Refusal {
        shows: "a name that is taken",
        text: "starjob 1\nvector x 1 none\nvector x 1 none\n",
        err: "starjob: line 3: taken name\n",
    },
    Refusal {
        shows: "an unknown codelet",
        text: "starjob 1\nvector x 1 values 1\ntask cube x:RW\n",
        err: "starjob: line 3: unknown codelet\n",
    },
    Refusal {
        shows: "a missing argument",
        text: "starjob 1\nvector x 1 values 1\ntask scale x:RW\n",
        err: "starjob: line 3: operand count\n",
    },
    Refusal {
        shows: "no operands",
        text: "starjob 1\ntask add\n",
        err: "starjob: line 2: operand count\n",
    },
    Refusal {
        shows: "too many values",
        text: "starjob 1\nvector x 2 values 1 2 3\n",
        err: "starjob: line 2: shape\n",
    },
    Refusal {
        shows: "another mode than the codelet has",
        text: "starjob 1\nvector x 1 values 1\ntask scale(2) x:R\n",
        err: "starjob: line 3: shape\n",
    },
    Refusal {
        shows: "dimensions that do not fit",
        text: "starjob 1\nvector x 1 values 1\nvector y 2 values 1 2\ntask add x:R y:RW\n",
        err: "starjob: line 4: shape\n",
    },
    Refusal {
        shows: "a matrix that is not square",
        text: "starjob 1\nmatrix A 1 2 values 0 0\ntask fwdiag A:RW\n",
        err: "starjob: line 3: shape\n",
    },
    Refusal {
        shows: "an array that is read and written",
        text: "starjob 1\nvector x 1 values 1\ntask add x:R x:RW\n",
        err: "starjob: line 3: aliased\n",
    },
    Refusal {
        shows: "a factor that is the product too",
        text: "starjob 1\nmatrix A 2 2 values 1 1 0 1\ntask gemm A:R A:R A:RW\n",
        err: "starjob: line 3: aliased\n",
    },
    Refusal {
        shows: "a factor that is scratch too",
        text: "starjob 1\nmatrix A 1 1 values 1\nmatrix C 1 1 values 1\ntask gemm3 A:R A:R A:R A:SCRATCH C:RW\n",
        err: "starjob: line 4: aliased\n",
    },
    Refusal {
        shows: "no value to print",
        text: "starjob 1\nvector x 1 none\nprint x\n",
        err: "starjob: line 3: no value\n",
    },
    Refusal {
        shows: "a value that was taken away",
        text: "starjob 1\nvector x 2 values 1 2\ninvalidate x\nprint x\n",
        err: "starjob: line 4: no value\n",
    },
    Refusal {
        shows: "no value to read",
        text: "starjob 1\nvector x 1 none\nvector y 1 values 1\ntask add x:R y:RW\n",
        err: "starjob: line 4: no value\n",
    },
    Refusal {
        shows: "no value to add to",
        text: "starjob 1\nvector x 1 values 1\nvector y 1 none\ntask add x:R y:RW\n",
        err: "starjob: line 4: no value\n",
    },
    Refusal {
        shows: "the first bad line counts",
        text: "starjob 1\nvector x 1 values 1\nprint y\nprint 2x\n",
        err: "starjob: line 3: unknown name\n",
    },
    Refusal {
        shows: "nothing is printed before a bad line",
        text: "starjob 1\nvector x 1 values 1\nprint x\nprint y\n",
        err: "starjob: line 4: unknown name\n",
    },
];

#[test]
fn jobs_print_what_their_tasks_make(rt: HostRuntime) -> Result<(), Fail> {
    all_print(&rt, rt.alloc(), &PRINTINGS)
}

#[test]
fn a_refused_job_names_its_first_bad_line_and_its_first_reason(
    rt: HostRuntime,
) -> Result<(), Fail> {
    all_are_refused(&rt, rt.alloc(), &REFUSALS)
}

#[test]
fn a_source_that_fails_gives_its_fault_and_nothing_is_written(rt: HostRuntime) -> Result<(), Fail> {
    let alloc = rt.alloc();
    for number in 1..4u64 {
        let mut source = MemSource::new(bytes(alloc, SUM)?, calls(alloc, &[number])?);
        let mut out = MemSink::new(alloc, 1000, Vec::new(alloc))?;
        let mut err = MemSink::new(alloc, 1000, Vec::new(alloc))?;
        let outcome = call(&rt, alloc, &mut source, &mut out, &mut err)?;
        if source.faults() == 0 {
            same(&rt, (number, outcome.status), (number, Status::Done));
        } else {
            let line = b"starjob: reading failed\n".as_slice();
            same(&rt, (number, outcome.status), (number, Status::SourceFault));
            same(&rt, (out.taken().len(), err.taken()), (0, line));
        }
    }
    Ok(())
}

#[test]
fn an_out_that_fails_gives_its_fault_and_a_failing_err_is_ignored(
    rt: HostRuntime,
) -> Result<(), Fail> {
    let alloc = rt.alloc();
    let mut source = SureSource::new(bytes(alloc, SUM)?);
    let mut out = MemSink::new(alloc, 1000, calls(alloc, &[1])?)?;
    let mut err = MemSink::new(alloc, 10, Vec::new(alloc))?;
    let outcome = call(&rt, alloc, &mut source, &mut out, &mut err)?;
    same(&rt, outcome.status, Status::SinkFault);
    same(
        &rt,
        (out.taken().len(), err.taken()),
        (0, b"starjob: w".as_slice()),
    );
    Ok(())
}

#[test]
fn words_are_not_accepted_and_disks_come_back_in_order(rt: HostRuntime) -> Result<(), Fail> {
    let alloc = rt.alloc();
    let second = Box::new(alloc, memory(alloc, 32, &[])?)?;
    let disks = with_one_more(whole(alloc, 64)?, second)?;
    let words = ["--workers"];
    let answer = answer_on(&rt, alloc, &words, SUM.as_bytes(), disks, &OpenGate)?;
    is_answered(&rt, &answer, Status::Usage, "", "words");
    let mut sizes = Vec::new(alloc);
    for disk in answer.outcome.disks.iter() {
        sizes.push(disk.size())?;
    }
    same(&rt, sizes.as_slice(), [64, 32].as_slice());
    Ok(())
}

#[test]
fn a_text_is_read_up_to_its_limit_of_bytes(rt: HostRuntime) -> Result<(), Fail> {
    let alloc = rt.alloc();
    for (length, line, reason) in [
        (67_108_864, 2, Reason::Header),
        (67_108_865, 0, Reason::Limit(LimitKind::Text)),
    ] {
        let mut source = SureSource::new(vec![in alloc; b'#'; length]?);
        let mut out = SureSink::new();
        let mut err = SureSink::new();
        let outcome = call(&rt, alloc, &mut source, &mut out, &mut err)?;
        let line = Line(line);
        let refused = Status::Refused { line, reason };
        assert_eq!(rt; outcome.status, refused, "{length}");
    }
    Ok(())
}

#[test]
fn a_sum_is_traced_as_claim_run_and_end_of_four_tasks_in_order(
    rt: HostRuntime,
) -> Result<(), Fail> {
    let answer = answer_to(&rt, rt.alloc(), SUM.as_bytes())?;
    let trace = &answer.outcome.trace;
    let worker = Worker(0);
    same(&rt, answer.outcome.status, Status::Done);
    assert_eq!(rt; trace.len(), 12);
    for t in 0..4u32 {
        let first = 3 * t as usize;
        let task = Task(t);
        same(&rt, trace.get(first), Event::Claim(task, worker));
        same(&rt, trace.get(first + 1), Event::Run(task, worker));
        same(&rt, trace.get(first + 2), Event::End(task, worker));
    }
    Ok(())
}

#[test]
fn a_job_without_tasks_and_a_refused_job_have_an_empty_trace(rt: HostRuntime) -> Result<(), Fail> {
    for (text, code) in [
        ("starjob 1\n", 0u8),
        ("starjob 1\nvector x 2 values 1 2\nprint y\n", 3),
    ] {
        let answer = answer_to(&rt, rt.alloc(), text.as_bytes())?;
        same(
            &rt,
            (answer.outcome.status.code(), answer.outcome.trace.len()),
            (code, 0),
        );
    }
    Ok(())
}
