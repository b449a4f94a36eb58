//! What texts give: a job, or the first bad line and the first reason against it.

use sj_base::ids::Line;
use sj_job::read::read;
use sj_job::reason::{LimitKind, ReadRefusal, Reason};
use sj_kernels::ring::Ring;
use std::alloc::Global;
use std::process::Abort;
use std::test::Fail;

/// A text, its first bad line, and why that is refused.
pub type Refused = (&'static str, u32, Reason);

/// A text gives so many statements, or memory ran out.
pub fn gives(alloc: Global, text: &[u8]) -> Result<usize, ReadRefusal> {
    let job = read(alloc, text, &Ring)?;
    Ok(job.statements.len())
}

/// Each reason by a text that gives no other.
const ALONE: [Refused; 44] = [
    ("", 1, Reason::Header),
    ("#\n\n", 3, Reason::Header),
    ("starjob 3\n", 1, Reason::Header),
    ("starjob 01\n", 1, Reason::Header),
    ("starjob 1\nvecter x 2 none\n", 2, Reason::Word),
    ("starjob 1\nstarjob 1\n", 2, Reason::Word),
    (
        "starjob 1\nvector x 1 values 1\ntask scale(2) x\n",
        3,
        Reason::Word,
    ),
    (
        "starjob 1\nvector x 1 values 1\ntask scale(2) x[0,0:RW\n",
        3,
        Reason::Word,
    ),
    (
        "starjob 1\nvector x 1 values 1\nworkers 2\n",
        3,
        Reason::Word,
    ),
    (
        "starjob 1\nvector abcdefghijklmnopqrstuvwxyzabcdef 1 none\n",
        2,
        Reason::Word,
    ),
    ("starjob 1\nvector x 2 values 1 b\n", 2, Reason::Number),
    (
        "starjob 1\nvector x 1 values 9223372036854775808\n",
        2,
        Reason::Number,
    ),
    (
        "starjob 1\nvector x 99999999999999999999 none\n",
        2,
        Reason::Number,
    ),
    (
        "starjob 1\nvector x 0 none\n",
        2,
        Reason::Limit(LimitKind::Elements),
    ),
    (
        "starjob 1\nvector x 1048577 none\n",
        2,
        Reason::Limit(LimitKind::Elements),
    ),
    (
        "starjob 1\nmatrix x 1048577 1 none\n",
        2,
        Reason::Limit(LimitKind::Elements),
    ),
    (
        "starjob 1\nmatrix x 4096 4097 none\n",
        2,
        Reason::Limit(LimitKind::Elements),
    ),
    (
        "starjob 1\nvector x 1 values 1\ntask scale(2) x:RW prio=1001\n",
        3,
        Reason::Limit(LimitKind::Priority),
    ),
    (
        "starjob 1\nvector x 1 values 1\ntask scale(2) x:RW prio=-1001\n",
        3,
        Reason::Limit(LimitKind::Priority),
    ),
    ("starjob 1\nprint x\n", 2, Reason::UnknownName),
    ("starjob 1\ninvalidate x\n", 2, Reason::UnknownName),
    ("starjob 1\nunregister x\n", 2, Reason::UnknownName),
    ("starjob 1\ntask scale(2) x:RW\n", 2, Reason::UnknownName),
    (
        "starjob 1\nvector x 1 none\nunregister x\nprint x\n",
        4,
        Reason::EndedName,
    ),
    (
        "starjob 1\nvector x 1 none\nunregister x\nvector x 1 none\n",
        4,
        Reason::EndedName,
    ),
    (
        "starjob 1\nvector x 1 none\nunregister x\ninvalidate x\n",
        4,
        Reason::EndedName,
    ),
    (
        "starjob 1\nvector x 1 none\nunregister x\nunregister x\n",
        4,
        Reason::EndedName,
    ),
    (
        "starjob 1\nvector x 1 values 1\nunregister x\ntask scale(2) x:RW\n",
        4,
        Reason::EndedName,
    ),
    (
        "starjob 1\nvector x 1 none\nvector x 1 none\n",
        3,
        Reason::TakenName,
    ),
    (
        "starjob 1\nvector x 1 values 1\ntask cube x:RW\n",
        3,
        Reason::UnknownCodelet,
    ),
    (
        "starjob 1\nvector x 1 values 1\ntask load x:W\n",
        3,
        Reason::UnknownCodelet,
    ),
    (
        "starjob 1\nvector x 1 values 1\ntask scale x:RW\n",
        3,
        Reason::OperandCount,
    ),
    ("starjob 1\ntask add\n", 2, Reason::OperandCount),
    (
        "starjob 1\nvector x 1 values 1\ntask gemm3 x:R x:R x:R x:R x:R x:R\n",
        3,
        Reason::OperandCount,
    ),
    ("starjob 1\nvector x 2 values 1 2 3\n", 2, Reason::Shape),
    (
        "starjob 1\nvector x 1 values 1\ntask scale(2) x:W\n",
        3,
        Reason::Shape,
    ),
    (
        "starjob 1\nvector x 1 values 1\ntask fill(0,1) x:SCRATCH\n",
        3,
        Reason::Shape,
    ),
    (
        "starjob 1\nvector x 1 values 1\nvector y 2 values 1 2\ntask add x:R y:RW\n",
        4,
        Reason::Shape,
    ),
    (
        "starjob 1\nvector x 1 values 1\ntask add x:R x:RW\n",
        3,
        Reason::Aliased,
    ),
    (
        "starjob 1\nmatrix x 1 1 fill 1 1\nvector y 1 none\ntask gemm3 x:R x:R x:R y:SCRATCH y:RW\n",
        4,
        Reason::Aliased,
    ),
    ("starjob 1\nvector x 1 none\nprint x\n", 3, Reason::NoValue),
    (
        "starjob 1\nvector x 2 values 1 2\ninvalidate x\nprint x\n",
        4,
        Reason::NoValue,
    ),
    (
        "starjob 1\nvector x 1 none\ntask scale(2) x:RW\n",
        3,
        Reason::NoValue,
    ),
    (
        "starjob 1\nvector x 1 none\nvector y 1 none\ntask copy x:R y:W\n",
        4,
        Reason::NoValue,
    ),
];

/// Two reasons hold, and the first of the order is given.
const FIRST_OF_TWO: [Refused; 20] = [
    ("vecter x 2 none\n", 1, Reason::Header),
    ("starjob 1\nvector 1x b none\n", 2, Reason::Word),
    ("starjob 1\nworkers b\n", 2, Reason::Number),
    ("starjob 1\ntask cube x:COMMUTE\n", 2, Reason::UnknownName),
    (
        "starjob 1\ntask scale(2) x:RW prio=1001\n",
        2,
        Reason::Limit(LimitKind::Priority),
    ),
    (
        "starjob 1\nvector x 1 none\nvector x 0 none\n",
        3,
        Reason::Limit(LimitKind::Elements),
    ),
    (
        "starjob 1\nvector x 1 none\nunregister x\ntask add x:R y:RW\n",
        4,
        Reason::UnknownName,
    ),
    ("starjob 1\ntask cube x:RW\n", 2, Reason::UnknownName),
    (
        "starjob 1\nvector x 1 none\nunregister x\ntask cube x:RW\n",
        4,
        Reason::EndedName,
    ),
    (
        "starjob 1\nvector x 1 none\nunregister x\nvector x 2 values 1\n",
        4,
        Reason::EndedName,
    ),
    (
        "starjob 1\nvector x 1 none\nvector x 2 values 1\n",
        3,
        Reason::TakenName,
    ),
    (
        "starjob 1\nvector x 1 values 1\ntask cube(1)\n",
        3,
        Reason::UnknownCodelet,
    ),
    (
        "starjob 1\nvector x 1 values 1\ntask scale x:W\n",
        3,
        Reason::OperandCount,
    ),
    (
        "starjob 1\nvector x 1 none\ntask add x:R x:RW x:RW\n",
        3,
        Reason::OperandCount,
    ),
    (
        "starjob 1\nvector x 1 values 1\ntask add x:RW x:RW\n",
        3,
        Reason::Shape,
    ),
    (
        "starjob 1\nvector x 1 none\nvector y 2 none\ntask add x:R y:RW\n",
        4,
        Reason::Shape,
    ),
    (
        "starjob 1\nvector x 1 none\ntask add x:R x:RW\n",
        3,
        Reason::Aliased,
    ),
    (
        "starjob 1\nvector x 1 values 1\n# \x01\nprint \x01\nprint y\n",
        4,
        Reason::Word,
    ),
    ("starjob 1\nprint y\nvecter\n", 2, Reason::UnknownName),
    ("starjob \x01\n", 1, Reason::Header),
];

/// Each text is refused at its line for its reason.
pub fn are_refused(rt: &impl Abort, alloc: Global, cases: &[Refused]) {
    for (text, line, reason) in cases {
        let wanted = ReadRefusal::Refused {
            line: Line(*line),
            reason: *reason,
        };
        assert_eq!(rt; gives(alloc, text.as_bytes()), Err(wanted), "{text}");
    }
}

#[test]
fn each_reason_is_given_alone(rt: HostRuntime) {
    are_refused(&rt, rt.alloc(), &ALONE);
}

#[test]
fn the_first_of_two_reasons_is_given(rt: HostRuntime) {
    are_refused(&rt, rt.alloc(), &FIRST_OF_TWO);
}

/// Texts without a reason, and how many statements each has.
const ACCEPTED: [(&str, usize); 14] = [
    ("starjob 1", 0),
    ("# no statement\n\nstarjob 1\n", 0),
    ("starjob 1\nvector x 1048576 none\n", 1),
    ("starjob 1\nmatrix x 4096 4096 fill 0 1\n", 1),
    ("starjob 1\nmatrix x 1048576 16 none\n", 1),
    ("starjob 1\nmatrix x 2 2 values 1 2 inf -4\nprint x\n", 2),
    (
        "starjob 1\nvector x 1 fill 1 1\ntask scale(2) x:RW prio=1000\ntask scale(2) x:RW prio=-1000\n",
        3,
    ),
    (
        "starjob 1\nvector x 1 none\ntask fill(0,1) x:W\nprint x\n",
        3,
    ),
    (
        "starjob 1\nvector x 1 none\ninvalidate x\ninvalidate x\n",
        3,
    ),
    (
        "starjob 1\nvector x 1 values 1\ninvalidate x\ntask fill(0,1) x:W\ntask scale(2) x:RW\nprint x\n",
        5,
    ),
    (
        "starjob 1\nvector x 1 values 1\nunregister x\nvector y 1 values 1\nprint y\n",
        4,
    ),
    (
        "starjob 1\nmatrix a 2 2 fill 0 1\nmatrix c 2 2 none\ntask transpose a:R c:W\nprint c\n",
        4,
    ),
    (
        "starjob 1\nmatrix a 2 2 fill 0 1\nmatrix t 2 2 none\nmatrix c 2 2 fill 0 0\ntask gemm3 a:R a:R a:R t:SCRATCH c:RW\nprint c\n",
        5,
    ),
    (
        "starjob 1\nvector x 1 values 1\nvector s 1 values 0\ntask dot x:R x:R s:RW\n",
        3,
    ),
];

#[test]
fn texts_without_a_reason_are_read(rt: HostRuntime) {
    let alloc = rt.alloc();
    for (text, statements) in ACCEPTED {
        assert_eq!(rt; gives(alloc, text.as_bytes()), Ok(statements), "{text}");
    }
}

/// Appends a line so many times.
fn repeat(text: &mut Vec<u8>, line: &str, times: usize) -> Result<(), Fail> {
    for _ in 0..times {
        text.extend_from_slice(line.as_bytes())?;
    }
    Ok(())
}

#[test]
fn the_statement_behind_the_limit_is_the_first_refused(rt: HostRuntime) -> Result<(), Fail> {
    let alloc = rt.alloc();
    let mut text = Vec::from_slice(alloc, b"starjob 1\nvector x 1 values 1\n")?;
    repeat(&mut text, "print x\n", 262_143)?;
    text.extend_from_slice(b"vector x 0 values 1\n")?;
    let wanted = ReadRefusal::Refused {
        line: Line(262_146),
        reason: Reason::Limit(LimitKind::Statements),
    };
    assert_eq!(rt; gives(alloc, &text), Err(wanted));
    Ok(())
}

/// Appends `vector nI ..`, and more for each registration below this one.
fn registrations(alloc: Global, count: u32, more: &str) -> Result<Vec<u8>, Fail> {
    let mut text = Vec::from_slice(alloc, b"starjob 1\n")?;
    for i in 0..count {
        let line = format!(in alloc; "vector n{i} 1 values 1\n{more} n{i}\n")?;
        text.extend_from_slice(line.as_bytes())?;
    }
    Ok(text)
}

#[test]
fn as_many_names_as_the_limit_are_registered_and_no_more(rt: HostRuntime) -> Result<(), Fail> {
    let alloc = rt.alloc();
    for more in ["print", "unregister"] {
        let text = registrations(alloc, 4_096, more)?;
        assert_eq!(rt; gives(alloc, &text), Ok(8_192usize), "{more}");

        let text = registrations(alloc, 4_097, more)?;
        let wanted = ReadRefusal::Refused {
            line: Line(8_194),
            reason: Reason::Limit(LimitKind::Names),
        };
        assert_eq!(rt; gives(alloc, &text), Err(wanted), "{more}");
    }
    Ok(())
}

#[test]
fn a_text_above_the_limit_is_refused_at_line_0(rt: HostRuntime) -> Result<(), Fail> {
    let alloc = rt.alloc();
    let text = vec![in alloc; b'#'; 67_108_865]?;
    let wanted = ReadRefusal::Refused {
        line: Line(0),
        reason: Reason::Limit(LimitKind::Text),
    };
    assert_eq!(rt; gives(alloc, &text), Err(wanted));
    Ok(())
}
