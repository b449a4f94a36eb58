//! The trace of a job with evictions, whole and changed.

use sj_base::ids::Line;
use sj_base::memory::OutOfMemory;
use sj_check::check::CheckRefusal;
use sj_job::reason::Reason;
use sj_judge::judging::judged;
use sj_judge::lines::line;
use sj_judge::refusal::JudgeRefusal;
use sj_needs::shortage::Shortage;
use sj_ready::input::Input;
use sj_ready::unready::Unready;
use sj_trace::read::TraceRefusal;
use sj_words::read_words;
use std::alloc::Global;

/// Three vectors on a node that holds two.
const JOB: &[u8] = b"starjob 1\n\
    node 64\n\
    vector a 3 values 1 2 3\n\
    vector b 3 values 4 5 6\n\
    vector c 3 values 7 8 9\n\
    print a\n";

/// The same for three workers.
const JOB_OF_THREE: &[u8] = b"starjob 1\n\
    workers 3\n\
    node 64\n\
    vector a 3 values 1 2 3\n\
    vector b 3 values 4 5 6\n\
    vector c 3 values 7 8 9\n\
    print a\n";

/// The events of the job's run by one worker, 20 of them.
const TRACE: &[u8] = b"claim t0 w0\nrun t0 w0\nend t0 w0\n\
    claim t1 w0\nrun t1 w0\nend t1 w0\n\
    claim t2 w0\nmove c0 n0 d0\nmoved c0 n0 d0\ndrop c0 n0\nrun t2 w0\nend t2 w0\n\
    claim t3 w0\nmove c1 n0 d0\nmoved c1 n0 d0\ndrop c1 n0\n\
    move c0 d0 n0\nmoved c0 d0 n0\nrun t3 w0\nend t3 w0\n";

/// The trace where a line stands so many times.
fn with_line(alloc: Global, at: usize, times: usize) -> Result<Vec<u8>, OutOfMemory> {
    let mut text = Vec::new(alloc);
    for (i, line) in TRACE.split(|byte| *byte == b'\n').enumerate() {
        let count = if i == at { times } else { 1 };
        for _k in 0..count {
            if !line.is_empty() {
                text.extend_from_slice(line)?;
                text.push(b'\n')?;
            }
        }
    }
    Ok(text)
}

/// A trace of 20 lines where another stands for one.
fn replaced(alloc: Global, trace: &[u8], at: u64, other: &[u8]) -> Result<Vec<u8>, OutOfMemory> {
    let mut text = Vec::new(alloc);
    for i in 0..20u64 {
        let own = if i == at { other } else { line(trace, i) };
        text.extend_from_slice(own)?;
        text.push(b'\n')?;
    }
    Ok(text)
}

/// What a trace of a job comes to on a disk of 1,000 bytes, with no words.
fn said_of(alloc: Global, job: &[u8], trace: &[u8]) -> Option<Result<(), JudgeRefusal>> {
    let options = read_words(alloc, &[]).ok()?;
    let text = job.to_vec(alloc).ok()?;
    Some(judged(alloc, &options, 1_000, Input::Text(text), trace))
}

#[test]
fn a_whole_run_is_legal_and_complete(rt: HostRuntime) {
    assert!(rt; said_of(rt.alloc(), JOB, TRACE) == Some(Ok(())));
}

#[test]
fn a_front_of_it_is_not_complete(rt: HostRuntime) -> Result<(), OutOfMemory> {
    let front = with_line(rt.alloc(), 19, 0)?;
    assert!(rt;
        said_of(rt.alloc(), JOB, &front) == Some(Err(JudgeRefusal::Wrong(CheckRefusal::Unfinished)))
    );
    Ok(())
}

#[test]
fn the_first_event_that_is_not_legal_is_named(rt: HostRuntime) -> Result<(), OutOfMemory> {
    let alloc = rt.alloc();
    for i in 0..19u64 {
        let without = with_line(alloc, i as usize, 0)?;
        assert!(rt;
            said_of(alloc, JOB, &without)
                == Some(Err(JudgeRefusal::Wrong(CheckRefusal::BadEvent { index: i })))
        );
        let doubled = with_line(alloc, i as usize, 2)?;
        assert!(rt;
            said_of(alloc, JOB, &doubled)
                == Some(Err(JudgeRefusal::Wrong(CheckRefusal::BadEvent { index: i + 1 })))
        );
    }
    Ok(())
}

#[test]
fn a_line_that_is_no_event_is_not_read(rt: HostRuntime) {
    let said = said_of(rt.alloc(), JOB, b"claim t0 w0\nclaim t0\n");
    assert!(rt; said == Some(Err(JudgeRefusal::Unread(TraceRefusal::BadLine { line: Line(2) }))));
}

#[test]
fn a_job_that_can_not_be_run_is_named(rt: HostRuntime) {
    let alloc = rt.alloc();
    let refused = said_of(alloc, b"starjob 2\n", TRACE);
    assert!(rt;
        refused
            == Some(Err(JudgeRefusal::Unready(Unready::Refused {
                line: Line(1),
                reason: Reason::Header
            })))
    );
    let large = said_of(alloc, b"starjob 1\nnode 16\nvector a 3 fill 7 0\n", TRACE);
    assert!(rt;
        large
            == Some(Err(JudgeRefusal::Unready(Unready::Short(Shortage::TooLarge {
                line: Line(3),
                bytes: 24
            }))))
    );
    let swapped = said_of(alloc, b"starjob 1\nvector a 200 fill 7 0\n", TRACE);
    assert!(rt;
        matches!(
            swapped,
            Some(Err(JudgeRefusal::Unready(Unready::Short(Shortage::SwapTooSmall {
                have: 1_000,
                ..
            }))))
        )
    );
}

#[test]
fn of_two_neighbours_exchanged_the_first_is_named(rt: HostRuntime) -> Result<(), OutOfMemory> {
    let alloc = rt.alloc();
    for i in 0..19u64 {
        let later_twice = replaced(alloc, TRACE, i, line(TRACE, i + 1))?;
        let exchanged = replaced(alloc, &later_twice, i + 1, line(TRACE, i))?;
        let said = said_of(alloc, JOB, &exchanged);
        assert!(rt; said == Some(Err(JudgeRefusal::Wrong(CheckRefusal::BadEvent { index: i }))));
    }
    Ok(())
}

#[test]
fn an_event_with_a_number_of_nothing_is_named(rt: HostRuntime) -> Result<(), OutOfMemory> {
    let alloc = rt.alloc();
    for (index, other) in [
        (0, "claim t9 w0"),
        (0, "claim t0 w9"),
        (7, "move c9 n0 d0"),
        (7, "move c0 n9 d0"),
        (7, "move c0 n0 d9"),
        (8, "moved c9 n0 d0"),
        (8, "moved c0 n9 d0"),
        (8, "moved c0 n0 d9"),
        (9, "drop c9 n0"),
        (9, "drop c0 n9"),
        (10, "run t9 w0"),
        (10, "run t2 w9"),
        (11, "end t9 w0"),
        (11, "end t2 w9"),
        (16, "move c0 d9 n0"),
        (16, "move c0 d0 n9"),
    ] {
        let text = replaced(alloc, TRACE, index, other.as_bytes())?;
        let said = said_of(alloc, JOB, &text);
        assert!(rt;
            said == Some(Err(JudgeRefusal::Wrong(CheckRefusal::BadEvent { index }))),
            "{other}"
        );
    }
    Ok(())
}

#[test]
fn a_claim_without_room_is_named(rt: HostRuntime) {
    let alloc = rt.alloc();
    let two = said_of(alloc, JOB_OF_THREE, b"claim t0 w0\nclaim t1 w1\n");
    assert!(rt; two == Some(Err(JudgeRefusal::Wrong(CheckRefusal::Unfinished))));
    let three = said_of(
        alloc,
        JOB_OF_THREE,
        b"claim t0 w0\nclaim t1 w1\nclaim t2 w2\n",
    );
    assert!(rt; three == Some(Err(JudgeRefusal::Wrong(CheckRefusal::BadEvent { index: 2 }))));
}
