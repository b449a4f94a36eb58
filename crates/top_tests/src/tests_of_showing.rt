//! Jobs shown: the programs to which they are lowered, and their canonical texts.

use sj_base::ids::Line;
use sj_job::reason::{ReadRefusal, Reason};
use sj_judge::showing::{job_shown, program_shown};
use sj_ready::input::Input;
use sj_ready::unready::Unready;
use sj_words::read_words;

/// A job with numbers, indices and blanks as a person writes them.
const WRITTEN: &[u8] = b"# a job\n\
    starjob 1\n\
    \n\
    node 512\n\
    matrix A 4 4 by 2 2 fill 01 -0\n\
    \tvector x 3  values 007 -5 9223372036854775807\r\n\
    vector y 3 by 1 1 none\n\
    task copy x[0,0]:R y:W prio=0\n\
    task scale(2) A[1,0]:RW prio=-3\n\
    plan A 1 1\n\
    task scale(inf) A:RW\n\
    redux y plus\n\
    task add x:R y:REDUX\n\
    print y\n\
    invalidate x\n\
    unregister y\n";

/// Its canonical text.
const CANONICAL: &[u8] = b"starjob 1\n\
    workers 1\n\
    node 512\n\
    policy eager\n\
    matrix A 4 4 by 2 2 fill 1 0\n\
    vector x 3 values 7 -5 inf\n\
    vector y 3 none\n\
    task copy x:R y:W\n\
    task scale(2) A[1,0]:RW prio=-3\n\
    plan A 1 1\n\
    task scale(inf) A:RW\n\
    redux y plus\n\
    task add x:R y:REDUX\n\
    print y\n\
    invalidate x\n\
    unregister y\n";

#[test]
fn a_job_has_one_canonical_text(rt: HostRuntime) -> Result<(), ReadRefusal> {
    let text = job_shown(rt.alloc(), WRITTEN)?;
    assert_eq!(rt; text.as_slice(), CANONICAL);
    Ok(())
}

#[test]
fn the_text_of_a_canonical_text_is_itself(rt: HostRuntime) -> Result<(), ReadRefusal> {
    let text = job_shown(rt.alloc(), CANONICAL)?;
    assert_eq!(rt; text.as_slice(), CANONICAL);
    Ok(())
}

#[test]
fn a_bad_line_of_a_job_is_named(rt: HostRuntime) {
    let shown = job_shown(rt.alloc(), b"starjob 1\nprint x\n").err();
    let bad = ReadRefusal::Refused {
        line: Line(2),
        reason: Reason::UnknownName,
    };
    assert!(rt; shown == Some(bad));
}

#[test]
fn a_program_is_that_of_the_job(rt: HostRuntime) -> Result<(), Unready> {
    let alloc = rt.alloc();
    let job = b"starjob 1\n\
        workers 2\n\
        vector x 4 by 1 2 values 1 2 3 4\n\
        vector s 1 none\n\
        redux s plus\n\
        task sum x[0,1]:R s:REDUX prio=5\n\
        print s\n";
    let (Ok(options), Ok(job)) = (read_words(alloc, &[]), job.to_vec(alloc)) else {
        return Err(Unready::OutOfMemory);
    };
    let text = program_shown(alloc, &options, 1_000, Input::Text(job))?;
    let lines = b"workers 2\n\
        cell c0 r0 1 2\n\
        cell c1 r0 1 2\n\
        cell c2 r1 1 1 copies c3\n\
        cell c3 r1 1 1\n\
        cell c4 r1 1 1\n\
        task t0 line 3 prio 0 load(1,2) c0:W\n\
        task t1 line 3 prio 0 load(3,4) c1:W\n\
        task t2 line 6 prio 0 init_plus c3:W\n\
        task t3 line 6 prio 0 init_plus c4:W\n\
        task t4 line 6 prio 0 init_plus c2:W\n\
        task t5 line 6 prio 5 sum c1:R c2:REDUX\n\
        task t6 line 6 prio 0 add c3:R c2:RW\n\
        task t7 line 6 prio 0 add c4:R c2:RW\n\
        task t8 line 7 prio 0 deliver c2:R\n\
        delivery t8 r1 0 0 print 0\n";
    assert_eq!(rt; text.as_slice(), lines.as_slice());
    Ok(())
}
