//! Texts cut off, and texts with another byte: each is read to a canonical text that says itself, or refused at one of its lines.

use sj_base::ids::Line;
use sj_job::reason::ReadRefusal;
use sj_judge::showing::job_shown;
use std::alloc::Global;
use std::process::Abort;
use std::test::Fail;

/// A matrix under two plans, with a task between them.
const PLANS: &[u8] = b"starjob 1\n\
    matrix A 5 2 fill 0 1\n\
    plan A 2 1\n\
    task scale(10) A[1,0]:RW\n\
    plan A 3 1\n\
    print A\n";

/// Its canonical text.
const PLANS_SAID: &[u8] = b"starjob 1\n\
    workers 1\n\
    node 268435456\n\
    policy eager\n\
    matrix A 5 2 fill 0 1\n\
    plan A 2 1\n\
    task scale(10) A[1,0]:RW\n\
    plan A 3 1\n\
    print A\n";

/// A line of each kind that has none there.
const KINDS: &[u8] = b"# kinds\n\
    starjob 1\n\
    workers 2\n\
    node 64\n\
    node 072\n\
    policy prio\n\
    vector x 4 by 1 2 values 1 -2 inf 4\n\
    vector s 1 none\n\
    redux s plus\n\
    task dot x[0,0]:R x[0,1]:R s:REDUX prio=-3\n\
    print s\n\
    invalidate x\n\
    unregister x\n";

/// Bytes of each kind that a line's grammar tells apart, and some that no line has.
const OTHERS: &[u8] = b"\0\t\n\r #(,-09:=[]x\x7f\x80\xff";

#[test]
fn a_job_over_plans_says_all_settings(rt: HostRuntime) -> Result<(), ReadRefusal> {
    let said = job_shown(rt.alloc(), PLANS)?;
    assert_eq!(rt; said.as_slice(), PLANS_SAID);
    Ok(())
}

/// The number of the line behind the last one.
fn line_behind(text: &[u8]) -> u32 {
    let mut line = 1u32;
    for byte in text {
        line = line.saturating_add((*byte == b'\n') as u32);
    }
    let is_ended = text.last() == Some(&b'\n');
    line.saturating_add(!is_ended as u32)
}

/// The canonical text of a text is its own, or a line of the text, or the one behind it, is refused.
fn is_answered<R: Abort>(rt: &R, alloc: Global, text: &[u8]) -> Result<(), ReadRefusal> {
    match job_shown(alloc, text) {
        Ok(said) => {
            let again = job_shown(alloc, &said)?;
            assert_eq!(rt; again.as_slice(), said.as_slice());
        }
        Err(
            ReadRefusal::Refused {
                line: Line(line),
                ..
            },
        ) => {
            assert!(rt; line > 0 && line <= line_behind(text));
        }
        Err(ReadRefusal::OutOfMemory) => return Err(ReadRefusal::OutOfMemory),
    }
    Ok(())
}

/// The same of each text up to one of its bytes.
fn prefixes_are_answered<R: Abort>(rt: &R, alloc: Global, text: &[u8]) -> Result<(), ReadRefusal> {
    for end in 0..text.len() {
        is_answered(rt, alloc, &text[..end])?;
    }
    Ok(())
}

#[test]
fn each_text_cut_off_is_read_or_refused(rt: HostRuntime) -> Result<(), ReadRefusal> {
    prefixes_are_answered(&rt, rt.alloc(), PLANS)?;
    prefixes_are_answered(&rt, rt.alloc(), KINDS)
}

/// Puts a byte in place of one of a text's.
fn put(text: &mut [u8], at: usize, byte: u8) {
    if let Some(place) = text.get_mut(at) {
        *place = byte;
    }
}

/// The same with each of the others in place of one byte.
fn others_are_answered<R: Abort>(
    rt: &R,
    alloc: Global,
    text: &mut [u8],
    at: usize,
) -> Result<(), ReadRefusal> {
    for other in OTHERS {
        put(text, at, *other);
        is_answered(rt, alloc, text)?;
    }
    Ok(())
}

#[test]
fn each_text_with_another_byte_is_read_or_refused(rt: HostRuntime) -> Result<(), Fail> {
    let alloc = rt.alloc();
    let mut text = KINDS.to_vec(alloc)?;
    for (at, byte) in KINDS.iter().enumerate() {
        others_are_answered(&rt, alloc, &mut text, at)?;
        put(&mut text, at, *byte);
    }
    Ok(())
}
