//! Whole jobs on streams that give and take few bytes a call, and that refuse one.

ghost use Rattle.std.specs.Prelude.{None};

use crate::test_calls::{SUM, bytes, call, calls, same};
use crate::tests_of_trouble::{SCALED, SCALED_OUT};
use sj_base::ids::Line;
use sj_edge::memory_sink::MemSink;
use sj_edge::memory_source::MemSource;
use sj_edge::sink::Sink;
use sj_edge::source::{Failed, Source};
use sj_job::reason::Reason;
use sj_top::status::Status;
use std::alloc::Global;
use std::process::Abort;
use std::sync::Wait;
use std::test::Fail;
use std::thread::Threads;

/// Gives so many bytes a call at most.
#[derive(Drop)]
struct PieceSource {
    inner: MemSource,
    most: usize,
}

impl Source for PieceSource {
    ghost left = { λ _. None };

    ghost faults = { λ s. s.inner.called.faults };

    fn read(&mut self, buf: &mut [u8]) -> Result<usize, Failed> {
        let count = buf.len().min(self.most);
        self.inner.read(&mut buf[..count])
    }
}

/// Takes so many bytes a call at most, and one at least.
#[derive(Drop)]
struct PieceSink {
    inner: MemSink,
    most: usize,
}

impl Sink for PieceSink {
    ghost taken = { λ _. None };

    ghost faults = { λ s. s.inner.called.faults };

    fn write(&mut self, bytes: &[u8]) -> Result<usize, Failed> {
        let count = bytes.len().min(self.most.max(1));
        self.inner.write(&bytes[..count])
    }
}

/// What ended where devices refuse calls.
#[derive(Drop)]
struct PieceCall {
    status: Status,
    out: MemSink,
    err: MemSink,
}

/// The numbers of the calls that source, `out` and `err` refuse, 0 for none; and how many bytes source gives and `out` takes at
/// most, in one call.
#[derive(Clone, Copy, Debug, PartialEq, Eq)]
struct Refused {
    source: u64,
    out: u64,
    err: u64,
    most: usize,
}

/// A sink that takes so many bytes a call, and refuses this one.
fn piece_sink(alloc: Global, refused: u64, most: usize) -> Result<PieceSink, Fail> {
    let inner = MemSink::new(alloc, 1000, calls(alloc, &[refused])?)?;
    Ok(PieceSink { inner, most })
}

/// Runs a job on such devices. `err` takes one byte a call.
fn call_by_pieces<R: Threads + Wait + Sync>(
    rt: &R,
    alloc: Global,
    text: &str,
    refused: Refused,
) -> Result<PieceCall, Fail> {
    let inner = MemSource::new(bytes(alloc, text)?, calls(alloc, &[refused.source])?);
    let mut source = PieceSource {
        inner,
        most: refused.most,
    };
    let mut out = piece_sink(alloc, refused.out, refused.most)?;
    let mut err = piece_sink(alloc, refused.err, 1)?;
    let outcome = call(rt, alloc, &mut source, &mut out, &mut err)?;
    Ok(PieceCall {
        status: outcome.status,
        out: out.inner,
        err: err.inner,
    })
}

/// As many first bytes of a text as a sink takes that takes so many a call and refuses the call with this number.
fn front(text: &str, refused: u64, most: usize) -> &[u8] {
    let bytes = text.as_bytes();
    if refused == 0 {
        return bytes;
    }
    let taken = (refused as usize - 1).saturating_mul(most);
    &bytes[..taken.min(bytes.len())]
}

/// How many pieces of so many bytes a text has.
fn pieces(text: &str, most: usize) -> u64 {
    text.len().div_ceil(most.max(1)) as u64
}

/// The status and both outputs of such a call.
fn ends<R: Threads + Wait + Abort + Sync>(
    rt: &R,
    alloc: Global,
    text: &str,
    refused: Refused,
    status: Status,
    (out, err): (&str, &str),
) -> Result<(), Fail> {
    let ended = call_by_pieces(rt, alloc, text, refused)?;
    assert_eq!(rt; ended.status, status, "{refused:?}");
    assert_eq!(rt;
        ended.out.taken(),
        front(out, refused.out, refused.most),
        "{refused:?}"
    );
    assert_eq!(rt;
        ended.err.taken(),
        front(err, refused.err, 1),
        "{refused:?}"
    );
    Ok(())
}

/// What a `SUM` prints.
const PRINTED: &str = "y: 11 22 33\n";

/// An array is printed before and behind its scaling.
const TWO_PRINTS: &str = "starjob 1\nvector x 2 values 1 2\nprint x\ntask scale(5) x:RW\nprint x\n";

/// What it prints.
const TWICE_PRINTED: &str = "x: 1 2\nx: 5 10\n";

/// Jobs by one worker and by four, and what they print.
const JOBS: [(&str, &str); 6] = [
    (SUM, PRINTED),
    (
        "starjob 1\nworkers 4\nvector x 3 values 1 2 3\nvector y 3 values 10 20 30\ntask add x:R y:RW\nprint y\n",
        PRINTED,
    ),
    (SCALED, SCALED_OUT),
    (
        "starjob 1\nworkers 4\nnode 64\nvector a 3 values 1 2 3\nvector b 3 values 4 5 6\nvector c 3 values 7 8 9\ntask scale(2) a:RW\ntask scale(3) b:RW\ntask scale(5) c:RW\nprint a\n",
        SCALED_OUT,
    ),
    (TWO_PRINTS, TWICE_PRINTED),
    (
        "starjob 1\nworkers 4\nvector x 2 values 1 2\nprint x\ntask scale(5) x:RW\nprint x\n",
        TWICE_PRINTED,
    ),
];

/// Each call of a source that gives so many bytes is refused in turn. It is called once more for its end.
fn source_is_at_fault<R: Threads + Wait + Abort + Sync>(
    rt: &R,
    alloc: Global,
    text: &str,
    printed: &str,
    most: usize,
) -> Result<(), Fail> {
    let reads = pieces(text, most).saturating_add(1);
    for source in 0..reads.saturating_add(3) {
        let refused = Refused {
            source,
            out: 0,
            err: source % 30,
            most,
        };
        if (1..=reads).contains(&source) {
            let said = ("", "starjob: reading failed\n");
            ends(rt, alloc, text, refused, Status::SourceFault, said)?;
        } else {
            ends(rt, alloc, text, refused, Status::Done, (printed, ""))?;
        }
    }
    Ok(())
}

/// Each call of an `out` that takes so many bytes is refused in turn.
fn out_is_at_fault<R: Threads + Wait + Abort + Sync>(
    rt: &R,
    alloc: Global,
    text: &str,
    printed: &str,
    most: usize,
) -> Result<(), Fail> {
    let writes = pieces(printed, most);
    for out in 1..writes.saturating_add(3) {
        let refused = Refused {
            source: 0,
            out,
            err: out % 5,
            most,
        };
        if out <= writes {
            let said = (printed, "starjob: writing failed\n");
            ends(rt, alloc, text, refused, Status::SinkFault, said)?;
        } else {
            ends(rt, alloc, text, refused, Status::Done, (printed, ""))?;
        }
    }
    Ok(())
}

#[test]
fn each_call_that_a_source_refuses_is_its_fault(rt: HostRuntime) -> Result<(), Fail> {
    source_is_at_fault(&rt, rt.alloc(), SUM, PRINTED, 1)?;
    for (text, printed) in &JOBS {
        source_is_at_fault(&rt, rt.alloc(), text, printed, 4)?;
    }
    Ok(())
}

#[test]
fn each_call_that_an_out_refuses_is_its_fault(rt: HostRuntime) -> Result<(), Fail> {
    for (text, printed) in &JOBS {
        for most in [1, 4, 100] {
            out_is_at_fault(&rt, rt.alloc(), text, printed, most)?;
        }
    }
    Ok(())
}

#[test]
fn an_err_that_fails_changes_no_answer(rt: HostRuntime) -> Result<(), Fail> {
    let said = "starjob: line 2: unknown name\n";
    let status = Status::Refused {
        line: Line(2),
        reason: Reason::UnknownName,
    };
    for err in 0..said.len() as u64 + 2 {
        let refused = Refused {
            source: 0,
            out: 0,
            err,
            most: 1,
        };
        let text = "starjob 1\nprint x\n";
        ends(&rt, rt.alloc(), text, refused, status, ("", said))?;
    }
    Ok(())
}

/// A `SUM` behind a comment of so many bytes.
fn commented_sum(alloc: Global, many: usize) -> Result<Vec<u8>, Fail> {
    let mut text = vec![in alloc; b'#'; many]?;
    text.push(b'\n')?;
    text.extend_from_slice(SUM.as_bytes())?;
    Ok(text)
}

#[test]
fn a_text_that_comes_in_pieces_says_the_same(rt: HostRuntime) -> Result<(), Fail> {
    let alloc = rt.alloc();
    for most in [2, 7, 40, 4_095, 65_535, 65_537] {
        let inner = MemSource::new(commented_sum(alloc, 150_000)?, Vec::new(alloc));
        let mut source = PieceSource { inner, most };
        let mut out = MemSink::new(alloc, 1000, Vec::new(alloc))?;
        let mut err = MemSink::new(alloc, 1000, Vec::new(alloc))?;
        let outcome = call(&rt, alloc, &mut source, &mut out, &mut err)?;
        same(&rt, (most, outcome.status), (most, Status::Done));
        same(&rt, out.taken(), b"y: 11 22 33\n".as_slice());
    }
    Ok(())
}
