//! The text of a trace, reading it, and that memory suffices for both.

ghost use Rattle.std.specs.Prelude.{◌<◌, ◌^◌, length};
ghost use Rattle.sj_trace.specs.Text.{whole_lines};

use sj_base::ids::{Cell, DiskNo, Line, Node, Place, Task, Worker};
use sj_base::memory::OutOfMemory;
use sj_base::trace::{Event, Trace};
use sj_trace::read::{TraceRefusal, read_trace};
use sj_trace::text::text;
use std::alloc::Global;

#[test]
fn a_trace_has_a_line_for_each_event(rt: HostRuntime) -> Result<(), OutOfMemory> {
    let (node, disk) = (Place::Node(Node(0)), Place::Disk(DiskNo(2)));
    let mut trace = Trace::empty(rt.alloc());
    trace.reserve(6)?;
    trace.add(Event::Claim(Task(10), Worker(1)));
    trace.add(Event::Move(Cell(7), node, disk));
    trace.add(Event::Moved(Cell(7), node, disk));
    trace.add(Event::Drop(Cell(7), Node(0)));
    trace.add(Event::Run(Task(10), Worker(1)));
    trace.add(Event::End(Task(10), Worker(1)));
    let lines =
        b"claim t10 w1\nmove c7 n0 d2\nmoved c7 n0 d2\ndrop c7 n0\nrun t10 w1\nend t10 w1\n";
    let written = text(rt.alloc(), &trace)?;
    assert_eq!(rt; written.as_slice(), lines.as_slice());
    Ok(())
}

#[test]
fn the_trace_of_a_run_out_of_core_is_read_back(rt: HostRuntime) -> Result<(), TraceRefusal> {
    let run = b"claim t0 w0\nrun t0 w0\nend t0 w0\nclaim t1 w0\nrun t1 w0\nend t1 w0\nclaim t2 w0\n\
        move c0 n0 d0\nmoved c0 n0 d0\ndrop c0 n0\nrun t2 w0\nend t2 w0\nclaim t3 w0\nmove c1 n0 d0\n\
        moved c1 n0 d0\ndrop c1 n0\nmove c0 d0 n0\nmoved c0 d0 n0\nrun t3 w0\nend t3 w0\n";
    let trace = read_trace(rt.alloc(), run)?;
    assert_eq!(rt; trace.len(), 20);
    let written = text(rt.alloc(), &trace)?;
    assert_eq!(rt; written.as_slice(), run.as_slice());
    Ok(())
}

/// The first bad line of a text, 0 where there is none.
fn bad_line(alloc: Global, text: &[u8]) -> Result<u32, OutOfMemory>
    requires { length (whole_lines text.now) < 2 ^ 32 }
{
    match read_trace(alloc, text) {
        Ok(_) => Ok(0),
        Err(TraceRefusal::BadLine { line: Line(number) }) => Ok(number),
        Err(TraceRefusal::OutOfMemory) => Err(OutOfMemory),
    }
}

#[test]
fn the_first_line_that_is_no_event_is_told(rt: HostRuntime) -> Result<(), OutOfMemory> {
    assert_eq!(rt; bad_line(rt.alloc(), b"run t0 w255\nend t0 w255\n")?, 0);
    assert_eq!(rt;
        bad_line(rt.alloc(), b"run t0 w0\nend t01 w0\nrun t1 w0\n\n")?,
        2
    );
    assert_eq!(rt; bad_line(rt.alloc(), b"run t0 w0\nend t0 w0")?, 2);
    assert_eq!(rt; bad_line(rt.alloc(), b"run  t0 w0\n")?, 1);
    assert_eq!(rt;
        bad_line(rt.alloc(), b"run t0 w0\nend t0 w0\ndrop c1 n256\n")?,
        3
    );
    assert_eq!(rt; bad_line(rt.alloc(), b"move c4294967296 n0 d0\n")?, 1);
    assert_eq!(rt; bad_line(rt.alloc(), b"claim t+1 w0\n")?, 1);
    assert_eq!(rt; bad_line(rt.alloc(), b"claim t1 w0\r\n")?, 1);
    Ok(())
}
