//! Each kernel on a task's frame: what it writes is taken out, written, and put back.

ghost use Rattle.std.specs.Prelude.{IsTrue};
ghost use Rattle.sj_codelet.specs.Kernel.{formals_of};
ghost use Rattle.sj_codelet.specs.Runs.{IsReadyOf, IsRunOf};
ghost use Rattle.sj_kernels.specs.Has.{ring_has};
ghost use Rattle.sj_kernels.specs.Last.{CanWriteLast, WritesLast, writes_last_alone};

use crate::elementwise::{add, axpy, butterfly, copy, fill, scale};
use crate::placement::{loadfill, paste, transpose};
use crate::product::{gemm, gemm3};
use crate::reduction::{dot, sum};
use sj_base::tile::Tile;
use sj_codelet::frame::Frame;
use sj_codelet::kernel::Kernel;
use sj_codelet::window::Window;

/// Runs a kernel of the set on a frame.
pub(crate) fn run_kernel(kernel: Kernel, args: &[i64], frame: &mut Frame)
    requires known { IsTrue (ring_has kernel) }
    requires ready { IsReadyOf kernel args.now frame.old.slots }
    ensures { IsRunOf kernel args.now frame.old frame.new }
{
    match kernel {
        Kernel::Butterfly => run_butterfly(args, frame),
        Kernel::GemmThree => run_gemm3(args, frame),
        Kernel::Deliver => run_deliver(args, frame),
        _ => {
            let mut last = frame.take_own();
            write_last(kernel, args, frame, &mut last);
            frame.push_own(last);
        }
    }
}

/// What a kernel that writes its last operand alone, here `last`, makes of it.
fn write_last(kernel: Kernel, args: &[i64], frame: &Frame, last: &mut Tile)
    requires known { IsTrue (ring_has kernel) }
    requires alone { IsTrue (writes_last_alone (formals_of kernel)) }
    requires ready { CanWriteLast kernel args.now frame.now.slots last.old }
    ensures { WritesLast kernel args.now frame.now.slots last.old last.new }
{
    let dims = last.dims();
    let y = last.elements_mut();
    match kernel {
        Kernel::Fill => fill(args[0], args[1], y),
        Kernel::Copy => copy(frame.tile(0).elements(), y),
        Kernel::Scale => scale(args[0], y),
        Kernel::Add => add(frame.tile(0).elements(), y),
        Kernel::Axpy => axpy(args[0], frame.tile(0).elements(), y),
        Kernel::Gemm => {
            let (a, b) = (frame.tile(0), frame.tile(1));
            let inner = a.dims().cols;
            gemm(a.elements(), b.elements(), y, dims.rows, inner, dims.cols)
        }
        Kernel::Transpose => {
            let a = frame.tile(0);
            let turned = a.dims();
            transpose(a.elements(), y, turned.rows, turned.cols)
        }
        Kernel::Dot => dot(frame.tile(0).elements(), frame.tile(1).elements(), y),
        Kernel::Sum => sum(frame.tile(0).elements(), y),
        Kernel::Load => copy(args, y),
        Kernel::LoadFill => loadfill(args[0], args[1], args[2], args[3], args[4], y, dims),
        Kernel::Paste => {
            let old = frame.tile(0);
            paste(Window::of(args), old.elements(), old.dims(), y, dims)
        }
        Kernel::InitPlus => {}
        _ => unreachable!(),
    }
}

fn run_butterfly(_args: &[i64], frame: &mut Frame)
    requires { IsReadyOf Kernel.Butterfly _args.now frame.old.slots }
    ensures { IsRunOf Kernel.Butterfly _args.now frame.old frame.new }
{
    let mut y = frame.take_own();
    let mut x = frame.take_own();
    butterfly(x.elements_mut(), y.elements_mut());
    frame.push_own(x);
    frame.push_own(y);
}

fn run_gemm3(_args: &[i64], frame: &mut Frame)
    requires { IsReadyOf Kernel.GemmThree _args.now frame.old.slots }
    ensures { IsRunOf Kernel.GemmThree _args.now frame.old frame.new }
{
    let mut c = frame.take_own();
    let mut t = frame.take_own();
    let a = frame.tile(0);
    let b = frame.tile(1);
    let d = frame.tile(2);
    let dims = c.dims();
    gemm3(
        a.elements(),
        b.elements(),
        d.elements(),
        t.elements_mut(),
        c.elements_mut(),
        dims.rows,
        a.dims().cols,
        b.dims().cols,
        dims.cols,
    );
    frame.push_own(t);
    frame.push_own(c);
}

/// The tile is read, and nothing is written.
fn run_deliver(_args: &[i64], _frame: &mut Frame)
    requires { IsReadyOf Kernel.Deliver _args.now _frame.old.slots }
    ensures { IsRunOf Kernel.Deliver _args.now _frame.old _frame.new }
{}
