//! Each min-plus kernel on a task's frame: the last operand is taken out, written, and put back.

ghost use Rattle.std.specs.Prelude.{IsTrue, not};
ghost use Rattle.sj_codelet.specs.Runs.{IsReadyOf, IsRunOf};
ghost use Rattle.sj_kernels.specs.Has.{ring_has};
ghost use Rattle.sj_kernels.specs.Last.{CanWriteLast, WritesLast};

use crate::least::{init_least, lowest};
use crate::product::mingemm;
use crate::ways::{fwcol, fwdiag, fwrow};
use sj_base::tile::Tile;
use sj_codelet::frame::Frame;
use sj_codelet::kernel::Kernel;

/// Runs a codelet of min-plus on a frame.
pub(crate) fn run_kernel(kernel: Kernel, args: &[i64], frame: &mut Frame)
    requires known { IsTrue (not (ring_has kernel)) }
    requires ready { IsReadyOf kernel args.now frame.old.slots }
    ensures { IsRunOf kernel args.now frame.old frame.new }
{
    let mut last = frame.take_own();
    write_last(kernel, args, frame, &mut last);
    frame.push_own(last);
}

/// What a codelet of min-plus makes of its last operand, `last`.
fn write_last(kernel: Kernel, _args: &[i64], frame: &Frame, last: &mut Tile)
    requires known { IsTrue (not (ring_has kernel)) }
    requires ready { CanWriteLast kernel _args.now frame.now.slots last.old }
    ensures { WritesLast kernel _args.now frame.now.slots last.old last.new }
{
    let dims = last.dims();
    let y = last.elements_mut();
    match kernel {
        Kernel::Lowest => lowest(frame.tile(0).elements(), y),
        Kernel::MinGemm => {
            let (a, b) = (frame.tile(0), frame.tile(1));
            let inner = a.dims().cols;
            mingemm(a.elements(), b.elements(), y, dims.rows, inner, dims.cols)
        }
        Kernel::FwDiag => fwdiag(y, dims.rows),
        Kernel::FwRow => fwrow(frame.tile(0).elements(), y, dims.rows, dims.cols),
        Kernel::FwCol => fwcol(frame.tile(0).elements(), y, dims.cols, dims.rows),
        Kernel::InitLeast => init_least(y),
        _ => unreachable!(),
    }
}
