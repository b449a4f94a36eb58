//! Want of memory is tied to no cause, so each call that may answer it is tried with ample memory.

use sj_base::memory::OutOfMemory;
use sj_base::program::Codelet;
use sj_base::tile::{Dims, Tile};
use sj_codelet::formal::{Formal, Shape};
use sj_codelet::frame::Frame;
use sj_codelet::kernel::{ADD, Kernel, PASTE};
use sj_codelet::set::Codelets;
use std::alloc::Global;
use std::sync::Arc;

/// The codelets whose runs on one array don't change places. It runs none of them.
struct InOrder;

impl Codelets for InOrder {
    ghost use Rattle.low_tests.specs.InOrder.{keeps_order, none_commutes, none_contributes, no_reduction};

    ghost has = { keeps_order };

    ghost commuting = { none_commutes };

    ghost contributing = { none_contributes };

    ghost reducing = { no_reduction };

    fn knows(&self, kernel: Kernel) -> bool {
        !kernel.commutes()
    }

    fn run(
        &self,
        _alloc: Global,
        _id: Codelet,
        _args: &[i64],
        _frame: &mut Frame,
    ) -> Result<(), OutOfMemory> {
        Err(OutOfMemory)
    }
}

#[test]
fn a_frame_has_room_for_as_many_operands_as_it_was_made_for(
    rt: HostRuntime,
) -> Result<(), OutOfMemory> {
    let alloc = rt.alloc();
    let dims = Dims { rows: 1, cols: 2 };
    let mut frame = Frame::with_room(alloc, 2)?;
    assert!(rt; frame.is_empty());
    frame.push_shared(Arc::new(alloc, Tile::of(dims, vec![in alloc; 1i64, 2]?))?);
    frame.push_own(Tile::of(dims, vec![in alloc; 3i64, 4]?));
    assert_eq!(rt; frame.len(), 2);
    assert_eq!(rt; frame.tile(0).elements(), [1i64, 2].as_slice());
    assert_eq!(rt; frame.take_own().elements(), [3i64, 4].as_slice());
    assert_eq!(rt; frame.len(), 1);
    Ok(())
}

#[test]
fn a_codelet_tells_its_shape(rt: HostRuntime) -> Result<(), OutOfMemory> {
    let shape = Kernel::GemmThree.shape(rt.alloc())?;
    let formals = [Formal::R, Formal::R, Formal::R, Formal::Scratch, Formal::RW];
    assert_eq!(rt; shape.args, 0);
    assert_eq!(rt; shape.formals.items(), formals.as_slice());
    Ok(())
}

#[test]
fn a_set_tells_the_shapes_of_its_codelets_alone(rt: HostRuntime) -> Result<(), OutOfMemory> {
    let alloc = rt.alloc();
    let Some(Shape { args, formals }) = InOrder.shape(alloc, PASTE)? else {
        panic!(rt; "the set has paste")
    };
    assert_eq!(rt; args, 6);
    assert_eq!(rt; formals.items(), [Formal::R, Formal::RW].as_slice());
    assert!(rt; InOrder.shape(alloc, ADD)?.is_none());
    assert!(rt; InOrder.shape(alloc, Codelet(22))?.is_none());
    Ok(())
}
