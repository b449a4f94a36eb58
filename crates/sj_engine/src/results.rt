//! What a task wrote, made ready to be kept.

ghost use Rattle.std.specs.Prelude.{◌≡◌, ◌≤◌, ◌<◌, ◌+◌, ◌++◌, IfOk, OnOk, length, map};
ghost use Rattle.sj_codelet.specs.Frame.{arrays, shared, written_arrays};
ghost use Rattle.sj_codelet.specs.Kernel.{formals_of};
ghost use Rattle.sj_codelet.specs.Runs.{formals_in};
ghost use Rattle.sj_codelet.specs.Slot.{slot_of};
ghost use Rattle.sj_codelet.specs.Formal.{is_output};

use sj_base::memory::OutOfMemory;
use sj_base::program::Codelet;
use sj_base::tile::Tile;
use sj_codelet::formal::Formal;
use sj_codelet::frame::{Frame, FrameOperand};
use sj_codelet::kernel::Kernel;
use std::alloc::Global;
use std::sync::Arc;

/// An operand's tile to be shared with others. Constant time.
fn share(alloc: Global, operand: FrameOperand) -> Result<Arc<Tile>, OutOfMemory>
    ensures { IfOk result (λ t. t.value ≡ (slot_of operand).array) }
{
    match operand {
        FrameOperand::Shared(tile) => Ok(tile),
        FrameOperand::Own(tile) => Ok(Arc::new(alloc, tile)?),
    }
}

/// Whether an operand of this mode gets a new value.
fn is_output(formal: Formal) -> bool
    ensures { result ≡ is_output formal }
{
    match formal {
        Formal::R | Formal::Scratch => false,
        Formal::W | Formal::RW => true,
    }
}

/// Leaves of a frame the written operands, as shared tiles.
fn share_written(alloc: Global, formals: &[Formal], frame: &mut Frame) -> Result<(), OutOfMemory>
    requires { length formals.now ≡ length frame.old.slots }
    ensures slots { OnOk result
        (frame.new.slots ≡ map shared (written_arrays formals.now frame.old.slots)) }
    ensures room { OnOk result (frame.old.spare ≤ frame.new.spare) }
{
    let Some((last, before)) = formals.split_last() else {
        return Ok(());
    };
    let operand = frame.take_last();
    share_written(alloc, before, frame)?;
    if !is_output(*last) {
        return Ok(());
    }
    frame.push_shared(share(alloc, operand)?);
    Ok(())
}

/// Of a codelet's frame after a run, the operands that it wrote, in order and as shared tiles, in the same frame. Linear in
/// the operands.
pub fn shares(alloc: Global, codelet: Codelet, mut frame: Frame) -> Result<Frame, OutOfMemory>
    requires { length (formals_in codelet) ≡ length frame.slots }
    ensures { IfOk result
        (λ f. f.slots ≡ map shared (written_arrays (formals_in codelet) frame.slots)) }
{
    let Some(kernel) = Kernel::of(codelet) else {
        return Ok(frame);
    };
    share_written(alloc, kernel.formals(), &mut frame)?;
    Ok(frame)
}
