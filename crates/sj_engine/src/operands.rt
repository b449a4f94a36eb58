//! The operands of a task, as its kernel works on them.

ghost use Rattle.std.specs.Prelude.{◌≡◌, ◌+◌, ◌≤◌, ◌<◌, All, IfOk, IsTrue, OnOk, false, filter, length};
ghost use Rattle.sj_base.specs.Mode.{reads_value};
ghost use Rattle.sj_codelet.specs.Frame.{arrays, shared};
ghost use Rattle.sj_codelet.specs.Slot.{slot_of};
ghost use Rattle.sj_engine.specs.Operands.{IsSmall, MakesOperand, operands_from};

use sj_base::memory::OutOfMemory;
use sj_base::mode::{Access, Mode};
use sj_base::program::Program;
use sj_base::tile::Tile;
use sj_codelet::frame::{Frame, FrameOperand};
use std::alloc::Global;
use std::sync::Arc;

/// A tile to be written to. Constant time where nobody else has a share of it, and else linear in its elements, for the copy.
fn owned(alloc: Global, tile: Arc<Tile>) -> Result<Tile, OutOfMemory>
    ensures { IfOk result (λ t. t ≡ tile.value) }
{
    match Arc::try_unwrap(tile) {
        Ok(tile) => Ok(tile),
        Err(tile) => tile.copy(alloc),
    }
}

/// One operand: the last of the shares where it is only read, zeros where its old value isn't read, and else the tile of the
/// last share as one to write to.
fn operand(
    alloc: Global,
    program: &Program,
    access: Access,
    shares: &mut Frame,
) -> Result<FrameOperand, OutOfMemory>
    requires small { IsSmall program.now access }
    requires shared { All (λ s. s.owned ≡ false) shares.old.slots }
    requires there { IsTrue (reads_value access.mode) → 0 < length shares.old.slots }
    ensures operand { IfOk result (λ o. MakesOperand program.now access shares.old.slots
        shares.new.slots (slot_of o)) }
    ensures room { OnOk result (shares.new.spare + length shares.new.slots
        ≡ shares.old.spare + length shares.old.slots) }
{
    match access.mode {
        Mode::R => Ok(FrameOperand::Shared(shares.take_shared())),
        Mode::W | Mode::Scratch => {
            let dims = program.cells.items()[access.cell.0 as usize].dims;
            Ok(FrameOperand::Own(Tile::zeros(alloc, dims)?))
        }
        Mode::RW | Mode::Redux | Mode::Commute => {
            Ok(FrameOperand::Own(owned(alloc, shares.take_shared())?))
        }
    }
}

/// Makes the operands of these accesses of the shares of those whose old value is read, in the place of these. The sum of
/// their costs.
fn make_operands(
    alloc: Global,
    program: &Program,
    accesses: &[Access],
    frame: &mut Frame,
) -> Result<(), OutOfMemory>
    requires small { All (IsSmall program.now) accesses.now }
    requires shared { All (λ s. s.owned ≡ false) frame.old.slots }
    requires count { length frame.old.slots ≡ length
        (filter (λ a. reads_value a.mode) accesses.now) }
    requires room { length accesses.now ≤ frame.old.spare + length frame.old.slots }
    ensures slots { OnOk result (frame.new.slots
        ≡ operands_from program.now accesses.now (arrays frame.old.slots)) }
    ensures room { OnOk result (frame.new.spare + length accesses.now
        ≡ frame.old.spare + length frame.old.slots) }
{
    let Some((last, before)) = accesses.split_last() else {
        return Ok(());
    };
    let operand = operand(alloc, program, *last, frame)?;
    make_operands(alloc, program, before, frame)?;
    frame.push(operand);
    Ok(())
}

/// The operands of a task in order, from shares of those whose old value it reads, in the same frame. Linear in the elements
/// of those that begin as zeros, and of those to be written to of which somebody else has a share.
pub fn operands(
    alloc: Global,
    program: &Program,
    accesses: &[Access],
    mut shares: Frame,
) -> Result<Frame, OutOfMemory>
    requires small { All (IsSmall program.now) accesses.now }
    requires shared { All (λ s. s.owned ≡ false) shares.slots }
    requires count { length shares.slots ≡ length (filter (λ a. reads_value a.mode) accesses.now) }
    requires room { length accesses.now ≤ shares.spare + length shares.slots }
    ensures { IfOk result (λ f. f.slots ≡ operands_from program.now accesses.now
        (arrays shares.slots)) }
{
    make_operands(alloc, program, accesses, &mut shares)?;
    Ok(shares)
}
