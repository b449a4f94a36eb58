//! The operands of one task, as a kernel works on them.

ghost use Rattle.std.specs.Prelude.{◌≡◌, ◌==◌, ◌+◌, ◌<◌, ◌++◌, ◌∷◌, [], length, max, slice_index_or, IsTrue, IfOk, OnErr, OnOk, All, false};
ghost use Rattle.sj_base.specs.Array.{area};
ghost use Rattle.sj_codelet.specs.Frame.{frame, shared, own, ends_owned};
ghost use Rattle.sj_codelet.specs.Slot.{slot_of};

use sj_base::memory::OutOfMemory;
use sj_base::roomy::Roomy;
use sj_base::tile::Tile;
use std::alloc::Global;
use std::marker::Model;
use std::sync::Arc;

/// One operand: shared with others to read, or the task's own to write.
#[derive(Debug, Drop)]
pub enum FrameOperand {
    Shared(Arc<Tile>),
    Own(Tile),
}

impl FrameOperand {
    /// The operand's tile. Constant time.
    pub fn tile(&self) -> &Tile
        ensures { result.now ≡ (slot_of self.now).array }
    {
        match self {
            FrameOperand::Shared(tile) => tile,
            FrameOperand::Own(tile) => tile,
        }
    }
}

/// A task's operands in order, with room for some more.
#[derive(Debug, Drop)]
pub struct Frame {
    operands: Roomy<FrameOperand>,
}

impl Model for Frame {
    ghost use Rattle.std.specs.Prelude.{map};
    ghost use Rattle.sj_codelet.specs.Frame.{Frame, frame};
    ghost use Rattle.sj_codelet.specs.Slot.{slot_of};

    ghost Value = { Frame };

    ghost view = { λ f. frame (map slot_of f.operands.items) f.operands.spare };
}

impl Frame {
    /// An empty frame with room for `n` operands. Linear in `n`.
    pub fn with_room(alloc: Global, n: u8) -> Result<Frame, OutOfMemory>
        ensures { IfOk result (λ f. f ≡ frame [] n) }
    {
        let operands = Roomy::with_room(alloc, n as u64)?;
        Ok(Frame { operands })
    }

    /// An empty frame without room. Constant time, and no memory.
    pub fn empty(alloc: Global) -> Frame
        ensures { result ≡ frame [] 0 }
    {
        let operands = Roomy::empty(alloc);
        Frame { operands }
    }

    /// Makes room for at least `n` more operands; the room that there was stays. No memory where there was as much. Linear in the
    /// operands where it has to move them.
    pub fn reserve(&mut self, n: u8) -> Result<(), OutOfMemory>
        ensures slots { self.new.slots ≡ self.old.slots }
        ensures room { OnOk result (self.new.spare ≡ max self.old.spare n) }
        ensures err { OnErr result (self.new ≡ self.old) }
    {
        self.operands.reserve(n as u64)
    }

    /// Appends a tile that others may read too. Constant time, and no memory.
    pub fn push_shared(&mut self, tile: Arc<Tile>)
        requires { 0 < self.old.spare }
        ensures slots { self.new.slots ≡ self.old.slots ++ shared tile.value ∷ [] }
        ensures room { self.new.spare + 1 ≡ self.old.spare }
    {
        self.push(FrameOperand::Shared(tile));
    }

    /// Appends a tile of the task's own. Constant time, and no memory.
    pub fn push_own(&mut self, tile: Tile)
        requires { 0 < self.old.spare }
        ensures slots { self.new.slots ≡ self.old.slots ++ own tile ∷ [] }
        ensures room { self.new.spare + 1 ≡ self.old.spare }
    {
        self.push(FrameOperand::Own(tile));
    }

    /// Appends an operand. Constant time, and no memory.
    pub fn push(&mut self, operand: FrameOperand)
        requires { 0 < self.old.spare }
        ensures slots { self.new.slots ≡ self.old.slots ++ slot_of operand ∷ [] }
        ensures room { self.new.spare + 1 ≡ self.old.spare }
    {
        self.operands.push(operand);
    }

    /// How many operands there are. Constant time.
    pub fn len(&self) -> usize
        ensures { result ≡ length self.now.slots }
    {
        self.operands.len()
    }

    /// Whether there is no operand. Constant time.
    pub fn is_empty(&self) -> bool
        ensures { result ≡ (length self.now.slots == 0) }
    {
        self.operands.is_empty()
    }

    /// The tile of an operand. Constant time.
    pub fn tile(&self, i: usize) -> &Tile
        requires { i < length self.now.slots }
        ensures { result.now ≡ (slice_index_or self.now.slots i (own result.now)).array }
    {
        self.operands.get(i).tile()
    }

    /// Takes the last operand away. Constant time, and no memory.
    pub fn take_last(&mut self) -> FrameOperand
        requires { 0 < length self.old.slots }
        ensures slots { self.old.slots ≡ self.new.slots ++ slot_of result ∷ [] }
        ensures room { self.new.spare ≡ self.old.spare + 1 }
    {
        self.operands.pop()
    }

    /// Takes the last operand away, a shared one. Constant time, and no memory.
    pub fn take_shared(&mut self) -> Arc<Tile>
        requires shared { All (λ s. s.owned ≡ false) self.old.slots }
        requires some { 0 < length self.old.slots }
        ensures slots { self.old.slots ≡ self.new.slots ++ shared result.value ∷ [] }
        ensures room { self.new.spare ≡ self.old.spare + 1 }
    {
        match self.take_last() {
            FrameOperand::Shared(tile) => tile,
            FrameOperand::Own(_) => unreachable!(),
        }
    }

    /// Takes the last operand away, one of the task's own. Constant time, and no memory.
    pub fn take_own(&mut self) -> Tile
        requires { IsTrue (ends_owned self.old.slots) }
        ensures slots { self.old.slots ≡ self.new.slots ++ own result ∷ [] }
        ensures room { self.new.spare ≡ self.old.spare + 1 }
        ensures whole { length result.elements ≡ area result.dims }
    {
        match self.take_last() {
            FrameOperand::Own(tile) => {
                let _whole = tile.dims();
                tile
            }
            FrameOperand::Shared(_) => unreachable!(),
        }
    }
}
