//! What a worker carries into its turns and out of them.

ghost use Rattle.std.specs.Prelude.{◌≡◌, ◌^◌, ◌≤◌, [], IfOk, length};
ghost use Rattle.sj_base.specs.Array.{area};

use sj_base::ids::Task;
use sj_base::memory::OutOfMemory;
use sj_base::tile::{Dims, Tile};
use sj_board::spent::Spent;
use sj_codelet::frame::Frame;
use std::alloc::Global;
use std::marker::Model;
use std::mem;

/// The most operands that a task has.
const FRAME_ROOM: u8 = 5;

/// An empty frame for the operands of a worker's next task, and the tiles that its turns made needless: so a turn takes no
/// memory for the one, and gives none back for the others, into which the worker fetches; and the tasks that its last end has
/// released.
#[derive(Drop)]
pub struct Tray {
    frame: Frame,
    pub(crate) spent: Spent,
    /// The tasks that the worker's last end has released, and that it is to put into the shared queues.
    pub(crate) released: Vec<Task>,
}

impl Model for Tray {
    ghost use Rattle.std.specs.Prelude.{◌≡◌, []};
    ghost use Rattle.sj_codelet.specs.Frame.{Frame as FrameFacts};

    ghost Value = { FrameFacts };

    ghost view = { λ t. t.frame };

    ghost invariant = { λ t. t.frame.slots ≡ [] };
}

impl Tray {
    /// A frame with room for any task's operands, and room for tiles, where there is memory for them.
    pub fn new(alloc: Global) -> Tray {
        let spent = Spent::roomy(alloc);
        let released = Vec::new(alloc);
        match Frame::with_room(alloc, FRAME_ROOM) {
            Ok(frame) => Tray {
                frame,
                spent,
                released,
            },
            Err(OutOfMemory) => Tray {
                frame: Frame::empty(alloc),
                spent,
                released,
            },
        }
    }

    /// Hands the frame out, with room for `n` operands. Constant time, and no memory, where one with as much room was kept last.
    pub fn take_frame(&mut self, alloc: Global, n: u8) -> Result<Frame, OutOfMemory>
        ensures empty { IfOk result (λ f. f.slots ≡ []) }
        ensures room { IfOk result (λ f. n ≤ f.spare) }
    {
        let mut frame = mem::replace(&mut self.frame, Frame::empty(alloc));
        frame.reserve(n)?;
        Ok(frame)
    }

    /// Keeps an empty frame for the next task. The memory of the one that was kept is given back.
    pub fn keep_frame(&mut self, frame: Frame)
        requires { frame.slots ≡ [] }
        ensures { self.new ≡ frame }
    {
        self.frame = frame;
    }

    /// A tile of these dimensions to fetch into, with any elements: one that turns made needless, which wants no memory for
    /// elements, or else a new one, before which all of those are freed. Linear in its elements where it is new.
    pub fn take_tile(&mut self, alloc: Global, dims: Dims) -> Result<Tile, OutOfMemory>
        requires { area dims ≤ 2 ^ 24 }
        ensures dims { IfOk result (λ t. t.dims ≡ dims) }
        ensures whole { IfOk result (λ t. length t.elements ≡ area dims) }
        ensures tray { self.new ≡ self.old }
    {
        if let Some(tile) = self.spent.take_tile(dims) {
            return Ok(tile);
        }
        self.spent.free();
        Tile::zeros(alloc, dims)
    }

    /// Frees the tiles that turns made needless, all but so many at most.
    pub fn free_outside(&mut self, most: usize)
        ensures { self.new ≡ self.old }
    {
        self.spent.free_but(most);
    }
}
