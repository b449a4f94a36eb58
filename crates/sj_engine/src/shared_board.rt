//! A board in a box, as workers share it.

use sj_base::mode::Policy;
use sj_board::board::Board;
use sj_edge::disk::Disk;
use std::alloc::Global;
use std::marker::Model;

/// A board in a box: one small value, however large the run is.
#[derive(Drop)]
pub struct SharedBoard<D: Disk> {
    pub(crate) board: Box<Board<D>>,
    /// How many looks for a task were in vain since one was worth its while. It begins anew after 256.
    pub(crate) misses: u8,
}

impl<D: Disk> Model for SharedBoard<D> {
    ghost use Rattle.sj_board.specs.Board.{BoardState};

    ghost Value = { BoardState D };

    ghost view = { λ b. b.board.value };
}

impl<D: Disk> SharedBoard<D> {
    ghost use Rattle.std.specs.Prelude.{◌≡◌, IfErr, IfOk};
    ghost use Rattle.sj_engine.specs.Resting.{has_ready, is_over};
    ghost use Rattle.sj_board.specs.BoardSound.{IsSoundBoard};

    /// A board that goes into a box. It comes back where memory is wanting. Constant time.
    pub fn new(alloc: Global, board: Board<D>) -> Result<SharedBoard<D>, Board<D>>
        ensures ok { IfOk result (λ shared. shared ≡ board) }
        ensures err { IfErr result (λ back. back ≡ board) }
    {
        match Box::new(alloc, board) {
            Ok(board) => Ok(SharedBoard { board, misses: 0 }),
            Err(failed) => Err(failed.value),
        }
    }

    /// The board out of its box. Constant time.
    pub fn into_board(self) -> Board<D>
        ensures { result ≡ self }
    {
        Box::into_inner(self.board)
    }

    /// No code: its contract is what is true of every board.
    pub fn is_sound(&self)
        ensures { IsSoundBoard D.size D.faults D.mismatches D.held self.now }
    {
        self.board.is_sound();
    }

    /// Whether all tasks are done or a fault is kept. Constant time.
    pub fn is_over(&self) -> bool
        ensures { result ≡ is_over self.now }
    {
        self.board.all_done() || self.board.failed()
    }

    /// The policy of the machine. Constant time.
    pub fn policy(&self) -> Policy
        ensures { result ≡ self.now.run.machine.policy }
    {
        self.board.policy()
    }

    /// Under `prio`, whether a task is ready that nobody was given. Constant time.
    pub fn has_ready(&self) -> bool
        ensures { result ≡ has_ready self.now }
    {
        self.board.has_ready(u64::MAX)
    }
}
