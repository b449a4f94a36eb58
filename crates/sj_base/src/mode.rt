//! Access modes, reductions and scheduling policies (StarPU Handbook, "Data Management" and "Scheduling").

ghost use Rattle.std.specs.Prelude.{◌≡◌};
ghost use Rattle.sj_base.specs.Mode.{is_written, reads_value};

use crate::ids::Cell;

/// How a task accesses an operand.
#[derive(Clone, Copy, Debug, PartialEq, Eq)]
pub enum Mode {
    /// The operand is read.
    R,
    /// The operand is written, and its old value isn't read.
    W,
    /// The operand is read and written.
    RW,
    /// A buffer of the operand's dimensions that lasts for this task alone.
    Scratch,
    /// A contribution to a partial copy, which a reduction combines later.
    Redux,
    /// As `RW`, in any order with other such accesses by one codelet, one at a time.
    Commute,
}

impl Mode {
    /// Whether the operand gets a new value. Constant time.
    pub fn is_written(self) -> bool
        ensures { result ≡ is_written self }
    {
        match self {
            Mode::R | Mode::Scratch => false,
            Mode::W | Mode::RW | Mode::Redux | Mode::Commute => true,
        }
    }

    /// Whether the operand's old value is read. Constant time.
    pub fn reads_value(self) -> bool
        ensures { result ≡ reads_value self }
    {
        match self {
            Mode::W | Mode::Scratch => false,
            Mode::R | Mode::RW | Mode::Redux | Mode::Commute => true,
        }
    }
}

/// What a reduction combines by.
#[derive(Clone, Copy, Debug, PartialEq, Eq)]
pub enum Reduction {
    /// Wrapping sums, from zeros.
    Plus,
    /// The lesser of two elements, from `inf`.
    Least,
}

/// Which ready task a worker takes.
#[derive(Clone, Copy, Debug, PartialEq, Eq)]
pub enum Policy {
    /// First in, first out.
    Eager,
    /// Greatest priority first, then least task number.
    Prio,
    /// A queue for each worker, and stealing in a fixed order.
    Ws,
}

/// One operand of a lowered task.
#[derive(Clone, Copy, Debug, PartialEq, Eq)]
pub struct Access {
    pub mode: Mode,
    pub cell: Cell,
}

impl Default for Access {
    /// What fills the places of a short list that no access takes.
    fn default() -> Access {
        Access {
            mode: Mode::R,
            cell: Cell(0),
        }
    }
}
