//! Why a job text is refused.

ghost use Rattle.std.specs.Prelude.{◌≡◌};
ghost use Rattle.sj_job.specs.Reason.{reason_code};

use sj_base::ids::Line;
use sj_base::memory;
use std::alloc::{AllocError, AllocFailed};

/// Which limit a quantity exceeds.
#[derive(Clone, Copy, Debug, PartialEq, Eq)]
pub enum LimitKind {
    Text,
    Statements,
    Workers,
    Nodes,
    NodeBytes,
    Names,
    Elements,
    Parts,
    Priority,
    Cells,
    Tasks,
}

/// Why a line is refused.
#[derive(Clone, Copy, Debug, PartialEq, Eq)]
pub enum Reason {
    /// The first line isn't the header.
    Header,
    /// A byte, a word or their number that no line has there.
    Word,
    /// A word in the place of a number isn't one.
    Number,
    /// A name that was never registered.
    UnknownName,
    /// A name that is registered already, or that has its reduction.
    TakenName,
    UnknownCodelet,
    /// The number of arguments or of operands isn't the codelet's.
    OperandCount,
    /// Dimensions, modes or the number of values don't go together.
    Shape,
    /// A child outside the active plan, or a plan that doesn't fit.
    Part,
    /// A child stands twice in a task, and not all these accesses are reads.
    Aliased,
    /// An element that is needed has no value.
    NoValue,
    /// REDUX on a name without a reduction.
    NoReduction,
    /// COMMUTE with a codelet whose runs may not change places, or REDUX with one that doesn't contribute to the reduction.
    NotLawful,
    /// A COMMUTE or REDUX operand beside another written operand.
    MixedOutputs,
    /// A quantity lies outside its range.
    Limit(LimitKind),
    /// A name that was ended by `unregister`.
    EndedName,
}

impl Reason {
    /// The reason's number. Constant time.
    pub fn code(&self) -> u8
        ensures { result ≡ reason_code self.now }
    {
        match self {
            Reason::Header => 1,
            Reason::Word => 2,
            Reason::Number => 3,
            Reason::UnknownName => 4,
            Reason::TakenName => 5,
            Reason::UnknownCodelet => 6,
            Reason::OperandCount => 7,
            Reason::Shape => 8,
            Reason::Part => 9,
            Reason::Aliased => 10,
            Reason::NoValue => 11,
            Reason::NoReduction => 12,
            Reason::NotLawful => 13,
            Reason::MixedOutputs => 14,
            Reason::Limit(_) => 15,
            Reason::EndedName => 16,
        }
    }
}

/// Why a line does nothing: its first reason, or want of memory.
#[derive(Clone, Copy, Debug, PartialEq, Eq)]
pub enum Objection {
    Bad(Reason),
    OutOfMemory,
}

impl From<Reason> for Objection {
    ghost use Rattle.std.specs.Prelude.{◌≡◌};
    ghost use Rattle.sj_job.specs.declared.reason.Objection.TheVariants.{Bad};

    ghost from_gives = { λ why e. e ≡ Bad why };

    fn from(why: Reason) -> Self {
        Objection::Bad(why)
    }
}

impl From<memory::OutOfMemory> for Objection {
    ghost use Rattle.std.specs.Prelude.{◌≡◌};
    ghost use Rattle.sj_job.specs.declared.reason.Objection.TheVariants.{OutOfMemory};

    ghost from_gives = { λ _ e. e ≡ OutOfMemory };

    fn from(_: memory::OutOfMemory) -> Self {
        Objection::OutOfMemory
    }
}

impl From<AllocError> for Objection {
    ghost use Rattle.std.specs.Prelude.{◌≡◌};
    ghost use Rattle.sj_job.specs.declared.reason.Objection.TheVariants.{OutOfMemory};

    ghost from_gives = { λ _ e. e ≡ OutOfMemory };

    fn from(_: AllocError) -> Self {
        Objection::OutOfMemory
    }
}

/// Why a text gave no job: the first bad line and its first reason, or want of memory.
#[derive(Clone, Copy, Debug, PartialEq, Eq)]
pub enum ReadRefusal {
    Refused { line: Line, reason: Reason },
    OutOfMemory,
}

impl From<memory::OutOfMemory> for ReadRefusal {
    ghost use Rattle.std.specs.Prelude.{◌≡◌};
    ghost use Rattle.sj_job.specs.declared.reason.ReadRefusal.TheVariants.{OutOfMemory};

    ghost from_gives = { λ _ e. e ≡ OutOfMemory };

    fn from(_: memory::OutOfMemory) -> Self {
        ReadRefusal::OutOfMemory
    }
}

impl From<AllocError> for ReadRefusal {
    ghost use Rattle.std.specs.Prelude.{◌≡◌};
    ghost use Rattle.sj_job.specs.declared.reason.ReadRefusal.TheVariants.{OutOfMemory};

    ghost from_gives = { λ _ e. e ≡ OutOfMemory };

    fn from(_: AllocError) -> Self {
        ReadRefusal::OutOfMemory
    }
}

impl<T: Drop> From<AllocFailed<T>> for ReadRefusal {
    ghost use Rattle.std.specs.Prelude.{◌≡◌};
    ghost use Rattle.sj_job.specs.declared.reason.ReadRefusal.TheVariants.{OutOfMemory};

    ghost from_gives = { λ _ e. e ≡ OutOfMemory };

    fn from(_: AllocFailed<T>) -> Self {
        ReadRefusal::OutOfMemory
    }
}
