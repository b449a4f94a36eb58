//! Why a job isn't made ready.

use sj_base::ids::Line;
use sj_base::memory;
use sj_job::reason::{LimitKind, ReadRefusal, Reason};
use sj_lower::lower::LowerRefusal;
use sj_needs::shortage::Shortage;

/// Why a job isn't made ready.
#[derive(Clone, Copy, Debug, PartialEq, Eq)]
pub enum Unready {
    /// The job text is refused at this line for this reason.
    Refused { line: Line, reason: Reason },
    /// The machine lacks what the job's program needs.
    Short(Shortage),
    /// An allocation was refused.
    OutOfMemory,
}

impl From<memory::OutOfMemory> for Unready {
    ghost use Rattle.std.specs.Prelude.{◌≡◌};
    ghost use Rattle.sj_ready.specs.declared.unready.Unready.TheVariants.{OutOfMemory};

    ghost from_gives = { λ _ unready. unready ≡ OutOfMemory };

    fn from(_: memory::OutOfMemory) -> Self {
        Unready::OutOfMemory
    }
}

impl From<ReadRefusal> for Unready {
    ghost use Rattle.std.specs.Prelude.{◌≡◌};
    ghost use Rattle.sj_ready.specs.Unready.{after_reading};

    ghost from_gives = { λ refusal unready. unready ≡ after_reading refusal };

    fn from(refusal: ReadRefusal) -> Self {
        match refusal {
            ReadRefusal::Refused { line, reason } => Unready::Refused { line, reason },
            ReadRefusal::OutOfMemory => Unready::OutOfMemory,
        }
    }
}

impl From<LowerRefusal> for Unready {
    ghost use Rattle.std.specs.Prelude.{◌≡◌};
    ghost use Rattle.sj_ready.specs.Unready.{after_lowering};

    ghost from_gives = { λ refusal unready. unready ≡ after_lowering refusal };

    fn from(refusal: LowerRefusal) -> Self {
        match refusal {
            LowerRefusal::TooManyCells { line } => Unready::Refused {
                line,
                reason: Reason::Limit(LimitKind::Cells),
            },
            LowerRefusal::TooManyTasks { line } => Unready::Refused {
                line,
                reason: Reason::Limit(LimitKind::Tasks),
            },
            LowerRefusal::OutOfMemory => Unready::OutOfMemory,
        }
    }
}

impl From<Shortage> for Unready {
    ghost use Rattle.std.specs.Prelude.{◌≡◌};
    ghost use Rattle.sj_ready.specs.declared.unready.Unready.TheVariants.{Short};

    ghost from_gives = { λ shortage unready. unready ≡ Short shortage };

    fn from(shortage: Shortage) -> Self {
        Unready::Short(shortage)
    }
}
