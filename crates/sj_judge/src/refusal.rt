//! Why a trace isn't found to be legal and complete.

use sj_base::memory;
use sj_check::check::CheckRefusal;
use sj_ready::unready::Unready;
use sj_trace::read::TraceRefusal;

/// Why a trace isn't found to be legal and complete.
#[derive(Clone, Copy, Debug, PartialEq, Eq)]
pub enum JudgeRefusal {
    /// The job can't be run.
    Unready(Unready),
    /// The trace's text has 2^32 bytes or more.
    TooLong,
    /// The trace's text isn't read.
    Unread(TraceRefusal),
    /// The trace isn't legal, or not complete.
    Wrong(CheckRefusal),
    /// An allocation was refused.
    OutOfMemory,
}

impl From<memory::OutOfMemory> for JudgeRefusal {
    ghost use Rattle.std.specs.Prelude.{◌≡◌};
    ghost use Rattle.sj_judge.specs.declared.refusal.JudgeRefusal.TheVariants.{OutOfMemory};

    ghost from_gives = { λ _ why. why ≡ OutOfMemory };

    fn from(_: memory::OutOfMemory) -> Self {
        JudgeRefusal::OutOfMemory
    }
}

impl From<Unready> for JudgeRefusal {
    ghost use Rattle.std.specs.Prelude.{◌≡◌};
    ghost use Rattle.sj_judge.specs.declared.refusal.JudgeRefusal.TheVariants as refusal;

    ghost from_gives = { λ unready why. why ≡ refusal.Unready unready };

    fn from(unready: Unready) -> Self {
        JudgeRefusal::Unready(unready)
    }
}

impl From<TraceRefusal> for JudgeRefusal {
    ghost use Rattle.std.specs.Prelude.{◌≡◌};
    ghost use Rattle.sj_judge.specs.declared.refusal.JudgeRefusal.TheVariants as refusal;

    ghost from_gives = { λ unread why. why ≡ refusal.Unread unread };

    fn from(unread: TraceRefusal) -> Self {
        JudgeRefusal::Unread(unread)
    }
}

impl From<CheckRefusal> for JudgeRefusal {
    ghost use Rattle.std.specs.Prelude.{◌≡◌};
    ghost use Rattle.sj_judge.specs.declared.refusal.JudgeRefusal.TheVariants as refusal;

    ghost from_gives = { λ wrong why. why ≡ refusal.Wrong wrong };

    fn from(wrong: CheckRefusal) -> Self {
        JudgeRefusal::Wrong(wrong)
    }
}
