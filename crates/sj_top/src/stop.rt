//! Why a job has no text to write.

ghost use Rattle.std.specs.Prelude.{◌≡◌};
ghost use Rattle.sj_top.specs.Answers.{status_of_fault, status_of_shortage, status_of_stop, status_of_unready};

use crate::status::Status;
use sj_board::fault::RunFault;
use sj_needs::shortage::Shortage;
use sj_ready::unready::Unready;

/// Why a job has no text to write.
#[derive(Clone, Copy, Debug, PartialEq, Eq)]
pub enum Stop {
    /// It isn't made ready.
    Unready(Unready),
    /// Its run broke off.
    Broken(RunFault),
    /// An allocation was refused before the run or behind it.
    OutOfMemory,
}

/// The status where a machine lacks what a program needs.
fn status_of_shortage(what: Shortage) -> Status
    ensures { result ≡ status_of_shortage what }
{
    match what {
        Shortage::TooLarge { line, bytes } => Status::TooLarge { line, bytes },
        Shortage::SwapTooSmall { needed, have } => Status::SwapTooSmall { needed, have },
        Shortage::OutOfMemory => Status::OutOfMemory,
    }
}

/// The status where a job isn't made ready.
fn status_of_unready(why: Unready) -> Status
    ensures { result ≡ status_of_unready why }
{
    match why {
        Unready::Refused { line, reason } => Status::Refused { line, reason },
        Unready::Short(what) => status_of_shortage(what),
        Unready::OutOfMemory => Status::OutOfMemory,
    }
}

/// The status where a run broke off.
fn status_of_fault(fault: RunFault) -> Status
    ensures { result ≡ status_of_fault fault }
{
    match fault {
        RunFault::DiskFault { disk } => Status::DiskFault { disk },
        RunFault::Damaged { disk, want, found } => Status::Damaged { disk, want, found },
        RunFault::OutOfMemory => Status::OutOfMemory,
    }
}

impl Stop {
    /// The status of a call that ends so. Constant time.
    pub fn status(self) -> Status
        ensures { result ≡ status_of_stop self }
    {
        match self {
            Stop::Unready(why) => status_of_unready(why),
            Stop::Broken(fault) => status_of_fault(fault),
            Stop::OutOfMemory => Status::OutOfMemory,
        }
    }
}
