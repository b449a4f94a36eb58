//! Why a run fails.

use sj_base::ids::DiskNo;
use sj_disk::header::Header;
use sj_disk::refusal::DiskRefusal;

/// Why a run can't go on.
#[derive(Clone, Copy, Debug, PartialEq, Eq)]
pub enum RunFault {
    /// The disk refused a call.
    DiskFault {
        disk: DiskNo,
    },
    /// The disk held another header than the one that was last stored there.
    Damaged {
        disk: DiskNo,
        want: Header,
        found: Header,
    },
    OutOfMemory,
}

impl From<DiskRefusal> for RunFault {
    ghost use Rattle.std.specs.Prelude.{◌≡◌};
    ghost use Rattle.sj_board.specs.Counts.{fault_of};

    ghost from_gives = { λ refusal fault. fault ≡ fault_of refusal };

    fn from(refusal: DiskRefusal) -> Self {
        match refusal {
            DiskRefusal::DiskFault { disk } => RunFault::DiskFault { disk },
            DiskRefusal::Damaged { disk, want, found } => RunFault::Damaged { disk, want, found },
        }
    }
}
