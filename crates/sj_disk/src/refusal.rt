//! Why a call of a set of disks isn't done.

use crate::header::Header;
use sj_base::ids::DiskNo;
use std::alloc::AllocError;
use thiserror::Error;

/// Why a cell gets no block.
#[derive(Clone, Copy, Debug, PartialEq, Eq, Error)]
pub enum ReserveRefusal {
    /// No disk has so many free bytes.
    #[error("no disk has room for the block")]
    NoRoom,
    #[error("out of memory")]
    OutOfMemory,
}

impl From<AllocError> for ReserveRefusal {
    ghost use Rattle.std.specs.Prelude.{◌≡◌};
    ghost use Rattle.sj_disk.specs.declared.refusal.ReserveRefusal.TheVariants.{OutOfMemory};

    ghost from_gives = { λ _ e. e ≡ OutOfMemory };

    fn from(_: AllocError) -> Self {
        ReserveRefusal::OutOfMemory
    }
}

/// Why a tile wasn't stored or fetched.
#[derive(Clone, Copy, Debug, PartialEq, Eq)]
pub enum DiskRefusal {
    /// The disk refused a call.
    DiskFault {
        disk: DiskNo,
    },
    /// The disk holds another header than the one that was last stored there.
    Damaged {
        disk: DiskNo,
        want: Header,
        found: Header,
    },
}
