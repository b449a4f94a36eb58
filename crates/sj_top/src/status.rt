//! How a job ended.

ghost use Rattle.std.specs.Prelude.{◌≡◌};
ghost use Rattle.sj_top.specs.Status.{code_of};

use sj_base::ids::{DiskNo, Line};
use sj_disk::header::Header;
use sj_job::reason::Reason;

/// How a job ended.
#[derive(Clone, Copy, Debug, PartialEq, Eq)]
pub enum Status {
    /// All was read, run and written.
    Done,
    /// The words after the program's name aren't accepted.
    Usage,
    /// The job text is refused at this line for this reason.
    Refused {
        line: Line,
        reason: Reason,
    },
    /// A task of this line needs so many bytes on one node, and no node that has a worker has as many.
    TooLarge {
        line: Line,
        bytes: u64,
    },
    /// The blocks of all cells, of so many bytes, have no places on the disks, which together have so many.
    SwapTooSmall {
        needed: u64,
        have: u64,
    },
    /// The disk failed.
    DiskFault {
        disk: DiskNo,
    },
    /// The disk held another header than the one that was last written there.
    Damaged {
        disk: DiskNo,
        want: Header,
        found: Header,
    },
    /// The source failed.
    SourceFault,
    /// The sink failed.
    SinkFault,
    /// Memory ran out. No clause says that an allocation was refused.
    OutOfMemory,
}

impl Status {
    /// The program's exit code. Constant time.
    pub fn code(&self) -> u8
        ensures { result ≡ code_of self.now }
    {
        match self {
            Status::Done => 0,
            Status::Usage => 2,
            Status::Refused { .. } => 3,
            Status::TooLarge { .. } => 4,
            Status::SwapTooSmall { .. } => 5,
            Status::DiskFault { .. } => 6,
            Status::Damaged { .. } => 7,
            Status::SourceFault => 8,
            Status::SinkFault => 9,
            Status::OutOfMemory => 10,
        }
    }
}
