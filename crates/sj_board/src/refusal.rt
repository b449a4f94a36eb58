//! Why a claim isn't made.

use sj_machine::plan::Why;

/// Why a worker doesn't get its claim.
#[derive(Clone, Copy, Debug, PartialEq, Eq)]
pub enum ClaimRefusal {
    /// It can't be made now.
    NotNow(Why),
    OutOfMemory,
}
