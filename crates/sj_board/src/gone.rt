//! How many of each worker's victims are known to be gone.

ghost use Rattle.std.specs.Prelude.{◌≡◌, ◌<◌, IfOk, length, replicate, slice_set};

use sj_base::ids::Worker;
use sj_base::memory::OutOfMemory;
use std::alloc::Global;

/// No victim of any worker is known to be gone. Linear in the workers.
pub fn none_gone(alloc: Global, workers: u8) -> Result<Vec<usize>, OutOfMemory>
    ensures { IfOk result (λ v. v.items ≡ replicate workers 0) }
{
    Ok(vec![in alloc; 0; workers as usize]?)
}

/// So many of a worker's victims are known to be gone. Constant time.
pub fn note_gone(gone: &mut Vec<usize>, w: Worker, count: usize)
    requires { w.0 < length gone.old.items }
    ensures { gone.new.items ≡ slice_set gone.old.items w.0 count }
{
    gone[w.0 as usize] = count;
}
