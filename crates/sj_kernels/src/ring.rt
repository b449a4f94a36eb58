//! The set of ring codelets.

ghost use Rattle.sj_kernels.specs.Has.{ring_has};
ghost use Rattle.sj_kernels.specs.RingLaws.{ring_commuting, ring_contributing, ring_reducing};

use crate::runs::run_kernel;
use sj_base::memory::OutOfMemory;
use sj_base::program::Codelet;
use sj_codelet::frame::Frame;
use sj_codelet::kernel::Kernel;
use sj_codelet::set::Codelets;
use std::alloc::Global;

/// The codelets of ring arithmetic, with the reduction by sums.
#[derive(Clone, Copy, Debug)]
pub struct Ring;

impl Codelets for Ring {
    ghost has = { ring_has };

    ghost commuting = { ring_commuting };

    ghost contributing = { ring_contributing };

    ghost reducing = { ring_reducing };

    fn knows(&self, kernel: Kernel) -> bool {
        !kernel.is_min_plus()
    }

    fn run(
        &self,
        _alloc: Global,
        id: Codelet,
        args: &[i64],
        frame: &mut Frame,
    ) -> Result<(), OutOfMemory> {
        match Kernel::of(id) {
            Some(kernel) => run_kernel(kernel, args, frame),
            None => unreachable!(),
        }
        Ok(())
    }
}
