//! The set of all codelets.

ghost use Rattle.std.specs.Prelude.{◌≡◌};
ghost use Rattle.sj_minplus.specs.Has.{library_has};
ghost use Rattle.sj_minplus.specs.LibraryLaws.{library_commuting, library_contributing, library_reducing};

use crate::runs::run_kernel;
use sj_base::memory::OutOfMemory;
use sj_base::program::Codelet;
use sj_codelet::frame::Frame;
use sj_codelet::kernel::Kernel;
use sj_codelet::set::Codelets;
use sj_kernels::ring::Ring;
use std::alloc::Global;

/// All codelets of the table, with both reductions: those of ring arithmetic and those of min-plus.
#[derive(Clone, Copy, Debug)]
pub struct Library;

impl Codelets for Library {
    ghost has = { library_has };

    ghost commuting = { library_commuting };

    ghost contributing = { library_contributing };

    ghost reducing = { library_reducing };

    fn knows(&self, _kernel: Kernel) -> bool {
        true
    }

    fn run(
        &self,
        alloc: Global,
        id: Codelet,
        args: &[i64],
        frame: &mut Frame,
    ) -> Result<(), OutOfMemory> {
        match Kernel::of(id) {
            Some(kernel) if !Ring.knows(kernel) => {
                run_kernel(kernel, args, frame);
                Ok(())
            }
            _ => Ring.run(alloc, id, args, frame),
        }
    }
}
