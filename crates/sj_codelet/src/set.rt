//! A set of codelets: which of the table it knows, and how it runs them.

ghost use Rattle.std.specs.Prelude.{◌≡◌, ◌&&◌, Bool, IsTrue, OnOk, IfOk, IfSome, find, option_map};
ghost use Rattle.sj_codelet.specs.declared.kernel.Kernel.{Kernel};
ghost use Rattle.sj_codelet.specs.Kernel.{kernels, codelet_of, has_name, named_in, name_in, fits_in, has_reduction, commutes_in, contributes_in, init_of, combine_of, out};
ghost use Rattle.sj_codelet.specs.Frame.{all_dims};
ghost use Rattle.sj_base.specs.declared.mode.Reduction.{Reduction};
ghost use Rattle.sj_codelet.specs.Laws.{CommutingCommute, ContributingContribute, ReductionsReduce};
ghost use Rattle.sj_codelet.specs.Runs.{shape_in, IsReadyFor, IsRun};

use crate::formal::Shape;
use crate::frame::Frame;
use crate::kernel::{KERNELS, Kernel};
use sj_base::memory::OutOfMemory;
use sj_base::mode::Reduction;
use sj_base::program::Codelet;
use sj_base::tile::Dims;
use std::alloc::Global;

/// A set of codelets (StarPU Handbook, "Codelet and Tasks").
pub trait Codelets: Sync {
    /// Which codelets of the table the set has.
    ghost has: { Kernel → Bool };

    /// Whether the set has this codelet. Constant time.
    fn knows(&self, kernel: Kernel) -> bool
        ensures { result ≡ has kernel };

    /// Runs a codelet on a frame: its written operands become the codelet's new arrays, what it only reads stays.
    /// After an `Err` the task's own operands hold any elements, and the frame is given up. The cost is the kernel's.
    fn run(
        &self,
        alloc: Global,
        id: Codelet,
        args: &[i64],
        frame: &mut Frame,
    ) -> Result<(), OutOfMemory>
        requires fits { IsTrue (fits_in has id args.now (all_dims frame.old.slots)) }
        requires ready { IsReadyFor id frame.old.slots }
        ensures { OnOk result (IsRun id args.now frame.old frame.new) };

    /// Two runs of a commuting codelet on one array give the same in either order.
    ghost commuting: { CommutingCommute out has };

    /// A run of a contributing codelet gives what combining gives with a run on the unit.
    ghost contributing: { ContributingContribute out has };

    /// Combining is associative and commutative, and init gives its unit.
    ghost reducing: { ReductionsReduce out has };

    /// The codelet that a job calls by this name, or `None` where the set has none. Linear in the table.
    final fn named(&self, name: &[u8]) -> Option<Codelet>
        ensures { result ≡ named_in has name.now }
    {
        match self.kernel_named(name) {
            Some(kernel) => Some(kernel.id()),
            None => None,
        }
    }

    /// The same as a row of the table. Linear in the table.
    final fn kernel_named(&self, name: &[u8]) -> Option<Kernel>
        ensures { result ≡ find (λ kernel. has kernel && has_name name.now kernel) kernels }
    {
        KERNELS
            .iter()
            .copied()
            .find(|kernel| self.knows(*kernel) && kernel.is_named(name))
    }

    /// How many arguments a codelet takes, and the modes of its operands; `None` where the set hasn't the codelet.
    final fn shape(&self, alloc: Global, id: Codelet) -> Result<Option<Shape>, OutOfMemory>
        ensures { IfOk result (λ shape. shape ≡ shape_in has id) }
    {
        match Kernel::of(id) {
            Some(kernel) if self.knows(kernel) => Ok(Some(kernel.shape(alloc)?)),
            _ => Ok(None),
        }
    }

    /// Whether the set has the codelet, and arguments and dimensions are as it takes them. Constant time.
    final fn fits(&self, id: Codelet, args: &[i64], dims: &[Dims]) -> bool
        ensures { result ≡ fits_in has id args.now dims.now }
    {
        match Kernel::of(id) {
            Some(kernel) => self.knows(kernel) && kernel.fits(args, dims),
            None => false,
        }
    }

    /// The name by which a job calls a codelet, or `None` where it has none or the set hasn't it. Constant time.
    final fn name(&self, id: Codelet) -> Option<&'static [u8]>
        ensures name { option_map (λ name. name.now) result ≡ name_in has id }
        ensures found_by_it { IfSome result (λ name. named_in has name.now ≡ Some id) }
    {
        match Kernel::of(id) {
            Some(kernel) if self.knows(kernel) => kernel.name(),
            _ => None,
        }
    }

    /// Whether the set has the codelet, and two runs of it on one array may change places. Constant time.
    final fn commutes(&self, id: Codelet) -> bool
        ensures { result ≡ commutes_in has id }
    {
        match Kernel::of(id) {
            Some(kernel) => self.knows(kernel) && kernel.commutes(),
            None => false,
        }
    }

    /// Whether the set has the codelet and the reduction, and a run adds a contribution to it. Constant time.
    final fn contributes(&self, id: Codelet, by: Reduction) -> bool
        ensures { result ≡ contributes_in has id by }
    {
        match Kernel::of(id) {
            Some(kernel) => self.knows(kernel) && kernel.contributes(by) && self.has(by),
            None => false,
        }
    }

    /// Whether the set has the reduction: its init and its combine codelet. Constant time.
    final fn has(&self, by: Reduction) -> bool
        ensures { result ≡ has_reduction has by }
    {
        self.knows(Kernel::init(by)) && self.knows(Kernel::combine(by))
    }

    /// The codelet that makes the reduction's unit. Constant time.
    final fn init(&self, by: Reduction) -> Codelet
        requires { IsTrue (has_reduction has by) }
        ensures { result ≡ codelet_of (init_of by) }
    {
        Kernel::init(by).id()
    }

    /// The codelet that combines a partial copy, its R operand, into another array. Constant time.
    final fn combine(&self, by: Reduction) -> Codelet
        requires { IsTrue (has_reduction has by) }
        ensures { result ≡ codelet_of (combine_of by) }
    {
        Kernel::combine(by).id()
    }
}
