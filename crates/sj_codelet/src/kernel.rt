//! The table of codelets. A new codelet is one more variant here, and its place in each column of the table.

ghost use Rattle.std.specs.Prelude.{◌≡◌, ◌<◌, length, slice_get, option_map, IfOk, IsTrue};
ghost use Rattle.sj_codelet.specs.Kernel.{kernels, kernel_of, codelet_of, kernel_name, has_name, commutes_of, contributes_of, init_of, combine_of};
ghost use Rattle.sj_codelet.specs.Kernel.{arguments_of, formals_of, dims_fit, arguments_fit, fits, is_min_plus};
ghost use Rattle.sj_codelet.specs.Runs.{shape_of};

use crate::formal::{Formal, Shape};
use crate::shape::{is_single, is_square, is_transposed, multiply, same, window_fits};
use sj_base::memory::OutOfMemory;
use sj_base::mode::Reduction;
use sj_base::program::Codelet;
use sj_base::sequence::Sequence;
use sj_base::tile::Dims;
use std::alloc::Global;

pub const FILL: Codelet = Codelet(0);

pub const COPY: Codelet = Codelet(1);

pub const SCALE: Codelet = Codelet(2);

pub const ADD: Codelet = Codelet(3);

pub const AXPY: Codelet = Codelet(4);

pub const BUTTERFLY: Codelet = Codelet(5);

pub const GEMM: Codelet = Codelet(6);

pub const GEMM3: Codelet = Codelet(7);

pub const TRANSPOSE: Codelet = Codelet(8);

pub const DOT: Codelet = Codelet(9);

pub const SUM: Codelet = Codelet(10);

pub const LOWEST: Codelet = Codelet(11);

pub const MINGEMM: Codelet = Codelet(12);

pub const FWDIAG: Codelet = Codelet(13);

pub const FWROW: Codelet = Codelet(14);

pub const FWCOL: Codelet = Codelet(15);

pub const LOAD: Codelet = Codelet(16);

pub const LOADFILL: Codelet = Codelet(17);

pub const PASTE: Codelet = Codelet(18);

pub const DELIVER: Codelet = Codelet(19);

pub const INIT_PLUS: Codelet = Codelet(20);

pub const INIT_LEAST: Codelet = Codelet(21);

/// A codelet of the table.
#[derive(Clone, Copy, Debug, PartialEq, Eq)]
pub enum Kernel {
    Fill,
    Copy,
    Scale,
    Add,
    Axpy,
    Butterfly,
    Gemm,
    GemmThree,
    Transpose,
    Dot,
    Sum,
    Lowest,
    MinGemm,
    FwDiag,
    FwRow,
    FwCol,
    /// The elements of a part, from its arguments.
    Load,
    /// The elements of a part, from a linear function of their position in the root.
    LoadFill,
    /// A window of an old child into a new one.
    Paste,
    /// Hands a tile over to be printed.
    Deliver,
    InitPlus,
    InitLeast,
}

/// The codelets in the order of their ids.
pub static KERNELS: [Kernel; 22] = [
    Kernel::Fill,
    Kernel::Copy,
    Kernel::Scale,
    Kernel::Add,
    Kernel::Axpy,
    Kernel::Butterfly,
    Kernel::Gemm,
    Kernel::GemmThree,
    Kernel::Transpose,
    Kernel::Dot,
    Kernel::Sum,
    Kernel::Lowest,
    Kernel::MinGemm,
    Kernel::FwDiag,
    Kernel::FwRow,
    Kernel::FwCol,
    Kernel::Load,
    Kernel::LoadFill,
    Kernel::Paste,
    Kernel::Deliver,
    Kernel::InitPlus,
    Kernel::InitLeast,
];

/// The codelet at a place of the table. Constant time.
#[tactic(auto, using(crate::proofs::Table::kernel_at))]
fn kernel_at(place: usize) -> Kernel
    requires { place < length kernels }
    ensures { slice_get kernels place ≡ Some result }
{
    KERNELS[place]
}

impl Kernel {
    /// The codelet of an id, or `None` for an id that no codelet has. Constant time.
    pub fn of(id: Codelet) -> Option<Kernel>
        ensures { result ≡ kernel_of id }
    {
        let place = id.0 as usize;
        if place < KERNELS.len() {
            Some(kernel_at(place))
        } else {
            None
        }
    }

    /// Its id. Constant time.
    pub fn id(self) -> Codelet
        ensures id { result ≡ codelet_of self }
        ensures place { kernel_of result ≡ Some self }
    {
        match self {
            Kernel::Fill => FILL,
            Kernel::Copy => COPY,
            Kernel::Scale => SCALE,
            Kernel::Add => ADD,
            Kernel::Axpy => AXPY,
            Kernel::Butterfly => BUTTERFLY,
            Kernel::Gemm => GEMM,
            Kernel::GemmThree => GEMM3,
            Kernel::Transpose => TRANSPOSE,
            Kernel::Dot => DOT,
            Kernel::Sum => SUM,
            Kernel::Lowest => LOWEST,
            Kernel::MinGemm => MINGEMM,
            Kernel::FwDiag => FWDIAG,
            Kernel::FwRow => FWROW,
            Kernel::FwCol => FWCOL,
            Kernel::Load => LOAD,
            Kernel::LoadFill => LOADFILL,
            Kernel::Paste => PASTE,
            Kernel::Deliver => DELIVER,
            Kernel::InitPlus => INIT_PLUS,
            Kernel::InitLeast => INIT_LEAST,
        }
    }

    /// The name by which a job calls it, or `None` for one of the runtime's own. Constant time.
    pub fn name(self) -> Option<&'static [u8]>
        ensures { option_map (λ name. name.now) result ≡ kernel_name self }
    {
        match self {
            Kernel::Fill => Some(b"fill"),
            Kernel::Copy => Some(b"copy"),
            Kernel::Scale => Some(b"scale"),
            Kernel::Add => Some(b"add"),
            Kernel::Axpy => Some(b"axpy"),
            Kernel::Butterfly => Some(b"butterfly"),
            Kernel::Gemm => Some(b"gemm"),
            Kernel::GemmThree => Some(b"gemm3"),
            Kernel::Transpose => Some(b"transpose"),
            Kernel::Dot => Some(b"dot"),
            Kernel::Sum => Some(b"sum"),
            Kernel::Lowest => Some(b"lowest"),
            Kernel::MinGemm => Some(b"mingemm"),
            Kernel::FwDiag => Some(b"fwdiag"),
            Kernel::FwRow => Some(b"fwrow"),
            Kernel::FwCol => Some(b"fwcol"),
            Kernel::Load
            | Kernel::LoadFill
            | Kernel::Paste
            | Kernel::Deliver
            | Kernel::InitPlus
            | Kernel::InitLeast => None,
        }
    }

    /// Whether a job calls it by this name. Linear in the name.
    pub fn is_named(self, name: &[u8]) -> bool
        ensures { result ≡ has_name name.now self }
    {
        match self.name() {
            Some(own) => own == name,
            None => false,
        }
    }

    /// How many arguments it takes; `load` takes as many as its operand has elements, which isn't counted here.
    pub fn arguments(self) -> usize
        ensures { result ≡ arguments_of self }
    {
        match self {
            Kernel::Fill => 2,
            Kernel::Scale | Kernel::Axpy => 1,
            Kernel::LoadFill => 5,
            Kernel::Paste => 6,
            _ => 0,
        }
    }

    /// The modes of its operands in order. Constant time.
    pub fn formals(self) -> &'static [Formal]
        ensures { result.now ≡ formals_of self }
    {
        match self {
            Kernel::Fill | Kernel::Load | Kernel::LoadFill | Kernel::InitPlus | Kernel::InitLeast =>
                &[Formal::W],
            Kernel::Copy | Kernel::Transpose => &[Formal::R, Formal::W],
            Kernel::Scale | Kernel::FwDiag => &[Formal::RW],
            Kernel::Butterfly => &[Formal::RW, Formal::RW],
            Kernel::Add
            | Kernel::Axpy
            | Kernel::Sum
            | Kernel::Lowest
            | Kernel::FwRow
            | Kernel::FwCol
            | Kernel::Paste => &[Formal::R, Formal::RW],
            Kernel::Gemm | Kernel::Dot | Kernel::MinGemm => &[Formal::R, Formal::R, Formal::RW],
            Kernel::GemmThree => &[Formal::R, Formal::R, Formal::R, Formal::Scratch, Formal::RW],
            Kernel::Deliver => &[Formal::R],
        }
    }

    /// Whether these dimensions, as many as its operands, go together. Constant time.
    pub fn dims_fit(self, args: &[i64], dims: &[Dims]) -> bool
        requires arguments { IsTrue (arguments_fit self args.now dims.now) }
        requires operands { length dims.now ≡ length (formals_of self) }
        ensures { result ≡ dims_fit self args.now dims.now }
    {
        match self {
            Kernel::Copy | Kernel::Add | Kernel::Axpy | Kernel::Butterfly | Kernel::Lowest => {
                same(dims[0], dims[1])
            }
            Kernel::Gemm | Kernel::MinGemm => multiply(dims[0], dims[1], dims[2]),
            Kernel::GemmThree => {
                multiply(dims[0], dims[1], dims[3]) && multiply(dims[3], dims[2], dims[4])
            }
            Kernel::Transpose => is_transposed(dims[0], dims[1]),
            Kernel::Dot => same(dims[0], dims[1]) && is_single(dims[2]),
            Kernel::Sum => is_single(dims[1]),
            Kernel::FwDiag => is_square(dims[0]),
            Kernel::FwRow => is_square(dims[0]) && dims[0].cols == dims[1].rows,
            Kernel::FwCol => is_square(dims[0]) && dims[1].cols == dims[0].rows,
            Kernel::Paste => window_fits(args, dims[0], dims[1]),
            _ => true,
        }
    }

    /// Whether the number of arguments is the codelet's. Constant time.
    pub fn arguments_fit(self, args: &[i64], dims: &[Dims]) -> bool
        requires { length dims.now ≡ length (formals_of self) }
        ensures { result ≡ arguments_fit self args.now dims.now }
    {
        match self {
            Kernel::Load => args.len() as u64 == dims[0].area(),
            _ => args.len() == self.arguments(),
        }
    }

    /// Whether it is a codelet of min-plus: the others are of ring arithmetic, or move elements as they are. Constant time.
    pub fn is_min_plus(self) -> bool
        ensures { result ≡ is_min_plus self }
    {
        matches!(
            self,
            Kernel::Lowest
                | Kernel::MinGemm
                | Kernel::FwDiag
                | Kernel::FwRow
                | Kernel::FwCol
                | Kernel::InitLeast
        )
    }

    /// Whether two runs of it on one array may change places. Constant time.
    pub fn commutes(self) -> bool
        ensures { result ≡ commutes_of self }
    {
        matches!(
            self,
            Kernel::Scale
                | Kernel::Add
                | Kernel::Axpy
                | Kernel::Gemm
                | Kernel::GemmThree
                | Kernel::Dot
                | Kernel::Sum
                | Kernel::Lowest
                | Kernel::MinGemm
        )
    }

    /// Whether a run of it adds a contribution to what the reduction combines. Constant time.
    pub fn contributes(self, by: Reduction) -> bool
        ensures { result ≡ contributes_of self by }
    {
        match by {
            Reduction::Plus => matches!(
                self,
                Kernel::Add
                    | Kernel::Axpy
                    | Kernel::Gemm
                    | Kernel::GemmThree
                    | Kernel::Dot
                    | Kernel::Sum
            ),
            Reduction::Least => matches!(self, Kernel::Lowest | Kernel::MinGemm),
        }
    }

    /// The codelet that makes a reduction's unit. Constant time.
    pub fn init(by: Reduction) -> Kernel
        ensures { result ≡ init_of by }
    {
        match by {
            Reduction::Plus => Kernel::InitPlus,
            Reduction::Least => Kernel::InitLeast,
        }
    }

    /// The codelet that combines a partial copy into another. Constant time.
    pub fn combine(by: Reduction) -> Kernel
        ensures { result ≡ combine_of by }
    {
        match by {
            Reduction::Plus => Kernel::Add,
            Reduction::Least => Kernel::Lowest,
        }
    }

    /// Its shape.
    pub fn shape(self, alloc: Global) -> Result<Shape, OutOfMemory>
        ensures { IfOk result (λ shape. shape ≡ shape_of self) }
    {
        let formals = Vec::from_slice(alloc, self.formals())?;
        Ok(Shape {
            args: self.arguments() as u32,
            formals: Sequence::of(formals),
        })
    }

    /// Whether arguments and operands are as many as the codelet has, and the dimensions go together. Constant time.
    pub fn fits(self, args: &[i64], dims: &[Dims]) -> bool
        ensures { result ≡ fits self args.now dims.now }
    {
        dims.len() == self.formals().len()
            && self.arguments_fit(args, dims)
            && self.dims_fit(args, dims)
    }
}
