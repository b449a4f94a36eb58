//! Tiles: the arrays that replicas hold and kernels compute on.

ghost use Rattle.std.specs.Prelude.{◌≡◌, ◌^◌, ◌≤◌, length, IfOk};
ghost use Rattle.std.specs.Borrow.{sem};
ghost use Rattle.sj_base.specs.Array.{area, zeros, array};

use crate::memory::OutOfMemory;
use std::alloc::Global;
use std::marker::Model;

/// The rows and columns of an array.
#[derive(Clone, Copy, Debug, PartialEq, Eq)]
pub struct Dims {
    pub rows: u32,
    pub cols: u32,
}

impl Dims {
    /// How many elements an array of these dimensions has. Constant time.
    pub fn area(&self) -> u64
        ensures { result ≡ area self.now }
    {
        self.rows as u64 * self.cols as u64
    }
}

/// An array of i64: its dimensions, and `rows * cols` elements row by row.
#[derive(Debug, Drop)]
pub struct Tile {
    dims: Dims,
    elements: Vec<i64>,
}

impl Model for Tile {
    ghost use Rattle.std.specs.Prelude.{◌≡◌, length};
    ghost use Rattle.sj_base.specs.Array.{Array, area, array};

    ghost Value = { Array };

    ghost view = { λ t. array t.dims t.elements.items };

    ghost invariant = { λ t. length t.elements.items ≡ area t.dims };
}

impl Tile {
    ghost use Rattle.sj_base.specs.Lending.{LendsElements};

    /// A tile of zeros. Linear in its elements.
    pub fn zeros(alloc: Global, dims: Dims) -> Result<Tile, OutOfMemory>
        requires { area dims ≤ 2 ^ 24 }
        ensures { IfOk result (λ t. t ≡ zeros dims) }
    {
        let elements = vec![in alloc; 0i64; dims.area() as usize]?;
        Ok(Tile { dims, elements })
    }

    /// The tile of these elements, row by row. Constant time.
    pub fn of(dims: Dims, elements: Vec<i64>) -> Tile
        requires { length elements.items ≡ area dims }
        ensures { result ≡ array dims elements.items }
    {
        Tile { dims, elements }
    }

    /// An equal tile. Linear in its elements.
    pub fn copy(&self, alloc: Global) -> Result<Tile, OutOfMemory>
        ensures { IfOk result (λ t. t ≡ self.now) }
    {
        let elements = Vec::from_slice(alloc, self.elements())?;
        Ok(Tile {
            dims: self.dims,
            elements,
        })
    }

    /// Its rows and columns. Constant time.
    pub fn dims(&self) -> Dims
        ensures dims { result ≡ self.now.dims }
        ensures whole { length self.now.elements ≡ area self.now.dims }
    {
        self.dims
    }

    /// Its elements, row by row. Constant time.
    pub fn elements(&self) -> &[i64]
        ensures elements { result.now ≡ self.now.elements }
        ensures whole { length self.now.elements ≡ area self.now.dims }
    {
        &self.elements
    }

    /// Its elements alone, row by row. Constant time.
    pub fn into_elements(self) -> Vec<i64>
        ensures { result.items ≡ self.elements }
    {
        let Tile { dims: _, elements } = self;
        elements
    }

    /// Its elements, to write to. Constant time.
    pub fn elements_mut(&mut self) -> &mut [i64]
        ensures* writes_back { sem 𝓛 (LendsElements self.entry result) }
        ensures elements { result.now ≡ self.old.elements }
    {
        self.elements.as_mut_slice()
    }
}
