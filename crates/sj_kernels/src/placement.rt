//! Kernels that put elements at other places, or make them from their places.

ghost use Rattle.std.specs.Prelude.{◌≡◌, ◌+◌, ◌*◌, ◌<◌, ◌≤◌, ◌+ℤ◌, ◌*ℤ◌, pos, length, IsTrue};
ghost use Rattle.sj_base.specs.Array.{array, area, at};
ghost use Rattle.sj_codelet.specs.Ring.{wrap};
ghost use Rattle.sj_codelet.specs.Equations.{matrix, transpose, loadfill, paste};
ghost use Rattle.sj_codelet.specs.Kernel.{lies_in};
ghost use Rattle.sj_codelet.specs.Listing.{listing};
ghost use Rattle.sj_kernels.specs.Turned.{turned_within};

use crate::elementwise::{copy, fill};
use sj_base::tile::Dims;
use sj_codelet::window::Window;

/// How many rows of A are turned at a time: their elements in a column fill two lines of the cache.
const ROWS: usize = 16;

/// How many of the remaining rows are turned at a time: half as many.
const HALF: usize = 8;

/// `B[j,i] = A[i,j]` for an m×n and an n×m matrix. Linear in the elements.
pub fn transpose(a: &[i64], b: &mut [i64], m: u32, n: u32)
    requires from { length a.now ≡ m * n }
    requires target { length b.old ≡ m * n }
    ensures { b.new ≡ (transpose (matrix m n a.now) (matrix n m b.old)).elements }
{
    let m = m as usize;
    let n = n as usize;
    for t in 0..m / ROWS {
        turn(a, b, m, n, t * ROWS, ROWS);
    }
    for t in m / ROWS * 2..m / HALF {
        turn(a, b, m, n, t * HALF, HALF);
    }
    for i in m / HALF * HALF..m {
        turn(a, b, m, n, i, 1);
    }
}

/// Turns `len` rows of A from `first` on into columns of B. For each row of B these rows are read side by side, and
/// its part is written at once.
#[inline(always)]
fn turn(a: &[i64], b: &mut [i64], m: usize, n: usize, first: usize, len: usize)
    requires from { length a.now ≡ m * n }
    requires target { length b.old ≡ m * n }
    requires within { first + len ≤ m }
    ensures { b.new ≡ listing (length b.old) (turned_within first len m n a.now b.old) }
{
    let rows = &a[first * n..first * n + len * n];
    for j in 0..n {
        let row = &mut b[j * m..j * m + m];
        column(rows, n, j, &mut row[first..first + len]);
    }
}

/// The column `j` of a matrix with `n` columns.
fn column(a: &[i64], n: usize, j: usize, row: &mut [i64])
    requires whole { length a.now ≡ length row.old * n }
    requires within { j < n }
    ensures { row.new ≡ listing (length row.old) (λ i. at a.now (i * n + j)) }
{
    for i in 0..row.len() {
        row[i] = a[i * n + j];
    }
}

/// The part at `(r0, c0)` of a root with `cols` columns whose element at position `p` is `a + b p`, wrapping.
/// Linear in `x`.
pub fn loadfill(a: i64, b: i64, r0: i64, c0: i64, cols: i64, x: &mut [i64], dims: Dims)
    requires { length x.old ≡ area dims }
    ensures { x.new ≡ (loadfill a b r0 c0 cols (array dims x.old)).elements }
{
    let n = dims.cols as usize;
    for i in 0..dims.rows {
        let start = row_start(a, b, r0, c0, cols, i);
        let row = i as usize * n;
        fill(start, b, &mut x[row..row + n]);
    }
}

/// The element at the start of row `i` of such a part.
fn row_start(a: i64, b: i64, r0: i64, c0: i64, cols: i64, i: u32) -> i64
    ensures { result ≡ wrap (a +ℤ (b *ℤ (((r0 +ℤ pos i) *ℤ cols) +ℤ c0))) }
{
    let row = r0.wrapping_add(i as i64);
    let place = row.wrapping_mul(cols).wrapping_add(c0);
    a.wrapping_add(b.wrapping_mul(place))
}

/// Copies the window from the old array into the new one. Linear in the window.
pub fn paste(window: Window, old: &[i64], old_dims: Dims, new: &mut [i64], new_dims: Dims)
    requires old_whole { length old.now ≡ area old_dims }
    requires new_whole { length new.old ≡ area new_dims }
    requires from { IsTrue
        (lies_in window.old_row window.old_col window.rows window.cols old_dims) }
    requires target { IsTrue
        (lies_in window.new_row window.new_col window.rows window.cols new_dims) }
    ensures { new.new ≡ (paste window (array old_dims old.now) (array new_dims new.old)).elements }
{
    let n = window.cols as usize;
    for i in 0..window.rows {
        let start = place(window.old_row + i, window.old_col, window.cols, old_dims);
        let to = place(window.new_row + i, window.new_col, window.cols, new_dims);
        copy(&old[start..start + n], &mut new[to..to + n]);
    }
}

/// Where an element stands, from which on `n` more elements of its row follow.
fn place(row: u64, col: u64, n: u64, dims: Dims) -> usize
    requires row_within { row < dims.rows }
    requires cols_within { col + n ≤ dims.cols }
    ensures place { result ≡ row * dims.cols + col }
    ensures within { result + n ≤ area dims }
{
    row as usize * dims.cols as usize + col as usize
}
