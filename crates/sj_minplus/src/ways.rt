//! Shortest ways within blocks of a matrix of lengths (Floyd and Warshall): a turn for each vertex, in which each
//! element becomes the lesser of itself and the way through this vertex, all from the elements before the turn. A turn
//! takes less time where no element is negative, and those of the row of its vertex are `INF` or below 2^62.

ghost use Rattle.std.specs.Prelude.{◌≡◌, ℕ, ◌+◌, ◌*◌, ◌<◌, ◌≤◌, length, IsTrue};
ghost use Rattle.std.specs.Int.{int_min};
ghost use Rattle.std.specs.List.{All};
ghost use Rattle.sj_base.specs.Array.{at};
ghost use Rattle.sj_codelet.specs.MinPlus.{plus};
ghost use Rattle.sj_codelet.specs.Equations.{matrix, fwdiag, fwrow, fwcol};
ghost use Rattle.sj_minplus.specs.Short.{IsShort, NotNegative};
ghost use Rattle.sj_minplus.specs.Turns.{diagonal_turn, row_turn, column_turn};

use crate::row::{relax_either, relax_itself};
use crate::short::{are_short, none_negative, none_negative_of};

/// Each row becomes the lesser of itself and `through` with its own element in column k. `short` is known of them: that
/// no element of `a` is negative, and all of `through` is short.
fn relax_rows(a: &mut [i64], rows: usize, k: usize, through: &[i64], short: bool)
    requires lengths { length a.old ≡ rows * length through.now }
    requires rows { IsTrue short → All NotNegative a.old }
    requires through { IsTrue short → All IsShort through.now }
    requires column { k < length through.now }
    ensures { (i j : ℕ) → i < rows → j < length through.now
        → at a.new (i * length through.now + j) ≡ int_min (at a.old (i * length through.now + j))
        (plus (at a.old (i * length through.now + k)) (at through.now j)) }
{
    let width = through.len();
    for i in 0..rows {
        let via = a[i * width + k];
        relax_either(&mut a[i * width..i * width + width], via, through, short);
    }
}

/// The same with the element in column k of `d`, n wide, in place of the row's own: row i goes with row `first + i`.
fn relax_rows_by(
    d: &[i64],
    n: usize,
    k: usize,
    first: usize,
    a: &mut [i64],
    rows: usize,
    through: &[i64],
    short: bool,
)
    requires d { (first + rows) * n ≤ length d.now }
    requires lengths { length a.old ≡ rows * length through.now }
    requires rows { IsTrue short → All NotNegative a.old }
    requires through { IsTrue short → All IsShort through.now }
    requires column { k < n }
    ensures { (i j : ℕ) → i < rows → j < length through.now
        → at a.new (i * length through.now + j) ≡ int_min (at a.old (i * length through.now + j))
        (plus (at d.now ((first + i) * n + k)) (at through.now j)) }
{
    let width = through.len();
    for i in 0..rows {
        let via = d[(first + i) * n + k];
        relax_either(&mut a[i * width..i * width + width], via, through, short);
    }
}

/// The turn of vertex k. Row k is changed last, since all others read it. `natural` is known: that no element is
/// negative.
fn turn_diagonal(a: &mut [i64], n: usize, k: usize, natural: bool)
    requires lengths { length a.old ≡ n * n }
    requires vertex { k < n }
    requires natural { IsTrue natural → All NotNegative a.old }
    ensures { a.new ≡ (diagonal_turn k (matrix n n a.old)).elements }
{
    let (above, rest) = a.split_at_mut(k * n);
    let (through, below) = rest.split_at_mut(n);
    let short = natural && are_short(through);
    relax_rows(above, k, k, through, short);
    relax_rows(below, n - k - 1, k, through, short);
    let via = through[k];
    relax_itself(through, via);
}

/// The turn of vertex k. Row k is changed last, since all others read it. `natural` is known: that no element is
/// negative.
fn turn_row(d: &[i64], a: &mut [i64], n: usize, m: usize, k: usize, natural: bool)
    requires d { length d.now ≡ n * n }
    requires a { length a.old ≡ n * m }
    requires vertex { k < n }
    requires natural { IsTrue natural → All NotNegative a.old }
    ensures { a.new ≡ (row_turn (matrix n n d.now) k (matrix n m a.old)).elements }
{
    let (above, rest) = a.split_at_mut(k * m);
    let (through, below) = rest.split_at_mut(m);
    let short = natural && are_short(through);
    relax_rows_by(d, n, k, 0, above, k, through, short);
    relax_rows_by(d, n, k, k + 1, below, n - k - 1, through, short);
    relax_itself(through, d[k * n + k]);
}

/// The turn of vertex k, whose row is that of `d`.
fn turn_column(d: &[i64], a: &mut [i64], n: usize, m: usize, k: usize, natural: bool)
    requires d { length d.now ≡ n * n }
    requires a { length a.old ≡ m * n }
    requires vertex { k < n }
    requires natural { IsTrue natural → All NotNegative a.old }
    ensures { a.new ≡ (column_turn (matrix n n d.now) k (matrix m n a.old)).elements }
{
    let through = &d[k * n..k * n + n];
    let short = natural && are_short(through);
    relax_rows(a, m, k, through, short);
}

/// Shortest ways within the block `a` on the diagonal, n by n: n turns of n n sums each.
pub fn fwdiag(a: &mut [i64], n: u32)
    requires { length a.old ≡ n * n }
    ensures { a.new ≡ (fwdiag (matrix n n a.old)).elements }
{
    let n = n as usize;
    let natural = none_negative(a);
    for k in 0..n {
        turn_diagonal(a, n, k, natural);
    }
}

/// The same for a block `a` in the row of the diagonal block `d`, n by n, with m columns: n turns of n m sums each.
pub fn fwrow(d: &[i64], a: &mut [i64], n: u32, m: u32)
    requires d { length d.now ≡ n * n }
    requires a { length a.old ≡ n * m }
    ensures { a.new ≡ (fwrow (matrix n n d.now) (matrix n m a.old)).elements }
{
    let n = n as usize;
    let m = m as usize;
    let natural = none_negative_of(d, a);
    for k in 0..n {
        turn_row(d, a, n, m, k, natural);
    }
}

/// The same for a block `a` in the column of the diagonal block `d`, n by n, with m rows: n turns of m n sums each.
pub fn fwcol(d: &[i64], a: &mut [i64], n: u32, m: u32)
    requires d { length d.now ≡ n * n }
    requires a { length a.old ≡ m * n }
    ensures { a.new ≡ (fwcol (matrix n n d.now) (matrix m n a.old)).elements }
{
    let n = n as usize;
    let m = m as usize;
    let natural = none_negative_of(d, a);
    for k in 0..n {
        turn_column(d, a, n, m, k, natural);
    }
}
