//! The min-plus product of two matrices.

ghost use Rattle.std.specs.Prelude.{◌≡◌, ℕ, ◌+◌, ◌*◌, ◌<◌, length, IsTrue};
ghost use Rattle.std.specs.List.{All};
ghost use Rattle.sj_base.specs.Array.{at};
ghost use Rattle.sj_codelet.specs.MinPlus.{plus, least_below};
ghost use Rattle.sj_codelet.specs.Equations.{matrix, mingemm};
ghost use Rattle.sj_minplus.specs.Short.{IsShort, NotNegative, IsNegative, raised};

use crate::row::relax;
use crate::short::{are_short, lower_row, none_negative, raise, relax_low, relax_low_twice};

/// `c[j]` becomes the least of itself and all `a[l] + b[l,j]`, where `b` has a row for each element of `a`. `short` is
/// known of `b`: that all its elements are short.
fn relax_by_all(a: &[i64], b: &[i64], c: &mut [i64], short: bool)
    requires lengths { length b.now ≡ length a.now * length c.old }
    requires short { IsTrue short → All IsShort b.now }
    ensures { (j : ℕ) → j < length c.old → at c.new j ≡ least_below (length a.now) (at c.old j)
        (λ l. plus (at a.now l) (at b.now (l * length c.old + j))) }
{
    if short && are_short(a) && none_negative(c) {
        relax_by_short(a, b, c);
    } else {
        relax_by_any(a, b, c);
    }
}

fn relax_by_any(a: &[i64], b: &[i64], c: &mut [i64])
    requires { length b.now ≡ length a.now * length c.old }
    ensures { (j : ℕ) → j < length c.old → at c.new j ≡ least_below (length a.now) (at c.old j)
        (λ l. plus (at a.now l) (at b.now (l * length c.old + j))) }
{
    let width = c.len();
    for l in 0..a.len() {
        relax(c, a[l], &b[l * width..l * width + width]);
    }
}

/// The same where all numbers are short: `c` is held 2^63 lower meanwhile, and takes two rows of `b` in each pass.
fn relax_by_short(a: &[i64], b: &[i64], c: &mut [i64])
    requires lengths { length b.now ≡ length a.now * length c.old }
    requires a { All IsShort a.now }
    requires b { All IsShort b.now }
    requires c { All NotNegative c.old }
    ensures { (j : ℕ) → j < length c.old → at c.new j ≡ least_below (length a.now) (at c.old j)
        (λ l. plus (at a.now l) (at b.now (l * length c.old + j))) }
{
    lower_row(c);
    relax_by_pairs(a, b, c);
    raise(c);
}

/// The same on a row that is held lower.
fn relax_by_pairs(a: &[i64], b: &[i64], c: &mut [i64])
    requires lengths { length b.now ≡ length a.now * length c.old }
    requires a { All IsShort a.now }
    requires b { All IsShort b.now }
    requires c { All IsNegative c.old }
    ensures value { (j : ℕ) → j < length c.old → raised (at c.new j) ≡ least_below (length a.now)
        (raised (at c.old j)) (λ l. plus (at a.now l) (at b.now (l * length c.old + j))) }
    ensures low { All IsNegative c.new }
{
    let width = c.len();
    let mut l = 0;
    while l + 1 < a.len() {
        let next = l + 1;
        let first = &b[l * width..l * width + width];
        let second = &b[next * width..next * width + width];
        relax_low_twice(c, a[l], first, a[next], second);
        l += 2;
    }
    if l < a.len() {
        relax_low(c, a[l], &b[l * width..l * width + width]);
    }
}

/// `c[i,j]` becomes the least of itself and all `a[i,l] + b[l,j]`, for `a` of m rows and k columns, `b` of k and n,
/// `c` of m and n. It goes along rows: m k n sums. A row takes about half
/// the time where all of it, of `b` and of `a`'s row is short: `INF` or from 0, and in `a` and `b` below 2^62.
pub fn mingemm(a: &[i64], b: &[i64], c: &mut [i64], m: u32, k: u32, n: u32)
    requires a { length a.now ≡ m * k }
    requires b { length b.now ≡ k * n }
    requires c { length c.old ≡ m * n }
    ensures { c.new ≡ (mingemm (matrix m k a.now) (matrix k n b.now) (matrix m n c.old)).elements }
{
    let k = k as usize;
    let n = n as usize;
    let short = are_short(b);
    for i in 0..m as usize {
        relax_by_all(&a[i * k..i * k + k], b, &mut c[i * n..i * n + n], short);
    }
}
