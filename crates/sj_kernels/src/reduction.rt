//! Kernels that add up whole arrays into one element.

ghost use Rattle.std.specs.Prelude.{◌≡◌, ◌*ℤ◌, length};
ghost use Rattle.sj_base.specs.Array.{at};
ghost use Rattle.sj_codelet.specs.Ring.{wrap, sum_below};
ghost use Rattle.sj_codelet.specs.Equations.{vector, dot, sum};

use crate::scalar::with_product;

/// Adds the sum of `x(i) y(i)` to `s(0)`, wrapping. Linear in `x`.
pub fn dot(x: &[i64], y: &[i64], s: &mut [i64])
    requires same { length x.now ≡ length y.now }
    requires single { length s.old ≡ 1 }
    ensures { s.new ≡ (dot (vector x.now) (vector y.now) (vector s.old)).elements }
{
    s[0] = s[0].wrapping_add(sum_of_products(x, y));
}

/// Adds the sum of `x(i)` to `s(0)`, wrapping. Linear in `x`.
pub fn sum(x: &[i64], s: &mut [i64])
    requires { length s.old ≡ 1 }
    ensures { s.new ≡ (sum (vector x.now) (vector s.old)).elements }
{
    s[0] = s[0].wrapping_add(sum_of(x));
}

/// Four terms at a time: of a loop over single ones the compiler makes vectors, whose 64-bit product is slower.
fn sum_of_products(x: &[i64], y: &[i64]) -> i64
    requires { length x.now ≡ length y.now }
    ensures { result ≡ wrap (sum_below (length x.now) (λ q. at x.now q *ℤ at y.now q)) }
{
    let mut total = 0i64;
    let n = x.len();
    for q in 0..n / 4 {
        let i = q * 4;
        total = with_product(total, x[i], y[i]);
        total = with_product(total, x[i + 1], y[i + 1]);
        total = with_product(total, x[i + 2], y[i + 2]);
        total = with_product(total, x[i + 3], y[i + 3]);
    }
    for i in n / 4 * 4..n {
        total = with_product(total, x[i], y[i]);
    }
    total
}

fn sum_of(x: &[i64]) -> i64
    ensures { result ≡ wrap (sum_below (length x.now) (at x.now)) }
{
    let mut total = 0i64;
    for i in 0..x.len() {
        total = total.wrapping_add(x[i]);
    }
    total
}
