//! Kernels whose new element at a position depends on the old elements at this position alone.

ghost use Rattle.std.specs.Prelude.{◌≡◌, length, ◌+ℤ◌, ◌*ℤ◌};
ghost use Rattle.sj_base.specs.Array.{at};
ghost use Rattle.sj_codelet.specs.Ring.{wrap};
ghost use Rattle.sj_codelet.specs.Listing.{listing};
ghost use Rattle.sj_codelet.specs.Equations.{vector, fill, scale, add, subtract, axpy};

use crate::scalar::{with_product, wrapped_product};

/// `x(i) = a + b i`, wrapping. Linear in `x`.
pub fn fill(a: i64, b: i64, x: &mut [i64])
    ensures { x.new ≡ (fill a b (vector x.old)).elements }
{
    let mut value = a;
    for i in 0..x.len() {
        x[i] = value;
        value = value.wrapping_add(b);
    }
}

/// `x(i) = a x(i)`, wrapping. Linear in `x`. Eight elements at a time: of a loop over single ones the compiler makes
/// vectors, whose 64-bit product is slower than single products. It is not inlined, so that `a` stays in a register.
#[inline(never)]
pub fn scale(a: i64, x: &mut [i64])
    ensures { x.new ≡ (scale a (vector x.old)).elements }
{
    let n = x.len();
    for q in 0..n / 8 {
        let j = q * 8;
        scale_eight(a, &mut x[j..j + 8]);
    }
    for j in n / 8 * 8..n {
        x[j] = wrapped_product(a, x[j]);
    }
}

#[inline(always)]
fn scale_eight(a: i64, x: &mut [i64])
    requires { length x.old ≡ 8 }
    ensures { x.new ≡ listing 8 (λ q. wrap (a *ℤ at x.old q)) }
{
    let scaled = [
        wrapped_product(a, x[0]),
        wrapped_product(a, x[1]),
        wrapped_product(a, x[2]),
        wrapped_product(a, x[3]),
        wrapped_product(a, x[4]),
        wrapped_product(a, x[5]),
        wrapped_product(a, x[6]),
        wrapped_product(a, x[7]),
    ];
    x.copy_from_slice(&scaled);
}

/// `y(i) = x(i)`. Linear in `y`.
pub fn copy(x: &[i64], y: &mut [i64])
    requires { length x.now ≡ length y.old }
    ensures { y.new ≡ x.now }
{
    y.copy_from_slice(x);
}

/// `y(i) = y(i) + x(i)`, wrapping. Linear in `y`.
pub fn add(x: &[i64], y: &mut [i64])
    requires { length x.now ≡ length y.old }
    ensures { y.new ≡ (add (vector x.now) (vector y.old)).elements }
{
    add_product(1, x, y);
}

/// `y(i) = y(i) + a x(i)`, wrapping. Linear in `y`.
pub fn axpy(a: i64, x: &[i64], y: &mut [i64])
    requires { length x.now ≡ length y.old }
    ensures { y.new ≡ (axpy a (vector x.now) (vector y.old)).elements }
{
    add_product(a, x, y);
}

/// What `axpy` does, eight elements at a time, as in `scale`. It is inlined, so that for 1 no product is left.
#[inline(always)]
fn add_product(a: i64, x: &[i64], y: &mut [i64])
    requires { length x.now ≡ length y.old }
    ensures { y.new ≡ (axpy a (vector x.now) (vector y.old)).elements }
{
    let n = y.len();
    for q in 0..n / 8 {
        let j = q * 8;
        axpy_eight(a, &x[j..j + 8], &mut y[j..j + 8]);
    }
    for j in n / 8 * 8..n {
        y[j] = with_product(y[j], a, x[j]);
    }
}

#[inline(always)]
fn axpy_eight(a: i64, x: &[i64], y: &mut [i64])
    requires eight { length x.now ≡ 8 }
    requires target { length y.old ≡ 8 }
    ensures { y.new ≡ listing 8 (λ q. wrap (at y.old q +ℤ (a *ℤ at x.now q))) }
{
    let sums = [
        with_product(y[0], a, x[0]),
        with_product(y[1], a, x[1]),
        with_product(y[2], a, x[2]),
        with_product(y[3], a, x[3]),
        with_product(y[4], a, x[4]),
        with_product(y[5], a, x[5]),
        with_product(y[6], a, x[6]),
        with_product(y[7], a, x[7]),
    ];
    y.copy_from_slice(&sums);
}

/// New `x(i) = x(i) + y(i)` and new `y(i) = x(i) - y(i)`, both from the old ones and wrapping. Linear in `x`.
pub fn butterfly(x: &mut [i64], y: &mut [i64])
    requires { length x.old ≡ length y.old }
    ensures sums { x.new ≡ (add (vector y.old) (vector x.old)).elements }
    ensures differences { y.new ≡ (subtract (vector y.old) (vector x.old)).elements }
{
    for i in 0..x.len() {
        let old = x[i];
        x[i] = old.wrapping_add(y[i]);
        y[i] = old.wrapping_sub(y[i]);
    }
}
