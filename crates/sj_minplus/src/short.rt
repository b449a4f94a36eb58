//! Rows of min-plus where no sum needs a clamp: lengths that are `INF` or from 0 below 2^62, held 2^63 lower. There the
//! plain sum of a lowered number and another one is an i64, and above each lowered length where one of them is `INF`.

ghost use Rattle.std.specs.Prelude.{◌≡◌, ℕ, ◌<◌, ◌+ℤ◌, length, IsTrue, FitsSigned};
ghost use Rattle.std.specs.Int.{w64, int_min};
ghost use Rattle.std.specs.List.{All};
ghost use Rattle.sj_base.specs.Array.{at};
ghost use Rattle.sj_codelet.specs.MinPlus.{plus};
ghost use Rattle.sj_minplus.specs.Short.{IsShort, NotNegative, IsNegative, raised};

use crate::sum::INF;

/// Below this the sum of two numbers is below `INF`.
const SHORT: u64 = 1 << 62;

/// The bits of a number, or none for `INF`.
#[inline(always)]
fn bits_but_of_inf(x: i64) -> u64
    ensures { result < 4611686018427387904 → IsShort x }
{
    if x == INF { 0 } else { x.cast_unsigned() }
}

/// Whether a number is from 0 below 2^62. Constant time.
#[inline(always)]
pub fn is_short_way(x: i64) -> bool
    ensures { IsTrue result → IsShort x }
{
    x.cast_unsigned() < SHORT
}

/// Whether each number is `INF` or from 0 below 2^62. Linear, without branches.
pub fn are_short(xs: &[i64]) -> bool
    ensures { IsTrue result → All IsShort xs.now }
{
    let mut seen = 0u64;
    for x in xs {
        seen |= bits_but_of_inf(*x);
    }
    seen < SHORT
}

/// The bits of a number.
#[inline(always)]
fn bits(x: i64) -> u64
    ensures { result < 9223372036854775808 → NotNegative x }
{
    x.cast_unsigned()
}

/// Whether no number is negative. Linear, without branches.
pub fn none_negative(xs: &[i64]) -> bool
    ensures { IsTrue result → All NotNegative xs.now }
{
    let mut seen = 0u64;
    for x in xs {
        seen |= bits(*x);
    }
    seen <= INF as u64
}

/// Whether no number of either is negative. Linear, without branches.
pub fn none_negative_of(xs: &[i64], ys: &[i64]) -> bool
    ensures first { IsTrue result → All NotNegative xs.now }
    ensures second { IsTrue result → All NotNegative ys.now }
{
    none_negative(xs) && none_negative(ys)
}

/// Each number is held 2^63 lower.
pub fn lower_row(row: &mut [i64])
    requires { All NotNegative row.old }
    ensures value { (j : ℕ) → j < length row.old → raised (at row.new j) ≡ at row.old j }
    ensures low { All IsNegative row.new }
{
    for j in 0..row.len() {
        row[j] = row[j] + i64::MIN;
    }
}

/// Each number is as it was before it was held 2^63 lower.
pub fn raise(row: &mut [i64])
    requires { All IsNegative row.old }
    ensures { (j : ℕ) → j < length row.old → at row.new j ≡ raised (at row.old j) }
{
    for j in 0..row.len() {
        row[j] = row[j] - i64::MIN;
    }
}

/// Each element becomes the lesser of itself and the plain sum of `via` and the element of `other`.
fn take_lesser(row: &mut [i64], via: i64, other: &[i64])
    requires lengths { length row.old ≡ length other.now }
    requires sums { All (λ z. FitsSigned w64 (via +ℤ z)) other.now }
    ensures { (j : ℕ) → j < length row.old
        → at row.new j ≡ int_min (at row.old j) (via +ℤ at other.now j) }
{
    for j in 0..row.len() {
        row[j] = row[j].min(via + other[j]);
    }
}

#[inline(always)]
fn least_of(x: i64, y: i64, z: i64) -> i64
    ensures { result ≡ int_min (int_min x y) z }
{
    let lesser = x.min(y);
    lesser.min(z)
}

/// The same with two other rows in one pass.
fn take_least(row: &mut [i64], via: i64, other: &[i64], then: i64, last: &[i64])
    requires other { length row.old ≡ length other.now }
    requires last { length row.old ≡ length last.now }
    requires sums { All (λ z. FitsSigned w64 (via +ℤ z)) other.now }
    requires last_sums { All (λ z. FitsSigned w64 (then +ℤ z)) last.now }
    ensures { (j : ℕ) → j < length row.old
        → at row.new j ≡ int_min (int_min (at row.old j) (via +ℤ at other.now j))
        (then +ℤ at last.now j) }
{
    for j in 0..row.len() {
        row[j] = least_of(row[j], via + other[j], then + last[j]);
    }
}

/// On a row that is held lower: each element becomes the lesser of itself and `via` with the element of `other`.
pub fn relax_low(row: &mut [i64], via: i64, other: &[i64])
    requires lengths { length row.old ≡ length other.now }
    requires low { All IsNegative row.old }
    requires via { IsShort via }
    requires other { All IsShort other.now }
    ensures value { (j : ℕ) → j < length row.old
        → raised (at row.new j) ≡ int_min (raised (at row.old j)) (plus via (at other.now j)) }
    ensures low { All IsNegative row.new }
{
    take_lesser(row, via + i64::MIN, other);
}

/// The same with two other rows in one pass.
pub fn relax_low_twice(row: &mut [i64], via: i64, other: &[i64], then: i64, last: &[i64])
    requires other { length row.old ≡ length other.now }
    requires last { length row.old ≡ length last.now }
    requires low { All IsNegative row.old }
    requires via { IsShort via }
    requires others { All IsShort other.now }
    requires then { IsShort then }
    requires lasts { All IsShort last.now }
    ensures value { (j : ℕ) → j < length row.old → raised (at row.new j) ≡ int_min
        (int_min (raised (at row.old j)) (plus via (at other.now j)))
        (plus then (at last.now j)) }
    ensures low { All IsNegative row.new }
{
    take_least(row, via + i64::MIN, other, then + i64::MIN, last);
}
