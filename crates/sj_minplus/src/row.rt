//! Rows of min-plus: each element with the sum of a fixed number and the same element of another row.

ghost use Rattle.std.specs.Prelude.{◌≡◌, ℕ, ◌<◌, length, IsTrue};
ghost use Rattle.std.specs.Int.{int_min};
ghost use Rattle.std.specs.List.{All};
ghost use Rattle.sj_base.specs.Array.{at};
ghost use Rattle.sj_codelet.specs.MinPlus.{plus};
ghost use Rattle.sj_minplus.specs.Short.{IsShort, NotNegative};

use crate::short::is_short_way;
use crate::sum::plus;

/// Each element becomes the lesser of itself and `via` with the element of `other`. Linear in the row.
pub fn relax(row: &mut [i64], via: i64, other: &[i64])
    requires { length row.old ≡ length other.now }
    ensures { (j : ℕ) → j < length row.old
        → at row.new j ≡ int_min (at row.old j) (plus via (at other.now j)) }
{
    for j in 0..row.len() {
        row[j] = row[j].min(plus(via, other[j]));
    }
}

/// The lesser of `x` and the sum of `via` and `y`, which needs no clamp: `via` is added to what it leaves of the lesser.
#[inline(always)]
fn lesser(x: i64, via: i64, y: i64) -> i64
    requires x { NotNegative x }
    requires via { IsShort via }
    requires y { IsShort y }
    ensures { result ≡ int_min x (plus via y) }
{
    y.min(x - via) + via
}

/// The same as `relax` where all numbers are short.
fn relax_short(row: &mut [i64], via: i64, other: &[i64])
    requires lengths { length row.old ≡ length other.now }
    requires row { All NotNegative row.old }
    requires via { IsShort via }
    requires other { All IsShort other.now }
    ensures { (j : ℕ) → j < length row.old
        → at row.new j ≡ int_min (at row.old j) (plus via (at other.now j)) }
{
    for j in 0..row.len() {
        row[j] = lesser(row[j], via, other[j]);
    }
}

/// The same as `relax`, in less time where `via` is from 0 below 2^62 and `short` is known of the rows: that none of the
/// row's elements is negative, and all of the other's are short. Where `via` is `INF`, nothing changes, and `relax` finds
/// that at once.
pub fn relax_either(row: &mut [i64], via: i64, other: &[i64], short: bool)
    requires lengths { length row.old ≡ length other.now }
    requires row { IsTrue short → All NotNegative row.old }
    requires other { IsTrue short → All IsShort other.now }
    ensures { (j : ℕ) → j < length row.old
        → at row.new j ≡ int_min (at row.old j) (plus via (at other.now j)) }
{
    if short && is_short_way(via) {
        relax_short(row, via, other);
    } else {
        relax(row, via, other);
    }
}

/// Each element becomes the lesser of itself and `via` with itself. Linear in the row.
pub fn relax_itself(row: &mut [i64], via: i64)
    ensures { (j : ℕ) → j < length row.old
        → at row.new j ≡ int_min (at row.old j) (plus via (at row.old j)) }
{
    for j in 0..row.len() {
        row[j] = row[j].min(plus(via, row[j]));
    }
}
