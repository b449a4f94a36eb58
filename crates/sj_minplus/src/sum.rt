//! Min-plus arithmetic on single numbers.

ghost use Rattle.std.specs.Prelude.{◌≡◌, pos, ◌≤ℤ◌, ◌<ℤ◌};
ghost use Rattle.sj_codelet.specs.MinPlus.{inf, plus};

/// No way: the greatest i64. A sum with it is again `INF`.
pub const INF: i64 = i64::MAX;

/// The sum of min-plus: `INF` where a or b is `INF`, else the exact sum, kept between the least i64 and the greatest
/// number below `INF`. Constant time.
#[inline(always)]
pub fn plus(a: i64, b: i64) -> i64
    ensures { result ≡ plus a b }
{
    if a == INF {
        INF
    } else if 0 <= a {
        longer(a, b)
    } else {
        shorter(a, b)
    }
}

/// The same where `a` is no way back, without branches: it can only be too great.
#[inline(always)]
fn longer(a: i64, b: i64) -> i64
    requires low { pos 0 ≤ℤ a }
    requires high { a <ℤ inf }
    ensures { result ≡ plus a b }
{
    let sum = b.min(INF - 1 - a) + a;
    if b == INF { INF } else { sum }
}

/// The same where `a` is negative, without branches: it can only be too small.
#[inline(always)]
fn shorter(a: i64, b: i64) -> i64
    requires { a <ℤ pos 0 }
    ensures { result ≡ plus a b }
{
    let sum = b.max(i64::MIN - a) + a;
    if b == INF { INF } else { sum }
}
