//! Single elements, multiplied and added, wrapping.

ghost use Rattle.std.specs.Prelude.{◌≡◌, ◌+ℤ◌, ◌*ℤ◌};
ghost use Rattle.sj_codelet.specs.Ring.{wrap};

/// `x y`.
#[inline(always)]
pub fn wrapped_product(x: i64, y: i64) -> i64
    ensures { result ≡ wrap (x *ℤ y) }
{
    x.wrapping_mul(y)
}

/// `total + x y`.
#[inline(always)]
pub fn with_product(total: i64, x: i64, y: i64) -> i64
    ensures { result ≡ wrap (total +ℤ (x *ℤ y)) }
{
    total.wrapping_add(x.wrapping_mul(y))
}
