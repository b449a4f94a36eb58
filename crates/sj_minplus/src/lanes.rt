//! Min-plus arithmetic over vectors of eight lanes.

ghost use Rattle.std.specs.Prelude.{◌≡◌, ℕ, ◌<◌, ◌+ℤ◌, ◌-ℤ◌, if◌then◌else◌};
ghost use Rattle.std.specs.Int.{w64, int_wrap};
ghost use Rattle.std.specs.Int.Signed.{lt_z};
ghost use Rattle.sj_base.specs.Array.{at};
ghost use Rattle.sj_codelet.specs.MinPlus.{plus};
ghost use Rattle.sj_minplus.specs.Lanes.{AreLanes};

use crate::sum::INF;
use std::simd::prelude::*;

/// The lanes of `yes` where those of `x` are less than those of `y`, else those of `no`.
#[inline(always)]
fn where_less(x: i64x8, y: i64x8, yes: i64x8, no: i64x8) -> i64x8
    requires x { AreLanes x }
    requires y { AreLanes y }
    requires yes { AreLanes yes }
    requires no { AreLanes no }
    ensures lanes { AreLanes result }
    ensures each { (i : ℕ) → i < 8
        → at result i ≡ (if lt_z (at x i) (at y i) then at yes i else at no i) }
{
    x.simd_lt(y).select(yes, no)
}

#[inline(always)]
fn sums(x: i64x8, y: i64x8) -> i64x8
    requires x { AreLanes x }
    requires y { AreLanes y }
    ensures lanes { AreLanes result }
    ensures each { (i : ℕ) → i < 8 → at result i ≡ int_wrap w64 (at x i +ℤ at y i) }
{
    x + y
}

#[inline(always)]
fn differences(x: i64x8, y: i64x8) -> i64x8
    requires x { AreLanes x }
    requires y { AreLanes y }
    ensures lanes { AreLanes result }
    ensures each { (i : ℕ) → i < 8 → at result i ≡ int_wrap w64 (at x i -ℤ at y i) }
{
    x - y
}

#[inline(always)]
fn all(x: i64) -> i64x8
    ensures lanes { AreLanes result }
    ensures each { (i : ℕ) → i < 8 → at result i ≡ x }
{
    i64x8::splat(x)
}

/// The sum of min-plus in each lane, by comparison and selection of lanes. Constant time, and no memory.
pub fn plus8(a: i64x8, b: i64x8) -> i64x8
    requires a { AreLanes a }
    requires b { AreLanes b }
    ensures lanes { AreLanes result }
    ensures sums { (i : ℕ) → i < 8 → at result i ≡ plus (at a i) (at b i) }
{
    let inf = all(INF);
    let greatest = all(INF - 1);
    let least = all(i64::MIN);
    let zero = all(0);
    let room = differences(greatest, a);
    let floor = differences(least, a);
    let high = where_less(room, b, room, b);
    let low = where_less(b, floor, floor, b);
    let kept = where_less(a, zero, low, high);
    let sum = sums(kept, a);
    let known = where_less(greatest, a, inf, sum);
    where_less(greatest, b, inf, known)
}
