//! Answers by hand and by plain loops: each kernel of min-plus once.

ghost use Rattle.std.specs.Prelude.{◌≤◌};
ghost use Rattle.sj_minplus.specs.Lanes.{AreLanes};

use crate::numbers::same;
use sj_minplus::lanes::plus8;
use sj_minplus::least::{init_least, lowest};
use sj_minplus::product::mingemm;
use sj_minplus::sum::{INF, plus};
use sj_minplus::ways::{fwcol, fwdiag, fwrow};
use std::process::Abort;
use std::simd::prelude::*;

const TOP: i64 = i64::MAX - 1;

const LEAST: i64 = i64::MIN;

#[test]
fn sums_absorb_inf_and_stop_at_both_ends(rt: HostRuntime) {
    for (a, b, sum) in [
        (3, 4, 7),
        (-1, 1, 0),
        (INF, 5, INF),
        (5, INF, INF),
        (INF, INF, INF),
        (INF, LEAST, INF),
        (LEAST, INF, INF),
        (-1, INF, INF),
        (TOP, 0, TOP),
        (TOP, 1, TOP),
        (TOP, TOP, TOP),
        (9223372036854775800, 100, TOP),
        (1, 9223372036854775805, TOP),
        (-1, TOP, 9223372036854775805),
        (LEAST, 0, LEAST),
        (LEAST, -1, LEAST),
        (-1, LEAST, LEAST),
        (LEAST, LEAST, LEAST),
        (LEAST, TOP, -2),
        (TOP, LEAST, -2),
    ] {
        assert_eq!(rt; plus(a, b), sum, "at {a} and {b}");
    }
}

#[test]
fn products_are_least_sums(rt: HostRuntime) {
    let mut c = [INF];
    mingemm(&[INF, 9223372036854775800], &[5, 100], &mut c, 1, 2, 1);
    same(&rt, &c, &[9223372036854775806]);
    let mut c = [INF, INF, INF, 0, 0, 0];
    mingemm(
        &[0, 1, INF, -2],
        &[5, INF, LEAST, 3, -4, 7],
        &mut c,
        2,
        2,
        3,
    );
    same(&rt, &c, &[4, -3, LEAST, 0, -6, 0]);
    let mut c = [8];
    mingemm(&[], &[], &mut c, 1, 0, 1);
    same(&rt, &c, &[8]);
}

#[test]
fn the_reduction_takes_the_lesser_from_inf(rt: HostRuntime) {
    let mut y = [5, 2, 0];
    lowest(&[3, INF, LEAST], &mut y);
    same(&rt, &y, &[3, 2, LEAST]);
    init_least(&mut y);
    same(&rt, &y, &[INF, INF, INF]);
}

#[test]
fn a_turn_reads_what_stood_before_it(rt: HostRuntime) {
    let mut d = [0, 4, INF, 0];
    fwdiag(&mut d, 2);
    same(&rt, &d, &[0, 4, INF, 0]);
    let negative = [-1, 5, 7, 0];
    let mut d = negative;
    fwdiag(&mut d, 2);
    same(&rt, &d, &[-2, 4, 6, 0]);
    let mut row = [10, INF, 1, 3];
    fwrow(&negative, &mut row, 2, 2);
    same(&rt, &row, &[6, 8, 1, 3]);
    let mut col = [10, 1, INF, 3];
    fwcol(&negative, &mut col, 2, 2);
    same(&rt, &col, &[8, 1, 10, 3]);
}

/// The turns of three vertices, from a copy of what stood before.
fn from_copies(mut a: [i64; 9]) -> [i64; 9] {
    for k in 0..3 {
        let before = a;
        for i in 0..3 {
            for j in 0..3 {
                let way = plus(before[i * 3 + k], before[k * 3 + j]);
                a[i * 3 + j] = before[i * 3 + j].min(way);
            }
        }
    }
    a
}

#[test]
fn blocks_with_negative_ways_back_are_as_from_copies(rt: HostRuntime) {
    for block in [
        [0, 3, INF, INF, 0, -2, 1, INF, 0],
        [-1, 2, 3, 4, -5, 6, 7, 8, -9],
        [LEAST, TOP, INF, -1, LEAST, 1, INF, TOP, -3],
        [TOP, INF, -4, TOP, TOP, LEAST, INF, -1, INF],
    ] {
        let mut a = block;
        fwdiag(&mut a, 3);
        same(&rt, &a, &from_copies(block));
    }
}

/// Kinds of numbers that meet in a kernel, over and over, from one of them on; or of short ones.
fn extremes(from: usize, short: bool) -> [i64; 17] {
    let kinds = if short {
        [INF, TOP >> 1, 0, 1, (TOP >> 1) - 1]
    } else {
        [INF, TOP, 0, -1, LEAST]
    };
    let mut made = [0; 17];
    for i in 0..17 {
        made[i] = kinds[(from % 5 + i) % 5];
    }
    made
}

/// The sum as it is written down: the exact one, kept below `INF`.
fn plain_sum(a: i64, b: i64) -> i64 {
    if a == INF || b == INF {
        INF
    } else {
        a.saturating_add(b).min(TOP)
    }
}

/// Compares the kernels on the first `n` elements, with a block of one element before them, with single elements.
fn rows_of(rt: &impl Abort, x: &[i64; 17], y: &[i64; 17], n: usize)
    requires { n ≤ 17 }
{
    let mut low = *y;
    lowest(&x[..n], &mut low[..n]);
    let mut least = *y;
    mingemm(&x[..1], &x[..n], &mut least[..n], 1, 1, n as u32);
    let mut row = *y;
    fwrow(&x[..1], &mut row[..n], 1, n as u32);
    let mut col = *y;
    fwcol(&x[..1], &mut col[..n], 1, n as u32);
    for i in 0..17 {
        let old = y[i];
        let beside = if i < n { x[i] } else { INF };
        let via = if i < n { x[0] } else { INF };
        let turned = old.min(plain_sum(via, old));
        let product = old.min(plain_sum(via, beside));
        same(
            rt,
            &[low[i], least[i], row[i], col[i]],
            &[old.min(beside), product, turned, turned],
        );
    }
}

#[test]
fn rows_of_any_length_are_as_element_by_element(rt: HostRuntime) {
    for from in 0..5 {
        for short in [true, false] {
            let x = extremes(from, short);
            let y = extremes(from + 2, short);
            for n in [0usize, 1, 7, 8, 9, 17] {
                rows_of(&rt, &x, &y, n);
            }
        }
    }
}

#[test]
fn lanes_are_as_single_sums(rt: HostRuntime) {
    for from in 0..5 {
        for other in 0..5 {
            let a = extremes(from, false);
            let b = extremes(other, false);
            let x = eight(&a);
            let y = eight(&b);
            let sums = plus8(x, y).to_array();
            let mut plain = [0; 8];
            for i in 0..8 {
                plain[i] = plain_sum(a[i], b[i]);
            }
            same(&rt, &sums, &plain);
        }
    }
}

/// The first eight.
fn eight(xs: &[i64; 17]) -> i64x8
    ensures { AreLanes result }
{
    i64x8::from_array([xs[0], xs[1], xs[2], xs[3], xs[4], xs[5], xs[6], xs[7]])
}

/// The product of 3 by 5 and 5 by 9 elements, one sum after another.
fn plain_product(a: &[i64; 15], b: &[i64; 45], mut c: [i64; 27]) -> [i64; 27] {
    for i in 0..3 {
        for j in 0..9 {
            for l in 0..5 {
                c[i * 9 + j] = c[i * 9 + j].min(plain_sum(a[i * 5 + l], b[l * 9 + j]));
            }
        }
    }
    c
}

/// Any numbers, or short ones: every eighth or so is `INF`, and the others are from 0 below 2^62.
fn numbers<const N: usize>(seed: i64, short: bool) -> [i64; N] {
    let mut made = [0; N];
    let mut seed = seed;
    for i in 0..N {
        seed = seed
            .wrapping_mul(6364136223846793005)
            .wrapping_add(1442695040888963407);
        let inf = (seed >> 20) & 7 == 0;
        made[i] = if inf {
            INF
        } else if short {
            seed & (TOP >> 1)
        } else {
            seed
        };
    }
    made
}

#[test]
fn products_of_short_and_of_any_numbers_are_as_one_sum_after_another(rt: HostRuntime) {
    for seed in 0i64..20 {
        for short in [true, false] {
            let a = numbers(seed, short);
            let b = numbers(seed + 100, short);
            let c = numbers(seed + 200, short);
            let mut made = c;
            mingemm(&a, &b, &mut made, 3, 5, 9);
            same(&rt, &made, &plain_product(&a, &b, c));
        }
    }
}

/// Compares the product of a row of three elements and three rows of `n` with one sum after another.
fn product_of(rt: &impl Abort, a: &[i64; 3], b: &[i64; 51], c: &[i64; 17], n: usize)
    requires { n ≤ 17 }
{
    let mut made = *c;
    mingemm(a, &b[..3 * n], &mut made[..n], 1, 3, n as u32);
    let mut plain = *c;
    for j in 0..n {
        for l in 0..3 {
            plain[j] = plain[j].min(plain_sum(a[l], b[l * n + j]));
        }
    }
    same(rt, &made, &plain);
}

#[test]
fn products_of_any_width_are_as_one_sum_after_another(rt: HostRuntime) {
    for seed in 0i64..20 {
        for short in [true, false] {
            let a = numbers(seed, short);
            let b = numbers(seed + 100, short);
            let c = numbers(seed + 200, short);
            for n in [0usize, 1, 7, 8, 9, 17] {
                product_of(&rt, &a, &b, &c, n);
            }
        }
    }
}
