//! Answers by hand and by plain loops: each kernel of ring arithmetic once.

ghost use Rattle.std.specs.Prelude.{◌≡◌, ◌≤◌, ◌*◌, length};

use crate::numbers::same;
use sj_base::mode::Reduction;
use sj_base::tile::Dims;
use sj_codelet::kernel::{ADD, DOT, INIT_PLUS, LOWEST, SCALE};
use sj_codelet::set::Codelets;
use sj_codelet::window::Window;
use sj_kernels::elementwise::{add, axpy, butterfly, copy, fill, scale};
use sj_kernels::placement::{loadfill, paste, transpose};
use sj_kernels::product::{gemm, gemm3};
use sj_kernels::reduction::{dot, sum};
use sj_kernels::ring::Ring;
use std::process::Abort;

#[test]
fn elements_stay_at_their_places_and_wrap(rt: HostRuntime) {
    let mut x = [7i64; 4];
    fill(i64::MAX, 2, &mut x);
    same(
        &rt,
        &x,
        &[i64::MAX, i64::MIN + 1, i64::MIN + 3, i64::MIN + 5],
    );

    let mut x = [3i64, -4, i64::MIN, i64::MAX];
    scale(-1, &mut x);
    same(&rt, &x, &[-3i64, 4, i64::MIN, -i64::MAX]);

    let mut y = [0i64; 3];
    copy(&[5, -6, 7], &mut y);
    same(&rt, &y, &[5i64, -6, 7]);

    let mut y = [10i64, i64::MAX, i64::MIN];
    add(&[-3, 1, -1], &mut y);
    same(&rt, &y, &[7i64, i64::MIN, i64::MAX]);

    let mut y = [1i64, 1, 1];
    axpy(3, &[2, -2, i64::MAX], &mut y);
    same(&rt, &y, &[7i64, -5, i64::MAX - 1]);

    let mut x = [5i64, i64::MAX];
    let mut y = [2i64, 1];
    butterfly(&mut x, &mut y);
    same(&rt, &x, &[7i64, i64::MIN]);
    same(&rt, &y, &[3i64, i64::MAX - 1]);
}

#[test]
fn sums_go_into_one_element(rt: HostRuntime) {
    let mut s = [100i64];
    dot(&[1, 2, 3], &[4, -5, 6], &mut s);
    same(&rt, &s, &[112i64]);
    let mut s = [1i64];
    sum(&[i64::MAX, 5, -5], &mut s);
    same(&rt, &s, &[i64::MIN]);
    let mut s = [9i64];
    sum(&[], &mut s);
    same(&rt, &s, &[9i64]);
}

#[test]
fn products_are_by_row_and_column(rt: HostRuntime) {
    // A 2 by 3 matrix times a 3 by 2 one.
    let a = [1i64, 2, 3, 4, 5, 6];
    let b = [7i64, 8, 9, 10, 11, 12];
    let mut c = [1000i64, 0, 0, -154];
    gemm(&a, &b, &mut c, 2, 3, 2);
    same(&rt, &c, &[1058i64, 64, 139, 0]);
    let mut c = [5i64, 6];
    gemm(&[], &[], &mut c, 2, 0, 1);
    same(&rt, &c, &[5i64, 6]);

    let d = [1i64, -1];
    let mut t = [0i64; 4];
    let mut c = [0i64, 1];
    gemm3(&a, &b, &d, &mut t, &mut c, 2, 3, 2, 1);
    same(&rt, &c, &[-6i64, -14]);
}

#[test]
fn elements_move_to_their_places(rt: HostRuntime) {
    let mut b = [0i64; 6];
    transpose(&[1, 2, 3, 4, 5, 6], &mut b, 2, 3);
    same(&rt, &b, &[1i64, 4, 2, 5, 3, 6]);

    let mut x = [0i64; 4];
    loadfill(100, 10, 1, 2, 5, &mut x, Dims { rows: 2, cols: 2 });
    same(&rt, &x, &[170i64, 180, 220, 230]);

    let mut new = [0i64; 6];
    let window = Window {
        old_row: 1,
        old_col: 0,
        new_row: 0,
        new_col: 1,
        rows: 1,
        cols: 2,
    };
    paste(
        window,
        &[1, 2, 3, 4],
        Dims { rows: 2, cols: 2 },
        &mut new,
        Dims { rows: 2, cols: 3 },
    );
    same(&rt, &new, &[0i64, 3, 4, 0, 0, 0]);
}

/// Fills with numbers that look random.
fn random(xs: &mut [i64], mut seed: i64) {
    for x in xs.iter_mut() {
        seed = seed
            .wrapping_mul(6364136223846793005)
            .wrapping_add(1442695040888963407);
        *x = seed;
    }
}

/// Fills with the greatest and the least numbers and those about 0.
fn extremes(xs: &mut [i64]) {
    for i in 0..xs.len() {
        xs[i] = match i % 5 {
            0 => i64::MAX,
            1 => i64::MAX - 1,
            2 => 0,
            3 => -1,
            _ => i64::MIN,
        };
    }
}

/// The product as a plain loop along rows.
fn plain_gemm(a: &[i64], b: &[i64], c: &mut [i64], m: usize, k: usize, n: usize)
    requires left { length a.now ≡ m * k }
    requires right { length b.now ≡ k * n }
    requires target { length c.old ≡ m * n }
{
    for i in 0..m {
        for j in 0..n {
            for l in 0..k {
                c[i * n + j] = c[i * n + j].wrapping_add(a[i * k + l].wrapping_mul(b[l * n + j]));
            }
        }
    }
}

#[test]
fn products_of_several_panels_are_those_of_a_plain_loop(rt: HostRuntime) {
    let mut a = [0i64; 99];
    let mut b = [0i64; 2211];
    let mut c = [0i64; 201];
    random(&mut a, 1);
    random(&mut b, 2);
    extremes(&mut c);
    let mut d = c;
    gemm(&a, &b, &mut c, 3, 33, 67);
    plain_gemm(&a, &b, &mut d, 3, 33, 67);
    same(&rt, &c, &d);
}

/// Compares the product of 3 by 3 and 3 by `n` elements with a plain loop.
fn product_of(rt: &impl Abort, a: &[i64; 9], b: &[i64; 51], c: &[i64; 51], n: usize)
    requires { n ≤ 17 }
{
    let mut made = *c;
    let mut plain = *c;
    gemm(a, &b[..3 * n], &mut made[..3 * n], 3, 3, n as u32);
    plain_gemm(a, &b[..3 * n], &mut plain[..3 * n], 3, 3, n);
    same(rt, &made, &plain);
}

#[test]
fn products_of_any_width_are_those_of_a_plain_loop(rt: HostRuntime) {
    let mut odd = [0i64; 9];
    let mut few = [0i64; 9];
    let mut wide = [0i64; 51];
    let mut many = [0i64; 51];
    extremes(&mut odd);
    random(&mut few, 3);
    extremes(&mut wide);
    random(&mut many, 4);
    for n in [0usize, 1, 7, 8, 9, 17] {
        product_of(&rt, &odd, &wide, &many, n);
        product_of(&rt, &few, &wide, &wide, n);
        product_of(&rt, &odd, &many, &wide, n);
        product_of(&rt, &few, &many, &many, n);
    }
}

/// Compares the kernels over single elements with plain loops, on the first `n` elements.
fn elements_of(rt: &impl Abort, x: &[i64], old: &[i64], y: &mut [i64], plain: &mut [i64])
    requires left { length x.now ≡ length y.old }
    requires right { length old.now ≡ length y.old }
    requires plain { length plain.old ≡ length y.old }
{
    copy(old, y);
    add(x, y);
    for i in 0..y.len() {
        plain[i] = old[i].wrapping_add(x[i]);
    }
    same(rt, y, plain);
    copy(old, y);
    axpy(-3, x, y);
    for i in 0..y.len() {
        plain[i] = old[i].wrapping_sub(x[i].wrapping_mul(3));
    }
    same(rt, y, plain);
    scale(i64::MAX, y);
    for i in 0..y.len() {
        plain[i] = plain[i].wrapping_mul(i64::MAX);
    }
    same(rt, y, plain);
}

/// Compares the sums with plain loops.
fn sums_of(rt: &impl Abort, x: &[i64], y: &[i64])
    requires { length x.now ≡ length y.now }
{
    let mut products = i64::MAX;
    let mut total = i64::MIN;
    for i in 0..x.len() {
        products = products.wrapping_add(x[i].wrapping_mul(y[i]));
        total = total.wrapping_add(x[i]);
    }
    let mut s = [i64::MAX];
    dot(x, y, &mut s);
    same(rt, &s, &[products]);
    let mut s = [i64::MIN];
    sum(x, &mut s);
    same(rt, &s, &[total]);
}

#[test]
fn short_arrays_are_as_by_plain_loops(rt: HostRuntime) {
    let mut x = [0i64; 17];
    let mut old = [0i64; 17];
    let mut y = [0i64; 17];
    let mut plain = [0i64; 17];
    for n in [0, 1, 7, 8, 9, 17] {
        extremes(&mut x);
        random(&mut old, 5);
        elements_of(&rt, &x[..n], &old[..n], &mut y[..n], &mut plain[..n]);
        elements_of(&rt, &old[..n], &x[..n], &mut y[..n], &mut plain[..n]);
        sums_of(&rt, &x[..n], &old[..n]);
        sums_of(&rt, &x[..n], &x[..n]);
    }
}

#[test]
fn rows_and_columns_past_the_eighth_are_turned_too(rt: HostRuntime) {
    let mut a = [0i64; 225];
    let mut b = [0i64; 225];
    extremes(&mut a);
    transpose(&a, &mut b, 25, 9);
    let mut plain = [0i64; 225];
    for i in 0..25 {
        for j in 0..9 {
            plain[j * 25 + i] = a[i * 9 + j];
        }
    }
    same(&rt, &b, &plain);
}

#[test]
fn the_ring_knows_its_reduction(rt: HostRuntime) {
    assert!(rt; Ring.has(Reduction::Plus));
    assert!(rt; !Ring.has(Reduction::Least));
    assert!(rt; Ring.combine(Reduction::Plus) == ADD);
    assert!(rt; Ring.init(Reduction::Plus) == INIT_PLUS);
    assert!(rt; Ring.commutes(SCALE) && !Ring.commutes(LOWEST));
    assert!(rt;
        Ring.contributes(DOT, Reduction::Plus) && !Ring.contributes(SCALE, Reduction::Plus)
    );
}
